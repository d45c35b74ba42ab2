//! One message at a time: a block that arrives is offered to the engine, a question is asked of it,
//! and the answer is written, which is a line, or a text of many.
//!
//! `specs/Answers.antt` says what answers each message, over the blocks that arrived before it.
//! The commands that take a feed stand on this crate.
#![tactic(auto)]

mod arrival;
mod fault;
pub mod laws;
mod node;
mod start;
mod stored;

pub use fault::NodeFault;
pub use node::Node;
pub use start::{StartFault, recovered};
pub use stored::Stored;
