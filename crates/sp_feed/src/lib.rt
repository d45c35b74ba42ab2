//! Reads a feed off a source, a message at a time: its head, with the bits of work and the genesis
//! block, then frames up to the frame `E`, and not a byte more.
//!
//! `specs/Feed.antt` says what the messages of a feed are, given all its bytes; here they come in
//! any pieces. `read_all` reads a whole feed, and its contract is the theorem over such a run. The
//! crates behind the commands that take a feed stand on this one.
#![tactic(auto)]

mod fault;
mod field;
mod fill;
mod frame;
mod head;
mod kind;
pub mod laws;
mod message;
mod phase;
mod reader;
mod run;
mod version;

pub use fault::{FeedFault, HeadFault};
pub use head::FeedHead;
pub use message::Message;
pub use reader::FeedReader;
pub use run::{Visitor, read_all};
pub use version::name_of;
