//! Nodes that send each other blocks: each keeps what arrives at it, tells others what it keeps, asks
//! for what it lacks, and brings what it is asked for. A packet that was sent may be delivered at any
//! later time, in any order, again, or never.
//!
//! `specs/Gossip.antt` says what a list of events comes to, over the bytes that arrived at each node
//! and the packets that were sent.
#![tactic(auto)]

mod cut;
mod event;
pub mod laws;
mod made_blocks;
mod net;
mod packet;
mod peer;
mod piece;
mod schedule;
mod script;
mod script_line;
mod script_words;
mod step;

pub use cut::{Cut, find_script};
pub use event::Event;
pub use net::Net;
pub use packet::{Kind, Packet};
pub use schedule::take_all;
pub use script::{Script, begins_with_nodes};
pub use script_line::{Made, ScriptLine, ScriptWhy};
pub use step::{Answers, Step, StepFault};
