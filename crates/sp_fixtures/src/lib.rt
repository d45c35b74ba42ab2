//! What the tests of several crates make before they call anything: `graph` has graphs of blocks by
//! the bytes of their ids, `blocks` has blocks without transactions, `drawn` draws graphs of these, and
//! `fields` joins bytes. It is a library, so that each of these is proved once, and it stands on the
//! blocks and the graph alone, so that the tests of those don't stand on the engine.
#![tactic(auto)]

mod blocks;
pub mod drawn;
mod fields;
pub mod graph;

pub use blocks::{GENESIS, NOBODY, Numbered, genesis_of};
pub use fields::flat;
