//! The generator of scenarios of any size. The same three numbers make the same text everywhere, so
//! a large input needs no file. Nothing of the ledger is known here: what is made is the text of a
//! scenario, which its reader judges as any other.
//!
//! The program stands on it.
#![tactic(auto)]

mod blocks;
mod draws;
mod laws;
mod lines;
mod text;

pub use laws::worked_examples;
pub use text::make;
