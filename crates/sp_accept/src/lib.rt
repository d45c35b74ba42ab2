//! Acceptance: which carriers and which transactions are accepted, and which transactions'
//! acceptance turned, by what blocks that join can change, or by one pass over all carriers in their
//! order. It stands on the definition of an accepted carrier in the crate of the carriers; where
//! blocks stand to one another is told by whatever order is handed in.
#![tactic(auto)]

mod accepted;
mod accepted_rows;
mod by_rows;
mod flags;
mod flips;
pub mod laws;
mod lookups;
mod order;
mod pass;
mod rival_blocks;
mod rivals;
mod safe_blocks;
mod settle;
mod sources;
mod todo;
mod touched;
mod update;
mod witness;

pub use accepted::Accepted;
pub use order::Order;
