//! Names for ids: what a line calls a block, a transaction or a lock, in the order in which the
//! names were given. A name has 1 to 64 bytes and stands in place, so that to make one takes no
//! memory.
//!
//! The lines and the scenarios stand on it.
#![tactic(auto)]

mod labels;
mod name;
mod names;
mod order;

pub use name::Name;
pub use names::Names;
pub use order::push_wanted;
