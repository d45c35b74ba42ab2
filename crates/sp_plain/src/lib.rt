//! The virtual votes of any set of present blocks that holds the past of each member, by a matrix for
//! the past of each block: the five cases of a vote in the procedure CalcVotes of the SPECTRE paper,
//! written down as they are read.
//!
//! It is the slow reference, clear before fast: tests compare other votes with it. `plain_votes` begins anew each
//! time, and a `Plain` keeps the matrices of pasts as its graph grows. `first_blocks` is such a set.
#![tactic(auto)]

mod ballots;
mod firsts;
mod grown;
mod matrix;
mod plain;

pub use firsts::first_blocks;
pub use grown::Plain;
pub use matrix::Matrix;
pub use plain::plain_votes;
