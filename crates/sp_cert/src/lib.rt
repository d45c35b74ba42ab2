//! Certificates of a vote: a list of votes that can be checked entry by entry, with the pasts taken
//! from the blocks alone.
//!
//! `specs/Entries.antt` says what an entry is to be, given the others, and no entry is defined by
//! recursion; `specs/Refusals.antt` says what refuses a certificate. A certificate that nothing
//! refuses shows the virtual vote of its blocks (`laws`).
#![tactic(auto)]

mod cast;
mod cert;
mod certifying;
mod fault;
pub mod laws;
mod numbers;
mod placed;
mod places;
mod present;
mod reading;
mod tally;
mod tell;
mod verdict;
mod votes;
mod world;
mod writing;

pub use cert::Cert;
pub use certifying::certify;
pub use fault::{CertFault, CertifyFault, CheckFault};
pub use reading::read_cert;
pub use verdict::check;
pub use world::{Votes, World, Worlds};
pub use writing::write_cert;
