//! The definitions of votes on the order of blocks, as the procedure of the SPECTRE paper states
//! them (`specs/Graph.antt` and `specs/Votes.antt`), and the laws that they keep. Every word that
//! the ledger's program answers on two blocks is the `word` of these definitions. The crate stands
//! on no other, and computes nothing itself.
#![tactic(auto)]

pub mod laws;
mod profile;
mod word;

pub use profile::Profile;
pub use word::Word;
