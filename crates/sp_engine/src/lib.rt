//! One arrival at a time: bytes are judged, kept, numbered and voted on, transactions are accepted,
//! and questions on two blocks and on a transaction are answered.
//!
//! The engine joins the pool of kept blocks, the graph of the present ones, their votes, their
//! transactions and which of these are accepted. All but the pool speak in numbers of presence; here
//! the answers become those of ids, by the laws that other keys change no vote and no acceptance.
//! Contracts see the profile, the bits of work, the kept blocks, and the present ones by number with
//! their votes. The lines of answers, the node, certificates and wallets stand on this crate.
#![tactic(auto)]

mod acceptance;
mod answer;
mod block_view;
mod changes;
mod engine;
mod first;
mod growth;
mod joining;
pub mod laws;
mod numbering;
pub mod payments;
mod valid;
mod votes;
mod words;

pub use answer::{Answer, Refusal};
pub use engine::Engine;
pub use sp_carry::TxState;
