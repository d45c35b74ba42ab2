//! The names of the ledger: ids of blocks and of transactions, locks and outpoints, and the one
//! refusal that every crate can answer, want of memory. Every crate of the ledger stands on this
//! one.
//!
//! An id is the SHA-256 of the bytes that it names, a lock that of its preimage. Contracts see each
//! of them as the number of its 32 bytes, the first byte the highest, so that equality and order
//! are those of numbers.
#![tactic(auto)]

mod block_id;
mod bytes;
mod hex_fault;
mod ids;
mod lock;
mod memory;
mod outpoint;
mod tx_id;

pub use block_id::BlockId;
pub use hex_fault::HexFault;
pub use ids::Ids;
pub use lock::Lock;
pub use memory::Memory;
pub use outpoint::Outpoint;
pub use tx_id::TxId;
