//! Transactions and their bytes: the format, reading, writing, ids, and what two transactions
//! share.
//!
//! `specs/Format.antt` is the table of the format, a line for each field. From it stands what it
//! means that bytes spell a transaction, and what the first fault of bytes is; `read_tx` answers by
//! these alone.
#![tactic(auto)]

mod check;
mod fault;
pub mod laws;
mod list;
mod parts;
mod reader;
mod spending;
mod tx;
mod writer;

pub use fault::{TxFault, TxReadFault};
pub use list::{Bytes, Inputs, Outputs, Txs};
pub use parts::{Input, Output};
pub use spending::{conflicts, opens};
pub use tx::{Tx, read_tx};
pub use writer::{id, write_tx, written_len};
