//! Rows of 512 places, one for each block that a ledger can keep. Contracts see a row as a set,
//! the ascending list of the places that it has. The crate stands on no other; the graph of present
//! blocks stands on it.
#![tactic(auto)]

mod row;
mod words;

pub use row::Row;
