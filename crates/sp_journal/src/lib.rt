//! The journal of a ledger: a disk on which each block stands before it is acknowledged, and from which
//! a node starts again after a crash at any moment.
//!
//! `specs/Format.antt` is the table of the format, a line for each field. From it `specs/Records.antt`
//! says what any list of bytes holds: no journal, one that is damaged at a place, or the profile, the bits
//! of work, the genesis block and the recorded blocks. `Journal::open` answers by that alone, and what
//! `Journal::create` and `append` promise of each crash is said by it too.
#![tactic(auto)]

mod create;
mod fault;
mod fields;
mod gate;
mod gate_kind;
mod head;
mod journal;
pub mod laws;
mod put;
mod reading;
mod record;
mod recovery;
mod row;
mod step;
mod version;

pub use fault::{AppendFault, CreateFault, JournalFault};
pub use gate_kind::Gate;
pub use journal::{Journal, Opened};
