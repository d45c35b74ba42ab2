//! Watching: what the present blocks say of transactions, of locks and of pairs of blocks, noted
//! after each arrival, so that each change can be told, and since when a value stands.
//!
//! `specs/Watching.antt` says what is noted.
#![tactic(auto)]

mod item;
mod items;
pub mod laws;
mod lines;
mod values;
mod watch;
mod write;

pub use item::{Change, Item, Value};
pub use items::Items;
pub use watch::Watch;
pub use write::{write_all_held, write_change, write_changes, write_held};
