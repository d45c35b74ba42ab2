//! Which transactions stand in which blocks, which of these carriers are sound, and which conflict.
//! The definitions of acceptance and of balances stand here, with their laws.
#![tactic(auto)]

mod carrier;
mod carriers;
mod carry;
mod copies;
mod few;
mod flags;
mod ids;
pub mod laws;
mod marks;
mod numbers;
mod past_carriers;
mod rival_rows;
mod rivals;
mod sets;
mod sources;
mod spenders;
mod state;
mod table;
mod worth;

pub use carrier::{Carrier, Flip};
pub use carriers::Carriers;
pub use flags::is_set;
pub use sets::ascending;
pub use state::TxState;
