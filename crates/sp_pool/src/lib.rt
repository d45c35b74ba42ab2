//! The pool of blocks that arrive in any order: which of them are kept, and which are present.
//!
//! A kept block is present once all its ancestors are kept and lead to genesis; until then it
//! waits. `specs/Kept.antt` says both over the whole list of arrivals, and `offer_all` shows that a
//! pool comes to that. Votes are taken over the present blocks alone.
#![tactic(auto)]

mod answers;
mod arrivals;
mod entries;
pub mod laws;
mod pool;
mod release;

pub use answers::{Offer, Standing};
pub use arrivals::offer_all;
pub use pool::Pool;
