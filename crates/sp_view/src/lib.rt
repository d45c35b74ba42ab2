//! Views: the votes of sets of present blocks, pair by pair, as rows that views share. A view grows
//! by one block at a time; only votes that the block may turn are asked anew, those of voters in its past that voted
//! against its own.
#![tactic(auto)]

mod asked_by_block;
mod asked_by_growth;
mod best;
mod block_runs;
mod both_sides;
mod derive;
mod entries;
mod genesis_turn;
mod genesis_vote;
mod growth;
mod joining;
mod last_pair;
pub mod laws;
mod new_pairs;
mod old_pairs;
mod own_vote;
mod pair_rows;
mod pasts;
mod reask;
mod reuse_rows;
mod runs;
mod saved;
mod settle;
mod sharing;
mod stored;
mod summing;
mod sums;
mod tally;
mod view;
mod voting;
mod writing;

// A crate can name a view in a contract only if the types of its fields are exported.
pub use saved::Saved;
#[doc(hidden)]
pub use stored::RowName;
pub use sums::Sums;
pub use view::View;
