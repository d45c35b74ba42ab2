//! The lines that the program writes: what became of bytes that arrived, what is said of two blocks,
//! of a transaction or of a lock, and where a feed went wrong. Each is put together whole in a buffer
//! of its own and then written, so that no line takes memory. Texts of many lines tell of all pairs
//! of blocks, or of all blocks, transactions and balances; they take memory for the order of their
//! lines alone.
//!
//! The node and the player of scenarios stand on it.
#![tactic(auto)]

mod answers;
mod ask;
mod asks;
mod faults;
mod line;
mod lines;
mod listed;
mod naming;
mod ordered;
mod pairs;
mod reasons;
mod report;
mod text;
mod texts;

pub use answers::answer_line;
pub use ask::Ask;
pub use asks::ask_line;
pub use faults::{malformed_line, too_long_line, truncated_line};
pub use line::Line;
pub use lines::{
    accepted_count_line, balance_count_line, balance_line, blocks_line, full_line, kept_line,
    known_line, pair_count_line, refused_line, state_text, tx_line, vote_line, waiting_line,
    word_text,
};
pub use naming::{Naming, block_label, lock_label, tx_label};
pub use ordered::present_ids;
pub use pairs::pair_count;
pub use text::{Text, TextFault};
pub use texts::write_text;
