//! Scenarios: a small language for blocks, transactions and questions, read whole into the feed
//! that it stands for.
#![tactic(auto)]

mod command;
mod copies;
mod drafts;
mod entries;
mod feeding;
mod forms;
mod found;
mod frames;
mod judging;
mod known;
pub mod laws;
mod limits;
mod lookups;
mod made;
mod namings;
mod numbers;
mod out;
mod paid;
mod pieces;
mod place_list;
mod places;
mod profile_word;
mod saying;
mod scans;
mod scene;
mod source;
mod spelling;
mod spends;
mod stage;
mod thing;
mod txs;
mod whole;
mod why;
mod words;

pub use numbers::{is_decimal, number_of};
pub use profile_word::profile_of;
pub use source::{ScenarioFault, read_scenario};
pub use spelling::{has_line_bytes, is_skipped, is_word};
pub use whole::Scene;
pub use why::{LineFault, Why};
pub use words::{Words, first_line, first_word};
