//! The graph of the present blocks, which are numbered from 0, genesis, in order of presence: the
//! past and the future of each as a row of numbers, the unrelated pairs, and the rank of each, by
//! which a tie may be settled. Contracts see the profile, and the id, the salt and the parents of each
//! number; past, future, unrelated pairs and ranks are those of the model's graph whose keys are the
//! numbers. It stands on the model's definitions and on the rows of places.
#![tactic(auto)]

mod dag;
mod indices;
pub mod laws;
mod numbers;
mod pairs;
mod ranks;
mod rows;
mod table;

pub use dag::Dag;
