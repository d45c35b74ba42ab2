//! Tests of the votes of blocks, by public calls, beside the plain votes: frozen votes, views and the rows
//! that views share, and what an engine says of each two blocks. They stand in a crate of their own because
//! a crate with tests is proved twice.
//!
//! Larger graphs come to an engine, whose views and frozen votes are looked at here: `graphs` draws
//! them, and the orders in which their blocks come, and `engines` makes the engine. `signs` compares a
//! view with the plain votes of its members, `beside` has a graph of plain votes that grows with an engine's,
//! `voters` each voter of a pair, and `counts` how often each row is counted. `plain_words` compares what an
//! engine says of each two blocks with the plain votes. What two views share is tested apart from an engine:
//! `based` grows a graph with its frozen votes, and `two` has two views over one pool. `places` has rows by
//! their places, and `rows` judges a table's row.
//!
//! The tests: `small` has graphs worked out by hand, `drawn` graphs that are drawn, `ties` the voters in
//! these that settle ties, `hostile` shapes of 60 blocks, `orders` what is said in the end in several
//! orders of arrival, `layer` a block on 64 others, `summed` sums that grow with a view, `restored` views that are
//! put back, `shared` two views of a small graph that share rows, and `refused` what is left where memory is refused.
//! Of an engine, `words_drawn` tests what it says of each two blocks of drawn graphs, `words_settled` what it
//! says where blocks settle ties, `words_worked_out` what it says of graphs whose words were worked out apart,
//! and `engine_rows` the rows that its views share.
#![tactic(auto)]

#[cfg(test)]
mod based;
#[cfg(test)]
mod beside;
#[cfg(test)]
mod counts;
#[cfg(test)]
mod drawn;
#[cfg(test)]
mod engine_rows;
#[cfg(test)]
mod engines;
#[cfg(test)]
mod graphs;
#[cfg(test)]
mod hostile;
#[cfg(test)]
mod layer;
#[cfg(test)]
mod orders;
#[cfg(test)]
mod places;
#[cfg(test)]
mod plain_words;
#[cfg(test)]
mod refused;
#[cfg(test)]
mod restored;
#[cfg(test)]
mod rows;
#[cfg(test)]
mod shared;
#[cfg(test)]
mod signs;
#[cfg(test)]
mod small;
#[cfg(test)]
mod summed;
#[cfg(test)]
mod ties;
#[cfg(test)]
mod two;
#[cfg(test)]
mod voters;
#[cfg(test)]
mod words_drawn;
#[cfg(test)]
mod words_settled;
#[cfg(test)]
mod words_worked_out;
