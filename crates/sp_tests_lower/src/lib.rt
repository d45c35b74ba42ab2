//! Tests of the crates below the engine and the feed, by their public calls: of ids, forms, transactions,
//! blocks, sources and sinks, rows, graphs and plain votes. They stand in a crate of their own because a
//! crate with tests is proved twice, and apart from the other tests so that a change of the engine proves
//! none of these again.
//!
//! `ids`, `form`, `tx`, `pool`, `bits`, `dag`, `plain` and `io` test the crates of those names, and
//! `tx_pairs` which transactions conflict. Of blocks, `block` has the bytes that are read and those
//! that are refused, `block_spellings` all that bytes spell, and `drafts` the bytes that are written
//! and the search for a nonce. Of rows, `row_words` tests a row of places against its eight words, `row_room`
//! the room of a pool of rows, and `row_calls` such a pool against a plain list of its rows, which is `row_list`.
//!
//! `block_rows` is the table of `block`. `block_parts` has the parts of blocks and `pieces` the bytes
//! that those and transactions are put together from. `rows` judges a table's row. The program in the
//! folder bench, which is no part of the gate, times the calls of rows.
#![tactic(auto)]

#[cfg(test)]
mod bits;
#[cfg(test)]
mod block;
#[cfg(test)]
mod block_parts;
#[cfg(test)]
mod block_rows;
#[cfg(test)]
mod block_spellings;
#[cfg(test)]
mod dag;
#[cfg(test)]
mod drafts;
#[cfg(test)]
mod form;
#[cfg(test)]
mod ids;
#[cfg(test)]
mod io;
#[cfg(test)]
mod pieces;
#[cfg(test)]
mod plain;
#[cfg(test)]
mod pool;
#[cfg(test)]
mod row_calls;
#[cfg(test)]
mod row_list;
#[cfg(test)]
mod row_room;
#[cfg(test)]
mod row_words;
#[cfg(test)]
mod rows;
#[cfg(test)]
mod tx;
#[cfg(test)]
mod tx_pairs;
