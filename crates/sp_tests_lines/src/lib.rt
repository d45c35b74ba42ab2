//! Tests of what stands between the engine and the program, by public calls: of feeds, lines, texts, the node
//! and scenarios. They stand in a crate of their own because a crate with tests is proved twice.
//!
//! `feed` and `pieces` test what is read of a feed, by `heard`; `answers`, `made` and `report` the lines
//! and texts, by `tale`; `node` a message and its line, each by ids, and `names` both by names; and `scenes`
//! scenarios.
//! `fixtures` makes what they stand on, `plain` is the node that they ask, and `rows` judges a table's
//! row.
#![tactic(auto)]

#[cfg(test)]
mod answers;
#[cfg(test)]
mod feed;
#[cfg(test)]
mod fixtures;
#[cfg(test)]
mod heard;
#[cfg(test)]
mod made;
#[cfg(test)]
mod names;
#[cfg(test)]
mod node;
#[cfg(test)]
mod pieces;
#[cfg(test)]
mod plain;
#[cfg(test)]
mod report;
#[cfg(test)]
mod rows;
#[cfg(test)]
mod scenes;
#[cfg(test)]
mod tale;
