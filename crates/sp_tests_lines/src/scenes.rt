//! Tests of scenarios and of their generator.
//!
//! `reasons`, `orders`, `texts`, `limits` and `sizes` test the fault of a line, `feeds` the messages and the
//! feed of a scenario, `made` the bytes of its blocks, `labels` its names, `source` its own bytes as they are
//! taken, and `generator` those that are made from a seed. `bulk` and `crowds` test the time that hostile
//! scenarios take. `lines` makes texts of many lines, and `judging` reads a scenario.

mod bulk;
mod crowds;
mod feeds;
mod generator;
mod judging;
mod labels;
mod limits;
mod lines;
mod made;
mod orders;
mod reasons;
mod sizes;
mod source;
mod texts;
