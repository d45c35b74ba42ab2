//! Tests of certificates, by public calls. They stand in a crate of their own because a crate with tests
//! is proved twice.
//!
//! `worked` tests certificates of graphs whose votes were worked out by hand, in either profile, and
//! `pairs` those of each two blocks of graphs that are made and drawn. `reading` tests bytes that are no
//! certificate, `hostile` certificates that show nothing, and `one_byte` each other value of each byte of
//! one that does. `engine` makes engines and asks them for certificates, `bytes` writes, reads and judges
//! them, and `rows` judges a table's row.
#![tactic(auto)]

#[cfg(test)]
mod bytes;
#[cfg(test)]
mod engine;
#[cfg(test)]
mod hostile;
#[cfg(test)]
mod one_byte;
#[cfg(test)]
mod pairs;
#[cfg(test)]
mod reading;
#[cfg(test)]
mod rows;
#[cfg(test)]
mod worked;
