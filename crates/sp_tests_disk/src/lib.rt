//! Tests of the disks and of the journal, by their public calls. They stand in a crate of their own because a
//! crate with tests is proved twice.
//!
//! `memory` has the disk in memory, `memory_rows` its table, `file` a disk over a file, and `asked` what that
//! asks of the system; `journal` has the journal. `rows` judges a table's row.
#![tactic(auto)]

#[cfg(test)]
mod asked;
#[cfg(test)]
mod file;
#[cfg(test)]
mod journal;
#[cfg(test)]
mod memory;
#[cfg(test)]
mod memory_rows;
#[cfg(test)]
mod rows;
