//! Tests of a node with a journal, by its public calls. They stand in a crate of their own because a
//! crate with tests is proved twice.
//!
//! `opening` tests what is found on a disk, `starting` a start on a journal that was found, `messages`
//! what is recorded and what isn't, and `calls` a whole run with each call of the disk failing in
//! turn, and a start on what each crash leaves. `served` is the node with its disk, `texts` puts
//! journals together by hand, `judging` compares lines, and `rows` judges a table's row.
#![tactic(auto)]

#[cfg(test)]
mod calls;
#[cfg(test)]
mod judging;
#[cfg(test)]
mod messages;
#[cfg(test)]
mod opening;
#[cfg(test)]
mod rows;
#[cfg(test)]
mod served;
#[cfg(test)]
mod starting;
#[cfg(test)]
mod texts;
