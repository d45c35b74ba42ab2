//! Tests of the transactions that blocks carry, of which are accepted, of what is left, and of an engine to
//! which blocks come, by public calls. They stand in a crate of their own because a crate with tests is
//! proved twice.
//!
//! `rivals` tests which carriers conflict, `collisions` and `id_crowds` that outpoints and ids which crowd a
//! table by hash don't make the look-ups of carriers slow, and `told` that carriers are the same where the ids
//! of their transactions are told. `turns` tests which transactions turn as blocks come.
//! `arrivals`, `refusals` and `full_engine` test what an engine says of the bytes that come, `memory_refused`
//! that one to which memory was refused is as it was, and `acceptance` which transactions an engine accepts.
//! `purse` tests what is left as transactions are accepted and taken back, by the purse itself, and `balances`
//! what an engine says is left. `spent_twice` tests both after each arrival of drawn feeds, `contested` that
//! acceptance by what changed is right where rivals stand in each other's way, and `long_chain` that a long
//! chain of spends turns.
//!
//! `arrival_rows`, `acceptance_rows`, `balance_rows`, `purse_rows` and `turn_rows` are tables of these.
//! `engine` makes an engine and runs it, `beside` asks a ledger beside it, `feeds` draws what the blocks of a
//! drawn graph carry, `blocks` makes blocks that carry transactions, `payments` makes transactions, `left`
//! compares what is left under each lock, and `rows` judges a table's row. `ledger` decides on carriers, in
//! the order that `voted` has from the plain votes, and `changes` says what it is told.
#![tactic(auto)]

#[cfg(test)]
mod acceptance;
#[cfg(test)]
mod acceptance_rows;
#[cfg(test)]
mod arrival_rows;
#[cfg(test)]
mod arrivals;
#[cfg(test)]
mod balance_rows;
#[cfg(test)]
mod balances;
#[cfg(test)]
mod beside;
#[cfg(test)]
mod blocks;
#[cfg(test)]
mod changes;
#[cfg(test)]
mod collisions;
#[cfg(test)]
mod contested;
#[cfg(test)]
mod engine;
#[cfg(test)]
mod feeds;
#[cfg(test)]
mod full_engine;
#[cfg(test)]
mod id_crowds;
#[cfg(test)]
mod ledger;
#[cfg(test)]
mod left;
#[cfg(test)]
mod long_chain;
#[cfg(test)]
mod memory_refused;
#[cfg(test)]
mod payments;
#[cfg(test)]
mod purse;
#[cfg(test)]
mod purse_rows;
#[cfg(test)]
mod refusals;
#[cfg(test)]
mod rivals;
#[cfg(test)]
mod rows;
#[cfg(test)]
mod spent_twice;
#[cfg(test)]
mod told;
#[cfg(test)]
mod turn_rows;
#[cfg(test)]
mod turns;
#[cfg(test)]
mod voted;
