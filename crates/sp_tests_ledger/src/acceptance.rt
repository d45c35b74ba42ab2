//! Which transactions an engine accepts, in two orders of arrival.

use crate::acceptance_rows::{HOSTILE, ROWS, Row};
use crate::blocks::{Blocks, offer_each};
use crate::engine::engine_of;
use crate::payments::{PAYMENTS, tx_id};
use crate::rows::right;
use sp_engine::{Engine, TxState};
use sp_fixtures::NOBODY;
use sp_ids::TxId;
use std::alloc::Global;
use std::test::Fail;

/// What an engine says at the end: how many blocks are present, the state of each transaction and
/// of an id that none has, and what it counts.
#[derive(Drop)]
struct Ran {
    present: u16,
    states: Vec<TxState>,
    listed: Vec<(TxId, bool)>,
}

fn state(engine: &Engine, id: &TxId) -> Result<TxState, Fail> {
    Ok(engine.tx_state(id))
}

fn states(alloc: Global, engine: &Engine, ids: &[TxId]) -> Result<Vec<TxState>, Fail> {
    let mut states = Vec::new(alloc);
    for id in ids {
        states.push(state(engine, id)?)?;
    }
    states.push(state(engine, &TxId::from_bytes(NOBODY))?)?;
    Ok(states)
}

/// How many blocks are present, and how many transactions they carry.
pub fn counts(engine: &Engine) -> Result<(u16, u32), Fail> {
    Ok((engine.present(), engine.tx_count()))
}

fn tx_at(engine: &Engine, i: u32) -> Result<(TxId, bool), Fail> {
    if i >= engine.tx_count() {
        return Err("not carried".into());
    }
    Ok(engine.tx_at(i))
}

pub fn listed(alloc: Global, engine: &Engine, count: u32) -> Result<Vec<(TxId, bool)>, Fail> {
    let mut listed = Vec::new(alloc);
    for i in 0..count {
        listed.push(tx_at(engine, i)?)?;
    }
    Ok(listed)
}

fn ends(engine: &Engine, blocks: &Blocks) -> Result<Ran, Fail> {
    let (present, count) = counts(engine)?;
    Ok(Ran {
        present,
        states: states(blocks.alloc, engine, blocks.txs())?,
        listed: listed(blocks.alloc, engine, count)?,
    })
}

fn runs(engine: &mut Engine, blocks: &Blocks, backward: bool) -> Result<Ran, Fail> {
    offer_each(engine, blocks, backward)?;
    ends(engine, blocks)
}

fn run(blocks: &Blocks, backward: bool) -> Result<Ran, Fail> {
    let mut engine = engine_of(blocks.alloc, blocks.text(0), 0)?;
    let ran = runs(&mut engine, blocks, backward);
    drop(engine);
    ran
}

/// The state of a transaction, by those that are carried.
fn state_in(listed: &[(usize, bool)], number: usize) -> TxState {
    for (one, is_accepted) in listed {
        if *one == number {
            return if *is_accepted {
                TxState::Accepted
            } else {
                TxState::Rejected
            };
        }
    }
    TxState::Absent
}

fn are_states(states: &[TxState], listed: &[(usize, bool)]) -> bool {
    states.len() == PAYMENTS.len().saturating_add(1)
        && states
            .iter()
            .enumerate()
            .all(|(number, state)| *state == state_in(listed, number))
}

fn are_listed(ids: &[TxId], found: &[(TxId, bool)], listed: &[(usize, bool)]) -> bool {
    found.len() == listed.len()
        && found.iter().zip(listed).all(|(one, other)| one.0 == tx_id(ids, other.0)
            && one.1 == other.1)
}

/// What is wrong where the blocks come by their numbers.
fn wrong(blocks: &Blocks, ran: &Ran, row: &Row) -> &'static str {
    if ran.present != row.present {
        "present"
    } else if !are_states(&ran.states, row.listed) {
        "states"
    } else if !are_listed(blocks.txs(), &ran.listed, row.listed) {
        "listed"
    } else {
        ""
    }
}

/// What is wrong where the last comes first: as many transactions are counted, in another order.
fn wrong_backward(ran: &Ran, row: &Row) -> &'static str {
    if ran.present != row.present {
        "present backward"
    } else if !are_states(&ran.states, row.listed) {
        "states backward"
    } else if ran.listed.len() != row.listed.len() {
        "listed backward"
    } else {
        ""
    }
}

fn wrong_forward_in(alloc: Global, row: &Row) -> Result<&'static str, Fail> {
    let blocks = Blocks::of(alloc, &[0], row.blocks)?;
    let ran = run(&blocks, false)?;
    Ok(wrong(&blocks, &ran, row))
}

fn wrong_backward_in(alloc: Global, row: &Row) -> Result<&'static str, Fail> {
    let blocks = Blocks::of(alloc, &[0], row.blocks)?;
    let ran = run(&blocks, true)?;
    Ok(wrong_backward(&ran, row))
}

#[test]
fn states_of_payments(rt: HostRuntime) -> Result<(), Fail> {
    for (place, row) in ROWS.iter().enumerate() {
        right(&rt, place, wrong_forward_in(rt.alloc(), row)?);
    }
    Ok(())
}

#[test]
fn states_of_hostile_payments(rt: HostRuntime) -> Result<(), Fail> {
    for (place, row) in HOSTILE.iter().enumerate() {
        right(&rt, place, wrong_forward_in(rt.alloc(), row)?);
    }
    Ok(())
}

/// The states are those of the present blocks, whatever the order in which they came.
#[test]
fn the_last_block_first(rt: HostRuntime) -> Result<(), Fail> {
    for (place, row) in ROWS.iter().enumerate() {
        right(&rt, place, wrong_backward_in(rt.alloc(), row)?);
    }
    for (place, row) in HOSTILE.iter().enumerate() {
        right(&rt, place, wrong_backward_in(rt.alloc(), row)?);
    }
    Ok(())
}
