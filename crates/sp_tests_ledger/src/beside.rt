//! What an engine accepts and leaves after each arrival, beside a ledger of its present blocks that
//! decides on all carriers anew, and by what changed.

use crate::acceptance::{counts, listed};
use crate::balances::{balance, said as said_by_engine};
use crate::ledger::Ledger;
use crate::left::Said;
use crate::purse::said as said_by_purse;
use sp_block::Block;
use sp_carry::Flip;
use sp_engine::Engine;
use sp_ids::{Lock, TxId};
use sp_money::Purse;
use std::alloc::Global;
use std::test::Fail;

fn block_at(engine: &Engine, n: u16) -> Result<&Block, Fail> {
    if n >= engine.present() {
        return Err("not present".into());
    }
    let id = engine.id_at(n);
    Ok(engine.block(&id).ok_or("not kept")?)
}

/// A ledger of the genesis block of an engine, which follows it by `decide`.
pub fn ledger_of(alloc: Global, engine: &Engine) -> Result<Ledger, Fail> {
    let genesis = block_at(engine, 0)?;
    Ledger::of(alloc, genesis.id)
}

/// Adds what the block of this number carries, and the block itself where it isn't genesis.
fn follow(engine: &Engine, ledger: &mut Ledger, n: u16) -> Result<(), Fail> {
    let block = block_at(engine, n)?;
    if n == 0 {
        ledger.carry(&block.txs)
    } else {
        ledger.add(block.id, block.parents.as_slice(), &block.txs)
    }
}

fn follow_all(engine: &Engine, ledger: &mut Ledger, present: u16) -> Result<(), Fail> {
    for n in ledger.carried()..present {
        follow(engine, ledger, n)?;
    }
    Ok(())
}

fn are_txs(one: &[(TxId, bool)], other: &[(TxId, bool)]) -> bool {
    one.len() == other.len() && one.iter().zip(other).all(|(a, b)| a.0 == b.0 && a.1 == b.1)
}

fn are_left(one: &[(Lock, u128)], other: &[(Lock, u128)]) -> bool {
    one.len() == other.len() && one.iter().zip(other).all(|(a, b)| a.0 == b.0 && a.1 == b.1)
}

fn is_said(one: &Said, other: &Said) -> bool {
    are_left(&one.listed, &other.listed) && one.asked == other.asked
}

/// Whether each lock that an engine lists has that balance where one asks for it by the lock.
fn are_balances(engine: &Engine, listed: &[(Lock, u128)]) -> Result<bool, Fail> {
    for (lock, amount) in listed {
        if balance(engine, lock)? != *amount {
            return Ok(false);
        }
    }
    Ok(true)
}

fn is_left(alloc: Global, engine: &Engine, purse: &Purse) -> Result<bool, Fail> {
    let one = said_by_engine(alloc, engine)?;
    let other = said_by_purse(alloc, purse)?;
    Ok(is_said(&one, &other) && are_balances(engine, &one.listed)?)
}

/// What is wrong with what an engine says, beside a ledger of its present blocks.
fn wrong(alloc: Global, engine: &Engine, ledger: &mut Ledger) -> Result<&'static str, Fail> {
    let anew = ledger.anew()?;
    let (_, count) = counts(engine)?;
    if !ledger.is_same(&anew.accepted) {
        Ok("update")
    } else if !are_txs(&listed(alloc, engine, count)?, &ledger.listed()?) {
        Ok("transactions")
    } else if !is_left(alloc, engine, &anew.purse)? {
        Ok("balances")
    } else {
        Ok("")
    }
}

/// How many turned back, which had been accepted.
fn turned_back(flips: &[Flip]) -> usize {
    flips.iter().filter(|flip| !flip.now).count()
}

/// A ledger decides on what became present in an engine; how many transactions turned back, where
/// nothing is wrong.
pub fn decide(alloc: Global, engine: &Engine, ledger: &mut Ledger) -> Result<usize, Fail> {
    let (present, _) = counts(engine)?;
    follow_all(engine, ledger, present)?;
    let back = turned_back(&ledger.update(&[])?);
    let wrong = wrong(alloc, engine, ledger)?;
    if !wrong.is_empty() {
        return Err(wrong.into());
    }
    Ok(back)
}
