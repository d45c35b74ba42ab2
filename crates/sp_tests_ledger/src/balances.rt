//! What an engine says is left under each lock, in two orders of arrival.

use crate::balance_rows::{ROWS, Row, SUMS};
use crate::blocks::{Blocks, offer_each};
use crate::engine::engine_of;
use crate::left::{Left, OWNERS, Said, wrong};
use crate::rows::right;
use sp_engine::Engine;
use sp_ids::Lock;
use std::alloc::Global;
use std::test::Fail;

fn lock_count(engine: &Engine) -> Result<u32, Fail> {
    Ok(engine.lock_count())
}

fn lock_at(engine: &Engine, i: u32) -> Result<(Lock, u128), Fail> {
    if i >= engine.lock_count() {
        return Err("no such lock".into());
    }
    Ok(engine.lock_at(i))
}

pub fn balance(engine: &Engine, lock: &Lock) -> Result<u128, Fail> {
    Ok(engine.balance(lock))
}

fn listed(alloc: Global, engine: &Engine) -> Result<Vec<(Lock, u128)>, Fail> {
    let mut listed = Vec::new(alloc);
    for i in 0..lock_count(engine)? {
        listed.push(lock_at(engine, i)?)?;
    }
    Ok(listed)
}

fn asked(alloc: Global, engine: &Engine) -> Result<Vec<u128>, Fail> {
    let mut asked = Vec::new(alloc);
    for owner in OWNERS {
        asked.push(balance(engine, &Lock::of(&[owner]))?)?;
    }
    Ok(asked)
}

pub fn said(alloc: Global, engine: &Engine) -> Result<Said, Fail> {
    Ok(Said {
        listed: listed(alloc, engine)?,
        asked: asked(alloc, engine)?,
    })
}

fn runs(engine: &mut Engine, blocks: &Blocks, backward: bool) -> Result<Said, Fail> {
    offer_each(engine, blocks, backward)?;
    said(blocks.alloc, engine)
}

fn run(blocks: &Blocks, backward: bool) -> Result<Said, Fail> {
    let mut engine = engine_of(blocks.alloc, blocks.text(0), 0)?;
    let said = runs(&mut engine, blocks, backward);
    drop(engine);
    said
}

fn wrong_in(alloc: Global, row: &Row, backward: bool, left: &[Left]) -> Result<&'static str, Fail> {
    let blocks = Blocks::of(alloc, row.genesis, row.blocks)?;
    let said = run(&blocks, backward)?;
    Ok(wrong(&said, left))
}

#[test]
fn balances_of_payments(rt: HostRuntime) -> Result<(), Fail> {
    for (place, row) in ROWS.iter().enumerate() {
        right(&rt, place, wrong_in(rt.alloc(), row, false, row.forward)?);
        right(&rt, place, wrong_in(rt.alloc(), row, true, row.backward)?);
    }
    Ok(())
}

#[test]
fn balances_of_sums(rt: HostRuntime) -> Result<(), Fail> {
    for (place, row) in SUMS.iter().enumerate() {
        right(&rt, place, wrong_in(rt.alloc(), row, false, row.forward)?);
        right(&rt, place, wrong_in(rt.alloc(), row, true, row.backward)?);
    }
    Ok(())
}
