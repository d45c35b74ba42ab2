//! The rows that the views of an engine share, where a block has two others as parents.

use crate::engines::{engine_of, offer};
use crate::rows::holds;
use sp_engine::Engine;
use sp_fixtures::Numbered;
use sp_model::Profile;
use sp_rows::{RowId, RowPool};
use sp_view::View;
use std::alloc::Global;
use std::test::Fail;

/// Blocks 1 and 2 on genesis, and block 3 on both.
const DIAMOND: &[&[usize]] = &[&[0], &[0], &[1, 2]];

/// The rows of the pair of blocks 1 and 2 in the view of all blocks.
fn rows_of_all(engine: &Engine) -> Result<Option<(RowId, RowId)>, Fail> {
    Ok(engine.view_all().rows(0))
}

/// The rows of that pair in the view of block 3 and its past.
fn rows_of_tip(engine: &Engine) -> Result<Option<(RowId, RowId)>, Fail> {
    if engine.dag().len() < 4 {
        return Err("block 3 isn't present".into());
    }
    Ok(match engine.tip_view(3) {
        Some(view) => view.rows(0),
        None => None,
    })
}

/// Whether a block of the first three has a view of its own.
fn has_view(engine: &Engine, n: u16) -> Result<bool, Fail> {
    if n >= engine.dag().len() {
        return Err("it isn't present".into());
    }
    Ok(engine.tip_view(n).is_some())
}

/// Whether a row is empty, and how often it is counted.
fn row(pool: &RowPool, id: RowId) -> Result<(bool, u32), Fail> {
    if !pool.is_live(id) {
        return Err("it isn't live".into());
    }
    let empty = pool.words(id).iter().all(|word| *word == 0);
    Ok((empty, pool.count(id)))
}

/// How many rows are live, and the two rows of a pair.
fn rows(engine: &Engine, pair: (RowId, RowId)) -> Result<(usize, (bool, u32), (bool, u32)), Fail> {
    let pool = engine.row_pool();
    Ok((pool.live(), row(pool, pair.0)?, row(pool, pair.1)?))
}

fn come(engine: &mut Engine, blocks: &Numbered, numbers: &[usize]) -> Result<(), Fail> {
    for number in numbers {
        offer(engine, blocks.text(*number))?;
    }
    Ok(())
}

/// What is wrong with the views before block 3, by number; 0 where nothing is.
fn wrong_before(engine: &Engine, before: (RowId, RowId)) -> Result<u8, Fail> {
    // Rows of their own in the view of all, and none in those of blocks 1 and 2.
    if rows(engine, before)? != (2, (true, 1), (true, 1)) || before.0 == before.1 {
        return Ok(2);
    }
    if !(has_view(engine, 1)? && has_view(engine, 2)?) || has_view(engine, 0)? {
        return Ok(3);
    }
    Ok(0)
}

/// What is wrong with them after it, where the view of all had these rows before.
fn wrong_after(engine: &Engine, before: (RowId, RowId)) -> Result<u8, Fail> {
    if rows_of_all(engine)? != Some(before) || rows_of_tip(engine)? != Some(before) {
        return Ok(4);
    }
    if rows(engine, before)? != (2, (true, 2), (true, 2)) {
        return Ok(5);
    }
    if has_view(engine, 1)? || has_view(engine, 2)? {
        return Ok(6);
    }
    Ok(0)
}

fn wrong(engine: &mut Engine, blocks: &Numbered) -> Result<u8, Fail> {
    come(engine, blocks, &[1, 2])?;
    let Some(before) = rows_of_all(engine)? else {
        return Ok(1);
    };
    let first = wrong_before(engine, before)?;
    if first != 0 {
        return Ok(first);
    }
    come(engine, blocks, &[3])?;
    wrong_after(engine, before)
}

#[test]
fn rows_stay_where_a_block_covers_the_tips(rt: HostRuntime) -> Result<(), Fail> {
    let blocks = Numbered::of(rt.alloc(), DIAMOND)?;
    let mut engine = engine_of(rt.alloc(), &blocks, Profile::One)?;
    let wrong = wrong(&mut engine, &blocks);
    drop(engine);
    holds(&rt, 0, wrong? == 0);
    Ok(())
}
