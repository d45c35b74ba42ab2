//! What an engine says whose blocks settle the ties of their pasts by rank.

use crate::engines::{engine_of, offer};
use crate::plain_words::all_agree;
use crate::rows::right;
use crate::words_drawn::{engine_of_scene, scene_comes};
use sp_engine::Engine;
use sp_fixtures::Numbered;
use sp_make::make;
use sp_model::{Profile, Word};
use sp_play::Scene;
use std::alloc::Global;
use std::test::Fail;

/// The salts of three blocks, of which 1 and 2 stand side by side on genesis, and 3 on both; those that
/// come, in their order; and two blocks with the word on them then.
type Row = ([u64; 3], &'static [usize], usize, usize, Word);

#[rattlefmt::skip]
const ROWS: &[Row] = &[
    ([1, 2, 3], &[1], 1, 2, Word::Absent),
    ([1, 2, 3], &[1, 2], 1, 2, Word::Tie),
    ([1, 2, 3], &[1, 2], 2, 1, Word::Tie),
    ([1, 2, 3], &[1, 2, 3], 1, 2, Word::Before),
    ([1, 2, 3], &[1, 2, 3], 2, 1, Word::After),
    ([1, 2, 3], &[1, 2, 3], 2, 3, Word::Before),
    ([2, 1, 3], &[1, 2], 1, 2, Word::Tie),
    ([2, 1, 3], &[1, 2, 3], 1, 2, Word::After),
    ([2, 1, 3], &[1, 2, 3], 2, 1, Word::Before),
    // No order of arrival decides, nor does the salt of 3.
    ([1, 2, 3], &[2, 1, 3], 1, 2, Word::Before),
    ([2, 1, 3], &[3, 2, 1], 1, 2, Word::After),
    ([1, 2, 0], &[1, 2, 3], 1, 2, Word::Before),
    // Salts are compared as numbers, and not byte by byte as they are written.
    ([256, 1, 3], &[1, 2, 3], 1, 2, Word::After),
    ([u64::MAX, 0, 3], &[1, 2, 3], 1, 2, Word::After),
    // The ids of 1 and 2 begin with the bytes 12 and 49 where both salts are 6, and with c3 and 74 where
    // both are 7.
    ([6, 6, 3], &[1, 2], 1, 2, Word::Tie),
    ([6, 6, 3], &[1, 2, 3], 1, 2, Word::Before),
    ([6, 6, 3], &[2, 1, 3], 2, 1, Word::After),
    ([7, 7, 3], &[1, 2, 3], 1, 2, Word::After),
    ([7, 7, 3], &[3, 2, 1], 2, 1, Word::Before),
];

fn blocks_of(alloc: Global, salts: &[u64; 3]) -> Result<Numbered, Fail> {
    let mut blocks = Numbered::of(alloc, &[])?;
    blocks.add_salted(salts[0], &[0])?;
    blocks.add_salted(salts[1], &[0])?;
    blocks.add_salted(salts[2], &[1, 2])?;
    Ok(blocks)
}

fn come(engine: &mut Engine, blocks: &Numbered, numbers: &[usize]) -> Result<(), Fail> {
    for number in numbers {
        offer(engine, blocks.text(*number))?;
    }
    Ok(())
}

/// What is wrong with a row, in an engine to which no block came.
fn wrong_in(engine: &mut Engine, blocks: &Numbered, row: &Row) -> Result<&'static str, Fail> {
    let (_, numbers, x, y, word) = *row;
    come(engine, blocks, numbers)?;
    if engine.profile() != Profile::Two {
        return Ok("the profile");
    }
    if engine.vote(&blocks.id(x), &blocks.id(y)) != word {
        return Ok("the word");
    }
    if !all_agree(blocks.alloc, engine)? {
        return Ok("the plain votes");
    }
    Ok("")
}

fn wrong(alloc: Global, row: &Row) -> Result<&'static str, Fail> {
    let blocks = blocks_of(alloc, &row.0)?;
    let mut engine = engine_of(alloc, &blocks, Profile::Two)?;
    let wrong = wrong_in(&mut engine, &blocks, row);
    drop(engine);
    wrong
}

#[test]
fn ties_by_rank(rt: HostRuntime) -> Result<(), Fail> {
    for (place, row) in ROWS.iter().enumerate() {
        right(&rt, place, wrong(rt.alloc(), row)?);
    }
    Ok(())
}

fn scene_comes_anew(alloc: Global, scene: &Scene) -> Result<u16, Fail> {
    let mut engine = engine_of_scene(alloc, scene, Profile::Two)?;
    let came = scene_comes(alloc, &mut engine, scene);
    drop(engine);
    came
}

#[test]
fn blocks_of_a_made_scenario(rt: HostRuntime) -> Result<(), Fail> {
    let text = make(rt.alloc(), 24, 5, 3)?;
    let scene = Scene::read(rt.alloc(), &text)?;
    let came = scene_comes_anew(rt.alloc(), &scene);
    drop(scene);
    assert_eq!(rt; came?, 24);
    Ok(())
}
