//! A block on 64 others, which stand side by side on genesis: it finds a tie on each two of them. Where
//! it settles these, the words on them follow from their salts and ids alone.

use crate::engines::{come, engine_of};
use crate::rows::holds;
use crate::ties::ties_in;
use crate::voters::by_rank;
use sp_engine::Engine;
use sp_fixtures::Numbered;
use sp_model::{Profile, Word};
use std::alloc::Global;
use std::test::Fail;

/// The salts of the 64 are 1, 2 and 0 in turn.
fn salt_of(number: usize) -> u64 {
    (number % 3) as u64
}

fn layer(alloc: Global) -> Result<Numbered, Fail> {
    let mut blocks = Numbered::of(alloc, &[])?;
    let mut numbers = Vec::new(alloc);
    for number in 1..=64usize {
        blocks.add_salted(salt_of(number), &[0])?;
        numbers.push(number)?;
    }
    blocks.add_salted(0, &numbers)?;
    Ok(blocks)
}

/// The word on two of the 64.
fn word_of(blocks: &Numbered, profile: Profile, x: usize, y: usize) -> Word {
    let first = (salt_of(x), blocks.id(x));
    let second = (salt_of(y), blocks.id(y));
    match profile {
        Profile::One => Word::Tie,
        Profile::Two => {
            if by_rank(&first, &second) < 0 {
                Word::Before
            } else {
                Word::After
            }
        }
    }
}

/// Whether an engine says so of each two of the 64.
fn says_so(engine: &Engine, blocks: &Numbered, profile: Profile) -> Result<bool, Fail> {
    for x in 1..=64usize {
        for y in 1..=64usize {
            let word = engine.vote(&blocks.id(x), &blocks.id(y));
            if x != y && word != word_of(blocks, profile, x, y) {
                return Ok(false);
            }
        }
    }
    Ok(true)
}

fn says_so_behind(engine: &mut Engine, blocks: &Numbered, profile: Profile) -> Result<bool, Fail> {
    for number in 1..blocks.ids.len() {
        come(engine, blocks, number)?;
    }
    says_so(engine, blocks, profile)
}

fn is_right(blocks: &Numbered, profile: Profile) -> Result<bool, Fail> {
    let mut engine = engine_of(blocks.alloc, blocks, profile)?;
    let right = says_so_behind(&mut engine, blocks, profile);
    drop(engine);
    right
}

#[test]
fn a_block_on_sixty_four_ranks_them(rt: HostRuntime) -> Result<(), Fail> {
    let blocks = layer(rt.alloc())?;
    holds(&rt, 1, is_right(&blocks, Profile::One)?);
    holds(&rt, 2, is_right(&blocks, Profile::Two)?);
    Ok(())
}

/// Of the 2,016 pairs, 231 have the salt 1, 210 the salt 2 and as many the salt 0.
#[test]
fn a_block_on_sixty_four_settles_each_two(rt: HostRuntime) -> Result<(), Fail> {
    let blocks = layer(rt.alloc())?;
    let Some(ties) = ties_in(&blocks)? else {
        return Err("a vote isn't by rank".into());
    };
    holds(&rt, 0, ties.by_id == 651 && ties.by_salt == 1_365);
    Ok(())
}
