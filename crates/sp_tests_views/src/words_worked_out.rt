//! Words that another reading of the rules worked out, in both profiles: small graphs with few salts,
//! so that some ties are settled by the salt and some by the id.

use crate::engines::{engine_of, offer};
use crate::rows::right;
use sp_engine::Engine;
use sp_fixtures::Numbered;
use sp_model::{Profile, Word};
use std::alloc::Global;
use std::test::Fail;

/// The salt of each block behind genesis, and the numbers of its parents. The nonce of a block is its
/// number, so that the ids are the same wherever they are worked out.
type Shape = &'static [(u64, &'static [usize])];

/// A graph, and what is said of each block and each one before it in profile `One` and in `Two`: `<`
/// where the lower number comes first, `>` where it comes last, and `=` in a tie.
type Row = (Shape, &'static [u8], &'static [u8]);

#[rattlefmt::skip]
const ROWS: &[Row] = &[
    (
        &[(1, &[0]), (2, &[0]), (3, &[1, 2])],
        b"<<=<<<",
        b"<<<<<<",
    ),
    (
        &[(2, &[0]), (1, &[0]), (3, &[1, 2])],
        b"<<=<<<",
        b"<<><<<",
    ),
    (
        &[(7, &[0]), (7, &[0]), (7, &[1, 2])],
        b"<<=<<<",
        b"<<><<<",
    ),
    (
        &[(0, &[0]), (0, &[0]), (0, &[0]), (0, &[1, 2, 3])],
        b"<<=<==<<<<",
        b"<<><><<<<<",
    ),
    (
        &[(9, &[0]), (3, &[0]), (1, &[1]), (1, &[2]), (5, &[3, 4]), (0, &[5])],
        b"<<=<<=<=<=<<<<<<<<<<<",
        b"<<><<><><><<<<<<<<<<<",
    ),
    (
        &[(2, &[0]), (2, &[0]), (0, &[0]), (1, &[0, 1, 2, 3]), (0, &[2]), (0, &[5]), (1, &[1, 2, 4, 5, 6]), (2, &[3, 4, 5, 6, 7]), (0, &[3, 4])],
        b"<<><=<<<<<<<<<<<<<<<<<<<<<<<<<<<<<<<<<<<<<<<<",
        b"<<><>><<<<<><>><><>><<<<<<<<<<<<<<<<<<<<<<<<<",
    ),
    (
        &[(0, &[0]), (0, &[0, 1]), (0, &[0, 1]), (0, &[1, 3]), (1, &[1]), (1, &[2, 5]), (0, &[3, 4, 6]), (0, &[4]), (1, &[5]), (1, &[8]), (0, &[7, 8, 10])],
        b"<<<<<=<<=<<<>>><<<==<<<<<<<<<<=<<<==<<<<<<<<<<<=<<<==<><<<<<<<<<><",
        b"<<<<<><<><<<<==<<<<<<<<<<<<<<<><<=><<<<<<<<<<<<<<<<<<<><<<<<<<<<><",
    ),
    (
        &[(0, &[0]), (0, &[0, 1]), (0, &[0, 1, 2]), (0, &[2]), (0, &[4]), (0, &[1, 4]), (0, &[3]), (0, &[3, 4, 7]), (0, &[0, 2, 7]), (0, &[1, 5]), (0, &[1, 8, 10])],
        b"<<<<<<<<<=<<<<<<<<<<<<<<<=>><<<<<=><<<<<<<><<<<<<<<><=><<<<<<><<><",
        b"<<<<<<<<<><<<=<<<<<<<<<<<<=><<<<<>><<<<<<<><<<<<=<<>=<><<<<<<><<><",
    ),
    (
        &[(0, &[0]), (0, &[0, 1]), (0, &[1, 2]), (0, &[2]), (0, &[1]), (0, &[5]), (0, &[5, 6]), (0, &[2, 3, 5]), (0, &[6, 7, 8]), (0, &[8]), (0, &[6, 7])],
        b"<<<<<<<<<<<<<=><<<=><<<<=><<<<<<><==<<<<><<<<<<<<><<<<<<<<<><<<<<=",
        b"<<<<<<<<<<<<=<><<=>><<<=>><<<<<<><<<<<<<><<<<<<<<><<<<<<<<<><<<<<=",
    ),
    (
        &[(0, &[0]), (0, &[0, 1]), (0, &[1, 2]), (0, &[3]), (0, &[0, 1]), (0, &[0, 1, 5]), (0, &[3]), (0, &[0, 5, 6]), (0, &[2, 6, 7]), (0, &[2, 7, 8]), (0, &[1, 6])],
        b"<<<<<<<<<<<<<<><<<<><<<<<>==<<<<><<<<<<<><<<<<<<<><<<<><<<<=<<<<<<",
        b"<<<<<<<<<<<<==><<==><<<<<>><<<<<><<<<<<<><<<<<<<<><<<<><<<<=<<<<<<",
    ),
    (
        &[(1, &[0]), (1, &[0, 1]), (0, &[1, 2]), (1, &[0]), (0, &[4]), (1, &[4, 5]), (0, &[3, 6]), (1, &[0, 2]), (0, &[4, 5]), (0, &[9])],
        b"<<<<<<<>>><>>><<<<=<<<<<<<<<<<<<<<<<<<<<<<<<><<<<<<<<><",
        b"<<<<<<<==><>>><<==<<<<<<<<<<<<<<<<<<<<<<<<<<><<<<<<<<><",
    ),
    (
        &[(1, &[0]), (1, &[1]), (1, &[1, 2]), (0, &[1]), (0, &[2]), (1, &[2, 3]), (0, &[5]), (1, &[6, 7]), (0, &[5, 6]), (0, &[9]), (0, &[8])],
        b"<<<<<<<<<<<<<<><<<<>><<<<><<<<<<><<<<<<<><<<<<<<<><<<<<<<<<><<<<>>",
        b"<<<<<<<<<<<<<=><<<<>=<<<=><=<<<<><<<<<<<><<<<<<<<><<<<<<<<<><<<<>>",
    ),
    (
        &[(1, &[0]), (1, &[0, 1]), (0, &[0]), (1, &[0]), (1, &[2]), (0, &[4]), (1, &[6]), (1, &[5, 7]), (0, &[5]), (1, &[7, 9]), (0, &[8, 9])],
        b"<<<<<<<<<><<<>><<<><<<<<><<<<<<><<<<<<<><<<<<<<<><<<<<<<<<><<<<<<>",
        b"<<<<<<<<<><<<>=<==><=<<<><<<<<<><<<<<<<><<<<<<<<><<<<<<<<<><<<<<<>",
    ),
    (
        &[(1, &[0]), (1, &[0, 1]), (1, &[0]), (0, &[3]), (0, &[0, 1, 2, 3, 4]), (0, &[0, 1, 2, 3, 4, 5]), (1, &[0, 2]), (1, &[0, 2, 4, 6, 7]), (1, &[2, 3, 6])],
        b"<<<<<<<<<<<<<<<<<<<<<<<<<<<<<<<<<<<<<<<<<<<<<",
        b"<<<<>><>><<<<<<<<<<<<<<<<<<<<<<<<<<<<<<<<<<<<",
    ),
    (
        &[(0, &[0]), (2, &[0, 1]), (2, &[0]), (2, &[0, 1, 3]), (1, &[0, 4]), (2, &[0]), (0, &[2, 3, 6]), (1, &[3]), (0, &[5, 7, 8]), (0, &[5, 8])],
        b"<<<<<><<><<<><<<<<<<<<<<<<<<<<<<<<<<<<<<<<<<<<<<<<<<<<<",
        b"<<<<<><<=<<<><<<<<<=<<<<<==<<<<<<<<<<<<<<<<<<<<<<<<<<<<",
    ),
];

fn blocks_of(alloc: Global, shape: Shape) -> Result<Numbered, Fail> {
    let mut blocks = Numbered::of(alloc, &[])?;
    for (salt, parents) in shape {
        blocks.add_salted(*salt, parents)?;
    }
    Ok(blocks)
}

fn letter_of(word: Word) -> u8 {
    match word {
        Word::Before => b'<',
        Word::Tie => b'=',
        Word::After => b'>',
        Word::Same => b'!',
        Word::Absent => b'?',
    }
}

/// What an engine says of a block and each one before it.
fn put_said(
    engine: &Engine,
    blocks: &Numbered,
    number: usize,
    said: &mut Vec<u8>,
) -> Result<(), Fail> {
    for before in 0..number {
        let word = engine.vote(&blocks.id(before), &blocks.id(number));
        said.push(letter_of(word))?;
    }
    Ok(())
}

fn come(engine: &mut Engine, blocks: &Numbered, count: usize, turned: bool) -> Result<(), Fail> {
    for place in 1..=count {
        let number = if turned { count - place + 1 } else { place };
        offer(engine, blocks.text(number))?;
    }
    Ok(())
}

/// What an engine says to which the blocks came in their order, or the last one first.
fn said(
    engine: &mut Engine,
    blocks: &Numbered,
    count: usize,
    turned: bool,
) -> Result<Vec<u8>, Fail> {
    come(engine, blocks, count, turned)?;
    let mut said = Vec::new(blocks.alloc);
    for number in 1..=count {
        put_said(engine, blocks, number, &mut said)?;
    }
    Ok(said)
}

fn said_in(
    profile: Profile,
    blocks: &Numbered,
    count: usize,
    turned: bool,
) -> Result<Vec<u8>, Fail> {
    let mut engine = engine_of(blocks.alloc, blocks, profile)?;
    let said = said(&mut engine, blocks, count, turned);
    drop(engine);
    said
}

fn wrong_in(
    profile: Profile,
    blocks: &Numbered,
    count: usize,
    words: &[u8],
) -> Result<&'static str, Fail> {
    if *said_in(profile, blocks, count, false)? != *words {
        return Ok("the words");
    }
    if *said_in(profile, blocks, count, true)? != *words {
        return Ok("the words where the last block came first");
    }
    Ok("")
}

fn wrong(alloc: Global, row: &Row) -> Result<&'static str, Fail> {
    let (shape, one, two) = row;
    let blocks = blocks_of(alloc, shape)?;
    let kept = wrong_in(Profile::One, &blocks, shape.len(), one)?;
    if !kept.is_empty() {
        return Ok(kept);
    }
    wrong_in(Profile::Two, &blocks, shape.len(), two)
}

#[test]
fn both_profiles(rt: HostRuntime) -> Result<(), Fail> {
    for (place, row) in ROWS.iter().enumerate() {
        right(&rt, place, wrong(rt.alloc(), row)?);
    }
    Ok(())
}
