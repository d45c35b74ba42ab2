//! Blocks that arrive at an engine: which are kept, in which order they become present, and how all
//! vote on each two.

use crate::arrival_rows::{Came, ROWS, Row, Said, TWELVE};
use crate::engine::{Counts, Ran, Told, run};
use crate::rows::{holds, right};
use sp_fixtures::{NOBODY, Numbered};
use sp_ids::BlockId;
use sp_model::Word;
use std::alloc::Global;
use std::test::Fail;

/// The numbers of the blocks that come.
fn numbers_of(alloc: Global, came: &[Came]) -> Result<Vec<usize>, Fail> {
    let mut numbers = Vec::new(alloc);
    for (number, _) in came {
        numbers.push(*number)?;
    }
    Ok(numbers)
}

/// Asks about all blocks and about one that isn't there, whose number is that of none.
fn run_row(blocks: &Numbered, row: &Row) -> Result<Ran, Fail> {
    let came = blocks.chosen(&numbers_of(blocks.alloc, row.came)?)?;
    run_all(blocks, &came)
}

fn run_all(blocks: &Numbered, came: &[Vec<u8>]) -> Result<Ran, Fail> {
    let mut ids = Vec::from_slice(blocks.alloc, &blocks.ids)?;
    ids.push(BlockId::from_bytes(NOBODY))?;
    run(blocks.alloc, blocks.text(0), 0, came, &ids)
}

/// Whether just this is told of each block.
fn are_told(told: &[Told], came: &[Came]) -> bool {
    told.len() == came.len() && told.iter().zip(came).all(|(one, other)| *one == other.1)
}

/// Whether just these blocks became present, in this order.
fn are_ordered(blocks: &Numbered, order: &[BlockId], numbers: &[usize]) -> bool {
    order.len() == numbers.len()
        && order
            .iter()
            .zip(numbers)
            .all(|(id, number)| *id == blocks.id(*number))
}

fn opposite(word: Word) -> Word {
    match word {
        Word::Before => Word::After,
        Word::After => Word::Before,
        same => same,
    }
}

/// Whether just that is said of two blocks, and the opposite where they are exchanged, by the words
/// on each two of so many.
fn are_said(words: &[Word], count: usize, said: &[Said]) -> bool {
    let at = |x: usize, y: usize| words.get(x.wrapping_mul(count).wrapping_add(y)).copied();
    said.iter().all(|(x, y, word)| {
        at(*x, *y) == Some(*word) && at(*y, *x) == Some(opposite(*word))
    })
}

/// Whether the block of each number is kept where it came, with its number as the salt.
fn are_kept(salts: &[Option<u64>], came: &[Came]) -> bool {
    salts.iter().enumerate().all(|(number, salt)| {
        if number == 0 || came.iter().any(|(one, _)| *one == number) {
            *salt == Some(number as u64)
        } else {
            *salt == None
        }
    })
}

/// Whether so many blocks are present, wait and are kept.
fn are_counted(counts: Counts, row: &Row) -> bool {
    let (present, waiting, kept) = counts;
    usize::from(present) == row.order.len()
        && waiting == row.waiting
        && kept == present.saturating_add(waiting)
}

/// What is wrong with what was told and is kept.
fn wrong(blocks: &Numbered, ran: &Ran, row: &Row) -> &'static str {
    if !are_told(&ran.told, row.came) {
        "told"
    } else if !are_ordered(blocks, &ran.order, row.order) {
        "order"
    } else if !are_kept(&ran.salts, row.came) {
        "kept"
    } else if !are_said(&ran.words, ran.salts.len(), row.said) {
        "said"
    } else if !are_counted(ran.counts, row) {
        "counts"
    } else if ran.bits != 0 || ran.genesis != blocks.id(0) {
        "head"
    } else {
        ""
    }
}

fn wrong_in(alloc: Global, row: &Row) -> Result<&'static str, Fail> {
    let blocks = Numbered::of(alloc, row.blocks)?;
    let ran = run_row(&blocks, row)?;
    Ok(wrong(&blocks, &ran, row))
}

#[test]
fn arrivals(rt: HostRuntime) -> Result<(), Fail> {
    for (place, row) in ROWS.iter().enumerate() {
        right(&rt, place, wrong_in(rt.alloc(), row)?);
    }
    Ok(())
}

/// Delivers twelve blocks from a place on, each time so many places further, round and round.
fn delivered(blocks: &Numbered, start: usize, step: usize) -> Result<Ran, Fail> {
    let mut numbers = Vec::new(blocks.alloc);
    for turn in 0..12usize {
        let place = start.wrapping_add(step.wrapping_mul(turn)) % 12;
        numbers.push(place.saturating_add(1))?;
    }
    run_all(blocks, &blocks.chosen(&numbers)?)
}

/// The words, where all twelve are present then.
fn words_after(blocks: &Numbered, start: usize, step: usize) -> Result<Vec<Word>, Fail> {
    let ran = delivered(blocks, start, step)?;
    if ran.counts != (13, 0, 13) {
        return Err("not present".into());
    }
    Ok(ran.into_words())
}

/// Whether the same is said after each of so many other orders.
fn are_same(blocks: &Numbered, words: &[Word], orders: usize) -> Result<bool, Fail> {
    for order in 0..orders {
        let step = [1, 5, 7, 11][order % 4];
        if words_after(blocks, order / 4, step)?.as_slice() != words {
            return Ok(false);
        }
    }
    Ok(true)
}

#[test]
fn twenty_orders_of_arrival(rt: HostRuntime) -> Result<(), Fail> {
    let blocks = Numbered::of(rt.alloc(), TWELVE)?;
    let words = words_after(&blocks, 0, 1)?;
    holds(&rt, 0, are_same(&blocks, &words, 20)?);
    Ok(())
}
