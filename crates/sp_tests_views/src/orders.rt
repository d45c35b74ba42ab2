//! What an engine of either profile says of each two blocks when all have come: the same in whichever
//! order they came, and in many graphs not the same in both profiles.

use crate::engines::engine_of;
use crate::graphs::{GRAPHS, Shape, blocks_of, drawn, ordered};
use crate::rows::holds;
use sp_bits::Row;
use sp_engine::Engine;
use sp_fixtures::Numbered;
use sp_model::{Profile, Word};
use std::alloc::Global;
use std::test::Fail;

/// The words on each two blocks, by their numbers in the graph.
fn words(engine: &Engine, blocks: &Numbered) -> Result<Vec<Word>, Fail> {
    if engine.present() as usize != blocks.ids.len() {
        return Err("not present".into());
    }
    let mut words = Vec::new(blocks.alloc);
    for x in &blocks.ids {
        for y in &blocks.ids {
            words.push(engine.vote(x, y))?;
        }
    }
    Ok(words)
}

fn come_all(engine: &mut Engine, blocks: &Numbered, order: &[u8]) -> Result<(), Fail> {
    for number in order {
        let _answer = engine.offer(blocks.text(*number as usize))?;
    }
    Ok(())
}

fn words_behind(engine: &mut Engine, blocks: &Numbered, order: &[u8]) -> Result<Vec<Word>, Fail> {
    come_all(engine, blocks, order)?;
    words(engine, blocks)
}

fn words_after(blocks: &Numbered, profile: Profile, order: &[u8]) -> Result<Vec<Word>, Fail> {
    let mut engine = engine_of(blocks.alloc, blocks, profile)?;
    let words = words_behind(&mut engine, blocks, order);
    drop(engine);
    words
}

/// The numbers of the blocks in one of the three orders, or in the third one backwards, in which blocks
/// wait for their parents.
fn numbers_of(alloc: Global, graph: &[Row], order: u8, seed: u64) -> Result<Vec<u8>, Fail> {
    let mut numbers = ordered(alloc, graph, order.min(2), seed)?;
    if order > 2 {
        numbers.reverse();
    }
    Ok(numbers)
}

/// The words of a profile on a drawn graph in one of the four orders.
fn words_of(alloc: Global, shape: &Shape, profile: Profile, order: u8) -> Result<Vec<Word>, Fail> {
    let graph = drawn(alloc, shape)?;
    let blocks = blocks_of(alloc, &graph, shape.1)?;
    let numbers = numbers_of(alloc, &graph, order, shape.1)?;
    words_after(&blocks, profile, &numbers)
}

/// The words of a profile, if they are the same in each order.
fn words_in_any_order(
    alloc: Global,
    shape: &Shape,
    profile: Profile,
) -> Result<Option<Vec<Word>>, Fail> {
    let words = words_of(alloc, shape, profile, 0)?;
    for order in 1..4u8 {
        if words_of(alloc, shape, profile, order)?.as_slice() != words.as_slice() {
            return Ok(None);
        }
    }
    Ok(Some(words))
}

/// Whether the words of the two profiles differ on some pair, if those of each are the same in each
/// order.
fn profiles_differ(alloc: Global, shape: &Shape) -> Result<Option<bool>, Fail> {
    let one = words_in_any_order(alloc, shape, Profile::One)?;
    let two = words_in_any_order(alloc, shape, Profile::Two)?;
    match (one, two) {
        (Some(one), Some(two)) => Ok(Some(one.as_slice() != two.as_slice())),
        _ => Ok(None),
    }
}

/// In some graphs no voter finds a tie, and in some the ties that are settled turn no word.
#[test]
fn each_order_gives_the_same_words(rt: HostRuntime) -> Result<(), Fail> {
    let mut differing = 0usize;
    for (row, shape) in GRAPHS.iter().enumerate() {
        let differ = profiles_differ(rt.alloc(), shape)?;
        holds(&rt, row, differ.is_some());
        if differ == Some(true) {
            differing = differing.saturating_add(1);
        }
    }
    holds(&rt, GRAPHS.len(), differing >= 5);
    Ok(())
}
