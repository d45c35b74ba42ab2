//! Graphs that are drawn, and the orders in which their blocks can come.

use sp_bits::Row;
use sp_fixtures::Numbered;
use std::alloc::Global;
use std::test::Fail;

/// Each number drawn is the upper half of the next state, as the program's generator draws it.
fn next(state: u64) -> u64 {
    state
        .wrapping_mul(6_364_136_223_846_793_005)
        .wrapping_add(1_442_695_040_888_963_407)
}

/// Adds so many drawn ones of the latest blocks to the parents of one, and answers the state behind
/// that.
fn draw_parents(parents: &mut Row, number: u64, width: u64, draws: u64, first: u64) -> u64 {
    let mut state = first;
    for _ in 0..draws {
        state = next(state);
        let back = (state >> 32) % width.min(number).max(1);
        parents.set(
            (number
                .saturating_sub(width.min(number))
                .saturating_add(back)
                % 512) as u16,
        );
    }
    state
}

/// How many draws the parents of a block take, and the state behind that: from one to `most`, or else
/// two where that is 0, as the program's generator draws them, which takes a block that is alone.
fn count_draws(number: u64, width: u64, most: u64, state: u64) -> (u64, u64) {
    if most > 0 {
        let state = next(state);
        ((state >> 32) % most + 1, state)
    } else if width.min(number) < 2 {
        (0, state)
    } else {
        (2, state)
    }
}

/// A drawn graph: how many blocks it has, the seed, how many of the latest blocks are drawn from, how
/// many draws a block takes at most, and how many of the first blocks stand on genesis alone.
pub(crate) type Shape = (u64, u64, u64, u64, u64);

/// The graphs of all tests here. Those at the end have up to 20 parents, and 64. In most of these many
/// blocks stand on genesis alone, and a block above some of them finds a tie on each two.
#[rattlefmt::skip]
pub(crate) const GRAPHS: &[Shape] = &[
    (8, 1, 8, 3, 0), (10, 2, 4, 2, 0), (12, 3, 12, 6, 0), (14, 4, 5, 3, 0), (16, 5, 16, 2, 0),
    (16, 6, 6, 6, 0), (18, 7, 18, 8, 0), (18, 8, 3, 2, 0), (20, 9, 20, 1, 0), (20, 10, 8, 4, 0),
    (20, 11, 20, 12, 0), (22, 12, 7, 6, 0), (22, 13, 22, 2, 0), (24, 14, 10, 3, 0), (24, 15, 24, 6, 0),
    (26, 16, 6, 2, 0), (28, 17, 12, 5, 0), (30, 18, 30, 3, 0), (36, 19, 9, 6, 0), (40, 20, 16, 6, 0),
    // That of `make 24 5 3`.
    (24, 5, 3, 0, 0),
    // Many parents.
    (30, 21, 30, 20, 0), (28, 25, 20, 100, 10), (30, 23, 20, 40, 14), (30, 26, 20, 30, 20), (66, 24, 64, 1000, 64),
];

/// The parents of a block, and the state behind their draws.
fn parents_of(shape: &Shape, number: u64, before: u64) -> (Row, u64) {
    let (_, _, width, most, first) = *shape;
    let mut parents = Row::empty();
    if number <= first {
        parents.set(0);
        return (parents, before);
    }
    let (draws, state) = count_draws(number, width, most, before);
    if draws == 0 {
        parents.set((number.saturating_sub(1) % 512) as u16);
    }
    let behind = draw_parents(&mut parents, number, width, draws, state);
    (parents, behind)
}

/// The parents of each block of a graph by its number.
pub(crate) fn drawn(alloc: Global, shape: &Shape) -> Result<Vec<Row>, Fail> {
    let mut graph = Vec::new(alloc);
    graph.push(Row::empty())?;
    let mut state = shape.1;
    for number in 1..=shape.0 {
        let (parents, behind) = parents_of(shape, number, state);
        state = behind;
        graph.push(parents)?;
    }
    Ok(graph)
}

fn numbers_of(alloc: Global, row: &Row) -> Result<Vec<usize>, Fail> {
    let mut numbers = Vec::new(alloc);
    for number in 0..512u16 {
        if row.test(number) {
            numbers.push(number as usize)?;
        }
    }
    Ok(numbers)
}

/// The blocks of a graph, by the parents of each. Their salts are drawn from 0, 1 and 2, so that many
/// blocks have the same one.
pub(crate) fn blocks_of(alloc: Global, graph: &[Row], seed: u64) -> Result<Numbered, Fail> {
    let mut blocks = Numbered::of(alloc, &[])?;
    let mut state = seed;
    for parents in graph.iter().skip(1) {
        state = next(state);
        let numbers = numbers_of(alloc, parents)?;
        blocks.add_salted((state >> 32) % 3, &numbers)?;
    }
    Ok(blocks)
}

/// Whether a block may come next.
fn is_ready(graph: &[Row], come: &Row, number: u8) -> bool {
    match graph.get(number as usize) {
        Some(parents) => !come.test(number as u16) && parents.within(come),
        None => false,
    }
}

/// The blocks that may come next, ascending.
fn ready(alloc: Global, graph: &[Row], come: &Row) -> Result<Vec<u8>, Fail> {
    let mut numbers = Vec::new(alloc);
    for number in 0..=255u8 {
        if is_ready(graph, come, number) {
            numbers.push(number)?;
        }
    }
    Ok(numbers)
}

/// The block that comes next by one of three orders, the lowest, the highest or a drawn one of those that
/// may come; there is none where all came.
fn pick(ready: &[u8], order: u8, state: u64) -> Option<u8> {
    if ready.is_empty() {
        return None;
    }
    match order {
        0 => ready.first().copied(),
        1 => ready.last().copied(),
        _ => Some(ready[(state >> 32) as usize % ready.len()]),
    }
}

/// The numbers of the blocks behind genesis in one of the three orders, each behind its parents.
pub(crate) fn ordered(alloc: Global, graph: &[Row], order: u8, seed: u64) -> Result<Vec<u8>, Fail> {
    let mut numbers = Vec::new(alloc);
    let mut come = Row::empty();
    come.set(0);
    let mut state = seed;
    for _ in 1..graph.len() {
        state = next(state);
        let ready = ready(alloc, graph, &come)?;
        if let Some(number) = pick(&ready, order, state) {
            come.set(number as u16);
            numbers.push(number)?;
        }
    }
    Ok(numbers)
}
