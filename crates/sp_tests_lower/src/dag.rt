//! A graph worked out by hand: a diamond with a tail, and a block beside it.

ghost use Rattle.std.specs.Prelude.{◌<◌, length};

use crate::bits::has_just;
use sp_dag::Dag;
use sp_fixtures::graph::{add, id};
use sp_model::Profile;
use std::alloc::Global;
use std::test::Fail;

/// A block by the byte of its id and of its parents' ids, which it names in any order, and what is
/// known of it once all blocks are there. Blocks stand in the order of their numbers.
struct Block {
    id: u8,
    parents: &'static [u8],
    past: &'static [u16],
    future: &'static [u16],
}

const GENESIS: u8 = 40;

#[rattlefmt::skip]
const BLOCKS: &[Block] = &[
    Block { id: GENESIS, parents: &[], past: &[], future: &[1, 2, 3, 4, 5] },
    Block { id: 31, parents: &[GENESIS], past: &[0], future: &[3, 4] },
    Block { id: 22, parents: &[GENESIS], past: &[0], future: &[3, 4, 5] },
    Block { id: 53, parents: &[22, 31], past: &[0, 1, 2], future: &[4] },
    Block { id: 14, parents: &[53], past: &[0, 1, 2, 3], future: &[] },
    Block { id: 65, parents: &[22, GENESIS], past: &[0, 2], future: &[] },
];

const PAIRS: &[(u16, u16)] = &[(1, 2), (1, 5), (3, 5), (4, 5)];

/// The blocks, each of which got the number of its place.
fn worked_out(alloc: Global, blocks: &[Block]) -> Result<Dag, Fail> {
    let mut dag = Dag::new(alloc, id(GENESIS), 0, Profile::One)?;
    for block in blocks {
        let next = dag.len();
        if block.id != GENESIS && add(alloc, &mut dag, block.id, block.parents)? != next {
            return Err("another number".into());
        }
    }
    Ok(dag)
}

/// Whether a block with its future is just its future and the block.
fn is_closed(dag: &Dag, number: u16, future: &[u16]) -> bool
    requires { number < length dag.now.parents }
{
    // Tells the proof that there are at most 512 blocks.
    let _blocks = dag.len();
    let closed = dag.closed(number);
    let mut above = *closed;
    above.clear(number);
    closed.test(number) && has_just(&above, future)
}

/// Whether the block of this number is found by its id, and has just its past and future.
fn is_placed(dag: &Dag, number: u16, block: &Block) -> bool {
    if number >= dag.len() || dag.number(&id(block.id)) != Some(number) {
        return false;
    }
    dag.id(number) == id(block.id)
        && has_just(dag.past(number), block.past)
        && has_just(dag.future(number), block.future)
        && is_closed(dag, number, block.future)
}

/// The number of the first block that isn't placed so.
fn misplaced(dag: &Dag, blocks: &[Block]) -> Option<u16> {
    let mut number = 0u16;
    for block in blocks {
        if !is_placed(dag, number, block) {
            return Some(number);
        }
        number = number.saturating_add(1);
    }
    None
}

/// What a graph of the blocks tells: the first that is misplaced, how many there are, and the number
/// of one that isn't there.
fn told(alloc: Global) -> Result<(Option<u16>, (u16, Option<u16>)), Fail> {
    let dag = worked_out(alloc, BLOCKS)?;
    let misplaced = misplaced(&dag, BLOCKS);
    let numbers = (dag.len(), dag.number(&id(0)));
    drop(dag);
    Ok((misplaced, numbers))
}

#[test]
fn rows(rt: HostRuntime) -> Result<(), Fail> {
    let (misplaced, numbers) = told(rt.alloc())?;
    assert_eq!(rt; misplaced, None);
    assert_eq!(rt; numbers, (6, None));
    Ok(())
}

/// Where the pair of two blocks stands, and which pair stands there; or whether the two are related.
fn pair_of(dag: &Dag, x: u16, y: u16) -> Result<(usize, (u16, u16)), bool> {
    if x >= dag.len() || y >= dag.len() {
        return Err(false);
    }
    match dag.pair_of(x, y) {
        Some(index) => Ok((index as usize, dag.pair(index))),
        None => Err(x == y || dag.in_past(x, y) || dag.in_past(y, x)),
    }
}

/// What is to be said of two blocks by the list of unrelated pairs.
fn listed(pairs: &[(u16, u16)], x: u16, y: u16) -> Result<(usize, (u16, u16)), bool> {
    let pair = (x.min(y), x.max(y));
    match pairs.iter().position(|listed| *listed == pair) {
        Some(place) => Ok((place, pair)),
        None => Err(true),
    }
}

/// The first two of six blocks, in either order, of which something else is said.
fn mispaired(dag: &Dag, pairs: &[(u16, u16)]) -> Option<(u16, u16)> {
    for both in 0..36u16 {
        let (x, y) = (both / 6, both % 6);
        if pair_of(dag, x, y) != listed(pairs, x, y) {
            return Some((x, y));
        }
    }
    None
}

#[test]
fn pairs_either_way(rt: HostRuntime) -> Result<(), Fail> {
    let dag = worked_out(rt.alloc(), BLOCKS)?;
    assert_eq!(rt; (dag.pair_count(), mispaired(&dag, PAIRS)), (4, None));
    Ok(())
}
