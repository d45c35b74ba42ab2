//! Virtual votes of small graphs, worked out by hand.

use sp_dag::Dag;
use sp_fixtures::graph::{add, id};
use sp_model::Profile;
use sp_plain::{first_blocks, plain_votes};
use std::alloc::Global;
use std::test::Fail;

/// Blocks by number, each with the numbers of its parents; genesis is number 0 and isn't listed.
type Graph = &'static [&'static [u8]];

/// 1 and 2 stand side by side on genesis.
const TWO: Graph = &[&[0], &[0]];

/// A third block, on 1.
const THREE: Graph = &[&[0], &[0], &[1]];

/// 3 has 1 and 2 as parents.
const DIAMOND: Graph = &[&[0], &[0], &[1, 2]];

/// Each of 1, 2 and 3 comes before the next.
const CYCLE: Graph = &[
    &[0],
    &[0],
    &[0],
    &[1],
    &[4, 2],
    &[2],
    &[6, 3],
    &[3],
    &[8, 1],
];

/// A graph, how many of its first blocks vote, and what they say of two blocks.
type Row = (Graph, u16, u16, u16, i8);

#[rattlefmt::skip]
const ROWS: &[Row] = &[
    (TWO, 3, 1, 2, 0),
    (TWO, 3, 0, 1, -1),
    (TWO, 3, 2, 0, 1),
    (THREE, 4, 1, 2, -1),
    (THREE, 4, 2, 1, 1),
    (THREE, 4, 2, 3, 1),
    // The third block has no vote yet.
    (THREE, 3, 1, 2, 0),
    (THREE, 4, 1, 3, -1),
    // A voter that finds a tie in its past keeps it.
    (DIAMOND, 4, 1, 2, 0),
    (CYCLE, 10, 1, 2, -1),
    (CYCLE, 10, 2, 3, -1),
    (CYCLE, 10, 3, 1, -1),
    (CYCLE, 10, 1, 3, 1),
];

fn dag_of(alloc: Global, blocks: Graph) -> Result<Dag, Fail> {
    let mut dag = Dag::new(alloc, id(0), 0, Profile::One)?;
    let mut number = 0u8;
    for parents in blocks {
        number = number.saturating_add(1);
        add(alloc, &mut dag, number, parents)?;
    }
    Ok(dag)
}

fn vote(alloc: Global, dag: &Dag, count: u16, x: u16, y: u16) -> Result<i8, Fail> {
    if count > dag.len() || x >= dag.len() || y >= dag.len() {
        return Err("no such block".into());
    }
    let matrix = plain_votes(alloc, dag, &first_blocks(dag, count))?;
    Ok(matrix.vote(x, y))
}

/// The first of the rows in which another vote is said.
fn misvoted(alloc: Global, rows: &[Row]) -> Result<Option<usize>, Fail> {
    for (place, (blocks, count, x, y, answer)) in rows.iter().enumerate() {
        if vote(alloc, &dag_of(alloc, blocks)?, *count, *x, *y)? != *answer {
            return Ok(Some(place));
        }
    }
    Ok(None)
}

#[test]
fn votes(rt: HostRuntime) -> Result<(), Fail> {
    assert_eq!(rt; misvoted(rt.alloc(), ROWS)?, None);
    Ok(())
}
