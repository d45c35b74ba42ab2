//! Voters that find a tie on two blocks in their past and settle it by rank: drawn graphs have many of
//! them, so that what is compared elsewhere speaks of both ways to settle one.

ghost use Rattle.std.specs.Prelude.{◌<◌, length};
ghost use Rattle.sp_dag.specs.Numbered.{pairs_of};
ghost use Rattle.sp_tests_views.specs.Voting.{IsBased};

use crate::engines::{come, engine_of};
use crate::graphs::{GRAPHS, Shape, blocks_of, drawn};
use crate::rows::{holds, right};
use crate::voters::{by_rank, frozen_on, plain_past};
use sp_dag::Dag;
use sp_engine::Engine;
use sp_fixtures::Numbered;
use sp_frozen::Frozen;
use sp_model::Profile;
use std::alloc::Global;
use std::test::Fail;

/// How many ties voters settle: by the salts of the two blocks, and by their ids, where the salts are
/// the same.
#[derive(Clone, Copy)]
pub(crate) struct Ties {
    pub(crate) by_salt: usize,
    pub(crate) by_id: usize,
}

impl Ties {
    fn none() -> Ties {
        Ties {
            by_salt: 0,
            by_id: 0,
        }
    }

    fn add(&mut self, same: bool) {
        if same {
            self.by_id = self.by_id.saturating_add(1);
        } else {
            self.by_salt = self.by_salt.saturating_add(1);
        }
    }

    fn join(&mut self, other: &Ties) {
        self.by_id = self.by_id.saturating_add(other.by_id);
        self.by_salt = self.by_salt.saturating_add(other.by_salt);
    }
}

/// Counts a tie in the past of a block; false where the block doesn't vote on it by rank.
fn count_tie(dag: &Dag, frozen: &Frozen, pair: u32, z: u16, ties: &mut Ties) -> bool
    requires based { IsBased dag.now frozen.now }
    requires listed { pair < length (pairs_of dag.now) }
    requires z_in { z < length dag.now.parents }
{
    let (x, y) = dag.pair(pair);
    let (first, second) = (dag.rank(x), dag.rank(y));
    ties.add(first.0 == second.0);
    frozen_on(dag, frozen, pair, z) == Some(by_rank(&first, &second))
}

/// Counts the ties in the past of a block, by the plain votes of that; false where the block doesn't
/// vote on one by rank.
fn count_ties(dag: &Dag, frozen: &Frozen, past: &[Option<i8>], z: u16, ties: &mut Ties) -> bool
    requires based { IsBased dag.now frozen.now }
    requires z_in { z < length dag.now.parents }
{
    let mut all = true;
    for pair in 0..dag.pair_count() {
        if past.get(pair as usize).copied() == Some(Some(0)) {
            all &= count_tie(dag, frozen, pair, z, ties);
        }
    }
    all
}

/// Counts the ties in the past of the latest block of an engine.
fn count_last(alloc: Global, engine: &Engine, ties: &mut Ties) -> Result<bool, Fail> {
    let z = engine.present() - 1;
    let (dag, frozen) = (engine.dag(), engine.frozen());
    // Two blocks that are unrelated have genesis beside them.
    if dag.past(z).count() < 3 {
        return Ok(true);
    }
    let past = plain_past(alloc, dag, z)?;
    Ok(count_ties(dag, frozen, &past, z, ties))
}

/// Counts the ties in the past of each block, all of which come to an engine in order.
fn count_all(engine: &mut Engine, blocks: &Numbered, ties: &mut Ties) -> Result<bool, Fail> {
    let mut all = true;
    for number in 1..blocks.ids.len() {
        come(engine, blocks, number)?;
        all &= count_last(blocks.alloc, engine, ties)?;
    }
    Ok(all)
}

/// The ties that voters settle in a graph, if all do so by rank.
pub(crate) fn ties_in(blocks: &Numbered) -> Result<Option<Ties>, Fail> {
    let mut ties = Ties::none();
    let mut engine = engine_of(blocks.alloc, blocks, Profile::Two)?;
    let all = count_all(&mut engine, blocks, &mut ties);
    drop(engine);
    Ok(if all? { Some(ties) } else { None })
}

fn ties_of(alloc: Global, shape: &Shape) -> Result<Option<Ties>, Fail> {
    let graph = drawn(alloc, shape)?;
    ties_in(&blocks_of(alloc, &graph, shape.1)?)
}

/// In how many graphs there is a tie of each kind, where there is one graph.
fn graphs_of(ties: &Ties) -> Ties {
    Ties {
        by_salt: (ties.by_salt > 0) as usize,
        by_id: (ties.by_id > 0) as usize,
    }
}

/// The bounds are far below what such draws give. In the last graph alone a block on all 64 of a layer
/// finds 2,016 ties, of which a third are expected to have equal salts; the smaller graphs have a few
/// each, and some none.
#[test]
fn voters_settle_ties_by_rank(rt: HostRuntime) -> Result<(), Fail> {
    let (mut ties, mut graphs) = (Ties::none(), Ties::none());
    for (row, shape) in GRAPHS.iter().enumerate() {
        match ties_of(rt.alloc(), shape)? {
            Some(found) => {
                ties.join(&found);
                graphs.join(&graphs_of(&found));
            }
            None => right(&rt, row, "a vote"),
        }
    }
    holds(
        &rt,
        GRAPHS.len(),
        ties.by_salt >= 1_000 && ties.by_id >= 500,
    );
    holds(
        &rt,
        GRAPHS.len(),
        graphs.by_salt >= 10 && graphs.by_id >= 10,
    );
    Ok(())
}
