//! Graphs that are drawn, whose blocks come to an engine of either profile in several orders: its
//! frozen votes and its views beside the plain votes.

ghost use Rattle.std.specs.Prelude.{◌≡◌, ◌≤◌, false, length};
ghost use Rattle.sp_tests_views.specs.Voting.{CanVote};

use crate::counts::{IDS, are_counted, count_view};
use crate::engines::{come, engine_of, view_at};
use crate::graphs::{GRAPHS, Shape, blocks_of, drawn, ordered};
use crate::rows::right;
use crate::signs::{are_inside, are_turned, changes, has_votes, past_votes, plain_of};
use crate::voters::{are_frozen, are_held};
use sp_dag::Dag;
use sp_engine::Engine;
use sp_fixtures::Numbered;
use sp_frozen::Frozen;
use sp_model::Profile;
use sp_rows::RowPool;
use sp_view::View;
use std::alloc::Global;
use std::process::Abort;
use std::test::Fail;

/// Whether a view votes as the plain votes of its members say.
fn is_right(
    alloc: Global,
    dag: &Dag,
    frozen: &Frozen,
    pool: &RowPool,
    view: &View,
) -> Result<bool, Fail>
    requires { CanVote dag.now frozen.now pool.now view.now }
{
    let votes = plain_of(alloc, dag, frozen, pool, view)?;
    Ok(has_votes(dag, frozen, pool, view, &votes))
}

/// Whether a view says of itself what the plain votes of its members say, and what changed from it to
/// the view of all; in a small graph its rows are compared voter by voter.
fn is_whole(
    alloc: Global,
    dag: &Dag,
    frozen: &Frozen,
    pool: &RowPool,
    view: &View,
    all: &View,
) -> Result<bool, Fail>
    requires can { CanVote dag.now frozen.now pool.now view.now }
    requires can_all { CanVote dag.now frozen.now pool.now all.now }
{
    let before = plain_of(alloc, dag, frozen, pool, view)?;
    let after = plain_of(alloc, dag, frozen, pool, all)?;
    let handed = past_votes(dag, frozen, pool, view)?;
    let changed = changes(dag, frozen, pool, view, all)?;
    Ok(
        has_votes(dag, frozen, pool, view, &before)
            && are_inside(handed.signs.as_slice(), &before)
            && are_turned(&changed, &before, &after)
            && (dag.len() > 17 || are_held(dag, frozen, pool, view)?),
    )
}

/// Whether the view of all of an engine votes as the plain votes of all say.
pub(crate) fn all_is_right(alloc: Global, engine: &Engine) -> Result<bool, Fail> {
    let (frozen, pool) = (engine.frozen(), engine.row_pool());
    is_right(alloc, engine.dag(), frozen, pool, engine.view_all())
}

/// Whether the view of a tip with its past is right, or that of all behind the last block; the rows that
/// it holds are counted.
fn is_whole_at(alloc: Global, engine: &Engine, n: u16, holders: &mut [u32]) -> Result<bool, Fail>
    requires { n ≤ length engine.now.numbered.parents }
{
    let (dag, frozen, pool) = (engine.dag(), engine.frozen(), engine.row_pool());
    let Some(view) = view_at(engine, n) else {
        return Ok(true);
    };
    let counted = count_view(holders, view, dag.pair_count());
    Ok(is_whole(alloc, dag, frozen, pool, view, engine.view_all())? && counted)
}

/// Whether all views of an engine are right, and each row is counted as often as they hold it.
fn all_are_whole(alloc: Global, engine: &Engine) -> Result<bool, Fail> {
    let mut holders = vec![in alloc; 0u32; IDS as usize]?;
    for n in 0..=engine.present() {
        if !is_whole_at(alloc, engine, n, &mut holders)? {
            return Ok(false);
        }
    }
    Ok(are_counted(engine.row_pool(), &holders))
}

/// Whether the frozen votes of an engine are right, which is asked of small graphs.
fn frozen_are_right(alloc: Global, engine: &Engine) -> Result<bool, Fail> {
    let dag = engine.dag();
    Ok(dag.len() > 17 || are_frozen(alloc, dag, engine.frozen())?)
}

/// What is wrong as the blocks come in an order, and at the end; nothing where all is right.
fn wrong(
    alloc: Global,
    engine: &mut Engine,
    blocks: &Numbered,
    order: &[u8],
) -> Result<&'static str, Fail> {
    for number in order {
        come(engine, blocks, *number as usize)?;
        if !all_is_right(alloc, engine)? {
            return Ok("the view of all");
        }
    }
    if !all_are_whole(alloc, engine)? {
        return Ok("a view");
    }
    if !frozen_are_right(alloc, engine)? {
        return Ok("a frozen vote");
    }
    Ok("")
}

fn wrong_in(
    alloc: Global,
    blocks: &Numbered,
    order: &[u8],
    profile: Profile,
) -> Result<&'static str, Fail> {
    if order.len().saturating_add(1) != blocks.ids.len() {
        return Ok("the order");
    }
    let mut engine = engine_of(alloc, blocks, profile)?;
    let wrong = wrong(alloc, &mut engine, blocks, order);
    drop(engine);
    wrong
}

/// What is wrong with a drawn graph of a profile in one of the three orders.
fn wrong_of(
    alloc: Global,
    shape: &Shape,
    profile: Profile,
    order: u8,
) -> Result<&'static str, Fail> {
    let graph = drawn(alloc, shape)?;
    let blocks = blocks_of(alloc, &graph, shape.1)?;
    let numbers = ordered(alloc, &graph, order, shape.1)?;
    wrong_in(alloc, &blocks, &numbers, profile)
}

/// Judges each graph of a profile in one of the three orders.
fn judge(rt: &impl Abort, alloc: Global, profile: Profile, order: u8) -> Result<(), Fail> {
    for (row, shape) in GRAPHS.iter().enumerate() {
        right(rt, row, wrong_of(alloc, shape, profile, order)?);
    }
    Ok(())
}

#[test]
fn kept_ties_in_order(rt: HostRuntime) -> Result<(), Fail> {
    judge(&rt, rt.alloc(), Profile::One, 0)
}

#[test]
fn kept_ties_highest_first(rt: HostRuntime) -> Result<(), Fail> {
    judge(&rt, rt.alloc(), Profile::One, 1)
}

#[test]
fn kept_ties_in_a_drawn_order(rt: HostRuntime) -> Result<(), Fail> {
    judge(&rt, rt.alloc(), Profile::One, 2)
}

#[test]
fn settled_ties_in_order(rt: HostRuntime) -> Result<(), Fail> {
    judge(&rt, rt.alloc(), Profile::Two, 0)
}

#[test]
fn settled_ties_highest_first(rt: HostRuntime) -> Result<(), Fail> {
    judge(&rt, rt.alloc(), Profile::Two, 1)
}

#[test]
fn settled_ties_in_a_drawn_order(rt: HostRuntime) -> Result<(), Fail> {
    judge(&rt, rt.alloc(), Profile::Two, 2)
}
