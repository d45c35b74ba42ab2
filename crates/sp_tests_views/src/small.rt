//! Small graphs whose votes and rows are worked out by hand.

ghost use Rattle.std.specs.Prelude.{◌≡◌, [], ◌<◌, length, IfOk, IfSome};
ghost use Rattle.sp_dag.specs.Numbered.{pairs_of};
ghost use Rattle.sp_tests_views.specs.Voting.{CanVote};

use crate::engines::{come, engine_of};
use crate::places::{has_just, places};
use crate::rows::holds;
use crate::signs::vote_on;
use crate::voters::frozen_rows;
use sp_bits::Row;
use sp_dag::Dag;
use sp_engine::Engine;
use sp_fixtures::Numbered;
use sp_frozen::Frozen;
use sp_ids::Memory;
use sp_model::Profile;
use sp_rows::RowPool;
use sp_view::View;
use std::alloc::Global;
use std::process::Abort;
use std::test::Fail;

/// Blocks by number, each with the numbers of its parents; genesis is number 0 and isn't listed.
type Graph = &'static [&'static [usize]];

/// 1 and 2 stand side by side on genesis.
const TWO: Graph = &[&[0], &[0]];

/// A third block, on 1.
const THREE: Graph = &[&[0], &[0], &[1]];

/// Two more, on 2.
const FIVE: Graph = &[&[0], &[0], &[1], &[2], &[2]];

/// Each block stands on the one before it.
const CHAIN: Graph = &[&[0], &[1]];

/// 3 has 1 and 2 as parents.
const DIAMOND: Graph = &[&[0], &[0], &[1, 2]];

/// Each of 1, 2 and 3 comes before the next.
const CYCLE: Graph = &[
    &[0],
    &[0],
    &[0],
    &[1],
    &[4, 2],
    &[2],
    &[6, 3],
    &[3],
    &[8, 1],
];

/// A graph, two of its blocks, and the sum of all votes on them; there is none where the two are
/// related.
type Sum = (Graph, u16, u16, Option<i32>);

#[rattlefmt::skip]
const SUMS: &[Sum] = &[
    (TWO, 1, 2, Some(0)),
    (THREE, 1, 2, Some(-2)),
    (THREE, 2, 1, Some(2)),
    (THREE, 0, 1, None),
    (THREE, 0, 2, None),
    (THREE, 0, 3, None),
    (THREE, 1, 3, None),
    (THREE, 2, 3, Some(2)),
    (FIVE, 1, 2, Some(2)),
    (CHAIN, 1, 2, None),
    (CHAIN, 0, 1, None),
    (DIAMOND, 1, 2, Some(0)),
    (CYCLE, 1, 2, Some(-4)),
    (CYCLE, 2, 3, Some(-4)),
    (CYCLE, 3, 1, Some(-4)),
    (CYCLE, 1, 3, Some(4)),
];

/// The same where voters settle ties: 3 votes for 1, whose salt is the lower one, and so genesis does.
const SETTLED_SUMS: &[Sum] = &[
    (TWO, 1, 2, Some(0)),
    (DIAMOND, 1, 2, Some(-2)),
    (DIAMOND, 2, 1, Some(2)),
    (DIAMOND, 2, 3, None),
];

/// The four rows of a pair: the frozen voters of +1 and of -1, and the loose ones.
type Sides = [&'static [u8]; 4];

#[rattlefmt::skip]
const SIDES: &[(Graph, u16, u16, Sides)] = &[
    (TWO, 1, 2, [&[2], &[1], &[], &[]]),
    (THREE, 1, 2, [&[2], &[1, 3], &[], &[0]]),
    (THREE, 2, 3, [&[3], &[2], &[0, 1], &[]]),
    (FIVE, 1, 2, [&[2, 4, 5], &[1, 3], &[0], &[]]),
    // 5 finds no vote above it and votes for neither, and so does genesis by the sum.
    (FIVE, 3, 4, [&[4], &[3], &[2], &[1]]),
    // 3 finds a tie in its past and keeps it.
    (DIAMOND, 1, 2, [&[2], &[1], &[], &[]]),
    (CYCLE, 1, 2, [&[2, 6, 7], &[1, 4, 5, 9], &[], &[0, 3, 8]]),
];

/// The same where voters settle ties.
const SETTLED_SIDES: &[(Graph, u16, u16, Sides)] = &[
    (TWO, 1, 2, [&[2], &[1], &[], &[]]),
    (DIAMOND, 1, 2, [&[2], &[1, 3], &[], &[0]]),
];

/// A pair of two blocks, if they are unrelated.
fn pair_of(dag: &Dag, x: u16, y: u16) -> Result<Option<u32>, Fail>
    ensures { IfOk result (λ o. IfSome o (λ i. i < length (pairs_of dag.now))) }
{
    if x >= dag.len() || y >= dag.len() {
        return Err("no such block".into());
    }
    match dag.pair_of(x, y) {
        Some(pair) if pair < dag.pair_count() => Ok(Some(pair)),
        Some(_) => Err("no such pair".into()),
        None => Ok(None),
    }
}

/// The frozen voters of +1 and of -1 on a pair, and the loose ones.
type Four = (Row, Row, Row, Row);

/// The four rows of a pair inside a view.
fn four_rows(
    dag: &Dag,
    frozen: &Frozen,
    pool: &RowPool,
    view: &View,
    pair: u32,
) -> Result<Four, Fail>
    requires can { CanVote dag.now frozen.now pool.now view.now }
    requires listed { pair < length (pairs_of dag.now) }
{
    let (plus, minus) = frozen_rows(dag, frozen, pair);
    match view.rows(pair) {
        Some(loose) => Ok((plus, minus, places(pool, loose.0)?, places(pool, loose.1)?)),
        None => Err("not inside".into()),
    }
}

/// What a view has of two unrelated blocks: the sum of its members' votes, in the order in which the
/// blocks are given, and the four rows of their pair.
type Said = Option<(i32, Four)>;

/// The sum of the votes of a view's members by the four rows of a pair, if its sign is what the view
/// says.
fn sum_on(
    dag: &Dag,
    frozen: &Frozen,
    pool: &RowPool,
    view: &View,
    pair: u32,
    rows: &Four,
) -> Result<i32, Fail>
    requires can { CanVote dag.now frozen.now pool.now view.now }
{
    let members = view.members();
    let sum = members
        .balance(&rows.0, &rows.1)
        .saturating_add(members.balance(&rows.2, &rows.3));
    let vote = vote_on(dag, frozen, pool, view, pair);
    if vote == Some((sum > 0) as i8 - (sum < 0) as i8) {
        Ok(sum)
    } else {
        Err("another sign".into())
    }
}

fn said_of(
    dag: &Dag,
    frozen: &Frozen,
    pool: &RowPool,
    view: &View,
    x: u16,
    y: u16,
) -> Result<Said, Fail>
    requires { CanVote dag.now frozen.now pool.now view.now }
{
    let Some(pair) = pair_of(dag, x, y)? else {
        return Ok(None);
    };
    let rows = four_rows(dag, frozen, pool, view, pair)?;
    let sum = sum_on(dag, frozen, pool, view, pair, &rows)?;
    Ok(Some((if x < y { sum } else { sum.saturating_neg() }, rows)))
}

/// The view of the same set as another one, derived from nothing over a pool without rows.
pub(crate) fn derived(
    alloc: Global,
    dag: &Dag,
    frozen: &Frozen,
    pool: &RowPool,
    view: &View,
    own: &mut RowPool,
) -> Result<View, Memory>
    requires can { CanVote dag.now frozen.now pool.now view.now }
    requires empty { own.old.rows ≡ [] }
    ensures { IfOk result (λ again. CanVote dag.now frozen.now own.new again) }
{
    View::derive(alloc, &[], dag, frozen, own, view.members())
}

/// The same by that view.
fn said_again(
    alloc: Global,
    dag: &Dag,
    frozen: &Frozen,
    pool: &RowPool,
    view: &View,
    x: u16,
    y: u16,
) -> Result<Said, Fail>
    requires { CanVote dag.now frozen.now pool.now view.now }
{
    let mut own = RowPool::new(alloc);
    let again = derived(alloc, dag, frozen, pool, view, &mut own)?;
    said_of(dag, frozen, &own, &again, x, y)
}

/// What the view of all of an engine has, which grew block by block, and the derived one.
fn both(alloc: Global, engine: &Engine, x: u16, y: u16) -> Result<(Said, Said), Fail> {
    let (dag, frozen, pool) = (engine.dag(), engine.frozen(), engine.row_pool());
    let all = engine.view_all();
    let said = said_of(dag, frozen, pool, all, x, y)?;
    let again = said_again(alloc, dag, frozen, pool, all, x, y)?;
    Ok((said, again))
}

fn both_behind(
    engine: &mut Engine,
    blocks: &Numbered,
    x: u16,
    y: u16,
) -> Result<(Said, Said), Fail> {
    for number in 1..blocks.ids.len() {
        come(engine, blocks, number)?;
    }
    both(blocks.alloc, engine, x, y)
}

/// What both have of two blocks of a graph.
fn both_of(
    alloc: Global,
    profile: Profile,
    graph: Graph,
    x: u16,
    y: u16,
) -> Result<(Said, Said), Fail> {
    let blocks = Numbered::of(alloc, graph)?;
    let mut engine = engine_of(alloc, &blocks, profile)?;
    let both = both_behind(&mut engine, &blocks, x, y);
    drop(engine);
    both
}

fn has_sum(said: &Said, sum: Option<i32>) -> bool {
    match said {
        Some((found, _)) => sum == Some(*found),
        None => sum.is_none(),
    }
}

fn judge_sums(rt: &impl Abort, alloc: Global, profile: Profile, rows: &[Sum]) -> Result<(), Fail> {
    for (row, (graph, x, y, sum)) in rows.iter().enumerate() {
        let both = both_of(alloc, profile, graph, *x, *y)?;
        holds(rt, row, has_sum(&both.0, *sum) && has_sum(&both.1, *sum));
    }
    Ok(())
}

#[test]
fn sums(rt: HostRuntime) -> Result<(), Fail> {
    judge_sums(&rt, rt.alloc(), Profile::One, SUMS)?;
    judge_sums(&rt, rt.alloc(), Profile::Two, SETTLED_SUMS)
}

fn has_sides(said: &Said, sides: &Sides) -> bool {
    match said {
        Some((_, rows)) => {
            has_just(&rows.0, sides[0])
                && has_just(&rows.1, sides[1])
                && has_just(&rows.2, sides[2])
                && has_just(&rows.3, sides[3])
        }
        None => false,
    }
}

fn judge_sides(
    rt: &impl Abort,
    alloc: Global,
    profile: Profile,
    rows: &[(Graph, u16, u16, Sides)],
) -> Result<(), Fail> {
    for (row, (graph, x, y, sides)) in rows.iter().enumerate() {
        let both = both_of(alloc, profile, graph, *x, *y)?;
        holds(
            rt,
            row,
            has_sides(&both.0, sides) && has_sides(&both.1, sides),
        );
    }
    Ok(())
}

#[test]
fn rows(rt: HostRuntime) -> Result<(), Fail> {
    judge_sides(&rt, rt.alloc(), Profile::One, SIDES)?;
    judge_sides(&rt, rt.alloc(), Profile::Two, SETTLED_SIDES)
}
