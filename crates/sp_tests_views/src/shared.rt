//! Two views of a small graph that share rows: what stands in each row, and how many are live.

ghost use Rattle.std.specs.Prelude.{OnOk};
ghost use Rattle.sp_tests_views.specs.Voting.{AreTwo};

use crate::places::{has_just, places};
use crate::rows::right;
use crate::signs::{changes, has_votes, plain_of};
use crate::two::Two;
use sp_rows::{RowId, RowPool};
use sp_view::View;
use std::test::Fail;

/// Whether a live row has just these places.
fn is(pool: &RowPool, row: RowId, members: &[u8]) -> Result<bool, Fail> {
    Ok(has_just(&places(pool, row)?, members))
}

/// How often each of two rows is counted.
fn counts(pool: &RowPool, rows: (RowId, RowId)) -> Option<(u32, u32)> {
    if pool.is_live(rows.0) && pool.is_live(rows.1) {
        Some((pool.count(rows.0), pool.count(rows.1)))
    } else {
        None
    }
}

/// The two rows of a pair inside a view.
fn rows_of(view: &View, pair: u32) -> Result<(RowId, RowId), Fail> {
    Ok(view.rows(pair).ok_or("not inside")?)
}

/// Whether the one view is that of genesis, of 1 and of 2: these two rows of the one pair are empty.
fn is_older(pool: &RowPool, view: &View, rows: (RowId, RowId)) -> Result<bool, Fail> {
    Ok(
        has_just(view.members(), &[0, 1, 2])
            && view.rows(0) == Some(rows)
            && view.rows(1).is_none()
            && is(pool, rows.0, &[])?
            && is(pool, rows.1, &[])?,
    )
}

/// Whether a view is that of all four, of which 3 stands on 1: genesis votes for 1 before 2, and
/// genesis and 1 vote for 3 before 2.
fn is_newer(pool: &RowPool, view: &View) -> Result<bool, Fail> {
    let (first, second) = (rows_of(view, 0)?, rows_of(view, 1)?);
    Ok(
        has_just(view.members(), &[0, 1, 2, 3])
            && is(pool, first.0, &[])?
            && is(pool, first.1, &[0])?
            && is(pool, second.0, &[0, 1])?
            && is(pool, second.1, &[])?,
    )
}

/// Whether the other view votes so, and the plain votes of the four are the same.
fn votes_so(two: &Two) -> Result<bool, Fail>
    requires { AreTwo two.now.based.dag two.now.based.frozen
        two.now.pool two.now.one two.now.other }
{
    let (dag, frozen, pool) = (&two.based.dag, &two.based.frozen, &two.pool);
    let votes = [Some(-1), Some(1)];
    let plain = plain_of(two.based.alloc, dag, frozen, pool, &two.other)?;
    Ok(has_votes(dag, frozen, pool, &two.other, &votes) && plain.as_slice() == votes.as_slice())
}

/// Whether just both pairs changed from the one view to the other.
fn both_changed(two: &Two) -> Result<bool, Fail>
    requires { AreTwo two.now.based.dag two.now.based.frozen
        two.now.pool two.now.one two.now.other }
{
    let (dag, frozen, pool) = (&two.based.dag, &two.based.frozen, &two.pool);
    let changed = changes(dag, frozen, pool, &two.one, &two.other)?;
    Ok(changed.as_slice() == [0, 1].as_slice())
}

/// Whether two views share a row that the older one has from before, while the other row differs, and so
/// do those of the new pair.
fn share_one(two: &Two, before: (RowId, RowId)) -> Result<bool, Fail> {
    let (pool, after) = (&two.pool, rows_of(&two.other, 0)?);
    Ok(
        pool.live() == 5
            && after.0 == before.0
            && after.1 != before.1
            && counts(pool, before) == Some((2, 1))
            && counts(pool, after) == Some((2, 1))
            && is_older(pool, &two.one, before)?
            && is_newer(pool, &two.other)?,
    )
}

/// Whether 1 and 2 are the one unrelated pair, both of whose rows are live and empty.
fn is_start(two: &Two, rows: (RowId, RowId)) -> Result<bool, Fail> {
    let dag = &two.based.dag;
    if dag.len() != 3 {
        return Ok(false);
    }
    let pairs = (dag.pair_of(1, 2), dag.pair_of(0, 1));
    Ok(pairs == (Some(0), None) && two.pool.live() == 2 && is_older(&two.pool, &two.one, rows)?)
}

/// Makes the one view that of genesis, 1 and 2, and answers its rows.
fn begin(two: &mut Two) -> Result<(RowId, RowId), Fail>
    requires { AreTwo two.old.based.dag two.old.based.frozen
        two.old.pool two.old.one two.old.other }
    ensures { OnOk result (AreTwo two.new.based.dag two.new.based.frozen
        two.new.pool two.new.one two.new.other) }
{
    two.derive()?;
    two.turn();
    let rows = rows_of(&two.one, 0)?;
    if is_start(two, rows)? {
        Ok(rows)
    } else {
        Err("another start".into())
    }
}

/// What is wrong with both views, with the newer one once the older one went, and once both did.
fn wrong_then(two: &mut Two, before: (RowId, RowId)) -> Result<&'static str, Fail>
    requires { AreTwo two.old.based.dag two.old.based.frozen
        two.old.pool two.old.one two.old.other }
{
    if !(share_one(two, before)? && votes_so(two)? && both_changed(two)?) {
        return Ok("both");
    }
    two.turn();
    two.let_go();
    if !(two.pool.live() == 4 && is_newer(&two.pool, &two.one)?) {
        return Ok("the newer one");
    }
    two.turn();
    if !votes_so(two)? {
        return Ok("the votes of the newer one");
    }
    two.let_go();
    Ok(if two.pool.live() == 0 { "" } else { "none" })
}

fn wrong_forked(two: &mut Two) -> Result<&'static str, Fail>
    requires { AreTwo two.old.based.dag two.old.based.frozen
        two.old.pool two.old.one two.old.other }
{
    let before = begin(two)?;
    two.fork()?;
    if (two.pool.live(), counts(&two.pool, before)) != (2, Some((2, 2))) {
        return Ok("the fork");
    }
    two.grow(3, 1)?;
    two.join(3)?;
    wrong_then(two, before)
}

fn wrong_derived(two: &mut Two) -> Result<&'static str, Fail>
    requires { AreTwo two.old.based.dag two.old.based.frozen
        two.old.pool two.old.one two.old.other }
{
    let before = begin(two)?;
    two.grow(3, 1)?;
    two.derive()?;
    wrong_then(two, before)
}

#[test]
fn a_fork_keeps_the_rows_that_stay(rt: HostRuntime) -> Result<(), Fail> {
    let mut two = Two::start(rt.alloc())?;
    let wrong = wrong_forked(&mut two);
    drop(two);
    right(&rt, 0, wrong?);
    Ok(())
}

#[test]
fn a_derived_view_keeps_the_rows_that_stay(rt: HostRuntime) -> Result<(), Fail> {
    let mut two = Two::start(rt.alloc())?;
    let wrong = wrong_derived(&mut two);
    drop(two);
    right(&rt, 0, wrong?);
    Ok(())
}
