//! What is left of a view and of its rows whether memory is refused or not.

ghost use Rattle.std.specs.Prelude.{OnOk};
ghost use Rattle.sp_tests_views.specs.Voting.{AreTwo};

use crate::rows::holds;
use crate::two::Two;
use sp_rows::{RowId, RowPool};
use sp_view::View;
use std::alloc::Global;
use std::test::Fail;

/// A row as it stands: how often it is counted, and its words. One that isn't live is never counted.
type Standing = (RowId, u32, [u64; 8]);

fn seen(pool: &RowPool, id: RowId) -> Standing {
    let mut words = [0; 8];
    let mut count = 0;
    if pool.is_live(id) {
        words.copy_from_slice(pool.words(id));
        count = pool.count(id);
    }
    (id, count, words)
}

/// The rows of a view, by the pairs in order.
fn seen_all(alloc: Global, pool: &RowPool, view: &View) -> Result<Vec<Standing>, Fail> {
    let mut rows = Vec::new(alloc);
    for pair in 0..10u32 {
        if let Some((plus, minus)) = view.rows(pair) {
            rows.push(seen(pool, plus))?;
            rows.push(seen(pool, minus))?;
        }
    }
    Ok(rows)
}

/// Whether the rows of a view stand as before, and so many rows are live. It takes no memory.
fn is_as(pool: &RowPool, view: &View, before: &[Standing], live: usize) -> bool {
    let mut place = 0usize;
    for pair in 0..10u32 {
        if let Some((plus, minus)) = view.rows(pair) {
            if before.get(place).copied() != Some(seen(pool, plus))
                || before.get(place.saturating_add(1)).copied() != Some(seen(pool, minus))
            {
                return false;
            }
            place = place.saturating_add(2);
        }
    }
    place == before.len() && pool.live() == live
}

/// Makes the other view that of the first three, behind which 3 stands on 1 and 4 on 2.
fn begin(two: &mut Two) -> Result<(), Fail>
    requires { AreTwo two.old.based.dag two.old.based.frozen
        two.old.pool two.old.one two.old.other }
    ensures { OnOk result (AreTwo two.new.based.dag two.new.based.frozen
        two.new.pool two.new.one two.new.other) }
{
    two.derive()?;
    two.grow(3, 1)?;
    two.grow(4, 2)
}

/// Adds 3 to the view of the first three. Where that is refused it says whether the view and all rows
/// are as they were.
fn add_fourth(two: &mut Two) -> Result<(bool, Result<(), Fail>), Fail>
    requires { AreTwo two.old.based.dag two.old.based.frozen
        two.old.pool two.old.one two.old.other }
{
    begin(two)?;
    let before = seen_all(two.based.alloc, &two.pool, &two.other)?;
    let live = two.pool.live();
    let added = two.join(3);
    let count = two.other.members().count();
    let stands = if added.is_ok() {
        count == 4
    } else {
        count == 3 && is_as(&two.pool, &two.other, &before, live)
    };
    Ok((stands, added))
}

/// Derives the view of all from that of the first three. Where that is refused it says whether all rows
/// are as they were.
fn derive_all(two: &mut Two) -> Result<(bool, Result<(), Fail>), Fail>
    requires { AreTwo two.old.based.dag two.old.based.frozen
        two.old.pool two.old.one two.old.other }
{
    begin(two)?;
    two.turn();
    let before = seen_all(two.based.alloc, &two.pool, &two.one)?;
    let live = two.pool.live();
    let derived = two.derive();
    let stands = if derived.is_ok() {
        two.other.members().count() == 5
    } else {
        is_as(&two.pool, &two.one, &before, live)
    };
    Ok((stands, derived))
}

#[test]
fn a_view_stays_where_no_block_can_be_added(rt: HostRuntime) -> Result<(), Fail> {
    let mut two = Two::start(rt.alloc())?;
    let left = add_fourth(&mut two);
    drop(two);
    let (stands, added) = left?;
    holds(&rt, 0, stands);
    added
}

#[test]
fn rows_stay_where_no_view_can_be_derived(rt: HostRuntime) -> Result<(), Fail> {
    let mut two = Two::start(rt.alloc())?;
    let left = derive_all(&mut two);
    drop(two);
    let (stands, derived) = left?;
    holds(&rt, 0, stands);
    derived
}
