//! A view that is put back, apart from an engine. With each block that joins, it has the plain votes of its members and the
//! rows of a view that is derived from nothing, and so again once the block is taken back, and once it is kept.

ghost use Rattle.std.specs.Prelude.{◌<◌, ℕ, length, IfOk, IsSome, IsTrue, OnOk};
ghost use Rattle.sp_dag.specs.Numbered.{pairs_of};
ghost use Rattle.sp_view.specs.Views.{entry_at};
ghost use Rattle.sp_tests_views.specs.Keeping.{IsKept};

use crate::based::Based;
use crate::places::{is_same, places};
use crate::rows::{holds, right};
use crate::signs::{has_votes, plain_of};
use crate::small::derived;
use crate::summed::{GRAPHS, has_signs};
use sp_bits::Row;
use sp_dag::Dag;
use sp_rows::{RowId, RowPool};
use sp_view::{Saved, Sums, View};
use std::alloc::Global;
use std::mem::{replace, swap};
use std::test::Fail;

/// A graph, a view of its blocks with the sums of their votes, and what puts these back as they were.
#[derive(Drop)]
struct Kept {
    based: Based,
    pool: RowPool,
    view: View,
    sums: Sums,
    members: Row,
    saved: Saved,
    older: Sums,
}

/// Whether a view has rows of each pair of a graph.
fn has_all(dag: &Dag, view: &View) -> bool
    ensures { IsTrue result → (i : ℕ) → i < length (pairs_of dag.now) →
        IsSome (entry_at view.now.entries i) }
{
    for pair in 0..dag.pair_count() {
        if view.rows(pair).is_none() {
            return false;
        }
    }
    true
}

/// Whether the rows of two pairs have the same places, each in its own pool.
fn are_same(
    pool: &RowPool,
    rows: (RowId, RowId),
    other: &RowPool,
    same: (RowId, RowId),
) -> Result<bool, Fail> {
    let plus = is_same(&places(pool, rows.0)?, &places(other, same.0)?);
    let minus = is_same(&places(pool, rows.1)?, &places(other, same.1)?);
    Ok(plus && minus)
}

/// Whether two views have rows of the same pairs, of the first so many, and the same places in them.
fn has_rows(
    count: u32,
    pool: &RowPool,
    view: &View,
    other: &RowPool,
    same: &View,
) -> Result<bool, Fail> {
    for pair in 0..count {
        let is = match (view.rows(pair), same.rows(pair)) {
            (Some(rows), Some(others)) => are_same(pool, rows, other, others)?,
            (None, None) => true,
            _ => false,
        };
        if !is {
            return Ok(false);
        }
    }
    Ok(true)
}

impl Kept {
    /// Genesis alone in the graph, and a view of no blocks.
    fn start(alloc: Global) -> Result<Kept, Fail>
        ensures { IfOk result (λ kept. IsKept kept.based.dag kept.based.frozen kept.pool kept.view
            kept.sums kept.members kept.saved kept.older) }
    {
        let based = Based::start(alloc)?;
        // Tells the proof that the blocks stand in order.
        let _blocks = based.dag.len();
        let mut sums = Sums::new(alloc);
        sums.grow(&based.dag)?;
        let older = sums.fork()?;
        Ok(Kept {
            based,
            pool: RowPool::new(alloc),
            view: View::empty(alloc),
            sums,
            members: Row::empty(),
            saved: Saved::new(alloc),
            older,
        })
    }

    /// Keeps what the view has become. From here on entries are saved, if the view is that of all blocks.
    fn save(&mut self) -> Result<(), Fail>
        requires { IsKept self.old.based.dag self.old.based.frozen self.old.pool self.old.view
            self.old.sums self.old.members self.old.saved self.old.older }
        ensures { OnOk result (IsKept self.new.based.dag self.new.based.frozen self.new.pool
            self.new.view self.new.sums self.new.members self.new.saved self.new.older) }
    {
        let nothing = Saved::new(self.based.alloc);
        let saved = replace(&mut self.saved, nothing);
        self.view.settle(&mut self.pool, saved);
        if !has_all(&self.based.dag, &self.view) {
            return Err("no rows of a pair".into());
        }
        self.older = self.sums.fork()?;
        self.saved = self.view.saving()?;
        self.members = *self.view.members();
        Ok(())
    }

    /// Adds a block on another one to the graph.
    fn grow(&mut self, name: u8, parent: u8) -> Result<(), Fail>
        requires { IsKept self.old.based.dag self.old.based.frozen self.old.pool self.old.view
            self.old.sums self.old.members self.old.saved self.old.older }
        ensures { OnOk result (IsKept self.new.based.dag self.new.based.frozen self.new.pool
            self.new.view self.new.sums self.new.members self.new.saved self.new.older) }
    {
        self.based.grow(name, parent)?;
        self.sums.grow(&self.based.dag)?;
        self.older.grow(&self.based.dag)?;
        Ok(())
    }

    /// Adds a block to the view, if that has its past and not the block.
    fn join(&mut self, b: u16) -> Result<(), Fail>
        requires { IsKept self.old.based.dag self.old.based.frozen self.old.pool self.old.view
            self.old.sums self.old.members self.old.saved self.old.older }
        ensures { OnOk result (IsKept self.new.based.dag self.new.based.frozen self.new.pool
            self.new.view self.new.sums self.new.members self.new.saved self.new.older) }
    {
        if b >= self.based.dag.len() || self.pool.live() >= 1 << 20 {
            return Err("no such block, or too many rows".into());
        }
        if self.view.members().test(b) || !self.based.dag.past(b).within(self.view.members()) {
            return Err("a member, or above other blocks".into());
        }
        self.view.add_with_sums(
            &self.based.dag,
            &self.based.frozen,
            &mut self.pool,
            &mut self.sums,
            &mut self.saved,
            b,
        )?;
        Ok(())
    }

    /// Puts the view and the sums back. Nothing is saved then.
    fn restore(&mut self)
        requires { IsKept self.old.based.dag self.old.based.frozen self.old.pool self.old.view
            self.old.sums self.old.members self.old.saved self.old.older }
        ensures { IsKept self.new.based.dag self.new.based.frozen self.new.pool self.new.view
            self.new.sums self.new.members self.new.saved self.new.older }
    {
        let nothing = Saved::new(self.based.alloc);
        let saved = replace(&mut self.saved, nothing);
        self.view.restore(&mut self.pool, saved, &self.members);
        self.members = Row::empty();
        swap(&mut self.sums, &mut self.older);
    }

    /// Lets the view go and what is saved, and answers how many rows are live then.
    fn release(self) -> usize
        requires { IsKept self.based.dag self.based.frozen self.pool self.view
            self.sums self.members self.saved self.older }
    {
        let Kept {
            based: _,
            pool,
            view,
            sums: _,
            members: _,
            saved,
            older: _,
        } = self;
        let (mut pool, mut view) = (pool, view);
        view.settle(&mut pool, saved);
        view.release(&mut pool);
        pool.live()
    }

    /// Whether the votes by the view and by the sums are the plain votes of the members, and the rows those of a view from
    /// nothing.
    fn is_right(&self) -> Result<bool, Fail>
        requires { IsKept self.now.based.dag self.now.based.frozen self.now.pool self.now.view
            self.now.sums self.now.members self.now.saved self.now.older }
    {
        let (alloc, dag, frozen) = (self.based.alloc, &self.based.dag, &self.based.frozen);
        let votes = plain_of(alloc, dag, frozen, &self.pool, &self.view)?;
        let mut own = RowPool::new(alloc);
        let again = derived(alloc, dag, frozen, &self.pool, &self.view, &mut own)?;
        Ok(
            has_votes(dag, frozen, &self.pool, &self.view, &votes)
                && has_votes(dag, frozen, &own, &again, &votes)
                && has_signs(&self.sums, dag, &votes)
                && has_rows(dag.pair_count(), &self.pool, &self.view, &own, &again)?,
        )
    }
}

/// Whether all is right with one block more, without it again, with it, and once it is kept.
fn is_put_back(kept: &mut Kept, name: u8, parent: u8) -> Result<bool, Fail>
    requires { IsKept kept.old.based.dag kept.old.based.frozen kept.old.pool kept.old.view
        kept.old.sums kept.old.members kept.old.saved kept.old.older }
    ensures { OnOk result (IsKept kept.new.based.dag kept.new.based.frozen kept.new.pool
        kept.new.view kept.new.sums kept.new.members kept.new.saved kept.new.older) }
{
    kept.save()?;
    let (members, live) = (*kept.view.members(), kept.pool.live());
    kept.grow(name, parent)?;
    kept.join(name as u16)?;
    let joined = kept.view.members().test(name as u16) && kept.is_right()?;
    kept.restore();
    let back = is_same(kept.view.members(), &members)
        && kept.pool.live() == live
        && kept.is_right()?;
    kept.join(name as u16)?;
    let again = kept.is_right()?;
    kept.save()?;
    Ok(joined && back && again && kept.is_right()?)
}

/// Whether all is right as the blocks of a graph join, each of which is taken back once. Each has one parent.
fn are_put_back(kept: &mut Kept, parents: &[u8]) -> Result<bool, Fail>
    requires { IsKept kept.old.based.dag kept.old.based.frozen kept.old.pool kept.old.view
        kept.old.sums kept.old.members kept.old.saved kept.old.older }
    ensures { OnOk result (IsKept kept.new.based.dag kept.new.based.frozen kept.new.pool
        kept.new.view kept.new.sums kept.new.members kept.new.saved kept.new.older) }
{
    kept.join(0)?;
    let mut name = 0u8;
    for parent in parents {
        name = name.saturating_add(1);
        if !is_put_back(kept, name, *parent)? {
            return Ok(false);
        }
    }
    Ok(true)
}

/// What is wrong with a graph, and with the rows that are live once its view went.
fn wrong_with(alloc: Global, parents: &[u8]) -> Result<&'static str, Fail> {
    let mut kept = Kept::start(alloc)?;
    if !are_put_back(&mut kept, parents)? {
        return Ok("the view");
    }
    Ok(if kept.release() == 0 { "" } else { "the rows" })
}

#[test]
fn a_view_is_put_back(rt: HostRuntime) -> Result<(), Fail> {
    for (row, parents) in GRAPHS.iter().enumerate() {
        right(&rt, row, wrong_with(rt.alloc(), parents)?);
    }
    Ok(())
}

/// The pairs of 1 and 2, 2 and 3, 2 and 4, 3 and 4, in this order.
const SIBLINGS: &[u8] = &[0, 0, 1, 1];

/// The ids of the rows of the four pairs.
type Ids = [Option<(RowId, RowId)>; 4];

/// Which rows the four pairs have.
fn ids(view: &View) -> Ids {
    [view.rows(0), view.rows(1), view.rows(2), view.rows(3)]
}

/// The rows of the four pairs before 5 joins, which stands on 3, with it, and once it is kept; and whether all is right then.
fn ids_kept(kept: &mut Kept) -> Result<(Ids, Ids, Ids, bool), Fail>
    requires { IsKept kept.old.based.dag kept.old.based.frozen kept.old.pool kept.old.view
        kept.old.sums kept.old.members kept.old.saved kept.old.older }
    ensures { OnOk result (IsKept kept.new.based.dag kept.new.based.frozen kept.new.pool
        kept.new.view kept.new.sums kept.new.members kept.new.saved kept.new.older) }
{
    kept.save()?;
    let before = ids(&kept.view);
    kept.grow(5, 3)?;
    kept.join(5)?;
    let joined = ids(&kept.view);
    kept.save()?;
    let right = kept.is_right()?;
    Ok((before, joined, ids(&kept.view), right))
}

/// Whether only the row of -1 of 3 and 4 had another id while 5 could be taken back, and all is right once it is kept.
fn have_ids_again(alloc: Global) -> Result<bool, Fail> {
    let mut kept = Kept::start(alloc)?;
    if !are_put_back(&mut kept, SIBLINGS)? {
        return Ok(false);
    }
    let (before, joined, after, right) = ids_kept(&mut kept)?;
    let (Some(was), Some(is)) = (before[3], joined[3]) else {
        return Ok(false);
    };
    let others = before[0] == joined[0] && before[1] == joined[1] && before[2] == joined[2];
    let moved = was.0 == is.0 && was.1 != is.1;
    Ok(others && moved && before == after && right && kept.release() == 0)
}

// With 3 and 4 side by side on 1, the sums of their votes are 0 and nobody below votes on them: both rows are empty. With 5 on 3
// there are two votes for 3 and one for 4, and so 1 and genesis vote -1. On 1 and 2, the members 1, 3, 4 and then 5 are against 2
// alone, and genesis votes -1 before and after. On 2 and 3, 1 and genesis vote +1 before and after, and 4 has no vote. On 2 and 4,
// so do they, and 3, and then 5, have no vote: 5 is above neither of the two. So one entry of four changes, and it has its row back.
#[test]
fn a_kept_row_has_its_id_again(rt: HostRuntime) -> Result<(), Fail> {
    holds(&rt, 0, have_ids_again(rt.alloc())?);
    Ok(())
}
