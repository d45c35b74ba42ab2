//! A graph that grows with its frozen votes, apart from an engine.

ghost use Rattle.std.specs.Prelude.{◌≡◌, ◌<◌, ◌+◌, ℕ, ℤ, List, length, IfOk, IsTrue, OnOk};
ghost use Rattle.sp_model.specs.Graph.{has};
ghost use Rattle.sp_dag.specs.Numbered.{graph_of};
ghost use Rattle.sp_frozen.specs.Voters.{HoldsFrozen};
ghost use Rattle.sp_rows.specs.Pool.{Pool};
ghost use Rattle.sp_view.specs.Settled.{IsAsked};
ghost use Rattle.sp_view.specs.Summed.{AreSums};
ghost use Rattle.sp_view.specs.Views.{Viewed, IsView};
ghost use Rattle.sp_tests_views.specs.Voting.{AreTwo, IsBased};

use sp_bits::Row;
use sp_dag::Dag;
use sp_frozen::Frozen;
use sp_ids::{BlockId, Memory};
use sp_model::Profile;
use sp_rows::RowPool;
use sp_view::View;
use std::alloc::Global;
use std::test::Fail;

/// A graph and the frozen votes of all its blocks, each of which is named by the one byte of its id.
/// Genesis is number 0 and has the name 0.
#[derive(Drop)]
pub(crate) struct Based {
    pub(crate) alloc: Global,
    pub(crate) dag: Dag,
    pub(crate) frozen: Frozen,
}

fn id(byte: u8) -> BlockId {
    BlockId::from_bytes([byte; 32])
}

fn is_in(dag: &Dag, id: &BlockId) -> bool
    ensures { result ≡ has dag.now.ids id.now }
{
    dag.number(id).is_some()
}

/// Adds the last block of a graph to the frozen votes, by a view of its past that is derived from
/// nothing.
fn freeze_last(alloc: Global, dag: &Dag, frozen: &mut Frozen) -> Result<(), Memory>
    requires frozen { HoldsFrozen dag.now frozen.old }
    requires next { length dag.now.parents ≡ frozen.old.blocks + 1 }
    ensures { OnOk result (IsBased dag.now frozen.new) }
{
    let b = dag.len() - 1;
    let past = dag.past(b);
    // Tells the proof that the past is a row, and that there are at most 130,816 pairs.
    let _members = past.count();
    let _pairs = dag.pair_count();
    let mut pool = RowPool::new(alloc);
    let view = View::derive(alloc, &[], dag, frozen, &mut pool, past)?;
    let votes = view.past_votes(frozen, &pool)?;
    frozen.add(dag, b, &votes)
}

impl Based {
    /// Genesis alone.
    pub(crate) fn start(alloc: Global) -> Result<Based, Memory>
        ensures { IfOk result (λ based. IsBased based.dag based.frozen) }
    {
        let dag = Dag::new(alloc, id(0), 0, Profile::One)?;
        let mut frozen = Frozen::new(alloc);
        freeze_last(alloc, &dag, &mut frozen)?;
        Ok(Based { alloc, dag, frozen })
    }

    /// Adds a block on another one.
    pub(crate) fn grow(&mut self, name: u8, parent: u8) -> Result<(), Fail>
        requires { IsBased self.old.dag self.old.frozen }
        ensures based { OnOk result (IsBased self.new.dag self.new.frozen) }
        ensures views { OnOk result ((view : Viewed) (pool : Pool) →
            IsView self.old.dag view pool → IsView self.new.dag view pool) }
        ensures sums { OnOk result ((view : Viewed) (pool : Pool) (sums : List ℤ) →
            IsView self.old.dag view pool → AreSums self.old.dag view.members sums →
            AreSums self.new.dag view.members sums) }
    {
        let new = id(name);
        let on = id(parent);
        if is_in(&self.dag, &new) || !is_in(&self.dag, &on) || self.dag.len() == 512 {
            return Err("known, on an unknown block, or too many".into());
        }
        self.dag.add(new, 0, &[on])?;
        // Tells the proof that the blocks stand in order.
        let _blocks = self.dag.len();
        freeze_last(self.alloc, &self.dag, &mut self.frozen)?;
        Ok(())
    }

    /// Adds a block to a view, if the view has its past and not the block.
    pub(crate) fn join(&self, pool: &mut RowPool, view: &mut View, b: u16) -> Result<(), Fail>
        requires based { IsBased self.now.dag self.now.frozen }
        requires is { IsView self.now.dag view.old pool.old }
        ensures is { OnOk result (IsView self.now.dag view.new pool.new) }
        ensures beside { OnOk result ((other : Viewed) →
            AreTwo self.now.dag self.now.frozen pool.old other view.old →
            AreTwo self.now.dag self.now.frozen pool.new other view.new) }
    {
        if b >= self.dag.len() || pool.live() >= 1 << 20 {
            return Err("no such block, or too many rows".into());
        }
        if view.members().test(b) || !self.dag.past(b).within(view.members()) {
            return Err("a member, or above other blocks".into());
        }
        view.add(&self.dag, &self.frozen, pool, b)?;
        Ok(())
    }

    /// All blocks, by a view that takes one after another.
    pub(crate) fn all(&self) -> Result<Row, Fail>
        requires { IsBased self.now.dag self.now.frozen }
        ensures asked { IfOk result (IsAsked (graph_of self.now.dag)) }
        ensures below { IfOk result (λ all. (z : ℕ) → IsTrue (has all z) →
            z < self.now.frozen.blocks) }
    {
        let mut pool = RowPool::new(self.alloc);
        let mut view = View::empty(self.alloc);
        for b in 0..self.dag.len() {
            self.join(&mut pool, &mut view, b)?;
        }
        Ok(*view.members())
    }
}
