//! Two views over one pool, which no one else holds rows of. Each call keeps that, so that a test can
//! make calls in any order. What a call of a view asks of its members is tested, and what it asks of its
//! rows follows.

ghost use Rattle.std.specs.Prelude.{◌≡◌, [], IfOk, OnOk};
ghost use Rattle.sp_tests_views.specs.Voting.{AreTwo};

use crate::based::Based;
use sp_ids::Memory;
use sp_rows::RowPool;
use sp_view::View;
use std::alloc::Global;
use std::mem::{replace, swap};
use std::slice::from_ref;
use std::test::Fail;

/// A graph with its frozen votes, and two views of its blocks.
#[derive(Drop)]
pub(crate) struct Two {
    pub(crate) based: Based,
    pub(crate) pool: RowPool,
    pub(crate) one: View,
    pub(crate) other: View,
}

impl Two {
    /// Genesis with 1 and 2 on it, and both views of no blocks.
    pub(crate) fn start(alloc: Global) -> Result<Two, Fail>
        ensures { IfOk result (λ two.
            AreTwo two.based.dag two.based.frozen two.pool two.one two.other) }
    {
        let mut based = Based::start(alloc)?;
        based.grow(1, 0)?;
        based.grow(2, 0)?;
        // Tells the proof that the blocks stand in order.
        let _blocks = based.dag.len();
        Ok(Two {
            based,
            pool: RowPool::new(alloc),
            one: View::empty(alloc),
            other: View::empty(alloc),
        })
    }

    /// Adds a block on another one to the graph and its frozen votes.
    pub(crate) fn grow(&mut self, name: u8, parent: u8) -> Result<(), Fail>
        requires { AreTwo self.old.based.dag self.old.based.frozen
            self.old.pool self.old.one self.old.other }
        ensures { OnOk result (AreTwo self.new.based.dag self.new.based.frozen
            self.new.pool self.new.one self.new.other) }
    {
        self.based.grow(name, parent)?;
        Ok(())
    }

    /// Exchanges the two views.
    pub(crate) fn turn(&mut self)
        requires { AreTwo self.old.based.dag self.old.based.frozen
            self.old.pool self.old.one self.old.other }
        ensures { AreTwo self.new.based.dag self.new.based.frozen
            self.new.pool self.new.one self.new.other }
    {
        swap(&mut self.one, &mut self.other);
    }

    /// Lets the other view go, in whose place that of no blocks stands then.
    pub(crate) fn let_go(&mut self)
        requires { AreTwo self.old.based.dag self.old.based.frozen
            self.old.pool self.old.one self.old.other }
        ensures two { AreTwo self.new.based.dag self.new.based.frozen
            self.new.pool self.new.one self.new.other }
        ensures none { self.new.other ≡ record { members = []; entries = [] } }
    {
        let nothing = View::empty(self.based.alloc);
        let view = replace(&mut self.other, nothing);
        view.release(&mut self.pool);
    }

    /// Makes the other view a fork of the one.
    pub(crate) fn fork(&mut self) -> Result<(), Memory>
        requires { AreTwo self.old.based.dag self.old.based.frozen
            self.old.pool self.old.one self.old.other }
        ensures { OnOk result (AreTwo self.new.based.dag self.new.based.frozen
            self.new.pool self.new.one self.new.other) }
    {
        self.let_go();
        self.other = self.one.fork(&mut self.pool)?;
        Ok(())
    }

    /// Adds a block to the other view.
    pub(crate) fn join(&mut self, b: u16) -> Result<(), Fail>
        requires { AreTwo self.old.based.dag self.old.based.frozen
            self.old.pool self.old.one self.old.other }
        ensures { OnOk result (AreTwo self.new.based.dag self.new.based.frozen
            self.new.pool self.new.one self.new.other) }
    {
        self.based.join(&mut self.pool, &mut self.other, b)
    }

    /// Derives the other view from the one, as that of all blocks.
    pub(crate) fn derive(&mut self) -> Result<(), Fail>
        requires { AreTwo self.old.based.dag self.old.based.frozen
            self.old.pool self.old.one self.old.other }
        ensures { OnOk result (AreTwo self.new.based.dag self.new.based.frozen
            self.new.pool self.new.one self.new.other) }
    {
        self.let_go();
        let all = self.based.all()?;
        if self.pool.live() >= 1 << 20 {
            return Err("too many rows".into());
        }
        let (dag, frozen) = (&self.based.dag, &self.based.frozen);
        let views = from_ref(&self.one);
        self.other = View::derive(self.based.alloc, views, dag, frozen, &mut self.pool, &all)?;
        Ok(())
    }
}
