//! The plain votes of a graph to which blocks are added one by one: the matrices of the pasts of its
//! blocks are kept, since no block that comes later changes them.

ghost use Rattle.std.specs.Prelude.{◌≡◌, ◌∷◌, ◌<◌, [], length, All, IfOk, OnOk, OnErr, IsTrue, IsFalse};
ghost use Rattle.sp_model.specs.Graph.{has};
ghost use Rattle.sp_dag.specs.Numbered.{graph_of, with_block};
ghost use Rattle.sp_plain.specs.Plain.{IsClosed};
ghost use Rattle.sp_plain.specs.Virts.{HasVirts};

use crate::matrix::Matrix;
use crate::plain::{add_pasts, virts_of};
use sp_bits::Row;
use sp_dag::Dag;
use sp_ids::{BlockId, Memory};
use sp_model::Profile;
use std::alloc::Global;
use std::marker::Model;

/// A graph, and the matrices of the pasts of its first blocks. Contracts see the graph as that of a
/// `Dag`.
pub struct Plain {
    alloc: Global,
    dag: Dag,
    pasts: Vec<Matrix>,
}

// Written out, so that where a graph is let go there is one call.
impl Drop for Plain {
    fn drop(self) {
        let Plain {
            alloc: _,
            dag,
            pasts,
        } = self;
        drop(dag);
        drop(pasts);
    }
}

impl Model for Plain {
    ghost use Rattle.sp_dag.specs.Numbered.{Numbered};
    ghost use Rattle.sp_plain.specs.Plain.{HoldsPasts};

    ghost Value = { Numbered };

    ghost view = { λ plain. plain.dag };

    ghost invariant = { λ plain. HoldsPasts plain.dag plain.pasts.items };
}

impl Plain {
    /// Genesis alone.
    ///
    /// # Errors
    ///
    /// Memory was refused.
    pub fn new(
        alloc: Global,
        genesis: BlockId,
        salt: u64,
        profile: Profile,
    ) -> Result<Plain, Memory>
        ensures { IfOk result (λ plain. plain ≡ record {
          profile = profile;
          ids = genesis ∷ [];
          salts = salt ∷ [];
          parents = [] ∷ [];
        }) }
    {
        let dag = Dag::new(alloc, genesis, salt, profile)?;
        Ok(Plain {
            alloc,
            dag,
            pasts: Vec::new(alloc),
        })
    }

    /// Adds a block with a salt whose parents are all there, and answers its number.
    ///
    /// # Errors
    ///
    /// Memory was refused; the graph is as before.
    pub fn add(&mut self, id: BlockId, salt: u64, parents: &[BlockId]) -> Result<u16, Memory>
        requires fresh { IsFalse (has self.old.ids id) }
        requires some { 0 < length parents.now }
        requires known { All (λ p. IsTrue (has self.old.ids p)) parents.now }
        requires room { length self.old.parents < 512 }
        ensures ok { OnOk result (self.new ≡ with_block self.old id salt parents.now) }
        ensures number { IfOk result (λ n. n ≡ length self.old.parents) }
        ensures err { OnErr result (self.new ≡ self.old) }
    {
        // These tell the proof that the blocks stand in order, before and after.
        let _before = self.dag.len();
        let number = self.dag.add(id, salt, parents)?;
        let _after = self.dag.len();
        Ok(number)
    }

    /// The graph, as it stands.
    pub fn dag(&self) -> &Dag
        ensures { result.now ≡ self.now }
    {
        &self.dag
    }

    /// The virtual votes of the members on each two of the graph's blocks. Of n blocks it takes time in
    /// proportion to the fourth power of n, and as much for each block that was added since the last
    /// call, for the matrix of its past.
    ///
    /// # Errors
    ///
    /// `Memory` where the matrices found none.
    pub fn votes(&mut self, members: &Row) -> Result<Matrix, Memory>
        requires { IsClosed (graph_of self.old) (length self.old.parents) members.now }
        ensures same { self.new ≡ self.old }
        ensures votes { IfOk result
            (HasVirts (graph_of self.old) members.now (length self.old.parents)) }
    {
        add_pasts(self.alloc, &self.dag, &mut self.pasts)?;
        let width = self.dag.len();
        let matrix = virts_of(self.alloc, &self.dag, &self.pasts, members, width)?;
        Ok(matrix)
    }
}
