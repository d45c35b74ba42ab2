//! A law of the frozen votes. It is the contract of a function that does nothing, so that the check
//! proves it.

ghost use Rattle.std.specs.Prelude.{◌++◌, ◌∷◌, [], ℕ, List};
ghost use Rattle.sp_dag.specs.Numbered.{AreInOrder, IsNumbered, Numbered, with_next};
ghost use Rattle.sp_frozen.specs.Voters.{FrozenRows, HoldsFrozen};

/// A block that is added to the graph changes no frozen vote of the blocks before it.
pub fn frozen_votes_stay()
    ensures { (table : Numbered) (id salt : ℕ) (parents : List ℕ) (frozen : FrozenRows) →
        IsNumbered table → AreInOrder (table.parents ++ parents ∷ []) →
        HoldsFrozen table frozen → HoldsFrozen (with_next table id salt parents) frozen }
{}
