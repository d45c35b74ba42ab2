//! Laws of views, over the definitions alone. Each is the contract of a function that does nothing,
//! so that the check proves it.

ghost use Rattle.std.specs.Prelude.{◌≡◌, ◌<◌, ◌≤◌, ◌++◌, ◌∷◌, [], ℕ, List, IsTrue, length};
ghost use Rattle.sp_dag.specs.Numbered.{AreInOrder, IsNumbered, Numbered, with_next};
ghost use Rattle.sp_model.specs.Graph.{has};
ghost use Rattle.sp_frozen.specs.Voters.{FrozenRows, HoldsFrozen};
ghost use Rattle.sp_rows.specs.Pool.{Pool};
ghost use Rattle.sp_view.specs.Stored.{count_of, row_of};
ghost use Rattle.sp_view.specs.Views.{Viewed, held, AreListed, IsView};

/// A view stays one when a block is added to the graph beside it, and when other views' rows change:
/// what it needs of the pool is that its own rows stay and are counted.
pub fn views_stay()
    ensures graph { (table : Numbered) (id salt : ℕ) (parents : List ℕ) (view : Viewed)
        (pool : Pool) → IsNumbered table → AreInOrder (table.parents ++ parents ∷ []) →
        IsView table view pool → IsView (with_next table id salt parents) view pool }
    ensures pool { (table : Numbered) (view : Viewed) (pool other : Pool) →
        IsView table view pool →
        ((row : ℕ) → held view.entries row ≤ count_of other row) →
        ((row : ℕ) → 0 < held view.entries row → row_of other row ≡ row_of pool row) →
        IsView table view other }
{}

/// Each pair that a view has rows of is one whose frozen rows are there, where the members were
/// added to the frozen votes. So the conditions on the votes of a view follow from what it is.
pub fn views_are_listed()
    ensures { (table : Numbered) (view : Viewed) (pool : Pool) (frozen : FrozenRows) →
        IsView table view pool → HoldsFrozen table frozen →
        ((z : ℕ) → IsTrue (has view.members z) → z < frozen.blocks) →
        AreListed view.entries (length frozen.pluses) }
{}
