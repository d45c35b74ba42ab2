//! Where two blocks stand, as acceptance asks it.

ghost use Rattle.std.specs.Prelude.{◌≡◌, ◌<◌, ◌||◌, ◌==◌, ℕ, List, length, IsFalse};
ghost use Rattle.sp_model.specs.Graph.{related};
ghost use Rattle.sp_dag.specs.Numbered.{Numbered, graph_of};
ghost use Rattle.sp_accept.specs.Standing.{is_before, is_below};

/// The order of the blocks of a graph by their numbers, told by whoever keeps the votes. Contracts
/// see the blocks by number: past and votes are those of their graph, the votes with all its blocks as
/// the set. Both calls come often, so they should be look-ups.
pub trait Order {
    /// The blocks by number.
    ghost table: { Self → Numbered };

    /// Whether the virtual vote puts x before y. A tie doesn't.
    fn before(&self, x: u16, y: u16) -> bool
        requires x_in { x < length (table self.now).parents }
        requires y_in { y < length (table self.now).parents }
        requires unrelated { IsFalse ((x == y) || related (graph_of (table self.now)) x y) }
        ensures { result ≡ is_before (table self.now) x y };

    /// Whether x is in the past of y.
    fn in_past(&self, x: u16, y: u16) -> bool
        requires x_in { x < length (table self.now).parents }
        requires y_in { y < length (table self.now).parents }
        ensures { result ≡ is_below (table self.now) x y };
}
