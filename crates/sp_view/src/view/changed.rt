//! On which pairs a view votes otherwise than an older one.

ghost use Rattle.std.specs.Prelude.{◌≡◌, ◌<◌, ◌≤◌, ◌↔◌, ℕ, Some, length, IsTrue, IsSome, IfSome, IfOk, slice_get};
ghost use Rattle.sp_model.specs.Graph.{has};
ghost use Rattle.sp_dag.specs.Numbered.{Numbered, graph_of, pairs_of};
ghost use Rattle.sp_frozen.specs.Voters.{HoldsFrozen};
ghost use Rattle.sp_view.specs.Stored.{count_of, live};
ghost use Rattle.sp_view.specs.Changed.{changed_of, has_changed};
ghost use Rattle.sp_view.specs.Sums.{AreJoined, IsLone};
ghost use Rattle.sp_view.specs.Views.{Viewed, entry_at, held, IsView, AreListed};

use crate::stored::RowName;
use crate::tally::{gain, lone_of, side};
use crate::view::View;
use sp_bits::Row;
use sp_frozen::Frozen;
use sp_ids::Memory;
use sp_rows::RowPool;

// The only place of a row, where there is one and it has one alone.
fn lone_among(row: &Option<Row>) -> Option<u16>
    ensures { IfSome row.now (λ row. IfSome result (IsLone row)) }
{
    match row {
        Some(row) => lone_of(row),
        None => None,
    }
}

impl View {
    // The members that an older view doesn't have, unless that one has others too.
    fn joined(&self, older: &View) -> Option<Row>
        ensures { IfSome result (AreJoined older.now.members self.now.members) }
    {
        if !older.members.within(&self.members) {
            return None;
        }
        let mut joined = self.members;
        joined.without(&older.members);
        Some(joined)
    }

    // Whether a pair has these two rows.
    fn has_rows(&self, pair: u32, rows: (RowName, RowName)) -> bool
        ensures { IsTrue result ↔ (entry_at self.now.entries pair ≡ Some rows) }
    {
        match self.entry(pair) {
            Some((plus, minus)) => plus.id == rows.0.id && minus.id == rows.1.id,
            None => false,
        }
    }

    // Whether the joined members turned the vote on a pair whose rows an older view has too. That one's
    // sum is then this one less theirs. Where theirs isn't 0, four counts tell this one; two tell theirs, or a
    // test of two places where one block joined.
    fn turned(
        &self,
        joined: &Row,
        lone: Option<u16>,
        frozen: &Frozen,
        pool: &RowPool,
        pair: u32,
    ) -> bool
        requires lone { IfSome lone (IsLone joined.now) }
        requires inside { IsSome (entry_at self.now.entries pair) }
        requires listed { pair < length frozen.now.pluses }
        requires live { (r : ℕ) → held self.now.entries r ≤ count_of pool.now r }
        ensures { (table : Numbered) (x y : ℕ) (older : Viewed) →
            AreJoined older.members self.now.members joined.now →
            entry_at older.entries pair ≡ entry_at self.now.entries pair →
            IsView table self.now pool.now → IsView table older pool.now →
            HoldsFrozen table frozen.now →
            ((z : ℕ) → IsTrue (has self.now.members z) → z < frozen.now.blocks) →
            ((z : ℕ) → IsTrue (has older.members z) → z < frozen.now.blocks) →
            slice_get (pairs_of table) pair ≡ Some (x, y) →
            result ≡ has_changed (graph_of table) older.members self.now.members (x, y) }
    {
        let gain = gain(joined, lone, frozen.plus(pair), frozen.minus(pair));
        if gain == 0 {
            return false;
        }
        let sum = self.sum(frozen, pool, pair);
        side(sum, 0) != side(sum, gain)
    }

    // Whether a pair inside the view is new, or has another virtual vote than in an older view.
    fn differs(
        &self,
        older: &View,
        joined: &Option<Row>,
        lone: Option<u16>,
        frozen: &Frozen,
        pool: &RowPool,
        pair: u32,
    ) -> bool
        requires joined { IfSome joined.now (AreJoined older.now.members self.now.members) }
        requires lone { IfSome joined.now (λ row. IfSome lone (IsLone row)) }
        requires inside { IsSome (entry_at self.now.entries pair) }
        requires listed { pair < length frozen.now.pluses }
        requires live { (r : ℕ) → held self.now.entries r ≤ count_of pool.now r }
        requires older_live { (r : ℕ) → held older.now.entries r ≤ count_of pool.now r }
        ensures { (table : Numbered) (x y : ℕ) → IsView table self.now pool.now →
            IsView table older.now pool.now → HoldsFrozen table frozen.now →
            ((z : ℕ) → IsTrue (has self.now.members z) → z < frozen.now.blocks) →
            ((z : ℕ) → IsTrue (has older.now.members z) → z < frozen.now.blocks) →
            slice_get (pairs_of table) pair ≡ Some (x, y) →
            result ≡ has_changed (graph_of table) older.now.members self.now.members (x, y) }
    {
        let Some(rows) = older.entry(pair) else {
            return true;
        };
        if let Some(joined) = joined
            && self.has_rows(pair, rows)
        {
            return self.turned(joined, lone, frozen, pool, pair);
        }
        self.virtual_vote(frozen, pool, pair) != older.virtual_vote(frozen, pool, pair)
    }

    /// The pairs that are new or have another virtual vote than in an older view, ascending.
    ///
    /// # Errors
    ///
    /// Memory was refused.
    pub fn changed(&self, older: &View, frozen: &Frozen, pool: &RowPool) -> Result<Vec<u32>, Memory>
        requires listed { AreListed self.now.entries (length frozen.now.pluses) }
        requires live { (r : ℕ) → held self.now.entries r ≤ count_of pool.now r }
        requires older_live { (r : ℕ) → held older.now.entries r ≤ count_of pool.now r }
        requires few { length self.now.entries ≤ 130816 }
        ensures { IfOk result (λ list. (table : Numbered) → IsView table self.now pool.now →
            IsView table older.now pool.now → HoldsFrozen table frozen.now →
            ((z : ℕ) → IsTrue (has self.now.members z) → z < frozen.now.blocks) →
            ((z : ℕ) → IsTrue (has older.now.members z) → z < frozen.now.blocks) →
            list.items ≡ changed_of table older.now.members self.now.members) }
    {
        let joined = self.joined(older);
        let lone = lone_among(&joined);
        let mut list = Vec::new(self.alloc);
        'pairs: for i in 0..self.entries.len() {
            let pair = i as u32;
            if self.entry(pair).is_some()
                && self.differs(older, &joined, lone, frozen, pool, pair)
            {
                list.push(pair)?;
            }
        }
        Ok(list)
    }
}
