//! What a view says of its members' votes: the sum and the virtual vote on one pair, and the virtual votes on all.

ghost use Rattle.std.specs.Prelude.{◌≡◌, ◌<◌, ◌≤◌, ℕ, Some, length, IsTrue, IsSome, IfOk, slice_get};
ghost use Rattle.sp_model.specs.Graph.{has};
ghost use Rattle.sp_dag.specs.Numbered.{Numbered, graph_of, pairs_of};
ghost use Rattle.sp_model.specs.Votes.{virt};
ghost use Rattle.sp_frozen.specs.Voters.{HoldsFrozen};
ghost use Rattle.sp_frozen.specs.PastVotes.{signs_of};
ghost use Rattle.sp_view.specs.Stored.{count_of, live};
ghost use Rattle.sp_view.specs.Sums.{sum_of};
ghost use Rattle.sp_view.specs.Views.{entry_at, held, IsView, AreListed};

use crate::stored::row_at;
use crate::tally::{side, tally};
use crate::view::View;
use sp_frozen::{Frozen, PastVotes, Signs};
use sp_ids::Memory;
use sp_rows::RowPool;

impl View {
    // The sum of the members' votes on a pair inside the view, by four counts.
    pub(super) fn sum(&self, frozen: &Frozen, pool: &RowPool, pair: u32) -> i32
        requires inside { IsSome (entry_at self.now.entries pair) }
        requires listed { pair < length frozen.now.pluses }
        requires live { (r : ℕ) → held self.now.entries r ≤ count_of pool.now r }
        ensures { (table : Numbered) (x y : ℕ) → IsView table self.now pool.now →
            HoldsFrozen table frozen.now →
            ((z : ℕ) → IsTrue (has self.now.members z) → z < frozen.now.blocks) →
            slice_get (pairs_of table) pair ≡ Some (x, y) →
            result ≡ sum_of (graph_of table) self.now.members x y }
    {
        match self.entries[pair as usize] {
            Some((plus, minus)) => tally(
                &self.members,
                frozen.plus(pair),
                frozen.minus(pair),
                &row_at(pool, plus),
                &row_at(pool, minus),
            ),
            // The pair is inside.
            None => unreachable!(),
        }
    }

    /// The virtual vote of the members on a pair inside the view, by four counts.
    pub fn virtual_vote(&self, frozen: &Frozen, pool: &RowPool, pair: u32) -> i8
        requires inside { IsSome (entry_at self.now.entries pair) }
        requires listed { pair < length frozen.now.pluses }
        requires live { (r : ℕ) → held self.now.entries r ≤ count_of pool.now r }
        ensures { (table : Numbered) (x y : ℕ) → IsView table self.now pool.now →
            HoldsFrozen table frozen.now →
            ((z : ℕ) → IsTrue (has self.now.members z) → z < frozen.now.blocks) →
            slice_get (pairs_of table) pair ≡ Some (x, y) →
            result ≡ virt (graph_of table) self.now.members x y }
    {
        side(self.sum(frozen, pool, pair), 0)
    }

    /// The virtual votes of the members on all pairs inside the view, ascending by pair.
    ///
    /// # Errors
    ///
    /// Memory was refused.
    pub fn past_votes(&self, frozen: &Frozen, pool: &RowPool) -> Result<PastVotes, Memory>
        requires listed { AreListed self.now.entries (length frozen.now.pluses) }
        requires live { (r : ℕ) → held self.now.entries r ≤ count_of pool.now r }
        requires few { length self.now.entries ≤ 130816 }
        ensures { IfOk result (λ votes. (table : Numbered) → IsView table self.now pool.now →
            HoldsFrozen table frozen.now →
            ((z : ℕ) → IsTrue (has self.now.members z) → z < frozen.now.blocks) →
            votes.signs ≡ signs_of table self.now.members) }
    {
        let mut signs = Vec::new(self.alloc);
        'pairs: for i in 0..self.entries.len() {
            let pair = i as u32;
            if self.entry(pair).is_some() {
                signs.push((pair, self.virtual_vote(frozen, pool, pair)))?;
            }
        }
        Ok(PastVotes {
            signs: Signs::of(signs),
        })
    }
}
