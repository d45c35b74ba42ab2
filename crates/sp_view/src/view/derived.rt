//! The view of a set, derived from one of some views.

ghost use Rattle.std.specs.Prelude.{◌≡◌, ◌<◌, ◌≤◌, ◌+◌, ◌-◌, ◌^◌, ℕ, Some, length, IsTrue, IfOk, OnOk, OnErr, slice_get};
ghost use Rattle.sp_model.specs.Graph.{has};
ghost use Rattle.sp_dag.specs.Numbered.{graph_of, pairs_of};
ghost use Rattle.sp_frozen.specs.Voters.{HoldsFrozen};
ghost use Rattle.sp_view.specs.Stored.{count_of, row_of, live};
ghost use Rattle.sp_view.specs.Settled.{IsAsked};
ghost use Rattle.sp_view.specs.Views.{Viewed, held, IsBest, IsStart, IsView, AreKeptIds};
ghost use Rattle.sp_view.specs.Ends.{IsEnd};
ghost use Rattle.sp_view.specs.Moving.{moved_rows};

use crate::best::start;
use crate::block_runs::derive_entries;
use crate::growth::Growth;
use crate::last_pair::end_of;
use crate::pasts::pasts_of;
use crate::sharing::give_entries;
use crate::view::View;
use crate::voting::Voting;
use sp_bits::Row;
use sp_dag::Dag;
use sp_frozen::Frozen;
use sp_ids::Memory;
use sp_rows::RowPool;
use std::alloc::Global;

impl View {
    /// The view of a set, from that one of some views within it that has most members, the first of
    /// equals, or from none. A row that has the same places in both sets is the same one.
    ///
    /// It goes once over the blocks, and over the pairs whose higher block is in the set. For a pair
    /// inside that view it takes a few steps over rows, three for each block that joins, is frozen on the
    /// pair and isn't in the past of another such block, and two for each voter that is asked anew; where
    /// none is asked, both rows are shared as they stand. For another pair inside the set it takes three
    /// for each frozen voter that isn't in the past of another one of its side, and a few for each loose
    /// voter that sees both sides, where not all of these see all frozen ones. Its entries end behind the
    /// last pair inside the set, and take 12 bytes each.
    ///
    /// # Errors
    ///
    /// Memory was refused; the live rows are as before.
    pub fn derive<'a>(
        alloc: Global,
        views: &'a [View],
        dag: &'a Dag,
        frozen: &'a Frozen,
        pool: &mut RowPool,
        target: &'a Row,
    ) -> Result<View, Memory>
        requires views { (i : ℕ) (view : Viewed) → slice_get views.now i ≡ Some view →
            IsView dag.now view pool.old }
        requires counts { (i : ℕ) (view : Viewed) → slice_get views.now i ≡ Some view →
            (r : ℕ) → 0 < held view.entries r → count_of pool.old r < 2 ^ 32 - 1 }
        requires frozen { HoldsFrozen dag.now frozen.now }
        requires asked { IsAsked (graph_of dag.now) target.now }
        requires added { (z : ℕ) → IsTrue (has target.now z) → z < frozen.now.blocks }
        requires few { live pool.old < 2 ^ 29 }
        ensures ok { IfOk result (λ view. IsView dag.now view pool.new) }
        ensures members { IfOk result (λ view. view.members ≡ target.now) }
        ensures long { IfOk result (λ view. IsEnd dag.now target.now 0 (length view.entries)) }
        ensures kept { IfOk result (λ view. (i : ℕ) (base : Viewed) →
            IsBest views.now target.now i base →
            AreKeptIds dag.now base.members target.now base.entries view.entries) }
        ensures counts { IfOk result (λ view. (r : ℕ) →
            count_of pool.new r ≡ count_of pool.old r + held view.entries r) }
        ensures rows { (r : ℕ) → 0 < count_of pool.old r → row_of pool.new r ≡ row_of pool.old r }
        ensures live { OnOk result ((base : Viewed) → IsStart views.now target.now base →
            live pool.new ≤ live pool.old + moved_rows (graph_of dag.now)
            base.members target.now (pairs_of dag.now)) }
        ensures err { OnErr result ((r : ℕ) → count_of pool.new r ≡ count_of pool.old r) }
    {
        // Tells the proof that the blocks stand in order.
        let _blocks = dag.len();
        let end = end_of(dag, target, 0);
        let mut entries = Vec::with_capacity(alloc, end as usize)?;
        let nothing = View::empty(alloc);
        let base = start(views, &nothing, target);
        let members = base.members();
        let mut blocks = *target;
        blocks.without(members);
        let below = pasts_of(dag, &blocks);
        let set = Voting {
            dag,
            frozen,
            members: target,
        };
        let growth = Growth {
            set,
            before: members,
            blocks: &blocks,
            below: &below,
        };
        match derive_entries(&growth, pool, base.entries(), end, &mut entries) {
            Ok(()) => Ok(View {
                alloc,
                members: *target,
                entries,
            }),
            Err(refused) => {
                give_entries(pool, &entries);
                Err(refused)
            }
        }
    }
}
