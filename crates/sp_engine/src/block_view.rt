//! The view of a block and its past, made anew: so that there is one of each present block, whichever of
//! them are kept.

ghost use Rattle.std.specs.Prelude.{◌≡◌, ◌<◌, [], length, IfOk};
ghost use Rattle.sp_frozen.specs.Voters.{HoldsFrozen};
ghost use Rattle.sp_view.specs.Views.{IsView};
ghost use Rattle.sp_engine.specs.Votes.{bar_row};

use sp_dag::Dag;
use sp_frozen::Frozen;
use sp_ids::Memory;
use sp_rows::RowPool;
use sp_view::View;
use std::alloc::Global;

/// The view of a block and its past, whose rows come into a pool that has none.
///
/// # Errors
///
/// `Memory` where there was none.
pub(crate) fn block_view(
    alloc: Global,
    dag: &Dag,
    frozen: &Frozen,
    rows: &mut RowPool,
    n: u16,
) -> Result<View, Memory>
    requires within { n < length dag.now.parents }
    requires frozen { HoldsFrozen dag.now frozen.now }
    requires every { frozen.now.blocks ≡ length dag.now.parents }
    requires empty { rows.old.rows ≡ [] }
    ensures view { IfOk result (λ view. IsView dag.now view rows.new) }
    ensures members { IfOk result (λ view. view.members ≡ bar_row dag.now n) }
{
    // Tell the proof that the blocks stand in order, that there are at most 130,816 pairs, and what the
    // rows of a pool are.
    let _blocks = dag.len();
    let _pairs = dag.pair_count();
    let past = dag.past(n);
    let _members = past.count();
    let mut view = View::derive(alloc, &[], dag, frozen, rows, past)?;
    let _derived = rows.live();
    view.add(dag, frozen, rows, n)?;
    Ok(view)
}
