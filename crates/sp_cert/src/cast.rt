//! The votes of one world, found from its highest block down.

ghost use Rattle.std.specs.Prelude.{◌≡◌, ◌<◌, ◌≤◌, ℕ, All, length, IfOk, pos, slice_index_or, true};
ghost use Rattle.sp_model.specs.Graph.{has, IsDownset};
ghost use Rattle.sp_dag.specs.Numbered.{graph_of};
ghost use Rattle.sp_cert.specs.Certificate.{IsSign};
ghost use Rattle.sp_cert.specs.Entries.{AreVirts, vote_in};

use crate::tally::Tally;
use sp_bits::Row;
use sp_dag::Dag;
use sp_ids::Memory;
use std::alloc::Global;

/// The vote of each member on `x` and `y`, 0 for a block that is none, where the virtual votes of the
/// pasts of the members are known. It takes a few counts over rows for each block.
///
/// # Errors
///
/// Memory was refused.
pub(crate) fn votes_in(
    alloc: Global,
    dag: &Dag,
    members: &Row,
    signs: &[i8],
    x: u16,
    y: u16,
) -> Result<Vec<i8>, Memory>
    requires x_in { x < length dag.now.parents }
    requires y_in { y < length dag.now.parents }
    requires long { length signs.now ≡ length dag.now.parents }
    requires whole { IsDownset (graph_of dag.now) members.now }
    requires virts { AreVirts (graph_of dag.now) x y members.now signs.now }
    ensures long { IfOk result (λ votes. length votes.items ≡ length dag.now.parents) }
    ensures signs { IfOk result (λ votes. All IsSign votes.items) }
    ensures votes { IfOk result (λ votes. (z : ℕ) → z < length dag.now.parents →
        slice_index_or votes.items z (pos 0)
        ≡ vote_in (graph_of dag.now) members.now x y z) }
{
    // Tells the proof that there are at most 512 blocks.
    let count = dag.len();
    let mut votes = vec![in alloc; 0i8; count as usize]?;
    let mut tally = Tally::none(*members);
    'places: for z in (0..count).rev() {
        let vote = tally.right_entry(dag, signs, z, x, y);
        votes[z as usize] = vote;
        tally.count(z, vote);
    }
    Ok(votes)
}
