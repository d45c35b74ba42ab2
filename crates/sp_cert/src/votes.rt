//! The entries of a certificate's worlds, judged one by one.

ghost use Rattle.std.specs.Prelude.{◌≡◌, ◌≢◌, ◌≤◌, ◌<◌, ℕ, All, length, IfErr, IfOk, IfNone, IfSome, None, OnOk, pos, slice_index_or};
ghost use Rattle.sp_dag.specs.Numbered.{graph_of};
ghost use Rattle.sp_cert.specs.Certificate.{AreVotes};
ghost use Rattle.sp_cert.specs.Entries.{entry, entry_by, members_of, whole_number};
ghost use Rattle.sp_cert.specs.Refusals.{AreSigns, HaveBlocks, IsCause, vote_refusal};

use crate::fault::CheckFault;
use crate::tally::{Tally, members_of, sign_of, sum_of};
use crate::world::World;
use sp_dag::Dag;
use sp_ids::Memory;
use std::alloc::Global;

/// The sign of the sum of each block's world, 0 for a block that has none.
///
/// # Errors
///
/// Memory was refused.
pub(crate) fn signs_of(alloc: Global, dag: &Dag, worlds: &[World]) -> Result<Vec<i8>, Memory>
    requires { All (AreVotes (length dag.now.parents)) worlds.now }
    ensures long { IfOk result (λ signs. length signs.items ≡ length dag.now.parents) }
    ensures signs { IfOk result (λ signs. AreSigns (graph_of dag.now) worlds.now signs.items) }
{
    let count = dag.len() as usize;
    let mut signs = vec![in alloc; 0i8; count]?;
    'places: for place in (0..worlds.len()).rev() {
        let world = &worlds[place];
        let number = world.number as usize;
        if number < count {
            signs[number] = sign_of(sum_of(world.votes.as_slice()));
        }
    }
    Ok(signs)
}

// The first block whose entry in a world isn't right.
fn wrong_entry(dag: &Dag, world: &World, signs: &[i8], x: u16, y: u16) -> Option<u16>
    requires number { world.now.number ≢ whole_number → world.now.number < length dag.now.parents }
    requires votes { AreVotes (length dag.now.parents) world.now }
    requires x_in { x < length dag.now.parents }
    requires y_in { y < length dag.now.parents }
    requires signs { length signs.now ≡ length dag.now.parents }
    ensures within { IfSome result (λ z. z < length dag.now.parents) }
    ensures wrong { IfSome result (λ z. entry world.now z ≢
        entry_by (graph_of dag.now) (members_of (graph_of dag.now) world.now.number)
        (λ w. slice_index_or signs.now w (pos 0)) (entry world.now) z x y) }
    ensures first { IfSome result (λ z. (w : ℕ) → w < z → entry world.now w ≡
        entry_by (graph_of dag.now) (members_of (graph_of dag.now) world.now.number)
        (λ w. slice_index_or signs.now w (pos 0)) (entry world.now) w x y) }
    ensures none { IfNone result ((w : ℕ) → w < length dag.now.parents → entry world.now w ≡
        entry_by (graph_of dag.now) (members_of (graph_of dag.now) world.now.number)
        (λ w. slice_index_or signs.now w (pos 0)) (entry world.now) w x y) }
{
    let count = dag.len();
    let votes = world.votes.as_slice();
    let tally = Tally::of(members_of(dag, world.number), votes);
    'places: for z in 0..count {
        if votes[z as usize] != tally.right_entry(dag, signs, z, x, y) {
            return Some(z);
        }
    }
    None
}

/// Judges each entry of each world.
///
/// # Errors
///
/// The first entry, by the worlds' places and then by the blocks', that isn't right.
pub(crate) fn check_votes(
    dag: &Dag,
    worlds: &[World],
    signs: &[i8],
    x: u16,
    y: u16,
) -> Result<(), CheckFault>
    requires votes { All (AreVotes (length dag.now.parents)) worlds.now }
    requires numbers { HaveBlocks (length dag.now.parents) worlds.now }
    requires few { length worlds.now ≤ 512 }
    requires x_in { x < length dag.now.parents }
    requires y_in { y < length dag.now.parents }
    requires long { length signs.now ≡ length dag.now.parents }
    requires signs { AreSigns (graph_of dag.now) worlds.now signs.now }
    ensures ok { OnOk result (vote_refusal (graph_of dag.now) worlds.now x y ≡ None) }
    ensures fault { IfErr result (IsCause (vote_refusal (graph_of dag.now) worlds.now x y)) }
{
    'places: for place in 0..worlds.len() {
        let world = &worlds[place];
        match wrong_entry(dag, world, signs, x, y) {
            None => {}
            Some(block) => {
                return Err(CheckFault::Vote {
                    place: place as u16,
                    block,
                });
            }
        }
    }
    Ok(())
}
