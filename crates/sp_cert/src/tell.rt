//! The worlds of a pair of blocks, each with its votes.

ghost use Rattle.std.specs.Prelude.{◌≡◌, ◌≢◌, ◌<◌, ◌+◌, ◌&&◌, ℕ, All, length, filter, IfOk, OnOk};
ghost use Rattle.sp_model.specs.Graph.{in_past, keys};
ghost use Rattle.sp_dag.specs.Numbered.{graph_of};
ghost use Rattle.sp_cert.specs.Entries.{AreVirtsBelow, IsTold};
ghost use Rattle.sp_cert.specs.Refusals.{numbers_of, wanted_worlds};

use crate::cast::votes_in;
use crate::numbers::{WHOLE, sees_both};
use crate::tally::{all_row, sign_of, sum_of};
use crate::world::{Votes, World};
use sp_dag::Dag;
use sp_ids::Memory;
use std::alloc::Global;

// The world of a block that has both in its past, where the signs of those before it are known; the
// sign of its sum is put.
fn past_world(
    alloc: Global,
    dag: &Dag,
    signs: &mut Vec<i8>,
    z: u16,
    x: u16,
    y: u16,
) -> Result<World, Memory>
    requires z_in { z < length dag.now.parents }
    requires x_in { x < length dag.now.parents }
    requires y_in { y < length dag.now.parents }
    requires long { length signs.old.items ≡ length dag.now.parents }
    requires known { AreVirtsBelow (graph_of dag.now) x y z signs.old.items }
    ensures number { IfOk result (λ world. world.number ≡ z) }
    ensures told { IfOk result (IsTold (graph_of dag.now) x y) }
    ensures long { OnOk result (length signs.new.items ≡ length dag.now.parents) }
    ensures known { OnOk result
        (AreVirtsBelow (graph_of dag.now) x y (z + 1) signs.new.items) }
{
    // Tells the proof that the blocks stand in order.
    let _blocks = dag.len();
    let votes = votes_in(alloc, dag, dag.past(z), signs, x, y)?;
    signs[z as usize] = sign_of(sum_of(&votes));
    Ok(World {
        number: z,
        votes: Votes::of(votes),
    })
}

// The worlds of the blocks that have both in their past, ascending; the sign of each one's sum is put.
fn past_worlds(
    alloc: Global,
    dag: &Dag,
    signs: &mut Vec<i8>,
    x: u16,
    y: u16,
) -> Result<Vec<World>, Memory>
    requires x_in { x < length dag.now.parents }
    requires y_in { y < length dag.now.parents }
    requires long { length signs.old.items ≡ length dag.now.parents }
    ensures long { OnOk result (length signs.new.items ≡ length dag.now.parents) }
    ensures known { OnOk result
        (AreVirtsBelow (graph_of dag.now) x y (length dag.now.parents) signs.new.items) }
    ensures numbers { IfOk result (λ worlds. numbers_of worlds.items ≡ filter
        (λ z. in_past (graph_of dag.now) x z && in_past (graph_of dag.now) y z)
        (keys (graph_of dag.now))) }
    ensures told { IfOk result (λ worlds.
        All (IsTold (graph_of dag.now) x y) worlds.items) }
{
    let mut worlds = Vec::new(alloc);
    'places: for z in 0..dag.len() {
        if sees_both(dag, z, x, y) {
            let world = past_world(alloc, dag, signs, z, x, y)?;
            worlds.push(world)?;
        }
    }
    Ok(worlds)
}

/// The worlds of two blocks: all blocks, and then, ascending, the past of each block that has both in
/// its past; each with the vote of each of its blocks. It takes a few counts over rows for each entry.
///
/// # Errors
///
/// Memory was refused.
pub(crate) fn told_worlds(alloc: Global, dag: &Dag, x: u16, y: u16) -> Result<Vec<World>, Memory>
    requires x_in { x < length dag.now.parents }
    requires y_in { y < length dag.now.parents }
    ensures numbers { IfOk result (λ worlds.
        numbers_of worlds.items ≡ wanted_worlds (graph_of dag.now) x y) }
    ensures told { IfOk result (λ worlds.
        All (IsTold (graph_of dag.now) x y) worlds.items) }
{
    let count = dag.len() as usize;
    let mut signs = vec![in alloc; 0i8; count]?;
    let mut worlds = past_worlds(alloc, dag, &mut signs, x, y)?;
    let votes = votes_in(alloc, dag, &all_row(dag), &signs, x, y)?;
    worlds.insert(
        0,
        World {
            number: WHOLE,
            votes: Votes::of(votes),
        },
    )?;
    Ok(worlds)
}
