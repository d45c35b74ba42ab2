//! Which worlds a certificate has to have.

ghost use Rattle.std.specs.Prelude.{◌≡◌, ◌≢◌, ◌≤◌, ◌<◌, ◌&&◌, length, IfOk, IfErr, IfSome, OnOk, None};
ghost use Rattle.sp_model.specs.Graph.{in_past};
ghost use Rattle.sp_dag.specs.Numbered.{graph_of};
ghost use Rattle.sp_cert.specs.Refusals.{first_difference, IsCause, numbers_of, wanted_worlds, world_refusal};

use crate::fault::CheckFault;
use crate::world::World;
use sp_dag::Dag;
use sp_ids::Memory;
use std::alloc::Global;

/// The number of the world of all blocks.
pub(crate) const WHOLE: u16 = 65_535;

/// Whether both blocks are in the past of a third.
pub(crate) fn sees_both(dag: &Dag, z: u16, x: u16, y: u16) -> bool
    requires z_in { z < length dag.now.parents }
    requires x_in { x < length dag.now.parents }
    requires y_in { y < length dag.now.parents }
    ensures { result ≡
        (in_past (graph_of dag.now) x z && in_past (graph_of dag.now) y z) }
{
    dag.in_past(x, z) && dag.in_past(y, z)
}

/// The numbers of the worlds in their order: all blocks, and then each block that has both in its
/// past. It takes a step for each block.
///
/// # Errors
///
/// Memory was refused.
pub(crate) fn wanted(alloc: Global, dag: &Dag, x: u16, y: u16) -> Result<Vec<u16>, Memory>
    requires x_in { x < length dag.now.parents }
    requires y_in { y < length dag.now.parents }
    ensures { IfOk result (λ wanted. wanted.items ≡ wanted_worlds (graph_of dag.now) x y) }
{
    let mut wanted = Vec::new(alloc);
    wanted.push(WHOLE)?;
    'candidates: for z in 0..dag.len() {
        if sees_both(dag, z, x, y) {
            wanted.push(z)?;
        }
    }
    Ok(wanted)
}

// The first place where the worlds' numbers aren't those that are wanted.
fn difference(worlds: &[World], wanted: &[u16]) -> Option<usize>
    ensures place { IfSome result (λ place. place ≤ length worlds.now) }
    ensures value { result ≡ first_difference (numbers_of worlds.now) wanted.now }
{
    let shared = worlds.len().min(wanted.len());
    'places: for place in 0..shared {
        let world = &worlds[place];
        if world.number != wanted[place] {
            return Some(place);
        }
    }
    if worlds.len() == wanted.len() {
        None
    } else {
        Some(shared)
    }
}

/// Judges the numbers of the worlds.
///
/// # Errors
///
/// The first place where they aren't all blocks and then, ascending, each block that has both in its
/// past. Memory was refused.
pub(crate) fn check_numbers(
    alloc: Global,
    dag: &Dag,
    worlds: &[World],
    x: u16,
    y: u16,
) -> Result<(), CheckFault>
    requires x_in { x < length dag.now.parents }
    requires y_in { y < length dag.now.parents }
    requires few { length worlds.now ≤ 512 }
    ensures ok { OnOk result (world_refusal (graph_of dag.now) worlds.now x y ≡ None) }
    ensures fault { IfErr result (IsCause (world_refusal (graph_of dag.now) worlds.now x y)) }
{
    let wanted = wanted(alloc, dag, x, y)?;
    match difference(worlds, &wanted) {
        None => Ok(()),
        Some(place) => Err(CheckFault::World {
            place: place as u16,
        }),
    }
}
