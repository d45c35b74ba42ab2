//! The virtual votes of a set on all pairs of blocks.

ghost use Rattle.std.specs.Prelude.{◌≡◌, ◌≤◌, ◌<◌, ◌++◌, ℕ, map, length, IfOk, OnOk, true};
ghost use Rattle.std.specs.List.{range_with_len};
ghost use Rattle.sp_model.specs.Graph.{has, IsDownset};
ghost use Rattle.sp_model.specs.Votes.{virt};
ghost use Rattle.sp_dag.specs.Numbered.{graph_of};
ghost use Rattle.sp_plain.specs.Plain.{ArePasts, IsClosed};
ghost use Rattle.sp_plain.specs.Virts.{HasVirts, virts_in};

use crate::ballots::virt_of;
use crate::matrix::Matrix;
use sp_bits::Row;
use sp_dag::Dag;
use sp_ids::Memory;
use std::alloc::Global;

/// Adds the virtual votes of the members on `x` and each block below the width.
fn push_virts(
    alloc: Global,
    dag: &Dag,
    pasts: &[Matrix],
    members: &Row,
    width: u16,
    x: u16,
    votes: &mut Vec<i8>,
) -> Result<(), Memory>
    requires pasts { ArePasts (graph_of dag.now) pasts.now }
    requires reach { (w : ℕ) → has members.now w ≡ true → w < length pasts.now }
    requires wide { width ≤ length dag.now.parents }
    requires x_in { x < width }
    requires below { (w : ℕ) → has members.now w ≡ true → w < width }
    requires whole { IsDownset (graph_of dag.now) members.now }
    ensures ok { OnOk result (votes.new.items ≡
        votes.old.items ++ map (virt (graph_of dag.now) members.now x) (range_with_len 0 width)) }
{
    for y in 0..width {
        votes.push(virt_of(alloc, dag, pasts, members, width, x, y)?)?;
    }
    Ok(())
}

/// The virtual votes of the members on each two blocks below the width. It takes time in
/// proportion to the fourth power of the width.
pub(crate) fn virts_of(
    alloc: Global,
    dag: &Dag,
    pasts: &[Matrix],
    members: &Row,
    width: u16,
) -> Result<Matrix, Memory>
    requires pasts { ArePasts (graph_of dag.now) pasts.now }
    requires reach { (w : ℕ) → has members.now w ≡ true → w < length pasts.now }
    requires wide { width ≤ length dag.now.parents }
    requires below { (w : ℕ) → has members.now w ≡ true → w < width }
    requires whole { IsDownset (graph_of dag.now) members.now }
    ensures ok { IfOk result (λ matrix. matrix ≡ virts_in (graph_of dag.now) members.now width) }
{
    let mut votes = Vec::new(alloc);
    for x in 0..width {
        push_virts(alloc, dag, pasts, members, width, x, &mut votes)?;
    }
    Ok(Matrix::of(width, votes))
}

/// Adds the matrices of the pasts of the blocks that have none yet, each made with those before it.
pub(crate) fn add_pasts(alloc: Global, dag: &Dag, pasts: &mut Vec<Matrix>) -> Result<(), Memory>
    requires pasts { ArePasts (graph_of dag.now) pasts.old.items }
    requires few { length pasts.old.items ≤ length dag.now.parents }
    ensures pasts { ArePasts (graph_of dag.now) pasts.new.items }
    ensures few { length pasts.new.items ≤ length dag.now.parents }
    ensures long { OnOk result (length pasts.new.items ≡ length dag.now.parents) }
{
    let end = dag.len();
    let first = pasts.len() as u16;
    for z in first..end {
        let matrix = virts_of(alloc, dag, pasts, dag.past(z), z)?;
        pasts.push(matrix)?;
    }
    Ok(())
}

/// The virtual votes of the members on each two of the graph's blocks. Of n blocks it makes a matrix
/// for the past of each, which takes time in proportion to the fifth power of n, and memory in
/// proportion to its cube meanwhile.
///
/// # Errors
///
/// `Memory` where the matrices found none.
pub fn plain_votes(alloc: Global, dag: &Dag, members: &Row) -> Result<Matrix, Memory>
    requires { IsClosed (graph_of dag.now) (length dag.now.parents) members.now }
    ensures { IfOk result (HasVirts (graph_of dag.now) members.now (length dag.now.parents)) }
{
    let mut pasts = Vec::new(alloc);
    add_pasts(alloc, dag, &mut pasts)?;
    let matrix = virts_of(alloc, dag, &pasts, members, dag.len())?;
    Ok(matrix)
}
