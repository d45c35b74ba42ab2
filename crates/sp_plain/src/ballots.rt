//! The votes of the members of one set on one pair of blocks, and the sign of their sum.

ghost use Rattle.std.specs.Prelude.{◌≡◌, ◌≤◌, ◌<◌, ◌+◌, ℕ, length, IfOk, IsTrue, slice_index_or, pos, true};
ghost use Rattle.sp_model.specs.Graph.{has, IsDownset, future};
ghost use Rattle.sp_model.specs.Votes.{vote, virt, sgn, total};
ghost use Rattle.sp_dag.specs.Numbered.{graph_of};
ghost use Rattle.sp_plain.specs.Plain.{ArePasts, AreVotesFrom};

use crate::matrix::Matrix;
use sp_bits::Row;
use sp_dag::Dag;
use sp_ids::Memory;
use std::alloc::Global;

/// The sign of a sum of votes.
fn sign_of(sum: i32) -> i8
    ensures { result ≡ sgn sum }
{
    if sum < 0 {
        -1
    } else if sum == 0 {
        0
    } else {
        1
    }
}

/// The sum of the votes of the members.
fn sum_of_members(members: &Row, votes: &[i8]) -> i32
    requires small { length votes.now ≤ 512 }
    requires below { (z : ℕ) → has members.now z ≡ true → z < length votes.now }
    ensures { result ≡ total (λ z. slice_index_or votes.now z (pos 0)) members.now }
{
    // Tells the proof that the row ascends.
    let _count = members.count();
    let mut sum = 0;
    for z in 0..votes.len() {
        if members.test(z as u16) {
            sum += votes[z] as i32;
        }
    }
    sum
}

/// The sum of the votes of the members that have `z` in their past.
fn sum_of_future(dag: &Dag, members: &Row, votes: &[i8], z: u16) -> i32
    requires small { length votes.now ≤ 512 }
    requires wide { length votes.now ≤ length dag.now.parents }
    requires below { (w : ℕ) → has members.now w ≡ true → w < length votes.now }
    requires within { z < length dag.now.parents }
    ensures { result ≡ total (λ w. slice_index_or votes.now w (pos 0)) (future (graph_of dag.now) members.now z) }
{
    // Tells the proof that the row ascends.
    let _count = members.count();
    let mut sum = 0;
    for w in 0..votes.len() {
        if members.test(w as u16) && dag.in_past(z, w as u16) {
            sum += votes[w] as i32;
        }
    }
    sum
}

/// The vote of the member `z` on `x` and `y`, where the votes of the members above it are known, and
/// the matrices of the pasts of all members.
#[tactic(auto, using(crate::proofs::Cases::vote_cases))]
fn vote_of(dag: &Dag, pasts: &[Matrix], members: &Row, votes: &[i8], z: u16, x: u16, y: u16) -> i8
    requires pasts { ArePasts (graph_of dag.now) pasts.now }
    requires reach { z < length pasts.now }
    requires wide { length votes.now ≤ length dag.now.parents }
    requires z_in { z < length votes.now }
    requires x_in { x < length dag.now.parents }
    requires y_in { y < length dag.now.parents }
    requires below { (w : ℕ) → has members.now w ≡ true → w < length votes.now }
    requires member { IsTrue (has members.now z) }
    requires whole { IsDownset (graph_of dag.now) members.now }
    requires above { AreVotesFrom (graph_of dag.now) members.now (length votes.now) x y (z + 1) votes.now }
    ensures { result ≡ vote (graph_of dag.now) members.now z x y }
{
    // Tells the proof that the blocks stand in order.
    let _blocks = dag.len();
    if z == x {
        return if dag.in_past(y, x) { 1 } else { -1 };
    }
    if z == y {
        return if dag.in_past(x, y) { -1 } else { 1 };
    }
    if dag.in_past(x, z) {
        if dag.in_past(y, z) {
            let past = &pasts[z as usize];
            return dag.settled(x, y, past.vote(x, y));
        }
        return -1;
    }
    if dag.in_past(y, z) {
        return 1;
    }
    sign_of(sum_of_future(dag, members, votes, z))
}

/// The votes of the members on `x` and `y`, found from the highest member down; 0 for a block that is
/// no member.
fn votes_of(
    alloc: Global,
    dag: &Dag,
    pasts: &[Matrix],
    members: &Row,
    width: u16,
    x: u16,
    y: u16,
) -> Result<Vec<i8>, Memory>
    requires pasts { ArePasts (graph_of dag.now) pasts.now }
    requires reach { (w : ℕ) → has members.now w ≡ true → w < length pasts.now }
    requires wide { width ≤ length dag.now.parents }
    requires x_in { x < length dag.now.parents }
    requires y_in { y < length dag.now.parents }
    requires below { (w : ℕ) → has members.now w ≡ true → w < width }
    requires whole { IsDownset (graph_of dag.now) members.now }
    ensures long { IfOk result (λ votes. length votes.items ≡ width) }
    ensures ok { IfOk result (λ votes. AreVotesFrom (graph_of dag.now) members.now width x y 0 votes.items) }
{
    // Tells the proof that there are at most 512 blocks.
    let _blocks = dag.len();
    let mut votes = vec![in alloc; 0i8; width as usize]?;
    for z in (0..width).rev() {
        if members.test(z) {
            votes[z as usize] = vote_of(dag, pasts, members, &votes, z, x, y);
        }
    }
    Ok(votes)
}

/// The virtual vote of the members on `x` and `y`. It takes time in proportion to the square of
/// the width.
pub(crate) fn virt_of(
    alloc: Global,
    dag: &Dag,
    pasts: &[Matrix],
    members: &Row,
    width: u16,
    x: u16,
    y: u16,
) -> Result<i8, Memory>
    requires pasts { ArePasts (graph_of dag.now) pasts.now }
    requires reach { (w : ℕ) → has members.now w ≡ true → w < length pasts.now }
    requires wide { width ≤ length dag.now.parents }
    requires x_in { x < length dag.now.parents }
    requires y_in { y < length dag.now.parents }
    requires below { (w : ℕ) → has members.now w ≡ true → w < width }
    requires whole { IsDownset (graph_of dag.now) members.now }
    ensures ok { IfOk result (λ v. v ≡ virt (graph_of dag.now) members.now x y) }
{
    // Tells the proof that there are at most 512 blocks, so that the sum fits.
    let _blocks = dag.len();
    let votes = votes_of(alloc, dag, pasts, members, width, x, y)?;
    Ok(sign_of(sum_of_members(members, &votes)))
}
