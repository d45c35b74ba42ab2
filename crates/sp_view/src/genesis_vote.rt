//! Genesis among the voters of a pair. It is in the past of each other member, so that it votes the sign of the sum of
//! all other votes. Where no other vote may change and the sum of all votes is kept, its vote is told from that.

ghost use Rattle.std.specs.Prelude.{◌≡◌, ◌==◌, ◌≤◌, ◌≤ℤ◌, ◌+ℤ◌, ◌-ℤ◌, ℕ, ℤ, pos, negsuc, IfSome, IsSome, Some, if◌then◌else◌};
ghost use Rattle.sp_bits.specs.Places.{difference, IsRow};
ghost use Rattle.sp_model.specs.Graph.{Graph, has};
ghost use Rattle.sp_model.specs.Votes.{sgn, vote};
ghost use Rattle.sp_view.specs.Settled.{AreKept, AreOpen, AreSides, IsAsked};
ghost use Rattle.sp_view.specs.Stored.{count_of, row_of};
ghost use Rattle.sp_view.specs.Sums.{IsLone};
ghost use Rattle.sp_view.specs.Views.{holds};

use crate::pair_rows::Sides;
use crate::stored::{RowName, row_at};
use sp_bits::Row;
use sp_rows::RowPool;

// The vote of genesis on a pair before a block joined, and after.
#[derive(Clone, Copy)]
pub(crate) struct Turn {
    pub(crate) before: i32,
    pub(crate) after: i32,
}

// The sign of a sum.
fn sign(sum: i32) -> i32
    ensures value { result ≡ sgn sum }
    ensures small { (negsuc 0 ≤ℤ result) × (result ≤ℤ pos 1) }
{
    if sum < 0 {
        -1
    } else if sum == 0 {
        0
    } else {
        1
    }
}

// The votes of genesis where a block joined whose own vote is given, by the sum of all votes before. There is no answer where
// other votes may change, or where no sum is kept.
pub(crate) fn root_turn(todo: &Row, sum: Option<i32>, own: i32) -> Option<Turn>
    requires small { IfSome sum (λ sum. (negsuc 1023 ≤ℤ sum) × (sum ≤ℤ pos 1024)) }
    requires sign { (negsuc 0 ≤ℤ own) × (own ≤ℤ pos 1) }
    ensures lone { IfSome result (λ _. IsLone todo.now 0) }
    ensures votes { IfSome result (λ turn. IfSome sum (λ sum.
        (turn.before ≡ sgn sum) × (turn.after ≡ sgn ((sum -ℤ sgn sum) +ℤ own)))) }
    ensures some { IfSome result (λ _. IsSome sum) }
{
    let Some(sum) = sum else { return None };
    let Some(top) = todo.highest() else {
        return None;
    };
    if top > 0 {
        return None;
    }
    let before = sign(sum);
    let others = sum - before + own;
    let after = sign(others);
    Some(Turn { before, after })
}

// A row with genesis in it, or without.
pub(crate) fn with_root(row: &Row, is_in: bool) -> Row
    ensures row { IsRow result }
    ensures places { (z : ℕ) → has result z ≡ (if z == 0 then is_in else has row.now z) }
{
    // Tells the proof what a row is.
    let _count = row.count();
    let mut rooted = *row;
    if is_in {
        rooted.set(0);
        return rooted;
    }
    rooted.clear(0);
    rooted
}
