//! The votes of one world as rows, so that a sum over a future takes a few counts.

ghost use Rattle.std.specs.Prelude.{◌≡◌, false, ◌≢◌, ◌≤◌, ◌<◌, ◌&&◌, ◌==◌, ◌||◌, ℕ, ℤ, All, length, pos, slice_index_or, if◌then◌else◌};
ghost use Rattle.std.specs.List.{range_with_len};
ghost use Rattle.sp_bits.specs.Places.{places_where};
ghost use Rattle.sp_model.specs.Graph.{has, keys};
ghost use Rattle.sp_model.specs.Loose.{is_minus, is_plus};
ghost use Rattle.sp_model.specs.Votes.{sgn, total};
ghost use Rattle.sp_dag.specs.Numbered.{graph_of};
ghost use Rattle.sp_cert.specs.Certificate.{IsSign};
ghost use Rattle.sp_cert.specs.Entries.{entry_by, members_of, whole_number};
ghost use Rattle.sp_cert.specs.Refusals.{AreSides};

use crate::numbers::WHOLE;
use sp_bits::Row;
use sp_dag::Dag;

/// The sign of a sum of votes.
pub(crate) fn sign_of(sum: i32) -> i8
    ensures { result ≡ sgn sum }
{
    if sum < 0 {
        -1
    } else if sum == 0 {
        0
    } else {
        1
    }
}

/// The sum of some votes.
pub(crate) fn sum_of(votes: &[i8]) -> i32
    requires { length votes.now ≤ 512 }
    ensures { result ≡
        total (λ z. slice_index_or votes.now z (pos 0)) (range_with_len 0 (length votes.now)) }
{
    let mut sum = 0;
    'votes: for z in 0..votes.len() {
        sum += votes[z] as i32;
    }
    sum
}

/// The row of all blocks.
pub(crate) fn all_row(dag: &Dag) -> Row
    ensures { result ≡ keys (graph_of dag.now) }
{
    let mut row = Row::empty();
    'places: for z in 0..dag.len() {
        row.set(z);
    }
    row
}

/// The blocks of the world of this number.
pub(crate) fn members_of(dag: &Dag, number: u16) -> Row
    requires { number ≢ whole_number → number < length dag.now.parents }
    ensures { result ≡ members_of (graph_of dag.now) number }
{
    if number == WHOLE {
        all_row(dag)
    } else {
        *dag.past(number)
    }
}

// Whether a vote is +1.
fn is_plus(vote: i8) -> bool
    ensures { result ≡ is_plus vote }
{
    if vote == 1 { true } else { false }
}

// Whether a vote is -1.
fn is_minus(vote: i8) -> bool
    ensures { result ≡ is_minus vote }
{
    if vote == -1 { true } else { false }
}

// Adds a place to a row, where it is to be there.
fn put(row: &mut Row, place: u16, there: bool)
    requires { place < 512 }
    ensures { row.new ≡
        (if there then places_where (λ p. has row.old p || (p == place)) else row.old) }
{
    if there {
        row.set(place);
    }
}

/// The members of a world, those that vote +1 and those that vote -1.
#[derive(Clone, Copy)]
pub(crate) struct Tally {
    pub(crate) members: Row,
    pub(crate) plus: Row,
    pub(crate) minus: Row,
}

impl Tally {
    /// The tally of the members' votes. It takes a step for each vote.
    pub(crate) fn of(members: Row, votes: &[i8]) -> Tally
        requires few { length votes.now ≤ 512 }
        requires signs { All IsSign votes.now }
        ensures members { result.members ≡ members }
        ensures sides { AreSides members (λ w. slice_index_or votes.now w (pos 0)) result.plus result.minus }
    {
        // Tells the proof that the row ascends.
        let _count = members.count();
        let mut plus = Row::empty();
        let mut minus = Row::empty();
        'places: for z in 0..votes.len() {
            let member = members.test(z as u16);
            put(&mut plus, z as u16, member && is_plus(votes[z]));
            put(&mut minus, z as u16, member && is_minus(votes[z]));
        }
        Tally {
            members,
            plus,
            minus,
        }
    }

    /// The tally of members of whom none has voted.
    pub(crate) fn none(members: Row) -> Tally
        ensures members { result.members ≡ members }
        ensures sides { AreSides members (λ w. pos 0) result.plus result.minus }
    {
        // Tells the proof that the row ascends.
        let _count = members.count();
        Tally {
            members,
            plus: Row::empty(),
            minus: Row::empty(),
        }
    }

    /// Counts the vote of a block, which hasn't voted; a block that is no member votes 0.
    pub(crate) fn count(&mut self, z: u16, vote: i8)
        requires within { z < 512 }
        requires sign { IsSign vote }
        requires member { has self.old.members z ≡ false → vote ≡ pos 0 }
        ensures members { self.new.members ≡ self.old.members }
        ensures sides { (e : ℕ → ℤ) → e z ≡ pos 0 →
            AreSides self.old.members e self.old.plus self.old.minus →
            AreSides self.old.members (λ w. if w == z then vote else e w) self.new.plus self.new.minus }
    {
        put(&mut self.plus, z, is_plus(vote));
        put(&mut self.minus, z, is_minus(vote));
    }

    /// What the entry of `z` is to be, given the signs of the sums of the blocks' worlds.
    pub(crate) fn right_entry(&self, dag: &Dag, signs: &[i8], z: u16, x: u16, y: u16) -> i8
        requires z_in { z < length dag.now.parents }
        requires x_in { x < length dag.now.parents }
        requires y_in { y < length dag.now.parents }
        requires signs { length signs.now ≡ length dag.now.parents }
        ensures { (e : ℕ → ℤ) → AreSides self.now.members e self.now.plus self.now.minus → result ≡
            entry_by (graph_of dag.now) self.now.members (λ w. slice_index_or signs.now w (pos 0)) e z x y }
    {
        // Tells the proof that there are at most 512 blocks.
        let _blocks = dag.len();
        if !self.members.test(z) {
            return 0;
        }
        if z == x {
            return if dag.in_past(y, x) { 1 } else { -1 };
        }
        if z == y {
            return if dag.in_past(x, y) { -1 } else { 1 };
        }
        if dag.in_past(x, z) {
            return if dag.in_past(y, z) {
                dag.settled(x, y, signs[z as usize])
            } else {
                -1
            };
        }
        if dag.in_past(y, z) {
            return 1;
        }
        sign_of(dag.future(z).balance(&self.plus, &self.minus))
    }
}
