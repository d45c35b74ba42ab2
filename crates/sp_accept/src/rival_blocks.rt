//! The blocks around a block, as rows, by what a sound rival in them does to its carriers. They are
//! found once a block, so that each of its carriers is tested against all blocks of its rivals at once. Of
//! carriers that have rivals in a block in which these are known to stand in the way, none is asked.

ghost use Rattle.std.specs.Prelude.{◌≡◌, ◌<◌, ◌≤◌, ◌==◌, ◌&&◌, ◌||◌, not, ℕ, IfSome, IsFalse, IsTrue, length};
ghost use Rattle.sp_model.specs.Graph.{has};
ghost use Rattle.sp_carry.specs.RivalBlocks.{rival_blocks};
ghost use Rattle.sp_accept.specs.Around.{is_unbeaten, IsAround};
ghost use Rattle.sp_accept.specs.Rows.{row_at};
ghost use Rattle.sp_accept.specs.Standing.{is_below};
ghost use Rattle.sp_accept.specs.Witness.{holds};

use crate::lookups::carrier_at;
use crate::order::Order;
use sp_bits::Row;
use sp_carry::Carriers;

/// Rows of the blocks around a block.
#[derive(Drop)]
pub(crate) struct Around {
    /// Of the blocks in which some of its carriers have rivals: itself, those related to it, and those that
    /// it comes before.
    pub(crate) beaten: Row,
    /// Those of them that aren't in its past.
    pub(crate) safe: Row,
}

/// Whether the other block, which isn't in the past of this one, is unrelated, and the votes don't put
/// this one before it.
pub(crate) fn is_unbeaten<O: Order>(order: &O, block: u16, other: u16) -> bool
    requires block { block < length (O.table order.now).parents }
    requires other { other < length (O.table order.now).parents }
    requires above { IsFalse (is_below (O.table order.now) other block) }
    ensures { result ≡ is_unbeaten (O.table order.now) block other }
{
    if other == block || order.in_past(block, other) {
        return false;
    }
    !order.before(block, other)
}

/// Adds a block to a row.
pub(crate) fn put(row: &mut Row, block: u16)
    requires { block < 512 }
    ensures { (w : ℕ) → has row.new w ≡ (has row.old w || (w == block)) }
{
    // Tells the proof what a row is.
    let _there = row.test(block);
    row.set(block);
}

/// Adds a block to the rows where it belongs.
fn put_one<O: Order>(around: &mut Around, order: &O, block: u16, other: u16)
    requires few { length (O.table order.now).parents ≤ 512 }
    requires block { block < length (O.table order.now).parents }
    requires other { other < length (O.table order.now).parents }
    ensures beaten { (w : ℕ) → has around.new.beaten w
        ≡ (has around.old.beaten w || (not (is_unbeaten (O.table order.now) block other) && (w == other))) }
    ensures safe { (w : ℕ) → has around.new.safe w
        ≡ (has around.old.safe w || ((not (is_unbeaten (O.table order.now) block other)
        && not (is_below (O.table order.now) other block)) && (w == other))) }
{
    if order.in_past(other, block) {
        put(&mut around.beaten, other);
        return;
    }
    if is_unbeaten(order, block, other) {
        return;
    }
    put(&mut around.beaten, other);
    put(&mut around.safe, other);
}

/// Adds the blocks of another row.
fn join(row: &mut Row, other: &Row)
    ensures kept { (w : ℕ) → IsTrue (has row.old w) → IsTrue (has row.new w) }
    ensures there { (w : ℕ) → IsTrue (has other.now w) → IsTrue (has row.new w) }
{
    // Tells the proof what rows are.
    let _own = row.test(0);
    let _others = other.test(0);
    row.or_with(other);
}

/// Whether the row has the block, where there is one.
fn holds(witness: Option<u16>, row: &Row) -> bool
    requires { IfSome witness (λ w. w < 512) }
    ensures { result ≡ holds witness row.now }
{
    match witness {
        Some(block) => row.test(block),
        None => false,
    }
}

/// Adds the blocks of another row, unless it has the witness.
fn join_unless(row: &mut Row, other: &Row, witness: Option<u16>)
    requires { IfSome witness (λ w. w < 512) }
    ensures kept { (w : ℕ) → IsTrue (has row.old w) → IsTrue (has row.new w) }
    ensures there { IsFalse (holds witness other.now) → (w : ℕ) → IsTrue (has other.now w) → IsTrue (has row.new w) }
{
    if !holds(witness, other) {
        join(row, other);
    }
}

/// Behind which place a row has none of those below a number.
pub(crate) fn end_of(row: &Row, count: u16) -> u16
    ensures within { result ≤ count }
    ensures all { (w : ℕ) → w < count → IsTrue (has row.now w) → w < result }
{
    match row.highest() {
        Some(top) => count.min(top + 1),
        None => 0,
    }
}

/// The blocks around a block, of those in which some carriers have rivals. The order is asked at most
/// three times of each of these.
pub(crate) fn around_of<O: Order>(order: &O, block: u16, rivals: &Row, count: u16) -> Around
    requires count { count ≡ length (O.table order.now).parents }
    requires few { length (O.table order.now).parents ≤ 512 }
    requires block { block < count }
    ensures around { IsAround (O.table order.now) block rivals.now result.beaten result.safe }
    ensures out { (w : ℕ) → IsTrue (is_unbeaten (O.table order.now) block w) → IsFalse (has result.beaten w) }
{
    let mut around = Around {
        beaten: Row::empty(),
        safe: Row::empty(),
    };
    let end = end_of(rivals, count);
    'others: for other in 0..end {
        if rivals.test(other) {
            put_one(&mut around, order, block, other);
        }
    }
    around
}

/// The blocks in which some carriers have rivals, of those that have none in the witness.
pub(crate) fn rivals_of(carriers: &Carriers, from: u32, end: u32, witness: Option<u16>) -> Row
    requires end { end ≤ length carriers.now.rows }
    requires witness { IfSome witness (λ w. w < 512) }
    ensures { (c w : ℕ) → from ≤ c → c < end → IsFalse (holds witness (rival_blocks carriers.now (row_at carriers.now.rows c).tx)) →
        IsTrue (has (rival_blocks carriers.now (row_at carriers.now.rows c).tx) w) → IsTrue (has result w) }
{
    let mut rivals = Row::empty();
    'carriers: for c in from..end {
        join_unless(
            &mut rivals,
            carriers.rival_blocks(carrier_at(carriers, c).tx),
            witness,
        );
    }
    rivals
}
