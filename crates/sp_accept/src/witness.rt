//! A block in which rivals stand in the way of a carrier of another block from beside. Where one is found,
//! the other carriers of that block that have rivals there aren't accepted either, so that the order needn't
//! be asked of the blocks of all their rivals.

ghost use Rattle.std.specs.Prelude.{◌≡◌, ◌<◌, ◌≤◌, length, IfSome, IsTrue};
ghost use Rattle.sp_accept.specs.Around.{is_unbeaten};
ghost use Rattle.sp_accept.specs.Rows.{AreOf};

use crate::lookups::carrier_at;
use crate::order::Order;
use crate::rival_blocks::{end_of, is_unbeaten};
use sp_bits::Row;
use sp_carry::Carriers;

/// How many blocks with rivals of a carrier are looked at, at most. Where there are no more, the order is soon
/// asked of all of them.
const LOOKS: u32 = 8;

/// Whether rivals in the other block stand in the way from beside.
fn is_one<O: Order>(order: &O, block: u16, other: u16) -> bool
    requires block { block < length (O.table order.now).parents }
    requires other { other < length (O.table order.now).parents }
    ensures { result ≡ is_unbeaten (O.table order.now) block other }
{
    if order.in_past(other, block) {
        return false;
    }
    is_unbeaten(order, block, other)
}

/// The first of the lowest blocks of a row in which they do. The lowest ones are looked at, since the votes
/// tend to put these first.
fn first_of<O: Order>(order: &O, block: u16, rivals: &Row, count: u16) -> Option<u16>
    requires count { count ≡ length (O.table order.now).parents }
    requires few { length (O.table order.now).parents ≤ 512 }
    requires block { block < count }
    ensures within { IfSome result (λ w. w < count) }
    ensures unbeaten { IfSome result (λ w. IsTrue (is_unbeaten (O.table order.now) block w)) }
{
    if rivals.count() <= LOOKS {
        return None;
    }
    let mut left = LOOKS;
    let end = end_of(rivals, count);
    'others: for other in 0..end {
        if rivals.test(other) {
            if left == 0 {
                return None;
            }
            if is_one(order, block, other) {
                return Some(other);
            }
            left -= 1;
        }
    }
    None
}

/// A block in which rivals of the first sound one of these carriers of a block stand in its way from beside,
/// where one is soon found.
pub(crate) fn witness_of<O: Order>(
    order: &O,
    carriers: &Carriers,
    block: u16,
    from: u32,
    end: u32,
) -> Option<u16>
    requires of { AreOf (O.table order.now) carriers.now }
    requires block { block < carriers.now.blocks }
    requires end { end ≤ length carriers.now.rows }
    ensures within { IfSome result (λ w. w < 512) }
    ensures unbeaten { IfSome result (λ w. IsTrue (is_unbeaten (O.table order.now) block w)) }
{
    let count = carriers.block_count();
    'carriers: for c in from..end {
        let row = carrier_at(carriers, c);
        if row.sound {
            return first_of(order, block, carriers.rival_blocks(row.tx), count);
        }
    }
    None
}
