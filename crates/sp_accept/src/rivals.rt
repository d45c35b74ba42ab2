//! Whether a rival stands in the way of a carrier, as a pass over all carriers asks it. Rivals are found by
//! who spends the same outpoints, one after another, and the search stops at the first that stands in the
//! way: no list is made.

ghost use Rattle.std.specs.Prelude.{◌≡◌, ◌<◌, length};
ghost use Rattle.std.specs.List.{list_any};
ghost use Rattle.sp_accept.specs.Pass.{is_beaten, is_beaten_at, is_beaten_by, is_lost};

use crate::lookups::{carrier_at, carriers_of, spenders_of};
use crate::order::Order;
use sp_carry::{Carrier, Carriers, is_set};
use sp_tx::Input;

/// Whether this carrier, of a transaction that conflicts, stands in the way of one in the block. One
/// of the same block or of a descendant doesn't.
fn is_beaten_by<O: Order>(order: &O, flags: &[bool], block: u16, c: u32, other: Carrier) -> bool
    requires block { block < length (O.table order.now).parents }
    requires other { other.block < length (O.table order.now).parents }
    ensures { result ≡ is_beaten_by (O.table order.now) flags.now block c other }
{
    if !other.sound {
        return false;
    }
    if order.in_past(other.block, block) {
        return is_set(flags, c);
    }
    if other.block == block || order.in_past(block, other.block) {
        return false;
    }
    !order.before(block, other.block)
}

/// Whether the carrier of this number does.
fn is_beaten_at<O: Order>(
    order: &O,
    carriers: &Carriers,
    flags: &[bool],
    block: u16,
    c: u32,
) -> bool
    requires blocks { length (O.table order.now).parents ≡ carriers.now.blocks }
    requires block { block < carriers.now.blocks }
    requires c { c < length carriers.now.rows }
    ensures { result ≡ is_beaten_at (O.table order.now) carriers.now flags.now block c }
{
    is_beaten_by(order, flags, block, c, carrier_at(carriers, c))
}

/// Whether a carrier of the transaction, which conflicts, stands in the way of one in the block.
fn is_beaten<O: Order>(order: &O, carriers: &Carriers, flags: &[bool], block: u16, tx: u32) -> bool
    requires blocks { length (O.table order.now).parents ≡ carriers.now.blocks }
    requires block { block < carriers.now.blocks }
    requires tx { tx < length carriers.now.txs }
    ensures { result ≡ is_beaten (O.table order.now) carriers.now flags.now block tx }
{
    let of_tx = carriers_of(carriers, tx);
    'carriers: for c in of_tx {
        if is_beaten_at(order, carriers, flags, block, *c) {
            return true;
        }
    }
    false
}

/// Whether another spender of the input's outpoint stands in the way.
fn is_lost<O: Order>(
    order: &O,
    carriers: &Carriers,
    flags: &[bool],
    row: Carrier,
    input: &Input,
) -> bool
    requires blocks { length (O.table order.now).parents ≡ carriers.now.blocks }
    requires block { row.block < carriers.now.blocks }
    ensures { result ≡ is_lost (O.table order.now) carriers.now flags.now row input.now }
{
    let spenders = spenders_of(carriers, &input.from);
    'spenders: for other in spenders {
        if *other != row.tx && is_beaten(order, carriers, flags, row.block, *other) {
            return true;
        }
    }
    false
}

/// Whether a rival stands in the way of the carrier.
pub(crate) fn is_outdone<O: Order>(
    order: &O,
    carriers: &Carriers,
    flags: &[bool],
    row: Carrier,
    inputs: &[Input],
) -> bool
    requires blocks { length (O.table order.now).parents ≡ carriers.now.blocks }
    requires block { row.block < carriers.now.blocks }
    ensures { result ≡ list_any (is_lost (O.table order.now) carriers.now flags.now row) inputs.now }
{
    'inputs: for input in inputs {
        if is_lost(order, carriers, flags, row, input) {
            return true;
        }
    }
    false
}
