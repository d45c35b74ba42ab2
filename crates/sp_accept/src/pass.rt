//! One pass over the carriers in their order, which is that of their blocks: what decides on one has
//! been decided before it.

ghost use Rattle.std.specs.Prelude.{◌≡◌, ◌<◌, length, IfOk};
ghost use Rattle.std.specs.List.{list_any};
ghost use Rattle.sp_carry.specs.Carried.{carriers_in};
ghost use Rattle.sp_carry.specs.Flags.{is_set};
ghost use Rattle.sp_accept.specs.Pass.{is_next, passed, carried_flags};

use crate::lookups::{carrier_at, carriers_of};
use crate::order::Order;
use crate::rivals::is_outdone;
use crate::sources::are_sources_accepted;
use sp_carry::{Carriers, is_set};
use std::alloc::{AllocError, Global};

/// Whether the carrier of this number is accepted, where the flags say it of those before it.
fn is_next<O: Order>(order: &O, carriers: &Carriers, flags: &[bool], c: u32) -> bool
    requires blocks { length (O.table order.now).parents ≡ carriers.now.blocks }
    requires c { c < length carriers.now.rows }
    ensures { result ≡ is_next (O.table order.now) carriers.now flags.now c }
{
    let row = carrier_at(carriers, c);
    let tx = carriers.tx(row.tx);
    let inputs = tx.inputs.as_slice();
    row.sound
        && are_sources_accepted(order, carriers, flags, row.block, row.tx)
        && !is_outdone(order, carriers, flags, row, inputs)
}

/// Which carriers are accepted.
pub(crate) fn carrier_flags<O: Order>(
    alloc: Global,
    order: &O,
    carriers: &Carriers,
) -> Result<Vec<bool>, AllocError>
    requires blocks { length (O.table order.now).parents ≡ carriers.now.blocks }
    ensures { IfOk result (λ flags. flags.items
        ≡ passed (O.table order.now) carriers.now (length carriers.now.rows)) }
{
    let count = carriers.carrier_count();
    let mut flags = Vec::with_capacity(alloc, count as usize)?;
    'carriers: for c in 0..count {
        let now = is_next(order, carriers, &flags, c);
        flags.push(now)?;
    }
    Ok(flags)
}

/// Whether a carrier of the transaction is accepted.
pub(crate) fn is_any_accepted(carriers: &Carriers, flags: &[bool], tx: u32) -> bool
    requires { tx < length carriers.now.txs }
    ensures { result ≡ list_any (is_set flags.now) (carriers_in carriers.now.rows tx) }
{
    let of_tx = carriers_of(carriers, tx);
    'carriers: for c in of_tx {
        if is_set(flags, *c) {
            return true;
        }
    }
    false
}

/// Which transactions are accepted.
pub(crate) fn tx_flags(
    alloc: Global,
    carriers: &Carriers,
    flags: &[bool],
) -> Result<Vec<bool>, AllocError>
    ensures { IfOk result (λ txs. txs.items ≡ carried_flags carriers.now flags.now) }
{
    let count = carriers.tx_count();
    let mut txs = Vec::with_capacity(alloc, count as usize)?;
    'txs: for tx in 0..count {
        let now = is_any_accepted(carriers, flags, tx);
        txs.push(now)?;
    }
    Ok(txs)
}
