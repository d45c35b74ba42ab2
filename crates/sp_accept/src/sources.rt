//! Whether what a carrier spends is accepted in the past of its block.

ghost use Rattle.std.specs.Prelude.{◌≡◌, ◌<◌, All, length, IsTrue, Some};
ghost use Rattle.std.specs.List.{list_all};
ghost use Rattle.sp_accept.specs.Pass.{has_source, inputs_at, is_accepted_below, is_paid};

use crate::lookups::{carrier_at, carriers_of, sources_of};
use crate::order::Order;
use sp_carry::{Carriers, is_set};
use sp_ids::TxId;
use sp_tx::Input;

/// Whether the carrier is accepted and stands in the past of the block.
fn is_accepted_below<O: Order>(
    order: &O,
    carriers: &Carriers,
    flags: &[bool],
    block: u16,
    c: u32,
) -> bool
    requires blocks { length (O.table order.now).parents ≡ carriers.now.blocks }
    requires block { block < carriers.now.blocks }
    requires c { c < length carriers.now.rows }
    ensures { result ≡ is_accepted_below (O.table order.now) carriers.now flags.now block c }
{
    is_set(flags, c) && order.in_past(carrier_at(carriers, c).block, block)
}

/// Whether an accepted carrier of the transaction stands in the past of the block.
fn is_paid<O: Order>(order: &O, carriers: &Carriers, flags: &[bool], block: u16, tx: u32) -> bool
    requires blocks { length (O.table order.now).parents ≡ carriers.now.blocks }
    requires block { block < carriers.now.blocks }
    requires tx { tx < length carriers.now.txs }
    ensures { result ≡ is_paid (O.table order.now) carriers.now flags.now block tx }
{
    let of_tx = carriers_of(carriers, tx);
    'carriers: for c in of_tx {
        if is_accepted_below(order, carriers, flags, block, *c) {
            return true;
        }
    }
    false
}

/// Whether that holds of the transaction that the input names.
fn has_source<O: Order>(
    order: &O,
    carriers: &Carriers,
    flags: &[bool],
    block: u16,
    input: &Input,
) -> bool
    requires blocks { length (O.table order.now).parents ≡ carriers.now.blocks }
    requires block { block < carriers.now.blocks }
    ensures { result ≡ has_source (O.table order.now) carriers.now flags.now block input.now }
{
    match carriers.tx_of(&input.from.tx) {
        Some(tx) => is_paid(order, carriers, flags, block, tx),
        None => false,
    }
}

/// Whether this is the transaction that was looked at last.
fn is_last(last: &Option<TxId>, tx: &TxId) -> bool
    ensures { IsTrue result → last.now ≡ Some tx.now }
{
    match last {
        Some(one) => one == tx,
        None => false,
    }
}

/// Whether each input's transaction has an accepted carrier in the past of the block. One that several
/// inputs name is looked at once: inputs are sorted, so they stand side by side.
fn are_named_accepted<O: Order>(
    order: &O,
    carriers: &Carriers,
    flags: &[bool],
    block: u16,
    inputs: &[Input],
) -> bool
    requires blocks { length (O.table order.now).parents ≡ carriers.now.blocks }
    requires block { block < carriers.now.blocks }
    ensures { result ≡ list_all (has_source (O.table order.now) carriers.now flags.now block) inputs.now }
{
    let mut last = None;
    'inputs: for input in inputs {
        if is_last(&last, &input.from.tx) {
            continue;
        }
        if !has_source(order, carriers, flags, block, input) {
            return false;
        }
        last = Some(input.from.tx);
    }
    true
}

/// Whether this is the number that was looked at last.
fn is_last_number(last: Option<u32>, tx: u32) -> bool
    ensures { IsTrue result → last ≡ Some tx }
{
    match last {
        Some(one) => one == tx,
        None => false,
    }
}

/// Whether each of these transactions has an accepted carrier in the past of the block. Those that are one
/// and stand side by side are looked at once.
fn are_all_paid<O: Order>(
    order: &O,
    carriers: &Carriers,
    flags: &[bool],
    block: u16,
    list: &[u32],
) -> bool
    requires blocks { length (O.table order.now).parents ≡ carriers.now.blocks }
    requires block { block < carriers.now.blocks }
    requires list { All (λ tx. tx < length carriers.now.txs) list.now }
    ensures { result ≡ list_all (is_paid (O.table order.now) carriers.now flags.now block) list.now }
{
    let mut last = None;
    'sources: for tx in list {
        if is_last_number(last, *tx) {
            continue;
        }
        if !is_paid(order, carriers, flags, block, *tx) {
            return false;
        }
        last = Some(*tx);
    }
    true
}

/// Whether each transaction that this one spends has an accepted carrier in the past of the block. They are
/// known by their numbers, or else looked up by their ids, as where this one came before them.
pub(crate) fn are_sources_accepted<O: Order>(
    order: &O,
    carriers: &Carriers,
    flags: &[bool],
    block: u16,
    tx: u32,
) -> bool
    requires blocks { length (O.table order.now).parents ≡ carriers.now.blocks }
    requires block { block < carriers.now.blocks }
    requires tx { tx < length carriers.now.txs }
    ensures { result ≡ list_all (has_source (O.table order.now) carriers.now flags.now block) (inputs_at carriers.now tx) }
{
    let list = sources_of(carriers, tx);
    if list.is_empty() {
        let named = carriers.tx(tx);
        return are_named_accepted(order, carriers, flags, block, named.inputs.as_slice());
    }
    are_all_paid(order, carriers, flags, block, list)
}
