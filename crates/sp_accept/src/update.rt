//! What an update does before it is sure to succeed: it finds the blocks whose carriers may turn, decides
//! on these, and finds the transactions that turn with them. Where memory was refused, it turns all back.

ghost use Rattle.std.specs.Prelude.{◌≡◌, ◌<◌, ◌≤◌, ◌==◌, [], false, ℕ, All, length, filter, vec_capacity, IfOk, OnErr, OnOk};
ghost use Rattle.std.specs.List.{list_any, range_with_len};
ghost use Rattle.sp_carry.specs.declared.carrier.Flip.{Flip};
ghost use Rattle.sp_carry.specs.Flags.{is_set};
ghost use Rattle.sp_accept.specs.Acceptance.{IsRight};
ghost use Rattle.sp_accept.specs.Changes.{carriers_below, TellsChanges};
ghost use Rattle.sp_accept.specs.Flips.{flips_among};
ghost use Rattle.sp_accept.specs.Pass.{is_carried_flag};
ghost use Rattle.sp_accept.specs.Todo.{AreSettledBut, AreTurned, grown, is_due};
ghost use Rattle.sp_accept.specs.Rows.{row_at, AreOf};

use crate::accepted_rows::AcceptedRows;
use crate::flags::grow;
use crate::order::Order;
use crate::settle::{settle, turn_back};
use crate::todo::todo_of;
use crate::touched::turned_txs;
use sp_bits::Row;
use sp_carry::{Carriers, Flip};
use sp_ids::Memory;
use std::alloc::{AllocError, Global};

/// Takes memory for a flag of each carrier, and for one of each transaction.
fn make_room(
    carriers: &Carriers,
    flags: &mut Vec<bool>,
    txs: &mut Vec<bool>,
) -> Result<(), AllocError>
    ensures same { flags.new.items ≡ flags.old.items }
    ensures same_txs { txs.new.items ≡ txs.old.items }
    ensures room { OnOk result (length carriers.now.rows ≤ vec_capacity flags.new) }
    ensures room_txs { OnOk result (length carriers.now.txs ≤ vec_capacity txs.new) }
{
    let count = carriers.carrier_count() as usize;
    flags.reserve(count.saturating_sub(flags.len()))?;
    let tx_count = carriers.tx_count() as usize;
    txs.reserve(tx_count.saturating_sub(txs.len()))
}

/// Decides again on the carriers of the row's blocks and on those that they reach, and answers the
/// transactions that turn with them.
fn flips_by<O: Order>(
    alloc: Global,
    order: &O,
    carriers: &Carriers,
    todo: &mut Row,
    flags: &mut Vec<bool>,
    turned: &mut Vec<u32>,
    txs: &[bool],
) -> Result<Vec<Flip>, Memory>
    requires of { AreOf (O.table order.now) carriers.now }
    requires long { length flags.old.items ≡ length carriers.now.rows }
    requires settled { AreSettledBut (O.table order.now) carriers.now flags.old.items
        (is_due carriers.now.rows todo.old 0) }
    requires none { turned.old.items ≡ [] }
    ensures turned { AreTurned flags.old.items flags.new.items [] turned.new.items }
    ensures settled { OnOk result
        (AreSettledBut (O.table order.now) carriers.now flags.new.items (λ _. false)) }
    ensures known { IfOk result (λ flips.
        All (λ (flip : Flip). flip.tx < length carriers.now.txs) flips.items) }
    ensures flips { IfOk result (λ flips. flips.items ≡ flips_among txs.now (is_carried_flag carriers.now flags.new.items)
        (filter (λ tx. list_any (λ c. (row_at carriers.now.rows c).tx == tx) turned.new.items) (range_with_len 0 (length carriers.now.txs)))) }
{
    let mut rows = AcceptedRows::new(alloc);
    settle(order, carriers, todo, flags, turned, &mut rows)?;
    let flips = turned_txs(alloc, carriers, turned, flags, txs)?;
    Ok(flips)
}

/// Decides with a flag for each carrier, and turns all back where memory was refused.
fn decide_or_turn_back<O: Order>(
    alloc: Global,
    order: &O,
    carriers: &Carriers,
    todo: &mut Row,
    flags: &mut Vec<bool>,
    txs: &[bool],
) -> Result<Vec<Flip>, Memory>
    requires of { AreOf (O.table order.now) carriers.now }
    requires short { length flags.old.items ≤ length carriers.now.rows }
    requires room { length carriers.now.rows ≤ vec_capacity flags.old }
    requires settled { AreSettledBut (O.table order.now) carriers.now
        (grown flags.old.items (length carriers.now.rows)) (is_due carriers.now.rows todo.old 0) }
    requires carried { (tx : ℕ) → tx < length carriers.now.txs
        → is_set txs.now tx ≡ is_carried_flag carriers.now flags.old.items tx }
    ensures long { OnOk result (length flags.new.items ≡ length carriers.now.rows) }
    ensures settled { OnOk result
        (AreSettledBut (O.table order.now) carriers.now flags.new.items (λ _. false)) }
    ensures known { IfOk result (λ flips.
        All (λ (flip : Flip). flip.tx < length carriers.now.txs) flips.items) }
    ensures flips { IfOk result (λ flips. flips.items ≡ flips_among txs.now
        (is_carried_flag carriers.now flags.new.items) (range_with_len 0 (length carriers.now.txs))) }
    ensures err { OnErr result (flags.new.items ≡ flags.old.items) }
{
    let mut turned = Vec::new(alloc);
    let long = flags.len();
    grow(flags, carriers.carrier_count() as usize);
    let found = flips_by(alloc, order, carriers, todo, flags, &mut turned, txs);
    match found {
        Ok(flips) => Ok(flips),
        Err(Memory) => {
            turn_back(flags, &mut turned);
            flags.truncate(long);
            Err(Memory)
        }
    }
}

/// Decides on the carriers that the new blocks may turn, with room for a flag of each transaction.
pub(crate) fn decide_on_changes<O: Order>(
    alloc: Global,
    order: &O,
    carriers: &Carriers,
    changed: &[(u16, u16)],
    blocks: u16,
    from: u32,
    flags: &mut Vec<bool>,
    txs: &mut Vec<bool>,
) -> Result<Vec<Flip>, Memory>
    requires of { AreOf (O.table order.now) carriers.now }
    requires right { IsRight (O.table order.now) carriers.now
        (record { blocks = blocks; carriers = flags.old.items; txs = txs.old.items }) }
    requires first { from ≡ carriers_below carriers.now.rows blocks }
    requires told { TellsChanges (O.table order.now) blocks changed.now }
    ensures same { txs.new.items ≡ txs.old.items }
    ensures room { OnOk result (length carriers.now.txs ≤ vec_capacity txs.new) }
    ensures long { OnOk result (length flags.new.items ≡ length carriers.now.rows) }
    ensures settled { OnOk result
        (AreSettledBut (O.table order.now) carriers.now flags.new.items (λ _. false)) }
    ensures known { IfOk result (λ flips.
        All (λ (flip : Flip). flip.tx < length carriers.now.txs) flips.items) }
    ensures flips { IfOk result (λ flips. flips.items ≡ flips_among txs.old.items
        (is_carried_flag carriers.now flags.new.items) (range_with_len 0 (length carriers.now.txs))) }
    ensures err { OnErr result (flags.new.items ≡ flags.old.items) }
{
    // Tells the proof what carriers are.
    let _blocks = carriers.block_count();
    make_room(carriers, flags, txs)?;
    let mut todo = todo_of(order, carriers, changed, blocks, from);
    decide_or_turn_back(alloc, order, carriers, &mut todo, flags, txs)
}
