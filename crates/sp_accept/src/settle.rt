//! The carriers of a row of blocks are decided on again, block by block and ascending, until each flag
//! says what those before it give. Where one turned, the blocks above its own join the row. Those that
//! turn are noted, so that they can be turned back.

ghost use Rattle.std.specs.Prelude.{◌≡◌, ◌≢◌, ◌<◌, ◌≤◌, ◌+◌, ◌||◌, ◌&&◌, false, ℕ, Bool, List, length, All, IfOk, IsFalse, IsTrue, OnOk};
ghost use Rattle.sp_model.specs.Graph.{has};
ghost use Rattle.sp_dag.specs.Numbered.{AreInOrder};
ghost use Rattle.sp_carry.specs.Flags.{is_set};
ghost use Rattle.sp_carry.specs.RivalBlocks.{rival_blocks};
ghost use Rattle.sp_accept.specs.AcceptedRows.{AreAccepted};
ghost use Rattle.sp_accept.specs.Pass.{is_next};
ghost use Rattle.sp_accept.specs.Rows.{row_at, AreOf};
ghost use Rattle.sp_accept.specs.Standing.{is_below};
ghost use Rattle.sp_accept.specs.Todo.{all_turned, AreSettledBut, AreTurned, is_due, turned_at};
ghost use Rattle.sp_accept.specs.Witness.{Decide};

use crate::accepted_rows::AcceptedRows;
use crate::by_rows::is_next_by_rows;
use crate::flags::differ;
use crate::lookups::{carrier_at, first_from};
use crate::order::Order;
use crate::rival_blocks::{Around, around_of, rivals_of};
use crate::todo::note;
use crate::witness::witness_of;
use sp_bits::Row;
use sp_carry::{Carriers, is_set};
use std::alloc::AllocError;

/// Turns the flag of a carrier, and notes it first. Where memory was refused, nothing turned.
fn turn(flags: &mut Vec<bool>, turned: &mut Vec<u32>, c: u32) -> Result<(), AllocError>
    requires { c < length flags.old.items }
    ensures turned { AreTurned flags.old.items flags.new.items turned.old.items turned.new.items }
    ensures flag { OnOk result (flags.new.items ≡ turned_at flags.old.items c) }
{
    turned.push(c)?;
    let now = !is_set(flags, c);
    flags[c as usize] = now;
    Ok(())
}

/// Decides again on a carrier, and answers whether its flag turned. Those that are settled stay so,
/// but for the ones above its block where it turned.
fn settle_one<O: Order>(
    order: &O,
    carriers: &Carriers,
    flags: &mut Vec<bool>,
    turned: &mut Vec<u32>,
    rows: &mut AcceptedRows,
    around: &Around,
    c: u32,
) -> Result<bool, AllocError>
    requires of { AreOf (O.table order.now) carriers.now }
    requires within { c < length carriers.now.rows }
    requires around { Decide (O.table order.now) (row_at carriers.now.rows c).block
        (rival_blocks carriers.now (row_at carriers.now.rows c).tx) around.now.beaten around.now.safe }
    requires long { length flags.old.items ≡ length carriers.now.rows }
    requires kept { AreAccepted carriers.now flags.old.items rows.old.places.items rows.old.rows.items }
    ensures turned { AreTurned flags.old.items flags.new.items turned.old.items turned.new.items }
    ensures kept { OnOk result (AreAccepted carriers.now flags.new.items rows.new.places.items rows.new.rows.items) }
    ensures own { OnOk result (is_set flags.new.items c
        ≡ is_next (O.table order.now) carriers.now flags.new.items c) }
    ensures others { IfOk result (λ any. (d : ℕ) → c ≢ d → d < length carriers.now.rows →
        (any && is_below (O.table order.now) (row_at carriers.now.rows c).block (row_at carriers.now.rows d).block) ≡ false →
        is_set flags.old.items d ≡ is_next (O.table order.now) carriers.now flags.old.items d →
        is_set flags.new.items d ≡ is_next (O.table order.now) carriers.now flags.new.items d) }
{
    // Tells the proof what carriers are.
    let _blocks = carriers.block_count();
    let now = is_next_by_rows(order, carriers, flags, rows, around, c)?;
    if differ(is_set(flags, c), now) {
        turn(flags, turned, c)?;
        rows.forget(carrier_at(carriers, c).tx);
        return Ok(true);
    }
    Ok(false)
}

/// Decides again on the carriers of a block, and answers whether one turned.
fn settle_block<O: Order>(
    order: &O,
    carriers: &Carriers,
    todo: &Row,
    flags: &mut Vec<bool>,
    turned: &mut Vec<u32>,
    rows: &mut AcceptedRows,
    block: u16,
) -> Result<bool, AllocError>
    requires of { AreOf (O.table order.now) carriers.now }
    requires block { block < carriers.now.blocks }
    requires long { length flags.old.items ≡ length carriers.now.rows }
    requires settled { AreSettledBut (O.table order.now) carriers.now flags.old.items
        (is_due carriers.now.rows todo.now block) }
    requires kept { AreAccepted carriers.now flags.old.items rows.old.places.items rows.old.rows.items }
    ensures turned { AreTurned flags.old.items flags.new.items turned.old.items turned.new.items }
    ensures kept { OnOk result (AreAccepted carriers.now flags.new.items rows.new.places.items rows.new.rows.items) }
    ensures settled { IfOk result (λ any. AreSettledBut (O.table order.now) carriers.now flags.new.items
        (λ d. is_due carriers.now.rows todo.now (block + 1) d
        || (any && is_below (O.table order.now) block (row_at carriers.now.rows d).block))) }
{
    let count = carriers.block_count();
    let first = first_from(carriers, block);
    let end = first_from(carriers, block + 1);
    let witness = witness_of(order, carriers, block, first, end);
    let rivals = rivals_of(carriers, first, end, witness);
    let around = around_of(order, block, &rivals, count);
    let mut any = false;
    'carriers: for c in first..end {
        if settle_one(order, carriers, flags, turned, rows, &around, c)? {
            any = true;
        }
    }
    Ok(any)
}

/// Notes the blocks above a block.
fn note_future<O: Order>(todo: &mut Row, order: &O, block: u16, count: u16)
    requires order { AreInOrder (O.table order.now).parents }
    requires few { length (O.table order.now).parents ≤ 512 }
    requires count { count ≡ length (O.table order.now).parents }
    requires within { block < count }
    ensures kept { (z : ℕ) → IsTrue (has todo.old z) → IsTrue (has todo.new z) }
    ensures above { (z : ℕ) → z < count → IsTrue (is_below (O.table order.now) block z) →
        IsTrue (has todo.new z) }
{
    'above: for z in block + 1..count {
        if order.in_past(block, z) {
            note(todo, z);
        }
    }
}

/// Decides again on the carriers of a block, where it is in the row. Where one turned, the blocks above
/// it join the row.
fn settle_next<O: Order>(
    order: &O,
    carriers: &Carriers,
    todo: &mut Row,
    flags: &mut Vec<bool>,
    turned: &mut Vec<u32>,
    rows: &mut AcceptedRows,
    block: u16,
) -> Result<(), AllocError>
    requires of { AreOf (O.table order.now) carriers.now }
    requires block { block < carriers.now.blocks }
    requires long { length flags.old.items ≡ length carriers.now.rows }
    requires settled { AreSettledBut (O.table order.now) carriers.now flags.old.items
        (is_due carriers.now.rows todo.old block) }
    requires kept { AreAccepted carriers.now flags.old.items rows.old.places.items rows.old.rows.items }
    ensures turned { AreTurned flags.old.items flags.new.items turned.old.items turned.new.items }
    ensures kept { OnOk result (AreAccepted carriers.now flags.new.items rows.new.places.items rows.new.rows.items) }
    ensures settled { OnOk result (AreSettledBut (O.table order.now) carriers.now flags.new.items
        (is_due carriers.now.rows todo.new (block + 1))) }
{
    let count = carriers.block_count();
    if !todo.test(block) {
        return Ok(());
    }
    if settle_block(order, carriers, todo, flags, turned, rows, block)? {
        note_future(todo, order, block, count);
        return Ok(());
    }
    Ok(())
}

/// Decides again on the carriers of the row's blocks, and of those that join it on the way. Each is
/// decided on once, since a block that joins stands above the one that is decided on.
pub(crate) fn settle<O: Order>(
    order: &O,
    carriers: &Carriers,
    todo: &mut Row,
    flags: &mut Vec<bool>,
    turned: &mut Vec<u32>,
    rows: &mut AcceptedRows,
) -> Result<(), AllocError>
    requires of { AreOf (O.table order.now) carriers.now }
    requires long { length flags.old.items ≡ length carriers.now.rows }
    requires settled { AreSettledBut (O.table order.now) carriers.now flags.old.items
        (is_due carriers.now.rows todo.old 0) }
    requires kept { AreAccepted carriers.now flags.old.items rows.old.places.items rows.old.rows.items }
    ensures turned { AreTurned flags.old.items flags.new.items turned.old.items turned.new.items }
    ensures kept { OnOk result (AreAccepted carriers.now flags.new.items rows.new.places.items rows.new.rows.items) }
    ensures settled { OnOk result
        (AreSettledBut (O.table order.now) carriers.now flags.new.items (λ _. false)) }
{
    'due: for block in 0..carriers.block_count() {
        settle_next(order, carriers, todo, flags, turned, rows, block)?;
    }
    Ok(())
}

/// Turns the noted flags back, the last one first.
pub(crate) fn turn_back(flags: &mut Vec<bool>, turned: &mut Vec<u32>)
    requires { All (λ c. c < length flags.old.items) turned.old.items }
    ensures { (start : List Bool) → flags.old.items ≡ all_turned start turned.old.items → flags.new.items ≡ start }
{
    'turned: loop {
        let Some(c) = turned.pop() else { return };
        let was = !is_set(flags, c);
        flags[c as usize] = was;
    }
}
