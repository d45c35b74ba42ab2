//! The blocks in which one transaction has rivals, found by the spenders of its outpoints.

ghost use Rattle.std.specs.Prelude.{◌≡◌, ◌<◌, ◌==◌, All, length};
ghost use Rattle.std.specs.List.{list_any};
ghost use Rattle.sp_tx.specs.declared.parts.Input.{Input};
ghost use Rattle.sp_carry.specs.declared.carrier.Carrier.{Carrier};
ghost use Rattle.sp_carry.specs.Carried.{AreLinked};
ghost use Rattle.sp_carry.specs.Kept.{carried_of, IsKept};
ghost use Rattle.sp_carry.specs.RivalBlocks.{has_other_in, has_spender_in, is_sound_in, rival_blocks, IsMarkedBy};

use crate::carrier::Carrier;
use crate::table::Table;
use sp_bits::Row;
use sp_tx::Input;

// Marks a block.
fn mark(into: &mut Row, block: u16)
    requires { block < 512 }
    ensures { IsMarkedBy (λ z. z == block) into.old into.new }
{
    // Tells the proof what a row is.
    let _there = into.test(block);
    into.set(block);
}

// Marks the block of a carrier, where it is sound.
fn mark_if_sound(rows: &[Carrier], c: u32, into: &mut Row)
    requires c { c < length rows.now }
    requires blocks { All (λ (r : Carrier). r.block < 512) rows.now }
    ensures { IsMarkedBy (is_sound_in rows.now c) into.old into.new }
{
    let row = rows[c as usize];
    if row.sound {
        mark(into, row.block);
    }
}

// Marks the blocks of the sound ones of these carriers.
fn mark_sound(rows: &[Carrier], list: &[u32], into: &mut Row)
    requires list { All (λ c. c < length rows.now) list.now }
    requires blocks { All (λ (r : Carrier). r.block < 512) rows.now }
    ensures { IsMarkedBy (λ z. list_any (λ c. is_sound_in rows.now c z) list.now) into.old into.new }
{
    'carriers: for c in list {
        mark_if_sound(rows, *c, into);
    }
}

// Marks the blocks of a transaction's sound carriers, unless it is this one.
fn mark_other(table: &Table, tx: u32, other: u32, into: &mut Row)
    requires kept { IsKept table.now }
    requires other { other < length table.now.txs.items }
    requires blocks { All (λ (r : Carrier). r.block < 512) table.now.rows.items }
    ensures { IsMarkedBy (has_other_in table.now.rows.items tx other) into.old into.new }
{
    if other != tx {
        mark_sound(&table.rows, table.carriers_of(other), into);
    }
}

// Marks the blocks of the sound carriers of the other transactions that spend what an input spends.
fn mark_spenders(table: &Table, tx: u32, input: &Input, into: &mut Row)
    requires kept { IsKept table.now }
    requires blocks { All (λ (r : Carrier). r.block < 512) table.now.rows.items }
    ensures { IsMarkedBy (has_spender_in table.now.txs.items table.now.rows.items tx input.now) into.old into.new }
{
    let spenders = table.spenders_of(&input.from);
    'spenders: for other in spenders {
        mark_other(table, tx, *other, into);
    }
}

// Marks the blocks of the sound carriers of the other transactions that spend what the inputs spend.
fn mark_rivals(table: &Table, tx: u32, inputs: &[Input], into: &mut Row)
    requires kept { IsKept table.now }
    requires blocks { All (λ (r : Carrier). r.block < 512) table.now.rows.items }
    ensures { IsMarkedBy (λ z. list_any
        (λ (i : Input). has_spender_in table.now.txs.items table.now.rows.items tx i z) inputs.now) into.old into.new }
{
    'inputs: for input in inputs {
        mark_spenders(table, tx, input, into);
    }
}

// The blocks in which a sound carrier conflicts with the transaction.
pub(crate) fn rival_blocks(table: &Table, tx: u32) -> Row
    requires kept { IsKept table.now }
    requires linked { AreLinked (carried_of table.now) }
    requires blocks { All (λ (r : Carrier). r.block < 512) table.now.rows.items }
    requires tx { tx < length table.now.txs.items }
    ensures { result ≡ rival_blocks (carried_of table.now) tx }
{
    let mut row = Row::empty();
    mark_rivals(
        table,
        tx,
        table.txs[tx as usize].inputs.as_slice(),
        &mut row,
    );
    // Tells the proof what a row is.
    let _count = row.count();
    row
}
