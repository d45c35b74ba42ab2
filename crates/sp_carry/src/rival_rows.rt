//! For each transaction the row of the blocks in which it has rivals: what a block more adds to the
//! rows, and what is left of them where blocks go.

ghost use Rattle.std.specs.Prelude.{◌≡◌, ◌<◌, ◌≤◌, ◌^◌, ◌==◌, ◌&&◌, All, length, slice_set, vec_capacity};
ghost use Rattle.std.specs.List.{list_any};
ghost use Rattle.sp_bits.specs.Places.{members_below};
ghost use Rattle.sp_tx.specs.declared.parts.Input.{Input};
ghost use Rattle.sp_carry.specs.declared.carrier.Carrier.{Carrier};
ghost use Rattle.sp_carry.specs.Carried.{AreLinked};
ghost use Rattle.sp_carry.specs.Growth.{front};
ghost use Rattle.sp_carry.specs.Kept.{carried_of, IsKept};
ghost use Rattle.sp_carry.specs.RivalBlocks.{is_in_row_of, is_in_row_of_spender, is_rival_in, row_of, AreCut, AreMarkedBy, ArePushed, HasRivals};

use crate::carrier::Carrier;
use crate::marks::rival_blocks;
use crate::table::Table;
use sp_bits::Row;
use sp_tx::Input;

// Marks a block in the row of a transaction.
fn mark(rows: &mut Vec<Row>, tx: u32, block: u16)
    requires tx { tx < length rows.old.items }
    requires block { block < 512 }
    ensures { AreMarkedBy (λ t z. (t == tx) && (z == block)) rows.old.items rows.new.items }
{
    // Tells the proof what a row is.
    let _there = rows[tx as usize].test(block);
    rows[tx as usize].set(block);
}

// Marks a block in the row of another transaction than this one.
fn mark_other(rows: &mut Vec<Row>, other: u32, tx: u32, block: u16)
    requires other { other < length rows.old.items }
    requires block { block < 512 }
    ensures { AreMarkedBy (is_in_row_of tx block other) rows.old.items rows.new.items }
{
    if other != tx {
        mark(rows, other, block);
    }
}

// Marks a block in the rows of the others of these transactions.
fn mark_others(rows: &mut Vec<Row>, list: &[u32], tx: u32, block: u16)
    requires list { All (λ u. u < length rows.old.items) list.now }
    requires block { block < 512 }
    ensures { AreMarkedBy (λ t z. list_any (λ other. is_in_row_of tx block other t z) list.now) rows.old.items rows.new.items }
{
    'others: for other in list {
        mark_other(rows, *other, tx, block);
    }
}

// Marks a block in the rows of the other transactions that spend what the inputs spend.
fn mark_spenders(table: &Table, rows: &mut Vec<Row>, inputs: &[Input], tx: u32, block: u16)
    requires kept { IsKept table.now }
    requires long { length rows.old.items ≡ length table.now.txs.items }
    requires block { block < 512 }
    ensures { AreMarkedBy (λ t z. list_any
        (λ (i : Input). is_in_row_of_spender table.now.txs.items tx block i t z) inputs.now) rows.old.items rows.new.items }
{
    'inputs: for input in inputs {
        mark_others(rows, table.spenders_of(&input.from), tx, block);
    }
}

// Marks a carrier's block in the rows of its rivals, where it is sound.
fn mark_carrier(table: &Table, rows: &mut Vec<Row>, row: Carrier)
    requires kept { IsKept table.now }
    requires linked { AreLinked (carried_of table.now) }
    requires long { length rows.old.items ≡ length table.now.txs.items }
    requires tx { row.tx < length table.now.txs.items }
    requires block { row.block < 512 }
    ensures { AreMarkedBy (λ t z. is_rival_in (carried_of table.now) t z row) rows.old.items rows.new.items }
{
    if row.sound {
        let inputs = table.txs[row.tx as usize].inputs.as_slice();
        mark_spenders(table, rows, inputs, row.tx, row.block);
    }
}

// Marks the blocks of these carriers in the rows of their rivals.
fn mark_carriers(table: &Table, rows: &mut Vec<Row>, news: &[Carrier])
    requires kept { IsKept table.now }
    requires linked { AreLinked (carried_of table.now) }
    requires long { length rows.old.items ≡ length table.now.txs.items }
    requires txs { All (λ (r : Carrier). r.tx < length table.now.txs.items) news.now }
    requires blocks { All (λ (r : Carrier). r.block < 512) news.now }
    ensures { AreMarkedBy (λ t z. list_any (is_rival_in (carried_of table.now) t z) news.now) rows.old.items rows.new.items }
{
    'news: for row in news {
        mark_carrier(table, rows, *row);
    }
}

// Adds the rows of the transactions that have none, for which there is room.
fn push_rows(table: &Table, rows: &mut Vec<Row>)
    requires kept { IsKept table.now }
    requires linked { AreLinked (carried_of table.now) }
    requires blocks { All (λ (r : Carrier). r.block < 512) table.now.rows.items }
    requires small { length table.now.txs.items < 2 ^ 32 }
    requires short { length rows.old.items ≤ length table.now.txs.items }
    requires room { length table.now.txs.items ≤ vec_capacity rows.old }
    ensures { ArePushed (carried_of table.now) rows.old.items rows.new.items (length table.now.txs.items) }
{
    'txs: for tx in rows.len()..table.txs.len() {
        rows.push_reserved(rival_blocks(table, tx as u32));
    }
}

// Rows that were right of the first carriers are right of all.
pub(crate) fn add_rows(table: &Table, rows: &mut Vec<Row>, first: usize)
    requires kept { IsKept table.now }
    requires linked { AreLinked (carried_of table.now) }
    requires blocks { All (λ (r : Carrier). r.block < 512) table.now.rows.items }
    requires small { length table.now.txs.items < 2 ^ 32 }
    requires within { first ≤ length table.now.rows.items }
    requires room { length table.now.txs.items ≤ vec_capacity rows.old }
    requires before { HasRivals (front (carried_of table.now) first) rows.old.items }
    ensures { HasRivals (carried_of table.now) rows.new.items }
{
    push_rows(table, rows);
    mark_carriers(table, rows, table.rows.as_slice().split_at(first).1);
}

// Takes all blocks from one on out of a row.
fn cut_row(rows: &mut Vec<Row>, place: usize, blocks: u16)
    requires { place < length rows.old.items }
    ensures { rows.new.items ≡ slice_set rows.old.items place (members_below (row_of rows.old.items place) blocks) }
{
    let mut row = rows[place];
    row.clear_from(blocks);
    rows[place] = row;
}

// Leaves the first blocks in the rows of the first transactions.
pub(crate) fn cut_rows(rows: &mut Vec<Row>, left: usize, blocks: u16)
    requires { left ≤ length rows.old.items }
    ensures { AreCut left blocks left rows.old.items rows.new.items }
{
    rows.truncate(left);
    'rows: for place in 0..left {
        cut_row(rows, place, blocks);
    }
}
