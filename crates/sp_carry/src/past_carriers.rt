//! What the blocks in the past of the next block carry.

ghost use Rattle.std.specs.Prelude.{◌≡◌, ◌<◌, ◌^◌, All, length, slice_get};
ghost use Rattle.std.specs.List.{list_any};
ghost use Rattle.sp_model.specs.Graph.{in_past, past};
ghost use Rattle.sp_dag.specs.Numbered.{graph_of, AreInOrder};
ghost use Rattle.sp_carry.specs.declared.carrier.Carrier.{Carrier};
ghost use Rattle.sp_carry.specs.Payment.{output_at};
ghost use Rattle.sp_carry.specs.Ledger.{carried};
ghost use Rattle.sp_carry.specs.Carried.{ledger_of, AreLinked};
ghost use Rattle.sp_carry.specs.Kept.{carried_of, IsKept};
ghost use Rattle.sp_carry.specs.Worth.{block_at, outputs_or_none};

use crate::carrier::Carrier;
use crate::table::Table;
use sp_dag::Dag;
use sp_ids::Outpoint;
use sp_tx::{Output, Tx};

// Whether the carrier stands in the past of the block.
fn is_carrier_below(dag: &Dag, number: u16, rows: &[Carrier], c: u32) -> bool
    requires number { number < length dag.now.parents }
    requires c { c < length rows.now }
    requires rows { All (λ (r : Carrier). r.block < length dag.now.parents) rows.now }
    ensures { result ≡ in_past (graph_of dag.now) (block_at rows.now c) number }
{
    let row = rows[c as usize];
    dag.in_past(row.block, number)
}

// Whether one of these carriers stands in the past of the block.
fn is_any_below(dag: &Dag, number: u16, rows: &[Carrier], list: &[u32]) -> bool
    requires number { number < length dag.now.parents }
    requires list { All (λ c. c < length rows.now) list.now }
    requires rows { All (λ (r : Carrier). r.block < length dag.now.parents) rows.now }
    ensures { result ≡ list_any (λ c. in_past (graph_of dag.now) (block_at rows.now c) number) list.now }
{
    for c in list {
        if is_carrier_below(dag, number, rows, *c) {
            return true;
        }
    }
    false
}

// The output of a transaction at a place.
fn output_of(txs: &[Tx], tx: u32, index: u8) -> Option<Output>
    requires { tx < length txs.now }
    ensures { result ≡ slice_get (outputs_or_none (slice_get txs.now tx)) index }
{
    let tx = &txs[tx as usize];
    tx.outputs.as_slice().get(index as usize).copied()
}

// The output that an outpoint names, where a block in the past of the next block carries its
// transaction.
pub(crate) fn output_below(table: &Table, dag: &Dag, from: &Outpoint) -> Option<Output>
    requires kept { IsKept table.now }
    requires linked { AreLinked (carried_of table.now) }
    requires small { length table.now.txs.items < 2 ^ 32 }
    requires number { table.now.blocks < length dag.now.parents }
    requires order { AreInOrder dag.now.parents }
    requires rows { All (λ (r : Carrier). r.block < length dag.now.parents) table.now.rows.items }
    ensures { result ≡ output_at (carried (ledger_of dag.now (carried_of table.now))
        (past (graph_of dag.now) table.now.blocks)) from.now }
{
    match table.tx_of(&from.tx) {
        None => None,
        Some(tx) => {
            if is_any_below(dag, table.blocks, &table.rows, table.carriers_of(tx)) {
                output_of(&table.txs, tx, from.index)
            } else {
                None
            }
        }
    }
}
