//! What the inputs of a transaction are worth, and whether it is sound in the next block.

ghost use Rattle.std.specs.Prelude.{◌≡◌, ◌<◌, ◌≤◌, ◌^◌, All, List, length, sum_by};
ghost use Rattle.sp_model.specs.Graph.{past};
ghost use Rattle.sp_dag.specs.Numbered.{graph_of, IsNumbered};
ghost use Rattle.sp_tx.specs.declared.parts.Output.{Output};
ghost use Rattle.sp_carry.specs.declared.carrier.Carrier.{Carrier};
ghost use Rattle.sp_carry.specs.Payment.{payment_of, spent_by};
ghost use Rattle.sp_carry.specs.Ledger.{carried, is_sound};
ghost use Rattle.sp_carry.specs.Carried.{ledger_of, AreLinked};
ghost use Rattle.sp_carry.specs.Kept.{carried_of, IsKept};
ghost use Rattle.sp_carry.specs.Worth.{worth_in, worth_of};

use crate::past_carriers::output_below;
use crate::table::Table;
use sp_dag::Dag;
use sp_ids::Lock;
use sp_tx::{Input, Output, Tx};

// What an input is worth, where it names an output in the past of the next block and opens it.
fn worth_at(table: &Table, dag: &Dag, input: &Input) -> Option<u64>
    requires kept { IsKept table.now }
    requires linked { AreLinked (carried_of table.now) }
    requires small { length table.now.txs.items < 2 ^ 32 }
    requires number { table.now.blocks < length dag.now.parents }
    requires numbered { IsNumbered dag.now }
    requires rows { All (λ (r : Carrier). r.block < length dag.now.parents) table.now.rows.items }
    ensures { result ≡ worth_of (carried (ledger_of dag.now (carried_of table.now))
        (past (graph_of dag.now) table.now.blocks)) (spent_by input.now) }
{
    match output_below(table, dag, &input.from) {
        Some(output) => {
            if output.lock == Lock::of(input.preimage.as_slice()) {
                Some(output.amount)
            } else {
                None
            }
        }
        None => None,
    }
}

// What the inputs are worth, where each of them is found.
fn worth_below(table: &Table, dag: &Dag, inputs: &[Input]) -> Option<u128>
    requires kept { IsKept table.now }
    requires linked { AreLinked (carried_of table.now) }
    requires small { length table.now.txs.items < 2 ^ 32 }
    requires number { table.now.blocks < length dag.now.parents }
    requires numbered { IsNumbered dag.now }
    requires rows { All (λ (r : Carrier). r.block < length dag.now.parents) table.now.rows.items }
    requires few { length inputs.now ≤ 16 }
    ensures { result ≡ worth_in (carried (ledger_of dag.now (carried_of table.now))
        (past (graph_of dag.now) table.now.blocks)) inputs.now }
{
    let mut worth: u128 = 0;
    'inputs: for input in inputs {
        match worth_at(table, dag, input) {
            Some(amount) => worth += amount as u128,
            None => return None,
        }
    }
    Some(worth)
}

// What the outputs are worth.
fn paid(outputs: &[Output]) -> u128
    requires few { length outputs.now ≤ 16 }
    ensures { result ≡ sum_by (λ (o : Output). o.amount) outputs.now }
{
    let mut worth: u128 = 0;
    'outputs: for output in outputs {
        worth += output.amount as u128;
    }
    worth
}

// Whether the next block's carrier of a transaction is sound.
pub(crate) fn is_sound(table: &Table, dag: &Dag, tx: &Tx) -> bool
    requires kept { IsKept table.now }
    requires linked { AreLinked (carried_of table.now) }
    requires small { length table.now.txs.items < 2 ^ 32 }
    requires number { table.now.blocks < length dag.now.parents }
    requires numbered { IsNumbered dag.now }
    requires rows { All (λ (r : Carrier). r.block < length dag.now.parents) table.now.rows.items }
    ensures { result ≡ is_sound (ledger_of dag.now (carried_of table.now))
        table.now.blocks (payment_of tx.now) }
{
    if table.blocks == 0 {
        return true;
    }
    match worth_below(table, dag, tx.inputs.as_slice()) {
        Some(worth) => paid(tx.outputs.as_slice()) <= worth,
        None => false,
    }
}
