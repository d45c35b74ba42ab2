//! For each transaction the numbers of those that it spends, found once, when it is new.

ghost use Rattle.std.specs.Prelude.{◌≡◌, ◌<◌, ◌≤◌, ◌^◌, length, vec_capacity};
ghost use Rattle.sp_carry.specs.Kept.{IsKept};
ghost use Rattle.sp_carry.specs.Sources.{source_in, sources_among, AreSourced};

use crate::few::Few;
use crate::table::Table;
use sp_tx::Input;

// The number of the transaction that an input names, where it is lower than this one.
fn source_of(table: &Table, tx: u32, input: &Input) -> Option<u32>
    requires kept { IsKept table.now }
    requires small { length table.now.txs.items < 2 ^ 32 }
    ensures { result ≡ source_in table.now.txs.items tx input.now }
{
    match table.tx_of(&input.from.tx) {
        Some(number) => { if number < tx { Some(number) } else { None } }
        None => None,
    }
}

// Those of all inputs, where each of them has one.
fn sources_of(table: &Table, tx: u32, inputs: &[Input]) -> Few
    requires kept { IsKept table.now }
    requires small { length table.now.txs.items < 2 ^ 32 }
    requires few { length inputs.now ≤ 16 }
    ensures { result ≡ sources_among table.now.txs.items tx inputs.now }
{
    let mut list = Few::new();
    'inputs: for input in inputs {
        match source_of(table, tx, input) {
            Some(number) => list.push(number),
            None => return Few::new(),
        }
    }
    list
}

// Adds the lists of the transactions that have none, for which there is room.
pub(crate) fn push_sources(table: &Table, sources: &mut Vec<Few>)
    requires kept { IsKept table.now }
    requires small { length table.now.txs.items < 2 ^ 32 }
    requires short { length sources.old.items ≤ length table.now.txs.items }
    requires room { length table.now.txs.items ≤ vec_capacity sources.old }
    ensures { AreSourced table.now.txs.items sources.old.items sources.new.items (length table.now.txs.items) }
{
    'txs: for tx in sources.len()..table.txs.len() {
        let inputs = table.txs[tx].inputs.as_slice();
        sources.push_reserved(sources_of(table, tx as u32, inputs));
    }
}
