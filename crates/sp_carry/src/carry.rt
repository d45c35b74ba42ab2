//! Carriers of the next block, one by one, and how the last ones are taken back.

ghost use Rattle.std.specs.Prelude.{◌≡◌, ◌<◌, ◌≤◌, ◌+◌, ◌^◌, ℕ, length, map, take, vec_capacity, OnOk, OnErr};
ghost use Rattle.sp_tx.specs.Spending.{id_of};
ghost use Rattle.sp_dag.specs.Numbered.{IsNumbered};
ghost use Rattle.sp_carry.specs.Carried.{Carried, with_carrier, with_carriers, AreLinked};
ghost use Rattle.sp_carry.specs.Growth.{front, AreInTurn, HasRoom};
ghost use Rattle.sp_carry.specs.Kept.{carried_of, IsKept, Keeps};

use crate::carrier::Carrier;
use crate::few::Few;
use crate::table::Table;
use crate::worth::is_sound;
use sp_bits::Row;
use sp_dag::Dag;
use sp_ids::{Memory, TxId};
use sp_tx::Tx;
use std::alloc::{AllocError, Global};

impl Table {
    // One more carrier in the next block. After `Memory` all is as before.
    fn carry(&mut self, alloc: Global, dag: &Dag, tx: &Tx, id: TxId) -> Result<(), Memory>
        requires is { id ≡ id_of tx.now }
        requires kept { IsKept self.old }
        requires room { HasRoom dag.now 1 (carried_of self.old) }
        requires numbered { IsNumbered dag.now }
        ensures ok { OnOk result (Keeps self.new (with_carrier dag.now (carried_of self.old) tx.now)) }
        ensures err { OnErr result (Keeps self.new (carried_of self.old)) }
    {
        let block = self.blocks;
        match self.tx_of(&id) {
            Some(number) => {
                let sound = is_sound(self, dag, &self.txs[number as usize]);
                self.carry_known(Carrier {
                    block,
                    tx: number,
                    sound,
                })
            }
            None => {
                let number = self.txs.len() as u32;
                let sound = is_sound(self, dag, tx);
                self.carry_new(
                    alloc,
                    tx,
                    id,
                    Carrier {
                        block,
                        tx: number,
                        sound,
                    },
                )
            }
        }
    }

    // The next block's carriers, of transactions that have these ids. After `Memory` some of them are
    // there.
    pub(crate) fn carry_all(
        &mut self,
        alloc: Global,
        dag: &Dag,
        txs: &[Tx],
        ids: &[TxId],
    ) -> Result<(), Memory>
        requires ids { ids.now ≡ map id_of txs.now }
        requires kept { IsKept self.old }
        requires room { HasRoom dag.now (length txs.now) (carried_of self.old) }
        requires numbered { IsNumbered dag.now }
        ensures ok { OnOk result (Keeps self.new (with_carriers dag.now (carried_of self.old) txs.now)) }
        ensures err { OnErr result ((count : ℕ) × Keeps self.new (with_carriers dag.now (carried_of self.old) (take count txs.now))) }
    {
        'txs: for place in 0..txs.len() {
            self.carry(alloc, dag, &txs[place], ids[place])?;
        }
        Ok(())
    }

    // Takes the last carrier back, and its transaction where it was the only one.
    fn drop_carrier(&mut self)
        requires kept { IsKept self.old }
        requires linked { AreLinked (carried_of self.old) }
        requires some { 0 < length self.old.rows.items }
        requires few { length self.old.txs.items < 2 ^ 32 }
        ensures { (k : Carried) (n : ℕ) → AreLinked k → AreInTurn 0 k.rows → n < length k.rows →
            Keeps self.old (front k (n + 1)) → Keeps self.new (front k n) }
    {
        if self.drop_row() {
            self.drop_tx();
        }
    }

    // Takes the last carriers back, down to a number of them.
    pub(crate) fn take_back(&mut self, first: usize)
        requires kept { IsKept self.old }
        requires linked { AreLinked (carried_of self.old) }
        requires turn { AreInTurn 0 self.old.rows.items }
        requires few { length self.old.txs.items < 2 ^ 32 }
        requires within { first ≤ length self.old.rows.items }
        ensures { Keeps self.new (front (carried_of self.old) first) }
    {
        'rows: while self.rows.len() > first {
            self.drop_carrier();
        }
    }
}

// Takes memory for a row and a list of each of so many transactions.
fn make_room(rows: &mut Vec<Row>, sources: &mut Vec<Few>, count: usize) -> Result<(), AllocError>
    ensures room { OnOk result (count ≤ vec_capacity rows.new) }
    ensures same { rows.new.items ≡ rows.old.items }
    ensures room_sources { OnOk result (count ≤ vec_capacity sources.new) }
    ensures same_sources { sources.new.items ≡ sources.old.items }
{
    rows.reserve(count.saturating_sub(rows.len()))?;
    sources.reserve(count.saturating_sub(sources.len()))
}

// The next block's carriers, of transactions that have these ids, and room for a row and a list of each
// transaction. After `Memory` some of the carriers are there.
pub(crate) fn carry_with_room(
    table: &mut Table,
    rows: &mut Vec<Row>,
    sources: &mut Vec<Few>,
    alloc: Global,
    dag: &Dag,
    txs: &[Tx],
    ids: &[TxId],
) -> Result<(), Memory>
    requires ids { ids.now ≡ map id_of txs.now }
    requires kept { IsKept table.old }
    requires room { HasRoom dag.now (length txs.now) (carried_of table.old) }
    requires numbered { IsNumbered dag.now }
    ensures ok { OnOk result (Keeps table.new (with_carriers dag.now (carried_of table.old) txs.now)) }
    ensures room { OnOk result (length table.new.txs.items ≤ vec_capacity rows.new) }
    ensures same { rows.new.items ≡ rows.old.items }
    ensures room_sources { OnOk result (length table.new.txs.items ≤ vec_capacity sources.new) }
    ensures same_sources { sources.new.items ≡ sources.old.items }
    ensures err { OnErr result ((count : ℕ) × Keeps table.new (with_carriers dag.now (carried_of table.old) (take count txs.now))) }
{
    table.carry_all(alloc, dag, txs, ids)?;
    match make_room(rows, sources, table.txs.len()) {
        Ok(()) => Ok(()),
        Err(_) => Err(Memory),
    }
}
