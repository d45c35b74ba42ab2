//! Transactions and carriers by number, with what is looked up of them.

ghost use Rattle.std.specs.Prelude.{◌≡◌, ◌<◌, ◌↔◌, ◌^◌, ◌++◌, ◌∷◌, [], length, position, nat_eq, All, IsTrue, OnOk, OnErr, None};
ghost use Rattle.sp_ids.specs.declared.outpoint.Outpoint.{Outpoint};
ghost use Rattle.sp_tx.specs.Parts.{Transaction};
ghost use Rattle.sp_tx.specs.Spending.{id_of};
ghost use Rattle.sp_carry.specs.declared.carrier.Carrier.{Carrier};
ghost use Rattle.sp_carry.specs.Lookups.{kept_at, spenders_in, AreApart, IsNoted};
ghost use Rattle.sp_carry.specs.Carried.{Carried, carriers_in, nothing, number_of, with_tx, with_row};
ghost use Rattle.sp_carry.specs.Kept.{carried_of, IsKept, Keeps};

use crate::carrier::Carrier;
use crate::copies::copied;
use crate::ids::Ids;
use crate::numbers::Numbers;
use crate::spenders::Spenders;
use sp_ids::{Memory, Outpoint, TxId};
use sp_tx::{Input, Tx};
use std::alloc::Global;

// Transactions, each once, and carriers.
pub(crate) struct Table {
    pub(crate) blocks: u16,
    pub(crate) txs: Vec<Tx>,
    pub(crate) ids: Ids,
    pub(crate) rows: Vec<Carrier>,
    pub(crate) by_tx: Vec<Numbers>,
    pub(crate) spenders: Spenders,
}

// Written out, so that where carriers are let go there is one call, and not one for each table.
impl Drop for Table {
    fn drop(self) {
        let Table {
            blocks: _,
            txs: _,
            ids: _,
            rows: _,
            by_tx: _,
            spenders: _,
        } = self;
    }
}

// Notes the id and the inputs of a new transaction. After `Memory` all is as before.
fn note(
    ids: &mut Ids,
    spenders: &mut Spenders,
    alloc: Global,
    inputs: &[Input],
    id: TxId,
    number: u32,
) -> Result<(), Memory>
    requires fresh { position (nat_eq id) ids.old ≡ None }
    requires room { length ids.old < 2 ^ 32 }
    requires apart { AreApart inputs.now }
    requires below { (from : Outpoint) → All (λ m. m < number) (kept_at spenders.old.lists from) }
    ensures ids { OnOk result (ids.new ≡ ids.old ++ id ∷ []) }
    ensures inputs { OnOk result (IsNoted spenders.old.lists spenders.new.lists inputs.now number) }
    ensures err_ids { OnErr result (ids.new ≡ ids.old) }
    ensures err_inputs { OnErr result ((from : Outpoint) → kept_at spenders.new.lists from ≡ kept_at spenders.old.lists from) }
{
    ids.add(id)?;
    match spenders.add(alloc, inputs, number) {
        Ok(()) => Ok(()),
        Err(_) => {
            ids.pop();
            Err(Memory)
        }
    }
}

impl Table {
    // Nothing yet.
    pub(crate) fn new(alloc: Global) -> Table
        ensures { Keeps result nothing }
    {
        Table {
            blocks: 0,
            txs: Vec::new(alloc),
            ids: Ids::new(alloc),
            rows: Vec::new(alloc),
            by_tx: Vec::new(alloc),
            spenders: Spenders::new(alloc),
        }
    }

    // The number of the transaction of an id.
    pub(crate) fn tx_of(&self, id: &TxId) -> Option<u32>
        requires kept { IsKept self.now }
        requires small { length self.now.txs.items < 2 ^ 32 }
        ensures { result ≡ number_of (carried_of self.now) id.now }
    {
        self.ids.number_of(id)
    }

    // The carriers of a transaction.
    pub(crate) fn carriers_of(&self, tx: u32) -> &[u32]
        requires kept { IsKept self.now }
        requires tx { tx < length self.now.txs.items }
        ensures { result.now ≡ carriers_in self.now.rows.items tx }
    {
        self.by_tx[tx as usize].as_slice()
    }

    // The spenders of an outpoint.
    pub(crate) fn spenders_of(&self, from: &Outpoint) -> &[u32]
        requires { IsKept self.now }
        ensures { result.now ≡ spenders_in self.now.txs.items from.now }
    {
        self.spenders.of(from)
    }

    // Notes one more carrier of a transaction that is there. After `Memory` all is as before.
    pub(crate) fn carry_known(&mut self, row: Carrier) -> Result<(), Memory>
        requires kept { IsKept self.old }
        requires there { row.tx < length self.old.txs.items }
        requires room { length self.old.rows.items < 2 ^ 32 }
        ensures ok { OnOk result (Keeps self.new (with_row (carried_of self.old) row)) }
        ensures err { OnErr result (Keeps self.new (carried_of self.old)) }
    {
        let number = self.rows.len() as u32;
        self.rows.reserve(1)?;
        self.by_tx[row.tx as usize].push(number)?;
        self.rows.push_reserved(row);
        Ok(())
    }

    // Keeps a new transaction with its first carrier. After `Memory` all is as before.
    pub(crate) fn carry_new(
        &mut self,
        alloc: Global,
        tx: &Tx,
        id: TxId,
        row: Carrier,
    ) -> Result<(), Memory>
        requires kept { IsKept self.old }
        requires last { row.tx ≡ length self.old.txs.items }
        requires room { length self.old.rows.items < 2 ^ 32 }
        requires is { id ≡ id_of tx.now }
        requires fresh { number_of (carried_of self.old) id ≡ None }
        requires none { carriers_in self.old.rows.items row.tx ≡ [] }
        ensures ok { OnOk result (Keeps self.new (with_row (with_tx (carried_of self.old) tx.now) row)) }
        ensures err { OnErr result (Keeps self.new (carried_of self.old)) }
    {
        let number = self.rows.len() as u32;
        self.txs.reserve(1)?;
        self.by_tx.reserve(1)?;
        self.rows.reserve(1)?;
        let copy = copied(alloc, tx)?;
        let list = Numbers::one(alloc, number)?;
        let inputs = tx.inputs.as_slice();
        note(&mut self.ids, &mut self.spenders, alloc, inputs, id, row.tx)?;
        self.txs.push_reserved(copy);
        self.by_tx.push_reserved(list);
        self.rows.push_reserved(row);
        Ok(())
    }

    // Takes the last carrier back, and answers whether its transaction has none any more.
    pub(crate) fn drop_row(&mut self) -> bool
        requires kept { IsKept self.old }
        requires some { 0 < length self.old.rows.items }
        requires there { All (λ (r : Carrier). r.tx < length self.old.txs.items) self.old.rows.items }
        ensures kept { (k : Carried) (r : Carrier) → Keeps self.old (with_row k r) → Keeps self.new k }
        ensures left { (k : Carried) (r : Carrier) → Keeps self.old (with_row k r) →
            IsTrue result ↔ (carriers_in k.rows r.tx ≡ []) }
        ensures txs { self.new.txs.items ≡ self.old.txs.items }
    {
        match self.rows.pop() {
            Some(row) => self.by_tx[row.tx as usize].pop(),
            None => unreachable!(),
        }
    }

    // Takes the last transaction back, which has no carrier.
    pub(crate) fn drop_tx(&mut self)
        requires some { 0 < length self.old.txs.items }
        requires small { length self.old.txs.items < 2 ^ 32 }
        ensures { (k : Carried) (t : Transaction) → Keeps self.old (with_tx k t) →
            carriers_in k.rows (length k.txs) ≡ [] → Keeps self.new k }
    {
        match self.txs.pop() {
            Some(tx) => {
                let number = self.txs.len();
                self.by_tx.pop();
                self.ids.pop();
                self.spenders.take_back(tx.inputs.as_slice(), number as u32);
            }
            None => unreachable!(),
        }
    }
}
