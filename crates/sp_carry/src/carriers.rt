//! The public type: what the crates above see of transactions and carriers.

ghost use Rattle.std.specs.Prelude.{◌≡◌, ◌<◌, ◌≤◌, AllPairs, length, map, take, IfOk, IfSome, OnOk, OnErr, Some, slice_get};
ghost use Rattle.sp_tx.specs.Spending.{id_of};
ghost use Rattle.sp_carry.specs.Lookups.{spenders_in};
ghost use Rattle.sp_carry.specs.Carried.{carriers_in, cut_to, nothing, number_of, rows_of_first, tx_at, with_block, IsCarried};
ghost use Rattle.sp_carry.specs.Rivals.{rivals_of};
ghost use Rattle.sp_carry.specs.RivalBlocks.{rival_blocks};
ghost use Rattle.sp_carry.specs.Sources.{sources_in};

use crate::carrier::Carrier;
use crate::carry::carry_with_room;
use crate::few::Few;
use crate::rival_rows::{add_rows, cut_rows};
use crate::rivals::rivals;
use crate::sources::push_sources;
use crate::table::Table;
use sp_bits::Row;
use sp_dag::Dag;
use sp_ids::{Memory, Outpoint, TxId};
use sp_tx::{Tx, Txs};
use std::alloc::Global;
use std::marker::Model;

/// The transactions and carriers of the first blocks of a graph, at most 512 of them.
///
/// Transactions and carriers are numbered from 0 in the order of their blocks, and in a block in
/// that of their places. A transaction counts once, whatever number of blocks carries it. Where two
/// transactions have one id, which SHA-256 makes hard to find, both count as the first of them.
/// Contracts see the number of blocks, the transactions, and the carriers.
pub struct Carriers {
    alloc: Global,
    table: Table,
    rivals: Vec<Row>,
    sources: Vec<Few>,
}

// Written out, so that where carriers are let go there is one call.
impl Drop for Carriers {
    fn drop(self) {
        let Carriers {
            alloc: _,
            table: _,
            rivals: _,
            sources: _,
        } = self;
    }
}

impl Model for Carriers {
    ghost use Rattle.sp_carry.specs.Carried.{Carried, IsCarried};
    ghost use Rattle.sp_carry.specs.Growth.{IsBlockwise};
    ghost use Rattle.sp_carry.specs.Kept.{carried_of, IsKept};
    ghost use Rattle.sp_carry.specs.RivalBlocks.{HasRivals};
    ghost use Rattle.sp_carry.specs.Sources.{HasSources};

    ghost Value = { Carried };

    ghost view = { λ carriers. carried_of carriers.table };

    ghost invariant = { λ carriers.
        IsKept carriers.table × IsCarried (carried_of carriers.table) × IsBlockwise (carried_of carriers.table)
        × HasRivals (carried_of carriers.table) carriers.rivals.items
        × HasSources carriers.table.txs.items carriers.sources.items };
}

// How many of the carriers, from the first, stand in the first blocks.
fn rows_below(rows: &[Carrier], blocks: u16) -> usize
    requires { AllPairs (λ (r s : Carrier). r.block ≤ s.block) rows.now }
    ensures within { result ≤ length rows.now }
    ensures first { take result rows.now ≡ rows_of_first blocks rows.now }
{
    let mut left = rows.len();
    'rows: while 0 < left && blocks <= rows[left - 1].block {
        left -= 1;
    }
    left
}

// The ids of these transactions.
fn ids_of(alloc: Global, txs: &[Tx]) -> Result<Vec<TxId>, Memory>
    ensures { IfOk result (λ ids. ids.items ≡ map id_of txs.now) }
{
    let mut ids = Vec::with_capacity(alloc, txs.len())?;
    'txs: for tx in txs {
        ids.push(sp_tx::id(alloc, tx)?)?;
    }
    Ok(ids)
}

impl Carriers {
    /// Those of no block.
    pub fn new(alloc: Global) -> Carriers
        ensures { result ≡ nothing }
    {
        Carriers {
            alloc,
            table: Table::new(alloc),
            rivals: Vec::new(alloc),
            sources: Vec::new(alloc),
        }
    }

    /// Adds the carriers of the next block of the graph, which has these transactions. Each is
    /// sound as the definition says, over the blocks in its past; a transaction whose id is known
    /// is the one that is known.
    ///
    /// The time is that of each transaction's id, and then that of `add_with_ids`.
    ///
    /// # Errors
    ///
    /// Memory was refused; all is as before.
    pub fn add(&mut self, dag: &Dag, number: u16, txs: &Txs) -> Result<(), Memory>
        requires next { self.old.blocks ≡ number }
        requires there { number < length dag.now.parents }
        requires few { length txs.now ≤ 256 }
        ensures ok { OnOk result (self.new ≡ with_block dag.now self.old txs.now) }
        ensures err { OnErr result (self.new ≡ self.old) }
    {
        let ids = ids_of(self.alloc, txs.as_slice())?;
        self.add_with_ids(dag, number, txs, ids.as_slice())
    }

    /// Adds the carriers of the next block of the graph, which has these transactions. Each is
    /// sound as the definition says, over the blocks in its past; a transaction whose id is known
    /// is the one that is known. The transactions have these ids, so none is hashed.
    ///
    /// The time is that of a look-up for each transaction and two for each of its inputs, of one step for each
    /// carrier of a transaction that an input names, and of one for each other transaction that spends
    /// what an input does, or, where the transaction is new, for each carrier of that one.
    ///
    /// # Errors
    ///
    /// Memory was refused; all is as before.
    pub fn add_with_ids(
        &mut self,
        dag: &Dag,
        number: u16,
        txs: &Txs,
        ids: &[TxId],
    ) -> Result<(), Memory>
        requires ids { ids.now ≡ map id_of txs.now }
        requires next { self.old.blocks ≡ number }
        requires there { number < length dag.now.parents }
        requires few { length txs.now ≤ 256 }
        ensures ok { OnOk result (self.new ≡ with_block dag.now self.old txs.now) }
        ensures err { OnErr result (self.new ≡ self.old) }
    {
        // This call's contract says what a graph always is.
        let _blocks = dag.len();
        let first = self.table.rows.len();
        match carry_with_room(
            &mut self.table,
            &mut self.rivals,
            &mut self.sources,
            self.alloc,
            dag,
            txs.as_slice(),
            ids,
        ) {
            Ok(()) => {
                add_rows(&self.table, &mut self.rivals, first);
                push_sources(&self.table, &mut self.sources);
                self.table.blocks = number + 1;
                Ok(())
            }
            Err(Memory) => {
                self.table.take_back(first);
                Err(Memory)
            }
        }
    }

    /// Leaves what stood after the first blocks. The time is that of a look-up for each carrier that
    /// goes and each of its transaction's inputs, and of a few steps for each transaction that stays.
    pub fn cut(&mut self, blocks: u16)
        requires { blocks ≤ self.old.blocks }
        ensures { self.new ≡ cut_to self.old blocks }
    {
        let left = rows_below(&self.table.rows, blocks);
        self.table.take_back(left);
        let count = self.table.txs.len();
        cut_rows(&mut self.rivals, count, blocks);
        self.sources.truncate(count);
        self.table.blocks = blocks;
    }

    /// How many transactions there are, at most 131,072.
    pub fn tx_count(&self) -> u32
        ensures value { result ≡ length self.now.txs }
        ensures bound { result ≤ 131072 }
    {
        self.table.txs.len() as u32
    }

    /// The number of the transaction of an id, by one look-up.
    pub fn tx_of(&self, id: &TxId) -> Option<u32>
        ensures value { result ≡ number_of self.now id.now }
        ensures within { IfSome result (λ tx. tx < length self.now.txs) }
    {
        self.table.tx_of(id)
    }

    /// The id of a transaction.
    pub fn tx_id(&self, tx: u32) -> TxId
        requires { tx < length self.now.txs }
        ensures { result ≡ id_of (tx_at self.now tx) }
    {
        self.table.ids.at(tx)
    }

    /// A transaction.
    pub fn tx(&self, tx: u32) -> &Tx
        requires { tx < length self.now.txs }
        ensures { result.now ≡ tx_at self.now tx }
    {
        &self.table.txs[tx as usize]
    }

    /// How many blocks were added. What always holds of their transactions and carriers stands
    /// here, for each caller.
    pub fn block_count(&self) -> u16
        ensures value { result ≡ self.now.blocks }
        ensures carried { IsCarried self.now }
    {
        self.table.blocks
    }

    /// How many carriers there are, at most 131,072.
    pub fn carrier_count(&self) -> u32
        ensures value { result ≡ length self.now.rows }
        ensures bound { result ≤ 131072 }
    {
        self.table.rows.len() as u32
    }

    /// A carrier.
    pub fn carrier(&self, c: u32) -> Carrier
        requires { c < length self.now.rows }
        ensures { slice_get self.now.rows c ≡ Some result }
    {
        self.table.rows[c as usize]
    }

    /// The numbers of a transaction's carriers, ascending. There is at least one.
    pub fn carriers_of(&self, tx: u32) -> &[u32]
        requires { tx < length self.now.txs }
        ensures { result.now ≡ carriers_in self.now.rows tx }
    {
        self.table.carriers_of(tx)
    }

    /// The numbers of the transactions that spend an outpoint, sound or not, ascending, by one
    /// look-up. Its time is logarithmic, whatever outpoints strangers choose.
    pub fn spenders_of(&self, from: &Outpoint) -> &[u32]
        ensures { result.now ≡ spenders_in self.now.txs from.now }
    {
        self.table.spenders_of(from)
    }

    /// The blocks in which a sound carrier conflicts with the transaction, at once.
    pub fn rival_blocks(&self, tx: u32) -> &Row
        requires { tx < length self.now.txs }
        ensures { result.now ≡ rival_blocks self.now tx }
    {
        let row = &self.rivals[tx as usize];
        // Tells the proof what a row is.
        let _there = row.test(0);
        row
    }

    /// The numbers of the transactions that the inputs of this one name, in their order, at once. There
    /// are none where one of them has no number that is lower than its own, as where a transaction
    /// came before what it spends.
    pub fn sources_of(&self, tx: u32) -> &[u32]
        requires { tx < length self.now.txs }
        ensures { result.now ≡ sources_in self.now.txs tx }
    {
        self.sources[tx as usize].as_slice()
    }

    /// The numbers of the sound carriers that conflict with a carrier, in whatever block they
    /// stand, ascending. The time is in proportion to the carriers of the transactions that spend
    /// one of its outpoints, and not to all carriers.
    ///
    /// # Errors
    ///
    /// Memory was refused.
    pub fn conflicts_of(&self, c: u32) -> Result<Vec<u32>, Memory>
        requires { c < length self.now.rows }
        ensures { IfOk result (λ list. list.items ≡ rivals_of self.now c) }
    {
        rivals(self.alloc, &self.table, c)
    }
}
