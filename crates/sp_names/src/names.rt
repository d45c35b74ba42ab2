//! The names of blocks, transactions and locks.

ghost use Rattle.std.specs.Prelude.{◌≡◌, ◌≤◌, ◌<◌, IfOk, IfSome, length, OnErr, OnOk, slice_get, Some};
ghost use Rattle.std.specs.Option.{option_copied};
ghost use Rattle.std.specs.List.Sorted.{IsSorted};
ghost use Rattle.std.specs.Ordering.{nat_cmp};
ghost use Rattle.sp_names.specs.Labels.{AreAllLabels, in_order, name_of, named, no_labels, with_label};

use crate::labels::Labels;
use crate::name::Name;
use sp_ids::{BlockId, Lock, Memory, TxId};
use std::alloc::Global;
use std::marker::Model;

/// The names of blocks, transactions and locks, each in the order in which they were given. What
/// has a name keeps it: a second one changes nothing. Contracts see the three lists of labels.
pub struct Names {
    alloc: Global,
    blocks: Labels<BlockId>,
    txs: Labels<TxId>,
    locks: Labels<Lock>,
}

impl Model for Names {
    ghost use Rattle.sp_names.specs.Labels.{AllLabels, AreAllLabels};

    ghost Value = { AllLabels };

    ghost invariant = { λ names. AreAllLabels
        (record { blocks = names.blocks; txs = names.txs; locks = names.locks }) };

    ghost view = { λ names.
        record { blocks = names.blocks; txs = names.txs; locks = names.locks } };
}

// Written out, so that where names are let go there is one call, and not one for each of their parts.
impl Drop for Names {
    fn drop(self) {
        let Names {
            alloc: _,
            blocks,
            txs,
            locks,
        } = self;
        drop(blocks);
        drop(txs);
        drop(locks);
    }
}

impl Names {
    /// No names yet.
    pub fn new(alloc: Global) -> Names
        ensures { result ≡ no_labels }
    {
        Names {
            alloc,
            blocks: Labels::new(alloc),
            txs: Labels::new(alloc),
            locks: Labels::new(alloc),
        }
    }

    /// Names a block behind the others, unless it has a name. The time is that of a look-up in an
    /// ordered map.
    ///
    /// # Errors
    ///
    /// `Memory` where there was none for it; the names are as before.
    pub fn add_block(&mut self, id: BlockId, name: Name) -> Result<(), Memory>
        ensures ok { OnOk result
            (self.new ≡ record self.old { blocks = with_label self.old.blocks id name }) }
        ensures err { OnErr result (self.new ≡ self.old) }
    {
        // Tell the proof how long a name is.
        let _text = name.as_slice();
        self.blocks.add(id, name)
    }

    /// Names a transaction behind the others, unless it has a name. The time is that of a look-up in
    /// an ordered map.
    ///
    /// # Errors
    ///
    /// `Memory` where there was none for it; the names are as before.
    pub fn add_tx(&mut self, id: TxId, name: Name) -> Result<(), Memory>
        ensures ok { OnOk result
            (self.new ≡ record self.old { txs = with_label self.old.txs id name }) }
        ensures err { OnErr result (self.new ≡ self.old) }
    {
        let _text = name.as_slice();
        self.txs.add(id, name)
    }

    /// Names a lock behind the others, unless it has a name. The time is that of a look-up in an
    /// ordered map.
    ///
    /// # Errors
    ///
    /// `Memory` where there was none for it; the names are as before.
    pub fn add_lock(&mut self, lock: Lock, name: Name) -> Result<(), Memory>
        ensures ok { OnOk result
            (self.new ≡ record self.old { locks = with_label self.old.locks lock name }) }
        ensures err { OnErr result (self.new ≡ self.old) }
    {
        let _text = name.as_slice();
        self.locks.add(lock, name)
    }

    /// How many blocks have names. What holds of all names stands here, for each caller.
    pub fn block_count(&self) -> usize
        ensures count { result ≡ length self.now.blocks }
        ensures labels { AreAllLabels self.now }
    {
        self.blocks.len()
    }

    /// How many transactions have names. What holds of all names stands here, for each caller.
    pub fn tx_count(&self) -> usize
        ensures count { result ≡ length self.now.txs }
        ensures labels { AreAllLabels self.now }
    {
        self.txs.len()
    }

    /// How many locks have names. What holds of all names stands here, for each caller.
    pub fn lock_count(&self) -> usize
        ensures count { result ≡ length self.now.locks }
        ensures labels { AreAllLabels self.now }
    {
        self.locks.len()
    }

    /// The block that was named at a place, counted from 0 in the order of naming.
    pub fn block_at(&self, place: usize) -> BlockId
        requires { place < length self.now.blocks }
        ensures { slice_get (named self.now.blocks) place ≡ Some result }
    {
        self.blocks.key_at(place)
    }

    /// The transaction that was named at a place, counted from 0 in the order of naming.
    pub fn tx_at(&self, place: usize) -> TxId
        requires { place < length self.now.txs }
        ensures { slice_get (named self.now.txs) place ≡ Some result }
    {
        self.txs.key_at(place)
    }

    /// The lock that was named at a place, counted from 0 in the order of naming.
    pub fn lock_at(&self, place: usize) -> Lock
        requires { place < length self.now.locks }
        ensures { slice_get (named self.now.locks) place ≡ Some result }
    {
        self.locks.key_at(place)
    }

    /// The bytes of the name of a block, or `None` where it has none. The time is that of a look-up
    /// in an ordered map.
    pub fn block_name(&self, id: &BlockId) -> Option<&[u8]>
        ensures name { option_copied result ≡ name_of self.now.blocks id.now }
        ensures some { IfSome result (λ name. 1 ≤ length name.now) }
        ensures short { IfSome result (λ name. length name.now ≤ 64) }
    {
        self.blocks.name_of(id)
    }

    /// The bytes of the name of a transaction, or `None` where it has none. The time is that of a
    /// look-up in an ordered map.
    pub fn tx_name(&self, id: &TxId) -> Option<&[u8]>
        ensures name { option_copied result ≡ name_of self.now.txs id.now }
        ensures some { IfSome result (λ name. 1 ≤ length name.now) }
        ensures short { IfSome result (λ name. length name.now ≤ 64) }
    {
        self.txs.name_of(id)
    }

    /// The bytes of the name of a lock, or `None` where it has none. The time is that of a look-up
    /// in an ordered map.
    pub fn lock_name(&self, lock: &Lock) -> Option<&[u8]>
        ensures name { option_copied result ≡ name_of self.now.locks lock.now }
        ensures some { IfSome result (λ name. 1 ≤ length name.now) }
        ensures short { IfSome result (λ name. length name.now ≤ 64) }
    {
        self.locks.name_of(lock)
    }

    /// These blocks, which ascend, in the order of naming: those that have names, and behind them the
    /// others, ascending. The time is that of a look-up of each of the names and of each of these.
    ///
    /// # Errors
    ///
    /// `Memory` where there was none for them.
    pub fn blocks_in_order(&self, ids: &[BlockId]) -> Result<Vec<BlockId>, Memory>
        requires { IsSorted nat_cmp ids.now }
        ensures { IfOk result (λ ordered. ordered.items ≡ in_order self.now.blocks ids.now) }
    {
        let ordered = self.blocks.in_order(self.alloc, ids)?;
        Ok(ordered)
    }

    /// These transactions, which ascend, in the order of naming: those that have names, and behind them the
    /// others, ascending. The time is that of a look-up of each of the names and of each of these.
    ///
    /// # Errors
    ///
    /// `Memory` where there was none for them.
    pub fn txs_in_order(&self, ids: &[TxId]) -> Result<Vec<TxId>, Memory>
        requires { IsSorted nat_cmp ids.now }
        ensures { IfOk result (λ ordered. ordered.items ≡ in_order self.now.txs ids.now) }
    {
        let ordered = self.txs.in_order(self.alloc, ids)?;
        Ok(ordered)
    }

    /// These locks, which ascend, in the order of naming: those that have names, and behind them the
    /// others, ascending. The time is that of a look-up of each of the names and of each of these.
    ///
    /// # Errors
    ///
    /// `Memory` where there was none for them.
    pub fn locks_in_order(&self, locks: &[Lock]) -> Result<Vec<Lock>, Memory>
        requires { IsSorted nat_cmp locks.now }
        ensures { IfOk result (λ ordered. ordered.items ≡ in_order self.now.locks locks.now) }
    {
        let ordered = self.locks.in_order(self.alloc, locks)?;
        Ok(ordered)
    }
}
