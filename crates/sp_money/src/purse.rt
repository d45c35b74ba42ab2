//! The public type: what the crates above see of unspent outputs and balances.

ghost use Rattle.std.specs.Prelude.{◌≡◌, ℕ, ◌-◌, ◌<◌, ◌≤◌, ◌++◌, [], All, List, Some, false, length, replicate, take, slice_get, IfOk, OnOk, OnErr};
ghost use Rattle.std.specs.List.Sorted.{IsPermutation, IsSorted};
ghost use Rattle.sp_ids.specs.Outpoints.{outpoint_cmp};
ghost use Rattle.sp_tx.specs.Parts.{Transaction};
ghost use Rattle.sp_carry.specs.Money.{balance_of};
ghost use Rattle.sp_carry.specs.declared.carrier.Flip.{Flip};
ghost use Rattle.sp_carry.specs.Flags.{is_set, with_flips};
ghost use Rattle.sp_money.specs.Accepted.{accepted_in};
ghost use Rattle.sp_money.specs.Held.{nothing, IsOf};
ghost use Rattle.sp_money.specs.Locks.{locks_of};
ghost use Rattle.sp_money.specs.Names.{names_under};

use crate::store::Store;
use sp_carry::{Carriers, Flip};
use sp_ids::{Lock, Memory, Outpoint};
use std::alloc::Global;
use std::marker::Model;

/// The outputs of the first transactions of some carriers, which of them are unspent, and what is
/// left under each lock.
///
/// Transactions and outputs are in the order of the transactions' numbers. Contracts see the outputs,
/// whether the transaction of each is accepted, by how many accepted ones each is spent, the locks,
/// each once at its first place, and a flag for each transaction that the purse is prepared for.
#[derive(Drop)]
pub struct Purse {
    alloc: Global,
    store: Store,
}

impl Model for Purse {
    ghost use Rattle.sp_money.specs.Held.{Held};
    ghost use Rattle.sp_money.specs.Kept.{held_of, IsEarly, IsKept};

    ghost Value = { Held };

    ghost view = { λ purse. held_of purse.store };

    ghost invariant = { λ purse. IsKept purse.store × IsEarly purse.store };
}

impl Purse {
    /// Of no transactions.
    pub fn new(alloc: Global) -> Purse
        ensures nothing { result ≡ nothing }
        ensures of { IsOf [] result }
    {
        Purse {
            alloc,
            store: Store::new(alloc),
        }
    }

    /// Makes an entry for each output and each lock of the transactions that are new since the last
    /// call, so that to apply flips takes no memory. None of the new ones is accepted yet; an accepted
    /// one may spend an output of theirs, and counts as its spender.
    ///
    /// The time is that of a look-up for each new output and its lock, and of one step for each
    /// transaction that spends one.
    ///
    /// # Errors
    ///
    /// Memory was refused; all is as before.
    pub fn prepare(&mut self, carriers: &Carriers) -> Result<(), Memory>
        requires few { length self.old.accepted ≤ length carriers.now.txs }
        requires of { IsOf (take (length self.old.accepted) carriers.now.txs) self.old }
        ensures of { OnOk result (IsOf carriers.now.txs self.new) }
        ensures accepted { OnOk result (self.new.accepted ≡ self.old.accepted
            ++ replicate (length carriers.now.txs - length self.old.accepted) false) }
        ensures err { OnErr result (self.new ≡ self.old) }
    {
        let slots = self.store.slots.len();
        let txs = self.store.accepted.len();
        let locks = self.store.locks.len();
        match self.store.add_txs(carriers) {
            Ok(()) => Ok(()),
            Err(Memory) => {
                self.store.take_back(slots, txs, locks);
                Err(Memory)
            }
        }
    }

    /// Leaves the first transactions, their outputs and the locks of these, of which there are as many
    /// as `lock_count` answered when they were all. None of the others is accepted.
    ///
    /// The time is that of a look-up for each lock that goes, and of one step for each output.
    pub fn cut(&mut self, txs: u32, locks: u32)
        requires within { txs ≤ length self.old.accepted }
        requires none { (tx : ℕ) → txs ≤ tx → is_set self.old.accepted tx ≡ false }
        requires of { (list : List Transaction) × IsOf list self.old
            × (locks ≡ length (locks_of (take txs list))) }
        ensures of { (list : List Transaction) → IsOf list self.old → IsOf (take txs list) self.new }
        ensures accepted { self.new.accepted ≡ take txs self.old.accepted }
    {
        self.store.cut(txs as usize, locks as usize);
    }

    /// Sets the flags of transactions, one after another, and keeps what is unspent up with them. A
    /// flip may say what is so already, and flips may stand in any order.
    ///
    /// The time is one step for each output of a transaction that turns and a look-up for each input,
    /// and no memory is taken.
    pub fn apply(&mut self, carriers: &Carriers, flips: &[Flip])
        requires of { IsOf carriers.now.txs self.old }
        requires within { All (λ (f : Flip). f.tx < length carriers.now.txs) flips.now }
        ensures of { IsOf carriers.now.txs self.new }
        ensures accepted { self.new.accepted ≡ with_flips self.old.accepted flips.now }
    {
        self.store.flip_all(carriers, flips);
    }

    /// What the accepted transactions leave under a lock, by one look-up. Where no output has the
    /// lock it is 0.
    pub fn balance(&self, lock: &Lock) -> u128
        ensures { (txs : List Transaction) → IsOf txs self.now →
            result ≡ balance_of (accepted_in txs self.now.accepted) lock.now }
    {
        match self.store.locks.number_of(lock) {
            Some(number) => self.store.total(number),
            None => 0,
        }
    }

    /// The names of the outputs under a lock that are unspent, ascending. It goes over all outputs
    /// once, and then takes the time of a sort of the answer.
    ///
    /// # Errors
    ///
    /// Memory was refused.
    pub fn unspent(&self, lock: &Lock) -> Result<Vec<Outpoint>, Memory>
        ensures names { IfOk result (λ names. (txs : List Transaction) → IsOf txs self.now →
            IsPermutation (names_under (accepted_in txs self.now.accepted) lock.now) names.items) }
        ensures ascending { IfOk result (λ names. IsSorted outpoint_cmp names.items) }
    {
        match self.store.locks.number_of(lock) {
            Some(number) => {
                let mut names = self.store.names_left(self.alloc, number)?;
                names.sort()?;
                Ok(names)
            }
            None => Ok(Vec::new(self.alloc)),
        }
    }

    /// How many locks the outputs have, each counted once, at most 2,097,152.
    pub fn lock_count(&self) -> u32
        ensures value { result ≡ length self.now.locks }
        ensures bound { result ≤ 2097152 }
    {
        self.store.locks.len() as u32
    }

    /// A lock, in the order of their first places, and what the accepted transactions leave under it,
    /// at once.
    pub fn lock_at(&self, number: u32) -> (Lock, u128)
        requires { number < length self.now.locks }
        ensures lock { slice_get self.now.locks number ≡ Some result.0 }
        ensures balance { (txs : List Transaction) → IsOf txs self.now →
            result.1 ≡ balance_of (accepted_in txs self.now.accepted) result.0 }
    {
        (self.store.locks.at(number), self.store.total(number))
    }
}
