//! Blocks with their carriers, and which of these are accepted: what the tests decide on, anew or by
//! what changed.

ghost use Rattle.std.specs.Prelude.{◌≡◌, ◌+◌, ℕ, List, OnOk, OnErr};
ghost use Rattle.sp_dag.specs.Numbered.{AreInOrder, IsNumbered, with_next};

use crate::changes::{carriers_below, changed};
use crate::voted::{VotedOrder, votes_of_first};
use sp_accept::Accepted;
use sp_carry::{Carriers, Flip};
use sp_fixtures::graph::check_new;
use sp_ids::{BlockId, TxId};
use sp_model::Profile;
use sp_money::Purse;
use sp_plain::Plain;
use sp_tx::Txs;
use std::alloc::Global;
use std::marker::Model;
use std::test::Fail;

/// Adds a block on others that are there.
fn stand(plain: &mut Plain, new: BlockId, parents: &[BlockId]) -> Result<(), Fail>
    ensures grown { OnOk result
        ((row : List ℕ) × (plain.new ≡ with_next plain.old new 0 row)) }
    ensures numbered { OnOk result (IsNumbered plain.old) }
    ensures order { OnOk result (AreInOrder plain.new.parents) }
    ensures err { OnErr result (plain.new ≡ plain.old) }
{
    let dag = plain.dag();
    // Tells the proof that the blocks are numbered.
    let _before = dag.len();
    check_new(dag, &new, parents)?;
    plain.add(new, 0, parents)?;
    // Tells the proof that the blocks stand in order.
    let _blocks = plain.dag().len();
    Ok(())
}

/// What is accepted by one decision on all carriers, and what that leaves.
pub struct Anew {
    pub accepted: Accepted,
    pub purse: Purse,
}

// Written out, as that of a ledger, so that where it is let go there is one call.
impl Drop for Anew {
    fn drop(self) {
        let Anew { accepted, purse } = self;
        drop(accepted);
        drop(purse);
    }
}

/// Blocks by number with their carriers, and which of these are accepted, as of the last decision:
/// then there were so many blocks. Contracts see how many blocks there are.
pub struct Ledger {
    alloc: Global,
    plain: Plain,
    carriers: Carriers,
    accepted: Accepted,
    decided: u16,
}

impl Model for Ledger {
    ghost use Rattle.std.specs.Prelude.{ℕ, length};
    ghost use Rattle.sp_tests_ledger.specs.Decided.{IsDecided};

    ghost Value = { ℕ };

    ghost view = { λ l. length l.plain.parents };

    ghost invariant = { λ l. IsDecided l.plain l.carriers l.accepted l.decided };
}

impl Drop for Ledger {
    fn drop(self) {
        let Ledger {
            alloc: _,
            plain,
            carriers,
            accepted,
            decided: _,
        } = self;
        drop(plain);
        drop(carriers);
        drop(accepted);
    }
}

impl Ledger {
    /// Genesis alone, of this id, without its carriers.
    pub fn of(alloc: Global, genesis: BlockId) -> Result<Ledger, Fail> {
        let plain = Plain::new(alloc, genesis, 0, Profile::One)?;
        let carriers = Carriers::new(alloc);
        // These tell the proof what always holds of a graph and of carriers.
        let _present = plain.dag().len();
        let _added = carriers.block_count();
        Ok(Ledger {
            alloc,
            plain,
            carriers,
            accepted: Accepted::new(alloc),
            decided: 0,
        })
    }

    /// How many blocks there are.
    pub fn blocks(&self) -> u16
        ensures { result ≡ self.now }
    {
        self.plain.dag().len()
    }

    /// Of how many of them the carriers were added.
    pub fn carried(&self) -> u16 {
        self.carriers.block_count()
    }

    fn stand(&mut self, new: BlockId, parents: &[BlockId]) -> Result<(), Fail>
        ensures { OnOk result (self.new ≡ self.old + 1) }
    {
        stand(&mut self.plain, new, parents)?;
        Ok(())
    }

    /// The next block carries these.
    pub fn carry(&mut self, txs: &Txs) -> Result<(), Fail>
        ensures { self.new ≡ self.old }
    {
        let number = self.carriers.block_count();
        if number >= self.plain.dag().len() || txs.as_slice().len() > 256 {
            return Err("no such block, or too many transactions".into());
        }
        self.carriers.add(self.plain.dag(), number, txs)?;
        // Tells the proof what always holds of carriers.
        let _added = self.carriers.block_count();
        Ok(())
    }

    /// Adds a block on others, which carries these.
    pub fn add(&mut self, new: BlockId, parents: &[BlockId], txs: &Txs) -> Result<(), Fail>
        ensures { OnOk result (self.new ≡ self.old + 1) }
    {
        self.stand(new, parents)?;
        self.carry(txs)
    }

    /// Decides on all carriers anew, and answers what turned.
    pub fn rebuild(&mut self) -> Result<Vec<Flip>, Fail>
        ensures { self.new ≡ self.old }
    {
        let count = self.carriers.block_count();
        if count != self.plain.dag().len() {
            return Err("a block without its carriers".into());
        }
        let votes = votes_of_first(&mut self.plain, count)?;
        let order = VotedOrder {
            dag: self.plain.dag(),
            votes: &votes,
        };
        let flips = self.accepted.rebuild(&order, &self.carriers)?;
        self.decided = count;
        Ok(flips)
    }

    /// Decides by what changed since the last decision, and answers what turned. It tells these pairs
    /// first, and then those on which the votes turned.
    pub fn update(&mut self, others: &[(u16, u16)]) -> Result<Vec<Flip>, Fail>
        ensures { self.new ≡ self.old }
    {
        let count = self.carriers.block_count();
        if count != self.plain.dag().len() {
            return Err("a block without its carriers".into());
        }
        let votes = votes_of_first(&mut self.plain, count)?;
        let changed = changed(self.alloc, &mut self.plain, &votes, self.decided, others)?;
        let from = carriers_below(&self.carriers, self.decided);
        let order = VotedOrder {
            dag: self.plain.dag(),
            votes: &votes,
        };
        let flips = self
            .accepted
            .update(&order, &self.carriers, &changed, from)?;
        self.decided = count;
        Ok(flips)
    }

    /// Decides on all carriers by a new acceptance, and pays by a new purse.
    pub fn anew(&mut self) -> Result<Anew, Fail>
        ensures { self.new ≡ self.old }
    {
        let count = self.carriers.block_count();
        if count != self.plain.dag().len() {
            return Err("a block without its carriers".into());
        }
        let votes = votes_of_first(&mut self.plain, count)?;
        let order = VotedOrder {
            dag: self.plain.dag(),
            votes: &votes,
        };
        let mut accepted = Accepted::new(self.alloc);
        let flips = accepted.rebuild(&order, &self.carriers)?;
        let mut purse = Purse::new(self.alloc);
        purse.prepare(&self.carriers)?;
        purse.apply(&self.carriers, flips.as_slice());
        Ok(Anew { accepted, purse })
    }

    /// Whether there are just so many carriers, of which these are accepted.
    pub fn are_carriers(&self, listed: &[bool]) -> bool {
        let mut c = 0u32;
        for flag in listed {
            if self.accepted.carrier_accepted(c) != *flag {
                return false;
            }
            c = c.wrapping_add(1);
        }
        self.carriers.carrier_count() == c && !self.accepted.carrier_accepted(c)
    }

    /// Whether there are just so many transactions, of which these are accepted.
    pub fn are_txs(&self, listed: &[bool]) -> bool {
        let mut tx = 0u32;
        for flag in listed {
            if self.accepted.is_accepted(tx) != *flag {
                return false;
            }
            tx = tx.wrapping_add(1);
        }
        self.carriers.tx_count() == tx && !self.accepted.is_accepted(tx)
    }

    /// Whether the same carriers and transactions are accepted as in another decision.
    pub fn is_same(&self, other: &Accepted) -> bool {
        for c in 0..self.carriers.carrier_count() {
            if self.accepted.carrier_accepted(c) != other.carrier_accepted(c) {
                return false;
            }
        }
        for tx in 0..self.carriers.tx_count() {
            if self.accepted.is_accepted(tx) != other.is_accepted(tx) {
                return false;
            }
        }
        true
    }

    /// The transactions in their order, and whether each is accepted.
    pub fn listed(&self) -> Result<Vec<(TxId, bool)>, Fail> {
        let mut listed = Vec::new(self.alloc);
        for tx in 0..self.carriers.tx_count() {
            listed.push((self.carriers.tx_id(tx), self.accepted.is_accepted(tx)))?;
        }
        Ok(listed)
    }
}
