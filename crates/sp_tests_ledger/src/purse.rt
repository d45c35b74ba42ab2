//! What is left as blocks come and transactions are accepted and taken back, by the purse itself, where
//! an engine only applies what acceptance turns.

ghost use Rattle.std.specs.Bool.{OnTrue};
ghost use Rattle.std.specs.Prelude.{◌<◌, All, IfOk, OnOk};
ghost use Rattle.sp_carry.specs.declared.carrier.Flip.{Flip};
ghost use Rattle.sp_money.specs.Held.{IsOf};
ghost use Rattle.sp_engine.specs.Engine.{GoesOn};

use crate::left::{Left, OWNERS, Said, wrong};
use crate::payments::{chosen, tx_id, tx_ids};
use crate::purse_rows::{Held, PURSES, Step};
use crate::rows::right;
use sp_carry::{Carriers, Flip};
use sp_dag::Dag;
use sp_fixtures::graph;
use sp_ids::{Lock, Outpoint, TxId};
use sp_model::Profile;
use sp_money::Purse;
use sp_tx::Txs;
use std::alloc::Global;
use std::test::Fail;

/// Genesis and three blocks on it.
fn graph_of_four(alloc: Global) -> Result<Dag, Fail> {
    let mut dag = Dag::new(alloc, graph::id(0), 0, Profile::One)?;
    for new in 1u8..4 {
        graph::add(alloc, &mut dag, new, &[0])?;
    }
    Ok(dag)
}

/// Adds the carriers of the next block.
pub fn carry(dag: &Dag, carriers: &mut Carriers, txs: &Txs) -> Result<(), Fail>
    ensures { OnOk result (GoesOn carriers.old.txs carriers.new.txs) }
{
    let number = carriers.block_count();
    if number >= dag.len() || txs.as_slice().len() > 256 {
        return Err("no such block".into());
    }
    carriers.add(dag, number, txs)?;
    Ok(())
}

/// Whether each flip is of a transaction that is there.
fn are_within(flips: &[Flip], count: u32) -> bool
    ensures { OnTrue result (All (λ (flip : Flip). flip.tx < count) flips.now) }
{
    flips.iter().all(|flip| flip.tx < count)
}

fn lock_at(purse: &Purse, i: u32) -> Result<(Lock, u128), Fail> {
    if i >= purse.lock_count() {
        return Err("no such lock".into());
    }
    Ok(purse.lock_at(i))
}

fn listed(alloc: Global, purse: &Purse) -> Result<Vec<(Lock, u128)>, Fail> {
    let mut listed = Vec::new(alloc);
    for i in 0..purse.lock_count() {
        listed.push(lock_at(purse, i)?)?;
    }
    Ok(listed)
}

fn asked(alloc: Global, purse: &Purse) -> Result<Vec<u128>, Fail> {
    let mut asked = Vec::new(alloc);
    for owner in OWNERS {
        asked.push(purse.balance(&Lock::of(&[owner])))?;
    }
    Ok(asked)
}

pub fn said(alloc: Global, purse: &Purse) -> Result<Said, Fail> {
    Ok(Said {
        listed: listed(alloc, purse)?,
        asked: asked(alloc, purse)?,
    })
}

/// What is left under each lock, without the names.
fn left_of(alloc: Global, held: &[Held]) -> Result<Vec<Left>, Fail> {
    let mut left = Vec::new(alloc);
    for (owner, amount, _) in held {
        left.push((*owner, *amount))?;
    }
    Ok(left)
}

/// Whether each name is strictly above the one before.
fn do_ascend(names: &[Outpoint]) -> bool {
    let mut last: Option<Outpoint> = None;
    for name in names {
        if let Some(below) = last
            && !below.cmp(name).is_lt()
        {
            return false;
        }
        last = Some(*name);
    }
    true
}

/// Whether these are the names, ascending.
fn are_names(ids: &[TxId], found: &[Outpoint], names: &[(usize, u8)]) -> bool {
    found.len() == names.len()
        && do_ascend(found)
        && names.iter().all(|(tx, index)| {
            let name = Outpoint {
                tx: tx_id(ids, *tx),
                index: *index,
            };
            found.contains(&name)
        })
}

/// The names that a table has for an owner; none where it has nothing.
fn names_of(held: &[Held], owner: u8) -> &'static [(usize, u8)] {
    for (one, _, names) in held {
        if *one == owner {
            return *names;
        }
    }
    &[]
}

fn are_unspent(ids: &[TxId], purse: &Purse, held: &[Held]) -> Result<bool, Fail> {
    for owner in OWNERS {
        let found = purse.unspent(&Lock::of(&[owner]))?;
        if !are_names(ids, &found, names_of(held, owner)) {
            return Ok(false);
        }
    }
    Ok(true)
}

/// The payments by their ids, the carriers of some blocks, and a purse of their transactions.
struct Ledger {
    alloc: Global,
    ids: Vec<TxId>,
    dag: Dag,
    carriers: Carriers,
    purse: Purse,
}

// Written out, so that where it is let go there is one call.
impl Drop for Ledger {
    fn drop(self) {
        let Ledger {
            alloc: _,
            ids,
            dag,
            carriers,
            purse,
        } = self;
        drop(ids);
        drop(dag);
        drop(carriers);
        drop(purse);
    }
}

impl Ledger {
    /// Of no blocks.
    fn of(alloc: Global) -> Result<Ledger, Fail>
        ensures { IfOk result (λ ledger. IsOf ledger.carriers.txs ledger.purse) }
    {
        Ok(Ledger {
            alloc,
            ids: tx_ids(alloc)?,
            dag: graph_of_four(alloc)?,
            carriers: Carriers::new(alloc),
            purse: Purse::new(alloc),
        })
    }

    /// One block more, for which the purse is prepared.
    fn add(&mut self, numbers: &[usize]) -> Result<(), Fail>
        requires { IsOf self.old.carriers.txs self.old.purse }
        ensures { OnOk result (IsOf self.new.carriers.txs self.new.purse) }
    {
        let txs = chosen(self.alloc, &self.ids, numbers)?;
        carry(&self.dag, &mut self.carriers, &txs)?;
        self.purse.prepare(&self.carriers)?;
        Ok(())
    }

    /// Prepares the purse for what it is prepared for.
    fn prepare_again(&mut self) -> Result<(), Fail>
        requires { IsOf self.old.carriers.txs self.old.purse }
        ensures { OnOk result (IsOf self.new.carriers.txs self.new.purse) }
    {
        self.purse.prepare(&self.carriers)?;
        Ok(())
    }

    fn flip(&mut self, flips: &[Flip]) -> Result<(), Fail>
        requires { IsOf self.old.carriers.txs self.old.purse }
        ensures { OnOk result (IsOf self.new.carriers.txs self.new.purse) }
    {
        if !are_within(flips, self.carriers.tx_count()) {
            return Err("no such transaction".into());
        }
        self.purse.apply(&self.carriers, flips);
        Ok(())
    }

    /// What comes and turns in a step.
    fn turn(&mut self, step: &Step) -> Result<(), Fail>
        requires { IsOf self.old.carriers.txs self.old.purse }
        ensures { OnOk result (IsOf self.new.carriers.txs self.new.purse) }
    {
        'each_block: for numbers in step.carried {
            self.add(numbers)?;
        }
        self.flip(step.flips)
    }

    /// What is wrong with what the purse holds.
    fn wrong(&self, held: &[Held]) -> Result<&'static str, Fail> {
        let said = said(self.alloc, &self.purse)?;
        let left = left_of(self.alloc, held)?;
        let first = wrong(&said, &left);
        if first.is_empty() && !are_unspent(&self.ids, &self.purse, held)? {
            return Ok("unspent");
        }
        Ok(first)
    }

    /// What is wrong after a step, where to prepare again changes nothing.
    fn stepped(&mut self, step: &Step) -> Result<&'static str, Fail>
        requires { IsOf self.old.carriers.txs self.old.purse }
        ensures { OnOk result (IsOf self.new.carriers.txs self.new.purse) }
    {
        self.turn(step)?;
        let first = self.wrong(step.held)?;
        if !first.is_empty() {
            return Ok(first);
        }
        self.prepare_again()?;
        self.wrong(step.held)
    }

    /// What is wrong in the steps, the first of them that is.
    fn walked(&mut self, steps: &[Step]) -> Result<&'static str, Fail>
        requires { IsOf self.old.carriers.txs self.old.purse }
    {
        'steps: for step in steps {
            let wrong = self.stepped(step)?;
            if !wrong.is_empty() {
                return Ok(wrong);
            }
        }
        Ok("")
    }
}

fn wrong_in(alloc: Global, steps: &[Step]) -> Result<&'static str, Fail> {
    let mut ledger = Ledger::of(alloc)?;
    let wrong = ledger.walked(steps);
    drop(ledger);
    wrong
}

#[test]
fn what_a_purse_holds(rt: HostRuntime) -> Result<(), Fail> {
    for (place, steps) in PURSES.iter().enumerate() {
        right(&rt, place, wrong_in(rt.alloc(), steps)?);
    }
    Ok(())
}
