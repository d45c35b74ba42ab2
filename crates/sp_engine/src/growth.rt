//! The growth by the blocks that become present: they join the graph and the votes with their
//! carriers, and then acceptance and the purse follow.

ghost use Rattle.std.specs.Prelude.{◌≡◌, ◌<◌, ◌≤◌, ◌+◌, ◌++◌, ℕ, List, false, length, take, All, IfOk, OnErr, OnOk};
ghost use Rattle.sp_tx.specs.Parts.{Transaction};
ghost use Rattle.sp_pool.specs.Kept.{Releases};
ghost use Rattle.sp_dag.specs.Numbered.{IsNumbered};
ghost use Rattle.sp_carry.specs.Flags.{is_set};
ghost use Rattle.sp_money.specs.Held.{IsOf};
ghost use Rattle.sp_money.specs.Locks.{locks_of};
ghost use Rattle.sp_accept.specs.Acceptance.{first_blocks};
ghost use Rattle.sp_accept.specs.Flips.{flips_of};
ghost use Rattle.sp_engine.specs.Engine.{AreNumbered, first_carried, first_numbered, GoesOn, IsAccepting, IsPaying, IsWider};
ghost use Rattle.sp_engine.specs.Told.{AreTold};
ghost use Rattle.sp_engine.specs.Votes.{AreFew, AreJoining, AreVoted, Grew, HaveJoined, IsAsBefore, Tallied};

use crate::acceptance::update;
use crate::numbering::add_all;
use crate::votes::{Before, Votes};
use sp_accept::Accepted;
use sp_carry::{Carriers, Flip};
use sp_dag::Dag;
use sp_ids::{BlockId, Memory, TxId};
use sp_money::Purse;
use sp_pool::Pool;

/// Adds the kept blocks of these ids, their votes and their carriers, makes the purse's room for them,
/// and decides on the carriers that may have changed. It answers what turned. No view from before is
/// let go.
///
/// # Errors
///
/// `Memory` where there was none; what was accepted stays, and some of the blocks are there.
fn decide(
    pool: &Pool,
    dag: &mut Dag,
    votes: &mut Votes,
    carriers: &mut Carriers,
    accepted: &mut Accepted,
    purse: &mut Purse,
    ids: &[BlockId],
    arrived: &BlockId,
    tx_ids: &[TxId],
    before: &mut Before,
) -> Result<Vec<Flip>, Memory>
    requires told { AreTold pool.now arrived.now tx_ids.now }
    requires numbered { AreNumbered pool.now dag.old }
    requires joined { (old : Tallied) × HaveJoined dag.old before.old.blocks old votes.old before.old.saved
        × (before.old.tips + 1 ≡ length old.views) × (before.old.sums ≡ old.sums) }
    requires blocks { before.old.blocks ≡ length dag.old.parents }
    requires accepting { IsAccepting pool.now dag.old carriers.old accepted.old }
    requires paying { IsPaying carriers.old accepted.old purse.old }
    requires order { Releases pool.now dag.old.ids ids.now }
    ensures in_order { OnOk result (IsNumbered dag.new) }
    ensures numbered { OnOk result (AreNumbered pool.now dag.new) }
    ensures profile { OnOk result (dag.new.profile ≡ dag.old.profile) }
    ensures ids { OnOk result (dag.new.ids ≡ dag.old.ids ++ ids.now) }
    ensures joined { OnOk result ((old : Tallied) →
        HaveJoined dag.old before.old.blocks old votes.old before.old.saved →
        before.old.tips + 1 ≡ length old.views → HaveJoined dag.new before.new.blocks old votes.new before.new.saved) }
    ensures err { OnErr result ((old : Tallied) →
        HaveJoined dag.old before.old.blocks old votes.old before.old.saved →
        before.old.tips + 1 ≡ length old.views → AreJoining dag.new before.new.blocks old votes.new before.new.saved) }
    ensures blocks { before.new.blocks ≡ before.old.blocks }
    ensures tips { before.new.tips ≡ before.old.tips }
    ensures since { before.new.since ≡ before.old.since }
    ensures members { before.new.members ≡ before.old.members }
    ensures sums { before.new.sums ≡ before.old.sums }
    ensures front { (n : ℕ) → n ≤ length dag.old.parents →
        first_numbered dag.new n ≡ first_numbered dag.old n }
    ensures first { (n : ℕ) → n ≤ carriers.old.blocks →
        first_carried carriers.new n ≡ first_carried carriers.old n }
    ensures accepting { OnOk result (IsAccepting pool.now dag.new carriers.new accepted.new) }
    ensures accepted { OnErr result (accepted.new ≡ accepted.old) }
    ensures flips { IfOk result (λ flips. flips.items
        ≡ flips_of accepted.old.txs accepted.new.txs (length carriers.new.txs)) }
    ensures known { IfOk result (λ flips.
        All (λ flip. flip.tx < length carriers.new.txs) flips.items) }
    ensures longer { carriers.old.blocks ≤ carriers.new.blocks }
    ensures more { OnOk result (GoesOn carriers.old.txs carriers.new.txs) }
    ensures of { OnOk result (IsOf carriers.new.txs purse.new) }
    ensures wider { IsWider carriers.old.txs purse.old purse.new }
{
    // Tells the proof what numbered blocks are.
    let _before = dag.len();
    let from = carriers.carrier_count();
    add_all(
        pool,
        dag,
        votes,
        carriers,
        before.tips,
        &mut before.saved,
        ids,
        arrived,
        tx_ids,
    )?;
    // Tells the proof what numbered blocks are.
    let _blocks = dag.len();
    let changed = votes.changes(dag, before)?;
    let changed = changed.as_slice();
    purse.prepare(carriers)?;
    update(dag, votes, carriers, changed, from, accepted)
}

/// Takes the blocks back that joined, with their votes and carriers, and what the purse has of them:
/// the first transactions and locks, so many of each, stay.
fn take_back(
    dag: &mut Dag,
    votes: &mut Votes,
    carriers: &mut Carriers,
    purse: &mut Purse,
    txs: u32,
    locks: u32,
    before: Before,
)
    requires some { 1 ≤ before.blocks }
    requires within { before.blocks ≤ length dag.old.parents }
    requires carried { before.blocks ≤ carriers.old.blocks }
    requires joining { (old : Tallied) × AreJoining dag.old before.blocks old votes.old before.saved
        × (before.tips + 1 ≡ length old.views) × (before.since ≡ old.since) × (before.sums ≡ old.sums) }
    requires members { before.members ≡ first_blocks before.blocks }
    requires accepted { txs ≤ length purse.old.accepted }
    requires none { (tx : ℕ) → txs ≤ tx → is_set purse.old.accepted tx ≡ false }
    requires of { (list : List Transaction) × IsOf list purse.old
        × (locks ≡ length (locks_of (take txs list))) }
    ensures dag { dag.new ≡ first_numbered dag.old before.blocks }
    ensures carriers { carriers.new ≡ first_carried carriers.old before.blocks }
    ensures votes { (old : Tallied) → AreJoining dag.old before.blocks old votes.old before.saved →
        before.tips + 1 ≡ length old.views → before.since ≡ old.since → before.sums ≡ old.sums →
        IsAsBefore old votes.new }
    ensures of { (list : List Transaction) → IsOf list purse.old → IsOf (take txs list) purse.new }
    ensures accepted { purse.new.accepted ≡ take txs purse.old.accepted }
{
    let blocks = before.blocks;
    purse.cut(txs, locks);
    carriers.cut(blocks);
    votes.take_back(dag, before);
    dag.cut(blocks);
}

/// Adds the kept blocks of these ids, which become present one after another, their votes and their
/// carriers, decides on the carriers that may have changed, and turns in the purse what turned. Every
/// call that may be refused memory comes before the first view from before is let go. The transactions
/// of the block that arrived have these ids.
///
/// # Errors
///
/// `Memory` where there was none; all is as before, but that more rows may be spare.
pub(crate) fn grow(
    pool: &Pool,
    dag: &mut Dag,
    votes: &mut Votes,
    carriers: &mut Carriers,
    accepted: &mut Accepted,
    purse: &mut Purse,
    ids: &[BlockId],
    arrived: &BlockId,
    tx_ids: &[TxId],
) -> Result<(), Memory>
    requires told { AreTold pool.now arrived.now tx_ids.now }
    requires numbered { AreNumbered pool.now dag.old }
    requires voted { AreVoted dag.old votes.old }
    requires accepting { IsAccepting pool.now dag.old carriers.old accepted.old }
    requires paying { IsPaying carriers.old accepted.old purse.old }
    requires order { Releases pool.now dag.old.ids ids.now }
    ensures in_order { OnOk result (IsNumbered dag.new) }
    ensures numbered { OnOk result (AreNumbered pool.now dag.new) }
    ensures profile { OnOk result (dag.new.profile ≡ dag.old.profile) }
    ensures ids { OnOk result (dag.new.ids ≡ dag.old.ids ++ ids.now) }
    ensures voted { OnOk result (AreVoted dag.new votes.new) }
    ensures few { OnOk result (AreFew votes.new) }
    ensures one { OnOk result (length ids.now ≡ 1 →
        (length dag.new.parents ≡ length dag.old.parents + 1)
        × Grew dag.new (length dag.old.parents) votes.old votes.new) }
    ensures accepting { OnOk result (IsAccepting pool.now dag.new carriers.new accepted.new) }
    ensures paying { OnOk result (IsPaying carriers.new accepted.new purse.new) }
    ensures dag { OnErr result (dag.new ≡ dag.old) }
    ensures votes { OnErr result (IsAsBefore votes.old votes.new) }
    ensures carriers { OnErr result (carriers.new ≡ carriers.old) }
    ensures accepted { OnErr result (accepted.new ≡ accepted.old) }
    ensures purse { OnErr result (IsPaying carriers.old accepted.old purse.new) }
{
    // Tells the proof what numbered blocks are.
    let _blocks = dag.len();
    let txs = carriers.tx_count();
    let locks = purse.lock_count();
    let mut before = votes.before(dag)?;
    match decide(
        pool,
        dag,
        votes,
        carriers,
        accepted,
        purse,
        ids,
        arrived,
        tx_ids,
        &mut before,
    ) {
        Ok(flips) => {
            purse.apply(carriers, flips.as_slice());
            votes.settle(dag, before);
            Ok(())
        }
        Err(refused) => {
            take_back(dag, votes, carriers, purse, txs, locks, before);
            Err(refused)
        }
    }
}
