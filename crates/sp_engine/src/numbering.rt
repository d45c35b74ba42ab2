//! The numbering of the blocks that become present, in their order, with their votes and carriers.

ghost use Rattle.std.specs.Prelude.{◌≡◌, ◌<◌, ◌≤◌, ◌+◌, ◌++◌, ◌∷◌, [], ℕ, List, length, map, IfOk, IsTrue, OnErr, OnOk};
ghost use Rattle.sp_tx.specs.Spending.{id_of};
ghost use Rattle.sp_pool.specs.Kept.{IsNext, Releases};
ghost use Rattle.sp_carry.specs.Carried.{with_block};
ghost use Rattle.sp_accept.specs.Acceptance.{Acceptance, IsRight};
ghost use Rattle.sp_accept.specs.Changes.{carriers_below, TellsChanges};
ghost use Rattle.sp_engine.specs.Engine.{AreCarried, AreNumbered, first_carried, first_numbered, GoesOn};
ghost use Rattle.sp_engine.specs.Told.{AreTold};
ghost use Rattle.sp_engine.specs.Votes.{AreJoining, HaveJoined, Tallied};

use crate::votes::Votes;
use sp_carry::Carriers;
use sp_dag::Dag;
use sp_ids::{BlockId, Memory, TxId};
use sp_pool::Pool;
use sp_tx::Txs;
use sp_view::Saved;

/// Adds the carriers of the next block, which has these transactions. Where their ids are known, they
/// are these.
fn carry(
    dag: &Dag,
    carriers: &mut Carriers,
    number: u16,
    txs: &Txs,
    tx_ids: &[TxId],
    known: bool,
) -> Result<(), Memory>
    requires next { carriers.old.blocks ≡ number }
    requires there { number < length dag.now.parents }
    requires few { length txs.now ≤ 256 }
    requires ids { IsTrue known → tx_ids.now ≡ map id_of txs.now }
    ensures ok { OnOk result (carriers.new ≡ with_block dag.now carriers.old txs.now) }
    ensures err { OnErr result (carriers.new ≡ carriers.old) }
{
    if known {
        carriers.add_with_ids(dag, number, txs, tx_ids)
    } else {
        carriers.add(dag, number, txs)
    }
}

/// Adds the kept block of this id, which is the earliest one that is ready, its votes and its
/// carriers. The views of so many tips from before stay, and what the view of all blocks was is saved.
/// The transactions of the block that arrived have these ids.
fn add_one(
    pool: &Pool,
    dag: &mut Dag,
    votes: &mut Votes,
    carriers: &mut Carriers,
    tips: usize,
    saved: &mut Saved,
    id: &BlockId,
    arrived: &BlockId,
    tx_ids: &[TxId],
) -> Result<(), Memory>
    requires told { AreTold pool.now arrived.now tx_ids.now }
    requires numbered { AreNumbered pool.now dag.old }
    requires joined { (n : ℕ) × (old : Tallied) × HaveJoined dag.old n old votes.old saved.old
        × (tips + 1 ≡ length old.views) }
    requires carried { AreCarried pool.now dag.old carriers.old }
    requires next { IsNext pool.now dag.old.ids id.now }
    ensures numbered { OnOk result (AreNumbered pool.now dag.new) }
    ensures profile { OnOk result (dag.new.profile ≡ dag.old.profile) }
    ensures ids { OnOk result (dag.new.ids ≡ dag.old.ids ++ id.now ∷ []) }
    ensures long { OnOk result (length dag.new.parents ≡ length dag.old.parents + 1) }
    ensures joined { OnOk result ((n : ℕ) (old : Tallied) →
        HaveJoined dag.old n old votes.old saved.old → tips + 1 ≡ length old.views →
        HaveJoined dag.new n old votes.new saved.new) }
    ensures err { OnErr result ((n : ℕ) (old : Tallied) →
        HaveJoined dag.old n old votes.old saved.old → tips + 1 ≡ length old.views →
        AreJoining dag.new n old votes.new saved.new) }
    ensures front { (n : ℕ) → n ≤ length dag.old.parents →
        first_numbered dag.new n ≡ first_numbered dag.old n }
    ensures first { (n : ℕ) → n ≤ carriers.old.blocks →
        first_carried carriers.new n ≡ first_carried carriers.old n }
    ensures carried { OnOk result (AreCarried pool.now dag.new carriers.new) }
    ensures more { OnOk result (GoesOn carriers.old.txs carriers.new.txs) }
    ensures right { OnOk result ((a : Acceptance) → IsRight dag.old carriers.old a →
        IsRight dag.new carriers.new a) }
    ensures longer { carriers.old.blocks ≤ carriers.new.blocks }
    ensures below { OnOk result ((n : ℕ) → n ≤ carriers.old.blocks →
        carriers_below carriers.new.rows n ≡ carriers_below carriers.old.rows n) }
{
    // Tell the proof what kept and numbered blocks are.
    let _kept = pool.kept();
    let _blocks = dag.len();
    match pool.block(id) {
        Some(block) => {
            let number = dag.add(*id, block.salt, block.parents.as_slice())?;
            // Tells the proof what numbered blocks are.
            let _more = dag.len();
            votes.add(dag, tips, saved)?;
            carry(dag, carriers, number, &block.txs, tx_ids, id == arrived)?;
            // Tells the proof what carriers are.
            let _added = carriers.block_count();
            Ok(())
        }
        None => unreachable!(),
    }
}

/// Adds the kept blocks of these ids, which become present one after another, their votes and their
/// carriers. The views of so many tips from before stay, and what the view of all blocks was is saved.
/// The transactions of the block that arrived have these ids.
///
/// # Errors
///
/// Memory was refused; some of them are there.
pub(crate) fn add_all(
    pool: &Pool,
    dag: &mut Dag,
    votes: &mut Votes,
    carriers: &mut Carriers,
    tips: usize,
    saved: &mut Saved,
    ids: &[BlockId],
    arrived: &BlockId,
    tx_ids: &[TxId],
) -> Result<(), Memory>
    requires told { AreTold pool.now arrived.now tx_ids.now }
    requires numbered { AreNumbered pool.now dag.old }
    requires joined { (n : ℕ) × (old : Tallied) × HaveJoined dag.old n old votes.old saved.old
        × (tips + 1 ≡ length old.views) }
    requires carried { AreCarried pool.now dag.old carriers.old }
    requires order { Releases pool.now dag.old.ids ids.now }
    ensures numbered { OnOk result (AreNumbered pool.now dag.new) }
    ensures profile { OnOk result (dag.new.profile ≡ dag.old.profile) }
    ensures ids { OnOk result (dag.new.ids ≡ dag.old.ids ++ ids.now) }
    ensures joined { OnOk result ((n : ℕ) (old : Tallied) →
        HaveJoined dag.old n old votes.old saved.old → tips + 1 ≡ length old.views →
        HaveJoined dag.new n old votes.new saved.new) }
    ensures err { OnErr result ((n : ℕ) (old : Tallied) →
        HaveJoined dag.old n old votes.old saved.old → tips + 1 ≡ length old.views →
        AreJoining dag.new n old votes.new saved.new) }
    ensures front { (n : ℕ) → n ≤ length dag.old.parents →
        first_numbered dag.new n ≡ first_numbered dag.old n }
    ensures first { (n : ℕ) → n ≤ carriers.old.blocks →
        first_carried carriers.new n ≡ first_carried carriers.old n }
    ensures longer { carriers.old.blocks ≤ carriers.new.blocks }
    ensures carried { OnOk result (AreCarried pool.now dag.new carriers.new) }
    ensures more { OnOk result (GoesOn carriers.old.txs carriers.new.txs) }
    ensures right { OnOk result ((a : Acceptance) → IsRight dag.old carriers.old a →
        IsRight dag.new carriers.new a) }
    ensures below { OnOk result ((n : ℕ) → n ≤ carriers.old.blocks →
        carriers_below carriers.new.rows n ≡ carriers_below carriers.old.rows n) }
{
    for id in ids {
        add_one(pool, dag, votes, carriers, tips, saved, id, arrived, tx_ids)?;
    }
    Ok(())
}
