//! Acceptance over the present blocks, where their votes say how two of them stand, and what it turns
//! in the purse.

ghost use Rattle.std.specs.Prelude.{◌≡◌, ◌<◌, All, length, IfOk, OnErr, OnOk};
ghost use Rattle.sp_accept.specs.Acceptance.{IsRight};
ghost use Rattle.sp_accept.specs.Changes.{carriers_below, TellsChanges};
ghost use Rattle.sp_accept.specs.Flips.{flips_of};
ghost use Rattle.sp_accept.specs.Rows.{AreOf};
ghost use Rattle.sp_engine.specs.Engine.{IsPaying, WasPaying};
ghost use Rattle.sp_engine.specs.Votes.{AreVoted, AreWhole};

use crate::votes::Votes;
use sp_accept::{Accepted, Order};
use sp_carry::{Carriers, Flip};
use sp_dag::Dag;
use sp_ids::Memory;
use sp_model::Word;
use sp_money::Purse;
use std::marker::Model;

/// The present blocks by number, in the order that the votes of all of them give. Contracts see these
/// blocks.
#[derive(Drop)]
struct VotedOrder<'a> {
    dag: &'a Dag,
    votes: &'a Votes,
}

impl<'a> Model for VotedOrder<'a> {
    ghost use Rattle.sp_dag.specs.Numbered.{Numbered};
    ghost use Rattle.sp_engine.specs.Votes.{AreWhole};

    ghost Value = { Numbered };

    ghost view = { λ o. o.dag.now };

    ghost invariant = { λ o. AreWhole o.dag.now o.votes.now };
}

impl<'a> Order for VotedOrder<'a> {
    ghost table = { λ o. o };

    fn before(&self, x: u16, y: u16) -> bool {
        matches!(self.votes.word(self.dag, x, y), Word::Before)
    }

    fn in_past(&self, x: u16, y: u16) -> bool {
        self.dag.in_past(x, y)
    }
}

/// Decides on the carriers that may have changed since the last decision, and answers what turned:
/// `changed` has the pairs of blocks on which the votes turned, and `from` is the number of the first
/// new carrier.
///
/// # Errors
///
/// `Memory` where there was none; what was accepted stays.
pub(crate) fn update(
    dag: &Dag,
    votes: &Votes,
    carriers: &Carriers,
    changed: &[(u16, u16)],
    from: u32,
    accepted: &mut Accepted,
) -> Result<Vec<Flip>, Memory>
    requires whole { AreWhole dag.now votes.now }
    requires of { AreOf dag.now carriers.now }
    requires right { IsRight dag.now carriers.now accepted.old }
    requires first { from ≡ carriers_below carriers.now.rows accepted.old.blocks }
    requires told { TellsChanges dag.now accepted.old.blocks changed.now }
    ensures right { OnOk result (IsRight dag.now carriers.now accepted.new) }
    ensures all { OnOk result (accepted.new.blocks ≡ carriers.now.blocks) }
    ensures flips { IfOk result (λ flips. flips.items
        ≡ flips_of accepted.old.txs accepted.new.txs (length carriers.now.txs)) }
    ensures known { IfOk result (λ flips. All (λ flip. flip.tx < length carriers.now.txs) flips.items) }
    ensures err { OnErr result (accepted.new ≡ accepted.old) }
{
    let order = VotedOrder { dag, votes };
    accepted.update(&order, carriers, changed, from)
}

/// Decides on the carriers that may have changed since the last decision, and turns in the purse what
/// turned: `changed` has the pairs of blocks on which the votes turned, and `from` is the number of the
/// first new carrier. The purse makes its room first, so that nothing fails once it is decided.
///
/// # Errors
///
/// `Memory` where there was none; what was accepted stays.
pub(crate) fn accept_all(
    dag: &Dag,
    votes: &Votes,
    carriers: &Carriers,
    changed: &[(u16, u16)],
    from: u32,
    accepted: &mut Accepted,
    purse: &mut Purse,
) -> Result<(), Memory>
    requires voted { AreVoted dag.now votes.now }
    requires of { AreOf dag.now carriers.now }
    requires right { IsRight dag.now carriers.now accepted.old }
    requires first { from ≡ carriers_below carriers.now.rows accepted.old.blocks }
    requires told { TellsChanges dag.now accepted.old.blocks changed.now }
    requires paying { WasPaying carriers.now accepted.old purse.old }
    ensures right { OnOk result (IsRight dag.now carriers.now accepted.new) }
    ensures all { OnOk result (accepted.new.blocks ≡ carriers.now.blocks) }
    ensures paying { OnOk result (IsPaying carriers.now accepted.new purse.new) }
    ensures err { OnErr result (accepted.new ≡ accepted.old) }
{
    // Tells the proof what carriers are.
    let _blocks = carriers.block_count();
    purse.prepare(carriers)?;
    let flips = update(dag, votes, carriers, changed, from, accepted)?;
    purse.apply(carriers, flips.as_slice());
    Ok(())
}
