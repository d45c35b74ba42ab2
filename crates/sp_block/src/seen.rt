//! What the rules look back at: the ids of a block's earlier transactions, and the outpoints that
//! they spend.

ghost use Rattle.std.specs.Prelude.{◌≡◌, ◌++◌, [], List, map, OnOk};
ghost use Rattle.std.specs.BTreeSet.{contains};
ghost use Rattle.std.specs.List.{list_any};
ghost use Rattle.sp_form.specs.Form.{first_broken};
ghost use Rattle.sp_ids.specs.Outpoints.{outpoint_cmp};
ghost use Rattle.sp_tx.specs.Parts.{Transaction};
ghost use Rattle.sp_tx.specs.Spending.{id_of};
ghost use Rattle.sp_block.specs.Format as format;
ghost use Rattle.sp_block.specs.Format.{carried_rules, with_tx};
ghost use Rattle.sp_block.specs.Seen.{fault_in, HasOutpoints, Saw};
ghost use Rattle.sp_ids.specs.declared.outpoint.Outpoint.{Outpoint};

use crate::fault::BlockFault;
use sp_ids::{Outpoint, TxId};
use sp_tx::{Input, Tx};
use std::alloc::{AllocError, Global};
use std::collections::BTreeSet;

/// The ids and outpoints of transactions, for look-ups in logarithmic time.
#[derive(Drop)]
pub(crate) struct Seen {
    ids: BTreeSet<TxId>,
    outpoints: BTreeSet<Outpoint>,
}

fn is_spent(outpoints: &BTreeSet<Outpoint>, inputs: &[Input]) -> bool
    ensures { result ≡ list_any (λ input. contains outpoint_cmp outpoints.now input.from) inputs.now }
{
    inputs.iter().any(|input| outpoints.contains(&input.from))
}

fn add_outpoints(outpoints: &mut BTreeSet<Outpoint>, inputs: &[Input]) -> Result<(), AllocError>
    ensures { OnOk result ((spent : List Outpoint) → HasOutpoints outpoints.old spent
        → HasOutpoints outpoints.new (spent ++ map (λ input. input.from) inputs.now)) }
{
    'inputs: for input in inputs {
        outpoints.insert(input.from)?;
    }
    Ok(())
}

fn fits_kind(genesis: bool, tx: &Tx) -> bool
    ensures { result ≡ format.fits_kind genesis tx.now }
{
    let is_grant = tx.inputs.as_slice().is_empty();
    if genesis { is_grant } else { !is_grant }
}

impl Seen {
    /// Nothing yet.
    pub(crate) fn new(alloc: Global) -> Seen
        ensures { Saw result [] }
    {
        Seen {
            ids: BTreeSet::new(alloc),
            outpoints: BTreeSet::new(alloc),
        }
    }

    /// The first rule that a transaction breaks, given those before it.
    pub(crate) fn judge(&self, genesis: bool, tx: &Tx, id: &TxId) -> Result<(), BlockFault>
        requires { id.now ≡ id_of tx.now }
        ensures { (earlier : List Transaction) → Saw self.now earlier
            → fault_in result ≡ first_broken (carried_rules genesis earlier tx.now) }
    {
        if !fits_kind(genesis, tx) {
            return Err(BlockFault::Grant);
        }
        if self.ids.contains(id) {
            return Err(BlockFault::SameTx);
        }
        if is_spent(&self.outpoints, tx.inputs.as_slice()) {
            return Err(BlockFault::SameOutpoint);
        }
        Ok(())
    }

    /// Notes a transaction, too.
    pub(crate) fn add(&mut self, tx: &Tx, id: TxId) -> Result<(), AllocError>
        requires { id ≡ id_of tx.now }
        ensures { OnOk result ((earlier : List Transaction) → Saw self.old earlier
            → Saw self.new (with_tx earlier tx.now)) }
    {
        self.ids.insert(id)?;
        add_outpoints(&mut self.outpoints, tx.inputs.as_slice())
    }
}
