//! The sound carriers that conflict with a carrier, found by the spenders of its outpoints.

ghost use Rattle.std.specs.Prelude.{◌≡◌, ◌<◌, ℕ, All, length, IfOk, OnOk};
ghost use Rattle.std.specs.List.{list_any};
ghost use Rattle.sp_tx.specs.declared.parts.Input.{Input};
ghost use Rattle.sp_carry.specs.Carried.{AreLinked};
ghost use Rattle.sp_carry.specs.Kept.{carried_of, IsKept};
ghost use Rattle.sp_carry.specs.Rivals.{is_of_other, is_of_spender, is_sound_at, rivals_of, IsNotedBy};

use crate::carrier::Carrier;
use crate::sets::ascending;
use crate::table::Table;
use sp_ids::Memory;
use sp_tx::Input;
use std::alloc::{AllocError, Global};
use std::collections::BTreeSet;

// Notes a carrier, where it is sound.
fn note_if_sound(rows: &[Carrier], c: u32, into: &mut BTreeSet<u32>) -> Result<(), AllocError>
    requires { c < length rows.now }
    ensures { OnOk result (IsNotedBy (is_sound_at rows.now c) into.old into.new) }
{
    let row = rows[c as usize];
    if row.sound {
        into.insert(c)?;
    }
    Ok(())
}

// Notes the sound ones of these carriers.
fn note_sound(rows: &[Carrier], list: &[u32], into: &mut BTreeSet<u32>) -> Result<(), AllocError>
    requires { All (λ c. c < length rows.now) list.now }
    ensures { OnOk result (IsNotedBy (λ d. list_any (λ c. is_sound_at rows.now c d) list.now) into.old into.new) }
{
    'carriers: for c in list {
        note_if_sound(rows, *c, into)?;
    }
    Ok(())
}

// Notes the sound carriers of a transaction, unless it is this one.
fn note_other(
    table: &Table,
    tx: u32,
    other: u32,
    into: &mut BTreeSet<u32>,
) -> Result<(), AllocError>
    requires kept { IsKept table.now }
    requires other { other < length table.now.txs.items }
    ensures { OnOk result (IsNotedBy (is_of_other table.now.rows.items tx other) into.old into.new) }
{
    if other != tx {
        note_sound(&table.rows, table.carriers_of(other), into)?;
    }
    Ok(())
}

// Notes the sound carriers of the other transactions that spend what an input spends.
fn note_spenders(
    table: &Table,
    tx: u32,
    input: &Input,
    into: &mut BTreeSet<u32>,
) -> Result<(), AllocError>
    requires { IsKept table.now }
    ensures { OnOk result (IsNotedBy (is_of_spender table.now.txs.items table.now.rows.items tx input.now) into.old into.new) }
{
    let spenders = table.spenders_of(&input.from);
    'spenders: for other in spenders {
        note_other(table, tx, *other, into)?;
    }
    Ok(())
}

// Notes the sound carriers of the other transactions that spend what the inputs spend.
fn note_rivals(
    table: &Table,
    tx: u32,
    inputs: &[Input],
    into: &mut BTreeSet<u32>,
) -> Result<(), AllocError>
    requires { IsKept table.now }
    ensures { OnOk result (IsNotedBy (λ d. list_any
        (λ (i : Input). is_of_spender table.now.txs.items table.now.rows.items tx i d) inputs.now) into.old into.new) }
{
    'inputs: for input in inputs {
        note_spenders(table, tx, input, into)?;
    }
    Ok(())
}

// The sound carriers that conflict with a carrier, ascending.
pub(crate) fn rivals(alloc: Global, table: &Table, c: u32) -> Result<Vec<u32>, Memory>
    requires kept { IsKept table.now }
    requires linked { AreLinked (carried_of table.now) }
    requires there { c < length table.now.rows.items }
    ensures { IfOk result (λ list. list.items ≡ rivals_of (carried_of table.now) c) }
{
    let row = table.rows[c as usize];
    let inputs = table.txs[row.tx as usize].inputs.as_slice();
    let mut found = BTreeSet::new(alloc);
    note_rivals(table, row.tx, inputs, &mut found)?;
    Ok(ascending(alloc, &found)?)
}
