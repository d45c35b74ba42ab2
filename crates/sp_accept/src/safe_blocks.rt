//! Whether a rival is accepted in a block that isn't safe, which is one in the past where none stands in the
//! way from beside. Each other spender of an outpoint takes one test of a row.

ghost use Rattle.std.specs.Prelude.{◌≡◌, ◌<◌, length, IfOk};
ghost use Rattle.std.specs.List.{list_any};
ghost use Rattle.sp_accept.specs.AcceptedRows.{is_other_outside, is_spent_outside, AreAccepted};

use crate::accepted_rows::AcceptedRows;
use crate::lookups::spenders_of;
use sp_bits::Row;
use sp_carry::Carriers;
use sp_tx::Input;
use std::alloc::AllocError;

/// Whether another transaction than this one is accepted in a block that isn't safe.
fn is_other_outside(
    carriers: &Carriers,
    flags: &[bool],
    rows: &mut AcceptedRows,
    safe: &Row,
    tx: u32,
    other: u32,
) -> Result<bool, AllocError>
    requires other { other < length carriers.now.txs }
    requires kept { AreAccepted carriers.now flags.now rows.old.places.items rows.old.rows.items }
    ensures kept { AreAccepted carriers.now flags.now rows.new.places.items rows.new.rows.items }
    ensures any { IfOk result (λ any. any ≡ is_other_outside carriers.now flags.now safe.now tx other) }
{
    if other == tx {
        return Ok(false);
    }
    let any = rows.is_any_outside(carriers, flags, safe, other)?;
    Ok(any)
}

/// Whether another spender of what the input spends is.
fn is_spent_outside(
    carriers: &Carriers,
    flags: &[bool],
    rows: &mut AcceptedRows,
    safe: &Row,
    tx: u32,
    input: &Input,
) -> Result<bool, AllocError>
    requires kept { AreAccepted carriers.now flags.now rows.old.places.items rows.old.rows.items }
    ensures kept { AreAccepted carriers.now flags.now rows.new.places.items rows.new.rows.items }
    ensures any { IfOk result (λ any. any ≡ is_spent_outside carriers.now flags.now safe.now tx input.now) }
{
    let spenders = spenders_of(carriers, &input.from);
    'spenders: for other in spenders {
        if is_other_outside(carriers, flags, rows, safe, tx, *other)? {
            return Ok(true);
        }
    }
    Ok(false)
}

/// Whether another spender of what one of the inputs spends is.
pub(crate) fn is_any_outside(
    carriers: &Carriers,
    flags: &[bool],
    rows: &mut AcceptedRows,
    safe: &Row,
    tx: u32,
    inputs: &[Input],
) -> Result<bool, AllocError>
    requires kept { AreAccepted carriers.now flags.now rows.old.places.items rows.old.rows.items }
    ensures kept { AreAccepted carriers.now flags.now rows.new.places.items rows.new.rows.items }
    ensures any { IfOk result (λ any. any
        ≡ list_any (is_spent_outside carriers.now flags.now safe.now tx) inputs.now) }
{
    'inputs: for input in inputs {
        if is_spent_outside(carriers, flags, rows, safe, tx, input)? {
            return Ok(true);
        }
    }
    Ok(false)
}
