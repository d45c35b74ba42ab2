//! Whether a carrier is accepted, by rows of blocks: those in which its transaction has rivals, those
//! around its own block, and those in which other transactions are accepted. What it spends is looked at
//! one after another.

ghost use Rattle.std.specs.Prelude.{◌≡◌, ◌<◌, ◌&&◌, not, length, IfOk};
ghost use Rattle.std.specs.List.{list_all, list_any};
ghost use Rattle.sp_model.specs.Graph.{has};
ghost use Rattle.sp_carry.specs.RivalBlocks.{rival_blocks};
ghost use Rattle.sp_accept.specs.AcceptedRows.{is_spent_outside, AreAccepted};
ghost use Rattle.sp_accept.specs.Pass.{inputs_at, is_next};
ghost use Rattle.sp_accept.specs.Rows.{row_at, AreOf};
ghost use Rattle.sp_accept.specs.Witness.{Decide};

use crate::accepted_rows::AcceptedRows;
use crate::lookups::carrier_at;
use crate::order::Order;
use crate::rival_blocks::Around;
use crate::safe_blocks::is_any_outside;
use crate::sources::are_sources_accepted;
use sp_carry::Carriers;
use std::alloc::AllocError;

/// Whether a rival of the transaction stands in the way from beside.
fn is_beaten_beside(carriers: &Carriers, around: &Around, tx: u32) -> bool
    requires { tx < length carriers.now.txs }
    ensures { result ≡ not (list_all (has around.now.beaten) (rival_blocks carriers.now tx)) }
{
    !carriers.rival_blocks(tx).within(&around.beaten)
}

/// Whether a rival in the past stands in the way, where none does from beside.
fn is_outdone_below(
    carriers: &Carriers,
    flags: &[bool],
    rows: &mut AcceptedRows,
    around: &Around,
    tx: u32,
) -> Result<bool, AllocError>
    requires tx { tx < length carriers.now.txs }
    requires kept { AreAccepted carriers.now flags.now rows.old.places.items rows.old.rows.items }
    ensures kept { AreAccepted carriers.now flags.now rows.new.places.items rows.new.rows.items }
    ensures outdone { IfOk result (λ outdone. outdone ≡ (not (list_all (has around.now.safe) (rival_blocks carriers.now tx))
        && list_any (is_spent_outside carriers.now flags.now around.now.safe tx) (inputs_at carriers.now tx))) }
{
    if carriers.rival_blocks(tx).within(&around.safe) {
        return Ok(false);
    }
    let spender = carriers.tx(tx);
    let inputs = spender.inputs.as_slice();
    let any = is_any_outside(carriers, flags, rows, &around.safe, tx, inputs)?;
    Ok(any)
}

/// Whether the carrier of this number is accepted, where the flags say it of those before it.
pub(crate) fn is_next_by_rows<O: Order>(
    order: &O,
    carriers: &Carriers,
    flags: &[bool],
    rows: &mut AcceptedRows,
    around: &Around,
    c: u32,
) -> Result<bool, AllocError>
    requires of { AreOf (O.table order.now) carriers.now }
    requires c { c < length carriers.now.rows }
    requires around { Decide (O.table order.now) (row_at carriers.now.rows c).block
        (rival_blocks carriers.now (row_at carriers.now.rows c).tx) around.now.beaten around.now.safe }
    requires kept { AreAccepted carriers.now flags.now rows.old.places.items rows.old.rows.items }
    ensures kept { AreAccepted carriers.now flags.now rows.new.places.items rows.new.rows.items }
    ensures next { IfOk result (λ next. next ≡ is_next (O.table order.now) carriers.now flags.now c) }
{
    // Tells the proof what carriers are.
    let _blocks = carriers.block_count();
    let row = carrier_at(carriers, c);
    if !row.sound {
        return Ok(false);
    }
    if is_beaten_beside(carriers, around, row.tx) {
        return Ok(false);
    }
    if !are_sources_accepted(order, carriers, flags, row.block, row.tx) {
        return Ok(false);
    }
    let outdone = is_outdone_below(carriers, flags, rows, around, row.tx)?;
    Ok(!outdone)
}
