//! The blocks in which a transaction is accepted, as a row for each transaction that is asked about
//! while an update goes on. A row is filled when it is first asked for, and dropped where a carrier of
//! its transaction turns, so that no look at a carrier is made anew for each payment that it rivals.

ghost use Rattle.std.specs.Prelude.{◌≡◌, ◌<◌, [], ℕ, Bool, List, All, length, IfOk, OnOk, None, slice_index_or};
ghost use Rattle.std.specs.List.{list_any};
ghost use Rattle.sp_model.specs.Graph.{has};
ghost use Rattle.sp_carry.specs.Carried.{carriers_in, Carried};
ghost use Rattle.sp_carry.specs.RivalBlocks.{IsMarkedBy};
ghost use Rattle.sp_accept.specs.AcceptedRows.{has_accepted_in, is_accepted_in, stands_outside, AreAccepted};
ghost use Rattle.sp_accept.specs.Rows.{row_at};
ghost use Rattle.sp_accept.specs.Todo.{turned_at};

use crate::lookups::{carrier_at, carriers_of};
use crate::rival_blocks::put;
use sp_bits::Row;
use sp_carry::{Carriers, is_set};
use std::alloc::{AllocError, Global};

/// The rows of some transactions.
#[derive(Drop)]
pub(crate) struct AcceptedRows {
    /// Where the row of a transaction stands, by its number. Behind the last one no row is there.
    places: Vec<Option<usize>>,
    /// The rows, and such as were dropped.
    rows: Vec<Row>,
}

/// Marks the block of a carrier, where it is sound and accepted.
fn mark_if_accepted(carriers: &Carriers, flags: &[bool], c: u32, into: &mut Row)
    requires { c < length carriers.now.rows }
    ensures { IsMarkedBy (is_accepted_in carriers.now flags.now c) into.old into.new }
{
    // Tells the proof that there are at most 512 blocks.
    let _blocks = carriers.block_count();
    let row = carrier_at(carriers, c);
    if !is_set(flags, c) {
        return;
    }
    if row.sound {
        put(into, row.block);
    }
}

/// Marks the blocks of those of these carriers.
fn mark_accepted(carriers: &Carriers, flags: &[bool], list: &[u32], into: &mut Row)
    requires { All (λ c. c < length carriers.now.rows) list.now }
    ensures { IsMarkedBy (λ z. list_any (λ c. is_accepted_in carriers.now flags.now c z) list.now) into.old into.new }
{
    'carriers: for c in list {
        mark_if_accepted(carriers, flags, *c, into);
    }
}

/// The blocks in which a sound carrier of the transaction is accepted.
fn accepted_blocks(carriers: &Carriers, flags: &[bool], tx: u32) -> Row
    requires { tx < length carriers.now.txs }
    ensures { (z : ℕ) → has result z ≡ has_accepted_in carriers.now flags.now tx z }
{
    let mut row = Row::empty();
    mark_accepted(carriers, flags, carriers_of(carriers, tx), &mut row);
    row
}

/// The place of a number, none where it isn't there.
fn place_at(places: &[Option<usize>], tx: u32) -> Option<usize>
    ensures { result ≡ slice_index_or places.now tx None }
{
    match places.get(tx as usize) {
        Some(place) => *place,
        None => None,
    }
}

/// Adds places, with no row, up to that of a number.
fn grow_to(places: &mut Vec<Option<usize>>, tx: u32) -> Result<(), AllocError>
    ensures same { (u : ℕ) → slice_index_or places.new.items u None ≡ slice_index_or places.old.items u None }
    ensures there { OnOk result (tx < length places.new.items) }
{
    'places: while places.len() <= tx as usize {
        places.push(None)?;
    }
    Ok(())
}

impl AcceptedRows {
    /// Of no transaction.
    pub(crate) fn new(alloc: Global) -> AcceptedRows
        ensures { result.places.items ≡ [] }
    {
        AcceptedRows {
            places: Vec::new(alloc),
            rows: Vec::new(alloc),
        }
    }

    /// Fills the row of a transaction, and answers it.
    fn fill(&mut self, carriers: &Carriers, flags: &[bool], tx: u32) -> Result<Row, AllocError>
        requires tx { tx < length carriers.now.txs }
        requires kept { AreAccepted carriers.now flags.now self.old.places.items self.old.rows.items }
        ensures kept { AreAccepted carriers.now flags.now self.new.places.items self.new.rows.items }
        ensures row { IfOk result (λ row. (z : ℕ) → has row z ≡ has_accepted_in carriers.now flags.now tx z) }
    {
        let row = accepted_blocks(carriers, flags, tx);
        grow_to(&mut self.places, tx)?;
        let place = self.rows.len();
        self.rows.push(row)?;
        self.places[tx as usize] = Some(place);
        Ok(row)
    }

    /// The blocks in which a sound carrier of the transaction is accepted.
    fn row(&mut self, carriers: &Carriers, flags: &[bool], tx: u32) -> Result<Row, AllocError>
        requires tx { tx < length carriers.now.txs }
        requires kept { AreAccepted carriers.now flags.now self.old.places.items self.old.rows.items }
        ensures kept { AreAccepted carriers.now flags.now self.new.places.items self.new.rows.items }
        ensures row { IfOk result (λ row. (z : ℕ) → has row z ≡ has_accepted_in carriers.now flags.now tx z) }
    {
        match place_at(&self.places, tx) {
            Some(place) => Ok(self.rows[place]),
            None => self.fill(carriers, flags, tx),
        }
    }

    /// Whether a sound carrier of the transaction is accepted that stands in none of the row's blocks.
    pub(crate) fn is_any_outside(
        &mut self,
        carriers: &Carriers,
        flags: &[bool],
        safe: &Row,
        tx: u32,
    ) -> Result<bool, AllocError>
        requires tx { tx < length carriers.now.txs }
        requires kept { AreAccepted carriers.now flags.now self.old.places.items self.old.rows.items }
        ensures kept { AreAccepted carriers.now flags.now self.new.places.items self.new.rows.items }
        ensures any { IfOk result (λ any. any
            ≡ list_any (stands_outside carriers.now flags.now safe.now) (carriers_in carriers.now.rows tx)) }
    {
        let row = self.row(carriers, flags, tx)?;
        Ok(!row.within(safe))
    }

    /// Drops the row of a transaction of which a carrier turned.
    pub(crate) fn forget(&mut self, tx: u32)
        ensures { (k : Carried) (flags : List Bool) (c : ℕ) → tx ≡ (row_at k.rows c).tx →
            AreAccepted k flags self.old.places.items self.old.rows.items →
            AreAccepted k (turned_at flags c) self.new.places.items self.new.rows.items }
    {
        let place = tx as usize;
        if place < self.places.len() {
            self.places[place] = None;
        }
    }
}
