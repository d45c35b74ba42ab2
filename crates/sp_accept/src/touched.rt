//! Which transactions turn where some carriers did, and their new flags. They are marked and then gone
//! over in their order, so that none is put into a set for each of its carriers that turned. Marks are
//! made from the lowest of them to the highest alone: mostly these are those of a new block.

ghost use Rattle.std.specs.Prelude.{◌≡◌, ◌<◌, ◌≤◌, ◌-◌, ◌==◌, ◌||◌, ◌++◌, ◌∷◌, [], ℕ, All, length, vec_capacity, cond, false, IfOk, OnOk, filter};
ghost use Rattle.std.specs.List.{list_any, range_with_len};
ghost use Rattle.sp_carry.specs.declared.carrier.Flip.{Flip};
ghost use Rattle.sp_carry.specs.Flags as meant;
ghost use Rattle.sp_carry.specs.Flags.{with_flips};
ghost use Rattle.sp_accept.specs.Flips.{flips_among};
ghost use Rattle.sp_accept.specs.Pass.{is_carried_flag};
ghost use Rattle.sp_accept.specs.Todo.{grown};
ghost use Rattle.sp_accept.specs.Rows.{row_at};

use crate::flags::grow;
use crate::flips::note;
use crate::lookups::carrier_at;
use crate::pass::is_any_accepted;
use sp_carry::{Carriers, Flip, is_set};
use std::alloc::{AllocError, Global};

/// A flag that isn't set for each of so many transactions.
fn no_flags(alloc: Global, txs: usize) -> Result<Vec<bool>, AllocError>
    ensures none { IfOk result (λ flags. (n : ℕ) → meant.is_set flags.items n ≡ false) }
    ensures long { IfOk result (λ flags. length flags.items ≡ txs) }
{
    let mut flags = Vec::with_capacity(alloc, txs)?;
    grow(&mut flags, txs);
    Ok(flags)
}

/// Sets the flag of a number.
fn mark(noted: &mut Vec<bool>, number: u32)
    requires { number < length noted.old.items }
    ensures noted { (n : ℕ) → meant.is_set noted.new.items n ≡ (meant.is_set noted.old.items n || (number == n)) }
    ensures long { length noted.new.items ≡ length noted.old.items }
{
    noted[number as usize] = true;
}

/// A number that none of the transactions of some carriers is below, the highest such one where there are any.
fn lowest_of(carriers: &Carriers, turned: &[u32]) -> u32
    requires { All (λ c. c < length carriers.now.rows) turned.now }
    ensures { All (λ c. result ≤ (row_at carriers.now.rows c).tx) turned.now }
{
    let mut first = u32::MAX;
    'turned: for c in turned {
        first = first.min(carrier_at(carriers, *c).tx);
    }
    first
}

/// A number that all transactions of some carriers are below, the lowest such one.
fn bound_of(carriers: &Carriers, turned: &[u32]) -> u32
    requires { All (λ c. c < length carriers.now.rows) turned.now }
    ensures within { result ≤ length carriers.now.txs }
    ensures all { All (λ c. (row_at carriers.now.rows c).tx < result) turned.now }
{
    // Tells the proof that there are few transactions.
    let _count = carriers.tx_count();
    let mut end = 0;
    'turned: for c in turned {
        end = end.max(carrier_at(carriers, *c).tx + 1);
    }
    end
}

/// A flag for each transaction of a span, set for those of some carriers.
fn noted_of(
    alloc: Global,
    carriers: &Carriers,
    turned: &[u32],
    first: u32,
    end: u32,
) -> Result<Vec<bool>, AllocError>
    requires known { All (λ c. c < length carriers.now.rows) turned.now }
    requires order { first ≤ end }
    requires low { All (λ c. first ≤ (row_at carriers.now.rows c).tx) turned.now }
    requires high { All (λ c. (row_at carriers.now.rows c).tx < end) turned.now }
    ensures { IfOk result (λ noted. (n : ℕ) → meant.is_set noted.items n
        ≡ list_any (λ c. (row_at carriers.now.rows c).tx - first == n) turned.now) }
{
    let mut noted = no_flags(alloc, (end - first) as usize)?;
    'turned: for c in turned {
        mark(&mut noted, carrier_at(carriers, *c).tx - first);
    }
    Ok(noted)
}

/// Notes a number, where the flag at its place is set.
fn note_number(
    list: &mut Vec<u32>,
    noted: &[bool],
    place: u32,
    number: u32,
) -> Result<(), AllocError>
    ensures { OnOk result (list.new.items
        ≡ list.old.items ++ cond (meant.is_set noted.now place) (number ∷ []) []) }
{
    if is_set(noted, place) {
        list.push(number)?;
    }
    Ok(())
}

/// The numbers of a span whose flags are set, ascending.
fn numbers_of(alloc: Global, noted: &[bool], first: u32, end: u32) -> Result<Vec<u32>, AllocError>
    requires { first ≤ end }
    ensures { IfOk result (λ list. list.items
        ≡ filter (λ tx. meant.is_set noted.now (tx - first)) (range_with_len first (end - first))) }
{
    let mut list = Vec::new(alloc);
    'numbers: for number in first..end {
        note_number(&mut list, noted, number - first, number)?;
    }
    Ok(list)
}

/// Each of these transactions whose flag differs, in their order, with its new one.
fn flips_of(
    alloc: Global,
    carriers: &Carriers,
    txs: &[u32],
    flags: &[bool],
    old: &[bool],
) -> Result<Vec<Flip>, AllocError>
    requires { All (λ tx. tx < length carriers.now.txs) txs.now }
    ensures { IfOk result (λ flips. flips.items
        ≡ flips_among old.now (is_carried_flag carriers.now flags.now) txs.now) }
{
    let mut flips = Vec::new(alloc);
    'txs: for tx in txs {
        note(
            &mut flips,
            *tx,
            is_set(old, *tx),
            is_any_accepted(carriers, flags, *tx),
        )?;
    }
    Ok(flips)
}

/// The transactions of the carriers that turned, whose own flag differs, ascending, with their new
/// ones.
pub(crate) fn turned_txs(
    alloc: Global,
    carriers: &Carriers,
    turned: &[u32],
    flags: &[bool],
    old: &[bool],
) -> Result<Vec<Flip>, AllocError>
    requires { All (λ c. c < length carriers.now.rows) turned.now }
    ensures known { IfOk result (λ flips.
        All (λ (flip : Flip). flip.tx < length carriers.now.txs) flips.items) }
    ensures flips { IfOk result (λ flips. flips.items ≡ flips_among old.now (is_carried_flag carriers.now flags.now)
        (filter (λ tx. list_any (λ c. (row_at carriers.now.rows c).tx == tx) turned.now) (range_with_len 0 (length carriers.now.txs)))) }
{
    // Tells the proof what carriers are.
    let _blocks = carriers.block_count();
    let end = bound_of(carriers, turned);
    let first = lowest_of(carriers, turned).min(end);
    let noted = noted_of(alloc, carriers, turned, first, end)?;
    let list = numbers_of(alloc, &noted, first, end)?;
    let flips = flips_of(alloc, carriers, &list, flags, old)?;
    Ok(flips)
}

/// Adds flags up to a length, for which there is room, and sets the new ones.
pub(crate) fn set_flips(txs: &mut Vec<bool>, long: usize, flips: &[Flip])
    requires short { length txs.old.items ≤ long }
    requires room { long ≤ vec_capacity txs.old }
    requires known { All (λ (flip : Flip). flip.tx < long) flips.now }
    ensures { txs.new.items ≡ with_flips (grown txs.old.items long) flips.now }
{
    grow(txs, long);
    'flips: for flip in flips {
        txs[flip.tx as usize] = flip.now;
    }
}
