//! The rows of a pool, by name, as sets of places. Here alone a view speaks of a row's words.

ghost use Rattle.std.specs.Prelude.{◌≡◌, ◌<◌, ◌≤◌, ◌+◌, ◌^◌, ◌==◌, ℕ, if◌then◌else◌, OnOk};
ghost use Rattle.sp_view.specs.Stored.{count_of, row_of, live, spare};

use sp_bits::Row;
use sp_ids::Memory;
use sp_rows::{RowId, RowPool};
use std::marker::Model;

/// The name of a row in a pool. Contracts see its number.
#[derive(Clone, Copy)]
pub struct RowName {
    pub(crate) id: RowId,
}

impl Model for RowName {
    ghost use Rattle.std.specs.Prelude.{ℕ};

    ghost Value = { ℕ };

    ghost view = { λ name. name.id.0 };

    ghost inverse = { λ number. record { id = record { 0 = number } } };
}

// The places of a row.
#[tactic(auto, unfolding(crate::specs::Stored::row_of))]
pub(crate) fn row_at(pool: &RowPool, row: RowName) -> Row
    requires { 0 < count_of pool.now row }
    ensures { result ≡ row_of pool.now row }
{
    Row::from_words(pool.words(row.id))
}

// How often a row is held.
pub(crate) fn holders(pool: &RowPool, row: RowName) -> u32
    requires { 0 < count_of pool.now row }
    ensures { result ≡ count_of pool.now row }
{
    pool.count(row.id)
}

// Writes a row that is held once.
pub(crate) fn put(pool: &mut RowPool, row: RowName, places: &Row)
    requires { count_of pool.old row ≡ 1 }
    ensures counts { (r : ℕ) → count_of pool.new r ≡ count_of pool.old r }
    ensures row { row_of pool.new row ≡ places.now }
    ensures rows { (r : ℕ) → (r ≡ row → ⊥) → row_of pool.new r ≡ row_of pool.old r }
    ensures spare { spare pool.new ≡ spare pool.old }
    ensures live { live pool.new ≡ live pool.old }
{
    // Tells the proof what rows a pool has.
    let _live = pool.live();
    pool.words_mut(row.id).copy_from_slice(places.words());
}

// A new row with these places.
pub(crate) fn taken(pool: &mut RowPool, places: &Row) -> RowName
    requires { 0 < spare pool.old }
    ensures fresh { count_of pool.old result ≡ 0 }
    ensures row { row_of pool.new result ≡ places.now }
    ensures counts { (r : ℕ) → count_of pool.new r ≡
        count_of pool.old r + (if r == result then 1 else 0) }
    ensures others { (r : ℕ) → 0 < count_of pool.old r → row_of pool.new r ≡ row_of pool.old r }
    ensures spare { spare pool.new + 1 ≡ spare pool.old }
    ensures live { live pool.new ≡ live pool.old + 1 }
{
    // Tells the proof what rows a pool has.
    let _live = pool.live();
    RowName {
        id: pool.take_words(places.words()),
    }
}

// One holder more.
pub(crate) fn share(pool: &mut RowPool, row: RowName)
    requires some { 0 < count_of pool.old row }
    requires few { count_of pool.old row + 1 < 2 ^ 32 }
    ensures counts { (r : ℕ) → count_of pool.new r ≡
        count_of pool.old r + (if r == row then 1 else 0) }
    ensures rows { (r : ℕ) → row_of pool.new r ≡ row_of pool.old r }
    ensures spare { spare pool.new ≡ spare pool.old }
    ensures live { live pool.new ≡ live pool.old }
{
    // Tells the proof what rows a pool has.
    let _live = pool.live();
    pool.share(row.id);
}

// One holder less. A row that nobody holds any more isn't live.
pub(crate) fn give(pool: &mut RowPool, row: RowName)
    requires { 0 < count_of pool.old row }
    ensures counts { (r : ℕ) → count_of pool.old r ≡
        count_of pool.new r + (if r == row then 1 else 0) }
    ensures rows { (r : ℕ) → 0 < count_of pool.new r → row_of pool.new r ≡ row_of pool.old r }
    ensures spare { spare pool.old ≤ spare pool.new }
    ensures live { live pool.new ≤ live pool.old }
    ensures shared { 1 < count_of pool.old row → live pool.new ≡ live pool.old }
{
    // Tells the proof what rows a pool has.
    let _live = pool.live();
    pool.give(row.id);
}
