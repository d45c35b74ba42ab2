//! The counts of a view's rows, when a view is forked, when one of its entries is saved, and when they are let go.

ghost use Rattle.std.specs.Prelude.{◌≡◌, ◌<◌, ◌≤◌, ◌+◌, ◌^◌, ℕ, [], length, take, vec_capacity};
ghost use Rattle.sp_view.specs.Stored.{count_of, row_of, live, spare};
ghost use Rattle.sp_view.specs.Views.{holds, held};

use crate::stored::{RowName, give, share};
use sp_rows::RowPool;

// One holder more of each row of an entry.
pub(crate) fn share_entry(pool: &mut RowPool, entry: Option<(RowName, RowName)>)
    requires some { (r : ℕ) → holds entry r ≤ count_of pool.old r }
    requires few { (r : ℕ) → 0 < holds entry r → count_of pool.old r + holds entry r < 2 ^ 32 }
    ensures counts { (r : ℕ) → count_of pool.new r ≡ count_of pool.old r + holds entry r }
    ensures rows { (r : ℕ) → row_of pool.new r ≡ row_of pool.old r }
    ensures spare { spare pool.new ≡ spare pool.old }
    ensures live { live pool.new ≡ live pool.old }
{
    if let Some((plus, minus)) = entry {
        share(pool, plus);
        share(pool, minus);
    }
}

// One holder less of each row of an entry.
pub(crate) fn give_entry(pool: &mut RowPool, entry: Option<(RowName, RowName)>)
    requires { (r : ℕ) → holds entry r ≤ count_of pool.old r }
    ensures counts { (r : ℕ) → count_of pool.old r ≡ count_of pool.new r + holds entry r }
    ensures rows { (r : ℕ) → 0 < count_of pool.new r →
        row_of pool.new r ≡ row_of pool.old r }
{
    if let Some((plus, minus)) = entry {
        give(pool, plus);
        give(pool, minus);
    }
}

// The same entries, with one holder more of each row.
pub(crate) fn share_entries(
    pool: &mut RowPool,
    entries: &[Option<(RowName, RowName)>],
    copy: &mut Vec<Option<(RowName, RowName)>>,
)
    requires empty { copy.old.items ≡ [] }
    requires room { length entries.now ≤ vec_capacity copy.old }
    requires some { (r : ℕ) → held entries.now r ≤ count_of pool.old r }
    requires few { (r : ℕ) → 0 < held entries.now r →
        count_of pool.old r + held entries.now r < 2 ^ 32 }
    ensures same { copy.new.items ≡ entries.now }
    ensures counts { (r : ℕ) → count_of pool.new r ≡ count_of pool.old r + held entries.now r }
    ensures rows { (r : ℕ) → row_of pool.new r ≡ row_of pool.old r }
    ensures live { live pool.new ≡ live pool.old }
{
    'entries: for i in 0..entries.len() {
        share_entry(pool, entries[i]);
        copy.push_reserved(entries[i]);
    }
}

// One holder less of each row of the entries from a place on.
pub(crate) fn give_from(pool: &mut RowPool, entries: &[Option<(RowName, RowName)>], start: usize)
    requires within { start ≤ length entries.now }
    requires live { (r : ℕ) → held entries.now r ≤ count_of pool.old r + held (take start entries.now) r }
    ensures counts { (r : ℕ) → count_of pool.old r + held (take start entries.now) r
        ≡ count_of pool.new r + held entries.now r }
    ensures rows { (r : ℕ) → 0 < count_of pool.new r →
        row_of pool.new r ≡ row_of pool.old r }
{
    'entries: for i in start..entries.len() {
        give_entry(pool, entries[i]);
    }
}

// One holder less of each row.
pub(crate) fn give_entries(pool: &mut RowPool, entries: &[Option<(RowName, RowName)>])
    requires { (r : ℕ) → held entries.now r ≤ count_of pool.old r }
    ensures counts { (r : ℕ) → count_of pool.old r ≡ count_of pool.new r + held entries.now r }
    ensures rows { (r : ℕ) → 0 < count_of pool.new r →
        row_of pool.new r ≡ row_of pool.old r }
{
    give_from(pool, entries, 0);
}
