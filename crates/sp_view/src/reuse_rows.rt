//! How an entry goes home when an arrival is kept: what it has now is written into the rows that it had before, where
//! nobody else holds these, nor those that were taken for them. So rows that were taken one after another mostly stay
//! neighbours in memory when they change.

ghost use Rattle.std.specs.Prelude.{◌≡◌, ◌<◌, ◌≤◌, ◌+◌, ◌⊎◌, ◌&&◌, ◌==◌, ℕ, if◌then◌else◌, Some};
ghost use Rattle.sp_view.specs.Homes.{AreAlike, AreRowsHome, IsHome, IsOnceHome};
ghost use Rattle.sp_view.specs.Stored.{count_of, row_of};
ghost use Rattle.sp_view.specs.Views.{holds};

use crate::sharing::give_entry;
use crate::stored::{RowName, give, holders, put, row_at};
use sp_rows::RowPool;

// The row that a view has now goes home, to the id of the one that it had, where each is held once. Elsewhere it stays.
// The other is let go.
fn home(pool: &mut RowPool, was: RowName, now: RowName) -> RowName
    requires { (r : ℕ) → holds (Some (was, now)) r ≤ count_of pool.old r }
    ensures id { (result ≡ now) ⊎ ((result ≡ was) × (count_of pool.old was ≡ 1)) }
    ensures home { result ≡ (if count_of pool.old was == 1 && count_of pool.old now == 1 then was else now) }
    ensures row { row_of pool.new result ≡ row_of pool.old now }
    ensures counts { (r : ℕ) → count_of pool.new r + holds (Some (was, now)) r
        ≡ count_of pool.old r + (if r == result then 1 else 0) }
    ensures rows { (r : ℕ) → (if r == was then 1 else 0) < count_of pool.old r →
        0 < count_of pool.new r → row_of pool.new r ≡ row_of pool.old r }
{
    if holders(pool, was) > 1 || holders(pool, now) > 1 {
        give(pool, was);
        return now;
    }
    let row = row_at(pool, now);
    put(pool, was, &row);
    give(pool, now);
    was
}

// The rows of an entry once an arrival is kept, by those that were saved, which are let go.
fn rows_home(
    pool: &mut RowPool,
    saved: (RowName, RowName),
    entry: (RowName, RowName),
) -> (RowName, RowName)
    requires { (r : ℕ) → holds (Some saved) r + holds (Some entry) r ≤ count_of pool.old r }
    ensures { AreRowsHome pool.old pool.new saved entry result }
{
    let plus = home(pool, saved.0, entry.0);
    let minus = home(pool, saved.1, entry.1);
    (plus, minus)
}

/// The entry of a view once an arrival is kept, by the one that was saved, if one was, which is let go.
pub(crate) fn entry_home(
    pool: &mut RowPool,
    saved: Option<(RowName, RowName)>,
    entry: Option<(RowName, RowName)>,
) -> Option<(RowName, RowName)>
    requires { (r : ℕ) → holds saved r + holds entry r ≤ count_of pool.old r }
    ensures ids { IsHome saved entry result }
    ensures places { AreAlike pool.old pool.new entry result }
    ensures once { (r : ℕ) → IsOnceHome (count_of pool.old r) (holds saved r) (holds entry r) (holds result r) }
    ensures counts { (r : ℕ) → count_of pool.new r + (holds entry r + holds saved r)
        ≡ count_of pool.old r + holds result r }
    ensures others { (r : ℕ) → holds saved r + holds entry r < count_of pool.old r →
        row_of pool.new r ≡ row_of pool.old r }
{
    if let Some(was) = saved {
        if let Some(now) = entry {
            return Some(rows_home(pool, was, now));
        }
        give_entry(pool, Some(was));
    }
    entry
}
