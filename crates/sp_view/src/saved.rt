//! The entries of a view as they were before they first changed, so that the view can be put back as it was at the
//! price of what changed. Room for them is taken at once, but it is filled only up to the last one that is saved.

ghost use Rattle.std.specs.Prelude.{◌≡◌, ◌<◌, ◌≤◌, ◌+◌, ◌^◌, ℕ, [], None, Some, length, IfOk, vec_len};
ghost use Rattle.sp_view.specs.Homes.{AreHome};
ghost use Rattle.sp_view.specs.Keeping.{IsSave};
ghost use Rattle.sp_view.specs.Saved.{either, patched};
ghost use Rattle.sp_view.specs.Stored.{count_of, row_of};
ghost use Rattle.sp_view.specs.Views.{entry_at, holds, held};

use crate::last_pair::grow;
use crate::reuse_rows::entry_home;
use crate::sharing::{give_entries, give_entry, give_from, share_entry};
use crate::stored::RowName;
use sp_ids::Memory;
use sp_rows::RowPool;
use std::alloc::Global;
use std::marker::Model;

/// Of the first entries of a view those that were saved, which hold their rows. Contracts see for each of these
/// entries the saved one, or none.
#[derive(Drop)]
pub struct Saved {
    alloc: Global,
    // How many entries may be saved.
    count: usize,
    // The saved ones and those between them, up to the last saved one.
    list: Vec<Option<(RowName, RowName)>>,
    // How many are saved. By this it is told whether their rows are held again, and nothing else is.
    many: usize,
}

impl Model for Saved {
    ghost use Rattle.std.specs.Prelude.{ℕ, ◌≤◌, List, Option, vec_len, vec_capacity};
    ghost use Rattle.sp_view.specs.Padded.{padded};

    ghost Value = { List (Option (ℕ × ℕ)) };

    ghost view = { λ saved. padded saved.count saved.list.items };

    ghost invariant = { λ saved.
        (vec_len saved.list ≤ saved.count) × (saved.count ≤ vec_capacity saved.list) };
}

// The saved entry in place of the one that stands there, which is let go, if one is saved.
fn put_back(
    pool: &mut RowPool,
    entry: Option<(RowName, RowName)>,
    saved: Option<(RowName, RowName)>,
) -> Option<(RowName, RowName)>
    requires { (r : ℕ) → holds entry r ≤ count_of pool.old r }
    ensures put { result ≡ either saved entry }
    ensures counts { (r : ℕ) → count_of pool.new r + holds entry r + holds saved r
        ≡ count_of pool.old r + holds result r }
    ensures rows { (r : ℕ) → 0 < count_of pool.new r → row_of pool.new r ≡ row_of pool.old r }
{
    if saved.is_none() {
        return entry;
    }
    give_entry(pool, entry);
    saved
}

// Puts the saved entries back, and lets those go in whose place they stand.
fn put_back_all(
    pool: &mut RowPool,
    entries: &mut Vec<Option<(RowName, RowName)>>,
    saved: &[Option<(RowName, RowName)>],
)
    requires long { length saved.now ≤ vec_len entries.old }
    requires live { (r : ℕ) → held saved.now r + held entries.old.items r ≤ count_of pool.old r }
    ensures long { vec_len entries.new ≡ vec_len entries.old }
    ensures put { (i : ℕ) → entry_at entries.new.items i
        ≡ either (entry_at saved.now i) (entry_at entries.old.items i) }
    ensures counts { (r : ℕ) → count_of pool.new r + (held entries.old.items r + held saved.now r)
        ≡ count_of pool.old r + held entries.new.items r }
    ensures rows { (r : ℕ) → 0 < count_of pool.new r → row_of pool.new r ≡ row_of pool.old r }
{
    'entries: for i in 0..saved.len() {
        entries[i] = put_back(pool, entries[i], saved[i]);
    }
}

// Keeps the entries, each of which may have rows again that were saved of it, and lets the saved ones go.
fn settle_all(
    pool: &mut RowPool,
    entries: &mut Vec<Option<(RowName, RowName)>>,
    saved: &[Option<(RowName, RowName)>],
)
    requires long { length saved.now ≤ vec_len entries.old }
    requires live { (r : ℕ) → held saved.now r + held entries.old.items r ≤ count_of pool.old r }
    requires once { (r : ℕ) → held entries.old.items r ≤ 1 }
    ensures { AreHome pool.old pool.new saved.now entries.old.items entries.new.items }
{
    'entries: for i in 0..saved.len() {
        entries[i] = entry_home(pool, saved[i], entries[i]);
    }
}

impl Saved {
    /// For a view of which nothing is saved.
    pub fn new(alloc: Global) -> Saved
        ensures { result ≡ [] }
    {
        Saved {
            alloc,
            count: 0,
            list: Vec::new(alloc),
            many: 0,
        }
    }

    // For so many entries, of which none is saved yet.
    pub(crate) fn of(alloc: Global, count: usize) -> Result<Saved, Memory>
        ensures long { IfOk result (λ saved. length saved ≡ count) }
        ensures none { IfOk result (λ saved. (i : ℕ) → entry_at saved i ≡ None) }
        ensures held { IfOk result (λ saved. (r : ℕ) → held saved r ≡ 0) }
    {
        let list = Vec::with_capacity(alloc, count)?;
        Ok(Saved {
            alloc,
            count,
            list,
            many: 0,
        })
    }

    // Saves an entry, if it may be saved and isn't yet: its rows have one holder more.
    pub(crate) fn save(&mut self, pool: &mut RowPool, pair: u32, entry: &(RowName, RowName))
        requires some { (r : ℕ) → holds (Some entry.now) r ≤ count_of pool.old r }
        requires few { pair < length self.old → (r : ℕ) → count_of pool.old r + 2 < 2 ^ 32 }
        ensures { IsSave pool.old pool.new pair (Some entry.now) self.old self.new }
    {
        let place = pair as usize;
        if self.count <= place {
            return;
        }
        if self.list.len() <= place {
            grow(&mut self.list, place + 1);
        }
        if self.list[place].is_some() {
            return;
        }
        share_entry(pool, Some(*entry));
        self.list[place] = Some(*entry);
        self.many = self.many.saturating_add(1);
    }

    // Puts the saved entries back into a view's, and cuts those to as many as were there.
    pub(crate) fn put_into(self, pool: &mut RowPool, entries: &mut Vec<Option<(RowName, RowName)>>)
        requires long { length self ≤ vec_len entries.old }
        requires live { (r : ℕ) → held self r + held entries.old.items r ≤ count_of pool.old r }
        ensures put { entries.new.items ≡ patched self entries.old.items }
        ensures counts { (r : ℕ) → count_of pool.new r + (held entries.old.items r + held self r)
            ≡ count_of pool.old r + held entries.new.items r }
        ensures rows { (r : ℕ) → 0 < count_of pool.new r → row_of pool.new r ≡ row_of pool.old r }
    {
        put_back_all(pool, entries, &self.list);
        give_from(pool, entries, self.count);
        entries.truncate(self.count);
    }

    // Keeps a view's entries, and lets the saved ones go. Where no more than half of those up to the last saved one were saved,
    // their rows are held again as far as they can be: where more were, whole runs changed, and what was taken for these are
    // neighbours too.
    pub(crate) fn settle_into(
        self,
        pool: &mut RowPool,
        entries: &mut Vec<Option<(RowName, RowName)>>,
    )
        requires long { length self ≤ vec_len entries.old }
        requires live { (r : ℕ) → held self r + held entries.old.items r ≤ count_of pool.old r }
        requires once { (r : ℕ) → held entries.old.items r ≤ 1 }
        ensures { AreHome pool.old pool.new self entries.old.items entries.new.items }
    {
        if self.many > self.list.len() / 2 {
            give_entries(pool, &self.list);
            return;
        }
        settle_all(pool, entries, &self.list);
    }
}
