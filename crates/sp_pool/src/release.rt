//! Which blocks are ready, and the release of all that are, one by one. It stands apart from the
//! pool because it speaks of any marks, and of any set that they stand for.
//!
//! A waiting block is looked at in each turn, and each look goes on where the last one ended: at
//! the first parent that wasn't marked then. So all looks together take about one step for each
//! parent, and one more for each waiting block and turn.

ghost use Rattle.std.specs.Prelude.{◌≡◌, ◌<◌, ◌≤◌, ◌++◌, ℕ, List, [], count_by, false, find, IfSome, IsTrue, length, nat_le, not, slice_get, Some, take, true, vec_capacity};
ghost use Rattle.std.specs.List.{list_all};
ghost use Rattle.std.specs.Option.{option_and_then, option_map};
ghost use Rattle.sp_model.specs.Graph.{has};
ghost use Rattle.sp_pool.specs.Kept.{AreApart, is_ready, Releases};
ghost use Rattle.sp_pool.specs.Marks.{Looked, Marks};

use crate::entries::Entries;
use sp_ids::{BlockId, Ids};

/// Whether a block with this id is there and marked.
pub fn is_marked(entries: &Entries, id: &BlockId) -> bool
    ensures { (set : List ℕ) → Marks entries.now set → result ≡ has set id.now }
{
    match entries.place_of(id) {
        Some(place) => entries.is_marked_at(place),
        None => false,
    }
}

/// How many of the ids, from the first, are of marked blocks, where so many are known to be.
pub fn marked_front(entries: &Entries, ids: &[BlockId], known: usize) -> usize
    ensures front { (set : List ℕ) → Marks entries.now set →
        list_all (has set) (take known ids.now) ≡ true →
        list_all (has set) (take result ids.now) ≡ true }
    ensures whole { (set : List ℕ) → Marks entries.now set →
        list_all (has set) (take known ids.now) ≡ true →
        nat_le (length ids.now) result ≡ list_all (has set) ids.now }
{
    let mut front = known;
    'front: while front < ids.len() && is_marked(entries, &ids[front]) {
        front += 1;
    }
    front
}

// Whether the block at a place isn't marked but its parents all are.
fn is_ready_at(entries: &mut Entries, place: usize) -> bool
    requires { place < length entries.old.blocks }
    ensures looked { Looked entries.old entries.new }
    ensures ready { (set : List ℕ) → Marks entries.old set →
        option_map (is_ready set) (slice_get entries.old.blocks place) ≡ Some result }
    ensures unmarked { IsTrue result → slice_get entries.old.marks place ≡ Some false }
{
    if entries.is_marked_at(place) {
        return false;
    }
    let parents = entries.parents_at(place);
    let count = parents.len();
    let seen = marked_front(entries, parents, entries.seen_at(place));
    entries.see(place, seen);
    count <= seen
}

// The place of the first block that isn't marked but whose parents all are.
fn earliest_ready(entries: &mut Entries) -> Option<usize>
    ensures looked { Looked entries.old entries.new }
    ensures block { (set : List ℕ) → Marks entries.old set →
        option_and_then (slice_get entries.old.blocks) result
        ≡ find (is_ready set) entries.old.blocks }
    ensures within { IfSome result (λ place. place < length entries.old.blocks) }
    ensures unmarked { IfSome result (λ place. slice_get entries.old.marks place ≡ Some false) }
    ensures apart { AreApart entries.old.blocks }
{
    for place in 0..entries.len() {
        if is_ready_at(entries, place) {
            return Some(place);
        }
    }
    None
}

/// Marks the earliest block that is ready, then the earliest that is ready once that one is marked,
/// until none is. Answers their ids, which it writes into `ids`.
pub fn release(entries: &mut Entries, mut ids: Vec<BlockId>) -> Ids
    requires empty { ids.items ≡ [] }
    requires room { count_by not entries.old.marks ≤ vec_capacity ids }
    ensures blocks { entries.new.blocks ≡ entries.old.blocks }
    ensures apart { AreApart entries.new.blocks }
    ensures order { (set : List ℕ) → Marks entries.old set →
        Releases entries.old.blocks set result }
    ensures marks { (set : List ℕ) → Marks entries.old set → Marks entries.new (set ++ result) }
{
    'turns: loop {
        let Some(place) = earliest_ready(entries) else {
            return Ids::of(ids);
        };
        ids.push_reserved(entries.id_at(place));
        entries.mark(place);
    }
}

/// Marks what `release` would, without telling the ids.
pub fn mark_ready(entries: &mut Entries)
    requires { AreApart entries.old.blocks }
    ensures blocks { entries.new.blocks ≡ entries.old.blocks }
    ensures marks { (set : List ℕ) → Marks entries.old set →
        (ids : List ℕ) × Releases entries.old.blocks set ids × Marks entries.new (set ++ ids) }
{
    'turns: loop {
        let Some(place) = earliest_ready(entries) else {
            return;
        };
        entries.mark(place);
    }
}
