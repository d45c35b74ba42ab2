//! Laws of what is noted, over the definitions alone. Each is the contract of a function that does
//! nothing, so that the check proves it.

ghost use Rattle.std.specs.Prelude.{◌≡◌, ◌≤◌, ◌<◌, ℕ, suc, List, flat_map, length, slice_index_or};
ghost use Rattle.sp_block.specs.Block.{ReadBlock};
ghost use Rattle.sp_model.specs.declared.profile.Profile.{Profile};
ghost use Rattle.sp_engine.specs.Arrivals.{kept_after};
ghost use Rattle.sp_watch.specs.declared.item.Item.{Item};
ghost use Rattle.sp_watch.specs.declared.item.Value.{Value};
ghost use Rattle.sp_watch.specs.Arrivals.{changes_text, held_texts, history_of};
ghost use Rattle.sp_watch.specs.Lines.{change_at, held_of};
ghost use Rattle.sp_watch.specs.Watching.{changes_in, seen_all, since, turned_from, watch_of, watched_after};

/// Over all arrivals: what is noted at the start is what the first blocks say; where it was right
/// after some arrivals it is right after one more; and what that one is told to change is what it
/// changes.
pub fn notes_are_right()
    ensures start { (profile : Profile) (history : ℕ → List ReadBlock) (items : List Item) →
        watch_of profile items (history 0) ≡ watched_after profile history 0 items }
    ensures arrival { (profile : Profile) (history : ℕ → List ReadBlock) (k : ℕ) (items : List Item) →
        seen_all profile (watched_after profile history k items) (history (suc k))
        ≡ watched_after profile history (suc k) items }
    ensures changes { (profile : Profile) (history : ℕ → List ReadBlock) (k : ℕ) (items : List Item) →
        changes_in profile (watched_after profile history k items) (history (suc k))
        ≡ turned_from profile history k 0 items }
{}

/// From the arrival since which a value stands it was the same after each arrival, and is the value
/// now.
pub fn value_stands()
    ensures same { (value : ℕ → Value) (j k : ℕ) → since value k ≤ j → j ≤ k → value j ≡ value k }
    ensures bound { (value : ℕ → Value) (k : ℕ) → since value k ≤ k }
{}

/// The history of a feed goes on by each arrival as an engine does; the lines of the changes that are
/// told after an arrival are those of the items that it changes; and those of what is noted then are
/// those of since when each value stands.
pub fn lines_are_of_arrivals()
    ensures arrival { (bits : ℕ) (genesis : ReadBlock) (arrivals : List (List ℕ)) (k : ℕ)
        (bytes : List ℕ) → k < length arrivals → slice_index_or arrivals k bytes ≡ bytes →
        kept_after bits (history_of bits genesis arrivals k) bytes
        ≡ history_of bits genesis arrivals (suc k) }
    ensures lines { (profile : Profile) (history : ℕ → List ReadBlock) (k : ℕ) (items : List Item) →
        flat_map (change_at (watched_after profile history (suc k) items).entries)
        (turned_from profile history k 0 items)
        ≡ changes_text profile history k items }
    ensures held { (profile : Profile) (history : ℕ → List ReadBlock) (k : ℕ) (items : List Item) →
        flat_map held_of (watched_after profile history k items).entries
        ≡ held_texts profile history k items }
{}
