//! The steps by which a block joins the votes: the view of it with its past, the view of all blocks,
//! and how the views that are covered are let go, or those that joined. What the view of all blocks was is saved
//! on the way, so that it can be put back.

ghost use Rattle.std.specs.Prelude.{◌≡◌, ◌<◌, ◌≤◌, ◌+◌, ◌*◌, ◌^◌, ◌↔◌, ◌++◌, ◌∷◌, [], true, not, ℕ, List, Option, length, filter, map, vec_len, vec_capacity, IsTrue, IsFalse, IfOk, OnOk, OnErr};
ghost use Rattle.std.specs.List.{range_with_len};
ghost use Rattle.sp_model.specs.Graph.{has, past};
ghost use Rattle.sp_bits.specs.Places.{IsGreatest};
ghost use Rattle.sp_dag.specs.Numbered.{AreInOrder, Numbered, graph_of};
ghost use Rattle.sp_frozen.specs.Voters.{HoldsFrozen};
ghost use Rattle.sp_view.specs.Homes.{AreHome};
ghost use Rattle.sp_view.specs.Saved.{IsSaving, patched};
ghost use Rattle.sp_view.specs.Stored.{count_of, live, row_of};
ghost use Rattle.sp_view.specs.Summed.{AreRight};
ghost use Rattle.sp_view.specs.Views.{held, Viewed, AreKeptIds, IsBest, IsView};
ghost use Rattle.sp_engine.specs.Votes.{AreKeptIdsBy, AreLeft, AreShared, AreViews, bar_row, bytes_of, entries_of, held_by, is_top_tip, is_uncovered, IsLast, IsPut, most_bytes, tips_from};

use sp_bits::Row;
use sp_dag::Dag;
use sp_frozen::Frozen;
use sp_ids::Memory;
use sp_rows::RowPool;
use sp_view::{Saved, Sums, View};
use std::alloc::Global;

/// The most bytes that the rows and the entries of views may take while there are views of other tips than the newest one:
/// 128 MiB. A row takes 64, and an entry 12.
const MOST_BYTES: usize = 134_217_728;

// Whether a block has the highest one of these members as a parent.
fn is_covered(dag: &Dag, members: &Row) -> bool
    requires { (z : ℕ) → has members.now z ≡ true → z < length dag.now.parents }
    ensures { result ≡ not (is_top_tip dag.now members.now) }
{
    // Tells the proof that the blocks stand in order.
    let _blocks = dag.len();
    match members.highest() {
        Some(top) => dag.future(top).highest().is_some(),
        // A view has genesis.
        None => true,
    }
}

/// Gives the frozen votes the votes of the last block, by a view of its past, and adds the block to
/// that view.
fn vote_tip(
    tip: &mut View,
    dag: &Dag,
    frozen: &mut Frozen,
    rows: &mut RowPool,
) -> Result<(), Memory>
    requires next { length dag.now.parents ≡ frozen.old.blocks + 1 }
    requires frozen { HoldsFrozen dag.now frozen.old }
    requires view { IsView dag.now tip.old rows.old }
    requires members { tip.old.members ≡ past (graph_of dag.now) frozen.old.blocks }
    requires few { live rows.old < 2 ^ 30 }
    ensures frozen { OnOk result (HoldsFrozen dag.now frozen.new) }
    ensures blocks { OnOk result (frozen.new.blocks ≡ frozen.old.blocks + 1) }
    ensures view { OnOk result (IsView dag.now tip.new rows.new) }
    ensures members { OnOk result (tip.new.members ≡ bar_row dag.now frozen.old.blocks) }
    ensures kept { OnOk result (AreKeptIds dag.now tip.old.members tip.new.members
        tip.old.entries tip.new.entries) }
    ensures counts { (r : ℕ) → count_of rows.new r + held tip.old.entries r ≡
        count_of rows.old r + held tip.new.entries r }
    ensures others { (r : ℕ) → held tip.old.entries r < count_of rows.old r →
        row_of rows.new r ≡ row_of rows.old r }
    ensures err { OnErr result (tip.new ≡ tip.old) }
    ensures err_frozen { OnErr result (HoldsFrozen dag.now frozen.new
        × (frozen.old.blocks ≤ frozen.new.blocks)) }
    ensures err_rows { OnErr result (rows.new.rows ≡ rows.old.rows) }
{
    let b = dag.len() - 1;
    // Tells the proof that there are at most 130,816 pairs.
    let _pairs = dag.pair_count();
    let signs = tip.past_votes(frozen, rows)?;
    frozen.add(dag, b, &signs)?;
    tip.add(dag, frozen, rows, b)
}

/// The view of the last block with its past. Its past's votes join the frozen ones on the way.
///
/// # Errors
///
/// `Memory` where there was none. No row is held more often, and those that were live have their
/// places; the frozen votes may have the block.
pub(crate) fn new_tip(
    alloc: Global,
    views: &[View],
    dag: &Dag,
    frozen: &mut Frozen,
    rows: &mut RowPool,
) -> Result<View, Memory>
    requires next { length dag.now.parents ≡ frozen.old.blocks + 1 }
    requires frozen { HoldsFrozen dag.now frozen.old }
    requires views { AreViews dag.now rows.old frozen.old.blocks views.now }
    requires shared { (saved : List (Option (ℕ × ℕ))) ×
        AreShared dag.now rows.old views.now saved }
    requires few { length views.now ≤ 512 }
    ensures frozen { OnOk result (HoldsFrozen dag.now frozen.new) }
    ensures blocks { OnOk result (frozen.new.blocks ≡ frozen.old.blocks + 1) }
    ensures views { IfOk result (λ tip.
        AreViews dag.now rows.new frozen.new.blocks (tip ∷ views.now)) }
    ensures shared { IfOk result (λ tip. (saved : List (Option (ℕ × ℕ))) →
        AreShared dag.now rows.old views.now saved →
        AreShared dag.now rows.new (tip ∷ views.now) saved) }
    ensures members { IfOk result (λ tip.
        tip.members ≡ bar_row dag.now frozen.old.blocks) }
    ensures kept { IfOk result (λ tip. (i : ℕ) (base : Viewed) →
        IsBest views.now (past (graph_of dag.now) frozen.old.blocks) i base →
        AreKeptIdsBy dag.now base.members
        (past (graph_of dag.now) frozen.old.blocks) tip.members
        base.entries tip.entries) }
    ensures places { (row : ℕ) → 0 < count_of rows.old row → row_of rows.new row ≡ row_of rows.old row }
    ensures err_frozen { OnErr result (HoldsFrozen dag.now frozen.new
        × (frozen.old.blocks ≤ frozen.new.blocks)) }
    ensures err_counts { OnErr result ((row : ℕ) → count_of rows.new row ≡ count_of rows.old row) }
{
    let b = dag.len() - 1;
    // Tell the proof that there are at most 130,816 pairs, and what the rows of a pool are.
    let _pairs = dag.pair_count();
    let _live = rows.live();
    let past = dag.past(b);
    // Tells the proof that the past is a row.
    let _members = past.count();
    let mut tip = View::derive(alloc, views, dag, frozen, rows, past)?;
    let _derived = rows.live();
    match vote_tip(&mut tip, dag, frozen, rows) {
        Ok(()) => Ok(tip),
        Err(refused) => {
            tip.release(rows);
            Err(refused)
        }
    }
}

/// Adds the last block of a graph to the view of all blocks, which is the last one, and to the sums of
/// their votes, and puts a view before it. Each entry that may be saved is saved before it changes.
///
/// # Errors
///
/// `Memory` where there was none. That view is let go, and the others stay, and what is saved.
pub(crate) fn put_tip(
    views: &mut Vec<View>,
    dag: &Dag,
    frozen: &Frozen,
    rows: &mut RowPool,
    sums: &mut Sums,
    saved: &mut Saved,
    tip: View,
) -> Result<(), Memory>
    requires room { vec_len views.old < vec_capacity views.old }
    requires next { length dag.now.parents ≡ frozen.now.blocks }
    requires frozen { HoldsFrozen dag.now frozen.now }
    requires views { AreViews dag.now rows.old frozen.now.blocks (tip ∷ views.old.items) }
    requires shared { AreShared dag.now rows.old (tip ∷ views.old.items) saved.old }
    requires few { vec_len views.old ≤ 512 }
    requires last { (b : ℕ) → b + 1 ≡ length dag.now.parents → IsLast b views.old.items }
    requires sums { (b : ℕ) → b + 1 ≡ length dag.now.parents →
        AreRight dag.now (range_with_len 0 b) sums.old }
    requires saved { (front : List Viewed) (all : Viewed) → views.old.items ≡ front ++ all ∷ [] →
        IsSaving saved.old all.entries × ((r : ℕ) → held (patched saved.old all.entries) r ≤ 1) }
    ensures put { OnOk result ((b : ℕ) → b + 1 ≡ length dag.now.parents →
        IsPut dag.now b views.old.items tip views.new.items saved.old saved.new) }
    ensures views { OnOk result
        (AreViews dag.now rows.new frozen.now.blocks views.new.items) }
    ensures shared { OnOk result (AreShared dag.now rows.new views.new.items saved.new) }
    ensures places { (row : ℕ) (front : List Viewed) (all : Viewed) → views.old.items ≡ front ++ all ∷ [] →
        held all.entries row < count_of rows.old row → 0 < count_of rows.new row →
        row_of rows.new row ≡ row_of rows.old row }
    ensures saved_places { (row : ℕ) (front : List Viewed) (all : Viewed) → views.old.items ≡ front ++ all ∷ [] →
        0 < held (patched saved.old all.entries) row → 0 < count_of rows.new row →
        row_of rows.new row ≡ row_of rows.old row }
    ensures sums { OnOk result (AreRight dag.now (range_with_len 0 (length dag.now.parents)) sums.new) }
    ensures as_long { length sums.new ≡ length sums.old }
    ensures err { OnErr result (views.new.items ≡ views.old.items) }
    ensures err_sums { OnErr result (sums.new ≡ sums.old) }
    ensures err_saved { OnErr result (saved.new ≡ saved.old) }
    ensures err_counts { OnErr result ((row : ℕ) →
        count_of rows.new row + held tip.entries row ≡ count_of rows.old row) }
    ensures err_rows { OnErr result ((row : ℕ) → 0 < count_of rows.new row →
        row_of rows.new row ≡ row_of rows.old row) }
{
    // Tell the proof that there are at most 512 blocks and 130,816 pairs, and what rows are.
    let b = dag.len() - 1;
    let _pairs = dag.pair_count();
    let _live = rows.live();
    let last = views.len() - 1;
    match views[last].add_with_sums(dag, frozen, rows, sums, saved, b) {
        Ok(()) => match views.insert(last, tip) {
            Ok(()) => Ok(()),
            // There is room.
            Err(_) => unreachable!(),
        },
        Err(refused) => {
            tip.release(rows);
            Err(refused)
        }
    }
}

/// Lets the views go from a place on of blocks that another one covers, by their highest members. The
/// view of all blocks has the last one, which none covers.
pub(crate) fn release_covered(views: &mut Vec<View>, rows: &mut RowPool, dag: &Dag, place: usize)
    requires within { place ≤ vec_len views.old }
    requires counts { (row : ℕ) → held_by views.old.items row ≤ count_of rows.old row }
    requires views { (n : ℕ) × AreViews dag.now rows.old n views.old.items }
    ensures rest { (front back : List Viewed) → place ≡ length front → views.old.items ≡ front ++ back →
        views.new.items ≡ front ++ filter (is_uncovered dag.now) back }
    ensures views { (table : Numbered) (n : ℕ) → AreViews table rows.old n views.old.items →
        AreViews table rows.new n views.new.items }
    ensures counts { (row : ℕ) → count_of rows.new row + held_by views.old.items row
        ≡ count_of rows.old row + held_by views.new.items row }
    ensures rows { (row : ℕ) → 0 < count_of rows.new row →
        row_of rows.new row ≡ row_of rows.old row }
{
    let mut i = place;
    'views: while i < views.len() {
        if is_covered(dag, views[i].members()) {
            views.remove(i).release(rows);
        } else {
            i += 1;
        }
    }
}

/// Lets the views go that stand between so many first ones and so many last ones.
pub(crate) fn release_between(views: &mut Vec<View>, rows: &mut RowPool, first: usize, last: usize)
    requires within { first + last ≤ vec_len views.old }
    requires counts { (row : ℕ) → held_by views.old.items row ≤ count_of rows.old row }
    ensures rest { (front between back : List Viewed) → first ≡ length front → last ≡ length back →
        views.old.items ≡ front ++ (between ++ back) → views.new.items ≡ front ++ back }
    ensures views { (table : Numbered) (n : ℕ) → AreViews table rows.old n views.old.items →
        AreViews table rows.new n views.new.items }
    ensures counts { (row : ℕ) → count_of rows.new row + held_by views.old.items row
        ≡ count_of rows.old row + held_by views.new.items row }
    ensures rows { (row : ℕ) → 0 < count_of rows.new row →
        row_of rows.new row ≡ row_of rows.old row }
{
    'views: while first + last < views.len() {
        views.remove(first).release(rows);
    }
}

// Whether the entries of some views take no more than so many bytes.
fn have_room(views: &[View], bytes: usize) -> bool
    ensures { IsTrue result ↔ (12 * entries_of views.now ≤ bytes) }
{
    let mut left = bytes;
    'views: for i in 0..views.len() {
        let entries = views[i].entry_count();
        if entries > left / 12 {
            return false;
        }
        left -= 12 * entries;
    }
    true
}

// Whether the rows of a pool and the entries of some views take no more bytes than they may.
fn are_few(views: &[View], rows: &RowPool) -> bool
    ensures { IsTrue result ↔ (bytes_of rows.now views.now ≤ most_bytes) }
{
    let live = rows.live();
    live <= MOST_BYTES / 64 && have_room(views, MOST_BYTES - 64 * live)
}

// Whether more than two views stand from a place on, and all together take more bytes than they may.
fn is_excess(views: &[View], rows: &RowPool, place: usize) -> bool
    ensures more { IsTrue result → (place + 2 < length views.now) × (most_bytes < bytes_of rows.now views.now) }
    ensures few { IsFalse result → place + 2 < length views.now →
        bytes_of rows.now views.now ≤ most_bytes }
{
    views.len() > place && views.len() - place > 2 && !are_few(views, rows)
}

/// Lets views go one after another, from a place on, while all together take more bytes than they may; those of the newest
/// tip and of all blocks stay. It answers the number from which on the tips that stand there have views, where
/// that was this one.
pub(crate) fn release_excess(
    views: &mut Vec<View>,
    rows: &mut RowPool,
    place: usize,
    since: u16,
) -> u16
    requires counts { (row : ℕ) → held_by views.old.items row ≤ count_of rows.old row }
    ensures left { (table : Numbered) (front tips : List Viewed) (all : Viewed) (from : ℕ) →
        AreInOrder table.parents → length table.parents ≤ 512 → place ≡ length front →
        views.old.items ≡ front ++ (tips ++ all ∷ []) →
        map (λ (view : Viewed). view.members) tips ≡ map (bar_row table) (tips_from table.parents from) →
        AreLeft table front tips all from since rows.new views.new.items result }
    ensures few { place + 2 < vec_len views.new → bytes_of rows.new views.new.items ≤ most_bytes }
    ensures two { vec_len views.old ≤ place + 2 →
        (views.new.items ≡ views.old.items) × (result ≡ since) }
    ensures views { (table : Numbered) (n : ℕ) → AreViews table rows.old n views.old.items →
        AreViews table rows.new n views.new.items }
    ensures counts { (row : ℕ) → count_of rows.new row + held_by views.old.items row
        ≡ count_of rows.old row + held_by views.new.items row }
    ensures rows { (row : ℕ) → 0 < count_of rows.new row →
        row_of rows.new row ≡ row_of rows.old row }
{
    let mut from = since;
    'views: while is_excess(views.as_slice(), rows, place) {
        // Tells the proof what the rows of a pool are.
        let _live = rows.live();
        from = behind(views[place].members());
        views.remove(place).release(rows);
    }
    from
}

// The number behind the highest of some members.
fn behind(members: &Row) -> u16
    ensures { (top : ℕ) → IsGreatest members.now top → result ≡ top + 1 }
{
    match members.highest() {
        Some(top) => top + 1,
        // A view has genesis.
        None => 0,
    }
}

/// Puts the last one of the views back as it was, by the entries that were saved of it and its members of then.
pub(crate) fn restore_last(views: &mut Vec<View>, rows: &mut RowPool, saved: Saved, members: &Row)
    requires counts { (row : ℕ) → held_by views.old.items row + held saved row
        ≤ count_of rows.old row }
    requires saved { (front : List Viewed) × (last : Viewed) × (views.old.items ≡ front ++ last ∷ []) ×
        (length saved ≤ length last.entries) × ((r : ℕ) → held (patched saved last.entries) r ≤ 1) }
    ensures put { (front : List Viewed) (last : Viewed) → views.old.items ≡ front ++ last ∷ [] →
        views.new.items ≡ front ++ record {
          members = members.now;
          entries = patched saved last.entries;
        } ∷ [] }
    ensures counts { (row : ℕ) → count_of rows.new row + held_by views.old.items row + held saved row
        ≡ count_of rows.old row + held_by views.new.items row }
    ensures rows { (row : ℕ) → 0 < count_of rows.new row →
        row_of rows.new row ≡ row_of rows.old row }
{
    let last = views.len() - 1;
    views[last].restore(rows, saved, members);
}

/// Keeps what the last one of the views became, and lets go what was saved of it, by which some of its rows may
/// have the ids again that they had.
pub(crate) fn settle_last(views: &mut Vec<View>, rows: &mut RowPool, saved: Saved)
    requires counts { (row : ℕ) → held_by views.old.items row + held saved row
        ≤ count_of rows.old row }
    requires saved { (front : List Viewed) × (last : Viewed) × (views.old.items ≡ front ++ last ∷ []) ×
        (length saved ≤ length last.entries) }
    ensures home { (front : List Viewed) (last : Viewed) → views.old.items ≡ front ++ last ∷ [] →
        (home : Viewed) × (views.new.items ≡ front ++ home ∷ []) × (home.members ≡ last.members)
        × AreHome rows.old rows.new saved last.entries home.entries }
{
    let last = views.len() - 1;
    views[last].settle(rows, saved);
}
