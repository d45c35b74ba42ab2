//! The entry of a pair in a view of a set, from that in a view within it. An old pair of which no vote
//! is asked shares both rows as they stand; none is made anew and compared.

ghost use Rattle.std.specs.Prelude.{◌≡◌, ◌≢◌, ◌<◌, ◌≤◌, ◌+◌, ◌-◌, ◌^◌, ◌==◌, ℕ, length, IfOk, OnErr, if◌then◌else◌, slice_get, None, Some};
ghost use Rattle.sp_dag.specs.Numbered.{graph_of, pairs_of};
ghost use Rattle.sp_view.specs.Stored.{count_of, row_of, spare, live};
ghost use Rattle.sp_view.specs.Views.{holds, moved_of, IsEntry, IsOnce, KeepIds};

use crate::asked_by_block::{has_both, is_none};
use crate::asked_by_growth::{asked_by_growth, one_side};
use crate::growth::Growth;
use crate::new_pairs::new_entry;
use crate::pair_rows::Sides;
use crate::reask::rows_anew;
use crate::sharing::share_entry;
use crate::stored::{RowName, row_at, share, taken};
use crate::voting::Voting;
use sp_bits::Row;
use sp_ids::Memory;
use sp_rows::RowPool;

// One holder more of a row if it has these places, and else a new row.
fn shared(pool: &mut RowPool, id: RowName, row: &Row) -> RowName
    requires some { 0 < count_of pool.old id }
    requires few { count_of pool.old id < 2 ^ 32 - 1 }
    requires room { 0 < spare pool.old }
    ensures row { row_of pool.new result ≡ row.now }
    ensures counts { (r : ℕ) → count_of pool.new r ≡
        count_of pool.old r + (if r == result then 1 else 0) }
    ensures others { (r : ℕ) → 0 < count_of pool.old r → row_of pool.new r ≡ row_of pool.old r }
    ensures kept { row.now ≡ row_of pool.old id → result ≡ id }
    ensures fresh { result ≢ id → count_of pool.old result ≡ 0 }
    ensures spare { spare pool.old ≤ spare pool.new + 1 }
    ensures live { live pool.new ≡ live pool.old + (if result == id then 0 else 1) }
{
    if row.same(&row_at(pool, id)) {
        share(pool, id);
        return id;
    }
    taken(pool, row)
}

// The rows of a pair that was inside the view before, where votes were asked anew.
fn shared_entry(pool: &mut RowPool, entry: (RowName, RowName), new: &Sides) -> (RowName, RowName)
    requires live { (r : ℕ) → holds (Some entry) r ≤ count_of pool.old r }
    requires once { (r : ℕ) → holds (Some entry) r ≤ 1 }
    requires few { (r : ℕ) → 0 < holds (Some entry) r → count_of pool.old r < 2 ^ 32 - 1 }
    requires room { 2 ≤ spare pool.old }
    ensures plus { row_of pool.new result.0 ≡ new.now.plus }
    ensures minus { row_of pool.new result.1 ≡ new.now.minus }
    ensures kept_plus { new.now.plus ≡ row_of pool.old entry.0 → result.0 ≡ entry.0 }
    ensures kept_minus { new.now.minus ≡ row_of pool.old entry.1 → result.1 ≡ entry.1 }
    ensures counts { (r : ℕ) → count_of pool.new r ≡ count_of pool.old r + holds (Some result) r }
    ensures others { (r : ℕ) → 0 < count_of pool.old r → row_of pool.new r ≡ row_of pool.old r }
    ensures once { (r : ℕ) →
        IsOnce (count_of pool.old r) (holds (Some entry) r) (holds (Some result) r) }
    ensures live { live pool.new ≡ live pool.old + moved_of (Some entry) (Some result) }
{
    let plus = shared(pool, entry.0, &new.plus);
    let minus = shared(pool, entry.1, &new.minus);
    (plus, minus)
}

// The rows of a pair that was inside the view before. Where no vote is asked, both are shared.
fn old_entry(
    growth: &Growth,
    pool: &mut RowPool,
    pair: u32,
    entry: (RowName, RowName),
) -> Result<(RowName, RowName), Memory>
    requires listed { pair < length (pairs_of growth.now.set.dag.now) }
    requires live { (r : ℕ) → holds (Some entry) r ≤ count_of pool.old r }
    requires once { (r : ℕ) → holds (Some entry) r ≤ 1 }
    requires few { (r : ℕ) → 0 < holds (Some entry) r → count_of pool.old r < 2 ^ 32 - 1 }
    requires room { live pool.old + 2 ≤ 2 ^ 31 }
    requires entry { (x y : ℕ) → slice_get (pairs_of growth.now.set.dag.now) pair ≡ Some (x, y) →
        IsEntry (graph_of growth.now.set.dag.now) growth.now.before.now x y pool.old (Some entry) }
    ensures entry { IfOk result (λ rows. (x y : ℕ) →
        slice_get (pairs_of growth.now.set.dag.now) pair ≡ Some (x, y) →
        IsEntry (graph_of growth.now.set.dag.now) growth.now.set.members.now x y pool.new (Some rows)) }
    ensures kept { IfOk result (λ rows. (x y : ℕ) →
        slice_get (pairs_of growth.now.set.dag.now) pair ≡ Some (x, y) →
        KeepIds (graph_of growth.now.set.dag.now) growth.now.before.now growth.now.set.members.now x y (Some entry) (Some rows)) }
    ensures counts { IfOk result (λ rows. (r : ℕ) →
        count_of pool.new r ≡ count_of pool.old r + holds (Some rows) r) }
    ensures err { OnErr result (pool.new.rows ≡ pool.old.rows) }
    ensures others { (r : ℕ) → 0 < count_of pool.old r → row_of pool.new r ≡ row_of pool.old r }
    ensures once { IfOk result (λ rows. (r : ℕ) →
        IsOnce (count_of pool.old r) (holds (Some entry) r) (holds (Some rows) r)) }
    ensures moved { IfOk result (λ rows.
        live pool.new ≤ live pool.old + moved_of (Some entry) (Some rows)) }
{
    let todo = asked_by_growth(growth, pool, pair, &entry);
    if is_none(&todo) {
        share_entry(pool, Some(entry));
        return Ok(entry);
    }
    pool.reserve(2)?;
    let up = one_side(growth, pair);
    let new = rows_anew(&growth.set, pool, pair, &entry, &todo, up);
    Ok(shared_entry(pool, entry, &new))
}

// The entry of a pair that was not inside the view before.
fn brought_entry(
    set: &Voting,
    pool: &mut RowPool,
    pair: u32,
) -> Result<Option<(RowName, RowName)>, Memory>
    requires listed { pair < length (pairs_of set.now.dag.now) }
    requires room { live pool.old + 2 ≤ 2 ^ 31 }
    ensures entry { IfOk result (λ entry. (x y : ℕ) →
        slice_get (pairs_of set.now.dag.now) pair ≡ Some (x, y) →
        IsEntry (graph_of set.now.dag.now) set.now.members.now x y pool.new entry) }
    ensures counts { IfOk result (λ entry. (r : ℕ) →
        count_of pool.new r ≡ count_of pool.old r + holds entry r) }
    ensures err { OnErr result (pool.new.rows ≡ pool.old.rows) }
    ensures others { (r : ℕ) → 0 < count_of pool.old r → row_of pool.new r ≡ row_of pool.old r }
    ensures once { IfOk result (λ entry. (r : ℕ) → IsOnce (count_of pool.old r) 0 (holds entry r)) }
    ensures moved { IfOk result (λ entry. live pool.new ≤ live pool.old + moved_of None entry) }
{
    // Tells the proof that there are at most 512 blocks.
    let _blocks = set.dag.len();
    let (x, y) = set.dag.pair(pair);
    if !has_both(set.members, x, y) {
        return Ok(None);
    }
    pool.reserve(2)?;
    Ok(Some(new_entry(set, pool, pair)))
}

// The entry of a pair in the view of the set, from that in the view of a set within it.
pub(crate) fn derived_entry(
    growth: &Growth,
    pool: &mut RowPool,
    pair: u32,
    before: Option<(RowName, RowName)>,
) -> Result<Option<(RowName, RowName)>, Memory>
    requires listed { pair < length (pairs_of growth.now.set.dag.now) }
    requires live { (r : ℕ) → holds before r ≤ count_of pool.old r }
    requires once { (r : ℕ) → holds before r ≤ 1 }
    requires few { (r : ℕ) → 0 < holds before r → count_of pool.old r < 2 ^ 32 - 1 }
    requires room { live pool.old + 2 ≤ 2 ^ 31 }
    requires entry { (x y : ℕ) → slice_get (pairs_of growth.now.set.dag.now) pair ≡ Some (x, y) →
        IsEntry (graph_of growth.now.set.dag.now) growth.now.before.now x y pool.old before }
    ensures entry { IfOk result (λ entry. (x y : ℕ) →
        slice_get (pairs_of growth.now.set.dag.now) pair ≡ Some (x, y) →
        IsEntry (graph_of growth.now.set.dag.now) growth.now.set.members.now x y pool.new entry) }
    ensures kept { IfOk result (λ entry. (x y : ℕ) →
        slice_get (pairs_of growth.now.set.dag.now) pair ≡ Some (x, y) →
        KeepIds (graph_of growth.now.set.dag.now) growth.now.before.now growth.now.set.members.now x y before entry) }
    ensures counts { IfOk result (λ entry. (r : ℕ) →
        count_of pool.new r ≡ count_of pool.old r + holds entry r) }
    ensures err { OnErr result (pool.new.rows ≡ pool.old.rows) }
    ensures others { (r : ℕ) → 0 < count_of pool.old r → row_of pool.new r ≡ row_of pool.old r }
    ensures once { IfOk result (λ entry. (r : ℕ) →
        IsOnce (count_of pool.old r) (holds before r) (holds entry r)) }
    ensures moved { IfOk result (λ entry. live pool.new ≤ live pool.old + moved_of before entry) }
{
    match before {
        Some(entry) => {
            let rows = old_entry(growth, pool, pair, entry)?;
            Ok(Some(rows))
        }
        None => brought_entry(&growth.set, pool, pair),
    }
}
