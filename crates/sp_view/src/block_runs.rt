//! The entries of a view of a set, from those of a view within it, in one pass over the pairs of the
//! set's members. The pairs of one block stand in one run, and a run of a block that isn't in the set
//! is passed over, as no pair of it is inside.

ghost use Rattle.std.specs.Prelude.{◌≡◌, ◌<◌, ◌≤◌, ◌+◌, ◌-◌, ◌^◌, ℕ, [], length, OnOk, slice_get, vec_capacity};
ghost use Rattle.sp_dag.specs.Numbered.{graph_of, pairs_of};
ghost use Rattle.sp_rows.specs.Pool.{Pool};
ghost use Rattle.sp_view.specs.Stored.{count_of, row_of, live};
ghost use Rattle.sp_view.specs.Views.{held, AreEntries, AreKeptIds};
ghost use Rattle.sp_view.specs.Ends.{NoneFrom};
ghost use Rattle.sp_view.specs.Moving.{moved_rows};
ghost use Rattle.sp_view.specs.SoFar.{AreBelow, AreSoFar};

use crate::asked_by_block::entry_of;
use crate::derive::derived_entry;
use crate::growth::Growth;
use crate::last_pair::grow;
use crate::stored::RowName;
use sp_ids::Memory;
use sp_rows::RowPool;

// The entries of the pairs of one run, behind those so far: none where the lower block isn't in the set.
fn derive_run(
    growth: &Growth,
    pool: &mut RowPool,
    base: &[Option<(RowName, RowName)>],
    start: u32,
    stop: u32,
    entries: &mut Vec<Option<(RowName, RowName)>>,
) -> Result<(), Memory>
    requires so_far { (before : Pool) × AreSoFar growth.now.set.dag.now growth.now.before.now growth.now.set.members.now
        base.now before pool.old entries.old.items }
    requires start { length entries.old.items ≡ start }
    requires order { start ≤ stop }
    requires within { stop ≤ length (pairs_of growth.now.set.dag.now) }
    requires capacity { stop ≤ vec_capacity entries.old }
    ensures so_far { (before : Pool) →
        AreSoFar growth.now.set.dag.now growth.now.before.now growth.now.set.members.now
        base.now before pool.old entries.old.items →
        AreSoFar growth.now.set.dag.now growth.now.before.now growth.now.set.members.now
        base.now before pool.new entries.new.items }
    ensures stop { OnOk result (length entries.new.items ≡ stop) }
    ensures capacity { vec_capacity entries.new ≡ vec_capacity entries.old }
{
    // Tells the proof that there are at most 512 blocks, and 130,816 pairs.
    let set = &growth.set;
    let _blocks = set.dag.len();
    let _pairs = set.dag.pair_count();
    'pairs: for pair in start..stop {
        if !set.members.test(set.dag.pair(pair).0) {
            entries.push_reserved(None);
            continue;
        }
        let before = entry_of(base, pair as usize);
        let entry = derived_entry(growth, pool, pair, before)?;
        entries.push_reserved(entry);
    }
    Ok(())
}

// The entries up to the end of the run of a block: none for the pairs before that run.
fn derive_block(
    growth: &Growth,
    pool: &mut RowPool,
    base: &[Option<(RowName, RowName)>],
    block: u16,
    end: u32,
    entries: &mut Vec<Option<(RowName, RowName)>>,
) -> Result<(), Memory>
    requires so_far { (before : Pool) × AreSoFar growth.now.set.dag.now growth.now.before.now growth.now.set.members.now
        base.now before pool.old entries.old.items }
    requires present { block < length growth.now.set.dag.now.parents }
    requires within { end ≤ length (pairs_of growth.now.set.dag.now) }
    requires none { NoneFrom growth.now.set.dag.now growth.now.set.members.now end }
    requires below { AreBelow growth.now.set.dag.now growth.now.set.members.now end block (length entries.old.items) }
    requires capacity { end ≤ vec_capacity entries.old }
    ensures so_far { (before : Pool) →
        AreSoFar growth.now.set.dag.now growth.now.before.now growth.now.set.members.now
        base.now before pool.old entries.old.items →
        AreSoFar growth.now.set.dag.now growth.now.before.now growth.now.set.members.now
        base.now before pool.new entries.new.items }
    ensures below { OnOk result
        (AreBelow growth.now.set.dag.now growth.now.set.members.now end (block + 1) (length entries.new.items)) }
    ensures capacity { vec_capacity entries.new ≡ vec_capacity entries.old }
{
    // Tells the proof that there are at most 512 blocks.
    let dag = growth.set.dag;
    let _blocks = dag.len();
    let start = dag.first_pair(block).min(end);
    let stop = dag.first_pair(block + 1).min(end);
    grow(entries, start as usize);
    derive_run(growth, pool, base, start, stop, entries)
}

// The entries of the view of a set, from those of the view of a set within it: up to a number from which no
// pair is inside the set.
pub(crate) fn derive_entries(
    growth: &Growth,
    pool: &mut RowPool,
    base: &[Option<(RowName, RowName)>],
    end: u32,
    entries: &mut Vec<Option<(RowName, RowName)>>,
) -> Result<(), Memory>
    requires entry { AreEntries growth.now.set.dag.now growth.now.before.now pool.old base.now }
    requires live { (r : ℕ) → held base.now r ≤ count_of pool.old r }
    requires once { (r : ℕ) → held base.now r ≤ 1 }
    requires few { (r : ℕ) → 0 < held base.now r → count_of pool.old r < 2 ^ 32 - 1 }
    requires within { end ≤ length (pairs_of growth.now.set.dag.now) }
    requires none { NoneFrom growth.now.set.dag.now growth.now.set.members.now end }
    requires empty { entries.old.items ≡ [] }
    requires capacity { end ≤ vec_capacity entries.old }
    requires room { live pool.old < 2 ^ 29 }
    ensures long { OnOk result (length entries.new.items ≡ end) }
    ensures entry { OnOk result
        (AreEntries growth.now.set.dag.now growth.now.set.members.now pool.new entries.new.items) }
    ensures kept { OnOk result (AreKeptIds growth.now.set.dag.now growth.now.before.now growth.now.set.members.now
        base.now entries.new.items) }
    ensures counts { (r : ℕ) →
        count_of pool.new r ≡ count_of pool.old r + held entries.new.items r }
    ensures others { (r : ℕ) → 0 < count_of pool.old r → row_of pool.new r ≡ row_of pool.old r }
    ensures once { (r : ℕ) → held entries.new.items r ≤ 1 }
    ensures live { OnOk result (live pool.new ≤ live pool.old
        + moved_rows (graph_of growth.now.set.dag.now) growth.now.before.now growth.now.set.members.now
        (pairs_of growth.now.set.dag.now)) }
{
    let set = &growth.set;
    'runs: for block in 0..set.dag.len() {
        if set.members.test(block) {
            derive_block(growth, pool, base, block, end, entries)?;
        }
    }
    grow(entries, end as usize);
    Ok(())
}
