//! What the texts list, in ascending order: as it stands where ids are told in hexadecimal.

ghost use Rattle.std.specs.Prelude.{◌≡◌, ◌≤◌, ◌==◌, false, filter, IfOk, not, vec_len};
ghost use Rattle.std.specs.List.Sorted.{IsSorted};
ghost use Rattle.std.specs.Ordering.{nat_cmp};
ghost use Rattle.sp_block.specs.Ascending.{ascending};
ghost use Rattle.sp_carry.specs.Ledger.{is_accepted};
ghost use Rattle.sp_engine.specs.Presence.{order_of};
ghost use Rattle.sp_engine.specs.Transactions.{balance_by_id, ledger_by_id, locks, tx_ids};
ghost use Rattle.sp_model.specs.Graph.{AreDistinct};
ghost use Rattle.sp_pool.specs.Kept.{present};

use sp_engine::Engine;
use sp_ids::{BlockId, Lock, Memory, TxId};
use sp_names::push_wanted;
use std::alloc::Global;

// The ids of the present blocks in the order in which they became so.
fn numbered_ids(alloc: Global, engine: &Engine) -> Result<Vec<BlockId>, Memory>
    ensures { IfOk result (λ ids. ids.items ≡ order_of engine.now.kept) }
{
    let count = engine.present();
    let mut ids = Vec::new(alloc);
    'number: for number in 0..count {
        ids.push(engine.id_at(number))?;
    }
    Ok(ids)
}

/// The ids of the present blocks, ascending. It takes the time of a sort.
///
/// # Errors
///
/// `Memory` where there was none for them.
pub(crate) fn ascending_ids(alloc: Global, engine: &Engine) -> Result<Vec<BlockId>, Memory>
    ensures items { IfOk result (λ ids. ids.items ≡ ascending (present engine.now.kept)) }
    ensures sorted { IfOk result (λ ids. IsSorted nat_cmp ids.items) }
    ensures once { IfOk result (λ ids. AreDistinct ids.items) }
    ensures few { IfOk result (λ ids. vec_len ids ≤ 512) }
{
    // Tell the proof what the order of presence is.
    let _kept = engine.kept_count();
    let _present = engine.present();
    let mut ids = numbered_ids(alloc, engine)?;
    ids.sort_unstable();
    Ok(ids)
}

// The ids of the accepted transactions in the order in which they were numbered.
fn numbered_accepted(alloc: Global, engine: &Engine) -> Result<Vec<TxId>, Memory>
    ensures items { IfOk result (λ ids. ids.items ≡ filter
        (λ id. is_accepted (ledger_by_id engine.now.profile engine.now.kept) (present engine.now.kept) id)
        (tx_ids engine.now.kept)) }
    ensures few { IfOk result (λ ids. vec_len ids ≤ 131072) }
{
    let count = engine.tx_count();
    let mut ids = Vec::new(alloc);
    'number: for number in 0..count {
        let (id, accepted) = engine.tx_at(number);
        push_wanted(&mut ids, id, accepted)?;
    }
    Ok(ids)
}

/// The ids of the accepted transactions of the present blocks, ascending. It takes the time of a
/// sort of them, and of a pass over all transactions.
///
/// # Errors
///
/// `Memory` where there was none for them.
pub(crate) fn ascending_accepted(alloc: Global, engine: &Engine) -> Result<Vec<TxId>, Memory>
    ensures items { IfOk result (λ ids. ids.items ≡ ascending (filter
        (λ id. is_accepted (ledger_by_id engine.now.profile engine.now.kept) (present engine.now.kept) id)
        (tx_ids engine.now.kept))) }
    ensures sorted { IfOk result (λ ids. IsSorted nat_cmp ids.items) }
    ensures once { IfOk result (λ ids. AreDistinct ids.items) }
    ensures few { IfOk result (λ ids. vec_len ids ≤ 131072) }
{
    // Tell the proof that no id is listed twice.
    let _count = engine.tx_count();
    let mut accepted = numbered_accepted(alloc, engine)?;
    accepted.sort_unstable();
    Ok(accepted)
}

// The locks under which something is left, in the order in which they were numbered.
fn numbered_paid(alloc: Global, engine: &Engine) -> Result<Vec<Lock>, Memory>
    ensures items { IfOk result (λ paid. paid.items
        ≡ filter (λ lock. not (balance_by_id engine.now.profile engine.now.kept lock == 0)) (locks engine.now.kept)) }
    ensures few { IfOk result (λ paid. vec_len paid ≤ 2097152) }
{
    let count = engine.lock_count();
    let mut paid = Vec::new(alloc);
    'number: for number in 0..count {
        let (lock, balance) = engine.lock_at(number);
        push_wanted(&mut paid, lock, balance != 0)?;
    }
    Ok(paid)
}

/// The locks under which the accepted transactions of the present blocks leave something, ascending.
/// It takes the time of a sort of them, and of a pass over all locks.
///
/// # Errors
///
/// `Memory` where there was none for them.
pub(crate) fn ascending_paid(alloc: Global, engine: &Engine) -> Result<Vec<Lock>, Memory>
    ensures items { IfOk result (λ paid. paid.items ≡ ascending (filter
        (λ lock. not (balance_by_id engine.now.profile engine.now.kept lock == 0)) (locks engine.now.kept))) }
    ensures sorted { IfOk result (λ paid. IsSorted nat_cmp paid.items) }
    ensures once { IfOk result (λ paid. AreDistinct paid.items) }
    ensures few { IfOk result (λ paid. vec_len paid ≤ 2097152) }
{
    // Tell the proof that no lock is listed twice.
    let _count = engine.lock_count();
    let mut paid = numbered_paid(alloc, engine)?;
    paid.sort_unstable();
    Ok(paid)
}
