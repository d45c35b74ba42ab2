//! What the texts list, in the order of the naming. All the memory that a text takes is taken here,
//! before any of it is written.

ghost use Rattle.std.specs.Prelude.{◌≡◌, ◌≤◌, false, IfOk, length, vec_len};
ghost use Rattle.std.specs.List.Sorted.{IsSorted};
ghost use Rattle.std.specs.Ordering.{nat_cmp};
ghost use Rattle.sp_model.specs.Graph.{AreDistinct};
ghost use Rattle.sp_names.specs.Labels.{in_order};
ghost use Rattle.sp_report.specs.Naming.{labels_of};
ghost use Rattle.sp_report.specs.Texts as meant;

use crate::listed::{ascending_accepted, ascending_ids, ascending_paid};
use crate::naming::Naming;
use sp_engine::Engine;
use sp_ids::{BlockId, Lock, Memory, TxId};
use sp_names::Names;
use std::alloc::Global;

// These blocks, which ascend, in the order of naming.
fn blocks_by_names(names: &Names, ids: &[BlockId]) -> Result<Vec<BlockId>, Memory>
    requires sorted { IsSorted nat_cmp ids.now }
    requires once { AreDistinct ids.now }
    ensures order { IfOk result (λ ordered. ordered.items ≡ in_order names.now.blocks ids.now) }
    ensures long { IfOk result (λ ordered. vec_len ordered ≡ length ids.now) }
{
    // Tell the proof that no block has two names.
    let _count = names.block_count();
    let ordered = names.blocks_in_order(ids)?;
    Ok(ordered)
}

// These transactions, which ascend, in the order of naming.
fn txs_by_names(names: &Names, ids: &[TxId]) -> Result<Vec<TxId>, Memory>
    requires sorted { IsSorted nat_cmp ids.now }
    requires once { AreDistinct ids.now }
    ensures order { IfOk result (λ ordered. ordered.items ≡ in_order names.now.txs ids.now) }
    ensures long { IfOk result (λ ordered. vec_len ordered ≡ length ids.now) }
{
    // Tell the proof that no transaction has two names.
    let _count = names.tx_count();
    let ordered = names.txs_in_order(ids)?;
    Ok(ordered)
}

// These locks, which ascend, in the order of naming.
fn locks_by_names(names: &Names, locks: &[Lock]) -> Result<Vec<Lock>, Memory>
    requires sorted { IsSorted nat_cmp locks.now }
    requires once { AreDistinct locks.now }
    ensures order { IfOk result (λ ordered. ordered.items ≡ in_order names.now.locks locks.now) }
    ensures long { IfOk result (λ ordered. vec_len ordered ≡ length locks.now) }
{
    // Tell the proof that no lock has two names.
    let _count = names.lock_count();
    let ordered = names.locks_in_order(locks)?;
    Ok(ordered)
}

/// The ids of the present blocks in the order of the naming, at most 512. It takes the time of a
/// sort of them, and of a look-up of each of them and of each name.
///
/// # Errors
///
/// `Memory` where there was none for them.
#[tactic(auto, using(crate::proofs::NamedIds::order_without_names))]
pub fn present_ids(
    alloc: Global,
    engine: &Engine,
    naming: &Naming<'_>,
) -> Result<Vec<BlockId>, Memory>
    ensures order { IfOk result (λ ids.
        ids.items ≡ meant.present_ids (labels_of naming.now) engine.now.kept) }
    ensures few { IfOk result (λ ids. vec_len ids ≤ 512) }
{
    let ids = ascending_ids(alloc, engine)?;
    match naming {
        Naming::Hex => Ok(ids),
        Naming::Names(names) => {
            let ordered = blocks_by_names(names, ids.as_slice())?;
            Ok(ordered)
        }
    }
}

/// The ids of the accepted transactions of the present blocks in the order of the naming. It takes
/// the time of a sort of them, of a pass over all transactions, and of a look-up of each of them and
/// of each name.
///
/// # Errors
///
/// `Memory` where there was none for them.
#[tactic(auto, using(crate::proofs::NamedIds::order_without_names))]
pub(crate) fn accepted_ids(
    alloc: Global,
    engine: &Engine,
    naming: &Naming<'_>,
) -> Result<Vec<TxId>, Memory>
    ensures order { IfOk result (λ ids.
        ids.items ≡ meant.accepted_ids engine.now.profile (labels_of naming.now) engine.now.kept) }
    ensures few { IfOk result (λ ids. vec_len ids ≤ 131072) }
{
    let ids = ascending_accepted(alloc, engine)?;
    match naming {
        Naming::Hex => Ok(ids),
        Naming::Names(names) => {
            let ordered = txs_by_names(names, ids.as_slice())?;
            Ok(ordered)
        }
    }
}

/// The locks under which the accepted transactions of the present blocks leave something, in the
/// order of the naming. It takes the time of a sort of them, of a pass over all locks, and of a
/// look-up of each of them and of each name.
///
/// # Errors
///
/// `Memory` where there was none for them.
#[tactic(auto, using(crate::proofs::NamedIds::order_without_names))]
pub(crate) fn paid_locks(
    alloc: Global,
    engine: &Engine,
    naming: &Naming<'_>,
) -> Result<Vec<Lock>, Memory>
    ensures order { IfOk result (λ paid.
        paid.items ≡ meant.paid_locks engine.now.profile (labels_of naming.now) engine.now.kept) }
    ensures few { IfOk result (λ paid. vec_len paid ≤ 2097152) }
{
    let paid = ascending_paid(alloc, engine)?;
    match naming {
        Naming::Hex => Ok(paid),
        Naming::Names(names) => {
            let ordered = locks_by_names(names, paid.as_slice())?;
            Ok(ordered)
        }
    }
}
