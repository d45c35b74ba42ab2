//! An arrival at a node: the engine first, and the journal next, where there is one.

ghost use Rattle.std.specs.Prelude.{◌≡◌, ◌≤◌, ◌≢◌, Err, None, false, is_some, IfOk, IsErrOf, OnOk};
ghost use Rattle.sp_io.specs.Causes.{Rose};
ghost use Rattle.sp_disk.specs.Moments.{Leaves};
ghost use Rattle.sp_engine.specs.Arrivals.{answer_of, kept_after};
ghost use Rattle.sp_engine.specs.Engine.{IsRefused};
ghost use Rattle.sp_journal.specs.Settled.{IsTold, SameTold};
ghost use Rattle.sp_node.specs.Journalled.{FitsKept, FitsOn, HoldsBeforeOrAfter, IsKeptOn, LeavesOn, StandsForKept};
ghost use Rattle.sp_report.specs.KeptIds as meant;
ghost use Rattle.sp_node.specs.Terms.{terms_in};
ghost use Rattle.sp_node.specs.declared.fault.KeepFault.TheVariants.{DiskFault, Memory};

use crate::fault::KeepFault;
use sp_disk::Disk;
use sp_engine::{Answer, Engine};
use sp_ids::BlockId;
use sp_journal::Journal;

/// The id of the block that is kept now, where one is.
fn kept_id(answer: &Answer) -> Option<BlockId>
    ensures { result ≡ meant.kept_id answer.now }
{
    match answer {
        Answer::Kept { id, .. } | Answer::Held { id } => Some(*id),
        Answer::Known { .. } | Answer::Refused(_) | Answer::Full => None,
    }
}

/// Offers bytes to the engine, and records the block that they spell where it is kept now. `Memory`
/// comes before anything is asked of the disk.
fn keep<D: Disk>(
    engine: &mut Engine,
    journal: &mut Journal,
    disk: &mut D,
    bytes: &[u8],
) -> Result<Answer, KeepFault>
    requires fits { FitsKept (terms_in engine.old) engine.old.kept journal.old }
    requires stands { IsTold (D.now disk.old) → StandsForKept (terms_in engine.old) engine.old.kept journal.old (D.now disk.old) }

    ensures answer { IfOk result (λ answer. answer ≡ answer_of engine.old.bits engine.old.kept bytes.now) }
    ensures kept { OnOk result (engine.new.kept ≡ kept_after engine.old.bits engine.old.kept bytes.now) }
    ensures kept_unsure { result ≡ Err KeepFault.DiskFault
        → engine.new.kept ≡ kept_after engine.old.bits engine.old.kept bytes.now }
    ensures terms { terms_in engine.new ≡ terms_in engine.old }
    ensures fits { OnOk result (FitsKept (terms_in engine.new) engine.new.kept journal.new) }

    ensures acknowledged { OnOk result (IsTold (D.now disk.old)
        → StandsForKept (terms_in engine.new) engine.new.kept journal.new (D.now disk.new)) }
    ensures any_moment { IsTold (D.now disk.old) → Leaves (D.now disk.old) (D.now disk.new)
        (HoldsBeforeOrAfter (terms_in engine.old) engine.old.kept bytes.now) }
    ensures told { SameTold (D.now disk.old) (D.now disk.new) }
    ensures fault { IsErrOf result DiskFault → Rose (D.now disk.old).faults (D.now disk.new).faults }
    ensures memory { IsErrOf result Memory → (disk.new ≡ disk.old) × (journal.new ≡ journal.old) }
    ensures refused { IsErrOf result Memory → IsRefused engine.old engine.new }
    ensures later { (D.now disk.old).faults ≤ (D.now disk.new).faults }
    ensures quiet { (IsErrOf result DiskFault → ⊥) → (D.now disk.new).faults ≡ (D.now disk.old).faults }
{
    // Tells the proof what the kept blocks are.
    let _before = engine.kept_count();
    let answer = engine.offer(bytes)?;
    let Some(id) = kept_id(&answer) else {
        return Ok(answer);
    };
    let Some(block) = engine.block(&id) else {
        unreachable!();
    };
    if journal.append(disk, block).is_err() {
        return Err(KeepFault::DiskFault);
    }
    Ok(answer)
}

/// The same where there is a journal. Where there is none, the disk isn't called.
pub(crate) fn keep_on<D: Disk>(
    engine: &mut Engine,
    journal: &mut Option<Journal>,
    disk: &mut D,
    bytes: &[u8],
) -> Result<Answer, KeepFault>
    requires fits { FitsOn (terms_in engine.old) engine.old.kept journal.old }
    requires stands { IsKeptOn (terms_in engine.old) engine.old.kept journal.old (D.now disk.old) }

    ensures answer { IfOk result (λ answer. answer ≡ answer_of engine.old.bits engine.old.kept bytes.now) }
    ensures kept { OnOk result (engine.new.kept ≡ kept_after engine.old.bits engine.old.kept bytes.now) }
    ensures kept_unsure { result ≡ Err KeepFault.DiskFault
        → engine.new.kept ≡ kept_after engine.old.bits engine.old.kept bytes.now }
    ensures terms { terms_in engine.new ≡ terms_in engine.old }
    ensures fits { OnOk result (FitsOn (terms_in engine.new) engine.new.kept journal.new) }
    ensures has { is_some journal.new ≡ is_some journal.old }

    ensures acknowledged { OnOk result (IsKeptOn (terms_in engine.new) engine.new.kept journal.new (D.now disk.new)) }
    ensures any_moment { LeavesOn journal.old (D.now disk.old) (D.now disk.new)
        (HoldsBeforeOrAfter (terms_in engine.old) engine.old.kept bytes.now) }
    ensures uncalled { journal.old ≡ None → (disk.new ≡ disk.old) × (result ≢ Err KeepFault.DiskFault) }
    ensures told { SameTold (D.now disk.old) (D.now disk.new) }
    ensures fault { IsErrOf result DiskFault → Rose (D.now disk.old).faults (D.now disk.new).faults }
    ensures memory { IsErrOf result Memory → (disk.new ≡ disk.old) × (journal.new ≡ journal.old) }
    ensures refused { IsErrOf result Memory → IsRefused engine.old engine.new }
    ensures later { (D.now disk.old).faults ≤ (D.now disk.new).faults }
    ensures quiet { (IsErrOf result DiskFault → ⊥) → (D.now disk.new).faults ≡ (D.now disk.old).faults }
{
    match journal {
        Some(journal) => keep(engine, journal, disk, bytes),
        None => match engine.offer(bytes) {
            Ok(answer) => Ok(answer),
            Err(_) => Err(KeepFault::Memory),
        },
    }
}
