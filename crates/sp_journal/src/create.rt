//! The creation of a journal: its head, behind a gate that is opened last.

ghost use Rattle.std.specs.Prelude.{◌≡◌, ◌+◌, ◌<◌, ◌≤◌, [], length, IfSome, OnOk};
ghost use Rattle.sp_io.specs.Causes.{HasCause};
ghost use Rattle.sp_disk.specs.Moments.{Lasts, Leaves};
ghost use Rattle.sp_journal.specs.Creation.{HoldsJournal, HoldsNone, IsSynced, IsVacant};
ghost use Rattle.sp_journal.specs.Settled.{HasGate, IsTold, SameTold};
ghost use Rattle.sp_journal.specs.declared.gate_kind.Gate.TheVariants.{Shut};

use crate::gate_kind::Gate;
use crate::put::put;
use crate::record::CLOSED;
use sp_disk::Disk;
use sp_io::Failed;

/// Closes the first gate of a disk that holds no journal. One that is closed isn't written again, so
/// that no crash opens it over what stands behind it.
pub(crate) fn close_gate<D: Disk>(disk: &mut D, gate: Gate) -> Result<(), Failed>
    requires vacant { IfSome (D.now disk.old).reads (IsVacant gate) }
    requires synced { gate ≡ Shut → IsSynced (D.now disk.old) }
    ensures ok { OnOk result (IsTold (D.now disk.old) → HasGate [] (D.now disk.new)) }
    ensures place { OnOk result (IfSome (D.now disk.new).reads (λ bytes. 0 < length bytes)) }
    ensures any_moment { IsTold (D.now disk.old) → IsSynced (D.now disk.old)
        → Leaves (D.now disk.old) (D.now disk.new) HoldsNone }
    ensures lasts { IsTold (D.now disk.old) → Lasts (D.now disk.old) (D.now disk.new) HoldsJournal }
    ensures told { SameTold (D.now disk.old) (D.now disk.new) }
    ensures cause { HasCause (D.now disk.old).faults (D.now disk.new).faults result }
{
    match gate {
        Gate::Shut => Ok(()),
        _ => put(disk, 0, &[CLOSED]),
    }
}
