//! A write that is on the disk before anything follows it: the step that each change of the journal
//! is made of.

ghost use Rattle.std.specs.Prelude.{◌+◌, ◌^◌, ◌<◌, ◌≤◌, length, IfSome, OnOk};
ghost use Rattle.sp_io.specs.Causes.{HasCause};
ghost use Rattle.sp_disk.specs.Moments.{Ebbs, Leaves, PartlyWrittenFrom};
ghost use Rattle.sp_journal.specs.Settled.{Puts, SameTold};

use sp_disk::Disk;
use sp_io::Failed;

/// Writes bytes at a place, and waits until they are on the disk. After an error any part of them
/// may stand there.
pub(crate) fn put<D: Disk>(disk: &mut D, at: u64, bytes: &[u8]) -> Result<(), Failed>
    requires place { IfSome (D.now disk.old).reads (λ before. at ≤ length before) }
    requires end { at + length bytes.now < 2 ^ 63 }
    ensures ok { OnOk result (Puts at bytes.now (D.now disk.old) (D.now disk.new)) }
    ensures any_moment { Leaves (D.now disk.old) (D.now disk.new) (PartlyWrittenFrom at (length bytes.now) (D.now disk.old)) }
    ensures ebbs { Ebbs (D.now disk.old) (D.now disk.new) }
    ensures told { SameTold (D.now disk.old) (D.now disk.new) }
    ensures cause { HasCause (D.now disk.old).faults (D.now disk.new).faults result }
{
    disk.write_at(at, bytes)?;
    disk.sync()
}
