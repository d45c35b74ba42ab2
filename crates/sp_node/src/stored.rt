//! What a disk holds before a node starts on it.

ghost use Rattle.std.specs.Prelude.{◌≡◌, ◌≤◌, IfOk, IfSome, IsErrOf};
ghost use Rattle.sp_io.specs.Causes.{Rose};
ghost use Rattle.sp_disk.specs.Moments.{Looks};
ghost use Rattle.sp_journal.specs.declared.fault.JournalFault.TheVariants.{DiskFault};
ghost use Rattle.sp_node.specs.Stored.{IsAnew, IsReady, Tells};

use sp_disk::Disk;
use sp_journal::{Gate, Journal, JournalFault, Opened};
use std::alloc::Global;

/// What a disk holds before a node starts on it.
#[derive(Drop)]
pub enum Stored {
    /// No journal, and what stands at place 0.
    Empty { gate: Gate },
    /// A journal.
    Found(Opened),
}

impl Stored {
    /// What a disk holds. An empty one is asked for its length alone; from another one the journal is
    /// read, after a sync. Where it holds no journal and `fresh` is true, that is no fault; `fresh`
    /// changes nothing else, so a journal is never discarded. Nothing is written.
    ///
    /// # Errors
    ///
    /// `NotJournal` where a disk that isn't empty holds no journal and `fresh` is false. `Damaged` at
    /// the gate of the first record that a journal may not hold. `DiskFault` where the disk refused a
    /// call. `Memory` where there is none for what the disk holds.
    pub fn open<D: Disk>(alloc: Global, disk: &mut D, fresh: bool) -> Result<Stored, JournalFault>
        ensures tells { IfSome (D.now disk.old).reads (λ bytes. Tells fresh bytes result) }
        ensures ready { IfOk result (λ stored. IsReady stored (D.now disk.new)) }
        ensures looks { Looks (D.now disk.old) (D.now disk.new) }
        ensures fault { IsErrOf result DiskFault → Rose (D.now disk.old).faults (D.now disk.new).faults }
        ensures later { (D.now disk.old).faults ≤ (D.now disk.new).faults }
        ensures quiet { (IsErrOf result DiskFault → ⊥) → (D.now disk.new).faults ≡ (D.now disk.old).faults }
    {
        let length = match disk.len() {
            Ok(length) => length,
            Err(_) => return Err(JournalFault::DiskFault),
        };
        if length == 0 {
            return Ok(Stored::Empty {
                gate: Gate::Missing,
            });
        }
        match Journal::open(alloc, disk) {
            Ok(opened) => Ok(Stored::Found(opened)),
            Err(fault) => anew(fault, fresh),
        }
    }
}

// No journal is no fault where a new one is asked for.
fn anew(fault: JournalFault, fresh: bool) -> Result<Stored, JournalFault>
    ensures { IsAnew fault fresh result }
{
    match fault {
        JournalFault::NotJournal { gate } => {
            if fresh {
                Ok(Stored::Empty { gate })
            } else {
                Err(fault)
            }
        }
        _ => Err(fault),
    }
}
