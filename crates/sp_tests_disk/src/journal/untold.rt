//! A disk in memory that tells nothing of what it holds, as a file does. What a call asks of a disk's
//! bytes is asked only where they are told, so a test may call over any bytes.

ghost use Rattle.std.specs.Prelude.{◌≡◌, ◌+◌, ◌^◌, ◌<◌, ◌≤◌, length, IfOk, Ok};
ghost use Rattle.sp_io.specs.Causes.{CountsFault};
ghost use Rattle.sp_disk.specs.Untold.{untold, untold_is_moment};

use sp_disk::{Disk, MemDisk, Pick};
use sp_ids::Memory;
use sp_io::{Failed, Fails};
use std::alloc::Global;

/// A disk in memory, and how many of its calls failed.
#[derive(Drop)]
pub struct Untold {
    disk: MemDisk,
    faults: u64,
}

impl Untold {
    /// A disk of 4,096 bytes in all writes and of 64 calls, which begins with these bytes.
    pub fn of(alloc: Global, bytes: &[u8], fails: Fails) -> Result<Untold, Memory> {
        let bytes = Vec::from_slice(alloc, bytes)?;
        let capacity = bytes.len().saturating_add(4096);
        let disk = MemDisk::new(alloc, bytes, capacity, 64, fails)?;
        Ok(Untold { disk, faults: 0 })
    }

    /// One outcome of a crash now.
    pub fn image(&self, pick: Pick) -> Result<Vec<u8>, Memory> {
        self.disk.image(pick)
    }

    /// The number of calls that failed.
    pub fn faults(&self) -> u64 {
        self.faults
    }

    // Writes where the place isn't behind the end.
    fn write_within(&mut self, at: u64, bytes: &[u8]) -> Result<(), Failed>
        requires { at + length bytes.now < 2 ^ 63 }
        ensures { self.new.faults ≡ self.old.faults }
    {
        let Ok(now) = self.disk.image(Pick::New) else {
            return Err(Failed);
        };
        if at > now.len() as u64 {
            return Err(Failed);
        }
        self.disk.write_at(at, bytes)
    }
}

/// Counts a fault where a call failed. The count stays at 2^64 - 1 once it is there.
fn count<T: Drop>(outcome: Result<T, Failed>, faults: &mut u64) -> Result<T, Failed>
    ensures counted { CountsFault faults.old faults.new result }
    ensures later { faults.old ≤ faults.new }
    ensures same { IfOk result (λ found. outcome ≡ Ok found) }
{
    match outcome {
        Ok(found) => Ok(found),
        Err(_) => {
            *faults = faults.saturating_add(1);
            Err(Failed)
        }
    }
}

#[tactic(auto, using(sp_disk::proofs::UntoldCalls::untold_looks, sp_disk::proofs::UntoldCalls::untold_syncs, sp_disk::proofs::UntoldCalls::untold_writes))]
impl Disk for Untold {
    ghost now = { λ d. untold d.faults };

    ghost is_moment = { λ d. untold_is_moment d.faults };

    fn len(&mut self) -> Result<u64, Failed> {
        let outcome = self.disk.len();
        count(outcome, &mut self.faults)
    }

    fn read_at(&mut self, at: u64, out: &mut [u8]) -> Result<usize, Failed> {
        let outcome = self.disk.read_at(at, out);
        count(outcome, &mut self.faults)
    }

    fn write_at(&mut self, at: u64, bytes: &[u8]) -> Result<(), Failed> {
        let outcome = self.write_within(at, bytes);
        count(outcome, &mut self.faults)
    }

    fn sync(&mut self) -> Result<(), Failed> {
        let outcome = self.disk.sync();
        count(outcome, &mut self.faults)
    }
}
