//! What stands in the place of a disk where a node has no journal: such a node asks nothing of a disk,
//! though its call names one.

ghost use Rattle.std.specs.Prelude.{◌≡◌, ◌+◌, ◌^◌, ◌<◌, ◌≤◌, length, IfOk, IfSome};
ghost use Rattle.sp_io.specs.Causes.{counted, HasCause};
ghost use Rattle.sp_disk.specs.Moments.{GivesFrom, Looks, Syncs, Writes};
ghost use Rattle.sp_disk.specs.Untold.{untold, untold_is_moment};

use sp_disk::Disk;
use sp_io::Failed;

/// No disk. Each call would fail, and count that.
#[derive(Drop)]
pub struct NoDisk {
    faults: u64,
}

impl NoDisk {
    /// None, of which nothing was asked yet.
    pub fn new() -> NoDisk {
        NoDisk { faults: 0 }
    }

    fn fail(&mut self) -> Failed
        ensures counted { self.new.faults ≡ counted self.old.faults }
        ensures later { self.old.faults ≤ self.new.faults }
    {
        self.faults = self.faults.saturating_add(1);
        Failed
    }
}

#[tactic(auto, using(sp_disk::proofs::UntoldCalls::untold_looks, sp_disk::proofs::UntoldCalls::untold_syncs, sp_disk::proofs::UntoldCalls::untold_writes))]
impl Disk for NoDisk {
    ghost now = { λ d. untold d.faults };

    ghost is_moment = { λ d. untold_is_moment d.faults };

    fn len(&mut self) -> Result<u64, Failed>
        ensures length { IfOk result (λ n. IfSome (⟦<NoDisk as Disk>⟧.now self.old).reads (λ bytes. n ≡ length bytes)) }
        ensures looks { Looks (⟦<NoDisk as Disk>⟧.now self.old) (⟦<NoDisk as Disk>⟧.now self.new) }
        ensures cause { HasCause (⟦<NoDisk as Disk>⟧.now self.old).faults (⟦<NoDisk as Disk>⟧.now self.new).faults result }
    {
        Err(self.fail())
    }

    fn read_at(&mut self, at: u64, out: &mut [u8]) -> Result<usize, Failed>
        ensures bound { IfOk result (λ n. n ≤ length out.new) }
        ensures bytes { IfSome (⟦<NoDisk as Disk>⟧.now self.old).reads (λ bytes. GivesFrom at bytes out.old out.new result) }
        ensures looks { Looks (⟦<NoDisk as Disk>⟧.now self.old) (⟦<NoDisk as Disk>⟧.now self.new) }
        ensures cause { HasCause (⟦<NoDisk as Disk>⟧.now self.old).faults (⟦<NoDisk as Disk>⟧.now self.new).faults result }
    {
        Err(self.fail())
    }

    fn write_at(&mut self, at: u64, bytes: &[u8]) -> Result<(), Failed>
        requires place { IfSome (⟦<NoDisk as Disk>⟧.now self.old).reads (λ before. at ≤ length before) }
        requires end { at + length bytes.now < 2 ^ 63 }
        ensures writes { Writes at bytes.now (⟦<NoDisk as Disk>⟧.now self.old) (⟦<NoDisk as Disk>⟧.now self.new) result }
        ensures cause { HasCause (⟦<NoDisk as Disk>⟧.now self.old).faults (⟦<NoDisk as Disk>⟧.now self.new).faults result }
    {
        Err(self.fail())
    }

    fn sync(&mut self) -> Result<(), Failed>
        ensures syncs { Syncs (⟦<NoDisk as Disk>⟧.now self.old) (⟦<NoDisk as Disk>⟧.now self.new) result }
        ensures cause { HasCause (⟦<NoDisk as Disk>⟧.now self.old).faults (⟦<NoDisk as Disk>⟧.now self.new).faults result }
    {
        Err(self.fail())
    }
}
