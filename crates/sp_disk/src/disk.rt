//! What a disk is. A clock stands in its contracts, so that a clause can speak of a crash at each
//! moment within a call, and not only of those between two calls.
//!
//! Between two syncs a crash may leave any bytes in the written ranges and behind the old end, a length
//! from the old one to the greatest that the writes reach, and elsewhere the bytes that a read gives.

ghost use Rattle.std.specs.Prelude.{◌≡◌, ℕ, ◌+◌, ◌^◌, ◌<◌, ◌≤◌, length, IfOk, IfSome};
ghost use Rattle.sp_io.specs.Causes.{HasCause};
ghost use Rattle.sp_disk.specs.Moments.{GivesFrom, IsMoment, Looks, Moment, Syncs, Writes};

use sp_io::Failed;

/// A file of bytes that may crash. A disk needn't tell its bytes; the clauses on them hold where it does,
/// and one that tells them goes on to. Each call fails only where the count of faults rose in it, and
/// else leaves that count as it was; a count that stands at 2^64 - 1 counts as risen.
pub trait Disk {
    // What a read gives, which images a crash may leave, and how often a call failed.
    ghost now: { Self → Moment };

    /// The number of bytes.
    ///
    /// # Errors
    ///
    /// `Failed`, which changes nothing of the bytes.
    fn len(&mut self) -> Result<u64, Failed>
        ensures length { IfOk result (λ n. IfSome (now self.old).reads (λ bytes. n ≡ length bytes)) }
        ensures looks { Looks (now self.old) (now self.new) }
        ensures cause { HasCause (now self.old).faults (now self.new).faults result };

    /// Puts the bytes from a place on at the front of `out`, and answers their number: as many as
    /// there are and as there is room for. What stands in `out` behind them is left open.
    ///
    /// # Errors
    ///
    /// `Failed`, which changes nothing of the bytes, and leaves open what stands in `out`.
    fn read_at(&mut self, at: u64, out: &mut [u8]) -> Result<usize, Failed>
        ensures bound { IfOk result (λ n. n ≤ length out.new) }
        ensures bytes { IfSome (now self.old).reads (λ bytes. GivesFrom at bytes out.old out.new result) }
        ensures looks { Looks (now self.old) (now self.new) }
        ensures cause { HasCause (now self.old).faults (now self.new).faults result };

    /// Writes over what is there, and behind the end. Until a sync that succeeds, a crash may leave any
    /// bytes in the range, also where the call failed.
    ///
    /// # Errors
    ///
    /// `Failed`, after which a read gives any part of the write, or none of it.
    fn write_at(&mut self, at: u64, bytes: &[u8]) -> Result<(), Failed>
        requires place { IfSome (now self.old).reads (λ before. at ≤ length before) }
        requires end { at + length bytes.now < 2 ^ 63 }
        ensures writes { Writes at bytes.now (now self.old) (now self.new) result }
        ensures cause { HasCause (now self.old).faults (now self.new).faults result };

    /// After it, a crash leaves what a read gives.
    ///
    /// # Errors
    ///
    /// `Failed`, after which a crash leaves nothing that it might not have left before.
    fn sync(&mut self) -> Result<(), Failed>
        ensures syncs { Syncs (now self.old) (now self.new) result }
        ensures cause { HasCause (now self.old).faults (now self.new).faults result };

    // What is true of it at each moment.
    ghost is_moment: { (disk : Self) → IsMoment (now disk) };
}
