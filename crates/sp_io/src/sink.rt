//! Where bytes go. It is a trait of its own, because `std::io::Write` has no count of faults
//! that a contract could name, and may take nothing of a piece without an error.

ghost use Rattle.std.specs.Prelude.{ℕ, ◌<◌, ◌≤◌, List, length, IfOk, Option};
ghost use Rattle.std.specs.Io.KnownBytes.{WriteAppends};
ghost use Rattle.sp_io.specs.Causes.{HasCause};

use crate::failed::Failed;

/// A place for bytes.
pub trait Sink {
    // The bytes taken so far, where the sink tells them.
    ghost taken: { Self → Option (List ℕ) };

    // How many calls failed. It never falls.
    ghost faults: { Self → ℕ };

    /// Takes bytes from the front of `piece` and answers their number, which is 0 only where
    /// `piece` is empty.
    ///
    /// # Errors
    ///
    /// `Failed` where the outside refused the call. Nothing was taken, and a later call may
    /// take more.
    fn write(&mut self, piece: &[u8]) -> Result<usize, Failed>
        ensures bound { IfOk result (λ n. n ≤ length piece.now) }
        ensures progress { IfOk result (λ n. 0 < length piece.now → 0 < n) }
        ensures bytes { WriteAppends (taken self.old) (taken self.new) result piece.now }
        ensures cause { HasCause (faults self.old) (faults self.new) result };
}
