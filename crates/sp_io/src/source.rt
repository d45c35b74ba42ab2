//! Where bytes come from. It is a trait of its own, because `std::io::Read` has no count of
//! faults that a contract could name.

ghost use Rattle.std.specs.Prelude.{ℕ, List, Option};
ghost use Rattle.std.specs.Io.{ReadsAtMost};
ghost use Rattle.std.specs.Io.KnownBytes.{ReadConsumes};
ghost use Rattle.sp_io.specs.Causes.{HasCause};

use crate::failed::Failed;

/// Bytes that come.
pub trait Source {
    // The bytes still to come, where the source tells them.
    ghost left: { Self → Option (List ℕ) };

    // How many calls failed. It never falls.
    ghost faults: { Self → ℕ };

    /// Puts the next bytes at the front of `out` and answers their number, which is 0 only at
    /// the end or where `out` is empty. What stands in `out` behind them is left open, and so
    /// is all of `out` after an error.
    ///
    /// # Errors
    ///
    /// `Failed` where the outside refused the call. No byte is lost, and a later call may give
    /// more.
    fn read(&mut self, out: &mut [u8]) -> Result<usize, Failed>
        ensures bound { ReadsAtMost result out.new }
        ensures bytes { ReadConsumes (left self.old) (left self.new) result out.new }
        ensures cause { HasCause (faults self.old) (faults self.new) result };
}
