//! The edge where bytes come in: a reader of the standard library as a source. What a file, a
//! socket or a terminal gives is trusted here, and nowhere above.

ghost use Rattle.std.specs.Prelude.{◌≡◌, ◌↔◌, ℕ, IsNone, List, Option};
ghost use Rattle.std.specs.Io.{ReadsAtMost};
ghost use Rattle.std.specs.Io.KnownBytes.{ReadConsumes};
ghost use Rattle.sp_io.specs.Causes.{CountsFault, HasCause};

use crate::failed::Failed;
use crate::retrying::read_retrying;
use crate::source::Source;
use std::io::{Error, ErrorKind, Read};

/// A source over a reader of the standard library.
#[derive(Drop)]
pub struct StdSource<R> {
    reader: R,
    faults: u64,
    // Why the last read that failed did so; any error as long as none has failed.
    last: Error,
}

impl<R: Read> StdSource<R> {
    /// A source that gives what the reader gives, without a buffer of its own.
    pub fn new(reader: R) -> StdSource<R>
        ensures left { ⟦<StdSource<R> as Source>⟧.left result ≡ R.remaining reader }
        ensures faults { ⟦<StdSource<R> as Source>⟧.faults result ≡ 0 }
    {
        StdSource {
            reader,
            faults: 0,
            last: Error::from(ErrorKind::Other),
        }
    }

    /// Why the last read that failed did so, in the reader's own words; `None` exactly where none has failed.
    pub fn reason(&self) -> Option<&Error>
        ensures none { IsNone result ↔ (⟦<StdSource<R> as Source>⟧.faults self.now ≡ 0) }
    {
        if self.faults == 0 {
            None
        } else {
            Some(&self.last)
        }
    }
}

impl<R: Read> Source for StdSource<R> {
    ghost left = { λ s. R.remaining s.reader };

    ghost faults = { λ s. s.faults };

    /// Gives what the reader gives. A read that a signal interrupts is made again, and is no fault. The
    /// count of faults stays at 2^64 - 1 once it is there.
    ///
    /// # Errors
    ///
    /// `Failed` where the reader answers any other error. std's readers count no errors, so that none of
    /// these is passed over is tested and not proved.
    fn read(&mut self, out: &mut [u8]) -> Result<usize, Failed>
        ensures bound { ReadsAtMost result out.new }
        ensures bytes { ReadConsumes
            (⟦<StdSource<R> as Source>⟧.left self.old)
            (⟦<StdSource<R> as Source>⟧.left self.new) result out.new }
        ensures cause { HasCause
            (⟦<StdSource<R> as Source>⟧.faults self.old)
            (⟦<StdSource<R> as Source>⟧.faults self.new) result }
        ensures fault { CountsFault
            (⟦<StdSource<R> as Source>⟧.faults self.old)
            (⟦<StdSource<R> as Source>⟧.faults self.new) result }
    {
        match read_retrying(&mut self.reader, out) {
            Ok(count) => Ok(count),
            Err(error) => {
                self.last = error;
                self.faults = self.faults.saturating_add(1);
                Err(Failed)
            }
        }
    }
}
