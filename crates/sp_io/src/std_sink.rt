//! The edge where bytes go out: a writer of the standard library as a sink. What a file, a
//! socket or a terminal does with them is trusted here, and nowhere above.

ghost use Rattle.std.specs.Prelude.{◌≡◌, ◌↔◌, ℕ, ◌≤◌, ◌<◌, List, length, IfOk, IsNone, Option};
ghost use Rattle.std.specs.Io.KnownBytes.{WriteAppends};
ghost use Rattle.sp_io.specs.Causes.{CountsFault, HasCause};

use crate::failed::Failed;
use crate::retrying::write_retrying;
use crate::sink::Sink;
use std::io::{Error, ErrorKind, Write};

/// A sink over a writer of the standard library.
#[derive(Drop)]
pub struct StdSink<W> {
    writer: W,
    faults: u64,
    // Why the last write that failed did so; any error as long as none has failed.
    last: Error,
}

impl<W: Write> StdSink<W> {
    /// A sink that passes all on to the writer, without a buffer of its own: pass a buffered writer
    /// as `&mut`, and flush it afterwards.
    pub fn new(writer: W) -> StdSink<W>
        ensures taken { ⟦<StdSink<W> as Sink>⟧.taken result ≡ W.contents writer }
        ensures faults { ⟦<StdSink<W> as Sink>⟧.faults result ≡ 0 }
    {
        StdSink {
            writer,
            faults: 0,
            last: Error::from(ErrorKind::Other),
        }
    }

    /// Why the last write that failed did so, in the writer's own words, and `WriteZero` where it took
    /// nothing; `None` exactly where none has failed.
    pub fn reason(&self) -> Option<&Error>
        ensures none { IsNone result ↔ (⟦<StdSink<W> as Sink>⟧.faults self.now ≡ 0) }
    {
        if self.faults == 0 {
            None
        } else {
            Some(&self.last)
        }
    }
}

// Why a writer took nothing.
fn refusal(answer: Result<usize, Error>) -> Error {
    match answer {
        Ok(_) => Error::from(ErrorKind::WriteZero),
        Err(error) => error,
    }
}

impl<W: Write> Sink for StdSink<W> {
    ghost taken = { λ s. W.contents s.writer };

    ghost faults = { λ s. s.faults };

    /// Passes a front of `piece` on to the writer. A write that a signal interrupts is made again, and is
    /// no fault. The count of faults stays at 2^64 - 1 once it is there.
    ///
    /// # Errors
    ///
    /// `Failed` where the writer answers any other error, or takes nothing of a piece that isn't empty.
    /// std's writers count no errors, so that none of these is passed over is tested and not proved.
    fn write(&mut self, piece: &[u8]) -> Result<usize, Failed>
        ensures bound { IfOk result (λ n. n ≤ length piece.now) }
        ensures progress { IfOk result (λ n. 0 < length piece.now → 0 < n) }
        ensures bytes { WriteAppends
            (⟦<StdSink<W> as Sink>⟧.taken self.old)
            (⟦<StdSink<W> as Sink>⟧.taken self.new) result piece.now }
        ensures cause { HasCause
            (⟦<StdSink<W> as Sink>⟧.faults self.old)
            (⟦<StdSink<W> as Sink>⟧.faults self.new) result }
        ensures fault { CountsFault
            (⟦<StdSink<W> as Sink>⟧.faults self.old)
            (⟦<StdSink<W> as Sink>⟧.faults self.new) result }
    {
        match write_retrying(&mut self.writer, piece) {
            Ok(count) if 0 < count || piece.is_empty() => Ok(count),
            other => {
                self.last = refusal(other);
                self.faults = self.faults.saturating_add(1);
                Err(Failed)
            }
        }
    }
}
