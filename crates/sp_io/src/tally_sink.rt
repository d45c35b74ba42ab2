//! A sink that keeps the number of the bytes and none of them, for callers that write for the work
//! alone, or to learn how long a text is.

ghost use Rattle.std.specs.Prelude.{◌≡◌, ◌+◌, ◌-◌, ◌^◌, ◌≤◌, ◌<◌, min, length, IsOk, IfOk, Option, None};
ghost use Rattle.std.specs.Io.KnownBytes.{WriteAppends};
ghost use Rattle.sp_io.specs.Causes.{HasCause};

use crate::failed::Failed;
use crate::sink::Sink;
use std::marker::Model;

/// A sink that takes all and never fails. Contracts see the number of the bytes taken so far.
#[derive(Drop)]
pub struct TallySink {
    total: u64,
}

impl Model for TallySink {
    ghost use Rattle.std.specs.Prelude.{ℕ};

    ghost Value = { ℕ };

    ghost view = { λ s. s.total };
}

impl TallySink {
    /// A sink that has taken nothing.
    pub fn new() -> TallySink
        ensures { result ≡ 0 }
    {
        TallySink { total: 0 }
    }

    /// How many bytes were taken so far. It stays at 2^64 - 1 once it is there.
    pub fn total(&self) -> u64
        ensures { result ≡ self.now }
    {
        self.total
    }
}

impl Sink for TallySink {
    ghost taken = { λ _. None };

    ghost faults = { λ _. 0 };

    /// Takes the whole of `piece` and counts its bytes. It never fails.
    fn write(&mut self, piece: &[u8]) -> Result<usize, Failed>
        ensures bound { IfOk result (λ n. n ≤ length piece.now) }
        ensures progress { IfOk result (λ n. 0 < length piece.now → 0 < n) }
        ensures bytes { WriteAppends None None result piece.now }
        ensures cause { HasCause 0 0 result }

        ensures ok { IsOk result }
        ensures count { IfOk result (λ n. n ≡ length piece.now) }
        ensures total { self.new ≡ min (self.old + length piece.now) (2 ^ 64 - 1) }
    {
        self.total = self.total.saturating_add(piece.len() as u64);
        Ok(piece.len())
    }
}
