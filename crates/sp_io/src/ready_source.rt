//! A source over bytes in memory that gives them as fast as they are asked for and never fails,
//! for callers whose input is all there.

ghost use Rattle.std.specs.Prelude.{◌≡◌, ◌++◌, min, length, take, drop, IsOk, IfOk, Option, Some};
ghost use Rattle.std.specs.Io.{ReadsAtMost};
ghost use Rattle.std.specs.Io.KnownBytes.{ReadConsumes};
ghost use Rattle.sp_io.specs.Causes.{HasCause};

use crate::failed::Failed;
use crate::source::Source;
use std::marker::Model;

/// A source over bytes in memory, which never fails. Contracts see the bytes still to come.
#[derive(Drop)]
pub struct ReadySource {
    bytes: Vec<u8>,
    at: usize,
}

impl Model for ReadySource {
    ghost use Rattle.std.specs.Prelude.{◌≤◌, ℕ, List, drop, vec_len};

    ghost Value = { List ℕ };

    ghost view = { λ s. drop s.at s.bytes.items };

    ghost invariant = { λ s. s.at ≤ vec_len s.bytes };
}

impl ReadySource {
    /// A source that gives `bytes` from the first on.
    pub fn new(bytes: Vec<u8>) -> ReadySource
        ensures { result ≡ bytes.items }
    {
        ReadySource { bytes, at: 0 }
    }
}

impl Source for ReadySource {
    ghost left = { λ s. Some s };

    ghost faults = { λ _. 0 };

    /// Gives as many bytes as are left and `out` has room for, and leaves the rest of `out` as it
    /// was. It never fails.
    fn read(&mut self, out: &mut [u8]) -> Result<usize, Failed>
        ensures bound { ReadsAtMost result out.new }
        ensures bytes { ReadConsumes (Some self.old) (Some self.new) result out.new }
        ensures cause { HasCause 0 0 result }

        ensures ok { IsOk result }
        ensures count { IfOk result (λ n. n ≡ min (length self.old) (length out.old)) }
        ensures copied { IfOk result (λ n. out.new ≡ take n self.old ++ drop n out.old) }
        ensures left { IfOk result (λ n. self.new ≡ drop n self.old) }
    {
        let rest = &self.bytes[self.at..];
        let count = rest.len().min(out.len());
        out[..count].copy_from_slice(&rest[..count]);
        self.at += count;
        Ok(count)
    }
}
