//! A source over bytes in memory that gives small pieces and fails on demand, so that a caller
//! can be tried against every way in which bytes may come.

ghost use Rattle.std.specs.Prelude.{◌≡◌, ℕ, ◌<◌, ◌↔◌, ◌++◌, min, List, length, take, drop, IsErr, IfOk, OnErr, Option, Some};
ghost use Rattle.std.specs.Io.{ReadsAtMost};
ghost use Rattle.std.specs.Io.KnownBytes.{ReadConsumes};
ghost use Rattle.sp_io.specs.Causes.{HasCause, counted};

use crate::failed::Failed;
use crate::fails::Fails;
use crate::source::Source;
use std::marker::Model;

/// A source over bytes in memory, which gives at most `step` bytes a call.
pub struct MemSource {
    bytes: Vec<u8>,
    at: usize,
    step: u16,
    fails: Fails,
    calls: u64,
    faults: u64,
}

impl Model for MemSource {
    ghost use Rattle.std.specs.Prelude.{◌≤◌, ◌<◌, drop, vec_len};
    ghost use Rattle.sp_io.specs.InMemory.{Giving};

    ghost Value = { Giving };

    ghost view = { λ s. record {
      left = drop s.at s.bytes.items;
      step = s.step;
      fails = s.fails;
      calls = s.calls;
      faults = s.faults;
    } };

    ghost invariant = { λ s. (s.at ≤ vec_len s.bytes) × (0 < s.step) };
}

// Written out, so that where a source is let go there is one call: each such place is proved.
impl Drop for MemSource {
    fn drop(self) {
        let MemSource {
            bytes: _,
            at: _,
            step: _,
            fails: _,
            calls: _,
            faults: _,
        } = self;
    }
}

impl MemSource {
    /// A source that gives `bytes` from the first on, at most `step` of them a call.
    pub fn new(bytes: Vec<u8>, step: u16, fails: Fails) -> MemSource
        requires { 0 < step }
        ensures { result ≡ record {
          left = bytes.items;
          step = step;
          fails = fails;
          calls = 0;
          faults = 0;
        } }
    {
        MemSource {
            bytes,
            at: 0,
            step,
            fails,
            calls: 0,
            faults: 0,
        }
    }
}

impl Source for MemSource {
    ghost use Rattle.sp_io.specs.Fails.{FailsAt};

    ghost left = { λ s. Some s.left };

    ghost faults = { λ s. s.faults };

    /// Gives as many bytes as are left, `out` has room for and a step allows, and leaves the rest
    /// of `out` as it was. The count of faults stays at 2^64 - 1 once it is there.
    ///
    /// # Errors
    ///
    /// `Failed` where the plan says that this call fails, also for an empty `out`.
    fn read(&mut self, out: &mut [u8]) -> Result<usize, Failed>
        ensures bound { ReadsAtMost result out.new }
        ensures bytes { ReadConsumes (Some self.old.left) (Some self.new.left) result out.new }
        ensures cause { HasCause self.old.faults self.new.faults result }

        ensures count { IfOk result (λ n. n ≡ min
            (min (length self.old.left) (length out.old)) self.old.step) }
        ensures copied { IfOk result (λ n. out.new ≡ take n self.old.left ++ drop n out.old) }
        ensures ok { IfOk result (λ n. self.new ≡ record self.old {
          left = drop n self.old.left;
          calls = counted self.old.calls;
        }) }

        ensures failed { IsErr result ↔ FailsAt self.old.fails self.old.calls }
        ensures untouched { OnErr result (out.new ≡ out.old) }
        ensures err { OnErr result (self.new ≡ record self.old {
          calls = counted self.old.calls;
          faults = counted self.old.faults;
        }) }
    {
        let call = self.calls;
        self.calls = call.saturating_add(1);
        if self.fails.holds_at(call) {
            self.faults = self.faults.saturating_add(1);
            return Err(Failed);
        }
        let rest = &self.bytes[self.at..];
        let count = rest.len().min(out.len()).min(usize::from(self.step));
        out[..count].copy_from_slice(&rest[..count]);
        self.at += count;
        Ok(count)
    }
}
