//! A sink in memory that takes small pieces, is full at a capacity and fails on demand, so that
//! a caller can be tried against every way in which bytes may be refused.

ghost use Rattle.std.specs.Prelude.{◌≡◌, ℕ, ◌-◌, ◌≤◌, ◌<◌, ◌↔◌, ◌++◌, min, List, [], length, take, IsErr, IfOk, OnErr, Option, Some};
ghost use Rattle.std.specs.Io.KnownBytes.{WriteAppends};
ghost use Rattle.sp_io.specs.Causes.{HasCause, counted};

use crate::failed::Failed;
use crate::fails::Fails;
use crate::sink::Sink;
use sp_ids::Memory;
use std::alloc::Global;
use std::marker::Model;

/// A sink in memory, which takes at most `step` bytes a call and `capacity` bytes in all.
pub struct MemSink {
    bytes: Vec<u8>,
    capacity: usize,
    step: u16,
    fails: Fails,
    calls: u64,
    faults: u64,
}

impl Model for MemSink {
    ghost use Rattle.std.specs.Prelude.{◌≤◌, ◌<◌, vec_len, vec_capacity};
    ghost use Rattle.sp_io.specs.InMemory.{Taking};

    ghost Value = { Taking };

    ghost view = { λ s. record {
      taken = s.bytes.items;
      capacity = s.capacity;
      step = s.step;
      fails = s.fails;
      calls = s.calls;
      faults = s.faults;
    } };

    // The room is there from the first, so that no write takes memory.
    ghost invariant = { λ s.
        (vec_len s.bytes ≤ s.capacity) × (s.capacity ≤ vec_capacity s.bytes) × (0 < s.step) };
}

// Written out, so that where a sink is let go there is one call: each such place is proved.
impl Drop for MemSink {
    fn drop(self) {
        let MemSink {
            bytes: _,
            capacity: _,
            step: _,
            fails: _,
            calls: _,
            faults: _,
        } = self;
    }
}

impl MemSink {
    /// An empty sink with room for `capacity` bytes, which takes at most `step` of them a call.
    ///
    /// # Errors
    ///
    /// `Memory` where the room can't be had. No later call takes memory.
    pub fn new(alloc: Global, capacity: usize, step: u16, fails: Fails) -> Result<MemSink, Memory>
        requires { 0 < step }
        ensures { IfOk result (λ sink. sink ≡ record {
          taken = [];
          capacity = capacity;
          step = step;
          fails = fails;
          calls = 0;
          faults = 0;
        }) }
    {
        let bytes = Vec::with_capacity(alloc, capacity)?;
        Ok(MemSink {
            bytes,
            capacity,
            step,
            fails,
            calls: 0,
            faults: 0,
        })
    }

    /// The bytes taken so far, the first of them first.
    pub fn bytes(&self) -> &[u8]
        ensures taken { result.now ≡ self.now.taken }
        ensures within { length result.now ≤ self.now.capacity }
    {
        self.bytes.as_slice()
    }
}

impl Sink for MemSink {
    ghost use Rattle.std.specs.Prelude.{◌⊎◌};
    ghost use Rattle.sp_io.specs.Fails.{FailsAt};

    ghost taken = { λ s. Some s.taken };

    ghost faults = { λ s. s.faults };

    /// Takes as many bytes as `piece` has, there is room for and a step allows. The count of
    /// faults stays at 2^64 - 1 once it is there.
    ///
    /// # Errors
    ///
    /// `Failed` where the plan says that this call fails, or no room is left, also for an empty
    /// `piece`.
    fn write(&mut self, piece: &[u8]) -> Result<usize, Failed>
        ensures bound { IfOk result (λ n. n ≤ length piece.now) }
        ensures progress { IfOk result (λ n. 0 < length piece.now → 0 < n) }
        ensures bytes { WriteAppends (Some self.old.taken) (Some self.new.taken) result piece.now }
        ensures cause { HasCause self.old.faults self.new.faults result }

        ensures count { IfOk result (λ n. n ≡ min
            (min (length piece.now) (self.old.capacity - length self.old.taken)) self.old.step) }
        ensures ok { IfOk result (λ n. self.new ≡ record self.old {
          taken = self.old.taken ++ take n piece.now;
          calls = counted self.old.calls;
        }) }

        ensures failed { IsErr result ↔
            (FailsAt self.old.fails self.old.calls ⊎ (self.old.capacity ≤ length self.old.taken)) }
        ensures err { OnErr result (self.new ≡ record self.old {
          calls = counted self.old.calls;
          faults = counted self.old.faults;
        }) }
    {
        let call = self.calls;
        self.calls = call.saturating_add(1);
        if self.fails.holds_at(call) || self.bytes.len() >= self.capacity {
            self.faults = self.faults.saturating_add(1);
            return Err(Failed);
        }
        let room = self.capacity - self.bytes.len();
        let count = piece.len().min(room).min(usize::from(self.step));
        self.bytes.extend_from_slice(&piece[..count]).unwrap();
        Ok(count)
    }
}
