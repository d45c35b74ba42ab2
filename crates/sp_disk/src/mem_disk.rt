//! A disk in memory that records its calls and fails on demand, and whose crashes leave all that a
//! disk's contract allows.

ghost use Rattle.std.specs.Prelude.{◌≡◌, ℕ, ◌+◌, ◌^◌, ◌≤◌, ◌<◌, ◌↔◌, ◌⊎◌, ◌++◌, ◌∷◌, [], true, List, length, take, drop, min, IsErr, IsTrue, IsFalse, IfOk, IfSome, OnOk, OnErr, Some};
ghost use Rattle.sp_form.specs.Bytes.{IsBytes};
ghost use Rattle.sp_io.specs.Causes.{HasCause, counted};
ghost use Rattle.sp_io.specs.Fails.{FailsAt};
ghost use Rattle.sp_disk.specs.Moments.{GivesFrom, IsMoment, Looks, Moment, Syncs, Writes};
ghost use Rattle.sp_disk.specs.History.{moment_of, Nothing, state_of, Sync, told, Write};
ghost use Rattle.sp_disk.specs.Asked.{did, failed, fits, full, IsRefused, recorded, undone};
ghost use Rattle.sp_disk.specs.Kept.{with_event, written_in_all};
ghost use Rattle.sp_disk.specs.Pending.{picked};
ghost use Rattle.sp_disk.specs.Sound.{keeping_is_moment};

use crate::bytes::{add, append, are_bytes, copy_from, overwrite, replace};
use crate::call::Call;
use crate::disk::Disk;
use crate::image::fill_all;
use crate::pick::{Pick, Range};
use sp_ids::Memory;
use sp_io::{Failed, Fails};
use std::alloc::Global;
use std::marker::Model;

/// A disk in memory. Its calls are counted from 0, those that fail among them.
pub struct MemDisk {
    start: Vec<u8>,
    calls: Vec<Call>,
    given: Vec<u8>,
    bytes: Vec<u8>,
    synced: Vec<u8>,
    pending: Vec<Range>,
    capacity: usize,
    limit: u32,
    fails: Fails,
    made: u64,
    faults: u64,
}

// Written out, so that where a disk is let go there is one call, and not one for each of its lists.
impl Drop for MemDisk {
    fn drop(self) {
        let MemDisk {
            start: _,
            calls: _,
            given: _,
            bytes: _,
            synced: _,
            pending: _,
            capacity: _,
            limit: _,
            fails: _,
            made: _,
            faults: _,
        } = self;
    }
}

impl Model for MemDisk {
    ghost use Rattle.std.specs.Prelude.{◌≤◌, length, vec_capacity};
    ghost use Rattle.sp_disk.specs.History.{events_of, Keeping};
    ghost use Rattle.sp_disk.specs.Asked.{did, failed, fits, full, IsRefused, recorded, undone};
    ghost use Rattle.sp_disk.specs.Kept.{HasRoom, IsKept};

    ghost Value = { Keeping };

    ghost view = { λ d. record {
      start = d.start.items;
      events = events_of d.calls.items d.given.items;
      capacity = d.capacity;
      limit = d.limit;
      fails = d.fails;
      calls = d.made;
      faults = d.faults;
    } };

    // All room is there from the first, so that no call takes memory.
    ghost invariant = { λ d.
        IsKept d.start.items d.calls.items d.given.items d.bytes.items d.synced.items d.pending.items
        × HasRoom d.capacity d.limit (length d.given.items) (length d.bytes.items) (length d.calls.items) (length d.pending.items)
        × (d.capacity ≤ vec_capacity d.given) × (d.capacity ≤ vec_capacity d.bytes) × (d.capacity ≤ vec_capacity d.synced)
        × (d.limit ≤ vec_capacity d.calls) × (d.limit ≤ vec_capacity d.pending) };
}

impl MemDisk {
    /// A disk with these bytes, all of them synced, which holds at most `capacity` bytes, takes as many
    /// in all writes together, and records at most `calls` calls: each further one fails. `fails` says
    /// which of the others do.
    ///
    /// # Errors
    ///
    /// `Memory` where the room can't be had. No later call takes memory.
    pub fn new(
        alloc: Global,
        bytes: Vec<u8>,
        capacity: usize,
        calls: u32,
        fails: Fails,
    ) -> Result<MemDisk, Memory>
        requires { length bytes.items ≤ capacity }
        ensures tells { IfOk result (λ disk. (moment_of disk).reads ≡ Some bytes.items) }
        ensures made { IfOk result (λ disk. disk ≡ record {
          start = bytes.items;
          events = [];
          capacity = capacity;
          limit = calls;
          fails = fails;
          calls = 0;
          faults = 0;
        }) }
    {
        are_bytes(&bytes);
        let limit = calls as usize;
        let mut now = Vec::with_capacity(alloc, capacity)?;
        now.extend_from_slice(&bytes).unwrap();
        let mut synced = Vec::with_capacity(alloc, capacity)?;
        synced.extend_from_slice(&bytes).unwrap();
        Ok(MemDisk {
            start: bytes,
            calls: Vec::with_capacity(alloc, limit)?,
            given: Vec::with_capacity(alloc, capacity)?,
            bytes: now,
            synced,
            pending: Vec::with_capacity(alloc, limit)?,
            capacity,
            limit: calls,
            fails,
            made: 0,
            faults: 0,
        })
    }

    /// One outcome of a crash now: the pending writes undone, done, or done and their ranges filled. A
    /// write that failed is never done, and its range is filled where it was recorded. It is no call of
    /// the disk, and takes time in proportion to the bytes and to what is pending.
    ///
    /// # Errors
    ///
    /// `Memory` where there is none for the bytes.
    pub fn image(&self, pick: Pick) -> Result<Vec<u8>, Memory>
        ensures picked { IfOk result (λ image. image.items ≡ picked pick (state_of self.now)) }
        ensures one { IfOk result (λ image. (moment_of self.now).images image.items) }
    {
        let image = self.outcome(pick)?;
        are_bytes(&image);
        Ok(image)
    }

    fn outcome(&self, pick: Pick) -> Result<Vec<u8>, Memory>
        ensures { IfOk result (λ image. image.items ≡ picked pick (state_of self.now)) }
    {
        let mut image = Vec::new(*self.bytes.allocator());
        match pick {
            Pick::Old => image.extend_from_slice(&self.synced)?,
            Pick::New => image.extend_from_slice(&self.bytes)?,
            Pick::Fill(byte) => {
                image.extend_from_slice(&self.bytes)?;
                fill_all(&mut image, &self.pending, byte)?;
            }
        }
        Ok(image)
    }

    // Counts a call, and answers whether the plan says that it fails.
    fn is_planned(&mut self) -> bool
        ensures plan { IsTrue result ↔ FailsAt self.old.fails self.old.calls }
        ensures counted { self.new ≡ record self.old { calls = counted self.old.calls } }
    {
        let call = self.made;
        self.made = call.saturating_add(1);
        self.fails.holds_at(call)
    }

    // Counts a fault.
    fn refuse(&mut self)
        ensures counted { self.new ≡ record self.old { faults = counted self.old.faults } }
        ensures later { self.old.faults ≤ self.new.faults }
    {
        self.faults = self.faults.saturating_add(1);
    }

    // Whether no further call can be recorded.
    fn is_full(&self) -> bool
        ensures { result ≡ full self.now }
    {
        self.calls.len() >= self.limit as usize
    }

    // Whether a write finds room for its end, and for its bytes among those of all writes.
    fn has_room(&self, at: u64, size: usize) -> bool
        requires { at + size < 2 ^ 63 }
        ensures { result ≡ fits self.now at size }
    {
        let size = size as u64;
        let capacity = self.capacity as u64;
        at + size <= capacity && self.given.len() as u64 + size <= capacity
    }

    // Records a call that changes nothing.
    fn note_asked(&mut self)
        requires { length self.old.events < self.old.limit }
        ensures { self.new ≡ with_event self.old Nothing }
    {
        add(&mut self.calls, Call::Asked);
    }

    // Counts a fault, and records a call that changed nothing where there is room for it.
    fn note_refused(&mut self)
        ensures looks { Looks (moment_of self.old) (moment_of self.new) }
        ensures reads { state_of self.new ≡ state_of self.old }
        ensures later { self.old.faults ≤ self.new.faults }
        ensures noted { self.new ≡ record self.old {
          events = recorded self.old Nothing;
          faults = counted self.old.faults;
        } }
    {
        if !self.is_full() {
            self.note_asked();
        }
        self.refuse();
    }

    // A call that changes nothing, and is recorded.
    fn ask(&mut self) -> Result<(), Failed>
        ensures looks { Looks (moment_of self.old) (moment_of self.new) }
        ensures reads { state_of self.new ≡ state_of self.old }
        ensures cause { HasCause self.old.faults self.new.faults result }
        ensures failed { IsErr result ↔ IsRefused self.old }
        ensures ok { OnOk result (self.new ≡ did self.old Nothing) }
        ensures err { OnErr result (self.new ≡ failed self.old Nothing) }
    {
        if self.is_planned() || self.is_full() {
            self.note_refused();
            return Err(Failed);
        }
        self.note_asked();
        Ok(())
    }

    // Syncs.
    fn note_synced(&mut self)
        requires { length self.old.events < self.old.limit }
        ensures { self.new ≡ with_event self.old Sync }
    {
        add(&mut self.calls, Call::Synced);
        replace(&mut self.synced, &self.bytes);
        self.pending.clear();
    }

    // Writes, or records a write that isn't done.
    fn note_written(&mut self, at: usize, bytes: &[u8], done: bool)
        requires calls { length self.old.events < self.old.limit }
        requires room { at + length bytes.now ≤ self.old.capacity }
        requires given { written_in_all self.old.events + length bytes.now ≤ self.old.capacity }
        requires place { IfSome (told (state_of self.old).reads) (λ before. at ≤ length before) }
        ensures noted { self.new ≡ with_event self.old (Write at bytes.now done) }
        ensures bytes { IsBytes (state_of self.old).reads }
    {
        are_bytes(&self.bytes);
        let size = bytes.len();
        add(&mut self.calls, Call::Wrote(at, size, done));
        append(&mut self.given, bytes);
        add(&mut self.pending, Range { at, size });
        if done {
            overwrite(&mut self.bytes, at, bytes);
        }
    }
}

impl Disk for MemDisk {
    ghost now = { moment_of };

    ghost is_moment = { keeping_is_moment };

    /// The number of bytes, as a read gives them.
    ///
    /// # Errors
    ///
    /// `Failed` where the plan says so, or where as many calls are recorded as there is room for.
    /// The call changes nothing of the bytes.
    fn len(&mut self) -> Result<u64, Failed>
        ensures length { IfOk result (λ n. IfSome (moment_of self.old).reads (λ bytes. n ≡ length bytes)) }
        ensures looks { Looks (moment_of self.old) (moment_of self.new) }
        ensures cause { HasCause self.old.faults self.new.faults result }

        ensures exact { IfOk result (λ n. n ≡ length (state_of self.old).reads) }
        ensures failed { IsErr result ↔ IsRefused self.old }
        ensures ok { OnOk result (self.new ≡ did self.old Nothing) }
        ensures err { OnErr result (self.new ≡ failed self.old Nothing) }
    {
        self.ask()?;
        Ok(self.bytes.len() as u64)
    }

    /// Puts the bytes from a place on at the front of `out`, as many as there are and as there is
    /// room for, and leaves the rest of `out`.
    ///
    /// # Errors
    ///
    /// `Failed` as for `len`; then `out` is as it was.
    fn read_at(&mut self, at: u64, out: &mut [u8]) -> Result<usize, Failed>
        ensures bound { IfOk result (λ n. n ≤ length out.new) }
        ensures bytes { IfSome (moment_of self.old).reads (λ bytes. GivesFrom at bytes out.old out.new result) }
        ensures looks { Looks (moment_of self.old) (moment_of self.new) }
        ensures cause { HasCause self.old.faults self.new.faults result }

        ensures count { IfOk result (λ n. n ≡ min (length out.old) (length (drop at (state_of self.old).reads))) }
        ensures copied { IfOk result (λ n. out.new ≡ take n (drop at (state_of self.old).reads) ++ drop n out.old) }
        ensures failed { IsErr result ↔ IsRefused self.old }
        ensures untouched { OnErr result (out.new ≡ out.old) }
        ensures ok { OnOk result (self.new ≡ did self.old Nothing) }
        ensures err { OnErr result (self.new ≡ failed self.old Nothing) }
    {
        self.ask()?;
        Ok(copy_from(&self.bytes, at, out))
    }

    /// Writes over what is there, and behind the end.
    ///
    /// # Errors
    ///
    /// `Failed` as for `len`, and where the write ends past the capacity or all writes together are
    /// longer than it. Where only the plan made it fail, the write is recorded as one that wasn't done,
    /// so its range is pending; else it leaves what is read and the images as they were.
    fn write_at(&mut self, at: u64, bytes: &[u8]) -> Result<(), Failed>
        requires place { IfSome (moment_of self.old).reads (λ before. at ≤ length before) }
        requires end { at + length bytes.now < 2 ^ 63 }
        ensures writes { Writes at bytes.now (moment_of self.old) (moment_of self.new) result }
        ensures cause { HasCause self.old.faults self.new.faults result }

        ensures failed { IsErr result ↔ IsRefused self.old ⊎ IsFalse (fits self.old at (length bytes.now)) }
        ensures ok { OnOk result (self.new ≡ did self.old (Write at bytes.now true)) }
        ensures err { OnErr result (self.new ≡ failed self.old (undone self.old at bytes.now)) }
    {
        let done = !self.is_planned();
        if self.is_full() || !self.has_room(at, bytes.len()) {
            self.note_refused();
            return Err(Failed);
        }
        self.note_written(at as usize, bytes, done);
        if !done {
            self.refuse();
            return Err(Failed);
        }
        Ok(())
    }

    /// After it, a crash leaves what a read gives.
    ///
    /// # Errors
    ///
    /// `Failed` as for `len`; then the images are as they were.
    fn sync(&mut self) -> Result<(), Failed>
        ensures syncs { Syncs (moment_of self.old) (moment_of self.new) result }
        ensures cause { HasCause self.old.faults self.new.faults result }

        ensures failed { IsErr result ↔ IsRefused self.old }
        ensures ok { OnOk result (self.new ≡ did self.old Sync) }
        ensures err { OnErr result (self.new ≡ failed self.old Nothing) }
    {
        if self.is_planned() || self.is_full() {
            self.note_refused();
            return Err(Failed);
        }
        self.note_synced();
        Ok(())
    }
}
