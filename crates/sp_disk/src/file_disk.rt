//! The edge where a file of the operating system is a disk. What it holds, and what a crash leaves of
//! it, is trusted here, and nowhere above.

ghost use Rattle.std.specs.Prelude.{◌≡◌, ◌↔◌, ◌+◌, ◌^◌, ◌<◌, ◌≤◌, true, length, IfOk, IfSome, IsNone, IsOk, None, Ok, OnOk};
ghost use Rattle.std.specs.Fs.{file_type, IsFile};
ghost use Rattle.sp_io.specs.Causes.{CountsFault, HasCause};
ghost use Rattle.sp_disk.specs.Moments.{GivesFrom, Looks, Syncs, Writes};
ghost use Rattle.sp_disk.specs.Untold.{untold, untold_is_moment};

use crate::disk::Disk;
use sp_io::{Failed, read_retrying};
use std::fs::{Files, Metadata, OpenFile, OpenOptions};
use std::io;
use std::io::{Error, ErrorKind, Read, Seek, SeekFrom, Write};

/// A file of the operating system as a disk. It tells nothing of its bytes, so contracts say of it only
/// that its calls are safe, that each failed one is counted, and that no other one is.
///
/// Of the real file this is assumed, and shown by no proof and no test:
///
/// - The file holds what was written, and a read gives it, as long as nobody else writes the file, cuts
///   it, moves it or puts another one in its place.
/// - After a sync that succeeds (`fsync` on Unix) its bytes and its length last over a crash, and so does
///   the folder's entry of a file that was made by this disk; the folder isn't synced here.
/// - A crash between two syncs changes no byte outside the written ranges, and leaves a length from the
///   one at the last sync to the greatest that the writes reach.
///
/// Want of memory in the system counts as a fault of the call. A read, a write or a seek that a signal
/// interrupts is made again, and is no fault.
///
/// Only a regular file is opened, or one that a link leads to: a pipe could let a call wait for ever, and what
/// a device takes isn't there afterwards. The file is used by a descriptor above those of the standard
/// streams. So where one of these is closed, nothing that is read or written there comes from the file or
/// goes into it.
///
/// One that doesn't make its file is for reading alone: it opens the file so, which needs no leave to
/// write it, and each write fails without asking the system. A sync is still asked for, since it writes
/// nothing new: what other programs wrote before, and is read here, lasts once it succeeded.
#[derive(Drop)]
pub struct FileDisk<'a, R: Files> {
    rt: &'a R,
    path: &'a str,
    make: bool,
    file: Option<R::File>,
    faults: u64,
    // Why the last call that failed did so; any error as long as none has failed.
    last: Error,
}

impl<'a, R: Files> FileDisk<'a, R> {
    /// The file of this path, which is opened at the first call that asks the system. Where `make` says
    /// so, it is opened for reading and writing, and made then where it isn't there; else it is opened
    /// for reading alone.
    pub fn new(rt: &'a R, path: &'a str, make: bool) -> FileDisk<'a, R>
        ensures untold { (⟦<FileDisk<'a, R> as Disk>⟧.now result).reads ≡ None }
        ensures faults { (⟦<FileDisk<'a, R> as Disk>⟧.now result).faults ≡ 0 }
        ensures path { result.path.now ≡ path.now }
        ensures make { result.make ≡ make }
    {
        FileDisk {
            rt,
            path,
            make,
            file: None,
            faults: 0,
            last: Error::from(ErrorKind::Other),
        }
    }

    /// Why the last call that failed did so, in the system's own words where it was the system that refused it;
    /// `None` exactly where none has failed.
    pub fn reason(&self) -> Option<&Error>
        ensures none { IsNone result ↔ ((⟦<FileDisk<'a, R> as Disk>⟧.now self.now).faults ≡ 0) }
    {
        if self.faults == 0 {
            None
        } else {
            Some(&self.last)
        }
    }

    // Opens the file where it isn't open yet.
    fn open(&mut self) -> io::Result<()>
        ensures faults { self.new.faults ≡ self.old.faults }
        ensures make { self.new.make ≡ self.old.make }
    {
        if self.file.is_none() {
            self.file = Some(self.opened()?);
        }
        Ok(())
    }

    // The file under a descriptor of its own. The system gives a file the lowest free one, which may be that
    // of a closed standard stream. A copy gets one from 3 on; that first one is closed before a byte is read
    // or written.
    fn opened(&self) -> io::Result<R::File> {
        may_be_opened(self.rt, self.path)?;
        let mut how = OpenOptions::new();
        how.read(true).write(self.make).create(self.make);
        let first = self.rt.open_file(&how, self.path)?;
        // Another one may have been put in its place since.
        regular(&first.metadata()?)?;
        first.try_clone()
    }

    fn file_len(&mut self) -> io::Result<u64>
        ensures faults { self.new.faults ≡ self.old.faults }
        ensures make { self.new.make ≡ self.old.make }
    {
        self.open()?;
        match &self.file {
            Some(file) => Ok(file.metadata()?.len()),
            None => Ok(0),
        }
    }

    fn file_sync(&mut self) -> io::Result<()>
        ensures faults { self.new.faults ≡ self.old.faults }
        ensures make { self.new.make ≡ self.old.make }
    {
        self.open()?;
        match &self.file {
            Some(file) => file.sync_all(),
            None => Ok(()),
        }
    }

    fn file_read(&mut self, at: u64, out: &mut [u8]) -> io::Result<usize>
        ensures bound { IfOk result (λ n. n ≤ length out.new) }
        ensures faults { self.new.faults ≡ self.old.faults }
        ensures make { self.new.make ≡ self.old.make }
    {
        self.open()?;
        match &mut self.file {
            Some(file) => {
                seek_to(file, at)?;
                read_whole(file, out)
            }
            None => Ok(0),
        }
    }

    // Refuses where the file is for reading alone.
    fn may_write(&self) -> io::Result<()>
        ensures { OnOk result (self.now.make ≡ true) }
    {
        if self.make {
            Ok(())
        } else {
            Err(Error::from(ErrorKind::PermissionDenied))
        }
    }

    fn file_write(&mut self, at: u64, bytes: &[u8]) -> io::Result<()>
        ensures faults { self.new.faults ≡ self.old.faults }
        ensures make { self.new.make ≡ self.old.make }
        ensures may { OnOk result (self.old.make ≡ true) }
    {
        self.may_write()?;
        self.open()?;
        match &mut self.file {
            Some(file) => {
                seek_to(file, at)?;
                file.write_all(bytes)
            }
            None => Ok(()),
        }
    }
}

// Refuses what isn't a regular file.
fn regular(found: &Metadata) -> io::Result<()>
    ensures { IsOk result ↔ IsFile (file_type found.now) }
{
    if found.is_file() {
        Ok(())
    } else {
        Err(Error::new(ErrorKind::InvalidInput, "not a regular file"))
    }
}

// Refuses a path where anything but a regular file stands, without opening it.
fn may_be_opened<R: Files>(rt: &R, path: &str) -> io::Result<()> {
    match rt.metadata(path) {
        Ok(found) => regular(&found),
        Err(error) if error.kind() == ErrorKind::NotFound => Ok(()),
        Err(error) => Err(error),
    }
}

// Goes to a place, and again as long as a signal interrupts that.
fn seek_to<F: Seek>(file: &mut F, at: u64) -> io::Result<()> {
    'tries: for _ in 0..u64::MAX {
        match file.seek(SeekFrom::Start(at)) {
            Ok(_) => return Ok(()),
            Err(error) => {
                if error.kind() != ErrorKind::Interrupted {
                    return Err(error);
                }
            }
        }
    }
    Err(Error::from(ErrorKind::TimedOut))
}

/// Reads until `out` is full or the file ends.
fn read_whole<F: Read>(file: &mut F, out: &mut [u8]) -> io::Result<usize>
    ensures bound { IfOk result (λ n. n ≤ length out.new) }
    ensures length { length out.new ≡ length out.old }
{
    let mut count = 0;
    'pieces: while count < out.len() {
        let got = read_retrying(file, &mut out[count..])?;
        if got == 0 {
            return Ok(count);
        }
        count += got;
    }
    Ok(count)
}

/// Counts a fault where a call failed, and keeps why. The count stays at 2^64 - 1 once it is there.
fn count<T: Drop>(outcome: io::Result<T>, faults: &mut u64, last: &mut Error) -> Result<T, Failed>
    ensures counted { CountsFault faults.old faults.new result }
    ensures later { faults.old ≤ faults.new }
    ensures same { IfOk result (λ found. outcome ≡ Ok found) }
{
    match outcome {
        Ok(found) => Ok(found),
        Err(error) => {
            *last = error;
            *faults = faults.saturating_add(1);
            Err(Failed)
        }
    }
}

#[tactic(auto, using(crate::proofs::UntoldCalls::untold_looks, crate::proofs::UntoldCalls::untold_syncs, crate::proofs::UntoldCalls::untold_writes))]
impl<'a, R: Files> Disk for FileDisk<'a, R> {
    ghost now = { λ d. untold d.faults };

    ghost is_moment = { λ d. untold_is_moment d.faults };

    /// The number of bytes that the system says the file has.
    ///
    /// # Errors
    ///
    /// `Failed` where the file can't be opened or isn't a regular one, or the system doesn't say its length.
    fn len(&mut self) -> Result<u64, Failed>
        ensures length { IfOk result (λ n. IfSome (⟦<FileDisk<'a, R> as Disk>⟧.now self.old).reads (λ bytes. n ≡ length bytes)) }
        ensures looks { Looks (⟦<FileDisk<'a, R> as Disk>⟧.now self.old) (⟦<FileDisk<'a, R> as Disk>⟧.now self.new) }
        ensures cause { HasCause (⟦<FileDisk<'a, R> as Disk>⟧.now self.old).faults (⟦<FileDisk<'a, R> as Disk>⟧.now self.new).faults result }
        ensures fault { CountsFault (⟦<FileDisk<'a, R> as Disk>⟧.now self.old).faults (⟦<FileDisk<'a, R> as Disk>⟧.now self.new).faults result }
        ensures make { self.new.make ≡ self.old.make }
    {
        let outcome = self.file_len();
        count(outcome, &mut self.faults, &mut self.last)
    }

    /// Reads until `out` is full or the file ends.
    ///
    /// # Errors
    ///
    /// `Failed` where the file can't be opened or isn't a regular one, the place is past those that the
    /// system knows, or a read fails; what then stands in `out` is left open.
    fn read_at(&mut self, at: u64, out: &mut [u8]) -> Result<usize, Failed>
        ensures bound { IfOk result (λ n. n ≤ length out.new) }
        ensures bytes { IfSome (⟦<FileDisk<'a, R> as Disk>⟧.now self.old).reads (λ bytes. GivesFrom at bytes out.old out.new result) }
        ensures looks { Looks (⟦<FileDisk<'a, R> as Disk>⟧.now self.old) (⟦<FileDisk<'a, R> as Disk>⟧.now self.new) }
        ensures cause { HasCause (⟦<FileDisk<'a, R> as Disk>⟧.now self.old).faults (⟦<FileDisk<'a, R> as Disk>⟧.now self.new).faults result }
        ensures fault { CountsFault (⟦<FileDisk<'a, R> as Disk>⟧.now self.old).faults (⟦<FileDisk<'a, R> as Disk>⟧.now self.new).faults result }
        ensures make { self.new.make ≡ self.old.make }
    {
        let outcome = self.file_read(at, out);
        count(outcome, &mut self.faults, &mut self.last)
    }

    /// Writes all bytes at the place, behind the end too.
    ///
    /// # Errors
    ///
    /// `Failed` where the file is for reading alone, can't be opened or isn't a regular one, or a write
    /// fails; in this last case any part of the bytes may stand then.
    fn write_at(&mut self, at: u64, bytes: &[u8]) -> Result<(), Failed>
        requires place { IfSome (⟦<FileDisk<'a, R> as Disk>⟧.now self.old).reads (λ before. at ≤ length before) }
        requires end { at + length bytes.now < 2 ^ 63 }
        ensures writes { Writes at bytes.now (⟦<FileDisk<'a, R> as Disk>⟧.now self.old) (⟦<FileDisk<'a, R> as Disk>⟧.now self.new) result }
        ensures cause { HasCause (⟦<FileDisk<'a, R> as Disk>⟧.now self.old).faults (⟦<FileDisk<'a, R> as Disk>⟧.now self.new).faults result }
        ensures fault { CountsFault (⟦<FileDisk<'a, R> as Disk>⟧.now self.old).faults (⟦<FileDisk<'a, R> as Disk>⟧.now self.new).faults result }
        ensures make { self.new.make ≡ self.old.make }
        ensures may { OnOk result (self.old.make ≡ true) }
    {
        let outcome = self.file_write(at, bytes);
        count(outcome, &mut self.faults, &mut self.last)
    }

    /// Asks the system to sync the file's bytes and its length.
    ///
    /// # Errors
    ///
    /// `Failed` where the file can't be opened or isn't a regular one, or the sync fails.
    fn sync(&mut self) -> Result<(), Failed>
        ensures syncs { Syncs (⟦<FileDisk<'a, R> as Disk>⟧.now self.old) (⟦<FileDisk<'a, R> as Disk>⟧.now self.new) result }
        ensures cause { HasCause (⟦<FileDisk<'a, R> as Disk>⟧.now self.old).faults (⟦<FileDisk<'a, R> as Disk>⟧.now self.new).faults result }
        ensures fault { CountsFault (⟦<FileDisk<'a, R> as Disk>⟧.now self.old).faults (⟦<FileDisk<'a, R> as Disk>⟧.now self.new).faults result }
        ensures make { self.new.make ≡ self.old.make }
    {
        let outcome = self.file_sync();
        count(outcome, &mut self.faults, &mut self.last)
    }
}
