//! What a disk over a file asks of the system: by a system that notes its calls and holds no bytes.

use sp_disk::{Disk, FileDisk};
use std::alloc::Allocator;
use std::cell::Cell;
use std::fs::{Files, Metadata, OpenFile, OpenOptions};
use std::io::{Error, ErrorKind, Read, Seek, SeekFrom, Write};
use std::test::Fail;
use std::{fs, io};

// The calls, each by a hexadecimal digit, the last one lowest.
const OPENED_TO_READ: u64 = 0xA;

const OPENED_WRONGLY: u64 = 0xB;

const MADE: u64 = 0xC;

const SOUGHT: u64 = 0xD;

const WRITTEN: u64 = 0xE;

const SYNCED: u64 = 0xF;

const READ: u64 = 0x2;

const LOOKED_AT: u64 = 0x3;

const JUDGED: u64 = 0x4;

const COPIED: u64 = 0x5;

const OTHER: u64 = 0x1;

/// Notes a call behind those before it.
fn note(calls: &Cell<u64>, call: u64) {
    calls.set(calls.get().wrapping_mul(16).wrapping_add(call));
}

fn refused<T>() -> io::Result<T> {
    Err(Error::from(ErrorKind::Unsupported))
}

/// A system that opens one file, of this path.
#[derive(Drop)]
struct System<'a> {
    calls: &'a Cell<u64>,
    path: &'a str,
    /// What stands there before it is opened, where anything does.
    before: Option<&'a Metadata>,
    /// What is opened.
    opened: &'a Metadata,
}

/// The file, and whether it is a copy's descriptor.
#[derive(Drop)]
struct Opened<'a> {
    calls: &'a Cell<u64>,
    found: &'a Metadata,
    copied: bool,
}

impl<'a> Opened<'a> {
    /// Notes a call that has to be made by a copy's descriptor.
    fn note_copied(&self, call: u64) {
        note(self.calls, if self.copied { call } else { OTHER });
    }
}

/// How a file was opened: to read and write it, and made where it isn't there, or to read it alone;
/// never cut.
fn opening(how: &OpenOptions, right: bool) -> u64 {
    let cut = how.asks_truncate() || how.asks_append() || how.asks_create_new();
    if !right || cut || !how.asks_read() || how.asks_write() != how.asks_create() {
        OPENED_WRONGLY
    } else if how.asks_create() {
        MADE
    } else {
        OPENED_TO_READ
    }
}

impl<'a> Files for System<'a> {
    type File = Opened<'a>;

    type Dir = io::Empty;

    fn open_file(&self, how: &OpenOptions, path: &str) -> io::Result<Opened<'a>> {
        note(self.calls, opening(how, path == self.path));
        Ok(Opened {
            calls: self.calls,
            found: self.opened,
            copied: false,
        })
    }

    fn open_dir(&self, _path: &str) -> io::Result<io::Empty> {
        note(self.calls, OTHER);
        refused()
    }

    fn metadata(&self, path: &str) -> io::Result<Metadata> {
        note(
            self.calls,
            if path == self.path { LOOKED_AT } else { OTHER },
        );
        match &self.before {
            Some(found) => Ok((*found).clone()?),
            None => Err(Error::from(ErrorKind::NotFound)),
        }
    }

    fn symlink_metadata(&self, _path: &str) -> io::Result<Metadata> {
        note(self.calls, OTHER);
        refused()
    }

    fn copy(&self, _from: &str, _to: &str) -> io::Result<u64> {
        note(self.calls, OTHER);
        refused()
    }

    fn rename(&self, _from: &str, _to: &str) -> io::Result<()> {
        note(self.calls, OTHER);
        refused()
    }

    fn remove_file(&self, _path: &str) -> io::Result<()> {
        note(self.calls, OTHER);
        refused()
    }

    fn create_dir(&self, _path: &str) -> io::Result<()> {
        note(self.calls, OTHER);
        refused()
    }

    fn remove_dir(&self, _path: &str) -> io::Result<()> {
        note(self.calls, OTHER);
        refused()
    }

    fn remove_dir_all<B: Allocator>(&self, _alloc: B, _path: &str) -> io::Result<()> {
        note(self.calls, OTHER);
        refused()
    }
}

impl<'a> Read for Opened<'a> {
    fn read(&mut self, _out: &mut [u8]) -> io::Result<usize> {
        self.note_copied(READ);
        Ok(0)
    }
}

impl<'a> Write for Opened<'a> {
    fn write(&mut self, piece: &[u8]) -> io::Result<usize> {
        self.note_copied(WRITTEN);
        Ok(piece.len())
    }

    fn flush(&mut self) -> io::Result<()> {
        Ok(())
    }
}

impl<'a> Seek for Opened<'a> {
    fn seek(&mut self, to: SeekFrom) -> io::Result<u64> {
        match to {
            SeekFrom::Start(place) => {
                self.note_copied(SOUGHT);
                Ok(place)
            }
            _ => refused(),
        }
    }
}

impl<'a> OpenFile for Opened<'a> {
    fn metadata(&self) -> io::Result<Metadata> {
        note(self.calls, JUDGED);
        Ok(self.found.clone()?)
    }

    fn try_clone(&self) -> io::Result<Opened<'a>> {
        note(self.calls, COPIED);
        Ok(Opened {
            calls: self.calls,
            found: self.found,
            copied: true,
        })
    }

    fn set_len(&self, _size: u64) -> io::Result<()> {
        note(self.calls, OTHER);
        refused()
    }

    fn sync_all(&self) -> io::Result<()> {
        self.note_copied(SYNCED);
        Ok(())
    }

    fn sync_data(&self) -> io::Result<()> {
        note(self.calls, OTHER);
        refused()
    }
}

/// The calls of two writes, a sync and a write, and whether each of these was answered by `Ok`.
fn calls_of(before: Option<&Metadata>, opened: &Metadata, make: bool) -> (u64, [bool; 4]) {
    let calls = Cell::new(0);
    let system = System {
        calls: &calls,
        path: "f",
        before,
        opened,
    };
    let mut disk = FileDisk::new(&system, "f", make);
    let first = disk.write_at(0, b"ab").is_ok();
    let second = disk.write_at(1, b"c").is_ok();
    let synced = disk.sync().is_ok();
    let last = disk.write_at(3, b"d").is_ok();
    (calls.get(), [first, second, synced, last])
}

/// The calls of a read, a write, a sync and a read, and whether each of these was answered by `Ok`.
fn calls_between_reads(file: &Metadata, make: bool) -> (u64, [bool; 4]) {
    let calls = Cell::new(0);
    let system = System {
        calls: &calls,
        path: "f",
        before: Some(file),
        opened: file,
    };
    let mut out = *b"--";
    let mut disk = FileDisk::new(&system, "f", make);
    let first = disk.read_at(0, &mut out).is_ok();
    let written = disk.write_at(1, b"c").is_ok();
    let synced = disk.sync().is_ok();
    let last = disk.read_at(2, &mut out).is_ok();
    (calls.get(), [first, written, synced, last])
}

const PATH: &str = "sp_tests_disk.asked";

/// What the system says of a regular file.
fn of_a_file<R: Files>(rt: &R) -> io::Result<Metadata> {
    fs::write(rt, PATH, b"".as_slice())?;
    let found = fs::metadata(rt, PATH)?;
    fs::remove_file(rt, PATH)?;
    Ok(found)
}

/// A file is looked at, opened, judged and copied, each once, and the copy alone is used.
#[test]
fn asked(rt: HostRuntime) -> Result<(), Fail> {
    let file = of_a_file(&rt)?;
    assert!(rt; calls_of(None, &file, true) == (0x3C45_DEDE_FDE, [true; 4]));
    assert!(rt; calls_of(Some(&file), &file, true) == (0x3C45_DEDE_FDE, [true; 4]));
    assert!(rt; calls_between_reads(&file, true) == (0x3C45_D2DE_FD2, [true; 4]));
    Ok(())
}

#[test]
fn asked_to_read(rt: HostRuntime) -> Result<(), Fail> {
    let file = of_a_file(&rt)?;
    assert!(rt; calls_of(Some(&file), &file, false) == (0x3A45F, [false, false, true, false]));
    assert!(rt; calls_between_reads(&file, false) == (0x3A45_D2FD2, [true, false, true, true]));
    Ok(())
}

/// What isn't a regular file isn't opened, or isn't used where it took a file's place meanwhile.
#[test]
fn asked_for_a_folder(rt: HostRuntime) -> Result<(), Fail> {
    let file = of_a_file(&rt)?;
    let folder = fs::metadata(&rt, ".")?;
    assert!(rt; calls_of(Some(&folder), &file, true) == (0x3333, [false; 4]));
    assert!(rt; calls_of(Some(&folder), &file, false) == (0x3, [false; 4]));
    assert!(rt; calls_of(Some(&file), &folder, true) == (0x3C43_C43C_43C4, [false; 4]));
    Ok(())
}
