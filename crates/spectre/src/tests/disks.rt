//! Disks in memory that runs are given, and what a crash leaves of them.

use crate::tests::crashes::letters_of;
use crate::tests::feed_bytes::{put_head, put_record};
use crate::tests::text::Text;
use crate::tests::{Ended, Ends, Trial, WIDE, Wanted, agrees, fails, ran_over};
use sp_disk::{Disk, MemDisk, Pick};
use sp_io::Fails;
use std::alloc::Global;
use std::process::Abort;

/// What stands on a disk at first.
#[derive(Clone, Copy)]
pub enum Held {
    /// Nothing, and it isn't to be called: its first call would fail.
    Apart,
    Bytes(&'static [u8]),
    /// A journal with the smallest genesis block: its bits, its blocks, and what stands behind their
    /// records.
    Journal(u8, &'static [u8], &'static [u8]),
}

pub const EMPTY: Held = Held::Bytes(b"");

/// A journal of two blocks side by side.
pub const TWO: Held = Held::Journal(0, b"AB", b"\0");

/// The most bytes of a disk.
const ROOM: usize = 65_536;

/// The most calls of a disk.
const CALLS: u32 = 1024;

/// A disk with these bytes.
pub fn disk_with(rt: &impl Abort, alloc: Global, bytes: &[u8], fails: Fails) -> MemDisk {
    assert!(rt; bytes.len() <= ROOM, "more than a disk has room for");
    let bytes = Vec::from_slice(alloc, bytes).expect(rt, "memory");
    MemDisk::new(alloc, bytes, ROOM, CALLS, fails).expect(rt, "memory")
}

/// The bytes that stand there.
pub fn bytes_of(alloc: Global, held: Held) -> Text {
    let mut bytes = Text::new(alloc);
    match held {
        Held::Apart => {}
        Held::Bytes(held) => bytes.put(held),
        Held::Journal(bits, blocks, behind) => {
            put_head(&mut bytes, bits);
            for block in blocks {
                put_record(&mut bytes, *block);
            }
            bytes.put(behind);
        }
    }
    bytes
}

fn fails_of(rt: &impl Abort, alloc: Global, ends: &Ends) -> Fails {
    match (ends.disk, ends.bad_calls) {
        (Held::Apart, _) => fails(rt, alloc, Some(0)),
        (_, Some(call)) => Fails::From(call),
        (_, None) => Fails::Never,
    }
}

/// The disk of a run.
pub fn disk_of(rt: &impl Abort, alloc: Global, ends: &Ends) -> MemDisk {
    let fails = fails_of(rt, alloc, ends);
    let bytes = bytes_of(alloc, ends.disk);
    disk_with(rt, alloc, bytes.whole(rt), fails)
}

/// Whether the first call of a disk is still to come. It fails, and the next one doesn't.
pub fn is_uncalled(disk: &mut MemDisk) -> bool {
    disk.len().is_err() && disk.len().is_ok()
}

/// Outcomes of a crash.
pub const PICKS: &[Pick] = &[Pick::Old, Pick::New, Pick::Fill(0), Pick::Fill(0xA5)];

/// What a crash with this outcome leaves.
pub fn image_of(rt: &impl Abort, disk: &MemDisk, pick: Pick) -> Vec<u8> {
    disk.image(pick).expect(rt, "memory")
}

/// Whether each crash leaves just these bytes.
pub fn leaves(rt: &impl Abort, disk: &MemDisk, bytes: &[u8]) -> bool {
    for pick in PICKS {
        if image_of(rt, disk, *pick).as_slice() != bytes {
            return false;
        }
    }
    true
}

/// What a disk holds behind a run, after each crash.
#[derive(Clone, Copy)]
pub enum Left {
    Unsaid,
    AsBefore,
    Stands(Held),
    /// What `show` finds, as a letter for each crash.
    Found(&'static [u8]),
    /// A journal of two blocks, among so many bytes in all.
    Made(usize),
}

fn is_left(rt: &impl Abort, alloc: Global, disk: &MemDisk, before: &[u8], left: Left) -> bool {
    match left {
        Left::Unsaid => true,
        Left::AsBefore => leaves(rt, disk, before),
        Left::Stands(held) => leaves(rt, disk, bytes_of(alloc, held).whole(rt)),
        Left::Found(letters) => letters_of(rt, alloc, disk).as_slice() == letters,
        Left::Made(size) => {
            image_of(rt, disk, Pick::New).len() == size
                && letters_of(rt, alloc, disk).as_slice() == b"2222".as_slice()
        }
    }
}

/// Runs the program over a disk with these bytes, compares what the run ends as and leaves there with
/// what is wanted, and answers the disk.
pub fn tried_on(
    rt: &impl Abort,
    alloc: Global,
    (name, at): (&str, usize),
    trial: &Trial,
    wanted: &Wanted,
    bytes: &[u8],
    left: Left,
) -> MemDisk {
    let fails = fails_of(rt, alloc, &trial.ends);
    let mut disk = disk_with(rt, alloc, bytes, fails);
    let ended = ran_over(rt, alloc, trial, &mut disk);
    agrees(rt, name, at, &ended, wanted);
    let is_left = is_left(rt, alloc, &disk, bytes, left);
    assert!(rt; is_left, "{name}, {at}: the disk");
    disk
}

/// The same, where the disk isn't looked at any more.
pub fn tries_on(
    rt: &impl Abort,
    alloc: Global,
    name: (&str, usize),
    trial: &Trial,
    wanted: &Wanted,
    bytes: &[u8],
    left: Left,
) {
    let _ = tried_on(rt, alloc, name, trial, wanted, bytes, left);
}

/// Runs the program over its own disk, and compares both.
pub fn tries_over(
    rt: &impl Abort,
    alloc: Global,
    name: (&str, usize),
    trial: &Trial,
    wanted: &Wanted,
    left: Left,
) {
    let bytes = bytes_of(alloc, trial.ends.disk);
    tries_on(rt, alloc, name, trial, wanted, bytes.whole(rt), left);
}

/// A run over a disk with these bytes at ends that are wide, and what it leaves there.
pub fn runs_on(
    rt: &impl Abort,
    alloc: Global,
    words: &[u8],
    input: &[u8],
    bytes: &[u8],
) -> (Ended, Vec<u8>) {
    let mut disk = disk_with(rt, alloc, bytes, Fails::Never);
    let trial = Trial {
        words,
        input,
        ends: WIDE,
    };
    let ended = ran_over(rt, alloc, &trial, &mut disk);
    let left = image_of(rt, &disk, Pick::New);
    (ended, left)
}
