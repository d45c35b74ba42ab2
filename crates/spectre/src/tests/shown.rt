//! `show` and `export` on disks that hold no journal or fail, and on journals, and the move of a journal
//! from profile to profile. They write nothing there, and read no input.

use crate::status::Status;
use crate::tests::crashes::{EXPORT, EXPORT_SECOND, NODE, SHOW, both};
use crate::tests::disks::{EMPTY, Held, Left, TWO, runs_on, tries_over};
use crate::tests::feed_bytes::{END, FIRST, SECOND, feed_as, in_full};
use crate::tests::feeds::replays;
use crate::tests::text::Text;
use crate::tests::{Ends, Trial, WIDE, Wanted};
use std::alloc::Global;
use std::process::Abort;

/// What is written.
#[derive(Clone, Copy)]
enum Out {
    Text(&'static [u8]),
    /// The feed that begins so, with these bits and these blocks, a line for each.
    Feed(&'static [u8], u8, &'static [u8]),
}

/// The words, what stands on a disk, the first call of it that fails, and how that ends.
type Row = (&'static [u8], Held, Option<u32>, Status, Out);

const NONE: Out = Out::Text(b"fault not-journal\n");

const NOTHING: Out = Out::Text(b"");

const BOTH: Out = Out::Text(b"recovered 2\nblocks 3 waiting 0\naccepted 0\nbalances 0\n");

const NOTES: Held = Held::Bytes(b"block A on G\nblock B on G\nvote A B\n");

/// The journal without records in profile 2.
const OF_SECOND: Held = Held::Bytes(
    b"\xa5SPCTRJ02\0\x14\0\0\0\x01\0\0\0\0\0\0\0\0\0\0\0\0\0\0\0\0\0\0\0\0",
);

/// An opening asks for the length, syncs and reads: the head's fixed part, genesis, and so on. Once it
/// has what it needs nothing is called.
#[rattlefmt::skip]
const ROWS: &[Row] = &[
    (SHOW, EMPTY, None, Status::NotJournal, NONE),
    (SHOW, EMPTY, Some(0), Status::DiskFault, NOTHING),
    (SHOW, EMPTY, Some(1), Status::NotJournal, NONE),
    (SHOW, Held::Bytes(b"\0"), None, Status::NotJournal, NONE),
    (SHOW, Held::Bytes(b"\xa5"), None, Status::NotJournal, NONE),
    (SHOW, NOTES, None, Status::NotJournal, NONE),
    (SHOW, NOTES, Some(0), Status::DiskFault, NOTHING),
    (SHOW, NOTES, Some(1), Status::DiskFault, NOTHING),
    (SHOW, NOTES, Some(2), Status::DiskFault, NOTHING),
    (SHOW, NOTES, Some(3), Status::NotJournal, NONE),
    (SHOW, Held::Bytes(b"\xa5SPCTRJ03\0\x14\0\0\0\x01\0\0\0\0\0\0\0\0\0\0\0\0\0\0\0\0\0\0\0\0"), None, Status::NotJournal, NONE),
    (SHOW, Held::Journal(65, b"", b"\0"), None, Status::NotJournal, NONE),
    (SHOW, TWO, Some(0), Status::DiskFault, NOTHING),
    (SHOW, TWO, Some(1), Status::DiskFault, NOTHING),
    (SHOW, TWO, Some(2), Status::DiskFault, NOTHING),
    (SHOW, TWO, Some(3), Status::DiskFault, NOTHING),
    (SHOW, TWO, Some(4), Status::DiskFault, NOTHING),
    (SHOW, TWO, Some(5), Status::DiskFault, NOTHING),
    (SHOW, TWO, Some(6), Status::Done, BOTH),
    (SHOW, TWO, None, Status::Done, BOTH),
    (EXPORT, EMPTY, None, Status::NotJournal, NONE),
    (EXPORT_SECOND, EMPTY, None, Status::NotJournal, NONE),
    (EXPORT, EMPTY, Some(0), Status::DiskFault, NOTHING),
    (EXPORT_SECOND, NOTES, None, Status::NotJournal, NONE),
    (EXPORT_SECOND, Held::Journal(0, b"A", b""), None, Status::Damaged, Out::Text(b"fault damaged 91\n")),
    (EXPORT_SECOND, TWO, Some(5), Status::DiskFault, NOTHING),
    (EXPORT_SECOND, TWO, Some(6), Status::Done, Out::Feed(SECOND, 0, b"A\nB\n")),
    (EXPORT, TWO, None, Status::Done, Out::Feed(FIRST, 0, b"A\nB\n")),
    (EXPORT_SECOND, Held::Journal(0, b"", b"\0"), None, Status::Done, Out::Feed(SECOND, 0, b"")),
    (EXPORT, OF_SECOND, None, Status::Done, Out::Feed(FIRST, 0, b"")),
    (EXPORT_SECOND, OF_SECOND, None, Status::Done, Out::Feed(SECOND, 0, b"")),
    (EXPORT_SECOND, Held::Journal(64, b"", b"\0\xff"), None, Status::Done, Out::Feed(SECOND, 64, b"")),
    (EXPORT, Held::Journal(1, b"B", b"\0"), None, Status::Done, Out::Feed(FIRST, 1, b"B\n")),
    // Blocks that wait, and one that comes behind its child.
    (EXPORT_SECOND, Held::Journal(0, b"FWA", b"\x01"), None, Status::Done, Out::Feed(SECOND, 0, b"F\nW\nA\n")),
];

fn written(alloc: Global, out: Out) -> Text {
    match out {
        Out::Text(text) => Text::of(alloc, text),
        Out::Feed(version, bits, blocks) => feed_as(alloc, version, bits, blocks, END),
    }
}

/// The source would fail at its first read, and isn't asked.
fn try_row(rt: &impl Abort, alloc: Global, at: usize, (words, disk, bad_calls, status, out): Row) {
    let output = written(alloc, out);
    let ends = Ends {
        bad_read: Some(0),
        disk,
        bad_calls,
        ..WIDE
    };
    let trial = Trial {
        words,
        input: b"SPCTRF01",
        ends,
    };
    let wanted = Wanted {
        status,
        lines: 0,
        output: output.whole(rt),
        rest: Some((None, Some(7), *b"SPCTRF0", true)),
    };
    tries_over(rt, alloc, ("shown", at), &trial, &wanted, Left::AsBefore);
}

#[test]
fn each_disk(rt: HostRuntime) {
    for (at, row) in ROWS.iter().enumerate() {
        try_row(&rt, rt.alloc(), at, *row);
    }
}

/// How many bytes there is room for, which write fails, and how many bytes of the feed are written: its
/// front, and then for each frame its front and its payload.
#[rattlefmt::skip]
const ENDS: &[(usize, Option<u32>, usize)] = &[
    (4096, Some(0), 0),
    (4096, Some(1), 9),
    (4096, Some(2), 14),
    (4096, Some(3), 34),
    (4096, Some(6), 96),
    (4096, Some(8), 153),
    (0, None, 0),
    (8, None, 8),
    (40, None, 40),
    (152, None, 152),
    (153, None, 153),
];

/// Exports both blocks to these ends, which take so many bytes.
fn try_ends(
    rt: &impl Abort,
    alloc: Global,
    at: usize,
    (room, bad_write, taken): (usize, Option<u32>, usize),
) {
    let feed = both(alloc);
    let feed = feed.whole(rt);
    let trial = Trial {
        words: EXPORT,
        input: b"",
        ends: Ends {
            room,
            bad_write,
            disk: TWO,
            ..WIDE
        },
    };
    let status = if taken == feed.len() {
        Status::Done
    } else {
        Status::WriteFault
    };
    let wanted = Wanted {
        status,
        lines: 0,
        output: feed.get(..taken).unwrap_or(b""),
        rest: None,
    };
    tries_over(rt, alloc, ("ends", at), &trial, &wanted, Left::AsBefore);
}

#[test]
fn exports_cut(rt: HostRuntime) {
    for (at, row) in ENDS.iter().enumerate() {
        try_ends(&rt, rt.alloc(), at, *row);
    }
}

/// What is exported of a journal is answered as a feed, also by a node, which makes the journal of the
/// other profile of it; and what is exported of that one in profile 1 is the first journal's feed.
#[test]
fn moved(rt: HostRuntime) {
    let alloc = rt.alloc();
    let kept = in_full(alloc, b"kept A present 1\nkept B present 1\n");
    let old = both(alloc);
    let (_, first) = runs_on(&rt, alloc, NODE, old.whole(&rt), b"");
    let (feed, _) = runs_on(&rt, alloc, EXPORT_SECOND, b"", first.as_slice());
    let moved = feed.output.whole(&rt);
    assert!(&rt; moved.len() == 153, "its length");
    replays(
        &rt,
        alloc,
        ("moved", 0),
        moved,
        (Status::Done, None),
        kept.whole(&rt),
    );
    let (ended, second) = runs_on(&rt, alloc, NODE, moved, b"");
    assert!(&rt; ended.output.whole(&rt) == kept.whole(&rt), "the node");
    assert!(&rt; second.as_slice() != first.as_slice(), "the profile");
    let (again, _) = runs_on(&rt, alloc, EXPORT, b"", second.as_slice());
    assert!(&rt; again.output.whole(&rt) == old.whole(&rt), "the first feed");
}
