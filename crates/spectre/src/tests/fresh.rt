//! A new journal over other bytes, where it is asked for: never in the place of a journal, and never one
//! that a crash opens over what stood there.

use crate::status::Status;
use crate::tests::crashes::{FRESH, NODE, Row, Sequence, fails_at_each, kept};
use crate::tests::disks::{Held, Left, TWO, tries_over};
use crate::tests::feed_bytes::{END, feed_of, in_full};
use crate::tests::{Ends, Trial, WIDE, Wanted};
use std::alloc::Global;
use std::process::Abort;

/// Rubbish behind a closed gate. The length and a sync and a read are calls 0 to 2, and the creation has
/// four calls, since a closed gate isn't written again.
const CLOSED: Sequence = Sequence {
    words: FRESH,
    bytes: &[0x5A; 300],
    calls: 15,
    made: 7,
    rows: FAILING_CLOSED,
};

/// What stood there is no journal, whatever of the new one stands before it.
const FAILING_CLOSED: &[Row] = &[
    (0, 0, b"nnnn"),
    (1, 0, b"nnnn"),
    (2, 0, b"nnnn"),
    (3, 0, b"nnnn"),
    (4, 0, b"nnnn"),
    (5, 0, b"nnn0"),
    (6, 0, b"n0n0"),
    (7, 0, b"0000"),
    (9, 0, b"0001"),
    (10, 0, b"0101"),
    (11, 1, b"1111"),
    (13, 1, b"1112"),
    (14, 1, b"1212"),
    (15, 2, b"2222"),
];

/// Rubbish behind an open gate, which is closed first: the creation has six calls.
const OPEN: Sequence = Sequence {
    words: FRESH,
    bytes: &[0xA5; 300],
    calls: 17,
    made: 9,
    rows: FAILING_OPEN,
};

const FAILING_OPEN: &[Row] = &[
    (2, 0, b"nnnn"),
    (3, 0, b"nnnn"),
    (4, 0, b"nnnn"),
    (5, 0, b"nnnn"),
    (6, 0, b"nnnn"),
    (7, 0, b"nnn0"),
    (8, 0, b"n0n0"),
    (9, 0, b"0000"),
    (12, 0, b"0101"),
    (13, 1, b"1111"),
    (16, 1, b"1212"),
    (17, 2, b"2222"),
];

#[test]
fn over_rubbish(rt: HostRuntime) {
    fails_at_each(&rt, rt.alloc(), &CLOSED);
    fails_at_each(&rt, rt.alloc(), &OPEN);
}

/// The head of a journal, but for its last byte.
const CUT: &[u8] = b"\xa5SPCTRJ01\0\x14\0\0\0\x01\0\0\0\0\0\0\0\0\0\0\0\0\0\0\0\0\0\0";

/// Bytes that hold no journal, and how many of them are left where the journal of the two blocks, of 149
/// bytes, stands there.
const OVER: &[(&[u8], usize)] = &[
    (b"# notes\n", 149),
    (b"\0", 149),
    (b"\xa5", 149),
    (CUT, 149),
    (&[0; 148], 149),
    (&[0xA5; 300], 300),
    (&[0x5A; 300], 300),
];

/// What stands on a disk, the bits of the feed of the two blocks, how a run ends there, and what it
/// leaves.
type Kept = (Held, u8, Status, &'static [u8], Left);

/// Sends both blocks with these words over a disk, and compares how they are answered and what is left.
fn answers_both(
    rt: &impl Abort,
    alloc: Global,
    at: usize,
    words: &[u8],
    (disk, bits, status, lines, left): Kept,
) {
    let input = feed_of(alloc, bits, b"A\nB\n", END);
    let output = in_full(alloc, lines);
    let trial = Trial {
        words,
        input: input.whole(rt),
        ends: Ends { disk, ..WIDE },
    };
    let wanted = Wanted {
        status,
        lines: 0,
        output: output.whole(rt),
        rest: None,
    };
    tries_over(rt, alloc, ("fresh", at), &trial, &wanted, left);
}

/// Such a run is refused, which leaves the bytes; and a new journal is made where it is asked for.
#[test]
fn over_other_bytes(rt: HostRuntime) {
    let refused: &[u8] = b"fault not-journal\n";
    for (at, (bytes, size)) in OVER.iter().enumerate() {
        let held = Held::Bytes(bytes);
        let row = (held, 0, Status::NotJournal, refused, Left::AsBefore);
        answers_both(&rt, rt.alloc(), at, NODE, row);
        let row = (held, 0, Status::Done, kept(2), Left::Made(*size));
        answers_both(&rt, rt.alloc(), at, b"node\nf\n--fresh", row);
    }
}

/// A journal isn't discarded: neither one of this chain, nor that of another one, nor a damaged one.
#[rattlefmt::skip]
const KEPT: &[Kept] = &[
    (TWO, 0, Status::Done, b"known A\nknown B\n", Left::Found(b"2222")),
    (Held::Journal(0, b"", b"\0"), 0, Status::Done, b"kept A present 1\nkept B present 1\n", Left::Found(b"2222")),
    (Held::Journal(0, b"B", b"\0rubbish"), 0, Status::Done, b"kept A present 1\nknown B\n", Left::Found(b"2222")),
    (TWO, 1, Status::OtherChain, b"fault other-chain 0 G 1 1 G 1\n", Left::AsBefore),
    (Held::Journal(0, b"AB", b""), 0, Status::Damaged, b"fault damaged 148\n", Left::AsBefore),
    (Held::Journal(0, b"AB", b"\xa5"), 1, Status::Damaged, b"fault damaged 148\n", Left::AsBefore),
];

#[test]
fn over_a_journal(rt: HostRuntime) {
    for (at, row) in KEPT.iter().enumerate() {
        answers_both(&rt, rt.alloc(), at, FRESH, *row);
    }
}
