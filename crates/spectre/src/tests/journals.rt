//! Feeds answered by a node over journals that were found: what is known then, what waits, and what is
//! asked of it; and with a call of the source or of the sink failing.

use crate::status::Status;
use crate::tests::crashes::{NODE, both, kept};
use crate::tests::disks::{EMPTY, Held, Left, TWO, tries_over};
use crate::tests::feed_bytes::{END, feed_of, in_full};
use crate::tests::{Ends, Trial, WIDE, Wanted};
use std::alloc::Global;
use std::process::Abort;

/// What was found, the messages and what follows them, the answers, and what stands on the disk then.
struct Row {
    name: &'static str,
    found: Held,
    bits: u8,
    messages: &'static [u8],
    tail: &'static [u8],
    output: &'static [u8],
    left: Held,
}

const REPORT: &[u8] = b"R\0\0\0\0E\0\0\0\0";

const PAIRS: &[u8] = b"P\0\0\0\0E\0\0\0\0";

#[rattlefmt::skip]
const ROWS: &[Row] = &[
    Row { name: "nothing, on nothing", found: EMPTY, bits: 0, messages: b"", tail: END, output: b"", left: Held::Journal(0, b"", b"\0") },
    Row { name: "nothing, with work", found: EMPTY, bits: 64, messages: b"A\n", tail: END, output: b"refused work\n", left: Held::Journal(64, b"", b"\0") },
    Row { name: "two blocks", found: EMPTY, bits: 0, messages: b"A\nB\n", tail: END, output: b"kept A present 1\nkept B present 1\n", left: TWO },
    Row { name: "both again", found: TWO, bits: 0, messages: b"A\nB\n", tail: END, output: b"known A\nknown B\n", left: TWO },
    Row { name: "a third", found: TWO, bits: 0, messages: b"C\n", tail: END, output: b"kept C present 1\n", left: Held::Journal(0, b"ABC", b"\0") },
    Row { name: "a question alone", found: Held::Journal(0, b"ABC", b"\0"), bits: 0, messages: b"AB\nBA\nGA\nAD\n", tail: END, output: b"vote A B before\nvote B A after\nvote G A before\nvote A D absent\n", left: Held::Journal(0, b"ABC", b"\0") },
    Row { name: "blocks that decide otherwise", found: Held::Journal(0, b"ABC", b"\0"), bits: 0, messages: b"AB\nD\nE\nAB\n", tail: END, output: b"vote A B before\nkept D present 1\nkept E present 1\nvote A B after\n", left: Held::Journal(0, b"ABCDE", b"\0") },
    Row { name: "a block that waits", found: EMPTY, bits: 0, messages: b"F\nGF\n", tail: REPORT, output: b"kept F waiting\nvote G F absent\nblocks 1 waiting 1\naccepted 0\nbalances 0\n", left: Held::Journal(0, b"F", b"\0") },
    Row { name: "it still waits", found: Held::Journal(0, b"F", b"\0"), bits: 0, messages: b"F\nGF\n", tail: REPORT, output: b"known F\nvote G F absent\nblocks 1 waiting 1\naccepted 0\nbalances 0\n", left: Held::Journal(0, b"F", b"\0") },
    Row { name: "its parent comes", found: Held::Journal(0, b"F", b"\0"), bits: 0, messages: b"A\nF\nGF\n", tail: REPORT, output: b"kept A present 2\nknown F\nvote G F before\nblocks 3 waiting 0\naccepted 0\nbalances 0\n", left: Held::Journal(0, b"FA", b"\0") },
    Row { name: "a block twice, and refused ones", found: TWO, bits: 0, messages: b"C+\nG\n*\nA+\nC\nC\n", tail: END, output: b"refused trailing\nrefused parent-count\nrefused too-long\nrefused trailing\nkept C present 1\nknown C\n", left: Held::Journal(0, b"ABC", b"\0") },
    Row { name: "work, and a block that has it", found: Held::Journal(1, b"", b"\0"), bits: 1, messages: b"A\nB\n", tail: REPORT, output: b"refused work\nkept B present 1\nblocks 2 waiting 0\naccepted 0\nbalances 0\n", left: Held::Journal(1, b"B", b"\0") },
    Row { name: "all pairs of found blocks", found: TWO, bits: 0, messages: b"", tail: PAIRS, output: b"pairs 3\nvote G B before\nvote G A before\nvote B A tie\n", left: TWO },
    Row { name: "a closed gate of another value", found: Held::Journal(0, b"A", b"\x5arubbish"), bits: 0, messages: b"A\n", tail: END, output: b"known A\n", left: Held::Journal(0, b"A", b"\x5arubbish") },
];

fn try_row(rt: &impl Abort, alloc: Global, at: usize, row: &Row) {
    let input = feed_of(alloc, row.bits, row.messages, row.tail);
    let output = in_full(alloc, row.output);
    let trial = Trial {
        words: NODE,
        input: input.whole(rt),
        ends: Ends {
            disk: row.found,
            ..WIDE
        },
    };
    let wanted = Wanted {
        status: Status::Done,
        lines: 0,
        output: output.whole(rt),
        rest: Some((Some(0), Some(0), [0; 7], true)),
    };
    let left = Left::Stands(row.left);
    tries_over(rt, alloc, (row.name, at), &trial, &wanted, left);
}

#[test]
fn found(rt: HostRuntime) {
    for (at, row) in ROWS.iter().enumerate() {
        try_row(&rt, rt.alloc(), at, row);
    }
}

/// Which write of a line fails, which read by single bytes, how many lines are written, the status, and
/// how many blocks each crash leaves: those whose lines were written, and the one whose line wasn't.
type Broken = (Ends, usize, Status, &'static [u8]);

#[rattlefmt::skip]
const BROKEN: &[Broken] = &[
    (Ends { bad_write: Some(0), disk: EMPTY, ..WIDE }, 0, Status::WriteFault, b"1111"),
    (Ends { bad_write: Some(1), disk: EMPTY, ..WIDE }, 1, Status::WriteFault, b"2222"),
    (Ends { bad_write: Some(2), disk: EMPTY, ..WIDE }, 2, Status::Done, b"2222"),
    (Ends { given: 1, bad_read: Some(34), disk: EMPTY, ..WIDE }, 0, Status::ReadFault, b"0000"),
    (Ends { given: 1, bad_read: Some(90), disk: EMPTY, ..WIDE }, 0, Status::ReadFault, b"0000"),
    (Ends { given: 1, bad_read: Some(91), disk: EMPTY, ..WIDE }, 1, Status::ReadFault, b"1111"),
    (Ends { given: 1, bad_read: Some(148), disk: EMPTY, ..WIDE }, 2, Status::ReadFault, b"2222"),
];

/// Runs at these ends.
fn try_ends(rt: &impl Abort, alloc: Global, at: usize, (ends, lines, status, left): Broken) {
    let input = both(alloc);
    let output = in_full(alloc, kept(lines));
    let trial = Trial {
        words: NODE,
        input: input.whole(rt),
        ends,
    };
    let wanted = Wanted {
        status,
        lines: 0,
        output: output.whole(rt),
        rest: None,
    };
    tries_over(
        rt,
        alloc,
        ("broken", at),
        &trial,
        &wanted,
        Left::Found(left),
    );
}

#[test]
fn each_end_failing(rt: HostRuntime) {
    for (at, row) in BROKEN.iter().enumerate() {
        try_ends(&rt, rt.alloc(), at, *row);
    }
}
