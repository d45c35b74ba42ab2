//! Feeds that strangers may send: some cut before each of their bytes, and blocks that are refused by each of
//! the reasons, with a valid block behind. Ids, locks and bytes are by another program from the formats.

use crate::status::Status;
use crate::tests::balances::{DECIDED, bytes_of};
use crate::tests::ends_as;
use crate::tests::feed_bytes::put_kind;
use crate::tests::feeds::{CUT, SMALLEST, replays};
use crate::tests::streams::written_by;
use crate::tests::text::{Text, joined, put_number};
use std::alloc::Global;
use std::process::Abort;

/// How many bytes each message ends behind, and how many are written then.
const WRITTEN: &[(u32, usize)] = &[
    (214, 80),
    (352, 160),
    (389, 237),
    (426, 314),
    (463, 391),
    (520, 471),
    (557, 548),
    (594, 625),
    (599, 897),
];

/// What is written where so many bytes of a feed were read and its end is missing.
fn cut_answers(alloc: Global, answers: &[u8], written: &[(u32, usize)], length: u16) -> Text {
    let end = written_by(written, u32::from(length));
    let mut output = Text::of(alloc, answers.get(..end).unwrap_or(b""));
    output.put(b"fault truncated ");
    put_number(&mut output, length);
    output.put(b"\n");
    output
}

/// Cuts a feed before each of its bytes: what was answered by then stands before the fault's line.
fn is_cut(
    rt: &impl Abort,
    alloc: Global,
    name: &str,
    feed: &[u8],
    answers: &[u8],
    written: &[(u32, usize)],
) {
    for length in 0..u16::try_from(feed.len()).unwrap_or(0) {
        let output = cut_answers(alloc, answers, written, length);
        let length = usize::from(length);
        let input = feed.get(..length).unwrap_or(feed);
        replays(rt, alloc, (name, length), input, CUT, output.whole(rt));
    }
}

#[test]
fn cut_before_each_byte(rt: HostRuntime) {
    let feed = bytes_of(rt.alloc(), DECIDED.feed);
    let feed = feed.whole(&rt);
    is_cut(&rt, rt.alloc(), "smallest", SMALLEST, b"", &[]);
    is_cut(&rt, rt.alloc(), "decided", feed, DECIDED.answers, WRITTEN);
}

/// A head that asks for one bit of work.
const HEAD: &[u8] = b"SPCTRF01\x01B\x14\0\0\0\x01\0\0\0\0\0\0\0\0\0\0\0\0\0\0\0\0\0\0\0";

/// The frame of a block on genesis that meets the work, and the end.
const VALID: &[u8] =
    b"B4\0\0\0\x01\x09\0\0\0\0\0\0\0\0\0\0\0\0\0\0\0\x01!\xfc?\x95\x5c\x140^\xd6k/`d\xde\x08.\x84G\xf2\x90H\xda:\xb7\xc5\xc0\x10\x90\xc1\xb7\x22\xab\0\0E\0\0\0\0";

const VALID_ID: &str = "4e58970eac2d74b9c6f8b4f67ebc78615be3bb524f1ce8862725776cfb72c719";

/// How many bytes a block has, its first ones, all others being zero, and why it is refused.
type Row = (u32, &'static [u8], &'static str);

#[rattlefmt::skip]
const ROWS: &[Row] = &[
    (65537, b"", "too-long"),
    (10, b"\x01\x07\0\0\0\0\0\0\0\0", "short"),
    (52, b"\x02\x07\0\0\0\0\0\0\0\0\0\0\0\0\0\0\0\x01!\xfc?\x95\x5c\x140^\xd6k/`d\xde\x08.\x84G\xf2\x90H\xda:\xb7\xc5\xc0\x10\x90\xc1\xb7\x22\xab\0\0", "version"),
    (20, b"\x01\0\0\0\0\0\0\0\0\0\0\0\0\0\0\0\0\0\0\0", "parent-count"),
    (84, b"\x01\x07\0\0\0\0\0\0\0\0\0\0\0\0\0\0\0\x02!\xfc?\x95\x5c\x140^\xd6k/`d\xde\x08.\x84G\xf2\x90H\xda:\xb7\xc5\xc0\x10\x90\xc1\xb7\x22\xab!\xfc?\x95\x5c\x140^\xd6k/`d\xde\x08.\x84G\xf2\x90H\xda:\xb7\xc5\xc0\x10\x90\xc1\xb7\x22\xab\0\0", "parent-order"),
    (52, b"\x01\x07\0\0\0\0\0\0\0\0\0\0\0\0\0\0\0\x01!\xfc?\x95\x5c\x140^\xd6k/`d\xde\x08.\x84G\xf2\x90H\xda:\xb7\xc5\xc0\x10\x90\xc1\xb7\x22\xab\x01\x01", "tx-count"),
    (52, b"\x01\x07\0\0\0\0\0\0\0\0\0\0\0\0\0\0\0\x01!\xfc?\x95\x5c\x140^\xd6k/`d\xde\x08.\x84G\xf2\x90H\xda:\xb7\xc5\xc0\x10\x90\xc1\xb7\x22\xab\x01\0", "tx-short"),
    (94, b"\x01\x07\0\0\0\0\0\0\0\0\0\0\0\0\0\0\0\x01!\xfc?\x95\x5c\x140^\xd6k/`d\xde\x08.\x84G\xf2\x90H\xda:\xb7\xc5\xc0\x10\x90\xc1\xb7\x22\xab\x01\0\x11\x01\x01\0\0\0\0\0\0\0\0\0\0\0\0\0\0\0\0\0\0\0\0\0\0\0\0\0\0\0\0\0\0\0\0\0\0\0\0\0\0\0", "tx-input-count"),
    (164, b"\x01\x07\0\0\0\0\0\0\0\0\0\0\0\0\0\0\0\x01!\xfc?\x95\x5c\x140^\xd6k/`d\xde\x08.\x84G\xf2\x90H\xda:\xb7\xc5\xc0\x10\x90\xc1\xb7\x22\xab\x01\0\x02\0\0\0\0\0\0\0\0\0\0\0\0\0\0\0\0\0\0\0\0\0\0\0\0\0\0\0\0\0\0\0\0\0\x01w\0\0\0\0\0\0\0\0\0\0\0\0\0\0\0\0\0\0\0\0\0\0\0\0\0\0\0\0\0\0\0\0\0\x01w\x01\x01\0\0\0\0\0\0\0\0\0\0\0\0\0\0\0\0\0\0\0\0\0\0\0\0\0\0\0\0\0\0\0\0\0\0\0\0\0\0\0", "tx-input-order"),
    (128, b"\x01\x07\0\0\0\0\0\0\0\0\0\0\0\0\0\0\0\x01!\xfc?\x95\x5c\x140^\xd6k/`d\xde\x08.\x84G\xf2\x90H\xda:\xb7\xc5\xc0\x10\x90\xc1\xb7\x22\xab\x01\0\x01\0\0\0\0\0\0\0\0\0\0\0\0\0\0\0\0\0\0\0\0\0\0\0\0\0\0\0\0\0\0\0\0\0\0\x01\x01\0\0\0\0\0\0\0\0\0\0\0\0\0\0\0\0\0\0\0\0\0\0\0\0\0\0\0\0\0\0\0\0\0\0\0\0\0\0\0", "tx-preimage"),
    (89, b"\x01\x07\0\0\0\0\0\0\0\0\0\0\0\0\0\0\0\x01!\xfc?\x95\x5c\x140^\xd6k/`d\xde\x08.\x84G\xf2\x90H\xda:\xb7\xc5\xc0\x10\x90\xc1\xb7\x22\xab\x01\0\x01\0\0\0\0\0\0\0\0\0\0\0\0\0\0\0\0\0\0\0\0\0\0\0\0\0\0\0\0\0\0\0\0\0\x01w\0", "tx-output-count"),
    (129, b"\x01\x07\0\0\0\0\0\0\0\0\0\0\0\0\0\0\0\x01!\xfc?\x95\x5c\x140^\xd6k/`d\xde\x08.\x84G\xf2\x90H\xda:\xb7\xc5\xc0\x10\x90\xc1\xb7\x22\xab\x01\0\x01\0\0\0\0\0\0\0\0\0\0\0\0\0\0\0\0\0\0\0\0\0\0\0\0\0\0\0\0\0\0\0\0\0\x01w\x01\0\0\0\0\0\0\0\0\0\0\0\0\0\0\0\0\0\0\0\0\0\0\0\0\0\0\0\0\0\0\0\0\0\0\0\0\0\0\0\0", "tx-amount"),
    (169, b"\x01\x07\0\0\0\0\0\0\0\0\0\0\0\0\0\0\0\x01!\xfc?\x95\x5c\x140^\xd6k/`d\xde\x08.\x84G\xf2\x90H\xda:\xb7\xc5\xc0\x10\x90\xc1\xb7\x22\xab\x01\0\x01\0\0\0\0\0\0\0\0\0\0\0\0\0\0\0\0\0\0\0\0\0\0\0\0\0\0\0\0\0\0\0\0\0\x01w\x02\0\0\0\0\0\0\0@\0\0\0\0\0\0\0\0\0\0\0\0\0\0\0\0\0\0\0\0\0\0\0\0\0\0\0\0\0\0\0\0\0\0\0\0\0\0\0@\0\0\0\0\0\0\0\0\0\0\0\0\0\0\0\0\0\0\0\0\0\0\0\0\0\0\0\0\0\0\0\0", "tx-sum"),
    (94, b"\x01\x07\0\0\0\0\0\0\0\0\0\0\0\0\0\0\0\x01!\xfc?\x95\x5c\x140^\xd6k/`d\xde\x08.\x84G\xf2\x90H\xda:\xb7\xc5\xc0\x10\x90\xc1\xb7\x22\xab\x01\0\0\x01\x01\0\0\0\0\0\0\0\0\0\0\0\0\0\0\0\0\0\0\0\0\0\0\0\0\0\0\0\0\0\0\0\0\0\0\0\0\0\0\0", "grant"),
    (206, b"\x01\x07\0\0\0\0\0\0\0\0\0\0\0\0\0\0\0\x01!\xfc?\x95\x5c\x140^\xd6k/`d\xde\x08.\x84G\xf2\x90H\xda:\xb7\xc5\xc0\x10\x90\xc1\xb7\x22\xab\x02\0\x01\0\0\0\0\0\0\0\0\0\0\0\0\0\0\0\0\0\0\0\0\0\0\0\0\0\0\0\0\0\0\0\0\0\x01w\x01\x01\0\0\0\0\0\0\0\0\0\0\0\0\0\0\0\0\0\0\0\0\0\0\0\0\0\0\0\0\0\0\0\0\0\0\0\0\0\0\0\x01\0\0\0\0\0\0\0\0\0\0\0\0\0\0\0\0\0\0\0\0\0\0\0\0\0\0\0\0\0\0\0\0\0\x01w\x01\x01\0\0\0\0\0\0\0\0\0\0\0\0\0\0\0\0\0\0\0\0\0\0\0\0\0\0\0\0\0\0\0\0\0\0\0\0\0\0\0", "same-tx"),
    (206, b"\x01\x07\0\0\0\0\0\0\0\0\0\0\0\0\0\0\0\x01!\xfc?\x95\x5c\x140^\xd6k/`d\xde\x08.\x84G\xf2\x90H\xda:\xb7\xc5\xc0\x10\x90\xc1\xb7\x22\xab\x02\0\x01\0\0\0\0\0\0\0\0\0\0\0\0\0\0\0\0\0\0\0\0\0\0\0\0\0\0\0\0\0\0\0\0\0\x01w\x01\x01\0\0\0\0\0\0\0\0\0\0\0\0\0\0\0\0\0\0\0\0\0\0\0\0\0\0\0\0\0\0\0\0\0\0\0\0\0\0\0\x01\0\0\0\0\0\0\0\0\0\0\0\0\0\0\0\0\0\0\0\0\0\0\0\0\0\0\0\0\0\0\0\0\0\x01v\x01\x01\0\0\0\0\0\0\0\0\0\0\0\0\0\0\0\0\0\0\0\0\0\0\0\0\0\0\0\0\0\0\0\0\0\0\0\0\0\0\0", "same-outpoint"),
    (53, b"\x01\x07\0\0\0\0\0\0\0\0\0\0\0\0\0\0\0\x01!\xfc?\x95\x5c\x140^\xd6k/`d\xde\x08.\x84G\xf2\x90H\xda:\xb7\xc5\xc0\x10\x90\xc1\xb7\x22\xab\0\0\0", "trailing"),
    (52, b"\x01\x09\0\0\0\0\0\0\0\x02\0\0\0\0\0\0\0\x01!\xfc?\x95\x5c\x140^\xd6k/`d\xde\x08.\x84G\xf2\x90H\xda:\xb7\xc5\xc0\x10\x90\xc1\xb7\x22\xab\0\0", "work"),
];

fn feed_of(alloc: Global, row: &Row) -> Text {
    let (size, front, _) = row;
    let mut feed = Text::of(alloc, HEAD);
    put_kind(&mut feed, b'B', *size);
    feed.put(front);
    feed.put_times((*size as usize).saturating_sub(front.len()), 0);
    feed.put(VALID);
    feed
}

fn answers_of(alloc: Global, why: &str) -> Text {
    let mut output = joined(alloc, b"refused ", why.as_bytes());
    output.put(b"\nkept ");
    output.put(VALID_ID.as_bytes());
    output.put(b" present 1\n");
    output
}

#[test]
fn refused_by_each_reason(rt: HostRuntime) {
    for (at, row) in ROWS.iter().enumerate() {
        let feed = feed_of(rt.alloc(), row);
        let output = answers_of(rt.alloc(), row.2);
        let run = (b"replay".as_slice(), feed.whole(&rt));
        let wanted = (0, output.whole(&rt));
        ends_as(&rt, rt.alloc(), row.2, at, run, Status::Done, wanted);
    }
}
