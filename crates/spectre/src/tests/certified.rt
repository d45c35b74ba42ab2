//! Certificates of what a feed says of two blocks that stand side by side, and the check of them. The ids are
//! by another program, and the answers were worked out by hand from the rules.

use crate::status::Status;
use crate::tests::text::{Names, Text, in_digits, joined};
use crate::tests::wallet::built;
use crate::tests::{Trial, WIDE, ends_as, ran};
use std::alloc::Global;
use std::process::Abort;

/// Two blocks on genesis.
const TWO_BLOCKS: &[u8] = b"block A on G\nblock B on G\n";

const IDS: Names = &[
    (
        b'A',
        "ebc352d52d8a2d8f607bc82f6edc468679599eb0e8a8429d88c82e4cffb62854",
    ),
    (
        b'B',
        "6fd2bc64ef18bc610e2371e6ea7cdda86b35be6cfbe8274c1ed1d9012553c26a",
    ),
    (
        b'X',
        "0000000000000000000000000000000000000000000000000000000000000000",
    ),
];

/// The certificate of the two.
fn certificate(rt: &impl Abort, alloc: Global) -> Text {
    let feed = built(rt, alloc, TWO_BLOCKS);
    let words = in_digits(alloc, IDS, b"certify\nA\nB");
    let trial = Trial {
        words: words.whole(rt),
        input: feed.whole(rt),
        ends: WIDE,
    };
    ran(rt, alloc, &trial).output
}

/// So many bytes of a certificate, those behind them, how the check of them ends, and its line, names
/// standing for ids.
type Checked = (usize, &'static [u8], Status, &'static [u8]);

#[rattlefmt::skip]
const CHECKED: &[Checked] = &[
    (219, b"", Status::Done, b"shown A B tie\n"),
    (216, b"\x01\0\x02", Status::Done, b"shown A B tie\n"),
    (218, b"\0", Status::Refuted, b"fault refuted vote 0 0\n"),
    (218, b"\x03", Status::Malformed, b"fault malformed 218\n"),
    (218, b"", Status::Truncated, b"fault truncated 218\n"),
];

fn checks_so(rt: &impl Abort, alloc: Global, at: usize, bytes: &[u8], row: &Checked) {
    let (length, tail, status, line) = row;
    let input = joined(alloc, bytes.get(..*length).unwrap_or(b""), tail);
    let line = in_digits(alloc, IDS, line);
    ends_as(
        rt,
        alloc,
        "check",
        at,
        (b"check", input.whole(rt)),
        *status,
        (0, line.whole(rt)),
    );
}

#[test]
fn checked(rt: HostRuntime) {
    let bytes = certificate(&rt, rt.alloc());
    assert!(&rt; bytes.len() == 219, "the certificate's length");
    for (at, row) in CHECKED.iter().enumerate() {
        checks_so(&rt, rt.alloc(), at, bytes.whole(&rt), row);
    }
}

/// The words for which there is no certificate, and how the run ends.
const NONE: &[(&[u8], Status, &[u8])] = &[
    (b"certify\nA\nA", Status::NoPair, b"fault no-pair\n"),
    (b"certify\nA\nX", Status::NoPair, b"fault no-pair\n"),
    (b"certify\nX\nX", Status::NoPair, b"fault no-pair\n"),
    (b"certify\nA", Status::Usage, b""),
    (b"certify\nA\nB\nA", Status::Usage, b""),
    (b"certify\nA\nz", Status::Usage, b""),
];

#[test]
fn no_certificates(rt: HostRuntime) {
    let feed = built(&rt, rt.alloc(), TWO_BLOCKS);
    for (at, (words, status, line)) in NONE.iter().enumerate() {
        let words = in_digits(rt.alloc(), IDS, words);
        let (words, input) = (words.whole(&rt), feed.whole(&rt));
        ends_as(
            &rt,
            rt.alloc(),
            "none",
            at,
            (words, input),
            *status,
            (0, line),
        );
    }
}
