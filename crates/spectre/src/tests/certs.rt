//! Certificates that are checked: of graphs whose votes were worked out by hand, at fault in each way, cut
//! and changed at their bytes.

use crate::status::Status;
use crate::tests::disks::Held;
use crate::tests::feed_bytes::{END, FIRST, IDS, SECOND, feed_as, in_full, put_record};
use crate::tests::streams::{Stream, try_all};
use crate::tests::text::{Text, put_named, put_number};
use crate::tests::{Trial, WIDE, Wanted, ends_as, tries};
use std::alloc::Global;
use std::process::Abort;

/// The number of a world, and the bytes of its votes: 0 for -1, 1 for 0, 2 for +1.
type World = (u16, &'static [u8]);

/// A profile, the names of blocks, the names of the two, the byte of a sign, and the worlds.
type Claim = (u8, &'static [u8], &'static [u8], u8, &'static [World]);

/// The number of the world of all blocks.
const ALL: u16 = 65_535;

/// What is shown. C stands on A, D on B, and H on both.
#[rattlefmt::skip]
const SHOWN: &[(Claim, &[u8])] = &[
    ((1, b"GAB", b"AB", 1, &[(ALL, &[1, 0, 2])]), b"shown A B tie\n"),
    ((1, b"GAB", b"BA", 1, &[(ALL, &[1, 2, 0])]), b"shown B A tie\n"),
    ((1, b"GABC", b"AB", 0, &[(ALL, &[0, 0, 2, 0])]), b"shown A B before\n"),
    ((1, b"GABD", b"AB", 2, &[(ALL, &[2, 0, 2, 2])]), b"shown A B after\n"),
    ((1, b"GAC", b"GC", 0, &[(ALL, &[0, 0, 0])]), b"shown G C before\n"),
    ((1, b"GAC", b"CG", 2, &[(ALL, &[2, 2, 2])]), b"shown C G after\n"),
    ((1, b"GABH", b"AB", 1, &[(ALL, &[1, 0, 2, 1]), (3, &[1, 0, 2, 1])]), b"shown A B tie\n"),
    // H settles the tie in its past for A, whose salt is lower.
    ((2, b"GABH", b"AB", 0, &[(ALL, &[0, 0, 2, 0]), (3, &[1, 0, 2, 1])]), b"shown A B before\n"),
];

/// What is refused, for the first reason that stands.
#[rattlefmt::skip]
const REFUTED: &[(Claim, &[u8])] = &[
    // A stands behind C; a block comes twice; W stands on none of them.
    ((1, b"GCA", b"GA", 0, &[(ALL, &[0, 0, 0])]), b"fault refuted parent 1\n"),
    ((1, b"GAA", b"GA", 0, &[(ALL, &[0, 0, 0])]), b"fault refuted parent 2\n"),
    ((1, b"GABW", b"AB", 1, &[(ALL, &[1, 0, 2, 1])]), b"fault refuted parent 3\n"),
    // The parent comes before the pair.
    ((1, b"GCA", b"AA", 0, &[(ALL, &[0, 0, 0])]), b"fault refuted parent 1\n"),
    ((1, b"GAB", b"AA", 1, &[(ALL, &[1, 0, 2])]), b"fault refuted pair\n"),
    ((1, b"GAB", b"AN", 1, &[(ALL, &[1, 0, 2])]), b"fault refuted pair\n"),
    ((1, b"GAB", b"NB", 1, &[(ALL, &[1, 0, 2])]), b"fault refuted pair\n"),
    // The pair comes before the world.
    ((1, b"GAB", b"CB", 1, &[(3, &[1, 0, 2])]), b"fault refuted pair\n"),
    ((1, b"GAB", b"AB", 1, &[(0, &[1, 0, 2])]), b"fault refuted world 0\n"),
    ((1, b"GABH", b"AB", 1, &[(3, &[1, 0, 2, 1]), (ALL, &[1, 0, 2, 1])]), b"fault refuted world 0\n"),
    ((1, b"GABH", b"AB", 1, &[(ALL, &[1, 0, 2, 1])]), b"fault refuted world 1\n"),
    ((1, b"GABH", b"AB", 1, &[(ALL, &[1, 0, 2, 1]), (2, &[1, 0, 2, 1])]), b"fault refuted world 1\n"),
    ((1, b"GAB", b"AB", 1, &[(ALL, &[1, 0, 2]), (2, &[1, 0, 2])]), b"fault refuted world 1\n"),
    ((1, b"GABH", b"AB", 1, &[(ALL, &[1, 0, 2, 1]), (3, &[1, 0, 2, 1]), (3, &[1, 0, 2, 1])]), b"fault refuted world 2\n"),
    // The world comes before the vote.
    ((1, b"GABH", b"AB", 1, &[(ALL, &[2, 2, 2, 2])]), b"fault refuted world 1\n"),
    ((1, b"GAB", b"AB", 1, &[(ALL, &[1, 0, 0])]), b"fault refuted vote 0 0\n"),
    ((1, b"GAB", b"AB", 1, &[(ALL, &[2, 1, 2])]), b"fault refuted vote 0 1\n"),
    ((1, b"GAB", b"AB", 1, &[(ALL, &[0, 0, 1])]), b"fault refuted vote 0 2\n"),
    // A tie in its past: settled in profile 1, and kept in profile 2.
    ((1, b"GABH", b"AB", 0, &[(ALL, &[0, 0, 2, 0]), (3, &[1, 0, 2, 1])]), b"fault refuted vote 0 3\n"),
    ((2, b"GABH", b"AB", 1, &[(ALL, &[1, 0, 2, 1]), (3, &[1, 0, 2, 1])]), b"fault refuted vote 0 3\n"),
    // H isn't in its own past, and has a vote there.
    ((1, b"GABH", b"AB", 2, &[(ALL, &[2, 0, 2, 2]), (3, &[1, 0, 2, 2])]), b"fault refuted vote 1 3\n"),
    // The vote comes before the sum.
    ((1, b"GAB", b"AB", 0, &[(ALL, &[1, 0, 0])]), b"fault refuted vote 0 0\n"),
    ((1, b"GAB", b"AB", 0, &[(ALL, &[1, 0, 2])]), b"fault refuted sum\n"),
    ((1, b"GABC", b"AB", 2, &[(ALL, &[0, 0, 2, 0])]), b"fault refuted sum\n"),
];

/// A number of two bytes.
fn put_count(out: &mut Text, count: usize) {
    let count = u16::try_from(count).unwrap_or(0);
    out.put(&count.to_le_bytes());
}

/// The length of a block and its bytes, which are those of its record but the first.
fn put_listed(alloc: Global, out: &mut Text, name: u8) {
    let mut record = Text::new(alloc);
    put_record(&mut record, name);
    out.put(record.end(record.len().saturating_sub(1)));
}

/// The bytes of a certificate.
fn cert_of(alloc: Global, claim: &Claim) -> Text {
    let (profile, blocks, pair, sign, worlds) = *claim;
    let mut out = Text::of(alloc, b"SPCTRC01");
    out.put(&[profile]);
    put_count(&mut out, blocks.len());
    for name in blocks {
        put_listed(alloc, &mut out, *name);
    }
    for name in pair {
        put_named(&mut out, IDS, *name);
    }
    out.put(&[sign]);
    put_count(&mut out, worlds.len());
    for (number, votes) in worlds {
        out.put(&number.to_le_bytes());
        out.put(votes);
    }
    out
}

/// Checks these bytes to their end.
fn checks_whole(
    rt: &impl Abort,
    alloc: Global,
    (name, at): (&str, usize),
    input: &[u8],
    status: Status,
    line: &[u8],
) {
    let trial = Trial {
        words: b"check",
        input,
        ends: WIDE,
    };
    let wanted = Wanted {
        status,
        lines: 0,
        output: line,
        rest: Some((Some(0), Some(0), [0; 7], true)),
    };
    tries(rt, alloc, name, at, &trial, &wanted);
}

fn checks_all(rt: &impl Abort, alloc: Global, name: &str, rows: &[(Claim, &[u8])], status: Status) {
    for (at, (claim, line)) in rows.iter().enumerate() {
        let (input, line) = (cert_of(alloc, claim), in_full(alloc, line));
        checks_whole(
            rt,
            alloc,
            (name, at),
            input.whole(rt),
            status,
            line.whole(rt),
        );
    }
}

#[test]
fn certificates_are_shown(rt: HostRuntime) {
    checks_all(&rt, rt.alloc(), "shown", SHOWN, Status::Done);
}

#[test]
fn certificates_are_refused(rt: HostRuntime) {
    checks_all(&rt, rt.alloc(), "refuted", REFUTED, Status::Refuted);
}

/// The feed of a certificate's blocks.
fn feed_for(alloc: Global, claim: &Claim) -> Text {
    let (profile, blocks, _, _, _) = *claim;
    let mut messages = Text::new(alloc);
    for name in blocks.iter().skip(1) {
        messages.put(&[*name, b'\n']);
    }
    let version = if profile == 1 { FIRST } else { SECOND };
    feed_as(alloc, version, 0, messages.so_far(), END)
}

/// The words that ask for a certificate.
fn words_for(alloc: Global, claim: &Claim) -> Text {
    let (_, _, pair, _, _) = *claim;
    let mut words = Text::of(alloc, b"certify\n");
    for name in pair {
        put_name(&mut words, *name);
    }
    in_full(alloc, words.so_far())
}

fn put_name(out: &mut Text, name: u8) {
    out.put(&[name, b'\n']);
}

/// What is certified of a feed of these blocks is the certificate that is shown.
#[test]
fn what_is_shown_is_certified(rt: HostRuntime) {
    for (at, (claim, _)) in SHOWN.iter().enumerate() {
        let (words, feed) = (words_for(rt.alloc(), claim), feed_for(rt.alloc(), claim));
        let cert = cert_of(rt.alloc(), claim);
        let (words, input, output) = (words.so_far(), feed.so_far(), cert.so_far());
        ends_as(
            &rt,
            rt.alloc(),
            "certified",
            at,
            (words, input),
            Status::Done,
            (0, output),
        );
    }
}

/// The first certificate, which has 219 bytes.
fn first(alloc: Global) -> Text {
    let (claim, _) = &SHOWN[0];
    cert_of(alloc, claim)
}

/// It is cut before each of its bytes.
#[test]
fn cut_certificates(rt: HostRuntime) {
    let cert = first(rt.alloc());
    for length in 0..219u16 {
        let mut line = Text::of(rt.alloc(), b"fault truncated ");
        put_number(&mut line, length);
        line.put(b"\n");
        let front = cert.so_far().get(..usize::from(length)).unwrap_or(b"?");
        checks_whole(
            &rt,
            rt.alloc(),
            ("cut", usize::from(length)),
            front,
            Status::Truncated,
            line.so_far(),
        );
    }
}

/// A byte of it is changed: its place, its value, and the place of the field that breaks its rule then.
#[rattlefmt::skip]
const CHANGES: &[(usize, u8, u16)] = &[
    // the name
    (0, b'T', 0), (6, b'1', 0), (7, b'2', 0),
    // the profile
    (8, 0, 8), (8, 3, 8),
    // the number of blocks: none, and 515
    (9, 0, 9), (10, 2, 9),
    // the length of a block: 65,556; and too little or too much for its bytes
    (13, 1, 11), (11, 19, 15), (11, 21, 15),
    // a block: its first byte, a transaction more than it has, and a genesis block with a parent
    (15, 0, 15), (33, 1, 15), (32, 1, 15), (39, 2, 39), (95, 0, 95),
    // the sign
    (211, 3, 211),
    // the number of worlds: none, and 513
    (212, 0, 212), (213, 2, 212),
    // the votes
    (216, 3, 216), (217, 255, 217), (218, 3, 218),
];

fn put_changed(out: &mut Text, bytes: &[u8], place: usize, value: u8) {
    for (at, byte) in bytes.iter().enumerate() {
        out.put(&[if at == place { value } else { *byte }]);
    }
}

fn is_malformed_so(rt: &impl Abort, alloc: Global, input: &[u8], place: u16, at: usize) {
    let mut line = Text::of(alloc, b"fault malformed ");
    put_number(&mut line, place);
    line.put(b"\n");
    let words = b"check".as_slice();
    let wanted = (0, line.so_far());
    ends_as(
        rt,
        alloc,
        "changed",
        at,
        (words, input),
        Status::Malformed,
        wanted,
    );
}

#[test]
fn changed_certificates(rt: HostRuntime) {
    let cert = first(rt.alloc());
    for (at, (place, value, fault)) in CHANGES.iter().enumerate() {
        let mut input = Text::new(rt.alloc());
        put_changed(&mut input, cert.so_far(), *place, *value);
        is_malformed_so(&rt, rt.alloc(), input.so_far(), *fault, at);
    }
}

/// A byte follows, or a whole certificate.
#[test]
fn more_than_a_certificate(rt: HostRuntime) {
    let mut input = first(rt.alloc());
    input.put(b"\0");
    is_malformed_so(&rt, rt.alloc(), input.so_far(), 219, 0);
    let mut twice = first(rt.alloc());
    twice.put(first(rt.alloc()).so_far());
    is_malformed_so(&rt, rt.alloc(), twice.so_far(), 219, 1);
}

/// The last byte of the first certificate, how a check of it then ends, and its line.
#[rattlefmt::skip]
const LAST: &[(u8, Status, &[u8])] = &[
    (2, Status::Done, b"shown A B tie\n"),
    (0, Status::Refuted, b"fault refuted vote 0 0\n"),
    (3, Status::Malformed, b"fault malformed 218\n"),
];

/// In pieces, and with each call of the source and of the sink failing in turn.
#[test]
fn certificates_in_pieces(rt: HostRuntime) {
    let cert = first(rt.alloc());
    for (value, status, line) in LAST {
        let mut input = Text::new(rt.alloc());
        put_changed(&mut input, cert.so_far(), 218, *value);
        let line = in_full(rt.alloc(), line);
        let stream = Stream {
            name: "certificate",
            words: b"check",
            input: input.so_far(),
            reads: 220,
            status: *status,
            output: line.so_far(),
            growth: &[],
            disk: Held::Apart,
        };
        try_all(&rt, rt.alloc(), &stream);
    }
}
