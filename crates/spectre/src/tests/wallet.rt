//! Spends out of feeds, and feeds that are watched. The transactions and the ids are by another program,
//! and the answers were worked out by hand from the rules.

use crate::status::Status;
use crate::tests::feed_bytes::{END, feed_of, in_full};
use crate::tests::text::{Names, Text, in_digits, joined, put_bytes};
use crate::tests::{Trial, WIDE, Wanted, ends_as, ran, tries};
use std::alloc::Global;
use std::process::Abort;

/// The feed that is built of a scenario.
pub fn built(rt: &impl Abort, alloc: Global, scenario: &[u8]) -> Text {
    let trial = Trial {
        words: b"build",
        input: scenario,
        ends: WIDE,
    };
    ran(rt, alloc, &trial).output
}

/// The words, how the run ends, the digits of a transaction that is written, and a line.
type Spend = (&'static [u8], Status, &'static [u8], &'static [u8]);

/// Two grants, of which none is spent.
const TWO_GRANTS: &[u8] = b"grant g 100 to alice\ngrant h 50 to alice\nblock A on G\n";

/// The one output of 100, the two of 150, and the rest to the lock of the first word.
#[rattlefmt::skip]
const SPENDS: &[Spend] = &[
    (b"spend\n100\nto\nbob\nfrom\nalice", Status::Done, b"0163bcdcdedc35ed337d85e6d1798a6547ceabc458596416a7e3dd50b1999353ef0005616c69636501640000000000000081b637d8fcd2c6da6359e6963113a1170de795e4b725b84d1e0b4cfd9ec58ce9", b""),
    (b"spend\n120\nto\nbob\nfrom\nalice", Status::Done, b"024bc1d85878332d9bd24b9293a3b1d0c141e410900e0ec3ee312f53fcd0de29a50005616c69636563bcdcdedc35ed337d85e6d1798a6547ceabc458596416a7e3dd50b1999353ef0005616c69636502780000000000000081b637d8fcd2c6da6359e6963113a1170de795e4b725b84d1e0b4cfd9ec58ce91e000000000000002bd806c97f0e00af1a1fc3328fa763a9269723c8db8fac4f93af71db186d6e90", b""),
    (b"spend\n150\nto\nbob\nfrom\ncarol\nalice", Status::Done, b"024bc1d85878332d9bd24b9293a3b1d0c141e410900e0ec3ee312f53fcd0de29a50005616c69636563bcdcdedc35ed337d85e6d1798a6547ceabc458596416a7e3dd50b1999353ef0005616c69636501960000000000000081b637d8fcd2c6da6359e6963113a1170de795e4b725b84d1e0b4cfd9ec58ce9", b""),
    (b"spend\n151\nto\nbob\nfrom\nalice", Status::Poor, b"", b"fault poor 150\n"),
    (b"spend\n1\nto\nbob\nfrom\ncarol", Status::Poor, b"", b"fault poor 0\n"),
];

/// What is chosen of these comes to more than a transaction may pay.
const LARGE_GRANTS: &[u8] =
    b"grant g 9223372036854775806 to alice\ngrant h 9223372036854775805 to alice\n";

fn spends_so(rt: &impl Abort, alloc: Global, at: usize, input: &[u8], spend: &Spend) {
    let (words, status, digits, line) = spend;
    let mut output = Text::new(alloc);
    put_bytes(&mut output, digits);
    output.put(line);
    let wanted = (0, output.whole(rt));
    ends_as(rt, alloc, "spend", at, (words, input), *status, wanted);
}

#[test]
fn spends(rt: HostRuntime) {
    let feed = built(&rt, rt.alloc(), TWO_GRANTS);
    for (at, spend) in SPENDS.iter().enumerate() {
        spends_so(&rt, rt.alloc(), at, feed.whole(&rt), spend);
    }
}

#[test]
fn large_spend(rt: HostRuntime) {
    let feed = built(&rt, rt.alloc(), LARGE_GRANTS);
    let words = b"spend\n9223372036854775807\nto\nbob\nfrom\nalice".as_slice();
    let line = b"fault large 18446744073709551611\n".as_slice();
    let input = feed.whole(&rt);
    ends_as(
        &rt,
        rt.alloc(),
        "large",
        0,
        (words, input),
        Status::Large,
        (0, line),
    );
}

/// What follows the smallest feed's head, how a spend of it ends, and the line that stands alone.
const FAULTS: &[(&[u8], Status, &[u8])] = &[
    (b"", Status::Truncated, b"fault truncated 34\n"),
    (b"E\0\0\0", Status::Truncated, b"fault truncated 38\n"),
    (b"Q", Status::Malformed, b"fault malformed 34\n"),
    (END, Status::Poor, b"fault poor 0\n"),
    (b"E\0\0\0\0Zz", Status::Poor, b"fault poor 0\n"),
];

#[test]
fn spends_of_faulty_feeds(rt: HostRuntime) {
    for (at, (tail, status, line)) in FAULTS.iter().enumerate() {
        let feed = feed_of(rt.alloc(), 0, b"", tail);
        let words = b"spend\n1\nto\nb\nfrom\na".as_slice();
        let input = feed.whole(&rt);
        ends_as(
            &rt,
            rt.alloc(),
            "faults",
            at,
            (words, input),
            *status,
            (0, line),
        );
    }
}

/// A grant that is spent twice side by side, and a block on the first payment: these two, the blocks
/// that carry them, that on top, and the lock of the first owner.
#[rattlefmt::skip]
const PAID: Names = &[
    (b'P', "cce6abdc809e3db4e8004c673357386b92276f31e7d07196fc7b4ddce450883c"),
    (b'Q', "54a17b8185c1e2ba6f6bdb86837ea28181189529825d8396af3ef47a21d5252c"),
    (b'A', "1a619024f6d28af1e80003380e7e03ec1101237de63e140e201b7894193e6519"),
    (b'B', "a71021b2dd66868461d2ee51490f5820c90664a717faa1301ae516eacfa3ed17"),
    (b'C', "9b94ddb3599783c0f2ff38119e7ed21ef03da3b7d45629db1b0d09b0a59d4b89"),
    (b'L', "2bd806c97f0e00af1a1fc3328fa763a9269723c8db8fac4f93af71db186d6e90"),
];

const PAYMENTS: &[u8] =
    b"grant g 100 to alice\ntx p spends g.0 pays 100 to bob\ntx q spends g.0 pays 100 to carol\nblock A on G carries p\nblock B on G carries q\nblock C on A\n";

/// What is watched, and what is written, names standing for ids.
#[rattlefmt::skip]
const WATCHES: &[(&[u8], &[u8])] = &[
    (b"watch\ntx:P\ntx:Q", b"kept A present 1\ntx P from absent to accepted\nkept B present 1\ntx P from accepted to rejected\ntx Q from absent to rejected\nkept C present 1\ntx P from rejected to accepted\nheld tx P since 3 changes 3\nheld tx Q since 2 changes 1\n"),
    (b"watch\nlock:L\npair:B,A\npair:A,B", b"kept A present 1\nbalance L from 100 to 0\nkept B present 1\nbalance L from 0 to 100\nvote B A from absent to tie\nvote A B from absent to tie\nkept C present 1\nbalance L from 100 to 0\nvote B A from tie to after\nvote A B from tie to before\nheld balance L since 3 changes 3\nheld vote B A since 3 changes 2\nheld vote A B since 3 changes 2\n"),
    (b"watch\npair:C,C", b"kept A present 1\nkept B present 1\nkept C present 1\nvote C C from absent to same\nheld vote C C since 3 changes 1\n"),
];

#[test]
fn watches(rt: HostRuntime) {
    let feed = built(&rt, rt.alloc(), PAYMENTS);
    for (at, (words, output)) in WATCHES.iter().enumerate() {
        let words = words_of_ids(rt.alloc(), words);
        let output = in_digits(rt.alloc(), PAID, output);
        let (words, input) = (words.whole(&rt), feed.whole(&rt));
        ends_as(
            &rt,
            rt.alloc(),
            "watch",
            at,
            (words, input),
            Status::Done,
            (0, output.whole(&rt)),
        );
    }
}

/// Words with ids in place of names.
fn words_of_ids(alloc: Global, words: &[u8]) -> Text {
    in_digits(alloc, PAID, words)
}

/// The watched feed cut to so many bytes, how many of its lines were written then, and the last one. It
/// is cut behind its head, behind each frame, and within two of them.
const CUTS: &[(usize, usize, &[u8])] = &[
    (76, 0, b"fault truncated 76\n"),
    (80, 0, b"fault truncated 80\n"),
    (214, 2, b"fault truncated 214\n"),
    (352, 5, b"fault truncated 352\n"),
    (408, 5, b"fault truncated 408\n"),
    (409, 7, b"fault truncated 409\n"),
    (413, 7, b"fault truncated 413\n"),
];

/// The first lines of a text.
fn lines_of(text: &[u8], count: usize) -> &[u8] {
    let mut ended = 0usize;
    for (at, byte) in text.iter().enumerate() {
        if ended == count {
            return text.get(..at).unwrap_or(b"");
        }
        if *byte == b'\n' {
            ended = ended.saturating_add(1);
        }
    }
    text
}

fn is_cut_so(
    rt: &impl Abort,
    alloc: Global,
    (words, feed, whole): (&[u8], &[u8], &[u8]),
    (length, lines, line): (usize, usize, &[u8]),
) {
    let output = joined(alloc, lines_of(whole, lines), line);
    let trial = Trial {
        words,
        input: feed.get(..length).unwrap_or(b""),
        ends: WIDE,
    };
    let wanted = Wanted {
        status: Status::Truncated,
        lines: 0,
        output: output.whole(rt),
        rest: Some((Some(0), Some(0), [0; 7], true)),
    };
    tries(rt, alloc, "cut", length, &trial, &wanted);
}

#[test]
fn watches_of_cut_feeds(rt: HostRuntime) {
    let feed = built(&rt, rt.alloc(), PAYMENTS);
    let words = words_of_ids(rt.alloc(), b"watch\ntx:P\ntx:Q");
    let (_, lines) = WATCHES[0];
    let whole = in_digits(rt.alloc(), PAID, lines);
    let (words, input, output) = (words.whole(&rt), feed.whole(&rt), whole.whole(&rt));
    for cut in CUTS {
        is_cut_so(&rt, rt.alloc(), (words, input, output), *cut);
    }
}

/// A pair of the blocks of the smallest feeds is watched: what follows the head, and what is written.
#[rattlefmt::skip]
const PAIRS: &[(&[u8], &[u8], &[u8])] = &[
    (b"", END, b"held vote A B since 0 changes 0\n"),
    (b"A\nB\nC\n", END, b"kept A present 1\nkept B present 1\nvote A B from absent to tie\nkept C present 1\nvote A B from tie to before\nheld vote A B since 3 changes 2\n"),
    (b"A\nB\n", END, b"kept A present 1\nkept B present 1\nvote A B from absent to tie\nheld vote A B since 2 changes 1\n"),
    (b"A\nA\nW+\nAB\nB\n", END, b"kept A present 1\nknown A\nrefused trailing\nvote A B absent\nkept B present 1\nvote A B from absent to tie\nheld vote A B since 4 changes 1\n"),
];

#[test]
fn pairs_are_watched(rt: HostRuntime) {
    let words = in_full(rt.alloc(), b"watch\npair:A,B");
    for (at, (messages, tail, output)) in PAIRS.iter().enumerate() {
        let feed = feed_of(rt.alloc(), 0, messages, tail);
        let output = in_full(rt.alloc(), output);
        let (words, input) = (words.whole(&rt), feed.whole(&rt));
        ends_as(
            &rt,
            rt.alloc(),
            "pairs",
            at,
            (words, input),
            Status::Done,
            (0, output.whole(&rt)),
        );
    }
}
