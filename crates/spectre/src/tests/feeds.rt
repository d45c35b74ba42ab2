//! Feeds of real blocks with all that is written, and the smallest feed cut and changed. The ids are
//! SHA-256 by another program, and the answers were worked out by hand from the rules.

use crate::status::Status;
use crate::tests::feed_bytes::{END, FIRST, SECOND, feed_as, in_full};
use crate::tests::text::Text;
use crate::tests::{Rest, Trial, WIDE, Wanted, tries};
use std::alloc::Global;
use std::process::Abort;

/// How a run ends, and what its source and sink do then.
pub type Ending = (Status, Option<Rest>);

/// Done, and nothing is left to be read.
const DONE: Ending = (Status::Done, Some((Some(0), Some(0), [0; 7], true)));

/// The bytes came to their end too early.
pub const CUT: Ending = (Status::Truncated, Some((Some(0), Some(0), [0; 7], true)));

/// A letter is no kind of a frame. The four bytes behind it stay unread.
const KIND: Ending = (Status::Malformed, Some((Some(4), Some(0), [0; 7], true)));

/// What follows the end stays unread.
const BEHIND: Ending = (
    Status::Done,
    Some((Some(2), Some(0), *b"Zz\0\0\0\0\0", true)),
);

/// A feed: the bits of work that it asks for, its messages, a line for each, and what follows them;
/// and the answers, names standing for ids. What was answered before a fault stays.
struct Fed {
    name: &'static str,
    bits: u8,
    messages: &'static [u8],
    tail: &'static [u8],
    output: &'static [u8],
    ended: Ending,
}

#[rattlefmt::skip]
const FEEDS: &[Fed] = &[
    Fed { name: "nothing", bits: 0, messages: b"", tail: END, output: b"", ended: DONE },
    Fed { name: "genesis and itself", bits: 0, messages: b"GG\n", tail: END, output: b"vote G G same\n", ended: DONE },
    Fed { name: "genesis and a block on it", bits: 0, messages: b"A\nGA\n", tail: END, output: b"kept A present 1\nvote G A before\n", ended: DONE },
    Fed { name: "two blocks side by side", bits: 0, messages: b"A\nB\nAB\n", tail: END, output: b"kept A present 1\nkept B present 1\nvote A B tie\n", ended: DONE },
    Fed { name: "a block on one of the two", bits: 0, messages: b"A\nB\nAB\nC\nAB\nBA\n", tail: END, output: b"kept A present 1\nkept B present 1\nvote A B tie\nkept C present 1\nvote A B before\nvote B A after\n", ended: DONE },
    Fed { name: "two more blocks on the other", bits: 0, messages: b"A\nB\nC\nAB\nD\nE\nAB\n", tail: END, output: b"kept A present 1\nkept B present 1\nkept C present 1\nvote A B before\nkept D present 1\nkept E present 1\nvote A B after\n", ended: DONE },
    Fed { name: "an ancestor is before, and a block is the same as itself", bits: 0, messages: b"A\nF\nAF\nGA\nAA\n", tail: END, output: b"kept A present 1\nkept F present 1\nvote A F before\nvote G A before\nvote A A same\n", ended: DONE },
    Fed { name: "a block on both keeps their tie", bits: 0, messages: b"A\nB\nAB\nH\nAB\n", tail: END, output: b"kept A present 1\nkept B present 1\nvote A B tie\nkept H present 1\nvote A B tie\n", ended: DONE },
    Fed { name: "three blocks, each before the next", bits: 0, messages: b"A\nB\nI\nJ\nK\nL\nM\nO\nP\nAB\nBI\nIA\n", tail: END, output: b"kept A present 1\nkept B present 1\nkept I present 1\nkept J present 1\nkept K present 1\nkept L present 1\nkept M present 1\nkept O present 1\nkept P present 1\nvote A B before\nvote B I before\nvote I A before\n", ended: DONE },
    Fed { name: "a child before its parent, and the parent twice", bits: 0, messages: b"F\nGF\nA\nA\nF\nFA\n", tail: END, output: b"kept F waiting\nvote G F absent\nkept A present 2\nknown A\nknown F\nvote F A after\n", ended: DONE },
    Fed { name: "a parent that never comes", bits: 0, messages: b"W\nW\nWG\nNN\n", tail: END, output: b"kept W waiting\nknown W\nvote W G absent\nvote N N absent\n", ended: DONE },
    Fed { name: "a byte behind the block, and the block itself", bits: 0, messages: b"W+\nW\nA+\nA\n", tail: END, output: b"refused trailing\nkept W waiting\nrefused trailing\nkept A present 1\n", ended: DONE },
    Fed { name: "a frame one byte longer than a block can be", bits: 0, messages: b"*\nA\n", tail: END, output: b"refused too-long\nkept A present 1\n", ended: DONE },
    Fed { name: "genesis as another block", bits: 0, messages: b"G\nGA\n", tail: END, output: b"refused parent-count\nvote G A absent\n", ended: DONE },
    Fed { name: "no work", bits: 64, messages: b"W\nA\nGA\n", tail: END, output: b"refused work\nrefused work\nvote G A absent\n", ended: DONE },
    Fed { name: "the spelling is judged before the work", bits: 64, messages: b"W+\nG\n*\n", tail: END, output: b"refused trailing\nrefused parent-count\nrefused too-long\n", ended: DONE },
    Fed { name: "cut in its end", bits: 0, messages: b"A\nGA\n", tail: b"E\0\0\0", output: b"kept A present 1\nvote G A before\nfault truncated 164\n", ended: CUT },
    Fed { name: "a kind that there is not", bits: 0, messages: b"A\n", tail: b"Q\0\0\0\0", output: b"kept A present 1\nfault malformed 91\n", ended: KIND },
    Fed { name: "bytes behind the end", bits: 0, messages: b"A\n", tail: b"E\0\0\0\0Zz", output: b"kept A present 1\n", ended: BEHIND },
];

/// Replays a feed from a source and into a sink that are wide.
pub fn replays(
    rt: &impl Abort,
    alloc: Global,
    (name, at): (&str, usize),
    input: &[u8],
    (status, rest): Ending,
    output: &[u8],
) {
    let trial = Trial {
        words: b"replay",
        input,
        ends: WIDE,
    };
    let wanted = Wanted {
        status,
        lines: 0,
        output,
        rest,
    };
    tries(rt, alloc, name, at, &trial, &wanted);
}

/// Feeds of profile 2.
#[rattlefmt::skip]
const OF_SECOND: &[Fed] = &[
    Fed { name: "a report alone", bits: 0, messages: b"", tail: b"R\0\0\0\0E\0\0\0\0", output: b"blocks 1 waiting 0\naccepted 0\nbalances 0\n", ended: DONE },
    Fed { name: "a block on both is for the lower salt", bits: 0, messages: b"A\nB\nAB\nH\nAB\n", tail: END, output: b"kept A present 1\nkept B present 1\nvote A B tie\nkept H present 1\nvote A B before\n", ended: DONE },
];

fn are_answered(rt: &impl Abort, alloc: Global, version: &[u8], feeds: &[Fed]) {
    for (at, fed) in feeds.iter().enumerate() {
        let input = feed_as(alloc, version, fed.bits, fed.messages, fed.tail);
        let output = in_full(alloc, fed.output);
        let (input, output) = (input.whole(rt), output.whole(rt));
        replays(rt, alloc, (fed.name, at), input, fed.ended, output);
    }
}

#[test]
fn answers(rt: HostRuntime) {
    are_answered(&rt, rt.alloc(), FIRST, FEEDS);
    are_answered(&rt, rt.alloc(), SECOND, OF_SECOND);
}

/// The smallest feed: the head with the smallest genesis block, and the end.
pub const SMALLEST: &[u8] = &[
    0x53, 0x50, 0x43, 0x54, 0x52, 0x46, 0x30, 0x31, 0, 0x42, 0x14, 0, 0, 0, 1, 0, 0, 0, 0, 0, 0, 0,
    0, 0, 0, 0, 0, 0, 0, 0, 0, 0, 0, 0, 0x45, 0, 0, 0, 0,
];

/// A place of the smallest feed, a byte that stands there instead, how that ends, and what is
/// written. In the first row nothing is changed.
const CHANGED: &[(usize, u8, Ending, &[u8])] = &[
    (0, b'S', DONE, b""),
    (0, b's', (Status::Malformed, None), b"fault malformed 0\n"),
    (7, b'2', DONE, b""),
    (7, b'3', (Status::Malformed, None), b"fault malformed 0\n"),
    (8, 65, (Status::Malformed, None), b"fault malformed 8\n"),
    (9, b'E', (Status::Malformed, None), b"fault malformed 9\n"),
    (10, 19, (Status::Malformed, None), b"fault malformed 14\n"),
    (12, 2, (Status::Malformed, None), b"fault malformed 10\n"),
    (14, 0, (Status::Malformed, None), b"fault malformed 14\n"),
    (34, b'Z', (Status::Malformed, None), b"fault malformed 34\n"),
    (35, 1, (Status::Malformed, None), b"fault malformed 35\n"),
];

/// The smallest feed with another byte at a place.
fn changed(alloc: Global, place: usize, byte: u8) -> Text {
    let mut feed = Text::of(alloc, SMALLEST.get(..place).unwrap_or(b""));
    feed.put(&[byte]);
    feed.put(SMALLEST.get(place.saturating_add(1)..).unwrap_or(b""));
    feed
}

#[test]
fn changed_feeds(rt: HostRuntime) {
    for (place, byte, ended, output) in CHANGED {
        let feed = changed(rt.alloc(), *place, *byte);
        let input = feed.whole(&rt);
        replays(&rt, rt.alloc(), ("changed", *place), input, *ended, output);
    }
}
