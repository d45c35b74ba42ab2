//! Runs that write more than a page, with each write failing in turn.

use crate::status::Status;
use crate::tests::feed_bytes::{END, feed_of};
use crate::tests::text::Text;
use crate::tests::{Ends, Trial, WIDE, ran};
use std::alloc::Global;
use std::process::Abort;

/// The words of a run, its input, and all that is written.
#[derive(Clone, Copy)]
pub struct Paged<'a> {
    pub words: &'a [u8],
    pub input: &'a [u8],
    pub output: &'a [u8],
}

/// Whether a run wrote all, or a front up to a write that failed.
fn is_front(status: Status, output: &[u8], whole: &[u8]) -> bool {
    match status {
        Status::Done => output == whole,
        Status::WriteFault => whole.starts_with(output),
        _ => false,
    }
}

/// Runs with a sink of which this write fails: whether it was made, and how much was written.
fn fails_at(rt: &impl Abort, alloc: Global, paged: &Paged, taken: u16, call: u32) -> (bool, usize) {
    let trial = Trial {
        words: paged.words,
        input: paged.input,
        ends: Ends {
            taken,
            bad_write: Some(call),
            ..WIDE
        },
    };
    let ended = ran(rt, alloc, &trial);
    let output = ended.output.whole(rt);
    let is_so = is_front(ended.status, output, paged.output);
    assert!(rt; is_so, "{:?} at write {call}", ended.status);
    (ended.status != Status::Done, output.len())
}

/// Each write of at most so many bytes fails in turn, and each time more is written before it than
/// the time before, nothing before the first; until so many were made, and none is left to fail. 0
/// where they have no end.
fn fails_in_turn(rt: &impl Abort, alloc: Global, paged: &Paged, taken: u16) -> u32 {
    let mut least = 0;
    for call in 0..200u32 {
        let (is_made, length) = fails_at(rt, alloc, paged, taken, call);
        if !is_made {
            return call;
        }
        assert!(rt;
            least <= length && (0 < call || length == 0),
            "{length} bytes before write {call} of {taken} bytes"
        );
        least = length.saturating_add(1);
    }
    0
}

/// Each write fails in turn, of at most so many bytes, of which there are at least so many.
pub fn writes_fail(rt: &impl Abort, alloc: Global, paged: &Paged, writes: &[(u16, u32)]) {
    for (taken, least) in writes {
        let count = fails_in_turn(rt, alloc, paged, *taken);
        assert!(rt; *least <= count, "{count} writes of {taken} bytes");
    }
}

/// A text, and then a line a hundred times.
fn repeated(alloc: Global, text: &[u8], line: &[u8]) -> Text {
    let mut whole = Text::of(alloc, text);
    for _ in 0..100u8 {
        whole.put(line);
    }
    whole
}

/// The most bytes that a write takes, and how many there are at least of a feed of 7,053 bytes, of
/// which 4,096 at most are written together.
const WRITES: &[(u16, u32)] = &[(65535, 2), (1000, 8), (61, 116)];

#[test]
fn long_feed(rt: HostRuntime) {
    let scenario = repeated(rt.alloc(), b"block A on G\nblock B on G\n", b"vote A B\n");
    let messages = repeated(rt.alloc(), b"A\nB\n", b"AB\n");
    let feed = feed_of(rt.alloc(), 0, messages.whole(&rt), END);
    let paged = Paged {
        words: b"build",
        input: scenario.whole(&rt),
        output: feed.whole(&rt),
    };
    writes_fail(&rt, rt.alloc(), &paged, WRITES);
}
