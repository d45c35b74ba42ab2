//! A feed in two runs of `node`, cut behind each of its frames: both together write what `replay` writes of
//! it whole. And `show` writes then what `replay` reports at its end.

use crate::status::Status;
use crate::tests::alike::{EXAMPLES, written};
use crate::tests::behind;
use crate::tests::crashes::{NODE, SHOW};
use crate::tests::disks::runs_on;
use crate::tests::feed_bytes::{END, feed_of};
use crate::tests::text::{Text, joined};
use crate::tests::worked::{DECIDED, SPENT_TWICE};
use std::alloc::Global;
use std::process::Abort;

/// Messages: blocks that wait, that come twice and that are refused.
const MESSAGES: &[&[u8]] = &[
    b"F\nGF\nA\nA\nF\nFA\n",
    b"W\nW+\nW\nWG\nA+\nA\n",
    b"A\nB\nI\nJ\nK\nL\nM\nO\nP\nAB\nBI\nIA\n",
    b"P\nO\nM\nL\nK\nH\nJ\nI\nB\nA\nAB\nBI\nIA\n",
];

/// Where the frame ends that begins at this place.
fn end_of(feed: &[u8], at: usize) -> usize {
    let length = match feed.get(at.saturating_add(1)..at.saturating_add(5)) {
        Some([a, b, c, d]) => u32::from_le_bytes([*a, *b, *c, *d]),
        _ => 0,
    };
    at.saturating_add(5).saturating_add(length as usize)
}

/// What one run over these bytes writes, and what it leaves.
fn half(rt: &impl Abort, alloc: Global, feed: &[u8], bytes: &[u8]) -> (Text, Vec<u8>) {
    let (ended, left) = runs_on(rt, alloc, NODE, feed, bytes);
    assert!(rt; ended.status == Status::Done, "half a feed has a fault");
    (ended.output, left)
}

/// What two runs write of a feed that is cut at this place, where its head ends at that one, and what is
/// left then.
fn halves(rt: &impl Abort, alloc: Global, feed: &[u8], head: usize, at: usize) -> (Text, Vec<u8>) {
    let first = joined(alloc, feed.get(..at).unwrap_or(b""), END);
    let second = joined(
        alloc,
        feed.get(..head).unwrap_or(b""),
        feed.get(at..).unwrap_or(b""),
    );
    let (one, left) = half(rt, alloc, first.whole(rt), b"");
    let (other, left) = half(rt, alloc, second.whole(rt), left.as_slice());
    (joined(alloc, one.whole(rt), other.whole(rt)), left)
}

/// What is written of a feed that asks for a report at its end, behind the lines of the feed.
fn reported(rt: &impl Abort, alloc: Global, feed: &[u8]) -> Text {
    let end = feed.len().saturating_sub(END.len());
    let mut asked = joined(alloc, feed.get(..end).unwrap_or(b""), b"R\0\0\0\0");
    asked.put(END);
    let whole = written(rt, alloc, b"replay", feed);
    let report = written(rt, alloc, b"replay", asked.whole(rt));
    assert!(rt;
        report.whole(rt).starts_with(whole.whole(rt)),
        "other lines"
    );
    report
}

/// What is shown, of which the first line isn't reported.
fn shown(rt: &impl Abort, alloc: Global, bytes: &[u8]) -> Text {
    let (ended, _) = runs_on(rt, alloc, SHOW, b"", bytes);
    assert!(rt; ended.status == Status::Done, "nothing is shown");
    ended.output
}

/// Whether a feed that is cut at this place, where its head ends at that one, gives all lines, and then
/// its report is shown: together they are what is written where it is asked for.
fn is_same_cut(
    rt: &impl Abort,
    alloc: Global,
    feed: &[u8],
    (head, at): (usize, usize),
    report: &[u8],
) -> bool {
    let (output, left) = halves(rt, alloc, feed, head, at);
    let shown = shown(rt, alloc, left.as_slice());
    let both = joined(alloc, output.whole(rt), behind(shown.whole(rt), 1));
    both.whole(rt) == report
}

/// Cuts a feed behind its head and behind the frame of each message.
fn is_same_in_halves(rt: &impl Abort, alloc: Global, name: usize, feed: &[u8]) {
    let report = reported(rt, alloc, feed);
    let head = end_of(feed, 9);
    let mut at = head;
    for _ in 0..feed.len() {
        if feed.len() <= at {
            return;
        }
        let is_same = is_same_cut(rt, alloc, feed, (head, at), report.whole(rt));
        assert!(rt; is_same, "{name}, cut at {at}");
        at = end_of(feed, at);
    }
}

#[test]
fn feeds(rt: HostRuntime) {
    for (name, messages) in MESSAGES.iter().enumerate() {
        let feed = feed_of(rt.alloc(), 0, messages, END);
        is_same_in_halves(&rt, rt.alloc(), name, feed.whole(&rt));
    }
}

/// Scenarios whose feeds are cut.
const SCENARIOS: &[&[u8]] = &[DECIDED, SPENT_TWICE];

fn are_same_of(rt: &impl Abort, alloc: Global, scenarios: &[&[u8]]) {
    for (name, scenario) in scenarios.iter().enumerate() {
        let feed = written(rt, alloc, b"build", scenario);
        is_same_in_halves(rt, alloc, name, feed.whole(rt));
    }
}

#[test]
fn scenarios(rt: HostRuntime) {
    are_same_of(&rt, rt.alloc(), SCENARIOS);
    are_same_of(&rt, rt.alloc(), EXAMPLES);
}
