//! Each command in pieces, and with each call of the source and of the sink failing in turn.

use crate::status::Status;
use crate::tests::crashes::{FRESH, NODE, SHOW};
use crate::tests::disks::{EMPTY, Held, TWO};
use crate::tests::feed_bytes::{END, feed_of, in_full};
use crate::tests::reports::{self, BOTH};
use crate::tests::streams::{Stream, try_all};
use crate::tests::worked::TIE;
use crate::tests::{SAMPLE, SAMPLE_ANSWERS};

/// Scenarios, of which one is read to its end, which a read more tells, before anything is written; and
/// what is made of numbers or shown.
const STREAMS: &[Stream] = &[
    Stream {
        name: "sample",
        words: b"play",
        input: SAMPLE,
        reads: 49,
        status: Status::Done,
        output: SAMPLE_ANSWERS,
        growth: &[],
        disk: Held::Apart,
    },
    Stream {
        name: "unknown",
        words: b"play",
        input: b"block A on G\nvote A B\nvote A A\n",
        reads: 32,
        status: Status::Malformed,
        output: b"kept A present 1\nfault line 2 unknown\n",
        growth: &[],
        disk: Held::Apart,
    },
    Stream {
        name: "nothing",
        words: b"play",
        input: b"",
        reads: 1,
        status: Status::Done,
        output: b"",
        growth: &[],
        disk: Held::Apart,
    },
    Stream {
        name: "returns, blanks and a comment, and no line end at the end",
        words: b"play",
        input: b"#a\r\n\r\nblock A on G\r\n\tvote A  G\r",
        reads: 32,
        status: Status::Done,
        output: b"kept A present 1\nvote A G after\n",
        growth: &[],
        disk: Held::Apart,
    },
    // Runs that read nothing, so that none is lost where each read fails; and a fault alone.
    Stream {
        name: "two blocks that are made",
        words: b"make\n2\n1\n2\n",
        input: SAMPLE,
        reads: 0,
        status: Status::Done,
        output: b"block b1 on G\nblock b2 on G b1\n",
        growth: &[],
        disk: Held::Apart,
    },
    Stream {
        name: "nothing that is made",
        words: b"make\n0\n0\n1\n",
        input: SAMPLE,
        reads: 0,
        status: Status::Done,
        output: b"",
        growth: &[],
        disk: Held::Apart,
    },
    Stream {
        name: "a summary",
        words: b"drill\n3\n0\n1\n",
        input: SAMPLE,
        reads: 0,
        status: Status::Done,
        output: b"blocks 4 waiting 0\npairs 6 before 6 after 0 tie 0\naccepted 0\nbalances 0\n",
        growth: &[],
        disk: Held::Apart,
    },
    Stream {
        name: "a fault alone",
        words: b"build",
        input: b"block A on G\nvote A B\n",
        reads: 23,
        status: Status::Malformed,
        output: b"fault line 2 unknown\n",
        growth: &[],
        disk: Held::Apart,
    },
    Stream {
        name: "nodes",
        words: b"gossip",
        input: b"make A on G\nnodes 2\ngive 0 A\ntell 0 1\ndeliver 0\ndeliver 3\n",
        reads: 59,
        status: Status::Malformed,
        output: b"at 0 kept A present 1\nsent 0 have 1\nsent 1 want 1\nfault line 6 packet\n",
        growth: &[],
        disk: Held::Apart,
    },
    Stream {
        name: "a report of a node",
        words: b"gossip",
        input: b"nodes 1\nreport 0\ntell 0 0\ndeliver 0",
        reads: 36,
        status: Status::Done,
        output: b"at 0\nblocks 1 waiting 0\naccepted 0\nbalances 0\nsent 0 have 0\nidle\n",
        growth: &[],
        disk: Held::Apart,
    },
    // What a journal holds.
    Stream {
        name: "two blocks that are shown",
        words: SHOW,
        input: b"SPCTRF01",
        reads: 0,
        status: Status::Done,
        output: b"recovered 2\nblocks 3 waiting 0\naccepted 0\nbalances 0\n",
        growth: &[],
        disk: TWO,
    },
    Stream {
        name: "damage that is shown",
        words: SHOW,
        input: b"SPCTRF01",
        reads: 0,
        status: Status::Damaged,
        output: b"fault damaged 91\n",
        growth: &[],
        disk: Held::Journal(0, b"A", b""),
    },
];

/// A feed without work for `replay` or for a node, and what a run on it ends as.
struct Flow {
    name: &'static str,
    words: &'static [u8],
    disk: Held,
    messages: &'static [u8],
    /// What follows the messages.
    tail: &'static [u8],
    reads: u32,
    status: Status,
    /// Names stand for ids.
    output: &'static [u8],
    growth: &'static [(u32, usize)],
}

/// The head takes 34 bytes, a block on one parent 57 and a question 69. A line `kept` takes 80.
/// Behind the frame `E` nothing is read, nor behind the kind of a frame that there is not.
const FLOWS: &[Flow] = &[
    Flow {
        name: "two blocks and a question",
        words: b"replay",
        disk: Held::Apart,
        messages: b"A\nB\nAB\n",
        tail: END,
        reads: 222,
        status: Status::Done,
        output: b"kept A present 1\nkept B present 1\nvote A B tie\n",
        growth: &[(91, 80), (148, 160), (217, 299)],
    },
    Flow {
        name: "a block that waits, and one with a byte behind it",
        words: b"replay",
        disk: Held::Apart,
        messages: b"W\nW+\n",
        tail: END,
        reads: 154,
        status: Status::Done,
        output: b"kept W waiting\nrefused trailing\n",
        growth: &[(91, 78), (149, 95)],
    },
    Flow {
        name: "no end",
        words: b"replay",
        disk: Held::Apart,
        messages: b"A\n",
        tail: b"",
        reads: 92,
        status: Status::Truncated,
        output: b"kept A present 1\nfault truncated 91\n",
        growth: &[(91, 80)],
    },
    Flow {
        name: "a kind that there is not",
        words: b"replay",
        disk: Held::Apart,
        messages: b"A\n",
        tail: b"Q\0\0\0\0",
        reads: 92,
        status: Status::Malformed,
        output: b"kept A present 1\nfault malformed 91\n",
        growth: &[(91, 80)],
    },
    Flow {
        name: "bytes behind the end",
        words: b"replay",
        disk: Held::Apart,
        messages: b"A\n",
        tail: b"E\0\0\0\0Zz",
        reads: 96,
        status: Status::Done,
        output: b"kept A present 1\n",
        growth: &[(91, 80)],
    },
    Flow {
        name: "the head alone",
        words: b"replay",
        disk: Held::Apart,
        messages: b"",
        tail: END,
        reads: 39,
        status: Status::Done,
        output: b"",
        growth: &[],
    },
    // The smallest report, which is written once its question is read.
    Flow {
        name: "the smallest feed with a report",
        words: b"replay",
        disk: Held::Apart,
        messages: b"",
        tail: b"R\0\0\0\0E\0\0\0\0",
        reads: 44,
        status: Status::Done,
        output: reports::EMPTY,
        growth: &[(39, 41)],
    },
    Flow {
        name: "a block, the one pair and a report",
        words: b"replay",
        disk: Held::Apart,
        messages: b"A\n",
        tail: BOTH,
        reads: 106,
        status: Status::Done,
        output: b"kept A present 1\npairs 1\nvote G A before\n\
            blocks 2 waiting 0\naccepted 0\nbalances 0\n",
        growth: &[(91, 80), (96, 230), (101, 271)],
    },
    // A node over a disk. A line `known` takes 71.
    Flow {
        name: "a block for a node",
        disk: EMPTY,
        words: NODE,
        messages: b"A\n",
        tail: END,
        reads: 96,
        status: Status::Done,
        output: b"kept A present 1\n",
        growth: &[(91, 80)],
    },
    Flow {
        name: "a known one and a new one",
        disk: TWO,
        words: NODE,
        messages: b"A\nC\n",
        tail: END,
        reads: 153,
        status: Status::Done,
        output: b"known A\nkept C present 1\n",
        growth: &[(91, 71), (148, 151)],
    },
    Flow {
        name: "a new journal over other bytes",
        disk: Held::Bytes(b"\xa5# notes\n"),
        words: FRESH,
        messages: b"A\n",
        tail: END,
        reads: 96,
        status: Status::Done,
        output: b"kept A present 1\n",
        growth: &[(91, 80)],
    },
];

fn stream_of<'a>(flow: &Flow, input: &'a [u8], output: &'a [u8]) -> Stream<'a> {
    Stream {
        name: flow.name,
        words: flow.words,
        input,
        reads: flow.reads,
        status: flow.status,
        output,
        growth: flow.growth,
        disk: flow.disk,
    }
}

#[test]
fn streams(rt: HostRuntime) {
    for stream in STREAMS {
        try_all(&rt, rt.alloc(), stream);
    }
}

/// A scenario is read to its end before the first byte of its feed is written.
#[test]
fn built(rt: HostRuntime) {
    let output = feed_of(rt.alloc(), 0, b"A\nB\nAB\n", END);
    let stream = Stream {
        name: "the feed of two blocks and a question",
        words: b"build",
        input: TIE,
        reads: 36,
        status: Status::Done,
        output: output.whole(&rt),
        growth: &[],
        disk: Held::Apart,
    };
    try_all(&rt, rt.alloc(), &stream);
}

#[test]
fn feeds(rt: HostRuntime) {
    for flow in FLOWS {
        let input = feed_of(rt.alloc(), 0, flow.messages, flow.tail);
        let output = in_full(rt.alloc(), flow.output);
        let stream = stream_of(flow, input.whole(&rt), output.whole(&rt));
        try_all(&rt, rt.alloc(), &stream);
    }
}
