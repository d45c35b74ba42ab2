//! The feeds of scenarios: byte for byte those that were written down by hand from the formats, and
//! what is answered to them. The ids are SHA-256 by another program.

use crate::status::Status;
use crate::tests::feed_bytes::{END, feed_of, in_full};
use crate::tests::worked::{DECIDED, TIE};
use crate::tests::{Case, ends_as};

/// Scenarios at fault: of those the line of the fault is written, and nothing else.
pub const FAULTY: &[Case] = &[
    (b"vote A B\n", b"fault line 1 unknown\n"),
    (
        b"block A on G\nvote G A\n\nblok B on A\nvote G A\n",
        b"fault line 4 command\n",
    ),
    (
        b"grant g 9 to a\nbalance a\ngrant h 9 to a\n",
        b"fault line 3 late\n",
    ),
    (b"#\r\nsend\r", b"fault line 2 form\n"),
];

/// A scenario of blocks and questions on them, the messages of its feed, what follows these, and the
/// answers. Names stand for ids, and lists go by them.
struct Asked {
    scenario: &'static [u8],
    messages: &'static [u8],
    tail: &'static [u8],
    answers: &'static [u8],
}

const ASKED: &[Asked] = &[
    Asked {
        scenario: b"",
        messages: b"",
        tail: END,
        answers: b"",
    },
    Asked {
        scenario: TIE,
        messages: b"A\nB\nAB\n",
        tail: END,
        answers: b"kept A present 1\nkept B present 1\nvote A B tie\n",
    },
    Asked {
        scenario: DECIDED,
        messages: b"A\nB\nAB\nC\nAB\nBA\n",
        tail: b"P\0\0\0\0E\0\0\0\0",
        answers: b"kept A present 1\nkept B present 1\nvote A B tie\n\
            kept C present 1\nvote A B before\nvote B A after\n\
            pairs 6\nvote G B before\nvote G C before\nvote G A before\n\
            vote B C after\nvote B A after\nvote C A after\n",
    },
    Asked {
        scenario: b"make A on G\nmake B on G\nmake C on A\nsend C\nblock D on B\nmake E on B\nmake F on A\nblock H on A B\nsend G\nsend A\nvote H D\nsend H\nsend B\n",
        messages: b"C\nD\nH\nG\nA\nHD\nH\nB\n",
        tail: END,
        answers: b"kept C waiting\nkept D waiting\nkept H waiting\nrefused parent-count\n\
            kept A present 2\nvote H D absent\nknown H\nkept B present 3\n",
    },
];

#[test]
fn questions(rt: HostRuntime) {
    for (at, asked) in ASKED.iter().enumerate() {
        let feed = feed_of(rt.alloc(), 0, asked.messages, asked.tail);
        let output = in_full(rt.alloc(), asked.answers);
        let feed = feed.whole(&rt);
        let run = (b"build".as_slice(), asked.scenario);
        ends_as(&rt, rt.alloc(), "built", at, run, Status::Done, (0, feed));
        let run = (b"replay".as_slice(), feed);
        let wanted = (0, output.whole(&rt));
        ends_as(&rt, rt.alloc(), "asked", at, run, Status::Done, wanted);
    }
}
