//! What takes long: texts around the limit of a scenario's bytes, large line numbers, and a block that
//! asks for more work than is tried.

use crate::status::Status;
use crate::tests::text::Text;
use crate::tests::{Ends, Rest, Trial, WIDE, Wanted, tries};

/// A scenario has fewer bytes than this.
const LIMIT: usize = 16_777_216;

const TOO_LONG: &[u8] = b"fault too-long 16777216\n";

/// A source that gives as much as it can, and a sink that has no room for the line of a fault.
const NARROW: Ends = Ends {
    given: 65535,
    taken: 2,
    room: 5,
    ..WIDE
};

/// Nothing is left to be read.
const NOTHING: Rest = (Some(0), Some(0), [0; 7], true);

/// So many line ends and then a text, and what becomes of them.
struct Long {
    words: &'static [u8],
    line_ends: usize,
    text: &'static [u8],
    ends: Ends,
    status: Status,
    output: &'static [u8],
    rest: Option<Rest>,
}

const LAST: &[u8] = b"vote G G\nvote A B\n";

#[rattlefmt::skip]
const LONG: &[Long] = &[
    Long { words: b"play", line_ends: 8, text: b"vote A B", ends: WIDE, status: Status::Malformed, output: b"fault line 9 unknown\n", rest: Some(NOTHING) },
    Long { words: b"play", line_ends: 9, text: b"vote A B", ends: WIDE, status: Status::Malformed, output: b"fault line 10 unknown\n", rest: Some(NOTHING) },
    Long { words: b"play", line_ends: 65_535, text: b"vote A B", ends: WIDE, status: Status::Malformed, output: b"fault line 65536 unknown\n", rest: Some(NOTHING) },
    Long { words: b"play", line_ends: 999_998, text: LAST, ends: WIDE, status: Status::Malformed, output: b"vote G G same\nfault line 1000000 unknown\n", rest: Some(NOTHING) },
    Long { words: b"play", line_ends: LIMIT - 1, text: b"", ends: WIDE, status: Status::Done, output: b"", rest: Some(NOTHING) },
    Long { words: b"play", line_ends: LIMIT, text: b"", ends: WIDE, status: Status::TooLong, output: TOO_LONG, rest: None },
    Long { words: b"play", line_ends: LIMIT - 18, text: LAST, ends: WIDE, status: Status::TooLong, output: TOO_LONG, rest: None },
    // Of a longer text the rest stays unread. Where its line can't be written whole, the write is
    // at fault.
    Long { words: b"play", line_ends: LIMIT - 8, text: b"vote G G\n", ends: NARROW, status: Status::WriteFault, output: b"fault", rest: Some((Some(1), Some(0), *b"\n\0\0\0\0\0\0", false)) },
    // A script has as few bytes, and its lines are counted from the scenario's first.
    Long { words: b"gossip", line_ends: LIMIT - 8, text: b"nodes 1", ends: WIDE, status: Status::Done, output: b"", rest: Some(NOTHING) },
    Long { words: b"gossip", line_ends: LIMIT - 1, text: b"", ends: WIDE, status: Status::Malformed, output: b"fault line 16777216 nodes\n", rest: Some(NOTHING) },
    Long { words: b"gossip", line_ends: LIMIT - 7, text: b"nodes 1", ends: WIDE, status: Status::TooLong, output: TOO_LONG, rest: None },
    // Of each nonce below 1,048,576 the block's id is tried.
    Long { words: b"play", line_ends: 0, text: b"bits 64\nblock A on G\n", ends: WIDE, status: Status::Malformed, output: b"fault line 2 work\n", rest: Some(NOTHING) },
];

#[test]
fn long_texts(rt: HostRuntime) {
    for (at, long) in LONG.iter().enumerate() {
        let mut input = Text::new(rt.alloc());
        input.put_times(long.line_ends, b'\n');
        input.put(long.text);
        let trial = Trial {
            words: long.words,
            input: input.whole(&rt),
            ends: long.ends,
        };
        let wanted = Wanted {
            status: long.status,
            lines: 0,
            output: long.output,
            rest: long.rest,
        };
        tries(&rt, rt.alloc(), "long", at, &trial, &wanted);
    }
}
