//! Scenarios that are made of numbers, and the summaries of such scenarios: by hand, and the longer
//! ones by another program from the rules of the generator, of votes and of acceptance.

use crate::status::Status;
use crate::tests::{Ends, Rest, SAMPLE, Trial, WIDE, Wanted, tries};

/// The words, each ended by a line end; how many lines come before those that are compared; and these.
type Made = (&'static [u8], usize, &'static [u8]);

const MADE: &[Made] = &[
    (b"make\n0\n0\n1\n", 0, b""),
    (
        b"make\n3\n0\n1\n",
        0,
        b"block b1 on G\nblock b2 on b1\nblock b3 on b2\n",
    ),
    (b"make\n2\n1\n2\n", 0, b"block b1 on G\nblock b2 on G b1\n"),
    (
        b"make\n8\n0\n1\n",
        0,
        b"grant g1 100 to a1\n\
            tx p1 spends g1.0 pays 100 to x1\n\
            tx q1 spends g1.0 pays 100 to y1\n\
            block b1 on G\nblock b2 on b1\nblock b3 on b2\nblock b4 on b3\nblock b5 on b4\n\
            block b6 on b5\nblock b7 on b6 carries p1\nblock b8 on b7 carries q1\n",
    ),
    (
        b"make\n10\n5\n3\n",
        0,
        b"grant g1 100 to a1\n\
            tx p1 spends g1.0 pays 100 to x1\n\
            tx q1 spends g1.0 pays 100 to y1\n\
            block b1 on G\nblock b2 on b1\nblock b3 on G b2\nblock b4 on b3\nblock b5 on b4\n\
            block b6 on b3 b5\nblock b7 on b5 carries p1\nblock b8 on b6 carries q1\n\
            block b9 on b7 b8\nblock b10 on b8 b9\n",
    ),
    // the greatest seed
    (
        b"make\n1\n18446744073709551615\n16\n",
        0,
        b"block b1 on G\n",
    ),
    // the most blocks: 63 grants, 126 payments and 510 blocks stand before the last
    (b"make\n511\n0\n1\n", 699, b"block b511 on b510\n"),
    (b"make\n511\n0\n1\n", 700, b""),
    (
        b"drill\n0\n0\n1\n",
        0,
        b"blocks 1 waiting 0\npairs 0 before 0 after 0 tie 0\naccepted 0\nbalances 0\n",
    ),
    (
        b"drill\n3\n0\n1\n",
        0,
        b"blocks 4 waiting 0\npairs 6 before 6 after 0 tie 0\naccepted 0\nbalances 0\n",
    ),
    (
        b"drill\n8\n0\n1\n",
        0,
        b"blocks 9 waiting 0\npairs 36 before 36 after 0 tie 0\naccepted 2\nbalances 1\n",
    ),
    (
        b"drill\n9\n7\n4\n",
        0,
        b"blocks 10 waiting 0\npairs 45 before 43 after 1 tie 1\naccepted 2\nbalances 1\n",
    ),
    // the same twice
    (
        b"drill\n24\n5\n3\n",
        0,
        b"blocks 25 waiting 0\npairs 300 before 292 after 8 tie 0\naccepted 6\nbalances 3\n",
    ),
    (
        b"drill\n24\n5\n3\n",
        0,
        b"blocks 25 waiting 0\npairs 300 before 292 after 8 tie 0\naccepted 6\nbalances 3\n",
    ),
];

/// The first read would fail.
const ENDS: Ends = Ends {
    bad_read: Some(0),
    ..WIDE
};

/// The first read is still to come, and fails; the next one gives the first bytes.
const UNREAD: Rest = (None, Some(7), *b"block A", true);

#[test]
fn numbers(rt: HostRuntime) {
    for (at, (words, lines, output)) in MADE.iter().enumerate() {
        let trial = Trial {
            words,
            input: SAMPLE,
            ends: ENDS,
        };
        let wanted = Wanted {
            status: Status::Done,
            lines: *lines,
            output,
            rest: Some(UNREAD),
        };
        tries(&rt, rt.alloc(), "made", at, &trial, &wanted);
    }
}
