//! How many grants and names there may be, and how many bytes a genesis block and a made block, and one
//! more of each. The numbers of bytes were worked out by hand.

use crate::scenes::judging::{Row, judge};
use crate::scenes::lines::Part;
use sp_play::Why;
use std::test::Fail;

/// 256 grants, and 257; a genesis block of 65,536 bytes, and one of 40 more.
#[rattlefmt::skip]
const GRANTS: &[Row] = &[
    (
        &[
            Part::Lines(256, b"grant g@ 1 to a@\n", 0, b"", b""),
            Part::Text(b"pairs"),
        ],
        None,
        1,
    ),
    (
        &[
            Part::Lines(256, b"grant g@ 1 to a@\n", 0, b"", b""),
            Part::Text(b"grant h 1 to b"),
        ],
        Some((257, Why::Many)),
        0,
    ),
    (
        &[
            Part::Lines(256, b"grant g@ 1 to a@\n", 0, b"", b""),
            Part::Text(b"grant h 1 to a0"),
        ],
        Some((257, Why::Many)),
        0,
    ),
    (
        &[
            Part::Lines(256, b"grant g@ 1 to a@\n", 0, b"", b""),
            Part::Text(b"grant h 0 to b"),
        ],
        Some((257, Why::Number)),
        0,
    ),
    (
        &[
            Part::Lines(100, b"grant g@ 1 to x@", 15, b" 1 to a", b"\n"),
            Part::Lines(17, b"grant i@ 3 to i@\n", 0, b"", b""),
            Part::Text(b"grant h 2 to h"),
            Part::Items(14, b" 1 to a"),
            Part::Text(b"\nblock A on G"),
        ],
        None,
        1,
    ),
    (
        &[
            Part::Lines(100, b"grant g@ 1 to x@", 15, b" 1 to a", b"\n"),
            Part::Lines(17, b"grant i@ 3 to i@\n", 0, b"", b""),
            Part::Text(b"grant h 2 to h"),
            Part::Items(15, b" 1 to a"),
            Part::Text(b"\nblock A on G"),
        ],
        Some((118, Why::Many)),
        0,
    ),
    (
        &[
            Part::Lines(100, b"grant g@ 1 to x@", 15, b" 1 to a", b"\n"),
            Part::Lines(17, b"grant i@ 3 to i@\n", 0, b"", b""),
            Part::Text(b"grant h 9223372036854775807 to h"),
            Part::Items(15, b" 1 to a"),
        ],
        Some((118, Why::Many)),
        0,
    ),
    (
        &[
            Part::Lines(100, b"grant g@ 1 to x@", 15, b" 1 to a", b"\n"),
            Part::Lines(17, b"grant i@ 3 to i@\n", 0, b"", b""),
            Part::Text(b"grant h 9223372036854775807 to h"),
            Part::Items(14, b" 1 to a"),
        ],
        Some((118, Why::Number)),
        0,
    ),
];
/// A made block of 65,536 bytes, and one of 65,537, which is judged before its work.
#[rattlefmt::skip]
const MADE: &[Row] = &[
    (
        &[
            Part::Text(b"grant g"),
            Part::Items(16, b" 1 to a"),
            Part::Text(b"\n"),
            Part::Lines(29, b"tx t@ spends", 16, b" g.% with wwwwwwwwwwwwwwwwwwwwwwwwwwwwwwwwwwwwwwwwwwwwwwwwwwwwwwwwwwwwwwww", b" pays 1 to t@ 1 to b 1 to b 1 to b 1 to b 1 to b 1 to b 1 to b 1 to b 1 to b 1 to b 1 to b 1 to b 1 to b 1 to b 1 to b\n"),
            Part::Lines(6, b"tx u@ spends g.0 with wwwwwwwwwwwwwwwwwwwwwwwwwwwwwwwwwwwwwwwwwwwwwwwwwwwwwwwwwwwwwww pays 1 to u@\n", 0, b"", b""),
            Part::Lines(4, b"tx v@ spends g.0 with wwwwwwwwwwwwwwwwwwwwwwwwwwwwwwwwwwwwwwwwwwwwwwwwwwwwwwwwwwwwwwww pays 1 to v@\n", 0, b"", b""),
            Part::Text(b"block A on G carries"),
            Part::Items(29, b" t%"),
            Part::Items(6, b" u%"),
            Part::Items(4, b" v%"),
        ],
        None,
        1,
    ),
    (
        &[
            Part::Text(b"grant g"),
            Part::Items(16, b" 1 to a"),
            Part::Text(b"\n"),
            Part::Lines(29, b"tx t@ spends", 16, b" g.% with wwwwwwwwwwwwwwwwwwwwwwwwwwwwwwwwwwwwwwwwwwwwwwwwwwwwwwwwwwwwwwww", b" pays 1 to t@ 1 to b 1 to b 1 to b 1 to b 1 to b 1 to b 1 to b 1 to b 1 to b 1 to b 1 to b 1 to b 1 to b 1 to b 1 to b\n"),
            Part::Lines(5, b"tx u@ spends g.0 with wwwwwwwwwwwwwwwwwwwwwwwwwwwwwwwwwwwwwwwwwwwwwwwwwwwwwwwwwwwwwww pays 1 to u@\n", 0, b"", b""),
            Part::Lines(5, b"tx v@ spends g.0 with wwwwwwwwwwwwwwwwwwwwwwwwwwwwwwwwwwwwwwwwwwwwwwwwwwwwwwwwwwwwwwww pays 1 to v@\n", 0, b"", b""),
            Part::Text(b"block A on G carries"),
            Part::Items(29, b" t%"),
            Part::Items(5, b" u%"),
            Part::Items(5, b" v%"),
        ],
        Some((41, Why::Many)),
        0,
    ),
    (
        &[
            Part::Text(b"bits 64\n"),
            Part::Text(b"grant g"),
            Part::Items(16, b" 1 to a"),
            Part::Text(b"\n"),
            Part::Lines(29, b"tx t@ spends", 16, b" g.% with wwwwwwwwwwwwwwwwwwwwwwwwwwwwwwwwwwwwwwwwwwwwwwwwwwwwwwwwwwwwwwww", b" pays 1 to t@ 1 to b 1 to b 1 to b 1 to b 1 to b 1 to b 1 to b 1 to b 1 to b 1 to b 1 to b 1 to b 1 to b 1 to b 1 to b\n"),
            Part::Lines(5, b"tx u@ spends g.0 with wwwwwwwwwwwwwwwwwwwwwwwwwwwwwwwwwwwwwwwwwwwwwwwwwwwwwwwwwwwwwww pays 1 to u@\n", 0, b"", b""),
            Part::Lines(5, b"tx v@ spends g.0 with wwwwwwwwwwwwwwwwwwwwwwwwwwwwwwwwwwwwwwwwwwwwwwwwwwwwwwwwwwwwwwww pays 1 to v@\n", 0, b"", b""),
            Part::Text(b"block A on G carries"),
            Part::Items(29, b" t%"),
            Part::Items(5, b" u%"),
            Part::Items(5, b" v%"),
        ],
        Some((42, Why::Many)),
        0,
    ),
];
/// 4,096 names, that of the genesis block among them, and the next one. Words of locks are none.
#[rattlefmt::skip]
const NAMES: &[Row] = &[
    (
        &[
            Part::Lines(4095, b"make b@ on G\n", 0, b"", b""),
            Part::Text(b"vote b0 b4094"),
        ],
        None,
        1,
    ),
    (
        &[
            Part::Lines(4095, b"make b@ on G\n", 0, b"", b""),
            Part::Text(b"block c on G"),
        ],
        Some((4096, Why::Many)),
        0,
    ),
    (
        &[
            Part::Text(b"grant g 1 to a\n"),
            Part::Lines(4094, b"tx t@ spends g.0 pays 1 to w@\n", 0, b"", b""),
            Part::Text(b"balance w\nbalance v"),
        ],
        None,
        2,
    ),
    (
        &[
            Part::Text(b"grant g 1 to a\n"),
            Part::Lines(4094, b"tx t@ spends g.0 pays 1 to w@\n", 0, b"", b""),
            Part::Text(b"tx c spends g.0 pays 1 to w"),
        ],
        Some((4096, Why::Many)),
        0,
    ),
    (
        &[
            Part::Text(b"grant g 1 to a\n"),
            Part::Lines(4094, b"tx t@ spends g.0 pays 1 to w@\n", 0, b"", b""),
            Part::Text(b"make c on G"),
        ],
        Some((4096, Why::Many)),
        0,
    ),
    (
        &[
            Part::Text(b"grant g 1 to a\n"),
            Part::Lines(4094, b"tx t@ spends g.0 pays 1 to w@\n", 0, b"", b""),
            Part::Text(b"tx c spends g.0 pays 1 to w0"),
        ],
        Some((4096, Why::Many)),
        0,
    ),
    (
        &[
            Part::Text(b"grant g 1 to a\n"),
            Part::Lines(4094, b"tx t@ spends g.0 pays 1 to w@\n", 0, b"", b""),
            Part::Text(b"tx t0 spends g.0 pays 1 to w"),
        ],
        Some((4096, Why::Taken)),
        0,
    ),
    (
        &[
            Part::Text(b"grant g 1 to a\n"),
            Part::Lines(4094, b"tx t@ spends g.0 pays 1 to w@\n", 0, b"", b""),
            Part::Text(b"make c on Z"),
        ],
        Some((4096, Why::Unknown)),
        0,
    ),
];

#[test]
fn grants(rt: HostRuntime) -> Result<(), Fail> {
    judge(&rt, rt.alloc(), GRANTS)
}

#[test]
fn made(rt: HostRuntime) -> Result<(), Fail> {
    judge(&rt, rt.alloc(), MADE)
}

#[test]
fn names(rt: HostRuntime) -> Result<(), Fail> {
    judge(&rt, rt.alloc(), NAMES)
}
