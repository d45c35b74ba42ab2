//! How many parents, carried transactions, inputs and outputs there may be, and one more of each. With two
//! reasons for a fault, the words' own comes first, then `many`, and then that of the sum.

use crate::scenes::judging::{Row, judge};
use crate::scenes::lines::Part;
use sp_play::Why;
use std::test::Fail;

/// 64 parents of a block, and 65; a word of its own has its fault first.
#[rattlefmt::skip]
const PARENTS: &[Row] = &[
    (
        &[
            Part::Lines(64, b"make b@ on G\n", 0, b"", b""),
            Part::Text(b"block c on"),
            Part::Items(64, b" b%"),
        ],
        None,
        1,
    ),
    (
        &[
            Part::Lines(65, b"make b@ on G\n", 0, b"", b""),
            Part::Text(b"block c on"),
            Part::Items(65, b" b%"),
        ],
        Some((66, Why::Many)),
        0,
    ),
    (
        &[
            Part::Lines(65, b"make b@ on G\n", 0, b"", b""),
            Part::Text(b"pairs\nmake c on"),
            Part::Items(65, b" b%"),
        ],
        Some((67, Why::Many)),
        1,
    ),
    (
        &[
            Part::Lines(64, b"make b@ on G\n", 0, b"", b""),
            Part::Text(b"block c on G"),
            Part::Items(64, b" b%"),
        ],
        Some((65, Why::Many)),
        0,
    ),
    (
        &[
            Part::Lines(64, b"make b@ on G\n", 0, b"", b""),
            Part::Text(b"block c on"),
            Part::Items(64, b" b%"),
            Part::Text(b" Z"),
        ],
        Some((65, Why::Unknown)),
        0,
    ),
    (
        &[
            Part::Lines(64, b"make b@ on G\n", 0, b"", b""),
            Part::Text(b"block c on"),
            Part::Items(64, b" b%"),
            Part::Text(b" b0"),
        ],
        Some((65, Why::Repeat)),
        0,
    ),
    (
        &[
            Part::Lines(64, b"make b@ on G\n", 0, b"", b""),
            Part::Text(b"block c on G"),
            Part::Items(64, b" b%"),
            Part::Text(b" carries G"),
        ],
        Some((65, Why::Unknown)),
        0,
    ),
    (
        &[
            Part::Lines(64, b"make b@ on G\n", 0, b"", b""),
            Part::Text(b"block b0 on G"),
            Part::Items(64, b" b%"),
        ],
        Some((65, Why::Taken)),
        0,
    ),
];
/// 256 transactions that a block carries, and 257.
#[rattlefmt::skip]
const CARRIED: &[Row] = &[
    (
        &[
            Part::Lines(256, b"grant g@ 1 to a@\n", 0, b"", b""),
            Part::Text(b"block c on G carries"),
            Part::Items(256, b" g%"),
        ],
        None,
        1,
    ),
    (
        &[
            Part::Lines(256, b"grant g@ 1 to a@\n", 0, b"", b""),
            Part::Text(b"tx p spends g0.0 pays 1 to b\nblock c on G carries"),
            Part::Items(256, b" g%"),
            Part::Text(b" p"),
        ],
        Some((258, Why::Many)),
        0,
    ),
    (
        &[
            Part::Lines(256, b"grant g@ 1 to a@\n", 0, b"", b""),
            Part::Text(b"tx p spends g0.0 pays 1 to b\nblock c on G carries"),
            Part::Items(256, b" g%"),
            Part::Text(b" p p"),
        ],
        Some((258, Why::Repeat)),
        0,
    ),
];
/// 16 inputs, and 17.
#[rattlefmt::skip]
const INPUTS: &[Row] = &[
    (
        &[
            Part::Lines(17, b"grant g@ 1 to a@\n", 0, b"", b""),
            Part::Text(b"tx p spends"),
            Part::Items(16, b" g%.0"),
            Part::Text(b" pays 1 to b\nstate p"),
        ],
        None,
        1,
    ),
    (
        &[
            Part::Lines(17, b"grant g@ 1 to a@\n", 0, b"", b""),
            Part::Text(b"tx p spends"),
            Part::Items(17, b" g%.0"),
            Part::Text(b" pays 1 to b\nstate p"),
        ],
        Some((18, Why::Many)),
        0,
    ),
    (
        &[
            Part::Lines(17, b"grant g@ 1 to a@\n", 0, b"", b""),
            Part::Text(b"tx p spends"),
            Part::Items(17, b" g%.0"),
            Part::Text(b" pays 0 to b"),
        ],
        Some((18, Why::Number)),
        0,
    ),
    (
        &[
            Part::Lines(17, b"grant g@ 1 to a@\n", 0, b"", b""),
            Part::Text(b"tx p spends"),
            Part::Items(17, b" g%.0"),
            Part::Text(b" pays 1 to wwwwwwwwwwwwwwwwwwwwwwwwwwwwwwwwwwwwwwwwwwwwwwwwwwwwwwwwwwwwwwwww"),
        ],
        Some((18, Why::Word)),
        0,
    ),
    (
        &[
            Part::Lines(17, b"grant g@ 1 to a@\n", 0, b"", b""),
            Part::Text(b"tx p spends"),
            Part::Items(17, b" g%.0"),
            Part::Text(b" g0.0 pays 1 to b"),
        ],
        Some((18, Why::Repeat)),
        0,
    ),
    (
        &[
            Part::Lines(17, b"grant g@ 1 to a@\n", 0, b"", b""),
            Part::Text(b"tx p spends"),
            Part::Items(17, b" g%.0"),
            Part::Text(b" pays 9223372036854775807 to a 1 to b"),
        ],
        Some((18, Why::Many)),
        0,
    ),
];
/// 16 outputs, and 17.
#[rattlefmt::skip]
const OUTPUTS: &[Row] = &[
    (
        &[
            Part::Text(b"grant g"),
            Part::Items(16, b" 1 to a%"),
            Part::Text(b"\npairs"),
        ],
        None,
        1,
    ),
    (
        &[
            Part::Text(b"grant g"),
            Part::Items(17, b" 1 to a%"),
            Part::Text(b"\npairs"),
        ],
        Some((1, Why::Many)),
        0,
    ),
    (
        &[
            Part::Text(b"grant g"),
            Part::Items(16, b" 576460752303423487 to a%"),
            Part::Text(b"\npairs"),
        ],
        None,
        1,
    ),
    (
        &[
            Part::Text(b"grant g"),
            Part::Items(16, b" 576460752303423488 to a%"),
            Part::Text(b"\npairs"),
        ],
        Some((1, Why::Number)),
        0,
    ),
    (
        &[
            Part::Text(b"grant g"),
            Part::Items(17, b" 9223372036854775807 to a%"),
        ],
        Some((1, Why::Many)),
        0,
    ),
    (
        &[
            Part::Text(b"grant g 1 to a\ntx p spends g.0 pays"),
            Part::Items(16, b" 1 to a%"),
            Part::Text(b"\nstate p"),
        ],
        None,
        1,
    ),
    (
        &[
            Part::Text(b"grant g 1 to a\ntx p spends g.0 pays"),
            Part::Items(17, b" 1 to a%"),
            Part::Text(b"\nstate p"),
        ],
        Some((2, Why::Many)),
        0,
    ),
    (
        &[
            Part::Text(b"grant g 1 to a\ntx p spends g.0 pays"),
            Part::Items(17, b" 9223372036854775807 to a%"),
        ],
        Some((2, Why::Many)),
        0,
    ),
    (
        &[
            Part::Text(b"grant g"),
            Part::Items(16, b" 1 to a%"),
            Part::Text(b"\ntx p spends g.15 pays 1 to b\nstate p"),
        ],
        None,
        1,
    ),
    (
        &[
            Part::Text(b"grant g"),
            Part::Items(16, b" 1 to a%"),
            Part::Text(b"\ntx p spends g.16 pays 1 to b\nstate p"),
        ],
        Some((2, Why::Unknown)),
        0,
    ),
];

#[test]
fn parents(rt: HostRuntime) -> Result<(), Fail> {
    judge(&rt, rt.alloc(), PARENTS)
}

#[test]
fn carried(rt: HostRuntime) -> Result<(), Fail> {
    judge(&rt, rt.alloc(), CARRIED)
}

#[test]
fn inputs(rt: HostRuntime) -> Result<(), Fail> {
    judge(&rt, rt.alloc(), INPUTS)
}

#[test]
fn outputs(rt: HostRuntime) -> Result<(), Fail> {
    judge(&rt, rt.alloc(), OUTPUTS)
}
