//! Scenarios as large as they may be, and lines of as many words: each is read within a test's minute.

use crate::scenes::judging::{Row, judge};
use crate::scenes::lines::Part;
use sp_play::Why;
use std::test::Fail;

/// As many payments of 16 inputs each as there may be names.
#[rattlefmt::skip]
const PAYMENTS: &[Row] = &[(
    &[
        Part::Text(b"grant g"),
        Part::Items(16, b" 1 to a%"),
        Part::Text(b"\n"),
        Part::Lines(4094, b"tx t@ spends", 16, b" g.%", b" pays 1 to w@\n"),
        Part::Text(b"state t0\nstate t4093"),
    ],
    None,
    2,
)];

/// Each output of as many payments as there may be names, on one line.
#[rattlefmt::skip]
const SPENDS: &[Row] = &[(
    &[
        Part::Text(b"grant g 1 to a\n"),
        Part::Lines(4093, b"tx t@ spends g.0 pays 1 to w@", 15, b" 1 to v", b"\n"),
        Part::Text(b"pairs\ntx z spends"),
        Part::Lines(4093, b"", 16, b" t@.%", b""),
        Part::Text(b" pays 1 to b"),
    ],
    Some((4096, Why::Many)),
    1,
)];

/// The same, and the first of them once more.
#[rattlefmt::skip]
const REPEATED: &[Row] = &[(
    &[
        Part::Text(b"grant g 1 to a\n"),
        Part::Lines(4093, b"tx t@ spends g.0 pays 1 to w@", 15, b" 1 to v", b"\n"),
        Part::Text(b"tx z spends"),
        Part::Lines(4093, b"", 16, b" t@.%", b""),
        Part::Text(b" t0.0 pays 1 to b"),
    ],
    Some((4095, Why::Repeat)),
    0,
)];

/// Almost 16,777,216 bytes of questions.
#[rattlefmt::skip]
const QUESTIONS: &[Row] = &[(
    &[
        Part::Text(b"make A on G\n"),
        Part::Items(1860000, b"vote A G\n"),
        Part::Text(b"pairs"),
    ],
    None,
    1860001,
)];

/// Almost as many in one line that is skipped.
#[rattlefmt::skip]
const COMMENT: &[Row] = &[(
    &[
        Part::Text(b"#"),
        Part::Items(2000000, b" comment"),
        Part::Text(b"\npairs"),
    ],
    None,
    1,
)];

/// Almost as many in one line of which each word is one too many.
#[rattlefmt::skip]
const WORDS: &[Row] = &[(
    &[
        Part::Text(b"pairs"),
        Part::Items(2097000, b" pairs ."),
        Part::Text(b""),
    ],
    Some((1, Why::Form)),
    0,
)];

#[test]
fn payments(rt: HostRuntime) -> Result<(), Fail> {
    judge(&rt, rt.alloc(), PAYMENTS)
}

#[test]
fn spends(rt: HostRuntime) -> Result<(), Fail> {
    judge(&rt, rt.alloc(), SPENDS)
}

#[test]
fn repeated(rt: HostRuntime) -> Result<(), Fail> {
    judge(&rt, rt.alloc(), REPEATED)
}

#[test]
fn questions(rt: HostRuntime) -> Result<(), Fail> {
    judge(&rt, rt.alloc(), QUESTIONS)
}

#[test]
fn comment(rt: HostRuntime) -> Result<(), Fail> {
    judge(&rt, rt.alloc(), COMMENT)
}

#[test]
fn words(rt: HostRuntime) -> Result<(), Fail> {
    judge(&rt, rt.alloc(), WORDS)
}
