//! Each reason of a line's fault, by lines that have it alone. Reasons for which many words or lines are
//! needed stand in `limits`.

use crate::scenes::judging::behind;
use sp_play::Why;
use std::alloc::Global;
use std::process::Abort;
use std::test::Fail;

/// A byte that no line may have.
#[rattlefmt::skip]
const BYTES: &[&[u8]] = &[
    b"vote A \x01",
    b"pairs\x7f",
    b"balance caf\xc3\xa9",
    b"pairs \rx",
    b"pairs\r\r",
    b"\x00",
    b"\x0b",
    b"vote A\x0cA",
    b"make B on G\xff",
];

/// No command.
#[rattlefmt::skip]
const COMMANDS: &[&[u8]] = &[
    b"Pairs",
    b"blocks B on G",
    b"vote! A A",
    b"on G",
    b"G",
    b"bits0",
    b"-",
];

/// Behind a line of another kind.
#[rattlefmt::skip]
const LATE: &[&[u8]] = &[
    b"profile 2",
    b"bits 0",
    b"grant h 1 to dave",
];

/// Not the form of the command.
#[rattlefmt::skip]
const FORMS: &[&[u8]] = &[
    b"tx",
    b"tx q",
    b"tx q spends",
    b"tx q spends g.1",
    b"tx q spends g.1 pays",
    b"tx q spends g.1 pays 1",
    b"tx q spends g.1 pays 1 to",
    b"tx q spends g.1 pays 1 at w",
    b"tx q spends g.1 pays 1 to w 2",
    b"tx q spends g.1 pays 1 to w 2 to",
    b"tx q spends g.1 pays 1 to w x 2 to w",
    b"tx q spend g.1 pays 1 to w",
    b"tx spends g.1 pays 1 to w",
    b"tx q spends g.1 with",
    b"tx q spends g.1 with pays 1 to w",
    b"make",
    b"make B",
    b"make B on",
    b"make B G",
    b"make B at G",
    b"make B on G carries",
    b"block",
    b"block B on",
    b"block B on G carries",
    b"send",
    b"send A A",
    b"vote",
    b"vote A",
    b"vote A A A",
    b"state",
    b"state p p",
    b"balance",
    b"balance a b",
    b"pairs now",
    b"report 1",
    b"pairs # all",
];

/// A new name that is not well formed.
#[rattlefmt::skip]
const NAMES: &[&[u8]] = &[
    b"make on on G",
    b"make carries on G",
    b"make spends on G",
    b"make with on G",
    b"make pays on G",
    b"make to on G",
    b"make B.0 on G",
    b"block B! on G",
    b"make # on G",
    b"make nnnnnnnnnnnnnnnnnnnnnnnnnnnnnnnnn on G",
    b"tx on spends g.1 pays 1 to w",
    b"tx q/ spends g.1 pays 1 to w",
];

/// A new name that is taken.
#[rattlefmt::skip]
const TAKEN: &[&[u8]] = &[
    b"make A on G",
    b"block G on G",
    b"make p on G",
    b"make g on G",
    b"tx A spends g.1 pays 1 to w",
    b"tx p spends g.1 pays 1 to w",
    b"tx G spends g.1 pays 1 to w",
];

/// No name of the wanted kind.
#[rattlefmt::skip]
const UNKNOWN: &[&[u8]] = &[
    b"vote A B",
    b"vote B A",
    b"vote p A",
    b"vote A g",
    b"send p",
    b"send B",
    b"state A",
    b"state G",
    b"state q",
    b"state P",
    b"make B on C",
    b"make B on p",
    b"make B on B",
    b"make B on G carries A",
    b"make B on G carries G",
    b"block B on G carries q",
];

/// No output.
#[rattlefmt::skip]
const OUTS: &[&[u8]] = &[
    b"tx q spends g pays 1 to w",
    b"tx q spends g. pays 1 to w",
    b"tx q spends .0 pays 1 to w",
    b"tx q spends . pays 1 to w",
    b"tx q spends A.0 pays 1 to w",
    b"tx q spends G.0 pays 1 to w",
    b"tx q spends q.0 pays 1 to w",
    b"tx q spends g.2 pays 1 to w",
    b"tx q spends p.1 pays 1 to w",
    b"tx q spends g.1.0 pays 1 to w",
    b"tx q spends g..1 pays 1 to w",
    b"tx q spends g.1. pays 1 to w",
    b"tx q spends alice.0 pays 1 to w",
    b"tx q spends g.1 z.0 pays 1 to w",
];

/// A name or an output that stands twice.
#[rattlefmt::skip]
const REPEATS: &[&[u8]] = &[
    b"make B on A A",
    b"block B on G A G",
    b"make B on G carries p p",
    b"make B on G carries g p g",
    b"tx q spends g.1 g.1 pays 1 to w",
    b"tx q spends g.1 with a g.1 with b pays 1 to w",
    b"tx q spends g.1 g.0 g.1 pays 1 to w",
];

/// An amount out of its range or badly spelled, or a sum that is too large.
#[rattlefmt::skip]
const NUMBERS: &[&[u8]] = &[
    b"tx q spends g.1 pays 0 to w",
    b"tx q spends g.1 pays 00 to w",
    b"tx q spends g.1 pays 01 to w",
    b"tx q spends g.1 pays 9223372036854775808 to w",
    b"tx q spends g.1 pays 18446744073709551615 to w",
    b"tx q spends g.1 pays 18446744073709551617 to w",
    b"tx q spends g.1 pays 99999999999999999999999999999999 to w",
    b"tx q spends g.1 pays -1 to w",
    b"tx q spends g.1 pays +1 to w",
    b"tx q spends g.1 pays 1.0 to w",
    b"tx q spends g.1 pays 1e3 to w",
    b"tx q spends g.1 pays x to w",
    b"tx q spends g.1 pays to to w",
    b"tx q spends g.1 pays 1 to w 0 to w",
    b"tx q spends g.1 pays 9223372036854775807 to w 1 to w",
    b"tx q spends g.1 pays 4611686018427387904 to w 4611686018427387904 to x",
];

/// A word of 65 bytes.
#[rattlefmt::skip]
const WORDS: &[&[u8]] = &[
    b"balance wwwwwwwwwwwwwwwwwwwwwwwwwwwwwwwwwwwwwwwwwwwwwwwwwwwwwwwwwwwwwwwww",
    b"tx q spends g.1 pays 1 to wwwwwwwwwwwwwwwwwwwwwwwwwwwwwwwwwwwwwwwwwwwwwwwwwwwwwwwwwwwwwwwww",
    b"tx q spends g.1 with wwwwwwwwwwwwwwwwwwwwwwwwwwwwwwwwwwwwwwwwwwwwwwwwwwwwwwwwwwwwwwwww pays 1 to w",
    b"tx q spends g.1 pays 1 to w 1 to wwwwwwwwwwwwwwwwwwwwwwwwwwwwwwwwwwwwwwwwwwwwwwwwwwwwwwwwwwwwwwwww",
];

/// The transaction that is there already.
#[rattlefmt::skip]
const TWINS: &[&[u8]] = &[
    b"tx q spends g.0 pays 90 to carol",
    b"tx q spends g.0 with alice pays 90 to carol",
    b"tx\tq spends\tg.0  pays 90 to carol ",
];

/// Each of these lines has this reason alone.
fn all_behind(rt: &impl Abort, alloc: Global, lines: &[&[u8]], why: Why) -> Result<(), Fail> {
    for (row, line) in lines.iter().enumerate() {
        behind(rt, alloc, row, line, Some(why), 0)?;
    }
    Ok(())
}

#[test]
fn reasons_of_forms(rt: HostRuntime) -> Result<(), Fail> {
    all_behind(&rt, rt.alloc(), BYTES, Why::Byte)?;
    all_behind(&rt, rt.alloc(), COMMANDS, Why::Command)?;
    all_behind(&rt, rt.alloc(), LATE, Why::Late)?;
    all_behind(&rt, rt.alloc(), FORMS, Why::Form)
}

#[test]
fn reasons_of_names(rt: HostRuntime) -> Result<(), Fail> {
    all_behind(&rt, rt.alloc(), NAMES, Why::Name)?;
    all_behind(&rt, rt.alloc(), TAKEN, Why::Taken)?;
    all_behind(&rt, rt.alloc(), UNKNOWN, Why::Unknown)?;
    all_behind(&rt, rt.alloc(), OUTS, Why::Unknown)
}

#[test]
fn reasons_of_values(rt: HostRuntime) -> Result<(), Fail> {
    all_behind(&rt, rt.alloc(), REPEATS, Why::Repeat)?;
    all_behind(&rt, rt.alloc(), NUMBERS, Why::Number)?;
    all_behind(&rt, rt.alloc(), WORDS, Why::Word)?;
    all_behind(&rt, rt.alloc(), TWINS, Why::Twin)
}

/// Lines without a fault, with the number of messages that they add.
#[rattlefmt::skip]
const PLAYED: &[(&[u8], usize)] = &[
    (b"make B on A\tG", 0),
    (b"make nnnnnnnnnnnnnnnnnnnnnnnnnnnnnnnn on G", 0),
    (b"make On on G", 0),
    (b"make _-9 on G", 0),
    (b"make 0 on G", 0),
    (b"make make on G", 0),
    (b"block alice on G", 1),
    (b"make B on G carries p g", 0),
    (b"make B on G carries p\t\t", 0),
    (b"balance wwwwwwwwwwwwwwwwwwwwwwwwwwwwwwwwwwwwwwwwwwwwwwwwwwwwwwwwwwwwwwww", 1),
    (b"balance #", 1),
    (b"balance on", 1),
    (b"balance ~!.\\", 1),
    (b"tx q spends g.1 with wwwwwwwwwwwwwwwwwwwwwwwwwwwwwwwwwwwwwwwwwwwwwwwwwwwwwwwwwwwwwwww pays 1 to wwwwwwwwwwwwwwwwwwwwwwwwwwwwwwwwwwwwwwwwwwwwwwwwwwwwwwwwwwwwwwww", 0),
    (b"tx q spends g.0 pays 91 to carol", 0),
    (b"tx q spends g.0 with bob pays 90 to carol", 0),
    (b"tx q spends g.1 pays 9223372036854775807 to w", 0),
    (b"tx q spends g.1 pays 9223372036854775806 to w 1 to w", 0),
    (b"tx q spends g.1 pays 1 to w 1 to w", 0),
    (b"tx q spends p.0 g.1 pays 1 to w", 0),
    (b"  \t pairs", 1),
    (b"report\t \t", 1),
    (b"vote G G", 1),
    (b"vote A G", 1),
    (b"send G", 1),
    (b"send A", 1),
    (b"state p", 1),
    (b"state g", 1),
    (b"", 0),
    (b" \t ", 0),
    (b"#", 0),
    (b"#\x01\xff pairs", 0),
    (b" \t#pairs \x00", 0),
    (b"\r", 0),
    (b"pairs\r", 1),
];

#[test]
fn played(rt: HostRuntime) -> Result<(), Fail> {
    for (row, (line, count)) in PLAYED.iter().enumerate() {
        behind(&rt, rt.alloc(), row, line, None, *count)?;
    }
    Ok(())
}
