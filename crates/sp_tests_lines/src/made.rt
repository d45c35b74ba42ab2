//! Lines as their calls make them.

ghost use Rattle.std.specs.Prelude.{◌≤◌, length};

use crate::rows::holds;
use sp_engine::TxState;
use sp_model::Word;
use sp_report::{
    Line, accepted_count_line, balance_count_line, balance_line, blocks_line, full_line, kept_line,
    known_line, malformed_line, pair_count_line, too_long_line, truncated_line, tx_line, vote_line,
    waiting_line,
};
use std::test::Fail;

/// A line as it is made.
#[derive(Clone, Copy)]
enum Made {
    Kept(&'static [u8], u32),
    Waiting(&'static [u8]),
    Known(&'static [u8]),
    Full,
    Vote(&'static [u8], &'static [u8], Word),
    Malformed(u32),
    Truncated(u32),
    TooLong(u32),
    Number(u64),
    Balance(&'static [u8], u128),
    Blocks(u16, u16),
    Pairs(u32),
    AcceptedCount(u32),
    BalanceCount(u32),
}

const MADE: &[(Made, &str)] = &[
    (Made::Kept(b"genesis", 0), "kept genesis present 0\n"),
    (Made::Kept(b"a", 9), "kept a present 9\n"),
    (Made::Kept(b"a", 10), "kept a present 10\n"),
    (Made::Kept(b"a", 4294967295), "kept a present 4294967295\n"),
    (Made::Waiting(b"a"), "kept a waiting\n"),
    (Made::Known(b"a"), "known a\n"),
    (Made::Full, "full\n"),
    (Made::Vote(b"a", b"bc", Word::Before), "vote a bc before\n"),
    (Made::Vote(b"a", b"bc", Word::After), "vote a bc after\n"),
    (Made::Vote(b"a", b"bc", Word::Tie), "vote a bc tie\n"),
    (Made::Vote(b"a", b"a", Word::Same), "vote a a same\n"),
    (Made::Vote(b"a", b"bc", Word::Absent), "vote a bc absent\n"),
    (Made::Malformed(0), "fault malformed 0\n"),
    (Made::Truncated(511), "fault truncated 511\n"),
    (Made::TooLong(16777216), "fault too-long 16777216\n"),
    (Made::Number(18446744073709551615), "#18446744073709551615"),
    (Made::Number(0), "#0"),
    (Made::Balance(b"a", 0), "balance a 0\n"),
    (
        Made::Balance(b"a", 18446744073709551616),
        "balance a 18446744073709551616\n",
    ),
    (
        Made::Balance(b"a", 340282366920938463463374607431768211455),
        "balance a 340282366920938463463374607431768211455\n",
    ),
    (Made::Blocks(1, 0), "blocks 1 waiting 0\n"),
    (Made::Blocks(2, 510), "blocks 2 waiting 510\n"),
    (Made::Pairs(0), "pairs 0\n"),
    (Made::Pairs(130816), "pairs 130816\n"),
    (Made::AcceptedCount(131072), "accepted 131072\n"),
    (Made::BalanceCount(0), "balances 0\n"),
    (Made::BalanceCount(2097152), "balances 2097152\n"),
];

/// Its first 64 bytes, the most that a label has.
fn label(text: &[u8]) -> &[u8]
    ensures { length result.now ≤ 64 }
{
    &text[..text.len().min(64)]
}

fn numbered(number: u64) -> Line {
    let mut line = Line::new();
    line.push_byte(b'#');
    line.push_bytes(b"");
    line.push_number(number);
    line
}

fn make(made: &Made) -> Line {
    match made {
        Made::Kept(name, present) => kept_line(label(name), *present),
        Made::Waiting(name) => waiting_line(label(name)),
        Made::Known(name) => known_line(label(name)),
        Made::Full => full_line(),
        Made::Vote(x, y, word) => vote_line(label(x), label(y), *word),
        Made::Malformed(place) => malformed_line(*place),
        Made::Truncated(taken) => truncated_line(*taken),
        Made::TooLong(taken) => too_long_line(*taken),
        Made::Number(number) => numbered(*number),
        Made::Balance(name, balance) => balance_line(label(name), *balance),
        Made::Blocks(present, waiting) => blocks_line(*present, *waiting),
        Made::Pairs(count) => pair_count_line(*count),
        Made::AcceptedCount(count) => accepted_count_line(*count),
        Made::BalanceCount(count) => balance_count_line(*count),
    }
}

fn is_made(made: &Made, text: &str) -> bool {
    make(made).as_slice() == text.as_bytes()
}

#[test]
fn other_lines(rt: HostRuntime) {
    for (place, (made, text)) in MADE.iter().enumerate() {
        holds(&rt, place, is_made(made, text));
    }
}

const STATES: &[(TxState, &str)] = &[
    (TxState::Accepted, "tx pay accepted\n"),
    (TxState::Rejected, "tx pay rejected\n"),
    (TxState::Absent, "tx pay absent\n"),
];

#[test]
fn states(rt: HostRuntime) -> Result<(), Fail> {
    for (place, (state, text)) in STATES.iter().enumerate() {
        holds(
            &rt,
            place,
            tx_line(b"pay", *state).as_slice() == text.as_bytes(),
        );
    }
    Ok(())
}
