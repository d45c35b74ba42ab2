//! The parts of blocks, by name: heads, transactions, and what those are put together from.

use crate::pieces::{HALF, HIGH, HUNDRED, LIMIT, LOCK, LOW, ONE, Pieces};

/// The SHA-256 of `parent`, as an id.
pub const PARENT: [u8; 32] = [
    0xe4, 0x71, 0x25, 0x96, 0x8b, 0x3b, 0x71, 0x04, 0x9f, 0xbc, 0x48, 0x02, 0xd1, 0xe4, 0x0a, 0x71,
    0xea, 0x13, 0x59, 0xde, 0xcf, 0xab, 0xac, 0xf7, 0x0b, 0x34, 0x58, 0x80, 0x37, 0xd4, 0xff, 0x0c,
];

/// What a block begins with: its version, and the salt and the nonce 0.
pub const HEAD: [&[u8]; 2] = [&[1], &[0; 16]];

/// Transactions without an input, with one, and with two.
pub const GRANT: [&[u8]; 4] = [&[0], &[1], &HUNDRED, &LOCK];

pub const OTHER_GRANT: [&[u8]; 4] = [&[0], &[1], &ONE, &LOCK];

pub const SPEND: [&[u8]; 7] = [&[1], &LOW, &[9], &[1, b'a'], &[1], &ONE, &LOCK];

pub const OTHER_PREIMAGE: [&[u8]; 7] = [&[1], &LOW, &[9], &[1, b'b'], &[1], &ONE, &LOCK];

pub const OTHER_INDEX: [&[u8]; 7] = [&[1], &LOW, &[8], &[1, b'a'], &[1], &ONE, &LOCK];

pub const OTHER_ID: [&[u8]; 7] = [&[1], &HIGH, &[9], &[1, b'a'], &[1], &ONE, &LOCK];

#[rattlefmt::skip]
pub const TWO: [&[u8]; 12] = [
    &[2], &LOW, &[8], &[2, b'b', b'c'], &HIGH, &[0], &[1, b'd'],
    &[2], &ONE, &LOCK, &HALF, &LOCK,
];

#[rattlefmt::skip]
pub const TWO_OTHERS: [&[u8]; 10] = [
    &[2], &LOW, &[7], &[1, b'a'], &HIGH, &[0], &[1, b'a'],
    &[1], &ONE, &LOCK,
];

/// Two parents, and transactions with one and with two inputs.
#[rattlefmt::skip]
pub const RICH: &[Pieces] = &[
    &[&[1], &[8, 7, 6, 5, 4, 3, 2, 1], &[0xff, 0, 0, 0, 0, 0, 0, 0x80], &[2], &LOW, &HIGH, &[2, 0]],
    &SPEND,
    &TWO,
];

/// A part of a block, by name or by its bytes.
#[derive(Clone, Copy)]
pub enum Part {
    Bytes(&'static [u8]),
    Head,
    Low,
    High,
    Limit,
    Grant,
    OtherGrant,
    Spend,
    OtherPreimage,
    OtherIndex,
    OtherId,
    Two,
    TwoOthers,
}

/// The fields of a part that has a name.
pub fn fields_of(part: Part) -> Pieces {
    match part {
        Part::Bytes(_) => &[],
        Part::Head => &HEAD,
        Part::Low => &[&LOW],
        Part::High => &[&HIGH],
        Part::Limit => &[&LIMIT],
        Part::Grant => &GRANT,
        Part::OtherGrant => &OTHER_GRANT,
        Part::Spend => &SPEND,
        Part::OtherPreimage => &OTHER_PREIMAGE,
        Part::OtherIndex => &OTHER_INDEX,
        Part::OtherId => &OTHER_ID,
        Part::Two => &TWO,
        Part::TwoOthers => &TWO_OTHERS,
    }
}
