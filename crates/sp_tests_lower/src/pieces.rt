//! Bytes by their fields: what the tests of transactions and of blocks stand on.

use sp_fixtures::flat;
use std::alloc::{AllocError, Global};

/// Bytes by their fields.
pub type Pieces = &'static [&'static [u8]];

/// Two ids: the first byte that differs tells their order, and not the last.
pub const LOW: [u8; 32] = [
    0, 0, 0, 0, 0, 0, 0, 0, 0, 0, 0, 0, 0, 0, 0, 0, 0, 0, 0, 0, 0, 0, 0, 0, 0, 0, 0, 0, 0, 0, 0, 9,
];

pub const HIGH: [u8; 32] = [
    1, 0, 0, 0, 0, 0, 0, 0, 0, 0, 0, 0, 0, 0, 0, 0, 0, 0, 0, 0, 0, 0, 0, 0, 0, 0, 0, 0, 0, 0, 0, 0,
];

/// The SHA-256 of `abc`, as a lock.
pub const LOCK: [u8; 32] = [
    0xba, 0x78, 0x16, 0xbf, 0x8f, 0x01, 0xcf, 0xea, 0x41, 0x41, 0x40, 0xde, 0x5d, 0xae, 0x22, 0x23,
    0xb0, 0x03, 0x61, 0xa3, 0x96, 0x17, 0x7a, 0x9c, 0xb4, 0x10, 0xff, 0x61, 0xf2, 0x00, 0x15, 0xad,
];

/// Amounts, the lowest byte first. Two halves are the limit, below which a sum stays.
pub const ONE: [u8; 8] = [1, 0, 0, 0, 0, 0, 0, 0];

pub const HUNDRED: [u8; 8] = [100, 0, 0, 0, 0, 0, 0, 0];

pub const HALF: [u8; 8] = [0, 0, 0, 0, 0, 0, 0, 0x40];

pub const LIMIT: [u8; 8] = [0, 0, 0, 0, 0, 0, 0, 0x80];

/// The fields of all parts, one after another.
pub fn joined(alloc: Global, parts: &[Pieces]) -> Result<Vec<u8>, AllocError> {
    let mut bytes = Vec::new(alloc);
    for part in parts {
        bytes.extend_from_slice(&flat(alloc, part)?)?;
    }
    Ok(bytes)
}
