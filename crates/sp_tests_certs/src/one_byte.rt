//! The certificate of two blocks on genesis, with one byte changed anywhere, to each other value.

use crate::bytes::Told::{self, Malformed, Pair, Parent, Shown, Sum, Truncated, Vote, World};
use crate::bytes::said;
use crate::reading::two_on_genesis;
use crate::rows::holds;
use std::alloc::Global;
use std::test::Fail;

/// The first and the last place, the first and the last value of the byte there, and what is said then.
type Row = (usize, usize, u8, u8, Told);

/// Of rows with one place and value the first decides. The blocks have the salts 0, 1 and 2; the id of the
/// second one begins with the bytes eb c3 52 d5 2d 8a 2d 8f 60.
#[rattlefmt::skip]
const ROWS: &[Row] = &[
    // The name, and the profile: no block has both in its past, so that the other one says the same.
    (0, 7, 0, 255, Malformed(0)),
    (8, 8, 2, 2, Shown), (8, 8, 0, 255, Malformed(8)),
    // How many blocks. Of one, the sign is a byte 0 of the third one's salt, and so is the number of worlds.
    // Of two, the sign is the byte 60, and of more, eb c3 52 d5 is a length.
    (9, 9, 0, 0, Malformed(9)), (9, 9, 1, 1, Malformed(100)), (9, 9, 2, 2, Malformed(155)),
    (9, 9, 4, 255, Malformed(147)), (10, 10, 1, 1, Malformed(147)), (10, 10, 2, 255, Malformed(9)),
    // Genesis, of 20 bytes: its length, version, salt and nonce, and how many parents and transactions.
    (11, 11, 0, 204, Malformed(15)), (11, 12, 0, 255, Truncated(219)), (13, 14, 0, 255, Malformed(11)),
    (15, 15, 0, 255, Malformed(15)), (16, 31, 0, 255, Parent(1)), (32, 34, 0, 255, Malformed(15)),
    // The second block, of 52 bytes, with its parent. With the salt 2 it is the third one.
    (35, 35, 0, 180, Malformed(39)), (35, 36, 0, 255, Truncated(219)), (37, 38, 0, 255, Malformed(35)),
    (39, 39, 0, 255, Malformed(39)), (40, 40, 2, 2, Parent(2)), (40, 55, 0, 255, Pair),
    (56, 56, 0, 255, Malformed(39)), (57, 88, 0, 255, Parent(1)), (89, 90, 0, 255, Malformed(39)),
    // The third one.
    (91, 91, 0, 124, Malformed(95)), (91, 92, 0, 255, Truncated(219)), (93, 94, 0, 255, Malformed(91)),
    (95, 95, 0, 255, Malformed(95)), (96, 96, 1, 1, Parent(2)), (96, 111, 0, 255, Pair),
    (112, 112, 0, 255, Malformed(95)), (113, 144, 0, 255, Parent(2)), (145, 146, 0, 255, Malformed(95)),
    // The two that are asked for, and the sign.
    (147, 210, 0, 255, Pair),
    (211, 211, 0, 2, Sum), (211, 211, 3, 255, Malformed(211)),
    // How many worlds, and the number of the first.
    (212, 212, 0, 0, Malformed(212)), (212, 212, 2, 255, Truncated(219)), (213, 213, 1, 1, Truncated(219)),
    (213, 213, 2, 255, Malformed(212)), (214, 215, 0, 255, World(0)),
    // The votes. Genesis would have to vote otherwise wherever one of them is another.
    (216, 218, 0, 2, Vote(0, 0)),
    (216, 216, 3, 255, Malformed(216)), (217, 217, 3, 255, Malformed(217)),
    (218, 218, 3, 255, Malformed(218)),
];

/// What is to be said where the byte at a place has this value.
fn wanted(place: usize, value: u8) -> Option<Told> {
    for (first, last, least, most, said) in ROWS {
        if *first <= place && place <= *last && *least <= value && value <= *most {
            return Some(*said);
        }
    }
    None
}

/// Whether all is right for each value of the byte at a place.
fn is_right(alloc: Global, bytes: &mut [u8], place: usize) -> Result<bool, Fail> {
    let Some(own) = bytes.get(place).copied() else {
        return Ok(false);
    };
    for value in 0..=255u8 {
        match bytes.get_mut(place) {
            Some(byte) => *byte = value,
            None => return Ok(false),
        }
        let told = said(alloc, bytes)?;
        let right = if value == own {
            Some(Shown)
        } else {
            wanted(place, value)
        };
        if right != Some(told) {
            return Ok(false);
        }
    }
    match bytes.get_mut(place) {
        Some(byte) => *byte = own,
        None => return Ok(false),
    }
    Ok(true)
}

#[test]
fn each_byte_changed(rt: HostRuntime) -> Result<(), Fail> {
    let mut bytes = two_on_genesis(rt.alloc())?;
    let len = bytes.len();
    holds(&rt, len, len == 219);
    for place in 0..len {
        holds(&rt, place, is_right(rt.alloc(), &mut bytes, place)?);
    }
    Ok(())
}
