//! What is found in bytes at their front: a journal, or none and the byte at place 0.

use crate::journal::texts::{Found, HEAD, MISSING, SET, SHUT, add_records, found, open};
use crate::rows::holds;
use sp_disk::MemDisk;
use sp_fixtures::flat;
use sp_io::Fails;
use sp_journal::{Journal, JournalFault};
use sp_model::Profile;
use std::alloc::Global;
use std::test::Fail;

/// The head, one byte of it changed, with a closed gate behind it: the place, the byte there, and what
/// is found.
#[rattlefmt::skip]
const CHANGED: &[(usize, u8, Found)] = &[
    (0, 0, SHUT),
    (0, 0xA4, SHUT),
    (0, 0xFF, SHUT),
    (0, 0xA5, Ok((0, 0))),
    (1, b'T', SET),
    (7, b'1', SET),
    (8, b'0', SET),
    (8, b'2', Ok((0, 0))),
    (8, b'3', SET),
    (9, 64, Ok((64, 0))),
    (9, 65, SET),
    // A shorter genesis block isn't whole, and a longer one has a byte behind it.
    (10, 19, SET),
    (10, 21, SET),
    // The length is 65,556, above 65,536.
    (12, 1, SET),
    // The block's version, and its number of parents.
    (14, 2, SET),
    (31, 1, SET),
    // Any byte but 0xA5 is a closed gate of a record.
    (34, 0, Ok((0, 0))),
    (34, 7, Ok((0, 0))),
    (34, 0xA4, Ok((0, 0))),
];

fn changed(alloc: Global, place: usize, byte: u8) -> Result<Found, Fail> {
    let mut bytes = flat(alloc, &[HEAD, &[0]])?;
    if let Some(there) = bytes.get_mut(place) {
        *there = byte;
    }
    found(alloc, bytes)
}

#[test]
fn head(rt: HostRuntime) -> Result<(), Fail> {
    for (row, (place, byte, wanted)) in CHANGED.iter().enumerate() {
        holds(&rt, row, changed(rt.alloc(), *place, *byte)? == *wanted);
    }
    Ok(())
}

/// The profile of the journal whose head has this byte at place 8.
fn profile_with(alloc: Global, byte: u8) -> Result<Profile, Fail> {
    let mut bytes = flat(alloc, &[HEAD, &[0]])?;
    if let Some(there) = bytes.get_mut(8) {
        *there = byte;
    }
    match open(alloc, bytes)? {
        Ok(opened) => Ok(opened.profile),
        Err(_) => Err("no journal".into()),
    }
}

#[test]
fn versions(rt: HostRuntime) -> Result<(), Fail> {
    assert_eq!(rt; profile_with(rt.alloc(), b'1')?, Profile::One);
    assert_eq!(rt; profile_with(rt.alloc(), b'2')?, Profile::Two);
    Ok(())
}

/// What is found in so many bytes of the head.
fn wanted_of(length: usize) -> Found {
    if length == 0 {
        return MISSING;
    }
    if length < 34 {
        return SET;
    }
    Err(JournalFault::Damaged { at: 34 })
}

/// The head cut to each length. A disk that ends exactly behind it is damaged there.
#[test]
fn cut_head(rt: HostRuntime) -> Result<(), Fail> {
    for length in 0..=34 {
        let bytes = Vec::from_slice(rt.alloc(), HEAD.get(..length).unwrap_or(&[]))?;
        holds(&rt, length, found(rt.alloc(), bytes)? == wanted_of(length));
    }
    Ok(())
}

/// What is found of so many records, with a closed gate and rubbish behind them.
fn shut_behind(alloc: Global, count: u16) -> Result<Found, Fail> {
    let mut bytes = Vec::from_slice(alloc, HEAD)?;
    add_records(alloc, &mut bytes, count)?;
    bytes.extend_from_slice(&[7])?;
    bytes.extend_from_slice(&[0xA5; 300])?;
    found(alloc, bytes)
}

/// What follows the first closed gate has no meaning.
#[test]
fn records(rt: HostRuntime) -> Result<(), Fail> {
    for (row, count) in [0, 1, 2, 510, 511].iter().enumerate() {
        let wanted = Ok((0, usize::from(*count)));
        holds(&rt, row, shut_behind(rt.alloc(), *count)? == wanted);
    }
    Ok(())
}

/// What is found where the calls of the disk from this one on fail.
fn failing(alloc: Global, first: u32) -> Result<Found, Fail> {
    let mut bytes = Vec::from_slice(alloc, HEAD)?;
    add_records(alloc, &mut bytes, 1)?;
    bytes.extend_from_slice(&[0])?;
    let size = bytes.len();
    let mut disk = MemDisk::new(alloc, bytes, size, 600, Fails::From(first))?;
    match Journal::open(alloc, &mut disk) {
        Ok(opened) => Ok(Ok((opened.bits, opened.blocks.as_slice().len()))),
        Err(fault) => Ok(Err(fault)),
    }
}

/// A sync comes first, then a read of the head, one of the record, and one of the gate behind it.
#[test]
fn failing_calls(rt: HostRuntime) -> Result<(), Fail> {
    for first in 0..=3 {
        let wanted = Err(JournalFault::DiskFault);
        holds(&rt, first as usize, failing(rt.alloc(), first)? == wanted);
    }
    holds(&rt, 4, failing(rt.alloc(), 4)? == Ok((0, 1)));
    Ok(())
}
