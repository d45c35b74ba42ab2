//! The places of damaged records: each cause as the first record, the second, the last one that may
//! stand, and behind that one.

use crate::journal::texts::{FRONT, Found, HEAD, add_records, child, found};
use crate::rows::holds;
use sp_fixtures::{GENESIS, flat};
use sp_journal::JournalFault;
use std::alloc::{AllocError, Global};
use std::test::Fail;

/// What may stand where a record's gate is due.
#[derive(Clone, Copy, Debug)]
enum Cause {
    /// These bytes, and the disk ends.
    Bytes(&'static [u8]),
    /// A length of 65,537, and so many bytes.
    Long,
    /// A record of a block, but for its last byte.
    Cut,
    /// A record of the genesis block, which is no other block.
    Genesis,
    /// A record of a block and one byte more.
    Trailing,
    /// A record of the block of this salt, and a closed gate.
    Block(u16),
}

/// A length of 65,537, so many bytes and a closed gate.
fn long(alloc: Global) -> Result<Vec<u8>, AllocError> {
    let behind = vec![in alloc; 0u8; 65_538]?;
    flat(alloc, &[&[0xA5, 1, 0, 1, 0], &behind])
}

/// The record of a block, but for its last byte.
fn cut(alloc: Global) -> Result<Vec<u8>, AllocError> {
    let block = child(alloc, 600)?;
    flat(alloc, &[FRONT, block.get(..51).unwrap_or(&[])])
}

/// A record with these bytes before those of the block of this salt, and these behind it.
fn around(alloc: Global, front: &[u8], salt: u16, behind: &[u8]) -> Result<Vec<u8>, AllocError> {
    let block = child(alloc, salt)?;
    flat(alloc, &[front, &block, behind])
}

/// The bytes of a cause.
fn bytes_of(alloc: Global, cause: Cause) -> Result<Vec<u8>, AllocError> {
    match cause {
        Cause::Bytes(bytes) => Vec::from_slice(alloc, bytes),
        Cause::Long => long(alloc),
        Cause::Cut => cut(alloc),
        Cause::Genesis => flat(alloc, &[&[0xA5, 20, 0, 0, 0], &GENESIS, &[0]]),
        Cause::Trailing => around(alloc, &[0xA5, 53, 0, 0, 0], 600, &[0, 0]),
        Cause::Block(salt) => around(alloc, FRONT, salt, &[0]),
    }
}

/// Each of these is damage, whatever stands before.
const CAUSES: &[Cause] = &[
    Cause::Bytes(&[]),
    Cause::Bytes(&[0xA5]),
    Cause::Bytes(&[0xA5, 52]),
    Cause::Bytes(&[0xA5, 52, 0, 0]),
    Cause::Bytes(FRONT),
    Cause::Bytes(&[0xA5, 0, 0, 0, 0, 0]),
    Cause::Bytes(&[0xA5, 1, 0, 0, 0, 1, 0]),
    Cause::Bytes(&[0xA5, 0xFF, 0xFF, 0xFF, 0xFF]),
    Cause::Long,
    Cause::Cut,
    Cause::Genesis,
    Cause::Trailing,
];

/// The head and so many good records.
fn good(alloc: Global, count: u16) -> Result<Vec<u8>, Fail> {
    let mut bytes = Vec::from_slice(alloc, HEAD)?;
    add_records(alloc, &mut bytes, count)?;
    Ok(bytes)
}

/// What is found where a cause stands behind good records.
fn behind(alloc: Global, good: &[u8], cause: Cause) -> Result<Found, Fail> {
    found(alloc, flat(alloc, &[good, &bytes_of(alloc, cause)?])?)
}

/// Whether each cause behind so many good records, each of which has 57 bytes, is damage there; else
/// the first that isn't.
fn each_damages(alloc: Global, count: u16) -> Result<Option<usize>, Fail> {
    let good = good(alloc, count)?;
    let at = 34 + 57 * u64::from(count);
    for (row, cause) in CAUSES.iter().enumerate() {
        if behind(alloc, &good, *cause)? != Err(JournalFault::Damaged { at }) {
            return Ok(Some(row));
        }
    }
    Ok(None)
}

#[test]
fn as_an_early_record(rt: HostRuntime) -> Result<(), Fail> {
    holds(&rt, 0, each_damages(rt.alloc(), 0)?.is_none());
    holds(&rt, 1, each_damages(rt.alloc(), 1)?.is_none());
    Ok(())
}

#[test]
fn as_the_511th_record(rt: HostRuntime) -> Result<(), Fail> {
    holds(&rt, 510, each_damages(rt.alloc(), 510)?.is_none());
    Ok(())
}

#[test]
fn behind_511_records(rt: HostRuntime) -> Result<(), Fail> {
    holds(&rt, 511, each_damages(rt.alloc(), 511)?.is_none());
    Ok(())
}

/// Good records first, then the record of the block of this salt, and what is found.
#[rattlefmt::skip]
const BLOCKS: &[(u16, u16, Result<usize, u64>)] = &[
    (0, 600, Ok(1)),
    (1, 600, Ok(2)),
    (510, 600, Ok(511)),
    // It has the id of the first record, or of the last one.
    (1, 1, Err(34 + 57)),
    (2, 1, Err(34 + 57 * 2)),
    (2, 2, Err(34 + 57 * 2)),
    (510, 1, Err(34 + 57 * 510)),
    (510, 510, Err(34 + 57 * 510)),
    // 511 records stand before it.
    (511, 600, Err(34 + 57 * 511)),
];

fn wanted_of(wanted: Result<usize, u64>) -> Found {
    match wanted {
        Ok(count) => Ok((0, count)),
        Err(at) => Err(JournalFault::Damaged { at }),
    }
}

#[test]
fn one_block_more(rt: HostRuntime) -> Result<(), Fail> {
    for (row, (count, salt, wanted)) in BLOCKS.iter().enumerate() {
        let good = good(rt.alloc(), *count)?;
        let found = behind(rt.alloc(), &good, Cause::Block(*salt))?;
        holds(&rt, row, found == wanted_of(*wanted));
    }
    Ok(())
}

/// The bits of work, the salts of the records, and what is found. The ids, SHA-256 by another program,
/// of salts 1 and 2 begin with the bytes 0xEB and 0x6F.
#[rattlefmt::skip]
const WORK: &[(u8, &[u16], Found)] = &[
    (0, &[1, 2], Ok((0, 2))),
    (1, &[2], Ok((1, 1))),
    (1, &[1], Err(JournalFault::Damaged { at: 34 })),
    (1, &[2, 1], Err(JournalFault::Damaged { at: 91 })),
    (2, &[2], Err(JournalFault::Damaged { at: 34 })),
    (64, &[2], Err(JournalFault::Damaged { at: 34 })),
    (64, &[], Ok((64, 0))),
];

fn worked(alloc: Global, bits: u8, salts: &[u16]) -> Result<Found, Fail> {
    let mut bytes = Vec::from_slice(alloc, HEAD)?;
    if let Some(there) = bytes.get_mut(9) {
        *there = bits;
    }
    for salt in salts {
        bytes.extend_from_slice(FRONT)?;
        bytes.extend_from_slice(&child(alloc, *salt)?)?;
    }
    bytes.extend_from_slice(&[0])?;
    found(alloc, bytes)
}

#[test]
fn work(rt: HostRuntime) -> Result<(), Fail> {
    for (row, (bits, salts, wanted)) in WORK.iter().enumerate() {
        holds(&rt, row, worked(rt.alloc(), *bits, salts)? == *wanted);
    }
    Ok(())
}
