//! Journals put together by hand, and what is found in such bytes: what the tests of journals stand
//! on.

ghost use Rattle.std.specs.Prelude.{IfOk};
ghost use Rattle.sp_block.specs.Block.{IsOther};

use sp_block::{Block, read_block};
use sp_disk::MemDisk;
use sp_fixtures::GENESIS;
use sp_io::Fails;
use sp_journal::{Gate, Journal, JournalFault, Opened};
use std::alloc::{AllocError, Global};
use std::test::Fail;

/// The head of a journal without work whose genesis block is the smallest one, 34 bytes.
pub const HEAD: &[u8] = &[
    0xA5, 0x53, 0x50, 0x43, 0x54, 0x52, 0x4A, 0x30, 0x31, 0, 20, 0, 0, 0, 1, 0, 0, 0, 0, 0, 0, 0,
    0, 0, 0, 0, 0, 0, 0, 0, 0, 0, 0, 0,
];

/// The id of that block, SHA-256 by another program.
const GENESIS_ID: [u8; 32] = [
    0x21, 0xFC, 0x3F, 0x95, 0x5C, 0x14, 0x30, 0x5E, 0xD6, 0x6B, 0x2F, 0x60, 0x64, 0xDE, 0x08, 0x2E,
    0x84, 0x47, 0xF2, 0x90, 0x48, 0xDA, 0x3A, 0xB7, 0xC5, 0xC0, 0x10, 0x90, 0xC1, 0xB7, 0x22, 0xAB,
];

/// What stands in the record of a block of 52 bytes before them.
pub const FRONT: &[u8] = &[0xA5, 52, 0, 0, 0];

/// The bytes of the block of this salt on genesis, 52 of them.
pub fn child(alloc: Global, salt: u16) -> Result<Vec<u8>, AllocError> {
    let mut bytes = Vec::new(alloc);
    bytes.extend_from_slice(&[1])?;
    bytes.extend_from_slice(&salt.to_le_bytes())?;
    bytes.extend_from_slice(&[0; 14])?;
    bytes.extend_from_slice(&[1])?;
    bytes.extend_from_slice(&GENESIS_ID)?;
    bytes.extend_from_slice(&[0; 2])?;
    Ok(bytes)
}

/// The block of this salt on genesis.
pub fn child_block(alloc: Global, salt: u16) -> Result<Block, Fail>
    ensures { IfOk result IsOther }
{
    let bytes = child(alloc, salt)?;
    Ok(read_block(alloc, &bytes, false)?)
}

/// Puts the records of the blocks of salts 1 to `count` behind the bytes, 57 bytes each.
pub fn add_records(alloc: Global, bytes: &mut Vec<u8>, count: u16) -> Result<(), AllocError> {
    for salt in 1..=count {
        bytes.extend_from_slice(FRONT)?;
        bytes.extend_from_slice(&child(alloc, salt)?)?;
    }
    Ok(())
}

/// The journal that a disk of these bytes holds.
pub fn open(alloc: Global, bytes: Vec<u8>) -> Result<Result<Opened, JournalFault>, Fail> {
    let size = bytes.len();
    let mut disk = MemDisk::new(alloc, bytes, size, 600, Fails::Never)?;
    Ok(Journal::open(alloc, &mut disk))
}

/// What is found: the bits and the number of records, or the fault.
pub type Found = Result<(u8, usize), JournalFault>;

/// An empty disk.
pub const MISSING: Found = Err(JournalFault::NotJournal {
    gate: Gate::Missing,
});

/// No journal, and a closed gate at place 0.
pub const SHUT: Found = Err(JournalFault::NotJournal { gate: Gate::Shut });

/// No journal, and an open gate there.
pub const SET: Found = Err(JournalFault::NotJournal { gate: Gate::Set });

/// Whether the journal has the smallest genesis block, and as many records as blocks.
fn is_whole(opened: &Opened) -> bool {
    opened.genesis.bytes.as_slice() == GENESIS.as_slice()
        && usize::from(opened.journal.records()) == opened.blocks.as_slice().len()
}

/// What is found in these bytes.
pub fn found(alloc: Global, bytes: Vec<u8>) -> Result<Found, Fail> {
    match open(alloc, bytes)? {
        Ok(opened) => {
            if !is_whole(&opened) {
                return Err("another genesis block or number".into());
            }
            Ok(Ok((opened.bits, opened.blocks.as_slice().len())))
        }
        Err(fault) => Ok(Err(fault)),
    }
}
