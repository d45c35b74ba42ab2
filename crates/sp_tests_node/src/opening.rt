//! What is found on a disk, where a new journal may be made and where none may.

use crate::rows::holds;
use crate::texts::{BLOCKS, add_record, disk_of, journal, open_journal};
use sp_disk::Pick;
use sp_fixtures::Numbered;
use sp_io::Fails;
use sp_journal::{Gate, JournalFault};
use sp_node::Stored;
use std::alloc::Global;
use std::test::Fail;

/// What is found: so many records of a journal, or none and the gate, or a fault.
pub type Found = Result<Result<u16, Gate>, JournalFault>;

fn told(stored: &Stored) -> Result<u16, Gate> {
    match stored {
        Stored::Empty { gate } => Err(*gate),
        Stored::Found(opened) => Ok(opened.journal.records()),
    }
}

/// What is found in these bytes. Nothing may be written.
pub fn found(alloc: Global, bytes: &[u8], fresh: bool, fails: Fails) -> Result<Found, Fail> {
    let mut disk = disk_of(alloc, bytes, 0, fails)?;
    let found = match Stored::open(alloc, &mut disk, fresh) {
        Ok(stored) => Ok(told(&stored)),
        Err(fault) => Err(fault),
    };
    if disk.image(Pick::Fill(7))?.as_slice() != bytes {
        return Err("written".into());
    }
    Ok(found)
}

/// What is found in these bytes where no new journal may be made, and where one may.
pub fn found_twice(alloc: Global, bytes: &[u8]) -> Result<(Found, Found), Fail> {
    let found_here = found(alloc, bytes, false, Fails::Never)?;
    let fresh = found(alloc, bytes, true, Fails::Never)?;
    Ok((found_here, fresh))
}

const MISSING: (Found, Found) = (Ok(Err(Gate::Missing)), Ok(Err(Gate::Missing)));

const SHUT: (Found, Found) = (
    Err(JournalFault::NotJournal { gate: Gate::Shut }),
    Ok(Err(Gate::Shut)),
);

const SET: (Found, Found) = (
    Err(JournalFault::NotJournal { gate: Gate::Set }),
    Ok(Err(Gate::Set)),
);

/// Bytes that hold no journal: old ones, and an open gate with rubbish behind it.
#[rattlefmt::skip]
const VACANT: &[(&[u8], (Found, Found))] = &[
    (&[], MISSING),
    (&[0], SHUT),
    (&[7, 1, 2, 3], SHUT),
    (&[0xA4; 300], SHUT),
    (&[0; 300], SHUT),
    (&[0xA5], SET),
    (&[0xA5; 300], SET),
    (b"\xA5SPCTRJ01", SET),
    (b"\xA5SPCTRJ02", SET),
];

#[test]
fn no_journal(rt: HostRuntime) -> Result<(), Fail> {
    for (row, (bytes, wanted)) in VACANT.iter().enumerate() {
        holds(&rt, row, found_twice(rt.alloc(), bytes)? == *wanted);
    }
    Ok(())
}

/// A journal is found in either case, with each number of records.
#[test]
fn a_journal(rt: HostRuntime) -> Result<(), Fail> {
    let blocks = Numbered::of(rt.alloc(), BLOCKS)?;
    for (row, numbers) in [&[][..], &[1], &[3, 4, 1], &[1, 2, 3, 4]]
        .iter()
        .enumerate()
    {
        let bytes = journal(0, 0, &blocks, numbers)?;
        let found = Ok(Ok(u16::try_from(numbers.len())?));
        holds(&rt, row, found_twice(rt.alloc(), &bytes)? == (found, found));
    }
    Ok(())
}

/// 512 blocks on genesis.
fn many(alloc: Global) -> Result<Numbered, Fail> {
    let mut blocks = Numbered::of(alloc, &[])?;
    for _ in 0..512u16 {
        blocks.add(&[0])?;
    }
    Ok(blocks)
}

/// The numbers from 1 to `count`.
pub fn first(alloc: Global, count: usize) -> Result<Vec<usize>, Fail> {
    let mut numbers = Vec::new(alloc);
    for number in 1..=count {
        numbers.push(number)?;
    }
    Ok(numbers)
}

/// What is found where the record of the next block stands behind so many, without its last byte.
fn found_cut(blocks: &Numbered, count: usize) -> Result<(Found, Found), Fail> {
    let numbers = first(blocks.alloc, count)?;
    let mut bytes = open_journal(0, 0, blocks, &numbers)?;
    add_record(&mut bytes, blocks.text(count.saturating_add(1)))?;
    bytes.truncate(bytes.len().saturating_sub(1));
    found_twice(blocks.alloc, &bytes)
}

/// The last record is cut: the first, the second, the 511th, and the one that there is no room for.
#[test]
fn a_cut_record(rt: HostRuntime) -> Result<(), Fail> {
    let blocks = many(rt.alloc())?;
    for (count, at) in [(0, 34), (1, 91), (510, 29_104), (511, 29_161)] {
        let fault = Err(JournalFault::Damaged { at });
        holds(&rt, count, found_cut(&blocks, count)? == (fault, fault));
    }
    Ok(())
}

/// A last record with the block of the first one, and one behind which no gate stands.
#[test]
fn a_faulty_record(rt: HostRuntime) -> Result<(), Fail> {
    let blocks = Numbered::of(rt.alloc(), BLOCKS)?;
    let twice = journal(0, 0, &blocks, &[1, 2, 1])?;
    let fault = Err(JournalFault::Damaged { at: 148 });
    holds(&rt, 0, found_twice(rt.alloc(), &twice)? == (fault, fault));
    let open = open_journal(0, 0, &blocks, &[1, 2])?;
    holds(&rt, 1, found_twice(rt.alloc(), &open)? == (fault, fault));
    Ok(())
}

/// What is found in the journal of one block where the calls from this one on fail.
fn found_failing(alloc: Global, call: u32) -> Result<Found, Fail> {
    let blocks = Numbered::of(alloc, BLOCKS)?;
    let bytes = journal(0, 0, &blocks, &[1])?;
    found(alloc, &bytes, false, Fails::From(call))
}

/// An empty disk is asked for its length alone. From another one come a sync, and then a read each of
/// the head, of the record and of the gate behind it.
#[test]
fn failing_calls(rt: HostRuntime) -> Result<(), Fail> {
    let fault = Err(JournalFault::DiskFault);
    for call in 0..=4 {
        holds(
            &rt,
            call as usize,
            found_failing(rt.alloc(), call)? == fault,
        );
    }
    holds(&rt, 5, found_failing(rt.alloc(), 5)? == Ok(Ok(1)));
    let none: &[u8] = &[];
    holds(
        &rt,
        6,
        found(rt.alloc(), none, true, Fails::From(0))? == fault,
    );
    let missing = Ok(Err(Gate::Missing));
    holds(
        &rt,
        7,
        found(rt.alloc(), none, false, Fails::From(1))? == missing,
    );
    Ok(())
}
