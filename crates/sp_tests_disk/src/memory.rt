//! What a disk in memory answers to rows of calls, and what a crash leaves behind them.

use crate::memory_rows::{Answer, Plan, ROWS, Row, Try};
use sp_disk::{Disk, MemDisk, Pick};
use sp_io::{Calls, Fails};
use std::alloc::{AllocError, Global};
use std::test::Fail;

fn fails(alloc: Global, plan: Plan) -> Result<Fails, AllocError> {
    Ok(match plan {
        Plan::Never => Fails::Never,
        Plan::At(first, second) => {
            Fails::At(Calls::of(Vec::from_slice(alloc, &[first, second])?))
        }
        Plan::From(first) => Fails::From(first),
    })
}

fn disk_of(alloc: Global, row: &Row) -> Result<MemDisk, Fail> {
    if row.start.len() > row.capacity {
        return Err("no room for the bytes".into());
    }
    let start = Vec::from_slice(alloc, row.start)?;
    let plan = fails(alloc, row.plan)?;
    Ok(MemDisk::new(alloc, start, row.capacity, row.calls, plan)?)
}

/// Writes where the place is one of the disk's.
fn write(disk: &mut MemDisk, at: u64, bytes: &[u8]) -> Result<Answer, Fail> {
    let now = disk.image(Pick::New)?;
    if bytes.len() > 8 || at > 8 || at > now.len() as u64 {
        return Err("no such write".into());
    }
    Ok(match disk.write_at(at, bytes) {
        Ok(()) => Ok(0),
        Err(failed) => Err(failed),
    })
}

fn call(disk: &mut MemDisk, call: Try) -> Result<Answer, Fail> {
    match call {
        Try::Len => Ok(match disk.len() {
            Ok(count) => Ok(count as usize),
            Err(failed) => Err(failed),
        }),
        Try::Read(at, size) => {
            let mut out = [b'?'; 8];
            Ok(disk.read_at(at, &mut out[..size.min(8)]))
        }
        Try::Write(at, bytes) => write(disk, at, bytes),
        Try::Sync => Ok(match disk.sync() {
            Ok(()) => Ok(0),
            Err(failed) => Err(failed),
        }),
    }
}

/// Whether each call of a row answers as it has to.
fn are_answered(disk: &mut MemDisk, row: &Row) -> Result<bool, Fail> {
    for (next, answer) in row.tries.iter().zip(row.answers) {
        if call(disk, *next)? != *answer {
            return Ok(false);
        }
    }
    Ok(row.tries.len() == row.answers.len())
}

/// Whether the outcomes of a crash are these.
fn are_images(disk: &MemDisk, images: &[&[u8]; 3]) -> Result<bool, Fail> {
    let old = disk.image(Pick::Old)?;
    let new = disk.image(Pick::New)?;
    let filled = disk.image(Pick::Fill(b'-'))?;
    Ok(old.as_slice() == images[0] && new.as_slice() == images[1] && filled.as_slice() == images[2])
}

/// Whether a row comes out as written.
fn holds(alloc: Global, row: &Row) -> Result<bool, Fail> {
    let mut disk = disk_of(alloc, row)?;
    let answered = are_answered(&mut disk, row)?;
    let left = are_images(&disk, &row.images)?;
    Ok(answered && left)
}

/// The first of the rows that comes to something else.
fn misrun(alloc: Global, rows: &[Row]) -> Result<Option<usize>, Fail> {
    for (place, row) in rows.iter().enumerate() {
        if !holds(alloc, row)? {
            return Ok(Some(place));
        }
    }
    Ok(None)
}

#[test]
fn rows(rt: HostRuntime) -> Result<(), Fail> {
    assert_eq!(rt; misrun(rt.alloc(), ROWS)?, None);
    Ok(())
}

/// Four bytes of buffer behind a read at a place.
fn read(disk: &mut MemDisk, at: u64) -> (Answer, [u8; 4]) {
    let mut out = *b"----";
    let answer = disk.read_at(at, &mut out);
    (answer, out)
}

#[test]
fn reads(rt: HostRuntime) -> Result<(), Fail> {
    let start = Vec::from_slice(rt.alloc(), b"abcdef")?;
    let mut disk = MemDisk::new(rt.alloc(), start, 6, 4, Fails::Never)?;
    assert!(rt; read(&mut disk, 0) == (Ok(4), *b"abcd"));
    assert!(rt; read(&mut disk, 3) == (Ok(3), *b"def-"));
    assert!(rt; read(&mut disk, 6) == (Ok(0), *b"----"));
    assert!(rt; read(&mut disk, 2) == (Ok(4), *b"cdef"));
    Ok(())
}
