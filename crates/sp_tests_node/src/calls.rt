//! Two blocks sent to a node on a disk that holds no journal, with the calls of the disk failing from
//! each one on; and a start on what each crash leaves then.

use crate::judging::{Answered, Line, Sent, send, sink_of, told, wrong_answer};
use crate::opening::{Found, found_twice};
use crate::rows::holds;
use crate::served::{Served, Started, Why, start};
use crate::texts::{BLOCKS, PICKS, disk_of, head_of};
use sp_disk::{MemDisk, Pick};
use sp_fixtures::Numbered;
use sp_io::{Fails, MemSink};
use sp_journal::{Gate, JournalFault};
use sp_node::{NodeFault, StartFault};
use std::process::Abort;
use std::test::Fail;

/// The line of the first block, whose id is SHA-256 by another program, as is that of the second.
const FIRST: &str =
    "kept ebc352d52d8a2d8f607bc82f6edc468679599eb0e8a8429d88c82e4cffb62854 present 1\n";

const SECOND: &str =
    "kept 6fd2bc64ef18bc610e2371e6ea7cdda86b35be6cfbe8274c1ed1d9012553c26a present 1\n";

/// How many of the lines were written, and why the run ended where it didn't answer both blocks.
type Ran = (usize, Option<Why>);

/// Sends both blocks, up to the first fault.
fn send_both(
    served: &mut Served,
    blocks: &Numbered,
    sink: &mut MemSink,
) -> Result<Option<Why>, Fail> {
    for number in 1..=2usize {
        let answered = send(served, blocks, Sent::Block(number), sink)?;
        if answered.is_err() {
            return Ok(told(answered));
        }
    }
    Ok(None)
}

/// How many of the lines these bytes are.
fn lines_in(text: &[u8]) -> Result<usize, Fail> {
    let Some(rest) = text.strip_prefix(FIRST.as_bytes()) else {
        return if text.is_empty() {
            Ok(0)
        } else {
            Err("another line".into())
        };
    };
    if rest.is_empty() {
        return Ok(1);
    }
    if rest == SECOND.as_bytes() {
        Ok(2)
    } else {
        Err("another line".into())
    }
}

/// Sends both blocks to a node. It is stopped where one isn't answered.
fn run_on(served: &mut Served, blocks: &Numbered) -> Result<Ran, Fail> {
    let mut sink = sink_of(blocks.alloc, 8192, None)?;
    let why = send_both(served, blocks, &mut sink)?;
    if served.stopped() != why.is_some() {
        return Err("whether it is stopped".into());
    }
    Ok((lines_in(sink.bytes())?, why))
}

/// The same on a disk, which is left.
fn run(blocks: &Numbered, disk: MemDisk, fresh: bool) -> Result<(Ran, MemDisk), Fail> {
    match start(blocks.alloc, disk, fresh, head_of(blocks.alloc, 0, 0)?) {
        Started::Refused(disk, why) => Ok(((0, Some(why)), disk)),
        Started::Served(served) => {
            let mut served = served;
            let ran = run_on(&mut served, blocks);
            let disk = served.into_disk();
            Ok((ran?, disk))
        }
    }
}

/// Where a run ends whose disk fails.
#[derive(Clone, Copy)]
enum End {
    Opening,
    Starting,
    Message,
    /// At no call of the disk.
    Whole,
}

/// What is answered there.
fn why_of(end: End) -> Option<Why> {
    match end {
        End::Opening => Some(Why::Opening(JournalFault::DiskFault)),
        End::Starting => Some(Why::Starting(StartFault::DiskFault)),
        End::Message => Some(Why::Message(NodeFault::DiskFault)),
        End::Whole => None,
    }
}

/// The first call that fails, how many lines are written, where the run ends, and what each crash
/// leaves then.
type Row = (u32, usize, End, &'static [u8]);

/// Call 0 of an empty disk asks for the length, a creation has the calls 1 to 6, the first block 7 to
/// 10, and the second 11 to 14. A line is written once its block's four calls are done.
#[rattlefmt::skip]
const FAILING: &[Row] = &[
    (0, 0, End::Opening, b"----"),
    (1, 0, End::Starting, b"--co"),
    (2, 0, End::Starting, b"-cco"),
    (3, 0, End::Starting, b"cccc"),
    (4, 0, End::Starting, b"cccc"),
    (5, 0, End::Starting, b"ccc0"),
    (6, 0, End::Starting, b"c0c0"),
    (7, 0, End::Message, b"0000"),
    (8, 0, End::Message, b"0000"),
    (9, 0, End::Message, b"0001"),
    (10, 0, End::Message, b"0101"),
    (11, 1, End::Message, b"1111"),
    (12, 1, End::Message, b"1111"),
    (13, 1, End::Message, b"1112"),
    (14, 1, End::Message, b"1212"),
    (15, 2, End::Whole, b"2222"),
];

/// What is found as one letter, where no new journal may be made and where one may: none on an empty
/// disk, a closed gate or an open one without a journal, the number of records, or anything else.
fn letter_of(found: (Found, Found)) -> u8 {
    match found {
        (Ok(Err(Gate::Missing)), Ok(Err(Gate::Missing))) => b'-',
        (Err(JournalFault::NotJournal { gate: Gate::Shut }), Ok(Err(Gate::Shut))) => b'c',
        (Err(JournalFault::NotJournal { gate: Gate::Set }), Ok(Err(Gate::Set))) => b'o',
        (Ok(Ok(0)), Ok(Ok(0))) => b'0',
        (Ok(Ok(1)), Ok(Ok(1))) => b'1',
        (Ok(Ok(2)), Ok(Ok(2))) => b'2',
        _ => b'?',
    }
}

/// What one outcome of a crash is.
fn left(blocks: &Numbered, disk: &MemDisk, pick: Pick) -> Result<u8, Fail> {
    let image = disk.image(pick)?;
    Ok(letter_of(found_twice(blocks.alloc, &image)?))
}

/// What each crash leaves now.
fn crashes(blocks: &Numbered, disk: &MemDisk) -> Result<[u8; 4], Fail> {
    let mut all = [b'?'; 4];
    for (letter, pick) in all.iter_mut().zip(PICKS) {
        *letter = left(blocks, disk, pick)?;
    }
    Ok(all)
}

/// The blocks in a crash's outcome; none where it holds no journal.
fn records(letter: u8) -> usize {
    match letter {
        b'1' => 1,
        b'2' => 2,
        _ => 0,
    }
}

/// Runs while the disk's calls fail from this one on.
fn fails_from(rt: &impl Abort, blocks: &Numbered, row: &Row) -> Result<(), Fail> {
    let (call, lines, end, letters) = *row;
    let none: &[u8] = &[];
    let disk = disk_of(blocks.alloc, none, 4096, Fails::From(call))?;
    let (ran, disk) = run(blocks, disk, false)?;
    let left = crashes(blocks, &disk)?;
    holds(rt, call as usize, ran == (lines, why_of(end)));
    holds(rt, call as usize, left.as_slice() == letters);
    Ok(())
}

#[test]
fn each_call_failing(rt: HostRuntime) -> Result<(), Fail> {
    let blocks = Numbered::of(rt.alloc(), BLOCKS)?;
    for row in FAILING {
        fails_from(&rt, &blocks, row)?;
    }
    Ok(())
}

/// Whether a crash may leave this, where so many lines were written before this call failed: no
/// journal only up to the last call of a creation, and else each block whose line was written.
fn is_lawful(call: u32, lines: usize, letter: u8) -> bool {
    match letter {
        b'-' | b'c' | b'o' => call <= 6,
        b'0' | b'1' | b'2' => records(letter) >= lines,
        _ => false,
    }
}

#[test]
fn acknowledged_blocks(rt: HostRuntime) {
    for (call, lines, _, letters) in FAILING {
        let lawful = letters
            .iter()
            .all(|letter| is_lawful(*call, *lines, *letter));
        holds(&rt, *call as usize, lawful);
    }
}

const KNOWN: &[(Sent, Answered, Line)] = &[
    (Sent::Block(1), Ok(()), ("known ebc352d52d8a", "54\n")),
    (Sent::Block(2), Ok(()), ("known 6fd2bc64ef18", "6a\n")),
];

const KEPT: &[(Sent, Answered, Line)] = &[
    (Sent::Block(1), Ok(()), (FIRST, "")),
    (Sent::Block(2), Ok(()), (SECOND, "")),
];

/// Whether the node keeps genesis and so many of the two blocks, all of them present.
fn keeps_just(served: &Served, blocks: &Numbered, count: u16) -> bool {
    let engine = served.engine();
    if served.stopped() {
        return false;
    }
    let kept = count.saturating_add(1);
    engine.kept_count() == kept
        && engine.present() == kept
        && engine.genesis().id == blocks.id(0)
        && engine.block(&blocks.id(1)).is_some() == (count >= 1)
        && engine.block(&blocks.id(2)).is_some() == (count >= 2)
}

/// Whether the same blocks once more are answered as known, so many of them, and kept.
fn answers_again(served: &mut Served, blocks: &Numbered, count: usize) -> Result<bool, Fail> {
    let known = wrong_answer(served, blocks, KNOWN.get(..count).unwrap_or(&[]))?;
    let kept = wrong_answer(served, blocks, KEPT.get(count..).unwrap_or(&[]))?;
    Ok(known.is_none() && kept.is_none() && keeps_just(served, blocks, 2))
}

/// Whether a node on these bytes begins with so many blocks, takes both again, and each crash leaves
/// both then.
fn restarts(blocks: &Numbered, image: &[u8], count: u16) -> Result<bool, Fail> {
    let disk = disk_of(blocks.alloc, image, 4096, Fails::Never)?;
    let head = head_of(blocks.alloc, 0, 0)?;
    let Started::Served(served) = start(blocks.alloc, disk, true, head) else {
        return Ok(false);
    };
    let mut served = served;
    let begins = keeps_just(&served, blocks, count);
    let answered = answers_again(&mut served, blocks, usize::from(count));
    let disk = served.into_disk();
    Ok(answered? && begins && crashes(blocks, &disk)? == *b"2222")
}

/// Whether a node begins anew on what each crash leaves now, with the blocks that are found.
fn restarts_anywhere(blocks: &Numbered, disk: &MemDisk) -> Result<bool, Fail> {
    for pick in PICKS {
        let count = u16::try_from(records(left(blocks, disk, pick)?))?;
        let image = disk.image(pick)?;
        if !restarts(blocks, &image, count)? {
            return Ok(false);
        }
    }
    Ok(true)
}

/// Whether so it is after a run over these bytes with the calls failing from this one on.
fn restarts_after(blocks: &Numbered, bytes: &[u8], call: u32) -> Result<bool, Fail> {
    let disk = disk_of(blocks.alloc, bytes, 4096, Fails::From(call))?;
    let (_, disk) = run(blocks, disk, true)?;
    restarts_anywhere(blocks, &disk)
}

#[test]
fn restarts_on_each_image(rt: HostRuntime) -> Result<(), Fail> {
    let blocks = Numbered::of(rt.alloc(), BLOCKS)?;
    for call in 0..=15u32 {
        let none: &[u8] = &[];
        holds(&rt, call as usize, restarts_after(&blocks, none, call)?);
    }
    Ok(())
}

/// Bytes that hold no journal, their gate, and how many of them are left behind a new journal of the
/// two blocks, which has 149.
#[rattlefmt::skip]
const OVER: &[(&[u8], Gate, usize)] = &[
    (&[0], Gate::Shut, 149),
    (&[7, 1, 2, 3], Gate::Shut, 149),
    (&[0; 300], Gate::Shut, 300),
    (&[0xA5], Gate::Set, 149),
    (&[0xA5; 300], Gate::Set, 300),
];

/// Whether a run over these bytes is refused, and they stay.
fn is_refused(blocks: &Numbered, bytes: &[u8], gate: Gate) -> Result<bool, Fail> {
    let disk = disk_of(blocks.alloc, bytes, 4096, Fails::Never)?;
    let (ran, disk) = run(blocks, disk, false)?;
    let why = Why::Opening(JournalFault::NotJournal { gate });
    Ok(ran == (0, Some(why)) && disk.image(Pick::Fill(7))?.as_slice() == bytes)
}

/// Whether one that may make a new journal makes it, and so many bytes stand on the disk then.
fn is_made(blocks: &Numbered, bytes: &[u8], size: usize) -> Result<bool, Fail> {
    let disk = disk_of(blocks.alloc, bytes, 4096, Fails::Never)?;
    let (ran, disk) = run(blocks, disk, true)?;
    let image = disk.image(Pick::New)?;
    Ok(ran == (2, None) && image.len() == size && crashes(blocks, &disk)? == *b"2222")
}

#[test]
fn over_other_bytes(rt: HostRuntime) -> Result<(), Fail> {
    let blocks = Numbered::of(rt.alloc(), BLOCKS)?;
    for (row, (bytes, gate, size)) in OVER.iter().enumerate() {
        holds(&rt, row, is_refused(&blocks, bytes, *gate)?);
        holds(&rt, row, is_made(&blocks, bytes, *size)?);
    }
    Ok(())
}

/// No crash of a creation over other bytes opens a gate over them. Three calls look for a journal
/// before it: of the length, a sync and a read.
#[test]
fn restarts_over_other_bytes(rt: HostRuntime) -> Result<(), Fail> {
    let blocks = Numbered::of(rt.alloc(), BLOCKS)?;
    for call in 3..=9u32 {
        let row = call as usize;
        holds(&rt, row, restarts_after(&blocks, &[0xA5; 300], call)?);
    }
    Ok(())
}
