//! What is recorded of the messages that a node answers, and what isn't.

use crate::judging::{Answered, Line, Sent, send, sink_of, wrong_answer};
use crate::opening::first;
use crate::rows::holds;
use crate::served::{Served, Started, start};
use crate::texts::{BLOCKS, PICKS, disk_of, head_of, journal};
use sp_block::Block;
use sp_disk::{MemDisk, Pick};
use sp_fixtures::{GENESIS, Numbered};
use sp_io::Fails;
use sp_node::{NodeFault, Stored};
use std::alloc::Global;
use std::test::Fail;

/// A node on what stands on a disk.
pub fn served_on(alloc: Global, bytes: &[u8], fails: Fails) -> Result<Served, Fail> {
    let disk = disk_of(alloc, bytes, 4096, fails)?;
    match start(alloc, disk, false, head_of(alloc, 0, 0)?) {
        Started::Served(served) => Ok(served),
        Started::Refused(_, _) => Err("no start".into()),
    }
}

/// Whether these are just the blocks of these numbers.
fn are_just(found: &[Block], blocks: &Numbered, numbers: &[usize]) -> bool {
    if found.len() != numbers.len() {
        return false;
    }
    for (block, number) in found.iter().zip(numbers) {
        if block.id != blocks.id(*number) {
            return false;
        }
    }
    true
}

/// Whether just these blocks are found in these bytes.
fn has_just(image: &[u8], blocks: &Numbered, numbers: &[usize]) -> Result<bool, Fail> {
    let mut disk = disk_of(blocks.alloc, image, 0, Fails::Never)?;
    match Stored::open(blocks.alloc, &mut disk, false) {
        Ok(Stored::Found(opened)) => Ok(are_just(opened.blocks.as_slice(), blocks, numbers)),
        _ => Ok(false),
    }
}

/// Whether each crash leaves a journal of just these blocks.
fn leaves_just(disk: &MemDisk, blocks: &Numbered, numbers: &[usize]) -> Result<bool, Fail> {
    for pick in PICKS {
        let image = disk.image(pick)?;
        if !has_just(&image, blocks, numbers)? {
            return Ok(false);
        }
    }
    Ok(true)
}

/// The answer of a node whose disk failed. Nothing is written then.
const FAILED: Answered = Err(NodeFault::DiskFault);

const NOTHING: Line = ("", "");

/// The blocks of a journal, the first call of the disk that fails, the messages with their answers,
/// and the blocks of each crash afterwards.
struct Row {
    found: Option<&'static [usize]>,
    failing: Option<u32>,
    messages: &'static [(Sent, Answered, Line)],
    left: &'static [usize],
}

#[rattlefmt::skip]
const ROWS: &[Row] = &[
    // Only a block that is kept calls the disk, whose calls up to the first one's last are 0 to 10.
    Row { found: None, failing: Some(11), left: &[1], messages: &[
        (Sent::Block(1), Ok(()), ("kept ebc352d52d8a", " present 1\n")),
        (Sent::Block(1), Ok(()), ("known ebc352d52d8a", "54\n")),
        (Sent::Bytes(&[]), Ok(()), ("refused", " short\n")),
        (Sent::Bytes(&[2]), Ok(()), ("refused", " version\n")),
        (Sent::Bytes(&GENESIS), Ok(()), ("refused", " parent-count\n")),
        (Sent::Vote(0, 1), Ok(()), ("vote 21fc3f95", " before\n")),
        (Sent::Vote(0, 2), Ok(()), ("vote 21fc3f95", " absent\n")),
        (Sent::Tx, Ok(()), ("tx 0909", " absent\n")),
        (Sent::Balance, Ok(()), ("balance 0909", " 0\n")),
        (Sent::Pairs, Ok(()), ("pairs 1\nvote 21fc3f95", " before\n")),
        (Sent::Report, Ok(()), ("blocks 2 waiting 0\n", "accepted 0\nbalances 0\n")),
        (Sent::Block(2), FAILED, NOTHING),
    ] },
    // So does a block that waits.
    Row { found: None, failing: Some(11), left: &[4], messages: &[
        (Sent::Block(4), Ok(()), ("kept", " waiting\n")),
        (Sent::Block(4), Ok(()), ("known", "\n")),
        (Sent::Block(3), FAILED, NOTHING),
    ] },
    Row { found: None, failing: None, left: &[3, 4, 1], messages: &[
        (Sent::Block(3), Ok(()), ("kept", " waiting\n")),
        (Sent::Block(4), Ok(()), ("kept", " waiting\n")),
        (Sent::Block(1), Ok(()), ("kept ebc352d52d8a", " present 2\n")),
        (Sent::Block(3), Ok(()), ("known", "\n")),
    ] },
    // The blocks of a found journal were kept before.
    Row { found: Some(&[3, 4]), failing: None, left: &[3, 4, 1, 2], messages: &[
        (Sent::Block(4), Ok(()), ("known", "\n")),
        (Sent::Block(1), Ok(()), ("kept ebc352d52d8a", " present 2\n")),
        (Sent::Block(3), Ok(()), ("known", "\n")),
        (Sent::Block(2), Ok(()), ("kept 6fd2bc64", " present 1\n")),
        (Sent::Report, Ok(()), ("blocks 4 waiting 1\n", "accepted 0\nbalances 0\n")),
    ] },
    // An opening of one record has the calls 0 to 4.
    Row { found: Some(&[1]), failing: Some(5), left: &[1], messages: &[
        (Sent::Block(1), Ok(()), ("known ebc352d52d8a", "54\n")),
        (Sent::Vote(1, 0), Ok(()), ("vote ebc352d52d8a", " after\n")),
        (Sent::Report, Ok(()), ("blocks 2 waiting 0\n", "accepted 0\nbalances 0\n")),
        (Sent::Block(2), FAILED, NOTHING),
    ] },
];

/// A node on the disk of a row.
fn served_of(blocks: &Numbered, row: &Row) -> Result<Served, Fail> {
    let bytes = match row.found {
        Some(numbers) => journal(0, 0, blocks, numbers)?,
        None => Vec::new(blocks.alloc),
    };
    let fails = match row.failing {
        Some(call) => Fails::From(call),
        None => Fails::Never,
    };
    served_on(blocks.alloc, &bytes, fails)
}

/// Whether all messages of the row are answered so, the node is stopped where the last one wasn't, and
/// each crash leaves the row's blocks.
fn is_so(blocks: &Numbered, row: &Row) -> Result<bool, Fail> {
    let mut served = served_of(blocks, row)?;
    let wrong = wrong_answer(&mut served, blocks, row.messages);
    let stopped = served.stopped();
    let disk = served.into_disk();
    let wanted = match row.messages.last() {
        Some((_, answered, _)) => answered.is_err(),
        None => false,
    };
    Ok(wrong?.is_none() && stopped == wanted && leaves_just(&disk, blocks, row.left)?)
}

#[test]
fn recorded(rt: HostRuntime) -> Result<(), Fail> {
    let blocks = Numbered::of(rt.alloc(), BLOCKS)?;
    for (place, row) in ROWS.iter().enumerate() {
        holds(&rt, place, is_so(&blocks, row)?);
    }
    Ok(())
}

/// How many bytes a sink takes a call, the call of it that fails, the message, how many bytes are
/// written, and the blocks that each crash leaves.
#[rattlefmt::skip]
const UNWRITTEN: &[(u16, u32, Sent, usize, &[usize])] = &[
    (8192, 0, Sent::Block(1), 0, &[1]),
    (1, 0, Sent::Block(1), 0, &[1]),
    (1, 20, Sent::Block(1), 20, &[1]),
    (1, 0, Sent::Block(3), 0, &[3]),
    (1, 3, Sent::Bytes(&[]), 3, &[]),
    (1, 5, Sent::Vote(0, 0), 5, &[]),
    (8192, 0, Sent::Report, 0, &[]),
];

/// Whether the sink's failing call ends a new node so.
fn is_unwritten(blocks: &Numbered, row: &(u16, u32, Sent, usize, &[usize])) -> Result<bool, Fail> {
    let (step, call, sent, written, left) = row;
    let none: &[u8] = &[];
    let mut served = served_on(blocks.alloc, none, Fails::Never)?;
    let mut sink = sink_of(blocks.alloc, *step, Some(*call))?;
    let answered = send(&mut served, blocks, *sent, &mut sink);
    let stopped = served.stopped();
    let disk = served.into_disk();
    let is_so = answered? == Err(NodeFault::WriteFault) && sink.bytes().len() == *written;
    Ok(is_so && stopped && leaves_just(&disk, blocks, left)?)
}

/// A block is recorded before its line is written.
#[test]
fn a_sink_that_fails(rt: HostRuntime) -> Result<(), Fail> {
    let blocks = Numbered::of(rt.alloc(), BLOCKS)?;
    for (place, row) in UNWRITTEN.iter().enumerate() {
        holds(&rt, place, is_unwritten(&blocks, row)?);
    }
    Ok(())
}

/// 512 blocks whose parent never comes.
fn orphans(alloc: Global) -> Result<Numbered, Fail> {
    let mut blocks = Numbered::of(alloc, &[])?;
    for _ in 0..512u16 {
        blocks.add(&[999])?;
    }
    Ok(blocks)
}

/// There is room for the 511th record and for no other.
#[rattlefmt::skip]
const LAST: &[(Sent, Answered, Line)] = &[
    (Sent::Block(510), Ok(()), ("known", "\n")),
    (Sent::Block(511), Ok(()), ("kept", " waiting\n")),
    (Sent::Block(512), Ok(()), ("full\n", "full\n")),
    (Sent::Block(511), Ok(()), ("known", "\n")),
    (Sent::Bytes(&[]), Ok(()), ("refused", " short\n")),
];

/// Whether a node on 510 records answers so, and records one block more.
fn is_filled(blocks: &Numbered) -> Result<bool, Fail> {
    let alloc = blocks.alloc;
    let found = journal(0, 0, blocks, &first(alloc, 510)?)?;
    let mut served = served_on(alloc, &found, Fails::Never)?;
    let wrong = wrong_answer(&mut served, blocks, LAST);
    let disk = served.into_disk();
    let are_answered = wrong?.is_none();
    let wanted = journal(0, 0, blocks, &first(alloc, 511)?)?;
    let image = disk.image(Pick::Fill(7))?;
    Ok(are_answered && image.as_slice() == wanted.as_slice())
}

#[test]
fn a_full_journal(rt: HostRuntime) -> Result<(), Fail> {
    holds(&rt, 0, is_filled(&orphans(rt.alloc())?)?);
    Ok(())
}
