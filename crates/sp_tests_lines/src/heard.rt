//! A feed written down by hand, and what a reader tells of one: what the tests of feeds stand on.

ghost use Rattle.std.specs.Prelude.{IsTrue};
ghost use Rattle.sp_feed.specs.Reader.{is_open};

use sp_block::check_work;
use sp_feed::{FeedFault, FeedHead, FeedReader, HeadFault, Message};
use sp_fixtures::flat;
use sp_ids::{BlockId, Lock, TxId};
use sp_io::{ReadySource, Source};
use std::alloc::{AllocError, Global};
use std::test::Fail;

/// The head with the smallest genesis block.
pub const HEAD: &[u8] = &[
    0x53, 0x50, 0x43, 0x54, 0x52, 0x46, 0x30, 0x31, 0, 0x42, 0x14, 0, 0, 0, 1, 0, 0, 0, 0, 0, 0, 0,
    0, 0, 0, 0, 0, 0, 0, 0, 0, 0, 0, 0,
];

pub const BLOCK: &[u8] = &[0x42, 2, 0, 0, 0, 8, 9];

/// What a frame of a vote begins with, and the two ids that stand behind it.
pub const VOTE: &[u8] = &[0x56, 0x40, 0, 0, 0];

pub const ONE: &[u8] = &[1; 32];

pub const TWO: &[u8] = &[2; 32];

/// What a frame of a question on a transaction begins with, and the id that stands behind it.
pub const TX: &[u8] = &[0x54, 0x20, 0, 0, 0];

pub const THREE: &[u8] = &[3; 32];

/// What a frame of a question on a balance begins with, and the lock that stands behind it.
pub const BALANCE: &[u8] = &[0x55, 0x20, 0, 0, 0];

pub const FOUR: &[u8] = &[4; 32];

pub const PAIRS: &[u8] = &[0x50, 0, 0, 0, 0];

pub const REPORT: &[u8] = &[0x52, 0, 0, 0, 0];

/// No kind has this letter.
pub const UNKNOWN: &[u8] = &[0x51, 0, 0, 0, 0];

pub const END: &[u8] = &[0x45, 0, 0, 0, 0];

/// The frames begin at places 34, 41 and 110, and two bytes stand behind the last.
pub const WHOLE: u32 = 115;

pub const FEED: &[&[u8]] = &[HEAD, BLOCK, VOTE, ONE, TWO, END, b"zz"];

/// The feed without the block.
pub const VOTE_ALONE: &[&[u8]] = &[HEAD, VOTE, ONE, TWO, END];

/// A message as one letter, a small one where it isn't the one of the feed.
fn letter_of(message: &Message<'_>) -> u8 {
    match message {
        Message::Block(bytes) if *bytes == [8, 9].as_slice() => b'B',
        Message::Block(_) => b'b',
        Message::Vote(x, y)
            if *x == BlockId::from_bytes([1; 32]) && *y == BlockId::from_bytes([2; 32]) => { b'V' }
        Message::Vote(_, _) => b'v',
        Message::Tx(id) if *id == TxId::from_bytes([3; 32]) => b'T',
        Message::Tx(_) => b't',
        Message::Balance(lock) if *lock == Lock::from_bytes([4; 32]) => b'U',
        Message::Balance(_) => b'u',
        Message::Pairs => b'P',
        Message::Report => b'R',
        Message::End => b'E',
    }
}

/// What a reader told: the bits, four messages, the bytes taken, its fault, and whether it lives on.
#[derive(Clone, Copy, Debug, PartialEq, Eq)]
pub struct Heard {
    pub bits: Option<u8>,
    pub letters: [u8; 4],
    pub taken: u32,
    pub fault: Option<FeedFault>,
    pub live: bool,
}

/// Asks for four messages, up to the first fault.
fn messages<S: Source>(reader: &mut FeedReader, source: &mut S) -> ([u8; 4], Option<FeedFault>)
    requires { IsTrue (is_open reader.old.stage) }
{
    let mut letters = [b'-'; 4];
    let mut first = None;
    'messages: for letter in &mut letters {
        if let Err(fault) = reader.next(source) {
            first = Some(fault);
            break;
        }
        *letter = letter_of(&reader.message());
    }
    (letters, first)
}

/// The bits of a head whose genesis block is not judged for work, unless there are any.
fn bits_of(head: &FeedHead) -> Option<u8> {
    if head.bits != 0 || check_work(&head.genesis, head.bits) {
        Some(head.bits)
    } else {
        None
    }
}

/// What a reader told of its head and of the messages, or its fault.
fn heard_of(reader: &FeedReader, bits: Option<u8>, told: ([u8; 4], Option<FeedFault>)) -> Heard {
    let (letters, fault) = told;
    Heard {
        bits,
        letters,
        taken: reader.taken(),
        fault,
        live: reader.live(),
    }
}

/// Asks a new reader for the head and four messages, up to its first fault.
pub fn listen<S: Source>(alloc: Global, limit: u32, source: &mut S) -> Result<Heard, Fail> {
    let mut reader = FeedReader::with_limit(alloc, limit)?;
    if !reader.live() || reader.taken() != 0 {
        return Err("a new reader".into());
    }
    match reader.head(source) {
        Ok(head) => {
            let told = messages(&mut reader, source);
            Ok(heard_of(&reader, bits_of(&head), told))
        }
        Err(HeadFault::Feed(fault)) => Ok(heard_of(&reader, None, (*b"----", Some(fault)))),
        Err(HeadFault::Memory) => Err("memory".into()),
    }
}

/// How many bytes are taken, and the fault.
pub type Told = (u32, Option<FeedFault>);

/// What is told of these bytes within a limit; the reader lives on just where there is no fault.
pub fn told(alloc: Global, bytes: Vec<u8>, limit: u32) -> Result<Told, Fail> {
    let heard = listen(alloc, limit, &mut ReadySource::new(bytes))?;
    if heard.live != heard.fault.is_none() {
        return Err("whether it lives".into());
    }
    Ok((heard.taken, heard.fault))
}

pub const NO_LIMIT: u32 = u32::MAX;

/// The feed cut to a length.
pub fn cut(alloc: Global, length: usize) -> Result<Vec<u8>, AllocError> {
    let mut bytes = flat(alloc, FEED)?;
    bytes.truncate(length);
    Ok(bytes)
}
