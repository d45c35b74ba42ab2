//! Feeds written down by hand: with another byte at a place, cut at one, with each kind of frame, and
//! read by a visitor.

ghost use Rattle.std.specs.Prelude.{map};
ghost use Rattle.sp_feed.specs.Kinds.{SaysVote};

use crate::heard::{
    BALANCE, END, FEED, FOUR, HEAD, Heard, NO_LIMIT, PAIRS, REPORT, THREE, TX, Told, UNKNOWN,
    VOTE_ALONE, WHOLE, cut, listen, told,
};
use sp_feed::{FeedFault, FeedReader, HeadFault, Message, Visitor, read_all};
use sp_fixtures::flat;
use sp_ids::{BlockId, Memory};
use sp_io::ReadySource;
use sp_model::Profile;
use std::alloc::{AllocError, Global};
use std::test::Fail;

/// A place, the byte that stands there instead, and a limit.
type Change = (usize, u8, u32);

#[rattlefmt::skip]
const CHANGES: &[(Change, Told)] = &[
    ((0, b'T', NO_LIMIT), (8, Some(FeedFault::Malformed { at: 0 }))),
    ((6, b'1', NO_LIMIT), (8, Some(FeedFault::Malformed { at: 0 }))),
    ((7, b'0', NO_LIMIT), (8, Some(FeedFault::Malformed { at: 0 }))),
    ((7, b'2', NO_LIMIT), (WHOLE, None)),
    ((7, b'3', NO_LIMIT), (8, Some(FeedFault::Malformed { at: 0 }))),
    ((8, 64, NO_LIMIT), (WHOLE, None)),
    ((8, 65, NO_LIMIT), (9, Some(FeedFault::Malformed { at: 8 }))),
    ((9, b'V', NO_LIMIT), (10, Some(FeedFault::Malformed { at: 9 }))),
    ((9, b'Z', NO_LIMIT), (10, Some(FeedFault::Malformed { at: 9 }))),
    // The length of the genesis block is 65,556, or one less than the block's.
    ((12, 1, NO_LIMIT), (14, Some(FeedFault::Malformed { at: 10 }))),
    ((10, 19, NO_LIMIT), (33, Some(FeedFault::Malformed { at: 14 }))),
    ((14, 2, NO_LIMIT), (34, Some(FeedFault::Malformed { at: 14 }))),
    ((34, b'Z', NO_LIMIT), (35, Some(FeedFault::Malformed { at: 34 }))),
    ((37, 1, NO_LIMIT), (39, Some(FeedFault::Malformed { at: 35 }))),
    ((42, 63, NO_LIMIT), (46, Some(FeedFault::Malformed { at: 42 }))),
    ((111, 1, NO_LIMIT), (WHOLE, Some(FeedFault::Malformed { at: 111 }))),
    // The length at 35 is 65,538. It is judged once its four bytes are within the limit.
    ((37, 1, 38), (38, Some(FeedFault::TooLong { taken: 38 }))),
    ((37, 1, 39), (39, Some(FeedFault::Malformed { at: 35 }))),
];

/// A length to which the feed is cut, and a limit.
type Cut = (usize, u32);

#[rattlefmt::skip]
const CUTS: &[(Cut, Told)] = &[
    ((0, NO_LIMIT), (0, Some(FeedFault::Truncated { at: 0 }))),
    ((20, NO_LIMIT), (20, Some(FeedFault::Truncated { at: 20 }))),
    ((20, 21), (20, Some(FeedFault::Truncated { at: 20 }))),
    ((20, 20), (20, Some(FeedFault::TooLong { taken: 20 }))),
    ((117, 0), (0, Some(FeedFault::TooLong { taken: 0 }))),
    ((117, 33), (33, Some(FeedFault::TooLong { taken: 33 }))),
    ((117, 114), (114, Some(FeedFault::TooLong { taken: 114 }))),
    ((117, 115), (WHOLE, None)),
    ((115, 115), (WHOLE, None)),
    ((114, 115), (114, Some(FeedFault::Truncated { at: 114 }))),
];

/// The feed with another byte at a place.
fn changed(alloc: Global, place: usize, byte: u8) -> Result<Vec<u8>, AllocError> {
    let mut bytes = flat(alloc, FEED)?;
    if let Some(there) = bytes.get_mut(place) {
        *there = byte;
    }
    Ok(bytes)
}

/// The first of the rows of which something else is told.
fn changed_otherwise(alloc: Global, rows: &[(Change, Told)]) -> Result<Option<usize>, Fail> {
    for (row, ((place, byte, limit), wanted)) in rows.iter().enumerate() {
        if told(alloc, changed(alloc, *place, *byte)?, *limit)? != *wanted {
            return Ok(Some(row));
        }
    }
    Ok(None)
}

/// The first of the rows of which something else is told.
fn cut_otherwise(alloc: Global, rows: &[(Cut, Told)]) -> Result<Option<usize>, Fail> {
    for (row, ((length, limit), wanted)) in rows.iter().enumerate() {
        if told(alloc, cut(alloc, *length)?, *limit)? != *wanted {
            return Ok(Some(row));
        }
    }
    Ok(None)
}

#[test]
fn faults(rt: HostRuntime) -> Result<(), Fail> {
    assert_eq!(rt; changed_otherwise(rt.alloc(), CHANGES)?, None);
    assert_eq!(rt; cut_otherwise(rt.alloc(), CUTS)?, None);
    Ok(())
}

/// The profile of the feed with this byte at place 7.
fn profile_with(alloc: Global, byte: u8) -> Result<Profile, Fail> {
    let mut source = ReadySource::new(changed(alloc, 7, byte)?);
    let mut reader = FeedReader::new(alloc)?;
    match reader.head(&mut source) {
        Ok(head) => Ok(head.profile),
        Err(_) => Err("no head".into()),
    }
}

#[test]
fn versions(rt: HostRuntime) -> Result<(), Fail> {
    assert_eq!(rt; profile_with(rt.alloc(), b'1')?, Profile::One);
    assert_eq!(rt; profile_with(rt.alloc(), b'2')?, Profile::Two);
    Ok(())
}

/// What is told of the head and two frames, without a limit.
fn told_of(alloc: Global, first: &[u8], second: &[u8]) -> Result<Told, Fail> {
    told(alloc, flat(alloc, &[HEAD, first, second])?, NO_LIMIT)
}

#[test]
fn smallest_feeds(rt: HostRuntime) -> Result<(), Fail> {
    let reader = FeedReader::new(rt.alloc())?;
    assert_eq!(rt; (reader.live(), reader.taken()), (true, 0));
    let told = [
        told_of(rt.alloc(), END, END)?,
        told_of(rt.alloc(), UNKNOWN, END)?,
    ];
    let malformed = Some(FeedFault::Malformed { at: 34 });
    assert!(rt; told == [(39, None), (35, malformed)]);
    Ok(())
}

/// What is told of these fields, without a limit.
fn heard_of_fields(alloc: Global, fields: &[&[u8]]) -> Result<Heard, Fail> {
    let bytes = flat(alloc, fields)?;
    listen(alloc, NO_LIMIT, &mut ReadySource::new(bytes))
}

/// The frame has 37 bytes, from place 34 on. With another length it is malformed at place 35.
#[test]
fn transactions(rt: HostRuntime) -> Result<(), Fail> {
    let heard = heard_of_fields(rt.alloc(), &[HEAD, TX, THREE, END])?;
    assert!(rt; (heard.letters, heard.taken, heard.fault) == (*b"TEEE", 76, None));
    let told = [
        told_of(rt.alloc(), TX, THREE)?,
        told_of(rt.alloc(), &[0x54, 31, 0, 0, 0], THREE)?,
        told_of(rt.alloc(), &[0x54, 33, 0, 0, 0], THREE)?,
        told_of(rt.alloc(), TX, &[3; 31])?,
    ];
    let malformed = Some(FeedFault::Malformed { at: 35 });
    let behind = (71, Some(FeedFault::Truncated { at: 71 }));
    let within = (70, Some(FeedFault::Truncated { at: 70 }));
    assert!(rt; told == [behind, (39, malformed), (39, malformed), within]);
    Ok(())
}

/// A kind and a length at place 34, what stands behind them, and what is told.
type Frame = (&'static [u8], &'static [u8], Told);

#[rattlefmt::skip]
const FRAMES: &[Frame] = &[
    (BALANCE, FOUR, (71, Some(FeedFault::Truncated { at: 71 }))),
    (BALANCE, &[4; 31], (70, Some(FeedFault::Truncated { at: 70 }))),
    (&[0x55, 31, 0, 0, 0], FOUR, (39, Some(FeedFault::Malformed { at: 35 }))),
    (&[0x55, 33, 0, 0, 0], FOUR, (39, Some(FeedFault::Malformed { at: 35 }))),
    (&[0x55, 0, 0, 0, 0], END, (39, Some(FeedFault::Malformed { at: 35 }))),
    (PAIRS, END, (44, None)),
    (PAIRS, &[], (39, Some(FeedFault::Truncated { at: 39 }))),
    (&[0x50, 1, 0, 0, 0], END, (39, Some(FeedFault::Malformed { at: 35 }))),
    (&[0x50, 0, 1, 0, 0], END, (39, Some(FeedFault::Malformed { at: 35 }))),
    (REPORT, END, (44, None)),
    (REPORT, &[], (39, Some(FeedFault::Truncated { at: 39 }))),
    (&[0x52, 1, 0, 0, 0], END, (39, Some(FeedFault::Malformed { at: 35 }))),
    (&[0x52, 0, 1, 0, 0], END, (39, Some(FeedFault::Malformed { at: 35 }))),
];

/// The first of the rows of which something else is told.
fn framed_otherwise(alloc: Global, rows: &[Frame]) -> Result<Option<usize>, Fail> {
    for (row, (start, behind, wanted)) in rows.iter().enumerate() {
        if told_of(alloc, start, behind)? != *wanted {
            return Ok(Some(row));
        }
    }
    Ok(None)
}

/// The frames begin at places 34, 71, 76 and 81.
#[test]
fn balances_pairs_and_reports(rt: HostRuntime) -> Result<(), Fail> {
    let heard = heard_of_fields(rt.alloc(), &[HEAD, BALANCE, FOUR, PAIRS, REPORT, END])?;
    assert!(rt; (heard.letters, heard.taken, heard.fault) == (*b"UPRE", 86, None));
    assert_eq!(rt; framed_otherwise(rt.alloc(), FRAMES)?, None);
    Ok(())
}

/// A visitor that takes votes alone.
#[derive(Drop)]
struct Votes {
    pairs: Vec<(BlockId, BlockId)>,
}

impl Visitor for Votes {
    ghost seen = { λ v. map (λ p. SaysVote p.0 p.1) v.pairs.items };

    fn visit(&mut self, message: &Message<'_>) -> Result<(), Memory> {
        match *message {
            Message::Vote(x, y) => Ok(self.pairs.push((x, y))?),
            _ => Err(Memory),
        }
    }
}

/// The bits that are read of bytes, or the fault of the head, and how many votes were seen.
fn visited(alloc: Global, fields: &[&[u8]]) -> Result<(Result<u8, HeadFault>, usize), Fail> {
    let mut source = ReadySource::new(flat(alloc, fields)?);
    let mut votes = Votes {
        pairs: Vec::new(alloc),
    };
    let head = read_all(alloc, NO_LIMIT, &mut source, &mut votes);
    Ok((head.map(|head| head.bits), votes.pairs.len()))
}

/// The visitor takes no block.
#[test]
fn visits(rt: HostRuntime) -> Result<(), Fail> {
    let refused = visited(rt.alloc(), FEED)?;
    assert!(rt; refused == (Err(HeadFault::Memory), 0));
    assert!(rt; visited(rt.alloc(), VOTE_ALONE)? == (Ok(0), 1));
    Ok(())
}
