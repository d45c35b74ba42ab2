//! The feed in pieces of each size, cut at each place, and with each call of its source failing.

use crate::heard::{Heard, NO_LIMIT, WHOLE, cut, listen};
use sp_feed::FeedFault;
use sp_io::{Calls, Fails, MemSource, read_full};
use std::alloc::Global;
use std::test::Fail;

/// What is told of the feed's first bytes, where the fault is this one.
fn expected(length: u32, fault: FeedFault) -> Heard {
    let letters = match length {
        0..41 => *b"----",
        41..110 => *b"B---",
        110..WHOLE => *b"BV--",
        _ => *b"BVEE",
    };
    Heard {
        bits: if length < 34 { None } else { Some(0) },
        letters,
        taken: length.min(WHOLE),
        fault: if length < WHOLE { Some(fault) } else { None },
        live: length >= WHOLE,
    }
}

/// What is told of the feed cut to a length, in pieces, with calls that fail; and what is left of it
/// then where there was no fault.
fn in_pieces(
    alloc: Global,
    length: u32,
    step: u16,
    fails: Fails,
) -> Result<(Heard, [u8; 3]), Fail> {
    if step == 0 {
        return Err("no step".into());
    }
    let mut source = MemSource::new(cut(alloc, length as usize)?, step, fails);
    let heard = listen(alloc, NO_LIMIT, &mut source)?;
    let mut rest = *b"---";
    if heard.fault.is_none() {
        let _count = read_full(&mut source, &mut rest);
    }
    Ok((heard, rest))
}

/// What stands behind the frame `E` is unread.
fn rest_of(length: u32) -> [u8; 3] {
    match length {
        116 => *b"z--",
        117 => *b"zz-",
        _ => *b"---",
    }
}

/// The first length to which the feed is cut without that the right thing is told.
fn first_wrong(alloc: Global, step: u16) -> Result<Option<u32>, Fail> {
    for length in 0..118u32 {
        let truncated = FeedFault::Truncated { at: length };
        let wanted = (expected(length, truncated), rest_of(length));
        if in_pieces(alloc, length, step, Fails::Never)? != wanted {
            return Ok(Some(length));
        }
    }
    Ok(None)
}

/// The first of the steps, and of the lengths, by which the right thing isn't told.
fn wrong_pieces(alloc: Global, steps: &[u16]) -> Result<Option<(u16, u32)>, Fail> {
    for step in steps {
        if let Some(length) = first_wrong(alloc, *step)? {
            return Ok(Some((*step, length)));
        }
    }
    Ok(None)
}

#[test]
fn any_pieces(rt: HostRuntime) -> Result<(), Fail> {
    assert_eq!(rt; wrong_pieces(rt.alloc(), &[1, 2, 3, 7, 200])?, None);
    Ok(())
}

/// By single bytes, the first call at which the right thing isn't told where it alone fails.
fn first_hidden(alloc: Global) -> Result<Option<u32>, Fail> {
    for call in 0..WHOLE {
        let calls = Calls::of(Vec::from_slice(alloc, &[call])?);
        let (heard, _) = in_pieces(alloc, 117, 1, Fails::At(calls))?;
        if heard != expected(call, FeedFault::ReadFault) {
            return Ok(Some(call));
        }
    }
    Ok(None)
}

/// What is told of the whole feed where its fields come whole, and each call from one on fails.
fn heard_until(alloc: Global, call: u32) -> Result<Heard, Fail> {
    let (heard, _) = in_pieces(alloc, 115, 200, Fails::From(call))?;
    Ok(heard)
}

/// Fields that come whole take 13 calls, of which the last one is for the length of `E`.
#[test]
fn calls_that_fail(rt: HostRuntime) -> Result<(), Fail> {
    assert_eq!(rt; first_hidden(rt.alloc())?, None);
    let heard = [heard_until(rt.alloc(), 12)?, heard_until(rt.alloc(), 13)?];
    let fault = FeedFault::ReadFault;
    assert!(rt; heard == [expected(111, fault), expected(115, fault)]);
    Ok(())
}
