//! Runs whose source and sink give and take in pieces, or fail at each of their calls in turn: the
//! same trials for every input, of a scenario and of a feed.

use crate::status::Status;
use crate::tests::disks::Held;
use crate::tests::{Ends, Trial, WIDE, Wanted, tries};
use std::alloc::Global;
use std::process::Abort;

/// An input, and what a run on it ends as.
#[derive(Clone, Copy)]
pub struct Stream<'a> {
    pub name: &'a str,
    pub words: &'a [u8],
    pub input: &'a [u8],
    /// How many reads are made of a source that gives a byte a call.
    pub reads: u32,
    pub status: Status,
    pub output: &'a [u8],
    /// Where the output grows before the input is at its end: so many bytes are read, and so many
    /// are written then.
    pub growth: &'a [(u32, usize)],
    pub disk: Held,
}

/// The ends at which nothing fails.
fn wide(stream: &Stream) -> Ends {
    Ends {
        disk: stream.disk,
        ..WIDE
    }
}

/// How much is written once so many bytes were read and the next read failed.
pub fn written_by(growth: &[(u32, usize)], read: u32) -> usize {
    let mut written = 0;
    for (from, length) in growth {
        if *from <= read {
            written = *length;
        }
    }
    written
}

/// Runs with these ends, and compares with the front of this length of the output.
fn gives(
    rt: &impl Abort,
    alloc: Global,
    stream: &Stream,
    ends: Ends,
    status: Status,
    length: usize,
) {
    let trial = Trial {
        words: stream.words,
        input: stream.input,
        ends,
    };
    let wanted = Wanted {
        status,
        lines: 0,
        output: stream.output.get(..length).unwrap_or(b"?"),
        rest: None,
    };
    tries(rt, alloc, stream.name, length, &trial, &wanted);
}

/// Each read fails in turn, of a source that gives a byte a call, and then one that is never made.
fn reads_fail(rt: &impl Abort, alloc: Global, stream: &Stream) {
    for call in 0..=stream.reads {
        let ends = Ends {
            given: 1,
            bad_read: Some(call),
            ..wide(stream)
        };
        let (status, length) = if call < stream.reads {
            (Status::ReadFault, written_by(stream.growth, call))
        } else {
            (stream.status, stream.output.len())
        };
        gives(rt, alloc, stream, ends, status, length);
    }
}

/// The sink takes so many bytes and no more, which is just enough where that is the whole output: the
/// write of this number fails, a byte a call, or there is room for as many bytes, in pieces.
fn sinks_fail_at(rt: &impl Abort, alloc: Global, stream: &Stream, at: u32) {
    let length = at as usize;
    let status = if length < stream.output.len() {
        Status::WriteFault
    } else {
        stream.status
    };
    let bytewise = Ends {
        taken: 1,
        bad_write: Some(at),
        ..wide(stream)
    };
    gives(rt, alloc, stream, bytewise, status, length);
    let narrow = Ends {
        taken: 10,
        room: length,
        ..wide(stream)
    };
    gives(rt, alloc, stream, narrow, status, length);
}

/// Each write fails in turn and each lack of room comes, and then there is just enough room.
fn writes_fail(rt: &impl Abort, alloc: Global, stream: &Stream) {
    for at in 0..=u32::try_from(stream.output.len()).unwrap_or(0) {
        sinks_fail_at(rt, alloc, stream, at);
    }
}

/// The bytes of a read and of a write.
const SIZES: &[u16] = &[1, 2, 3, 7, 4096];

/// Pieces of each size, given and taken.
fn in_pieces(rt: &impl Abort, alloc: Global, stream: &Stream) {
    for given in SIZES {
        for taken in SIZES {
            let ends = Ends {
                given: *given,
                taken: *taken,
                ..wide(stream)
            };
            gives(rt, alloc, stream, ends, stream.status, stream.output.len());
        }
    }
}

/// All of these trials.
pub fn try_all(rt: &impl Abort, alloc: Global, stream: &Stream) {
    in_pieces(rt, alloc, stream);
    reads_fail(rt, alloc, stream);
    writes_fail(rt, alloc, stream);
}
