//! Runs of `node` in which several things are wrong at once: which of them is answered, what was written,
//! read and changed by then.

use crate::status::Status;
use crate::tests::crashes::{FRESH, NODE};
use crate::tests::disks::{EMPTY, Held, Left, TWO, tries_over};
use crate::tests::feed_bytes::{END, feed_of, in_full};
use crate::tests::text::Text;
use crate::tests::{Ends, Rest, Trial, WIDE, Wanted};
use std::alloc::Global;
use std::process::Abort;

/// A feed: these bytes, or the bits, the messages and what follows them.
#[derive(Clone, Copy)]
enum Fed {
    Bytes(&'static [u8]),
    Feed(u8, &'static [u8], &'static [u8]),
}

/// Which calls of the source and of the sink fail.
#[derive(Clone, Copy)]
enum Bad {
    Nothing,
    /// The first read.
    Read,
    /// The first write.
    Write,
    Both,
    /// The read behind the head and a block on one parent, by single bytes.
    ReadBehindABlock,
}

/// A run, what it ends as, and what is said of the disk then.
struct Row {
    name: &'static str,
    words: &'static [u8],
    fed: Fed,
    disk: Held,
    bad_calls: Option<u32>,
    bad: Bad,
    status: Status,
    output: &'static [u8],
    rest: Option<Rest>,
    left: Left,
}

/// Its bits of work are too many.
const BAD_HEAD: Fed = Fed::Feed(65, b"", END);

/// Its head ends early.
const CUT_HEAD: Fed = Fed::Bytes(b"SPCTRF01");

/// A block, and then a kind that there is not.
const BAD_KIND: Fed = Fed::Feed(0, b"A\n", b"Q\0\0\0\0");

/// Genesis has salt 1.
const OTHER_GENESIS: Fed = Fed::Bytes(
    b"SPCTRF01\0B\x14\0\0\0\x01\x01\0\0\0\0\0\0\0\0\0\0\0\0\0\0\0\0\0\0\0E\0\0\0\0",
);

/// The feed of no messages in profile 2.
const SECOND: Fed = Fed::Bytes(
    b"SPCTRF02\0B\x14\0\0\0\x01\0\0\0\0\0\0\0\0\0\0\0\0\0\0\0\0\0\0\0E\0\0\0\0",
);

/// The journal without records in profile 2.
const OF_SECOND: Held = Held::Bytes(
    b"\xa5SPCTRJ02\0\x14\0\0\0\x01\0\0\0\0\0\0\0\0\0\0\0\0\0\0\0\0\0\0\0\0",
);

/// The journal of a chain with other bits.
const OTHER: Held = Held::Journal(1, b"", b"\0");

const TEXT: Held = Held::Bytes(b"# notes\n");

/// Damaged at place 91.
const DAMAGED: Held = Held::Journal(0, b"A", b"");

/// Nothing of `BAD_HEAD` was read.
const UNREAD: Option<Rest> = Some((Some(7), Some(7), *b"1AB\x14\0\0\0", true));

/// Nor was anything of another feed where the first read would fail, or the first write.
const BROKEN: Option<Rest> = Some((None, Some(7), *b"SPCTRF0", false));

/// Of `BAD_KIND` the head was read.
const HEAD_READ: Option<Rest> = Some((Some(7), Some(7), [0; 7], true));

/// And the block.
const BLOCK_READ: Option<Rest> = Some((Some(5), Some(0), *b"Q\0\0\0\0\0\0", true));

/// What is judged first stands first.
#[rattlefmt::skip]
const ROWS: &[Row] = &[
    // The opening comes before all that a feed has.
    Row { name: "no length, and a bad head", words: NODE, fed: BAD_HEAD, disk: TWO, bad_calls: Some(0), bad: Bad::Nothing, status: Status::DiskFault, output: b"", rest: UNREAD, left: Left::AsBefore },
    Row { name: "no sync, and a bad head", words: NODE, fed: BAD_HEAD, disk: TWO, bad_calls: Some(1), bad: Bad::Nothing, status: Status::DiskFault, output: b"", rest: UNREAD, left: Left::AsBefore },
    Row { name: "no read of a damaged journal", words: NODE, fed: BAD_HEAD, disk: DAMAGED, bad_calls: Some(2), bad: Bad::Nothing, status: Status::DiskFault, output: b"", rest: UNREAD, left: Left::AsBefore },
    Row { name: "no sync of a text", words: FRESH, fed: BAD_HEAD, disk: TEXT, bad_calls: Some(1), bad: Bad::Nothing, status: Status::DiskFault, output: b"", rest: UNREAD, left: Left::AsBefore },
    Row { name: "no length, and nothing works", words: NODE, fed: BAD_KIND, disk: TWO, bad_calls: Some(0), bad: Bad::Both, status: Status::DiskFault, output: b"", rest: BROKEN, left: Left::AsBefore },
    Row { name: "a text, and a bad head", words: NODE, fed: BAD_HEAD, disk: TEXT, bad_calls: None, bad: Bad::Nothing, status: Status::NotJournal, output: b"fault not-journal\n", rest: UNREAD, left: Left::AsBefore },
    Row { name: "a text, and no write", words: NODE, fed: BAD_KIND, disk: TEXT, bad_calls: None, bad: Bad::Both, status: Status::WriteFault, output: b"", rest: Some((None, Some(7), *b"SPCTRF0", true)), left: Left::AsBefore },
    Row { name: "damage, and a bad head", words: NODE, fed: BAD_HEAD, disk: DAMAGED, bad_calls: None, bad: Bad::Nothing, status: Status::Damaged, output: b"fault damaged 91\n", rest: UNREAD, left: Left::AsBefore },
    Row { name: "damage in another chain", words: FRESH, fed: Fed::Feed(1, b"", END), disk: DAMAGED, bad_calls: None, bad: Bad::Nothing, status: Status::Damaged, output: b"fault damaged 91\n", rest: Some((Some(7), Some(7), *b"1\x01B\x14\0\0\0", true)), left: Left::AsBefore },
    Row { name: "damage, and no write", words: NODE, fed: BAD_HEAD, disk: DAMAGED, bad_calls: None, bad: Bad::Write, status: Status::WriteFault, output: b"", rest: UNREAD, left: Left::AsBefore },
    // The head comes before another chain and before a creation. An opening of a journal without
    // records has the calls 0 to 3.
    Row { name: "a bad head, and no creation", words: NODE, fed: BAD_HEAD, disk: EMPTY, bad_calls: Some(1), bad: Bad::Nothing, status: Status::Malformed, output: b"fault malformed 8\n", rest: None, left: Left::AsBefore },
    Row { name: "a bad head for a text", words: FRESH, fed: BAD_HEAD, disk: TEXT, bad_calls: Some(3), bad: Bad::Nothing, status: Status::Malformed, output: b"fault malformed 8\n", rest: None, left: Left::AsBefore },
    Row { name: "a bad head for another chain", words: NODE, fed: BAD_HEAD, disk: OTHER, bad_calls: None, bad: Bad::Nothing, status: Status::Malformed, output: b"fault malformed 8\n", rest: None, left: Left::AsBefore },
    Row { name: "a head cut, and no creation", words: NODE, fed: CUT_HEAD, disk: EMPTY, bad_calls: Some(1), bad: Bad::Nothing, status: Status::Truncated, output: b"fault truncated 8\n", rest: None, left: Left::AsBefore },
    Row { name: "no feed at all", words: NODE, fed: Fed::Bytes(b""), disk: EMPTY, bad_calls: Some(1), bad: Bad::Nothing, status: Status::Truncated, output: b"fault truncated 0\n", rest: None, left: Left::AsBefore },
    Row { name: "a head cut for another chain", words: NODE, fed: CUT_HEAD, disk: OTHER, bad_calls: None, bad: Bad::Nothing, status: Status::Truncated, output: b"fault truncated 8\n", rest: None, left: Left::AsBefore },
    Row { name: "no read, and no creation", words: NODE, fed: BAD_KIND, disk: EMPTY, bad_calls: Some(1), bad: Bad::Read, status: Status::ReadFault, output: b"", rest: None, left: Left::AsBefore },
    Row { name: "no read for another chain", words: NODE, fed: BAD_KIND, disk: OTHER, bad_calls: None, bad: Bad::Read, status: Status::ReadFault, output: b"", rest: None, left: Left::AsBefore },
    Row { name: "a bad head, and no write", words: NODE, fed: BAD_HEAD, disk: EMPTY, bad_calls: Some(1), bad: Bad::Write, status: Status::WriteFault, output: b"", rest: None, left: Left::AsBefore },
    Row { name: "a bad head for a journal", words: NODE, fed: BAD_HEAD, disk: TWO, bad_calls: None, bad: Bad::Nothing, status: Status::Malformed, output: b"fault malformed 8\n", rest: None, left: Left::AsBefore },
    // Another chain, and else the creation, come before the messages.
    Row { name: "other bits", words: NODE, fed: BAD_KIND, disk: OTHER, bad_calls: Some(4), bad: Bad::Nothing, status: Status::OtherChain, output: b"fault other-chain 1 G 1 0 G 1\n", rest: HEAD_READ, left: Left::AsBefore },
    Row { name: "other bits, where a new one may be made", words: FRESH, fed: BAD_KIND, disk: OTHER, bad_calls: None, bad: Bad::Nothing, status: Status::OtherChain, output: b"fault other-chain 1 G 1 0 G 1\n", rest: HEAD_READ, left: Left::AsBefore },
    Row { name: "more bits for a journal with blocks", words: NODE, fed: Fed::Feed(64, b"", END), disk: TWO, bad_calls: None, bad: Bad::Nothing, status: Status::OtherChain, output: b"fault other-chain 0 G 1 64 G 1\n", rest: None, left: Left::AsBefore },
    Row { name: "another genesis", words: NODE, fed: OTHER_GENESIS, disk: TWO, bad_calls: None, bad: Bad::Nothing, status: Status::OtherChain, output: b"fault other-chain 0 G 1 0 da774fa5934ac062f6c8dcf0b4747ec0e2cb6783768d13b234df2cf611f24ca5 1\n", rest: None, left: Left::AsBefore },
    Row { name: "both", words: NODE, fed: OTHER_GENESIS, disk: OTHER, bad_calls: None, bad: Bad::Nothing, status: Status::OtherChain, output: b"fault other-chain 1 G 1 0 da774fa5934ac062f6c8dcf0b4747ec0e2cb6783768d13b234df2cf611f24ca5 1\n", rest: None, left: Left::AsBefore },
    Row { name: "a feed of profile 2", words: NODE, fed: SECOND, disk: TWO, bad_calls: None, bad: Bad::Nothing, status: Status::OtherChain, output: b"fault other-chain 0 G 1 0 G 2\n", rest: None, left: Left::AsBefore },
    Row { name: "a journal of profile 2", words: NODE, fed: BAD_KIND, disk: OF_SECOND, bad_calls: None, bad: Bad::Nothing, status: Status::OtherChain, output: b"fault other-chain 0 G 2 0 G 1\n", rest: HEAD_READ, left: Left::AsBefore },
    Row { name: "both of profile 2", words: NODE, fed: SECOND, disk: OF_SECOND, bad_calls: None, bad: Bad::Nothing, status: Status::Done, output: b"", rest: None, left: Left::AsBefore },
    Row { name: "other bits, and no write", words: NODE, fed: BAD_KIND, disk: OTHER, bad_calls: None, bad: Bad::Write, status: Status::WriteFault, output: b"", rest: HEAD_READ, left: Left::AsBefore },
    Row { name: "no creation", words: NODE, fed: BAD_KIND, disk: EMPTY, bad_calls: Some(1), bad: Bad::Nothing, status: Status::DiskFault, output: b"", rest: HEAD_READ, left: Left::Unsaid },
    Row { name: "no end of a creation", words: NODE, fed: BAD_KIND, disk: EMPTY, bad_calls: Some(6), bad: Bad::Write, status: Status::DiskFault, output: b"", rest: Some((Some(7), Some(7), [0; 7], false)), left: Left::Unsaid },
    // The messages one by one. A block on an empty disk has the calls 7 to 10.
    Row { name: "a block and a bad kind", words: NODE, fed: BAD_KIND, disk: EMPTY, bad_calls: Some(11), bad: Bad::Nothing, status: Status::Malformed, output: b"kept A present 1\nfault malformed 91\n", rest: None, left: Left::Unsaid },
    Row { name: "no record, and a bad kind", words: NODE, fed: BAD_KIND, disk: EMPTY, bad_calls: Some(7), bad: Bad::Nothing, status: Status::DiskFault, output: b"", rest: BLOCK_READ, left: Left::Unsaid },
    Row { name: "no end of a record, and no write", words: NODE, fed: BAD_KIND, disk: EMPTY, bad_calls: Some(10), bad: Bad::Write, status: Status::DiskFault, output: b"", rest: Some((Some(5), Some(0), *b"Q\0\0\0\0\0\0", false)), left: Left::Unsaid },
    Row { name: "no write, and a bad kind", words: NODE, fed: BAD_KIND, disk: EMPTY, bad_calls: Some(11), bad: Bad::Write, status: Status::WriteFault, output: b"", rest: BLOCK_READ, left: Left::Unsaid },
    Row { name: "no second record", words: NODE, fed: Fed::Feed(0, b"A\nB\nAB\n", END), disk: EMPTY, bad_calls: Some(11), bad: Bad::Nothing, status: Status::DiskFault, output: b"kept A present 1\n", rest: None, left: Left::Unsaid },
    Row { name: "cut behind a block", words: NODE, fed: Fed::Feed(0, b"A\n", b"E\0\0\0"), disk: EMPTY, bad_calls: Some(11), bad: Bad::Nothing, status: Status::Truncated, output: b"kept A present 1\nfault truncated 95\n", rest: None, left: Left::Unsaid },
    Row { name: "no read behind a block", words: NODE, fed: BAD_KIND, disk: EMPTY, bad_calls: Some(11), bad: Bad::ReadBehindABlock, status: Status::ReadFault, output: b"kept A present 1\n", rest: None, left: Left::Unsaid },
    Row { name: "known blocks, and no disk any more", words: NODE, fed: Fed::Feed(0, b"A\nB\nA\nAB\nG\n", b"Q\0\0\0\0"), disk: TWO, bad_calls: Some(6), bad: Bad::Nothing, status: Status::Malformed, output: b"known A\nknown B\nknown A\nvote A B tie\nrefused parent-count\nfault malformed 299\n", rest: None, left: Left::AsBefore },
    Row { name: "a new block, and no disk any more", words: NODE, fed: Fed::Feed(0, b"A\nC\nB\n", END), disk: TWO, bad_calls: Some(6), bad: Bad::Nothing, status: Status::DiskFault, output: b"known A\n", rest: None, left: Left::Unsaid },
    Row { name: "known blocks alone", words: FRESH, fed: Fed::Feed(0, b"B\nA\n", END), disk: TWO, bad_calls: Some(6), bad: Bad::Nothing, status: Status::Done, output: b"known B\nknown A\n", rest: None, left: Left::AsBefore },
];

/// The ends of a run.
fn ends_of(row: &Row) -> Ends {
    let (given, bad_read, bad_write) = match row.bad {
        Bad::Nothing => (4096, None, None),
        Bad::Read => (4096, Some(0), None),
        Bad::Write => (4096, None, Some(0)),
        Bad::Both => (4096, Some(0), Some(0)),
        Bad::ReadBehindABlock => (1, Some(91), None),
    };
    Ends {
        given,
        bad_read,
        bad_write,
        disk: row.disk,
        bad_calls: row.bad_calls,
        ..WIDE
    }
}

fn bytes_of(alloc: Global, fed: Fed) -> Text {
    match fed {
        Fed::Bytes(bytes) => Text::of(alloc, bytes),
        Fed::Feed(bits, messages, tail) => feed_of(alloc, bits, messages, tail),
    }
}

fn try_row(rt: &impl Abort, alloc: Global, at: usize, row: &Row) {
    let input = bytes_of(alloc, row.fed);
    let output = in_full(alloc, row.output);
    let trial = Trial {
        words: row.words,
        input: input.whole(rt),
        ends: ends_of(row),
    };
    let wanted = Wanted {
        status: row.status,
        lines: 0,
        output: output.whole(rt),
        rest: row.rest,
    };
    tries_over(rt, alloc, (row.name, at), &trial, &wanted, row.left);
}

#[test]
fn the_first_is_answered(rt: HostRuntime) {
    for (at, row) in ROWS.iter().enumerate() {
        try_row(&rt, rt.alloc(), at, row);
    }
}
