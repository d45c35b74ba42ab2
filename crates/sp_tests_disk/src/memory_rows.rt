//! Rows of calls of a disk in memory, with their answers and the outcomes of a crash behind the last
//! one, written down by hand.

use sp_io::Failed;

/// Which calls fail: none, these two, or each from one on.
#[derive(Clone, Copy)]
pub enum Plan {
    Never,
    At(u32, u32),
    From(u32),
}

/// A call: a length, a read of so many bytes, at most eight, a write, or a sync.
#[derive(Clone, Copy)]
pub enum Try {
    Len,
    Read(u64, usize),
    Write(u64, &'static [u8]),
    Sync,
}

/// The length or the number of bytes read; 0 of a write or a sync.
pub type Answer = Result<usize, Failed>;

pub const FAULT: Answer = Err(Failed);

/// A disk with these bytes, capacity, number of calls and plan.
#[derive(Clone, Copy)]
pub struct Row {
    pub start: &'static [u8],
    pub capacity: usize,
    pub calls: u32,
    pub plan: Plan,
    pub tries: &'static [Try],
    pub answers: &'static [Answer],
    // The outcomes old, new, and filled with b'-'.
    pub images: [&'static [u8]; 3],
}

pub const ROWS: &[Row] = &[
    // A write amid the bytes.
    Row {
        start: b"abcde",
        capacity: 8,
        calls: 9,
        plan: Plan::Never,
        tries: &[Try::Len, Try::Write(1, b"xyz"), Try::Len, Try::Read(0, 8)],
        answers: &[Ok(5), Ok(0), Ok(5), Ok(5)],
        images: [b"abcde", b"axyze", b"a---e"],
    },
    // One behind the end.
    Row {
        start: b"ab",
        capacity: 8,
        calls: 9,
        plan: Plan::Never,
        tries: &[Try::Write(2, b"cd"), Try::Len],
        answers: &[Ok(0), Ok(4)],
        images: [b"ab", b"abcd", b"ab--"],
    },
    // A sync between two writes, the second of them over the end.
    Row {
        start: b"abc",
        capacity: 8,
        calls: 9,
        plan: Plan::Never,
        tries: &[Try::Write(0, b"x"), Try::Sync, Try::Write(2, b"yz")],
        answers: &[Ok(0), Ok(0), Ok(0)],
        images: [b"xbc", b"xbyz", b"xb--"],
    },
    // A write that is planned to fail is never done, and its range is pending.
    Row {
        start: b"abc",
        capacity: 8,
        calls: 9,
        plan: Plan::At(1, 9),
        tries: &[Try::Len, Try::Write(1, b"xyz"), Try::Len],
        answers: &[Ok(3), FAULT, Ok(3)],
        images: [b"abc", b"abc", b"a---"],
    },
    // A sync that fails, and then one that succeeds.
    Row {
        start: b"abc",
        capacity: 8,
        calls: 9,
        plan: Plan::At(1, 9),
        tries: &[Try::Write(0, b"x"), Try::Sync],
        answers: &[Ok(0), FAULT],
        images: [b"abc", b"xbc", b"-bc"],
    },
    Row {
        start: b"abc",
        capacity: 8,
        calls: 9,
        plan: Plan::At(1, 9),
        tries: &[Try::Write(0, b"x"), Try::Sync, Try::Sync],
        answers: &[Ok(0), FAULT, Ok(0)],
        images: [b"xbc", b"xbc", b"xbc"],
    },
    // A write that ends past the capacity leaves nothing; one that ends at it is done.
    Row {
        start: b"abc",
        capacity: 4,
        calls: 9,
        plan: Plan::Never,
        tries: &[
            Try::Write(3, b"xy"),
            Try::Write(1, b"wxyz"),
            Try::Write(3, b"x"),
        ],
        answers: &[FAULT, FAULT, Ok(0)],
        images: [b"abc", b"abcx", b"abc-"],
    },
    // All writes together.
    Row {
        start: b"abc",
        capacity: 4,
        calls: 9,
        plan: Plan::Never,
        tries: &[
            Try::Write(0, b"xy"),
            Try::Write(0, b"xyz"),
            Try::Write(1, b"zz"),
            Try::Write(0, b""),
            Try::Write(0, b"w"),
        ],
        answers: &[Ok(0), FAULT, Ok(0), Ok(0), FAULT],
        images: [b"abc", b"xzz", b"---"],
    },
    // Those that are planned to fail among them.
    Row {
        start: b"abc",
        capacity: 4,
        calls: 9,
        plan: Plan::At(0, 9),
        tries: &[
            Try::Write(0, b"xyz"),
            Try::Write(0, b"zz"),
            Try::Write(0, b"z"),
        ],
        answers: &[FAULT, FAULT, Ok(0)],
        images: [b"abc", b"zbc", b"---"],
    },
    // Planned to fail, and without room: nothing is pending.
    Row {
        start: b"abc",
        capacity: 3,
        calls: 9,
        plan: Plan::At(0, 9),
        tries: &[Try::Write(2, b"xy")],
        answers: &[FAULT],
        images: [b"abc", b"abc", b"abc"],
    },
    // Calls past the number that is recorded.
    Row {
        start: b"abc",
        capacity: 8,
        calls: 2,
        plan: Plan::Never,
        tries: &[
            Try::Len,
            Try::Write(0, b"x"),
            Try::Sync,
            Try::Len,
            Try::Write(0, b"y"),
        ],
        answers: &[Ok(3), Ok(0), FAULT, FAULT, FAULT],
        images: [b"abc", b"xbc", b"-bc"],
    },
    // A call that failed for want of room is one of them, and so is one that was planned to fail.
    Row {
        start: b"abc",
        capacity: 3,
        calls: 3,
        plan: Plan::At(1, 9),
        tries: &[Try::Write(3, b"x"), Try::Len, Try::Len, Try::Len],
        answers: &[FAULT, FAULT, Ok(3), FAULT],
        images: [b"abc", b"abc", b"abc"],
    },
    // Nothing but faults from a call on.
    Row {
        start: b"abc",
        capacity: 8,
        calls: 9,
        plan: Plan::From(1),
        tries: &[
            Try::Write(3, b"x"),
            Try::Len,
            Try::Read(0, 1),
            Try::Write(0, b"yz"),
            Try::Sync,
        ],
        answers: &[Ok(0), FAULT, FAULT, FAULT, FAULT],
        images: [b"abc", b"abcx", b"--c-"],
    },
    // No call at all.
    Row {
        start: b"abc",
        capacity: 3,
        calls: 0,
        plan: Plan::Never,
        tries: &[Try::Len, Try::Read(0, 1), Try::Write(0, b""), Try::Sync],
        answers: &[FAULT, FAULT, FAULT, FAULT],
        images: [b"abc", b"abc", b"abc"],
    },
    // No bytes and no room.
    Row {
        start: b"",
        capacity: 0,
        calls: 9,
        plan: Plan::Never,
        tries: &[
            Try::Len,
            Try::Write(0, b""),
            Try::Write(0, b"x"),
            Try::Sync,
            Try::Read(0, 8),
        ],
        answers: &[Ok(0), Ok(0), FAULT, Ok(0), Ok(0)],
        images: [b"", b"", b""],
    },
    // Reads at the end, past it, and into no room.
    Row {
        start: b"abc",
        capacity: 3,
        calls: 5,
        plan: Plan::Never,
        tries: &[
            Try::Read(2, 8),
            Try::Read(3, 8),
            Try::Read(18446744073709551615, 8),
            Try::Read(0, 0),
            Try::Read(0, 2),
        ],
        answers: &[Ok(1), Ok(0), Ok(0), Ok(0), Ok(2)],
        images: [b"abc", b"abc", b"abc"],
    },
];
