//! Two blocks sent to a node while the calls of its disk fail from each one on: what is acknowledged,
//! what `show` finds after each crash, and that a second run goes on from there.

use crate::status::Status;
use crate::tests::disks::{EMPTY, Left, PICKS, image_of, runs_on, tried_on};
use crate::tests::feed_bytes::{END, feed_of, in_full};
use crate::tests::text::Text;
use crate::tests::{Ends, Trial, WIDE, Wanted};
use sp_disk::MemDisk;
use std::alloc::Global;
use std::process::Abort;

pub const NODE: &[u8] = b"node\nf";

pub const FRESH: &[u8] = b"node\n--fresh\nf";

pub const SHOW: &[u8] = b"show\nf";

pub const EXPORT: &[u8] = b"export\nf\n1";

pub const EXPORT_SECOND: &[u8] = b"export\nf\n2";

/// The feed of the two blocks.
pub fn both(alloc: Global) -> Text {
    feed_of(alloc, 0, b"A\nB\n", END)
}

/// The lines of the first blocks.
pub fn kept(count: usize) -> &'static [u8] {
    match count {
        0 => b"",
        1 => b"kept A present 1\n",
        _ => b"kept A present 1\nkept B present 1\n",
    }
}

/// What is shown of a journal of none, one or both of the blocks.
const SHOWN: &[(u8, &[u8])] = &[
    (
        b'0',
        b"recovered 0\nblocks 1 waiting 0\naccepted 0\nbalances 0\n",
    ),
    (
        b'1',
        b"recovered 1\nblocks 2 waiting 0\naccepted 0\nbalances 0\n",
    ),
    (
        b'2',
        b"recovered 2\nblocks 3 waiting 0\naccepted 0\nbalances 0\n",
    ),
];

/// The number of blocks that is shown, as a digit.
fn digit_of(output: &[u8]) -> u8 {
    for (digit, text) in SHOWN {
        if output == *text {
            return *digit;
        }
    }
    b'?'
}

/// What `show` says, as a letter: of an empty disk, of no journal, the number of blocks, or anything else.
fn letter(status: Status, output: &[u8], is_empty: bool) -> u8 {
    if status == Status::Done {
        digit_of(output)
    } else if status != Status::NotJournal || output != b"fault not-journal\n".as_slice() {
        b'?'
    } else if is_empty {
        b'e'
    } else {
        b'n'
    }
}

/// What `show` says of these bytes, which it leaves.
fn letter_of(rt: &impl Abort, alloc: Global, image: &[u8]) -> u8 {
    let (ended, left) = runs_on(rt, alloc, SHOW, b"", image);
    let letter = letter(ended.status, ended.output.whole(rt), image.is_empty());
    if left.as_slice() == image {
        letter
    } else {
        b'?'
    }
}

/// What each crash leaves now.
pub fn letters_of(rt: &impl Abort, alloc: Global, disk: &MemDisk) -> [u8; 4] {
    let mut all = [b'?'; 4];
    for (letter, pick) in all.iter_mut().zip(PICKS) {
        let image = image_of(rt, disk, *pick);
        *letter = letter_of(rt, alloc, image.as_slice());
    }
    all
}

/// How the same feed is answered once more, where this was left.
fn wanted_again(fresh: bool, letter: u8) -> (Status, &'static [u8]) {
    if letter == b'n' && !fresh {
        return (Status::NotJournal, b"fault not-journal\n");
    }
    let lines: &[u8] = match letter {
        b'1' => b"known A\nkept B present 1\n",
        b'2' => b"known A\nknown B\n",
        _ => kept(2),
    };
    (Status::Done, lines)
}

/// It is answered so on these bytes, and both blocks are there then, or the bytes stay.
fn again(rt: &impl Abort, alloc: Global, call: u32, fresh: bool, image: &[u8]) {
    let (status, lines) = wanted_again(fresh, letter_of(rt, alloc, image));
    let words = if fresh { FRESH } else { NODE };
    let left = if status == Status::Done {
        Left::Found(b"2222")
    } else {
        Left::AsBefore
    };
    let name = ("again", call);
    let _ = answered_both(rt, alloc, name, words, (status, lines), None, image, left);
}

/// Sends both blocks over a disk with these bytes whose calls fail from one on, compares how they are
/// answered and what is left, and answers the disk.
fn answered_both(
    rt: &impl Abort,
    alloc: Global,
    (name, call): (&str, u32),
    words: &[u8],
    (status, lines): (Status, &[u8]),
    bad_calls: Option<u32>,
    bytes: &[u8],
    left: Left,
) -> MemDisk {
    let input = both(alloc);
    let output = in_full(alloc, lines);
    let trial = Trial {
        words,
        input: input.whole(rt),
        ends: Ends {
            disk: EMPTY,
            bad_calls,
            ..WIDE
        },
    };
    let wanted = Wanted {
        status,
        lines: 0,
        output: output.whole(rt),
        rest: None,
    };
    let name = (name, call as usize);
    tried_on(rt, alloc, name, &trial, &wanted, bytes, left)
}

/// So it is on what each crash leaves now.
fn goes_on(rt: &impl Abort, alloc: Global, call: u32, disk: &MemDisk) {
    for pick in PICKS {
        let image = image_of(rt, disk, *pick);
        again(rt, alloc, call, false, image.as_slice());
        again(rt, alloc, call, true, image.as_slice());
    }
}

/// The first call that fails, the number of lines that are written, and what each crash leaves.
pub type Row = (u32, usize, &'static [u8]);

/// The calls of a run over a disk: its words, what stands there, the number of all calls, and that of
/// those up to the last one of a creation; and what is left where they fail.
#[derive(Clone, Copy)]
pub struct Sequence {
    pub words: &'static [u8],
    pub bytes: &'static [u8],
    pub calls: u32,
    pub made: u32,
    pub rows: &'static [Row],
}

/// Whether a crash may leave this where this call failed and so many lines were written: no journal only
/// up to the last call of a creation, and else each block whose line was written.
fn is_lawful(sequence: &Sequence, call: u32, lines: usize, letter: u8) -> bool {
    match letter {
        b'e' | b'n' => call < sequence.made,
        b'0' => lines == 0,
        b'1' => lines <= 1,
        b'2' => true,
        _ => false,
    }
}

fn is_all_lawful(sequence: &Sequence, call: u32, lines: usize, letters: &[u8]) -> bool {
    for letter in letters {
        if !is_lawful(sequence, call, lines, *letter) {
            return false;
        }
    }
    true
}

/// Runs while the disk's calls fail from this one on, and goes on from what each crash leaves.
fn fails_from(rt: &impl Abort, alloc: Global, sequence: &Sequence, (call, lines, letters): Row) {
    let status = if call < sequence.calls {
        Status::DiskFault
    } else {
        Status::Done
    };
    let disk = answered_both(
        rt,
        alloc,
        ("call", call),
        sequence.words,
        (status, kept(lines)),
        Some(call),
        sequence.bytes,
        Left::Found(letters),
    );
    let is_lawful = is_all_lawful(sequence, call, lines, letters);
    assert!(rt; is_lawful, "call {call}");
    goes_on(rt, alloc, call, &disk);
}

/// Each row of a sequence.
pub fn fails_at_each(rt: &impl Abort, alloc: Global, sequence: &Sequence) {
    for row in sequence.rows {
        fails_from(rt, alloc, sequence, *row);
    }
}

/// On an empty disk call 0 asks for the length, 1 to 6 make the journal, and each block has four.
const ON_EMPTY: Sequence = Sequence {
    words: NODE,
    bytes: b"",
    calls: 15,
    made: 7,
    rows: FAILING,
};

/// By hand, of the outcomes in which the pending writes are undone, done, and filled with 0 and with the
/// byte of an open gate.
const FAILING: &[Row] = &[
    (0, 0, b"eeee"),
    (1, 0, b"eenn"),
    (2, 0, b"ennn"),
    (3, 0, b"nnnn"),
    (4, 0, b"nnnn"),
    (5, 0, b"nnn0"),
    (6, 0, b"n0n0"),
    (7, 0, b"0000"),
    (8, 0, b"0000"),
    (9, 0, b"0001"),
    (10, 0, b"0101"),
    (11, 1, b"1111"),
    (12, 1, b"1111"),
    (13, 1, b"1112"),
    (14, 1, b"1212"),
    (15, 2, b"2222"),
];

#[test]
fn each_call_failing(rt: HostRuntime) {
    fails_at_each(&rt, rt.alloc(), &ON_EMPTY);
}
