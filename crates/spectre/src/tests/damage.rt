//! Journals that are damaged: each cause, at the place of the record's gate, by the commands that open
//! one, which leave it as it is and read nothing of a feed.

use crate::status::Status;
use crate::tests::crashes::{EXPORT_SECOND, FRESH, NODE, SHOW};
use crate::tests::disks::{EMPTY, Held, Left, bytes_of, tries_on};
use crate::tests::feed_bytes::{head_of, put_front};
use crate::tests::text::{Text, joined};
use crate::tests::{Ends, Rest, Trial, WIDE, Wanted};
use sp_ids::BlockId;
use std::alloc::Global;
use std::process::Abort;

/// A journal, and the line of its damage.
type Damage = (&'static str, Held, &'static [u8]);

/// The head has 34 bytes, and each record of a block on one parent 57.
#[rattlefmt::skip]
const DAMAGES: &[Damage] = &[
    ("the disk ends behind the head", Held::Journal(0, b"", b""), b"fault damaged 34\n"),
    ("the disk ends behind a record", Held::Journal(0, b"A", b""), b"fault damaged 91\n"),
    ("the disk ends behind two records", Held::Journal(0, b"AB", b""), b"fault damaged 148\n"),
    ("a gate alone", Held::Journal(0, b"", b"\xa5"), b"fault damaged 34\n"),
    ("the length is cut", Held::Journal(0, b"A", b"\xa5\x34\0\0"), b"fault damaged 91\n"),
    ("no body", Held::Journal(0, b"", b"\xa5\x34\0\0\0"), b"fault damaged 34\n"),
    ("the body is cut", Held::Journal(0, b"", b"\xa5\x34\0\0\0\x01\x05\0\0"), b"fault damaged 34\n"),
    ("the second body is cut", Held::Journal(0, b"B", b"\xa5\x34\0\0\0\x01\x05\0\0"), b"fault damaged 91\n"),
    ("a length of 65,537", Held::Journal(0, b"", b"\xa5\x01\0\x01\0"), b"fault damaged 34\n"),
    ("the greatest length", Held::Journal(0, b"A", b"\xa5\xff\xff\xff\xff\0\0\0"), b"fault damaged 91\n"),
    ("an empty body", Held::Journal(0, b"", b"\xa5\0\0\0\0\0"), b"fault damaged 34\n"),
    ("another version", Held::Journal(0, b"", b"\xa5\x01\0\0\0\x02\0"), b"fault damaged 34\n"),
    ("the genesis block", Held::Journal(0, b"A", b"\xa5\x14\0\0\0\x01\0\0\0\0\0\0\0\0\0\0\0\0\0\0\0\0\0\0\0\0"), b"fault damaged 91\n"),
    ("a record twice", Held::Journal(0, b"AA", b"\0"), b"fault damaged 91\n"),
    ("an earlier record again", Held::Journal(0, b"ABA", b"\0"), b"fault damaged 148\n"),
    ("no work", Held::Journal(1, b"A", b"\0"), b"fault damaged 34\n"),
    ("no work in the second record", Held::Journal(1, b"BA", b"\0"), b"fault damaged 91\n"),
    ("the first of two causes", Held::Journal(0, b"AAA", b"\xa5\0\0"), b"fault damaged 91\n"),
];

/// Nothing of a feed was read.
const UNREAD: Rest = (Some(7), Some(7), *b"1\0B\x14\0\0\0", true);

/// Runs these words over these bytes, which stay.
fn finds(
    rt: &impl Abort,
    alloc: Global,
    name: (&str, usize),
    words: &[u8],
    bytes: &[u8],
    (status, line): (Status, &[u8]),
) {
    let input = head_of(alloc, 0);
    let trial = Trial {
        words,
        input: input.whole(rt),
        ends: Ends {
            disk: EMPTY,
            ..WIDE
        },
    };
    let wanted = Wanted {
        status,
        lines: 0,
        output: line,
        rest: Some(UNREAD),
    };
    tries_on(rt, alloc, name, &trial, &wanted, bytes, Left::AsBefore);
}

const ALL: &[&[u8]] = &[NODE, FRESH, SHOW, EXPORT_SECOND];

#[test]
fn each_cause(rt: HostRuntime) {
    for (name, held, line) in DAMAGES {
        let bytes = bytes_of(rt.alloc(), *held);
        let wanted = (Status::Damaged, *line);
        for (at, words) in ALL.iter().enumerate() {
            finds(&rt, rt.alloc(), (name, at), words, bytes.whole(&rt), wanted);
        }
    }
}

/// What holds no damage, though the one or the other looks like it: blocks whose parents never come,
/// and whatever stands behind a closed gate.
#[rattlefmt::skip]
const WHOLE: &[(Held, &[u8])] = &[
    (Held::Journal(0, b"", b"\0"), b"recovered 0\nblocks 1 waiting 0\naccepted 0\nbalances 0\n"),
    (Held::Journal(0, b"FW", b"\x01"), b"recovered 2\nblocks 1 waiting 2\naccepted 0\nbalances 0\n"),
    (Held::Journal(0, b"FA", b"\xa4\xa5\x34\0\0\0"), b"recovered 2\nblocks 3 waiting 0\naccepted 0\nbalances 0\n"),
    (Held::Journal(1, b"B", b"\0"), b"recovered 1\nblocks 2 waiting 0\naccepted 0\nbalances 0\n"),
    (Held::Journal(64, b"", b"\0\xff"), b"recovered 0\nblocks 1 waiting 0\naccepted 0\nbalances 0\n"),
];

#[test]
fn no_damage(rt: HostRuntime) {
    for (at, (held, output)) in WHOLE.iter().enumerate() {
        let bytes = bytes_of(rt.alloc(), *held);
        let wanted = (Status::Done, *output);
        finds(
            &rt,
            rt.alloc(),
            ("whole", at),
            SHOW,
            bytes.whole(&rt),
            wanted,
        );
    }
}

/// The record of a block of this salt on one parent.
fn put_salted(out: &mut Text, salt: u8, parent: &[u8]) {
    out.put(b"\xa5\x34\0\0\0");
    put_front(out, u16::from(salt), 1);
    out.put(parent);
    out.put(&[0; 2]);
}

/// A journal of 511 records, of the blocks on genesis and on an unknown one, of all salts but 0 on genesis:
/// up to the place of the gate behind them, which is 34 + 511 * 57.
fn records_of_511(alloc: Global) -> Text {
    let genesis = BlockId::of(head_of(alloc, 0).end(20));
    let mut bytes = bytes_of(alloc, Held::Journal(0, b"", b""));
    put_salted(&mut bytes, 0, &[7; 32]);
    for salt in 1..=255u8 {
        put_salted(&mut bytes, salt, genesis.as_bytes());
        put_salted(&mut bytes, salt, &[7; 32]);
    }
    bytes
}

/// What is tried there: its name, the words, and the bytes.
#[rattlefmt::skip]
const BEHIND: &[(&str, &[u8], &[u8])] = &[
    ("no gate", SHOW, b""),
    ("an open gate", SHOW, b"\xa5"),
    ("an open gate", NODE, b"\xa5"),
    ("a record that is cut", FRESH, b"\xa5\xa5\x34\0\0\0\x01"),
    // Of a block with salt 9 on an unknown one; and the end of a feed behind it.
    ("a record", FRESH, b"\xa5\x34\0\0\0\x01\x09\0\0\0\0\0\0\0\0\0\0\0\0\0\0\0\x01\x09\x09\x09\x09\x09\x09\x09\x09\x09\x09\x09\x09\x09\x09\x09\x09\x09\x09\x09\x09\x09\x09\x09\x09\x09\x09\x09\x09\x09\x09\x09\x09\0\0E\0\0\0\0"),
];

/// Runs these words over the records and what stands behind them.
fn finds_behind(
    rt: &impl Abort,
    alloc: Global,
    name: &str,
    words: &[u8],
    records: &[u8],
    behind: &[u8],
) {
    let bytes = joined(alloc, records, behind);
    let wanted = (Status::Damaged, b"fault damaged 29161\n".as_slice());
    finds(rt, alloc, (name, 511), words, bytes.whole(rt), wanted);
}

/// Behind 511 records no gate may be open.
#[test]
fn behind_511_records(rt: HostRuntime) {
    let alloc = rt.alloc();
    let records = records_of_511(alloc);
    let records = records.whole(&rt);
    for (name, words, behind) in BEHIND {
        finds_behind(&rt, alloc, name, words, records, behind);
    }
}
