//! Feeds that ask for all pairs and for a report, at ends that give little or fail: the smallest one, and
//! one whose answers need more than a page.

use crate::status::Status;
use crate::tests::feed_bytes::{head_of, put_child};
use crate::tests::pages::{Paged, writes_fail};
use crate::tests::paired::{Ordered, put_pairs};
use crate::tests::text::{Text, joined, put_hex};
use crate::tests::{Ends, Rest, Trial, WIDE, Wanted, tries};
use sp_ids::BlockId;
use std::alloc::Global;

/// The smallest feed that asks for a report: the head with the smallest genesis block, the question,
/// and the end.
const SMALLEST: &[u8] = &[
    0x53, 0x50, 0x43, 0x54, 0x52, 0x46, 0x30, 0x31, 0, 0x42, 0x14, 0, 0, 0, 1, 0, 0, 0, 0, 0, 0, 0,
    0, 0, 0, 0, 0, 0, 0, 0, 0, 0, 0, 0, 0x52, 0, 0, 0, 0, 0x45, 0, 0, 0, 0,
];

pub const EMPTY: &[u8] = b"blocks 1 waiting 0\naccepted 0\nbalances 0\n";

/// Ends, the smallest feed with `Zz` behind it, and what a run ends as.
#[rattlefmt::skip]
const ENDED: &[(Ends, Status, &[u8], Rest)] = &[
    // What follows the end stays unread.
    (WIDE, Status::Done, EMPTY, (Some(2), Some(0), *b"Zz\0\0\0\0\0", true)),
    // Also where a read gives a byte.
    (Ends { given: 1, ..WIDE }, Status::Done, EMPTY, (Some(1), Some(1), *b"z\0\0\0\0\0\0", true)),
    // The first read fails. The two that follow give 14 bytes.
    (Ends { bad_read: Some(0), ..WIDE }, Status::ReadFault, b"", (Some(7), Some(7), *b"1\0B\x14\0\0\0", true)),
    // The sink takes nothing. The question is read, and no more.
    (Ends { room: 0, ..WIDE }, Status::WriteFault, b"", (Some(7), Some(0), *b"E\0\0\0\0Zz", false)),
];

#[test]
fn ends_of_the_smallest(rt: HostRuntime) {
    let input = joined(rt.alloc(), SMALLEST, b"Zz");
    for (at, (ends, status, output, rest)) in ENDED.iter().enumerate() {
        let trial = Trial {
            words: b"replay",
            input: input.whole(&rt),
            ends: *ends,
        };
        let wanted = Wanted {
            status: *status,
            lines: 0,
            output,
            rest: Some(*rest),
        };
        tries(&rt, rt.alloc(), "ends", at, &trial, &wanted);
    }
}

/// Asks for all pairs and for a report, and ends.
pub const BOTH: &[u8] = b"P\0\0\0\0R\0\0\0\0E\0\0\0\0";

/// The places in the order of their ids of genesis and a chain of eight blocks, with the salts 1 to 8
/// and the nonce 0. The ids are SHA-256 by another program.
const ASCENDING: &[u8] = &[5, 0, 2, 4, 6, 3, 1, 7, 8];

/// A feed of a chain of blocks, their ids, and the answers.
#[derive(Drop)]
struct Chain {
    feed: Text,
    ids: Text,
    answers: Text,
}

fn put_next(chain: &mut Chain, salt: u16) {
    put_child(&mut chain.feed, salt, chain.ids.end(32));
    let id = BlockId::of(chain.feed.end(52));
    chain.ids.put(id.as_bytes());
    chain.answers.put(b"kept ");
    put_hex(&mut chain.answers, id.as_bytes());
    chain.answers.put(b" present 1\n");
}

/// Genesis alone.
fn genesis(alloc: Global) -> Chain {
    let feed = head_of(alloc, 0);
    let id = BlockId::of(feed.end(20));
    Chain {
        feed,
        ids: Text::of(alloc, id.as_bytes()),
        answers: Text::new(alloc),
    }
}

fn put_questions(chain: &mut Chain) {
    chain.feed.put(BOTH);
    chain.answers.put(b"pairs 36\n");
    let blocks = Ordered {
        ids: chain.ids.so_far(),
        ascending: ASCENDING,
        tied: (0, 0),
    };
    put_pairs(&mut chain.answers, &blocks);
    chain
        .answers
        .put(b"blocks 9 waiting 0\naccepted 0\nbalances 0\n");
}

fn chain_of_eight(alloc: Global) -> Chain {
    let mut chain = genesis(alloc);
    for salt in 1..9u16 {
        put_next(&mut chain, salt);
    }
    put_questions(&mut chain);
    chain
}

/// The most bytes that a write takes, and how many there are at least: the lines of eight blocks,
/// two pages of pairs and one of a report are written apart.
const WRITES: &[(u16, u32)] = &[(65535, 11), (1000, 15), (61, 102)];

#[test]
fn pages(rt: HostRuntime) {
    let chain = chain_of_eight(rt.alloc());
    let paged = Paged {
        words: b"replay",
        input: chain.feed.whole(&rt),
        output: chain.answers.whole(&rt),
    };
    writes_fail(&rt, rt.alloc(), &paged, WRITES);
}
