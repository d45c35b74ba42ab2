//! Forty blocks with payments, and all that is to be said of them, in ten orders. The two chains of
//! these blocks spend the same grants, and the longer one comes first.

use crate::status::Status;
use crate::tests::ends_as;
use crate::tests::feed_bytes::{END, put_front, put_kind};
use crate::tests::paired::{Ordered, id_at, put_pairs};
use crate::tests::text::{Text, put_hex, put_number};
use crate::tests::transfers::{TXS, balance_of, is_accepted, put_txs, tx_ids};
use sp_ids::{BlockId, Lock};
use std::alloc::Global;

/// The numbers of the accepted transactions in the order of their ids, by another program.
const ACCEPTED: &[u8] = &[
    21, 4, 33, 3, 5, 2, 7, 6, 23, 18, 22, 0, 19, 34, 24, 17, 20, 1, 8,
];

/// The words under whose locks anything is left, in the order of the locks, by another program.
const PAID: &[u8] = &[10, 9, 81, 14, 65, 80, 67, 13, 64, 15, 66, 11, 12];

/// The numbers of the blocks in the order of their ids, by another program.
const ASCENDING: &[u8] = &[
    34, 1, 21, 17, 10, 25, 19, 32, 2, 12, 37, 18, 26, 39, 22, 27, 28, 38, 40, 20, 33, 29, 8, 16,
    31, 13, 0, 14, 5, 3, 30, 11, 4, 23, 35, 15, 7, 6, 24, 9, 36,
];

/// The words whose locks are asked for.
const WORDS: u8 = 85;

/// The ids of the transactions and of the blocks, each one behind another.
#[derive(Drop)]
struct Ids {
    txs: Text,
    blocks: Text,
}

/// The block that a block stands on. The one that joins the chains stands on the end of the shorter
/// one, and on that of the longer one as well.
fn parent_of(block: u8) -> u8 {
    match block {
        21 => 0,
        40 => 38,
        _ => block.saturating_sub(1),
    }
}

/// What a block begins with, up to its parents, which are ascending by id.
fn put_parents(out: &mut Text, blocks: &[u8], block: u8) {
    let salt = u16::from(block);
    match block {
        0 => put_front(out, salt, 0),
        38 => {
            put_front(out, salt, 2);
            out.put(id_at(blocks, 37));
            out.put(id_at(blocks, 20));
        }
        _ => {
            put_front(out, salt, 1);
            out.put(id_at(blocks, parent_of(block)));
        }
    }
}

/// The bytes of a block, by the ids of those before it.
fn block_of(alloc: Global, ids: &Ids, block: u8) -> Text {
    let mut bytes = Text::new(alloc);
    put_parents(&mut bytes, ids.blocks.so_far(), block);
    put_txs(&mut bytes, ids.txs.so_far(), block);
    bytes
}

fn all_ids(alloc: Global) -> Ids {
    let mut ids = Ids {
        txs: tx_ids(alloc),
        blocks: Text::new(alloc),
    };
    for block in 0..41u8 {
        let bytes = block_of(alloc, &ids, block);
        let id = BlockId::of(bytes.so_far());
        ids.blocks.put(id.as_bytes());
    }
    ids
}

/// The frame that sends a block.
fn put_block(out: &mut Text, alloc: Global, ids: &Ids, block: u8) {
    let bytes = block_of(alloc, ids, block);
    put_kind(out, b'B', u32::try_from(bytes.len()).unwrap_or(0));
    out.put(bytes.so_far());
}

/// Asks for each transaction and each balance, a report and all pairs, and ends.
fn put_questions(out: &mut Text, ids: &Ids) {
    for number in 0..TXS {
        put_kind(out, b'T', 32);
        out.put(id_at(ids.txs.so_far(), number));
    }
    for word in 0..WORDS {
        put_kind(out, b'U', 32);
        out.put(Lock::of(&[word]).as_bytes());
    }
    put_kind(out, b'R', 0);
    put_kind(out, b'P', 0);
    out.put(END);
}

fn put_state(out: &mut Text, ids: &Ids, number: u8) {
    out.put(b"tx ");
    put_hex(out, id_at(ids.txs.so_far(), number));
    if is_accepted(number) {
        out.put(b" accepted\n");
    } else {
        out.put(b" rejected\n");
    }
}

fn put_balance(out: &mut Text, word: u8) {
    out.put(b"balance ");
    put_hex(out, Lock::of(&[word]).as_bytes());
    out.put(b" ");
    put_number(out, u16::from(balance_of(word)));
    out.put(b"\n");
}

/// The answers to the questions on transactions and on balances.
fn put_answers(out: &mut Text, ids: &Ids) {
    for number in 0..TXS {
        put_state(out, ids, number);
    }
    for word in 0..WORDS {
        put_balance(out, word);
    }
}

fn put_report(out: &mut Text, ids: &Ids) {
    out.put(b"blocks 41 waiting 0\naccepted 19\n");
    for number in ACCEPTED {
        put_state(out, ids, *number);
    }
    out.put(b"balances 13\n");
    for word in PAID {
        put_balance(out, *word);
    }
}

/// All answers behind the lines of the blocks.
fn answers(alloc: Global, ids: &Ids) -> Text {
    let mut out = Text::new(alloc);
    let blocks = Ordered {
        ids: ids.blocks.so_far(),
        ascending: ASCENDING,
        tied: (39, 40),
    };
    put_answers(&mut out, ids);
    put_report(&mut out, ids);
    out.put(b"pairs 820\n");
    put_pairs(&mut out, &blocks);
    out
}

/// The first block that is sent, less 1, and how many places further the next one stands each time,
/// round and round: parents first, parents last, and eight others.
const ORDERS: &[(u8, u8)] = &[
    (0, 1),
    (39, 39),
    (0, 3),
    (5, 7),
    (11, 9),
    (17, 11),
    (23, 13),
    (29, 17),
    (31, 19),
    (37, 27),
];

/// The feed that sends the blocks in an order, and then asks for all.
fn feed_in(alloc: Global, ids: &Ids, (first, step): (u8, u8)) -> Text {
    let mut feed = Text::of(alloc, b"SPCTRF01\0");
    put_block(&mut feed, alloc, ids, 0);
    let mut place = first % 40;
    for _ in 0..40u8 {
        put_block(&mut feed, alloc, ids, place.saturating_add(1));
        place = place.wrapping_add(step) % 40;
    }
    put_questions(&mut feed, ids);
    feed
}

#[test]
fn ten_orders(rt: HostRuntime) {
    let alloc = rt.alloc();
    let ids = all_ids(alloc);
    let output = answers(alloc, &ids);
    for (at, order) in ORDERS.iter().enumerate() {
        let feed = feed_in(alloc, &ids, *order);
        let run = (b"replay".as_slice(), feed.whole(&rt));
        let wanted = (40, output.whole(&rt));
        ends_as(&rt, alloc, "order", at, run, Status::Done, wanted);
    }
}
