//! Twelve blocks in twenty orders, with the same answers to a question on each pair; and feeds of
//! many blocks with a question after each.

use crate::status::Status;
use crate::tests::ends_as;
use crate::tests::feed_bytes::{
    END, head_of, in_full, put_block, put_child, put_kind, put_question,
};
use crate::tests::text::{Text, put_hex};
use sp_ids::BlockId;
use std::alloc::Global;

/// Parents first.
const NAMES: &[u8; 12] = b"ABIJKLMOPCDH";

/// The first letter of the answer to each of them and each of them, in this order, by another
/// program from the rules of votes.
const WORDS: &[&[u8; 12]] = &[
    b"sbtbbbbbbbbb",
    b"asbbbbbbbbbb",
    b"tasbbbbbbbbb",
    b"aaasbaabbbbb",
    b"aaaasaabbbbb",
    b"aaabbsbaabbb",
    b"aaabbasaabbb",
    b"aaaaabbsbbbb",
    b"aaaaabbasbbb",
    b"aaaaaaaaasta",
    b"aaaaaaaaatsa",
    b"aaaaaaaaabbs",
];

/// The end of an answer.
fn word_of(letter: u8) -> &'static [u8] {
    match letter {
        b'a' => b" after\n",
        b'b' => b" before\n",
        b't' => b" tie\n",
        _ => b" same\n",
    }
}

fn put_answer(out: &mut Text, x: u8, y: u8, letter: u8) {
    out.put(&[b'v', b'o', b't', b'e', b' ', x, b' ', y]);
    out.put(word_of(letter));
}

/// The answers to a block and each of them.
fn put_row(out: &mut Text, x: u8, words: &[u8; 12]) {
    for (y, letter) in NAMES.iter().zip(words) {
        put_answer(out, x, *y, *letter);
    }
}

/// The lines of all answers, with names.
fn all_answers(alloc: Global) -> Text {
    let mut text = Text::new(alloc);
    for (x, words) in NAMES.iter().zip(WORDS) {
        put_row(&mut text, *x, words);
    }
    text
}

/// Questions on each two of the blocks, and the end.
fn put_questions(out: &mut Text) {
    for x in NAMES {
        for y in NAMES {
            put_question(out, *x, *y);
        }
    }
    out.put(END);
}

/// The feed that sends the blocks from a place on, each time so many places further, round and
/// round, and then asks all questions.
fn feed_in(alloc: Global, start: usize, step: usize) -> Text {
    let mut feed = head_of(alloc, 0);
    for turn in 0..12usize {
        let place = start.wrapping_add(step.wrapping_mul(turn)) % 12;
        put_block(&mut feed, NAMES[place], 0);
    }
    put_questions(&mut feed);
    feed
}

/// From each of the twelve places forwards, and from eight of them backwards.
#[test]
fn twenty_orders(rt: HostRuntime) {
    let alloc = rt.alloc();
    let answers = in_full(alloc, all_answers(alloc).whole(&rt));
    for order in 0..20usize {
        let (start, step) = if order < 12 {
            (order, 1)
        } else {
            (23 - order, 11)
        };
        let feed = feed_in(alloc, start, step);
        let run = (b"replay".as_slice(), feed.whole(&rt));
        let wanted = (12, answers.whole(&rt));
        ends_as(&rt, alloc, "order", order, run, Status::Done, wanted);
    }
}

/// A feed of two chains on genesis that grow by turns, with a question after each block on the one
/// before and that one, and the answers.
#[derive(Drop)]
struct Chains {
    feed: Text,
    answers: Text,
    two_before: BlockId,
    before: BlockId,
}

/// The end of the answer to a question on the block before this one and this one: a block on genesis
/// is behind it, chains of one length are in a tie, and the longer chain is before the shorter.
fn chain_word(block: u8) -> &'static [u8] {
    if block == 1 {
        b" before\n"
    } else if block % 2 == 0 {
        b" tie\n"
    } else {
        b" after\n"
    }
}

/// What a block and the question that follows are answered.
fn put_answers(out: &mut Text, block: u8, before: &BlockId, id: &BlockId) {
    out.put(b"kept ");
    put_hex(out, id.as_bytes());
    out.put(b" present 1\nvote ");
    put_hex(out, before.as_bytes());
    out.put(b" ");
    put_hex(out, id.as_bytes());
    out.put(chain_word(block));
}

fn put_next(chains: &mut Chains, block: u8) {
    put_child(
        &mut chains.feed,
        u16::from(block),
        chains.two_before.as_bytes(),
    );
    let id = BlockId::of(chains.feed.end(52));
    put_kind(&mut chains.feed, b'V', 64);
    chains.feed.put(chains.before.as_bytes());
    chains.feed.put(id.as_bytes());
    put_answers(&mut chains.answers, block, &chains.before, &id);
    chains.two_before = chains.before;
    chains.before = id;
}

fn two_chains(alloc: Global, count: u8) -> Chains {
    let feed = head_of(alloc, 0);
    let genesis = BlockId::of(feed.end(20));
    let mut chains = Chains {
        feed,
        answers: Text::new(alloc),
        two_before: genesis,
        before: genesis,
    };
    for block in 1..=count {
        put_next(&mut chains, block);
    }
    chains.feed.put(END);
    chains
}

#[test]
fn many_blocks(rt: HostRuntime) {
    for count in &[40u8, 60] {
        let chains = two_chains(rt.alloc(), *count);
        let run = (b"replay".as_slice(), chains.feed.whole(&rt));
        let wanted = (0, chains.answers.whole(&rt));
        let at = usize::from(*count);
        ends_as(&rt, rt.alloc(), "chains", at, run, Status::Done, wanted);
    }
}
