//! Messages and the lines that answer them, written down by hand, whole, and with each call of the
//! sink failing in turn.

use crate::fixtures::{
    CHILD_ID as CHILD, GENESIS_ID as GENESIS, LINE, NOBODY_ID as NOBODY, ORPHAN_ID as ORPHAN,
    child_of, read_id, sink_of,
};
use crate::plain::PlainNode;
use crate::rows::holds;
use sp_feed::{FeedHead, Message};
use sp_fixtures::{GENESIS as GENESIS_BYTES, genesis_of};
use sp_ids::TxId;
use sp_io::MemSink;
use sp_model::Profile;
use sp_node::NodeFault;
use sp_report::Naming;
use std::alloc::Global;
use std::test::Fail;

/// What is sent to a node.
#[derive(Clone, Copy)]
enum Sent {
    /// The block of this salt, of nonce 0 and this one parent, with so many bytes behind it.
    Block(u8, &'static str, usize),
    /// A question about two blocks.
    Vote(&'static str, &'static str),
    /// A question about a transaction.
    Tx(&'static str),
}

/// What is sent to a new node that asks for this work, and the line of each answer.
struct Row {
    bits: u8,
    answers: &'static [(Sent, &'static str)],
}

const ROWS: &[Row] = &[
    Row {
        bits: 0,
        answers: &[
            (
                Sent::Block(0, NOBODY, 0),
                "kept c5b1bd0534920e7fd27451247e04f3db827c371b14571c94a01eaf40b58e00f5 waiting\n",
            ),
            (
                Sent::Block(0, NOBODY, 0),
                "known c5b1bd0534920e7fd27451247e04f3db827c371b14571c94a01eaf40b58e00f5\n",
            ),
            (Sent::Block(0, NOBODY, 1), "refused trailing\n"),
            (Sent::Block(0, NOBODY, 65_485), "refused too-long\n"),
            (
                Sent::Vote(GENESIS, GENESIS),
                "vote 21fc3f955c14305ed66b2f6064de082e8447f29048da3ab7c5c01090c1b722ab \
                 21fc3f955c14305ed66b2f6064de082e8447f29048da3ab7c5c01090c1b722ab same\n",
            ),
            (
                Sent::Block(1, GENESIS, 0),
                "kept ebc352d52d8a2d8f607bc82f6edc468679599eb0e8a8429d88c82e4cffb62854 present 1\n",
            ),
            (
                Sent::Vote(GENESIS, CHILD),
                "vote 21fc3f955c14305ed66b2f6064de082e8447f29048da3ab7c5c01090c1b722ab \
                 ebc352d52d8a2d8f607bc82f6edc468679599eb0e8a8429d88c82e4cffb62854 before\n",
            ),
            (
                Sent::Vote(CHILD, GENESIS),
                "vote ebc352d52d8a2d8f607bc82f6edc468679599eb0e8a8429d88c82e4cffb62854 \
                 21fc3f955c14305ed66b2f6064de082e8447f29048da3ab7c5c01090c1b722ab after\n",
            ),
            (
                Sent::Vote(ORPHAN, GENESIS),
                "vote c5b1bd0534920e7fd27451247e04f3db827c371b14571c94a01eaf40b58e00f5 \
                 21fc3f955c14305ed66b2f6064de082e8447f29048da3ab7c5c01090c1b722ab absent\n",
            ),
            (
                Sent::Vote(NOBODY, NOBODY),
                "vote 0000000000000000000000000000000000000000000000000000000000000000 \
                 0000000000000000000000000000000000000000000000000000000000000000 absent\n",
            ),
            (
                Sent::Tx(NOBODY),
                "tx 0000000000000000000000000000000000000000000000000000000000000000 absent\n",
            ),
        ],
    },
    // A child before its parent.
    Row {
        bits: 0,
        answers: &[
            (
                Sent::Block(2, CHILD, 0),
                "kept 2d12a8a4fb991b87f80837a27773d5d58fed4d7bf257741c90ba17bb437632f0 waiting\n",
            ),
            (
                Sent::Block(1, GENESIS, 0),
                "kept ebc352d52d8a2d8f607bc82f6edc468679599eb0e8a8429d88c82e4cffb62854 present 2\n",
            ),
        ],
    },
    Row {
        bits: 64,
        answers: &[
            (Sent::Block(0, NOBODY, 0), "refused work\n"),
            (Sent::Block(1, GENESIS, 1), "refused trailing\n"),
            (
                Sent::Vote(GENESIS, GENESIS),
                "vote 21fc3f955c14305ed66b2f6064de082e8447f29048da3ab7c5c01090c1b722ab \
                 21fc3f955c14305ed66b2f6064de082e8447f29048da3ab7c5c01090c1b722ab same\n",
            ),
        ],
    },
];

fn head_of(alloc: Global, bits: u8) -> Result<FeedHead, Fail> {
    if bits > 64 {
        return Err("more than 64 bits".into());
    }
    let genesis = genesis_of(alloc, &GENESIS_BYTES)?;
    Ok(FeedHead {
        profile: Profile::One,
        bits,
        genesis,
    })
}

fn node_of(alloc: Global, bits: u8) -> Result<PlainNode, Fail> {
    Ok(PlainNode::of(alloc, head_of(alloc, bits)?)?)
}

/// What is answered to a message.
type Answered = Result<(), NodeFault>;

fn tell(node: &mut PlainNode, message: &Message<'_>, sink: &mut MemSink) -> Result<Answered, Fail> {
    if node.stopped() || matches!(message, Message::End) {
        return Err("no message".into());
    }
    Ok(node.message(message, &Naming::Hex, sink))
}

fn send(
    alloc: Global,
    node: &mut PlainNode,
    sent: Sent,
    sink: &mut MemSink,
) -> Result<Answered, Fail> {
    match sent {
        Sent::Block(salt, parent, more) => {
            let bytes = child_of(alloc, salt, parent, more)?;
            tell(node, &Message::Block(&bytes), sink)
        }
        Sent::Vote(x, y) => tell(node, &Message::Vote(read_id(x)?, read_id(y)?), sink),
        Sent::Tx(id) => {
            let id = TxId::from_bytes(*read_id(id)?.as_bytes());
            tell(node, &Message::Tx(id), sink)
        }
    }
}

/// What was answered to a message, and what was written.
#[derive(Drop)]
struct Heard {
    answered: Answered,
    text: Vec<u8>,
}

/// Sends a message. This call of the sink fails, by a byte a call.
fn hear(
    alloc: Global,
    node: &mut PlainNode,
    sent: Sent,
    failing: Option<u32>,
) -> Result<Heard, Fail> {
    let mut sink = sink_of(alloc, LINE, 1, failing)?;
    let answered = send(alloc, node, sent, &mut sink)?;
    let text = Vec::from_slice(alloc, sink.bytes())?;
    Ok(Heard { answered, text })
}

/// Whether the message is answered by its line.
fn is_answered(alloc: Global, node: &mut PlainNode, sent: Sent, line: &str) -> Result<bool, Fail> {
    let heard = hear(alloc, node, sent, None)?;
    Ok(heard.answered == Ok(()) && heard.text.as_slice() == line.as_bytes())
}

/// Whether so many messages of the row are.
fn are_answered(
    alloc: Global,
    node: &mut PlainNode,
    row: &Row,
    count: usize,
) -> Result<bool, Fail> {
    for (sent, line) in row.answers.iter().take(count) {
        if !is_answered(alloc, node, *sent, line)? {
            return Ok(false);
        }
    }
    Ok(true)
}

/// Whether just the front of the line was written, up to the call of the sink that failed.
fn has_front(heard: &Heard, line: &str, call: usize) -> bool {
    heard.answered == Err(NodeFault::WriteFault)
        && Some(heard.text.as_slice()) == line.as_bytes().get(..call)
}

/// Whether a message is answered by a front of its line, up to this call of the sink, which fails.
/// It stops the node.
fn is_front(
    alloc: Global,
    node: &mut PlainNode,
    sent: Sent,
    line: &str,
    call: usize,
) -> Result<bool, Fail> {
    let heard = hear(alloc, node, sent, Some(u32::try_from(call)?))?;
    Ok(has_front(&heard, line, call) && node.stopped())
}

/// Whether that is so of the message at this place of the row, behind those before it.
fn is_cut(
    alloc: Global,
    node: &mut PlainNode,
    row: &Row,
    place: usize,
    call: usize,
) -> Result<bool, Fail> {
    if !are_answered(alloc, node, row, place)? {
        return Ok(false);
    }
    let (sent, line) = row.answers.get(place).ok_or("no such message")?;
    is_front(alloc, node, *sent, line, call)
}

/// The same with a new node.
fn is_cut_anew(alloc: Global, row: &Row, place: usize, call: usize) -> Result<bool, Fail> {
    let mut node = node_of(alloc, row.bits)?;
    let is_so = is_cut(alloc, &mut node, row, place, call);
    drop(node);
    is_so
}

/// Whether that is so at each of the calls that write the line.
fn is_cut_anywhere(alloc: Global, row: &Row, place: usize, calls: usize) -> Result<bool, Fail> {
    for call in 0..calls {
        if !is_cut_anew(alloc, row, place, call)? {
            return Ok(false);
        }
    }
    Ok(true)
}

fn are_cut(alloc: Global, row: &Row) -> Result<bool, Fail> {
    for (place, (_, line)) in row.answers.iter().enumerate() {
        if !is_cut_anywhere(alloc, row, place, line.len())? {
            return Ok(false);
        }
    }
    Ok(true)
}

/// Whether all messages of the row are answered, and the node goes on with its bits of work.
fn goes_on(alloc: Global, node: &mut PlainNode, row: &Row) -> Result<bool, Fail> {
    let answered = are_answered(alloc, node, row, row.answers.len())?;
    Ok(answered && !node.stopped() && node.engine().bits() == row.bits)
}

fn runs(alloc: Global, row: &Row) -> Result<bool, Fail> {
    let mut node = node_of(alloc, row.bits)?;
    let is_so = goes_on(alloc, &mut node, row);
    drop(node);
    is_so
}

#[test]
fn answers(rt: HostRuntime) -> Result<(), Fail> {
    for (place, row) in ROWS.iter().enumerate() {
        holds(&rt, place, runs(rt.alloc(), row)?);
    }
    Ok(())
}

/// Each call of the sink fails in turn.
#[test]
fn cut_answers(rt: HostRuntime) -> Result<(), Fail> {
    for (place, row) in ROWS.iter().enumerate() {
        holds(&rt, place, are_cut(rt.alloc(), row)?);
    }
    Ok(())
}
