//! What is sent to a node, and how the lines that answer are compared.

use crate::served::{Served, Why};
use sp_feed::Message;
use sp_fixtures::Numbered;
use sp_ids::{Lock, TxId};
use sp_io::{Calls, Fails, MemSink};
use sp_node::NodeFault;
use std::alloc::Global;
use std::test::Fail;

/// What is sent to a node.
#[derive(Clone, Copy, Debug)]
pub enum Sent {
    /// The block of this number.
    Block(usize),
    /// Bytes that spell no block.
    Bytes(&'static [u8]),
    /// A question about the blocks of two numbers.
    Vote(usize, usize),
    /// A question about a transaction that no block has.
    Tx,
    /// A question about a lock that no output has.
    Balance,
    Pairs,
    Report,
}

/// What is written for an answer: its beginning and its end. Nothing is, where both are empty.
pub type Line = (&'static str, &'static str);

/// A sink with room for each answer, which takes so many bytes a call. This call of it fails.
pub fn sink_of(alloc: Global, step: u16, failing: Option<u32>) -> Result<MemSink, Fail> {
    if step == 0 {
        return Err("no step".into());
    }
    let fails = match failing {
        Some(call) => Fails::At(Calls::of(Vec::from_slice(alloc, &[call])?)),
        None => Fails::Never,
    };
    Ok(MemSink::new(alloc, 8192, step, fails)?)
}

/// What is answered to a message.
pub type Answered = Result<(), NodeFault>;

/// Sends one of these blocks, or a question about them.
pub fn send(
    served: &mut Served,
    blocks: &Numbered,
    sent: Sent,
    sink: &mut MemSink,
) -> Result<Answered, Fail> {
    let message = match sent {
        Sent::Block(number) => Message::Block(blocks.text(number)),
        Sent::Bytes(bytes) => Message::Block(bytes),
        Sent::Vote(x, y) => Message::Vote(blocks.id(x), blocks.id(y)),
        Sent::Tx => Message::Tx(TxId::from_bytes([9; 32])),
        Sent::Balance => Message::Balance(Lock::from_bytes([9; 32])),
        Sent::Pairs => Message::Pairs,
        Sent::Report => Message::Report,
    };
    served.tell(&message, sink)
}

/// Whether this was written.
pub fn is_line(text: &[u8], line: Line) -> bool {
    let (start, end) = line;
    if start.is_empty() && end.is_empty() {
        return text.is_empty();
    }
    text.starts_with(start.as_bytes()) && text.ends_with(end.as_bytes())
}

/// Whether a message is answered so, and this is written.
fn is_answered(
    served: &mut Served,
    blocks: &Numbered,
    sent: Sent,
    wanted: (Answered, Line),
) -> Result<bool, Fail> {
    let mut sink = sink_of(blocks.alloc, 8192, None)?;
    let answered = send(served, blocks, sent, &mut sink)?;
    let (outcome, line) = wanted;
    Ok(answered == outcome && is_line(sink.bytes(), line))
}

/// The first of the messages that isn't answered so.
pub fn wrong_answer(
    served: &mut Served,
    blocks: &Numbered,
    messages: &[(Sent, Answered, Line)],
) -> Result<Option<usize>, Fail> {
    for (place, (sent, answered, line)) in messages.iter().enumerate() {
        if !is_answered(served, blocks, *sent, (*answered, *line))? {
            return Ok(Some(place));
        }
    }
    Ok(None)
}

/// The cause as an answer's.
pub fn told(answered: Answered) -> Option<Why> {
    match answered {
        Ok(()) => None,
        Err(fault) => Some(Why::Message(fault)),
    }
}
