//! The frames of messages, as a feed has them, put on a page before a sink.

ghost use Rattle.std.specs.Prelude.{◌≡◌, ◌≤◌, ◌<◌, ◌++◌, ◌∷◌, ◌^◌, length, OnErr, OnOk};
ghost use Rattle.std.specs.Int.{w32, to_le_bytes};
ghost use Rattle.sp_ids.specs.Key.{bytes_of};
ghost use Rattle.sp_io.specs.Causes.{HasCause};
ghost use Rattle.sp_io.specs.Whole.{AppendsFront, Wrote};
ghost use Rattle.sp_feed.specs.Messages.{said_by};
ghost use Rattle.sp_play.specs.Feeds.{FitsFrame, frame_text};

use sp_feed::Message;
use sp_ids::BlockId;
use sp_io::{Failed, Page, Sink};

/// So many bytes are put on the page at a time, at most.
const PIECE: usize = 4096;

/// Writes bytes, however many, behind those that wait.
pub(crate) fn push_bytes<K: Sink>(bytes: &[u8], page: &mut Page, sink: &mut K) -> Result<(), Failed>
    ensures ok { OnOk result (Wrote (K.taken sink.old) (K.taken sink.new)
        (page.old ++ bytes.now) page.new) }
    ensures err { OnErr result (AppendsFront (K.taken sink.old) (K.taken sink.new)
        (page.old ++ bytes.now)) }
    ensures cause { HasCause (K.faults sink.old) (K.faults sink.new) result }
{
    let mut rest = bytes;
    'pieces: while PIECE < rest.len() {
        let (piece, behind) = rest.split_at(PIECE);
        page.push(piece, sink)?;
        rest = behind;
    }
    page.push(rest, sink)
}

/// The front of a frame: the letter of its kind, and the payload's length (4 bytes, the lowest
/// first).
fn frame_front(letter: u8, length: u32) -> [u8; 5]
    ensures { result ≡ letter ∷ to_le_bytes w32 length }
{
    let mut front = [letter; 5];
    front[1..].copy_from_slice(&length.to_le_bytes());
    front
}

/// Writes a frame behind the bytes that wait.
pub(crate) fn push_frame<K: Sink>(
    letter: u8,
    payload: &[u8],
    page: &mut Page,
    sink: &mut K,
) -> Result<(), Failed>
    requires { length payload.now < 2 ^ 32 }
    ensures ok { OnOk result (Wrote (K.taken sink.old) (K.taken sink.new)
        (page.old ++ (letter ∷ (to_le_bytes w32 (length payload.now) ++ payload.now))) page.new) }
    ensures err { OnErr result (AppendsFront (K.taken sink.old) (K.taken sink.new)
        (page.old ++ (letter ∷ (to_le_bytes w32 (length payload.now) ++ payload.now)))) }
    ensures cause { HasCause (K.faults sink.old) (K.faults sink.new) result }
{
    let front = frame_front(letter, payload.len() as u32);
    page.push(&front, sink)?;
    push_bytes(payload, page, sink)
}

/// The payload that asks for a vote: the two ids.
fn vote_payload(x: &BlockId, y: &BlockId) -> [u8; 64]
    ensures { result ≡ bytes_of x.now ++ bytes_of y.now }
{
    let mut payload = [0u8; 64];
    let (first, second) = payload.split_at_mut(32);
    first.copy_from_slice(x.as_bytes());
    second.copy_from_slice(y.as_bytes());
    payload
}

/// Writes a message's frame behind the bytes that wait.
pub(crate) fn push_message<K: Sink>(
    message: &Message,
    page: &mut Page,
    sink: &mut K,
) -> Result<(), Failed>
    requires { FitsFrame (said_by message.now) }
    ensures ok { OnOk result (Wrote (K.taken sink.old) (K.taken sink.new)
        (page.old ++ frame_text (said_by message.now)) page.new) }
    ensures err { OnErr result (AppendsFront (K.taken sink.old) (K.taken sink.new)
        (page.old ++ frame_text (said_by message.now))) }
    ensures cause { HasCause (K.faults sink.old) (K.faults sink.new) result }
{
    match message {
        Message::Block(bytes) => push_frame(b'B', bytes, page, sink),
        Message::Vote(x, y) => push_frame(b'V', &vote_payload(x, y), page, sink),
        Message::Tx(id) => push_frame(b'T', id.as_bytes(), page, sink),
        Message::Balance(lock) => push_frame(b'U', lock.as_bytes(), page, sink),
        Message::Pairs => push_frame(b'P', &[], page, sink),
        Message::Report => push_frame(b'R', &[], page, sink),
        Message::End => push_frame(b'E', &[], page, sink),
    }
}
