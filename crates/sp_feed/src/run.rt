//! A feed read whole, for callers that only want its messages. Its contract is the theorem over any
//! run of the reader's calls.

ghost use Rattle.std.specs.Prelude.{◌≡◌, ℕ, IsSome, List, ◌++◌, Some, OnErr, OnOk};
ghost use Rattle.sp_feed.specs.Calls.{GivesAll, GivesRest, ReadsFeed};
ghost use Rattle.sp_feed.specs.Feed.{feed};
ghost use Rattle.sp_feed.specs.Kinds.{messages_of, Said};
ghost use Rattle.sp_feed.specs.Reader.{AtFrames, head_in, new_reader};
ghost use Rattle.sp_feed.specs.Reads.{IsQuietHead, moment};
ghost use Rattle.sp_feed.specs.Messages.{said_by};

use crate::fault::HeadFault;
use crate::head::FeedHead;
use crate::message::Message;
use crate::reader::FeedReader;
use sp_ids::Memory;
use sp_io::Source;
use std::alloc::Global;

/// What is done with each message.
pub trait Visitor {
    // The messages that it saw.
    ghost seen: { Self → List Said };

    /// Takes a message in, which isn't the end. After a refusal it has seen no more than before.
    fn visit(&mut self, message: &Message<'_>) -> Result<(), Memory>
        requires before_end { IsSome (said_by message.now) }
        ensures ok { OnOk result (seen self.new ≡ seen self.old ++ messages_of (said_by message.now)) }
        ensures err { OnErr result (seen self.new ≡ seen self.old) };
}

/// Shows the visitor each message, up to the end.
fn show_messages<S: Source, V: Visitor>(
    reader: &mut FeedReader,
    source: &mut S,
    visitor: &mut V,
) -> Result<(), HeadFault>
    requires at_frames { reader.old.stage ≡ AtFrames }
    ensures gives { GivesRest reader.old.limit
        (moment (S.left source.old) (S.faults source.old) reader.old.taken)
        (moment (S.left source.new) (S.faults source.new) reader.new.taken)
        (V.seen visitor.old) (V.seen visitor.new) result }
    ensures quiet { IsQuietHead (S.faults source.old) (S.faults source.new) result }
{
    'messages: loop {
        reader.next(source)?;
        let message = reader.message();
        match message {
            Message::End => return Ok(()),
            _ => visitor.visit(&message)?,
        }
    }
}

/// Reads the head, and then message by message.
fn read_messages<S: Source, V: Visitor>(
    reader: &mut FeedReader,
    source: &mut S,
    visitor: &mut V,
) -> Result<FeedHead, HeadFault>
    requires fresh { reader.old ≡ new_reader reader.old.limit }
    ensures gives { GivesAll reader.old.limit
        (moment (S.left source.old) (S.faults source.old) 0)
        (moment (S.left source.new) (S.faults source.new) reader.new.taken)
        head_in (V.seen visitor.old) (V.seen visitor.new) result }
    ensures quiet { IsQuietHead (S.faults source.old) (S.faults source.new) result }
{
    let head = reader.head(source)?;
    show_messages(reader, source, visitor)?;
    Ok(head)
}

/// Reads a whole feed of at most `limit` bytes, shows the visitor each message before the end, and
/// answers the head. Not a byte behind the frame `E` or the limit is taken off the source.
///
/// # Errors
///
/// The feed's first fault, after the messages before it. `Memory` where there was none for the
/// reader or the genesis block, or where the visitor had none for a message.
pub fn read_all<S: Source, V: Visitor>(
    alloc: Global,
    limit: u32,
    source: &mut S,
    visitor: &mut V,
) -> Result<FeedHead, HeadFault>
    // Where the source tells its bytes, they say all.
    ensures whole { (list : List ℕ) → S.left source.old ≡ Some list → ReadsFeed
        (feed limit list) (S.left source.new)
        head_in (V.seen visitor.old) (V.seen visitor.new) result }

    // Over any source, the bytes that it gave do, whatever follows them.
    ensures gives { (taken : ℕ) × GivesAll limit
        (moment (S.left source.old) (S.faults source.old) 0)
        (moment (S.left source.new) (S.faults source.new) taken)
        head_in (V.seen visitor.old) (V.seen visitor.new) result }

    // The source counts no fault but at a failed read.
    ensures quiet { IsQuietHead (S.faults source.old) (S.faults source.new) result }
{
    let mut reader = FeedReader::with_limit(alloc, limit)?;
    read_messages(&mut reader, source, visitor)
}
