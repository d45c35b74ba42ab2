//! The reader of a feed: what it keeps between two calls, and which call may follow which.

ghost use Rattle.std.specs.Prelude.{◌≡◌, ◌<◌, Ok, IfOk, None, OnErr, OnOk, IsTrue, drop, length, take};
ghost use Rattle.sp_ids.specs.Key.{number_of};
ghost use Rattle.sp_feed.specs.Calls.{GivesHead, GivesNext};
ghost use Rattle.sp_feed.specs.Reader.{AtFrames, AtStart, Behind, Dead, head_in, is_behind, is_live, is_open, last_of, new_reader};
ghost use Rattle.sp_feed.specs.Reads.{IsQuiet, IsQuietHead, moment};
ghost use Rattle.sp_feed.specs.declared.message.Message.TheVariants.{Vote};

use crate::fault::{FeedFault, HeadFault};
use crate::frame::{LONGEST, first_head, next_frame};
use crate::head::FeedHead;
use crate::kind::Kind;
use crate::message::Message;
use crate::phase::Phase;
use sp_form::array_of;
use sp_ids::{BlockId, Lock, Memory, TxId};
use sp_io::Source;
use std::alloc::Global;
use std::marker::Model;

/// Reads a feed: `head` once, then `next` and `message` again and again, up to `Message::End` or a
/// fault. It holds one buffer of 65,537 bytes, which is made at the start.
#[derive(Drop)]
pub struct FeedReader {
    // The last frame's payload stands at the front, with this kind and length.
    payload: Vec<u8>,
    kind: Kind,
    length: usize,
    limit: u32,
    taken: u32,
    phase: Phase,
}

impl Model for FeedReader {
    ghost use Rattle.std.specs.Prelude.{take, vec_len};
    ghost use Rattle.sp_feed.specs.Reader.{IsReader, ReaderState, stage_of};

    ghost Value = { ReaderState };

    ghost view = { λ r. record {
      limit = r.limit;
      taken = r.taken;
      stage = stage_of r.phase r.kind (take r.length r.payload.items);
    } };

    ghost invariant = { λ r. IsReader r.limit r.taken r.phase r.kind r.length (vec_len r.payload) };
}

impl FeedReader {
    ghost use Rattle.sp_feed.specs.Messages.{said_by};

    /// A reader that takes at most 4,294,967,295 bytes.
    ///
    /// # Errors
    ///
    /// `Memory` where there was none for the buffer.
    pub fn new(alloc: Global) -> Result<FeedReader, Memory>
        ensures { IfOk result (λ reader. reader ≡ new_reader 4294967295) }
    {
        FeedReader::with_limit(alloc, u32::MAX)
    }

    /// A reader that takes at most `limit` bytes.
    ///
    /// # Errors
    ///
    /// `Memory` where there was none for the buffer.
    pub fn with_limit(alloc: Global, limit: u32) -> Result<FeedReader, Memory>
        ensures { IfOk result (λ reader. reader ≡ new_reader limit) }
    {
        let payload = vec![in alloc; 0u8; LONGEST]?;
        Ok(FeedReader {
            payload,
            kind: Kind::End,
            length: 0,
            limit,
            taken: 0,
            phase: Phase::Fresh,
        })
    }

    /// Reads the head, before anything else is asked. The format is that of docs/FORMATS.md,
    /// "Feeds".
    ///
    /// # Errors
    ///
    /// `Malformed` at place 0 where the feed begins with neither `SPCTRF01` nor `SPCTRF02`; at 8 where the bits are
    /// above 64; at 9 where the frame's kind isn't `B`; at 10 where its length is above 65,537; at
    /// 14 where its payload spells no genesis block. `Truncated`, `TooLong` and `ReadFault` as in
    /// `next`. `Memory` where there was none for the genesis block. After each of them the reader
    /// isn't live.
    pub fn head<S: Source>(&mut self, source: &mut S) -> Result<FeedHead, HeadFault>
        requires fresh { self.old.stage ≡ AtStart }
        ensures gives { GivesHead self.old.limit
            (moment (S.left source.old) (S.faults source.old) self.old.taken)
            (moment (S.left source.new) (S.faults source.new) self.new.taken)
            head_in result }
        ensures quiet { IsQuietHead (S.faults source.old) (S.faults source.new) result }
        ensures unasked { self.old.limit ≡ 0 → source.new ≡ source.old }
        ensures ok { OnOk result (self.new.stage ≡ AtFrames) }
        ensures err { OnErr result (self.new.stage ≡ Dead) }
        ensures limit { self.new.limit ≡ self.old.limit }
    {
        let alloc = *self.payload.allocator();
        self.phase = Phase::Closed;
        let head = first_head(
            alloc,
            source,
            self.payload.as_mut_slice(),
            self.limit,
            &mut self.taken,
        )?;
        self.phase = Phase::Ready;
        Ok(head)
    }

    /// Reads the next message, which `message` then answers, once `head` has given the head. After
    /// `End` it is `End` again, and nothing is read. It takes time about in proportion to the bytes
    /// taken.
    ///
    /// # Errors
    ///
    /// `Malformed` at the place of the kind where its letter is unknown, and at the place of the
    /// length where the kind doesn't allow it. `Truncated` where the source ends before the frame
    /// is whole, at the number of bytes taken. `TooLong` where the limit's bytes were taken and
    /// another is needed; none behind them is taken. `ReadFault` only where the source's count
    /// of faults rose in this call. After each of them the reader isn't live.
    pub fn next<S: Source>(&mut self, source: &mut S) -> Result<(), FeedFault>
        requires { IsTrue (is_open self.old.stage) }
        ensures gives { (self.old.stage ≡ Behind None → ⊥) → GivesNext self.old.limit
            (moment (S.left source.old) (S.faults source.old) self.old.taken)
            (moment (S.left source.new) (S.faults source.new) self.new.taken)
            (λ _. last_of self.new.stage) result }
        ensures quiet { IsQuiet (S.faults source.old) (S.faults source.new) result }
        ensures unasked { self.old.taken ≡ self.old.limit → source.new ≡ source.old }
        ensures progress { OnOk result
            ((self.old.stage ≡ Behind None → ⊥) → self.old.taken < self.new.taken) }
        ensures again { self.old.stage ≡ Behind None
            → (result ≡ Ok tt) × (source.new ≡ source.old) × (self.new ≡ self.old) }

        ensures ok { OnOk result (IsTrue (is_behind self.new.stage)) }
        ensures err { OnErr result (self.new.stage ≡ Dead) }
        ensures limit { self.new.limit ≡ self.old.limit }
    {
        if self.phase == Phase::Holding && self.kind == Kind::End {
            return Ok(());
        }
        self.phase = Phase::Closed;
        let (kind, length) = next_frame(
            source,
            self.payload.as_mut_slice(),
            self.limit,
            &mut self.taken,
        )?;
        self.kind = kind;
        self.length = length;
        self.phase = Phase::Holding;
        Ok(())
    }

    /// The message that the last `next` read, where that gave `Ok`. A payload is lent as it stands
    /// in the reader's buffer.
    pub fn message(&self) -> Message<'_>
        requires { IsTrue (is_behind self.now.stage) }
        ensures { said_by result ≡ last_of self.now.stage }
    {
        let payload = &self.payload[..self.length];
        match self.kind {
            Kind::Block => Message::Block(payload),
            Kind::Vote => vote_of(payload),
            Kind::Tx => Message::Tx(TxId::from_bytes(array_of(payload))),
            Kind::Balance => Message::Balance(Lock::from_bytes(array_of(payload))),
            Kind::Pairs => Message::Pairs,
            Kind::Report => Message::Report,
            Kind::End => Message::End,
        }
    }

    /// Whether nothing failed yet.
    pub fn live(&self) -> bool
        ensures { result ≡ is_live self.now.stage }
    {
        self.phase != Phase::Closed
    }

    /// How many bytes were taken off the source so far.
    pub fn taken(&self) -> u32
        ensures { result ≡ self.now.taken }
    {
        self.taken
    }
}

/// The vote of two ids.
fn vote_of(payload: &[u8]) -> Message<'_>
    requires { length payload.now ≡ 64 }
    ensures { result ≡ Vote (number_of (take 32 payload.now)) (number_of (drop 32 payload.now)) }
{
    let (x, y) = payload.split_at(32);
    Message::Vote(
        BlockId::from_bytes(array_of(x)),
        BlockId::from_bytes(array_of(y)),
    )
}
