//! What a whole scenario stands for.

ghost use Rattle.std.specs.Prelude.{◌≡◌, ◌<◌, ◌≤◌, IfOk, IsNone, length, OnErr, OnOk, slice_get, Some};
ghost use Rattle.std.specs.Io.KnownBytes.{Appends};
ghost use Rattle.sp_io.specs.Causes.{HasCause};
ghost use Rattle.sp_io.specs.Whole.{AppendsFront};
ghost use Rattle.sp_feed.specs.Messages.{said_by};
ghost use Rattle.sp_play.specs.Feeds.{feed_text, FeedIsRead, FitsFrame};
ghost use Rattle.sp_play.specs.Scene as meant;
ghost use Rattle.sp_play.specs.Source.{scenario_limit};

use crate::feeding::write_feed;
use crate::scene::{Reading, read};
use crate::why::LineFault;
use sp_feed::{FeedHead, Message};
use sp_ids::{BlockId, Memory};
use sp_io::{Failed, Sink};
use sp_model::Profile;
use sp_names::{Name, Names};
use std::alloc::Global;
use std::marker::Model;

/// The meaning of a scenario up to its first fault: the profile, the bits of work, the genesis block, the names,
/// the messages, and that fault.
pub struct Scene {
    reading: Reading,
    genesis: Vec<u8>,
    genesis_id: BlockId,
    names: Names,
}

impl Model for Scene {
    ghost use Rattle.std.specs.Prelude.{map};
    ghost use Rattle.sp_play.specs.Scene as meant;
    ghost use Rattle.sp_play.specs.Scene.{IsWhole, made_in, said_in};

    ghost Value = { meant.Scene };

    ghost view = { λ s. record {
      profile = s.reading.known.profile;
      bits = s.reading.known.bits;
      genesis = s.genesis.items;
      names = s.names;
      made = made_in s.reading.known.entries;
      messages = map (said_in s.reading.known) s.reading.known.sayings;
      fault = s.reading.fault;
    } };

    ghost invariant = { λ s. IsWhole s.reading.known s.genesis.items s.genesis_id };
}

// Written out, so that where a scene is let go there is one call, and not one for each of its fields.
impl Drop for Scene {
    fn drop(self) {
        let Scene {
            reading,
            genesis,
            genesis_id: _,
            names,
        } = self;
        drop(reading);
        drop(genesis);
        drop(names);
    }
}

impl Scene {
    /// Reads a scenario up to its first fault, by the language of docs/FORMATS.md, "Scenarios". It
    /// takes time in proportion to the text, that of a look-up in an ordered map or set for each
    /// name, output and lock, and that of a SHA-256 of its bytes for each nonce that is tried for a
    /// made block, at most 1,048,576 of them.
    ///
    /// # Errors
    ///
    /// `Memory` where it found none.
    pub fn read(alloc: Global, text: &[u8]) -> Result<Scene, Memory>
        requires { length text.now < scenario_limit }
        ensures { IfOk result (λ scene. scene ≡ meant.scene text.now) }
    {
        let reading = read(alloc, text)?;
        let genesis = reading.known.genesis()?;
        let genesis_id = BlockId::of(&genesis);
        let names = reading.known.names(&genesis_id)?;
        reading.known.keeps();
        Ok(Scene {
            reading,
            genesis,
            genesis_id,
            names,
        })
    }

    /// The head of its feed: the profile, the bits of work and the genesis block.
    ///
    /// # Errors
    ///
    /// `Memory` where the block found none.
    pub fn head(&self) -> Result<FeedHead, Memory>
        ensures profile { IfOk result (λ head. head.profile ≡ self.now.profile) }
        ensures bits { IfOk result (λ head. head.bits ≡ self.now.bits) }
        ensures genesis { IfOk result (λ head. head.genesis.bytes ≡ self.now.genesis) }
    {
        let known = &self.reading.known;
        known.head(&self.genesis)
    }

    /// The names of its blocks, transactions and locks.
    pub fn names(&self) -> &Names
        ensures { result.now ≡ self.now.names }
    {
        &self.names
    }

    /// How many blocks it makes.
    pub fn made_count(&self) -> u16
        ensures { result ≡ length self.now.made }
    {
        self.reading.known.made_count()
    }

    /// The name and the bytes of a block that it makes, by its number in order of making, counted from 0.
    /// It takes time in proportion to the names.
    pub fn made(&self, i: u16) -> (Name, &[u8])
        requires { i < length self.now.made }
        ensures { slice_get self.now.made i ≡ Some (result.0, result.1.now) }
    {
        self.reading.known.made(i)
    }

    /// How many messages there are.
    pub fn len(&self) -> usize
        ensures { result ≡ length self.now.messages }
    {
        self.reading.known.said()
    }

    /// The message at a place, counted from 0 and never `End`. A block's bytes are lent. It takes no
    /// longer than the SHA-256 of a word.
    pub fn message(&self, place: usize) -> Message<'_>
        requires { place < length self.now.messages }
        ensures message { slice_get self.now.messages place ≡ said_by result }
        ensures fits { FitsFrame (said_by result) }
    {
        let known = &self.reading.known;
        known.message(&self.genesis, &self.genesis_id, place)
    }

    /// The first fault, if there is one: the number of its line, counted from 1, and the reason.
    pub fn fault(&self) -> Option<LineFault>
        ensures { result ≡ self.now.fault }
    {
        self.reading.fault
    }

    /// Writes its feed: the head, a frame for each message in order, and the frame `E`, by the
    /// format of docs/FORMATS.md, "Feeds". The bytes go to the sink in pieces of at most 4,096, and
    /// no memory is taken.
    ///
    /// # Errors
    ///
    /// `Failed` where a call of the sink fails. The sink keeps what it took before.
    pub fn feed<K: Sink>(&self, sink: &mut K) -> Result<(), Failed>
        requires { IsNone self.now.fault }
        ensures ok { OnOk result
            (Appends (K.taken sink.old) (K.taken sink.new) (feed_text self.now)) }
        ensures err { OnErr result
            (AppendsFront (K.taken sink.old) (K.taken sink.new) (feed_text self.now)) }
        ensures cause { HasCause (K.faults sink.old) (K.faults sink.new) result }
    {
        write_feed(self, sink)
    }

    /// A reader of its feed finds its profile, its bits, its genesis block and its messages, whatever follows.
    pub fn feed_is_read(&self)
        ensures { FeedIsRead self.now }
    {
        let _ = &self.genesis;
    }

    // The profile.
    pub(crate) fn profile(&self) -> Profile
        ensures { result ≡ self.now.profile }
    {
        self.reading.known.profile()
    }

    // The bits of work.
    pub(crate) fn bits(&self) -> u8
        ensures { result ≡ self.now.bits }
    {
        self.reading.known.bits()
    }

    // The bytes of the genesis block.
    pub(crate) fn genesis(&self) -> &[u8]
        ensures bytes { result.now ≡ self.now.genesis }
        ensures short { length result.now ≤ 65536 }
    {
        &self.genesis
    }
}
