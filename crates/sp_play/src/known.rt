//! What is known after the lines read so far, and what the questions among them add. Each kind of
//! line has a file of its own below.

ghost use Rattle.std.specs.Prelude.{◌≡◌, ◌<◌, IfOk, length, map, slice_get, None, Some, true};
ghost use Rattle.sp_ids.specs.Digest.{sha256_number};
ghost use Rattle.sp_play.specs.Known as meant;
ghost use Rattle.sp_play.specs.Making as line;
ghost use Rattle.sp_play.specs.Known.{grants_of};
ghost use Rattle.sp_play.specs.Kept.{IsKept};
ghost use Rattle.sp_feed.specs.Messages.{said_by};
ghost use Rattle.sp_play.specs.Scene.{made_in, names_in, said_in};

mod asking_lines;
mod block_lines;
mod head_lines;
mod tx_lines;

use crate::entries::Entries;
use crate::made::{count_made, made_at};
use crate::namings::{entry_names, name_locks};
use crate::saying::Saying;
use crate::scans::genesis_text;
use crate::stage::Stage;
use sp_block::{ReadBlockFault, read_block};
use sp_feed::{FeedHead, Message};
use sp_ids::{BlockId, Lock, Memory, TxId};
use sp_model::Profile;
use sp_names::{Name, Names};
use sp_tx::Tx;
use std::alloc::Global;
use std::collections::BTreeSet;
use std::marker::Model;

/// What the names name, and what was said.
pub(crate) struct Known {
    alloc: Global,
    stage: Stage,
    profile: Profile,
    bits: u8,
    entries: Entries,
    // The id of the genesis block of these entries, once it was asked for.
    genesis: Option<BlockId>,
    // The ids of the transactions among them.
    txs: BTreeSet<TxId>,
    words: Vec<Name>,
    sayings: Vec<Saying>,
}

impl Model for Known {
    ghost use Rattle.sp_play.specs.Known as meant;
    ghost use Rattle.sp_play.specs.Kept.{AreKept};

    ghost Value = { meant.Known };

    ghost view = { λ k. record {
      stage = k.stage;
      profile = k.profile;
      bits = k.bits;
      entries = k.entries;
      words = k.words.items;
      sayings = k.sayings.items;
    } };

    ghost invariant = { λ k. AreKept k.bits k.entries k.genesis k.txs };
}

// Written out, so that where it is let go there is one call, and not one for each of its fields.
impl Drop for Known {
    fn drop(self) {
        let Known {
            alloc: _,
            stage: _,
            profile: _,
            bits: _,
            entries,
            genesis: _,
            txs,
            words,
            sayings,
        } = self;
        drop(entries);
        drop(txs);
        drop(words);
        drop(sayings);
    }
}

impl Known {
    /// What is known before the first line.
    pub(crate) fn new(alloc: Global) -> Result<Known, Memory>
        ensures { IfOk result (λ known. known ≡ meant.at_start) }
    {
        let entries = Entries::new(alloc)?;
        Ok(Known {
            alloc,
            stage: Stage::Start,
            profile: Profile::One,
            bits: 0,
            entries,
            genesis: None,
            txs: BTreeSet::new(alloc),
            words: Vec::new(alloc),
            sayings: Vec::new(alloc),
        })
    }

    /// What is true after any lines.
    pub(crate) fn keeps(&self)
        ensures { IsKept self.now.bits self.now.entries }
    {
        let _ = &self.alloc;
    }

    /// How many blocks were made.
    pub(crate) fn made_count(&self) -> u16
        ensures { result ≡ length (made_in self.now.entries) }
    {
        count_made(&self.entries)
    }

    /// The name and the bytes of a made block, by its number in order of making.
    pub(crate) fn made(&self, i: u16) -> (Name, &[u8])
        requires { i < length (made_in self.now.entries) }
        ensures { slice_get (made_in self.now.entries) i ≡ Some (result.0, result.1.now) }
    {
        made_at(&self.entries, i)
    }

    /// The bytes of the genesis block.
    pub(crate) fn genesis(&self) -> Result<Vec<u8>, Memory>
        ensures { IfOk result
            (λ text. text.items ≡ meant.genesis_text (grants_of self.now.entries)) }
    {
        genesis_text(self.alloc, &self.entries)
    }

    /// The head of the feed, given the bytes of genesis.
    pub(crate) fn head(&self, genesis: &[u8]) -> Result<FeedHead, Memory>
        requires { genesis.now ≡ meant.genesis_text (grants_of self.now.entries) }
        ensures profile { IfOk result (λ head. head.profile ≡ self.now.profile) }
        ensures bits { IfOk result (λ head. head.bits ≡ self.now.bits) }
        ensures genesis { IfOk result (λ head. head.genesis.bytes ≡ genesis.now) }
    {
        match read_block(self.alloc, genesis, true) {
            Ok(block) => Ok(FeedHead {
                profile: self.profile,
                bits: self.bits,
                genesis: block,
            }),
            Err(ReadBlockFault::Memory) => Err(Memory),
            // The grants and their block were judged.
            Err(ReadBlockFault::Fault(_)) => unreachable!(),
        }
    }

    /// The names of blocks, transactions and locks, given the id of genesis.
    pub(crate) fn names(&self, genesis: &BlockId) -> Result<Names, Memory>
        requires { genesis.now ≡ sha256_number (meant.genesis_text (grants_of self.now.entries)) }
        ensures { IfOk result (λ names. names ≡ names_in self.now) }
    {
        let mut names = entry_names(self.alloc, &self.entries, genesis)?;
        name_locks(&mut names, self.words.as_slice())?;
        Ok(names)
    }

    // What is said, lent; given the bytes and the id of genesis.
    fn lend<'a>(&'a self, genesis: &'a [u8], id: &BlockId, saying: &Saying) -> Message<'a>
        requires bytes { genesis.now ≡ meant.genesis_text (grants_of self.now.entries) }
        requires id { id.now ≡ sha256_number (meant.genesis_text (grants_of self.now.entries)) }
        ensures { said_by result ≡ Some (said_in self.now saying.now) }
    {
        match saying {
            Saying::Block(at) => Message::Block(self.entries.bytes_at(genesis, *at)),
            Saying::Vote(x, y) => {
                let x = BlockId::from_bytes(self.entries.id_at(id, *x));
                let y = BlockId::from_bytes(self.entries.id_at(id, *y));
                Message::Vote(x, y)
            }
            Saying::Tx(at) => Message::Tx(TxId::from_bytes(self.entries.id_at(id, *at))),
            Saying::Balance(word) => Message::Balance(Lock::of(word.as_slice())),
            Saying::Pairs => Message::Pairs,
            Saying::Report => Message::Report,
        }
    }

    /// A message, given the bytes and the id of genesis.
    pub(crate) fn message<'a>(
        &'a self,
        genesis: &'a [u8],
        id: &BlockId,
        place: usize,
    ) -> Message<'a>
        requires within { place < length self.now.sayings }
        requires bytes { genesis.now ≡ meant.genesis_text (grants_of self.now.entries) }
        requires id { id.now ≡ sha256_number (meant.genesis_text (grants_of self.now.entries)) }
        ensures { slice_get (map (said_in self.now) self.now.sayings) place ≡ said_by result }
    {
        let saying = &self.sayings[place];
        self.lend(genesis, id, saying)
    }

    /// How many messages were said.
    pub(crate) fn said(&self) -> usize
        ensures { result ≡ length self.now.sayings }
    {
        self.sayings.len()
    }

    /// The profile.
    pub(crate) fn profile(&self) -> Profile
        ensures { result ≡ self.now.profile }
    {
        self.profile
    }

    /// The bits of work.
    pub(crate) fn bits(&self) -> u8
        ensures { result ≡ self.now.bits }
    {
        self.bits
    }

    /// What stood so far.
    pub(crate) fn stage(&self) -> Stage
        ensures { result ≡ self.now.stage }
    {
        self.stage
    }
}
