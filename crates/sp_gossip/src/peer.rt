//! One node among others: its engine, and the ids of the blocks that it keeps.

ghost use Rattle.std.specs.Prelude.{◌≡◌, ◌≤◌, ◌==◌, ◌∷◌, [], find, IfOk, IsTrue, OnErr, OnOk};
ghost use Rattle.std.specs.Option.{option_copied};
ghost use Rattle.sp_block.specs.Block.{IsGenesis};
ghost use Rattle.sp_engine.specs.Arrivals.{answer_of, kept_after};
ghost use Rattle.sp_engine.specs.Causes.{IsKnown};
ghost use Rattle.sp_gossip.specs.Gossip.{bytes_of, held, missing, others};
ghost use Rattle.sp_gossip.specs.Pieces.{StandForAll, StandsFor, TakesPiece, TakesPieces};
ghost use Rattle.sp_model.specs.Graph.{has};
ghost use Rattle.sp_pool.specs.Kept.{ids_of};
ghost use Rattle.sp_report.specs.KeptIds as meant;

use crate::piece::Piece;
use sp_block::{Block, check_work, read_block};
use sp_engine::{Answer, Engine};
use sp_ids::{BlockId, Ids, Memory};
use sp_model::Profile;
use sp_tx::Bytes;
use std::alloc::Global;
use std::marker::Model;

/// A node among others. Contracts see the profile, the bits of work, and the blocks that it keeps.
pub(crate) struct Peer {
    alloc: Global,
    engine: Engine,
    // The ids of the kept blocks in their order, without genesis.
    ids: Vec<BlockId>,
}

impl Model for Peer {
    ghost use Rattle.std.specs.Prelude.{◌≡◌};
    ghost use Rattle.sp_gossip.specs.Gossip.{others};
    ghost use Rattle.sp_gossip.specs.Peer.{Keeper};

    ghost Value = { Keeper };

    ghost view = { λ p. record {
      profile = p.engine.profile;
      bits = p.engine.bits;
      kept = p.engine.kept;
    } };

    ghost invariant = { λ p. p.ids.items ≡ others p.engine.kept };
}

// Written out, so that where a node is let go there is one call.
impl Drop for Peer {
    fn drop(self) {
        let Peer {
            alloc: _,
            engine: _,
            ids: _,
        } = self;
    }
}

// The id of the block that is kept now, where one is.
fn kept_id(answer: &Answer) -> Option<BlockId>
    ensures { result ≡ meant.kept_id answer.now }
{
    match answer {
        Answer::Kept { id, .. } | Answer::Held { id } => Some(*id),
        Answer::Known { .. } | Answer::Refused(_) | Answer::Full => None,
    }
}

impl Peer {
    /// A node of a profile that keeps genesis alone.
    ///
    /// # Errors
    ///
    /// `Memory` where its engine or its copy of the block found none.
    pub(crate) fn new(
        alloc: Global,
        genesis: &Block,
        bits: u8,
        profile: Profile,
    ) -> Result<Peer, Memory>
        requires genesis { IsGenesis genesis.now }
        requires bits { bits ≤ 64 }
        ensures { IfOk result (λ peer. peer ≡
            record { profile = profile; bits = bits; kept = genesis.now ∷ [] }) }
    {
        match read_block(alloc, genesis.bytes.as_slice(), true) {
            Ok(block) => {
                let engine = Engine::new(alloc, block, bits, profile)?;
                Ok(Peer {
                    alloc,
                    engine,
                    ids: Vec::new(alloc),
                })
            }
            Err(_) => Err(Memory),
        }
    }

    /// Bytes arrive: what becomes of them.
    ///
    /// # Errors
    ///
    /// `Memory` where there was none; the node is as before.
    pub(crate) fn arrive(&mut self, bytes: &[u8]) -> Result<Answer, Memory>
        ensures answer { IfOk result (λ answer. answer ≡ answer_of self.old.bits self.old.kept bytes.now) }
        ensures kept { OnOk result (self.new.kept ≡ kept_after self.old.bits self.old.kept bytes.now) }
        ensures profile { self.new.profile ≡ self.old.profile }
        ensures bits { self.new.bits ≡ self.old.bits }
        ensures memory { OnErr result (self.new.kept ≡ self.old.kept) }
    {
        self.ids.reserve(1)?;
        // Tells the proof what the kept blocks are.
        let _before = self.engine.kept_count();
        let answer = self.engine.offer(bytes)?;
        if let Some(id) = kept_id(&answer) {
            self.ids.push_reserved(id);
        }
        Ok(answer)
    }

    /// The ids of the kept blocks, in their order, without genesis.
    ///
    /// # Errors
    ///
    /// `Memory` where the list found none.
    pub(crate) fn told(&self) -> Result<Ids, Memory>
        ensures { IfOk result (λ ids. ids ≡ others self.now.kept) }
    {
        let list = Vec::from_slice(self.alloc, self.ids.as_slice())?;
        Ok(Ids::of(list))
    }

    // The kept block of this id.
    fn block(&self, id: &BlockId) -> Option<&Block>
        ensures { option_copied result ≡ find (λ block. block.id == id.now) self.now.kept }
    {
        self.engine.block(id)
    }

    // Whether a block of this id is kept.
    fn keeps(&self, id: &BlockId) -> bool
        ensures { result ≡ has (ids_of self.now.kept) id.now }
    {
        self.block(id).is_some()
    }

    /// Those of the ids of which no block is kept.
    ///
    /// # Errors
    ///
    /// `Memory` where the list found none.
    pub(crate) fn missing(&self, ids: &[BlockId]) -> Result<Ids, Memory>
        ensures { IfOk result (λ list. list ≡ missing self.now.kept ids.now) }
    {
        let mut list = Vec::new(self.alloc);
        'ids: for id in ids {
            if !self.keeps(id) {
                list.push(*id)?;
            }
        }
        Ok(Ids::of(list))
    }

    /// Those of the ids of which a block is kept.
    ///
    /// # Errors
    ///
    /// `Memory` where the list found none.
    pub(crate) fn held(&self, ids: &[BlockId]) -> Result<Ids, Memory>
        ensures { IfOk result (λ list. list ≡ held self.now.kept ids.now) }
    {
        let mut list = Vec::new(self.alloc);
        'ids: for id in ids {
            if self.keeps(id) {
                list.push(*id)?;
            }
        }
        Ok(Ids::of(list))
    }

    // Whether a block's bytes, if they arrived, would be known: a block of its id is kept, and no fault and
    // no work refuses them. They aren't read.
    fn knows(&self, block: &Block) -> bool
        ensures { IsTrue result → IsKnown self.now.bits self.now.kept block.now.bytes block.now.id }
    {
        // The bytes of a genesis block are refused, also where it is kept.
        if block.parents.as_slice().is_empty() {
            return false;
        }
        if !check_work(block, self.engine.bits()) {
            return false;
        }
        self.keeps(&block.id)
    }

    // What stands for a block's bytes where they arrive.
    fn piece_of(&self, block: &Block) -> Result<Piece, Memory>
        ensures { IfOk result (λ piece. StandsFor self.now.bits self.now.kept piece block.now.bytes) }
    {
        if self.knows(block) {
            return Ok(Piece::Known(block.id));
        }
        let copy = Vec::from_slice(self.alloc, block.bytes.as_slice())?;
        Ok(Piece::New(Bytes::of(copy)))
    }

    /// What stands for the bytes of the kept blocks of these ids, in order, where they arrive at the
    /// receiver. Of a block that it knows no byte is read.
    ///
    /// # Errors
    ///
    /// `Memory` where a copy or the list found none.
    pub(crate) fn pieces_for(&self, receiver: &Peer, ids: &[BlockId]) -> Result<Vec<Piece>, Memory>
        ensures { IfOk result (λ list. StandForAll receiver.now.bits receiver.now.kept list.items
            (bytes_of self.now.kept ids.now)) }
    {
        let mut list = Vec::new(self.alloc);
        'ids: for id in ids {
            if let Some(block) = self.block(id) {
                let piece = receiver.piece_of(block)?;
                list.push(piece)?;
            }
        }
        Ok(list)
    }

    // A piece arrives: what becomes of its block.
    fn take(&mut self, piece: &Piece) -> Result<Answer, Memory>
        ensures taken { IfOk result (λ answer.
            TakesPiece self.old.bits self.old.kept piece.now answer self.new.kept) }
        ensures profile { self.new.profile ≡ self.old.profile }
        ensures bits { self.new.bits ≡ self.old.bits }
    {
        match piece {
            Piece::Known(id) => Ok(Answer::Known { id: *id }),
            Piece::New(bytes) => self.arrive(bytes.as_slice()),
        }
    }

    /// Pieces arrive one after another: what becomes of the block of each.
    ///
    /// # Errors
    ///
    /// `Memory` where there was none. The first of them may have arrived then.
    pub(crate) fn take_all(&mut self, pieces: &[Piece]) -> Result<Vec<Answer>, Memory>
        ensures taken { IfOk result (λ answers.
            TakesPieces self.old.bits self.old.kept pieces.now answers.items self.new.kept) }
        ensures profile { self.new.profile ≡ self.old.profile }
        ensures bits { self.new.bits ≡ self.old.bits }
    {
        let mut answers = Vec::with_capacity(self.alloc, pieces.len())?;
        'pieces: for piece in pieces {
            let answer = self.take(piece)?;
            answers.push(answer)?;
        }
        Ok(answers)
    }

    /// The engine.
    pub(crate) fn engine(&self) -> &Engine
        ensures profile { result.now.profile ≡ self.now.profile }
        ensures bits { result.now.bits ≡ self.now.bits }
        ensures kept { result.now.kept ≡ self.now.kept }
    {
        &self.engine
    }
}
