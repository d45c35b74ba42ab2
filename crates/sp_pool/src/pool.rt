//! The pool. It stands apart from the release of blocks because here the marks have their meaning:
//! the marked blocks are the present ones.

ghost use Rattle.std.specs.Prelude.{◌≡◌, ◌==◌, ◌||◌, ◌<◌, ◌++◌, ◌∷◌, [], ℕ, count_by, List, find, IfOk, length, not, OnErr, OnOk};
ghost use Rattle.std.specs.List.{list_all};
ghost use Rattle.std.specs.Option.{option_copied};
ghost use Rattle.sp_block.specs.Block.{IsGenesis, IsOther, ReadBlock};
ghost use Rattle.sp_model.specs.Graph.{has};
ghost use Rattle.sp_pool.specs.Kept.{AreKept, keep, present, standing_of};
ghost use Rattle.sp_pool.specs.Offers.{IsAnswer, released_by};

use crate::answers::{Offer, Standing};
use crate::entries::Entries;
use crate::release::{is_marked, mark_ready, marked_front, release};
use sp_block::Block;
use sp_ids::{BlockId, Memory};
use std::alloc::Global;
use std::marker::Model;

/// The most blocks that are kept, genesis and waiting ones included.
const MOST_KEPT: usize = 512;

/// The kept blocks, and which of them are present. Contracts see the kept blocks in their order.
#[derive(Drop)]
pub struct Pool {
    alloc: Global,
    entries: Entries,
}

impl Model for Pool {
    ghost use Rattle.std.specs.Prelude.{List};
    ghost use Rattle.sp_block.specs.Block.{ReadBlock};

    ghost Value = { List ReadBlock };

    ghost use Rattle.sp_pool.specs.Pool.{IsPool};

    ghost view = { λ p. p.entries.blocks };

    ghost invariant = { λ p. IsPool p.entries };
}

impl Pool {
    /// A pool of genesis alone, which is present.
    ///
    /// # Errors
    ///
    /// `Memory` where the pool's tables found none.
    pub fn new(alloc: Global, genesis: Block) -> Result<Pool, Memory>
        requires { IsGenesis genesis }
        ensures kept { IfOk result (λ pool. pool ≡ genesis ∷ []) }
        ensures present { IfOk result (λ pool. present pool ≡ genesis.id ∷ []) }
    {
        prove!(genesis.parents.as_slice().is_empty());
        let entries = Entries::new(alloc, genesis)?;
        Ok(Pool { alloc, entries })
    }

    /// Whether a block with this id is kept, and where not, whether there is room for one. It takes
    /// about the time of a look-up by hash.
    pub fn standing(&self, id: &BlockId) -> Standing
        ensures { result ≡ standing_of self.now id.now }
    {
        let has_room = self.entries.len() < MOST_KEPT;
        let is_known = self.entries.place_of(id).is_some();
        if is_known {
            Standing::Known
        } else if has_room {
            Standing::Fresh
        } else {
            Standing::Full
        }
    }

    /// Keeps the block where its id is fresh, and answers what became of it: `Known` where a block
    /// of its id is kept, else `Full` where 512 blocks are, else `Waiting` where one of its
    /// ancestors isn't present, else `Present` with the ids of the blocks that became so.
    ///
    /// Over the whole life of a pool its offers take time in proportion to the parents of the kept
    /// blocks, and to the kept blocks for each turn that looks for the next block to become present;
    /// there are about two turns for a block.
    ///
    /// # Errors
    ///
    /// `Memory` where the tables or the list of ids found none. The pool is then as before, and the
    /// block is dropped.
    pub fn offer(&mut self, block: Block) -> Result<Offer, Memory>
        requires { IsOther block }
        ensures kept { OnOk result (self.new ≡ keep self.old block) }
        ensures answer { IfOk result (IsAnswer self.old block) }
        ensures grown { IfOk result (λ offer. (id : ℕ) →
            has (present self.new) id ≡ (has (present self.old) id || has (released_by offer) id)) }
        ensures memory { OnErr result (self.new ≡ self.old) }
    {
        match self.standing(&block.id) {
            Standing::Known => Ok(Offer::Known),
            Standing::Full => Ok(Offer::Full),
            Standing::Fresh => self.add(block),
        }
    }

    // Whether all these ids are of present blocks.
    fn has_all(&self, ids: &[BlockId]) -> bool
        ensures { result ≡ list_all (has (present self.now)) ids.now }
    {
        ids.len() <= marked_front(&self.entries, ids, 0)
    }

    // Keeps a block whose id is fresh.
    fn add(&mut self, block: Block) -> Result<Offer, Memory>
        requires fresh { standing_of self.old block.id ≡ Standing.Fresh }
        requires other { IsOther block }
        ensures kept { OnOk result (self.new ≡ keep self.old block) }
        ensures answer { IfOk result (IsAnswer self.old block) }
        ensures grown { IfOk result (λ offer. (id : ℕ) →
            has (present self.new) id ≡ (has (present self.old) id || has (released_by offer) id)) }
        ensures memory { OnErr result (self.new ≡ self.old) }
    {
        if self.has_all(block.parents.as_slice()) {
            let ids = Vec::with_capacity(self.alloc, self.entries.unmarked() + 1)?;
            self.entries.push(block)?;
            Ok(Offer::Present(release(&mut self.entries, ids)))
        } else {
            self.entries.push(block)?;
            Ok(Offer::Waiting)
        }
    }

    /// Takes the last kept block back: the pool is as it was before that block was offered. So it
    /// takes back the last offer where the answer was `Waiting` or `Present`. It looks at all kept
    /// blocks anew, and takes no memory.
    pub fn withdraw(&mut self)
        requires { 1 < length self.old }
        ensures { (before : List ReadBlock) (block : ReadBlock) →
            self.old ≡ before ++ block ∷ [] → self.new ≡ before }
    {
        self.entries.pop_unmarked();
        mark_ready(&mut self.entries);
    }

    /// The kept block with this id, or `None` where there is none. It takes about the time of a
    /// look-up by hash.
    pub fn block(&self, id: &BlockId) -> Option<&Block>
        ensures { option_copied result ≡ find (λ block. block.id == id.now) self.now }
    {
        match self.entries.place_of(id) {
            Some(place) => Some(self.entries.block_at(place)),
            None => None,
        }
    }

    /// Whether a block with this id is kept and present. It takes about the time of a look-up by
    /// hash.
    pub fn is_present(&self, id: &BlockId) -> bool
        ensures { result ≡ has (present self.now) id.now }
    {
        is_marked(&self.entries, id)
    }

    /// How many blocks are kept, from 1 to 512: genesis and the waiting ones count.
    pub fn kept(&self) -> u16
        ensures count { result ≡ length self.now }
        ensures blocks { AreKept self.now }
    {
        self.entries.len() as u16
    }

    /// How many kept blocks aren't present. It takes time in proportion to the kept blocks.
    pub fn waiting(&self) -> u16
        ensures { result ≡ count_by (λ block. not (has (present self.now) block.id)) self.now }
    {
        self.entries.unmarked() as u16
    }
}
