//! Blocks in order of arrival, by place and by id, each with a mark and with how many of its
//! parents were seen to be marked. The table stands apart because it doesn't know what a mark
//! means. A look-up by id goes through a hash table, and all else but `unmarked` takes a
//! bounded number of steps.

ghost use Rattle.std.specs.Prelude.{◌≡◌, ◌<◌, ◌-◌, ◌++◌, ◌∷◌, [], count_by, false, IfOk, IsFalse, length, nat_eq, not, OnErr, OnOk, position, slice_get, slice_set, take, true, vec_capacity, vec_len};
ghost use Rattle.std.specs.Option.{option_map};
ghost use Rattle.indexmap.specs.IndexMap.{keys, values};
ghost use Rattle.sp_model.specs.Graph.{has};
ghost use Rattle.sp_block.specs.Block.{ReadBlock};
ghost use Rattle.sp_pool.specs.Kept.{AreApart, ids_of};

use indexmap::IndexMap;
use sp_block::Block;
use sp_ids::{BlockId, Memory};
use std::alloc::{AllocError, Global};
use std::marker::Model;

/// Blocks by place and by id.
pub struct Entries {
    blocks: IndexMap<BlockId, Block>,
    marks: Vec<bool>,
    // How many of a block's parents, from the first, were seen to be marked.
    seen: Vec<usize>,
}

// Written out, so that where a pool is let go there is one call.
impl Drop for Entries {
    fn drop(self) {
        let Entries {
            blocks: _,
            marks: _,
            seen: _,
        } = self;
    }
}

impl Model for Entries {
    ghost use Rattle.indexmap.specs.IndexMap.{values};
    ghost use Rattle.sp_pool.specs.Marks.{Marked};

    ghost Value = { Marked };

    ghost use Rattle.sp_pool.specs.Keyed.{AreKeyed};

    ghost view = { λ e.
        record { blocks = values e.blocks; marks = e.marks.items; seen = e.seen.items } };

    ghost invariant = { AreKeyed };
}

// One block by its id.
fn map_of(alloc: Global, first: Block) -> Result<IndexMap<BlockId, Block>, Memory>
    ensures keys { IfOk result (λ blocks. keys blocks ≡ first.id ∷ []) }
    ensures values { IfOk result (λ blocks. values blocks ≡ first ∷ []) }
{
    let mut blocks = IndexMap::new(alloc);
    let replaced = blocks.insert(first.id, first)?;
    drop(replaced);
    Ok(blocks)
}

// Makes room for one entry more in each list.
fn make_room(marks: &mut Vec<bool>, seen: &mut Vec<usize>) -> Result<(), AllocError>
    ensures marks { marks.new.items ≡ marks.old.items }
    ensures seen { seen.new.items ≡ seen.old.items }
    ensures room { OnOk result ((vec_len marks.new < vec_capacity marks.new)
        × (vec_len seen.new < vec_capacity seen.new)) }
{
    marks.reserve(1)?;
    seen.reserve(1)
}

impl Entries {
    ghost use Rattle.sp_pool.specs.Marks.{marked, unmarked, with_unmarked};

    /// One block, which is marked.
    pub fn new(alloc: Global, first: Block) -> Result<Entries, Memory>
        ensures { IfOk result (λ entries. entries ≡ marked (first ∷ []) (true ∷ []) (0 ∷ [])) }
    {
        let blocks = map_of(alloc, first)?;
        let marks = Vec::from_slice(alloc, &[true])?;
        let seen = Vec::from_slice(alloc, &[0])?;
        Ok(Entries {
            blocks,
            marks,
            seen,
        })
    }

    /// How many blocks there are.
    pub fn len(&self) -> usize
        ensures len { result ≡ length self.now.blocks }
        ensures marks { length self.now.marks ≡ length self.now.blocks }
        ensures apart { AreApart self.now.blocks }
    {
        self.blocks.len()
    }

    /// The place of the block with this id.
    pub fn place_of(&self, id: &BlockId) -> Option<usize>
        ensures { result ≡ position (nat_eq id.now) (ids_of self.now.blocks) }
    {
        self.blocks.get_index_of(id)
    }

    /// The block at a place.
    pub fn block_at(&self, place: usize) -> &Block
        requires { place < length self.now.blocks }
        ensures { slice_get self.now.blocks place ≡ Some result.now }
    {
        &self.blocks[place]
    }

    /// The id of the block at a place.
    pub fn id_at(&self, place: usize) -> BlockId
        requires { place < length self.now.blocks }
        ensures { option_map (λ (b : ReadBlock). b.id) (slice_get self.now.blocks place)
            ≡ Some result }
    {
        self.block_at(place).id
    }

    /// The ids of the parents of the block at a place.
    pub fn parents_at(&self, place: usize) -> &[BlockId]
        requires { place < length self.now.blocks }
        ensures { option_map (λ (b : ReadBlock). b.parents) (slice_get self.now.blocks place)
            ≡ Some result.now }
    {
        self.block_at(place).parents.as_slice()
    }

    /// Whether the block at a place is marked.
    pub fn is_marked_at(&self, place: usize) -> bool
        requires { place < length self.now.blocks }
        ensures { slice_get self.now.marks place ≡ Some result }
    {
        self.marks[place]
    }

    /// How many of the parents of the block at a place were seen to be marked, from the first.
    pub fn seen_at(&self, place: usize) -> usize
        requires { place < length self.now.blocks }
        ensures { slice_get self.now.seen place ≡ Some result }
    {
        self.seen[place]
    }

    /// Marks the block at a place.
    pub fn mark(&mut self, place: usize)
        requires { place < length self.old.blocks }
        ensures { self.new ≡ record self.old { marks = slice_set self.old.marks place true } }
    {
        self.marks[place] = true;
    }

    /// Notes how many of the parents of the block at a place were seen to be marked.
    pub fn see(&mut self, place: usize, count: usize)
        requires { place < length self.old.blocks }
        ensures { self.new ≡ record self.old { seen = slice_set self.old.seen place count } }
    {
        self.seen[place] = count;
    }

    /// Adds a block, which isn't marked. After `Memory` the table is as before.
    pub fn push(&mut self, block: Block) -> Result<(), Memory>
        requires { IsFalse (has (ids_of self.old.blocks) block.id) }
        ensures ok { OnOk result (self.new ≡ with_unmarked self.old block) }
        ensures err { OnErr result (self.new ≡ self.old) }
    {
        make_room(&mut self.marks, &mut self.seen)?;
        let replaced = self.blocks.insert(block.id, block)?;
        drop(replaced);
        self.marks.push_reserved(false);
        self.seen.push_reserved(0);
        Ok(())
    }

    /// Takes the last block back, and every mark.
    pub fn pop_unmarked(&mut self)
        ensures { self.new ≡ unmarked (take (length self.old.blocks - 1) self.old.blocks) }
    {
        let len = self.len().saturating_sub(1);
        self.blocks.truncate(len);
        self.marks.truncate(len);
        self.seen.truncate(len);
        self.marks.fill(false);
        self.seen.fill(0);
    }

    /// How many blocks aren't marked.
    pub fn unmarked(&self) -> usize
        ensures { result ≡ count_by not self.now.marks }
    {
        self.marks.iter().filter(|mark| !**mark).count()
    }
}
