//! Blocks without transactions: what the tests of pools, of engines and of lines stand on.

ghost use Rattle.std.specs.Prelude.{◌≡◌, ◌+◌, IfOk, OnOk, length};
ghost use Rattle.sp_block.specs.Block.{IsGenesis};

use sp_block::{Block, Draft, Parents, draft_bytes, read_block};
use sp_ids::BlockId;
use sp_tx::Txs;
use std::alloc::Global;
use std::test::Fail;

/// The smallest genesis block.
pub const GENESIS: [u8; 20] = [1, 0, 0, 0, 0, 0, 0, 0, 0, 0, 0, 0, 0, 0, 0, 0, 0, 0, 0, 0];

/// An id that no block has.
pub const NOBODY: [u8; 32] = [9; 32];

/// The genesis block that these bytes spell.
pub fn genesis_of(alloc: Global, bytes: &[u8]) -> Result<Block, Fail>
    ensures { IfOk result IsGenesis }
{
    Ok(read_block(alloc, bytes, true)?)
}

/// The bytes of a block without transactions.
fn spelled(alloc: Global, salt: u64, nonce: u64, parents: &[BlockId]) -> Result<Vec<u8>, Fail> {
    if parents.len() > 64 {
        return Err("more than 64 parents".into());
    }
    let draft = Draft {
        salt,
        parents: Parents::of(Vec::from_slice(alloc, parents)?),
        txs: Txs::of(Vec::new(alloc)),
    };
    Ok(draft_bytes(alloc, &draft, nonce)?)
}

/// Blocks by number, each with its bytes and its id; genesis is number 0. The salt of a block is its
/// number where it is given none.
pub struct Numbered {
    pub alloc: Global,
    pub texts: Vec<Vec<u8>>,
    pub ids: Vec<BlockId>,
}

// Written out, as are those of the tests' own values, so that where they are let go there is one call:
// each such place is proved.
impl Drop for Numbered {
    fn drop(self) {
        let Numbered {
            alloc: _,
            texts,
            ids,
        } = self;
        drop(texts);
        drop(ids);
    }
}

impl Numbered {
    /// Genesis, and then blocks with these parents.
    pub fn of(alloc: Global, blocks: &[&[usize]]) -> Result<Numbered, Fail> {
        let mut all = Numbered {
            alloc,
            texts: Vec::new(alloc),
            ids: Vec::new(alloc),
        };
        all.add(&[])?;
        for parents in blocks {
            all.add(parents)?;
        }
        Ok(all)
    }

    /// One block more, whose salt is its number.
    pub fn add(&mut self, parents: &[usize]) -> Result<(), Fail>
        ensures { OnOk result (length self.new.ids.items ≡ length self.old.ids.items + 1) }
    {
        let number = self.ids.len() as u64;
        self.put(number, 0, parents)
    }

    /// One block more of a salt that others may have. Its nonce is its number, so that two blocks of one
    /// salt on the same parents differ.
    pub fn add_salted(&mut self, salt: u64, parents: &[usize]) -> Result<(), Fail>
        ensures { OnOk result (length self.new.ids.items ≡ length self.old.ids.items + 1) }
    {
        let number = self.ids.len() as u64;
        self.put(salt, number, parents)
    }

    fn put(&mut self, salt: u64, nonce: u64, parents: &[usize]) -> Result<(), Fail>
        ensures { OnOk result (length self.new.ids.items ≡ length self.old.ids.items + 1) }
    {
        let mut ids = Vec::new(self.alloc);
        for parent in parents {
            ids.push(self.id(*parent))?;
        }
        let text = spelled(self.alloc, salt, nonce, &ids)?;
        self.ids.push(BlockId::of(&text))?;
        self.texts.push(text)?;
        Ok(())
    }

    /// A number that no block has gives an id that no block has.
    pub fn id(&self, number: usize) -> BlockId {
        self.ids
            .get(number)
            .copied()
            .unwrap_or(BlockId::from_bytes(NOBODY))
    }

    /// The bytes of a block; none where there is no such block.
    pub fn text(&self, number: usize) -> &[u8] {
        match self.texts.get(number) {
            Some(text) => text,
            None => &[],
        }
    }

    /// The bytes of these blocks.
    pub fn chosen(&self, numbers: &[usize]) -> Result<Vec<Vec<u8>>, Fail> {
        let mut texts = Vec::new(self.alloc);
        for number in numbers {
            texts.push(Vec::from_slice(self.alloc, self.text(*number))?)?;
        }
        Ok(texts)
    }
}
