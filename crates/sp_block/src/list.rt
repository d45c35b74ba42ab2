//! Lists that contracts see as lists, without where they lie in memory.

ghost use Rattle.std.specs.Prelude.{◌≡◌};

use crate::block::Block;
use sp_ids::BlockId;
use std::marker::Model;

/// The ids of a block's parents.
#[derive(Debug, Drop)]
pub struct Parents {
    list: Vec<BlockId>,
}

impl Model for Parents {
    ghost use Rattle.std.specs.Prelude.{List, ℕ};

    ghost Value = { List ℕ };

    ghost view = { λ l. l.list.items };
}

impl Parents {
    /// The list of these elements. It takes a bounded number of steps, as `as_slice` does.
    pub fn of(list: Vec<BlockId>) -> Parents
        ensures { result ≡ list.items }
    {
        Parents { list }
    }

    /// Its elements.
    pub fn as_slice(&self) -> &[BlockId]
        ensures { result.now ≡ self.now }
    {
        self.list.as_slice()
    }
}

/// Blocks, one after another.
#[derive(Debug, Drop)]
pub struct Blocks {
    list: Vec<Block>,
}

impl Model for Blocks {
    ghost use Rattle.std.specs.Prelude.{List};
    ghost use Rattle.sp_block.specs.Block.{ReadBlock};

    ghost Value = { List ReadBlock };

    ghost view = { λ l. l.list.items };
}

impl Blocks {
    /// The list of these elements. It takes a bounded number of steps, as `as_slice` does.
    pub fn of(list: Vec<Block>) -> Blocks
        ensures { result ≡ list.items }
    {
        Blocks { list }
    }

    /// Its elements.
    pub fn as_slice(&self) -> &[Block]
        ensures { result.now ≡ self.now }
    {
        self.list.as_slice()
    }
}
