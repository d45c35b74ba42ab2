//! Chunks as one store of rows, by number. A chunk is never given back before the last of them is.

ghost use Rattle.std.specs.Prelude.{◌≡◌, ◌<◌, ◌≤◌, ◌*◌, ◌^◌, ◌++◌, ◌∷◌, [], ℕ, length, replicate, OnOk, OnErr};
ghost use Rattle.std.specs.Borrow.{sem};

use crate::chunk::{Chunk, ROWS};
use sp_ids::Memory;
use std::alloc::Global;
use std::marker::Model;

/// Chunks of 256 rows. Contracts see the list of the words of each.
#[derive(Drop)]
pub struct Chunks {
    list: Vec<Chunk>,
}

impl Model for Chunks {
    ghost use Rattle.std.specs.Prelude.{ℕ, List};

    ghost Value = { List (List ℕ) };

    ghost view = { λ c. c.list.items };
}

impl Chunks {
    ghost use Rattle.sp_rows.specs.ChunksLends.{lends_words};
    ghost use Rattle.sp_rows.specs.Kept.{words_at, with_words_at, Grows};

    /// No chunks.
    pub(crate) fn new(alloc: Global) -> Chunks
        ensures { result ≡ [] }
    {
        Chunks {
            list: Vec::new(alloc),
        }
    }

    /// Makes room for so many rows in all, by chunks of zeros. After want of memory some of these
    /// chunks may be there.
    pub(crate) fn make_room(&mut self, alloc: Global, rows: usize) -> Result<(), Memory>
        requires { rows ≤ 2 ^ 32 }
        ensures ok { OnOk result (rows ≤ 256 * length self.new) }
        ensures grows { Grows self.old self.new }
    {
        let wanted = (rows + ROWS - 1) / ROWS;
        'chunks: while self.list.len() < wanted {
            self.add(alloc)?;
        }
        Ok(())
    }

    // Adds a chunk of zeros.
    fn add(&mut self, alloc: Global) -> Result<(), Memory>
        ensures ok { OnOk result (self.new ≡ self.old ++ replicate 2048 0 ∷ []) }
        ensures err { OnErr result (self.new ≡ self.old) }
    {
        self.list.reserve(1)?;
        let chunk = Chunk::new(alloc)?;
        self.list.push_reserved(chunk);
        Ok(())
    }

    /// The words of a row.
    pub(crate) fn words(&self, id: u32) -> &[u64]
        requires { id < 256 * length self.now }
        ensures value { result.now ≡ words_at self.now id }
        ensures eight { length result.now ≡ 8 }
    {
        self.list[id as usize / ROWS].words(id as usize % ROWS)
    }

    /// The same, to be written.
    pub(crate) fn words_mut(&mut self, id: u32) -> &mut [u64]
        requires { id < 256 * length self.old }
        ensures* writes_back { sem 𝓛 (lends_words self.entry id result) }
        ensures value { result.now ≡ words_at self.old id }
        ensures eight { length result.now ≡ 8 }
    {
        let chunk = &mut self.list[id as usize / ROWS];
        chunk.words_mut(id as usize % ROWS)
    }

    /// Writes a row's words.
    pub(crate) fn write(&mut self, id: u32, words: &[u64])
        requires within { id < 256 * length self.old }
        requires eight { length words.now ≡ 8 }
        ensures { self.new ≡ with_words_at self.old id words.now }
    {
        self.words_mut(id).copy_from_slice(words);
    }
}
