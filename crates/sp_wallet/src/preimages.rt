//! The words of a wallet.

ghost use Rattle.std.specs.Prelude.{◌≡◌, ◌≤◌, ◌<◌, ◌++◌, ◌∷◌, [], All, length, OnErr, OnOk};
ghost use Rattle.sp_wallet.specs.Keys.{IsWord};

use sp_ids::Memory;
use sp_tx::Bytes;
use std::alloc::Global;
use std::marker::Model;

/// Words that open locks, at most 16 of them, each of 1 to 64 bytes. Contracts see them as a list of
/// lists of bytes.
#[derive(Debug, Drop)]
pub struct Preimages {
    alloc: Global,
    words: Vec<Bytes>,
}

impl Model for Preimages {
    ghost use Rattle.std.specs.Prelude.{List, ℕ};
    ghost use Rattle.sp_wallet.specs.Keys.{AreWords};

    ghost Value = { List (List ℕ) };

    ghost view = { λ p. p.words.items };

    ghost invariant = { λ p. AreWords p.words.items };
}

impl Preimages {
    /// No words yet.
    pub fn new(alloc: Global) -> Preimages
        ensures { result ≡ [] }
    {
        Preimages {
            alloc,
            words: Vec::new(alloc),
        }
    }

    /// Puts a word behind the others.
    ///
    /// # Errors
    ///
    /// Memory was refused; the words are as before.
    pub fn push(&mut self, word: &[u8]) -> Result<(), Memory>
        requires some { 1 ≤ length word.now }
        requires short { length word.now ≤ 64 }
        requires few { length self.old < 16 }
        ensures ok { OnOk result (self.new ≡ self.old ++ word.now ∷ []) }
        ensures err { OnErr result (self.new ≡ self.old) }
    {
        let copy = word.to_vec(self.alloc)?;
        self.words.push(Bytes::of(copy))?;
        Ok(())
    }

    /// How many words there are.
    pub fn len(&self) -> usize
        ensures value { result ≡ length self.now }
        ensures few { result ≤ 16 }
    {
        self.words.len()
    }

    /// The words, in their order.
    pub(crate) fn as_slice(&self) -> &[Bytes]
        ensures value { result.now ≡ self.now }
        ensures few { length result.now ≤ 16 }
        ensures each { All IsWord result.now }
    {
        &self.words
    }
}
