//! The raw memory of a chunk: room for 2,048 words, which never moves. Each function of this crate
//! that holds a pointer stands here, so that all others see a list of words. A `Start` is the
//! pointer, and an `Owned` what lies behind it.

ghost use Rattle.std.specs.Prelude.{◌≡◌, ◌+◌, ◌<◌, ◌≤◌, ◌++◌, ◌∷◌, [], ℕ, List, length, take, drop, IfOk};
ghost use Rattle.std.specs.Borrow.{sem};
ghost use denote.RawPtr.{Ptr};
ghost use Rattle.sp_rows.specs.Ownership.{words_own, words_lent};

use std::alloc::{AllocError, Allocator, Global};
use std::marker::{Model, PhantomData};
use std::slice;

/// How many words a chunk has room for.
pub(crate) const CHUNK_WORDS: usize = 2048;

/// Where the room begins. It owns nothing.
#[derive(Clone, Copy)]
pub struct Start {
    ptr: *mut u64,
}

/// The owner of the words that are written, of the room behind them, and of the right to free both.
/// It takes no space.
pub struct Owned {
    mark: PhantomData<*const u64>,
    ghost at: { Ptr },
    ghost words: { List ℕ },
}

impl Model for Owned {
    ghost also_owns = { λ o. words_own o.at o.words };

    ghost also_shares = { λ o _ κ. words_lent o.at o.words κ };
}

/// Room in which nothing is written yet.
pub(crate) fn allocate(alloc: &Global) -> Result<(Start, Owned), AllocError>
    ensures { IfOk result (λ r. (r.1.at ≡ r.0.ptr) × (r.1.words ≡ [])) }
{
    match alloc.allocate(16384, 8) {
        Ok(block) => {
            let start = Start {
                ptr: block as *mut u64,
            };
            Ok((start, Owned { mark: PhantomData }))
        }
        Err(error) => Err(error),
    }
}

/// Gives the room back, with all that is written there.
pub(crate) fn deallocate(alloc: &Global, start: Start, owned: Owned)
    requires { (owned.at ≡ start.ptr) × (length owned.words ≤ 2048) }
{
    let Owned { mark: _ } = owned;
    unsafe {
        alloc.deallocate(start.ptr as *mut u8, 16384, 8);
    }
}

impl Owned {
    ghost use Rattle.sp_rows.specs.RawLends.{lends_eight};

    /// Writes one more word, behind those that are written.
    pub(crate) fn push(&mut self, start: Start, index: usize, word: u64)
        requires { (self.old.at ≡ start.ptr) × (index ≡ length self.old.words) × (index < 2048) }
        ensures { (self.new.at ≡ self.old.at) × (self.new.words ≡ self.old.words ++ word ∷ []) }
    {
        unsafe { start.ptr.add(index).write(word) }
    }

    /// The eight words from `from` on.
    pub(crate) fn eight(&self, start: Start, from: usize) -> &[u64]
        requires { (self.now.at ≡ start.ptr) × (from + 8 ≤ length self.now.words) × (length self.now.words ≤ 2048) }
        ensures { result.now ≡ take 8 (drop from self.now.words) }
    {
        unsafe { slice::from_raw_parts(start.ptr.add(from), 8) }
    }

    /// The same, to be written.
    pub(crate) fn eight_mut(&mut self, start: Start, from: usize) -> &mut [u64]
        requires { (self.old.at ≡ start.ptr) × (from + 8 ≤ length self.old.words) × (length self.old.words ≤ 2048) }
        ensures* writes_back { sem 𝓛 (lends_eight self.entry from result) }
        ensures value { result.now ≡ take 8 (drop from self.old.words) }
    {
        unsafe { slice::from_raw_parts_mut(start.ptr.add(from), 8) }
    }
}
