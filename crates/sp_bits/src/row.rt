//! A row of places. It is a bit for each place, in eight words of 64. Outside this file and `words`
//! that is seen by the calls `words` and `from_words` alone.

ghost use Rattle.std.specs.Prelude.{◌≡◌, ◌<◌, ◌≤◌, ◌==◌, ◌||◌, ◌&&◌, ◌↔◌, not, ℕ, [], length, pos, ◌-ℤ◌, IfSome, IsNone, IsTrue};
ghost use Rattle.std.specs.List.{list_all};
ghost use Rattle.sp_bits.specs.Places.{has, places_where, union, meet, difference, members_below, IsRow, IsGreatest};
ghost use Rattle.sp_bits.specs.Words.{bit_in, words_of};

use crate::words::{are_same, count_both, count_span, count_two, implies, last_before, last_of};
use std::marker::Model;

/// A set of places below 512. Contracts see the ascending list of them. It has one size,
/// whatever its places. A copy takes no memory.
#[derive(Clone, Copy)]
pub struct Row {
    words: [u64; 8],
}

impl Model for Row {
    ghost use Rattle.std.specs.Prelude.{◌≡◌, ℕ, List, refl};
    ghost use Rattle.sp_bits.specs.Places.{places_where};
    ghost use Rattle.sp_bits.specs.Words.{bit_in, words_of, words_of_places, AreWords};

    ghost Value = { List ℕ };

    ghost view = { λ row. places_where (bit_in row.words) };

    ghost invariant = { λ row. AreWords row.words };

    ghost inverse = { λ set. record { words = words_of set } };

    ghost inverse_ok = { λ row are. rw (words_of_places row.words are) refl };
}

impl Row {
    /// The row that has no place.
    pub fn empty() -> Row
        ensures { result ≡ [] }
    {
        Row { words: [0; 8] }
    }

    /// The row of the places that eight words stand for: place p is bit p % 64, counted from the
    /// lowest, of word p / 64.
    pub fn from_words(words: &[u64]) -> Row
        requires { length words.now ≡ 8 }
        ensures { result ≡ places_where (bit_in words.now) }
    {
        let mut own = [0; 8];
        own.copy_from_slice(words);
        Row { words: own }
    }

    /// Adds a place, in a bounded number of steps.
    pub fn set(&mut self, place: u16)
        requires { place < 512 }
        ensures { self.new ≡ places_where (λ p. has self.old p || (p == place)) }
    {
        self.words[place as usize / 64] |= 1 << (place % 64);
    }

    /// Takes a place out, in a bounded number of steps.
    pub fn clear(&mut self, place: u16)
        requires { place < 512 }
        ensures { self.new ≡ places_where (λ p. has self.old p && not (p == place)) }
    {
        self.words[place as usize / 64] &= !(1 << (place % 64));
    }

    /// Takes all places from this one on out, in eight steps at most.
    pub fn clear_from(&mut self, place: u16)
        ensures { self.new ≡ members_below self.old place }
    {
        if place >= 512 {
            // Tells the proof what a row is.
            let _first = self.words[0];
            return;
        }
        let word = place as usize / 64;
        self.words[word] &= (1 << (place % 64)) - 1;
        'words: for above in word + 1..8 {
            self.words[above] = 0;
        }
    }

    /// Whether it has the place, in a bounded number of steps. What a row is stands here too, for
    /// each caller: the list ascends, and each place of it is below 512.
    pub fn test(&self, place: u16) -> bool
        requires { place < 512 }
        ensures value { result ≡ has self.now place }
        ensures row { IsRow self.now }
    {
        (self.words[place as usize / 64] >> (place % 64)) & 1 == 1
    }

    /// The union with another row, in eight steps.
    pub fn or_with(&mut self, other: &Row)
        ensures { self.new ≡ union self.old other.now }
    {
        'words: for word in 0..8 {
            self.words[word] |= other.words[word];
        }
    }

    /// The meet with another row, in eight steps.
    pub fn and_with(&mut self, other: &Row)
        ensures { self.new ≡ meet self.old other.now }
    {
        'words: for word in 0..8 {
            self.words[word] &= other.words[word];
        }
    }

    /// Takes the places of another row out, in eight steps.
    pub fn without(&mut self, other: &Row)
        ensures { self.new ≡ difference self.old other.now }
    {
        'words: for word in 0..8 {
            self.words[word] &= !other.words[word];
        }
    }

    /// Whether the other row has each of its places, in eight steps at most.
    pub fn within(&self, other: &Row) -> bool
        ensures { result ≡ list_all (has other.now) self.now }
    {
        implies(&self.words, &other.words)
    }

    /// Whether two rows have the same places, in eight steps.
    pub fn same(&self, other: &Row) -> bool
        ensures { IsTrue result ↔ (self.now ≡ other.now) }
    {
        are_same(&self.words, &other.words)
    }

    /// How many places it has, from 0 to 512, in eight steps. What a row is stands here
    /// too, for each caller: the list ascends, and each place of it is below 512.
    pub fn count(&self) -> u32
        ensures value { result ≡ length self.now }
        ensures bound { result ≤ 512 }
        ensures row { IsRow self.now }
    {
        count_both(&self.words, &self.words)
    }

    /// How many places both rows have, from 0 to 512, in eight steps.
    pub fn count_and(&self, other: &Row) -> u32
        ensures value { result ≡ length (meet self.now other.now) }
        ensures bound { result ≤ 512 }
    {
        count_both(&self.words, &other.words)
    }

    /// How many places it shares with `plus`, less how many it shares with `minus`: from -512 to
    /// 512, in eight steps.
    pub fn balance(&self, plus: &Row, minus: &Row) -> i32
        ensures { result ≡
            pos (length (meet self.now plus.now)) -ℤ pos (length (meet self.now minus.now)) }
    {
        let (more, less) = count_two(&self.words, &plus.words, &minus.words);
        more as i32 - less as i32
    }

    /// How many places it shares with `plus`, and how many with `minus`, from 0 to 512, where all of
    /// its places are from one on and below another one. It takes a step for each two words between
    /// these two.
    pub fn count_span(&self, plus: &Row, minus: &Row, from: u16, end: u16) -> (u32, u32)
        requires within { (p : ℕ) → IsTrue (has self.now p) → (from ≤ p) × (p < end) }
        ensures plus { result.0 ≡ length (meet self.now plus.now) }
        ensures minus { result.1 ≡ length (meet self.now minus.now) }
        ensures bound { (result.0 ≤ 512) × (result.1 ≤ 512) }
    {
        count_span(&self.words, &plus.words, &minus.words, from, end)
    }

    /// Its greatest place, in eight steps at most.
    pub fn highest(&self) -> Option<u16>
        ensures some { IfSome result (IsGreatest self.now) }
        ensures none { IsNone result ↔ (self.now ≡ []) }
        ensures range { IfSome result (λ place. place < 512) }
    {
        last_of(&self.words, 8)
    }

    /// Its greatest place below this one, in eight steps at most.
    pub fn highest_below(&self, place: u16) -> Option<u16>
        requires { place < 512 }
        ensures some { IfSome result (IsGreatest (members_below self.now place)) }
        ensures none { IsNone result ↔ (members_below self.now place ≡ []) }
        ensures range { IfSome result (λ found. found < place) }
    {
        last_before(&self.words, place)
    }

    /// Its eight words: place p is bit p % 64, counted from the lowest, of word p / 64.
    pub fn words(&self) -> &[u64]
        ensures words { result.now ≡ words_of self.now }
        ensures places { places_where (bit_in result.now) ≡ self.now }
    {
        &self.words
    }
}
