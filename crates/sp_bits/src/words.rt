//! What is read from the words of rows. It stands apart from the rows so that each loop speaks of
//! plain lists of numbers.

ghost use Rattle.std.specs.Prelude.{◌≡◌, ◌+◌, ◌*◌, ◌<◌, ◌≤◌, ◌&&◌, ◌↔◌, ℕ, true, false, length, IfSome, IfNone, IsTrue};
ghost use Rattle.std.specs.List.{list_all};
ghost use Rattle.sp_bits.specs.Places.{places_where};
ghost use Rattle.sp_bits.specs.Words.{bit_in, shared_in, IsLast, IsTop};

// How many places both have.
pub(crate) fn count_both(one: &[u64; 8], other: &[u64; 8]) -> u32
    ensures count { result ≡ length (places_where (λ p. bit_in one.now p && bit_in other.now p)) }
    ensures bound { result ≤ 512 }
{
    let mut count = 0;
    'words: for word in 0..8 {
        count += (one[word] & other[word]).count_ones();
    }
    count
}

// How many places it shares with `plus`, and how many with `minus`.
pub(crate) fn count_two(own: &[u64; 8], plus: &[u64; 8], minus: &[u64; 8]) -> (u32, u32)
    ensures plus { result.0 ≡ length (places_where (λ p. bit_in own.now p && bit_in plus.now p)) }
    ensures minus { result.1 ≡ length (places_where (λ p. bit_in own.now p && bit_in minus.now p)) }
    ensures bound { (result.0 ≤ 512) × (result.1 ≤ 512) }
{
    let mut more = 0;
    let mut less = 0;
    'words: for word in 0..8 {
        more += (own[word] & plus[word]).count_ones();
        less += (own[word] & minus[word]).count_ones();
    }
    (more, less)
}

// Adds how many places of two words it shares with `plus`, and how many with `minus`, where all of its places
// are from one on and below another: where these two words stand outside that they aren't read.
fn add_part(
    own: &[u64; 8],
    plus: &[u64; 8],
    minus: &[u64; 8],
    word: u16,
    from: u16,
    end: u16,
    more: &mut u32,
    less: &mut u32,
)
    requires word { word < 7 }
    requires within { (p : ℕ) → IsTrue (bit_in own.now p) → (from ≤ p) × (p < end) }
    requires few { (more.old ≤ 64 * word) × (less.old ≤ 64 * word) }
    ensures plus { more.new ≡ more.old + shared_in own.now plus.now word }
    ensures minus { less.new ≡ less.old + shared_in own.now minus.now word }
    ensures few { (more.new ≤ more.old + 128) × (less.new ≤ less.old + 128) }
{
    if 64 * word + 128 <= from {
        return;
    }
    if end <= 64 * word {
        return;
    }
    let low = word as usize;
    let high = low + 1;
    *more += (own[low] & plus[low]).count_ones() + (own[high] & plus[high]).count_ones();
    *less += (own[low] & minus[low]).count_ones() + (own[high] & minus[high]).count_ones();
}

// How many places it shares with `plus`, and how many with `minus`, where all of its places are from one on and below
// another. It has as many steps for all rows, so that they are written out one after another.
pub(crate) fn count_span(
    own: &[u64; 8],
    plus: &[u64; 8],
    minus: &[u64; 8],
    from: u16,
    end: u16,
) -> (u32, u32)
    requires within { (p : ℕ) → IsTrue (bit_in own.now p) → (from ≤ p) × (p < end) }
    ensures plus { result.0 ≡ length (places_where (λ p. bit_in own.now p && bit_in plus.now p)) }
    ensures minus { result.1 ≡ length (places_where (λ p. bit_in own.now p && bit_in minus.now p)) }
    ensures bound { (result.0 ≤ 512) × (result.1 ≤ 512) }
{
    let mut more = 0;
    let mut less = 0;
    'parts: for part in 0..4 {
        add_part(own, plus, minus, 2 * part, from, end, &mut more, &mut less);
    }
    (more, less)
}

// Whether the other has each place of the one.
pub(crate) fn implies(one: &[u64; 8], other: &[u64; 8]) -> bool
    ensures { result ≡ list_all (bit_in other.now) (places_where (bit_in one.now)) }
{
    'words: for word in 0..8 {
        if one[word] & !other[word] != 0 {
            return false;
        }
    }
    true
}

// Whether both are the same words. It asks nothing before its end, so it takes the same steps for
// all of them.
pub(crate) fn are_same(one: &[u64; 8], other: &[u64; 8]) -> bool
    ensures { IsTrue result ↔ (one.now ≡ other.now) }
{
    let mut different = 0;
    'words: for word in 0..8 {
        different |= one[word] ^ other[word];
    }
    different == 0
}

// The highest bit of the word of this number in a row, as a place.
pub(crate) fn top_of(word: u64, number: u16) -> Option<u16>
    requires { number < 8 }
    ensures some { IfSome result (IsTop word number) }
    ensures none { IfNone result (word ≡ 0) }
{
    if word == 0 {
        return None;
    }
    Some(64 * number + 63 - word.leading_zeros() as u16)
}

// The last place of the first words, as many as `count`.
pub(crate) fn last_of(words: &[u64; 8], count: u16) -> Option<u16>
    requires { count ≤ 8 }
    ensures some { IfSome result (IsLast words.now (64 * count)) }
    ensures none { IfNone result ((place : ℕ) → place < 64 * count → bit_in words.now place ≡ false) }
{
    'words: for number in (0..count).rev() {
        if let Some(place) = top_of(words[number as usize], number) {
            return Some(place);
        }
    }
    None
}

// The last place below this one.
pub(crate) fn last_before(words: &[u64; 8], place: u16) -> Option<u16>
    requires { place < 512 }
    ensures some { IfSome result (IsLast words.now place) }
    ensures none { IfNone result ((p : ℕ) → p < place → bit_in words.now p ≡ false) }
{
    let number = place / 64;
    let front = words[number as usize] & ((1 << (place % 64)) - 1);
    match top_of(front, number) {
        Some(found) => Some(found),
        None => last_of(words, number),
    }
}
