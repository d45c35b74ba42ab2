//! The buffer in which a line is put together, so that it can be written in one piece and without
//! taking memory.

ghost use Rattle.std.specs.Prelude.{◌≡◌, ◌≤◌, ◌<◌, ◌+◌, ◌++◌, ◌∷◌, [], length};
ghost use Rattle.std.specs.Fmt.{decimal};

use std::marker::Model;

/// Room for the longest line, with the byte at its end.
const LONGEST: usize = 192;

/// A line, or the front of one, of at most 192 bytes. Contracts see the list of its bytes.
#[derive(Drop)]
pub struct Line {
    bytes: [u8; LONGEST],
    len: usize,
}

impl Model for Line {
    ghost use Rattle.std.specs.Prelude.{ℕ, List, ◌≤◌, take};

    ghost Value = { List ℕ };

    ghost view = { λ line. take line.len line.bytes };

    ghost invariant = { λ line. line.len ≤ 192 };
}

impl Line {
    /// No bytes yet.
    pub fn new() -> Line
        ensures { result ≡ [] }
    {
        Line {
            bytes: [0; LONGEST],
            len: 0,
        }
    }

    /// Its bytes, the first of them first.
    pub fn as_slice(&self) -> &[u8]
        ensures bytes { result.now ≡ self.now }
        ensures short { length result.now ≤ 192 }
    {
        &self.bytes[..self.len]
    }

    /// Writes these bytes behind the others.
    pub fn push_bytes(&mut self, piece: &[u8])
        requires { length self.old + length piece.now ≤ 192 }
        ensures text { self.new ≡ self.old ++ piece.now }
        ensures size { length self.new ≡ length self.old + length piece.now }
    {
        let end = self.len + piece.len();
        self.bytes[self.len..end].copy_from_slice(piece);
        self.len = end;
    }

    /// Writes one byte behind the others.
    pub fn push_byte(&mut self, byte: u8)
        requires { length self.old < 192 }
        ensures text { self.new ≡ self.old ++ byte ∷ [] }
        ensures size { length self.new ≡ length self.old + 1 }
    {
        self.bytes[self.len] = byte;
        self.len += 1;
    }

    /// Writes a number in decimal digits, without leading zeros. There are 20 of them at most.
    #[tactic(auto, using(crate::proofs::Decimals::fits_64, crate::proofs::Decimals::size_of_64))]
    pub fn push_number(&mut self, number: u64)
        requires { length self.old ≤ 172 }
        ensures text { self.new ≡ self.old ++ decimal number }
        ensures size { length self.new ≤ length self.old + 20 }
    {
        self.push_digits(u128::from(number));
    }

    /// Writes a number of 128 bits in decimal digits, without leading zeros. There are 39 of them
    /// at most.
    #[tactic(auto, using(crate::proofs::Decimals::fits_128, crate::proofs::Decimals::size_of_128))]
    pub fn push_wide_number(&mut self, number: u128)
        requires { length self.old ≤ 153 }
        ensures text { self.new ≡ self.old ++ decimal number }
        ensures size { length self.new ≤ length self.old + 39 }
    {
        self.push_digits(number);
    }

    // Writes a number in decimal digits, the first of them by a call on the number without its last.
    #[tactic(auto, using(crate::proofs::Decimals::fewer_digits))]
    fn push_digits(&mut self, number: u128)
        requires { length self.old + length (decimal number) ≤ 192 }
        ensures { self.new ≡ self.old ++ decimal number }
    {
        if 10 <= number {
            self.push_digits(number / 10);
        }
        self.push_byte(b'0' + (number % 10) as u8);
    }
}
