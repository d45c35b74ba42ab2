//! What the three kinds of id share, over their 32 bytes. Each contract speaks of the number of
//! the bytes, as contracts see an id.

ghost use Rattle.std.specs.Prelude.{◌≡◌, ◌≤◌, ◌↔◌, IsTrue, Ok, Err, MatchResult, nat_eq};
ghost use Rattle.std.specs.Ordering.{nat_cmp};
ghost use Rattle.hex.specs.Hex.{encode_lower};
ghost use Rattle.sp_ids.specs.Bits.{BeginsWithZeros};
ghost use Rattle.sp_ids.specs.Digest.{sha256_number};
ghost use Rattle.sp_ids.specs.Hex.{hex_of};
ghost use Rattle.sp_ids.specs.Key.{bytes_of, number_of};

use crate::hex_fault::HexFault;
use hex::{FromHex, FromHexError, encode_to_slice};
use sha2::{Digest, Sha256};
use std::cmp::Ordering;

// Whether both are the same number.
pub(crate) fn same(bytes: &[u8; 32], other: &[u8; 32]) -> bool
    ensures { result ≡ nat_eq (number_of bytes.now) (number_of other.now) }
{
    *bytes == *other
}

// How the two numbers are ordered. Byte by byte is the faster way, since mostly one of the first few tells.
pub(crate) fn compare(bytes: &[u8; 32], other: &[u8; 32]) -> Ordering
    ensures { result ≡ nat_cmp (number_of bytes.now) (number_of other.now) }
{
    for place in 0..32 {
        if bytes[place] != other[place] {
            return bytes[place].cmp(&other[place]);
        }
    }
    Ordering::Equal
}

// The SHA-256 of a text.
pub(crate) fn digest(text: &[u8]) -> [u8; 32]
    ensures { number_of result ≡ sha256_number text.now }
{
    Sha256::digest(text)
}

// Writes 64 lower case digits.
pub(crate) fn write_hex(bytes: &[u8; 32], out: &mut [u8; 64])
    ensures { out.new ≡ encode_lower (bytes_of (number_of bytes.now)) }
{
    let _ = encode_to_slice(bytes.as_slice(), out);
}

// The bytes that a text spells, or why it spells none.
pub(crate) fn read_hex(text: &[u8]) -> Result<[u8; 32], HexFault>
    ensures { MatchResult result
        (λ bytes. hex_of text.now ≡ Ok (number_of bytes))
        (λ fault. hex_of text.now ≡ Err fault) }
{
    match <[u8; 32]>::from_hex(text) {
        Ok(bytes) => Ok(bytes),
        Err(FromHexError::OddLength) => Err(HexFault::OddLength),
        Err(FromHexError::InvalidHexCharacter { index, .. }) => {
            Err(HexFault::BadDigit { at: index as u8 })
        }
        Err(FromHexError::InvalidStringLength) => Err(HexFault::WrongLength),
        // An array takes no memory.
        Err(FromHexError::OutOfMemory) => unreachable!(),
    }
}

// Whether the first bits are zero, each byte read from its highest bit.
pub(crate) fn begins_with_zeros(bytes: &[u8; 32], bits: u8) -> bool
    requires { bits ≤ 64 }
    ensures { IsTrue result ↔ BeginsWithZeros (number_of bytes.now) bits }
{
    for place in 0..bits {
        let byte = bytes[usize::from(place / 8)];
        if (byte >> (7 - place % 8)) % 2 == 1 {
            return false;
        }
    }
    true
}
