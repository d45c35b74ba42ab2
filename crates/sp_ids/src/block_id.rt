//! Ids of blocks. They are a type of their own, so that none is taken for another kind of id.

ghost use Rattle.std.specs.Prelude.{◌≡◌, ◌≤◌, ◌<◌, ◌^◌, ◌↔◌, IsTrue, length};
ghost use Rattle.hex.specs.Hex.{encode_lower};
ghost use Rattle.sp_ids.specs.Bits.{BeginsWithZeros};
ghost use Rattle.sp_ids.specs.Digest.{sha256_number};
ghost use Rattle.sp_ids.specs.Hex.{hex_of};
ghost use Rattle.sp_ids.specs.Key.{bytes_of, number_of};

use crate::bytes;
use crate::hex_fault::HexFault;
use std::cmp::Ordering;
use std::hash::{Hash, Hasher};
use std::marker::Model;

/// The SHA-256 of a block's bytes. Ids are ordered as the numbers of their bytes.
///
/// In bytes: 32 of them, the first one the highest; in a text 64 hexadecimal digits. The rules of
/// both, and of proof of work, stand in docs/FORMATS.md under "Ids, locks and outpoints".
#[derive(Clone, Copy, Debug)]
pub struct BlockId(pub [u8; 32]);

impl Model for BlockId {
    ghost use Rattle.std.specs.Prelude.{ℕ, refl};
    ghost use Rattle.sp_ids.specs.Key.{number_of, bytes_of, AreBytes};
    ghost use Rattle.sp_ids.specs.Digits.{bytes_of_number};

    ghost Value = { ℕ };

    ghost view = { λ id. number_of id.0 };

    ghost invariant = { λ id. AreBytes id.0 };

    ghost inverse = { λ number. record { 0 = bytes_of number } };

    ghost inverse_ok = { λ id h. rw (bytes_of_number id.0 h) refl };
}

impl BlockId {
    /// The id of the block with these bytes. It takes time in proportion to
    /// them.
    pub fn of(bytes: &[u8]) -> BlockId
        ensures { result ≡ sha256_number bytes.now }
    {
        BlockId(bytes::digest(bytes))
    }

    /// The id with these bytes, the first of them the highest.
    pub fn from_bytes(bytes: [u8; 32]) -> BlockId
        ensures { result ≡ number_of bytes }
    {
        BlockId(bytes)
    }

    /// Its bytes, the first of them the highest.
    pub fn as_bytes(&self) -> &[u8; 32]
        ensures value { result.now ≡ bytes_of self.now }
        ensures size { length result.now ≡ 32 }
        ensures bound { self.now < 2 ^ 256 }
    {
        &self.0
    }

    /// Writes it as 64 lower case digits, two for each byte, the first byte first. It
    /// takes a bounded number of steps.
    pub fn to_hex(&self, out: &mut [u8; 64])
        ensures { out.new ≡ encode_lower (bytes_of self.now) }
    {
        bytes::write_hex(&self.0, out);
    }

    /// Reads it from 64 digits of either case, two for each byte, the first byte first. It
    /// takes a bounded number of steps.
    ///
    /// # Errors
    ///
    /// The first of these that is true of the text: `OddLength` where its length is odd,
    /// `WrongLength` where it isn't 64, `BadDigit` with the place of the first byte that is no
    /// digit.
    pub fn from_hex(text: &[u8]) -> Result<BlockId, HexFault>
        ensures { result ≡ hex_of text.now }
    {
        let bytes = bytes::read_hex(text)?;
        Ok(BlockId(bytes))
    }

    /// Whether its first `bits` bits are zero, each byte read from its highest bit. It takes
    /// time in proportion to `bits`.
    pub fn meets(&self, bits: u8) -> bool
        requires { bits ≤ 64 }
        ensures { IsTrue result ↔ BeginsWithZeros self.now bits }
    {
        bytes::begins_with_zeros(&self.0, bits)
    }
}

impl PartialEq for BlockId {
    ghost use Rattle.std.specs.Prelude.{nat_eq};
    ghost use Rattle.std.proofs.Common.{rules};
    ghost use Rattle.std.specs.Cmp.Rules.{comparing};

    ghost eq = { nat_eq };

    ghost laws = { Prim.search (comparing, rules) };

    fn eq(&self, other: &BlockId) -> bool {
        bytes::same(&self.0, &other.0)
    }
}

impl Eq for BlockId {
    ghost use Rattle.std.proofs.Common.{rules};
    ghost use Rattle.std.specs.Cmp.Rules.{comparing};

    ghost laws = { Prim.search (comparing, rules) };
}

impl PartialOrd for BlockId {
    ghost use Rattle.std.specs.Prelude.{Some};
    ghost use Rattle.std.specs.Ordering.{nat_cmp};
    ghost use Rattle.std.proofs.Common.{rules};
    ghost use Rattle.std.specs.Cmp.Rules.{comparing};

    ghost partial_cmp = { λ x y. Some (nat_cmp x y) };

    ghost laws = { Prim.search (comparing, rules) };

    fn partial_cmp(&self, other: &BlockId) -> Option<Ordering> {
        Some(self.cmp(other))
    }
}

impl Ord for BlockId {
    ghost use Rattle.std.specs.Ordering.{nat_cmp};
    ghost use Rattle.std.proofs.Common.{rules};
    ghost use Rattle.std.specs.Cmp.Rules.{comparing};

    ghost cmp = { nat_cmp };

    ghost total = { Prim.search (comparing, rules) };

    ghost matches_partial_cmp = { Prim.search (comparing, rules) };

    ghost matches_eq = { Prim.search (comparing, rules) };

    fn cmp(&self, other: &BlockId) -> Ordering {
        bytes::compare(&self.0, &other.0)
    }
}

impl Hash for BlockId {
    ghost use Rattle.std.proofs.Common.{rules};
    ghost use Rattle.std.specs.Hash as fed;
    ghost use Rattle.std.specs.Cmp.Rules.{hashing};
    ghost use Rattle.sp_ids.specs.Key.{bytes_of};

    ghost hash_input = { λ number. fed.slice fed.u8 (bytes_of number) };

    ghost respects_eq = { Prim.search (hashing, rules) };

    fn hash<H: Hasher>(&self, state: &mut H) {
        self.0.hash(state);
    }
}
