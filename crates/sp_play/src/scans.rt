//! What is gathered from all names, of which there are at most 4,096: the bytes of the grants.

ghost use Rattle.std.specs.Prelude.{◌≡◌, ◌≤◌, ◌++◌, ◌∷◌, IfOk, OnOk, length};
ghost use Rattle.std.specs.Int.{w16, w64, to_le_bytes};
ghost use Rattle.std.specs.List.{flat_map};
ghost use Rattle.sp_tx.specs.Spelling.{spelling};
ghost use Rattle.sp_play.specs.Known as meant;
ghost use Rattle.sp_play.specs.Known.{grant_in, grants_of};

use crate::entries::Entries;
use crate::thing::Thing;
use sp_ids::Memory;
use sp_tx::{Tx, write_tx};
use std::alloc::Global;

/// The grants, one after another in bytes, and how many they are.
#[derive(Drop)]
pub(crate) struct Grants {
    pub(crate) bytes: Vec<u8>,
    pub(crate) count: usize,
}

/// Appends the bytes of a thing that is a transaction of genesis, and answers how many these are.
fn put_grant(out: &mut Vec<u8>, thing: &Thing) -> Result<usize, Memory>
    ensures bytes { OnOk result (out.new.items ≡ out.old.items ++ flat_map spelling (grant_in thing.now)) }
    ensures count { IfOk result (λ count. count ≡ length (grant_in thing.now)) }
    ensures few { IfOk result (λ count. count ≤ 1) }
{
    match thing {
        Thing::Tx(named) => {
            if !named.tx().inputs.as_slice().is_empty() {
                return Ok(0);
            }
            write_tx(named.tx(), out)?;
            Ok(1)
        }
        _ => Ok(0),
    }
}

/// The bytes of the transactions of genesis.
pub(crate) fn gather_grants(alloc: Global, entries: &Entries) -> Result<Grants, Memory>
    ensures bytes { IfOk result (λ grants. grants.bytes.items ≡ flat_map spelling (grants_of entries.now)) }
    ensures count { IfOk result (λ grants. grants.count ≡ length (grants_of entries.now)) }
    ensures few { IfOk result (λ grants. grants.count ≤ length entries.now) }
{
    let mut bytes = Vec::new(alloc);
    let mut count = 0;
    for place in 0..entries.len() {
        count += put_grant(&mut bytes, entries.thing_at(place))?;
    }
    Ok(Grants { bytes, count })
}

/// What stands before the transactions of a genesis block: the version, the salt 0, the nonce 0, no
/// parents, and how many transactions there are (2 bytes, the lowest first).
fn genesis_front(count: u16) -> [u8; 20]
    ensures { result ≡ 1 ∷ (to_le_bytes w64 0 ++ (to_le_bytes w64 0 ++ (0 ∷ to_le_bytes w16 count))) }
{
    let mut front = [0u8; 20];
    front[0] = 1;
    front[18..].copy_from_slice(&count.to_le_bytes());
    front
}

/// The bytes of the genesis block.
pub(crate) fn genesis_text(alloc: Global, entries: &Entries) -> Result<Vec<u8>, Memory>
    requires { length entries.now ≤ 4096 }
    ensures { IfOk result (λ text. text.items ≡ meant.genesis_text (grants_of entries.now)) }
{
    let grants = gather_grants(alloc, entries)?;
    let front = genesis_front(grants.count as u16);
    let mut out = Vec::from_slice(alloc, &front)?;
    out.extend_from_slice(&grants.bytes)?;
    Ok(out)
}
