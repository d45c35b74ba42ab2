//! Drafts of blocks: their bytes, and the search for a nonce that meets the work. They stand apart
//! from blocks because a draft has no id yet, and may break the rules of the format.

ghost use Rattle.std.specs.Prelude.{◌≡◌, ◌≤◌, ◌∷◌, ◌++◌, Bool, ℕ, IfOk, OnOk, drop, length, take, vec_len};
ghost use Rattle.std.specs.Int.{w16, w64, to_le_bytes};
ghost use Rattle.std.specs.List.{flat_map};
ghost use Rattle.sp_ids.specs.Key.{bytes_of};
ghost use Rattle.sp_tx.specs.Spelling.{spelling};
ghost use Rattle.sp_block.specs.Ascending.{ascending};
ghost use Rattle.sp_block.specs.Draft.{draft_text, drafted, IsFound};
ghost use Rattle.sp_block.specs.Spelling.{IsSpellable, SpellsBlock};

use crate::list::Parents;
use sp_ids::{BlockId, Memory};
use sp_tx::{Tx, Txs, write_tx, written_len};
use std::alloc::{AllocError, Global};

/// What a block is made of before its nonce is found. Its bytes are those of a `Block`, the nonce
/// at places 9 to 16; docs/FORMATS.md says so under "Blocks".
#[derive(Debug, Drop)]
pub struct Draft {
    pub salt: u64,
    /// In any order: they are written ascending.
    pub parents: Parents,
    pub txs: Txs,
}

// The same ids, ascending.
fn sorted(alloc: Global, ids: &[BlockId]) -> Result<Vec<BlockId>, AllocError>
    ensures items { IfOk result (λ sorted. sorted.items ≡ ascending ids.now) }
    ensures len { IfOk result (λ sorted. vec_len sorted ≡ length ids.now) }
{
    let mut sorted = Vec::from_slice(alloc, ids)?;
    sorted.sort_unstable();
    Ok(sorted)
}

fn put_head(out: &mut Vec<u8>, salt: u64, nonce: u64) -> Result<(), AllocError>
    ensures { OnOk result
        (out.new.items ≡ out.old.items ++ 1 ∷ (to_le_bytes w64 salt ++ to_le_bytes w64 nonce)) }
{
    out.push(1)?;
    out.extend_from_slice(&salt.to_le_bytes())?;
    out.extend_from_slice(&nonce.to_le_bytes())?;
    Ok(())
}

fn put_parents(out: &mut Vec<u8>, parents: &[BlockId]) -> Result<(), AllocError>
    requires { length parents.now ≤ 64 }
    ensures { OnOk result
        (out.new.items ≡ out.old.items ++ length parents.now ∷ flat_map bytes_of parents.now) }
{
    out.push(parents.len() as u8)?;
    'parents: for parent in parents {
        out.extend_from_slice(parent.as_bytes())?;
    }
    Ok(())
}

fn put_txs(out: &mut Vec<u8>, txs: &[Tx]) -> Result<(), Memory>
    requires { length txs.now ≤ 256 }
    ensures { OnOk result (out.new.items
        ≡ out.old.items ++ (to_le_bytes w16 (length txs.now) ++ flat_map spelling txs.now)) }
{
    let count = txs.len() as u16;
    out.extend_from_slice(&count.to_le_bytes())?;
    'txs: for tx in txs {
        write_tx(tx, out)?;
    }
    Ok(())
}

// How many bytes the transactions have.
fn txs_len(txs: &[Tx]) -> usize
    requires { length txs.now ≤ 256 }
    ensures len { result ≡ length (flat_map spelling txs.now) }
    ensures bound { result ≤ 565760 }
{
    let mut len = 0;
    'txs: for tx in txs {
        len += written_len(tx);
    }
    len
}

// How many bytes a draft has, whatever its nonce.
fn draft_len(draft: &Draft) -> usize
    requires few_parents { length draft.now.parents ≤ 64 }
    requires few_txs { length draft.now.txs ≤ 256 }
    ensures { (nonce : ℕ) → result ≡ length (draft_text draft.now nonce) }
{
    20 + 32 * draft.parents.as_slice().len() + txs_len(draft.txs.as_slice())
}

// The bytes are counted first and room is made for just so many, so nothing grows while they are
// written.
fn bytes_of_draft(alloc: Global, draft: &Draft, nonce: u64) -> Result<Vec<u8>, Memory>
    requires few_parents { length draft.now.parents ≤ 64 }
    requires few_txs { length draft.now.txs ≤ 256 }
    ensures { IfOk result (λ out. out.items ≡ draft_text draft.now nonce) }
{
    let parents = sorted(alloc, draft.parents.as_slice())?;
    let mut out = Vec::with_capacity(alloc, draft_len(draft))?;
    put_head(&mut out, draft.salt, nonce)?;
    put_parents(&mut out, &parents)?;
    put_txs(&mut out, draft.txs.as_slice())?;
    Ok(out)
}

/// The bytes of a draft with a nonce: a version (one byte, 1), the salt and the nonce (eight bytes
/// each), the number of parents (one byte), each parent (32 bytes, ascending), the number of
/// transactions (two bytes), and each transaction as `write_tx` writes it. Numbers are written the
/// lowest byte first. It takes time in proportion to these bytes, and that of a sort of the parents.
pub fn draft_bytes(alloc: Global, draft: &Draft, nonce: u64) -> Result<Vec<u8>, Memory>
    requires few_parents { length draft.now.parents ≤ 64 }
    requires few_txs { length draft.now.txs ≤ 256 }
    ensures bytes { IfOk result (λ out. out.items ≡ draft_text draft.now nonce) }
    ensures spells { (genesis : Bool) → IsSpellable genesis (drafted draft.now nonce)
        → IfOk result (λ out. SpellsBlock out.items genesis (drafted draft.now nonce)) }
{
    bytes_of_draft(alloc, draft, nonce)
}

// The nonce stands behind the version and the salt.
fn set_nonce(bytes: &mut [u8], nonce: u64)
    requires { 17 ≤ length bytes.old }
    ensures { bytes.new ≡ take 9 bytes.old ++ (to_le_bytes w64 nonce ++ drop 17 bytes.old) }
{
    bytes[9..17].copy_from_slice(&nonce.to_le_bytes());
}

/// The least nonce below `tries` with which the first `bits` bits of the draft's id are zero, or
/// `None` where there is none. It takes about the time of `draft_bytes`, and then that of a SHA-256
/// of the bytes for each nonce from 0 up to the one that is found.
pub fn seek_nonce(alloc: Global, draft: &Draft, bits: u8, tries: u32) -> Result<Option<u64>, Memory>
    requires few_parents { length draft.now.parents ≤ 64 }
    requires few_txs { length draft.now.txs ≤ 256 }
    requires few_bits { bits ≤ 64 }
    ensures { IfOk result (IsFound draft.now bits tries) }
{
    let mut text = bytes_of_draft(alloc, draft, 0)?;
    let bytes = text.as_mut_slice();
    'tries: for nonce in 0..u64::from(tries) {
        set_nonce(bytes, nonce);
        if BlockId::of(bytes).meets(bits) {
            return Ok(Some(nonce));
        }
    }
    Ok(None)
}
