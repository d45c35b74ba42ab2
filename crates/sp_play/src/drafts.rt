//! Drafts of the blocks that lines make, and their bytes.

ghost use Rattle.std.specs.Prelude.{◌≡◌, ◌≤◌, ◌<◌, ◌^◌, All, IfOk, map, vec_len};
ghost use Rattle.sp_ids.specs.Digest.{sha256_number};
ghost use Rattle.sp_play.specs.Known.{genesis_text, grants_of, made_count};
ghost use Rattle.sp_play.specs.Making as meant;
ghost use Rattle.sp_play.specs.Making.{carried_at, id_at};
ghost use Rattle.sp_play.specs.Reach.{IsThere};
ghost use Rattle.sp_play.specs.Told.{Shows};
ghost use Rattle.sp_play.specs.declared.places.Wanted.TheVariants as wanted;

use crate::copies::copy_of;
use crate::entries::Entries;
use crate::thing::Thing;
use crate::why::{LineError, Why};
use sp_block::{Draft, Parents, draft_bytes, seek_nonce};
use sp_ids::{BlockId, Memory};
use sp_tx::{Tx, Txs};
use std::alloc::Global;

/// A block has at most so many parents, transactions and bytes.
const MOST_PARENTS: usize = 64;

const MOST_TXS: usize = 256;

const LONGEST: usize = 65_536;

/// So many nonces are tried.
const TRIES: u32 = 1_048_576;

/// The id of the block at a place, given that of genesis.
fn id_at(entries: &Entries, genesis: &BlockId, place: usize) -> BlockId
    requires there { IsThere wanted.Block entries.now place }
    requires genesis { genesis.now ≡ sha256_number (genesis_text (grants_of entries.now)) }
    ensures { result ≡ meant.id_at entries.now place }
{
    match entries.thing_at(place) {
        Thing::Genesis => *genesis,
        Thing::Made(block) => block.id(),
        Thing::Tx(_) => unreachable!(),
    }
}

/// The ids of the blocks at some places.
fn ids_at(
    alloc: Global,
    entries: &Entries,
    genesis: &BlockId,
    places: &[usize],
) -> Result<Vec<BlockId>, Memory>
    requires there { All (IsThere wanted.Block entries.now) places.now }
    requires genesis { genesis.now ≡ sha256_number (genesis_text (grants_of entries.now)) }
    ensures { IfOk result (λ ids. ids.items ≡ map (meant.id_at entries.now) places.now) }
{
    let mut ids = Vec::new(alloc);
    for place in places {
        ids.push(id_at(entries, genesis, *place))?;
    }
    Ok(ids)
}

/// Copies of the transactions at some places.
fn txs_at(alloc: Global, entries: &Entries, places: &[usize]) -> Result<Vec<Tx>, Memory>
    requires { All (IsThere wanted.Tx entries.now) places.now }
    ensures { IfOk result (λ txs. txs.items ≡ map (carried_at entries.now) places.now) }
{
    let mut txs = Vec::new(alloc);
    for place in places {
        let named = entries.tx_at(*place);
        txs.push(copy_of(alloc, named.tx())?)?;
    }
    Ok(txs)
}

/// The next block with these parents and transactions, given how many were made.
pub(crate) fn draft_of(
    alloc: Global,
    entries: &Entries,
    genesis: &BlockId,
    made: usize,
    parents: &[usize],
    carried: &[usize],
) -> Result<Draft, Memory>
    requires blocks { All (IsThere wanted.Block entries.now) parents.now }
    requires txs { All (IsThere wanted.Tx entries.now) carried.now }
    requires genesis { genesis.now ≡ sha256_number (genesis_text (grants_of entries.now)) }
    requires counted { made ≡ made_count entries.now }
    requires few { made < 2 ^ 63 }
    ensures { IfOk result (λ draft. draft ≡ meant.draft_of entries.now parents.now carried.now) }
{
    let parents = ids_at(alloc, entries, genesis, parents)?;
    let txs = txs_at(alloc, entries, carried)?;
    Ok(Draft {
        salt: made as u64 + 1,
        parents: Parents::of(parents),
        txs: Txs::of(txs),
    })
}

/// The bytes of the block that a draft makes.
#[tactic(auto, unfolding(crate::specs::Making::block_of), using(crate::proofs::Nonces::found_is_least, crate::proofs::Nonces::same_long))]
pub(crate) fn block_of(alloc: Global, draft: &Draft, bits: u8) -> Result<Vec<u8>, LineError>
    requires { bits ≤ 64 }
    ensures value { Shows (λ bytes. bytes.items) result (meant.block_of draft.now bits) }
    ensures short { IfOk result (λ bytes. vec_len bytes ≤ 65536) }
{
    if MOST_PARENTS < draft.parents.as_slice().len() || MOST_TXS < draft.txs.as_slice().len() {
        return Err(LineError::Fault(Why::Many));
    }
    let first = draft_bytes(alloc, draft, 0)?;
    if LONGEST < first.len() {
        return Err(LineError::Fault(Why::Many));
    }
    match seek_nonce(alloc, draft, bits, TRIES)? {
        Some(nonce) => Ok(draft_bytes(alloc, draft, nonce)?),
        None => Err(LineError::Fault(Why::Work)),
    }
}
