//! What stands at the front of a journal's bytes: a head, a record, or a closed gate. It is read off
//! the bytes alone, whatever disk they come from.

ghost use Rattle.std.specs.Prelude.{◌≡◌, ◌≤◌, ℕ, List, take, IfErr, IfOk, IfSome, IsErrOf};
ghost use Rattle.sp_form.specs.Bytes.{IsBytes};
ghost use Rattle.sp_form.specs.Reading.{read};
ghost use Rattle.sp_block.specs.Block.{IsGenesis};
ghost use Rattle.sp_journal.specs.Creation.{gate_of};
ghost use Rattle.sp_journal.specs.Format.{genesis_form, head_form, head_of};
ghost use Rattle.sp_journal.specs.Judged.{has};
ghost use Rattle.sp_journal.specs.Opening.{IsPlain};
ghost use Rattle.sp_journal.specs.Records.{is_shut};
ghost use Rattle.sp_journal.specs.declared.fault.JournalFault.TheVariants.{DiskFault};
ghost use Rattle.sp_journal.specs.Recovery.{bytes_in, Finds, FindsRecord, IsHeadOf, IsGood, IsGoodRow, IsRowOf, IsSpelled};

use crate::fault::JournalFault;
use crate::fields::{bits, block_length, journal_profile, open_gate, open_record};
use crate::gate::OPEN;
use crate::gate_kind::Gate;
use crate::row::Row;
use sp_block::{Block, ReadBlockFault, check_work, read_block};
use sp_form::Fields;
use sp_ids::{BlockId, Memory};
use sp_model::Profile;
use std::alloc::Global;

/// The block that the bytes spell, as a genesis block or as another one.
fn spelled(alloc: Global, bytes: &[u8], genesis: bool) -> Result<Option<Block>, Memory>
    ensures { IfOk result (IsSpelled genesis bytes.now) }
{
    match read_block(alloc, bytes, genesis) {
        Ok(block) => Ok(Some(block)),
        Err(ReadBlockFault::Fault(_)) => Ok(None),
        Err(ReadBlockFault::Memory) => Err(Memory),
    }
}

/// A genesis block of so many bytes.
#[tactic(auto, unfolding(sp_form::specs::Reading::read))]
fn genesis(alloc: Global, fields: &mut Fields, length: u32) -> Result<Option<Block>, Memory>
    ensures found { IfOk result (λ found. Finds bytes_in found fields.new (read (genesis_form length) fields.old)) }
    ensures genesis { IfOk result (λ found. IfSome found IsGenesis) }
{
    let Some(bytes) = fields.take(length as usize) else {
        return Ok(None);
    };
    let found = spelled(alloc, bytes, true)?;
    Ok(found)
}

/// The head of a journal: the profile, the bits of work, and the genesis block.
fn head(alloc: Global, fields: &mut Fields) -> Result<Option<(Profile, u8, Block)>, Memory>
    ensures found { IfOk result (λ found.
        Finds (λ head. head_of head.0 head.1 head.2.bytes) found fields.new (read head_form fields.old)) }
    ensures small { IfOk result (λ found. IfSome found (λ head. head.1 ≤ 64)) }
    ensures genesis { IfOk result (λ found. IfSome found (λ head. IsGenesis head.2)) }
{
    let Some(_gate) = open_gate(fields) else {
        return Ok(None);
    };
    let Some(profile) = journal_profile(fields) else {
        return Ok(None);
    };
    let Some(bits) = bits(fields) else {
        return Ok(None);
    };
    let Some(length) = block_length(fields) else {
        return Ok(None);
    };
    let found = genesis(alloc, fields, length)?;
    let Some(block) = found else {
        return Ok(None);
    };
    Ok(Some((profile, bits, block)))
}

/// Whether a closed gate stands at the front.
fn is_at_end(fields: &Fields) -> bool
    ensures { result ≡ is_shut fields.now }
{
    match fields.rest() {
        [gate, ..] => *gate != OPEN,
        [] => false,
    }
}

/// Whether an id is one of these.
fn is_known(ids: &[BlockId], id: BlockId) -> bool
    ensures { result ≡ has ids.now id }
{
    ids.iter().any(|other| *other == id)
}

/// A record that a journal may hold, given the ids before it.
fn record(
    alloc: Global,
    fields: &mut Fields,
    bits: u8,
    ids: &[BlockId],
) -> Result<Option<Block>, Memory>
    requires { bits ≤ 64 }
    ensures found { IfOk result (λ found. FindsRecord bits ids.now fields.old fields.new found) }
    ensures good { IfOk result (λ found. IfSome found (IsGood bits ids.now)) }
{
    let Some(bytes) = open_record(fields) else {
        return Ok(None);
    };
    let found = spelled(alloc, bytes, false)?;
    let Some(block) = found else {
        return Ok(None);
    };
    if is_known(ids, block.id) {
        return Ok(None);
    }
    if !check_work(&block, bits) {
        return Ok(None);
    }
    Ok(Some(block))
}

/// What the front of a disk's bytes is, by as many of them as the longest head has: a head, or none
/// and the byte at place 0.
pub(crate) fn head_in(
    alloc: Global,
    bytes: &[u8],
) -> Result<Result<(Profile, u8, Block), Gate>, JournalFault>
    ensures found { IfOk result (λ found. (list : List ℕ) → IsBytes list → bytes.now ≡ take 65550 list
        → IsHeadOf list found) }
    ensures small { IfOk result (λ found. IfOk found (λ head. head.1 ≤ 64)) }
    ensures genesis { IfOk result (λ found. IfOk found (λ head. IsGenesis head.2)) }
    ensures plain { IfErr result IsPlain }
    ensures fault { IsErrOf result DiskFault → ⊥ }
{
    let mut fields = Fields::of(bytes);
    let found = head(alloc, &mut fields)?;
    match found {
        Some(head) => Ok(Ok(head)),
        None => Ok(Err(gate_at(bytes))),
    }
}

/// What the bytes behind a place are, by as many of them as the longest record has.
pub(crate) fn row_in(
    alloc: Global,
    bytes: &[u8],
    bits: u8,
    ids: &[BlockId],
) -> Result<Row, JournalFault>
    requires bits { bits ≤ 64 }
    ensures row { IfOk result (λ row. (list : List ℕ) → IsBytes list → bytes.now ≡ take 65550 list
        → IsRowOf bits ids.now list row) }
    ensures good { IfOk result (λ row. IsGoodRow bits ids.now row) }
    ensures plain { IfErr result IsPlain }
    ensures fault { IsErrOf result DiskFault → ⊥ }
{
    let mut fields = Fields::of(bytes);
    if is_at_end(&fields) {
        return Ok(Row::End);
    }
    let found = record(alloc, &mut fields, bits, ids)?;
    match found {
        Some(block) => Ok(Row::Next(block)),
        None => Ok(Row::Faulty),
    }
}

/// The byte at place 0.
fn gate_at(bytes: &[u8]) -> Gate
    ensures { result ≡ gate_of bytes.now }
{
    match bytes {
        [] => Gate::Missing,
        [gate, ..] => { if *gate == OPEN { Gate::Set } else { Gate::Shut } }
    }
}
