//! Reading a journal's records step by step: what stands behind a place of the disk is read, and the
//! block is noted where it is a record.

ghost use Rattle.std.specs.Prelude.{◌≡◌, ◌^◌, ◌∷◌, ◌++◌, ◌≤◌, OnOk, [], ℕ, List, Option, length, drop, map, IfErr, IfOk, IfSome, IsNone};
ghost use Rattle.sp_form.specs.Turns.{InTurn};
ghost use Rattle.sp_journal.specs.Looked.{HasLooked};
ghost use Rattle.sp_journal.specs.Opening.{IsPlain};
ghost use Rattle.sp_journal.specs.Records.{rows};
ghost use Rattle.sp_journal.specs.Recovery.{bytes_in, EndsAt, id_behind, IsGood, IsGoodRow, IsRowOf, SaysRows};
ghost use Rattle.sp_journal.specs.Stepping.{IsStep, Joins};

use crate::fault::JournalFault;
use crate::reading::row_in;
use crate::row::Row;
use sp_block::Block;
use sp_disk::Disk;
use sp_ids::{BlockId, Memory};
use std::alloc::Global;

/// What a step found behind its place.
#[derive(Clone, Copy)]
enum Step {
    /// A record, and the place behind it.
    On(u64),
    /// A closed gate.
    End,
    /// Neither a closed gate nor a record that the journal may hold.
    Faulty,
}

/// What stands behind a place of a disk.
fn row_on<D: Disk>(
    alloc: Global,
    disk: &mut D,
    at: u64,
    buffer: &mut [u8],
    bits: u8,
    ids: &[BlockId],
) -> Result<Row, JournalFault>
    requires room { length buffer.old ≡ 65550 }
    requires bits { bits ≤ 64 }
    ensures room { length buffer.new ≡ 65550 }
    ensures row { IfOk result (λ row. IfSome (D.now disk.old).reads (λ bytes.
        IsRowOf bits ids.now (drop at bytes) row)) }
    ensures good { IfOk result (λ row. IsGoodRow bits ids.now row) }
    ensures plain { IfErr result IsPlain }
    ensures looked { HasLooked (D.now disk.old) (D.now disk.new) result }
{
    let count = disk.read_at(at, buffer)?;
    row_in(alloc, &buffer[..count], bits, ids)
}

/// Notes a block and its id.
fn note(blocks: &mut Vec<Block>, ids: &mut Vec<BlockId>, block: Block) -> Result<(), Memory>
    ensures blocks { OnOk result (blocks.new.items ≡ blocks.old.items ++ block ∷ []) }
    ensures ids { OnOk result (ids.new.items ≡ ids.old.items ++ block.id ∷ []) }
{
    ids.push(block.id)?;
    blocks.push(block)?;
    Ok(())
}

/// Notes the block whose record stands at a place, and answers the place behind it; nothing where there
/// is no room for another.
fn join(
    blocks: &mut Vec<Block>,
    ids: &mut Vec<BlockId>,
    place: u64,
    block: Block,
) -> Result<Option<u64>, Memory>
    requires place { place ≤ 2 ^ 63 }
    ensures joins { IfOk result (λ next. IfSome next
        (Joins blocks.old.items ids.old.items place block blocks.new.items ids.new.items)) }
    ensures full { IfOk result (λ next. IsNone next → length blocks.old.items ≡ 511) }
{
    if blocks.len() == 511 {
        return Ok(None);
    }
    let next = place + 5 + block.bytes.as_slice().len() as u64;
    note(blocks, ids, block)?;
    Ok(Some(next))
}

/// What a step comes to by what stands behind its place; the block is noted where it is a record.
fn step_of(
    row: Row,
    place: u64,
    blocks: &mut Vec<Block>,
    ids: &mut Vec<BlockId>,
) -> Result<Step, Memory>
    requires place { place ≤ 2 ^ 63 }
    ensures step { IfOk result (λ step. (reads : Option (List ℕ)) (bits : ℕ)
        → IfSome reads (λ bytes. IsRowOf bits ids.old.items (drop place bytes) row) → IsGoodRow bits ids.old.items row
        → IsStep reads bits blocks.old.items ids.old.items place blocks.new.items ids.new.items step) }
{
    match row {
        Row::End => Ok(Step::End),
        Row::Faulty => Ok(Step::Faulty),
        Row::Next(block) => match join(blocks, ids, place, block)? {
            Some(next) => Ok(Step::On(next)),
            None => Ok(Step::Faulty),
        },
    }
}

/// Reads what stands behind a place, and notes the block where it is a record.
fn read_next<D: Disk>(
    alloc: Global,
    disk: &mut D,
    buffer: &mut [u8],
    bits: u8,
    place: u64,
    blocks: &mut Vec<Block>,
    ids: &mut Vec<BlockId>,
) -> Result<Step, JournalFault>
    requires room { length buffer.old ≡ 65550 }
    requires bits { bits ≤ 64 }
    requires place { place ≤ 2 ^ 63 }
    ensures room { length buffer.new ≡ 65550 }
    ensures step { IfOk result (IsStep (D.now disk.old).reads bits blocks.old.items ids.old.items place
        blocks.new.items ids.new.items) }
    ensures plain { IfErr result IsPlain }
    ensures looked { HasLooked (D.now disk.old) (D.now disk.new) result }
{
    let row = row_on(alloc, disk, place, buffer, bits, ids)?;
    let step = step_of(row, place, blocks, ids)?;
    Ok(step)
}

/// Reads the records from a place on, behind those of these ids, up to the first closed gate, and notes
/// their blocks: the place of that gate, or of the one where they are damaged.
pub(crate) fn read_all<D: Disk>(
    alloc: Global,
    disk: &mut D,
    buffer: &mut [u8],
    bits: u8,
    start: u64,
    blocks: &mut Vec<Block>,
    ids: &mut Vec<BlockId>,
) -> Result<Result<u64, u64>, JournalFault>
    requires room { length buffer.old ≡ 65550 }
    requires bits { bits ≤ 64 }
    requires start { start ≤ 65550 }
    requires none { blocks.old.items ≡ [] }
    ensures says { IfOk result (λ found. IfSome (D.now disk.old).reads (λ bytes.
        SaysRows (λ place. map bytes_in blocks.new.items) found (rows 511 bits ids.old.items start (drop start bytes)))) }
    ensures ends { IfOk result (λ found. IfOk found (EndsAt start blocks.new.items)) }
    ensures good { IfOk result (λ found. IfOk found (λ place.
        InTurn (IsGood bits) id_behind ids.old.items blocks.new.items)) }
    ensures plain { IfErr result IsPlain }
    ensures looked { HasLooked (D.now disk.old) (D.now disk.new) result }
{
    let mut place = start;
    'each: loop {
        let step = read_next(alloc, disk, buffer, bits, place, blocks, ids)?;
        match step {
            Step::On(next) => place = next,
            Step::End => return Ok(Ok(place)),
            Step::Faulty => return Ok(Err(place)),
        }
    }
}
