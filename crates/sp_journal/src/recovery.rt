//! Recovery: what a disk holds as a journal, read head by record.

ghost use Rattle.std.specs.Prelude.{◌≡◌, ◌+◌, ◌≤◌, ◌∷◌, Ok, [], ℕ, List, drop, length, map, IfErr, IfOk, IfSome, IsErrOf};
ghost use Rattle.sp_block.specs.Block.{IsGenesis};
ghost use Rattle.sp_journal.specs.Looked.{HasLooked};
ghost use Rattle.sp_journal.specs.Opening.{IsPlain, Judges};
ghost use Rattle.sp_journal.specs.Records.{rows};
ghost use Rattle.sp_journal.specs.declared.fault.JournalFault.TheVariants.{DiskFault};
ghost use Rattle.sp_journal.specs.Recovery.{bytes_in, EndsAt, IsHeadOf, AreGood, SaysRows};

use crate::fault::JournalFault;
use crate::gate_kind::Gate;
use crate::journal::{Journal, Opened};
use crate::reading::head_in;
use crate::step::read_all;
use sp_block::{Block, Blocks};
use sp_disk::Disk;
use sp_ids::{BlockId, Memory};
use sp_model::Profile;
use std::alloc::Global;

/// The head of a disk's journal; where there is none, the byte at place 0.
fn head_on<D: Disk>(
    alloc: Global,
    disk: &mut D,
    buffer: &mut [u8],
) -> Result<Result<(Profile, u8, Block), Gate>, JournalFault>
    requires room { length buffer.old ≡ 65550 }
    ensures room { length buffer.new ≡ 65550 }
    ensures found { IfOk result (λ found. IfSome (D.now disk.old).reads (λ bytes. IsHeadOf bytes found)) }
    ensures small { IfOk result (λ found. IfOk found (λ head. head.1 ≤ 64)) }
    ensures genesis { IfOk result (λ found. IfOk found (λ head. IsGenesis head.2)) }
    ensures plain { IfErr result IsPlain }
    ensures looked { HasLooked (D.now disk.old) (D.now disk.new) result }
{
    let count = disk.read_at(0, buffer)?;
    head_in(alloc, &buffer[..count])
}

/// A list of one id.
fn one_id(alloc: Global, id: BlockId) -> Result<Vec<BlockId>, Memory>
    ensures { IfOk result (λ ids. ids.items ≡ id ∷ []) }
{
    let mut ids = Vec::new(alloc);
    ids.push(id)?;
    Ok(ids)
}

/// The records up to the first closed gate, or the place of the gate where they are damaged. Nothing
/// behind that gate's longest record is read.
fn records<D: Disk>(
    alloc: Global,
    disk: &mut D,
    buffer: &mut [u8],
    bits: u8,
    genesis: BlockId,
    start: u64,
) -> Result<Result<(Vec<Block>, u64), u64>, JournalFault>
    requires room { length buffer.old ≡ 65550 }
    requires bits { bits ≤ 64 }
    requires start { start ≤ 65550 }
    ensures says { IfOk result (λ found. IfSome (D.now disk.old).reads (λ bytes.
        SaysRows (λ found. map bytes_in found.0.items) found (rows 511 bits (genesis ∷ []) start (drop start bytes)))) }
    ensures ends { IfOk result (λ found. IfOk found (λ found. EndsAt start found.0.items found.1)) }
    ensures good { IfOk result (λ found. IfOk found (λ found. AreGood bits genesis found.0.items)) }
    ensures plain { IfErr result IsPlain }
    ensures looked { HasLooked (D.now disk.old) (D.now disk.new) result }
{
    let mut blocks = Vec::new(alloc);
    let mut ids = one_id(alloc, genesis)?;
    match read_all(alloc, disk, buffer, bits, start, &mut blocks, &mut ids)? {
        Ok(place) => Ok(Ok((blocks, place))),
        Err(place) => Ok(Err(place)),
    }
}

/// The journal of a head, and of what stands behind it.
fn opened_by(
    alloc: Global,
    profile: Profile,
    bits: u8,
    genesis: Block,
    found: Result<(Vec<Block>, u64), u64>,
) -> Result<Opened, JournalFault>
    requires bits { bits ≤ 64 }
    requires genesis { IsGenesis genesis }
    requires ends { IfOk found (λ found. EndsAt (14 + length genesis.bytes) found.0.items found.1) }
    requires good { IfOk found (λ found. AreGood bits genesis.id found.0.items) }
    ensures judged { (list : List ℕ) → IsHeadOf list (Ok (profile, bits, genesis))
        → SaysRows (λ found. map bytes_in found.0.items) found
        (rows 511 bits (genesis.id ∷ []) (14 + length genesis.bytes) (drop (14 + length genesis.bytes) list))
        → Judges list result }
    ensures fault { IsErrOf result DiskFault → ⊥ }
{
    // Tells the proof what its id is.
    let _id = genesis.id;
    match found {
        Ok((blocks, gate)) => {
            let journal = Journal::at(alloc, profile, bits, blocks.len() as u16, gate)?;
            Ok(Opened {
                journal,
                profile,
                bits,
                genesis,
                blocks: Blocks::of(blocks),
            })
        }
        Err(at) => Err(JournalFault::Damaged { at }),
    }
}

/// The journal of a head, and of what stands behind it on a disk.
fn behind<D: Disk>(
    alloc: Global,
    disk: &mut D,
    buffer: &mut [u8],
    profile: Profile,
    bits: u8,
    genesis: Block,
) -> Result<Opened, JournalFault>
    requires room { length buffer.old ≡ 65550 }
    requires bits { bits ≤ 64 }
    requires genesis { IsGenesis genesis }
    ensures judged { IfSome (D.now disk.old).reads (λ bytes. IsHeadOf bytes (Ok (profile, bits, genesis)) → Judges bytes result) }
    ensures looked { HasLooked (D.now disk.old) (D.now disk.new) result }
{
    let start = 14 + genesis.bytes.as_slice().len() as u64;
    match records(alloc, disk, buffer, bits, genesis.id, start) {
        Ok(found) => opened_by(alloc, profile, bits, genesis, found),
        Err(fault) => Err(fault),
    }
}

/// The journal that a disk holds, each part of it read into the same room.
fn read_into<D: Disk>(
    alloc: Global,
    disk: &mut D,
    buffer: &mut [u8],
) -> Result<Opened, JournalFault>
    requires room { length buffer.old ≡ 65550 }
    ensures judged { IfSome (D.now disk.old).reads (λ bytes. Judges bytes result) }
    ensures looked { HasLooked (D.now disk.old) (D.now disk.new) result }
{
    let head = match head_on(alloc, disk, buffer) {
        Ok(head) => head,
        Err(fault) => return Err(fault),
    };
    match head {
        Ok((profile, bits, genesis)) => behind(alloc, disk, buffer, profile, bits, genesis),
        Err(gate) => Err(JournalFault::NotJournal { gate }),
    }
}

/// What a disk holds as a journal. It is read head by record, each into the same room.
pub(crate) fn recover<D: Disk>(alloc: Global, disk: &mut D) -> Result<Opened, JournalFault>
    ensures judged { IfSome (D.now disk.old).reads (λ bytes. Judges bytes result) }
    ensures looked { HasLooked (D.now disk.old) (D.now disk.new) result }
{
    let Ok(mut buffer) = vec![in alloc; 0u8; 65_550] else {
        return Err(JournalFault::Memory);
    };
    read_into(alloc, disk, &mut buffer)
}
