//! The journal of a ledger: a head with the genesis block, and a record for each further block.

ghost use Rattle.std.specs.Prelude.{◌≡◌, ◌↔◌, ◌+◌, ◌<◌, ◌≤◌, [], length, true, false, IfOk, IfSome, IsErrOf, OnOk};
ghost use Rattle.sp_ids.specs.Bits.{BeginsWithZeros};
ghost use Rattle.sp_io.specs.Causes.{Rose};
ghost use Rattle.sp_block.specs.Block.{IsGenesis, IsOther};
ghost use Rattle.sp_disk.specs.Moments.{Lasts, Leaves, Looks};
ghost use Rattle.sp_journal.specs.Creation.{HoldsJournal, HoldsNoneOrNew, IsSynced, IsVacant};
ghost use Rattle.sp_journal.specs.Journal.{Contents, contents, ids_of, with_block};
ghost use Rattle.sp_journal.specs.Judged.{has};
ghost use Rattle.sp_journal.specs.Opening.{contents_in, Judges};
ghost use Rattle.sp_journal.specs.Settled.{IsTold, SameTold};
ghost use Rattle.sp_journal.specs.Writer.{HoldsOrAdded, IsWriter, Stands, StandsFor, with_record, writer};
ghost use Rattle.sp_journal.specs.declared.fault.AppendFault.TheVariants.{DiskFault, Closed};
ghost use Rattle.sp_journal.specs.declared.fault.CreateFault.TheVariants as created;
ghost use Rattle.sp_journal.specs.declared.fault.JournalFault.TheVariants as opening;
ghost use Rattle.sp_journal.specs.declared.gate_kind.Gate.TheVariants.{Shut};

use crate::create::close_gate;
use crate::fault::{AppendFault, CreateFault, JournalFault};
use crate::gate::open_over;
use crate::gate_kind::Gate;
use crate::head::fill_head;
use crate::record::fill;
use crate::recovery::recover;
use sp_block::{Block, Blocks};
use sp_disk::Disk;
use sp_ids::Memory;
use sp_model::Profile;
use std::alloc::Global;
use std::marker::Model;

/// The longest body behind a gate: that of the head, with the closed gate behind it.
const ROOM: usize = 65_550;

/// A journal that stands on a disk, with room for the bytes of the longest record.
///
/// On the disk stand a head with the profile, the bits of work and the genesis block, a record for each further
/// block, and a closed gate; what follows the first closed gate has no meaning. The table of the
/// format stands in docs/FORMATS.md under "Journals". Each gate is one byte, 0xA5 where it is open, and
/// it is opened only once what stands behind it is on the disk.
#[derive(Drop)]
pub struct Journal {
    profile: Profile,
    bits: u8,
    records: u16,
    gate: u64,
    closed: bool,
    buffer: Vec<u8>,
}

impl Model for Journal {
    ghost use Rattle.std.specs.Prelude.{◌≤◌, vec_capacity};
    ghost use Rattle.sp_journal.specs.Writer.{IsWriter, Writer, writer};

    ghost Value = { Writer };

    ghost view = { λ j. writer j.profile j.bits j.records j.gate j.closed };

    // The room is there from the first, so that no append takes memory.
    ghost invariant = { λ j. IsWriter (writer j.profile j.bits j.records j.gate j.closed) × (65541 ≤ vec_capacity j.buffer) };
}

/// What was found on a disk: the journal, and what it holds.
#[derive(Drop)]
pub struct Opened {
    /// The journal, to which blocks are added.
    pub journal: Journal,
    /// The profile.
    pub profile: Profile,
    /// The bits of work, 0 to 64.
    pub bits: u8,
    /// The genesis block.
    pub genesis: Block,
    /// The recorded blocks in their order, at most 511; their ids differ from each other and from that
    /// of genesis.
    pub blocks: Blocks,
}

impl Model for Opened {
    ghost use Rattle.sp_journal.specs.Opening.{IsOpening, Opening, opening};

    ghost Value = { Opening };

    ghost view = { λ o. opening o.journal o.profile o.bits o.genesis o.blocks };

    ghost invariant = { λ o. IsOpening (opening o.journal o.profile o.bits o.genesis o.blocks) };
}

impl Journal {
    // A journal with so many records and its closed gate at this place.
    pub(crate) fn at(
        alloc: Global,
        profile: Profile,
        bits: u8,
        records: u16,
        gate: u64,
    ) -> Result<Journal, Memory>
        requires { IsWriter (writer profile bits records gate false) }
        ensures { IfOk result (λ journal. journal ≡ writer profile bits records gate false) }
    {
        let buffer = Vec::with_capacity(alloc, ROOM)?;
        Ok(Journal {
            profile,
            bits,
            records,
            gate,
            closed: false,
            buffer,
        })
    }

    /// A new journal with no records, on a disk that holds none and whose byte at place 0 is `gate`. A
    /// crash at any moment of the call leaves no journal, or the new one.
    ///
    /// A gate that is missing or set is closed first; one that is shut isn't written again, so that no
    /// crash opens it over what stands behind it. Then the head is written behind it with a closed gate
    /// of the first record, and last the gate is opened. Each of these two or three writes is followed
    /// by a sync. The disk is never made shorter.
    ///
    /// # Errors
    ///
    /// `Memory` where the journal's room, 65,550 bytes, can't be had, before anything is asked of the
    /// disk. `DiskFault` where the disk refused a call: it holds no journal or the new one.
    pub fn create<D: Disk>(
        alloc: Global,
        disk: &mut D,
        gate: Gate,
        profile: Profile,
        bits: u8,
        genesis: &Block,
    ) -> Result<Journal, CreateFault>
        requires vacant { IfSome (D.now disk.old).reads (IsVacant gate) }
        requires synced { gate ≡ Shut → IsSynced (D.now disk.old) }
        requires bits { bits ≤ 64 }
        requires genesis { IsGenesis genesis.now }

        ensures ok { IfOk result (λ journal. journal ≡ writer profile bits 0 (length genesis.now.bytes + 14) false) }
        ensures stands { IfOk result (λ journal. IsTold (D.now disk.old)
            → Stands journal (contents profile bits genesis.now.bytes []) (D.now disk.new)) }
        ensures any_moment { IsTold (D.now disk.old) → IsSynced (D.now disk.old)
            → Leaves (D.now disk.old) (D.now disk.new) (HoldsNoneOrNew (contents profile bits genesis.now.bytes [])) }
        // Once a crash leaves nothing but a journal, it leaves one at each later moment.
        ensures lasts { IsTold (D.now disk.old) → Lasts (D.now disk.old) (D.now disk.new) HoldsJournal }
        ensures told { SameTold (D.now disk.old) (D.now disk.new) }
        ensures fault { IsErrOf result created.DiskFault → Rose (D.now disk.old).faults (D.now disk.new).faults }
        ensures memory { IsErrOf result created.Memory → disk.new ≡ disk.old }
        ensures later { (D.now disk.old).faults ≤ (D.now disk.new).faults }
        ensures quiet { (IsErrOf result created.DiskFault → ⊥) → (D.now disk.new).faults ≡ (D.now disk.old).faults }
    {
        let mut buffer = Vec::with_capacity(alloc, ROOM)?;
        let bytes = genesis.bytes.as_slice();
        fill_head(&mut buffer, profile, bits, bytes);
        close_gate(disk, gate)?;
        open_over(disk, 0, &buffer)?;
        Ok(Journal {
            profile,
            bits,
            records: 0,
            gate: bytes.len() as u64 + 14,
            closed: false,
            buffer,
        })
    }

    /// The journal that a disk holds. Nothing is written, and nothing is pending after the first call,
    /// a sync.
    ///
    /// The head, each record and the closed gate are read by one call each, into one buffer of 65,550
    /// bytes. The time is that of these reads and of the blocks' digests; each id is compared with those
    /// of the earlier records, at most 511.
    ///
    /// # Errors
    ///
    /// `NotJournal` where the first bytes are no head, with what stands at place 0: the disk ends
    /// within the head, its gate is closed, the name is neither `SPCTRJ01` nor `SPCTRJ02`, the bits are above 64, the length
    /// is above 65,536, or the bytes spell no genesis block. `Damaged` at the place of the first gate
    /// with a fault: the disk ends before it; or it is open, and its length is above 65,536, the disk
    /// ends within the record, its bytes spell no block or that of genesis, its id misses the bits of
    /// work, its id is that of genesis or of an earlier record, or 511 records stand before it.
    /// `DiskFault` where the disk refused a call. `Memory` where there is none for what the disk holds.
    pub fn open<D: Disk>(alloc: Global, disk: &mut D) -> Result<Opened, JournalFault>
        ensures judged { IfSome (D.now disk.old).reads (λ bytes. Judges bytes result) }
        ensures stands { IfOk result (λ opened. IsTold (D.now disk.old)
            → Stands opened.journal (contents_in opened) (D.now disk.new)) }
        ensures synced { (IsErrOf result opening.DiskFault → ⊥) → IsSynced (D.now disk.new) }
        ensures looks { Looks (D.now disk.old) (D.now disk.new) }
        ensures fault { IsErrOf result opening.DiskFault → Rose (D.now disk.old).faults (D.now disk.new).faults }
        ensures later { (D.now disk.old).faults ≤ (D.now disk.new).faults }
        ensures quiet { (IsErrOf result opening.DiskFault → ⊥) → (D.now disk.new).faults ≡ (D.now disk.old).faults }
    {
        disk.sync()?;
        recover(alloc, disk)
    }

    /// The number of records, at most 511.
    pub fn records(&self) -> u16
        ensures { result ≡ self.now.records }
    {
        self.records
    }

    /// Adds the record of a block. After `Ok` every crash leaves it. A crash at any moment of the call
    /// leaves the records from before it, or these and the new one.
    ///
    /// The length, the block and a closed gate are written behind the journal's closed gate, and then
    /// that gate is opened; each of the two writes is followed by a sync. No memory is taken: the room
    /// was made with the journal.
    ///
    /// # Errors
    ///
    /// `DiskFault` where the disk refused a call: it may hold the record or not, the journal has to be
    /// opened again, and each later append of this value answers `Closed`. `Closed` where an earlier
    /// append answered `DiskFault`, and only there; then nothing is asked of the disk.
    pub fn append<D: Disk>(&mut self, disk: &mut D, block: &Block) -> Result<(), AppendFault>
        requires room { self.old.records < 511 }
        requires other { IsOther block.now }
        requires work { BeginsWithZeros block.now.id self.old.bits }
        requires stands { self.old.closed ≡ false → IsTold (D.now disk.old) → StandsFor self.old (D.now disk.old) }
        requires fresh { self.old.closed ≡ false → (c : Contents) → Stands self.old c (D.now disk.old)
            → has (ids_of c) block.now.id ≡ false }

        ensures acknowledged { OnOk result ((c : Contents) → Stands self.old c (D.now disk.old)
            → Stands self.new (with_block c block.now.bytes) (D.now disk.new)) }
        ensures any_moment { self.old.closed ≡ false → (c : Contents) → Stands self.old c (D.now disk.old)
            → Leaves (D.now disk.old) (D.now disk.new) (HoldsOrAdded c block.now.bytes) }
        ensures ok { OnOk result (self.new ≡ with_record self.old block.now.bytes) }
        ensures told { SameTold (D.now disk.old) (D.now disk.new) }
        ensures fault { IsErrOf result DiskFault → Rose (D.now disk.old).faults (D.now disk.new).faults }
        ensures after { IsErrOf result DiskFault → self.new ≡ record self.old { closed = true } }
        ensures closed { IsErrOf result Closed ↔ (self.old.closed ≡ true) }
        ensures same { IsErrOf result Closed → (self.new ≡ self.old) × (disk.new ≡ disk.old) }
        ensures later { (D.now disk.old).faults ≤ (D.now disk.new).faults }
        ensures quiet { (IsErrOf result DiskFault → ⊥) → (D.now disk.new).faults ≡ (D.now disk.old).faults }
    {
        if self.closed {
            return Err(AppendFault::Closed);
        }
        let bytes = block.bytes.as_slice();
        fill(&mut self.buffer, bytes);
        if open_over(disk, self.gate, &self.buffer).is_err() {
            self.closed = true;
            return Err(AppendFault::DiskFault);
        }
        self.records += 1;
        self.gate += 5 + bytes.len() as u64;
        Ok(())
    }
}
