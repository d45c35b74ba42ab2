//! The start of a node's engine and journal, on a disk that holds no journal and on one that does.

ghost use Rattle.std.specs.Prelude.{◌≡◌, ◌⊎◌, ◌+◌, ◌++◌, ◌≤◌, ◌∷◌, [], false, true, fold, length, map, Err, IfErr, IfNone, IfOk, IfSome, IsErrOf, Ok, OnOk};
ghost use Rattle.sp_ids.specs.Digest.{sha256_number};
ghost use Rattle.sp_io.specs.Causes.{Rose};
ghost use Rattle.sp_block.specs.Block.{IsGenesis};
ghost use Rattle.sp_disk.specs.Moments.{Lasts, Leaves};
ghost use Rattle.sp_engine.specs.Arrivals.{kept_after, kept_by_all};
ghost use Rattle.sp_engine.specs.Blocks.{block_in};
ghost use Rattle.sp_engine.specs.Engine.{IsLedger};
ghost use Rattle.sp_journal.specs.Creation.{HoldsJournal, HoldsNoneOrNew, IsSynced, IsVacant};
ghost use Rattle.sp_journal.specs.Journal.{contents};
ghost use Rattle.sp_journal.specs.Recovery.{bytes_in, id_behind, IsGood};
ghost use Rattle.sp_journal.specs.Settled.{IsTold, SameTold};
ghost use Rattle.sp_journal.specs.declared.fault.CreateFault.TheVariants as creations;
ghost use Rattle.sp_journal.specs.declared.gate_kind.Gate.TheVariants.{Shut};
ghost use Rattle.sp_form.specs.Turns.{InTurn};
ghost use Rattle.sp_pool.specs.Kept.{ids_of};
ghost use Rattle.sp_node.specs.Journalled.{FitsKept, StandsForKept};
ghost use Rattle.sp_node.specs.Stored.{IsSameChain};
ghost use Rattle.sp_node.specs.Terms.{terms_of};
ghost use Rattle.sp_node.specs.declared.start.StartFault.TheVariants as faults;

use sp_block::Block;
use sp_disk::Disk;
use sp_engine::Engine;
use sp_feed::FeedHead;
use sp_ids::{BlockId, Memory};
use sp_journal::{CreateFault, Gate, Journal, Opened};
use sp_model::Profile;
use std::alloc::Global;

/// Why no node was started.
#[derive(Clone, Copy, Debug, PartialEq, Eq)]
pub enum StartFault {
    /// The journal is that of another chain: of another profile, other bits of work
    /// or another genesis block.
    OtherChain {
        stored_bits: u8,
        stored: BlockId,
        stored_profile: Profile,
        fed_bits: u8,
        fed: BlockId,
        fed_profile: Profile,
    },
    /// The disk failed. It holds no journal, or the new one.
    DiskFault,
    /// There was no memory. The disk wasn't called.
    Memory,
}

impl From<Memory> for StartFault {
    ghost from_gives = { λ _ e. e ≡ faults.Memory };

    fn from(_refused: Memory) -> StartFault {
        StartFault::Memory
    }
}

// Why no journal was created is why no node was started.
fn of_creation(fault: CreateFault) -> StartFault
    ensures disk { fault ≡ creations.DiskFault → result ≡ faults.DiskFault }
    ensures memory { fault ≡ creations.Memory → result ≡ faults.Memory }
{
    match fault {
        CreateFault::DiskFault => StartFault::DiskFault,
        CreateFault::Memory => StartFault::Memory,
    }
}

/// An engine of the head's genesis block alone, and its journal on the disk. The engine comes first,
/// so that want of memory leaves the disk as it was.
pub(crate) fn start_new<D: Disk>(
    alloc: Global,
    disk: &mut D,
    gate: Gate,
    head: FeedHead,
) -> Result<(Engine, Journal), StartFault>
    requires vacant { IfSome (D.now disk.old).reads (IsVacant gate) }
    requires synced { gate ≡ Shut → IsSynced (D.now disk.old) }
    ensures engine { IfOk result (λ made. IsLedger head.profile head.bits (head.genesis ∷ []) made.0) }
    ensures fits { IfOk result (λ made. FitsKept (terms_of head.profile head.bits) (head.genesis ∷ []) made.1) }
    ensures stands { IfOk result (λ made. IsTold (D.now disk.old)
        → StandsForKept (terms_of head.profile head.bits) (head.genesis ∷ []) made.1 (D.now disk.new)) }
    ensures any_moment { IsTold (D.now disk.old) → IsSynced (D.now disk.old)
        → Leaves (D.now disk.old) (D.now disk.new) (HoldsNoneOrNew (contents head.profile head.bits head.genesis.bytes [])) }
    ensures lasts { IsTold (D.now disk.old) → Lasts (D.now disk.old) (D.now disk.new) HoldsJournal }
    ensures told { SameTold (D.now disk.old) (D.now disk.new) }
    ensures own { IfErr result (λ fault. (fault ≡ faults.DiskFault) ⊎ (fault ≡ faults.Memory)) }
    ensures fault { IsErrOf result faults.DiskFault → Rose (D.now disk.old).faults (D.now disk.new).faults }
    ensures memory { IsErrOf result faults.Memory → disk.new ≡ disk.old }
    ensures later { (D.now disk.old).faults ≤ (D.now disk.new).faults }
    ensures quiet { (IsErrOf result faults.DiskFault → ⊥) → (D.now disk.new).faults ≡ (D.now disk.old).faults }
{
    let FeedHead {
        profile,
        bits,
        genesis,
    } = head;
    let engine = Engine::new(alloc, genesis, bits, profile)?;
    match Journal::create(alloc, disk, gate, profile, bits, engine.genesis()) {
        Ok(journal) => Ok((engine, journal)),
        Err(fault) => {
            drop(engine);
            Err(of_creation(fault))
        }
    }
}

/// Offers blocks to an engine that keeps them all, since each may be recorded behind those before it.
fn restore(engine: &mut Engine, blocks: &[Block]) -> Result<(), Memory>
    requires good { InTurn (IsGood engine.old.bits) id_behind (ids_of engine.old.kept) blocks.now }
    requires few { length engine.old.kept + length blocks.now ≤ 512 }
    ensures kept { OnOk result (engine.new.kept ≡ engine.old.kept ++ blocks.now) }
    ensures sent { OnOk result (engine.new.kept
        ≡ fold (kept_after engine.old.bits) engine.old.kept (map bytes_in blocks.now)) }
    ensures profile { OnOk result (engine.new.profile ≡ engine.old.profile) }
    ensures bits { engine.new.bits ≡ engine.old.bits }
{
    let mut i = 0;
    'each: while i < blocks.len() {
        let block = &blocks[i];
        engine.offer(block.bytes.as_slice())?;
        i += 1;
    }
    Ok(())
}

/// An engine of these blocks, all of which it keeps: genesis, and the others in their order.
fn engine_of(
    alloc: Global,
    profile: Profile,
    genesis: Block,
    bits: u8,
    blocks: &[Block],
) -> Result<Engine, Memory>
    requires genesis { IsGenesis genesis }
    requires bits { bits ≤ 64 }
    requires good { InTurn (IsGood bits) id_behind (ids_of (genesis ∷ [])) blocks.now }
    requires few { length blocks.now ≤ 511 }
    ensures engine { IfOk result (IsLedger profile bits (genesis ∷ blocks.now)) }
    ensures sent { IfOk result (λ engine. engine.kept
        ≡ kept_by_all bits genesis (map bytes_in blocks.now)) }
{
    let mut engine = Engine::new(alloc, genesis, bits, profile)?;
    let restored = restore(&mut engine, blocks);
    if restored.is_err() {
        drop(engine);
        return Err(Memory);
    }
    Ok(engine)
}

// What stands in the way of a head's blocks in an opened journal, if anything does.
fn other_chain(opened: &Opened, head: &FeedHead) -> Option<StartFault>
    ensures other { IfSome result (λ fault. (IsSameChain opened.now head.now → ⊥)
        × (fault ≡ faults.OtherChain opened.now.bits (sha256_number opened.now.genesis.bytes) opened.now.profile
        head.now.bits (sha256_number head.now.genesis.bytes) head.now.profile)) }
    ensures same { IfNone result (IsSameChain opened.now head.now) }
{
    let same = head.genesis.bytes.as_slice() == opened.genesis.bytes.as_slice();
    let alike = head.profile == opened.profile;
    if head.bits == opened.bits && same && alike {
        return None;
    }
    Some(StartFault::OtherChain {
        stored_bits: opened.bits,
        stored: opened.genesis.id,
        stored_profile: opened.profile,
        fed_bits: head.bits,
        fed: head.genesis.id,
        fed_profile: head.profile,
    })
}

/// An engine of an opened journal's blocks, which are offered to it in their order, where they are of
/// the head's chain.
fn engine_on(alloc: Global, opened: &Opened, head: FeedHead) -> Result<Engine, StartFault>
    ensures engine { IfOk result (IsLedger head.profile head.bits (head.genesis ∷ opened.now.blocks)) }
    ensures sent { IfOk result (λ engine. engine.kept
        ≡ kept_by_all head.bits head.genesis (map bytes_in opened.now.blocks)) }
    ensures same { OnOk result (IsSameChain opened.now head) }
    ensures other { IfErr result (λ fault. (fault ≡ faults.Memory)
        ⊎ ((IsSameChain opened.now head → ⊥)
        × (fault ≡ faults.OtherChain opened.now.bits (sha256_number opened.now.genesis.bytes) opened.now.profile
        head.bits (sha256_number head.genesis.bytes) head.profile))) }
{
    if let Some(fault) = other_chain(opened, &head) {
        return Err(fault);
    }
    // Tells the proof what the id of each genesis block is.
    let _found = opened.genesis.id;
    let FeedHead {
        profile,
        bits,
        genesis,
    } = head;
    let _fed = genesis.id;
    let engine = engine_of(alloc, profile, genesis, bits, opened.blocks.as_slice())?;
    Ok(engine)
}

/// The journal alone, without what it was found to hold.
fn journal_of(opened: Opened) -> Journal
    ensures { result ≡ opened.journal }
{
    opened.journal
}

/// An engine of a found journal's blocks, which are offered to it in their order, and that journal.
/// The disk isn't called.
pub(crate) fn start_found(
    alloc: Global,
    opened: Opened,
    head: FeedHead,
) -> Result<(Engine, Journal), StartFault>
    ensures engine { IfOk result (λ made. IsLedger head.profile head.bits (head.genesis ∷ opened.blocks) made.0) }
    ensures sent { IfOk result (λ made. made.0.kept ≡ kept_by_all head.bits head.genesis (map bytes_in opened.blocks)) }
    ensures same { OnOk result (IsSameChain opened head) }
    ensures journal { IfOk result (λ made. made.1 ≡ opened.journal) }
    ensures other { IfErr result (λ fault. (fault ≡ faults.Memory)
        ⊎ ((IsSameChain opened head → ⊥)
        × (fault ≡ faults.OtherChain opened.bits (sha256_number opened.genesis.bytes) opened.profile
        head.bits (sha256_number head.genesis.bytes) head.profile))) }
{
    match engine_on(alloc, &opened, head) {
        Ok(engine) => Ok((engine, journal_of(opened))),
        Err(fault) => {
            drop(opened);
            Err(fault)
        }
    }
}

/// The engine of the blocks that an opened journal holds, which are offered to it in their order. Where
/// each record is one of a journal, all of them are kept.
///
/// # Errors
///
/// `Memory` where there was none for them.
pub fn recovered(alloc: Global, opened: Opened) -> Result<Engine, Memory>
    ensures engine { IfOk result (IsLedger opened.profile opened.bits (opened.genesis ∷ opened.blocks)) }
    ensures sent { IfOk result (λ engine. engine.kept ≡ kept_by_all opened.bits opened.genesis (map bytes_in opened.blocks)) }
    ensures spelled { OnOk result (block_in true opened.genesis.bytes ≡ Ok opened.genesis) }
{
    let Opened {
        journal: _,
        profile,
        bits,
        genesis,
        blocks,
    } = opened;
    // Tells the proof what its bytes spell.
    let _id = genesis.id;
    engine_of(alloc, profile, genesis, bits, blocks.as_slice())
}
