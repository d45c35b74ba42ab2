//! The answering of a feed whose blocks are kept in a journal: the disk is opened first, then the feed's
//! head is read, and then each message is answered once its block is on the disk.

ghost use Rattle.std.specs.Prelude.{◌⊎◌, ◌≡◌, ◌≢◌, ◌∷◌, [], ℕ, false, true, Bool, Err, IfErr, IfOk, IfSome, IsTrue, List, None, Ok, OnOk, Option, Some};
ghost use Rattle.std.specs.Io.KnownBytes.{Appends};
ghost use Rattle.sp_io.specs.Causes.{Rose};
ghost use Rattle.sp_io.specs.Whole.{AppendsFront};
ghost use Rattle.sp_feed.specs.Reader.{Behind, is_open, new_reader};
ghost use Rattle.sp_feed.specs.Reads.{moment};
ghost use Rattle.sp_journal.specs.Settled.{SameTold};
ghost use Rattle.sp_node.specs.Stored.{IsFound, IsReady, Tells};
ghost use Rattle.spectre.specs.Ends.{EndsByDisk, KeepsTo};
ghost use Rattle.spectre.specs.JobEnds.{JobEnds};
ghost use Rattle.spectre.specs.Journals.{HasNoJournal, IsDamagedDisk};
ghost use Rattle.spectre.specs.Keeping.{IsBegun, IsUntried, KeepAnswers, of_answers, other_text};
ghost use Rattle.spectre.specs.Replay.{feed_limit};
ghost use Rattle.spectre.specs.declared.job.Job.TheVariants.{Keep};
ghost use Rattle.spectre.specs.declared.keep.KeepFault.TheVariants as faults;

use crate::genesis::node_on;
use crate::lines::{damaged_line, not_journal_line, other_chain_line};
use crate::replay::{ReplayFault, answer_rest, write_fault};
use crate::status::Status;
use sp_disk::Disk;
use sp_feed::{FeedFault, FeedReader, HeadFault};
use sp_ids::{BlockId, Memory as Refused};
use sp_io::{Sink, Source, write_whole};
use sp_journal::JournalFault;
use sp_model::Profile;
use sp_node::{Node, StartFault, Stored};
use sp_report::Line;
use std::alloc::Global;

/// Why a feed isn't answered to its end by a node with a journal.
#[derive(Clone, Copy, Debug, PartialEq, Eq)]
pub enum KeepFault {
    /// The feed, or its source, is at fault.
    Feed(FeedFault),
    /// The journal is that of another chain.
    OtherChain {
        stored_bits: u8,
        stored: BlockId,
        stored_profile: Profile,
        fed_bits: u8,
        fed: BlockId,
        fed_profile: Profile,
    },
    /// A write failed.
    WriteFault,
    /// A call of the disk failed.
    DiskFault,
    /// Memory was refused.
    Memory,
}

impl From<Refused> for KeepFault {
    ghost from_gives = { λ _ e. e ≡ faults.Memory };

    fn from(_refused: Refused) -> KeepFault {
        KeepFault::Memory
    }
}

impl From<HeadFault> for KeepFault {
    ghost use Rattle.spectre.specs.Keeping.{of_head};

    ghost from_gives = { λ fault e. e ≡ of_head fault };

    fn from(fault: HeadFault) -> KeepFault {
        match fault {
            HeadFault::Feed(fault) => KeepFault::Feed(fault),
            HeadFault::Memory => KeepFault::Memory,
        }
    }
}

impl From<StartFault> for KeepFault {
    ghost use Rattle.spectre.specs.Keeping.{of_start};

    ghost from_gives = { λ fault e. e ≡ of_start fault };

    fn from(fault: StartFault) -> KeepFault {
        match fault {
            StartFault::OtherChain {
                stored_bits,
                stored,
                stored_profile,
                fed_bits,
                fed,
                fed_profile,
            } => KeepFault::OtherChain {
                stored_bits,
                stored,
                stored_profile,
                fed_bits,
                fed,
                fed_profile,
            },
            StartFault::DiskFault => KeepFault::DiskFault,
            StartFault::Memory => KeepFault::Memory,
        }
    }
}

/// The same answers, as those of a node with a journal.
fn as_kept(answers: Result<(), ReplayFault>) -> Result<(), KeepFault>
    ensures { result ≡ of_answers answers }
{
    match answers {
        Ok(()) => Ok(()),
        Err(ReplayFault::Feed(fault)) => Err(KeepFault::Feed(fault)),
        Err(ReplayFault::WriteFault) => Err(KeepFault::WriteFault),
        Err(ReplayFault::DiskFault) => Err(KeepFault::DiskFault),
        Err(ReplayFault::Memory) => Err(KeepFault::Memory),
    }
}

/// Reads the feed's head, and starts a node on it and on what was found on the disk.
fn begin<S: Source, D: Disk>(
    alloc: Global,
    reader: &mut FeedReader,
    stored: Stored,
    source: &mut S,
    disk: &mut D,
) -> Result<Node, KeepFault>
    requires new { reader.old ≡ new_reader feed_limit }
    requires ready { IsReady stored (D.now disk.old) }
    ensures ok { IfOk result (λ node. IsBegun stored
        (moment (S.left source.old) (S.faults source.old) 0)
        (moment (S.left source.new) (S.faults source.new) reader.new.taken)
        (D.now disk.old) (D.now disk.new) node) }
    ensures limit { OnOk result (reader.new.limit ≡ feed_limit) }
    ensures opened { OnOk result (IsTrue (is_open reader.new.stage)) }
    ensures unended { OnOk result (reader.new.stage ≢ Behind None) }
    ensures found { IsFound stored → disk.new ≡ disk.old }
    ensures told { SameTold (D.now disk.old) (D.now disk.new) }
    ensures err { IfErr result (λ fault. (old : Option (List ℕ)) → IsUntried stored
        (moment (S.left source.old) (S.faults source.old) 0)
        (moment (S.left source.new) (S.faults source.new) reader.new.taken)
        old old (D.now disk.old) (D.now disk.new) (Err fault)) }
    ensures written { result ≢ Err KeepFault.WriteFault }
    ensures disk_cause { result ≡ Err KeepFault.DiskFault → Rose (D.now disk.old).faults (D.now disk.new).faults }
    ensures read_quiet { result ≢ Err (KeepFault.Feed FeedFault.ReadFault)
        → S.faults source.new ≡ S.faults source.old }
    ensures disk_quiet { result ≢ Err KeepFault.DiskFault
        → (D.now disk.new).faults ≡ (D.now disk.old).faults }
{
    let head = reader.head(source)?;
    Ok(node_on(alloc, disk, stored, head)?)
}

/// Answers the messages by a node that it starts on the feed's head and on what was found on the disk.
fn answer_on<S: Source, K: Sink, D: Disk>(
    alloc: Global,
    reader: &mut FeedReader,
    stored: Stored,
    source: &mut S,
    sink: &mut K,
    disk: &mut D,
) -> Result<(), KeepFault>
    requires new { reader.old ≡ new_reader feed_limit }
    requires ready { IsReady stored (D.now disk.old) }
    ensures answers { KeepAnswers stored
        (moment (S.left source.old) (S.faults source.old) 0)
        (moment (S.left source.new) (S.faults source.new) reader.new.taken)
        (K.taken sink.old) (K.taken sink.new) (D.now disk.old) (D.now disk.new) result }
    ensures write_cause { result ≡ Err KeepFault.WriteFault → Rose (K.faults sink.old) (K.faults sink.new) }
    ensures disk_cause { result ≡ Err KeepFault.DiskFault → Rose (D.now disk.old).faults (D.now disk.new).faults }
    ensures read_quiet { result ≢ Err (KeepFault.Feed FeedFault.ReadFault)
        → S.faults source.new ≡ S.faults source.old }
    ensures write_quiet { result ≢ Err KeepFault.WriteFault
        → K.faults sink.new ≡ K.faults sink.old }
    ensures disk_quiet { result ≢ Err KeepFault.DiskFault
        → (D.now disk.new).faults ≡ (D.now disk.old).faults }
{
    let mut node = begin(alloc, reader, stored, source, disk)?;
    as_kept(answer_rest(reader, &mut node, source, sink, disk))
}

/// Answers the messages of a feed by a node on what was found on the disk.
fn answer_stored<S: Source, K: Sink, D: Disk>(
    alloc: Global,
    stored: Stored,
    source: &mut S,
    sink: &mut K,
    disk: &mut D,
) -> Result<(), KeepFault>
    requires ready { IsReady stored (D.now disk.old) }
    ensures answers { (taken : ℕ) × KeepAnswers stored
        (moment (S.left source.old) (S.faults source.old) 0)
        (moment (S.left source.new) (S.faults source.new) taken)
        (K.taken sink.old) (K.taken sink.new) (D.now disk.old) (D.now disk.new) result }
    ensures write_cause { result ≡ Err KeepFault.WriteFault → Rose (K.faults sink.old) (K.faults sink.new) }
    ensures disk_cause { result ≡ Err KeepFault.DiskFault → Rose (D.now disk.old).faults (D.now disk.new).faults }
    ensures read_quiet { result ≢ Err (KeepFault.Feed FeedFault.ReadFault)
        → S.faults source.new ≡ S.faults source.old }
    ensures write_quiet { result ≢ Err KeepFault.WriteFault
        → K.faults sink.new ≡ K.faults sink.old }
    ensures disk_quiet { result ≢ Err KeepFault.DiskFault
        → (D.now disk.new).faults ≡ (D.now disk.old).faults }
{
    let mut reader = FeedReader::new(alloc)?;
    answer_on(alloc, &mut reader, stored, source, sink, disk)
}

/// Writes a line, after which the run ends so.
pub fn end_with<K: Sink>(line: &Line, status: Status, sink: &mut K) -> Status
    ensures status { result ≢ Status.WriteFault → result ≡ status }
    ensures text { result ≢ Status.WriteFault → Appends (K.taken sink.old) (K.taken sink.new) line.now }
    ensures front { AppendsFront (K.taken sink.old) (K.taken sink.new) line.now }
    ensures cause { result ≡ Status.WriteFault → (status ≢ Status.WriteFault) → Rose (K.faults sink.old) (K.faults sink.new) }
    ensures quiet { result ≢ Status.WriteFault → K.faults sink.new ≡ K.faults sink.old }
{
    match write_whole(sink, line.as_slice()) {
        Ok(()) => status,
        Err(_) => Status::WriteFault,
    }
}

/// The line of another chain; none for another fault.
fn other_line(fault: KeepFault) -> Line
    ensures { result ≡ other_text fault }
{
    match fault {
        KeepFault::OtherChain {
            stored_bits,
            stored,
            stored_profile,
            fed_bits,
            fed,
            fed_profile,
        } => other_chain_line(
            stored_bits,
            stored,
            stored_profile,
            fed_bits,
            fed,
            fed_profile,
        ),
        _ => Line::new(),
    }
}

/// Answers a feed by a node on what was found on the disk, and writes the line of the feed's fault or of
/// another chain.
fn keep_on<S: Source, K: Sink, D: Disk>(
    alloc: Global,
    stored: Stored,
    source: &mut S,
    sink: &mut K,
    disk: &mut D,
) -> Status
    requires ready { IsReady stored (D.now disk.old) }
    ensures ends { (path : List ℕ) (fresh : Bool) → IfSome (D.now disk.old).reads (λ bytes. Tells fresh bytes (Ok stored))
        → JobEnds (Some (Keep path fresh)) (D.now disk.old).reads (S.left source.old) (S.left source.new)
        (K.taken sink.old) (K.taken sink.new) (D.now disk.old) (D.now disk.new) result }
    ensures read_cause { result ≡ Status.ReadFault → Rose (S.faults source.old) (S.faults source.new) }
    ensures write_cause { result ≡ Status.WriteFault → Rose (K.faults sink.old) (K.faults sink.new) }
    ensures disk_cause { result ≡ Status.DiskFault → Rose (D.now disk.old).faults (D.now disk.new).faults }
    ensures read_quiet { result ≢ Status.ReadFault → S.faults source.new ≡ S.faults source.old }
    ensures write_quiet { result ≢ Status.WriteFault → K.faults sink.new ≡ K.faults sink.old }
    ensures disk_quiet { result ≢ Status.DiskFault → (D.now disk.new).faults ≡ (D.now disk.old).faults }
    ensures among { KeepsTo result }
{
    match answer_stored(alloc, stored, source, sink, disk) {
        Ok(()) => Status::Done,
        Err(fault) => match fault {
            KeepFault::Feed(fault) => write_fault(fault, sink),
            KeepFault::OtherChain { .. } => {
                end_with(&other_line(fault), Status::OtherChain, sink)
            }
            KeepFault::WriteFault => Status::WriteFault,
            KeepFault::DiskFault => Status::DiskFault,
            KeepFault::Memory => Status::Memory,
        },
    }
}

/// Answers a feed as `replay` does, with the journal that stands on a disk: its blocks stand before those
/// of the feed. Where the disk is empty, or `fresh` is true and it holds no journal, one is created behind
/// the feed's head. A block that is kept is recorded before its line is written. A found journal's blocks
/// are read once, and kept as though they had been sent.
pub fn keep<S: Source, K: Sink, D: Disk>(
    alloc: Global,
    fresh: bool,
    source: &mut S,
    sink: &mut K,
    disk: &mut D,
) -> Status
    // Whatever the name of its file.
    ensures ends { (path : List ℕ) → JobEnds (Some (Keep path fresh)) (D.now disk.old).reads
        (S.left source.old) (S.left source.new)
        (K.taken sink.old) (K.taken sink.new) (D.now disk.old) (D.now disk.new) result }
    // Where what the disk holds is at fault, the run ends by that, and nothing of the feed is taken.
    ensures disk_first { IfSome (D.now disk.old).reads (λ bytes. HasNoJournal fresh bytes ⊎ IsDamagedDisk bytes
        → EndsByDisk result × (source.new ≡ source.old)) }
    ensures read_cause { result ≡ Status.ReadFault → Rose (S.faults source.old) (S.faults source.new) }
    ensures write_cause { result ≡ Status.WriteFault → Rose (K.faults sink.old) (K.faults sink.new) }
    ensures disk_cause { result ≡ Status.DiskFault → Rose (D.now disk.old).faults (D.now disk.new).faults }
    ensures read_quiet { result ≢ Status.ReadFault → S.faults source.new ≡ S.faults source.old }
    ensures write_quiet { result ≢ Status.WriteFault → K.faults sink.new ≡ K.faults sink.old }
    ensures disk_quiet { result ≢ Status.DiskFault → (D.now disk.new).faults ≡ (D.now disk.old).faults }
    ensures among { KeepsTo result }
{
    match Stored::open(alloc, disk, fresh) {
        Ok(stored) => keep_on(alloc, stored, source, sink, disk),
        Err(fault) => match fault {
            JournalFault::NotJournal { .. } => {
                end_with(&not_journal_line(), Status::NotJournal, sink)
            }
            JournalFault::Damaged { at } => end_with(&damaged_line(at), Status::Damaged, sink),
            JournalFault::DiskFault => Status::DiskFault,
            JournalFault::Memory => Status::Memory,
        },
    }
}
