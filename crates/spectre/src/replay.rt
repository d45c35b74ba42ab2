//! The answering of a feed: message by message up to its end or its first fault, each line written
//! before a byte of the next message is taken.

ghost use Rattle.std.specs.Prelude.{◌≡◌, ◌≢◌, ◌≤◌, ◌∷◌, [], ℕ, true, false, length, Err, IfErr, IfOk, IsErrOf, IsTrue, List, None, Ok, Option, Some};
ghost use Rattle.std.specs.Io.KnownBytes.{Appends};
ghost use Rattle.sp_io.specs.Causes.{Rose};
ghost use Rattle.sp_io.specs.Whole.{AppendsFront};
ghost use Rattle.sp_journal.specs.Settled.{SameTold};
ghost use Rattle.sp_node.specs.Journalled.{IsKeptOn};
ghost use Rattle.sp_feed.specs.Calls.{GivesHead};
ghost use Rattle.sp_feed.specs.Reader.{Behind, head_in, is_open};
ghost use Rattle.sp_feed.specs.Reads.{Moment, moment};
ghost use Rattle.spectre.specs.Ends.{Replays};
ghost use Rattle.spectre.specs.Faults.{feed_fault_text, status_of};
ghost use Rattle.spectre.specs.JobEnds.{WritesBy};
ghost use Rattle.spectre.specs.Replay.{feed_limit};
ghost use Rattle.spectre.specs.Replaying.{Answering, HasWriteCause, Replies};
ghost use Rattle.spectre.specs.Running.{RestReplies};
ghost use Rattle.spectre.specs.Taken.{TakesFeed};
ghost use Rattle.spectre.specs.declared.job.Job.TheVariants as jobs;

use crate::genesis::node_of;
use crate::no_disk::NoDisk;
use crate::status::Status;
use sp_disk::Disk;
use sp_feed::{FeedFault, FeedHead, FeedReader, HeadFault, Message};
use sp_ids::Memory as Refused;
use sp_io::{Sink, Source, write_whole};
use sp_node::{Node, NodeFault};
use sp_report::{Line, Naming, malformed_line, too_long_line, truncated_line};
use std::alloc::Global;
use std::mem::forget;

/// Why a feed isn't answered to its end.
#[derive(Clone, Copy, Debug, PartialEq, Eq)]
pub enum ReplayFault {
    /// The feed, or its source, is at fault.
    Feed(FeedFault),
    /// A write failed.
    WriteFault,
    /// A call of the disk failed.
    DiskFault,
    /// Memory was refused.
    Memory,
}

impl From<FeedFault> for ReplayFault {
    ghost use Rattle.std.specs.Prelude.{◌≡◌};
    ghost use Rattle.spectre.specs.declared.replay.ReplayFault.TheVariants as faults;

    ghost from_gives = { λ fault e. e ≡ faults.Feed fault };

    fn from(fault: FeedFault) -> ReplayFault {
        ReplayFault::Feed(fault)
    }
}

impl From<HeadFault> for ReplayFault {
    ghost use Rattle.std.specs.Prelude.{◌≡◌};
    ghost use Rattle.spectre.specs.Heads.{as_replay};

    ghost from_gives = { λ fault e. e ≡ as_replay fault };

    fn from(fault: HeadFault) -> ReplayFault {
        match fault {
            HeadFault::Feed(fault) => ReplayFault::Feed(fault),
            HeadFault::Memory => ReplayFault::Memory,
        }
    }
}

impl From<NodeFault> for ReplayFault {
    ghost use Rattle.std.specs.Prelude.{◌≡◌};
    ghost use Rattle.spectre.specs.Heads.{of_node};

    ghost from_gives = { λ fault e. e ≡ of_node fault };

    fn from(fault: NodeFault) -> ReplayFault {
        match fault {
            NodeFault::WriteFault => ReplayFault::WriteFault,
            NodeFault::DiskFault => ReplayFault::DiskFault,
            NodeFault::Memory => ReplayFault::Memory,
        }
    }
}

impl From<Refused> for ReplayFault {
    ghost use Rattle.std.specs.Prelude.{◌≡◌};
    ghost use Rattle.spectre.specs.declared.replay.ReplayFault.TheVariants as faults;

    ghost from_gives = { λ _ e. e ≡ faults.Memory };

    fn from(_refused: Refused) -> ReplayFault {
        ReplayFault::Memory
    }
}

/// Answers each message behind the head, over a node's blocks. It owns neither the reader nor the node,
/// so that its proof has no drop in it.
pub fn answer_rest<S: Source, K: Sink, D: Disk>(
    reader: &mut FeedReader,
    node: &mut Node,
    source: &mut S,
    sink: &mut K,
    disk: &mut D,
) -> Result<(), ReplayFault>
    requires limit { reader.old.limit ≡ feed_limit }
    requires opened { IsTrue (is_open reader.old.stage) }
    requires unended { reader.old.stage ≢ Behind None }
    requires live { node.old.stopped ≡ false }
    requires stands { IsKeptOn node.old.terms node.old.kept node.old.journal (D.now disk.old) }
    ensures replies { (before : List (List ℕ)) (start : Moment) (old : Option (List ℕ)) → Answering before start
        (moment (S.left source.old) (S.faults source.old) reader.old.taken)
        old (K.taken sink.old) node.old.terms node.old.kept → RestReplies before start
        (moment (S.left source.new) (S.faults source.new) reader.new.taken)
        old (K.taken sink.new) node.old.terms node.old.kept node.old.journal (D.now disk.old) (D.now disk.new) result }
    ensures uncalled { node.old.journal ≡ None → (disk.new ≡ disk.old) × (result ≢ Err ReplayFault.DiskFault) }
    ensures told { SameTold (D.now disk.old) (D.now disk.new) }
    ensures cause { IfErr result (HasWriteCause (K.faults sink.old) (K.faults sink.new)) }
    ensures disk_cause { result ≡ Err ReplayFault.DiskFault → Rose (D.now disk.old).faults (D.now disk.new).faults }
    ensures read_quiet { result ≢ Err (ReplayFault.Feed FeedFault.ReadFault)
        → S.faults source.new ≡ S.faults source.old }
    ensures write_quiet { result ≢ Err ReplayFault.WriteFault
        → K.faults sink.new ≡ K.faults sink.old }
    ensures disk_quiet { result ≢ Err ReplayFault.DiskFault
        → (D.now disk.new).faults ≡ (D.now disk.old).faults }
{
    'messages: loop {
        // Tells the proof what the kept blocks are.
        let _kept = node.engine().kept_count();
        reader.next(source)?;
        let message = reader.message();
        match message {
            Message::End => return Ok(()),
            _ => node.message(&message, &Naming::Hex, sink, disk)?,
        }
    }
}

/// Answers each message behind the head, by a node that it makes of it.
fn answer_behind<S: Source, K: Sink>(
    alloc: Global,
    reader: &mut FeedReader,
    head: FeedHead,
    source: &mut S,
    sink: &mut K,
) -> Result<(), ReplayFault>
    requires limit { reader.old.limit ≡ feed_limit }
    requires opened { IsTrue (is_open reader.old.stage) }
    requires unended { reader.old.stage ≢ Behind None }
    ensures replies { (start : Moment) → start.taken ≡ 0 → GivesHead feed_limit start
        (moment (S.left source.old) (S.faults source.old) reader.old.taken)
        head_in (Ok head) → Replies [] start
        (moment (S.left source.new) (S.faults source.new) reader.new.taken)
        (K.taken sink.old) (K.taken sink.new) result }
    ensures undisked { result ≢ Err ReplayFault.DiskFault }
    ensures cause { IfErr result (HasWriteCause (K.faults sink.old) (K.faults sink.new)) }
    ensures read_quiet { result ≢ Err (ReplayFault.Feed FeedFault.ReadFault)
        → S.faults source.new ≡ S.faults source.old }
    ensures write_quiet { result ≢ Err ReplayFault.WriteFault
        → K.faults sink.new ≡ K.faults sink.old }
{
    let mut node = node_of(alloc, head)?;
    let mut disk = NoDisk::new();
    let answered = answer_rest(reader, &mut node, source, sink, &mut disk);
    // What it holds goes back with the process that ends now, and not piece by piece.
    forget(node);
    answered
}

/// Answers each message of a feed.
fn answer_messages<S: Source, K: Sink>(
    alloc: Global,
    source: &mut S,
    sink: &mut K,
) -> Result<(), ReplayFault>
    ensures replies { (taken : ℕ) × Replies []
        (moment (S.left source.old) (S.faults source.old) 0)
        (moment (S.left source.new) (S.faults source.new) taken)
        (K.taken sink.old) (K.taken sink.new) result }
    ensures undisked { result ≢ Err ReplayFault.DiskFault }
    ensures cause { IfErr result (HasWriteCause (K.faults sink.old) (K.faults sink.new)) }
    ensures read_quiet { result ≢ Err (ReplayFault.Feed FeedFault.ReadFault)
        → S.faults source.new ≡ S.faults source.old }
    ensures write_quiet { result ≢ Err ReplayFault.WriteFault
        → K.faults sink.new ≡ K.faults sink.old }
{
    let mut reader = FeedReader::new(alloc)?;
    let head = reader.head(source)?;
    answer_behind(alloc, &mut reader, head, source, sink)
}

/// The line of a feed's fault; none where a read failed.
fn line_of(fault: FeedFault) -> Line
    ensures { result ≡ feed_fault_text fault }
{
    match fault {
        FeedFault::Malformed { at } => malformed_line(at),
        FeedFault::Truncated { at } => truncated_line(at),
        FeedFault::ReadFault => Line::new(),
        FeedFault::TooLong { taken } => too_long_line(taken),
    }
}

/// The status that a feed's fault gives.
fn status_by(fault: FeedFault) -> Status
    ensures { result ≡ status_of fault }
{
    match fault {
        FeedFault::Malformed { .. } => Status::Malformed,
        FeedFault::Truncated { .. } => Status::Truncated,
        FeedFault::ReadFault => Status::ReadFault,
        FeedFault::TooLong { .. } => Status::TooLong,
    }
}

/// Writes the line of a feed's fault.
pub fn write_fault<K: Sink>(fault: FeedFault, sink: &mut K) -> Status
    ensures status { result ≢ Status.WriteFault → result ≡ status_of fault }
    ensures text { result ≢ Status.WriteFault →
        Appends (K.taken sink.old) (K.taken sink.new) (feed_fault_text fault) }
    ensures front { AppendsFront (K.taken sink.old) (K.taken sink.new) (feed_fault_text fault) }
    ensures cause { result ≡ Status.WriteFault → Rose (K.faults sink.old) (K.faults sink.new) }
    ensures quiet { result ≢ Status.WriteFault → K.faults sink.new ≡ K.faults sink.old }
    ensures read_fault { fault ≡ FeedFault.ReadFault → result ≡ Status.ReadFault }
{
    let line = line_of(fault);
    match write_whole(sink, line.as_slice()) {
        Ok(()) => status_by(fault),
        Err(_) => Status::WriteFault,
    }
}

/// Answers a feed: one line for each message, and then the line of the feed's fault, where it has
/// one. What follows the frame `E` stays unread. It takes about the time of the engine for each
/// block. The memory that the answered blocks take isn't given back: it goes with the process.
pub fn replay<S: Source, K: Sink>(alloc: Global, source: &mut S, sink: &mut K) -> Status
    // Whatever a disk reads, since none is asked for anything.
    ensures by { (reads : Option (List ℕ)) → WritesBy (Some jobs.Replay) reads
        (S.left source.old) (S.left source.new) (K.taken sink.old) (K.taken sink.new) result }
    ensures taken { TakesFeed []
        (S.left source.old) (S.left source.new) (K.taken sink.old) (K.taken sink.new) }
    ensures read_cause { result ≡ Status.ReadFault → Rose (S.faults source.old) (S.faults source.new) }
    ensures write_cause { result ≡ Status.WriteFault → Rose (K.faults sink.old) (K.faults sink.new) }
    ensures read_quiet { result ≢ Status.ReadFault → S.faults source.new ≡ S.faults source.old }
    ensures write_quiet { result ≢ Status.WriteFault → K.faults sink.new ≡ K.faults sink.old }
    ensures among { Replays result }
{
    match answer_messages(alloc, source, sink) {
        Ok(()) => Status::Done,
        Err(ReplayFault::Feed(fault)) => write_fault(fault, sink),
        Err(ReplayFault::WriteFault) => Status::WriteFault,
        // No disk is asked for anything.
        Err(ReplayFault::DiskFault) => unreachable!(),
        Err(ReplayFault::Memory) => Status::Memory,
    }
}
