//! A feed answered as `replay` does, and behind the answer to each block what it changes of some items;
//! and at the end since when each value stands.

ghost use Rattle.std.specs.Prelude.{◌≡◌, ◌≢◌, ◌≤◌, ◌<◌, ◌-◌, ◌^◌, [], ℕ, false, Err, IfErr, IfOk, IfSome, IsSome, IsTrue, List, None, Ok, OnErr, OnOk, Option, Some};
ghost use Rattle.std.specs.Io.KnownBytes.{Appends};
ghost use Rattle.sp_feed.specs.Calls.{GivesHead};
ghost use Rattle.sp_feed.specs.Messages.{said_by};
ghost use Rattle.sp_feed.specs.Reader.{Behind, head_in, is_open};
ghost use Rattle.sp_feed.specs.Reads.{Moment, moment};
ghost use Rattle.sp_io.specs.Causes.{Rose};
ghost use Rattle.sp_io.specs.Whole.{AppendsFront};
ghost use Rattle.sp_node.specs.Answers.{kept_then, reply_of};
ghost use Rattle.sp_names.specs.Labels.{no_labels};
ghost use Rattle.sp_watch.specs.declared.item.Item.{Item};
ghost use Rattle.sp_watch.specs.Watching.{seen_all};
ghost use Rattle.spectre.specs.Ends.{HasStopCause, Replays};
ghost use Rattle.spectre.specs.JobEnds.{WritesBy};
ghost use Rattle.spectre.specs.Jobs.{IsWatching};
ghost use Rattle.spectre.specs.Output.{due_of};
ghost use Rattle.spectre.specs.Replay.{feed_limit};
ghost use Rattle.spectre.specs.Replaying.{HasWriteCause};
ghost use Rattle.spectre.specs.Taken.{TakesFeedFor};
ghost use Rattle.spectre.specs.Watching.{answer_then, Following, Follows, seen_text, watch_then, Watches};
ghost use Rattle.spectre.specs.declared.job.Job.TheVariants as jobs;

use crate::ending::Stop;
use crate::genesis::node_of;
use crate::no_disk::NoDisk;
use crate::replay::{ReplayFault, write_fault};
use crate::status::Status;
use sp_engine::Engine;
use sp_feed::{FeedFault, FeedHead, FeedReader, Message};
use sp_io::{Sink, Source};
use sp_node::{Node, NodeFault};
use sp_report::Naming;
use sp_watch::{Items, Watch, write_all_held, write_changes};
use std::alloc::Global;

impl From<Stop> for ReplayFault {
    ghost use Rattle.std.specs.Prelude.{◌≡◌};
    ghost use Rattle.spectre.specs.Heads.{of_stop};

    ghost from_gives = { λ stop e. e ≡ of_stop stop };

    fn from(stop: Stop) -> ReplayFault {
        match stop {
            Stop::WriteFault => ReplayFault::WriteFault,
            Stop::Memory => ReplayFault::Memory,
        }
    }
}

/// Sees an arrival, and writes the lines of what it changes.
fn tell_changes<K: Sink>(watch: &mut Watch, engine: &Engine, sink: &mut K) -> Result<(), Stop>
    requires few { watch.old.arrivals < 2 ^ 32 - 1 }
    ensures ok { OnOk result (Appends (K.taken sink.old) (K.taken sink.new)
        (seen_text engine.now.profile watch.old engine.now.kept)) }
    ensures seen { OnOk result (watch.new ≡ seen_all engine.now.profile watch.old engine.now.kept) }
    ensures err { OnErr result (AppendsFront (K.taken sink.old) (K.taken sink.new)
        (seen_text engine.now.profile watch.old engine.now.kept)) }
    ensures cause { IfErr result (HasStopCause (K.faults sink.old) (K.faults sink.new)) }
    ensures quiet { result ≢ Err Stop.WriteFault → K.faults sink.new ≡ K.faults sink.old }
{
    let changes = watch.see(engine)?;
    write_changes(watch, &changes, sink)?;
    Ok(())
}

/// Answers a message that isn't the end, over a node without a journal.
fn answer<K: Sink>(
    message: &Message<'_>,
    node: &mut Node,
    sink: &mut K,
    disk: &mut NoDisk,
) -> Result<(), Stop>
    requires live { node.old.stopped ≡ false }
    requires plain { node.old.journal ≡ None }
    requires before_end { IsSome (said_by message.now) }
    ensures ok { OnOk result (IfSome (said_by message.now) (λ said. Appends (K.taken sink.old) (K.taken sink.new)
        (reply_of no_labels node.old.terms node.old.kept said))) }
    ensures kept { OnOk result (IfSome (said_by message.now) (λ said.
        node.new.kept ≡ kept_then node.old.terms.bits node.old.kept said)) }
    ensures err { OnErr result (IfSome (said_by message.now) (λ said. AppendsFront (K.taken sink.old) (K.taken sink.new)
        (reply_of no_labels node.old.terms node.old.kept said))) }
    ensures terms { node.new.terms ≡ node.old.terms }
    ensures live { OnOk result (node.new.stopped ≡ false) }
    ensures plain { node.new.journal ≡ None }
    ensures cause { IfErr result (HasStopCause (K.faults sink.old) (K.faults sink.new)) }
    ensures quiet { result ≢ Err Stop.WriteFault → K.faults sink.new ≡ K.faults sink.old }
{
    match node.message(message, &Naming::Hex, sink, disk) {
        Ok(()) => Ok(()),
        Err(NodeFault::WriteFault) => Err(Stop::WriteFault),
        // No disk is asked for anything.
        Err(NodeFault::DiskFault) => unreachable!(),
        Err(NodeFault::Memory) => Err(Stop::Memory),
    }
}

/// Answers a message that isn't the end, and tells what it changes.
fn answer_and_tell<K: Sink>(
    message: &Message<'_>,
    node: &mut Node,
    watch: &mut Watch,
    sink: &mut K,
    disk: &mut NoDisk,
) -> Result<(), Stop>
    requires live { node.old.stopped ≡ false }
    requires plain { node.old.journal ≡ None }
    requires before_end { IsSome (said_by message.now) }
    requires few { watch.old.arrivals < 2 ^ 32 - 1 }
    ensures ok { OnOk result (IfSome (said_by message.now) (λ said. Appends (K.taken sink.old) (K.taken sink.new)
        (answer_then node.old.terms node.old.kept watch.old said))) }
    ensures kept { OnOk result (IfSome (said_by message.now) (λ said.
        node.new.kept ≡ kept_then node.old.terms.bits node.old.kept said)) }
    ensures watch { OnOk result (IfSome (said_by message.now) (λ said.
        watch.new ≡ watch_then node.old.terms.profile watch.old (kept_then node.old.terms.bits node.old.kept said) said)) }
    ensures err { OnErr result (IfSome (said_by message.now) (λ said. AppendsFront (K.taken sink.old) (K.taken sink.new)
        (answer_then node.old.terms node.old.kept watch.old said))) }
    ensures terms { node.new.terms ≡ node.old.terms }
    ensures live { OnOk result (node.new.stopped ≡ false) }
    ensures plain { node.new.journal ≡ None }
    ensures cause { IfErr result (HasStopCause (K.faults sink.old) (K.faults sink.new)) }
    ensures quiet { result ≢ Err Stop.WriteFault → K.faults sink.new ≡ K.faults sink.old }
{
    answer(message, node, sink, disk)?;
    match message {
        Message::Block(_) => tell_changes(watch, node.engine(), sink),
        _ => Ok(()),
    }
}

/// Answers each message behind the head, and tells what it changes. It owns neither the reader, nor the
/// node, nor the watch, so that its proof has no drop in it.
fn watch_rest<S: Source, K: Sink>(
    reader: &mut FeedReader,
    node: &mut Node,
    watch: &mut Watch,
    source: &mut S,
    sink: &mut K,
    disk: &mut NoDisk,
) -> Result<(), ReplayFault>
    requires limit { reader.old.limit ≡ feed_limit }
    requires opened { IsTrue (is_open reader.old.stage) }
    requires unended { reader.old.stage ≢ Behind None }
    requires live { node.old.stopped ≡ false }
    requires plain { node.old.journal ≡ None }
    requires first { watch.old.arrivals ≡ 0 }
    ensures follows { (items : List Item) (start : Moment) (old : Option (List ℕ)) → Following items start
        (moment (S.left source.old) (S.faults source.old) reader.old.taken)
        old (K.taken sink.old) node.old.terms node.old.kept watch.old → Follows items start
        (moment (S.left source.new) (S.faults source.new) reader.new.taken)
        old (K.taken sink.new) watch.new result }
    ensures undisked { result ≢ Err ReplayFault.DiskFault }
    ensures cause { IfErr result (HasWriteCause (K.faults sink.old) (K.faults sink.new)) }
    ensures read_quiet { result ≢ Err (ReplayFault.Feed FeedFault.ReadFault)
        → S.faults source.new ≡ S.faults source.old }
    ensures write_quiet { result ≢ Err ReplayFault.WriteFault
        → K.faults sink.new ≡ K.faults sink.old }
{
    'messages: loop {
        reader.next(source)?;
        let message = reader.message();
        match message {
            Message::End => return Ok(()),
            _ => answer_and_tell(&message, node, watch, sink, disk)?,
        }
    }
}

/// Watches the messages behind the head, by a node that it makes of it, and then writes since when each
/// value stands.
fn watch_behind<S: Source, K: Sink>(
    alloc: Global,
    reader: &mut FeedReader,
    items: &Items,
    head: FeedHead,
    source: &mut S,
    sink: &mut K,
) -> Result<(), ReplayFault>
    requires limit { reader.old.limit ≡ feed_limit }
    requires opened { IsTrue (is_open reader.old.stage) }
    requires unended { reader.old.stage ≢ Behind None }
    requires items { IsWatching items.now }
    ensures watches { (start : Moment) → start.taken ≡ 0 → GivesHead feed_limit start
        (moment (S.left source.old) (S.faults source.old) reader.old.taken)
        head_in (Ok head) → Watches items.now start
        (moment (S.left source.new) (S.faults source.new) reader.new.taken)
        (K.taken sink.old) (K.taken sink.new) result }
    ensures undisked { result ≢ Err ReplayFault.DiskFault }
    ensures cause { IfErr result (HasWriteCause (K.faults sink.old) (K.faults sink.new)) }
    ensures read_quiet { result ≢ Err (ReplayFault.Feed FeedFault.ReadFault)
        → S.faults source.new ≡ S.faults source.old }
    ensures write_quiet { result ≢ Err ReplayFault.WriteFault
        → K.faults sink.new ≡ K.faults sink.old }
{
    let mut node = node_of(alloc, head)?;
    let mut watch = Watch::new(alloc, items.as_slice(), node.engine())?;
    let mut disk = NoDisk::new();
    watch_rest(reader, &mut node, &mut watch, source, sink, &mut disk)?;
    match write_all_held(&watch, sink) {
        Ok(()) => Ok(()),
        Err(_) => Err(ReplayFault::WriteFault),
    }
}

/// Watches the messages of a feed.
fn watch_messages<S: Source, K: Sink>(
    alloc: Global,
    items: &Items,
    source: &mut S,
    sink: &mut K,
) -> Result<(), ReplayFault>
    requires items { IsWatching items.now }
    ensures watches { (taken : ℕ) × Watches items.now
        (moment (S.left source.old) (S.faults source.old) 0)
        (moment (S.left source.new) (S.faults source.new) taken)
        (K.taken sink.old) (K.taken sink.new) result }
    ensures undisked { result ≢ Err ReplayFault.DiskFault }
    ensures cause { IfErr result (HasWriteCause (K.faults sink.old) (K.faults sink.new)) }
    ensures read_quiet { result ≢ Err (ReplayFault.Feed FeedFault.ReadFault)
        → S.faults source.new ≡ S.faults source.old }
    ensures write_quiet { result ≢ Err ReplayFault.WriteFault
        → K.faults sink.new ≡ K.faults sink.old }
{
    let mut reader = FeedReader::new(alloc)?;
    let head = reader.head(source)?;
    watch_behind(alloc, &mut reader, items, head, source, sink)
}

/// Answers a feed as `replay` does, and writes behind the answer to each block what it changes of these
/// items, and behind the frame `E` since when the value of each stands. Each block costs one question for
/// each item besides.
pub fn watch<S: Source, K: Sink>(
    alloc: Global,
    items: &Items,
    source: &mut S,
    sink: &mut K,
) -> Status
    requires { IsWatching items.now }
    // Whatever a disk reads, since none is asked for anything.
    ensures by { (reads : Option (List ℕ)) → WritesBy (Some (jobs.Watch items.now)) reads
        (S.left source.old) (S.left source.new) (K.taken sink.old) (K.taken sink.new) result }
    ensures taken { TakesFeedFor (due_of (Some (jobs.Watch items.now)) [])
        (S.left source.old) (S.left source.new) (K.taken sink.old) (K.taken sink.new) }
    ensures read_cause { result ≡ Status.ReadFault → Rose (S.faults source.old) (S.faults source.new) }
    ensures write_cause { result ≡ Status.WriteFault → Rose (K.faults sink.old) (K.faults sink.new) }
    ensures read_quiet { result ≢ Status.ReadFault → S.faults source.new ≡ S.faults source.old }
    ensures write_quiet { result ≢ Status.WriteFault → K.faults sink.new ≡ K.faults sink.old }
    ensures among { Replays result }
{
    match watch_messages(alloc, items, source, sink) {
        Ok(()) => Status::Done,
        Err(ReplayFault::Feed(fault)) => write_fault(fault, sink),
        Err(ReplayFault::WriteFault) => Status::WriteFault,
        // No disk is asked for anything.
        Err(ReplayFault::DiskFault) => unreachable!(),
        Err(ReplayFault::Memory) => Status::Memory,
    }
}
