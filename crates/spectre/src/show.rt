//! What a journal holds: how many records and the report on its blocks, or the feed of these.

ghost use Rattle.std.specs.Prelude.{◌≡◌, ◌≢◌, ◌++◌, false, length, Err, IfErr, IfOk, IfSome, Ok, OnErr, OnOk};
ghost use Rattle.std.specs.Io.KnownBytes.{Appends};
ghost use Rattle.sp_io.specs.Causes.{Rose};
ghost use Rattle.sp_io.specs.Whole.{AppendsFront};
ghost use Rattle.sp_disk.specs.Moments.{Looks};
ghost use Rattle.sp_journal.specs.Creation.{HoldsJournal};
ghost use Rattle.sp_journal.specs.Opening.{contents_in};
ghost use Rattle.sp_journal.specs.Records.{Found, NoJournal, records};
ghost use Rattle.sp_names.specs.Labels.{no_labels};
ghost use Rattle.sp_report.specs.Texts.{report_text};
ghost use Rattle.spectre.specs.Ends.{HasStopCause, Shows};
ghost use Rattle.spectre.specs.Exports.{exported};
ghost use Rattle.spectre.specs.Journals.{IsDamagedDisk, recovered_text, shown_by, shown_output, told_by};

use crate::ending::Stop;
use crate::feeding::write_feed;
use crate::keep::end_with;
use crate::lines::{damaged_line, not_journal_line, recovered_line};
use crate::shape::Shape;
use crate::status::Status;
use sp_disk::Disk;
use sp_engine::Engine;
use sp_io::{Sink, write_whole};
use sp_journal::{JournalFault, Opened};
use sp_model::Profile;
use sp_node::{Stored, recovered};
use sp_report::{Naming, Text, TextFault, write_text};
use std::alloc::Global;

/// Writes how many records a journal has, and the report on the kept blocks of an engine.
#[tactic(auto, using(sp_io::proofs::Writing::wrote_stops))]
fn tell<K: Sink>(alloc: Global, engine: &Engine, count: u16, sink: &mut K) -> Result<(), Stop>
    ensures ok { OnOk result (Appends (K.taken sink.old) (K.taken sink.new)
        (recovered_text count ++ report_text engine.now.profile no_labels engine.now.kept)) }
    ensures err { OnErr result (AppendsFront (K.taken sink.old) (K.taken sink.new)
        (recovered_text count ++ report_text engine.now.profile no_labels engine.now.kept)) }
    ensures cause { IfErr result (HasStopCause (K.faults sink.old) (K.faults sink.new)) }
    ensures quiet { result ≢ Err Stop.WriteFault → K.faults sink.new ≡ K.faults sink.old }
{
    write_whole(sink, recovered_line(count).as_slice())?;
    match write_text(alloc, engine, &Text::Report, &Naming::Hex, sink) {
        Ok(()) => Ok(()),
        Err(TextFault::WriteFault) => Err(Stop::WriteFault),
        Err(TextFault::Memory) => Err(Stop::Memory),
    }
}

/// Writes how many records an opened journal has, and the report on its blocks.
#[tactic(auto, using(sp_io::proofs::Stops::stops_at_start))]
fn tell_opened<K: Sink>(alloc: Global, opened: Opened, sink: &mut K) -> Result<(), Stop>
    ensures ok { OnOk result (Appends (K.taken sink.old) (K.taken sink.new)
        (told_by Shape.Report (contents_in opened))) }
    ensures err { OnErr result (AppendsFront (K.taken sink.old) (K.taken sink.new)
        (told_by Shape.Report (contents_in opened))) }
    ensures cause { IfErr result (HasStopCause (K.faults sink.old) (K.faults sink.new)) }
    ensures quiet { result ≢ Err Stop.WriteFault → K.faults sink.new ≡ K.faults sink.old }
{
    let engine = recovered(alloc, opened)?;
    let count = engine.kept_count() - 1;
    tell(alloc, &engine, count, sink)
}

/// Writes the feed of an opened journal's blocks.
fn export_opened<K: Sink>(profile: Profile, opened: &Opened, sink: &mut K) -> Result<(), Stop>
    ensures ok { OnOk result (Appends (K.taken sink.old) (K.taken sink.new)
        (exported profile (contents_in opened.now))) }
    ensures err { OnErr result (AppendsFront (K.taken sink.old) (K.taken sink.new)
        (exported profile (contents_in opened.now))) }
    ensures cause { IfErr result (HasStopCause (K.faults sink.old) (K.faults sink.new)) }
    ensures quiet { result ≢ Err Stop.WriteFault → K.faults sink.new ≡ K.faults sink.old }
{
    let blocks = opened.blocks.as_slice();
    write_feed(profile, opened.bits, &opened.genesis, blocks, sink)?;
    Ok(())
}

/// Writes what is asked of an opened journal.
fn tell_of<K: Sink>(alloc: Global, shape: Shape, opened: Opened, sink: &mut K) -> Result<(), Stop>
    ensures ok { OnOk result (Appends (K.taken sink.old) (K.taken sink.new)
        (shown_by shape (Found (contents_in opened)))) }
    ensures err { OnErr result (AppendsFront (K.taken sink.old) (K.taken sink.new)
        (shown_by shape (Found (contents_in opened)))) }
    ensures cause { IfErr result (HasStopCause (K.faults sink.old) (K.faults sink.new)) }
    ensures quiet { result ≢ Err Stop.WriteFault → K.faults sink.new ≡ K.faults sink.old }
{
    match shape {
        Shape::Report => tell_opened(alloc, opened, sink),
        Shape::Feed(profile) => export_opened(profile, &opened, sink),
    }
}

/// Writes what the journal on a disk holds: `recovered N`, N being the number of its records, and the
/// report on its blocks; or the feed of its blocks. The disk is only looked at.
pub fn show<K: Sink, D: Disk>(alloc: Global, shape: Shape, sink: &mut K, disk: &mut D) -> Status
    ensures done { result ≡ Status.Done → IfSome (D.now disk.old).reads (λ bytes.
        Appends (K.taken sink.old) (K.taken sink.new) (shown_output shape bytes) × HoldsJournal bytes) }
    ensures not_journal { result ≡ Status.NotJournal → IfSome (D.now disk.old).reads (λ bytes.
        Appends (K.taken sink.old) (K.taken sink.new) (shown_output shape bytes) × (records bytes ≡ NoJournal)) }
    ensures damaged { result ≡ Status.Damaged → IfSome (D.now disk.old).reads (λ bytes.
        Appends (K.taken sink.old) (K.taken sink.new) (shown_output shape bytes) × IsDamagedDisk bytes) }
    ensures write_fault { result ≡ Status.WriteFault → IfSome (D.now disk.old).reads (λ bytes.
        AppendsFront (K.taken sink.old) (K.taken sink.new) (shown_output shape bytes)) }
    ensures memory { result ≡ Status.Memory → IfSome (D.now disk.old).reads (λ bytes.
        AppendsFront (K.taken sink.old) (K.taken sink.new) (shown_output shape bytes)) }
    ensures disk_fault { result ≡ Status.DiskFault → sink.new ≡ sink.old }
    ensures looks { Looks (D.now disk.old) (D.now disk.new) }
    ensures write_cause { result ≡ Status.WriteFault → Rose (K.faults sink.old) (K.faults sink.new) }
    ensures disk_cause { result ≡ Status.DiskFault → Rose (D.now disk.old).faults (D.now disk.new).faults }
    ensures write_quiet { result ≢ Status.WriteFault → K.faults sink.new ≡ K.faults sink.old }
    ensures disk_quiet { result ≢ Status.DiskFault → (D.now disk.new).faults ≡ (D.now disk.old).faults }
    ensures among { Shows result }
{
    match Stored::open(alloc, disk, false) {
        Ok(Stored::Found(opened)) => match tell_of(alloc, shape, opened, sink) {
            Ok(()) => Status::Done,
            Err(Stop::WriteFault) => Status::WriteFault,
            Err(Stop::Memory) => Status::Memory,
        },
        Ok(Stored::Empty { .. }) => end_with(&not_journal_line(), Status::NotJournal, sink),
        Err(fault) => match fault {
            JournalFault::NotJournal { .. } => {
                end_with(&not_journal_line(), Status::NotJournal, sink)
            }
            JournalFault::Damaged { at } => end_with(&damaged_line(at), Status::Damaged, sink),
            JournalFault::DiskFault => Status::DiskFault,
            JournalFault::Memory => Status::Memory,
        },
    }
}
