//! The doing of a job, apart from the top call, which finds out what its words ask for.

ghost use Rattle.std.specs.Prelude.{◌≡◌, ◌≢◌, Some};
ghost use Rattle.sp_disk.specs.Moments.{Looks};
ghost use Rattle.sp_io.specs.Causes.{Rose};
ghost use Rattle.spectre.specs.Ends.{Comes, EndsByDisk};
ghost use Rattle.spectre.specs.JobEnds.{JobEnds};
ghost use Rattle.spectre.specs.Jobs.{IsJob, NamesFile, Shows, TakesNothing, WritesLast};
ghost use Rattle.spectre.specs.Output.{OnDisk};
ghost use Rattle.spectre.specs.RunOf.{EndsAtDisk};

use crate::certify::certify;
use crate::check::check;
use crate::job::Job;
use crate::keep::keep;
use crate::made::{drill_text, make_text};
use crate::play::from_source;
use crate::purpose::{Purpose, Task};
use crate::replay::replay;
use crate::shape::Shape;
use crate::show::show;
use crate::spend::spend;
use crate::status::Status;
use crate::watch::watch;
use sp_disk::Disk;
use sp_io::{Sink, Source};
use std::alloc::Global;

/// Does a job.
pub fn do_job<S: Source, K: Sink, D: Disk>(
    alloc: Global,
    job: &Job,
    source: &mut S,
    sink: &mut K,
    disk: &mut D,
) -> Status
    requires { IsJob job.now }
    ensures ends { JobEnds (Some job.now) (D.now disk.old).reads (S.left source.old) (S.left source.new)
        (K.taken sink.old) (K.taken sink.new) (D.now disk.old) (D.now disk.new) result }
    ensures disk_first { OnDisk (Some job.now) (D.now disk.old).reads (λ bytes.
        EndsAtDisk (Some job.now) bytes → EndsByDisk result × (source.new ≡ source.old)) }
    ensures no_input { TakesNothing (Some job.now) → source.new ≡ source.old }
    ensures read_fault { result ≡ Status.ReadFault → WritesLast (Some job.now) → sink.new ≡ sink.old }
    ensures disk_fault_shown { result ≡ Status.DiskFault → Shows (Some job.now) → sink.new ≡ sink.old }
    ensures read_cause { result ≡ Status.ReadFault → Rose (S.faults source.old) (S.faults source.new) }
    ensures write_cause { result ≡ Status.WriteFault → Rose (K.faults sink.old) (K.faults sink.new) }
    ensures disk_cause { result ≡ Status.DiskFault
        → Rose (D.now disk.old).faults (D.now disk.new).faults × NamesFile (Some job.now) }
    ensures read_quiet { result ≢ Status.ReadFault → S.faults source.new ≡ S.faults source.old }
    ensures write_quiet { result ≢ Status.WriteFault → K.faults sink.new ≡ K.faults sink.old }
    ensures disk_quiet { result ≢ Status.DiskFault → (D.now disk.new).faults ≡ (D.now disk.old).faults }
    ensures looks { Shows (Some job.now) → Looks (D.now disk.old) (D.now disk.new) }
    ensures uncalled { (NamesFile (Some job.now) → ⊥) → disk.new ≡ disk.old }
    ensures among { Comes (Some job.now) result }
{
    match job {
        Job::Replay => replay(alloc, source, sink),
        Job::Keep { fresh, .. } => keep(alloc, *fresh, source, sink, disk),
        Job::Show { .. } => show(alloc, Shape::Report, sink, disk),
        Job::Export { profile, .. } => show(alloc, Shape::Feed(*profile), sink, disk),
        Job::Play => from_source(alloc, Task::Scenario(Purpose::Play), source, sink),
        Job::Build => from_source(alloc, Task::Scenario(Purpose::Build), source, sink),
        Job::Make { n, seed, width } => make_text(alloc, *n, *seed, *width, sink),
        Job::Drill { n, seed, width } => drill_text(alloc, *n, *seed, *width, sink),
        Job::Certify { x, y } => certify(alloc, x, y, source, sink),
        Job::Check => check(alloc, source, sink),
        Job::Gossip => from_source(alloc, Task::Gossip, source, sink),
        Job::Spend { amount, to, words } => spend(alloc, *amount, *to, words, source, sink),
        Job::Watch { items } => watch(alloc, items, source, sink),
    }
}
