//! A certificate of what the blocks of a feed say of two of them: its bytes, or the line of why there is
//! none.

ghost use Rattle.std.specs.Prelude.{◌≡◌, ◌≢◌, [], ℕ, List, Ok, Option, Some};
ghost use Rattle.sp_io.specs.Causes.{Rose};
ghost use Rattle.spectre.specs.Certificates.{Stands};
ghost use Rattle.spectre.specs.Certifies.{certified_over, no_pair_text};
ghost use Rattle.spectre.specs.CertifyEnds.{WritesCertified};
ghost use Rattle.spectre.specs.Ends.{CertifiesTo};
ghost use Rattle.spectre.specs.JobEnds.{WritesBy};
ghost use Rattle.spectre.specs.Output.{due_of};
ghost use Rattle.spectre.specs.Taken.{TakesFeedFor};
ghost use Rattle.spectre.specs.declared.job.Job.TheVariants as jobs;

use crate::bringing::engine_of_feed;
use crate::keep::end_with;
use crate::replay::write_fault;
use crate::status::Status;
use sp_cert::{Cert, CertifyFault, certify as certify_pair, write_cert};
use sp_engine::Engine;
use sp_feed::HeadFault;
use sp_ids::BlockId;
use sp_io::{Sink, Source};
use sp_report::Line;
use std::alloc::Global;

/// The line where the two are one block, or one of them isn't present.
#[tactic(auto, unfolding(crate::specs::Certifies::no_pair_text))]
fn no_pair_line() -> Line
    ensures { result ≡ no_pair_text }
{
    let mut line = Line::new();
    line.push_bytes(b"fault no-pair\n");
    line
}

/// Writes the bytes of a certificate.
fn write_certified<K: Sink>(cert: &Cert, sink: &mut K) -> Status
    ensures by { WritesCertified (Ok cert.now) (K.taken sink.old) (K.taken sink.new) result }
    ensures cause { result ≡ Status.WriteFault → Rose (K.faults sink.old) (K.faults sink.new) }
    ensures quiet { result ≢ Status.WriteFault → K.faults sink.new ≡ K.faults sink.old }
{
    match write_cert(cert, sink) {
        Ok(()) => Status::Done,
        Err(_) => Status::WriteFault,
    }
}

/// Writes the certificate of what an engine's blocks say of two of them.
fn tell_certified<K: Sink>(
    alloc: Global,
    engine: &Engine,
    x: &BlockId,
    y: &BlockId,
    sink: &mut K,
) -> Status
    ensures by { WritesCertified (certified_over x.now y.now engine.now.profile engine.now.kept)
        (K.taken sink.old) (K.taken sink.new) result }
    ensures stands { result ≡ Status.Done → Stands x.now y.now (K.taken sink.old) (K.taken sink.new) }
    ensures cause { result ≡ Status.WriteFault → Rose (K.faults sink.old) (K.faults sink.new) }
    ensures quiet { result ≢ Status.WriteFault → K.faults sink.new ≡ K.faults sink.old }
{
    match certify_pair(alloc, engine, x, y) {
        Ok(cert) => write_certified(&cert, sink),
        Err(CertifyFault::NoPair) => end_with(&no_pair_line(), Status::NoPair, sink),
        Err(CertifyFault::Memory) => Status::Memory,
    }
}

/// Reads a feed, and writes the certificate of what its blocks say of those with two ids; or the line where
/// they are one block or one of them isn't present, or that of the feed's fault, alone. Nothing is written
/// before the feed's end. It takes about the time of the engine for each block, and then a few counts over
/// rows for each entry, of which there are at most n * n for n blocks.
pub fn certify<S: Source, K: Sink>(
    alloc: Global,
    x: &BlockId,
    y: &BlockId,
    source: &mut S,
    sink: &mut K,
) -> Status
    // Whatever a disk reads, since none is asked for anything.
    ensures by { (reads : Option (List ℕ)) → WritesBy (Some (jobs.Certify x.now y.now)) reads
        (S.left source.old) (S.left source.new) (K.taken sink.old) (K.taken sink.new) result }
    ensures taken { TakesFeedFor (due_of (Some (jobs.Certify x.now y.now)) [])
        (S.left source.old) (S.left source.new) (K.taken sink.old) (K.taken sink.new) }
    ensures stands { result ≡ Status.Done → Stands x.now y.now (K.taken sink.old) (K.taken sink.new) }
    ensures read_cause { result ≡ Status.ReadFault → Rose (S.faults source.old) (S.faults source.new) }
    ensures write_cause { result ≡ Status.WriteFault → Rose (K.faults sink.old) (K.faults sink.new) }
    ensures read_quiet { result ≢ Status.ReadFault → S.faults source.new ≡ S.faults source.old }
    ensures write_quiet { result ≢ Status.WriteFault → K.faults sink.new ≡ K.faults sink.old }
    ensures among { CertifiesTo result }
{
    match engine_of_feed(alloc, source) {
        Ok(engine) => tell_certified(alloc, &engine, x, y, sink),
        Err(HeadFault::Feed(fault)) => write_fault(fault, sink),
        Err(HeadFault::Memory) => Status::Memory,
    }
}
