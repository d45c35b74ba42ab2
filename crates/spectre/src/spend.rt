//! A spend out of what the blocks of a feed leave: the transaction's bytes, or the line of why there is
//! none.

ghost use Rattle.std.specs.Prelude.{◌≡◌, ◌≢◌, [], ℕ, List, Ok, Option, Some};
ghost use Rattle.sp_io.specs.Causes.{Rose};
ghost use Rattle.spectre.specs.Ends.{SpendsTo};
ghost use Rattle.spectre.specs.JobEnds.{WritesBy};
ghost use Rattle.spectre.specs.Jobs.{IsSpending};
ghost use Rattle.spectre.specs.Output.{due_of};
ghost use Rattle.spectre.specs.SpendEnds.{WritesSpend};
ghost use Rattle.spectre.specs.Spends.{large_text, poor_text, spend_over};
ghost use Rattle.spectre.specs.Taken.{TakesFeedFor};
ghost use Rattle.spectre.specs.declared.job.Job.TheVariants as jobs;

use crate::bringing::engine_of_feed;
use crate::keep::end_with;
use crate::replay::write_fault;
use crate::status::Status;
use sp_engine::Engine;
use sp_feed::HeadFault;
use sp_ids::Lock;
use sp_io::{Sink, Source, write_whole};
use sp_report::Line;
use sp_tx::{Tx, write_tx};
use sp_wallet::{Preimages, SpendFault, spend as spend_from};
use std::alloc::Global;

/// The line where what may be spent doesn't reach the amount: what the 16 largest outputs come to, or all.
#[tactic(auto, unfolding(crate::specs::Spends::poor_text))]
fn poor_line(reach: u128) -> Line
    ensures { result ≡ poor_text reach }
{
    let mut line = Line::new();
    line.push_bytes(b"fault poor ");
    line.push_wide_number(reach);
    line.push_byte(b'\n');
    line
}

/// The line where what is chosen comes to 2^63 or more.
#[tactic(auto, unfolding(crate::specs::Spends::large_text))]
fn large_line(total: u128) -> Line
    ensures { result ≡ large_text total }
{
    let mut line = Line::new();
    line.push_bytes(b"fault large ");
    line.push_wide_number(total);
    line.push_byte(b'\n');
    line
}

/// Writes the bytes of a transaction.
fn write_spend<K: Sink>(alloc: Global, tx: &Tx, sink: &mut K) -> Status
    ensures by { WritesSpend (Ok tx.now) (K.taken sink.old) (K.taken sink.new) result }
    ensures cause { result ≡ Status.WriteFault → Rose (K.faults sink.old) (K.faults sink.new) }
    ensures quiet { result ≢ Status.WriteFault → K.faults sink.new ≡ K.faults sink.old }
{
    let mut bytes = Vec::new(alloc);
    match write_tx(tx, &mut bytes) {
        Ok(()) => match write_whole(sink, &bytes) {
            Ok(()) => Status::Done,
            Err(_) => Status::WriteFault,
        },
        Err(_) => Status::Memory,
    }
}

/// Writes the spend out of what an engine's blocks leave.
fn tell_spend<K: Sink>(
    alloc: Global,
    engine: &Engine,
    words: &Preimages,
    amount: u64,
    to: Lock,
    sink: &mut K,
) -> Status
    requires { IsSpending amount words.now }
    ensures by { WritesSpend (spend_over words.now amount to engine.now.profile engine.now.kept)
        (K.taken sink.old) (K.taken sink.new) result }
    ensures cause { result ≡ Status.WriteFault → Rose (K.faults sink.old) (K.faults sink.new) }
    ensures quiet { result ≢ Status.WriteFault → K.faults sink.new ≡ K.faults sink.old }
{
    match spend_from(alloc, engine, words, amount, to) {
        Ok(tx) => write_spend(alloc, &tx, sink),
        Err(SpendFault::Poor { reach }) => end_with(&poor_line(reach), Status::Poor, sink),
        Err(SpendFault::Large { total }) => end_with(&large_line(total), Status::Large, sink),
        Err(SpendFault::Memory) => Status::Memory,
    }
}

/// Reads a feed, and writes the transaction that pays an amount to a lock out of what its blocks leave
/// under the locks of these words; or the line of why there is none, or that of the feed's fault, alone.
/// Nothing is written before the feed's end. It takes about the time of the engine for each block, and
/// then that of a pass over all outputs for each word.
pub fn spend<S: Source, K: Sink>(
    alloc: Global,
    amount: u64,
    to: Lock,
    words: &Preimages,
    source: &mut S,
    sink: &mut K,
) -> Status
    requires { IsSpending amount words.now }
    // Whatever a disk reads, since none is asked for anything.
    ensures by { (reads : Option (List ℕ)) → WritesBy (Some (jobs.Spend amount to words.now)) reads
        (S.left source.old) (S.left source.new) (K.taken sink.old) (K.taken sink.new) result }
    ensures taken { TakesFeedFor (due_of (Some (jobs.Spend amount to words.now)) [])
        (S.left source.old) (S.left source.new) (K.taken sink.old) (K.taken sink.new) }
    ensures read_cause { result ≡ Status.ReadFault → Rose (S.faults source.old) (S.faults source.new) }
    ensures write_cause { result ≡ Status.WriteFault → Rose (K.faults sink.old) (K.faults sink.new) }
    ensures read_quiet { result ≢ Status.ReadFault → S.faults source.new ≡ S.faults source.old }
    ensures write_quiet { result ≢ Status.WriteFault → K.faults sink.new ≡ K.faults sink.old }
    ensures among { SpendsTo result }
{
    match engine_of_feed(alloc, source) {
        Ok(engine) => tell_spend(alloc, &engine, words, amount, to, sink),
        Err(HeadFault::Feed(fault)) => write_fault(fault, sink),
        Err(HeadFault::Memory) => Status::Memory,
    }
}
