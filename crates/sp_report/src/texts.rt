//! Texts written to a sink: of many lines, over all present blocks.

ghost use Rattle.std.specs.Prelude.{◌≡◌, ◌≢◌, ◌≤◌, Err, false, OnErr, OnOk};
ghost use Rattle.std.specs.Io.KnownBytes.{Appends};
ghost use Rattle.sp_io.specs.Causes.{Rose};
ghost use Rattle.sp_io.specs.Whole.{AppendsFront};
ghost use Rattle.sp_report.specs.Naming.{labels_of};
ghost use Rattle.sp_report.specs.Texts.{pairs_text, report_text, text_of};

use crate::naming::Naming;
use crate::ordered::{accepted_ids, paid_locks, present_ids};
use crate::pairs::write_pairs;
use crate::report::write_report;
use crate::text::{Text, TextFault};
use sp_engine::Engine;
use sp_io::Sink;
use std::alloc::Global;

// Writes what is said of each pair of present blocks.
#[tactic(auto, using(sp_io::proofs::Stops::stops_at_start))]
fn write_all_pairs<K: Sink>(
    alloc: Global,
    engine: &Engine,
    naming: &Naming<'_>,
    sink: &mut K,
) -> Result<(), TextFault>
    ensures ok { OnOk result
        (Appends (K.taken sink.old) (K.taken sink.new) (pairs_text engine.now.profile (labels_of naming.now) engine.now.kept)) }
    ensures err { OnErr result
        (AppendsFront (K.taken sink.old) (K.taken sink.new) (pairs_text engine.now.profile (labels_of naming.now) engine.now.kept)) }
    ensures cause { result ≡ Err TextFault.WriteFault → Rose (K.faults sink.old) (K.faults sink.new) }
    ensures memory { result ≡ Err TextFault.Memory → sink.new ≡ sink.old }
    ensures quiet { result ≢ Err TextFault.WriteFault → K.faults sink.new ≡ K.faults sink.old }
    ensures later { K.faults sink.old ≤ K.faults sink.new }
{
    let ids = present_ids(alloc, engine, naming)?;
    write_pairs(engine, naming, ids.as_slice(), sink)?;
    Ok(())
}

// Writes the blocks, the accepted transactions and the balances.
#[tactic(auto, using(sp_io::proofs::Stops::stops_at_start), unfolding(crate::specs::Texts::report_text))]
fn write_whole_report<K: Sink>(
    alloc: Global,
    engine: &Engine,
    naming: &Naming<'_>,
    sink: &mut K,
) -> Result<(), TextFault>
    ensures ok { OnOk result
        (Appends (K.taken sink.old) (K.taken sink.new) (report_text engine.now.profile (labels_of naming.now) engine.now.kept)) }
    ensures err { OnErr result
        (AppendsFront (K.taken sink.old) (K.taken sink.new) (report_text engine.now.profile (labels_of naming.now) engine.now.kept)) }
    ensures cause { result ≡ Err TextFault.WriteFault → Rose (K.faults sink.old) (K.faults sink.new) }
    ensures memory { result ≡ Err TextFault.Memory → sink.new ≡ sink.old }
    ensures quiet { result ≢ Err TextFault.WriteFault → K.faults sink.new ≡ K.faults sink.old }
    ensures later { K.faults sink.old ≤ K.faults sink.new }
{
    let ids = accepted_ids(alloc, engine, naming)?;
    let locks = paid_locks(alloc, engine, naming)?;
    write_report(engine, naming, ids.as_slice(), locks.as_slice(), sink)?;
    Ok(())
}

/// Writes a text over all present blocks. What it lists is sorted once, and its lines go through a
/// page of 4,096 bytes.
///
/// # Errors
///
/// `WriteFault` where a call of the sink fails; it keeps what it took before. `Memory` where there
/// was none for the order of the lines; nothing was written.
pub fn write_text<K: Sink>(
    alloc: Global,
    engine: &Engine,
    text: &Text,
    naming: &Naming<'_>,
    sink: &mut K,
) -> Result<(), TextFault>
    ensures ok { OnOk result
        (Appends (K.taken sink.old) (K.taken sink.new) (text_of engine.now.profile (labels_of naming.now) engine.now.kept text.now)) }

    ensures err { OnErr result
        (AppendsFront (K.taken sink.old) (K.taken sink.new) (text_of engine.now.profile (labels_of naming.now) engine.now.kept text.now)) }
    ensures cause { result ≡ Err TextFault.WriteFault → Rose (K.faults sink.old) (K.faults sink.new) }
    ensures memory { result ≡ Err TextFault.Memory → sink.new ≡ sink.old }
    ensures quiet { result ≢ Err TextFault.WriteFault → K.faults sink.new ≡ K.faults sink.old }
    ensures later { K.faults sink.old ≤ K.faults sink.new }
{
    match text {
        Text::Pairs => write_all_pairs(alloc, engine, naming, sink),
        Text::Report => write_whole_report(alloc, engine, naming, sink),
    }
}
