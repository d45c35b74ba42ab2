//! Scenarios that are made of numbers: one is written, or played for its summary.

ghost use Rattle.std.specs.Prelude.{◌≡◌, ◌≢◌, Err, IfErr, IfOk, IsNone, IsSome, Ok, OnErr, OnOk};
ghost use Rattle.std.specs.Io.KnownBytes.{Appends};
ghost use Rattle.sp_io.specs.Causes.{Rose};
ghost use Rattle.sp_io.specs.Whole.{AppendsFront};
ghost use Rattle.sp_make.specs.Made.{made};
ghost use Rattle.sp_play.specs.Scene.{scene};
ghost use Rattle.spectre.specs.Ends.{EndsAs, HasStopCause, Makes};
ghost use Rattle.spectre.specs.Jobs.{AreNumbers};
ghost use Rattle.spectre.specs.Scenes.{drilled};

use crate::ending::{Ending, Stop};
use crate::play::{on_text, status_of};
use crate::purpose::Purpose;
use crate::status::Status;
use sp_io::{Sink, write_whole};
use sp_make::make;
use std::alloc::Global;

/// Makes the scenario of some numbers and hands it to the sink whole: `n` blocks, 511 at most, whose
/// parents are drawn by `seed` from `width` blocks before each.
#[tactic(auto, using(sp_io::proofs::Stops::stops_at_start))]
fn write_made<K: Sink>(
    alloc: Global,
    n: u16,
    seed: u64,
    width: u8,
    sink: &mut K,
) -> Result<Ending, Stop>
    requires { AreNumbers n width }
    ensures ok { OnOk result (Appends (K.taken sink.old) (K.taken sink.new) (made n seed width)) }
    ensures whole { result ≢ Ok Ending.Faulty }
    ensures err { OnErr result
        (AppendsFront (K.taken sink.old) (K.taken sink.new) (made n seed width)) }
    ensures cause { IfErr result (HasStopCause (K.faults sink.old) (K.faults sink.new)) }
    ensures quiet { result ≢ Err Stop.WriteFault → K.faults sink.new ≡ K.faults sink.old }
{
    let text = make(alloc, n, seed, width)?;
    write_whole(sink, &text)?;
    Ok(Ending::Whole)
}

/// Makes the scenario of some numbers, plays it, and writes the summary.
#[tactic(auto, using(sp_io::proofs::Stops::stops_at_start))]
fn drill_made<K: Sink>(
    alloc: Global,
    n: u16,
    seed: u64,
    width: u8,
    sink: &mut K,
) -> Result<Ending, Stop>
    requires { AreNumbers n width }
    ensures ok { OnOk result
        (Appends (K.taken sink.old) (K.taken sink.new) (drilled (scene (made n seed width)))) }
    ensures ending { IfOk result (EndsAs (scene (made n seed width))) }
    ensures err { OnErr result
        (AppendsFront (K.taken sink.old) (K.taken sink.new) (drilled (scene (made n seed width)))) }
    ensures cause { IfErr result (HasStopCause (K.faults sink.old) (K.faults sink.new)) }
    ensures quiet { result ≢ Err Stop.WriteFault → K.faults sink.new ≡ K.faults sink.old }
{
    let text = make(alloc, n, seed, width)?;
    on_text(alloc, Purpose::Drill, &text, sink)
}

/// Makes the scenario of some numbers and writes it.
pub fn make_text<K: Sink>(alloc: Global, n: u16, seed: u64, width: u8, sink: &mut K) -> Status
    requires { AreNumbers n width }
    ensures done { result ≡ Status.Done →
        Appends (K.taken sink.old) (K.taken sink.new) (made n seed width) }
    ensures whole { result ≢ Status.Malformed }
    ensures write_fault { result ≡ Status.WriteFault →
        AppendsFront (K.taken sink.old) (K.taken sink.new) (made n seed width) }
    ensures memory { result ≡ Status.Memory →
        AppendsFront (K.taken sink.old) (K.taken sink.new) (made n seed width) }
    ensures write_cause { result ≡ Status.WriteFault → Rose (K.faults sink.old) (K.faults sink.new) }
    ensures write_quiet { result ≢ Status.WriteFault → K.faults sink.new ≡ K.faults sink.old }
    ensures among { Makes result }
{
    status_of(write_made(alloc, n, seed, width, sink))
}

/// Makes the scenario of some numbers, plays it, and writes the summary of what stands then.
pub fn drill_text<K: Sink>(alloc: Global, n: u16, seed: u64, width: u8, sink: &mut K) -> Status
    requires { AreNumbers n width }
    ensures done { result ≡ Status.Done →
        Appends (K.taken sink.old) (K.taken sink.new) (drilled (scene (made n seed width)))
        × IsNone (scene (made n seed width)).fault }
    ensures malformed { result ≡ Status.Malformed →
        Appends (K.taken sink.old) (K.taken sink.new) (drilled (scene (made n seed width)))
        × IsSome (scene (made n seed width)).fault }
    ensures write_fault { result ≡ Status.WriteFault →
        AppendsFront (K.taken sink.old) (K.taken sink.new) (drilled (scene (made n seed width))) }
    ensures memory { result ≡ Status.Memory →
        AppendsFront (K.taken sink.old) (K.taken sink.new) (drilled (scene (made n seed width))) }
    ensures write_cause { result ≡ Status.WriteFault → Rose (K.faults sink.old) (K.faults sink.new) }
    ensures write_quiet { result ≢ Status.WriteFault → K.faults sink.new ≡ K.faults sink.old }
    ensures among { Makes result }
{
    status_of(drill_made(alloc, n, seed, width, sink))
}
