//! The fault of a script: as it was found when the script was read, and as it is written.

ghost use Rattle.std.specs.Prelude.{◌≡◌, ◌≢◌, IsNone, IsSome, Err, IfErr, Ok, OnErr, OnOk};
ghost use Rattle.std.specs.Io.KnownBytes.{Appends};
ghost use Rattle.sp_io.specs.Whole.{AppendsFront};
ghost use Rattle.spectre.specs.Ends.{HasStopCause};
ghost use Rattle.spectre.specs.Gossips.{fault_read, reason_read, script_fault_text};

use crate::ending::{Ending, Stop};
use crate::script_fault::{ScriptFault, ScriptReason};
use crate::script_lines::script_fault;
use sp_gossip::{Script, ScriptWhy};
use sp_io::{Sink, write_whole};

/// The reason of a line that was read.
fn reason_of(why: ScriptWhy) -> ScriptReason
    ensures { result ≡ reason_read why }
{
    match why {
        ScriptWhy::Byte => ScriptReason::Byte,
        ScriptWhy::Command => ScriptReason::Command,
        ScriptWhy::Form => ScriptReason::Form,
        ScriptWhy::Number => ScriptReason::Number,
        ScriptWhy::Node => ScriptReason::Node,
        ScriptWhy::Unknown => ScriptReason::Unknown,
    }
}

/// The fault that was found when a script was read.
pub(super) fn fault_of(script: &Script) -> Option<ScriptFault>
    ensures { result ≡ fault_read script.now.reading.fault }
{
    match script.fault() {
        Some((line, why)) => Some(ScriptFault {
            line,
            reason: reason_of(why),
        }),
        None => None,
    }
}

/// Writes the line of a script's fault, if it has one.
pub(super) fn write_script_fault<K: Sink>(
    fault: Option<ScriptFault>,
    sink: &mut K,
) -> Result<Ending, Stop>
    ensures ok { OnOk result
        (Appends (K.taken sink.old) (K.taken sink.new) (script_fault_text fault)) }
    ensures whole { result ≡ Ok Ending.Whole → IsNone fault }
    ensures faulty { result ≡ Ok Ending.Faulty → IsSome fault }
    ensures err { OnErr result
        (AppendsFront (K.taken sink.old) (K.taken sink.new) (script_fault_text fault)) }
    ensures cause { IfErr result (HasStopCause (K.faults sink.old) (K.faults sink.new)) }
    ensures quiet { result ≢ Err Stop.WriteFault → K.faults sink.new ≡ K.faults sink.old }
{
    let Some(fault) = fault else {
        return Ok(Ending::Whole);
    };
    let line = script_fault(fault);
    write_whole(sink, line.as_slice())?;
    Ok(Ending::Faulty)
}
