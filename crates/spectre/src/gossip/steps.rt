//! An event among nodes, and the lines that it comes to: the answers to what arrives, the packet that is
//! sent, or that nothing is.

ghost use Rattle.std.specs.Prelude.{◌≡◌, ◌≢◌, ◌<◌, true, length, Err, IfErr, IfOk, IfSome, OnErr, OnOk};
ghost use Rattle.std.specs.List.{flat_map};
ghost use Rattle.std.specs.Io.KnownBytes.{Appends};
ghost use Rattle.sp_io.specs.Causes.{HasCause};
ghost use Rattle.sp_io.specs.Whole.{AppendsFront};
ghost use Rattle.sp_report.specs.Naming.{labels_of};
ghost use Rattle.spectre.specs.Ends.{HasStopCause};
ghost use Rattle.spectre.specs.Gossips.{answer_at_text, event_turn, step_text};

use crate::ending::Stop;
use crate::script_fault::ScriptReason;
use crate::script_lines::{at_line, idle_line, sent_line};
use sp_engine::Answer;
use sp_gossip::{Event, Net, Step, StepFault};
use sp_io::{Failed, Sink, write_whole};
use sp_report::{Naming, answer_line};

/// Writes an answer at a node.
fn write_answer<K: Sink>(
    node: u8,
    answer: &Answer,
    naming: &Naming<'_>,
    sink: &mut K,
) -> Result<(), Failed>
    ensures ok { OnOk result (Appends (K.taken sink.old) (K.taken sink.new)
        (answer_at_text (labels_of naming.now) node answer.now)) }
    ensures err { OnErr result (AppendsFront (K.taken sink.old) (K.taken sink.new)
        (answer_at_text (labels_of naming.now) node answer.now)) }
    ensures cause { HasCause (K.faults sink.old) (K.faults sink.new) result }
{
    let at = at_line(node, b' ');
    write_whole(sink, at.as_slice())?;
    answer_line(answer, naming, sink)
}

/// Writes the answers to what arrived at a node.
fn write_answers<K: Sink>(
    node: u8,
    answers: &[Answer],
    naming: &Naming<'_>,
    sink: &mut K,
) -> Result<(), Failed>
    ensures ok { OnOk result (Appends (K.taken sink.old) (K.taken sink.new)
        (flat_map (answer_at_text (labels_of naming.now) node) answers.now)) }
    ensures err { OnErr result (AppendsFront (K.taken sink.old) (K.taken sink.new)
        (flat_map (answer_at_text (labels_of naming.now) node) answers.now)) }
    ensures cause { HasCause (K.faults sink.old) (K.faults sink.new) result }
{
    'each: for place in 0..answers.len() {
        write_answer(node, &answers[place], naming, sink)?;
    }
    Ok(())
}

/// Writes what a step came to, after which the nodes are these.
fn write_step<K: Sink>(
    net: &Net,
    step: &Step,
    naming: &Naming<'_>,
    sink: &mut K,
) -> Result<(), Failed>
    requires { IfSome step.now.sent (λ number. number < length net.now.packets) }
    ensures ok { OnOk result (Appends (K.taken sink.old) (K.taken sink.new)
        (step_text (labels_of naming.now) net.now.packets step.now)) }
    ensures err { OnErr result (AppendsFront (K.taken sink.old) (K.taken sink.new)
        (step_text (labels_of naming.now) net.now.packets step.now)) }
    ensures cause { HasCause (K.faults sink.old) (K.faults sink.new) result }
{
    let answers = step.answers.as_slice();
    if !answers.is_empty() {
        return write_answers(step.at, answers, naming, sink);
    }
    match step.sent {
        Some(number) => write_whole(sink, sent_line(number, net.packet(number)).as_slice()),
        None => write_whole(sink, idle_line().as_slice()),
    }
}

/// Lets an event happen, and writes what it comes to; or answers why it is refused.
pub(super) fn play_event<K: Sink>(
    net: &mut Net,
    event: &Event,
    naming: &Naming<'_>,
    sink: &mut K,
) -> Result<Option<ScriptReason>, Stop>
    requires { net.old.live ≡ true }
    ensures fault { IfOk result (λ fault. fault ≡ (event_turn (labels_of naming.now) net.old event.now).fault) }
    ensures after { OnOk result (net.new ≡ (event_turn (labels_of naming.now) net.old event.now).net) }
    ensures ok { OnOk result (Appends (K.taken sink.old) (K.taken sink.new)
        (event_turn (labels_of naming.now) net.old event.now).text) }
    ensures err { OnErr result (AppendsFront (K.taken sink.old) (K.taken sink.new)
        (event_turn (labels_of naming.now) net.old event.now).text) }
    ensures cause { IfErr result (HasStopCause (K.faults sink.old) (K.faults sink.new)) }
    ensures quiet { result ≢ Err Stop.WriteFault → K.faults sink.new ≡ K.faults sink.old }
{
    match net.step(event) {
        Ok(step) => {
            write_step(net, &step, naming, sink)?;
            Ok(None)
        }
        Err(StepFault::NoNode) => Ok(Some(ScriptReason::Node)),
        Err(StepFault::NoPacket) => Ok(Some(ScriptReason::Packet)),
        Err(StepFault::Many) => Ok(Some(ScriptReason::Many)),
        Err(StepFault::Memory) => Err(Stop::Memory),
    }
}
