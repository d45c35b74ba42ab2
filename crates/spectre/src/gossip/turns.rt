//! The lines of a script, each over the nodes as the lines before it left them.

ghost use Rattle.std.specs.Prelude.{◌≡◌, ◌≢◌, ◌<◌, true, All, length, Err, IfErr, IfOk, OnErr, OnOk};
ghost use Rattle.std.specs.Io.KnownBytes.{Appends};
ghost use Rattle.sp_io.specs.Whole.{AppendsFront};
ghost use Rattle.sp_gossip.specs.Script.{AsksAmong, HasNumbers};
ghost use Rattle.sp_report.specs.Naming.{labels_of};
ghost use Rattle.spectre.specs.Ends.{HasStopCause};
ghost use Rattle.spectre.specs.Gossips.{fault_read, node_text, play, turn};

use crate::ending::Stop;
use crate::gossip::faults::fault_of;
use crate::gossip::steps::play_event;
use crate::script_fault::{ScriptFault, ScriptReason};
use crate::script_lines::at_line;
use sp_gossip::{Event, Made, Net, Script, ScriptLine};
use sp_ids::Memory;
use sp_io::{Sink, write_whole};
use sp_report::{Naming, Text, TextFault, write_text};
use sp_tx::Bytes;
use std::alloc::Global;

/// Writes the report of a node.
fn write_report<K: Sink>(
    alloc: Global,
    net: &Net,
    node: u8,
    naming: &Naming<'_>,
    sink: &mut K,
) -> Result<(), Stop>
    requires { node < length net.now.kept }
    ensures ok { OnOk result (Appends (K.taken sink.old) (K.taken sink.new)
        (node_text (labels_of naming.now) net.now node)) }
    ensures err { OnErr result (AppendsFront (K.taken sink.old) (K.taken sink.new)
        (node_text (labels_of naming.now) net.now node)) }
    ensures cause { IfErr result (HasStopCause (K.faults sink.old) (K.faults sink.new)) }
    ensures quiet { result ≢ Err Stop.WriteFault → K.faults sink.new ≡ K.faults sink.old }
{
    let at = at_line(node, b'\n');
    write_whole(sink, at.as_slice())?;
    match write_text(alloc, net.engine(node), &Text::Report, naming, sink) {
        Ok(()) => Ok(()),
        Err(TextFault::WriteFault) => Err(Stop::WriteFault),
        Err(TextFault::Memory) => Err(Stop::Memory),
    }
}

/// The event of a made block that arrives at a node.
fn make_of(alloc: Global, node: u8, made: &Made) -> Result<Event, Memory>
    ensures { IfOk result (λ event. event ≡ Event.Make node made.now.bytes) }
{
    let bytes = Bytes::of(Vec::from_slice(alloc, made.bytes.as_slice())?);
    Ok(Event::Make { node, bytes })
}

/// Does what a line asks for, and writes what it comes to; or answers why it can't be done.
fn play_line<K: Sink>(
    alloc: Global,
    net: &mut Net,
    line: &ScriptLine,
    blocks: &[Made],
    naming: &Naming<'_>,
    sink: &mut K,
) -> Result<Option<ScriptReason>, Stop>
    requires live { net.old.live ≡ true }
    requires among { AsksAmong (length net.old.kept) (length blocks.now) line.now }
    ensures fault { IfOk result (λ fault. fault ≡ (turn (labels_of naming.now) blocks.now net.old line.now).fault) }
    ensures after { OnOk result (net.new ≡ (turn (labels_of naming.now) blocks.now net.old line.now).net) }
    ensures ok { OnOk result (Appends (K.taken sink.old) (K.taken sink.new)
        (turn (labels_of naming.now) blocks.now net.old line.now).text) }
    ensures err { OnErr result (AppendsFront (K.taken sink.old) (K.taken sink.new)
        (turn (labels_of naming.now) blocks.now net.old line.now).text) }
    ensures cause { IfErr result (HasStopCause (K.faults sink.old) (K.faults sink.new)) }
    ensures quiet { result ≢ Err Stop.WriteFault → K.faults sink.new ≡ K.faults sink.old }
{
    match line {
        ScriptLine::Give { node, block } => {
            let event = make_of(alloc, *node, &blocks[*block as usize])?;
            play_event(net, &event, naming, sink)
        }
        ScriptLine::Act(event) => play_event(net, event, naming, sink),
        ScriptLine::Report { node } => {
            write_report(alloc, net, *node, naming, sink)?;
            Ok(None)
        }
    }
}

/// Does what the lines of a script ask for, one after another, and writes what each comes to. Answers the
/// first fault.
pub(super) fn play_lines<K: Sink>(
    alloc: Global,
    net: &mut Net,
    script: &Script,
    blocks: &[Made],
    naming: &Naming<'_>,
    sink: &mut K,
) -> Result<Option<ScriptFault>, Stop>
    requires live { net.old.live ≡ true }
    requires among { All (HasNumbers (length net.old.kept) (length blocks.now)) script.now.reading.lines }
    ensures fault { IfOk result (λ fault. fault ≡ (play (labels_of naming.now) blocks.now
        (fault_read script.now.reading.fault) net.old script.now.reading.lines).fault) }
    ensures ok { OnOk result (Appends (K.taken sink.old) (K.taken sink.new) (play (labels_of naming.now) blocks.now
        (fault_read script.now.reading.fault) net.old script.now.reading.lines).text) }
    ensures err { OnErr result (AppendsFront (K.taken sink.old) (K.taken sink.new) (play (labels_of naming.now) blocks.now
        (fault_read script.now.reading.fault) net.old script.now.reading.lines).text) }
    ensures cause { IfErr result (HasStopCause (K.faults sink.old) (K.faults sink.new)) }
    ensures quiet { result ≢ Err Stop.WriteFault → K.faults sink.new ≡ K.faults sink.old }
{
    'each: for place in 0..script.len() {
        let (number, line) = script.line(place);
        if let Some(reason) = play_line(alloc, net, line, blocks, naming, sink)? {
            return Ok(Some(ScriptFault {
                line: number,
                reason,
            }));
        }
    }
    Ok(fault_of(script))
}
