//! What is done with a scene that was read: its messages are answered by a node, with names as
//! labels, or its feed is written.

ghost use Rattle.std.specs.Prelude.{◌≡◌, ◌≢◌, ◌∷◌, [], false, Err, IfErr, IfOk, IsNone, None, IsSome, Ok, OnErr, OnOk};
ghost use Rattle.std.specs.List.{flat_map};
ghost use Rattle.std.specs.Io.KnownBytes.{Appends};
ghost use Rattle.sp_block.specs.Block.{ReadBlock};
ghost use Rattle.sp_engine.specs.Arrivals.{kept_by_all};
ghost use Rattle.sp_io.specs.Whole.{AppendsFront};
ghost use Rattle.sp_node.specs.Answers.{answers, arrivals_of};
ghost use Rattle.sp_report.specs.Naming.{labels_of};
ghost use Rattle.spectre.specs.Ends.{EndsAs, HasStopCause};
ghost use Rattle.spectre.specs.Lines.{fault_text};
ghost use Rattle.spectre.specs.Scenes.{built, played, scene_lines};

use crate::ending::{Ending, Stop};
use crate::genesis::node_of;
use crate::lines::fault_line;
use crate::no_disk::NoDisk;
use sp_io::{Sink, write_whole};
use sp_node::{Node, NodeFault};
use sp_play::{LineFault, Scene};
use sp_report::Naming;
use std::alloc::Global;

/// Answers each message of a scene by a node on its genesis block.
pub fn answer_scene<K: Sink>(
    node: &mut Node,
    scene: &Scene,
    naming: &Naming<'_>,
    sink: &mut K,
) -> Result<(), Stop>
    requires live { node.old.stopped ≡ false }
    requires plain { node.old.journal ≡ None }
    ensures ok { (genesis : ReadBlock) → node.old.kept ≡ genesis ∷ [] → OnOk result
        (Appends (K.taken sink.old) (K.taken sink.new)
        (answers (labels_of naming.now) genesis node.old.terms [] scene.now.messages)) }
    ensures kept { (genesis : ReadBlock) → node.old.kept ≡ genesis ∷ [] → OnOk result
        (node.new.kept ≡ kept_by_all node.old.terms.bits genesis
        (flat_map arrivals_of scene.now.messages)) }
    ensures live { OnOk result (node.new.stopped ≡ false) }
    ensures terms { OnOk result (node.new.terms ≡ node.old.terms) }
    ensures err { (genesis : ReadBlock) → node.old.kept ≡ genesis ∷ [] → OnErr result
        (AppendsFront (K.taken sink.old) (K.taken sink.new)
        (answers (labels_of naming.now) genesis node.old.terms [] scene.now.messages)) }
    ensures cause { IfErr result (HasStopCause (K.faults sink.old) (K.faults sink.new)) }
    ensures quiet { result ≢ Err Stop.WriteFault → K.faults sink.new ≡ K.faults sink.old }
{
    let mut disk = NoDisk::new();
    'place: for place in 0..scene.len() {
        let message = scene.message(place);
        match node.message(&message, naming, sink, &mut disk) {
            Ok(()) => (),
            Err(NodeFault::WriteFault) => return Err(Stop::WriteFault),
            // No disk is asked for anything.
            Err(NodeFault::DiskFault) => unreachable!(),
            Err(NodeFault::Memory) => return Err(Stop::Memory),
        }
    }
    Ok(())
}

/// Answers each message of a scene, with its names as labels.
fn answer_by_names<K: Sink>(alloc: Global, scene: &Scene, sink: &mut K) -> Result<(), Stop>
    ensures ok { OnOk result
        (Appends (K.taken sink.old) (K.taken sink.new) (scene_lines scene.now)) }
    ensures err { OnErr result
        (AppendsFront (K.taken sink.old) (K.taken sink.new) (scene_lines scene.now)) }
    ensures cause { IfErr result (HasStopCause (K.faults sink.old) (K.faults sink.new)) }
    ensures quiet { result ≢ Err Stop.WriteFault → K.faults sink.new ≡ K.faults sink.old }
{
    let head = scene.head()?;
    let mut node = node_of(alloc, head)?;
    let naming = Naming::Names(scene.names());
    answer_scene(&mut node, scene, &naming, sink)
}

/// Writes the line of a scene's fault, if it has one.
pub fn write_fault<K: Sink>(fault: Option<LineFault>, sink: &mut K) -> Result<Ending, Stop>
    ensures ok { OnOk result
        (Appends (K.taken sink.old) (K.taken sink.new) (fault_text fault)) }
    ensures whole { result ≡ Ok Ending.Whole → IsNone fault }
    ensures faulty { result ≡ Ok Ending.Faulty → IsSome fault }
    ensures err { OnErr result
        (AppendsFront (K.taken sink.old) (K.taken sink.new) (fault_text fault)) }
    ensures cause { IfErr result (HasStopCause (K.faults sink.old) (K.faults sink.new)) }
    ensures quiet { result ≢ Err Stop.WriteFault → K.faults sink.new ≡ K.faults sink.old }
{
    let Some(fault) = fault else {
        return Ok(Ending::Whole);
    };
    let line = fault_line(fault);
    write_whole(sink, line.as_slice())?;
    Ok(Ending::Faulty)
}

/// Answers a scene's messages up to its first fault, and writes that fault's line.
pub fn play_scene<K: Sink>(alloc: Global, scene: &Scene, sink: &mut K) -> Result<Ending, Stop>
    ensures ok { OnOk result (Appends (K.taken sink.old) (K.taken sink.new) (played scene.now)) }
    ensures ending { IfOk result (EndsAs scene.now) }
    ensures err { OnErr result
        (AppendsFront (K.taken sink.old) (K.taken sink.new) (played scene.now)) }
    ensures cause { IfErr result (HasStopCause (K.faults sink.old) (K.faults sink.new)) }
    ensures quiet { result ≢ Err Stop.WriteFault → K.faults sink.new ≡ K.faults sink.old }
{
    answer_by_names(alloc, scene, sink)?;
    write_fault(scene.fault(), sink)
}

/// Writes the feed of a scene, or the line of its fault alone.
#[tactic(auto, unfolding(crate::specs::Scenes::built))]
pub fn build_scene<K: Sink>(scene: &Scene, sink: &mut K) -> Result<Ending, Stop>
    ensures ok { OnOk result (Appends (K.taken sink.old) (K.taken sink.new) (built scene.now)) }
    ensures ending { IfOk result (EndsAs scene.now) }
    ensures err { OnErr result
        (AppendsFront (K.taken sink.old) (K.taken sink.new) (built scene.now)) }
    ensures cause { IfErr result (HasStopCause (K.faults sink.old) (K.faults sink.new)) }
    ensures quiet { result ≢ Err Stop.WriteFault → K.faults sink.new ≡ K.faults sink.old }
{
    let fault = scene.fault();
    if fault.is_some() {
        return write_fault(fault, sink);
    }
    scene.feed(sink)?;
    Ok(Ending::Whole)
}
