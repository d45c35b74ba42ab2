//! The drill: a scene's blocks are kept, its answers are dropped, and a summary of what stands then
//! is written.

ghost use Rattle.std.specs.Prelude.{◌≡◌, ◌≢◌, ◌∷◌, [], false, Err, IfErr, IfOk, None, OnErr, OnOk};
ghost use Rattle.std.specs.List.{flat_map};
ghost use Rattle.std.specs.Io.KnownBytes.{Appends};
ghost use Rattle.sp_block.specs.Block.{ReadBlock};
ghost use Rattle.sp_model.specs.declared.profile.Profile.TheVariants.{One};
ghost use Rattle.sp_engine.specs.Arrivals.{kept_by_all};
ghost use Rattle.sp_io.specs.Whole.{AppendsFront};
ghost use Rattle.sp_node.specs.Answers.{arrivals_of};
ghost use Rattle.sp_report.specs.Naming.{labels_of};
ghost use Rattle.spectre.specs.Ends.{EndsAs, HasStopCause};
ghost use Rattle.spectre.specs.Scenes.{drilled, summary_in};
ghost use Rattle.spectre.specs.Summary as meant;

use crate::counting::count_all;
use crate::ending::{Ending, Stop};
use crate::genesis::node_of;
use crate::scene::{answer_scene, write_fault};
use crate::summary::write_counts;
use sp_engine::Engine;
use sp_ids::Memory;
use sp_io::{Sink, TallySink};
use sp_node::Node;
use sp_play::Scene;
use sp_report::{Naming, present_ids};
use std::alloc::Global;

/// Keeps the blocks of a scene by a node on its genesis block, and drops the answers.
fn keep_scene(node: &mut Node, scene: &Scene, naming: &Naming<'_>) -> Result<(), Memory>
    requires live { node.old.stopped ≡ false }
    requires plain { node.old.journal ≡ None }
    ensures kept { (genesis : ReadBlock) → node.old.kept ≡ genesis ∷ [] → OnOk result
        (node.new.kept ≡ kept_by_all node.old.terms.bits genesis
        (flat_map arrivals_of scene.now.messages)) }
    ensures live { OnOk result (node.new.stopped ≡ false) }
    ensures terms { OnOk result (node.new.terms ≡ node.old.terms) }
{
    let mut dropped = TallySink::new();
    match answer_scene(node, scene, naming, &mut dropped) {
        Ok(()) => Ok(()),
        Err(Stop::Memory) => Err(Memory),
        // No write to it fails.
        Err(Stop::WriteFault) => unreachable!(),
    }
}

/// Writes the summary over an engine's kept blocks.
#[tactic(auto, using(sp_io::proofs::Stops::stops_at_start))]
fn summarize<K: Sink>(
    alloc: Global,
    engine: &Engine,
    naming: &Naming<'_>,
    sink: &mut K,
) -> Result<(), Stop>
    ensures ok { OnOk result (Appends (K.taken sink.old) (K.taken sink.new)
        (meant.summary engine.now.profile (labels_of naming.now) engine.now.kept)) }
    ensures err { OnErr result (AppendsFront (K.taken sink.old) (K.taken sink.new)
        (meant.summary engine.now.profile (labels_of naming.now) engine.now.kept)) }
    ensures cause { IfErr result (HasStopCause (K.faults sink.old) (K.faults sink.new)) }
    ensures quiet { result ≢ Err Stop.WriteFault → K.faults sink.new ≡ K.faults sink.old }
{
    let ids = present_ids(alloc, engine, naming)?;
    let counts = count_all(engine, &ids);
    write_counts(&counts, sink)?;
    Ok(())
}

/// Keeps the blocks of a scene, and writes the summary of what stands then. It doesn't own the node,
/// so that its proof has no drop of it.
#[tactic(auto, using(sp_io::proofs::Stops::stops_at_start))]
fn keep_and_tell<K: Sink>(
    alloc: Global,
    node: &mut Node,
    scene: &Scene,
    sink: &mut K,
) -> Result<(), Stop>
    requires live { node.old.stopped ≡ false }
    requires plain { node.old.journal ≡ None }
    ensures ok { (genesis : ReadBlock) → node.old.kept ≡ genesis ∷ [] → OnOk result
        (Appends (K.taken sink.old) (K.taken sink.new) (meant.summary node.old.terms.profile scene.now.names
        (kept_by_all node.old.terms.bits genesis (flat_map arrivals_of scene.now.messages)))) }
    ensures err { (genesis : ReadBlock) → node.old.kept ≡ genesis ∷ [] → OnErr result
        (AppendsFront (K.taken sink.old) (K.taken sink.new) (meant.summary node.old.terms.profile scene.now.names
        (kept_by_all node.old.terms.bits genesis (flat_map arrivals_of scene.now.messages)))) }
    ensures cause { IfErr result (HasStopCause (K.faults sink.old) (K.faults sink.new)) }
    ensures quiet { result ≢ Err Stop.WriteFault → K.faults sink.new ≡ K.faults sink.old }
{
    let naming = Naming::Names(scene.names());
    keep_scene(node, scene, &naming)?;
    summarize(alloc, node.engine(), &naming, sink)
}

/// Plays a scene, and writes the summary of what stands then.
fn summarize_scene<K: Sink>(alloc: Global, scene: &Scene, sink: &mut K) -> Result<(), Stop>
    ensures ok { OnOk result
        (Appends (K.taken sink.old) (K.taken sink.new) (summary_in scene.now)) }
    ensures err { OnErr result
        (AppendsFront (K.taken sink.old) (K.taken sink.new) (summary_in scene.now)) }
    ensures cause { IfErr result (HasStopCause (K.faults sink.old) (K.faults sink.new)) }
    ensures quiet { result ≢ Err Stop.WriteFault → K.faults sink.new ≡ K.faults sink.old }
{
    let head = scene.head()?;
    let mut node = node_of(alloc, head)?;
    keep_and_tell(alloc, &mut node, scene, sink)
}

/// Plays a scene and writes the summary, or the line of its fault alone.
#[tactic(auto, unfolding(crate::specs::Scenes::drilled))]
pub fn drill_scene<K: Sink>(alloc: Global, scene: &Scene, sink: &mut K) -> Result<Ending, Stop>
    ensures ok { OnOk result (Appends (K.taken sink.old) (K.taken sink.new) (drilled scene.now)) }
    ensures ending { IfOk result (EndsAs scene.now) }
    ensures err { OnErr result
        (AppendsFront (K.taken sink.old) (K.taken sink.new) (drilled scene.now)) }
    ensures cause { IfErr result (HasStopCause (K.faults sink.old) (K.faults sink.new)) }
    ensures quiet { result ≢ Err Stop.WriteFault → K.faults sink.new ≡ K.faults sink.old }
{
    let fault = scene.fault();
    if fault.is_some() {
        return write_fault(fault, sink);
    }
    summarize_scene(alloc, scene, sink)?;
    Ok(Ending::Whole)
}
