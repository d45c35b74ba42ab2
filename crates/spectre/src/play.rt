//! The taking of a scenario or a script from a source: it is read whole, and then done with as it is asked.

ghost use Rattle.std.specs.Prelude.{◌≡◌, ◌≢◌, ◌<◌, ◌≤◌, [], drop, length, Err, IfErr, IfOk, IfSome, OnErr, OnOk, Some};
ghost use Rattle.std.specs.Io.KnownBytes.{Appends};
ghost use Rattle.sp_io.specs.Causes.{Rose};
ghost use Rattle.sp_io.specs.Whole.{AppendsFront, ConsumesUpTo};
ghost use Rattle.sp_play.specs.Scene as meant;
ghost use Rattle.sp_play.specs.Source.{scenario_limit};
ghost use Rattle.sp_report.specs.Lines.{too_long_text};
ghost use Rattle.spectre.specs.Ends.{EndsAs, EndsTask, HasStopCause, Makes, Plays, status_by};
ghost use Rattle.spectre.specs.Faults.{HasFault, HasNoFault, IsFaultyText, IsWholeText};
ghost use Rattle.spectre.specs.Output.{source_output, task_output};
ghost use Rattle.spectre.specs.Scenes.{scene_output};

use crate::drill::drill_scene;
use crate::ending::{Ending, Stop};
use crate::gossip::play_gossip;
use crate::purpose::{Purpose, Task};
use crate::scene::{build_scene, play_scene};
use crate::status::Status;
use sp_io::{Sink, Source, write_whole};
use sp_play::{ScenarioFault, Scene, read_scenario};
use sp_report::too_long_line;
use std::alloc::Global;

/// Does with a scene what is asked.
fn on_scene<K: Sink>(
    alloc: Global,
    purpose: Purpose,
    scene: &Scene,
    sink: &mut K,
) -> Result<Ending, Stop>
    ensures ok { OnOk result
        (Appends (K.taken sink.old) (K.taken sink.new) (scene_output purpose scene.now)) }
    ensures ending { IfOk result (EndsAs scene.now) }
    ensures err { OnErr result
        (AppendsFront (K.taken sink.old) (K.taken sink.new) (scene_output purpose scene.now)) }
    ensures cause { IfErr result (HasStopCause (K.faults sink.old) (K.faults sink.new)) }
    ensures quiet { result ≢ Err Stop.WriteFault → K.faults sink.new ≡ K.faults sink.old }
{
    match purpose {
        Purpose::Play => play_scene(alloc, scene, sink),
        Purpose::Build => build_scene(scene, sink),
        Purpose::Drill => drill_scene(alloc, scene, sink),
    }
}

/// Reads a scenario, and does with it what is asked.
#[tactic(auto, using(sp_io::proofs::Stops::stops_at_start))]
pub fn on_text<K: Sink>(
    alloc: Global,
    purpose: Purpose,
    text: &[u8],
    sink: &mut K,
) -> Result<Ending, Stop>
    requires { length text.now < scenario_limit }
    ensures ok { OnOk result (Appends (K.taken sink.old) (K.taken sink.new)
        (scene_output purpose (meant.scene text.now))) }
    ensures ending { IfOk result (EndsAs (meant.scene text.now)) }
    ensures err { OnErr result (AppendsFront (K.taken sink.old) (K.taken sink.new)
        (scene_output purpose (meant.scene text.now))) }
    ensures cause { IfErr result (HasStopCause (K.faults sink.old) (K.faults sink.new)) }
    ensures quiet { result ≢ Err Stop.WriteFault → K.faults sink.new ≡ K.faults sink.old }
{
    let scene = Scene::read(alloc, text)?;
    on_scene(alloc, purpose, &scene, sink)
}

/// Does with a text what is asked.
fn do_task<K: Sink>(alloc: Global, task: Task, text: &[u8], sink: &mut K) -> Result<Ending, Stop>
    requires { length text.now < scenario_limit }
    ensures ok { OnOk result
        (Appends (K.taken sink.old) (K.taken sink.new) (task_output task text.now)) }
    ensures ending { IfOk result (EndsTask task text.now) }
    ensures err { OnErr result
        (AppendsFront (K.taken sink.old) (K.taken sink.new) (task_output task text.now)) }
    ensures cause { IfErr result (HasStopCause (K.faults sink.old) (K.faults sink.new)) }
    ensures quiet { result ≢ Err Stop.WriteFault → K.faults sink.new ≡ K.faults sink.old }
{
    match task {
        Task::Scenario(purpose) => on_text(alloc, purpose, text, sink),
        Task::Gossip => play_gossip(alloc, text, sink),
    }
}

/// Writes the line of a scenario that is too long.
fn write_too_long<K: Sink>(sink: &mut K) -> Status
    ensures too_long { result ≡ Status.TooLong →
        Appends (K.taken sink.old) (K.taken sink.new) (too_long_text scenario_limit) }
    ensures write_fault { result ≡ Status.WriteFault →
        AppendsFront (K.taken sink.old) (K.taken sink.new) (too_long_text scenario_limit) }
    ensures cause { result ≡ Status.WriteFault → Rose (K.faults sink.old) (K.faults sink.new) }
    ensures quiet { result ≡ Status.TooLong → K.faults sink.new ≡ K.faults sink.old }
    ensures among { result ≢ Status.TooLong → result ≡ Status.WriteFault }
{
    match write_whole(sink, too_long_line(16_777_216).as_slice()) {
        Ok(()) => Status::TooLong,
        Err(_) => Status::WriteFault,
    }
}

/// The status of what was done with a scene.
pub fn status_of(ended: Result<Ending, Stop>) -> Status
    ensures { result ≡ status_by ended }
{
    match ended {
        Ok(Ending::Whole) => Status::Done,
        Ok(Ending::Faulty) => Status::Malformed,
        Err(Stop::WriteFault) => Status::WriteFault,
        Err(Stop::Memory) => Status::Memory,
    }
}

/// Does with a text what is asked, and answers how that ended.
fn run_text<K: Sink>(alloc: Global, task: Task, text: &[u8], sink: &mut K) -> Status
    requires { length text.now < scenario_limit }
    ensures done { result ≡ Status.Done → Appends (K.taken sink.old) (K.taken sink.new)
        (task_output task text.now) × HasNoFault task text.now }
    ensures malformed { result ≡ Status.Malformed → Appends (K.taken sink.old) (K.taken sink.new)
        (task_output task text.now) × HasFault task text.now }
    ensures write_fault { result ≡ Status.WriteFault → AppendsFront (K.taken sink.old) (K.taken sink.new)
        (task_output task text.now) }
    ensures memory { result ≡ Status.Memory → AppendsFront (K.taken sink.old) (K.taken sink.new)
        (task_output task text.now) }
    ensures write_cause { result ≡ Status.WriteFault → Rose (K.faults sink.old) (K.faults sink.new) }
    ensures write_quiet { result ≢ Status.WriteFault → K.faults sink.new ≡ K.faults sink.old }
    ensures among { Makes result }
{
    status_of(do_task(alloc, task, text, sink))
}

/// Reads a text from a source to its end, and then does with it what is asked.
pub fn from_source<S: Source, K: Sink>(
    alloc: Global,
    task: Task,
    source: &mut S,
    sink: &mut K,
) -> Status
    ensures done { result ≡ Status.Done → IfSome (S.left source.old) (λ input.
        Appends (K.taken sink.old) (K.taken sink.new) (source_output task input)
        × IsWholeText task input) }
    ensures done_end { result ≡ Status.Done → IfSome (S.left source.old) (λ input.
        S.left source.new ≡ Some []) }

    ensures malformed { result ≡ Status.Malformed → IfSome (S.left source.old) (λ input.
        Appends (K.taken sink.old) (K.taken sink.new) (source_output task input)
        × IsFaultyText task input) }
    ensures malformed_end { result ≡ Status.Malformed → IfSome (S.left source.old) (λ input.
        S.left source.new ≡ Some []) }
    ensures too_long { result ≡ Status.TooLong → IfSome (S.left source.old) (λ input.
        Appends (K.taken sink.old) (K.taken sink.new) (source_output task input)
        × (scenario_limit ≤ length input)) }
    ensures too_long_end { result ≡ Status.TooLong → IfSome (S.left source.old) (λ input.
        S.left source.new ≡ Some (drop scenario_limit input)) }
    ensures taken { ConsumesUpTo (S.left source.old) (S.left source.new) scenario_limit }

    ensures read_fault { result ≡ Status.ReadFault → sink.new ≡ sink.old }
    ensures write_fault { result ≡ Status.WriteFault → IfSome (S.left source.old) (λ input.
        AppendsFront (K.taken sink.old) (K.taken sink.new) (source_output task input)) }
    ensures memory { result ≡ Status.Memory → IfSome (S.left source.old) (λ input.
        AppendsFront (K.taken sink.old) (K.taken sink.new) (source_output task input)) }
    ensures read_cause { result ≡ Status.ReadFault → Rose (S.faults source.old) (S.faults source.new) }
    ensures write_cause { result ≡ Status.WriteFault → Rose (K.faults sink.old) (K.faults sink.new) }
    ensures read_quiet { result ≢ Status.ReadFault → S.faults source.new ≡ S.faults source.old }
    ensures write_quiet { result ≢ Status.WriteFault → K.faults sink.new ≡ K.faults sink.old }

    ensures among { Plays result }
{
    match read_scenario(alloc, source) {
        Ok(text) => run_text(alloc, task, &text, sink),
        Err(ScenarioFault::ReadFault) => Status::ReadFault,
        Err(ScenarioFault::TooLong { .. }) => write_too_long(sink),
        Err(ScenarioFault::Memory) => Status::Memory,
    }
}
