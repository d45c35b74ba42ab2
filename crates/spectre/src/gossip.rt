//! The playing of a text in which nodes send each other blocks: the scenario before its script, and then
//! the script, line by line, up to its first fault.

ghost use Rattle.std.specs.Prelude.{◌≡◌, ◌≢◌, ◌≤◌, ◌<◌, if◌then◌else◌, drop, length, Err, IfErr, IfOk, IfSome, None, OnErr, OnOk, Some};
ghost use Rattle.std.specs.Option.{option_copied};
ghost use Rattle.std.specs.Io.KnownBytes.{Appends};
ghost use Rattle.sp_io.specs.Whole.{AppendsFront};
ghost use Rattle.sp_play.specs.Source.{scenario_limit};
ghost use Rattle.spectre.specs.Ends.{EndsBy, HasStopCause};
ghost use Rattle.spectre.specs.Gossips.{gossip, gossiped, gossip_in, gossip_text, IsScript};

mod faults;
mod scripts;
mod steps;
mod turns;

use crate::ending::{Ending, Stop};
use crate::gossip::scripts::play_whole;
use crate::scene::write_fault;
use sp_gossip::{Cut, find_script};
use sp_io::Sink;
use sp_play::Scene;
use std::alloc::Global;

/// The script behind a scenario, where there is one.
fn script_in(text: &[u8], place: Cut) -> Option<&[u8]>
    requires { place.place ≤ length text.now }
    ensures { option_copied result ≡ (if place.found then Some (drop place.place text.now) else None) }
{
    if place.found {
        Some(&text[place.place..])
    } else {
        None
    }
}

/// The same, where the scene has no fault; else it writes that fault's line alone.
fn play_behind<K: Sink>(
    alloc: Global,
    scene: &Scene,
    number: u32,
    text: Option<&[u8]>,
    sink: &mut K,
) -> Result<Ending, Stop>
    requires numbered { number ≤ 16777216 }
    requires script { IfSome (option_copied text) IsScript }
    ensures ok { OnOk result (Appends (K.taken sink.old) (K.taken sink.new)
        (gossip_text (gossip_in scene.now number (option_copied text.entry) scene.now.fault))) }
    ensures ending { IfOk result (EndsBy (gossip_in scene.now number (option_copied text.entry) scene.now.fault).fault) }
    ensures err { OnErr result (AppendsFront (K.taken sink.old) (K.taken sink.new)
        (gossip_text (gossip_in scene.now number (option_copied text.entry) scene.now.fault))) }
    ensures cause { IfErr result (HasStopCause (K.faults sink.old) (K.faults sink.new)) }
    ensures quiet { result ≢ Err Stop.WriteFault → K.faults sink.new ≡ K.faults sink.old }
{
    let fault = scene.fault();
    if fault.is_some() {
        return write_fault(fault, sink);
    }
    play_whole(alloc, scene, number, text, sink)
}

/// Plays the script in a text behind the scenario before it, up to the first fault, whose line is written
/// last.
pub fn play_gossip<K: Sink>(alloc: Global, text: &[u8], sink: &mut K) -> Result<Ending, Stop>
    requires { length text.now < scenario_limit }
    ensures ok { OnOk result (Appends (K.taken sink.old) (K.taken sink.new) (gossiped text.now)) }
    ensures ending { IfOk result (EndsBy (gossip text.now).fault) }
    ensures err { OnErr result
        (AppendsFront (K.taken sink.old) (K.taken sink.new) (gossiped text.now)) }
    ensures cause { IfErr result (HasStopCause (K.faults sink.old) (K.faults sink.new)) }
    ensures quiet { result ≢ Err Stop.WriteFault → K.faults sink.new ≡ K.faults sink.old }
{
    let place = find_script(text);
    let scene = Scene::read(alloc, &text[..place.place])?;
    play_behind(alloc, &scene, place.lines + 1, script_in(text, place), sink)
}
