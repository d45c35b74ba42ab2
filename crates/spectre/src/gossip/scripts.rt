//! A script over the nodes, the made blocks and the names of a scene.

ghost use Rattle.std.specs.Prelude.{◌≡◌, ◌≢◌, ◌≤◌, true, All, length, Err, IfErr, IfOk, IfSome, Ok, OnErr, OnOk, Some};
ghost use Rattle.std.specs.Option.{option_copied};
ghost use Rattle.std.specs.Io.KnownBytes.{Appends};
ghost use Rattle.sp_engine.specs.Blocks.{block_in};
ghost use Rattle.sp_io.specs.Whole.{AppendsFront};
ghost use Rattle.sp_gossip.specs.Script.{HasNumbers, IsCount};
ghost use Rattle.spectre.specs.Ends.{EndsBy, HasStopCause};
ghost use Rattle.spectre.specs.Gossips.{blocks_of, IsScript, nodes_on, play_by, play_script, script_text};

use crate::ending::{Ending, Stop};
use crate::gossip::faults::{fault_of, write_script_fault};
use crate::gossip::turns::play_lines;
use crate::script_fault::{ScriptFault, ScriptReason};
use sp_feed::FeedHead;
use sp_gossip::{Made, Net, Script};
use sp_ids::Memory;
use sp_io::Sink;
use sp_play::Scene;
use sp_report::Naming;
use sp_tx::Bytes;
use std::alloc::Global;

/// So many nodes on the head of a feed, whose genesis block is the one that its bytes spell.
fn net_of(alloc: Global, head: FeedHead, nodes: u8) -> Result<Net, Memory>
    requires { IsCount nodes }
    ensures net { IfOk result (λ net. net ≡ nodes_on head.profile head.bits head.genesis nodes) }
    ensures genesis { block_in true head.genesis.bytes ≡ Ok head.genesis }
{
    let FeedHead {
        profile,
        bits,
        genesis,
    } = head;
    // Tells the proof what its bytes spell.
    let _id = genesis.id;
    Net::new(alloc, nodes, &genesis, bits, profile)
}

/// Plays a script by so many nodes on a scene's genesis block, with the scene's names as labels.
fn play_nodes<K: Sink>(
    alloc: Global,
    scene: &Scene,
    script: &Script,
    blocks: &[Made],
    nodes: u8,
    sink: &mut K,
) -> Result<Option<ScriptFault>, Stop>
    requires count { IsCount nodes }
    requires among { All (HasNumbers nodes (length blocks.now)) script.now.reading.lines }
    requires blocks { blocks.now ≡ blocks_of scene.now }
    ensures fault { IfOk result (λ fault. fault ≡ (play_by scene.now script.now.reading (Some nodes)).fault) }
    ensures ok { OnOk result (Appends (K.taken sink.old) (K.taken sink.new)
        (play_by scene.now script.now.reading (Some nodes)).text) }
    ensures err { OnErr result (AppendsFront (K.taken sink.old) (K.taken sink.new)
        (play_by scene.now script.now.reading (Some nodes)).text) }
    ensures cause { IfErr result (HasStopCause (K.faults sink.old) (K.faults sink.new)) }
    ensures quiet { result ≢ Err Stop.WriteFault → K.faults sink.new ≡ K.faults sink.old }
{
    let head = scene.head()?;
    let mut net = net_of(alloc, head, nodes)?;
    let naming = Naming::Names(scene.names());
    play_lines(alloc, &mut net, script, blocks, &naming, sink)
}

/// The blocks that a scene makes.
fn made_blocks(alloc: Global, scene: &Scene) -> Result<Vec<Made>, Memory>
    ensures blocks { IfOk result (λ blocks. blocks.items ≡ blocks_of scene.now) }
    ensures few { IfOk result (λ blocks. length blocks.items ≤ 65536) }
{
    let mut blocks = Vec::with_capacity(alloc, scene.made_count() as usize)?;
    'each: for number in 0..scene.made_count() {
        let (name, bytes) = scene.made(number);
        let copy = Vec::from_slice(alloc, bytes)?;
        blocks.push(Made {
            name,
            bytes: Bytes::of(copy),
        })?;
    }
    Ok(blocks)
}

/// Plays a scene's script, whose first line has this number, and answers its fault.
fn play_text<K: Sink>(
    alloc: Global,
    scene: &Scene,
    number: u32,
    text: Option<&[u8]>,
    sink: &mut K,
) -> Result<Option<ScriptFault>, Stop>
    requires numbered { number ≤ 16777216 }
    requires script { IfSome (option_copied text) IsScript }
    ensures fault { IfOk result (λ fault. fault ≡ (play_script scene.now number (option_copied text.entry)).fault) }
    ensures ok { OnOk result (Appends (K.taken sink.old) (K.taken sink.new)
        (play_script scene.now number (option_copied text.entry)).text) }
    ensures err { OnErr result (AppendsFront (K.taken sink.old) (K.taken sink.new)
        (play_script scene.now number (option_copied text.entry)).text) }
    ensures cause { IfErr result (HasStopCause (K.faults sink.old) (K.faults sink.new)) }
    ensures quiet { result ≢ Err Stop.WriteFault → K.faults sink.new ≡ K.faults sink.old }
{
    let Some(text) = text else {
        return Ok(Some(ScriptFault {
            line: number,
            reason: ScriptReason::Nodes,
        }));
    };
    let blocks = made_blocks(alloc, scene)?;
    let script = Script::read(alloc, text, number, &blocks)?;
    match script.nodes() {
        Some(nodes) => play_nodes(alloc, scene, &script, &blocks, nodes, sink),
        None => Ok(fault_of(&script)),
    }
}

/// Plays a scene's script up to its first fault, and writes that fault's line.
pub(super) fn play_whole<K: Sink>(
    alloc: Global,
    scene: &Scene,
    number: u32,
    text: Option<&[u8]>,
    sink: &mut K,
) -> Result<Ending, Stop>
    requires numbered { number ≤ 16777216 }
    requires script { IfSome (option_copied text) IsScript }
    ensures ok { OnOk result (Appends (K.taken sink.old) (K.taken sink.new)
        (script_text (play_script scene.now number (option_copied text.entry)))) }
    ensures ending { IfOk result (EndsBy (play_script scene.now number (option_copied text.entry)).fault) }
    ensures err { OnErr result (AppendsFront (K.taken sink.old) (K.taken sink.new)
        (script_text (play_script scene.now number (option_copied text.entry)))) }
    ensures cause { IfErr result (HasStopCause (K.faults sink.old) (K.faults sink.new)) }
    ensures quiet { result ≢ Err Stop.WriteFault → K.faults sink.new ≡ K.faults sink.old }
{
    let fault = play_text(alloc, scene, number, text, sink)?;
    write_script_fault(fault, sink)
}
