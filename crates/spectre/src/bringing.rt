//! The blocks of a feed, brought to an engine, where nothing is written before the feed's end: for a
//! command that asks something of all of them.

ghost use Rattle.std.specs.Prelude.{◌≡◌, ◌≢◌, ◌∷◌, [], ℕ, true, IfOk, IfSome, IsTrue, None, Ok, OnOk};
ghost use Rattle.sp_engine.specs.Blocks.{block_in};
ghost use Rattle.sp_feed.specs.Calls.{GivesHead};
ghost use Rattle.sp_feed.specs.Messages.{said_by};
ghost use Rattle.sp_feed.specs.Reader.{Behind, head_in, is_open};
ghost use Rattle.sp_feed.specs.Reads.{IsQuietHead, Moment, moment};
ghost use Rattle.sp_node.specs.Answers.{kept_then};
ghost use Rattle.spectre.specs.Bringing.{Bringing, Brought, with_engine};
ghost use Rattle.spectre.specs.Replay.{feed_limit};

use sp_engine::Engine;
use sp_feed::{FeedHead, FeedReader, HeadFault, Message};
use sp_ids::Memory;
use sp_io::Source;
use std::alloc::Global;

/// Brings the block of a message to the engine, if it has one.
fn bring(engine: &mut Engine, message: &Message<'_>) -> Result<(), Memory>
    ensures kept { OnOk result (IfSome (said_by message.now) (λ said.
        engine.new.kept ≡ kept_then engine.old.bits engine.old.kept said)) }
    ensures profile { OnOk result (engine.new.profile ≡ engine.old.profile) }
    ensures bits { engine.new.bits ≡ engine.old.bits }
{
    match message {
        Message::Block(bytes) => {
            engine.offer(bytes)?;
            Ok(())
        }
        _ => Ok(()),
    }
}

/// Brings each block behind the head to the engine. It owns neither the reader nor the engine, so that
/// its proof has no drop in it.
fn bring_rest<S: Source>(
    reader: &mut FeedReader,
    engine: &mut Engine,
    source: &mut S,
) -> Result<(), HeadFault>
    requires limit { reader.old.limit ≡ feed_limit }
    requires opened { IsTrue (is_open reader.old.stage) }
    requires unended { reader.old.stage ≢ Behind None }
    ensures brought { (start : Moment) → Bringing start
        (moment (S.left source.old) (S.faults source.old) reader.old.taken) engine.old → Brought start
        (moment (S.left source.new) (S.faults source.new) reader.new.taken) (with_engine result engine.new) }
    ensures quiet { IsQuietHead (S.faults source.old) (S.faults source.new) result }
{
    'messages: loop {
        reader.next(source)?;
        let message = reader.message();
        match message {
            Message::End => return Ok(()),
            _ => bring(engine, &message)?,
        }
    }
}

/// An engine on the head of a feed, whose genesis block is the one that its bytes spell.
fn engine_of(alloc: Global, head: FeedHead) -> Result<Engine, Memory>
    ensures profile { IfOk result (λ engine. engine.profile ≡ head.profile) }
    ensures bits { IfOk result (λ engine. engine.bits ≡ head.bits) }
    ensures kept { IfOk result (λ engine. engine.kept ≡ head.genesis ∷ []) }
    ensures genesis { block_in true head.genesis.bytes ≡ Ok head.genesis }
{
    let FeedHead {
        profile,
        bits,
        genesis,
    } = head;
    // Tells the proof what its bytes spell.
    let _id = genesis.id;
    Engine::new(alloc, genesis, bits, profile)
}

/// Brings each block behind the head to an engine that it makes of it.
fn bring_behind<S: Source>(
    alloc: Global,
    reader: &mut FeedReader,
    head: FeedHead,
    source: &mut S,
) -> Result<Engine, HeadFault>
    requires limit { reader.old.limit ≡ feed_limit }
    requires opened { IsTrue (is_open reader.old.stage) }
    requires unended { reader.old.stage ≢ Behind None }
    ensures brought { (start : Moment) → start.taken ≡ 0 → GivesHead feed_limit start
        (moment (S.left source.old) (S.faults source.old) reader.old.taken)
        head_in (Ok head) → Brought start
        (moment (S.left source.new) (S.faults source.new) reader.new.taken) result }
    ensures quiet { IsQuietHead (S.faults source.old) (S.faults source.new) result }
{
    let mut engine = engine_of(alloc, head)?;
    bring_rest(reader, &mut engine, source)?;
    Ok(engine)
}

/// An engine to which all blocks of a feed came. What follows the frame `E` stays unread. It takes about
/// the time of the engine for each block.
///
/// # Errors
///
/// The feed's first fault. `Memory` where there was none for the reader, the engine or a block.
pub fn engine_of_feed<S: Source>(alloc: Global, source: &mut S) -> Result<Engine, HeadFault>
    ensures brought { (taken : ℕ) × Brought
        (moment (S.left source.old) (S.faults source.old) 0)
        (moment (S.left source.new) (S.faults source.new) taken) result }
    ensures quiet { IsQuietHead (S.faults source.old) (S.faults source.new) result }
{
    let mut reader = FeedReader::new(alloc)?;
    let head = reader.head(source)?;
    bring_behind(alloc, &mut reader, head, source)
}
