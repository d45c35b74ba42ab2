//! Scenarios, and engines to which their blocks come.

use sp_engine::Engine;
use sp_feed::Message;
use sp_play::Scene;
use std::alloc::Global;
use std::test::Fail;

/// Two payments of one grant side by side, and a block on both, which finds a tie and keeps it.
pub const SIDE_BY_SIDE: &[u8] =
    b"grant g 100 to alice\ntx p spends g.0 pays 100 to bob\ntx q spends g.0 pays 100 to carol\nblock A on G carries p\nblock B on G carries q\nblock C on A B";

/// The same in profile 2, where it votes for the block of the smaller salt.
pub const SIDE_BY_SIDE_2: &[u8] =
    b"profile 2\ngrant g 100 to alice\ntx p spends g.0 pays 100 to bob\ntx q spends g.0 pays 100 to carol\nblock A on G carries p\nblock B on G carries q\nblock C on A B";

/// The scene of a text, all of whose lines are taken.
pub fn scene_of(alloc: Global, text: &[u8]) -> Result<Scene, Fail> {
    if text.len() > 1000 {
        return Err("too long".into());
    }
    let scene = Scene::read(alloc, text)?;
    if scene.fault().is_some() {
        return Err("a faulty line".into());
    }
    Ok(scene)
}

/// An engine of the genesis block of a scene alone.
pub fn engine_of(alloc: Global, scene: &Scene) -> Result<Engine, Fail> {
    let head = scene.head()?;
    Ok(Engine::new(alloc, head.genesis, head.bits, head.profile)?)
}

/// Bytes come to an engine, whatever it answers.
pub fn offered(engine: &mut Engine, bytes: &[u8]) -> Result<(), Fail> {
    let _answer = engine.offer(bytes)?;
    Ok(())
}

/// All blocks of a scene come to an engine.
pub fn play(engine: &mut Engine, scene: &Scene) -> Result<(), Fail> {
    for place in 0..scene.len() {
        if let Message::Block(bytes) = scene.message(place) {
            offered(engine, bytes)?;
        }
    }
    Ok(())
}

fn played_scene(alloc: Global, scene: &Scene) -> Result<Engine, Fail> {
    let mut engine = engine_of(alloc, scene)?;
    match play(&mut engine, scene) {
        Ok(()) => Ok(engine),
        Err(fail) => {
            drop(engine);
            Err(fail)
        }
    }
}

/// An engine to which the blocks of a scenario came.
pub fn played(alloc: Global, text: &[u8]) -> Result<Engine, Fail> {
    let scene = scene_of(alloc, text)?;
    let engine = played_scene(alloc, &scene);
    drop(scene);
    engine
}
