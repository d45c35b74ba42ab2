//! What an engine says of each two present blocks after each arrival, beside the plain votes of the
//! graph that it has: graphs that are drawn, whose blocks come in three orders to an engine of either
//! profile, and the blocks of a made scenario.

use crate::engines::{engine_in, engine_of, offer};
use crate::plain_words::{all_agree, views_are_right};
use crate::rows::holds;
use sp_engine::Engine;
use sp_feed::Message;
use sp_fixtures::Numbered;
use sp_fixtures::drawn::{Shape, graph, order};
use sp_make::make;
use sp_model::Profile;
use sp_play::Scene;
use std::alloc::Global;
use std::process::Abort;
use std::test::Fail;

/// From chains of a few to crowds whose blocks have many parents.
#[rattlefmt::skip]
const SHAPES: &[Shape] = &[
    (1, 40, 6, 8), (2, 40, 3, 5), (3, 40, 2, 40), (4, 40, 8, 12), (5, 36, 1, 6),
    (6, 36, 5, 36), (7, 33, 12, 16), (8, 33, 2, 3), (9, 30, 4, 10), (10, 30, 1, 30),
    (11, 30, 3, 4), (12, 28, 16, 20), (13, 26, 2, 8), (14, 24, 7, 24), (15, 24, 5, 5),
    (16, 22, 3, 22), (17, 20, 20, 20), (18, 18, 1, 2), (19, 16, 4, 6), (20, 12, 3, 12),
];

/// One block comes, and what the engine says of each two is right then.
fn comes(alloc: Global, engine: &mut Engine, bytes: &[u8]) -> Result<bool, Fail> {
    offer(engine, bytes)?;
    all_agree(alloc, engine)
}

fn each_comes(engine: &mut Engine, blocks: &Numbered, order: &[usize]) -> Result<bool, Fail> {
    for number in order {
        if !comes(blocks.alloc, engine, blocks.text(*number))? {
            return Ok(false);
        }
    }
    views_are_right(engine, blocks.ids.len())
}

/// Whether all is right after each block of a graph, which come in one of three orders.
fn is_right(alloc: Global, profile: Profile, shape: &Shape, which: usize) -> Result<bool, Fail> {
    let blocks = graph(alloc, shape)?;
    let order = order(alloc, shape, which)?;
    let mut engine = engine_of(alloc, &blocks, profile)?;
    let right = each_comes(&mut engine, &blocks, &order);
    drop(engine);
    right
}

fn judge(rt: &impl Abort, alloc: Global, profile: Profile, which: usize) -> Result<(), Fail> {
    for (row, shape) in SHAPES.iter().enumerate() {
        holds(rt, row, is_right(alloc, profile, shape, which)?);
    }
    Ok(())
}

#[test]
fn blocks_in_order(rt: HostRuntime) -> Result<(), Fail> {
    judge(&rt, rt.alloc(), Profile::One, 0)
}

#[test]
fn blocks_backwards(rt: HostRuntime) -> Result<(), Fail> {
    judge(&rt, rt.alloc(), Profile::One, 1)
}

#[test]
fn blocks_in_any_order(rt: HostRuntime) -> Result<(), Fail> {
    judge(&rt, rt.alloc(), Profile::One, 2)
}

#[test]
fn settling_blocks_in_order(rt: HostRuntime) -> Result<(), Fail> {
    judge(&rt, rt.alloc(), Profile::Two, 0)
}

#[test]
fn settling_blocks_backwards(rt: HostRuntime) -> Result<(), Fail> {
    judge(&rt, rt.alloc(), Profile::Two, 1)
}

#[test]
fn settling_blocks_in_any_order(rt: HostRuntime) -> Result<(), Fail> {
    judge(&rt, rt.alloc(), Profile::Two, 2)
}

/// The engine of a scene's genesis block in either profile, which takes no work.
pub fn engine_of_scene(alloc: Global, scene: &Scene, profile: Profile) -> Result<Engine, Fail> {
    let head = scene.head()?;
    engine_in(alloc, profile, head.genesis.bytes.as_slice())
}

/// Whether all is right after each block of a scene; how many blocks came.
pub fn scene_comes(alloc: Global, engine: &mut Engine, scene: &Scene) -> Result<u16, Fail> {
    let mut came = 0u16;
    for place in 0..scene.len() {
        if let Message::Block(bytes) = scene.message(place) {
            if !comes(alloc, engine, bytes)? {
                return Err("a vote differs".into());
            }
            came = came.saturating_add(1);
        }
    }
    Ok(came)
}

fn scene_comes_anew(alloc: Global, scene: &Scene) -> Result<u16, Fail> {
    let mut engine = engine_of_scene(alloc, scene, Profile::One)?;
    let came = scene_comes(alloc, &mut engine, scene);
    drop(engine);
    came
}

#[test]
fn blocks_of_a_made_scenario(rt: HostRuntime) -> Result<(), Fail> {
    let text = make(rt.alloc(), 24, 5, 3)?;
    let scene = Scene::read(rt.alloc(), &text)?;
    let came = scene_comes_anew(rt.alloc(), &scene);
    drop(scene);
    holds(&rt, 0, came? == 24);
    Ok(())
}
