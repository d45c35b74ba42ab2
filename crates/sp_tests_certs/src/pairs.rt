//! Certificates of each two blocks of graphs that are made and drawn, in either profile: the sign is what
//! the engine says of the two, the certificate shows it once it is written and read again, and with
//! another sign it is refused.

use crate::bytes::{Told, said, written};
use crate::engine::{certificate_of, engine_of};
use crate::rows::holds;
use sp_engine::Engine;
use sp_feed::Message;
use sp_fixtures::Numbered;
use sp_fixtures::drawn::{Shape, graph};
use sp_ids::BlockId;
use sp_make::make;
use sp_model::{Profile, Word};
use sp_play::Scene;
use std::alloc::Global;
use std::process::Abort;
use std::test::Fail;

/// From chains of two to crowds whose blocks have many parents.
#[rattlefmt::skip]
const SHAPES: &[Shape] = &[
    (1, 14, 3, 4), (2, 14, 2, 3), (3, 13, 5, 13), (4, 13, 1, 6), (5, 12, 12, 12),
    (6, 12, 2, 12), (7, 11, 4, 5), (8, 10, 1, 2), (9, 9, 3, 9), (10, 8, 1, 8),
];

/// The byte of the sign that a word says.
fn byte_of(word: Word) -> Option<u8> {
    match word {
        Word::Before => Some(0),
        Word::Tie => Some(1),
        Word::After => Some(2),
        _ => None,
    }
}

/// Whether the sign at this place is the one of three that isn't refused.
fn only_sign(alloc: Global, bytes: &mut Vec<u8>, at: usize, right: u8) -> Result<bool, Fail> {
    for sign in 0..3u8 {
        match bytes.get_mut(at) {
            Some(byte) => *byte = sign,
            None => return Ok(false),
        }
        let wanted = if sign == right {
            Told::Shown
        } else {
            Told::Sum
        };
        if said(alloc, bytes)? != wanted {
            return Ok(false);
        }
    }
    Ok(true)
}

/// Whether the certificate of two blocks shows what the engine says of them, and no other sign.
fn is_shown(alloc: Global, engine: &Engine, x: &BlockId, y: &BlockId) -> Result<bool, Fail> {
    let Some(right) = byte_of(engine.vote(x, y)) else {
        return Ok(false);
    };
    let cert = certificate_of(alloc, engine, x, y)?;
    let blocks = cert.blocks.as_slice().len();
    let worlds = cert.worlds.as_slice().len();
    let mut bytes = written(alloc, &cert)?;
    drop(cert);
    // Behind the sign stand the number of worlds and the worlds.
    let at = bytes
        .len()
        .saturating_sub(3)
        .saturating_sub(worlds.saturating_mul(blocks.saturating_add(2)));
    if bytes.get(at) != Some(&right) {
        return Ok(false);
    }
    only_sign(alloc, &mut bytes, at, right)
}

fn all_shown(alloc: Global, engine: &Engine, ids: &[BlockId]) -> Result<bool, Fail> {
    for x in ids {
        for y in ids {
            if x != y && !is_shown(alloc, engine, x, y)? {
                return Ok(false);
            }
        }
    }
    Ok(true)
}

fn drawn_shown(alloc: Global, profile: Profile, shape: &Shape) -> Result<bool, Fail> {
    let blocks = graph(alloc, shape)?;
    let engine = engine_of(alloc, profile, &blocks)?;
    let shown = all_shown(alloc, &engine, &blocks.ids);
    drop(engine);
    shown
}

fn each_drawn_shown(rt: &impl Abort, alloc: Global, profile: Profile) -> Result<(), Fail> {
    for (row, shape) in SHAPES.iter().enumerate() {
        holds(rt, row, drawn_shown(alloc, profile, shape)?);
    }
    Ok(())
}

#[test]
fn drawn_graphs(rt: HostRuntime) -> Result<(), Fail> {
    each_drawn_shown(&rt, rt.alloc(), Profile::One)
}

#[test]
fn drawn_graphs_of_profile_2(rt: HostRuntime) -> Result<(), Fail> {
    each_drawn_shown(&rt, rt.alloc(), Profile::Two)
}

/// The bytes of the blocks of a scene, of which genesis is the first.
fn texts_of(alloc: Global, scene: &Scene) -> Result<Vec<Vec<u8>>, Fail> {
    let head = scene.head()?;
    let mut texts = Vec::new(alloc);
    texts.push(Vec::from_slice(alloc, head.genesis.bytes.as_slice())?)?;
    for place in 0..scene.len() {
        if let Message::Block(bytes) = scene.message(place) {
            texts.push(Vec::from_slice(alloc, bytes)?)?;
        }
    }
    Ok(texts)
}

fn ids_of(alloc: Global, texts: &[Vec<u8>]) -> Result<Vec<BlockId>, Fail> {
    let mut ids = Vec::new(alloc);
    for text in texts {
        ids.push(BlockId::of(text))?;
    }
    Ok(ids)
}

/// The blocks of a scene.
fn blocks_of(alloc: Global, scene: &Scene) -> Result<Numbered, Fail> {
    let texts = texts_of(alloc, scene)?;
    let ids = ids_of(alloc, &texts)?;
    Ok(Numbered { alloc, texts, ids })
}

/// Whether each two blocks of a made scenario are shown.
fn made_shown(alloc: Global, profile: Profile) -> Result<bool, Fail> {
    let text = make(alloc, 24, 5, 3)?;
    let scene = Scene::read(alloc, &text)?;
    let blocks = blocks_of(alloc, &scene)?;
    drop(scene);
    let engine = engine_of(alloc, profile, &blocks)?;
    let shown = all_shown(alloc, &engine, &blocks.ids);
    drop(engine);
    Ok(shown? && blocks.ids.len() == 25)
}

#[test]
fn blocks_of_a_made_scenario(rt: HostRuntime) -> Result<(), Fail> {
    holds(&rt, 1, made_shown(rt.alloc(), Profile::One)?);
    holds(&rt, 2, made_shown(rt.alloc(), Profile::Two)?);
    Ok(())
}
