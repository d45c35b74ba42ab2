//! Drawn feeds that spend outputs twice, in three orders, and a made scenario: after each arrival an
//! engine accepts and leaves what a ledger of its present blocks does.

use crate::acceptance::{counts, listed};
use crate::beside::{decide, ledger_of};
use crate::blocks::Blocks;
use crate::engine::{engine_of, offer};
use crate::feeds::feed;
use crate::ledger::Ledger;
use crate::rows::holds;
use sp_engine::Engine;
use sp_feed::Message;
use sp_fixtures::drawn::{Shape, order};
use sp_make::make;
use sp_play::Scene;
use std::alloc::Global;
use std::test::Fail;

/// From trees to crowds whose blocks have many parents.
#[rattlefmt::skip]
const SHAPES: &[Shape] = &[
    (11, 36, 1, 4), (30, 36, 1, 8), (15, 36, 1, 8), (20, 36, 2, 6), (7, 36, 2, 6),
    (2, 34, 2, 12), (20, 34, 2, 12), (57, 34, 2, 12), (31, 32, 3, 8), (14, 30, 4, 30),
];

/// How many transactions are rejected at the end, and how many turned back before.
#[derive(Clone, Copy)]
struct Counts {
    rejected: usize,
    turned_back: usize,
}

fn rejected(alloc: Global, engine: &Engine) -> Result<usize, Fail> {
    let (_, count) = counts(engine)?;
    let listed = listed(alloc, engine, count)?;
    Ok(listed.iter().filter(|one| !one.1).count())
}

/// The blocks of a feed come to an engine, and a ledger follows.
fn come(
    engine: &mut Engine,
    ledger: &mut Ledger,
    blocks: &Blocks,
    order: &[usize],
) -> Result<Counts, Fail> {
    let mut turned_back = 0usize;
    for number in order {
        let _told = offer(engine, blocks.text(*number))?;
        turned_back = turned_back.saturating_add(decide(blocks.alloc, engine, ledger)?);
    }
    let rejected = rejected(blocks.alloc, engine)?;
    Ok(Counts {
        rejected,
        turned_back,
    })
}

fn come_to(engine: &mut Engine, blocks: &Blocks, order: &[usize]) -> Result<Counts, Fail> {
    let mut ledger = ledger_of(blocks.alloc, engine)?;
    let counts = come(engine, &mut ledger, blocks, order);
    drop(ledger);
    counts
}

/// The counts of one feed, whose blocks come in one of three orders.
fn counts_of(alloc: Global, shape: &Shape, which: usize) -> Result<Counts, Fail> {
    let blocks = feed(alloc, shape)?;
    let order = order(alloc, shape, which)?;
    let mut engine = engine_of(alloc, blocks.text(0), 0)?;
    let counts = come_to(&mut engine, &blocks, &order);
    drop(engine);
    counts
}

/// Whether so many transactions are rejected in all, and so many turned back, at least.
fn are_many(alloc: Global, which: usize, least: &Counts) -> Result<bool, Fail> {
    let mut rejected = 0usize;
    let mut turned_back = 0usize;
    for shape in SHAPES {
        let counts = counts_of(alloc, shape, which)?;
        rejected = rejected.saturating_add(counts.rejected);
        turned_back = turned_back.saturating_add(counts.turned_back);
    }
    Ok(rejected >= least.rejected && turned_back >= least.turned_back)
}

/// The least counts, where the blocks come as they were made, the last one first, or as drawn.
#[rattlefmt::skip]
const LEAST: &[Counts] = &[
    Counts { rejected: 380, turned_back: 100 },
    Counts { rejected: 380, turned_back: 9 },
    Counts { rejected: 380, turned_back: 30 },
];

#[test]
fn outputs_spent_twice(rt: HostRuntime) -> Result<(), Fail> {
    for (which, least) in LEAST.iter().enumerate() {
        holds(&rt, which, are_many(rt.alloc(), which, least)?);
    }
    Ok(())
}

/// How many blocks of a scene came.
fn scene_comes(
    alloc: Global,
    engine: &mut Engine,
    ledger: &mut Ledger,
    scene: &Scene,
) -> Result<u16, Fail> {
    let mut came = 0u16;
    for place in 0..scene.len() {
        if let Message::Block(bytes) = scene.message(place) {
            let _told = offer(engine, bytes)?;
            let _back = decide(alloc, engine, ledger)?;
            came = came.saturating_add(1);
        }
    }
    Ok(came)
}

fn comes_to(alloc: Global, engine: &mut Engine, scene: &Scene) -> Result<u16, Fail> {
    let mut ledger = ledger_of(alloc, engine)?;
    let came = scene_comes(alloc, engine, &mut ledger, scene);
    drop(ledger);
    came
}

/// The engine of a scene's genesis block, which takes no work.
fn engine_of_scene(alloc: Global, scene: &Scene) -> Result<Engine, Fail> {
    let head = scene.head()?;
    engine_of(alloc, head.genesis.bytes.as_slice(), 0)
}

fn comes_anew(alloc: Global, scene: &Scene) -> Result<u16, Fail> {
    let mut engine = engine_of_scene(alloc, scene)?;
    let came = comes_to(alloc, &mut engine, scene);
    drop(engine);
    came
}

#[test]
fn a_made_scenario(rt: HostRuntime) -> Result<(), Fail> {
    let text = make(rt.alloc(), 40, 3, 3)?;
    let scene = Scene::read(rt.alloc(), &text)?;
    let came = comes_anew(rt.alloc(), &scene);
    drop(scene);
    holds(&rt, 0, came? == 40);
    Ok(())
}
