//! Shapes of 60 blocks that are hard on an engine's votes, since each has many pairs, many tips or many parents:
//! the view of all is compared with the plain votes of all blocks after each arrival.

use crate::beside::{beside, follow, votes_so};
use crate::engines::{come, engine_of};
use crate::graphs::{blocks_of, ordered};
use crate::rows::right;
use sp_bits::Row;
use sp_engine::Engine;
use sp_fixtures::Numbered;
use sp_model::Profile;
use sp_plain::Plain;
use std::alloc::Global;
use std::process::Abort;
use std::test::Fail;

/// What the blocks of a shape stand on.
#[derive(Clone, Copy)]
enum Kind {
    /// Layers of so many blocks, each block on all of the layer below, and those of the first on genesis. A
    /// star is one layer.
    Layers(u64),
    /// So many chains on genesis, to which the blocks are added in turns.
    Chains(u64),
    /// So many blocks on genesis, and each other one on so many of the latest.
    Crowd(u64, u64),
}

/// The lowest parent of a block and the highest.
fn span(kind: Kind, number: u64) -> (u64, u64) {
    match kind {
        Kind::Layers(width) => {
            let below = number.saturating_sub(1) / width.max(1);
            let top = below.saturating_mul(width);
            (top.saturating_sub(width).saturating_add(1).min(top), top)
        }
        Kind::Chains(count) => {
            let parent = number.saturating_sub(count);
            (parent, parent)
        }
        Kind::Crowd(first, most) => {
            if number <= first {
                (0, 0)
            } else {
                (number.saturating_sub(most), number.saturating_sub(1))
            }
        }
    }
}

/// The parents of each block of a shape by its number.
fn shaped(alloc: Global, kind: Kind, blocks: u64) -> Result<Vec<Row>, Fail> {
    let mut graph = Vec::new(alloc);
    graph.push(Row::empty())?;
    for number in 1..=blocks {
        let (low, high) = span(kind, number);
        let mut parents = Row::empty();
        for parent in low..=high {
            parents.set((parent % 512) as u16);
        }
        graph.push(parents)?;
    }
    Ok(graph)
}

/// The shapes, with the number of their blocks, and the order in which these come: 0 is that of their
/// numbers, 1 has the highest that can come first, so that one chain comes after another, and 2 is drawn.
const SHAPES: &[(Kind, u64, u8)] = &[
    (Kind::Layers(60), 60, 0),
    (Kind::Layers(20), 60, 2),
    (Kind::Layers(7), 60, 0),
    (Kind::Chains(2), 60, 0),
    (Kind::Chains(2), 60, 1),
    (Kind::Crowd(30, 20), 60, 0),
];

/// Whether the view of all is right after each block, as these come in an order.
fn is_right(
    alloc: Global,
    engine: &mut Engine,
    plain: &mut Plain,
    blocks: &Numbered,
    order: &[u8],
) -> Result<bool, Fail> {
    for number in order {
        come(engine, blocks, *number as usize)?;
        follow(plain, engine, blocks.id(*number as usize))?;
        if !votes_so(alloc, engine, plain)? {
            return Ok(false);
        }
    }
    Ok(engine.present() as usize == blocks.ids.len())
}

/// Whether it is, from genesis on.
fn is_right_from(
    alloc: Global,
    engine: &mut Engine,
    blocks: &Numbered,
    order: &[u8],
    profile: Profile,
) -> Result<bool, Fail> {
    let mut plain = beside(alloc, engine, profile)?;
    let right = is_right(alloc, engine, &mut plain, blocks, order);
    drop(plain);
    right
}

/// What is wrong with a shape in a profile; nothing where all is right.
fn wrong_of(
    alloc: Global,
    shape: &(Kind, u64, u8),
    profile: Profile,
) -> Result<&'static str, Fail> {
    let (kind, blocks, order) = *shape;
    let graph = shaped(alloc, kind, blocks)?;
    let named = blocks_of(alloc, &graph, blocks)?;
    let numbers = ordered(alloc, &graph, order, blocks)?;
    if numbers.len() as u64 != blocks {
        return Ok("the order");
    }
    let mut engine = engine_of(alloc, &named, profile)?;
    let right = is_right_from(alloc, &mut engine, &named, &numbers, profile);
    drop(engine);
    Ok(if right? { "" } else { "the view of all" })
}

/// Judges each shape in a profile.
fn judge(rt: &impl Abort, alloc: Global, profile: Profile) -> Result<(), Fail> {
    for (row, shape) in SHAPES.iter().enumerate() {
        right(rt, row, wrong_of(alloc, shape, profile)?);
    }
    Ok(())
}

#[test]
fn kept_ties(rt: HostRuntime) -> Result<(), Fail> {
    judge(&rt, rt.alloc(), Profile::One)
}

#[test]
fn settled_ties(rt: HostRuntime) -> Result<(), Fail> {
    judge(&rt, rt.alloc(), Profile::Two)
}
