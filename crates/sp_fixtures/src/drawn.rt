//! Numbers that are drawn, and with them graphs of blocks and the orders in which these come: what the
//! tests of votes, of acceptance, of certificates and of nodes stand on.

ghost use Rattle.std.specs.Prelude.{◌<◌};

use crate::blocks::Numbered;
use std::alloc::Global;
use std::test::Fail;

/// Numbers that seem to have no order, each from the one before it.
#[derive(Drop)]
pub struct Draws {
    pub last: u64,
}

impl Draws {
    /// A number below the count.
    pub fn below(&mut self, count: usize) -> usize
        requires { 0 < count }
        ensures { result < count }
    {
        let next = self.last.wrapping_mul(6_364_136_223_846_793_005);
        self.last = next.wrapping_add(1_442_695_040_888_963_407);
        (self.last >> 33) as usize % count
    }
}

/// A graph of blocks on genesis: the seed with which the draws begin, how many blocks there are, and
/// that each has at most so many parents among so many blocks before it.
pub type Shape = (u64, usize, usize, usize);

/// The parents of the block of this number, which isn't 0.
pub fn parents_of(
    alloc: Global,
    draws: &mut Draws,
    shape: &Shape,
    number: usize,
) -> Result<Vec<usize>, Fail> {
    let among = shape.3.min(number).max(1);
    let most = draws.below(shape.2.max(1));
    let mut parents = Vec::new(alloc);
    for _ in 0..=most {
        let parent = number.saturating_sub(1).saturating_sub(draws.below(among));
        if !parents.contains(&parent) {
            parents.push(parent)?;
        }
    }
    Ok(parents)
}

/// The blocks of a shape, whose salts are drawn from 0, 1 and 2, so that many blocks have the same one.
pub fn graph(alloc: Global, shape: &Shape) -> Result<Numbered, Fail> {
    let (mut draws, mut salts) = (Draws { last: shape.0 }, Draws { last: shape.0 });
    let mut blocks = Numbered::of(alloc, &[])?;
    for _ in 0..shape.1 {
        let parents = parents_of(alloc, &mut draws, shape, blocks.ids.len())?;
        blocks.add_salted(salts.below(3) as u64, &parents)?;
    }
    Ok(blocks)
}

fn shuffle(draws: &mut Draws, order: &mut Vec<usize>) {
    for place in 0..order.len() {
        let other = draws.below(order.len());
        order.swap(place, other);
    }
}

/// The numbers of the blocks of a shape: as they were made, the last one first, or drawn.
pub fn order(alloc: Global, shape: &Shape, which: usize) -> Result<Vec<usize>, Fail> {
    let mut order = Vec::new(alloc);
    for number in 0..shape.1 {
        order.push(number.saturating_add(1))?;
    }
    match which {
        0 => {}
        1 => order.reverse(),
        _ => shuffle(&mut Draws { last: shape.0 }, &mut order),
    }
    Ok(order)
}
