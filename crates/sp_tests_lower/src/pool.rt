//! Blocks offered in orders that were worked out by hand, a full pool, and a chain that comes from
//! its end.

ghost use Rattle.std.specs.Prelude.{All, IfOk};
ghost use Rattle.sp_block.specs.Block.{IsOther};

use crate::rows::holds;
use sp_block::{Block, read_block};
use sp_fixtures::{Numbered, genesis_of};
use sp_ids::BlockId;
use sp_pool::{Offer, Pool, Standing, offer_all};
use std::alloc::Global;
use std::test::Fail;

/// What is answered to an offer, with the number of blocks that become present.
#[derive(Clone, Copy, PartialEq, Eq)]
enum Told {
    Known,
    Full,
    Waiting,
    Present(usize),
}

/// How many blocks are kept, and how many of them wait.
type Counts = (u16, u16);

/// What a pool answered to each offer, how many blocks were kept after each, and all that became
/// present, in their order.
#[derive(Drop)]
struct Ran {
    told: Vec<Told>,
    counts: Vec<Counts>,
    order: Vec<BlockId>,
}

/// What is known of an id: its standing, the salt of its block, and whether that is present.
type Look = (Standing, Option<u64>, bool);

fn look(pool: &Pool, id: &BlockId) -> Look {
    let salt = pool.block(id).map(|block| block.salt);
    (pool.standing(id), salt, pool.is_present(id))
}

fn other_of(alloc: Global, bytes: &[u8]) -> Result<Block, Fail>
    ensures { IfOk result IsOther }
{
    Ok(read_block(alloc, bytes, false)?)
}

fn offer(
    alloc: Global,
    pool: &mut Pool,
    bytes: &[u8],
    order: &mut Vec<BlockId>,
) -> Result<Told, Fail> {
    match pool.offer(other_of(alloc, bytes)?)? {
        Offer::Known => Ok(Told::Known),
        Offer::Full => Ok(Told::Full),
        Offer::Waiting => Ok(Told::Waiting),
        Offer::Present(ids) => {
            order.extend_from_slice(ids.as_slice())?;
            Ok(Told::Present(ids.as_slice().len()))
        }
    }
}

fn offer_each(alloc: Global, pool: &mut Pool, came: &[Vec<u8>]) -> Result<Ran, Fail> {
    let mut told = Vec::new(alloc);
    let mut counts = Vec::new(alloc);
    let mut order = Vec::new(alloc);
    for bytes in came {
        told.push(offer(alloc, pool, bytes, &mut order)?)?;
        counts.push((pool.kept(), pool.waiting()))?;
    }
    Ok(Ran {
        told,
        counts,
        order,
    })
}

fn pool_of(blocks: &Numbered) -> Result<Pool, Fail> {
    Ok(Pool::new(blocks.alloc, genesis_of(blocks.alloc, blocks.text(0))?)?)
}

fn run(blocks: &Numbered, numbers: &[usize]) -> Result<Ran, Fail> {
    let came = blocks.chosen(numbers)?;
    let mut pool = pool_of(blocks)?;
    offer_each(blocks.alloc, &mut pool, &came)
}

/// Whether just these blocks became present, in this order.
fn are_ordered(blocks: &Numbered, order: &[BlockId], numbers: &[usize]) -> bool {
    order.len() == numbers.len()
        && order
            .iter()
            .zip(numbers)
            .all(|(id, number)| *id == blocks.id(*number))
}

struct Row {
    /// The parents of each block, from number 1 on.
    parents: &'static [&'static [usize]],
    /// The blocks that are offered, and the answers.
    offers: &'static [usize],
    told: &'static [Told],
    /// The blocks that become present, in their order.
    order: &'static [usize],
}

#[rattlefmt::skip]
const ROWS: &[Row] = &[
    // A child before its parent, and its parent twice.
    Row {
        parents: &[&[0], &[1]],
        offers: &[2, 1, 1],
        told: &[Told::Waiting, Told::Present(2), Told::Known],
        order: &[1, 2],
    },
    // Two missing parents, in both orders.
    Row {
        parents: &[&[0], &[0], &[1, 2]],
        offers: &[3, 1, 2],
        told: &[Told::Waiting, Told::Present(1), Told::Present(2)],
        order: &[1, 2, 3],
    },
    Row {
        parents: &[&[0], &[0], &[1, 2]],
        offers: &[3, 2, 1],
        told: &[Told::Waiting, Told::Present(1), Told::Present(2)],
        order: &[2, 1, 3],
    },
    // The earliest kept block first, even where a later one was ready before it.
    Row {
        parents: &[&[0], &[1], &[2], &[1]],
        offers: &[3, 2, 4, 1],
        told: &[Told::Waiting, Told::Waiting, Told::Waiting, Told::Present(4)],
        order: &[1, 2, 3, 4],
    },
    Row {
        parents: &[&[0], &[1], &[2], &[1]],
        offers: &[3, 4, 2, 1],
        told: &[Told::Waiting, Told::Waiting, Told::Waiting, Told::Present(4)],
        order: &[1, 4, 2, 3],
    },
    // A parent that never comes.
    Row {
        parents: &[&[0], &[1], &[2], &[0]],
        offers: &[2, 3, 4, 2],
        told: &[Told::Waiting, Told::Waiting, Told::Present(1), Told::Known],
        order: &[4],
    },
];

fn is_told(alloc: Global, row: &Row) -> Result<bool, Fail> {
    let blocks = Numbered::of(alloc, row.parents)?;
    let ran = run(&blocks, row.offers)?;
    Ok(ran.told.as_slice() == row.told && are_ordered(&blocks, &ran.order, row.order))
}

#[test]
fn offers_in_any_order(rt: HostRuntime) -> Result<(), Fail> {
    for (place, row) in ROWS.iter().enumerate() {
        holds(&rt, place, is_told(rt.alloc(), row)?);
    }
    Ok(())
}

/// The numbers from one up to another.
fn span(alloc: Global, first: usize, end: usize) -> Result<Vec<usize>, Fail> {
    let mut numbers = Vec::new(alloc);
    for number in first..end {
        numbers.push(number)?;
    }
    Ok(numbers)
}

/// 511 blocks, each of which stands on so many before it, or on all where they are fewer.
fn on_those_before(alloc: Global, most: usize) -> Result<Numbered, Fail> {
    let mut blocks = Numbered::of(alloc, &[])?;
    for number in 1..512usize {
        blocks.add(&span(alloc, number.saturating_sub(most), number)?)?;
    }
    Ok(blocks)
}

/// Whether all wait for the last one, which makes all present. So many are kept then.
fn are_released(blocks: &Numbered, ran: &Ran, numbers: &[usize]) -> bool {
    let waited = |told: &Told| *told == Told::Waiting;
    let (waiting, last) = ran.told.split_at(ran.told.len().min(510));
    waiting.iter().all(waited)
        && last == [Told::Present(511)].as_slice()
        && ran.counts.get(509) == Some(&(511, 510))
        && ran.counts.get(510) == Some(&(512, 0))
        && are_ordered(blocks, &ran.order, numbers)
}

/// The blocks come from the last one on.
fn from_the_end(alloc: Global, most: usize) -> Result<bool, Fail> {
    let blocks = on_those_before(alloc, most)?;
    let numbers = span(alloc, 1, 512)?;
    let mut back = span(alloc, 1, 512)?;
    back.reverse();
    let ran = run(&blocks, &back)?;
    Ok(are_released(&blocks, &ran, &numbers))
}

/// A chain, and blocks of as many parents as a block may have.
#[test]
fn long_and_wide_blocks_from_their_end(rt: HostRuntime) -> Result<(), Fail> {
    for most in [1usize, 64] {
        holds(&rt, most, from_the_end(rt.alloc(), most)?);
    }
    Ok(())
}

/// 513 blocks on genesis.
fn too_many(alloc: Global) -> Result<Numbered, Fail> {
    let mut blocks = Numbered::of(alloc, &[])?;
    for _ in 1..514usize {
        blocks.add(&[0])?;
    }
    Ok(blocks)
}

/// All of them come, and the first one again.
fn fill(blocks: &Numbered, pool: &mut Pool) -> Result<Ran, Fail> {
    let mut numbers = span(blocks.alloc, 1, 514)?;
    numbers.push(1)?;
    let came = blocks.chosen(&numbers)?;
    offer_each(blocks.alloc, pool, &came)
}

fn are_filled(told: &[Told]) -> bool {
    let (kept, last) = told.split_at(told.len().min(511));
    kept.iter().all(|one| *one == Told::Present(1))
        && last == [Told::Full, Told::Full, Told::Known].as_slice()
}

/// Whether the first 511 are kept, each present at once, and then no more.
fn is_filled(blocks: &Numbered, pool: &mut Pool) -> Result<bool, Fail> {
    let ran = fill(blocks, pool)?;
    let numbers = span(blocks.alloc, 1, 512)?;
    Ok(are_filled(&ran.told) && are_ordered(blocks, &ran.order, &numbers))
}

#[test]
fn a_full_pool(rt: HostRuntime) -> Result<(), Fail> {
    let blocks = too_many(rt.alloc())?;
    let mut pool = pool_of(&blocks)?;
    holds(&rt, 0, is_filled(&blocks, &mut pool)?);
    holds(
        &rt,
        1,
        look(&pool, &blocks.id(0)) == (Standing::Known, Some(0), true),
    );
    holds(
        &rt,
        2,
        look(&pool, &blocks.id(513)) == (Standing::Full, None, false),
    );
    Ok(())
}

/// 2, which waits for 1, and then that.
fn pair(blocks: &Numbered) -> Result<Vec<Block>, Fail>
    ensures { IfOk result (λ blocks. All IsOther blocks.items) }
{
    let mut list = Vec::new(blocks.alloc);
    list.push(other_of(blocks.alloc, blocks.text(2))?)?;
    list.push(other_of(blocks.alloc, blocks.text(1))?)?;
    Ok(list)
}

fn pool_of_pair(blocks: &Numbered) -> Result<(Pool, Vec<Offer>), Fail> {
    let genesis = genesis_of(blocks.alloc, blocks.text(0))?;
    Ok(offer_all(blocks.alloc, genesis, pair(blocks)?)?)
}

/// Whether the first waited, and the second made both present.
fn are_answers(blocks: &Numbered, answers: &[Offer]) -> bool {
    match answers {
        [Offer::Waiting, Offer::Present(ids)] => are_ordered(blocks, ids.as_slice(), &[1, 2]),
        _ => false,
    }
}

/// Whether 3 comes to wait, since its parent isn't there.
fn comes_to_wait(blocks: &Numbered, pool: &mut Pool) -> Result<bool, Fail> {
    let id = blocks.id(3);
    let before = (look(pool, &id), pool.kept(), pool.waiting());
    let told = offer(
        blocks.alloc,
        pool,
        blocks.text(3),
        &mut Vec::new(blocks.alloc),
    )?;
    let after = (look(pool, &id), pool.kept(), pool.waiting());
    Ok(
        told == Told::Waiting
            && before == ((Standing::Fresh, None, false), 3, 0)
            && after == ((Standing::Known, Some(3), false), 4, 1),
    )
}

#[test]
fn kept_and_waiting_blocks(rt: HostRuntime) -> Result<(), Fail> {
    let blocks = Numbered::of(rt.alloc(), &[&[0], &[1], &[999]])?;
    let (mut pool, answers) = pool_of_pair(&blocks)?;
    holds(&rt, 0, are_answers(&blocks, &answers));
    holds(&rt, 1, comes_to_wait(&blocks, &mut pool)?);
    Ok(())
}
