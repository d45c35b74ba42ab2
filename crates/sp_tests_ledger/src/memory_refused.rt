//! Memory that is refused to an arrival: the engine is as it was, takes the block when it comes again, and
//! answers in the end as one that was never refused. The gate runs this with memory;
//! `rt try --test --fail-alloc N` refuses the Nth allocation. What is written has to be the same as
//! without a refusal, but that nothing is written where the scene or the engine couldn't be made.

use sp_engine::Engine;
use sp_feed::{FeedHead, Message};
use sp_play::Scene;
use sp_rows::{RowId, RowPool};
use std::alloc::Global;
use std::test::Fail;

const TALE: &[u8] = b"grant g 100 to alice
tx p spends g.0 pays 100 to bob
tx q spends g.0 pays 100 to carol
tx r spends q.0 pays 100 to dave
block A on G carries p
make B on G carries q
make C on B
make D on A C carries r
send D
send C
block E on A
send B
block F on C
";

/// Numbers in one number.
fn with(sum: u64, next: u64) -> u64 {
    (sum ^ next).wrapping_mul(0x100_0000_01b3)
}

/// What an engine says of the words, in one number.
fn words(engine: &Engine) -> u64 {
    let dag = engine.dag();
    let mut sum = with(dag.len() as u64, dag.pair_count() as u64);
    for i in 0..dag.pair_count() {
        let (x, y) = dag.pair(i);
        sum = with(sum, x as u64 * 512 + y as u64);
        sum = with(sum, engine.vote(&dag.id(x), &dag.id(y)) as u64);
    }
    sum
}

/// What it says of transactions and locks.
fn money(engine: &Engine) -> u64 {
    let mut sum = 0;
    for i in 0..engine.tx_count() {
        let (_, now) = engine.tx_at(i);
        sum = with(sum, now as u64);
    }
    for i in 0..engine.lock_count() {
        let (_, amount) = engine.lock_at(i);
        sum = with(sum, u64::try_from(amount).unwrap_or(u64::MAX));
    }
    sum
}

/// All that it answers. It takes no memory.
fn answers(engine: &Engine) -> u64 {
    let sum = with(engine.present() as u64, engine.waiting() as u64);
    let sum = with(sum, engine.kept_count() as u64);
    with(with(sum, words(engine)), money(engine))
}

fn put_row(pool: &RowPool, row: RowId, before: u64) -> u64 {
    if !pool.is_live(row) {
        return with(before, 0);
    }
    let mut sum = with(with(before, row.0 as u64), pool.count(row) as u64);
    for word in pool.words(row) {
        sum = with(sum, *word);
    }
    sum
}

/// The rows of the view of all, with their ids, words and counts, and which blocks are tips.
fn rows(engine: &Engine) -> u64 {
    let (dag, pool) = (engine.dag(), engine.row_pool());
    let mut sum = with(pool.live() as u64, engine.frozen().blocks() as u64);
    for i in 0..dag.pair_count() {
        if let Some((plus, minus)) = engine.view_all().rows(i) {
            sum = put_row(pool, minus, put_row(pool, plus, sum));
        }
    }
    for n in 0..dag.len() {
        sum = with(sum, engine.tip_view(n).is_some() as u64);
    }
    sum
}

/// Offers bytes, and where memory is refused offers them again.
fn offer(engine: &mut Engine, bytes: &[u8]) -> Result<(), Fail> {
    let before = (answers(engine), rows(engine));
    if engine.offer(bytes).is_ok() {
        return Ok(());
    }
    if (answers(engine), rows(engine)) != before {
        return Err("the engine isn't as before".into());
    }
    if engine.offer(bytes).is_err() {
        return Err("refused again".into());
    }
    Ok(())
}

/// What an engine answers when all blocks of the scene came; nothing where there was no memory for the
/// scene or for an engine.
fn told(alloc: Global) -> Result<Option<u64>, Fail> {
    let Ok(scene) = Scene::read(alloc, TALE) else {
        return Ok(None);
    };
    let Ok(
        FeedHead {
            profile,
            bits,
            genesis,
        },
    ) = scene.head()
    else {
        return Ok(None);
    };
    let Ok(mut engine) = Engine::new(alloc, genesis, bits, profile) else {
        return Ok(None);
    };
    for i in 0..scene.len() {
        if let Message::Block(bytes) = scene.message(i) {
            offer(&mut engine, bytes)?;
        }
    }
    Ok(Some(answers(&engine)))
}

#[test]
fn an_engine_is_as_before(rt: HostRuntime) -> Result<(), Fail> {
    if let Some(sum) = told(rt.alloc())? {
        println!(rt; "{sum}")?;
    }
    Ok(())
}
