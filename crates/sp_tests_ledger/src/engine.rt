//! An engine of genesis alone, the bytes that come to it, and what it says of them then: each test of
//! the engine runs one here.

use sp_engine::{Answer, Engine, Refusal};
use sp_fixtures::genesis_of;
use sp_ids::BlockId;
use sp_model::{Profile, Word};
use std::alloc::Global;
use std::test::Fail;

/// An engine of genesis alone, whose voters keep the ties of their pasts.
pub fn engine_of(alloc: Global, genesis: &[u8], bits: u8) -> Result<Engine, Fail> {
    if bits > 64 {
        return Err("more than 64 bits".into());
    }
    Ok(Engine::new(alloc, genesis_of(alloc, genesis)?, bits, Profile::One)?)
}

/// An answer, without the id of the block that came.
#[derive(Clone, Copy, PartialEq, Eq)]
pub enum Told {
    Kept(u16),
    Held,
    Known,
    Full,
    Refused(Refusal),
    /// The answer names another block than the one that came.
    Astray,
}

/// The id that an answer names, or else that of the block that came.
fn named(answer: &Answer, came: &BlockId) -> BlockId {
    match answer {
        Answer::Kept { id, present: _ } => *id,
        Answer::Held { id } => *id,
        Answer::Known { id } => *id,
        Answer::Refused(_) => *came,
        Answer::Full => *came,
    }
}

fn told_of(answer: &Answer, came: &BlockId) -> Told {
    if named(answer, came) != *came {
        return Told::Astray;
    }
    match answer {
        Answer::Kept { id: _, present } => Told::Kept(*present),
        Answer::Held { id: _ } => Told::Held,
        Answer::Known { id: _ } => Told::Known,
        Answer::Refused(why) => Told::Refused(*why),
        Answer::Full => Told::Full,
    }
}

/// How many blocks are present, wait and are kept.
pub type Counts = (u16, u16, u16);

/// What an engine told of all that came, and what it says then of some ids: the salt of the block
/// that is kept of each, and the word on each two, row by row.
pub struct Ran {
    pub told: Vec<Told>,
    pub bits: u8,
    pub genesis: BlockId,
    pub counts: Counts,
    pub order: Vec<BlockId>,
    pub salts: Vec<Option<u64>>,
    pub words: Vec<Word>,
}

impl Drop for Ran {
    fn drop(self) {
        let _words = self.into_words();
    }
}

impl Ran {
    /// The words alone.
    pub fn into_words(self) -> Vec<Word> {
        let Ran {
            told,
            bits: _,
            genesis: _,
            counts: _,
            order,
            salts,
            words,
        } = self;
        drop(told);
        drop(order);
        drop(salts);
        words
    }
}

/// Bytes come to an engine.
pub fn offer(engine: &mut Engine, bytes: &[u8]) -> Result<Told, Fail> {
    let answer = engine.offer(bytes)?;
    Ok(told_of(&answer, &BlockId::of(bytes)))
}

fn offer_each(alloc: Global, engine: &mut Engine, came: &[Vec<u8>]) -> Result<Vec<Told>, Fail> {
    let mut told = Vec::new(alloc);
    for bytes in came {
        told.push(offer(engine, bytes)?)?;
    }
    Ok(told)
}

/// What the engine says of two blocks, if it says so by their numbers too.
fn word(engine: &Engine, x: &BlockId, y: &BlockId) -> Result<Word, Fail> {
    let word = engine.vote(x, y);
    let by_number = match (engine.number(x), engine.number(y)) {
        (Some(first), Some(second)) => engine.vote_at(first, second),
        _ => Word::Absent,
    };
    if by_number != word {
        return Err("another word by the numbers".into());
    }
    Ok(word)
}

fn words(engine: &Engine, ids: &[BlockId], words: &mut Vec<Word>) -> Result<(), Fail> {
    for x in ids {
        for y in ids {
            words.push(word(engine, x, y)?)?;
        }
    }
    Ok(())
}

fn salt(engine: &Engine, id: &BlockId) -> Result<Option<u64>, Fail> {
    Ok(engine.block(id).map(|block| block.salt))
}

fn salts(engine: &Engine, ids: &[BlockId], salts: &mut Vec<Option<u64>>) -> Result<(), Fail> {
    for id in ids {
        salts.push(salt(engine, id)?)?;
    }
    Ok(())
}

fn counts(engine: &Engine) -> Result<Counts, Fail> {
    Ok((engine.present(), engine.waiting(), engine.kept_count()))
}

fn id_at(engine: &Engine, n: u16) -> Result<BlockId, Fail> {
    if n >= engine.present() {
        return Err("not present".into());
    }
    Ok(engine.id_at(n))
}

fn order(engine: &Engine, present: u16, ids: &mut Vec<BlockId>) -> Result<(), Fail> {
    for n in 0..present {
        ids.push(id_at(engine, n)?)?;
    }
    Ok(())
}

fn head(engine: &Engine) -> Result<(u8, BlockId), Fail> {
    Ok((engine.bits(), engine.genesis().id))
}

/// What an engine told, its head and its counts.
fn stands(alloc: Global, engine: &Engine, told: Vec<Told>) -> Result<Ran, Fail> {
    let (bits, genesis) = head(engine)?;
    let counts = counts(engine)?;
    Ok(Ran {
        told,
        bits,
        genesis,
        counts,
        order: Vec::new(alloc),
        salts: Vec::new(alloc),
        words: Vec::new(alloc),
    })
}

/// Adds what it says of the ids.
fn add_said(engine: &Engine, ids: &[BlockId], ran: &mut Ran) -> Result<(), Fail> {
    order(engine, ran.counts.0, &mut ran.order)?;
    salts(engine, ids, &mut ran.salts)?;
    words(engine, ids, &mut ran.words)
}

/// What an engine says at the end.
fn ends(alloc: Global, engine: &Engine, told: Vec<Told>, ids: &[BlockId]) -> Result<Ran, Fail> {
    let mut ran = stands(alloc, engine, told)?;
    add_said(engine, ids, &mut ran)?;
    Ok(ran)
}

fn runs(
    alloc: Global,
    engine: &mut Engine,
    came: &[Vec<u8>],
    ids: &[BlockId],
) -> Result<Ran, Fail> {
    let told = offer_each(alloc, engine, came)?;
    ends(alloc, engine, told, ids)
}

/// Bytes come to an engine of this genesis block and these bits of work.
pub fn run(
    alloc: Global,
    genesis: &[u8],
    bits: u8,
    came: &[Vec<u8>],
    ids: &[BlockId],
) -> Result<Ran, Fail> {
    let mut engine = engine_of(alloc, genesis, bits)?;
    let ran = runs(alloc, &mut engine, came, ids);
    drop(engine);
    ran
}
