//! Questions to an engine, all pairs and the report, against texts written out by hand.

use crate::fixtures::{CHILD_ID, GENESIS_ID, NOBODY_ID as NOBODY, child_of, read_id};
use crate::rows::right;
use crate::tale::{Tale, is_whole, wrong_in};
use sp_engine::Engine;
use sp_fixtures::{GENESIS, genesis_of};
use sp_ids::Lock;
use sp_model::Profile;
use sp_report::{Ask, Text};
use std::alloc::Global;
use std::test::Fail;

/// The ids of two blocks, and the line of what is said of them.
#[derive(Clone, Copy)]
struct Said(&'static str, &'static str, &'static str);

const QUESTIONS: &[Said] = &[
    Said(
        GENESIS_ID,
        CHILD_ID,
        "vote 21fc3f955c14305ed66b2f6064de082e8447f29048da3ab7c5c01090c1b722ab \
         ebc352d52d8a2d8f607bc82f6edc468679599eb0e8a8429d88c82e4cffb62854 before\n",
    ),
    Said(
        CHILD_ID,
        GENESIS_ID,
        "vote ebc352d52d8a2d8f607bc82f6edc468679599eb0e8a8429d88c82e4cffb62854 \
         21fc3f955c14305ed66b2f6064de082e8447f29048da3ab7c5c01090c1b722ab after\n",
    ),
    Said(
        CHILD_ID,
        CHILD_ID,
        "vote ebc352d52d8a2d8f607bc82f6edc468679599eb0e8a8429d88c82e4cffb62854 \
         ebc352d52d8a2d8f607bc82f6edc468679599eb0e8a8429d88c82e4cffb62854 same\n",
    ),
    Said(
        NOBODY,
        GENESIS_ID,
        "vote 0000000000000000000000000000000000000000000000000000000000000000 \
         21fc3f955c14305ed66b2f6064de082e8447f29048da3ab7c5c01090c1b722ab absent\n",
    ),
];

/// A block comes to an engine.
fn offer(engine: &mut Engine, bytes: &[u8]) -> Result<(), Fail> {
    let _answer = engine.offer(bytes)?;
    Ok(())
}

fn question(said: &Said) -> Result<Ask, Fail> {
    Ok(Ask::Vote(read_id(said.0)?, read_id(said.1)?))
}

fn wrong_asked(
    alloc: Global,
    engine: &Engine,
    ask: &Ask,
    text: &str,
) -> Result<&'static str, Fail> {
    let tale = Tale::Ask(engine, ask);
    wrong_in(alloc, &tale, text)
}

fn wrong_question(alloc: Global, engine: &Engine, said: &Said) -> Result<&'static str, Fail> {
    wrong_asked(alloc, engine, &question(said)?, said.2)
}

/// What is wrong with the first of the questions that isn't answered rightly.
fn wrong_questions(alloc: Global, engine: &mut Engine) -> Result<&'static str, Fail> {
    offer(engine, &child_of(alloc, 1, GENESIS_ID, 0)?)?;
    for said in QUESTIONS {
        let wrong = wrong_question(alloc, engine, said)?;
        if !wrong.is_empty() {
            return Ok(wrong);
        }
    }
    Ok("")
}

/// An engine of this genesis block alone, which asks for no work.
fn engine_of(alloc: Global, genesis: &[u8]) -> Result<Engine, Fail> {
    Ok(Engine::new(alloc, genesis_of(alloc, genesis)?, 0, Profile::One)?)
}

fn wrong_questions_anew(alloc: Global) -> Result<&'static str, Fail> {
    let mut engine = engine_of(alloc, &GENESIS)?;
    let wrong = wrong_questions(alloc, &mut engine);
    drop(engine);
    wrong
}

/// Asked of the smallest genesis block and the block of salt 1 on it.
#[test]
fn questions(rt: HostRuntime) -> Result<(), Fail> {
    right(&rt, 0, wrong_questions_anew(rt.alloc())?);
    Ok(())
}

/// Of the smallest genesis block and the block of salt 1 on it, whose id is the greater.
const PAIRS: &str = "pairs 1\n\
     vote 21fc3f955c14305ed66b2f6064de082e8447f29048da3ab7c5c01090c1b722ab \
     ebc352d52d8a2d8f607bc82f6edc468679599eb0e8a8429d88c82e4cffb62854 before\n";

fn wrong_pairs(alloc: Global, engine: &mut Engine) -> Result<&'static str, Fail> {
    let alone = Tale::Text(engine, &Text::Pairs);
    if !is_whole(alloc, &alone, 1, "pairs 0\n")? {
        return Ok("alone");
    }
    offer(engine, &child_of(alloc, 1, GENESIS_ID, 0)?)?;
    wrong_in(alloc, &Tale::Text(engine, &Text::Pairs), PAIRS)
}

fn wrong_pairs_anew(alloc: Global) -> Result<&'static str, Fail> {
    let mut engine = engine_of(alloc, &GENESIS)?;
    let wrong = wrong_pairs(alloc, &mut engine);
    drop(engine);
    wrong
}

#[test]
fn pairs(rt: HostRuntime) -> Result<(), Fail> {
    right(&rt, 0, wrong_pairs_anew(rt.alloc())?);
    Ok(())
}

/// The lock of `abc`.
const LOCK: &str = "ba7816bf8f01cfea414140de5dae2223b00361a396177a9cb410ff61f20015ad";

/// The genesis block whose one transaction gives 100 to that lock. Its ids are SHA-256 by another
/// program.
#[rattlefmt::skip]
const GRANTING: &[u8] = &[
    1, 0, 0, 0, 0, 0, 0, 0, 0, 0, 0, 0, 0, 0, 0, 0, 0, 0, 1, 0,
    0, 1, 100, 0, 0, 0, 0, 0, 0, 0,
    0xba, 0x78, 0x16, 0xbf, 0x8f, 0x01, 0xcf, 0xea, 0x41, 0x41, 0x40, 0xde, 0x5d, 0xae, 0x22, 0x23,
    0xb0, 0x03, 0x61, 0xa3, 0x96, 0x17, 0x7a, 0x9c, 0xb4, 0x10, 0xff, 0x61, 0xf2, 0x00, 0x15, 0xad,
];

const REPORT: &str = "blocks 1 waiting 1\n\
     accepted 1\n\
     tx fc3df441fd5d999445034b5cd3e3b90e8abf59fa1bcf799ebde99bb336af0382 accepted\n\
     balances 1\n\
     balance ba7816bf8f01cfea414140de5dae2223b00361a396177a9cb410ff61f20015ad 100\n";

const BALANCES: &[(&str, &str)] = &[
    (
        LOCK,
        "balance ba7816bf8f01cfea414140de5dae2223b00361a396177a9cb410ff61f20015ad 100\n",
    ),
    (
        NOBODY,
        "balance 0000000000000000000000000000000000000000000000000000000000000000 0\n",
    ),
];

fn wrong_balance(
    alloc: Global,
    engine: &Engine,
    lock: &str,
    text: &str,
) -> Result<&'static str, Fail> {
    let lock = Lock::from_bytes(*read_id(lock)?.as_bytes());
    wrong_in(alloc, &Tale::Ask(engine, &Ask::Balance(lock)), text)
}

fn wrong_report(alloc: Global, engine: &mut Engine) -> Result<&'static str, Fail> {
    offer(engine, &child_of(alloc, 0, NOBODY, 0)?)?;
    for (lock, text) in BALANCES {
        let wrong = wrong_balance(alloc, engine, lock, text)?;
        if !wrong.is_empty() {
            return Ok(wrong);
        }
    }
    wrong_in(alloc, &Tale::Text(engine, &Text::Report), REPORT)
}

fn wrong_report_anew(alloc: Global) -> Result<&'static str, Fail> {
    let mut engine = engine_of(alloc, GRANTING)?;
    let wrong = wrong_report(alloc, &mut engine);
    drop(engine);
    wrong
}

/// Of that genesis block and a block that waits.
#[test]
fn report_of_a_grant(rt: HostRuntime) -> Result<(), Fail> {
    right(&rt, 0, wrong_report_anew(rt.alloc())?);
    Ok(())
}
