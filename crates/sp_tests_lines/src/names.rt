//! Lines and texts by names, written down by hand: what has a name and what has none, what stands
//! first, and what names of another kind don't change.

use crate::fixtures::{NOBODY_ID as NOBODY, ORPHAN_ID as ORPHAN, child_of, read_id};
use crate::plain::PlainNode;
use crate::rows::{holds, right};
use sp_engine::{Answer, Engine};
use sp_feed::{FeedHead, Message};
use sp_fixtures::genesis_of;
use sp_ids::{BlockId, Lock, TxId};
use sp_io::{Fails, MemSink};
use sp_model::Profile;
use sp_names::{Name, Names};
use sp_report::{Ask, Naming, Text, answer_line, ask_line, present_ids, write_text};
use std::alloc::Global;
use std::test::Fail;

/// A genesis block whose two transactions give 100 to the lock of `abc` and 7 to the lock of `d`.
/// Its ids and those of its children are SHA-256 by another program.
#[rattlefmt::skip]
const GRANTING: &[u8] = &[
    1, 0, 0, 0, 0, 0, 0, 0, 0, 0, 0, 0, 0, 0, 0, 0, 0, 0, 2, 0,
    0, 1, 100, 0, 0, 0, 0, 0, 0, 0,
    0xba, 0x78, 0x16, 0xbf, 0x8f, 0x01, 0xcf, 0xea, 0x41, 0x41, 0x40, 0xde, 0x5d, 0xae, 0x22, 0x23,
    0xb0, 0x03, 0x61, 0xa3, 0x96, 0x17, 0x7a, 0x9c, 0xb4, 0x10, 0xff, 0x61, 0xf2, 0x00, 0x15, 0xad,
    0, 1, 7, 0, 0, 0, 0, 0, 0, 0,
    0x18, 0xac, 0x3e, 0x73, 0x43, 0xf0, 0x16, 0x89, 0x0c, 0x51, 0x0e, 0x93, 0xf9, 0x35, 0x26, 0x11,
    0x69, 0xd9, 0xe3, 0xf5, 0x65, 0x43, 0x64, 0x29, 0x83, 0x0f, 0xaf, 0x09, 0x34, 0xf4, 0xf8, 0xe4,
];

const GENESIS: &str = "fd40dcd73df9417d0a9acb50d120a5e9892efa3bb46b00822b3045412e5938fc";

/// The block of salt 1 on it.
const FIRST: &str = "20f389af91314dbcb21f98a7c2f4ddb17333a1fa311298133209fc9c3235bf54";

/// The block of salt 2 on it.
const SECOND: &str = "b885157f7783871b17fc03e47612a00f7a49106ebb6dc963f0bd6b3b118a5f6c";

/// The block of salt 3 on it.
const THIRD: &str = "42210b40e2dee059936ed13a6d3ed08d156f788b4b5f98f9fb7a6f46de34d725";

/// The transaction that gives 100.
const HUNDRED: &str = "fc3df441fd5d999445034b5cd3e3b90e8abf59fa1bcf799ebde99bb336af0382";

/// The transaction that gives 7.
const SEVEN: &str = "797f89a707d1138ed1e82f0becb03bf9c889abbb9aaac3b9ec28e1ec185a7f1e";

/// The lock of `abc`.
const ABC: &str = "ba7816bf8f01cfea414140de5dae2223b00361a396177a9cb410ff61f20015ad";

fn tx_id(text: &str) -> Result<TxId, Fail> {
    Ok(TxId::from_bytes(*read_id(text)?.as_bytes()))
}

fn lock(text: &str) -> Result<Lock, Fail> {
    Ok(Lock::from_bytes(*read_id(text)?.as_bytes()))
}

/// An id that no block has comes first, then the second child, and then genesis; neither the first
/// child nor the third has a name. Transactions are named against the order of their ids, and one
/// lock alone has a name.
fn give_names(names: &mut Names) -> Result<(), Fail> {
    names.add_block(read_id(NOBODY)?, Name::of(b"nobody"))?;
    names.add_block(read_id(SECOND)?, Name::of(b"late"))?;
    names.add_block(read_id(GENESIS)?, Name::of(b"G"))?;
    names.add_block(read_id(SECOND)?, Name::of(b"later"))?;
    names.add_tx(tx_id(HUNDRED)?, Name::of(b"hundred"))?;
    names.add_tx(tx_id(SEVEN)?, Name::of(b"seven"))?;
    names.add_lock(lock(ABC)?, Name::of(b"abc"))?;
    Ok(())
}

fn names_of(alloc: Global) -> Result<Names, Fail> {
    let mut names = Names::new(alloc);
    give_names(&mut names)?;
    Ok(names)
}

/// What is told.
#[derive(Clone, Copy)]
enum Row {
    Kept(&'static str),
    Held(&'static str),
    Known(&'static str),
    Vote(&'static str, &'static str),
    Tx(&'static str),
    Balance(&'static str),
    Pairs,
    Report,
}

const ROWS: &[(Row, &str)] = &[
    (Row::Kept(SECOND), "kept late present 1\n"),
    (
        Row::Kept(FIRST),
        "kept 20f389af91314dbcb21f98a7c2f4ddb17333a1fa311298133209fc9c3235bf54 present 1\n",
    ),
    (Row::Held(SECOND), "kept late waiting\n"),
    (Row::Known(GENESIS), "known G\n"),
    (Row::Vote(SECOND, GENESIS), "vote late G after\n"),
    (
        Row::Vote(NOBODY, FIRST),
        "vote nobody 20f389af91314dbcb21f98a7c2f4ddb17333a1fa311298133209fc9c3235bf54 absent\n",
    ),
    (
        Row::Vote(ORPHAN, GENESIS),
        "vote c5b1bd0534920e7fd27451247e04f3db827c371b14571c94a01eaf40b58e00f5 G absent\n",
    ),
    (Row::Tx(SEVEN), "tx seven accepted\n"),
    // The name is a block's.
    (
        Row::Tx(NOBODY),
        "tx 0000000000000000000000000000000000000000000000000000000000000000 absent\n",
    ),
    (Row::Balance(ABC), "balance abc 100\n"),
    (
        Row::Balance(NOBODY),
        "balance 0000000000000000000000000000000000000000000000000000000000000000 0\n",
    ),
    (
        Row::Balance(HUNDRED),
        "balance fc3df441fd5d999445034b5cd3e3b90e8abf59fa1bcf799ebde99bb336af0382 0\n",
    ),
    (
        Row::Pairs,
        "pairs 6\n\
         vote late G after\n\
         vote late 20f389af91314dbcb21f98a7c2f4ddb17333a1fa311298133209fc9c3235bf54 tie\n\
         vote late 42210b40e2dee059936ed13a6d3ed08d156f788b4b5f98f9fb7a6f46de34d725 tie\n\
         vote G 20f389af91314dbcb21f98a7c2f4ddb17333a1fa311298133209fc9c3235bf54 before\n\
         vote G 42210b40e2dee059936ed13a6d3ed08d156f788b4b5f98f9fb7a6f46de34d725 before\n\
         vote 20f389af91314dbcb21f98a7c2f4ddb17333a1fa311298133209fc9c3235bf54 \
         42210b40e2dee059936ed13a6d3ed08d156f788b4b5f98f9fb7a6f46de34d725 tie\n",
    ),
    (
        Row::Report,
        "blocks 4 waiting 1\n\
         accepted 2\n\
         tx hundred accepted\n\
         tx seven accepted\n\
         balances 2\n\
         balance abc 100\n\
         balance 18ac3e7343f016890c510e93f935261169d9e3f565436429830faf0934f4f8e4 7\n",
    ),
];

/// Whether an answer's line could be written by these names, and so below.
fn answered(answer: &Answer, names: &Names, sink: &mut MemSink) -> bool {
    answer_line(answer, &Naming::Names(names), sink) == Ok(())
}

fn asked(engine: &Engine, ask: &Ask, names: &Names, sink: &mut MemSink) -> bool {
    ask_line(engine, ask, &Naming::Names(names), sink) == Ok(())
}

fn texted(alloc: Global, engine: &Engine, text: &Text, names: &Names, sink: &mut MemSink) -> bool {
    write_text(alloc, engine, text, &Naming::Names(names), sink) == Ok(())
}

/// Tells a row that is an answer, or says that it is none.
fn tell_answer(names: &Names, row: Row, sink: &mut MemSink) -> Result<bool, Fail> {
    match row {
        Row::Kept(id) => {
            let id = read_id(id)?;
            Ok(answered(&Answer::Kept { id, present: 1 }, names, sink))
        }
        Row::Held(id) => Ok(answered(&Answer::Held { id: read_id(id)? }, names, sink)),
        Row::Known(id) => Ok(answered(&Answer::Known { id: read_id(id)? }, names, sink)),
        _ => Ok(false),
    }
}

fn tell(
    alloc: Global,
    engine: &Engine,
    names: &Names,
    row: Row,
    sink: &mut MemSink,
) -> Result<bool, Fail> {
    match row {
        Row::Vote(x, y) => {
            let ask = Ask::Vote(read_id(x)?, read_id(y)?);
            Ok(asked(engine, &ask, names, sink))
        }
        Row::Tx(id) => Ok(asked(engine, &Ask::Tx(tx_id(id)?), names, sink)),
        Row::Balance(text) => Ok(asked(engine, &Ask::Balance(lock(text)?), names, sink)),
        Row::Pairs => Ok(texted(alloc, engine, &Text::Pairs, names, sink)),
        Row::Report => Ok(texted(alloc, engine, &Text::Report, names, sink)),
        _ => tell_answer(names, row, sink),
    }
}

/// Whether the row's text is written.
fn is_told(
    alloc: Global,
    engine: &Engine,
    names: &Names,
    row: Row,
    text: &str,
) -> Result<bool, Fail> {
    let mut sink = MemSink::new(alloc, 1024, 1024, Fails::Never)?;
    let ended = tell(alloc, engine, names, row, &mut sink)?;
    Ok(ended && sink.bytes() == text.as_bytes())
}

fn is_told_by_names(alloc: Global, engine: &Engine, row: Row, text: &str) -> Result<bool, Fail> {
    let names = names_of(alloc)?;
    let is_so = is_told(alloc, engine, &names, row, text);
    drop(names);
    is_so
}

/// A block comes to an engine.
fn offer(engine: &mut Engine, bytes: &[u8]) -> Result<(), Fail> {
    let _answer = engine.offer(bytes)?;
    Ok(())
}

/// The second child, the third, the first, and a block that waits.
fn offer_blocks(alloc: Global, engine: &mut Engine) -> Result<(), Fail> {
    offer(engine, &child_of(alloc, 2, GENESIS, 0)?)?;
    offer(engine, &child_of(alloc, 3, GENESIS, 0)?)?;
    offer(engine, &child_of(alloc, 1, GENESIS, 0)?)?;
    offer(engine, &child_of(alloc, 0, NOBODY, 0)?)
}

fn is_told_after(alloc: Global, engine: &mut Engine, row: Row, text: &str) -> Result<bool, Fail> {
    offer_blocks(alloc, engine)?;
    is_told_by_names(alloc, engine, row, text)
}

fn engine_of(alloc: Global) -> Result<Engine, Fail> {
    Ok(Engine::new(alloc, genesis_of(alloc, GRANTING)?, 0, Profile::One)?)
}

fn is_told_anew(alloc: Global, row: Row, text: &str) -> Result<bool, Fail> {
    let mut engine = engine_of(alloc)?;
    let is_so = is_told_after(alloc, &mut engine, row, text);
    drop(engine);
    is_so
}

#[test]
fn told_by_names(rt: HostRuntime) -> Result<(), Fail> {
    for (place, (row, text)) in ROWS.iter().enumerate() {
        holds(&rt, place, is_told_anew(rt.alloc(), *row, text)?);
    }
    Ok(())
}

/// The ids of the present blocks by a naming, as hexadecimal text.
fn listed(alloc: Global, engine: &Engine, naming: &Naming<'_>) -> Result<Vec<BlockId>, Fail> {
    Ok(present_ids(alloc, engine, naming)?)
}

fn are(ids: &[BlockId], texts: &[&str]) -> Result<bool, Fail> {
    for (place, text) in texts.iter().enumerate() {
        if ids.get(place) != Some(&read_id(text)?) {
            return Ok(false);
        }
    }
    Ok(ids.len() == texts.len())
}

fn wrong_ids(alloc: Global, engine: &Engine, names: &Names) -> Result<&'static str, Fail> {
    let ids = listed(alloc, engine, &Naming::Hex)?;
    if !are(&ids, &[FIRST, THIRD, SECOND, GENESIS])? {
        return Ok("hex");
    }
    let ids = listed(alloc, engine, &Naming::Names(names))?;
    if !are(&ids, &[SECOND, GENESIS, FIRST, THIRD])? {
        return Ok("names");
    }
    Ok("")
}

fn wrong_ids_by_names(alloc: Global, engine: &mut Engine) -> Result<&'static str, Fail> {
    offer_blocks(alloc, engine)?;
    let names = names_of(alloc)?;
    let wrong = wrong_ids(alloc, engine, &names);
    drop(names);
    wrong
}

fn wrong_ids_anew(alloc: Global) -> Result<&'static str, Fail> {
    let mut engine = engine_of(alloc)?;
    let wrong = wrong_ids_by_names(alloc, &mut engine);
    drop(engine);
    wrong
}

#[test]
fn ids_in_order(rt: HostRuntime) -> Result<(), Fail> {
    right(&rt, 0, wrong_ids_anew(rt.alloc())?);
    Ok(())
}

/// What is wrong with the names of blocks by themselves.
fn wrong_blocks(names: &Names) -> Result<&'static str, Fail> {
    if names.block_count() != 3 || names.block_at(1) != read_id(SECOND)? {
        return Ok("blocks");
    }
    if names.block_name(&read_id(SECOND)?) != Some(b"late") {
        return Ok("name of a block");
    }
    Ok("")
}

fn wrong_txs(names: &Names) -> Result<&'static str, Fail> {
    if names.tx_count() != 2 || names.tx_at(1) != tx_id(SEVEN)? {
        return Ok("transactions");
    }
    if names.tx_name(&tx_id(SECOND)?).is_some() {
        return Ok("name of no transaction");
    }
    Ok("")
}

fn wrong_locks(names: &Names) -> Result<&'static str, Fail> {
    if names.lock_count() != 1 || names.lock_at(0) != lock(ABC)? {
        return Ok("locks");
    }
    if names.lock_name(&lock(ABC)?) != Some(b"abc") {
        return Ok("name of a lock");
    }
    Ok("")
}

fn wrong_names(names: &Names) -> Result<&'static str, Fail> {
    let blocks = wrong_blocks(names)?;
    if !blocks.is_empty() {
        return Ok(blocks);
    }
    let txs = wrong_txs(names)?;
    if !txs.is_empty() {
        return Ok(txs);
    }
    wrong_locks(names)
}

fn wrong_names_anew(alloc: Global) -> Result<&'static str, Fail> {
    let names = names_of(alloc)?;
    let wrong = wrong_names(&names);
    drop(names);
    wrong
}

#[test]
fn names(rt: HostRuntime) -> Result<(), Fail> {
    right(&rt, 0, wrong_names_anew(rt.alloc())?);
    Ok(())
}

/// Sends the first child to a node, by names.
fn heard(
    alloc: Global,
    node: &mut PlainNode,
    names: &Names,
    sink: &mut MemSink,
) -> Result<bool, Fail> {
    let bytes = child_of(alloc, 2, GENESIS, 0)?;
    if node.stopped() {
        return Ok(false);
    }
    let answered = node.message(&Message::Block(&bytes), &Naming::Names(names), sink);
    Ok(answered == Ok(()))
}

fn is_answered(alloc: Global, node: &mut PlainNode) -> Result<bool, Fail> {
    let mut sink = MemSink::new(alloc, 1024, 1024, Fails::Never)?;
    let names = names_of(alloc)?;
    let is_heard = heard(alloc, node, &names, &mut sink);
    drop(names);
    Ok(is_heard? && sink.bytes() == "kept late present 1\n".as_bytes())
}

fn is_answered_anew(alloc: Global) -> Result<bool, Fail> {
    let genesis = genesis_of(alloc, GRANTING)?;
    let mut node = PlainNode::of(
        alloc,
        FeedHead {
            profile: Profile::One,
            bits: 0,
            genesis,
        },
    )?;
    let is_so = is_answered(alloc, &mut node);
    drop(node);
    is_so
}

/// A node answers by names.
#[test]
fn answered_by_names(rt: HostRuntime) -> Result<(), Fail> {
    holds(&rt, 0, is_answered_anew(rt.alloc())?);
    Ok(())
}
