//! The feeds of whole scenarios, against bytes that were made outside this repository.

use crate::rows::holds;
use crate::scenes::judging::read;
use sp_feed::{Message, name_of};
use sp_fixtures::flat;
use sp_ids::BlockId;
use sp_io::{Calls, Failed, Fails, MemSink, TallySink};
use sp_play::Scene;
use std::alloc::Global;
use std::process::Abort;
use std::test::Fail;

/// Two blocks on genesis and a question on them, as
/// the head with the smallest genesis block, a frame for each message, and the last frame.
#[rattlefmt::skip]
const PAIR_FEED: &[&[u8]] = &[
    b"SPCTRF01\x00",
    b"B\x14\x00\x00\x00",
    b"\x01\x00\x00\x00\x00\x00\x00\x00\x00\x00\x00\x00\x00\x00\x00\x00\x00\x00\x00\x00",
    b"B4\x00\x00\x00",
    b"\x01\x01\x00\x00\x00\x00\x00\x00\x00\x00\x00\x00\x00\x00\x00\x00\x00\x01!\xfc?\x95\\\x140^\xd6k/`d\xde\x08.\x84G\xf2\x90H\xda:\xb7\xc5\xc0\x10\x90\xc1\xb7\"\xab\x00\x00",
    b"B4\x00\x00\x00",
    b"\x01\x02\x00\x00\x00\x00\x00\x00\x00\x00\x00\x00\x00\x00\x00\x00\x00\x01!\xfc?\x95\\\x140^\xd6k/`d\xde\x08.\x84G\xf2\x90H\xda:\xb7\xc5\xc0\x10\x90\xc1\xb7\"\xab\x00\x00",
    b"V@\x00\x00\x00",
    b"\xeb\xc3R\xd5-\x8a-\x8f`{\xc8/n\xdcF\x86yY\x9e\xb0\xe8\xa8B\x9d\x88\xc8.L\xff\xb6(T",
    b"o\xd2\xbcd\xef\x18\xbca\x0e#q\xe6\xea|\xdd\xa8k5\xbel\xfb\xe8'L\x1e\xd1\xd9\x01%S\xc2j",
    b"E\x00\x00\x00\x00",
];

/// A scenario without a fault, the number of its messages, the length of its feed, and the feed's
/// SHA-256.
type Row = (&'static [u8], usize, usize, &'static str);

#[rattlefmt::skip]
const ROWS: &[Row] = &[
    // two blocks, and a question on them
    (b"block A on G\nblock B on G\nvote A B\n", 3, 222, "a5ca0c665126b621110749f41221e97d19b92891a9b7131273625bee27f29607"),
    // a block and questions that turn round
    (b"block A on G\nblock B on G\nvote A B\nblock C on A\nvote A B\nvote B A\npairs\n", 7, 422, "3c508fe209ca0df929fa574ab94dc11ce01be32c0e6a5960699a9705271d82af"),
    // a block that merges two
    (b"block A on G\nblock B on G\nvote A B\nblock C on A B\nvote A B\n", 5, 380, "5859c0254b1ba9695fdaecba943142704e6c3a15e529e615ef200f5fdb86d81b"),
    // a cycle of three
    (b"block A on G\nblock B on G\nblock C on G\nblock X1 on A\nblock Y1 on X1 B\nblock X2 on B\nblock Y2 on X2 C\nblock X3 on C\nblock Y3 on X3 A\nvote A B\nvote B C\nvote C A\n", 12, 855, "58f055e2e066914f88d04f76693beb28423bdc74ca8f204287ee86c8f9dd0c39"),
    // blocks sent in another order than they are made, and again
    (b"make A on G\nmake B on A\nsend B\nvote G B\nsend A\nsend A\n", 4, 279, "4c9a295fa84337944bfa44d2b6e0016ec4cfb47ec07344f78322d710bfe38250"),
    // the genesis block sent
    (b"send G\n", 1, 64, "f22f986b0030a16732f70ce38b00570679ae9530b82b3bf3e7bb234760fb804c"),
    // payments
    (b"grant g 100 to alice\ntx p spends g.0 pays 100 to bob\ntx q spends g.0 pays 100 to carol\nblock A on G carries p\nblock B on G carries q\nstate p\nstate q\nbalance alice\nblock C on A\nstate p\nstate q\nreport\n", 9, 604, "c2284e7cb541ba1143b7a3aca943cd33fd0e3c24ac184eeb2b5e49b9b53ad4c4"),
    // a payment of a payment
    (b"grant g 100 to alice\ntx p spends g.0 pays 100 to bob\ntx q spends g.0 pays 100 to carol\nblock A on G carries p\nblock B on G carries q\ntx r spends p.0 pays 100 to dave\nblock C on A carries r\nbalance dave\n", 4, 530, "ec72a2356a74f3efe31251ffc304ae4895426d8a08ba14f69c1acc86f0fee4c5"),
    // the wrong word, and too large a sum
    (b"grant g 100 to alice\ntx p spends g.0 pays 100 to bob\ntx e spends g.0 with eve pays 100 to eve\ntx f spends g.0 pays 101 to eve\nblock A on G carries p\nblock B on G carries e\nblock C on G carries f\nstate e\n", 4, 530, "da45a253554fe644535f3e180d9227b4903d26fc9c02c4041f25958653625674"),
    // two payments in one block, by the order in which they are named
    (b"grant g 100 to alice\ntx p spends g.0 pays 100 to bob\ntx q spends g.0 pays 100 to carol\nblock A on G carries p\nblock B on G carries q\nblock C on G carries p q\nblock D on G carries q p\n", 4, 795, "b9d2a2cf4a355c485cc898192ea7353ed2463148cbfca0fae4150e12190b6d24"),
    // inputs in no order
    (b"grant g 1 to a 2 to b 3 to c\ngrant h 4 to d\ntx p spends h.0 g.2 with x g.0 g.1 pays 10 to e\nblock A on G carries p\nstate p\n", 2, 479, "c0a17da86017888996942fe05627e89d2b8c58e0a0b08cf17394d35a5916f184"),
    // the same inputs in another order
    (b"grant g 1 to a 2 to b 3 to c\ngrant h 4 to d\ntx p spends g.1 g.0 h.0 g.2 with x pays 10 to e\nblock A on G carries p\nstate p\n", 2, 479, "c0a17da86017888996942fe05627e89d2b8c58e0a0b08cf17394d35a5916f184"),
    // grants alone, in their order
    (b"grant z 1 to a\ngrant a 2 to b 3 to b\ngrant m 9223372036854775807 to c\n", 0, 205, "2fbcd186a22261da632859839b8bd09911667d2cc650f3e714bbc14dda605e67"),
    // eight bits of work
    (b"bits 8\ngrant g 5 to a\nblock A on G\nblock B on G\nblock C on B A\nvote A C\n", 4, 353, "f8c609e5110c7f3933e9e4f62c7b0da40e5bde3183cbfdeda5f27680e6b68dda"),
    // no line at all
    (b"", 0, 39, "45c5e4034be29b9c2ed6375fc4c9c9e4142d99cb5c197d7c537e161a423827a3"),
    // the same in profile 2
    (b"profile 2\nblock A on G\nblock B on G\nvote A B\n", 3, 222, "9d6e289225db0e436929ecc98d2167e652915907a9a1d33a3e2b6054eae4b106"),
    // no line but the profile and the bits, in each profile
    (b"profile 2\nbits 3\n", 0, 39, "b1026d252f9dfa6ba331056bee1c9e5a13ee8233824147b3e020c49cf959c648"),
    (b"profile 1\nbits 3\n", 0, 39, "cf81c22cd63a0ce76a4576303d7695e5840fbce1db6a1e45e02f2a1ccacced0c"),
    // bits alone
    (b"bits 64", 0, 39, "6933453254e328ea93883b213234795bb46bf9e577e47dfb6186ef35dce2deea"),
];

/// Scenarios with a fault: what the lines before it say, as a feed.
#[rattlefmt::skip]
const FAULTY: &[Row] = &[
    // a fault behind two messages
    (b"grant g 1 to a\nblock A on G\nvote A G\nvote A B\nblock B on G\nvote A B\n", 2, 207, "6934c7e97d21a623958c477e6cf93515c254e3bb4f35f392527a7c59965cdbbd"),
    // a fault in a block's line, whose number isn't used up by it
    (b"block A on G\nmake B on G G\nblock B on G\n", 1, 96, "f9be7592cfa0889eb66f46d59e8b3741dee32a5477d583705c24cc8dbbd0094d"),
    // a faulty grant isn't one of the genesis block's
    (b"bits 3\ngrant g 1 to a 2 to b\ngrant h 1 to a 0 to b\npairs\n", 0, 121, "e60ca70f1b85072620f5d4978afaba216c1256507d523108134183b289fddf4f"),
    // a fault in the first line
    (b"pair\npairs\n", 0, 39, "45c5e4034be29b9c2ed6375fc4c9c9e4142d99cb5c197d7c537e161a423827a3"),
];

/// Room for each feed of these tests.
const ROOM: usize = 1_024;

/// A frame: its letter, its length and its payload.
fn put_frame(feed: &mut Vec<u8>, letter: u8, payload: &[&[u8]]) -> Result<(), Fail> {
    let mut length = 0u32;
    for part in payload {
        length = length.wrapping_add(u32::try_from(part.len())?);
    }
    feed.push(letter)?;
    feed.extend_from_slice(&length.to_le_bytes())?;
    for part in payload {
        feed.extend_from_slice(part)?;
    }
    Ok(())
}

fn put_message(feed: &mut Vec<u8>, message: &Message<'_>) -> Result<(), Fail> {
    match message {
        Message::Block(bytes) => put_frame(feed, b'B', &[bytes]),
        Message::Vote(x, y) => put_frame(feed, b'V', &[x.as_bytes(), y.as_bytes()]),
        Message::Tx(id) => put_frame(feed, b'T', &[id.as_bytes()]),
        Message::Balance(lock) => put_frame(feed, b'U', &[lock.as_bytes()]),
        Message::Pairs => put_frame(feed, b'P', &[]),
        Message::Report => put_frame(feed, b'R', &[]),
        Message::End => put_frame(feed, b'E', &[]),
    }
}

/// The feed that a scene's head and messages spell.
fn spelled(alloc: Global, scene: &Scene) -> Result<Vec<u8>, Fail> {
    let head = scene.head()?;
    let mut feed = Vec::from_slice(alloc, &name_of(head.profile))?;
    feed.push(head.bits)?;
    put_frame(&mut feed, b'B', &[head.genesis.bytes.as_slice()])?;
    for place in 0..scene.len() {
        put_message(&mut feed, &scene.message(place))?;
    }
    put_frame(&mut feed, b'E', &[])?;
    Ok(feed)
}

/// How the writing of a scene's feed ended, and what was taken of it by so many bytes a call, of which
/// this one fails.
fn written(
    alloc: Global,
    scene: &Scene,
    step: u16,
    failing: Option<u32>,
) -> Result<(Result<(), Failed>, Vec<u8>), Fail> {
    if step == 0 || scene.fault().is_some() {
        return Err("no step, or a fault".into());
    }
    let fails = match failing {
        Some(call) => Fails::At(Calls::of(Vec::from_slice(alloc, &[call])?)),
        None => Fails::Never,
    };
    let mut sink = MemSink::new(alloc, ROOM, step, fails)?;
    let ended = scene.feed(&mut sink);
    Ok((ended, Vec::from_slice(alloc, sink.bytes())?))
}

/// What a sink takes of a feed is all of it, in small pieces and in one, and up to a call that fails
/// its front.
fn is_written(alloc: Global, scene: &Scene, feed: &[u8]) -> Result<bool, Fail> {
    let small = written(alloc, scene, 7, None)?;
    let large = written(alloc, scene, 4096, None)?;
    let cut = written(alloc, scene, 7, Some(3))?;
    Ok(
        small.0 == Ok(())
            && small.1.as_slice() == feed
            && large.0 == Ok(())
            && large.1.as_slice() == feed
            && cut.0 == Err(Failed)
            && Some(cut.1.as_slice()) == feed.get(..21),
    )
}

/// How many bytes a sink takes of a feed that is written twice.
fn tally(scene: &Scene) -> Result<u64, Fail> {
    if scene.fault().is_some() {
        return Err("a fault".into());
    }
    let mut sink = TallySink::new();
    scene.feed(&mut sink)?;
    scene.feed(&mut sink)?;
    Ok(sink.total())
}

/// The SHA-256 of these bytes is this one.
fn has_digest(bytes: &[u8], digest: &str) -> bool {
    BlockId::from_hex(digest.as_bytes()) == Ok(BlockId::of(bytes))
}

fn judge(rt: &impl Abort, alloc: Global, number: usize, row: &Row) -> Result<(), Fail> {
    let (text, count, length, digest) = row;
    let scene = read(alloc, text)?;
    let feed = spelled(alloc, &scene)?;
    holds(rt, number, scene.len() == *count && feed.len() == *length);
    holds(rt, number, has_digest(&feed, digest));
    holds(rt, number, is_written(alloc, &scene, &feed)?);
    holds(
        rt,
        number,
        tally(&scene)? == (feed.len() as u64).wrapping_mul(2),
    );
    Ok(())
}

#[test]
fn feeds(rt: HostRuntime) -> Result<(), Fail> {
    for (number, row) in ROWS.iter().enumerate() {
        judge(&rt, rt.alloc(), number, row)?;
    }
    Ok(())
}

fn judge_faulty(rt: &impl Abort, alloc: Global, number: usize, row: &Row) -> Result<(), Fail> {
    let (text, count, length, digest) = row;
    let scene = read(alloc, text)?;
    let feed = spelled(alloc, &scene)?;
    let counted = scene.len() == *count && feed.len() == *length;
    holds(rt, number, scene.fault().is_some() && counted);
    holds(rt, number, has_digest(&feed, digest));
    Ok(())
}

#[test]
fn faulty(rt: HostRuntime) -> Result<(), Fail> {
    for (number, row) in FAULTY.iter().enumerate() {
        judge_faulty(&rt, rt.alloc(), number, row)?;
    }
    Ok(())
}

#[test]
fn pair_feed(rt: HostRuntime) -> Result<(), Fail> {
    let alloc = rt.alloc();
    let scene = read(alloc, b"block A on G\nblock B on G\nvote A B")?;
    let feed = flat(alloc, PAIR_FEED)?;
    holds(&rt, 0, is_written(alloc, &scene, &feed)?);
    Ok(())
}
