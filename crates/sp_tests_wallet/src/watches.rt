//! What changes as the blocks of scenarios come, and the lines of it.

ghost use Rattle.std.specs.Prelude.{◌<◌, All, length};
ghost use Rattle.sp_watch.specs.Lines.{IsOfItem};

use crate::played::{SIDE_BY_SIDE, SIDE_BY_SIDE_2, engine_of, offered, play, scene_of};
use sp_engine::Engine;
use sp_feed::Message;
use sp_ids::{BlockId, Lock, TxId};
use sp_io::{Fails, MemSink};
use sp_play::Scene;
use sp_watch::{Change, Item, Watch, write_change, write_held};
use std::alloc::Global;
use std::process::Abort;
use std::test::Fail;

const PAYMENTS: &[u8] =
    b"grant g 100 to alice\ntx p spends g.0 pays 100 to bob\ntx q spends g.0 pays 100 to carol\nblock A on G carries p\nblock B on G carries q\nblock C on A";

const TIE: &[u8] = b"block A on G\nblock B on G";

/// The ends of the lines that are written in all.
const PAID_LINES: &[&[u8]] = &[
    b" from absent to accepted\n",
    b" from accepted to rejected\n",
    b" from absent to rejected\n",
    b" from rejected to accepted\n",
    b" since 3 changes 3\n",
    b" since 2 changes 1\n",
];

const BALANCE_LINES: &[&[u8]] = &[
    b" from 100 to 0\n",
    b" from 0 to 100\n",
    b" from 0 to 100\n",
    b" from 100 to 0\n",
    b" from 100 to 0\n",
    b" from 0 to 100\n",
    b" since 3 changes 3\n",
    b" since 3 changes 3\n",
];

const TIED_LINES: &[&[u8]] = &[b" from absent to tie\n", b" since 2 changes 1\n"];

/// Of p, q and the pair of A and B.
const KEPT_TIE_LINES: &[&[u8]] = &[
    b" from absent to accepted\n",
    b" from accepted to rejected\n",
    b" from absent to rejected\n",
    b" from absent to tie\n",
    b" since 2 changes 2\n",
    b" since 2 changes 1\n",
    b" since 2 changes 1\n",
];

const BROKEN_TIE_LINES: &[&[u8]] = &[
    b" from absent to accepted\n",
    b" from accepted to rejected\n",
    b" from absent to rejected\n",
    b" from absent to tie\n",
    b" from rejected to accepted\n",
    b" from tie to before\n",
    b" since 3 changes 3\n",
    b" since 2 changes 1\n",
    b" since 3 changes 2\n",
];

fn write_all(watch: &Watch, changes: &[Change], sink: &mut MemSink) -> Result<(), Fail>
    requires within { All (λ change. change.item < length watch.now.entries) changes.now }
    requires kinds { All (IsOfItem watch.now.entries) changes.now }
{
    for change in changes {
        write_change(watch, change, sink)?;
    }
    Ok(())
}

// Sees an arrival, and writes what it changes.
fn see(watch: &mut Watch, engine: &Engine, sink: &mut MemSink) -> Result<(), Fail> {
    if watch.arrivals() >= 1000 {
        return Err("not seen".into());
    }
    let changes = watch.see(engine)?;
    write_all(watch, &changes, sink)
}

fn write_end(watch: &Watch, sink: &mut MemSink) -> Result<(), Fail> {
    for item in 0..watch.len() as u8 {
        write_held(watch, item, sink)?;
    }
    Ok(())
}

fn watch_of(alloc: Global, items: &[Item], engine: &Engine) -> Result<Watch, Fail> {
    if items.is_empty() || items.len() > 64 {
        return Err("no items".into());
    }
    Ok(Watch::new(alloc, items, engine)?)
}

// All blocks of a scene come, and each is seen.
fn come(
    engine: &mut Engine,
    watch: &mut Watch,
    scene: &Scene,
    sink: &mut MemSink,
) -> Result<(), Fail> {
    for place in 0..scene.len() {
        if let Message::Block(bytes) = scene.message(place) {
            offered(engine, bytes)?;
            see(watch, engine, sink)?;
        }
    }
    write_end(watch, sink)
}

// What is written of these items as the blocks of a scene come.
fn written(alloc: Global, scene: &Scene, items: &[Item], sink: &mut MemSink) -> Result<(), Fail> {
    let mut engine = engine_of(alloc, scene)?;
    let told = match watch_of(alloc, items, &engine) {
        Ok(mut watch) => come(&mut engine, &mut watch, scene, sink),
        Err(fail) => Err(fail),
    };
    drop(engine);
    told
}

// The ids of the second and the third transaction, and of the second and the third block.
fn ids_in(engine: &Engine) -> Result<(TxId, TxId, BlockId, BlockId), Fail> {
    if engine.present() < 3 {
        return Err("too few".into());
    }
    let (x, y) = (engine.id_at(1), engine.id_at(2));
    if engine.tx_count() < 3 {
        return Ok((TxId::of(b""), TxId::of(b""), x, y));
    }
    Ok((engine.tx_at(1).0, engine.tx_at(2).0, x, y))
}

fn ids_of(alloc: Global, scene: &Scene) -> Result<(TxId, TxId, BlockId, BlockId), Fail> {
    let mut engine = engine_of(alloc, scene)?;
    let ids = match play(&mut engine, scene) {
        Ok(()) => ids_in(&engine),
        Err(fail) => Err(fail),
    };
    drop(engine);
    ids
}

// The lines end so, one after another, and there are no others.
fn end_so(text: &[u8], ends: &[&[u8]]) -> bool {
    let mut rest = text;
    for end in ends {
        let Some(at) = rest.iter().position(|byte| *byte == b'\n') else {
            return false;
        };
        let (line, behind) = rest.split_at(at + 1);
        if !line.ends_with(end) {
            return false;
        }
        rest = behind;
    }
    rest.is_empty()
}

fn holds(rt: &impl Abort, fact: bool) {
    assert!(rt; fact, "the lines");
}

#[test]
fn payments_are_watched(rt: HostRuntime) -> Result<(), Fail> {
    let scene = scene_of(rt.alloc(), PAYMENTS)?;
    let (p, q, _x, _y) = ids_of(rt.alloc(), &scene)?;
    let mut sink = MemSink::new(rt.alloc(), 4096, 7, Fails::Never)?;
    written(rt.alloc(), &scene, &[Item::Tx(p), Item::Tx(q)], &mut sink)?;
    holds(&rt, end_so(sink.bytes(), PAID_LINES));
    Ok(())
}

#[test]
fn ties_are_watched(rt: HostRuntime) -> Result<(), Fail> {
    let scene = scene_of(rt.alloc(), TIE)?;
    let (_p, _q, x, y) = ids_of(rt.alloc(), &scene)?;
    let mut sink = MemSink::new(rt.alloc(), 4096, 4096, Fails::Never)?;
    written(rt.alloc(), &scene, &[Item::Vote(x, y)], &mut sink)?;
    holds(&rt, end_so(sink.bytes(), TIED_LINES));
    Ok(())
}

#[test]
fn balances_are_watched(rt: HostRuntime) -> Result<(), Fail> {
    let scene = scene_of(rt.alloc(), PAYMENTS)?;
    let mut sink = MemSink::new(rt.alloc(), 4096, 4096, Fails::Never)?;
    written(
        rt.alloc(),
        &scene,
        &[
            Item::Balance(Lock::of(b"alice")),
            Item::Balance(Lock::of(b"bob")),
        ],
        &mut sink,
    )?;
    holds(&rt, end_so(sink.bytes(), BALANCE_LINES));
    Ok(())
}

// The lines of p, q and the pair of the first two blocks end so.
fn are_told(alloc: Global, text: &[u8], ends: &[&[u8]]) -> Result<bool, Fail> {
    let scene = scene_of(alloc, text)?;
    let (p, q, x, y) = ids_of(alloc, &scene)?;
    let mut sink = MemSink::new(alloc, 4096, 7, Fails::Never)?;
    written(
        alloc,
        &scene,
        &[Item::Tx(p), Item::Tx(q), Item::Vote(x, y)],
        &mut sink,
    )?;
    Ok(end_so(sink.bytes(), ends))
}

#[test]
fn ties_are_watched_in_both_profiles(rt: HostRuntime) -> Result<(), Fail> {
    holds(&rt, are_told(rt.alloc(), SIDE_BY_SIDE, KEPT_TIE_LINES)?);
    holds(&rt, are_told(rt.alloc(), SIDE_BY_SIDE_2, BROKEN_TIE_LINES)?);
    Ok(())
}
