//! What the nodes answer to events, one after another.

use sp_engine::Answer;
use sp_fixtures::{GENESIS, Numbered, genesis_of};
use sp_gossip::{Event, Kind, Net, Step, StepFault};
use sp_model::Profile;
use sp_tx::Bytes;
use std::alloc::Global;
use std::test::Fail;

/// What happens: a block of this number is made at a node; a node tells another; a packet arrives.
#[derive(Clone, Copy, Debug)]
enum Act {
    Give(u8, usize),
    Tell(u8, u8),
    Deliver(u16),
}

/// What becomes of one block: it is present, and so many are with it; it waits; it is known.
#[derive(Clone, Copy, Debug)]
enum Became {
    Kept(usize, u16),
    Held(usize),
    Known(usize),
}

/// What an event comes to.
#[derive(Clone, Copy, Debug)]
enum Came {
    /// At a node, this becomes of what arrives.
    Arrived(u8, &'static [Became]),
    /// At a node, a packet of this number is sent, with so many ids.
    Sent(u8, u16, Kind, usize),
    /// At a node, nothing is.
    Idle(u8),
    Refused(StepFault),
}

/// The event of an act.
fn event_of(blocks: &Numbered, act: Act) -> Result<Event, Fail> {
    Ok(match act {
        Act::Give(node, number) => Event::Make {
            node,
            bytes: Bytes::of(Vec::from_slice(blocks.alloc, blocks.text(number))?),
        },
        Act::Tell(from, to) => Event::Tell { from, to },
        Act::Deliver(packet) => Event::Deliver { packet },
    })
}

/// Whether this became of a block.
fn is_of(blocks: &Numbered, answer: &Answer, wanted: Became) -> bool {
    match (answer, wanted) {
        (Answer::Kept { id, present }, Became::Kept(number, many)) => {
            *id == blocks.id(number) && *present == many
        }
        (Answer::Held { id }, Became::Held(number)) => *id == blocks.id(number),
        (Answer::Known { id }, Became::Known(number)) => *id == blocks.id(number),
        _ => false,
    }
}

/// Whether this became of the blocks.
fn all_are_of(blocks: &Numbered, answers: &[Answer], wanted: &[Became]) -> bool {
    if answers.len() != wanted.len() {
        return false;
    }
    for (answer, became_so) in answers.iter().zip(wanted) {
        if !is_of(blocks, answer, *became_so) {
            return false;
        }
    }
    true
}

/// Whether a packet of this kind with so many ids was sent.
fn is_sent(net: &Net, number: u16, kind: Kind, ids: usize) -> bool {
    if number >= net.packet_count() {
        return false;
    }
    let packet = net.packet(number);
    packet.kind == kind && packet.ids.as_slice().len() == ids
}

/// Whether a step came to this.
fn is_step(net: &Net, blocks: &Numbered, step: &Step, wanted: Came) -> bool {
    match wanted {
        Came::Arrived(at, answers) => {
            step.at == at
                && step.sent.is_none()
                && all_are_of(blocks, step.answers.as_slice(), answers)
        }
        Came::Sent(at, number, kind, ids) => {
            step.at == at
                && step.sent == Some(number)
                && step.answers.as_slice().is_empty()
                && is_sent(net, number, kind, ids)
        }
        Came::Idle(at) => step.at == at
            && step.sent.is_none()
            && step.answers.as_slice().is_empty(),
        Came::Refused(_) => false,
    }
}

/// Acts one after another, each with what it comes to.
fn play(alloc: Global, nodes: u8, blocks: &Numbered, rows: &[(Act, Came)]) -> Result<(), Fail> {
    if nodes < 1 || nodes > 16 {
        return Err("so many nodes".into());
    }
    let genesis = genesis_of(alloc, &GENESIS)?;
    let mut net = Net::new(alloc, nodes, &genesis, 0, Profile::One)
        .ok()
        .ok_or("memory")?;
    for (act, wanted) in rows {
        let event = event_of(blocks, *act)?;
        if !net.live() {
            return Err("not live".into());
        }
        let right = match net.step(&event) {
            Ok(step) => is_step(&net, blocks, &step, *wanted),
            Err(fault) => matches!(wanted, Came::Refused(why) if *why == fault),
        };
        if !right {
            return Err("another step".into());
        }
    }
    Ok(())
}

#[test]
fn two_blocks_are_told_of_and_brought(rt: HostRuntime) -> Result<(), Fail> {
    let alloc = rt.alloc();
    let blocks = Numbered::of(alloc, &[&[0], &[1]])?;
    play(
        alloc,
        2,
        &blocks,
        &[
            (Act::Give(0, 1), Came::Arrived(0, &[Became::Kept(1, 1)])),
            (Act::Give(0, 2), Came::Arrived(0, &[Became::Kept(2, 1)])),
            (Act::Tell(0, 1), Came::Sent(0, 0, Kind::Have, 2)),
            (Act::Deliver(0), Came::Sent(1, 1, Kind::Want, 2)),
            (Act::Deliver(1), Came::Sent(0, 2, Kind::Blocks, 2)),
            (
                Act::Deliver(2),
                Came::Arrived(1, &[Became::Kept(1, 1), Became::Kept(2, 1)]),
            ),
            (
                Act::Deliver(2),
                Came::Arrived(1, &[Became::Known(1), Became::Known(2)]),
            ),
            (Act::Deliver(0), Came::Idle(1)),
        ],
    )
}

#[test]
fn a_waiting_block_becomes_present(rt: HostRuntime) -> Result<(), Fail> {
    let alloc = rt.alloc();
    let blocks = Numbered::of(alloc, &[&[0], &[1]])?;
    play(
        alloc,
        2,
        &blocks,
        &[
            (Act::Give(1, 2), Came::Arrived(1, &[Became::Held(2)])),
            (Act::Give(0, 1), Came::Arrived(0, &[Became::Kept(1, 1)])),
            (Act::Tell(0, 1), Came::Sent(0, 0, Kind::Have, 1)),
            (Act::Deliver(0), Came::Sent(1, 1, Kind::Want, 1)),
            (Act::Deliver(1), Came::Sent(0, 2, Kind::Blocks, 1)),
            (Act::Deliver(2), Came::Arrived(1, &[Became::Kept(1, 2)])),
            (Act::Deliver(9), Came::Refused(StepFault::NoPacket)),
            (Act::Give(2, 1), Came::Refused(StepFault::NoNode)),
            (Act::Tell(0, 2), Came::Refused(StepFault::NoNode)),
            (Act::Tell(2, 0), Came::Refused(StepFault::NoNode)),
            (Act::Tell(0, 0), Came::Sent(0, 3, Kind::Have, 1)),
            (Act::Deliver(3), Came::Idle(0)),
        ],
    )
}

/// A packet brings four blocks, of which the receiver got two meanwhile: one that is present there, and
/// one that waits. Of the others one waits behind that one, until the last parent comes.
#[test]
fn known_and_new_blocks_come_in_one_packet(rt: HostRuntime) -> Result<(), Fail> {
    let alloc = rt.alloc();
    let blocks = Numbered::of(alloc, &[&[0], &[1], &[2], &[0]])?;
    play(
        alloc,
        2,
        &blocks,
        &[
            (Act::Give(0, 3), Came::Arrived(0, &[Became::Held(3)])),
            (Act::Give(0, 4), Came::Arrived(0, &[Became::Kept(4, 1)])),
            (Act::Give(0, 1), Came::Arrived(0, &[Became::Kept(1, 1)])),
            (Act::Give(0, 2), Came::Arrived(0, &[Became::Kept(2, 2)])),
            (Act::Tell(0, 1), Came::Sent(0, 0, Kind::Have, 4)),
            (Act::Deliver(0), Came::Sent(1, 1, Kind::Want, 4)),
            (Act::Deliver(1), Came::Sent(0, 2, Kind::Blocks, 4)),
            (Act::Give(1, 4), Came::Arrived(1, &[Became::Kept(4, 1)])),
            (Act::Give(1, 2), Came::Arrived(1, &[Became::Held(2)])),
            (
                Act::Deliver(2),
                Came::Arrived(
                    1,
                    &[
                        Became::Held(3),
                        Became::Known(4),
                        Became::Kept(1, 3),
                        Became::Known(2),
                    ],
                ),
            ),
            (
                Act::Deliver(2),
                Came::Arrived(
                    1,
                    &[
                        Became::Known(3),
                        Became::Known(4),
                        Became::Known(1),
                        Became::Known(2),
                    ],
                ),
            ),
            (Act::Deliver(0), Came::Idle(1)),
        ],
    )
}

/// The packet with the blocks is lost, so the other node keeps none, and tells of none; it comes late, and
/// then it does.
#[test]
fn blocks_that_are_lost_are_missing(rt: HostRuntime) -> Result<(), Fail> {
    let alloc = rt.alloc();
    let blocks = Numbered::of(alloc, &[&[0]])?;
    play(
        alloc,
        2,
        &blocks,
        &[
            (Act::Give(0, 1), Came::Arrived(0, &[Became::Kept(1, 1)])),
            (Act::Tell(0, 1), Came::Sent(0, 0, Kind::Have, 1)),
            (Act::Deliver(0), Came::Sent(1, 1, Kind::Want, 1)),
            (Act::Deliver(1), Came::Sent(0, 2, Kind::Blocks, 1)),
            (Act::Tell(1, 0), Came::Sent(1, 3, Kind::Have, 0)),
            (Act::Deliver(0), Came::Sent(1, 4, Kind::Want, 1)),
            (Act::Deliver(2), Came::Arrived(1, &[Became::Kept(1, 1)])),
            (Act::Tell(1, 0), Came::Sent(1, 5, Kind::Have, 1)),
        ],
    )
}

#[test]
fn the_129th_block_is_one_too_many(rt: HostRuntime) -> Result<(), Fail> {
    let alloc = rt.alloc();
    let blocks = Numbered::of(alloc, &[&[0]])?;
    let genesis = genesis_of(alloc, &GENESIS)?;
    let mut net = Net::new(alloc, 1, &genesis, 0, Profile::One)
        .ok()
        .ok_or("memory")?;
    let event = event_of(&blocks, Act::Give(0, 1))?;
    for turn in 0..129u32 {
        if !net.live() {
            return Err("not live".into());
        }
        let fault = net.step(&event).err();
        if fault
            != if turn < 128 {
                None
            } else {
                Some(StepFault::Many)
            }
        {
            return Err("another fault".into());
        }
    }
    Ok(())
}

#[test]
fn the_4097th_packet_is_one_too_many(rt: HostRuntime) -> Result<(), Fail> {
    let alloc = rt.alloc();
    let genesis = genesis_of(alloc, &GENESIS)?;
    let mut net = Net::new(alloc, 16, &genesis, 0, Profile::One)
        .ok()
        .ok_or("memory")?;
    for turn in 0..4097u32 {
        if !net.live() {
            return Err("not live".into());
        }
        let fault = net.step(&Event::Tell { from: 15, to: 3 }).err();
        if fault
            != if turn < 4096 {
                None
            } else {
                Some(StepFault::Many)
            }
        {
            return Err("another fault".into());
        }
    }
    if net.packet_count() != 4096 || net.nodes() != 16 || !net.live() {
        return Err("counts".into());
    }
    if net.engine(3).kept_count() != 1 {
        return Err("more than genesis".into());
    }
    Ok(())
}
