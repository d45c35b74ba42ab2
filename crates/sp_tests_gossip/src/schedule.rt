//! A schedule that is drawn: blocks are made at four nodes, packets are lost, come again and come in
//! another order. Beside each node stands an engine to which the same bytes arrive, one by one: what
//! arrives there, and which packets are sent, is worked out here from the engines' answers alone.

use sp_engine::{Answer, Engine};
use sp_fixtures::drawn::Draws;
use sp_fixtures::{GENESIS, Numbered, genesis_of};
use sp_gossip::{Event, Kind, Net, Step};
use sp_model::Profile;
use sp_tx::Bytes;
use std::alloc::Global;
use std::test::Fail;

const NODES: u8 = 4;

const BLOCKS: usize = 60;

const TURNS: u32 = 420;

/// An engine beside a node, and the numbers of the blocks that it keeps.
struct Beside {
    engine: Engine,
    kept: Vec<usize>,
}

impl Drop for Beside {
    fn drop(self) {
        let Beside { engine, kept } = self;
        drop(engine);
        drop(kept);
    }
}

/// A packet, by the numbers of the blocks that it names.
#[derive(Drop)]
struct Parcel {
    from: u8,
    to: u8,
    kind: Kind,
    numbers: Vec<usize>,
}

/// What stands beside the nodes.
struct World {
    alloc: Global,
    blocks: Numbered,
    besides: Vec<Beside>,
    parcels: Vec<Parcel>,
}

impl Drop for World {
    fn drop(self) {
        let World {
            alloc: _,
            blocks,
            besides,
            parcels,
        } = self;
        drop(blocks);
        drop(besides);
        drop(parcels);
    }
}

/// The number of a node.
fn node(draws: &mut Draws) -> u8 {
    draws.below(NODES as usize) as u8
}

/// Blocks on one or two of the six before them, with three salts.
fn drawn_blocks(alloc: Global, draws: &mut Draws) -> Result<Numbered, Fail> {
    let mut blocks = Numbered::of(alloc, &[])?;
    for number in 0..BLOCKS {
        let among = number.min(5).saturating_add(1);
        let one = number.saturating_sub(draws.below(among));
        let other = number.saturating_sub(draws.below(among));
        let salt = draws.below(3) as u64;
        if one == other {
            blocks.add_salted(salt, &[one])?;
        } else {
            blocks.add_salted(salt, &[one, other])?;
        }
    }
    Ok(blocks)
}

fn beside_of(alloc: Global) -> Result<Beside, Fail> {
    let genesis = genesis_of(alloc, &GENESIS)?;
    Ok(Beside {
        engine: Engine::new(alloc, genesis, 0, Profile::Two)?,
        kept: Vec::new(alloc),
    })
}

fn world_of(alloc: Global, draws: &mut Draws) -> Result<World, Fail> {
    let mut besides = Vec::new(alloc);
    for _ in 0..NODES {
        besides.push(beside_of(alloc)?)?;
    }
    Ok(World {
        alloc,
        blocks: drawn_blocks(alloc, draws)?,
        besides,
        parcels: Vec::new(alloc),
    })
}

/// Whether two answers say the same.
fn is_same(one: &Answer, other: &Answer) -> bool {
    match (one, other) {
        (Answer::Kept { id: a, present: m }, Answer::Kept { id: b, present: n }) => {
            a == b && m == n
        }
        (Answer::Held { id: a }, Answer::Held { id: b })
        | (Answer::Known { id: a }, Answer::Known { id: b }) => a == b,
        _ => false,
    }
}

impl World {
    /// The bytes of a block arrive at the engine beside a node, which is to answer so.
    fn arrives(&mut self, node: u8, number: usize, answer: Option<&Answer>) -> Result<(), Fail> {
        let Some(beside) = self.besides.get_mut(node as usize) else {
            return Err("no node".into());
        };
        let own = beside.engine.offer(self.blocks.text(number))?;
        if matches!(own, Answer::Kept { .. } | Answer::Held { .. }) {
            beside.kept.push(number)?;
        }
        match answer {
            Some(answer) if is_same(&own, answer) => Ok(()),
            _ => Err("another answer".into()),
        }
    }

    /// Those of the numbers that are kept beside a node, or those that aren't.
    fn sorted_out(&self, node: u8, numbers: &[usize], kept: bool) -> Result<Vec<usize>, Fail> {
        let Some(beside) = self.besides.get(node as usize) else {
            return Err("no node".into());
        };
        let mut list = Vec::new(self.alloc);
        for number in numbers {
            if beside.kept.contains(number) == kept {
                list.push(*number)?;
            }
        }
        Ok(list)
    }

    /// A packet is to be sent, unless it names nothing and isn't told without being asked.
    fn sends(&mut self, net: &Net, parcel: Parcel, step: &Step) -> Result<(), Fail> {
        if !step.answers.as_slice().is_empty() || step.at != parcel.from {
            return Err("another node".into());
        }
        if parcel.numbers.is_empty() && parcel.kind != Kind::Have {
            return if step.sent.is_none() {
                Ok(())
            } else {
                Err("a packet without ids".into())
            };
        }
        if step.sent != u16::try_from(self.parcels.len()).ok()
            || !is_packet(net, &self.blocks, step, &parcel)
        {
            return Err("another packet".into());
        }
        self.parcels.push(parcel)?;
        Ok(())
    }
}

/// Whether the packet that was sent names these blocks in their order.
fn is_packet(net: &Net, blocks: &Numbered, step: &Step, parcel: &Parcel) -> bool {
    let Some(number) = step.sent else {
        return false;
    };
    if number >= net.packet_count() {
        return false;
    }
    let packet = net.packet(number);
    let ids = packet.ids.as_slice();
    packet.from == parcel.from
        && packet.to == parcel.to
        && packet.kind == parcel.kind
        && ids.len() == parcel.numbers.len()
        && ids
            .iter()
            .zip(parcel.numbers.iter())
            .all(|(id, number)| *id == blocks.id(*number))
}

impl World {
    /// A block is made at a node.
    fn make(&mut self, net: &mut Net, node: u8, number: usize) -> Result<(), Fail> {
        let bytes = Bytes::of(Vec::from_slice(self.alloc, self.blocks.text(number))?);
        let step = taken(net, &Event::Make { node, bytes })?;
        if step.at != node || step.sent.is_some() || step.answers.as_slice().len() != 1 {
            return Err("another step".into());
        }
        self.arrives(node, number, step.answers.as_slice().first())
    }

    /// A node tells another what it keeps.
    fn tell(&mut self, net: &mut Net, from: u8, to: u8) -> Result<(), Fail> {
        let Some(beside) = self.besides.get(from as usize) else {
            return Err("no node".into());
        };
        let numbers = Vec::from_slice(self.alloc, &beside.kept)?;
        let step = taken(net, &Event::Tell { from, to })?;
        let parcel = Parcel {
            from,
            to,
            kind: Kind::Have,
            numbers,
        };
        self.sends(net, parcel, &step)
    }

    /// A packet comes.
    fn deliver(&mut self, net: &mut Net, packet: u16) -> Result<(), Fail> {
        let Some(parcel) = self.parcels.get(packet as usize) else {
            return Err("no packet".into());
        };
        let (from, to, kind) = (parcel.from, parcel.to, parcel.kind);
        let numbers = Vec::from_slice(self.alloc, &parcel.numbers)?;
        let step = taken(net, &Event::Deliver { packet })?;
        match kind {
            Kind::Have => self.answers(net, Kind::Want, (to, from), &numbers, &step),
            Kind::Want => self.answers(net, Kind::Blocks, (to, from), &numbers, &step),
            Kind::Blocks => self.brings(to, &numbers, &step),
        }
    }

    /// A node is to answer a packet by one with those of its numbers that it lacks, or that it keeps.
    fn answers(
        &mut self,
        net: &Net,
        kind: Kind,
        way: (u8, u8),
        numbers: &[usize],
        step: &Step,
    ) -> Result<(), Fail> {
        let (from, to) = way;
        let numbers = self.sorted_out(from, numbers, kind == Kind::Blocks)?;
        let parcel = Parcel {
            from,
            to,
            kind,
            numbers,
        };
        self.sends(net, parcel, step)
    }

    /// Blocks arrive.
    fn brings(&mut self, to: u8, numbers: &[usize], step: &Step) -> Result<(), Fail> {
        let answers = step.answers.as_slice();
        if step.at != to || step.sent.is_some() || answers.len() != numbers.len() {
            return Err("another step".into());
        }
        for (place, number) in numbers.iter().enumerate() {
            self.arrives(to, *number, answers.get(place))?;
        }
        Ok(())
    }

    /// One of three things happens; a block is made while there are any that weren't.
    fn goes_on(&mut self, net: &mut Net, draws: &mut Draws, made: usize) -> Result<usize, Fail> {
        let what = draws.below(8);
        let (node, other) = (node(draws), node(draws));
        if what < 2 && made < BLOCKS {
            let number = made.saturating_add(1);
            self.make(net, node, number)?;
            return Ok(number);
        }
        if what < 4 || self.parcels.is_empty() {
            self.tell(net, node, other)?;
        } else {
            let number = draws.below(self.parcels.len());
            self.deliver(net, u16::try_from(number).unwrap_or(u16::MAX))?;
        }
        Ok(made)
    }

    /// Whether a node says what the engine beside it says, of each two blocks.
    fn agrees(&self, net: &Net, node: u8) -> bool {
        let Some(beside) = self.besides.get(node as usize) else {
            return false;
        };
        if node >= net.nodes() {
            return false;
        }
        let engine = net.engine(node);
        for x in 0..=BLOCKS {
            for y in x..=BLOCKS {
                let (x, y) = (self.blocks.id(x), self.blocks.id(y));
                if engine.vote(&x, &y) != beside.engine.vote(&x, &y) {
                    return false;
                }
            }
        }
        engine.kept_count() == beside.engine.kept_count()
            && engine.present() == beside.engine.present()
    }
}

/// What an event comes to, which isn't refused.
fn taken(net: &mut Net, event: &Event) -> Result<Step, Fail> {
    if !net.live() {
        return Err("not live".into());
    }
    match net.step(event) {
        Ok(step) => Ok(step),
        Err(_) => Err("refused".into()),
    }
}

/// Draws of this seed say what happens, and all of it is compared.
fn plays(alloc: Global, seed: u64) -> Result<(), Fail> {
    let mut draws = Draws { last: seed };
    let mut world = world_of(alloc, &mut draws)?;
    let genesis = genesis_of(alloc, &GENESIS)?;
    let mut net = Net::new(alloc, NODES, &genesis, 0, Profile::Two)?;
    let mut made = 0;
    for _ in 0..TURNS {
        made = world.goes_on(&mut net, &mut draws, made)?;
    }
    if made != BLOCKS {
        return Err("too few blocks".into());
    }
    for node in 0..NODES {
        if !world.agrees(&net, node) {
            return Err("another node".into());
        }
    }
    Ok(())
}

#[test]
fn nodes_say_what_engines_say(rt: HostRuntime) -> Result<(), Fail> {
    plays(rt.alloc(), 1)?;
    plays(rt.alloc(), 2)
}
