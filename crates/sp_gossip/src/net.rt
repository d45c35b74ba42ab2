//! The nodes, and the packets that they sent each other.

ghost use Rattle.std.specs.Prelude.{◌≡◌, ◌≢◌, ◌≤◌, ◌<◌, ◌+◌, ◌++◌, ◌⊎◌, ◌∷◌, [], false, true, length, slice_get, slice_index_or, IfErr, IfOk, IsErrOf, None, OnErr, OnOk, Some};
ghost use Rattle.sp_block.specs.Block.{IsGenesis};
ghost use Rattle.sp_gossip.specs.Gossip.{after, brings, bytes_of, Chain, held, kept_by_node, missing, sends, some_packet, start, State};
ghost use Rattle.sp_gossip.specs.Network.{fault_of, AreInState, network_after, network_by, step_of};
ghost use Rattle.sp_gossip.specs.declared.step.StepFault.TheVariants as faults;

use crate::event::Event;
use crate::packet::{Kind, Packet};
use crate::peer::Peer;
use crate::piece::Piece;
use crate::step::{Answers, Step, StepFault};
use sp_block::Block;
use sp_engine::Engine;
use sp_ids::{Ids, Memory};
use sp_model::Profile;
use sp_tx::Bytes;
use std::alloc::Global;
use std::marker::Model;
use std::slice;

/// The most events Make that are taken.
const MOST_MAKES: u8 = 128;

/// The most packets that are sent.
const MOST_PACKETS: usize = 4_096;

/// Nodes of one genesis block, and the packets that they sent each other. Contracts see the profile,
/// the bits of work, for each node the blocks that it keeps, the packets, how many events Make were
/// taken, and whether no memory was refused.
pub struct Net {
    alloc: Global,
    profile: Profile,
    bits: u8,
    peers: Vec<Peer>,
    packets: Vec<Packet>,
    makes: u8,
    live: bool,
}

impl Model for Net {
    ghost use Rattle.sp_gossip.specs.Network.{Network};

    ghost Value = { Network };

    ghost use Rattle.sp_gossip.specs.Nodes.{AreNodes, network};

    ghost view = { λ n. network n.profile n.bits n.peers.items n.packets.items n.makes n.live };

    ghost invariant = { λ n. AreNodes n.profile n.bits n.peers.items n.packets.items n.makes };
}

// Written out, so that where nodes are let go there is one call.
impl Drop for Net {
    fn drop(self) {
        let Net {
            alloc: _,
            profile: _,
            bits: _,
            peers: _,
            packets: _,
            makes: _,
            live: _,
        } = self;
    }
}

impl Net {
    ghost use Rattle.sp_gossip.specs.Nodes.{Happened, Took};
    ghost use Rattle.sp_gossip.specs.Pieces.{TakesBrought};

    /// So many nodes of a profile, each of which keeps genesis alone. No packet was sent.
    ///
    /// # Errors
    ///
    /// `Memory` where a node or the list of them found none.
    pub fn new(
        alloc: Global,
        nodes: u8,
        genesis: &Block,
        bits: u8,
        profile: Profile,
    ) -> Result<Net, Memory>
        requires some { 1 ≤ nodes }
        requires few { nodes ≤ 16 }
        requires genesis { IsGenesis genesis.now }
        requires bits { bits ≤ 64 }
        ensures state { IfOk result
            (AreInState (record { profile = profile; bits = bits; genesis = genesis.now }) (start nodes)) }
        ensures makes { IfOk result (λ net. net.makes ≡ 0) }
        ensures live { IfOk result (λ net. net.live ≡ true) }
    {
        let mut peers = Vec::with_capacity(alloc, nodes as usize)?;
        'peers: for _ in 0..nodes {
            let peer = Peer::new(alloc, genesis, bits, profile)?;
            peers.push(peer)?;
        }
        Ok(Net {
            alloc,
            profile,
            bits,
            peers,
            packets: Vec::new(alloc),
            makes: 0,
            live: true,
        })
    }

    /// Takes an event. Bytes that are made, or brought by a packet, arrive at a node; a node that
    /// tells, or that a packet reaches, may send a packet.
    ///
    /// # Errors
    ///
    /// `NoNode` where a number isn't that of a node. `NoPacket` where no packet of that number was sent.
    /// `Many` where 128 events Make were taken and this is another, or 4,096 packets were sent and this
    /// sends one more. After these all is as before. `Memory` where there was none; nothing may be
    /// asked then.
    pub fn step(&mut self, event: &Event) -> Result<Step, StepFault>
        requires { self.old.live ≡ true }
        ensures step { IfOk result (λ step. step ≡ step_of self.old event.now) }
        ensures after { OnOk result (self.new ≡ network_after self.old event.now) }
        ensures state { OnOk result ((c : Chain) (s : State) →
            AreInState c s self.old → AreInState c (after c s event.now) self.new) }
        ensures ok { OnOk result (fault_of self.old event.now ≡ None) }
        ensures fault { IfErr result (λ fault. (fault ≡ faults.Memory)
            ⊎ (fault_of self.old event.now ≡ Some fault)) }
        ensures same { IfErr result (λ fault. fault ≢ faults.Memory → self.new ≡ self.old) }
        ensures memory { IsErrOf result faults.Memory → self.new.live ≡ false }
    {
        match event {
            Event::Make { node, bytes } => self.make(*node, bytes),
            Event::Tell { from, to } => self.tell(*from, *to),
            Event::Deliver { packet } => self.deliver(*packet),
        }
    }

    // Bytes arrive at a node from outside.
    fn make(&mut self, node: u8, bytes: &Bytes) -> Result<Step, StepFault>
        requires { self.old.live ≡ true }
        ensures { Took self.old (Event.Make node bytes.now) self.new result }
    {
        if node as usize >= self.peers.len() {
            return Err(StepFault::NoNode);
        }
        if self.makes >= MOST_MAKES {
            return Err(StepFault::Many);
        }
        let Ok(copy) = Vec::from_slice(self.alloc, bytes.as_slice()) else {
            self.live = false;
            return Err(StepFault::Memory);
        };
        let piece = Piece::New(Bytes::of(copy));
        let Ok(answers) = self.bring(node, slice::from_ref(&piece)) else {
            return Err(StepFault::Memory);
        };
        self.makes += 1;
        Ok(Step {
            at: node,
            answers,
            sent: None,
        })
    }

    // A node tells another one what it keeps.
    fn tell(&mut self, from: u8, to: u8) -> Result<Step, StepFault>
        requires { self.old.live ≡ true }
        ensures { Took self.old (Event.Tell from to) self.new result }
    {
        let nodes = self.peers.len();
        if from as usize >= nodes || to as usize >= nodes {
            return Err(StepFault::NoNode);
        }
        if self.packets.len() >= MOST_PACKETS {
            return Err(StepFault::Many);
        }
        let Ok(ids) = self.peers[from as usize].told() else {
            self.live = false;
            return Err(StepFault::Memory);
        };
        self.send(Packet {
            from,
            to,
            kind: Kind::Have,
            ids,
        })
    }

    // A packet arrives.
    fn deliver(&mut self, packet: u16) -> Result<Step, StepFault>
        requires { self.old.live ≡ true }
        ensures { Took self.old (Event.Deliver packet) self.new result }
    {
        if packet as usize >= self.packets.len() {
            return Err(StepFault::NoPacket);
        }
        match self.packets[packet as usize].kind {
            Kind::Have => self.ask(packet),
            Kind::Want => self.answer(packet),
            Kind::Blocks => self.unpack(packet),
        }
    }

    // Those of the ids that a node was told of and doesn't keep, it asks for.
    fn ask(&mut self, packet: u16) -> Result<Step, StepFault>
        requires live { self.old.live ≡ true }
        requires within { packet < length self.old.packets }
        ensures { (p : Packet) → slice_get self.old.packets packet ≡ Some p →
            Happened self.old (sends p.to (some_packet Kind.Want p.to p.from
            (missing (kept_by_node self.old.kept p.to) p.ids))) self.old.makes self.new result }
    {
        let told = &self.packets[packet as usize];
        let from = told.from;
        let to = told.to;
        let Ok(ids) = self.peers[to as usize].missing(told.ids.as_slice()) else {
            self.live = false;
            return Err(StepFault::Memory);
        };
        self.reply(Kind::Want, to, from, ids)
    }

    // Those of the ids that a node is asked for and keeps, it brings.
    fn answer(&mut self, packet: u16) -> Result<Step, StepFault>
        requires live { self.old.live ≡ true }
        requires within { packet < length self.old.packets }
        ensures { (p : Packet) → slice_get self.old.packets packet ≡ Some p →
            Happened self.old (sends p.to (some_packet Kind.Blocks p.to p.from
            (held (kept_by_node self.old.kept p.to) p.ids))) self.old.makes self.new result }
    {
        let asked = &self.packets[packet as usize];
        let from = asked.from;
        let to = asked.to;
        let Ok(ids) = self.peers[to as usize].held(asked.ids.as_slice()) else {
            self.live = false;
            return Err(StepFault::Memory);
        };
        self.reply(Kind::Blocks, to, from, ids)
    }

    // What a packet brings, arrives.
    fn unpack(&mut self, packet: u16) -> Result<Step, StepFault>
        requires live { self.old.live ≡ true }
        requires within { packet < length self.old.packets }
        ensures { (p : Packet) → slice_get self.old.packets packet ≡ Some p →
            Happened self.old (brings p.to (bytes_of (kept_by_node self.old.kept p.from) p.ids))
            self.old.makes self.new result }
    {
        let brought = &self.packets[packet as usize];
        let to = brought.to;
        let sender = &self.peers[brought.from as usize];
        let receiver = &self.peers[to as usize];
        let Ok(pieces) = sender.pieces_for(receiver, brought.ids.as_slice()) else {
            self.live = false;
            return Err(StepFault::Memory);
        };
        let Ok(answers) = self.bring(to, pieces.as_slice()) else {
            return Err(StepFault::Memory);
        };
        Ok(Step {
            at: to,
            answers,
            sent: None,
        })
    }

    // A node sends such a packet, where there is an id.
    fn reply(&mut self, kind: Kind, from: u8, to: u8, ids: Ids) -> Result<Step, StepFault>
        requires live { self.old.live ≡ true }
        requires from { from < length self.old.kept }
        requires to { to < length self.old.kept }
        ensures { Happened self.old (sends from (some_packet kind from to ids)) self.old.makes self.new result }
    {
        if ids.as_slice().is_empty() {
            return Ok(Step {
                at: from,
                answers: Answers::of(Vec::new(self.alloc)),
                sent: None,
            });
        }
        if self.packets.len() >= MOST_PACKETS {
            return Err(StepFault::Many);
        }
        self.send(Packet {
            from,
            to,
            kind,
            ids,
        })
    }

    // A packet is sent, for which there is room.
    fn send(&mut self, packet: Packet) -> Result<Step, StepFault>
        requires live { self.old.live ≡ true }
        requires room { length self.old.packets < 4096 }
        requires from { packet.from < length self.old.kept }
        requires to { packet.to < length self.old.kept }
        ensures { Happened self.old (sends packet.from (Some packet)) self.old.makes self.new result }
    {
        let at = packet.from;
        let number = self.packets.len() as u16;
        let Ok(()) = self.packets.reserve(1) else {
            self.live = false;
            return Err(StepFault::Memory);
        };
        self.packets.push_reserved(packet);
        Ok(Step {
            at,
            answers: Answers::of(Vec::new(self.alloc)),
            sent: Some(number),
        })
    }

    // Pieces arrive at a node, one after another.
    fn bring(&mut self, node: u8, pieces: &[Piece]) -> Result<Answers, Memory>
        requires live { self.old.live ≡ true }
        requires within { node < length self.old.kept }
        ensures taken { IfOk result (λ answers.
            TakesBrought self.old node pieces.now answers self.new) }
        ensures memory { OnErr result (self.new.live ≡ false) }
    {
        match self.peers[node as usize].take_all(pieces) {
            Ok(answers) => Ok(Answers::of(answers)),
            Err(_) => {
                self.live = false;
                Err(Memory)
            }
        }
    }

    /// Whether memory was refused to no event.
    pub fn live(&self) -> bool
        ensures { result ≡ self.now.live }
    {
        self.live
    }

    /// How many nodes there are, from 1 to 16.
    pub fn nodes(&self) -> u8
        ensures count { result ≡ length self.now.kept }
        ensures some { 1 ≤ result }
        ensures few { result ≤ 16 }
    {
        self.peers.len() as u8
    }

    /// The engine of a node.
    pub fn engine(&self, node: u8) -> &Engine
        requires { node < length self.now.kept }
        ensures kept { result.now.kept ≡ kept_by_node self.now.kept node }
        ensures profile { result.now.profile ≡ self.now.profile }
        ensures bits { result.now.bits ≡ self.now.bits }
    {
        self.peers[node as usize].engine()
    }

    /// How many packets were sent, at most 4,096.
    pub fn packet_count(&self) -> u16
        ensures count { result ≡ length self.now.packets }
        ensures few { result ≤ 4096 }
    {
        self.packets.len() as u16
    }

    /// The packet of a number, the first one being 0.
    pub fn packet(&self, k: u16) -> &Packet
        requires { k < length self.now.packets }
        ensures { slice_get self.now.packets k ≡ Some result.now }
    {
        &self.packets[k as usize]
    }
}
