//! A node without a journal, as the tests of its lines ask it.

ghost use Rattle.std.specs.Prelude.{◌≡◌, false, IfOk, IsSome};
ghost use Rattle.sp_feed.specs.Messages.{said_by};
ghost use Rattle.sp_node.specs.Node.{stops};

use sp_disk::MemDisk;
use sp_engine::Engine;
use sp_feed::{FeedHead, Message};
use sp_ids::Memory;
use sp_io::{Fails, MemSink};
use sp_node::{Node, NodeFault};
use sp_report::Naming;
use std::alloc::Global;
use std::marker::Model;

/// A node without a journal, and a disk each of whose calls fails, so that an answer shows that the
/// disk wasn't called.
#[derive(Drop)]
pub struct PlainNode {
    node: Node,
    disk: MemDisk,
}

impl Model for PlainNode {
    ghost use Rattle.std.specs.Prelude.{◌≡◌, None};
    ghost use Rattle.sp_node.specs.Node.{State};

    ghost Value = { State };

    ghost view = { λ n. n.node };

    ghost invariant = { λ n. n.node.journal ≡ None };
}

impl PlainNode {
    /// A node that keeps the genesis block of the head.
    pub fn of(alloc: Global, head: FeedHead) -> Result<PlainNode, Memory>
        ensures { IfOk result (λ node. node.stopped ≡ false) }
    {
        let disk = MemDisk::new(alloc, Vec::new(alloc), 0, 0, Fails::Never)?;
        let node = Node::plain(alloc, head)?;
        Ok(PlainNode { node, disk })
    }

    /// Answers a message.
    pub fn message(
        &mut self,
        message: &Message<'_>,
        naming: &Naming<'_>,
        sink: &mut MemSink,
    ) -> Result<(), NodeFault>
        requires live { self.old.stopped ≡ false }
        requires before_end { IsSome (said_by message.now) }
        ensures stopped { self.new.stopped ≡ stops result }
    {
        self.node.message(message, naming, sink, &mut self.disk)
    }

    /// Whether the sink failed.
    pub fn stopped(&self) -> bool
        ensures { result ≡ self.now.stopped }
    {
        self.node.stopped()
    }

    /// The engine.
    pub fn engine(&self) -> &Engine
        ensures { result.now.kept ≡ self.now.kept }
    {
        self.node.engine()
    }
}
