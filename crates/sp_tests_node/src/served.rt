//! A node and the disk of its journal, in memory. What is asked of the disk before a message is the
//! invariant of the two, so a test may send one message after another.

ghost use Rattle.std.specs.Prelude.{◌≡◌, false};

use sp_disk::{MemDisk, Pick};
use sp_engine::Engine;
use sp_feed::{FeedHead, Message};
use sp_ids::Memory;
use sp_io::MemSink;
use sp_journal::JournalFault;
use sp_node::{Node, NodeFault, StartFault, Stored};
use sp_report::Naming;
use std::alloc::Global;
use std::marker::Model;
use std::test::Fail;

/// A node and its disk.
#[derive(Drop)]
pub struct Served {
    node: Node,
    disk: MemDisk,
}

impl Model for Served {
    ghost use Rattle.std.specs.Prelude.{◌≡◌, false};
    ghost use Rattle.sp_disk.specs.History.{moment_of};
    ghost use Rattle.sp_node.specs.Journalled.{IsKeptOn};
    ghost use Rattle.sp_node.specs.Node.{State};

    ghost Value = { State };

    ghost view = { λ s. s.node };

    ghost invariant = { λ s. s.node.stopped ≡ false
        → IsKeptOn s.node.terms s.node.kept s.node.journal (moment_of s.disk) };
}

/// Why a run ended.
#[derive(Clone, Copy, Debug, PartialEq, Eq)]
pub enum Why {
    /// The disk wasn't opened.
    Opening(JournalFault),
    /// No node was started.
    Starting(StartFault),
    /// A message wasn't answered.
    Message(NodeFault),
}

/// What became of a start.
#[derive(Drop)]
pub enum Started {
    /// A node runs.
    Served(Served),
    /// None does, for this cause, and the disk is left.
    Refused(MemDisk, Why),
}

/// Opens a disk and starts a node on what is found there.
pub fn start(alloc: Global, disk: MemDisk, fresh: bool, head: FeedHead) -> Started {
    let mut disk = disk;
    let stored = match Stored::open(alloc, &mut disk, fresh) {
        Ok(stored) => stored,
        Err(fault) => return Started::Refused(disk, Why::Opening(fault)),
    };
    match Node::start(alloc, &mut disk, stored, head) {
        Ok(node) => Started::Served(Served { node, disk }),
        Err(fault) => Started::Refused(disk, Why::Starting(fault)),
    }
}

impl Served {
    /// Sends a message that isn't the end.
    pub fn tell(
        &mut self,
        message: &Message<'_>,
        sink: &mut MemSink,
    ) -> Result<Result<(), NodeFault>, Fail> {
        if self.node.stopped() || matches!(message, Message::End) {
            return Err("no message".into());
        }
        Ok(
            self.node
                .message(message, &Naming::Hex, sink, &mut self.disk),
        )
    }

    /// Whether the sink or the disk failed.
    pub fn stopped(&self) -> bool
        ensures { result ≡ self.now.stopped }
    {
        self.node.stopped()
    }

    /// The engine.
    pub fn engine(&self) -> &Engine
        ensures { result.now.kept ≡ self.now.kept }
    {
        self.node.engine()
    }

    /// The disk, once the node is let go.
    pub fn into_disk(self) -> MemDisk {
        let Served { node, disk } = self;
        drop(node);
        disk
    }

    /// One outcome of a crash now.
    pub fn image(&self, pick: Pick) -> Result<Vec<u8>, Memory> {
        self.disk.image(pick)
    }
}
