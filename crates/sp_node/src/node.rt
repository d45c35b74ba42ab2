//! A node: an engine, a journal where it has one, and whether the sink or the disk failed.

ghost use Rattle.std.specs.Prelude.{◌⊎◌, ◌≡◌, ◌≢◌, ◌≤◌, ◌∷◌, [], ℕ, false, true, Err, is_some, IfErr, IfOk, IfSome, IsErrOf, IsSome, map, None, OnErr, OnOk, Some};
ghost use Rattle.std.specs.Io.KnownBytes.{Appends};
ghost use Rattle.sp_io.specs.Causes.{Rose};
ghost use Rattle.sp_io.specs.Whole.{AppendsFront};
ghost use Rattle.sp_feed.specs.Kinds.{SaysBalance, SaysVote, SaysTx};
ghost use Rattle.sp_feed.specs.Messages.{said_by};
ghost use Rattle.sp_report.specs.Naming.{labels_of};
ghost use Rattle.sp_engine.specs.Arrivals.{kept_by_all};
ghost use Rattle.sp_journal.specs.Recovery.{bytes_in};
ghost use Rattle.sp_journal.specs.Settled.{SameTold};
ghost use Rattle.sp_node.specs.Answers.{IsQuestion, kept_then, reply_of};
ghost use Rattle.sp_node.specs.Journalled.{FitsKept, HoldsThen, IsKeptOn, LeavesOn};
ghost use Rattle.sp_node.specs.Node.{HasNodeCause, IsAsItWas, stops};
ghost use Rattle.sp_node.specs.Stored.{IsFound, IsOfSame, IsReady, LeavesStarted, NamesBoth, stored_blocks};
ghost use Rattle.sp_node.specs.declared.start.StartFault.TheVariants as starts;

mod replies;

use crate::fault::NodeFault;
use crate::start::{StartFault, start_found, start_new};
use crate::stored::Stored;
use sp_disk::Disk;
use sp_engine::Engine;
use sp_feed::{FeedHead, Message};
use sp_ids::Memory;
use sp_io::Sink;
use sp_journal::Journal;
use sp_report::Naming;
use std::alloc::Global;
use std::marker::Model;

/// A node that keeps its blocks in memory, and in a journal where it has one. Contracts see the
/// profile and the bits of work, the kept blocks, whether it is stopped, the journal, and what they see
/// of the engine.
pub struct Node {
    alloc: Global,
    engine: Engine,
    journal: Option<Journal>,
    stopped: bool,
}

impl Model for Node {
    ghost use Rattle.std.specs.Prelude.{◌≡◌, false};
    ghost use Rattle.sp_node.specs.Journalled.{FitsOn};
    ghost use Rattle.sp_node.specs.Node.{State};
    ghost use Rattle.sp_node.specs.Terms.{terms_in};

    ghost Value = { State };

    ghost view = { λ n. record { terms = terms_in n.engine; kept = n.engine.kept; stopped = n.stopped; journal = n.journal; engine = n.engine } };

    ghost invariant = { λ n. n.stopped ≡ false
        → FitsOn (terms_in n.engine) n.engine.kept n.journal };
}

// Written out, so that where a node is let go there is one call, and not one for each thing that it
// holds: each such place is proved.
impl Drop for Node {
    fn drop(self) {
        let Node {
            alloc: _,
            engine: _,
            journal: _,
            stopped: _,
        } = self;
    }
}

impl Node {
    ghost use Rattle.sp_node.specs.Node.{IsPlainNode};
    ghost use Rattle.sp_node.specs.Terms.{terms_in, terms_of};

    /// A node without a journal, which keeps the genesis block of the feed.
    ///
    /// # Errors
    ///
    /// `Memory` where there was none for the engine.
    pub fn plain(alloc: Global, head: FeedHead) -> Result<Node, Memory>
        ensures { IfOk result (IsPlainNode (terms_of head.profile head.bits) (head.genesis ∷ [])) }
    {
        let FeedHead {
            profile,
            bits,
            genesis,
        } = head;
        let engine = Engine::new(alloc, genesis, bits, profile)?;
        Ok(Node {
            alloc,
            engine,
            journal: None,
            stopped: false,
        })
    }

    /// A node with a journal on the disk: the one that was found, whose blocks it keeps in their
    /// order, or else a new one, which it creates there. `stored` is what `Stored::open` found on the
    /// disk. A found journal's disk isn't called.
    ///
    /// # Errors
    ///
    /// `OtherChain` exactly where a journal was found and its profile, its bits of work or the bytes of
    /// its genesis block differ from those of the head, with the bits, the genesis ids and the profiles
    /// of both. `DiskFault`
    /// where the disk refused a call: it holds no journal, or the new one. `Memory` where there was
    /// none for the engine or the journal; the disk wasn't called.
    pub fn start<D: Disk>(
        alloc: Global,
        disk: &mut D,
        stored: Stored,
        head: FeedHead,
    ) -> Result<Node, StartFault>
        requires ready { IsReady stored (D.now disk.old) }

        ensures kept { IfOk result (λ node. node.kept ≡ head.genesis ∷ stored_blocks stored) }
        ensures sent { IfOk result (λ node. node.kept
            ≡ kept_by_all head.bits head.genesis (map bytes_in (stored_blocks stored))) }
        ensures terms { IfOk result (λ node. node.terms ≡ terms_of head.profile head.bits) }
        ensures live { IfOk result (λ node. node.stopped ≡ false) }
        ensures has { IfOk result (λ node. IsSome node.journal) }
        ensures stands { IfOk result (λ node. IsKeptOn node.terms node.kept node.journal (D.now disk.new)) }

        // A crash at any moment of the call leaves what was found, or no journal or the new one; and once it
        // leaves nothing but a journal, it leaves one at each later moment.
        ensures any_moment { LeavesStarted stored head (D.now disk.old) (D.now disk.new) }
        ensures untouched { IsFound stored → disk.new ≡ disk.old }
        ensures told { SameTold (D.now disk.old) (D.now disk.new) }

        ensures same { OnOk result (IsOfSame stored head) }
        ensures other { IfErr result (λ fault. (fault ≡ starts.DiskFault) ⊎ ((fault ≡ starts.Memory)
            ⊎ ((IsOfSame stored head → ⊥) × NamesBoth stored head fault))) }
        ensures created { IsErrOf result starts.DiskFault → IsFound stored → ⊥ }
        ensures fault { IsErrOf result starts.DiskFault → Rose (D.now disk.old).faults (D.now disk.new).faults }
        ensures memory { IsErrOf result starts.Memory → disk.new ≡ disk.old }
        ensures later { (D.now disk.old).faults ≤ (D.now disk.new).faults }
        ensures quiet { (IsErrOf result starts.DiskFault → ⊥) → (D.now disk.new).faults ≡ (D.now disk.old).faults }
    {
        match stored {
            Stored::Empty { gate } => match start_new(alloc, disk, gate, head) {
                Ok((engine, journal)) => Ok(Node::with_journal(alloc, engine, journal)),
                Err(fault) => Err(fault),
            },
            Stored::Found(opened) => match start_found(alloc, opened, head) {
                Ok((engine, journal)) => Ok(Node::with_journal(alloc, engine, journal)),
                Err(fault) => Err(fault),
            },
        }
    }

    // A node of an engine and the journal of its kept blocks.
    fn with_journal(alloc: Global, engine: Engine, journal: Journal) -> Node
        requires { FitsKept (terms_in engine) engine.kept journal }
        ensures { result ≡ record { terms = terms_in engine; kept = engine.kept; stopped = false; journal = Some journal; engine = engine } }
    {
        Node {
            alloc,
            engine,
            journal: Some(journal),
            stopped: false,
        }
    }

    /// Answers a message that isn't the end: writes the line of what became of the block, or of
    /// what the present blocks say of two blocks, of a transaction or of a lock, or the text of all
    /// pairs of present blocks, or the report on them. A question that one line answers takes no
    /// memory. With a journal, a block that is to be kept goes to the engine first, to the journal
    /// next, and its line is written last. Only such a block is asked of the disk, and only where
    /// there is a journal.
    ///
    /// # Errors
    ///
    /// `WriteFault` where the sink failed; a block is kept all the same, and recorded. `DiskFault`
    /// where the disk refused a call: it may hold the block or not, and nothing was written. `Memory`
    /// where there was none for a block, or for the order in which a text lists; neither sink nor disk
    /// was called, and the node is as it was: it answers the next message as if this one hadn't come. After
    /// `WriteFault` and `DiskFault` the node is stopped.
    pub fn message<K: Sink, D: Disk>(
        &mut self,
        message: &Message<'_>,
        naming: &Naming<'_>,
        sink: &mut K,
        disk: &mut D,
    ) -> Result<(), NodeFault>
        requires live { self.old.stopped ≡ false }
        requires before_end { IsSome (said_by message.now) }
        requires stands { IsKeptOn self.old.terms self.old.kept self.old.journal (D.now disk.old) }

        // What answers the message is written, and a block that was to be kept is.
        ensures ok { OnOk result (IfSome (said_by message.now) (λ said.
            Appends (K.taken sink.old) (K.taken sink.new)
            (reply_of (labels_of naming.now) self.old.terms self.old.kept said))) }
        ensures kept { OnOk result (IfSome (said_by message.now) (λ said.
            self.new.kept ≡ kept_then self.old.terms.bits self.old.kept said)) }
        ensures terms { self.new.terms ≡ self.old.terms }

        // So is one whose line wasn't written whole.
        ensures kept_unwritten { result ≡ Err NodeFault.WriteFault → IfSome (said_by message.now)
            (λ said. self.new.kept ≡ kept_then self.old.terms.bits self.old.kept said) }

        // So is one that the disk may hold or not.
        ensures kept_unsure { result ≡ Err NodeFault.DiskFault → IfSome (said_by message.now)
            (λ said. self.new.kept ≡ kept_then self.old.terms.bits self.old.kept said) }

        // Every crash leaves a block whose line is written, or was to be.
        ensures acknowledged { OnOk result
            (IsKeptOn self.new.terms self.new.kept self.new.journal (D.now disk.new)) }
        ensures acknowledged_unwritten { result ≡ Err NodeFault.WriteFault
            → IsKeptOn self.new.terms self.new.kept self.new.journal (D.now disk.new) }

        // A crash at any moment of the call leaves the blocks from before it, or these and the new one.
        ensures any_moment { IfSome (said_by message.now) (λ said.
            LeavesOn self.old.journal (D.now disk.old) (D.now disk.new)
            (HoldsThen self.old.terms self.old.kept said)) }
        ensures uncalled { self.old.journal ≡ None → (disk.new ≡ disk.old) × (result ≢ Err NodeFault.DiskFault) }
        ensures asked { IfSome (said_by message.now) (λ said. IsQuestion said
            → (disk.new ≡ disk.old) × (result ≢ Err NodeFault.DiskFault)) }
        ensures has { is_some self.new.journal ≡ is_some self.old.journal }

        // Where that failed, a front of the answer was; nothing, where memory was refused or the disk
        // failed.
        ensures err { OnErr result (IfSome (said_by message.now) (λ said.
            AppendsFront (K.taken sink.old) (K.taken sink.new)
            (reply_of (labels_of naming.now) self.old.terms self.old.kept said))) }
        ensures silent { result ≡ Err NodeFault.DiskFault → sink.new ≡ sink.old }
        ensures memory { result ≡ Err NodeFault.Memory → sink.new ≡ sink.old }
        ensures memory_disk { result ≡ Err NodeFault.Memory → disk.new ≡ disk.old }
        ensures cause { IfErr result (HasNodeCause (K.faults sink.old) (K.faults sink.new)
            (D.now disk.old).faults (D.now disk.new).faults) }
        ensures quiet { result ≢ Err NodeFault.WriteFault → K.faults sink.new ≡ K.faults sink.old }
        ensures disk_quiet { result ≢ Err NodeFault.DiskFault
            → (D.now disk.new).faults ≡ (D.now disk.old).faults }
        ensures told { SameTold (D.now disk.old) (D.now disk.new) }
        ensures disk_later { (D.now disk.old).faults ≤ (D.now disk.new).faults }
        ensures vote { (x y : ℕ) → said_by message.now ≡ Some (SaysVote x y)
            → result ≢ Err NodeFault.Memory }
        ensures tx { (id : ℕ) → said_by message.now ≡ Some (SaysTx id)
            → result ≢ Err NodeFault.Memory }
        ensures balance { (lock : ℕ) → said_by message.now ≡ Some (SaysBalance lock)
            → result ≢ Err NodeFault.Memory }
        ensures later { K.faults sink.old ≤ K.faults sink.new }

        // The sink or the disk failed. Where memory was refused, all is as it was, in the engine too.
        ensures stopped { self.new.stopped ≡ stops result }
        ensures refused { result ≡ Err NodeFault.Memory → IsAsItWas self.old self.new }
    {
        match message {
            Message::Block(bytes) => self.arrive(bytes, naming, sink, disk),
            _ => self.answer(message, naming, sink),
        }
    }

    /// Whether a message wasn't answered since the sink or the disk failed. No other is then.
    pub fn stopped(&self) -> bool
        ensures { result ≡ self.now.stopped }
    {
        self.stopped
    }

    /// The engine.
    pub fn engine(&self) -> &Engine
        ensures ledger { result.now ≡ self.now.engine }
        ensures profile { result.now.profile ≡ self.now.terms.profile }
        ensures bits { result.now.bits ≡ self.now.terms.bits }
        ensures kept { result.now.kept ≡ self.now.kept }
    {
        &self.engine
    }
}
