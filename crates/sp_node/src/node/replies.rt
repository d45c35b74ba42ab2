//! How a node replies to each kind of message: to a block that arrives, and to the questions.

ghost use Rattle.std.specs.Prelude.{◌≡◌, ◌≢◌, ◌≤◌, false, Err, is_some, IfErr, IfSome, IsSome, None, OnErr, OnOk};
ghost use Rattle.std.specs.Io.KnownBytes.{Appends};
ghost use Rattle.sp_io.specs.Causes.{Rose};
ghost use Rattle.sp_io.specs.Whole.{AppendsFront};
ghost use Rattle.sp_feed.specs.Kinds.{SaysBlock};
ghost use Rattle.sp_feed.specs.Messages.{said_by};
ghost use Rattle.sp_report.specs.Asks.{ask_text};
ghost use Rattle.sp_report.specs.Naming.{labels_of};
ghost use Rattle.sp_report.specs.Texts.{text_of};
ghost use Rattle.sp_journal.specs.Settled.{SameTold};
ghost use Rattle.sp_node.specs.Answers.{IsQuestion, IsTextOf, kept_then, reply_of};
ghost use Rattle.sp_node.specs.Journalled.{HoldsThen, IsKeptOn, LeavesOn};
ghost use Rattle.sp_node.specs.Node.{HasNodeCause, IsAsItWas, stops};

use crate::arrival::keep_on;
use crate::fault::{KeepFault, NodeFault};
use crate::node::Node;
use sp_disk::Disk;
use sp_feed::Message;
use sp_io::Sink;
use sp_report::{Ask, Naming, Text, TextFault, answer_line, ask_line, write_text};

impl Node {
    // Offers a block's bytes to the engine, records the block where it is kept, and writes what became
    // of them.
    pub(super) fn arrive<K: Sink, D: Disk>(
        &mut self,
        bytes: &[u8],
        naming: &Naming<'_>,
        sink: &mut K,
        disk: &mut D,
    ) -> Result<(), NodeFault>
        requires live { self.old.stopped ≡ false }
        requires stands { IsKeptOn self.old.terms self.old.kept self.old.journal (D.now disk.old) }
        ensures ok { OnOk result (Appends (K.taken sink.old) (K.taken sink.new)
            (reply_of (labels_of naming.now) self.old.terms self.old.kept (SaysBlock bytes.now))) }
        ensures kept { OnOk result (self.new.kept
            ≡ kept_then self.old.terms.bits self.old.kept (SaysBlock bytes.now)) }
        ensures kept_unwritten { result ≡ Err NodeFault.WriteFault →
            self.new.kept ≡ kept_then self.old.terms.bits self.old.kept (SaysBlock bytes.now) }
        ensures kept_unsure { result ≡ Err NodeFault.DiskFault →
            self.new.kept ≡ kept_then self.old.terms.bits self.old.kept (SaysBlock bytes.now) }
        ensures terms { self.new.terms ≡ self.old.terms }
        ensures acknowledged { OnOk result
            (IsKeptOn self.new.terms self.new.kept self.new.journal (D.now disk.new)) }
        ensures acknowledged_unwritten { result ≡ Err NodeFault.WriteFault
            → IsKeptOn self.new.terms self.new.kept self.new.journal (D.now disk.new) }
        ensures any_moment { LeavesOn self.old.journal (D.now disk.old) (D.now disk.new)
            (HoldsThen self.old.terms self.old.kept (SaysBlock bytes.now)) }
        ensures uncalled { self.old.journal ≡ None → (disk.new ≡ disk.old) × (result ≢ Err NodeFault.DiskFault) }
        ensures has { is_some self.new.journal ≡ is_some self.old.journal }
        ensures err { OnErr result (AppendsFront (K.taken sink.old) (K.taken sink.new)
            (reply_of (labels_of naming.now) self.old.terms self.old.kept (SaysBlock bytes.now))) }
        ensures silent { result ≡ Err NodeFault.DiskFault → sink.new ≡ sink.old }
        ensures memory { result ≡ Err NodeFault.Memory → sink.new ≡ sink.old }
        ensures memory_disk { result ≡ Err NodeFault.Memory → disk.new ≡ disk.old }
        ensures cause { IfErr result (HasNodeCause (K.faults sink.old) (K.faults sink.new)
            (D.now disk.old).faults (D.now disk.new).faults) }
        ensures quiet { result ≢ Err NodeFault.WriteFault → K.faults sink.new ≡ K.faults sink.old }
        ensures disk_quiet { result ≢ Err NodeFault.DiskFault
            → (D.now disk.new).faults ≡ (D.now disk.old).faults }
        ensures told { SameTold (D.now disk.old) (D.now disk.new) }
        ensures disk_later { (D.now disk.old).faults ≤ (D.now disk.new).faults }
        ensures later { K.faults sink.old ≤ K.faults sink.new }
        ensures stopped { self.new.stopped ≡ stops result }
        ensures refused { result ≡ Err NodeFault.Memory → IsAsItWas self.old self.new }
    {
        match keep_on(&mut self.engine, &mut self.journal, disk, bytes) {
            Ok(answer) => match answer_line(&answer, naming, sink) {
                Ok(()) => Ok(()),
                Err(_) => {
                    self.stopped = true;
                    Err(NodeFault::WriteFault)
                }
            },
            Err(KeepFault::DiskFault) => {
                self.stopped = true;
                Err(NodeFault::DiskFault)
            }
            Err(KeepFault::Memory) => Err(NodeFault::Memory),
        }
    }

    // Answers a question.
    #[tactic(auto, unfolding(crate::specs::Answers::reply_of))]
    pub(super) fn answer<K: Sink>(
        &mut self,
        question: &Message<'_>,
        naming: &Naming<'_>,
        sink: &mut K,
    ) -> Result<(), NodeFault>
        requires live { self.old.stopped ≡ false }
        requires before_end { IsSome (said_by question.now) }
        requires question { IfSome (said_by question.now) IsQuestion }
        ensures ok { OnOk result (IfSome (said_by question.now) (λ said.
            Appends (K.taken sink.old) (K.taken sink.new)
            (reply_of (labels_of naming.now) self.old.terms self.old.kept said))) }
        ensures err { OnErr result (IfSome (said_by question.now) (λ said.
            AppendsFront (K.taken sink.old) (K.taken sink.new)
            (reply_of (labels_of naming.now) self.old.terms self.old.kept said))) }
        ensures state { self.new ≡ record self.old { stopped = stops result } }
        ensures memory { result ≡ Err NodeFault.Memory → IsTextOf (said_by question.now) × (sink.new ≡ sink.old) }
        ensures never { result ≢ Err NodeFault.DiskFault }
        ensures cause { result ≡ Err NodeFault.WriteFault → Rose (K.faults sink.old) (K.faults sink.new) }
        ensures quiet { result ≢ Err NodeFault.WriteFault → K.faults sink.new ≡ K.faults sink.old }
        ensures later { K.faults sink.old ≤ K.faults sink.new }
    {
        match question {
            Message::Vote(x, y) => self.ask(&Ask::Vote(*x, *y), naming, sink),
            Message::Tx(id) => self.ask(&Ask::Tx(*id), naming, sink),
            Message::Balance(lock) => self.ask(&Ask::Balance(*lock), naming, sink),
            Message::Pairs => self.tell(&Text::Pairs, naming, sink),
            Message::Report => self.tell(&Text::Report, naming, sink),
            Message::Block(_) | Message::End => unreachable!(),
        }
    }

    // Writes what the present blocks say of what is asked.
    fn ask<K: Sink>(
        &mut self,
        ask: &Ask,
        naming: &Naming<'_>,
        sink: &mut K,
    ) -> Result<(), NodeFault>
        requires { self.old.stopped ≡ false }
        ensures ok { OnOk result
            (Appends (K.taken sink.old) (K.taken sink.new) (ask_text self.old.terms.profile (labels_of naming.now) self.old.kept ask.now)) }
        ensures state { self.new ≡ record self.old { stopped = stops result } }
        ensures err { OnErr result
            (AppendsFront (K.taken sink.old) (K.taken sink.new) (ask_text self.old.terms.profile (labels_of naming.now) self.old.kept ask.now)) }
        ensures never { IfErr result (λ fault. fault ≡ NodeFault.WriteFault) }
        ensures cause { OnErr result (Rose (K.faults sink.old) (K.faults sink.new)) }
        ensures quiet { result ≢ Err NodeFault.WriteFault → K.faults sink.new ≡ K.faults sink.old }
        ensures later { K.faults sink.old ≤ K.faults sink.new }
    {
        match ask_line(&self.engine, ask, naming, sink) {
            Ok(()) => Ok(()),
            Err(_) => {
                self.stopped = true;
                Err(NodeFault::WriteFault)
            }
        }
    }

    // Writes a text over the present blocks.
    #[tactic(auto, using(sp_io::proofs::Stops::stops_at_start))]
    fn tell<K: Sink>(
        &mut self,
        text: &Text,
        naming: &Naming<'_>,
        sink: &mut K,
    ) -> Result<(), NodeFault>
        requires { self.old.stopped ≡ false }
        ensures ok { OnOk result
            (Appends (K.taken sink.old) (K.taken sink.new) (text_of self.old.terms.profile (labels_of naming.now) self.old.kept text.now)) }
        ensures state { self.new ≡ record self.old { stopped = stops result } }
        ensures err { OnErr result
            (AppendsFront (K.taken sink.old) (K.taken sink.new) (text_of self.old.terms.profile (labels_of naming.now) self.old.kept text.now)) }
        ensures memory { result ≡ Err NodeFault.Memory → sink.new ≡ sink.old }
        ensures never { result ≢ Err NodeFault.DiskFault }
        ensures cause { result ≡ Err NodeFault.WriteFault → Rose (K.faults sink.old) (K.faults sink.new) }
        ensures quiet { result ≢ Err NodeFault.WriteFault → K.faults sink.new ≡ K.faults sink.old }
        ensures later { K.faults sink.old ≤ K.faults sink.new }
    {
        match write_text(self.alloc, &self.engine, text, naming, sink) {
            Ok(()) => Ok(()),
            Err(TextFault::WriteFault) => {
                self.stopped = true;
                Err(NodeFault::WriteFault)
            }
            Err(TextFault::Memory) => Err(NodeFault::Memory),
        }
    }
}
