//! A page of bytes on their way to a sink, so that a long text of short lines costs one call of the
//! sink for each 4,096 bytes or so, and no memory.

ghost use Rattle.std.specs.Prelude.{◌≡◌, ◌≤◌, ◌+◌, ◌++◌, [], length, OnErr, OnOk};
ghost use Rattle.std.specs.Io.KnownBytes.{Appends};
ghost use Rattle.sp_io.specs.Causes.{HasCause};
ghost use Rattle.sp_io.specs.Whole.{AppendsFront, Wrote};

use crate::failed::Failed;
use crate::sink::Sink;
use crate::whole::write_whole;
use std::marker::Model;

/// The most bytes that wait.
const SIZE: usize = 4096;

/// Bytes that wait to be written, 4,096 at most. Contracts see the list of them.
#[derive(Drop)]
pub struct Page {
    bytes: [u8; SIZE],
    len: usize,
}

impl Model for Page {
    ghost use Rattle.std.specs.Prelude.{ℕ, List, ◌≤◌, take};

    ghost Value = { List ℕ };

    ghost view = { λ page. take page.len page.bytes };

    ghost invariant = { λ page. page.len ≤ 4096 };
}

impl Page {
    /// None that wait.
    pub fn new() -> Page
        ensures { result ≡ [] }
    {
        Page {
            bytes: [0; SIZE],
            len: 0,
        }
    }

    /// Writes bytes behind those that wait. Those are handed to the sink first where there is no room
    /// for both.
    ///
    /// # Errors
    ///
    /// `Failed` where a call of the sink fails. The sink keeps what it took before.
    #[tactic(auto, using(crate::proofs::Pages::waits, crate::proofs::Pages::goes, crate::proofs::Pages::stops))]
    pub fn push<K: Sink>(&mut self, piece: &[u8], sink: &mut K) -> Result<(), Failed>
        requires { length piece.now ≤ 4096 }
        ensures ok { OnOk result
            (Wrote (K.taken sink.old) (K.taken sink.new) (self.old ++ piece.now) self.new) }
        ensures err { OnErr result
            (AppendsFront (K.taken sink.old) (K.taken sink.new) (self.old ++ piece.now)) }
        ensures cause { HasCause (K.faults sink.old) (K.faults sink.new) result }
    {
        if SIZE - self.len < piece.len() {
            self.flush(sink)?;
        }
        self.append(piece);
        Ok(())
    }

    /// Hands the bytes that wait to the sink.
    ///
    /// # Errors
    ///
    /// `Failed` where a call of the sink fails. The sink keeps what it took before.
    pub fn flush<K: Sink>(&mut self, sink: &mut K) -> Result<(), Failed>
        ensures ok { OnOk result (Appends (K.taken sink.old) (K.taken sink.new) self.old) }
        ensures none { OnOk result (self.new ≡ []) }
        ensures err { OnErr result (AppendsFront (K.taken sink.old) (K.taken sink.new) self.old) }
        ensures cause { HasCause (K.faults sink.old) (K.faults sink.new) result }
    {
        write_whole(sink, &self.bytes[..self.len])?;
        self.len = 0;
        Ok(())
    }

    // Writes bytes behind those that wait.
    fn append(&mut self, piece: &[u8])
        requires { length self.old + length piece.now ≤ 4096 }
        ensures { self.new ≡ self.old ++ piece.now }
    {
        let end = self.len + piece.len();
        self.bytes[self.len..end].copy_from_slice(piece);
        self.len = end;
    }
}
