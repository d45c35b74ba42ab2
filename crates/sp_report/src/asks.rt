//! Questions answered to a sink.

ghost use Rattle.std.specs.Prelude.{◌≡◌, false, OnErr, OnOk};
ghost use Rattle.std.specs.Io.KnownBytes.{Appends};
ghost use Rattle.sp_io.specs.Causes.{HasCause};
ghost use Rattle.sp_io.specs.Whole.{AppendsFront};
ghost use Rattle.sp_report.specs.Asks.{ask_text};
ghost use Rattle.sp_report.specs.Naming.{labels_of};

use crate::ask::Ask;
use crate::line::Line;
use crate::lines::{balance_line, tx_line, vote_line};
use crate::naming::{Naming, block_label, lock_label, tx_label};
use sp_engine::Engine;
use sp_io::{Failed, Sink, write_whole};

/// The line that answers a question.
pub(crate) fn line_of(engine: &Engine, ask: &Ask, naming: &Naming<'_>) -> Line
    ensures { result ≡ ask_text engine.now.profile (labels_of naming.now) engine.now.kept ask.now }
{
    match ask {
        Ask::Vote(x, y) => {
            let word = engine.vote(x, y);
            vote_line(
                block_label(naming, x).as_slice(),
                block_label(naming, y).as_slice(),
                word,
            )
        }
        Ask::Tx(id) => tx_line(tx_label(naming, id).as_slice(), engine.tx_state(id)),
        Ask::Balance(lock) => balance_line(
            lock_label(naming, lock).as_slice(),
            engine.balance(lock),
        ),
    }
}

/// Writes the line that answers a question. It takes no memory.
///
/// # Errors
///
/// `Failed` where a call of the sink fails. The sink keeps what it took before.
pub fn ask_line<K: Sink>(
    engine: &Engine,
    ask: &Ask,
    naming: &Naming<'_>,
    sink: &mut K,
) -> Result<(), Failed>
    ensures ok { OnOk result
        (Appends (K.taken sink.old) (K.taken sink.new) (ask_text engine.now.profile (labels_of naming.now) engine.now.kept ask.now)) }
    ensures err { OnErr result
        (AppendsFront (K.taken sink.old) (K.taken sink.new) (ask_text engine.now.profile (labels_of naming.now) engine.now.kept ask.now)) }
    ensures cause { HasCause (K.faults sink.old) (K.faults sink.new) result }
{
    write_whole(sink, line_of(engine, ask, naming).as_slice())
}
