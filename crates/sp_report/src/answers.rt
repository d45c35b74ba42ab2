//! Answers written to a sink.

ghost use Rattle.std.specs.Prelude.{◌≡◌, OnErr, OnOk};
ghost use Rattle.std.specs.Io.KnownBytes.{Appends};
ghost use Rattle.sp_io.specs.Causes.{HasCause};
ghost use Rattle.sp_io.specs.Whole.{AppendsFront};
ghost use Rattle.sp_report.specs.Lines.{answer_text};
ghost use Rattle.sp_report.specs.Naming.{labels_of};

use crate::line::Line;
use crate::lines::{full_line, kept_line, known_line, refused_line, waiting_line};
use crate::naming::{Naming, block_label};
use sp_engine::Answer;
use sp_io::{Failed, Sink, write_whole};

// The line of an answer.
fn line_of(answer: &Answer, naming: &Naming<'_>) -> Line
    ensures { result ≡ answer_text (labels_of naming.now) answer.now }
{
    match answer {
        Answer::Kept { id, present } => kept_line(
            block_label(naming, id).as_slice(),
            u32::from(*present),
        ),
        Answer::Held { id } => waiting_line(block_label(naming, id).as_slice()),
        Answer::Known { id } => known_line(block_label(naming, id).as_slice()),
        Answer::Refused(refusal) => refused_line(*refusal),
        Answer::Full => full_line(),
    }
}

/// Writes the line of an answer.
///
/// # Errors
///
/// `Failed` where a call of the sink fails. The sink keeps what it took before.
pub fn answer_line<K: Sink>(
    answer: &Answer,
    naming: &Naming<'_>,
    sink: &mut K,
) -> Result<(), Failed>
    ensures ok { OnOk result (Appends (K.taken sink.old) (K.taken sink.new) (answer_text (labels_of naming.now) answer.now)) }
    ensures err { OnErr result
        (AppendsFront (K.taken sink.old) (K.taken sink.new) (answer_text (labels_of naming.now) answer.now)) }
    ensures cause { HasCause (K.faults sink.old) (K.faults sink.new) result }
{
    write_whole(sink, line_of(answer, naming).as_slice())
}
