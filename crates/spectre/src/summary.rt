//! The four lines of a summary.

ghost use Rattle.std.specs.Prelude.{◌≡◌, ◌++◌, OnErr, OnOk};
ghost use Rattle.std.specs.Io.KnownBytes.{Appends};
ghost use Rattle.sp_io.specs.Causes.{HasCause};
ghost use Rattle.sp_io.specs.Whole.{AppendsFront, Wrote};
ghost use Rattle.spectre.specs.Summary.{counts_text, tally_text};

use crate::counts::{Counts, Tally};
use sp_io::{Failed, Page, Sink};
use sp_report::{Line, accepted_count_line, balance_count_line, blocks_line};

// The line of how many pairs there are, and how often each word is said of one.
#[tactic(auto, unfolding(crate::specs::Summary::tally_text))]
fn tally_line(pairs: u32, tally: &Tally) -> Line
    ensures { result ≡ tally_text pairs tally.now }
{
    let mut line = Line::new();
    line.push_bytes(b"pairs ");
    line.push_number(u64::from(pairs));
    line.push_bytes(b" before ");
    line.push_number(u64::from(tally.before));
    line.push_bytes(b" after ");
    line.push_number(u64::from(tally.after));
    line.push_bytes(b" tie ");
    line.push_number(u64::from(tally.tie));
    line.push_byte(b'\n');
    line
}

// Puts two lines on a page.
fn push_two<K: Sink>(
    first: &Line,
    second: &Line,
    page: &mut Page,
    sink: &mut K,
) -> Result<(), Failed>
    ensures ok { OnOk result (Wrote (K.taken sink.old) (K.taken sink.new)
        (page.old ++ (first.now ++ second.now)) page.new) }
    ensures err { OnErr result (AppendsFront (K.taken sink.old) (K.taken sink.new)
        (page.old ++ (first.now ++ second.now))) }
    ensures cause { HasCause (K.faults sink.old) (K.faults sink.new) result }
{
    page.push(first.as_slice(), sink)?;
    page.push(second.as_slice(), sink)
}

/// Writes the four lines, through a page and without taking memory.
///
/// # Errors
///
/// `Failed` where a call of the sink fails. The sink keeps what it took before.
pub fn write_counts<K: Sink>(counts: &Counts, sink: &mut K) -> Result<(), Failed>
    ensures ok { OnOk result
        (Appends (K.taken sink.old) (K.taken sink.new) (counts_text counts.now)) }
    ensures err { OnErr result
        (AppendsFront (K.taken sink.old) (K.taken sink.new) (counts_text counts.now)) }
    ensures cause { HasCause (K.faults sink.old) (K.faults sink.new) result }
{
    let blocks = blocks_line(counts.present, counts.waiting);
    let pairs = tally_line(counts.pairs, &counts.tally);
    let accepted = accepted_count_line(counts.accepted);
    let paid = balance_count_line(counts.paid);
    let mut page = Page::new();
    push_two(&blocks, &pairs, &mut page, sink)?;
    push_two(&accepted, &paid, &mut page, sink)?;
    page.flush(sink)
}
