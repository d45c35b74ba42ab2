//! The check of a certificate: it is read whole and judged, and what it shows, or why it shows nothing,
//! is told in one line.

ghost use Rattle.std.specs.Prelude.{◌≡◌, ◌≢◌, ◌≤◌, ◌+◌, ◌++◌, ◌∷◌, [], ℕ, length, List, Option, Some};
ghost use Rattle.std.specs.Fmt.{decimal};
ghost use Rattle.sp_io.specs.Causes.{Rose};
ghost use Rattle.sp_model.specs.Votes as meant;
ghost use Rattle.sp_report.specs.Naming.{hex_label};
ghost use Rattle.spectre.specs.CheckEnds.{WritesVerdict};
ghost use Rattle.spectre.specs.Checks.{refuted_text, shown_text};
ghost use Rattle.spectre.specs.Ends.{Checks};
ghost use Rattle.spectre.specs.JobEnds.{WritesBy};
ghost use Rattle.spectre.specs.declared.job.Job.TheVariants as jobs;

use crate::keep::end_with;
use crate::status::Status;
use sp_cert::{Cert, CertFault, CheckFault, check as judge, read_cert};
use sp_ids::BlockId;
use sp_io::{Sink, Source};
use sp_model::Word;
use sp_report::{Line, malformed_line, truncated_line, word_text};
use std::alloc::Global;

/// The word that a sign says.
fn word_of(sign: i8) -> Word
    ensures { result ≡ meant.word_of sign }
{
    if sign == 0 {
        Word::Tie
    } else if sign < 0 {
        Word::Before
    } else {
        Word::After
    }
}

/// Writes an id and a space behind a line's front.
#[tactic(auto, unfolding(sp_report::specs::Naming::hex_label))]
fn push_id(line: &mut Line, id: &BlockId)
    requires { length line.old ≤ 100 }
    ensures text { line.new ≡ line.old ++ hex_label id.now ++ 32 ∷ [] }
    ensures size { length line.new ≡ length line.old + 65 }
{
    let mut digits = [0; 64];
    id.to_hex(&mut digits);
    line.push_bytes(&digits);
    line.push_byte(b' ');
}

/// The line of what a certificate shows.
#[tactic(auto, unfolding(crate::specs::Checks::shown_text))]
fn shown_line(cert: &Cert) -> Line
    ensures { result ≡ shown_text cert.now }
{
    let mut line = Line::new();
    line.push_bytes(b"shown ");
    push_id(&mut line, &cert.x);
    push_id(&mut line, &cert.y);
    line.push_bytes(word_text(word_of(cert.sign)));
    line.push_byte(b'\n');
    line
}

/// Ends a line by a number.
fn push_last(line: &mut Line, number: u16)
    requires { length line.old ≤ 100 }
    ensures { line.new ≡ line.old ++ decimal number ++ 10 ∷ [] }
{
    line.push_number(u64::from(number));
    line.push_byte(b'\n');
}

/// The line of the entry that refuses a certificate: the place of its world, and its block.
#[tactic(auto, unfolding(crate::specs::Checks::refuted_text))]
fn vote_line(place: u16, block: u16) -> Line
    ensures { result ≡ refuted_text (CheckFault.Vote place block) }
{
    let mut line = Line::new();
    line.push_bytes(b"fault refuted vote ");
    line.push_number(u64::from(place));
    line.push_byte(b' ');
    push_last(&mut line, block);
    line
}

/// The line of what refuses a certificate; none for want of memory.
#[tactic(auto, unfolding(crate::specs::Checks::refuted_text))]
fn refuted_line(fault: CheckFault) -> Line
    ensures { result ≡ refuted_text fault }
{
    let mut line = Line::new();
    match fault {
        CheckFault::Parent { block } => {
            line.push_bytes(b"fault refuted parent ");
            push_last(&mut line, block);
        }
        CheckFault::Pair => line.push_bytes(b"fault refuted pair\n"),
        CheckFault::World { place } => {
            line.push_bytes(b"fault refuted world ");
            push_last(&mut line, place);
        }
        CheckFault::Vote { place, block } => return vote_line(place, block),
        CheckFault::Sum => line.push_bytes(b"fault refuted sum\n"),
        CheckFault::Memory => {}
    }
    line
}

/// Judges a certificate, and writes its line.
fn tell_cert<K: Sink>(alloc: Global, cert: &Cert, sink: &mut K) -> Status
    ensures by { WritesVerdict cert.now (K.taken sink.old) (K.taken sink.new) result }
    ensures cause { result ≡ Status.WriteFault → Rose (K.faults sink.old) (K.faults sink.new) }
    ensures quiet { result ≢ Status.WriteFault → K.faults sink.new ≡ K.faults sink.old }
{
    match judge(alloc, cert) {
        Ok(()) => end_with(&shown_line(cert), Status::Done, sink),
        Err(CheckFault::Memory) => Status::Memory,
        Err(fault) => end_with(&refuted_line(fault), Status::Refuted, sink),
    }
}

/// Reads a certificate to the end of the source, and writes what it says of its two blocks, where nothing
/// refuses it; or the line of the first refusal, or that of the place where the bytes are no certificate,
/// alone. Nothing is written before that. It takes at most 33,820,672 bytes of the source, more than the longest
/// certificate has, memory in proportion to them, and a few passes over rows of eight words for each entry.
pub fn check<S: Source, K: Sink>(alloc: Global, source: &mut S, sink: &mut K) -> Status
    // Whatever a disk reads, since none is asked for anything.
    ensures by { (reads : Option (List ℕ)) → WritesBy (Some jobs.Check) reads
        (S.left source.old) (S.left source.new) (K.taken sink.old) (K.taken sink.new) result }
    ensures read_fault { result ≡ Status.ReadFault → sink.new ≡ sink.old }
    ensures read_cause { result ≡ Status.ReadFault → Rose (S.faults source.old) (S.faults source.new) }
    ensures write_cause { result ≡ Status.WriteFault → Rose (K.faults sink.old) (K.faults sink.new) }
    ensures read_quiet { result ≢ Status.ReadFault → S.faults source.new ≡ S.faults source.old }
    ensures write_quiet { result ≢ Status.WriteFault → K.faults sink.new ≡ K.faults sink.old }
    ensures among { Checks result }
{
    match read_cert(alloc, source) {
        Ok(cert) => tell_cert(alloc, &cert, sink),
        Err(CertFault::Malformed { at }) => end_with(&malformed_line(at), Status::Malformed, sink),
        Err(CertFault::Truncated { at }) => end_with(&truncated_line(at), Status::Truncated, sink),
        Err(CertFault::ReadFault) => Status::ReadFault,
        Err(CertFault::Memory) => Status::Memory,
    }
}
