//! Tests of the whole program by its top call, over sources, sinks and disks in memory: what the
//! contracts rest on and can't say, that the definitions are the rules. Every expected answer was
//! worked out by hand from the rules, or by another program where its file says so.
//!
//! A test is a table of runs, and `tries` compares each run whole. Since tests are proved too, the
//! program is called in one place, and what a run ends as is plain data.

mod alike;
mod answered;
mod balances;
mod built;
mod certified;
mod certs;
mod crashes;
mod damage;
mod disks;
mod faults;
mod feed_bytes;
mod feeds;
mod fresh;
mod gossip;
mod halves;
mod hostile;
mod journals;
mod judging;
mod large;
mod lengths;
mod lines;
mod made;
mod messages;
mod orders;
mod pages;
mod paired;
mod pieces;
mod real_file;
mod reports;
mod shapes;
mod shown;
mod spends;
mod streams;
mod text;
mod transfers;
mod wallet;
mod words;
mod worked;

use crate::command::run;
use crate::status::Status;
use crate::tests::disks::{Held, disk_of, is_uncalled};
use crate::tests::text::Text;
use sp_disk::MemDisk;
use sp_io::{Calls, Fails, MemSink, MemSource, Sink, Source};
use std::alloc::Global;
use std::process::Abort;

/// A text that is read, and what is answered. Its row in its table names it: each constant more in a
/// table has its price in the proof of the test that reads it.
pub type Case = (&'static [u8], &'static [u8]);

pub const SAMPLE: &[u8] = b"block A on G\nblock B on G\nblock C on A\nvote A B\n";

pub const SAMPLE_ANSWERS: &[u8] =
    b"kept A present 1\nkept B present 1\nkept C present 1\nvote A B before\n";

/// How a source gives and a sink takes, and what a disk holds.
#[derive(Clone, Copy)]
pub struct Ends {
    /// The most bytes that one read gives; not 0.
    pub given: u16,
    /// The most bytes that one write takes; not 0.
    pub taken: u16,
    /// How many bytes the sink has room for.
    pub room: usize,
    /// The number of the one read that fails, counted from 0.
    pub bad_read: Option<u32>,
    /// The number of the one write that fails, counted from 0.
    pub bad_write: Option<u32>,
    pub disk: Held,
    /// The number of the first call of the disk that fails, counted from 0; each later one fails too.
    pub bad_calls: Option<u32>,
}

/// No call fails, and there is room for every answer, which is taken whole. The disk isn't to be called.
pub const WIDE: Ends = Ends {
    given: 4096,
    taken: 65535,
    room: 1 << 20,
    bad_read: None,
    bad_write: None,
    disk: Held::Apart,
    bad_calls: None,
};

/// A run of the program.
#[derive(Clone, Copy)]
pub struct Trial<'a> {
    /// The words after the program's name, each ended by a line end.
    pub words: &'a [u8],
    pub input: &'a [u8],
    pub ends: Ends,
}

/// What the source gives to two reads of 7 bytes once the run has ended, none where the read fails,
/// the bytes that stand there then, and whether the sink takes one byte more.
pub type Rest = (Option<usize>, Option<usize>, [u8; 7], bool);

/// What a run has to end as.
#[derive(Clone, Copy)]
pub struct Wanted<'a> {
    pub status: Status,
    /// How many lines come before those that are compared.
    pub lines: usize,
    pub output: &'a [u8],
    /// Not compared where there is none.
    pub rest: Option<Rest>,
}

/// What a run ended as.
#[derive(Drop)]
pub struct Ended {
    pub status: Status,
    pub output: Text,
    pub rest: Rest,
}

/// The words that these lines are.
pub fn words_of(rt: &impl Abort, alloc: Global, lines: &[u8]) -> Vec<String> {
    let mut words = Vec::new(alloc);
    for line in str::from_utf8(lines).expect(rt, "words").lines() {
        let word = String::from_str(alloc, line).expect(rt, "memory");
        words.push(word).expect(rt, "memory");
    }
    words
}

fn fails(rt: &impl Abort, alloc: Global, call: Option<u32>) -> Fails {
    match call {
        Some(call) => Fails::At(Calls::of(vec![in alloc; call].expect(rt, "memory"))),
        None => Fails::Never,
    }
}

fn source_of(rt: &impl Abort, alloc: Global, trial: &Trial) -> MemSource {
    let given = trial.ends.given;
    assert!(rt; given != 0, "reads of nothing");
    let fails = fails(rt, alloc, trial.ends.bad_read);
    let bytes = Vec::from_slice(alloc, trial.input).expect(rt, "memory");
    MemSource::new(bytes, given, fails)
}

fn sink_of(rt: &impl Abort, alloc: Global, ends: &Ends) -> MemSink {
    assert!(rt; ends.taken != 0, "writes of nothing");
    let fails = fails(rt, alloc, ends.bad_write);
    MemSink::new(alloc, ends.room, ends.taken, fails).expect(rt, "memory")
}

fn rest_of(source: &mut MemSource, sink: &mut MemSink) -> Rest {
    let mut bytes = [0u8; 7];
    let first = source.read(&mut bytes).ok();
    let second = source.read(&mut bytes).ok();
    (first, second, bytes, sink.write(b"x").is_ok())
}

/// Runs the program on these ends. This is the tests' one call of it.
fn ran_on(
    alloc: Global,
    words: &[String],
    source: &mut MemSource,
    sink: &mut MemSink,
    disk: &mut MemDisk,
) -> Ended {
    let status = run(alloc, words, source, sink, disk);
    let output = Text::of(alloc, sink.bytes());
    let rest = rest_of(source, sink);
    Ended {
        status,
        output,
        rest,
    }
}

/// Runs the program on this disk in the place of the trial's own.
pub fn ran_over(rt: &impl Abort, alloc: Global, trial: &Trial, disk: &mut MemDisk) -> Ended {
    let words = words_of(rt, alloc, trial.words);
    let mut source = source_of(rt, alloc, trial);
    let mut sink = sink_of(rt, alloc, &trial.ends);
    ran_on(alloc, &words, &mut source, &mut sink, disk)
}

/// Runs the program. A disk that isn't to be called wasn't.
pub fn ran(rt: &impl Abort, alloc: Global, trial: &Trial) -> Ended {
    let mut disk = disk_of(rt, alloc, &trial.ends);
    let ended = ran_over(rt, alloc, trial, &mut disk);
    if matches!(trial.ends.disk, Held::Apart) {
        assert!(rt; is_uncalled(&mut disk), "the disk was called");
    }
    ended
}

/// What follows so many lines.
pub fn behind(output: &[u8], lines: usize) -> &[u8] {
    let mut ended = 0usize;
    for (at, byte) in output.iter().enumerate() {
        if ended == lines {
            return output.get(at..).unwrap_or(b"");
        }
        if *byte == b'\n' {
            ended = ended.saturating_add(1);
        }
    }
    b""
}

fn is_as(ended: &Ended, output: &[u8], wanted: &Wanted) -> bool {
    let rests = match wanted.rest {
        Some(rest) => ended.rest == rest,
        None => true,
    };
    rests && ended.status == wanted.status && behind(output, wanted.lines) == wanted.output
}

/// Compares what a run ended as with what is wanted.
pub fn agrees(rt: &impl Abort, name: &str, at: usize, ended: &Ended, wanted: &Wanted) {
    let output = ended.output.whole(rt);
    let written = str::from_utf8(output).unwrap_or("what is no text\n");
    assert!(rt;
        is_as(ended, output, wanted),
        "{name}, {at}: {:?} after\n{written}and then {:?}",
        ended.status,
        ended.rest
    );
}

/// Runs the program, and compares what the run ends as with what is wanted.
pub fn tries(
    rt: &impl Abort,
    alloc: Global,
    name: &str,
    at: usize,
    trial: &Trial,
    wanted: &Wanted,
) {
    let ended = ran(rt, alloc, trial);
    agrees(rt, name, at, &ended, wanted);
}

/// Runs these words at ends that are wide, and compares how the run ends and what is written behind so
/// many lines.
pub fn ends_as(
    rt: &impl Abort,
    alloc: Global,
    name: &str,
    at: usize,
    (words, input): (&[u8], &[u8]),
    status: Status,
    (lines, output): (usize, &[u8]),
) {
    let trial = Trial {
        words,
        input,
        ends: WIDE,
    };
    let wanted = Wanted {
        status,
        lines,
        output,
        rest: None,
    };
    tries(rt, alloc, name, at, &trial, &wanted);
}

/// Runs these words on the input of each case, and compares how the run ends and all that is written.
pub fn ends_all(
    rt: &impl Abort,
    alloc: Global,
    name: &str,
    words: &[u8],
    cases: &[Case],
    status: Status,
) {
    for (at, (input, output)) in cases.iter().enumerate() {
        ends_as(rt, alloc, name, at, (words, input), status, (0, output));
    }
}
