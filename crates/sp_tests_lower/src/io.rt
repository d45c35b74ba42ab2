//! What sources and sinks answer to rows of calls, written down by hand.

use sp_io::{
    Calls, Failed, Fails, MemSink, MemSource, Page, ReadySource, Sink, Source, StdSink, StdSource,
    read_full, write_whole,
};
use std::alloc::{AllocError, Global};
use std::io::{self, ErrorKind, Read, Write};
use std::test::Fail;

const TEXT: [u8; 6] = *b"abcdef";

/// Which calls fail: none, these two, or each from one on.
#[derive(Clone, Copy)]
enum Plan {
    Never,
    At(u32, u32),
    From(u32),
}

fn fails(alloc: Global, plan: Plan) -> Result<Fails, AllocError> {
    Ok(match plan {
        Plan::Never => Fails::Never,
        Plan::At(first, second) => {
            Fails::At(Calls::of(Vec::from_slice(alloc, &[first, second])?))
        }
        Plan::From(first) => Fails::From(first),
    })
}

type Answer = Result<usize, Failed>;

const FAULT: Answer = Err(Failed);

/// Objects with this step and plan, a source of `TEXT` and a sink with room for five bytes.
#[derive(Clone, Copy)]
struct Row {
    step: u16,
    plan: Plan,
    // The rooms of four reads, and how much of the text four writes offer.
    sizes: [usize; 4],
    reads: [Answer; 4],
    writes: [Answer; 4],
    // Four bytes are read full twice, and the first four of the text written whole twice.
    full: [Answer; 2],
    whole: [Result<(), Failed>; 2],
    kept: &'static [u8],
}

const ROWS: &[Row] = &[
    Row {
        step: 9,
        plan: Plan::Never,
        sizes: [4, 0, 6, 6],
        reads: [Ok(4), Ok(0), Ok(2), Ok(0)],
        writes: [Ok(4), Ok(0), Ok(1), FAULT],
        full: [Ok(4), Ok(2)],
        whole: [Ok(()), Err(Failed)],
        kept: b"abcda",
    },
    Row {
        step: 9,
        plan: Plan::Never,
        sizes: [6, 0, 1, 0],
        reads: [Ok(6), Ok(0), Ok(0), Ok(0)],
        writes: [Ok(5), FAULT, FAULT, FAULT],
        full: [Ok(4), Ok(2)],
        whole: [Ok(()), Err(Failed)],
        kept: b"abcda",
    },
    Row {
        step: 2,
        plan: Plan::Never,
        sizes: [4, 0, 6, 6],
        reads: [Ok(2), Ok(0), Ok(2), Ok(2)],
        writes: [Ok(2), Ok(0), Ok(2), Ok(1)],
        full: [Ok(4), Ok(2)],
        whole: [Ok(()), Err(Failed)],
        kept: b"abcda",
    },
    Row {
        step: 3,
        plan: Plan::At(2, 0),
        sizes: [4, 0, 6, 6],
        reads: [FAULT, Ok(0), FAULT, Ok(3)],
        writes: [FAULT, Ok(0), FAULT, Ok(3)],
        full: [FAULT, FAULT],
        whole: [Err(Failed), Err(Failed)],
        kept: b"abc",
    },
    Row {
        step: 1,
        plan: Plan::From(2),
        sizes: [4, 0, 6, 6],
        reads: [Ok(1), Ok(0), FAULT, FAULT],
        writes: [Ok(1), Ok(0), FAULT, FAULT],
        full: [FAULT, FAULT],
        whole: [Err(Failed), Err(Failed)],
        kept: b"ab",
    },
];

fn source_of(alloc: Global, row: &Row) -> Result<MemSource, Fail> {
    if row.step == 0 {
        return Err("no step".into());
    }
    let text = Vec::from_slice(alloc, &TEXT)?;
    Ok(MemSource::new(text, row.step, fails(alloc, row.plan)?))
}

fn sink_of(alloc: Global, row: &Row) -> Result<MemSink, Fail> {
    if row.step == 0 {
        return Err("no step".into());
    }
    Ok(MemSink::new(alloc, 5, row.step, fails(alloc, row.plan)?)?)
}

/// Whether a source gives the text from its front, by these answers.
fn are_read(source: &mut MemSource, row: &Row) -> bool {
    let mut at = 0usize;
    for (size, answer) in row.sizes.iter().zip(&row.reads) {
        let mut out = [b'-'; 6];
        let got = source.read(&mut out[..(*size).min(6)]);
        let next = at.saturating_add(got.unwrap_or(0));
        if got != *answer || TEXT.get(at..next) != out.get(..next.saturating_sub(at)) {
            return false;
        }
        at = next;
    }
    true
}

fn are_written(sink: &mut MemSink, row: &Row) -> bool {
    for (size, answer) in row.sizes.iter().zip(&row.writes) {
        if sink.write(&TEXT[..(*size).min(6)]) != *answer {
            return false;
        }
    }
    true
}

fn read_fully(source: &mut MemSource) -> [Answer; 2] {
    let mut out = [b'-'; 4];
    let first = read_full(source, &mut out);
    [first, read_full(source, &mut out)]
}

fn write_wholly(sink: &mut MemSink) -> [Result<(), Failed>; 2] {
    let first = write_whole(sink, b"abcd");
    [first, write_whole(sink, b"abcd")]
}

/// What the calls of a row came to: whether each read and each write answered as it has to, what
/// was read full and written whole, and what the sink then kept.
#[derive(Drop)]
struct Ran {
    calls: (bool, bool),
    full: [Answer; 2],
    whole: [Result<(), Failed>; 2],
    sink: MemSink,
}

fn run(alloc: Global, row: &Row) -> Result<Ran, Fail> {
    let reads = are_read(&mut source_of(alloc, row)?, row);
    let writes = are_written(&mut sink_of(alloc, row)?, row);
    let full = read_fully(&mut source_of(alloc, row)?);
    let mut sink = sink_of(alloc, row)?;
    let whole = write_wholly(&mut sink);
    Ok(Ran {
        calls: (reads, writes),
        full,
        whole,
        sink,
    })
}

/// The first of the rows that comes to something else.
fn misrun(alloc: Global, rows: &[Row]) -> Result<Option<usize>, Fail> {
    for (place, row) in rows.iter().enumerate() {
        let ran = run(alloc, row)?;
        let got = (ran.calls, ran.full, ran.whole);
        if got != ((true, true), row.full, row.whole) || ran.sink.bytes() != row.kept {
            return Ok(Some(place));
        }
    }
    Ok(None)
}

#[test]
fn objects_in_memory(rt: HostRuntime) -> Result<(), Fail> {
    assert_eq!(rt; misrun(rt.alloc(), ROWS)?, None);
    Ok(())
}

#[test]
fn numbers_of_calls(rt: HostRuntime) -> Result<(), Fail> {
    let calls = Calls::of(Vec::from_slice(rt.alloc(), &[2, 0])?);
    assert!(rt; calls.as_slice() == [2, 0].as_slice());
    Ok(())
}

/// What a call answered, and what stood in the buffer behind it.
type Seen = (Answer, [u8; 4]);

/// Reads nothing, then a buffer's room twice, and twice more at the end.
fn drain<S: Source>(source: &mut S) -> [Seen; 5] {
    let mut out = [b'-'; 4];
    let nothing = (source.read(&mut []), out);
    let first = (source.read(&mut out), out);
    let rest = (read_full(source, &mut out), out);
    let end = (source.read(&mut out), out);
    [
        nothing,
        first,
        rest,
        end,
        (read_full(source, &mut out), out),
    ]
}

/// What is read of `TEXT`.
const DRAINED: [Seen; 5] = [
    (Ok(0), *b"----"),
    (Ok(4), *b"abcd"),
    (Ok(2), *b"efcd"),
    (Ok(0), *b"efcd"),
    (Ok(0), *b"efcd"),
];

#[test]
fn drains(rt: HostRuntime) -> Result<(), Fail> {
    let mut ready = ReadySource::new(Vec::from_slice(rt.alloc(), &TEXT)?);
    assert!(rt; drain(&mut ready) == DRAINED);
    assert!(rt; drain(&mut StdSource::new(TEXT.as_slice())) == DRAINED);
    Ok(())
}

/// A device whose reads fail, and which takes nothing.
#[derive(Drop)]
struct Stuck;

impl Read for Stuck {
    fn read(&mut self, _out: &mut [u8]) -> io::Result<usize> {
        Err(ErrorKind::BrokenPipe.into())
    }
}

impl Write for Stuck {
    fn write(&mut self, _piece: &[u8]) -> io::Result<usize> {
        Ok(0)
    }

    fn flush(&mut self) -> io::Result<()> {
        Ok(())
    }
}

/// A device whose first call fails with this error. It counts its calls, fills what is read with their
/// number and takes one byte a write.
#[derive(Drop)]
struct Failing {
    error: ErrorKind,
    calls: u8,
}

impl Failing {
    fn new(error: ErrorKind) -> Failing {
        Failing { error, calls: 0 }
    }

    fn call(&mut self) -> io::Result<u8> {
        self.calls = self.calls.saturating_add(1);
        if self.calls == 1 {
            return Err(self.error.into());
        }
        Ok(self.calls)
    }
}

impl Read for Failing {
    fn read(&mut self, out: &mut [u8]) -> io::Result<usize> {
        let call = self.call()?;
        out.fill(call);
        Ok(out.len())
    }
}

impl Write for Failing {
    fn write(&mut self, piece: &[u8]) -> io::Result<usize> {
        self.call()?;
        Ok(piece.len().min(1))
    }

    fn flush(&mut self) -> io::Result<()> {
        Ok(())
    }
}

/// Reads four bytes full twice.
fn read_twice<R: Read + Drop>(reader: R) -> [Seen; 2] {
    let mut source = StdSource::new(reader);
    let mut out = [b'-'; 4];
    let first = (read_full(&mut source, &mut out), out);
    [first, (read_full(&mut source, &mut out), out)]
}

/// Reads four bytes once, and then fully.
fn read_again<R: Read + Drop>(reader: R) -> [Seen; 2] {
    let mut source = StdSource::new(reader);
    let mut out = [b'-'; 4];
    let first = (source.read(&mut out), out);
    [first, (read_full(&mut source, &mut out), out)]
}

/// A call that fails isn't made again: the next one is the second. One that is interrupted is made again.
#[test]
fn failed_reads(rt: HostRuntime) {
    let wanted = [(FAULT, *b"----"), (Ok(4), [2; 4])];
    assert!(rt; read_twice(Failing::new(ErrorKind::TimedOut)) == wanted);
    assert!(rt; read_again(Failing::new(ErrorKind::TimedOut)) == wanted);
    let wanted = [(Ok(4), [2; 4]), (Ok(4), [3; 4])];
    assert!(rt; read_twice(Failing::new(ErrorKind::Interrupted)) == wanted);
    assert!(rt; read_again(Failing::new(ErrorKind::Interrupted)) == wanted);
    assert!(rt; read_twice(Stuck) == [(FAULT, *b"----"); 2]);
    let nothing = read_full(&mut StdSource::new(Stuck), &mut []);
    assert!(rt; nothing == Ok(0));
}

/// Writes two bytes, none, and three whole.
fn write_each<W: Write + Drop>(writer: W) -> (Answer, Answer, Result<(), Failed>) {
    let mut sink = StdSink::new(writer);
    let two = sink.write(b"ab");
    let none = sink.write(b"");
    (two, none, write_whole(&mut sink, b"cde"))
}

/// Writes three bytes whole, twice.
fn write_twice<W: Write + Drop>(writer: W) -> [Result<(), Failed>; 2] {
    let mut sink = StdSink::new(writer);
    let first = write_whole(&mut sink, b"cde");
    [first, write_whole(&mut sink, b"cde")]
}

#[test]
fn writers(rt: HostRuntime) {
    let mut kept = Vec::new(rt.alloc());
    assert!(rt; write_each(&mut kept) == (Ok(2), Ok(0), Ok(())));
    assert!(rt; kept.as_slice() == b"abcde".as_slice());
    assert!(rt; write_each(Stuck) == (FAULT, Ok(0), Err(Failed)));
}

/// A call that fails isn't made again: a byte a call is taken from then on. One that is interrupted is.
#[test]
fn failed_writes(rt: HostRuntime) {
    let mut device = Failing::new(ErrorKind::TimedOut);
    assert!(rt; write_twice(&mut device) == [Err(Failed), Ok(())]);
    assert_eq!(rt; device.calls, 4);
    let written = write_each(Failing::new(ErrorKind::TimedOut));
    assert!(rt; written == (FAULT, Ok(0), Ok(())));
    let mut device = Failing::new(ErrorKind::Interrupted);
    assert!(rt; write_twice(&mut device) == [Ok(()), Ok(())]);
    assert_eq!(rt; device.calls, 7);
    let written = write_each(Failing::new(ErrorKind::Interrupted));
    assert!(rt; written == (Ok(1), Ok(0), Ok(())));
}

/// How much of three pieces of 3,000 bytes was handed on behind each of them, and in the end.
fn handed_on(sink: &mut MemSink) -> Result<[usize; 4], Failed> {
    let piece = [b'a'; 3000];
    let mut page = Page::new();
    page.push(&piece, sink)?;
    let first = sink.bytes().len();
    page.push(&piece, sink)?;
    let second = sink.bytes().len();
    page.push(&piece, sink)?;
    let third = sink.bytes().len();
    page.flush(sink)?;
    Ok([first, second, third, sink.bytes().len()])
}

/// What finds no more room on a page is handed on.
#[test]
fn pages(rt: HostRuntime) -> Result<(), Fail> {
    let mut sink = MemSink::new(rt.alloc(), 9000, 9000, Fails::Never)?;
    assert!(rt; handed_on(&mut sink) == Ok([0, 3000, 6000, 9000]));
    let mut full = MemSink::new(rt.alloc(), 4000, 9000, Fails::Never)?;
    assert!(rt; handed_on(&mut full) == Err(Failed));
    assert_eq!(rt; full.bytes().len(), 4000);
    Ok(())
}
