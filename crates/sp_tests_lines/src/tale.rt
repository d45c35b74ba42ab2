//! What is told in lines and texts, each compared with a text written out by hand: whole, in pieces and
//! cut off.

use crate::fixtures::sink_of;
use sp_engine::{Answer, Engine};
use sp_io::MemSink;
use sp_report::{Ask, Naming, Text, TextFault, answer_line, ask_line, write_text};
use std::alloc::Global;
use std::test::Fail;

/// What is told: an answer, or what an engine says of a question or of all its blocks.
#[derive(Clone, Copy)]
pub enum Tale<'a> {
    Answer(&'a Answer),
    Ask(&'a Engine, &'a Ask),
    Text(&'a Engine, &'a Text),
}

/// What a call ended in, and what it wrote.
#[derive(Drop)]
struct Written {
    ended: Result<(), TextFault>,
    text: Vec<u8>,
}

fn tell_ask(engine: &Engine, ask: &Ask, sink: &mut MemSink) -> Result<(), TextFault> {
    ask_line(engine, ask, &Naming::Hex, sink)?;
    Ok(())
}

fn tell_text(
    alloc: Global,
    engine: &Engine,
    text: &Text,
    sink: &mut MemSink,
) -> Result<(), TextFault> {
    write_text(alloc, engine, text, &Naming::Hex, sink)
}

fn tell(alloc: Global, tale: &Tale<'_>, sink: &mut MemSink) -> Result<(), TextFault> {
    match tale {
        Tale::Answer(answer) => {
            answer_line(answer, &Naming::Hex, sink)?;
            Ok(())
        }
        Tale::Ask(engine, ask) => tell_ask(engine, ask, sink),
        Tale::Text(engine, text) => tell_text(alloc, engine, text, sink),
    }
}

/// The room for each text of these tests.
const ROOM: usize = 512;

fn write(alloc: Global, tale: &Tale<'_>, step: u16, failing: Option<u32>) -> Result<Written, Fail> {
    let mut sink = sink_of(alloc, ROOM, step, failing)?;
    let ended = tell(alloc, tale, &mut sink);
    let text = Vec::from_slice(alloc, sink.bytes())?;
    Ok(Written { ended, text })
}

/// Whether the text is written, so many bytes a call.
pub fn is_whole(alloc: Global, tale: &Tale<'_>, step: u16, text: &str) -> Result<bool, Fail> {
    let written = write(alloc, tale, step, None)?;
    Ok(written.ended == Ok(()) && written.text.as_slice() == text.as_bytes())
}

/// Whether a front of the text is written, by a byte a call of which this one fails.
fn is_cut(alloc: Global, tale: &Tale<'_>, call: usize, text: &str) -> Result<bool, Fail> {
    let written = write(alloc, tale, 1, Some(u32::try_from(call)?))?;
    Ok(
        written.ended == Err(TextFault::WriteFault)
            && Some(written.text.as_slice()) == text.as_bytes().get(..call),
    )
}

/// What is wrong where it is written whole, byte by byte, and with each call failing in turn.
pub fn wrong_in(alloc: Global, tale: &Tale<'_>, text: &str) -> Result<&'static str, Fail> {
    if !is_whole(alloc, tale, 1, text)? || !is_whole(alloc, tale, 512, text)? {
        return Ok("whole");
    }
    for call in 0..text.len() {
        if !is_cut(alloc, tale, call, text)? {
            return Ok("cut");
        }
    }
    Ok("")
}
