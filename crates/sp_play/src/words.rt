//! The lines of a text and the words of a line, cut without a copy.

ghost use Rattle.std.specs.Prelude.{◌≡◌, ◌+◌, ◌<◌, ◌≤◌, ℕ, List, [], ◌∷◌, length, map, drop, IfOk, position, option_copied, IfSome, slice_index_or, slice_range, IfNone};
ghost use Rattle.std.specs.Str.Lines.{strip_carriage_return};
ghost use Rattle.sp_play.specs.Words.{BeginsWith, is_blank, is_line_end, lines_left, lines_of, parts_left, parts_of, words_of};

use sp_ids::Memory;
use std::alloc::Global;
use std::marker::Model;

/// The byte that ends a line.
const LINE_END: u8 = b'\n';

/// The place of the first line end.
fn line_end(text: &[u8]) -> Option<usize>
    ensures { result ≡ position is_line_end text.now }
{
    text.iter().position(|byte| *byte == LINE_END)
}

/// A line without one byte 13 at its end.
fn without_return(line: &[u8]) -> &[u8]
    ensures { result.now ≡ strip_carriage_return line.now }
{
    match line.strip_suffix(b"\r") {
        Some(front) => front,
        None => line,
    }
}

/// The first line of a text, and what follows it.
pub fn first_line(text: &[u8]) -> (&[u8], Option<&[u8]>)
    ensures lines { lines_of text.now ≡ result.0.now ∷ lines_left (option_copied result.1) }
    ensures shorter { IfSome result.1 (λ rest. length rest.now < length text.now) }
{
    match line_end(text) {
        Some(end) => (without_return(&text[..end]), Some(&text[end + 1..])),
        None => (without_return(text), None),
    }
}

/// Whether a byte separates words.
fn is_space_or_tab(byte: u8) -> bool
    ensures { result ≡ is_blank byte }
{
    byte == b' ' || byte == b'\t'
}

/// The place of the first space or tab.
fn blank_at(line: &[u8]) -> Option<usize>
    ensures { result ≡ position is_blank line.now }
{
    line.iter().position(|byte| is_space_or_tab(*byte))
}

/// What stands before the first space or tab of a line, and what follows it.
fn first_part(line: &[u8]) -> (&[u8], Option<&[u8]>)
    ensures parts { parts_of line.now ≡ result.0.now ∷ parts_left (option_copied result.1) }
    ensures shorter { IfSome result.1 (λ rest. length rest.now < length line.now) }
{
    match blank_at(line) {
        Some(end) => (&line[..end], Some(&line[end + 1..])),
        None => (line, None),
    }
}

/// The first word of a line, if it has words. It takes no memory.
pub fn first_word(line: &[u8]) -> Option<&[u8]>
    ensures { BeginsWith (option_copied result) (words_of line.now) }
{
    let mut rest = Some(line);
    'parts: loop {
        let Some(bytes) = rest else {
            return None;
        };
        let (part, after) = first_part(bytes);
        if !part.is_empty() {
            return Some(part);
        }
        rest = after;
    }
}

/// The words of a line.
#[derive(Drop)]
pub struct Words<'a> {
    list: Vec<&'a [u8]>,
}

impl<'a> Model for Words<'a> {
    ghost Value = { List (List ℕ) };

    ghost view = { λ w. map (λ word. word.now) w.list.items };
}

impl<'a> Words<'a> {
    /// The words of a line, in time in proportion to its bytes, and in memory in proportion to the
    /// words.
    pub fn of(alloc: Global, line: &'a [u8]) -> Result<Words<'a>, Memory>
        ensures { IfOk result (λ words. words ≡ words_of line.now) }
    {
        let mut list = Vec::new(alloc);
        let mut rest = Some(line);
        'parts: loop {
            let Some(bytes) = rest else {
                return Ok(Words { list });
            };
            let (part, after) = first_part(bytes);
            if !part.is_empty() {
                list.push(part)?;
            }
            rest = after;
        }
    }

    /// No words.
    pub fn none(alloc: Global) -> Words<'a>
        ensures { result ≡ [] }
    {
        Words {
            list: Vec::new(alloc),
        }
    }

    /// The number of words.
    pub fn len(&self) -> usize
        ensures { result ≡ length self.now }
    {
        self.list.len()
    }

    /// Three words from a place on, if there are so many.
    pub fn three(&self, place: usize) -> Option<(&'a [u8], &'a [u8], &'a [u8])>
        requires { place ≤ length self.now }
        ensures none { IfNone result (length self.now < place + 3) }
        ensures room { IfSome result (λ t. place + 3 ≤ length self.now) }
        ensures some { IfSome result (λ t. drop place self.now
            ≡ t.0.now ∷ t.1.now ∷ t.2.now ∷ drop (place + 3) self.now) }
    {
        if self.len() - place < 3 {
            return None;
        }
        Some((self.at(place), self.at(place + 1), self.at(place + 2)))
    }

    /// The words from one place up to another.
    pub fn range(&self, alloc: Global, from: usize, to: usize) -> Result<Words<'a>, Memory>
        requires ordered { from ≤ to }
        requires within { to ≤ length self.now }
        ensures { IfOk result (λ words. words ≡ slice_range self.now from to) }
    {
        let list = Vec::from_slice(alloc, &self.list[from..to])?;
        Ok(Words { list })
    }

    /// The word at a place, counted from 0.
    pub fn at(&self, place: usize) -> &'a [u8]
        requires { place < length self.now }
        ensures rest { drop place self.now ≡ result.now ∷ drop (place + 1) self.now }
        ensures word { result.now ≡ slice_index_or self.now place [] }
    {
        self.list[place]
    }
}
