//! Bytes that tests put together from pieces, numbers, digits and names.

use std::alloc::Global;
use std::process::Abort;

/// Capital letters, and the 64 digits of the ids and locks that they stand for.
pub type Names = &'static [(u8, &'static str)];

/// Bytes that are put together. What can't be put is remembered until they are read, so that whoever puts
/// them together has no way out: each of these has its price in a proof.
#[derive(Drop)]
pub struct Text {
    bytes: Vec<u8>,
    is_whole: bool,
}

impl Text {
    pub fn new(alloc: Global) -> Text {
        Text {
            bytes: Vec::new(alloc),
            is_whole: true,
        }
    }

    pub fn of(alloc: Global, bytes: &[u8]) -> Text {
        let mut text = Text::new(alloc);
        text.put(bytes);
        text
    }

    pub fn put(&mut self, bytes: &[u8]) {
        if self.bytes.extend_from_slice(bytes).is_err() {
            self.is_whole = false;
        }
    }

    /// So many times this byte.
    pub fn put_times(&mut self, count: usize, byte: u8) {
        let length = self.bytes.len().saturating_add(count);
        if self.bytes.resize(length, byte).is_err() {
            self.is_whole = false;
        }
    }

    /// Something can't be put.
    pub fn spoil(&mut self) {
        self.is_whole = false;
    }

    pub fn len(&self) -> usize {
        self.bytes.len()
    }

    /// The bytes so far.
    pub fn so_far(&self) -> &[u8] {
        self.bytes.as_slice()
    }

    /// The last so many bytes so far.
    pub fn end(&self, length: usize) -> &[u8] {
        let from = self.bytes.len().saturating_sub(length);
        self.bytes.get(from..).unwrap_or(b"")
    }

    /// All that was to be put.
    pub fn whole(&self, rt: &impl Abort) -> &[u8] {
        assert!(rt; self.is_whole, "a text isn't whole");
        self.bytes.as_slice()
    }
}

/// The one text and then the other.
pub fn joined(alloc: Global, one: &[u8], other: &[u8]) -> Text {
    let mut whole = Text::of(alloc, one);
    whole.put(other);
    whole
}

/// A number below 1,000 in decimal digits.
pub fn put_number(out: &mut Text, number: u16) {
    let digits = [
        b'0'.wrapping_add((number / 100 % 10) as u8),
        b'0'.wrapping_add((number / 10 % 10) as u8),
        b'0'.wrapping_add((number % 10) as u8),
    ];
    let from = if number < 10 {
        2
    } else if number < 100 {
        1
    } else {
        0
    };
    out.put(digits.get(from..).unwrap_or(b"?"));
}

/// The hexadecimal digit of a value below 16.
fn digit_of(value: u8) -> u8 {
    if value < 10 {
        b'0'.wrapping_add(value)
    } else {
        b'W'.wrapping_add(value)
    }
}

/// These bytes in hexadecimal digits.
pub fn put_hex(out: &mut Text, bytes: &[u8]) {
    for byte in bytes {
        out.put(&[digit_of(*byte / 16), digit_of(*byte % 16)]);
    }
}

/// The value of a hexadecimal digit, 0 where it is none.
fn value_of(digit: u8) -> u8 {
    match digit {
        b'0'..=b'9' => digit - b'0',
        b'a'..=b'f' => digit - b'a' + 10,
        _ => 0,
    }
}

/// The bytes of these digits.
pub fn put_bytes(out: &mut Text, digits: &[u8]) {
    let mut high = None;
    for digit in digits {
        let value = value_of(*digit);
        match high {
            None => high = Some(value.wrapping_mul(16)),
            Some(first) => {
                out.put(&[value.wrapping_add(first)]);
                high = None;
            }
        }
    }
}

/// What a name stands for, if it is known.
fn digits_of(names: Names, name: u8) -> Option<&'static str> {
    for (known, digits) in names {
        if *known == name {
            return Some(digits);
        }
    }
    None
}

/// The digits that a name stands for.
fn put_digits(out: &mut Text, names: Names, name: u8) {
    match digits_of(names, name) {
        Some(digits) => out.put(digits.as_bytes()),
        None => out.spoil(),
    }
}

/// The 32 bytes that a name stands for.
pub fn put_named(out: &mut Text, names: Names, name: u8) {
    match digits_of(names, name) {
        Some(digits) => put_bytes(out, digits.as_bytes()),
        None => out.spoil(),
    }
}

/// A text with 64 digits in place of each name.
pub fn in_digits(alloc: Global, names: Names, text: &[u8]) -> Text {
    let mut out = Text::new(alloc);
    for byte in text {
        if byte.is_ascii_uppercase() {
            put_digits(&mut out, names, *byte);
        } else {
            out.put(&[*byte]);
        }
    }
    out
}
