//! Texts of many lines or words, by the parts of which they are made.

use std::alloc::{AllocError, Global};

/// A part of a text. In the lines `@` stands for the number of the line among them, and in the items `%`
/// for that of the item on its line, each in decimal and counted from 0.
#[derive(Clone, Copy)]
pub enum Part {
    /// As it stands.
    Text(&'static [u8]),
    /// So many items one after another.
    Items(u32, &'static [u8]),
    /// So many lines: a front, so many items, and a back.
    Lines(u32, &'static [u8], u32, &'static [u8], &'static [u8]),
}

fn put_number(text: &mut Vec<u8>, number: u32) -> Result<(), AllocError> {
    for divisor in [10_000, 1_000, 100, 10] {
        if number >= divisor {
            text.push(b'0' + (number / divisor % 10) as u8)?;
        }
    }
    text.push(b'0' + (number % 10) as u8)?;
    Ok(())
}

/// Writes a text with its numbers put in.
fn put_filled(text: &mut Vec<u8>, part: &[u8], line: u32, item: u32) -> Result<(), AllocError> {
    for &byte in part {
        match byte {
            b'@' => put_number(text, line)?,
            b'%' => put_number(text, item)?,
            _ => text.push(byte)?,
        }
    }
    Ok(())
}

fn put_items(text: &mut Vec<u8>, line: u32, count: u32, part: &[u8]) -> Result<(), AllocError> {
    for item in 0..count {
        put_filled(text, part, line, item)?;
    }
    Ok(())
}

fn put_line(
    text: &mut Vec<u8>,
    line: u32,
    front: &[u8],
    count: u32,
    item: &[u8],
    back: &[u8],
) -> Result<(), AllocError> {
    put_filled(text, front, line, 0)?;
    put_items(text, line, count, item)?;
    put_filled(text, back, line, 0)
}

fn put_part(text: &mut Vec<u8>, part: &Part) -> Result<(), AllocError> {
    match part {
        Part::Text(whole) => text.extend_from_slice(whole),
        Part::Items(count, item) => put_items(text, 0, *count, item),
        Part::Lines(count, front, items, item, back) => {
            for line in 0..*count {
                put_line(text, line, front, *items, item, back)?;
            }
            Ok(())
        }
    }
}

/// The whole text.
pub fn joined(alloc: Global, parts: &[Part]) -> Result<Vec<u8>, AllocError> {
    let mut text = Vec::new(alloc);
    for part in parts {
        put_part(&mut text, part)?;
    }
    Ok(text)
}
