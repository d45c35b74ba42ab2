//! A word of the command line as it stands in a message: in one line, whatever it holds.

use std::fmt;
use std::fmt::{Display, Formatter};

/// The most characters of a word that are shown: those of the longest word that is right, but for a file.
const MOST: usize = 160;

/// A text in which each character that would break the line, or that nobody sees, is escaped as in a string
/// of Rust.
#[derive(Clone, Copy)]
pub struct Escaped<'a>(pub &'a str);

/// A character as it stands there. Quotes stand as they are.
fn write_one<W: fmt::Write>(c: char, f: &mut Formatter<W>) -> fmt::Result {
    if c == '"' || c == '\'' {
        f.write_char(c)
    } else {
        write!(f, "{}", c.escape_debug())
    }
}

impl<'a> Display for Escaped<'a> {
    fn fmt<W: fmt::Write>(&self, f: &mut Formatter<W>) -> fmt::Result {
        for c in self.0.chars() {
            write_one(c, f)?;
        }
        Ok(())
    }
}

/// A word between quotes; of a very long one the front alone, and dots behind it.
#[derive(Clone, Copy)]
pub struct Quoted<'a>(pub &'a str);

impl<'a> Display for Quoted<'a> {
    fn fmt<W: fmt::Write>(&self, f: &mut Formatter<W>) -> fmt::Result {
        f.write_char('"')?;
        for c in self.0.chars().take(MOST) {
            write_one(c, f)?;
        }
        f.write_str(if self.0.chars().count() > MOST {
            "\" .."
        } else {
            "\""
        })
    }
}
