//! Which bytes a line and a name may hold, and which lines are skipped.

ghost use Rattle.std.specs.Prelude.{◌≡◌, ◌<◌, ◌≤◌, length};
ghost use Rattle.std.specs.Bool.{OnFalse, OnTrue};
ghost use Rattle.std.specs.List.{list_all};
ghost use Rattle.sp_play.specs.Commands as commands;
ghost use Rattle.sp_play.specs.Words as meant;
ghost use Rattle.sp_play.specs.Words.{words_of};

use crate::words::first_word;

/// Whether a name may hold the byte.
fn is_name_byte(byte: u8) -> bool
    ensures { result ≡ meant.is_name_byte byte }
{
    matches!(byte, b'a'..=b'z' | b'A'..=b'Z' | b'0'..=b'9' | b'_' | b'-')
}

/// Whether a line that isn't skipped may hold the byte.
fn is_line_byte(byte: u8) -> bool
    ensures { result ≡ meant.is_line_byte byte }
{
    matches!(byte, b'\t' | b' '..=b'~')
}

/// Whether a line holds only such bytes.
pub fn has_line_bytes(line: &[u8]) -> bool
    ensures { result ≡ list_all meant.is_line_byte line.now }
{
    line.iter().all(|byte| is_line_byte(*byte))
}

/// Whether a word is this text.
pub fn is_word(text: &[u8], word: &[u8]) -> bool
    ensures { result ≡ commands.is_word text.now word.now }
{
    word == text
}

/// Whether a word has a meaning of its own in the language, so that it names nothing.
fn is_key_word(word: &[u8]) -> bool
    ensures { result ≡ meant.is_key_word word.now }
{
    is_word(b"on", word)
        || is_word(b"carries", word)
        || is_word(b"spends", word)
        || is_word(b"with", word)
        || is_word(b"pays", word)
        || is_word(b"to", word)
}

/// Whether a word holds only bytes of names.
fn has_name_bytes(word: &[u8]) -> bool
    ensures { result ≡ list_all meant.is_name_byte word.now }
{
    word.iter().all(|byte| is_name_byte(*byte))
}

/// Whether a word is a well-formed name.
#[tactic(auto, unfolding(crate::specs::Words::is_name))]
pub(crate) fn is_name(word: &[u8]) -> bool
    ensures value { result ≡ meant.is_name word.now }
    ensures some { OnTrue result (1 ≤ length word.now) }
    ensures short { OnTrue result (length word.now ≤ 32) }
{
    1 <= word.len() && word.len() <= 32 && has_name_bytes(word) && !is_key_word(word)
}

/// Whether a line is skipped: it has no words, or the first one begins with `#`. It takes no memory.
#[tactic(auto, unfolding(crate::specs::Words::is_skipped))]
pub fn is_skipped(line: &[u8]) -> bool
    ensures value { result ≡ meant.is_skipped (words_of line.now) }
    ensures worded { OnFalse result (0 < length (words_of line.now)) }
{
    match first_word(line) {
        Some(word) => word.first() == Some(&b'#'),
        None => true,
    }
}
