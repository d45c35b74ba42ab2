//! Which of the words of a faulty command line is at fault, and what stands there in a right command: at the
//! first place at which the words stop being a front of any right command of that name. It is for a message
//! of `main` alone, and nothing that `run` does rests on it.

use crate::escaped::Quoted;
use crate::files::is_file;
use crate::id_words::ids_of;
use crate::spend_words::{LARGEST, is_new_word, is_word};
use crate::watch_words::is_new_item;
use sp_play::{number_of, profile_of};
use std::fmt;
use std::fmt::{Display, Formatter};

/// What stands at a place of a right command.
#[derive(Clone, Copy, Debug, PartialEq, Eq)]
pub enum Place {
    /// The name of a command.
    Command,
    /// The N of `make` and `drill`.
    Count,
    /// Their SEED.
    Seed,
    /// Their WIDTH.
    Width,
    /// The file of `show` and `export`, or of `node` behind `--fresh`.
    File,
    /// The file of `node`, or `--fresh`.
    FileOrFresh,
    /// `--fresh`.
    Fresh,
    /// The N of `export`.
    Profile,
    /// One of the ids of `certify`.
    Id,
    /// The AMOUNT of `spend`.
    Amount,
    /// The word `to`.
    To,
    /// The word `from`.
    From,
    /// A word that opens a lock.
    Opening,
    /// A word behind `from` that isn't there already, or nothing.
    OtherOpening,
    /// An item of `watch`.
    Item,
    /// An item that isn't there already, or nothing.
    OtherItem,
    /// Nothing: the command is whole.
    End,
}

/// The first place at which the words are wrong.
#[derive(Clone, Copy)]
pub struct WordFault<'a> {
    /// The word there; `None` where one is missing, behind the last.
    pub word: Option<&'a str>,
    /// What stands there in a right command.
    pub place: Place,
}

impl Place {
    /// What stands there, in words.
    fn text(self) -> &'static str {
        match self {
            Place::Command => {
                "one of: play, build, make, drill, replay, node, show, export, certify, check, gossip, spend, watch"
            }
            Place::Count => "N, a number from 0 to 511 without a leading zero",
            Place::Seed => "SEED, a number from 0 to 18446744073709551615 without a leading zero",
            Place::Width => "WIDTH, a number from 1 to 16 without a leading zero",
            Place::File => "FILE, a name that isn't empty and doesn't begin with -",
            Place::FileOrFresh => {
                "--fresh, or FILE, a name that isn't empty and doesn't begin with -"
            }
            Place::Fresh => "--fresh, or nothing",
            Place::Profile => "N, one of: 1, 2",
            Place::Id => "the id of a block, 64 hexadecimal digits",
            Place::Amount =>
                "AMOUNT, a number from 1 to 9223372036854775807 without a leading zero",
            Place::To => "the word to",
            Place::From => "the word from",
            Place::Opening => "WORD, of 1 to 64 bytes, which doesn't begin with -",
            Place::OtherOpening => "another WORD, or nothing",
            Place::Item => {
                "ITEM, one of: tx:ID, lock:ID, pair:ID,ID, each ID with 64 hexadecimal digits"
            }
            Place::OtherItem => "another ITEM, or nothing",
            Place::End => "nothing",
        }
    }
}

impl<'a> Display for WordFault<'a> {
    fn fmt<W: fmt::Write>(&self, f: &mut Formatter<W>) -> fmt::Result {
        match self.word {
            Some(word) => {
                let word = Quoted(word);
                write!(f, "{word} ")?;
            }
            None => f.write_str("at the end ")?,
        }
        let flaw = self.flaw();
        let here = self.place.text();
        write!(f, "{flaw}; here stands {here}")
    }
}

impl<'a> WordFault<'a> {
    /// What is wrong there, in words.
    fn flaw(&self) -> &'static str {
        match (self.word.is_some(), self.place) {
            (false, Place::Command) => "a command is missing",
            (false, _) => "a word is missing",
            (true, Place::Command) => "is no command",
            (true, Place::End) => "is one word too many",
            (true, Place::OtherOpening | Place::OtherItem) => "is there already",
            (true, _) => "is wrong",
        }
    }
}

/// Whether a word may stand at a place where what stands before it doesn't matter.
fn may_stand(place: Place, word: &[u8]) -> bool {
    match place {
        Place::Count => number_of(0, 511, word).is_some(),
        Place::Seed => number_of(0, u64::MAX, word).is_some(),
        Place::Width => number_of(1, 16, word).is_some(),
        Place::File => is_file(word),
        Place::FileOrFresh => is_file(word) || word == b"--fresh".as_slice(),
        Place::Fresh => word == b"--fresh".as_slice(),
        Place::Profile => profile_of(word).is_some(),
        Place::Id => ids_of(word, word).is_some(),
        Place::Amount => number_of(1, LARGEST, word).is_some(),
        Place::To => word == b"to".as_slice(),
        Place::From => word == b"from".as_slice(),
        Place::Opening => is_word(word),
        Place::Item => is_new_item(word, &[]),
        Place::Command | Place::OtherOpening | Place::OtherItem | Place::End => false,
    }
}

/// The fault of a word that can't stand at a place.
fn wrong(word: &String, place: Place) -> Option<WordFault<'_>> {
    Some(WordFault {
        word: Some(word.as_str()),
        place,
    })
}

/// The fault that there are words at all.
fn too_many(words: &[String]) -> Option<WordFault<'_>> {
    wrong(words.first()?, Place::End)
}

/// The first fault among words of which each has its own place.
fn fault_at<'a>(words: &'a [String], places: &[Place]) -> Option<WordFault<'a>> {
    let mut rest = words;
    for place in places {
        let Some((word, behind)) = rest.split_first() else {
            return Some(WordFault {
                word: None,
                place: *place,
            });
        };
        if !may_stand(*place, word.as_bytes()) {
            return wrong(word, *place);
        }
        rest = behind;
    }
    too_many(rest)
}

/// The first fault among the words behind `from`: 1 to 16 different ones.
fn opener_fault(words: &[String]) -> Option<WordFault<'_>> {
    for (at, word) in words.iter().enumerate() {
        if 16 <= at {
            return wrong(word, Place::End);
        }
        if !is_word(word.as_bytes()) {
            return wrong(word, Place::Opening);
        }
        if !is_new_word(word.as_bytes(), &words[..at]) {
            return wrong(word, Place::OtherOpening);
        }
    }
    if words.is_empty() {
        fault_at(words, &[Place::Opening])
    } else {
        None
    }
}

/// The first fault among the words of a watch: 1 to 64 different items.
fn item_fault(words: &[String]) -> Option<WordFault<'_>> {
    for (at, word) in words.iter().enumerate() {
        if 64 <= at {
            return wrong(word, Place::End);
        }
        if !is_new_item(word.as_bytes(), &[]) {
            return wrong(word, Place::Item);
        }
        if !is_new_item(word.as_bytes(), &words[..at]) {
            return wrong(word, Place::OtherItem);
        }
    }
    if words.is_empty() {
        fault_at(words, &[Place::Item])
    } else {
        None
    }
}

const SPEND: [Place; 4] = [Place::Amount, Place::To, Place::Opening, Place::From];

/// The first fault among the words behind `spend`.
fn spend_fault(words: &[String]) -> Option<WordFault<'_>> {
    if words.len() < 4 {
        return fault_at(words, &SPEND);
    }
    let (front, openers) = words.split_at(4);
    match fault_at(front, &SPEND) {
        Some(fault) => Some(fault),
        None => opener_fault(openers),
    }
}

/// The first fault among the words behind `node`.
fn node_fault(words: &[String]) -> Option<WordFault<'_>> {
    match words.first() {
        Some(word) if word.as_bytes() == b"--fresh".as_slice() => {
            fault_at(words, &[Place::Fresh, Place::File])
        }
        _ if words.len() < 2 => fault_at(words, &[Place::FileOrFresh]),
        _ => fault_at(words, &[Place::FileOrFresh, Place::Fresh]),
    }
}

/// The first fault of a command line, which is at its first place that stands in no right command; `None` where
/// it is right.
pub fn word_fault(words: &[String]) -> Option<WordFault<'_>> {
    let Some((name, behind)) = words.split_first() else {
        return fault_at(words, &[Place::Command]);
    };
    match name.as_str() {
        "play" | "build" | "replay" | "check" | "gossip" => too_many(behind),
        "make" | "drill" => fault_at(behind, &[Place::Count, Place::Seed, Place::Width]),
        "node" => node_fault(behind),
        "show" => fault_at(behind, &[Place::File]),
        "export" => fault_at(behind, &[Place::File, Place::Profile]),
        "certify" => fault_at(behind, &[Place::Id, Place::Id]),
        "spend" => spend_fault(behind),
        "watch" => item_fault(behind),
        _ => wrong(name, Place::Command),
    }
}
