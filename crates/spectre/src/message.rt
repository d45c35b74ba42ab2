//! What `main` says on standard error of a run that didn't end with 0: one line, whatever the words hold.
//! Nothing that `run` does rests on it.

use crate::escaped::Escaped;
use crate::files::path_of;
use crate::status::Status;
use crate::word_fault::word_fault;
use std::fmt;
use std::fmt::{Display, Formatter};
use std::io::Error;

/// How the launcher names the file that it holds for the program.
const HELD: &str = "/dev/fd/9";

/// How a run ended, by its status, its words, why the outside refused a call, where one was refused, and the
/// name of the file that the launcher holds, where it holds one.
#[derive(Clone, Copy)]
pub struct Message<'a> {
    pub status: Status,
    pub words: &'a [String],
    pub reason: Option<Error>,
    pub held: Option<&'a str>,
}

/// Why the outside refused a call, behind what it was.
#[derive(Clone, Copy)]
struct Because(Option<Error>);

impl Display for Because {
    fn fmt<W: fmt::Write>(&self, f: &mut Formatter<W>) -> fmt::Result {
        match &self.0 {
            Some(reason) => write!(f, ": {reason}"),
            None => Ok(()),
        }
    }
}

/// The word at a place, empty where there is none.
fn word_at(words: &[String], place: usize) -> &str {
    match words.get(place) {
        Some(word) => word.as_str(),
        None => "",
    }
}

impl<'a> Message<'a> {
    /// What the command reads.
    fn input(&self) -> &'static str {
        match word_at(self.words, 0) {
            "play" | "build" | "make" | "drill" => "the scenario",
            "gossip" => "the scenario with its script",
            "check" => "the certificate",
            _ => "the feed",
        }
    }

    /// How many bytes of it are the most that are read.
    fn most(&self) -> u32 {
        match word_at(self.words, 0) {
            "play" | "build" | "make" | "drill" | "gossip" => 16_777_216,
            _ => u32::MAX,
        }
    }

    /// Up to where the input has to go.
    fn whole(&self) -> &'static str {
        match word_at(self.words, 0) {
            "check" => "before it is whole",
            _ => "before its frame E is whole",
        }
    }

    /// The file that the words name, by the name that the user gave it.
    fn path(&self) -> Escaped<'a> {
        let Some((path, _)) = path_of(self.words) else {
            return Escaped("");
        };
        match self.held {
            Some(name) if path == HELD => Escaped(name),
            _ => Escaped(path),
        }
    }

    /// What is to be done where the file holds no journal.
    fn fresh(&self) -> &'static str {
        match word_at(self.words, 0) {
            "node" => "; node --fresh makes one over its bytes",
            _ => "",
        }
    }

    fn write_usage<W: fmt::Write>(&self, f: &mut Formatter<W>) -> fmt::Result {
        match word_fault(self.words) {
            Some(fault) => write!(f, "{fault}"),
            None => f.write_str("the words are no command"),
        }
    }

    /// What refused a call of the outside.
    fn write_outside<W: fmt::Write>(&self, f: &mut Formatter<W>) -> fmt::Result {
        let because = Because(self.reason);
        match self.status {
            Status::ReadFault => {
                let input = self.input();
                write!(f, "{input} on standard input couldn't be read{because}")
            }
            Status::WriteFault => write!(f, "standard output couldn't be written{because}"),
            _ => {
                let path = self.path();
                write!(f, "the disk failed: {path}{because}")
            }
        }
    }

    /// What is at fault in the input.
    fn write_input<W: fmt::Write>(&self, f: &mut Formatter<W>) -> fmt::Result {
        let input = self.input();
        match self.status {
            Status::Truncated => {
                let whole = self.whole();
                write!(f, "{input} ends {whole}")
            }
            Status::TooLong => {
                let most = self.most();
                write!(f, "{input} is longer than {most} bytes")
            }
            _ => write!(
                f,
                "{input} is malformed; the last line on standard output says where"
            ),
        }
    }

    /// What is at fault in the file.
    fn write_journal<W: fmt::Write>(&self, f: &mut Formatter<W>) -> fmt::Result {
        let path = self.path();
        match self.status {
            Status::NotJournal => {
                let fresh = self.fresh();
                write!(f, "{path} holds no journal{fresh}")
            }
            Status::OtherChain => {
                write!(
                    f,
                    "the journal {path} is of another chain than the feed's head"
                )
            }
            _ => write!(
                f,
                "the journal {path} is damaged; the last line on standard output says where"
            ),
        }
    }

    /// What a question's answer is that is no success.
    fn write_answer<W: fmt::Write>(&self, f: &mut Formatter<W>) -> fmt::Result {
        let first = Escaped(word_at(self.words, 1));
        let second = Escaped(word_at(self.words, 2));
        match self.status {
            Status::NoPair => write!(
                f,
                "{first} and {second} aren't two different present blocks"
            ),
            Status::Refuted => f.write_str(
                "the certificate is refuted; the last line on standard output says by what",
            ),
            Status::Poor => write!(
                f,
                "what may be spent doesn't reach {first}; the last line on standard output says what it comes to"
            ),
            _ => f.write_str("what was chosen to be spent comes to 2^63 or more"),
        }
    }
}

impl<'a> Display for Message<'a> {
    fn fmt<W: fmt::Write>(&self, f: &mut Formatter<W>) -> fmt::Result {
        match self.status {
            Status::Done => f.write_str("done"),
            Status::Usage => self.write_usage(f),
            Status::Malformed | Status::Truncated | Status::TooLong => self.write_input(f),
            Status::ReadFault | Status::WriteFault | Status::DiskFault => self.write_outside(f),
            Status::NotJournal | Status::OtherChain | Status::Damaged => self.write_journal(f),
            Status::Memory => f.write_str("memory was refused"),
            Status::NoPair | Status::Refuted | Status::Poor | Status::Large => {
                self.write_answer(f)
            }
        }
    }
}
