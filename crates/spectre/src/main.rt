//! The ledger's program. Its commands answer a feed or a scenario, write the feed of a scenario, and
//! make scenarios of numbers; `run` in `command.rt` is all that the program does and carries the
//! theorem, and `main` hands it the real ends.
#![tactic(auto)]

mod behind_name;
mod bringing;
mod certify;
mod check;
mod command;
mod commands;
mod counting;
mod counts;
mod doing;
mod drill;
mod ending;
mod escaped;
mod feeding;
mod file_name;
mod files;
mod genesis;
mod gossip;
mod id_words;
mod job;
mod keep;
mod laws;
mod lines;
mod made;
mod message;
mod no_disk;
mod outside;
mod play;
mod purpose;
mod replay;
mod scene;
mod script_fault;
mod script_lines;
mod shape;
mod show;
mod spend;
mod spend_words;
mod status;
mod summary;
#[cfg(test)]
mod tests;
mod watch;
mod watch_words;
mod word_fault;

ghost use Rattle.std.specs.Prelude.{◌⊎◌, ◌≡◌, IfErr};
ghost use Rattle.std.specs.Process.{exit_status};
ghost use Rattle.spectre.specs.Codes.{code_of};

use behind_name::behind_name;
use command::run;
use commands::{USAGE, help_text, rows_in};
use message::Message;
use outside::disk_of;
use sp_io::{StdSink, StdSource};
use status::Status;
use std::process::ExitCode;
use std::{env, io};

/// The words after the program's name, or the status where they can't be had.
fn words_of_call(rt: &(impl env::Env + AllocGlobal)) -> Result<Vec<String>, Status>
    ensures { IfErr result (λ status. (status ≡ Status.Usage) ⊎ (status ≡ Status.Memory)) }
{
    match env::args(rt) {
        Ok(all) => match behind_name(rt.alloc(), all) {
            Ok(words) => Ok(words),
            Err(_) => Err(Status::Memory),
        },
        Err(error) if error.kind() == io::ErrorKind::OutOfMemory => Err(Status::Memory),
        Err(_) => Err(Status::Usage),
    }
}

/// What the process ends with.
fn exit_of(status: Status) -> ExitCode
    ensures { exit_status result ≡ code_of status }
{
    ExitCode::from(status.code())
}

/// Prints the usage line and the list of commands; the line alone where memory is refused for the
/// list.
fn print_usage(rt: &(impl Eprint + AllocGlobal)) {
    let _ = eprintln!(rt; "{USAGE}");
    if let Ok(text) = help_text(rt.alloc()) {
        let rows = rows_in(&text);
        let _ = eprint!(rt; "{rows}");
    }
}

/// Says on standard error how a run ended that isn't done; where that fails, nothing.
fn say(rt: &(impl Eprint + AllocGlobal), message: Message<'_>) {
    if message.status == Status::Usage {
        print_usage(rt);
    }
    if message.status != Status::Done {
        let _ = eprintln!(rt; "spectre: {message}");
    }
}

/// The name of the file that bin/spectre holds and hands on itself, where how the run ended is of its file. It is
/// asked for then alone, since it takes memory.
fn held_name(rt: &(impl env::Env + AllocGlobal), status: Status) -> Option<String> {
    match status {
        Status::DiskFault | Status::NotJournal | Status::OtherChain | Status::Damaged => {
            match env::var(rt, "SPECTRE_FILE") {
                Ok(name) => Some(name),
                Err(_) => None,
            }
        }
        _ => None,
    }
}

/// What there is to say of a run.
fn message_of<'a>(
    status: Status,
    words: &'a [String],
    reason: Option<io::Error>,
    held: &'a Option<String>,
) -> Message<'a> {
    let held = match held {
        Some(name) => Some(name.as_str()),
        None => None,
    };
    Message {
        status,
        words,
        reason,
        held,
    }
}

/// Says that the words of the call can't be had.
fn say_no_words(rt: &(impl Eprint + AllocGlobal), status: Status) {
    if status == Status::Usage {
        print_usage(rt);
        let _ = eprintln!(rt; "spectre: the words aren't UTF-8; here stands text in UTF-8");
    } else {
        say(rt, message_of(status, &[], None, &None));
    }
}

fn main(rt: HostRuntime) -> ExitCode {
    let words = match words_of_call(&rt) {
        Ok(words) => words,
        Err(status) => {
            say_no_words(&rt, status);
            return exit_of(status);
        }
    };
    let mut source = StdSource::new(rt.stdin());
    let mut sink = StdSink::new(rt.stdout());
    let mut disk = disk_of(&rt, &words);
    let status = run(rt.alloc(), &words, &mut source, &mut sink, &mut disk);
    let reason = match status {
        Status::ReadFault => source.reason().copied(),
        Status::WriteFault => sink.reason().copied(),
        Status::DiskFault => disk.reason().copied(),
        _ => None,
    };
    let held = held_name(&rt, status);
    say(&rt, message_of(status, &words, reason, &held));
    exit_of(status)
}
