//! The list of commands that `main` prints behind the usage line, for who types the name of the
//! program alone. Nothing that `run` does rests on it.

use clap::Command;
use std::alloc::{AllocError, Global};

/// The usage line, without its end.
pub const USAGE: &str =
    "usage: spectre play | build | make N SEED WIDTH | drill N SEED WIDTH | replay | node [--fresh] FILE | show FILE | export FILE N | certify X Y | check | gossip | spend AMOUNT to WORD from WORD .. | watch ITEM ..";

/// The words of each command, and what it reads and writes.
const COMMANDS: [(&str, &str); 14] = [
    (
        "play",
        "reads a scenario, writes the answers to it, with its names",
    ),
    ("build", "reads a scenario, writes its feed"),
    (
        "make N SEED WIDTH",
        "writes a scenario: N is 0 to 511, SEED below 2^64, WIDTH 1 to 16",
    ),
    (
        "drill N SEED WIDTH",
        "plays that scenario, writes a summary of it",
    ),
    ("replay", "reads a feed, writes the answers to it, with ids"),
    (
        "node FILE",
        "does as replay, and keeps the blocks in the journal in FILE",
    ),
    (
        "node --fresh FILE",
        "makes a new journal also where FILE holds other bytes",
    ),
    ("show FILE", "writes what the journal in FILE holds"),
    (
        "export FILE N",
        "writes the feed of its blocks, N being their profile, 1 or 2",
    ),
    (
        "certify X Y",
        "reads a feed, writes the certificate of what its blocks say of those with the ids X and Y",
    ),
    (
        "check",
        "reads a certificate, writes which of its two blocks comes first, or what refuses it",
    ),
    (
        "gossip",
        "reads a scenario and a script of nodes behind it, plays the script",
    ),
    (
        "spend AMOUNT to WORD from WORD ..",
        "reads a feed, writes the transaction that pays AMOUNT out of what the WORDs open",
    ),
    (
        "watch ITEM ..",
        "does as replay, and tells what changes: ITEM is tx:ID, lock:ID or pair:ID,ID",
    ),
];

/// A command of the list.
fn row(alloc: Global, words: &'static str, text: &'static str) -> Command<'static> {
    Command::new(alloc, words).about(text)
}

/// The program with its commands.
fn program(alloc: Global) -> Result<Command<'static>, AllocError> {
    let mut program = Command::new(alloc, "spectre")
        .disable_help_flag(true)
        .disable_help_subcommand(true);
    'rows: for (words, text) in COMMANDS.iter() {
        program = program.subcommand(row(alloc, words, text))?;
    }
    Ok(program)
}

/// What stands behind the usage line, which is printed apart.
pub fn rows_in(help: &str) -> &str {
    match help.split_once("\n\n") {
        Some((_, rows)) => rows,
        None => help,
    }
}

/// The help text of the program, which ends with a row for each command.
pub fn help_text(alloc: Global) -> Result<String, AllocError> {
    let mut program = program(alloc)?;
    program.render_help()
}
