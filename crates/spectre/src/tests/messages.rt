//! What is said of a run that isn't done, by its status and its words.

use crate::message::Message;
use crate::status::Status;
use crate::tests::words_of;
use std::alloc::Global;
use std::io::{Error, ErrorKind};
use std::process::Abort;

/// The words, the status, and what is said where a call was refused for want of leave.
type Row = (&'static [u8], Status, &'static str);

const ROWS: &[Row] = &[
    (
        b"pla\ty",
        Status::Usage,
        "\"pla\\ty\" is no command; here stands one of: play, build, make, drill, replay, node, show, export, certify, check, gossip, spend, watch",
    ),
    (
        b"export\nf",
        Status::Usage,
        "at the end a word is missing; here stands N, one of: 1, 2",
    ),
    (
        b"check\nf",
        Status::Usage,
        "\"f\" is one word too many; here stands nothing",
    ),
    (
        b"play",
        Status::ReadFault,
        "the scenario on standard input couldn't be read: permission denied",
    ),
    (
        b"replay",
        Status::WriteFault,
        "standard output couldn't be written: permission denied",
    ),
    (
        b"node\na\tb",
        Status::DiskFault,
        "the disk failed: a\\tb: permission denied",
    ),
    (b"drill\n1\n1\n1", Status::Memory, "memory was refused"),
    (
        b"show\nf",
        Status::Damaged,
        "the journal f is damaged; the last line on standard output says where",
    ),
    (
        b"show\n/dev/fd/9",
        Status::NotJournal,
        "my\\nown holds no journal",
    ),
    (
        b"spend\n7\nto\nb\nfrom\na",
        Status::Poor,
        "what may be spent doesn't reach 7; the last line on standard output says what it comes to",
    ),
];

/// Whether this is what is said.
fn is_said(rt: &impl Abort, alloc: Global, (words, status, said): Row) -> bool {
    let words = words_of(rt, alloc, words);
    let message = Message {
        status,
        words: &words,
        reason: Some(Error::from(ErrorKind::PermissionDenied)),
        held: Some("my\nown"),
    };
    match format!(in alloc; "{message}") {
        Ok(text) => text.as_str() == said,
        Err(_) => false,
    }
}

#[test]
fn messages(rt: HostRuntime) {
    for (at, row) in ROWS.iter().enumerate() {
        assert!(&rt; is_said(&rt, rt.alloc(), *row), "{at}");
    }
}
