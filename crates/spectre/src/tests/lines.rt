//! The tables of scenarios, and each byte as a line of its own.

use crate::status::Status;
use crate::tests::answered::ANSWERED;
use crate::tests::built::FAULTY;
use crate::tests::faults::FAULTS;
use crate::tests::worked::WORKED;
use crate::tests::{ends_all, ends_as};

/// What a line that is this one byte ends in.
fn alone(byte: u8) -> (Status, &'static [u8]) {
    match byte {
        b'\t' | b'\n' | b'\r' | b' ' | b'#' => (Status::Done, b""),
        33..=126 => (Status::Malformed, b"fault line 1 command\n"),
        _ => (Status::Malformed, b"fault line 1 byte\n"),
    }
}

#[test]
fn scenarios(rt: HostRuntime) {
    ends_all(&rt, rt.alloc(), "answered", b"play", ANSWERED, Status::Done);
    ends_all(&rt, rt.alloc(), "worked", b"play", WORKED, Status::Done);
    ends_all(
        &rt,
        rt.alloc(),
        "at fault",
        b"play",
        FAULTS,
        Status::Malformed,
    );
    ends_all(
        &rt,
        rt.alloc(),
        "not built",
        b"build",
        FAULTY,
        Status::Malformed,
    );
}

#[test]
fn each_byte_alone(rt: HostRuntime) {
    for byte in 0..=255u8 {
        let (status, output) = alone(byte);
        let input = [byte, b'\n'];
        let run = (b"play".as_slice(), input.as_slice());
        let at = usize::from(byte);
        ends_as(&rt, rt.alloc(), "byte", at, run, status, (0, output));
    }
}
