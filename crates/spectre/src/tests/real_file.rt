//! A journal in a file of the folder that the tests run in: it is made by `node` alone, it stays over
//! runs, it is the file that the words name, and one that may only be read is shown.

use crate::command::run;
use crate::outside::disk_of;
use crate::status::Status;
use crate::tests::crashes::both;
use crate::tests::feed_bytes::in_full;
use crate::tests::text::Text;
use crate::tests::{Trial, WIDE, sink_of, source_of, words_of};
use std::alloc::Global;
use std::fs;
use std::fs::{Files, Permissions};
use std::os::unix::fs::PermissionsExt;
use std::process::Abort;

const PATH: &str = "spectre_tests.journal";

const NODE: &[u8] = b"node\nspectre_tests.journal\n";

const SHOW: &[u8] = b"show\nspectre_tests.journal\n";

const OTHER: &[u8] = b"show\nspectre_tests.other\n";

const NO_EXPORT: &[u8] = b"export\nspectre_tests.other\n2\n";

const NEW: &[u8] = b"kept A present 1\nkept B present 1\n";

const OLD: &[u8] = b"known A\nknown B\n";

const SHOWN: &[u8] = b"recovered 2\nblocks 3 waiting 0\naccepted 0\nbalances 0\n";

/// The words, whether the feed is their input or nothing is, and how they end.
type Row = (&'static [u8], bool, Status, &'static [u8]);

const ROWS: &[Row] = &[
    (SHOW, false, Status::DiskFault, b""),
    (NODE, true, Status::Done, NEW),
    (SHOW, false, Status::Done, SHOWN),
    (NODE, true, Status::Done, OLD),
    (SHOW, false, Status::Done, SHOWN),
    (OTHER, false, Status::DiskFault, b""),
    (NO_EXPORT, false, Status::DiskFault, b""),
];

/// Compares what a row writes, by what is on the files.
fn try_row<R: Files + Abort>(rt: &R, alloc: Global, at: usize, (words, fed, status, output): Row) {
    let words = words_of(rt, alloc, words);
    let input = if fed { both(alloc) } else { Text::new(alloc) };
    let trial = Trial {
        words: b"",
        input: input.whole(rt),
        ends: WIDE,
    };
    let mut source = source_of(rt, alloc, &trial);
    let mut sink = sink_of(rt, alloc, &WIDE);
    let mut disk = disk_of(rt, &words);
    let ended = run(alloc, &words, &mut source, &mut sink, &mut disk);
    let output = in_full(alloc, output);
    let is_so = ended == status && sink.bytes() == output.whole(rt);
    assert!(rt; is_so, "{at}: {ended:?}");
}

/// `show` and `export` make no file.
#[test]
fn a_journal_in_a_file(rt: HostRuntime) {
    let _ = fs::remove_file(&rt, PATH);
    for (at, row) in ROWS.iter().enumerate() {
        try_row(&rt, rt.alloc(), at, *row);
        let is_made = fs::exists(&rt, PATH).expect(&rt, "no answer");
        assert!(&rt; is_made == (0 < at), "{at}");
    }
    // To the system's superuser this forbids nothing.
    fs::set_permissions(&rt, PATH, Permissions::from_mode(0o444)).expect(&rt, "not changed");
    try_row(
        &rt,
        rt.alloc(),
        ROWS.len(),
        (SHOW, false, Status::Done, SHOWN),
    );
    fs::remove_file(&rt, PATH).expect(&rt, "not removed");
}
