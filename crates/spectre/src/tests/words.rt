//! Words that are no command: nothing is read, written or asked of a disk. And words that name a file.

use crate::commands::{USAGE, help_text, rows_in};
use crate::files::path_of;
use crate::job::{Job, JobFault, read_job};
use crate::status::Status;
use crate::tests::text::Text;
use crate::tests::{Ends, SAMPLE, Trial, WIDE, Wanted, tries, words_of};
use crate::word_fault::word_fault;
use sp_model::Profile;
use std::alloc::Global;
use std::process::Abort;

/// Words that are none of the forms of a command, a row for each line, each word ended by `|`.
const NO_COMMAND: &str = "\
|

||
play|play|
play||
|play|
Play|
pla|
lay|
plays|
play |
 play|
play\t|
play\0|
pl\0y|
pl\u{e4}y|
yalp|
playreplay|
help|
--help|
--play|
--|
replays|
eplay|
rePlay|
re|play|
replay\0|
play|replay|
--|play|
build|build|
check|f|
checks|
Check|
check||
certify|
certify|a|b|
gossip|f|
gossips|
Gossip|
gossip|1|0|1|
builds|
buil|
build||
build|1|0|1|
play|1|0|1|
node|
node||
node|-|
node|-f|
node|--|
node|--fresh|
node|f|g|
node|f|fresh|
node|f||
node|--Fresh|f|
node|--fresh||
node||--fresh|
node|--fresh|-f|
node|--fresh|--fresh|
node|--fresh|--fresh|f|
node|--fresh|f|--fresh|
node|--|f|
node|f|1|1|
--fresh|node|f|
Node|f|
nodes|f|
f|node|
show|
show||
show|-f|
show|--fresh|
show|--fresh|f|
show|f|--fresh|
show|f|g|
export|
export|f|
export||1|
export|-f|1|
export|f|3|
export|f|0|
export|f|01|
export|f|2 |
export|f||
export|1|f|
export|f|2|1|
export|f|--fresh|
export|--fresh|f|
exports|f|1|
shown|f|
play|f|
replay|f|
build|--fresh|f|
make|
drill|
make||0|1|
drill|1||1|
make|1|0||
drill|1 |0|1|
make|1|0|1||
Make|1|0|1|
makes|1|0|1|
|1|0|1|
1|0|1|drill|
";

/// What is no spend and no watch, likewise.
const NO_WALLET: &str = "\
spend|
spend|1|
spend|1|to|b|
spend|1|to|b|from|
spend|1|to|b|a|
spend|1|to|from|a|
spend|0|to|b|from|a|
spend|01|to|b|from|a|
spend|+1|to|b|from|a|
spend|x|to|b|from|a|
spend||to|b|from|a|
spend|9223372036854775808|to|b|from|a|
spend|18446744073709551617|to|b|from|a|
spend|1|to||from|a|
spend|1|to|-b|from|a|
spend|1|to|b|from||
spend|1|to|b|from|-a|
spend|1|to|b|from|a|-|
spend|1|to|b|from|a||
spend|1|to|b|from|a|a|
spend|1|to|b|from|a|c|a|
spend|1|to|b|from|from|from|
spend|1|at|b|from|a|
spend|1|to|b|of|a|
spend|1|To|b|from|a|
Spend|1|to|b|from|a|
spends|1|to|b|from|a|
to|b|from|a|
spend|1|to|bbbbbbbbbbbbbbbbbbbbbbbbbbbbbbbbbbbbbbbbbbbbbbbbbbbbbbbbbbbbbbbbb|from|a|
spend|1|to|b|from|aaaaaaaaaaaaaaaaaaaaaaaaaaaaaaaaaaaaaaaaaaaaaaaaaaaaaaaaaaaaaaaaa|
spend|1|to|b|from|a|b|c|d|e|f|g|h|i|j|k|l|m|n|o|p|q|
watch|
watch||
watch|tx|
watch|tx:|
watch|tx:ebc352d52d8a2d8f607bc82f6edc468679599eb0e8a8429d88c82e4cffb6285|
watch|tx:ebc352d52d8a2d8f607bc82f6edc468679599eb0e8a8429d88c82e4cffb628540|
watch|tx:ebc352d52d8a2d8f607bc82f6edc468679599eb0e8a8429d88c82e4cffb6285g|
watch|TX:ebc352d52d8a2d8f607bc82f6edc468679599eb0e8a8429d88c82e4cffb62854|
watch|ebc352d52d8a2d8f607bc82f6edc468679599eb0e8a8429d88c82e4cffb62854|
watch|block:ebc352d52d8a2d8f607bc82f6edc468679599eb0e8a8429d88c82e4cffb62854|
watch|lock:|
watch|lock:ebc352d52d8a2d8f607bc82f6edc468679599eb0e8a8429d88c82e4cffb628|
watch|lock :ebc352d52d8a2d8f607bc82f6edc468679599eb0e8a8429d88c82e4cffb62854|
watch|pair:|
watch|pair:ebc352d52d8a2d8f607bc82f6edc468679599eb0e8a8429d88c82e4cffb62854|
watch|pair:ebc352d52d8a2d8f607bc82f6edc468679599eb0e8a8429d88c82e4cffb62854,|
watch|pair:ebc352d52d8a2d8f607bc82f6edc468679599eb0e8a8429d88c82e4cffb62854;6fd2bc64ef18bc610e2371e6ea7cdda86b35be6cfbe8274c1ed1d9012553c26a|
watch|pair:ebc352d52d8a2d8f607bc82f6edc468679599eb0e8a8429d88c82e4cffb628546fd2bc64ef18bc610e2371e6ea7cdda86b35be6cfbe8274c1ed1d9012553c26a|
watch|pair:ebc352d52d8a2d8f607bc82f6edc468679599eb0e8a8429d88c82e4cffb62854,6fd2bc64ef18bc610e2371e6ea7cdda86b35be6cfbe8274c1ed1d9012553c26a,|
watch|pair:ebc352d52d8a2d8f607bc82f6edc468679599eb0e8a8429d88c82e4cffb62854, 6fd2bc64ef18bc610e2371e6ea7cdda86b35be6cfbe8274c1ed1d9012553c26a|
watch|pair:,ebc352d52d8a2d8f607bc82f6edc468679599eb0e8a8429d88c82e4cffb62854|
watch|tx:ebc352d52d8a2d8f607bc82f6edc468679599eb0e8a8429d88c82e4cffb62854|tx:ebc352d52d8a2d8f607bc82f6edc468679599eb0e8a8429d88c82e4cffb62854|
watch|tx:ebc352d52d8a2d8f607bc82f6edc468679599eb0e8a8429d88c82e4cffb62854|tx:EBC352D52D8A2D8F607BC82F6EDC468679599EB0E8A8429D88C82E4CFFB62854|
watch|lock:ebc352d52d8a2d8f607bc82f6edc468679599eb0e8a8429d88c82e4cffb62854|tx:ebc352d52d8a2d8f607bc82f6edc468679599eb0e8a8429d88c82e4cffb62854|lock:ebc352d52d8a2d8f607bc82f6edc468679599eb0e8a8429d88c82e4cffb62854|
watch|pair:ebc352d52d8a2d8f607bc82f6edc468679599eb0e8a8429d88c82e4cffb62854,6fd2bc64ef18bc610e2371e6ea7cdda86b35be6cfbe8274c1ed1d9012553c26a|pair:EBC352D52D8A2D8F607BC82F6EDC468679599EB0E8A8429D88C82E4CFFB62854,6FD2BC64EF18BC610E2371E6EA7CDDA86B35BE6CFBE8274C1ED1D9012553C26A|
watch|tx:ebc352d52d8a2d8f607bc82f6edc468679599eb0e8a8429d88c82e4cffb62854|tx:|
watch|tx:ebc352d52d8a2d8f607bc82f6edc468679599eb0e8a8429d88c82e4cffb62854||
Watch|tx:ebc352d52d8a2d8f607bc82f6edc468679599eb0e8a8429d88c82e4cffb62854|
tx:ebc352d52d8a2d8f607bc82f6edc468679599eb0e8a8429d88c82e4cffb62854|
watch|tx:ebc352d52d8a2d8f607bc82f6edc468679599eb0e8a8429d88c82e4cffb62854|--help|
";

/// What isn't three numbers in their ranges, a row for each line, each word ended by `|`.
const NO_NUMBERS: &str = "\
1|
1|0|
1|0|1|1|
1|0|1|--help|
--|1|0|1|
512|0|1|
03|0|1|
00|0|1|
+1|0|1|
-1|0|1|
0x1|0|1|
1_0|0|1|
1.|0|1|
a|0|1|
65537|0|1|
4294967297|0|1|
18446744073709551617|0|1|
1|18446744073709551616|1|
1|18446744073709551617|1|
1|340282366920938463463374607431768211456|1|
1|01|1|
1|+0|1|
1|-0|1|
1|s|1|
1|0|0|
1|0|17|
1|0|01|
1|0|+1|
1|0|1a|
1|0|257|
1|0|65537|
1|0|18446744073709551617|
make|1|0|
";

/// The first call of the source, of the sink and of the disk would fail.
const BROKEN: Ends = Ends {
    given: 7,
    taken: 7,
    room: 4096,
    bad_read: Some(0),
    bad_write: Some(0),
    ..WIDE
};

/// The first read and the first write are still to come, and fail; the next read gives the first
/// bytes.
const UNTOUCHED: Wanted = Wanted {
    status: Status::Usage,
    lines: 0,
    output: b"",
    rest: Some((None, Some(7), *b"block A", false)),
};

/// Whether the words name no file, and are a command, or none, in which a word is at fault.
fn are_without_file(rt: &impl Abort, alloc: Global, lines: &[u8], are_command: bool) -> bool {
    let words = words_of(rt, alloc, lines);
    let is_so = match read_job(alloc, &words) {
        Ok(_) => are_command,
        Err(JobFault::Usage) => !are_command,
        Err(JobFault::Memory) => false,
    };
    is_so && path_of(&words).is_none() && word_fault(&words).is_none() == are_command
}

/// The words of a row behind these first ones.
fn words_in(alloc: Global, first: &[u8], row: &str) -> Text {
    let mut words = Text::of(alloc, first);
    for byte in row.as_bytes() {
        words.put(&[if *byte == b'|' { b'\n' } else { *byte }]);
    }
    words
}

/// They are no command.
fn is_refused(rt: &impl Abort, alloc: Global, at: usize, words: &[u8]) {
    let trial = Trial {
        words,
        input: SAMPLE,
        ends: BROKEN,
    };
    tries(rt, alloc, "words", at, &trial, &UNTOUCHED);
    assert!(rt; are_without_file(rt, alloc, words, false), "{at}");
}

fn are_refused(rt: &impl Abort, alloc: Global, first: &[u8], rows: &str) {
    for (at, row) in rows.lines().enumerate() {
        is_refused(rt, alloc, at, words_in(alloc, first, row).whole(rt));
    }
}

#[test]
fn no_commands(rt: HostRuntime) {
    are_refused(&rt, rt.alloc(), b"", NO_COMMAND);
    are_refused(&rt, rt.alloc(), b"", NO_WALLET);
    are_refused(&rt, rt.alloc(), b"make\n", NO_NUMBERS);
    are_refused(&rt, rt.alloc(), b"drill\n", NO_NUMBERS);
}

/// What is done with a file.
#[derive(Clone, Copy, Debug, PartialEq, Eq)]
enum Done {
    Kept,
    /// With a new journal where it holds none.
    KeptFresh,
    Shown,
    Exported(Profile),
}

/// Words that name a file, and the file.
#[rattlefmt::skip]
const FILES: &[(&[u8], &str, Done)] = &[
    (b"node\nf", "f", Done::Kept),
    (b"node\n--fresh\nf", "f", Done::KeptFresh),
    (b"node\nf\n--fresh", "f", Done::KeptFresh),
    (b"show\nf", "f", Done::Shown),
    (b"node\nnode", "node", Done::Kept),
    (b"node\n--fresh\nshow", "show", Done::KeptFresh),
    (b"node\nfresh\n--fresh", "fresh", Done::KeptFresh),
    (b"show\nshow", "show", Done::Shown),
    (b"node\nfresh", "fresh", Done::Kept),
    (b"node\na-b", "a-b", Done::Kept),
    (b"node\n./-f", "./-f", Done::Kept),
    (b"show\n/tmp/my journal", "/tmp/my journal", Done::Shown),
    (b"node\n ", " ", Done::Kept),
    (b"show\n -f", " -f", Done::Shown),
    (b"node\n\xc3\xa4", "\u{e4}", Done::Kept),
    (b"node\nf\0g", "f\0g", Done::Kept),
    (b"export\nf\n1", "f", Done::Exported(Profile::One)),
    (b"export\nf\n2", "f", Done::Exported(Profile::Two)),
    (b"export\nexport\n2", "export", Done::Exported(Profile::Two)),
    (b"export\n1\n1", "1", Done::Exported(Profile::One)),
];

/// Whether the words ask for this.
fn asks_for(alloc: Global, words: &[String], file: &str, done: Done) -> bool {
    match read_job(alloc, words) {
        Ok(Job::Keep { path, fresh }) => {
            let wanted = if fresh { Done::KeptFresh } else { Done::Kept };
            path.as_str() == file && done == wanted
        }
        Ok(Job::Show { path }) => path.as_str() == file && done == Done::Shown,
        Ok(Job::Export { path, profile }) => {
            path.as_str() == file && done == Done::Exported(profile)
        }
        _ => false,
    }
}

#[test]
fn files(rt: HostRuntime) {
    for (at, (words, file, done)) in FILES.iter().enumerate() {
        let words = words_of(&rt, rt.alloc(), words);
        let made = matches!(done, Done::Kept | Done::KeptFresh);
        let is_so = path_of(&words) == Some((*file, made)) && word_fault(&words).is_none();
        assert!(&rt; is_so && asks_for(rt.alloc(), &words, file, *done), "{at}");
    }
}

/// Commands that have no file.
const NO_FILE: &[&[u8]] = &[
    b"replay",
    b"play",
    b"build",
    b"make\n3\n0\n1",
    b"drill\n3\n0\n1",
    b"certify\nebc352d52d8a2d8f607bc82f6edc468679599eb0e8a8429d88c82e4cffb62854\nEBC352D52D8A2D8F607BC82F6EDC468679599EB0E8A8429D88C82E4CFFB62854",
    b"check",
    b"gossip",
    b"spend\n1\nto\nb\nfrom\na",
    b"spend\n9223372036854775807\nto\nto\nfrom\nfrom",
    b"spend\n1\nto\nfrom\nfrom\nto\nfrom",
    b"spend\n1\nto\na\nfrom\na",
    b"spend\n1\nto\nbbbbbbbbbbbbbbbbbbbbbbbbbbbbbbbbbbbbbbbbbbbbbbbbbbbbbbbbbbbbbbbb\nfrom\naaaaaaaaaaaaaaaaaaaaaaaaaaaaaaaaaaaaaaaaaaaaaaaaaaaaaaaaaaaaaaaa",
    b"spend\n1\nto\n \nfrom\n\xc3\xa4\n\0",
    b"spend\n1\nto\nb\nfrom\na\nb\nc\nd\ne\nf\ng\nh\ni\nj\nk\nl\nm\nn\no\np",
    b"watch\ntx:ebc352d52d8a2d8f607bc82f6edc468679599eb0e8a8429d88c82e4cffb62854",
    b"watch\nlock:EBC352D52D8A2D8F607BC82F6EDC468679599EB0E8A8429D88C82E4CFFB62854",
    b"watch\npair:ebc352d52d8a2d8f607bc82f6edc468679599eb0e8a8429d88c82e4cffb62854,6fd2bc64ef18bc610e2371e6ea7cdda86b35be6cfbe8274c1ed1d9012553c26a",
    b"watch\npair:ebc352d52d8a2d8f607bc82f6edc468679599eb0e8a8429d88c82e4cffb62854,6fd2bc64ef18bc610e2371e6ea7cdda86b35be6cfbe8274c1ed1d9012553c26a\npair:6fd2bc64ef18bc610e2371e6ea7cdda86b35be6cfbe8274c1ed1d9012553c26a,ebc352d52d8a2d8f607bc82f6edc468679599eb0e8a8429d88c82e4cffb62854\npair:ebc352d52d8a2d8f607bc82f6edc468679599eb0e8a8429d88c82e4cffb62854,ebc352d52d8a2d8f607bc82f6edc468679599eb0e8a8429d88c82e4cffb62854",
    b"watch\ntx:ebc352d52d8a2d8f607bc82f6edc468679599eb0e8a8429d88c82e4cffb62854\nlock:ebc352d52d8a2d8f607bc82f6edc468679599eb0e8a8429d88c82e4cffb62854",
];

#[test]
fn no_files(rt: HostRuntime) {
    for (at, words) in NO_FILE.iter().enumerate() {
        assert!(&rt; are_without_file(&rt, rt.alloc(), words, true), "{at}");
    }
}

/// What each row of the list of commands begins with.
const ROWS: &[&str] = &[
    "  play ",
    "  build ",
    "  make N SEED WIDTH ",
    "  drill N SEED WIDTH ",
    "  replay ",
    "  node FILE ",
    "  node --fresh FILE ",
    "  show FILE ",
    "  export FILE N ",
    "  certify X Y ",
    "  check ",
    "  gossip ",
    "  spend AMOUNT to WORD from WORD .. ",
    "  watch ITEM .. ",
];

/// Whether these rows and no others stand behind the first line.
fn are_listed(text: &str) -> bool {
    let mut lines = text.lines();
    let mut are_so = lines.next().is_some();
    for row in ROWS {
        are_so = are_so && lines.next().unwrap_or("").starts_with(*row);
    }
    are_so && lines.next().is_none()
}

#[test]
fn list_of_commands(rt: HostRuntime) {
    assert!(&rt; USAGE.starts_with("usage: spectre"), "the usage line");
    let text = help_text(rt.alloc()).expect(&rt, "memory");
    assert!(&rt; are_listed(rows_in(&text)), "{text}");
}
