//! What `build` and then `replay` write of a scenario is what `play` writes of it, line for line, but
//! for the labels: where `play` writes a name, `replay` writes 64 digits, always the same for the
//! same. Questions for lists are left out, since lists go by the names here and by the digits there.

use crate::status::Status;
use crate::tests::text::Text;
use crate::tests::worked::WORKED;
use crate::tests::{SAMPLE, Trial, WIDE, ran};
use std::alloc::Global;
use std::process::Abort;

/// More scenarios.
pub const EXAMPLES: &[&[u8]] = &[
    SAMPLE,
    b"# nothing is asked\n\n    # and nothing made\n",
    b"grant g 100 to alice\n\
        tx p spends g.0 pays 100 to bob\n\
        tx q spends g.0 pays 100 to carol\n\
        block A on G carries p\nblock B on G carries q\n\
        vote A B\nstate p\nstate q\nbalance alice\n\
        block C on A\n\
        vote A B\nstate p\nstate q\nbalance bob\n\
        block D on B\nblock E on B\n\
        vote A B\nstate p\nstate q\nbalance bob\nbalance carol\n",
    b"make A on G\nmake B on A\nsend B\nvote G B\nsend A\nvote G B\nvote B A\nsend A\nreport\n",
    b"bits 8\n\
        grant g 100 to alice\n\
        tx p spends g.0 pays 60 to bob 40 to alice\n\
        tx q spends p.0 pays 60 to carol\n\
        balance alice\nstate p\n\
        block A on G carries p\n\
        state p\nbalance alice\nbalance bob\n\
        block B on A carries q\n\
        report\n\
        state q\nbalance bob\nbalance carol\n",
    b"grant g 100 to alice\n\
        tx p spends g.0 pays 100 to bob\n\
        tx q spends g.0 pays 100 to carol\n\
        block A on G carries p q\nblock B on G carries g\nsend G\n\
        block C on A\nblock D on G carries q\n\
        vote A D\nvote C D\nstate p\nstate q\n\
        report\n\
        vote G B\nstate g\nbalance carol\n",
];

/// Names beside the digits that stand for the same.
type Labels<'a> = Vec<(&'a str, &'a str)>;

fn are_digits(word: &str) -> bool {
    word.len() == 64
        && word
            .bytes()
            .all(|digit| matches!(digit, b'0'..=b'9' | b'a'..=b'f'))
}

/// Whether a name stands for these digits and for no others, and they for no other name.
fn fits(labels: &[(&str, &str)], name: &str, digits: &str) -> bool {
    for (known, stands) in labels {
        if (*known == name) != (*stands == digits) {
            return false;
        }
    }
    true
}

/// Whether two words are the same, or labels of the same.
fn are_alike<'a>(rt: &impl Abort, labels: &mut Labels<'a>, word: &'a str, other: &'a str) -> bool {
    if !are_digits(other) {
        return word == other;
    }
    let fits = fits(labels, word, other) && !are_digits(word);
    labels.push((word, other)).expect(rt, "memory");
    fits
}

/// Whether each word of a line is alike.
fn is_line_alike<'a>(
    rt: &impl Abort,
    labels: &mut Labels<'a>,
    line: &'a str,
    other: &'a str,
) -> bool {
    let mut others = other.split_ascii_whitespace();
    for word in line.split_ascii_whitespace() {
        if !are_alike(rt, labels, word, others.next().unwrap_or("")) {
            return false;
        }
    }
    others.next().is_none()
}

/// Compares two texts line by line.
fn compares(rt: &impl Abort, alloc: Global, at: usize, played: &str, replayed: &str) {
    let mut labels = Vec::new(alloc);
    let mut others = replayed.lines();
    let mut alike = true;
    for line in played.lines() {
        let other = others.next().unwrap_or("");
        alike = alike && is_line_alike(rt, &mut labels, line, other);
    }
    alike = alike && others.next().is_none();
    assert!(rt; alike, "{at}:\n{played}and\n{replayed}");
}

/// A scenario without its questions for lists.
fn without_lists(alloc: Global, scenario: &str) -> Text {
    let mut rest = Text::new(alloc);
    for line in scenario.lines() {
        if line != "pairs" && line != "report" {
            rest.put(line.as_bytes());
            rest.put(b"\n");
        }
    }
    rest
}

/// What is written of an input that has no fault.
pub fn written(rt: &impl Abort, alloc: Global, words: &[u8], input: &[u8]) -> Text {
    let trial = Trial {
        words,
        input,
        ends: WIDE,
    };
    let ended = ran(rt, alloc, &trial);
    assert!(rt; ended.status == Status::Done, "the input has a fault");
    ended.output
}

fn text_of<'a>(rt: &impl Abort, bytes: &'a [u8]) -> &'a str {
    str::from_utf8(bytes).expect(rt, "no text")
}

fn is_same_by_its_feed(rt: &impl Abort, alloc: Global, at: usize, scenario: &[u8]) {
    let text = without_lists(alloc, text_of(rt, scenario));
    let played = written(rt, alloc, b"play", text.whole(rt));
    let feed = written(rt, alloc, b"build", text.whole(rt));
    let replayed = written(rt, alloc, b"replay", feed.whole(rt));
    let (one, other) = (
        text_of(rt, played.whole(rt)),
        text_of(rt, replayed.whole(rt)),
    );
    compares(rt, alloc, at, one, other);
}

#[test]
fn labels_alone_differ(rt: HostRuntime) {
    for (at, (scenario, _)) in WORKED.iter().enumerate() {
        is_same_by_its_feed(&rt, rt.alloc(), at, scenario);
    }
    for (at, scenario) in EXAMPLES.iter().enumerate() {
        is_same_by_its_feed(&rt, rt.alloc(), at, scenario);
    }
}
