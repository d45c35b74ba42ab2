//! Blocks in several shapes with a question on each pair, and the most parents that a block may have.

use crate::status::Status;
use crate::tests::ends_as;
use crate::tests::text::{Text, put_number};
use std::alloc::Global;
use std::cmp::Ordering;

/// How many blocks a shape has, genesis among them; even, so that one of two chains is longer.
const COUNT: u8 = 40;

/// Which earlier blocks each block of a shape stands on.
#[derive(Clone, Copy)]
enum Shape {
    /// The one before.
    Chain,
    /// Genesis.
    Star,
    /// The two before.
    Ladder,
    /// All before.
    Full,
    /// The one before the one before, so that the odd ones are a chain of 20, and the even ones a
    /// chain of 19.
    TwoChains,
}

impl Shape {
    /// The first parent of a block, and the one after the last.
    fn parents(self, block: u8) -> (u8, u8) {
        let before = block.saturating_sub(1);
        let two_before = block.saturating_sub(2);
        match self {
            Shape::Chain => (before, block),
            Shape::Star => (0, 1),
            Shape::Ladder => (two_before, block),
            Shape::Full => (0, block),
            Shape::TwoChains => (two_before, two_before.saturating_add(1)),
        }
    }

    /// Whether one of the two blocks is an ancestor of the other, or they are the same.
    fn relates(self, x: u8, y: u8) -> bool {
        match self {
            Shape::Chain | Shape::Ladder | Shape::Full => true,
            Shape::Star => x == y || x == 0 || y == 0,
            Shape::TwoChains => x == 0 || y == 0 || x % 2 == y % 2,
        }
    }

    /// The answer to a vote. An ancestor is before its descendants, blocks alone on genesis are in
    /// a tie, and every block of the longer chain is before every block of the shorter.
    fn word(self, x: u8, y: u8) -> &'static [u8] {
        if self.relates(x, y) {
            match x.cmp(&y) {
                Ordering::Less => b" before\n",
                Ordering::Equal => b" same\n",
                Ordering::Greater => b" after\n",
            }
        } else {
            match self {
                Shape::TwoChains => if x % 2 == 1 {
                    b" before\n"
                } else {
                    b" after\n"
                },
                _ => b" tie\n",
            }
        }
    }
}

const SHAPES: &[Shape] = &[
    Shape::Chain,
    Shape::Star,
    Shape::Ladder,
    Shape::Full,
    Shape::TwoChains,
];

fn put_name(text: &mut Text, block: u8) {
    if block == 0 {
        text.put(b"G");
    } else {
        text.put(b"b");
        put_number(text, u16::from(block));
    }
}

/// Names the blocks from one on, up to that before another.
fn put_names(text: &mut Text, first: u8, end: u8) {
    for block in first..end {
        text.put(b" ");
        put_name(text, block);
    }
}

fn put_block(text: &mut Text, shape: Shape, block: u8) {
    let (first, end) = shape.parents(block);
    text.put(b"block ");
    put_name(text, block);
    text.put(b" on");
    put_names(text, first, end);
    text.put(b"\n");
}

fn put_kept(answers: &mut Text, block: u8) {
    answers.put(b"kept ");
    put_name(answers, block);
    answers.put(b" present 1\n");
}

/// A question on two blocks, or the answer to it.
fn put_vote(text: &mut Text, x: u8, y: u8, end: &[u8]) {
    text.put(b"vote ");
    put_name(text, x);
    text.put(b" ");
    put_name(text, y);
    text.put(end);
}

/// The lines that make the blocks and ask on each two of them, and what they are answered.
fn scene_of(alloc: Global, shape: Shape) -> (Text, Text) {
    let mut text = Text::new(alloc);
    let mut answers = Text::new(alloc);
    for block in 1..COUNT {
        put_block(&mut text, shape, block);
        put_kept(&mut answers, block);
    }
    for x in 0..COUNT {
        for y in 0..COUNT {
            put_vote(&mut text, x, y, b"\n");
            put_vote(&mut answers, x, y, shape.word(x, y));
        }
    }
    (text, answers)
}

/// Plays the blocks of each shape, and the questions.
#[test]
fn forty_blocks(rt: HostRuntime) {
    for (at, shape) in SHAPES.iter().enumerate() {
        let (text, answers) = scene_of(rt.alloc(), *shape);
        let run = (b"play".as_slice(), text.whole(&rt));
        let wanted = (0, answers.whole(&rt));
        ends_as(&rt, rt.alloc(), "shape", at, run, Status::Done, wanted);
    }
}

/// 64 blocks on genesis that aren't sent, one on all of them that is; and then one on genesis besides.
fn crowd(alloc: Global) -> Text {
    let mut text = Text::new(alloc);
    for block in 1..65u8 {
        text.put(b"make ");
        put_name(&mut text, block);
        text.put(b" on G\n");
    }
    text.put(b"block c on");
    put_names(&mut text, 1, 65);
    text.put(b"\nblock d on G");
    put_names(&mut text, 1, 65);
    text
}

#[test]
fn sixty_four_parents(rt: HostRuntime) {
    let text = crowd(rt.alloc());
    let run = (b"play".as_slice(), text.whole(&rt));
    let wanted = (0, b"kept c waiting\nfault line 66 many\n".as_slice());
    ends_as(
        &rt,
        rt.alloc(),
        "parents",
        0,
        run,
        Status::Malformed,
        wanted,
    );
}
