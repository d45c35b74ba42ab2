//! The bytes of feeds, of journals and of what answers them, put together from the names of a few
//! blocks. Their ids are SHA-256 by another program.

use crate::tests::text::{Names, Text, in_digits, put_named};
use std::alloc::Global;

/// The blocks below, and `N`, the id of no block.
#[rattlefmt::skip]
pub const IDS: Names = &[
    (b'G', "21fc3f955c14305ed66b2f6064de082e8447f29048da3ab7c5c01090c1b722ab"),
    (b'A', "ebc352d52d8a2d8f607bc82f6edc468679599eb0e8a8429d88c82e4cffb62854"),
    (b'B', "6fd2bc64ef18bc610e2371e6ea7cdda86b35be6cfbe8274c1ed1d9012553c26a"),
    (b'C', "7593040ee7600e6e7762dfd3e2bf5aa73ca32a410587f56dccc1066bc9e49d8a"),
    (b'D', "3452f32520776c4fd0062e5ae53f1087b031a269838a6d054efa593606ada79f"),
    (b'E', "b066cf5c3c781c61370614570a3ea48ddb664d7e871ed512868010193bb67869"),
    (b'F', "70d1e6c2f8d1a20cbd6430480c80e63e7800787cf61845c508f53e154c654dd6"),
    (b'H', "685bbdf5d91ddd8ce247d67a662acdec241b1cf76fc817fdab441e37dd02ecdb"),
    (b'I', "e98aa3b6ff6d001a927fec36c0d076213b7d29a08106edab16c914b742331f77"),
    (b'J', "609ec16c1d5b7ba294c715af8ccb0d35f3a1e514108a9e4f87f6a71cf24498a2"),
    (b'K', "a9732a703b8b0efc9c17525eba2766d551f074aad1c35abf1ff4067fbc4df1e0"),
    (b'L', "b42615225a37864b74c833d9f0debf48380da403e64c0e94e54bee578a95b635"),
    (b'M', "c67e63691d42deac7a02a74bc6157fe0a1bed7281304f1989d11910affeb3992"),
    (b'O', "8d338290c49b73002e75678c19a4ebf1ec7cf55bb150b5e248fbe2f4a8e74e2c"),
    (b'P', "177c54201e79134ca7e543526c35cb01245daffb74a8055eff7b62af3a159262"),
    (b'W', "c5b1bd0534920e7fd27451247e04f3db827c371b14571c94a01eaf40b58e00f5"),
    (b'N', "0000000000000000000000000000000000000000000000000000000000000000"),
];

/// A block without transactions, of nonce 0: the capital letter that names it, its salt, and its parents,
/// ascending by id.
type Known = (u8, u8, &'static [u8]);

/// `G` is the smallest genesis block, and `W` stands on the id of no block.
const BLOCKS: &[Known] = &[
    (b'G', 0, b""),
    (b'A', 1, b"G"),
    (b'B', 2, b"G"),
    (b'C', 3, b"A"),
    (b'D', 4, b"B"),
    (b'E', 5, b"B"),
    (b'F', 6, b"A"),
    (b'H', 7, b"BA"),
    (b'I', 8, b"G"),
    (b'J', 9, b"A"),
    (b'K', 10, b"JB"),
    (b'L', 11, b"B"),
    (b'M', 12, b"LI"),
    (b'O', 13, b"I"),
    (b'P', 14, b"OA"),
    (b'W', 0, b"N"),
];

/// The frame that ends a feed.
pub const END: &[u8] = b"E\0\0\0\0";

/// The salt of a block, and its parents.
fn block_of(name: u8) -> Option<(u8, &'static [u8])> {
    for (known, salt, parents) in BLOCKS {
        if *known == name {
            return Some((*salt, parents));
        }
    }
    None
}

/// What a frame begins with: its kind, and the length of its payload.
pub fn put_kind(out: &mut Text, kind: u8, length: u32) {
    out.put(&[kind]);
    out.put(&length.to_le_bytes());
}

/// The front of a block of this salt up to the number of its parents.
pub fn put_front(out: &mut Text, salt: u16, parents: u8) {
    out.put(&[1]);
    out.put(&salt.to_le_bytes());
    out.put(&[0; 14]);
    out.put(&[parents]);
}

/// The frame of a block of this salt on one parent.
pub fn put_child(out: &mut Text, salt: u16, parent: &[u8]) {
    put_kind(out, b'B', 52);
    put_front(out, salt, 1);
    out.put(parent);
    out.put(&[0; 2]);
}

/// The length of a block and its bytes, with so many bytes more behind it.
fn put_text(out: &mut Text, name: u8, more: u8) {
    let Some((salt, parents)) = block_of(name) else {
        out.spoil();
        return;
    };
    let count = u8::try_from(parents.len()).unwrap_or(0);
    let length = 20 + 32 * u32::from(count) + u32::from(more);
    out.put(&length.to_le_bytes());
    put_front(out, u16::from(salt), count);
    for parent in parents {
        put_named(out, IDS, *parent);
    }
    out.put_times(usize::from(more) + 2, 0);
}

/// The frame of a block, with so many bytes more behind it.
pub fn put_block(out: &mut Text, name: u8, more: u8) {
    out.put(b"B");
    put_text(out, name, more);
}

/// The record of a block in a journal.
pub fn put_record(out: &mut Text, name: u8) {
    out.put(b"\xa5");
    put_text(out, name, 0);
}

/// The head of a journal.
pub fn put_head(out: &mut Text, bits: u8) {
    out.put(b"\xa5SPCTRJ01");
    out.put(&[bits]);
    put_text(out, b'G', 0);
}

pub fn put_question(out: &mut Text, x: u8, y: u8) {
    put_kind(out, b'V', 64);
    put_named(out, IDS, x);
    put_named(out, IDS, y);
}

/// 65,537 bytes, one more than a block may have.
fn put_long(out: &mut Text) {
    put_kind(out, b'B', 65_537);
    out.put_times(65_537, 0);
}

/// The frame of a message. The name of a block sends it, with a byte more where `+` follows; two
/// names ask about the two; and `*` sends a block that is too long.
fn put_message(out: &mut Text, message: &[u8]) {
    match message {
        [name, b'+'] => put_block(out, *name, 1),
        [x, y] => put_question(out, *x, *y),
        [b'*'] => put_long(out),
        [name] => put_block(out, *name, 0),
        _ => out.spoil(),
    }
}

/// What a feed of profile 1 begins with.
pub const FIRST: &[u8] = b"SPCTRF01";

/// What a feed of profile 2 begins with.
pub const SECOND: &[u8] = b"SPCTRF02";

fn head_as(alloc: Global, version: &[u8], bits: u8) -> Text {
    let mut out = Text::of(alloc, version);
    out.put(&[bits]);
    put_block(&mut out, b'G', 0);
    out
}

/// The head of a feed.
pub fn head_of(alloc: Global, bits: u8) -> Text {
    head_as(alloc, FIRST, bits)
}

/// A feed: the head, the frame of each line's message, and then these bytes.
pub fn feed_of(alloc: Global, bits: u8, messages: &[u8], tail: &[u8]) -> Text {
    feed_as(alloc, FIRST, bits, messages, tail)
}

/// The same, where it begins so.
pub fn feed_as(alloc: Global, version: &[u8], bits: u8, messages: &[u8], tail: &[u8]) -> Text {
    let mut out = head_as(alloc, version, bits);
    for message in str::from_utf8(messages).unwrap_or("?").lines() {
        put_message(&mut out, message.as_bytes());
    }
    out.put(tail);
    out
}

/// The text with the id of each block in place of its name.
pub fn in_full(alloc: Global, text: &[u8]) -> Text {
    in_digits(alloc, IDS, text)
}
