//! Generated scenarios, against texts and digests that were made outside this repository, and read as
//! scenarios.

use crate::rows::holds;
use crate::scenes::judging::read;
use sp_ids::BlockId;
use sp_make::make;
use std::alloc::Global;
use std::process::Abort;
use std::test::Fail;

/// A number of blocks, a seed, a width, and the text.
type Text = (u16, u64, u8, &'static [u8]);

#[rattlefmt::skip]
const TEXTS: &[Text] = &[
    (0, 9, 16, b""),
    (1, 9, 16, b"block b1 on G\n"),
    (3, 0, 1, b"block b1 on G\nblock b2 on b1\nblock b3 on b2\n"),
    (2, 1, 2, b"block b1 on G\nblock b2 on G b1\n"),
    (8, 0, 1, b"grant g1 100 to a1\ntx p1 spends g1.0 pays 100 to x1\ntx q1 spends g1.0 pays 100 to y1\nblock b1 on G\nblock b2 on b1\nblock b3 on b2\nblock b4 on b3\nblock b5 on b4\nblock b6 on b5\nblock b7 on b6 carries p1\nblock b8 on b7 carries q1\n"),
];

/// A number of blocks, a seed, a width, the length of the text and its SHA-256.
type Digest = (u16, u64, u8, usize, &'static str);

#[rattlefmt::skip]
const DIGESTS: &[Digest] = &[
    (7, 3, 2, 115, "463b67b7a69d68c75ff1ac67fa095ab85a94d6c20ae46ddd53e91c59b005c1a0"),
    (8, 1, 2, 237, "82925532b1b0a912f8072385931e9ca3bb5235dd01a0087e8bb3b1e4e3324cbe"),
    (16, 7, 2, 491, "9e825c2c9d50c09d5e42b8d01ba9d3999de639ae0032f23d21e1eebd56a2eca9"),
    (24, 5, 3, 750, "bc8e6f6d1468f21c9d4483784a8fd52551259d5e8f06c7ea58aa1233848d6ff3"),
    (40, 3, 3, 1286, "9f4cf76cd8dc358052af735ba03022bfa9130b985f3543566c808bf9225cc693"),
    (64, 18446744073709551615, 16, 2132, "f6bae07403c2331457749287711052663e98f9baa63f168e654aaa702dcad4b9"),
    (300, 7, 4, 10782, "c6bc2a21680c9646024926e7489888454678a900b33bc80a272c1b76afadc715"),
    (511, 0, 1, 16771, "6a1114f260b67c289a8a4b91c4af45bc4f7f3786438870677d8fd6aca7efb467"),
    (511, 18446744073709551615, 16, 19009, "a72ba39ef2527c958a19a1886253e5a467f8e3064de72571623ea5b0823d464d"),
];

/// The text; none where the numbers are out of range.
fn made(alloc: Global, n: u16, seed: u64, width: u8) -> Result<Vec<u8>, Fail> {
    if n > 511 || width == 0 || width > 16 {
        return Err("out of range".into());
    }
    Ok(make(alloc, n, seed, width)?)
}

/// Whether it has no fault, and a message for each block.
fn is_played(alloc: Global, text: &[u8], blocks: u16) -> Result<bool, Fail> {
    let scene = read(alloc, text)?;
    Ok(scene.fault().is_none() && scene.len() == usize::from(blocks))
}

fn judge_text(rt: &impl Abort, alloc: Global, row: usize, wanted: &Text) -> Result<(), Fail> {
    let (n, seed, width, whole) = wanted;
    let text = made(alloc, *n, *seed, *width)?;
    holds(rt, row, text.as_slice() == *whole);
    holds(rt, row, is_played(alloc, &text, *n)?);
    Ok(())
}

#[test]
fn generated_texts(rt: HostRuntime) -> Result<(), Fail> {
    for (row, wanted) in TEXTS.iter().enumerate() {
        judge_text(&rt, rt.alloc(), row, wanted)?;
    }
    Ok(())
}

fn judge_digest(rt: &impl Abort, alloc: Global, row: usize, wanted: &Digest) -> Result<(), Fail> {
    let (n, seed, width, length, digest) = wanted;
    let text = made(alloc, *n, *seed, *width)?;
    holds(rt, row, text.len() == *length);
    let is_digest = BlockId::from_hex(digest.as_bytes()) == Ok(BlockId::of(&text));
    holds(rt, row, is_digest);
    holds(rt, row, is_played(alloc, &text, *n)?);
    Ok(())
}

#[test]
fn generated_digests(rt: HostRuntime) -> Result<(), Fail> {
    for (row, wanted) in DIGESTS.iter().enumerate() {
        judge_digest(&rt, rt.alloc(), row, wanted)?;
    }
    Ok(())
}
