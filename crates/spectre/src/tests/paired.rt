//! The lines of all pairs of blocks that stand in one order, put together from their ids and their
//! places in that order.

use crate::tests::text::{Text, put_hex};

/// Blocks of which each is before all behind it, but for two that may tie.
#[derive(Clone, Copy)]
pub struct Ordered<'a> {
    /// The 32 bytes of each id, one behind another.
    pub ids: &'a [u8],
    /// The places of the ids, the least id first.
    pub ascending: &'a [u8],
    /// The places of the two that tie, the lower one first, or one place twice.
    pub tied: (u8, u8),
}

/// The id at a place of a list of ids, each of 32 bytes.
pub fn id_at(ids: &[u8], place: u8) -> &[u8] {
    let from = usize::from(place) * 32;
    ids.get(from..from + 32).unwrap_or(b"")
}

/// The end of the line of two blocks at different places.
fn word_of(x: u8, y: u8, tied: (u8, u8)) -> &'static [u8] {
    if (x, y) == tied || (y, x) == tied {
        b" tie\n"
    } else if x < y {
        b" before\n"
    } else {
        b" after\n"
    }
}

fn put_pair(out: &mut Text, blocks: &Ordered, x: u8, y: u8) {
    out.put(b"vote ");
    put_hex(out, id_at(blocks.ids, x));
    out.put(b" ");
    put_hex(out, id_at(blocks.ids, y));
    out.put(word_of(x, y, blocks.tied));
}

fn put_pairs_of(out: &mut Text, blocks: &Ordered, x: u8, others: &[u8]) {
    for y in others {
        put_pair(out, blocks, x, *y);
    }
}

/// The lines of all pairs, behind the line of their number.
pub fn put_pairs(out: &mut Text, blocks: &Ordered) {
    let mut rest = blocks.ascending;
    for x in blocks.ascending {
        rest = rest.get(1..).unwrap_or(&[]);
        put_pairs_of(out, blocks, *x, rest);
    }
}
