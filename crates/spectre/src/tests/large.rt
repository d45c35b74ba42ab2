//! Runs of hundreds of blocks: as many as a ledger keeps, side by side on genesis, one more, and the
//! first of them again; and a drill.

use crate::status::Status;
use crate::tests::feed_bytes::{END, head_of, in_full, put_child};
use crate::tests::text::Text;
use crate::tests::{Trial, WIDE, behind, ends_as, ran};
use sp_ids::BlockId;
use std::alloc::Global;

/// The feed of 512 blocks on genesis, whose salts are 1 to 512, and of the first of them once more.
fn star(alloc: Global) -> Text {
    let mut feed = head_of(alloc, 0);
    let genesis = BlockId::of(feed.end(20));
    for salt in 1..=512u16 {
        put_child(&mut feed, salt, genesis.as_bytes());
    }
    put_child(&mut feed, 1, genesis.as_bytes());
    feed.put(END);
    feed
}

#[test]
fn a_full_ledger(rt: HostRuntime) {
    let feed = star(rt.alloc());
    let output = in_full(rt.alloc(), b"full\nknown A\n");
    let run = (b"replay".as_slice(), feed.whole(&rt));
    let wanted = (511, output.whole(&rt));
    ends_as(&rt, rt.alloc(), "star", 0, run, Status::Done, wanted);
}

/// Whether these are the four lines of 300 made blocks beside genesis, which have 45,150 pairs, and 37
/// transactions of which something is left.
fn is_summary(output: &[u8]) -> bool {
    match str::from_utf8(output) {
        Ok(text) => {
            text.starts_with("blocks 301 waiting 0\npairs 45150 before ")
                && text.ends_with("\nbalances 37\n")
                && behind(output, 4).is_empty()
        }
        Err(_) => false,
    }
}

#[test]
fn a_long_drill(rt: HostRuntime) {
    let trial = Trial {
        words: b"drill\n300\n7\n4\n",
        input: b"",
        ends: WIDE,
    };
    let ended = ran(&rt, rt.alloc(), &trial);
    let output = ended.output.whole(&rt);
    assert!(&rt; ended.status == Status::Done && is_summary(output), "drill");
}
