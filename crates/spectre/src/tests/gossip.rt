//! Scripts of nodes that send each other blocks, each with all that is written, worked out by hand.

use crate::status::Status;
use crate::tests::text::Text;
use crate::tests::{Case, ends_all, ends_as};
use std::alloc::Global;
use std::process::Abort;

/// Two blocks, one on the other, are told of, asked for and brought.
pub const TOLD: &[u8] = b"\
    make A on G\n\
    make B on A\n\
    nodes 2\n\
    give 0 A\n\
    give 0 B\n\
    tell 0 1\n\
    deliver 0\n\
    deliver 1\n\
    deliver 2\n\
    deliver 2\n\
    report 1\n";

pub const TOLD_ANSWERS: &[u8] = b"\
    at 0 kept A present 1\n\
    at 0 kept B present 1\n\
    sent 0 have 2\n\
    sent 1 want 2\n\
    sent 2 blocks 2\n\
    at 1 kept A present 1\n\
    at 1 kept B present 1\n\
    at 1 known A\n\
    at 1 known B\n\
    at 1\n\
    blocks 3 waiting 0\n\
    accepted 0\n\
    balances 0\n";

/// Scripts without a fault.
const PLAYED: &[Case] = &[
    (TOLD, TOLD_ANSWERS),
    (b"nodes 1", b""),
    (b"# nodes\n \tnodes\t16\r\n# report 0\n\n", b""),
    (
        b"nodes 16\nreport 15\n",
        b"at 15\nblocks 1 waiting 0\naccepted 0\nbalances 0\n",
    ),
    // what the scenario sends and asks isn't played, and each block that it makes can be given
    (
        b"block A on G\nvote A G\nreport\nnodes 1\nreport 0\ngive 0 A\n",
        b"at 0\nblocks 1 waiting 0\naccepted 0\nbalances 0\nat 0 kept A present 1\n",
    ),
    // there is nothing to ask for, or to tell of, and a node may tell itself
    (
        b"make A on G\nnodes 2\ngive 0 A\ngive 1 A\ntell 0 1\ndeliver 0\n",
        b"at 0 kept A present 1\nat 1 kept A present 1\nsent 0 have 1\nidle\n",
    ),
    (
        b"nodes 1\ntell 0 0\ndeliver 0\ndeliver 0\n",
        b"sent 0 have 0\nidle\nidle\n",
    ),
    // the packet with the block is lost, and the node has none to tell of; then it comes after all
    (
        b"make A on G\nnodes 2\ngive 0 A\ntell 0 1\ndeliver 0\ndeliver 1\ntell 1 0\ndeliver 2\ntell 1 0\n",
        b"at 0 kept A present 1\nsent 0 have 1\nsent 1 want 1\nsent 2 blocks 1\nsent 3 have 0\n\
            at 1 kept A present 1\nsent 4 have 1\n",
    ),
    // what waits is told of, too
    (
        b"make A on G\nmake B on A\nnodes 3\ngive 0 B\ntell 0 1\ndeliver 0\ndeliver 1\ndeliver 2\ngive 1 A\n",
        b"at 0 kept B waiting\nsent 0 have 1\nsent 1 want 1\nsent 2 blocks 1\nat 1 kept B waiting\n\
            at 1 kept A present 2\n",
    ),
    // payments and their labels; a block of profile 2 settles the tie of two that spend one coin
    (
        b"profile 2\ngrant g 100 to alice\ntx p spends g.0 pays 100 to bob\ntx q spends g.0 pays 100 to carol\n\
            make A on G carries p\nmake B on G carries q\nmake C on A B\n\
            nodes 1\ngive 0 A\nreport 0\ngive 0 B\nreport 0\ngive 0 C\nreport 0\n",
        b"at 0 kept A present 1\nat 0\nblocks 2 waiting 0\naccepted 2\ntx g accepted\ntx p accepted\nbalances 1\nbalance bob 100\n\
            at 0 kept B present 1\nat 0\nblocks 3 waiting 0\naccepted 1\ntx g accepted\nbalances 1\nbalance alice 100\n\
            at 0 kept C present 1\nat 0\nblocks 4 waiting 0\naccepted 2\ntx g accepted\ntx p accepted\nbalances 1\nbalance bob 100\n",
    ),
];

/// Scripts with a fault, and scenarios before them.
const FAULTY: &[Case] = &[
    (
        b"make A on G\nmake B on A\nnodes 2\ngive 1 B\ngive 0 A\ntell 0 1\ndeliver 0\ndeliver 1\ndeliver 2\ndeliver 9\n",
        b"at 1 kept B waiting\nat 0 kept A present 1\nsent 0 have 1\nsent 1 want 1\nsent 2 blocks 1\n\
            at 1 kept A present 2\nfault line 10 packet\n",
    ),
    // There is no line `nodes`.
    (b"", b"fault line 1 nodes\n"),
    (b"\n", b"fault line 2 nodes\n"),
    (b"make A on G", b"fault line 2 nodes\n"),
    (b"make A on G\n", b"fault line 2 nodes\n"),
    (b"make A on G\n\n# nodes 2\n", b"fault line 4 nodes\n"),
    // A fault of the scenario comes first, and stands alone.
    (b"make A on B\n", b"fault line 1 unknown\n"),
    (
        b"block A on G\nvote A B\nnodes 0\n",
        b"fault line 2 unknown\n",
    ),
    (b"give 0 A\nnodes 2\ngive 0 A\n", b"fault line 1 command\n"),
    // So does a faulty line `nodes`.
    (
        b"make A on G\nnodes 0\ngive 0 A\n",
        b"fault line 2 number\n",
    ),
    (b"nodes 17\n", b"fault line 1 number\n"),
    (b"nodes 1 1\n", b"fault line 1 form\n"),
    (b"nodes\t1\x7f\n", b"fault line 1 byte\n"),
    // The lines before a faulty one are played.
    (
        b"make A on G\nnodes 1\ngive 0 A\nnope\ngive 0 A\n",
        b"at 0 kept A present 1\nfault line 4 command\n",
    ),
    (
        b"nodes 2\ntell 0 1\nnodes 2\n",
        b"sent 0 have 0\nfault line 3 command\n",
    ),
    (
        b"nodes 2\ntell 0 1\ntell 0\n",
        b"sent 0 have 0\nfault line 3 form\n",
    ),
    (
        b"nodes 2\ntell 0 1\ntell x 9\n",
        b"sent 0 have 0\nfault line 3 number\n",
    ),
    (
        b"nodes 2\ntell 0 1\ngive 9 Nope\n",
        b"sent 0 have 0\nfault line 3 node\n",
    ),
    (
        b"nodes 2\ntell 0 1\ngive 1 Nope\n",
        b"sent 0 have 0\nfault line 3 unknown\n",
    ),
    (
        b"nodes 2\ntell 0 1\nreport \x01\n",
        b"sent 0 have 0\nfault line 3 byte\n",
    ),
    // Packets that weren't sent.
    (b"nodes 1\ndeliver 0\n", b"fault line 2 packet\n"),
    (
        b"nodes 2\ntell 0 1\ndeliver 1\n",
        b"sent 0 have 0\nfault line 3 packet\n",
    ),
    (b"nodes 1\ndeliver 65535\n", b"fault line 2 packet\n"),
    (b"nodes 1\ndeliver 65536\n", b"fault line 2 packet\n"),
    (
        b"nodes 1\ndeliver 99999999999999999999999999\n",
        b"fault line 2 packet\n",
    ),
];

#[test]
fn scripts(rt: HostRuntime) {
    ends_all(&rt, rt.alloc(), "played", b"gossip", PLAYED, Status::Done);
    ends_all(
        &rt,
        rt.alloc(),
        "at fault",
        b"gossip",
        FAULTY,
        Status::Malformed,
    );
}

/// A text before some lines that are equal, how many these are, what stands behind them, how many lines are
/// written for them, and what is written then.
struct Many {
    first: &'static [u8],
    line: &'static [u8],
    times: u16,
    last: &'static [u8],
    lines: usize,
    output: &'static [u8],
}

#[rattlefmt::skip]
const MANY: &[Many] = &[
    // 128 blocks can be given, whatever becomes of them, and 4,096 packets can be sent.
    Many { first: b"make A on G\nnodes 1\n", line: b"give 0 A\n", times: 128, last: b"give 0 A\n", lines: 128, output: b"fault line 131 many\n" },
    Many { first: b"nodes 2\n", line: b"tell 0 1\n", times: 4096, last: b"tell 0 1\n", lines: 4096, output: b"fault line 4098 many\n" },
    Many { first: b"make A on G\nnodes 2\ngive 0 A\n", line: b"tell 0 1\n", times: 4096, last: b"deliver 0\n", lines: 4097, output: b"fault line 4100 many\n" },
    // What sends none is done even then, and the other reasons come first.
    Many { first: b"nodes 2\n", line: b"tell 0 1\n", times: 4096, last: b"deliver 4095\ndeliver 4096\n", lines: 4096, output: b"idle\nfault line 4099 packet\n" },
    Many { first: b"nodes 2\n", line: b"tell 0 1\n", times: 4096, last: b"tell 0 2\n", lines: 4096, output: b"fault line 4098 node\n" },
    Many { first: b"make A on G\nnodes 1\n", line: b"give 0 A\n", times: 128, last: b"give 1 A\n", lines: 128, output: b"fault line 131 node\n" },
    Many { first: b"make A on G\nnodes 1\n", line: b"give 0 A\n", times: 128, last: b"give 0 B\n", lines: 128, output: b"fault line 131 unknown\n" },
];

fn is_many(rt: &impl Abort, alloc: Global, at: usize, many: &Many) {
    let mut input = Text::of(alloc, many.first);
    for _ in 0..many.times {
        input.put(many.line);
    }
    input.put(many.last);
    let run = (b"gossip".as_slice(), input.whole(rt));
    let wanted = (many.lines, many.output);
    ends_as(rt, alloc, "many", at, run, Status::Malformed, wanted);
}

#[test]
fn one_too_many(rt: HostRuntime) {
    for (at, many) in MANY.iter().enumerate() {
        is_many(&rt, rt.alloc(), at, many);
    }
}
