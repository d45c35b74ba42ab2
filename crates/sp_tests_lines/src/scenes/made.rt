//! Blocks that lines make, byte for byte. They were worked out outside this repository: a version, a
//! salt, a nonce, the parents, and the transactions with their inputs and outputs.

use crate::rows::holds;
use crate::scenes::judging::read;
use sp_feed::Message;
use sp_fixtures::flat;
use std::alloc::Global;
use std::process::Abort;
use std::test::Fail;

/// A scenario, the place of a message, and the fields of its block.
type Row = (&'static [u8], usize, &'static [&'static [u8]]);

#[rattlefmt::skip]
const ROWS: &[Row] = &[
    // The genesis block: salt 0, nonce 0, and the grants in their order.
    (
        b"grant z 100 to abc\ngrant a 2 to b\nsend G",
        0,
        &[
            b"\x01",
            b"\x00\x00\x00\x00\x00\x00\x00\x00",
            b"\x00\x00\x00\x00\x00\x00\x00\x00",
            b"\x00",
            b"\x02\x00",
            b"\x00",
            b"\x01",
            b"d\x00\x00\x00\x00\x00\x00\x00",
            b"\xbax\x16\xbf\x8f\x01\xcf\xeaAA@\xde]\xae\"#\xb0\x03a\xa3\x96\x17z\x9c\xb4\x10\xffa\xf2\x00\x15\xad",
            b"\x00",
            b"\x01",
            b"\x02\x00\x00\x00\x00\x00\x00\x00",
            b">#\xe8\x16\x009YJ3\x89Oed\xe1\xb14\x8b\xbdz\x00\x88\xd4,J\xcbs\xee\xae\xd5\x9c\x00\x9d",
        ],
    ),
    // The third block that is made has salt 3, also where the others aren't sent.
    (
        b"make A on G\nmake B on G\nblock C on G",
        0,
        &[
            b"\x01",
            b"\x03\x00\x00\x00\x00\x00\x00\x00",
            b"\x00\x00\x00\x00\x00\x00\x00\x00",
            b"\x01",
            b"!\xfc?\x95\\\x140^\xd6k/`d\xde\x08.\x84G\xf2\x90H\xda:\xb7\xc5\xc0\x10\x90\xc1\xb7\"\xab",
            b"\x00\x00",
        ],
    ),
    // Its parents ascend by id, whatever the order in which they are named.
    (
        b"make A on G\nmake B on G\nblock C on G A B",
        0,
        &[
            b"\x01",
            b"\x03\x00\x00\x00\x00\x00\x00\x00",
            b"\x00\x00\x00\x00\x00\x00\x00\x00",
            b"\x03",
            b"!\xfc?\x95\\\x140^\xd6k/`d\xde\x08.\x84G\xf2\x90H\xda:\xb7\xc5\xc0\x10\x90\xc1\xb7\"\xab",
            b"o\xd2\xbcd\xef\x18\xbca\x0e#q\xe6\xea|\xdd\xa8k5\xbel\xfb\xe8'L\x1e\xd1\xd9\x01%S\xc2j",
            b"\xeb\xc3R\xd5-\x8a-\x8f`{\xc8/n\xdcF\x86yY\x9e\xb0\xe8\xa8B\x9d\x88\xc8.L\xff\xb6(T",
            b"\x00\x00",
        ],
    ),
    // The same parents in another order.
    (
        b"make A on G\nmake B on G\nblock C on B A G",
        0,
        &[
            b"\x01",
            b"\x03\x00\x00\x00\x00\x00\x00\x00",
            b"\x00\x00\x00\x00\x00\x00\x00\x00",
            b"\x03",
            b"!\xfc?\x95\\\x140^\xd6k/`d\xde\x08.\x84G\xf2\x90H\xda:\xb7\xc5\xc0\x10\x90\xc1\xb7\"\xab",
            b"o\xd2\xbcd\xef\x18\xbca\x0e#q\xe6\xea|\xdd\xa8k5\xbel\xfb\xe8'L\x1e\xd1\xd9\x01%S\xc2j",
            b"\xeb\xc3R\xd5-\x8a-\x8f`{\xc8/n\xdcF\x86yY\x9e\xb0\xe8\xa8B\x9d\x88\xc8.L\xff\xb6(T",
            b"\x00\x00",
        ],
    ),
    // Eight bits of work: none of the nonces from 0 to 590 has them.
    (
        b"bits 8\ngrant g 5 to a\nblock A on G",
        0,
        &[
            b"\x01",
            b"\x01\x00\x00\x00\x00\x00\x00\x00",
            b"O\x02\x00\x00\x00\x00\x00\x00",
            b"\x01",
            b"\x9a-\xfa\xe0g\xc6\x9b\xb3eBC,U\xac\xb2>\x9f\xeb-\xfe\xac\x1f\xda\xcel\xdb\"bA\xd6Kg",
            b"\x00\x00",
        ],
    ),
    // The nonces are tried from 0 on for each block.
    (
        b"bits 8\ngrant g 5 to a\nblock A on G\nblock B on G",
        1,
        &[
            b"\x01",
            b"\x02\x00\x00\x00\x00\x00\x00\x00",
            b"}\x00\x00\x00\x00\x00\x00\x00",
            b"\x01",
            b"\x9a-\xfa\xe0g\xc6\x9b\xb3eBC,U\xac\xb2>\x9f\xeb-\xfe\xac\x1f\xda\xcel\xdb\"bA\xd6Kg",
            b"\x00\x00",
        ],
    ),
    // The inputs ascend by outpoint; the preimage of the second is the word behind `with`, of the others the
    // word that locked the output.
    (
        b"grant g 1 to a 2 to b\ngrant h 4 to d\ntx p spends h.0 g.1 with x g.0 pays 6 to e 1 to f\nblock A on G carries p",
        0,
        &[
            b"\x01",
            b"\x01\x00\x00\x00\x00\x00\x00\x00",
            b"\x00\x00\x00\x00\x00\x00\x00\x00",
            b"\x01",
            b"f\xbe\x03\x89\x08\xa9J\x8d\xae#\xf2\x8dL<t\xf5/\x0f\x80\xe5\xaa\x86V\x089\xb4\xb8\x11\x14\x14-\x1f",
            b"\x01\x00",
            b"\x03",
            b"\x01q\xf0\x81o\xfb&a\xa8\xedL6`[\x0f6K~\xb4\xe6\x06\xc5\x0e\x11\xb1y\x92\xd2J\xc3y\xb4\x00",
            b"\x01a",
            b"\x01q\xf0\x81o\xfb&a\xa8\xedL6`[\x0f6K~\xb4\xe6\x06\xc5\x0e\x11\xb1y\x92\xd2J\xc3y\xb4\x01",
            b"\x01x",
            b"Y\x17@tp4h\xc5\xdf4\x04{/\x87\xe9D\x04 \xbf\\D<\x86\xb2\"\xa4\xc9j`\xac\xd4%\x00",
            b"\x01d",
            b"\x02",
            b"\x06\x00\x00\x00\x00\x00\x00\x00",
            b"?y\xbb{C[\x052\x16Q\xda\xef\xd3t\xcd\xc6\x81\xdc\x06\xfa\xa6^7N83{\x88\xca\x04m\xea",
            b"\x01\x00\x00\x00\x00\x00\x00\x00",
            b"%/\x10\xc86\x10\xeb\xca\x1a\x05\x9c\x0b\xae\x82U\xeb\xa2\xf9[\xe4\xd1\xd7\xbc\xfa\x89\xd7$\x8a\x82\xd9\xf1\x11",
        ],
    ),
    // The transactions stand in the order in which they are named.
    (
        b"grant g 1 to a\ntx p spends g.0 pays 1 to b\ntx q spends g.0 pays 1 to c\nblock A on G carries q p",
        0,
        &[
            b"\x01",
            b"\x01\x00\x00\x00\x00\x00\x00\x00",
            b"\x00\x00\x00\x00\x00\x00\x00\x00",
            b"\x01",
            b"\x97Y\xe3\x08'\xf0\x07\xd1l\xd85\x96-|&\xda\x8b\x89\x019\xf4U\x93\x03\x97\xf8\xd4\x7f\x88\xe7\xa8\x97",
            b"\x02\x00",
            b"\x01",
            b"\x7f#e pJ\x8c~\x84\xf3\xd6\x94\xbd\x0e\xb8\xc6\xa52\x9e\x84\xffB\x9dL\x111\xb8\xf7\xd3A\xdc\x18\x00",
            b"\x01a",
            b"\x01",
            b"\x01\x00\x00\x00\x00\x00\x00\x00",
            b".},\x03\xa9Pz\xe2e\xec\xf5\xb55h\x85\xa53\x93\xa2\x02\x9d$\x13\x94\x99re\xa1\xa2Z\xef\xc6",
            b"\x01",
            b"\x7f#e pJ\x8c~\x84\xf3\xd6\x94\xbd\x0e\xb8\xc6\xa52\x9e\x84\xffB\x9dL\x111\xb8\xf7\xd3A\xdc\x18\x00",
            b"\x01a",
            b"\x01",
            b"\x01\x00\x00\x00\x00\x00\x00\x00",
            b">#\xe8\x16\x009YJ3\x89Oed\xe1\xb14\x8b\xbdz\x00\x88\xd4,J\xcbs\xee\xae\xd5\x9c\x00\x9d",
        ],
    ),
];

fn judge(rt: &impl Abort, alloc: Global, number: usize, row: &Row) -> Result<(), Fail> {
    let (text, place, fields) = row;
    let scene = read(alloc, text)?;
    let wanted = flat(alloc, fields)?;
    if *place >= scene.len() {
        return Err("no such message".into());
    }
    let is_made = scene.message(*place) == Message::Block(&wanted);
    holds(rt, number, is_made);
    Ok(())
}

#[test]
fn made(rt: HostRuntime) -> Result<(), Fail> {
    for (number, row) in ROWS.iter().enumerate() {
        judge(&rt, rt.alloc(), number, row)?;
    }
    Ok(())
}
