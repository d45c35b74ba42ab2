//! Whole texts: the ends of lines, lines that are skipped, the lines that stand first, and the numbers
//! of lines.

use crate::scenes::judging::{Fault, whole};
use sp_play::Why;
use std::test::Fail;

/// A text, its fault, and the number of messages before that.
#[rattlefmt::skip]
const TEXTS: &[(&[u8], Fault, usize)] = &[
    (b"", None, 0),
    (b"\n", None, 0),
    (b"\r", None, 0),
    (b"\r\n", None, 0),
    (b"\n\n# a\x01\n  \t\n", None, 0),
    (b"pairs", None, 1),
    (b"pairs\n", None, 1),
    (b"pairs\n\n\n", None, 1),
    (b"pairs\r\nreport\r\n", None, 2),
    (b"pairs\r\nreport\r", None, 2),
    (b"pairs\nreport \r", None, 2),
    (b"pairs\r\r\n", Some((1, Why::Byte)), 0),
    (b"pairs\rreport", Some((1, Why::Byte)), 0),
    (b"pairs\n\rreport", Some((2, Why::Byte)), 1),
    (b"\r\r", Some((1, Why::Byte)), 0),
    (b"# \r\r\npairs\r\nx\r\n", Some((3, Why::Command)), 1),
    (b"\n# c\n\t\nx\n", Some((4, Why::Command)), 0),
    (b"\r\n\r\nx", Some((3, Why::Command)), 0),
    (b"pairs\nx\ny", Some((2, Why::Command)), 1),
    (b"pairs\nx\nvote", Some((2, Why::Command)), 1),
    (b"bits 0", None, 0),
    (b"# c\n\nbits 64\n", None, 0),
    (b"bits 0\ngrant g 1 to a\ngrant h 2 to a", None, 0),
    (b"bits 1\nbits 1", Some((2, Why::Late)), 0),
    (b"grant g 1 to a\nbits 1", Some((2, Why::Late)), 0),
    (b"make A on G\ngrant g 1 to a", Some((2, Why::Late)), 0),
    (b"pairs\ngrant g 1 to a", Some((2, Why::Late)), 1),
    (b"bits 1\npairs\ngrant g 1 to a", Some((3, Why::Late)), 1),
    (b"bits", Some((1, Why::Form)), 0),
    (b"bits 1 2", Some((1, Why::Form)), 0),
    (b"bits 65", Some((1, Why::Number)), 0),
    (b"bits 00", Some((1, Why::Number)), 0),
    (b"bits 01", Some((1, Why::Number)), 0),
    (b"bits -1", Some((1, Why::Number)), 0),
    (b"bits +1", Some((1, Why::Number)), 0),
    (b"bits 256", Some((1, Why::Number)), 0),
    (b"bits 18446744073709551616", Some((1, Why::Number)), 0),
    (b"bits x", Some((1, Why::Number)), 0),
    (b"grant", Some((1, Why::Form)), 0),
    (b"grant g", Some((1, Why::Form)), 0),
    (b"grant g 1", Some((1, Why::Form)), 0),
    (b"grant g 1 to", Some((1, Why::Form)), 0),
    (b"grant g to a", Some((1, Why::Form)), 0),
    (b"grant g 1 at a", Some((1, Why::Form)), 0),
    (b"grant g 1 to a 2", Some((1, Why::Form)), 0),
    (b"grant g 1 to a 2 to", Some((1, Why::Form)), 0),
    (b"grant to 1 to a", Some((1, Why::Name)), 0),
    (b"grant g.0 1 to a", Some((1, Why::Name)), 0),
    (b"grant ggggggggggggggggggggggggggggggggg 1 to a", Some((1, Why::Name)), 0),
    (b"grant G 1 to a", Some((1, Why::Taken)), 0),
    (b"grant g 1 to a\ngrant g 2 to a", Some((2, Why::Taken)), 0),
    (b"grant g 0 to a", Some((1, Why::Number)), 0),
    (b"grant g 9223372036854775808 to a", Some((1, Why::Number)), 0),
    (b"grant g 9223372036854775807 to a", None, 0),
    (b"grant g 9223372036854775807 to a 1 to a", Some((1, Why::Number)), 0),
    (b"grant g 9223372036854775806 to a 1 to a", None, 0),
    (b"grant g 1 to wwwwwwwwwwwwwwwwwwwwwwwwwwwwwwwwwwwwwwwwwwwwwwwwwwwwwwwwwwwwwwwww", Some((1, Why::Word)), 0),
    (b"grant g 1 to wwwwwwwwwwwwwwwwwwwwwwwwwwwwwwwwwwwwwwwwwwwwwwwwwwwwwwwwwwwwwwww", None, 0),
    (b"grant g 1 to wwwwwwwwwwwwwwwwwwwwwwwwwwwwwwwwwwwwwwwwwwwwwwwwwwwwwwwwwwwwwwwww 0 to a", Some((1, Why::Word)), 0),
    (b"grant g 0 to wwwwwwwwwwwwwwwwwwwwwwwwwwwwwwwwwwwwwwwwwwwwwwwwwwwwwwwwwwwwwwwww", Some((1, Why::Number)), 0),
    (b"grant g 1 to a\ngrant h 1 to a", Some((2, Why::Twin)), 0),
    (b"grant g 1 to a 1 to a\ngrant h 1 to a", None, 0),
    (b"grant g 1 to a 2 to b\ngrant h 2 to b 1 to a", None, 0),
    (b"grant g 1 to a\ngrant h 1 to b\ntx p spends g.0 h.0 pays 1 to c\ntx q spends h.0 g.0 pays 1 to c", Some((4, Why::Twin)), 0),
    (b"grant g 1 to a\nmake A on g", Some((2, Why::Unknown)), 0),
    (b"vote A B", Some((1, Why::Unknown)), 0),
    (b"vote G G", None, 1),
    (b"tx p spends G.0 pays 1 to a", Some((1, Why::Unknown)), 0),
    (b"bits 64\nmake G on Z", Some((2, Why::Taken)), 0),
    (b"bits 64\nmake A on Z", Some((2, Why::Unknown)), 0),
    (b"bits 64\nmake A on G G", Some((2, Why::Repeat)), 0),
    (b"make A on G\nmake B on A\nsend B\nvote G B\nsend A\nsend A", None, 4),
];

#[test]
fn texts(rt: HostRuntime) -> Result<(), Fail> {
    for (row, (text, fault, count)) in TEXTS.iter().enumerate() {
        whole(&rt, rt.alloc(), row, text, *fault, *count)?;
    }
    Ok(())
}

/// None of 1,048,576 nonces has so many bits of work: the odds are one in 2^44.
#[test]
fn work(rt: HostRuntime) -> Result<(), Fail> {
    let text = b"bits 64\npairs\nblock A on G";
    whole(&rt, rt.alloc(), 0, text, Some((3, Why::Work)), 1)
}
