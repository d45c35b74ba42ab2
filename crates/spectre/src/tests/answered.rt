//! Scenarios without a fault, with all that is written: how lines, words and names may be spelled.

use crate::tests::{Case, SAMPLE, SAMPLE_ANSWERS};

/// Scenarios without a fault.
pub const ANSWERED: &[Case] = &[
    // the sample
    (SAMPLE, SAMPLE_ANSWERS),
    // nothing
    (b"", b""),
    // line ends alone
    (b"\n\n\n", b""),
    // comments alone
    (b"# a\n  #b\n\t#\n#block A on G", b""),
    // a comment may hold any byte but a line end
    (
        b"#\x00\xff\x7f\r\r\n \t# a\rvote A B\nvote G G\n",
        b"vote G G same\n",
    ),
    // a return before a line end is dropped
    (
        b"block A on G\r\nvote A G\r\n",
        b"kept A present 1\nvote A G after\n",
    ),
    // a return at the end of the text is dropped
    (b"vote G G\r", b"vote G G same\n"),
    // a return alone in the last line is dropped
    (b"vote G G\n\r", b"vote G G same\n"),
    // blanks and a return make no word
    (b" \t\r\n\r\n\t \n", b""),
    // a last line without its line end
    (
        b"block A on G\nvote G A",
        b"kept A present 1\nvote G A before\n",
    ),
    // tabs and spaces between and around words
    (
        b"\tblock\t A \ton\t\tG  \n  vote A\tG\t\n",
        b"kept A present 1\nvote A G after\n",
    ),
    // a name of 32 bytes
    (
        b"block abcdefghijklmnopqrstuvwxyz012345 on G\nvote abcdefghijklmnopqrstuvwxyz012345 G\n",
        b"kept abcdefghijklmnopqrstuvwxyz012345 present 1\nvote abcdefghijklmnopqrstuvwxyz012345 G after\n",
    ),
    // a name of one byte of each kind
    (
        b"block Z on G\nblock 9 on Z\nblock _ on 9\nblock - on _\nvote - Z\n",
        b"kept Z present 1\nkept 9 present 1\nkept _ present 1\nkept - present 1\nvote - Z after\n",
    ),
    // commands are names
    (
        b"block block on G\nblock vote on block\nvote vote block\n",
        b"kept block present 1\nkept vote present 1\nvote vote block after\n",
    ),
    // words that are almost key words are names
    (
        b"block On on G\nblock onn on On\nblock o on onn\nvote On o\n",
        b"kept On present 1\nkept onn present 1\nkept o present 1\nvote On o before\n",
    ),
    // names that differ in case are different
    (
        b"block a on G\nblock A on a\nblock g on A\nvote a A\nvote G g\n",
        b"kept a present 1\nkept A present 1\nkept g present 1\nvote a A before\nvote G g before\n",
    ),
    // parents in any order
    (
        b"block A on G\nblock B on G A\nblock C on B G A\nvote C A\nvote B C\n",
        b"kept A present 1\nkept B present 1\nkept C present 1\nvote C A after\nvote B C before\n",
    ),
    // words are no names: a lock may have a key word, or the name of a block
    (
        b"grant g 7 to to 8 to G 9 to #\ntx p spends g.0 with to pays 3 to with\nbalance to\nbalance G\nbalance #\nblock A on G carries p\nbalance to\nbalance with\n",
        b"balance to 7\nbalance G 8\nbalance # 9\nkept A present 1\nbalance to 0\nbalance with 3\n",
    ),
    // a word of 64 bytes
    (
        b"balance 0123456789abcdefghijklmnopqrstuvwxyzABCDEFGHIJKLMNOPQRSTUVWXYZ.:\n",
        b"balance 0123456789abcdefghijklmnopqrstuvwxyzABCDEFGHIJKLMNOPQRSTUVWXYZ.: 0\n",
    ),
    // the end of the spends is the first word that says so behind a spend
    (
        b"grant pay 7 to pays\ntx p spends pay.0 with pays pays 7 to pays\nstate p\nblock A on G carries p\nstate p\nbalance pays\n",
        b"tx p absent\nkept A present 1\ntx p accepted\nbalance pays 7\n",
    ),
    // no work is asked for, and the most that is granted
    (
        b"#\n\nbits 0\ngrant g 9223372036854775807 to a\nbalance a\nreport\n",
        b"balance a 9223372036854775807\nblocks 1 waiting 0\naccepted 1\ntx g accepted\nbalances 1\nbalance a 9223372036854775807\n",
    ),
    // a report in the order of naming, of locks that of standing
    (
        b"grant z 5 to y 6 to x\ngrant a 7 to x\nbalance w\nreport\n",
        b"balance w 0\nblocks 1 waiting 0\naccepted 2\ntx z accepted\ntx a accepted\nbalances 2\nbalance y 5\nbalance x 13\n",
    ),
];
