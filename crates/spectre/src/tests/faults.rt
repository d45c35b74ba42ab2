//! Scenarios that break a rule: each reason but `work`, with the number of its line, and lines that break two
//! rules at once, which show the order of judgement.

use crate::tests::Case;

/// Scenarios at fault. The lines before are answered, and none after.
#[rattlefmt::skip]
pub const FAULTS: &[Case] = &[
    // byte: 127
    (b"vote G\x7f G\n", b"fault line 1 byte\n"),
    // byte: two returns at the end of the text
    (b"vote G G\n\r\r", b"vote G G same\nfault line 2 byte\n"),
    // byte: random bytes that begin with skipped lines
    (b"\n#\x9e\n\n\xd3\x07bl\n~", b"fault line 4 byte\n"),
    // command
    (b"votes G G\n", b"fault line 1 command\n"),
    // late: the second line that sets the work
    (b"# a\nbits 0\nbits 0\n", b"fault line 3 late\n"),
    // late: a grant behind a block
    (b"block A on G\ngrant g 1 to a\n", b"kept A present 1\nfault line 2 late\n"),
    // late: a profile behind the work, behind a profile and behind a block
    (b"bits 0\nprofile 1\n", b"fault line 2 late\n"),
    (b"profile 2\n\nprofile 2\n", b"fault line 3 late\n"),
    (b"block A on G\nprofile 2\n", b"kept A present 1\nfault line 2 late\n"),
    // late: the work behind a grant, though a profile stands first
    (b"profile 1\ngrant g 1 to a\nbits 0\n", b"fault line 3 late\n"),
    // number: no such profile
    (b"profile 3\n", b"fault line 1 number\n"),
    (b"profile 0\n", b"fault line 1 number\n"),
    (b"profile 02\n", b"fault line 1 number\n"),
    // form: no profile, and two
    (b"profile\n", b"fault line 1 form\n"),
    (b"profile 1 2\n", b"fault line 1 form\n"),
    // form
    (b"vote G G\nvote G", b"vote G G same\nfault line 2 form\n"),
    // name: a key word
    (b"block to on G\n", b"fault line 1 name\n"),
    // name: a dot, of a transaction
    (b"grant g.0 1 to a\n", b"fault line 1 name\n"),
    // taken: the name of an earlier block
    (b"block A on G\nblock A on G\n", b"kept A present 1\nfault line 2 taken\n"),
    // taken: transactions share the names of blocks
    (b"grant A 1 to a\nmake A on G\n", b"fault line 2 taken\n"),
    // taken: the name of genesis
    (b"vote G G\n\n#\nblock G on G\nvote G G\n", b"vote G G same\nfault line 4 taken\n"),
    // unknown: skipped lines are numbered
    (b"\n \t\n# a\n\r\nvote A B\n", b"fault line 5 unknown\n"),
    // unknown: a vote alone
    (b"vote A B\n", b"fault line 1 unknown\n"),
    // unknown: a transaction where a block is due
    (b"grant g 1 to a\nvote G g\n", b"fault line 2 unknown\n"),
    // unknown: no such output
    (b"grant g 1 to a\ntx p spends g.1 pays 1 to b\n", b"fault line 2 unknown\n"),
    // unknown: the first word behind on is a parent
    (b"block A on carries\n", b"fault line 1 unknown\n"),
    // repeat
    (b"block A on G\nblock B on G A G\n", b"kept A present 1\nfault line 2 repeat\n"),
    // number: out of its range
    (b"bits 65\n", b"fault line 1 number\n"),
    // number: the sum is 2^63
    (b"grant g 9223372036854775807 to a 1 to b\n", b"fault line 1 number\n"),
    // word: 65 bytes
    (b"balance 0123456789abcdefghijklmnopqrstuvwxyzABCDEFGHIJKLMNOPQRSTUVWXYZ.:!\n", b"fault line 1 word\n"),
    // many: 17 outputs
    (b"grant g 1 to a 1 to a 1 to a 1 to a 1 to a 1 to a 1 to a 1 to a 1 to a 1 to a 1 to a 1 to a 1 to a 1 to a 1 to a 1 to a 1 to a\n", b"fault line 1 many\n"),
    // twin
    (b"grant g 1 to a\nbalance a\ntx p spends g.0 pays 1 to b\ntx q spends g.0 pays 1 to b\n", b"balance a 1\nfault line 4 twin\n"),
    // byte before command
    (b"blok\x01 A on G\n", b"fault line 1 byte\n"),
    // command before name
    (b"Block A! on G\n", b"fault line 1 command\n"),
    // late before form
    (b"vote G G\nbits\n", b"vote G G same\nfault line 2 late\n"),
    // form before name
    (b"block A! in G\n", b"fault line 1 form\n"),
    // name before unknown
    (b"block A! on B\n", b"fault line 1 name\n"),
    // taken before repeat
    (b"block G on G G\n", b"fault line 1 taken\n"),
    // unknown before its own repeat
    (b"block A on B B\n", b"fault line 1 unknown\n"),
    // repeat before a later unknown
    (b"block A on G G B\n", b"fault line 1 repeat\n"),
    // an earlier unknown before a later number
    (b"tx p spends G.0 pays 0 to a\n", b"fault line 1 unknown\n"),
    // an earlier unknown before a later command
    (b"vote G A\nplay\n", b"fault line 1 unknown\n"),
];
