//! Worked rows: scenarios in which votes and payments are decided, each with all that is written.

use crate::tests::Case;

/// Two blocks side by side.
pub const TIE: &[u8] = b"block A on G\nblock B on G\nvote A B\n";

/// A third block on one of the two, and all pairs.
pub const DECIDED: &[u8] = b"\
    block A on G\n\
    block B on G\n\
    vote A B\n\
    block C on A\n\
    vote A B\n\
    vote B A\n\
    pairs\n";

/// A grant that is spent twice side by side, and a block on the one side.
pub const SPENT_TWICE: &[u8] = b"\
    grant g 100 to alice\n\
    tx p spends g.0 pays 100 to bob\n\
    tx q spends g.0 pays 100 to carol\n\
    block A on G carries p\n\
    block B on G carries q\n\
    state p\n\
    state q\n\
    balance alice\n\
    block C on A\n\
    state p\n\
    state q\n\
    report\n";

/// Scenarios whose every answer was worked out by hand.
pub const WORKED: &[Case] = &[
    // nothing decides between two blocks
    (TIE, b"kept A present 1\nkept B present 1\nvote A B tie\n"),
    // a block on one of the two does
    (
        DECIDED,
        b"kept A present 1\nkept B present 1\nvote A B tie\n\
            kept C present 1\nvote A B before\nvote B A after\n\
            pairs 6\nvote G A before\nvote G B before\nvote G C before\n\
            vote A B before\nvote A C before\nvote B C after\n",
    ),
    // two more blocks on the other turn it round: the sum is +2
    (
        b"block A on G\nblock B on G\nvote A B\n\
            block C on A\nvote A B\nvote B A\npairs\n\
            block D on B\nblock E on B\nvote A B\n",
        b"kept A present 1\nkept B present 1\nvote A B tie\n\
            kept C present 1\nvote A B before\nvote B A after\n\
            pairs 6\nvote G A before\nvote G B before\nvote G C before\n\
            vote A B before\nvote A C before\nvote B C after\n\
            kept D present 1\nkept E present 1\nvote A B after\n",
    ),
    // an ancestor is before, and a block is the same as itself
    (
        b"block A on G\nblock B on A\nvote A B\nvote G A\nvote A A\n",
        b"kept A present 1\nkept B present 1\nvote A B before\nvote G A before\nvote A A same\n",
    ),
    // a block on both keeps their tie
    (
        b"block A on G\nblock B on G\nvote A B\nblock C on A B\nvote A B\n",
        b"kept A present 1\nkept B present 1\nvote A B tie\nkept C present 1\nvote A B tie\n",
    ),
    // in profile 2 it votes for the one of the lower salt: the sum is -2
    (
        b"profile 2\nblock A on G\nblock B on G\nvote A B\nblock C on A B\nvote A B\n",
        b"kept A present 1\nkept B present 1\nvote A B tie\nkept C present 1\nvote A B before\n",
    ),
    // in profile 1 it doesn't, though the profile and the work stand first
    (
        b"profile 1\nbits 0\nblock A on G\nblock B on G\nblock C on A B\nvote A B\n",
        b"kept A present 1\nkept B present 1\nkept C present 1\nvote A B tie\n",
    ),
    // three blocks, each before the next: each sum is -4
    (
        b"block A on G\nblock B on G\nblock C on G\n\
            block X1 on A\nblock Y1 on X1 B\nblock X2 on B\nblock Y2 on X2 C\n\
            block X3 on C\nblock Y3 on X3 A\nvote A B\nvote B C\nvote C A\n",
        b"kept A present 1\nkept B present 1\nkept C present 1\n\
            kept X1 present 1\nkept Y1 present 1\nkept X2 present 1\nkept Y2 present 1\n\
            kept X3 present 1\nkept Y3 present 1\n\
            vote A B before\nvote B C before\nvote C A before\n",
    ),
    // genesis has no parents, and so it is refused as another block
    (b"send G\n", b"refused parent-count\n"),
    // a block that comes before its parent waits, and one that comes again is known
    (
        b"make A on G\nmake B on A\nsend B\nvote G B\nsend A\nsend A\n",
        b"kept B waiting\nvote G B absent\nkept A present 2\nknown A\n",
    ),
    // a tie rejects both payments, until a block decides for one
    (
        SPENT_TWICE,
        b"kept A present 1\nkept B present 1\ntx p rejected\ntx q rejected\nbalance alice 100\n\
            kept C present 1\ntx p accepted\ntx q rejected\n\
            blocks 4 waiting 0\naccepted 2\ntx g accepted\ntx p accepted\n\
            balances 1\nbalance bob 100\n",
    ),
    // two blocks on the other side take back what was paid, and what was paid of that
    (
        b"grant g 100 to alice\n\
            tx p spends g.0 pays 100 to bob\n\
            tx q spends g.0 pays 100 to carol\n\
            block A on G carries p\n\
            block B on G carries q\n\
            tx r spends p.0 pays 100 to dave\n\
            block C on A carries r\n\
            balance dave\n\
            block D on B\n\
            block E on B\n\
            state q\nstate p\nstate r\nbalance carol\nbalance dave\n",
        b"kept A present 1\nkept B present 1\nkept C present 1\nbalance dave 100\n\
            kept D present 1\nkept E present 1\n\
            tx q accepted\ntx p rejected\ntx r rejected\nbalance carol 100\nbalance dave 0\n",
    ),
    // of two payments in one chain the earlier is accepted
    (
        b"grant g 100 to alice\n\
            tx p spends g.0 pays 100 to bob\n\
            tx q spends g.0 pays 100 to carol\n\
            block A on G carries p\n\
            block F on A carries q\n\
            state p\nstate q\n",
        b"kept A present 1\nkept F present 1\ntx p accepted\ntx q rejected\n",
    ),
    // a payment that stands in two blocks is no conflict, and counts once
    (
        b"grant g 100 to alice\n\
            tx p spends g.0 pays 100 to bob\n\
            tx q spends g.0 pays 100 to carol\n\
            block A on G carries p\n\
            block B on G carries p\n\
            state p\nbalance bob\n",
        b"kept A present 1\nkept B present 1\ntx p accepted\nbalance bob 100\n",
    ),
    // a wrong preimage is no rival
    (
        b"grant g 100 to alice\n\
            tx p spends g.0 pays 100 to bob\n\
            tx e spends g.0 with eve pays 100 to eve\n\
            block A on G carries p\n\
            block B on G carries e\n\
            state p\nstate e\n",
        b"kept A present 1\nkept B present 1\ntx p accepted\ntx e rejected\n",
    ),
    // and neither is a payment of more than it spends
    (
        b"grant g 100 to alice\n\
            tx p spends g.0 pays 100 to bob\n\
            tx e spends g.0 pays 101 to eve\n\
            block A on G carries p\n\
            block B on G carries e\n\
            state p\nstate e\n",
        b"kept A present 1\nkept B present 1\ntx p accepted\ntx e rejected\n",
    ),
    // a block on both sides carries the one payment again, behind a tie
    (
        b"grant g 100 to alice\n\
            tx p spends g.0 pays 100 to bob\n\
            tx q spends g.0 pays 100 to carol\n\
            block A on G carries p\n\
            block B on G carries q\n\
            block H on A B carries q\n\
            state q\nstate p\n",
        b"kept A present 1\nkept B present 1\nkept H present 1\ntx q accepted\ntx p rejected\n",
    ),
    // what a block pays isn't spent in that block
    (
        b"grant g 100 to alice\n\
            tx p spends g.0 pays 100 to bob\n\
            tx r spends p.0 pays 100 to dave\n\
            block A on G carries p r\n\
            state r\n\
            block B on A carries r\n\
            state r\n",
        b"kept A present 1\ntx r rejected\nkept B present 1\ntx r accepted\n",
    ),
    // a block that spends one outpoint twice is refused
    (
        b"grant g 100 to alice\n\
            tx p spends g.0 pays 100 to bob\n\
            tx q spends g.0 pays 100 to carol\n\
            block A on G carries p q\n",
        b"refused same-outpoint\n",
    ),
    // a block without enough work isn't made, and one with just enough is kept
    (
        b"bits 8\ngrant g 100 to alice\nblock A on G\nvote G A\nstate g\n",
        b"kept A present 1\nvote G A before\ntx g accepted\n",
    ),
];
