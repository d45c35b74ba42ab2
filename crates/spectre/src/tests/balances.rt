//! Feeds with payments, what is answered to them, and scenarios of which they are the feeds. The bytes are
//! written out from the formats, the ids and locks are SHA-256 by another program, and the answers were
//! worked out by hand from the rules.

use crate::status::Status;
use crate::tests::text::{Names, Text, in_digits, put_bytes, put_named};
use crate::tests::{ends_as, worked};
use std::alloc::Global;

/// The capital letters that stand for locks, transactions and blocks in the feeds and answers below.
#[rattlefmt::skip]
const NAMES: Names = &[
    // The locks that `alice`, `bob`, `carol`, `dave`, `erin` and `abc` open.
    (b'A', "2bd806c97f0e00af1a1fc3328fa763a9269723c8db8fac4f93af71db186d6e90"),
    (b'B', "81b637d8fcd2c6da6359e6963113a1170de795e4b725b84d1e0b4cfd9ec58ce9"),
    (b'C', "4c26d9074c27d89ede59270c0ac14b71e071b15239519f75474b2f3ba63481f5"),
    (b'D', "61ea0803f8853523b777d414ace3130cd4d3f92de2cd7ff8695c337d79c2eeee"),
    (b'E', "7cbccb0c4caadf9fcdb51ee457a828cc72a45879831b5b978ae2e2cefc449705"),
    (b'L', "ba7816bf8f01cfea414140de5dae2223b00361a396177a9cb410ff61f20015ad"),
    // A grant of 100 to `alice`, and her payment of it to `bob`.
    (b'P', "63bcdcdedc35ed337d85e6d1798a6547ceabc458596416a7e3dd50b1999353ef"),
    (b'Q', "cce6abdc809e3db4e8004c673357386b92276f31e7d07196fc7b4ddce450883c"),
    // The genesis block with that grant; the blocks V and W on it, X on V, U on W, and Y on U.
    (b'G', "6e9d1928ffb57a1621d2e2d1897e2482549c32cc105d8a4a86bd70a24c22de0a"),
    (b'V', "002d86dc238915faf36668d2fda993d6dc984ebdc7629d156091afed91b4a809"),
    (b'W', "00144acd6ed6629d1e8f17672a56b914f69075a82f5fbad1587a1f20d31cd8af"),
    (b'X', "00247bb458823062758740b1e92639939f646557eda1c2ad9a481113e04dbe03"),
    (b'U', "001ef9a29868d9c989d8e00f0d3eadf048869dbb9e94639f2f7ff1f5785736d1"),
    (b'Y', "008d72862f58f9d2e09c871a1ce42e0c2cfac9f14f05017a272ceacbca6879d3"),
    // Grants of 10, 20 and 30; payments to `dave` of the first, the second and the third of them; and
    // one of the second to `erin`.
    (b'R', "ec579f027d9fb8a2bb98011e100c5a2620b971f9fc89653f97f42a152acd43f0"),
    (b'S', "29870aa022951b5d9646c478e9d15bb2b2f30d032aacc6c602623bd885657047"),
    (b'T', "4af25394ce5a7c2997b210dcd0aae232820961a5f5218b19565f15f91e96940a"),
    (b'Z', "3657d8f28e59bbd94d54b31105553d09ade50ba7da584a6372a778d4d574b039"),
    // The genesis block with these grants; the blocks I and J on it, K on I, M on J, and O on M.
    (b'H', "7872e91cebaf8ba0be77546fe981c8e2b06c6e0ef99b618a571bfd8e1c3e1c75"),
    (b'I', "d215bdf4d19b7a4de01f24ecd39dde9d4fb1cc89251dec2b6b9e356707b16dec"),
    (b'J', "ab1e094db6e9554c45fc8dada14f3618d630d5c7aa227883e2651195c1a8a859"),
    (b'K', "79e3e4d00acbaf6401563707772d1b817f48f3e707bf476d314ba78a0d54a7a8"),
    (b'M', "18da08751a5c88ee31a8fdbea67abbd8aa79e9daefa6f1b2c30ed222636c6420"),
    (b'O', "81bbd2d73b0790f6a373de5cf8aee61a86d5c1942796a263a6855e8efe43c1bb"),
];

/// A feed in hexadecimal digits, its words divided by blanks and line ends, and all that is written.
/// A name is a word of its own in the feed, where it stands for 32 bytes; in the answers it stands
/// for 64 digits. And the scenario of which it is the feed, empty where that isn't tried.
#[derive(Clone, Copy)]
pub struct Paid {
    pub name: &'static str,
    pub scenario: &'static [u8],
    pub feed: &'static [u8],
    pub answers: &'static [u8],
}

/// A grant, and nothing else.
const GRANT: Paid = Paid {
    name: "a grant, and a lock that has none",
    scenario: b"grant g 100 to abc\nbalance abc\nbalance alice\n",
    feed: b"5350435452463031 00
        42 3e000000 01 0000000000000000 0000000000000000 00 0100 00 01 6400000000000000 L
        55 20000000 L
        55 20000000 A
        45 00000000",
    answers: b"balance L 100\nbalance A 0\n",
};

/// V pays the 100 of `alice` to `bob`, and W beside it to `carol`. X on V decides; Y waits for U.
const SPENT_TWICE: Paid = Paid {
    name: "a grant that is spent twice side by side",
    scenario: b"",
    feed: b"5350435452463031 08
        42 3e000000 01 0000000000000000 0000000000000000 00 0100 00 01 6400000000000000 A
        55 20000000 A  55 20000000 B  55 20000000 C
        42 85000000 01 0100000000000000 2600000000000000 01 G 0100
            01 P 00 05 616c696365 01 6400000000000000 B
        42 85000000 01 0200000000000000 f701000000000000 01 G 0100
            01 P 00 05 616c696365 01 6400000000000000 C
        55 20000000 A  55 20000000 B  55 20000000 C
        52 00000000
        42 34000000 01 0300000000000000 cb01000000000000 01 V 0000
        42 34000000 01 0400000000000000 ee01000000000000 01 U 0000
        55 20000000 A  55 20000000 B  55 20000000 C
        52 00000000
        50 00000000
        45 00000000",
    answers: b"balance A 100\nbalance B 0\nbalance C 0\n\
        kept V present 1\nkept W present 1\n\
        balance A 100\nbalance B 0\nbalance C 0\n\
        blocks 3 waiting 0\naccepted 1\ntx P accepted\nbalances 1\nbalance A 100\n\
        kept X present 1\nkept Y waiting\n\
        balance A 0\nbalance B 100\nbalance C 0\n\
        blocks 4 waiting 1\naccepted 2\ntx P accepted\ntx Q accepted\nbalances 1\nbalance B 100\n\
        pairs 6\nvote W X after\nvote W V after\nvote W G after\nvote X V after\nvote X G after\nvote V G after\n",
};

/// I pays 9 and 18 to `dave`, and K on it 27. J beside I pays to `erin` what the 18 come from. After
/// I dave has 27; after J the two tie, and 9 are left; K decides for I, and then he has 54. M on J
/// makes a tie again, and O on M decides for J: then only 9 and 27 are left, the 18 are gone, and
/// erin has her 20.
const THREE_PAYMENTS: Paid = Paid {
    name: "three payments to a lock, of which one is rejected later",
    scenario: b"grant g 10 to alice 20 to bob 30 to carol\n\
        tx p spends g.0 pays 9 to dave\n\
        tx q spends g.1 pays 18 to dave\n\
        tx r spends g.1 pays 20 to erin\n\
        tx s spends g.2 pays 27 to dave\n\
        balance dave\nbalance bob\n\
        block I on G carries p q\n\
        balance dave\nbalance bob\n\
        block J on G carries r\n\
        balance dave\nbalance bob\nbalance erin\n\
        block K on I carries s\n\
        balance dave\nbalance bob\nbalance erin\n\
        block M on J\n\
        balance dave\nbalance bob\nbalance erin\n\
        block O on M\n\
        balance dave\nbalance bob\nbalance erin\n\
        report\n",
    feed: b"5350435452463031 00
        42 8e000000 01 0000000000000000 0000000000000000 00 0100
            00 03 0a00000000000000 A 1400000000000000 B 1e00000000000000 C
        55 20000000 D  55 20000000 B
        42 d4000000 01 0100000000000000 0000000000000000 01 H 0200
            01 R 00 05 616c696365 01 0900000000000000 D
            01 R 01 03 626f62 01 1200000000000000 D
        55 20000000 D  55 20000000 B
        42 83000000 01 0200000000000000 0000000000000000 01 H 0100
            01 R 01 03 626f62 01 1400000000000000 E
        55 20000000 D  55 20000000 B  55 20000000 E
        42 85000000 01 0300000000000000 0000000000000000 01 I 0100
            01 R 02 05 6361726f6c 01 1b00000000000000 D
        55 20000000 D  55 20000000 B  55 20000000 E
        42 34000000 01 0400000000000000 0000000000000000 01 J 0000
        55 20000000 D  55 20000000 B  55 20000000 E
        42 34000000 01 0500000000000000 0000000000000000 01 M 0000
        55 20000000 D  55 20000000 B  55 20000000 E
        52 00000000
        45 00000000",
    answers: b"balance D 0\nbalance B 20\n\
        kept I present 1\nbalance D 27\nbalance B 0\n\
        kept J present 1\nbalance D 9\nbalance B 20\nbalance E 0\n\
        kept K present 1\nbalance D 54\nbalance B 0\nbalance E 0\n\
        kept M present 1\nbalance D 36\nbalance B 20\nbalance E 0\n\
        kept O present 1\nbalance D 36\nbalance B 0\nbalance E 20\n\
        blocks 6 waiting 0\naccepted 4\n\
        tx S accepted\ntx Z accepted\ntx T accepted\ntx R accepted\n\
        balances 2\nbalance D 36\nbalance E 20\n",
};

/// V pays the 100 of `alice` to `bob`, W beside it to `carol`, and X on V decides; each with the
/// least nonce by which eight bits of its id are zero.
const WORK: Paid = Paid {
    name: "a grant that is spent twice side by side, with work",
    scenario: b"bits 8\n\
        grant g 100 to alice\n\
        tx p spends g.0 pays 100 to bob\n\
        tx q spends g.0 pays 100 to carol\n\
        block V on G carries p\n\
        block W on G carries q\n\
        block X on V\n\
        vote W V\n\
        state p\n\
        report\n\
        pairs\n",
    feed: b"5350435452463031 08
        42 3e000000 01 0000000000000000 0000000000000000 00 0100 00 01 6400000000000000 A
        42 85000000 01 0100000000000000 2600000000000000 01 G 0100
            01 P 00 05 616c696365 01 6400000000000000 B
        42 85000000 01 0200000000000000 f701000000000000 01 G 0100
            01 P 00 05 616c696365 01 6400000000000000 C
        42 34000000 01 0300000000000000 cb01000000000000 01 V 0000
        56 40000000 W V
        54 20000000 Q
        52 00000000
        50 00000000
        45 00000000",
    answers: b"kept V present 1\nkept W present 1\nkept X present 1\n\
        vote W V after\ntx Q accepted\n\
        blocks 4 waiting 0\naccepted 2\ntx P accepted\ntx Q accepted\nbalances 1\nbalance B 100\n\
        pairs 6\nvote W X after\nvote W V after\nvote W G after\nvote X V after\nvote X G after\nvote V G after\n",
};

/// A grant that two blocks spend, questions on the payments and on the grant's lock, a third block that
/// decides, the questions on the payments again, and a report.
pub const DECIDED: Paid = Paid {
    name: "a grant that is spent twice side by side, and a block on the one side",
    scenario: worked::SPENT_TWICE,
    feed: b"5350435452463031 00
        42 3e000000 01 0000000000000000 0000000000000000 00 0100
            00 01 6400000000000000 A
        42 85000000 01 0100000000000000 0000000000000000 01 G 0100
            01 P 00 05 616c696365 01 6400000000000000 B
        42 85000000 01 0200000000000000 0000000000000000 01 G 0100
            01 P 00 05 616c696365 01 6400000000000000 C
        54 20000000 Q
        54 20000000 54a17b8185c1e2ba6f6bdb86837ea28181189529825d8396af3ef47a21d5252c
        55 20000000 A
        42 34000000 01 0300000000000000 0000000000000000 01 1a619024f6d28af1e80003380e7e03ec1101237de63e140e201b7894193e6519 0000
        54 20000000 Q
        54 20000000 54a17b8185c1e2ba6f6bdb86837ea28181189529825d8396af3ef47a21d5252c
        52 00000000
        45 00000000",
    answers: b"\
    kept 1a619024f6d28af1e80003380e7e03ec1101237de63e140e201b7894193e6519 present 1\n\
    kept a71021b2dd66868461d2ee51490f5820c90664a717faa1301ae516eacfa3ed17 present 1\n\
    tx cce6abdc809e3db4e8004c673357386b92276f31e7d07196fc7b4ddce450883c rejected\n\
    tx 54a17b8185c1e2ba6f6bdb86837ea28181189529825d8396af3ef47a21d5252c rejected\n\
    balance 2bd806c97f0e00af1a1fc3328fa763a9269723c8db8fac4f93af71db186d6e90 100\n\
    kept 9b94ddb3599783c0f2ff38119e7ed21ef03da3b7d45629db1b0d09b0a59d4b89 present 1\n\
    tx cce6abdc809e3db4e8004c673357386b92276f31e7d07196fc7b4ddce450883c accepted\n\
    tx 54a17b8185c1e2ba6f6bdb86837ea28181189529825d8396af3ef47a21d5252c rejected\n\
    blocks 4 waiting 0\n\
    accepted 2\n\
    tx 63bcdcdedc35ed337d85e6d1798a6547ceabc458596416a7e3dd50b1999353ef accepted\n\
    tx cce6abdc809e3db4e8004c673357386b92276f31e7d07196fc7b4ddce450883c accepted\n\
    balances 1\n\
    balance 81b637d8fcd2c6da6359e6963113a1170de795e4b725b84d1e0b4cfd9ec58ce9 100\n\
    ",
};

/// On a grant of 100, A carries a payment of it to `bob`, and B beside A one to `carol` and `dave`. The
/// grant is accepted. Where A and B tie neither payment is; C on A puts A before B. Asked is for the grant
/// and for the first payment before A, for both payments behind B and behind C, and for an id that none
/// has.
const TWO_OUTPUTS: Paid = Paid {
    name: "a payment beside one of two outputs",
    scenario: b"",
    feed: b"5350435452463031 00
        42 3e000000 01 0000000000000000 0000000000000000 00 0100
            00 01 6400000000000000 L
        54 20000000 fc3df441fd5d999445034b5cd3e3b90e8abf59fa1bcf799ebde99bb336af0382
        54 20000000 6ec6f868a57d8680e280ccbc2c8a3db368dfe0b1cf9325e3c2748a9ee648d941
        42 83000000 01 0100000000000000 0000000000000000 01 d68eb442eb64b11c2cd31108c21ce6da71b798866b398e9432bdc5362927f7ee 0100
            01 fc3df441fd5d999445034b5cd3e3b90e8abf59fa1bcf799ebde99bb336af0382 00 03 616263 01 6400000000000000 B
        42 ab000000 01 0200000000000000 0000000000000000 01 d68eb442eb64b11c2cd31108c21ce6da71b798866b398e9432bdc5362927f7ee 0100
            01 fc3df441fd5d999445034b5cd3e3b90e8abf59fa1bcf799ebde99bb336af0382 00 03 616263 02 3c00000000000000 C 1e00000000000000 D
        54 20000000 6ec6f868a57d8680e280ccbc2c8a3db368dfe0b1cf9325e3c2748a9ee648d941
        54 20000000 460a8e9a895e2efa675855882770593a8b09b0cbec6f87efb0c14c9acdd16357
        42 34000000 01 0300000000000000 0000000000000000 01 b1227bf147b6a5148067202d1ced4f109a564eaba9b0726f315b9932b7f7e62d 0000
        54 20000000 6ec6f868a57d8680e280ccbc2c8a3db368dfe0b1cf9325e3c2748a9ee648d941
        54 20000000 460a8e9a895e2efa675855882770593a8b09b0cbec6f87efb0c14c9acdd16357
        54 20000000 0000000000000000000000000000000000000000000000000000000000000000
        45 00000000",
    answers: b"\
    tx fc3df441fd5d999445034b5cd3e3b90e8abf59fa1bcf799ebde99bb336af0382 accepted\n\
    tx 6ec6f868a57d8680e280ccbc2c8a3db368dfe0b1cf9325e3c2748a9ee648d941 absent\n\
    kept b1227bf147b6a5148067202d1ced4f109a564eaba9b0726f315b9932b7f7e62d present 1\n\
    kept 472efac7faf0596a663750aba8b92e6a289d95b2c99b50e80d7ed92733aaeffd present 1\n\
    tx 6ec6f868a57d8680e280ccbc2c8a3db368dfe0b1cf9325e3c2748a9ee648d941 rejected\n\
    tx 460a8e9a895e2efa675855882770593a8b09b0cbec6f87efb0c14c9acdd16357 rejected\n\
    kept 64dae04f20a8fcec947bc1854a3f0ca9cc636300e58bf6e64438819e543d9add present 1\n\
    tx 6ec6f868a57d8680e280ccbc2c8a3db368dfe0b1cf9325e3c2748a9ee648d941 accepted\n\
    tx 460a8e9a895e2efa675855882770593a8b09b0cbec6f87efb0c14c9acdd16357 rejected\n\
    tx 0000000000000000000000000000000000000000000000000000000000000000 absent\n\
    ",
};

const PAID: &[Paid] = &[
    GRANT,
    SPENT_TWICE,
    THREE_PAYMENTS,
    WORK,
    DECIDED,
    TWO_OUTPUTS,
];

fn put_word(out: &mut Text, word: &[u8]) {
    match word {
        [name] => put_named(out, NAMES, *name),
        _ => put_bytes(out, word),
    }
}

/// The bytes of a feed.
pub fn bytes_of(alloc: Global, feed: &[u8]) -> Text {
    let mut out = Text::new(alloc);
    for word in str::from_utf8(feed).unwrap_or("?").split_ascii_whitespace() {
        put_word(&mut out, word.as_bytes());
    }
    out
}

#[test]
fn payments(rt: HostRuntime) {
    for (at, paid) in PAID.iter().enumerate() {
        let feed = bytes_of(rt.alloc(), paid.feed);
        let output = in_digits(rt.alloc(), NAMES, paid.answers);
        let (feed, output) = (feed.whole(&rt), output.whole(&rt));
        let run = (b"replay".as_slice(), feed);
        ends_as(
            &rt,
            rt.alloc(),
            paid.name,
            at,
            run,
            Status::Done,
            (0, output),
        );
        if !paid.scenario.is_empty() {
            let run = (b"build".as_slice(), paid.scenario);
            ends_as(&rt, rt.alloc(), paid.name, at, run, Status::Done, (0, feed));
        }
    }
}
