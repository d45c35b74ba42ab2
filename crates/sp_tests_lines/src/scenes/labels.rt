//! The labels of scenarios, and names by themselves. The ids were worked out outside this repository.

use crate::rows::holds;
use crate::scenes::judging::read;
use sp_ids::{BlockId, Lock, TxId};
use sp_names::{Name, Names};
use std::alloc::Global;
use std::process::Abort;
use std::test::Fail;

/// What a name names.
#[derive(Clone, Copy, PartialEq, Eq)]
enum Kind {
    Block,
    Tx,
    Lock,
}

/// A name, what it names, and its id or lock in hexadecimal.
type Label = (Kind, &'static [u8], &'static str);

/// A scenario and its labels: blocks, transactions, and locks, each in their order.
type Row = (&'static [u8], &'static [Label]);

#[rattlefmt::skip]
const ROWS: &[Row] = &[
    // the names in order of making, and the words in order of standing
    (
        b"grant g 100 to alice 5 to bob\ngrant a 1 to alice\ntx p spends g.0 with eve pays 90 to carol 1 to alice\nbalance dave\nmake Z on G\nblock A on Z G carries p\nbalance carol\nbalance eve\ntx b spends p.0 pays 1 to frank\nstate b\n",
        &[
            (Kind::Block, b"G", "e94075ed84f3069cf812067f5830fdf9648036382069ecb75184e58b6172b6e4"),
            (Kind::Block, b"Z", "3b271553ccbefb1ea7b0ed273d4ab41df565b118dffaacc69c4ee061a8a4eb4f"),
            (Kind::Block, b"A", "066b4c00ee0f43f06f56177fe5b3652de155873202688c0b09bd0ea79282d4aa"),
            (Kind::Tx, b"g", "4dc94c3387c6740ba0d963662257dedc4064ffeea70d74f49ea3a7b5b34b928b"),
            (Kind::Tx, b"a", "fdb7930a356cc54d21940e38d700b4cb1578790dfc9c8750d331258e62b05430"),
            (Kind::Tx, b"p", "97f0f2caef45bafcf0839a6b7aa360fd9da9a69f9926e14ca4242678e43edbc8"),
            (Kind::Tx, b"b", "8cff698359c9bd9ff72d2bb155097f38df335041f6a4d5fb770bf1e8ee540b5f"),
            (Kind::Lock, b"alice", "2bd806c97f0e00af1a1fc3328fa763a9269723c8db8fac4f93af71db186d6e90"),
            (Kind::Lock, b"bob", "81b637d8fcd2c6da6359e6963113a1170de795e4b725b84d1e0b4cfd9ec58ce9"),
            (Kind::Lock, b"carol", "4c26d9074c27d89ede59270c0ac14b71e071b15239519f75474b2f3ba63481f5"),
            (Kind::Lock, b"dave", "61ea0803f8853523b777d414ace3130cd4d3f92de2cd7ff8695c337d79c2eeee"),
            (Kind::Lock, b"eve", "85262adf74518bbb70c7cb94cd6159d91669e5a81edf1efebd543eadbda9fa2b"),
            (Kind::Lock, b"frank", "77646f5a4f3166637627abe998e7a1470fe72d8b430f067dafa86263f1f23f94"),
        ],
    ),
    // a faulty line adds none
    (
        b"grant g 100 to alice\ntx p spends g.0 pays 1 to zoe 0 to yan\nbalance bob\n",
        &[
            (Kind::Block, b"G", "6e9d1928ffb57a1621d2e2d1897e2482549c32cc105d8a4a86bd70a24c22de0a"),
            (Kind::Tx, b"g", "63bcdcdedc35ed337d85e6d1798a6547ceabc458596416a7e3dd50b1999353ef"),
            (Kind::Lock, b"alice", "2bd806c97f0e00af1a1fc3328fa763a9269723c8db8fac4f93af71db186d6e90"),
        ],
    ),
    // nor does a line behind it
    (
        b"make B on G\nmake A on B B\nmake C on G\nbalance bob\n",
        &[
            (Kind::Block, b"G", "21fc3f955c14305ed66b2f6064de082e8447f29048da3ab7c5c01090c1b722ab"),
            (Kind::Block, b"B", "ebc352d52d8a2d8f607bc82f6edc468679599eb0e8a8429d88c82e4cffb62854"),
        ],
    ),
    // a transaction that is too much
    (
        b"grant g 100 to alice\ngrant h 100 to alice\nbalance bob\n",
        &[
            (Kind::Block, b"G", "6e9d1928ffb57a1621d2e2d1897e2482549c32cc105d8a4a86bd70a24c22de0a"),
            (Kind::Tx, b"g", "63bcdcdedc35ed337d85e6d1798a6547ceabc458596416a7e3dd50b1999353ef"),
            (Kind::Lock, b"alice", "2bd806c97f0e00af1a1fc3328fa763a9269723c8db8fac4f93af71db186d6e90"),
        ],
    ),
    // no line
    (
        b"",
        &[
            (Kind::Block, b"G", "21fc3f955c14305ed66b2f6064de082e8447f29048da3ab7c5c01090c1b722ab"),
        ],
    ),
    // a word that stands after `with` before it stands elsewhere
    (
        b"grant g 1 to a\ntx p spends g.0 with w pays 1 to x\nbalance v\nbalance w\nbalance a\n",
        &[
            (Kind::Block, b"G", "9759e30827f007d16cd835962d7c26da8b890139f455930397f8d47f88e7a897"),
            (Kind::Tx, b"g", "7f236520704a8c7e84f3d694bd0eb8c6a5329e84ff429d4c1131b8f7d341dc18"),
            (Kind::Tx, b"p", "b2d41a7a5e4d48ce726bd67772f5ce1ede6700daeac0e527cb97565695e8dbf2"),
            (Kind::Lock, b"a", "ca978112ca1bbdcafac231b39a23dc4da786eff8147c4e72b9807785afee48bb"),
            (Kind::Lock, b"x", "2d711642b726b04401627ca9fbac32f5c8530fb1903cc4db02258717921a4881"),
            (Kind::Lock, b"v", "4c94485e0c21ae6c41ce1dfe7b6bfaceea5ab68e40a2476f50208e526f506080"),
            (Kind::Lock, b"w", "50e721e49c013f00c62cf59f2163542a9d8df02464efeb615d31051b0fddc326"),
        ],
    ),
];

/// The number of labels of a kind.
fn count_of(kind: Kind, labels: &[Label]) -> usize {
    labels.iter().filter(|label| label.0 == kind).count()
}

/// Whether a block has this name, at this place of their order.
fn has_block(names: &Names, place: usize, name: &[u8], id: &BlockId) -> bool {
    place < names.block_count()
        && names.block_at(place) == *id
        && names.block_name(id) == Some(name)
}

fn has_tx(names: &Names, place: usize, name: &[u8], id: &TxId) -> bool {
    place < names.tx_count() && names.tx_at(place) == *id && names.tx_name(id) == Some(name)
}

fn has_lock(names: &Names, place: usize, name: &[u8], lock: &Lock) -> bool {
    place < names.lock_count()
        && names.lock_at(place) == *lock
        && names.lock_name(lock) == Some(name)
}

fn has_label(names: &Names, place: usize, label: &Label) -> Result<bool, Fail> {
    let (kind, name, hex) = label;
    let hex = hex.as_bytes();
    match kind {
        Kind::Block => Ok(has_block(names, place, name, &BlockId::from_hex(hex)?)),
        Kind::Tx => Ok(has_tx(names, place, name, &TxId::from_hex(hex)?)),
        Kind::Lock => Ok(has_lock(names, place, name, &Lock::from_hex(hex)?)),
    }
}

/// Whether the labels of a kind are these, in their order.
fn has_kind(names: &Names, kind: Kind, labels: &[Label]) -> Result<bool, Fail> {
    let mut place = 0usize;
    for label in labels {
        if label.0 == kind {
            if !has_label(names, place, label)? {
                return Ok(false);
            }
            place = place.wrapping_add(1);
        }
    }
    Ok(true)
}

fn has_labels(names: &Names, labels: &[Label]) -> Result<bool, Fail> {
    Ok(
        names.block_count() == count_of(Kind::Block, labels)
            && names.tx_count() == count_of(Kind::Tx, labels)
            && names.lock_count() == count_of(Kind::Lock, labels)
            && has_kind(names, Kind::Block, labels)?
            && has_kind(names, Kind::Tx, labels)?
            && has_kind(names, Kind::Lock, labels)?,
    )
}

fn judge(rt: &impl Abort, alloc: Global, number: usize, row: &Row) -> Result<(), Fail> {
    let scene = read(alloc, row.0)?;
    holds(rt, number, has_labels(scene.names(), row.1)?);
    Ok(())
}

#[test]
fn labels(rt: HostRuntime) -> Result<(), Fail> {
    for (number, row) in ROWS.iter().enumerate() {
        judge(&rt, rt.alloc(), number, row)?;
    }
    Ok(())
}

/// The longest name.
const LONG: [u8; 64] = [b'x'; 64];

/// A block, a transaction and a lock of the same 32 bytes, each with two names.
fn named(alloc: Global) -> Result<Names, Fail> {
    let mut names = Names::new(alloc);
    names.add_block(BlockId::from_bytes([2; 32]), Name::of(b"b"))?;
    names.add_block(BlockId::from_bytes([1; 32]), Name::of(&LONG))?;
    names.add_block(BlockId::from_bytes([2; 32]), Name::of(b"second"))?;
    names.add_tx(TxId::from_bytes([2; 32]), Name::of(b"t"))?;
    names.add_tx(TxId::from_bytes([2; 32]), Name::of(b"second"))?;
    names.add_lock(Lock::from_bytes([2; 32]), Name::of(b"l"))?;
    names.add_lock(Lock::from_bytes([2; 32]), Name::of(b"second"))?;
    Ok(names)
}

/// The first name of each stands, in the order of naming, and what has none has none.
#[test]
fn names(rt: HostRuntime) -> Result<(), Fail> {
    let names = named(rt.alloc())?;
    let stands = has_block(&names, 0, b"b", &BlockId::from_bytes([2; 32]))
        && has_block(&names, 1, &LONG, &BlockId::from_bytes([1; 32]))
        && has_tx(&names, 0, b"t", &TxId::from_bytes([2; 32]))
        && has_lock(&names, 0, b"l", &Lock::from_bytes([2; 32]));
    holds(&rt, 0, stands);
    let counted = names.block_count() == 2 && names.tx_count() == 1 && names.lock_count() == 1;
    holds(&rt, 1, counted);
    let unnamed = names.block_name(&BlockId::from_bytes([3; 32])).is_none()
        && names.tx_name(&TxId::from_bytes([1; 32])).is_none()
        && names.lock_name(&Lock::from_bytes([1; 32])).is_none();
    holds(&rt, 2, unnamed);
    holds(&rt, 3, Name::of(b"a").as_slice() == b"a".as_slice());
    Ok(())
}
