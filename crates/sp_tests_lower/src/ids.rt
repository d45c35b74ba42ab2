//! Digests and texts from outside, and ids written down by hand.

use sp_ids::{BlockId, HexFault, Ids, Lock, Outpoint, TxId};
use std::cmp::Ordering;
use std::hash::{DefaultHasher, Hash, Hasher};
use std::test::Fail;

/// A text, and the digits of its SHA-256.
struct Digest {
    text: &'static [u8],
    lower: &'static [u8; 64],
    upper: &'static [u8; 64],
}

const DIGESTS: &[Digest] = &[
    Digest {
        text: b"abc",
        lower: b"ba7816bf8f01cfea414140de5dae2223b00361a396177a9cb410ff61f20015ad",
        upper: b"BA7816BF8F01CFEA414140DE5DAE2223B00361A396177A9CB410FF61F20015AD",
    },
    Digest {
        text: b"",
        lower: b"e3b0c44298fc1c149afbf4c8996fb92427ae41e4649b934ca495991b7852b855",
        upper: b"E3B0C44298FC1C149AFBF4C8996FB92427AE41E4649B934CA495991B7852B855",
    },
];

/// The three kinds of id of one text or of the same bytes.
type Three = (BlockId, TxId, Lock);

fn three_of(text: &[u8]) -> Three {
    (BlockId::of(text), TxId::of(text), Lock::of(text))
}

fn three_with(bytes: [u8; 32]) -> Three {
    (
        BlockId::from_bytes(bytes),
        TxId::from_bytes(bytes),
        Lock::from_bytes(bytes),
    )
}

fn digits_of(ids: &Three) -> [[u8; 64]; 3] {
    let mut digits = [[0; 64]; 3];
    ids.0.to_hex(&mut digits[0]);
    ids.1.to_hex(&mut digits[1]);
    ids.2.to_hex(&mut digits[2]);
    digits
}

fn bytes_of(ids: &Three) -> [[u8; 32]; 3] {
    [*ids.0.as_bytes(), *ids.1.as_bytes(), *ids.2.as_bytes()]
}

fn read(digits: &[u8]) -> Result<Three, HexFault> {
    Ok((
        BlockId::from_hex(digits)?,
        TxId::from_hex(digits)?,
        Lock::from_hex(digits)?,
    ))
}

/// Whether its ids are written with these digits, and read from either case.
fn is_spelled(row: &Digest) -> bool {
    let (lower, upper) = (row.lower, row.upper);
    let ids = three_of(row.text);
    let again = three_with(*ids.0.as_bytes());
    digits_of(&ids) == [*lower; 3]
        && bytes_of(&ids) == [*ids.0.as_bytes(); 3]
        && read(lower) == Ok(ids)
        && read(upper) == Ok(again)
}

#[test]
fn digests(rt: HostRuntime) {
    assert_eq!(rt; DIGESTS.iter().position(|row| !is_spelled(row)), None);
}

/// A text that spells no id, and why.
#[rattlefmt::skip]
const FAULTS: &[(&'static [u8], HexFault)] = &[
    (b"ba7816bf8f01cfea414140de5dae2223b00361a396177a9cb410ff61f20015a", HexFault::OddLength),
    (b"ba7816bf8f01cfea414140de5dae2223b00361a396177a9cb410ff61f20015", HexFault::WrongLength),
    (b"ba78g6bf8f01cfea414140de5dae2223b00361a396177a9cb410ff61f20015a-", HexFault::BadDigit { at: 4 }),
    (b"ba7816bf8f01cfea414140de5dae2223b00361a396177a9cb410ff61f20015a-", HexFault::BadDigit { at: 63 }),
];

fn has_fault(text: &[u8], fault: HexFault) -> bool {
    let faults = [
        BlockId::from_hex(text).err(),
        TxId::from_hex(text).err(),
        Lock::from_hex(text).err(),
    ];
    faults == [Some(fault); 3]
}

#[test]
fn faults(rt: HostRuntime) {
    assert_eq!(rt;
        FAULTS.iter().position(|row| !has_fault(row.0, row.1)),
        None
    );
}

/// 32 bytes that are 0 but for one.
fn bytes(place: usize, byte: u8) -> [u8; 32] {
    let mut bytes = [0; 32];
    bytes[place % 32] = byte;
    bytes
}

/// The place of a byte, the byte, and how many zeros stand before its first bit that is set.
const ZEROS: &[(usize, u8, u8)] = &[(0, 0x80, 0), (0, 0x01, 7), (7, 0x1f, 59), (8, 0xff, 64)];

/// Whether an id meets so many bits, and no more.
fn meets_just(id: BlockId, zeros: u8) -> bool {
    for bits in 0..65u8 {
        if id.meets(bits) != (bits <= zeros) {
            return false;
        }
    }
    true
}

/// Whether an id with this byte at a place begins with so many zeros.
fn has_zeros(place: usize, byte: u8, zeros: u8) -> bool {
    meets_just(BlockId::from_bytes(bytes(place, byte)), zeros)
}

#[test]
fn zeros(rt: HostRuntime) {
    let wrong = ZEROS.iter().position(|row| !has_zeros(row.0, row.1, row.2));
    assert_eq!(rt; wrong, None);
}

/// How a value stands to another, by all that compares them, where these agree.
fn compared<T: Ord>(one: &T, other: &T) -> Option<Ordering> {
    let order = one.cmp(other);
    let agrees = (one < other) == (order == Ordering::Less)
        && (one == other) == (order == Ordering::Equal)
        && one.partial_cmp(other) == Some(order);
    if agrees { Some(order) } else { None }
}

fn hash_of<T: Hash>(value: &T) -> u64 {
    let mut state = DefaultHasher::new();
    value.hash(&mut state);
    state.finish()
}

/// How each kind of id with the one bytes stands to that with the others.
fn compared_by_kind(one: &Three, other: &Three) -> [Option<Ordering>; 3] {
    [
        compared(&one.0, &other.0),
        compared(&one.1, &other.1),
        compared(&one.2, &other.2),
    ]
}

/// The first byte that differs tells the order.
#[test]
fn order(rt: HostRuntime) {
    let low = three_with(bytes(31, 0xff));
    let high = three_with(bytes(0, 1));
    assert!(rt; compared_by_kind(&low, &high) == [Some(Ordering::Less); 3]);
    assert!(rt; compared_by_kind(&low, &low) == [Some(Ordering::Equal); 3]);
}

fn hashes_of(ids: &Three) -> [u64; 3] {
    [hash_of(&ids.0), hash_of(&ids.1), hash_of(&ids.2)]
}

/// Each kind of id is hashed as its bytes are.
#[test]
fn hashes(rt: HostRuntime) {
    let low = bytes(31, 0xff);
    assert!(rt; hashes_of(&three_with(low)) == [hash_of(&low); 3]);
    let high = hashes_of(&three_with(bytes(0, 1)));
    assert!(rt; high != hashes_of(&three_with(low)));
}

/// The first byte of a transaction's id, and an index.
type Place = (u8, u8);

/// Two outpoints, and how the first stands to the second: the transaction tells, and then the index.
const OUTPOINTS: &[(Place, Place, Ordering)] = &[
    ((0, 9), (1, 0), Ordering::Less),
    ((0, 8), (0, 9), Ordering::Less),
    ((1, 0), (0, 9), Ordering::Greater),
    ((1, 9), (1, 8), Ordering::Greater),
    ((1, 9), (0, 9), Ordering::Greater),
    ((1, 9), (1, 9), Ordering::Equal),
];

fn outpoint(place: Place) -> Outpoint {
    Outpoint {
        tx: TxId::from_bytes(bytes(0, place.0)),
        index: place.1,
    }
}

/// How an outpoint stands to another, and whether they have the same hash.
fn outpoints_compared(one: Place, other: Place) -> (Option<Ordering>, bool) {
    let (one, other) = (outpoint(one), outpoint(other));
    (compared(&one, &other), hash_of(&one) == hash_of(&other))
}

/// Outpoints have the same hash where they are the same.
#[test]
fn outpoints(rt: HostRuntime) {
    let wrong = OUTPOINTS.iter().position(|row| {
        let order = row.2;
        outpoints_compared(row.0, row.1) != (Some(order), order == Ordering::Equal)
    });
    assert_eq!(rt; wrong, None);
}

/// Ids stand in the order in which they were given.
#[test]
fn lists(rt: HostRuntime) -> Result<(), Fail> {
    let ids = [three_with(bytes(0, 1)).0, three_with(bytes(31, 0xff)).0];
    let list = Ids::of(Vec::from_slice(rt.alloc(), &ids)?);
    assert!(rt; list.as_slice() == ids.as_slice());
    Ok(())
}
