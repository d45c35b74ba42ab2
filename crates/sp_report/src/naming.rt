//! What stands in a line for a block, a transaction or a lock.

ghost use Rattle.std.specs.Prelude.{◌≡◌};
ghost use Rattle.hex.specs.Hex.{encode_lower};
ghost use Rattle.sp_report.specs.Naming.{label_of, labels_of};

use hex::encode_to_slice;
use sp_ids::{BlockId, Lock, TxId};
use sp_names::{Name, Names};

/// How the lines name blocks, transactions and locks.
#[derive(Clone, Copy)]
pub enum Naming<'a> {
    /// By the id or the bytes of the lock, in 64 lower case hexadecimal digits; lists ascend by
    /// these.
    Hex,
    /// By the name, and lists go by the order of naming. What has no name is named as by `Hex`, and
    /// stands after the others in the order of `Hex`.
    Names(&'a Names),
}

// The digits of the bytes of an id or a lock.
fn hex_label(bytes: &[u8; 32]) -> Name
    ensures { result ≡ encode_lower bytes.now }
{
    let mut digits = [0; 64];
    let _ = encode_to_slice(bytes.as_slice(), &mut digits);
    Name::of(&digits)
}

/// What stands in a line for the block of this id: its name, or else 64 digits. The time is that of a
/// look-up in an ordered map, and it takes no memory.
#[tactic(auto, unfolding(crate::specs::Naming::hex_label))]
pub fn block_label(naming: &Naming<'_>, id: &BlockId) -> Name
    ensures { result ≡ label_of (labels_of naming.now).blocks id.now }
{
    match naming {
        Naming::Hex => hex_label(id.as_bytes()),
        Naming::Names(names) => match names.block_name(id) {
            Some(name) => Name::of(name),
            None => hex_label(id.as_bytes()),
        },
    }
}

/// What stands in a line for the transaction of this id, as `block_label` gives it.
#[tactic(auto, unfolding(crate::specs::Naming::hex_label))]
pub fn tx_label(naming: &Naming<'_>, id: &TxId) -> Name
    ensures { result ≡ label_of (labels_of naming.now).txs id.now }
{
    match naming {
        Naming::Hex => hex_label(id.as_bytes()),
        Naming::Names(names) => match names.tx_name(id) {
            Some(name) => Name::of(name),
            None => hex_label(id.as_bytes()),
        },
    }
}

/// What stands in a line for a lock, as `block_label` gives it; its digits are those of its bytes.
#[tactic(auto, unfolding(crate::specs::Naming::hex_label))]
pub fn lock_label(naming: &Naming<'_>, lock: &Lock) -> Name
    ensures { result ≡ label_of (labels_of naming.now).locks lock.now }
{
    match naming {
        Naming::Hex => hex_label(lock.as_bytes()),
        Naming::Names(names) => match names.lock_name(lock) {
            Some(name) => Name::of(name),
            None => hex_label(lock.as_bytes()),
        },
    }
}
