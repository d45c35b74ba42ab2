//! Look-ups in the carriers, with what always holds of what they find.

ghost use Rattle.std.specs.Prelude.{◌≡◌, ◌<◌, ◌≤◌, ℕ, length, All};
ghost use Rattle.sp_carry.specs.Carried.{carriers_in};
ghost use Rattle.sp_carry.specs.Lookups.{spenders_in};
ghost use Rattle.sp_carry.specs.Sources.{sources_in};
ghost use Rattle.sp_accept.specs.Rows.{row_at};

use sp_carry::{Carrier, Carriers};
use sp_ids::Outpoint;

/// A carrier.
pub(crate) fn carrier_at(carriers: &Carriers, c: u32) -> Carrier
    requires { c < length carriers.now.rows }
    ensures value { result ≡ row_at carriers.now.rows c }
    ensures block { result.block < carriers.now.blocks }
    ensures tx { result.tx < length carriers.now.txs }
{
    // Tells the proof what always holds of carriers.
    let _blocks = carriers.block_count();
    carriers.carrier(c)
}

/// The number of the first carrier whose block isn't below this one, by halves.
pub(crate) fn first_from(carriers: &Carriers, block: u16) -> u32
    ensures within { result ≤ length carriers.now.rows }
    ensures below { (c : ℕ) → c < result → (row_at carriers.now.rows c).block < block }
    ensures from { (c : ℕ) → result ≤ c → c < length carriers.now.rows →
        block ≤ (row_at carriers.now.rows c).block }
{
    // Tells the proof that carriers ascend by block.
    let _blocks = carriers.block_count();
    let mut low = 0;
    let mut high = carriers.carrier_count();
    'halves: while low < high {
        let middle = low + (high - low) / 2;
        if carrier_at(carriers, middle).block < block {
            low = middle + 1;
        } else {
            high = middle;
        }
    }
    low
}

/// The carriers of a transaction.
pub(crate) fn carriers_of(carriers: &Carriers, tx: u32) -> &[u32]
    requires { tx < length carriers.now.txs }
    ensures value { result.now ≡ carriers_in carriers.now.rows tx }
    ensures within { All (λ c. c < length carriers.now.rows) result.now }
{
    carriers.carriers_of(tx)
}

/// The transactions that spend an outpoint.
pub(crate) fn spenders_of<'a>(carriers: &'a Carriers, from: &Outpoint) -> &'a [u32]
    ensures value { result.now ≡ spenders_in carriers.now.txs from.now }
    ensures within { All (λ tx. tx < length carriers.now.txs) result.now }
{
    carriers.spenders_of(from)
}

/// The numbers of the transactions that this one spends.
pub(crate) fn sources_of(carriers: &Carriers, tx: u32) -> &[u32]
    requires { tx < length carriers.now.txs }
    ensures value { result.now ≡ sources_in carriers.now.txs tx }
    ensures within { All (λ source. source < length carriers.now.txs) result.now }
{
    carriers.sources_of(tx)
}
