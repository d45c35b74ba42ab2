//! Where an output stands that an outpoint names.

ghost use Rattle.std.specs.Prelude.{◌≡◌, IfNone, IfSome, false};
ghost use Rattle.std.specs.List.{list_any};
ghost use Rattle.sp_money.specs.Held.{coins_of, starts_of};
ghost use Rattle.sp_money.specs.Places.{is_name, StandsAt};

use crate::store::Store;
use sp_carry::Carriers;
use sp_ids::Outpoint;

impl Store {
    // The place of the output that an outpoint names, by one look-up of its transaction.
    pub(crate) fn place_of(&self, carriers: &Carriers, from: &Outpoint) -> Option<usize>
        requires { self.now.starts.items ≡ starts_of carriers.now.txs }
        ensures found { IfSome result (StandsAt (coins_of carriers.now.txs) from.now) }
        ensures none { IfNone result (list_any (is_name from.now) (coins_of carriers.now.txs) ≡ false) }
    {
        // This call's contract says that ids are different.
        let _blocks = carriers.block_count();
        match carriers.tx_of(&from.tx) {
            Some(tx) => {
                let index = from.index as usize;
                if index < carriers.tx(tx).outputs.as_slice().len() {
                    Some(self.starts[tx as usize] as usize + index)
                } else {
                    None
                }
            }
            None => None,
        }
    }
}
