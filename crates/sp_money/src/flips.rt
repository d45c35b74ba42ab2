//! What changes where a transaction becomes accepted, or stops being so.

ghost use Rattle.std.specs.Prelude.{◌≡◌, ◌+◌, ◌<◌, ◌≤◌, All, length, slice_index_or, slice_set, not, ◌∷◌, []};
ghost use Rattle.sp_carry.specs.Flags.{with_flips};
ghost use Rattle.sp_carry.specs.Lookups.{AreApart};
ghost use Rattle.sp_carry.specs.declared.carrier.Flip.{Flip};
ghost use Rattle.sp_money.specs.Held.{coins_of, starts_of, IsOf};
ghost use Rattle.sp_money.specs.Places.{counted, marked, CanCount};
ghost use Rattle.sp_money.specs.Kept.{held_of, IsKept};

use crate::store::Store;
use sp_carry::{Carriers, Flip};
use sp_tx::Input;

impl Store {
    // So many outputs from a place on become live, or stop being so.
    fn set_live(&mut self, start: u32, count: usize, now: bool)
        requires kept { IsKept self.old }
        requires within { start + count ≤ length self.old.slots.items }
        ensures kept { IsKept self.new }
        ensures held { held_of self.new
            ≡ record (held_of self.old) { live = marked (held_of self.old).live start count now } }
    {
        let first = start as usize;
        'outputs: for index in 0..count {
            self.set_live_at(first + index, now);
        }
    }

    // The output that the input names has one spender more, or one less.
    fn count_input(&mut self, carriers: &Carriers, input: &Input, now: bool)
        requires kept { IsKept self.old }
        requires starts { self.old.starts.items ≡ starts_of carriers.now.txs }
        requires coins { (held_of self.old).coins ≡ coins_of carriers.now.txs }
        requires room { CanCount now (input.now ∷ []) (held_of self.old).coins (held_of self.old).spenders }
        ensures kept { IsKept self.new }
        ensures held { held_of self.new ≡ record (held_of self.old) {
          spenders =
              counted now (input.now ∷ []) (held_of self.old).coins (held_of self.old).spenders;
        } }
    {
        if let Some(place) = self.place_of(carriers, &input.from) {
            self.count_at(place, now);
        }
    }

    // Each output that an input names has one spender more, or one less.
    fn count_inputs(&mut self, carriers: &Carriers, inputs: &[Input], now: bool)
        requires kept { IsKept self.old }
        requires starts { self.old.starts.items ≡ starts_of carriers.now.txs }
        requires coins { (held_of self.old).coins ≡ coins_of carriers.now.txs }
        requires apart { AreApart inputs.now }
        requires room { CanCount now inputs.now (held_of self.old).coins (held_of self.old).spenders }
        ensures kept { IsKept self.new }
        ensures held { held_of self.new ≡ record (held_of self.old) {
          spenders =
              counted now inputs.now (held_of self.old).coins (held_of self.old).spenders;
        } }
    {
        'inputs: for input in inputs {
            self.count_input(carriers, input, now);
        }
    }

    // A transaction becomes accepted, or stops being so.
    fn turn(&mut self, carriers: &Carriers, tx: u32, now: bool)
        requires kept { IsKept self.old }
        requires within { tx < length carriers.now.txs }
        requires of { IsOf carriers.now.txs (held_of self.old) }
        requires other { slice_index_or self.old.accepted.items tx now ≡ not now }
        ensures kept { IsKept self.new }
        ensures of { IsOf carriers.now.txs (held_of self.new) }
        ensures accepted { self.new.accepted.items ≡ slice_set self.old.accepted.items tx now }
    {
        let payment = carriers.tx(tx);
        let start = self.starts[tx as usize];
        self.set_live(start, payment.outputs.as_slice().len(), now);
        self.count_inputs(carriers, payment.inputs.as_slice(), now);
        self.accepted[tx as usize] = now;
    }

    // A transaction is accepted from now on, or isn't.
    fn flip(&mut self, carriers: &Carriers, tx: u32, now: bool)
        requires kept { IsKept self.old }
        requires within { tx < length carriers.now.txs }
        requires of { IsOf carriers.now.txs (held_of self.old) }
        ensures kept { IsKept self.new }
        ensures of { IsOf carriers.now.txs (held_of self.new) }
        ensures accepted { self.new.accepted.items ≡ slice_set self.old.accepted.items tx now }
    {
        if self.accepted[tx as usize] != now {
            self.turn(carriers, tx, now);
        }
    }

    // One flip after another.
    pub(crate) fn flip_all(&mut self, carriers: &Carriers, flips: &[Flip])
        requires kept { IsKept self.old }
        requires within { All (λ (f : Flip). f.tx < length carriers.now.txs) flips.now }
        requires of { IsOf carriers.now.txs (held_of self.old) }
        ensures kept { IsKept self.new }
        ensures of { IsOf carriers.now.txs (held_of self.new) }
        ensures accepted { self.new.accepted.items ≡ with_flips self.old.accepted.items flips.now }
    {
        'flips: for flip in flips {
            self.flip(carriers, flip.tx, flip.now);
        }
    }
}
