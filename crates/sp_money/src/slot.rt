//! One output as a purse keeps it.

ghost use Rattle.std.specs.Prelude.{◌≡◌};
ghost use Rattle.sp_money.specs.Totals.{is_left, left};

use sp_ids::Outpoint;

/// An output: its name, whether its transaction is accepted, its lock's number, its amount, and how
/// many accepted transactions spend it.
#[derive(Clone, Copy)]
pub(crate) struct Slot {
    pub(crate) name: Outpoint,
    pub(crate) live: bool,
    pub(crate) lock: u32,
    pub(crate) amount: u64,
    pub(crate) spenders: u32,
}

impl Slot {
    // Whether it is unspent.
    pub(crate) fn is_left(&self) -> bool
        ensures { result ≡ is_left self.now }
    {
        self.live && self.spenders == 0
    }

    // What it adds to its lock.
    pub(crate) fn left(&self) -> u64
        ensures { result ≡ left self.now }
    {
        if self.is_left() { self.amount } else { 0 }
    }
}
