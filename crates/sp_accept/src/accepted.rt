//! Which carriers and transactions are accepted: what the crates above keep and ask.

ghost use Rattle.std.specs.Prelude.{◌≡◌, ◌<◌, length, All, IfOk, OnOk, OnErr, []};
ghost use Rattle.sp_carry.specs.Flags.{is_set};
ghost use Rattle.sp_accept.specs.Rows.{AreOf};
ghost use Rattle.sp_accept.specs.Acceptance.{IsRight};
ghost use Rattle.sp_accept.specs.Changes.{carriers_below, TellsChanges};
ghost use Rattle.sp_accept.specs.Flips.{flips_of};

use crate::flips::flips_between;
use crate::order::Order;
use crate::pass::{carrier_flags, tx_flags};
use crate::touched::set_flips;
use crate::update::decide_on_changes;
use sp_carry::{Carriers, Flip, is_set};
use sp_ids::Memory;
use std::alloc::Global;
use std::marker::Model;

/// The accepted carriers and transactions of the first blocks of a graph, by number. Contracts see
/// how many blocks these are, and a flag for each carrier and each transaction.
pub struct Accepted {
    alloc: Global,
    carriers: Vec<bool>,
    txs: Vec<bool>,
    blocks: u16,
}

// Written out, so that where flags are let go there is one call.
impl Drop for Accepted {
    fn drop(self) {
        let Accepted {
            alloc: _,
            carriers: _,
            txs: _,
            blocks: _,
        } = self;
    }
}

impl Model for Accepted {
    ghost use Rattle.sp_accept.specs.Acceptance.{Acceptance};

    ghost Value = { Acceptance };

    ghost view = { λ a. record { blocks = a.blocks; carriers = a.carriers.items; txs = a.txs.items } };
}

impl Accepted {
    /// Of no block.
    pub fn new(alloc: Global) -> Accepted
        ensures { result ≡ record { blocks = 0; carriers = []; txs = [] } }
    {
        Accepted {
            alloc,
            carriers: Vec::new(alloc),
            txs: Vec::new(alloc),
            blocks: 0,
        }
    }

    /// Decides on all carriers anew, with all added blocks as the set, and answers the transactions
    /// whose acceptance differs from before, ascending, each with its new state. The order has to
    /// speak of the graph whose blocks were added.
    ///
    /// It goes over the carriers once, in their order. For each it looks at the transactions that it
    /// spends and looks up the other spenders of what it spends, with their carriers, and stops at the
    /// first that decides; it makes no list of them. It takes memory for one flag of each carrier, one of
    /// each transaction, and the answer.
    ///
    /// # Errors
    ///
    /// Memory was refused; all is as before.
    pub fn rebuild<O: Order>(&mut self, order: &O, carriers: &Carriers) -> Result<Vec<Flip>, Memory>
        requires { AreOf (O.table order.now) carriers.now }
        ensures right { OnOk result (IsRight (O.table order.now) carriers.now self.new) }
        ensures blocks { OnOk result (self.new.blocks ≡ carriers.now.blocks) }
        ensures flips { IfOk result (λ flips. flips.items
            ≡ flips_of self.old.txs self.new.txs (length carriers.now.txs)) }
        ensures known { IfOk result (λ flips.
            All (λ flip. flip.tx < length carriers.now.txs) flips.items) }
        ensures err { OnErr result (self.new ≡ self.old) }
    {
        let flags = carrier_flags(self.alloc, order, carriers)?;
        let txs = tx_flags(self.alloc, carriers, &flags)?;
        let flips = flips_between(self.alloc, &self.txs, &txs, carriers.tx_count())?;
        self.carriers = flags;
        self.txs = txs;
        self.blocks = carriers.block_count();
        Ok(flips)
    }

    /// Decides on the carriers that blocks may change which joined the set since the last decision,
    /// with all added blocks as the set, and answers the transactions whose acceptance differs from
    /// before, ascending, each with its new state. The order has to speak of the graph whose blocks
    /// were added.
    ///
    /// `from` is the number of carriers that were decided on: those of the first blocks, as many as
    /// the value is of. `changed` has the pairs of these blocks on which the virtual vote turned, the
    /// lower number first; it may have more pairs, which cost time alone.
    ///
    /// It looks again at the carriers of whole blocks, block by block and ascending, at each once: of the
    /// new blocks with a sound carrier, of the older blocks that don't come before a new one with a sound
    /// carrier that has rivals, of both blocks of each pair, and of each block above one in which a carrier
    /// turned. Each carrier takes two tests of rows, and a look at the carriers of each transaction that it
    /// spends, which is known by its number, or looked up where this one's came first. Where some of its
    /// rivals stand in the past of its block, it takes a look-up of each outpoint that it spends, too, and
    /// a test of a row for each other spender of it: such a row is filled from the carriers of its
    /// transaction when it is first asked for, and when one of these turned. The order is asked of each
    /// older block beside each such new one, for each block that is decided on again of the blocks in which
    /// its carriers have rivals, and of each block above one in which a carrier turned. Where the rivals in
    /// one of the lowest blocks stand in the way of a block's first carrier, all that have rivals there need
    /// no more than that, and the order is asked for the others alone. Memory is taken for
    /// the flags, for a mark of each transaction from the lowest of which a carrier turned to the highest,
    /// for the rows that were asked for, for what turned, and for the answer.
    ///
    /// # Errors
    ///
    /// Memory was refused; all is as before.
    pub fn update<O: Order>(
        &mut self,
        order: &O,
        carriers: &Carriers,
        changed: &[(u16, u16)],
        from: u32,
    ) -> Result<Vec<Flip>, Memory>
        requires of { AreOf (O.table order.now) carriers.now }
        requires right { IsRight (O.table order.now) carriers.now self.old }
        requires first { from ≡ carriers_below carriers.now.rows self.old.blocks }
        requires told { TellsChanges (O.table order.now) self.old.blocks changed.now }
        ensures right { OnOk result (IsRight (O.table order.now) carriers.now self.new) }
        ensures blocks { OnOk result (self.new.blocks ≡ carriers.now.blocks) }
        ensures flips { IfOk result (λ flips. flips.items
            ≡ flips_of self.old.txs self.new.txs (length carriers.now.txs)) }
        ensures known { IfOk result (λ flips.
            All (λ flip. flip.tx < length carriers.now.txs) flips.items) }
        ensures err { OnErr result (self.new ≡ self.old) }
    {
        let flips = decide_on_changes(
            self.alloc,
            order,
            carriers,
            changed,
            self.blocks,
            from,
            &mut self.carriers,
            &mut self.txs,
        )?;
        set_flips(&mut self.txs, carriers.tx_count() as usize, &flips);
        self.blocks = carriers.block_count();
        Ok(flips)
    }

    /// Whether the transaction is accepted, at once. One that isn't known is not.
    pub fn is_accepted(&self, tx: u32) -> bool
        ensures { result ≡ is_set self.now.txs tx }
    {
        is_set(&self.txs, tx)
    }

    /// Whether the carrier is accepted, at once. One that isn't known is not.
    pub fn carrier_accepted(&self, c: u32) -> bool
        ensures { result ≡ is_set self.now.carriers c }
    {
        is_set(&self.carriers, c)
    }
}
