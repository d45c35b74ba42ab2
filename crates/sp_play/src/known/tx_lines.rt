//! The line `tx`, and the names of transactions.

ghost use Rattle.std.specs.Prelude.{◌≡◌, ◌<◌, ◌≤◌, ◌||◌, All, Err, IsNone, length, nat_lt, OnOk, false, None, true, ◌==◌, if◌then◌else◌};
ghost use Rattle.sp_play.specs.Making as line;
ghost use Rattle.sp_play.specs.Making.{at_stage_body, is_full, with_thing};
ghost use Rattle.sp_play.specs.Known.{Entry, is_of_id, place_of};
ghost use Rattle.std.specs.List.{list_any};
ghost use Rattle.sp_tx.specs.Spelling.{IsTx};
ghost use Rattle.sp_tx.specs.Spending.{id_of};
ghost use Rattle.sp_play.specs.Judging.{tx_of};
ghost use Rattle.sp_play.specs.Room.{HasRoom};
ghost use Rattle.sp_play.specs.Spent.{AreAmounts, AreApart, AreInputs, IsJudged};
ghost use Rattle.sp_play.specs.Words.{is_name};
ghost use Rattle.sp_play.specs.declared.paid.Paid as paying;
ghost use Rattle.sp_play.specs.declared.thing.Thing.TheVariants as kinds;
ghost use Rattle.sp_play.specs.Told.{Steps};

use crate::forms::tx_form;
use crate::judging::paid_all;
use crate::known::Known;
use crate::limits::{MOST_NAMES, MOST_PARTS};
use crate::lookups::new_name;
use crate::paid::Paid;
use crate::spends::inputs_all;
use crate::stage::Stage;
use crate::thing::{NamedTx, Thing};
use crate::txs::{is_too_much, named_tx, words_of};
use crate::why::{LineError, Why};
use crate::words::Words;
use sp_ids::{BlockId, Memory, TxId};
use sp_tx::{Inputs, Tx};

// What is known of the id of the genesis block behind a transaction: a grant changes the block.
fn id_behind(id: Option<BlockId>, tx: &Tx) -> Option<BlockId>
    ensures { result ≡ (if length tx.now.inputs == 0 then None else id) }
{
    if tx.inputs.as_slice().is_empty() {
        None
    } else {
        id
    }
}

impl Known {
    // Whether a transaction of this id was made. The time is that of a look-up in an ordered set.
    fn is_twin(&self, id: &TxId) -> bool
        ensures { result ≡ list_any (λ (entry : Entry). is_of_id id.now entry.1) self.now.entries }
    {
        self.txs.contains(id)
    }

    /// Adds a transaction to the names.
    fn push_tx(&mut self, word: &[u8], named: NamedTx) -> Result<(), Memory>
        requires named { is_name word.now ≡ true }
        requires some { 1 ≤ length word.now }
        requires short { length word.now ≤ 64 }
        requires fresh { IsNone (place_of self.old.entries word.now) }
        requires room { length self.old.entries < 4096 }
        requires valid { IsTx named.tx }
        requires new { list_any (λ (entry : Entry). is_of_id (id_of named.tx) entry.1)
            self.old.entries ≡ false }
        requires grant { length named.tx.inputs ≡ 0 → HasRoom self.old.entries named.tx }
        ensures { OnOk result (self.new ≡ with_thing self.old word.now (kinds.Tx named)) }
    {
        let id = named.id();
        let genesis = id_behind(self.genesis, named.tx());
        self.txs.insert(id)?;
        match self.entries.push(word, Thing::Tx(named)) {
            Ok(()) => {
                self.genesis = genesis;
                Ok(())
            }
            Err(Memory) => {
                self.txs.remove(&id);
                Err(Memory)
            }
        }
    }

    /// Adds a transaction of judged parts, unless the amounts come to too much or an earlier one
    /// has its id.
    #[tactic(auto, unfolding(crate::specs::Making::with_tx))]
    pub(crate) fn add_tx(
        &mut self,
        stage: Stage,
        word: &[u8],
        inputs: Inputs,
        paid: &[Paid],
    ) -> Result<(), LineError>
        requires named { is_name word.now ≡ true }
        requires some { 1 ≤ length word.now }
        requires short { length word.now ≤ 64 }
        requires fresh { IsNone (place_of self.old.entries word.now) }
        requires room { length self.old.entries < 4096 }
        requires inputs { AreInputs inputs }
        requires paid { AreAmounts paid.now }
        requires room_for_grant { length inputs ≡ 0 → HasRoom self.old.entries (tx_of inputs paid.now) }
        ensures { Steps self.old self.new result
            (line.with_tx (record self.old { stage = stage }) word.now inputs paid.now) }
    {
        if is_too_much(paid) {
            return Err(LineError::Fault(Why::Number));
        }
        let named = named_tx(self.alloc, inputs, paid)?;
        if self.is_twin(&named.id()) {
            return Err(LineError::Fault(Why::Twin));
        }
        let mut words = words_of(self.alloc, paid)?;
        self.push_tx(word, named)?;
        self.words.append(&mut words)?;
        self.stage = stage;
        Ok(())
    }

    /// Adds a transaction of judged parts that spends, unless there would be more of something than
    /// there may be.
    fn add_spending(&mut self, word: &[u8], inputs: Inputs, paid: &[Paid]) -> Result<(), LineError>
        requires named { is_name word.now ≡ true }
        requires some { 1 ≤ length word.now }
        requires short { length word.now ≤ 64 }
        requires fresh { IsNone (place_of self.old.entries word.now) }
        requires spends { 1 ≤ length inputs }
        requires apart { AreApart inputs }
        requires judged { All IsJudged inputs }
        requires pays { 1 ≤ length paid.now }
        requires amounts { All (λ (one : paying.Paid). 1 ≤ one.amount) paid.now }
        ensures { Steps self.old self.new result
            (if nat_lt 16 (length inputs) || nat_lt 16 (length paid.now) || is_full self.old
            then Err Why.Many else line.with_tx (at_stage_body self.old) word.now inputs paid.now) }
    {
        if MOST_PARTS < inputs.as_slice().len()
            || MOST_PARTS < paid.len()
            || MOST_NAMES <= self.entries.len()
        {
            return Err(LineError::Fault(Why::Many));
        }
        self.add_tx(Stage::Body, word, inputs, paid)
    }

    /// A line `tx NAME spends SPEND .. pays PAY ..`.
    #[tactic(auto, unfolding(crate::specs::Making::tx_line))]
    pub(crate) fn tx_line(&mut self, words: &Words) -> Result<(), LineError>
        ensures { Steps self.old self.new result (line.tx_line self.old words.now) }
    {
        let form = tx_form(self.alloc, words)?;
        let name = words.at(1);
        new_name(&self.entries, name)?;
        let inputs = inputs_all(self.alloc, &self.entries, form.spends.as_slice())?;
        let paid = paid_all(self.alloc, form.pays.as_slice())?;
        self.add_spending(name, inputs, paid.as_slice())
    }
}
