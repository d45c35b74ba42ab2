//! Reading a block field by field.

ghost use Rattle.std.specs.Prelude.{◌≡◌, ◌↔◌, ◌++◌, ◌∷◌, [], Err, IfErr, IfOk, IsTrue, List, length, map};
ghost use Rattle.sp_form.specs.Bytes.{IsBytes};
ghost use Rattle.sp_form.specs.Form.{map_fault};
ghost use Rattle.sp_form.specs.Reading.{Gives, IsCause, read};
ghost use Rattle.sp_form.specs.Values.{bytes_form};
ghost use Rattle.sp_tx.specs.Format.{tx_form};
ghost use Rattle.sp_tx.specs.Parts.{Transaction};
ghost use Rattle.sp_tx.specs.Spelling.{SpellsBetween};
ghost use Rattle.sp_tx.specs.Spending.{id_of};
ghost use Rattle.sp_block.specs.Format as format;
ghost use Rattle.sp_block.specs.Format.{
  carried_form,
  parent_count_form,
  parent_form,
  parents_form,
  tx_count_form,
  txs_form,
  version_form,
  with_tx,
  word_form,
};
ghost use Rattle.sp_block.specs.Reading.{block_steps, parts_in, as_block_fault};
ghost use Rattle.sp_block.specs.Seen.{Saw};
ghost use Rattle.sp_block.specs.declared.fault.BlockFault.TheVariants.{Short};
ghost use Rattle.sp_block.specs.declared.fault.BlockFault.TheVariants as faults;

use crate::fault::{BlockFault, ReadBlockFault};
use crate::list::Parents;
use crate::seen::Seen;
use sp_form::{Fields, array_of};
use sp_ids::{BlockId, TxId};
use sp_tx::{Tx, TxReadFault, Txs, read_tx};
use std::alloc::Global;
use std::marker::Model;

/// What a block's bytes spell.
#[derive(Drop)]
pub(crate) struct Content {
    pub(crate) salt: u64,
    pub(crate) nonce: u64,
    pub(crate) parents: Parents,
    pub(crate) txs: Txs,
}

fn parents_fit(genesis: bool, count: u8) -> bool
    ensures { result ≡ format.parents_fit genesis count }
{
    if genesis {
        count == 0
    } else {
        1 <= count && count <= 64
    }
}

fn is_above(before: Option<BlockId>, id: &BlockId) -> bool
    ensures { result ≡ format.is_above before id.now }
{
    match before {
        None => true,
        Some(before) => before.cmp(id).is_lt(),
    }
}

fn block_fault_of(fault: TxReadFault) -> ReadBlockFault
    ensures { result ≡ as_block_fault fault }
{
    match fault {
        TxReadFault::Fault(fault) => ReadBlockFault::Fault(BlockFault::Tx(fault)),
        TxReadFault::Memory => ReadBlockFault::Memory,
    }
}

/// A block's bytes, read field by field.
#[derive(Drop)]
pub(crate) struct BlockReader<'a> {
    fields: Fields<'a>,
}

impl<'a> Model for BlockReader<'a> {
    ghost use Rattle.std.specs.Prelude.{List, ℕ};
    ghost use Rattle.sp_form.specs.Bytes.{IsBytes};

    ghost Value = { List ℕ };

    ghost view = { λ r. r.fields };

    ghost invariant = { λ r. IsBytes r.fields };
}

impl<'a> BlockReader<'a> {
    /// A reader of all of these bytes.
    pub(crate) fn new(bytes: &'a [u8]) -> BlockReader<'a>
        ensures all { result ≡ bytes.now }
        ensures bytes { IsBytes result }
    {
        BlockReader {
            fields: Fields::of(bytes),
        }
    }

    /// Whether no byte is left.
    pub(crate) fn is_empty(&self) -> bool
        ensures { IsTrue result ↔ (length self.now ≡ 0) }
    {
        self.fields.is_empty()
    }

    /// The next so many bytes.
    #[tactic(auto, unfolding(sp_form::specs::Reading::read))]
    fn field(&mut self, width: usize) -> Result<&'a [u8], ReadBlockFault>
        ensures size { IfOk result (λ field. length field.now ≡ width) }
        ensures read { Gives (λ field. (field.now, self.new)) result (read (bytes_form width Short) self.old) }
    {
        match self.fields.take(width) {
            Some(field) => Ok(field),
            None => Err(ReadBlockFault::Fault(BlockFault::Short)),
        }
    }

    /// The version, which is 1.
    #[tactic(auto, unfolding(sp_form::specs::Reading::read))]
    fn version(&mut self) -> Result<u8, ReadBlockFault>
        ensures { Gives (λ version. (version, self.new)) result (read version_form self.old) }
    {
        let field = self.field(1)?;
        let version = field[0];
        if version != 1 {
            return Err(ReadBlockFault::Fault(BlockFault::Version));
        }
        Ok(version)
    }

    /// The salt or the nonce.
    #[tactic(auto, unfolding(sp_form::specs::Reading::read))]
    fn word(&mut self) -> Result<u64, ReadBlockFault>
        ensures { Gives (λ word. (word, self.new)) result (read word_form self.old) }
    {
        let field = self.field(8)?;
        Ok(u64::from_le_bytes(array_of(field)))
    }

    /// None in genesis, 1 to 64 in other blocks.
    #[tactic(auto, unfolding(sp_form::specs::Reading::read))]
    fn parent_count(&mut self, genesis: bool) -> Result<u8, ReadBlockFault>
        ensures { Gives (λ count. (count, self.new)) result (read (parent_count_form genesis) self.old) }
    {
        let field = self.field(1)?;
        let count = field[0];
        if !parents_fit(genesis, count) {
            return Err(ReadBlockFault::Fault(BlockFault::ParentCount));
        }
        Ok(count)
    }

    /// The id of a parent, strictly above the one before.
    #[tactic(auto, unfolding(sp_form::specs::Reading::read))]
    fn parent(&mut self, before: Option<BlockId>) -> Result<BlockId, ReadBlockFault>
        ensures { Gives (λ id. (id, self.new)) result (read (parent_form before) self.old) }
    {
        let field = self.field(32)?;
        let id = BlockId::from_bytes(array_of(field));
        if !is_above(before, &id) {
            return Err(ReadBlockFault::Fault(BlockFault::ParentOrder));
        }
        Ok(id)
    }

    /// So many parents, their ids ascending.
    fn parents(&mut self, alloc: Global, count: u8) -> Result<Parents, ReadBlockFault>
        ensures { Gives (λ parents. (parents, self.new)) result (read (parents_form count) self.old) }
    {
        let mut parents = Vec::new(alloc);
        let mut before = None;
        'parents: for _ in 0..count {
            let id = self.parent(before)?;
            before = Some(id);
            parents.push(id)?;
        }
        Ok(Parents::of(parents))
    }

    /// At most 256.
    #[tactic(auto, unfolding(sp_form::specs::Reading::read))]
    fn tx_count(&mut self) -> Result<u16, ReadBlockFault>
        ensures { Gives (λ count. (count, self.new)) result (read tx_count_form self.old) }
    {
        let field = self.field(2)?;
        let count = u16::from_le_bytes(array_of(field));
        if count > 256 {
            return Err(ReadBlockFault::Fault(BlockFault::TxCount));
        }
        Ok(count)
    }

    /// The transaction that is next, and how many bytes it has. Nothing is taken.
    fn next_tx(&self, alloc: Global) -> Result<(Tx, usize), ReadBlockFault>
        ensures found { IfOk result (λ found. SpellsBetween self.now 0 found.1 found.0) }
        ensures fault { IfErr result (IsCause (λ fault. read (map_fault faults.Tx tx_form) self.now ≡ Err fault)) }
        ensures bytes { IsBytes self.now }
    {
        match read_tx(alloc, self.fields.rest(), 0) {
            Ok(found) => Ok(found),
            Err(fault) => Err(block_fault_of(fault)),
        }
    }

    /// The next transaction and its id. It isn't judged against the others.
    fn tx(&mut self, alloc: Global) -> Result<(Tx, TxId), ReadBlockFault>
        ensures id { IfOk result (λ found. found.1 ≡ id_of found.0) }
        ensures read { Gives (λ found. (found.0, self.new)) result (read (map_fault faults.Tx tx_form) self.old) }
    {
        let (tx, width) = self.next_tx(alloc)?;
        let text = self.field(width)?;
        Ok((tx, TxId::of(text)))
    }

    /// The next transaction, judged against the earlier ones, which then has it, too. Its id is put
    /// behind the others.
    fn carried(
        &mut self,
        alloc: Global,
        genesis: bool,
        seen: &mut Seen,
        ids: &mut Vec<TxId>,
    ) -> Result<Tx, ReadBlockFault>
        ensures ids { IfOk result (λ tx. ids.new.items ≡ ids.old.items ++ id_of tx ∷ []) }
        ensures read { (earlier : List Transaction) → Saw seen.old earlier
            → Gives (λ tx. (tx, self.new)) result (read (carried_form genesis earlier) self.old) }
        ensures saw { (earlier : List Transaction) → Saw seen.old earlier
            → IfOk result (λ tx. Saw seen.new (with_tx earlier tx)) }
    {
        let (tx, id) = self.tx(alloc)?;
        match seen.judge(genesis, &tx, &id) {
            Err(fault) => Err(ReadBlockFault::Fault(fault)),
            Ok(()) => {
                seen.add(&tx, id)?;
                ids.push(id)?;
                Ok(tx)
            }
        }
    }

    /// So many transactions. Their ids are put behind the others.
    fn txs(
        &mut self,
        alloc: Global,
        genesis: bool,
        count: u16,
        ids: &mut Vec<TxId>,
    ) -> Result<Txs, ReadBlockFault>
        ensures ids { IfOk result (λ txs. ids.new.items ≡ ids.old.items ++ map id_of txs) }
        ensures read { Gives (λ txs. (txs, self.new)) result (read (txs_form genesis count) self.old) }
    {
        let mut txs = Vec::new(alloc);
        let mut seen = Seen::new(alloc);
        'txs: for _ in 0..count {
            let tx = self.carried(alloc, genesis, &mut seen, ids)?;
            txs.push(tx)?;
        }
        Ok(Txs::of(txs))
    }

    /// All that a block's bytes spell. The ids of its transactions are put behind the others.
    pub(crate) fn block(
        &mut self,
        alloc: Global,
        genesis: bool,
        ids: &mut Vec<TxId>,
    ) -> Result<Content, ReadBlockFault>
        ensures ids { IfOk result (λ content. ids.new.items ≡ ids.old.items ++ map id_of content.txs) }
        ensures read { Gives (λ content. (parts_in content, self.new)) result (block_steps genesis self.old) }
    {
        let _version = self.version()?;
        let salt = self.word()?;
        let nonce = self.word()?;
        let count = self.parent_count(genesis)?;
        let parents = self.parents(alloc, count)?;
        let count = self.tx_count()?;
        let txs = self.txs(alloc, genesis, count, ids)?;
        Ok(Content {
            salt,
            nonce,
            parents,
            txs,
        })
    }
}
