//! The lines `make` and `block`, and the names of made blocks.

ghost use Rattle.std.specs.Prelude.{◌≡◌, ◌<◌, ◌≤◌, IfOk, IsNone, length, OnOk, Some, true, vec_len};
ghost use Rattle.sp_ids.specs.Digest.{sha256_number};
ghost use Rattle.sp_play.specs.Known as meant;
ghost use Rattle.sp_play.specs.Making as line;
ghost use Rattle.sp_play.specs.Making.{at_stage_body, with_sent, with_thing};
ghost use Rattle.sp_play.specs.Known.{grants_of, place_of};
ghost use Rattle.sp_play.specs.Words.{is_name};
ghost use Rattle.sp_play.specs.declared.thing.Thing.TheVariants as kinds;
ghost use Rattle.sp_play.specs.Told.{Answers, Steps};

use crate::drafts::{block_of, draft_of};
use crate::forms::block_form;
use crate::known::Known;
use crate::limits::MOST_NAMES;
use crate::lookups::new_name;
use crate::pieces::BlockForm;
use crate::places::{Wanted, places_of};
use crate::saying::Saying;
use crate::scans::genesis_text;
use crate::stage::Stage;
use crate::thing::{MadeBlock, Thing};
use crate::why::{LineError, Why};
use crate::words::Words;
use sp_block::Draft;
use sp_ids::{BlockId, Memory};
use sp_tx::Tx;

impl Known {
    /// Adds a made block to the names.
    fn push_block(&mut self, word: &[u8], block: MadeBlock) -> Result<(), Memory>
        requires named { is_name word.now ≡ true }
        requires some { 1 ≤ length word.now }
        requires short { length word.now ≤ 64 }
        requires fresh { IsNone (place_of self.old.entries word.now) }
        requires room { length self.old.entries < 4096 }
        requires long { length block ≤ 65536 }
        ensures { OnOk result (self.new ≡ with_thing self.old word.now (kinds.Made block)) }
    {
        self.entries.push(word, Thing::Made(block))?;
        Ok(())
    }

    /// The id of the genesis block. It is made once for the lines behind the last grant.
    fn genesis_id(&mut self) -> Result<BlockId, Memory>
        ensures id { IfOk result
            (λ id. id ≡ sha256_number (meant.genesis_text (grants_of self.old.entries))) }
        ensures same { self.new ≡ self.old }
    {
        if let Some(id) = self.genesis {
            return Ok(id);
        }
        let id = BlockId::of(&genesis_text(self.alloc, &self.entries)?);
        self.genesis = Some(id);
        Ok(id)
    }

    /// The draft of the block that a line's form says, given the id of genesis.
    #[tactic(auto, unfolding(crate::specs::Making::draft_by))]
    fn draft(&self, genesis: &BlockId, form: &BlockForm) -> Result<Draft, LineError>
        requires { genesis.now ≡ sha256_number (meant.genesis_text (grants_of self.now.entries)) }
        ensures { Answers result (line.draft_by self.now.entries form.now) }
    {
        let parents = places_of(self.alloc, Wanted::Block, &self.entries, &form.parents)?;
        let carried = places_of(self.alloc, Wanted::Tx, &self.entries, &form.carried)?;
        let made = self.entries.made_count();
        let draft = draft_of(
            self.alloc,
            &self.entries,
            genesis,
            made,
            parents.as_slice(),
            carried.as_slice(),
        )?;
        Ok(draft)
    }

    /// Adds a made block, and that it is sent.
    fn add_block(&mut self, sends: bool, word: &[u8], bytes: Vec<u8>) -> Result<(), Memory>
        requires named { is_name word.now ≡ true }
        requires some { 1 ≤ length word.now }
        requires short { length word.now ≤ 64 }
        requires fresh { IsNone (place_of self.old.entries word.now) }
        requires room { length self.old.entries < 4096 }
        requires long { vec_len bytes ≤ 65536 }
        ensures { OnOk result (self.new ≡ with_sent sends (length self.old.entries)
            (with_thing (at_stage_body self.old) word.now (kinds.Made bytes.items))) }
    {
        let place = self.entries.len();
        self.push_block(word, MadeBlock::of(bytes))?;
        self.stage = Stage::Body;
        if sends {
            self.sayings.push(Saying::Block(place))?;
        }
        Ok(())
    }

    /// Adds the block that a draft makes, if it makes one and there is room for its name.
    #[tactic(auto, unfolding(crate::specs::Making::with_block))]
    fn add_drafted(&mut self, sends: bool, word: &[u8], draft: &Draft) -> Result<(), LineError>
        requires named { is_name word.now ≡ true }
        requires some { 1 ≤ length word.now }
        requires short { length word.now ≤ 64 }
        requires fresh { IsNone (place_of self.old.entries word.now) }
        ensures { Steps self.old self.new result
            (line.with_block sends (at_stage_body self.old) word.now draft.now) }
    {
        if MOST_NAMES <= self.entries.len() {
            return Err(LineError::Fault(Why::Many));
        }
        let bytes = block_of(self.alloc, draft, self.bits)?;
        self.add_block(sends, word, bytes)?;
        Ok(())
    }

    /// A line `make` or `block`.
    #[tactic(auto, unfolding(crate::specs::Making::block_line))]
    pub(crate) fn block_line(&mut self, sends: bool, words: &Words) -> Result<(), LineError>
        ensures { Steps self.old self.new result (line.block_line sends self.old words.now) }
    {
        let form = block_form(self.alloc, words)?;
        let name = words.at(1);
        new_name(&self.entries, name)?;
        let genesis = self.genesis_id()?;
        let draft = self.draft(&genesis, &form)?;
        self.add_drafted(sends, name, &draft)
    }
}
