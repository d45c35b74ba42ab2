//! The lines that stand first: `profile`, `bits` and `grant`.

ghost use Rattle.std.specs.Prelude.{◌≡◌, ◌<◌, ◌≤◌, ◌||◌, [], All, Err, if◌then◌else◌, IfOk, IsNone, length, nat_lt, true};
ghost use Rattle.sp_play.specs.Making as line;
ghost use Rattle.sp_play.specs.Making.{at_stage_head, is_full};
ghost use Rattle.sp_play.specs.Known.{grants_of, place_of};
ghost use Rattle.sp_play.specs.Words.{is_name};
ghost use Rattle.sp_play.specs.declared.paid.Paid as paying;
ghost use Rattle.sp_play.specs.Told.{Steps};

use crate::forms::{grant_form, has_words};
use crate::judging::paid_all;
use crate::known::Known;
use crate::limits::{MOST_NAMES, MOST_PARTS};
use crate::lookups::new_name;
use crate::numbers::number_in;
use crate::paid::Paids;
use crate::profile_word::profile_in;
use crate::scans::gather_grants;
use crate::stage::Stage;
use crate::why::{LineError, Why};
use crate::words::Words;
use sp_ids::Memory;
use sp_tx::Inputs;

/// The most grants, and the most bytes of a block.
const MOST_GRANTS: usize = 256;

const LONGEST: usize = 65_536;

impl Known {
    /// A line `profile N`.
    #[tactic(auto, unfolding(crate::specs::Making::profile_line))]
    pub(crate) fn profile_line(&mut self, words: &Words) -> Result<(), LineError>
        ensures { Steps self.old self.new result (line.profile_line self.old words.now) }
    {
        has_words(2, words)?;
        self.profile = profile_in(words.at(1))?;
        self.stage = Stage::Profiled;
        Ok(())
    }

    /// A line `bits N`.
    #[tactic(auto, unfolding(crate::specs::Making::bits_line))]
    pub(crate) fn bits_line(&mut self, words: &Words) -> Result<(), LineError>
        ensures { Steps self.old self.new result (line.bits_line self.old words.now) }
    {
        has_words(2, words)?;
        let bits = number_in(0, 64, words.at(1))?;
        self.bits = bits as u8;
        self.stage = Stage::Head;
        Ok(())
    }

    /// Whether the grants with one more of these amounts are too many, or make too long a block.
    #[tactic(auto, using(crate::proofs::Genesis::genesis_long))]
    fn is_past_grants(&self, paid: &Paids) -> Result<bool, Memory>
        requires { length paid.now ≤ 16 }
        ensures { IfOk result
            (λ past. past ≡ line.is_past_grants (grants_of self.now.entries) paid.now) }
    {
        let grants = gather_grants(self.alloc, &self.entries)?;
        if MOST_GRANTS <= grants.count {
            return Ok(true);
        }
        Ok(LONGEST < 22 + grants.bytes.len() + 40 * paid.as_slice().len())
    }

    /// Adds a grant of judged amounts, unless there would be more of something than there may be.
    fn add_grant(&mut self, word: &[u8], paid: &Paids) -> Result<(), LineError>
        requires named { is_name word.now ≡ true }
        requires some { 1 ≤ length word.now }
        requires short { length word.now ≤ 64 }
        requires fresh { IsNone (place_of self.old.entries word.now) }
        requires pays { 1 ≤ length paid.now }
        requires amounts { All (λ (one : paying.Paid). 1 ≤ one.amount) paid.now }
        ensures { Steps self.old self.new result
            (if nat_lt 16 (length paid.now) || is_full self.old
            || line.is_past_grants (grants_of self.old.entries) paid.now
            then Err Why.Many else line.with_tx (at_stage_head self.old) word.now [] paid.now) }
    {
        if MOST_PARTS < paid.as_slice().len() || MOST_NAMES <= self.entries.len() {
            return Err(LineError::Fault(Why::Many));
        }
        if self.is_past_grants(paid)? {
            return Err(LineError::Fault(Why::Many));
        }
        let none = Inputs::of(Vec::new(self.alloc));
        self.add_tx(Stage::Head, word, none, paid.as_slice())
    }

    /// A line `grant NAME PAY ..`.
    #[tactic(auto, unfolding(crate::specs::Making::grant_line))]
    pub(crate) fn grant_line(&mut self, words: &Words) -> Result<(), LineError>
        ensures { Steps self.old self.new result (line.grant_line self.old words.now) }
    {
        let pays = grant_form(self.alloc, words)?;
        let name = words.at(1);
        new_name(&self.entries, name)?;
        let paid = paid_all(self.alloc, pays.as_slice())?;
        self.add_grant(name, &paid)
    }
}
