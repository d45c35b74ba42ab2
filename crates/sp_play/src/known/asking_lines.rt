//! The lines that say a message: `send` and the questions.

ghost use Rattle.std.specs.Prelude.{◌≡◌, ◌<◌, IfErr, OnOk};
ghost use Rattle.sp_play.specs.Making as line;
ghost use Rattle.sp_play.specs.Making.{with_saying};
ghost use Rattle.sp_play.specs.Told.{Steps};

use crate::forms::has_words;
use crate::judging::lock_word;
use crate::known::Known;
use crate::lookups::{known_block, known_tx};
use crate::saying::Saying;
use crate::stage::Stage;
use crate::why::LineError;
use crate::words::Words;
use sp_names::Name;
use sp_tx::Tx;

impl Known {
    /// Adds a message behind the others.
    fn say(&mut self, saying: Saying) -> Result<(), LineError>
        ensures ok { OnOk result (self.new ≡ with_saying self.old saying) }
        ensures err { IfErr result (λ e. e ≡ LineError.Memory) }
    {
        self.sayings.push(saying)?;
        self.stage = Stage::Body;
        Ok(())
    }

    /// A line `send NAME`.
    #[tactic(auto, unfolding(crate::specs::Making::send_line))]
    pub(crate) fn send_line(&mut self, words: &Words) -> Result<(), LineError>
        ensures { Steps self.old self.new result (line.send_line self.old words.now) }
    {
        has_words(2, words)?;
        let place = known_block(&self.entries, words.at(1))?;
        self.say(Saying::Block(place))
    }

    /// A line `vote NAME NAME`.
    #[tactic(auto, unfolding(crate::specs::Making::vote_line))]
    pub(crate) fn vote_line(&mut self, words: &Words) -> Result<(), LineError>
        ensures { Steps self.old self.new result (line.vote_line self.old words.now) }
    {
        has_words(3, words)?;
        let x = known_block(&self.entries, words.at(1))?;
        let y = known_block(&self.entries, words.at(2))?;
        self.say(Saying::Vote(x, y))
    }

    /// A line `state NAME`.
    #[tactic(auto, unfolding(crate::specs::Making::state_line))]
    pub(crate) fn state_line(&mut self, words: &Words) -> Result<(), LineError>
        ensures { Steps self.old self.new result (line.state_line self.old words.now) }
    {
        has_words(2, words)?;
        let place = known_tx(&self.entries, words.at(1))?;
        self.say(Saying::Tx(place))
    }

    /// A line `balance WORD`.
    #[tactic(auto, unfolding(crate::specs::Making::balance_line))]
    pub(crate) fn balance_line(&mut self, words: &Words) -> Result<(), LineError>
        ensures { Steps self.old self.new result (line.balance_line self.old words.now) }
    {
        has_words(2, words)?;
        let word = lock_word(words.at(1))?;
        let again = Name::of(word.as_slice());
        self.words.push(again)?;
        self.say(Saying::Balance(word))
    }

    /// A line `pairs` or `report`.
    #[tactic(auto, unfolding(crate::specs::Making::text_line))]
    pub(crate) fn text_line(&mut self, saying: Saying, words: &Words) -> Result<(), LineError>
        ensures { Steps self.old self.new result (line.text_line saying self.old words.now) }
    {
        has_words(1, words)?;
        self.say(saying)
    }
}
