//! A profile by the word that says its number (`specs/Profiles.antt`): in a scenario's first line and
//! on the command line.

ghost use Rattle.std.specs.Prelude.{◌≡◌};
ghost use Rattle.sp_play.specs.Profiles as meant;
ghost use Rattle.sp_play.specs.Told.{Answers};

use crate::numbers::number_of;
use crate::why::{LineError, Why};
use sp_model::Profile;

/// The greatest number that a profile may have.
const MOST: u64 = 99;

/// The profile whose number a word spells, in decimal digits without a leading zero, if it spells
/// one. It takes time in proportion to the word.
pub fn profile_of(word: &[u8]) -> Option<Profile>
    ensures { result ≡ meant.profile_of word.now }
{
    let number = number_of(1, MOST, word)?;
    Profile::with_number(number as u8)
}

/// The same, as the judging of a line asks for it.
pub(crate) fn profile_in(word: &[u8]) -> Result<Profile, LineError>
    ensures { Answers result (meant.profile_in word.now) }
{
    match profile_of(word) {
        Some(profile) => Ok(profile),
        None => Err(LineError::Fault(Why::Number)),
    }
}
