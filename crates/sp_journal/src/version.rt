//! The versions of a journal: a stem, and the number of the profile behind it (`specs/Versions.antt`).

ghost use Rattle.std.specs.Prelude.{◌≡◌};
ghost use Rattle.sp_journal.specs.Versions as meant;

use sp_model::Profile;

/// What the name of a journal begins with, in front of the number of its profile.
const STEM: [u8; 6] = *b"SPCTRJ";

/// The profile of a journal that is named so, if one is.
pub(crate) fn profile_of(name: [u8; 8]) -> Option<Profile>
    ensures { result ≡ meant.profile_of name }
{
    Profile::with_name(STEM, name)
}

/// The eight bytes that name a journal of this profile.
pub(crate) fn name_of(profile: Profile) -> [u8; 8]
    ensures { result ≡ meant.name profile }
{
    profile.name(STEM)
}
