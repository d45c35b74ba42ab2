//! The versions of a feed: a stem, and the number of the profile behind it (`specs/Versions.antt`).

ghost use Rattle.std.specs.Prelude.{◌≡◌};
ghost use Rattle.sp_feed.specs.Versions as meant;

use sp_model::Profile;

/// What a feed begins with, in front of the number of its profile.
const STEM: [u8; 6] = *b"SPCTRF";

/// The profile of a feed that begins so, if one does.
pub(crate) fn profile_of(name: [u8; 8]) -> Option<Profile>
    ensures { result ≡ meant.profile_of name }
{
    Profile::with_name(STEM, name)
}

/// The eight bytes with which a feed of this profile begins.
pub fn name_of(profile: Profile) -> [u8; 8]
    ensures { result ≡ meant.name profile }
{
    profile.name(STEM)
}
