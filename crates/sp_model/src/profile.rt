//! Which of the two rules on ties a graph follows, apart from the laws since the program's crates
//! hold it as a value. It has one number, and what begins with a name of it (a feed, a journal) has
//! that of its stem and that number: `specs/Profiles.antt` is the one table.

ghost use Rattle.std.specs.Prelude.{◌≡◌};
ghost use Rattle.sp_model.specs.Profiles as meant;

/// What a block votes that has two others in its past and finds a tie on them there.
#[derive(Clone, Copy, Debug, PartialEq, Eq)]
pub enum Profile {
    /// It keeps the tie.
    One,
    /// It votes for the block of the lower rank, by salt and then by id.
    Two,
}

impl Profile {
    /// The number of the profile, from 1 to 99.
    pub fn number(self) -> u8
        ensures { result ≡ meant.number self }
    {
        match self {
            Profile::One => 1,
            Profile::Two => 2,
        }
    }

    /// The profile of a number, if one has it.
    pub fn with_number(number: u8) -> Option<Profile>
        ensures { result ≡ meant.with_number number }
    {
        match number {
            1 => Some(Profile::One),
            2 => Some(Profile::Two),
            _ => None,
        }
    }

    /// The eight bytes with which what has this stem and this profile begins: the stem, and the
    /// profile's number in two digits.
    pub fn name(self, stem: [u8; 6]) -> [u8; 8]
        ensures { result ≡ meant.name stem self }
    {
        let number = self.number();
        let [a, b, c, d, e, f] = stem;
        [a, b, c, d, e, f, b'0' + number / 10, b'0' + number % 10]
    }

    /// The profile of what begins with these eight bytes, if it has this stem and a profile has its
    /// number.
    pub fn with_name(stem: [u8; 6], name: [u8; 8]) -> Option<Profile>
        ensures { result ≡ meant.with_name stem name }
    {
        if name == Profile::One.name(stem) {
            Some(Profile::One)
        } else if name == Profile::Two.name(stem) {
            Some(Profile::Two)
        } else {
            None
        }
    }
}
