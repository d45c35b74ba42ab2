//! The kinds of frames: one line for each in the letters, in the lengths, and in what a payload
//! says (`specs/Kinds.antt`, `FeedReader::message`).

ghost use Rattle.std.specs.Prelude.{◌≡◌, ◌≤◌, IsTrue};

/// A kind of frame, by its letter; the table stands at `Message`.
#[derive(Clone, Copy, Debug, PartialEq, Eq)]
pub(crate) enum Kind {
    Block,
    Vote,
    Tx,
    Balance,
    Pairs,
    Report,
    End,
}

impl Kind {
    ghost use Rattle.sp_feed.specs.Kinds.{allows, kind_of};

    /// The kind of a letter, where it has one.
    pub(crate) fn of(letter: u8) -> Option<Kind>
        ensures { result ≡ kind_of letter }
    {
        match letter {
            b'B' => Some(Kind::Block),
            b'V' => Some(Kind::Vote),
            b'T' => Some(Kind::Tx),
            b'U' => Some(Kind::Balance),
            b'P' => Some(Kind::Pairs),
            b'R' => Some(Kind::Report),
            b'E' => Some(Kind::End),
            _ => None,
        }
    }

    /// Whether a payload of this kind may be so long.
    pub(crate) fn allows(self, length: u32) -> bool
        ensures value { result ≡ allows self length }
        ensures fits { IsTrue result → length ≤ 65537 }
    {
        match self {
            Kind::Block => length <= 65_537,
            Kind::Vote => length == 64,
            Kind::Tx => length == 32,
            Kind::Balance => length == 32,
            Kind::Pairs => length == 0,
            Kind::Report => length == 0,
            Kind::End => length == 0,
        }
    }
}
