//! Why a text is no id. It stands apart because all three kinds of id answer it.

/// Why a text doesn't spell an id: the first of these that is true of it, in this order. The table
/// stands in docs/FORMATS.md under "Ids, locks and outpoints".
#[derive(Clone, Copy, Debug, PartialEq, Eq)]
pub enum HexFault {
    /// Its length is odd.
    OddLength,
    /// Its length is even and not 64.
    WrongLength,
    /// A byte of it is no hexadecimal digit. The first such byte stands at this place, counted
    /// from 0.
    BadDigit { at: u8 },
}
