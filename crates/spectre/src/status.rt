//! How a run ended, apart from the run itself since `main` turns it into the program's exit code.

/// How a run ended. The variants are in the order of their codes, from 0 to 15.
#[derive(Clone, Copy, Debug, PartialEq, Eq)]
pub enum Status {
    /// The input was read to its end, of a feed that is its frame `E`, and all answers were written.
    Done,
    /// The words are no command.
    Usage,
    /// The input has a fault, whose line was written last.
    Malformed,
    /// The input ended too early.
    Truncated,
    /// A read of the input failed.
    ReadFault,
    /// A write of the output failed.
    WriteFault,
    /// A call to the disk failed.
    DiskFault,
    /// The disk holds no journal.
    NotJournal,
    /// The disk holds the journal of another chain.
    OtherChain,
    /// Memory was refused.
    Memory,
    /// The disk holds a damaged journal.
    Damaged,
    /// The input is longer than its limit, and that fault's line was written last.
    TooLong,
    /// The two blocks have no certificate, being one block or not both present, and that fault's line was
    /// written.
    NoPair,
    /// The certificate is refused, and that fault's line was written.
    Refuted,
    /// What may be spent doesn't reach the amount, and that fault's line was written.
    Poor,
    /// What is to be spent comes to too much, and that fault's line was written.
    Large,
}

impl Status {
    ghost use Rattle.std.specs.Prelude.{◌≡◌};
    ghost use Rattle.spectre.specs.Codes.{code_of};

    /// The code that the program ends with: 0 for `Done`, and so on in the order of the variants, up to 15 for
    /// `Large`.
    pub fn code(&self) -> u8
        ensures { result ≡ code_of self.now }
    {
        *self as u8
    }
}
