//! Why bytes spell no transaction.

use sp_form::ReadFault;

/// What is wrong with the bytes: the first fault in the order of reading. The table stands in
/// docs/FORMATS.md under "Transactions".
#[derive(Clone, Copy, Debug, PartialEq, Eq)]
pub enum TxFault {
    /// The bytes end within a field or before it.
    Short,
    /// There are more than 16 inputs.
    InputCount,
    /// An outpoint isn't strictly above the one before it.
    InputOrder,
    /// A preimage is empty or longer than 64 bytes.
    PreimageLength,
    /// There is no output, or there are more than 16.
    OutputCount,
    /// An amount is 0.
    Amount,
    /// The amounts so far come to 2^63 or more.
    Sum,
}

/// Why no transaction was made: the fault of the bytes or of the parts, or want of memory.
pub type TxReadFault = ReadFault<TxFault>;
