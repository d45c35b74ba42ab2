//! What a reader answers where it makes no value.

ghost use Rattle.std.specs.Prelude.{◌≡◌};
ghost use Rattle.sp_form.specs.declared.fault.ReadFault.TheVariants.{Memory};

use std::alloc::{AllocError, AllocFailed};

/// Why no value was made.
#[derive(Clone, Copy, Debug, PartialEq, Eq)]
pub enum ReadFault<E> {
    /// The bytes, or the parts, are at fault.
    Fault(E),
    /// There was no memory for the value.
    Memory,
}

impl<E> From<AllocError> for ReadFault<E> {
    ghost from_gives = { λ _ e. e ≡ Memory };

    fn from(_refused: AllocError) -> ReadFault<E> {
        ReadFault::Memory
    }
}

impl<E, T: Drop> From<AllocFailed<T>> for ReadFault<E> {
    ghost from_gives = { λ _ e. e ≡ Memory };

    fn from(_refused: AllocFailed<T>) -> ReadFault<E> {
        ReadFault::Memory
    }
}
