//! A flag for each number.

ghost use Rattle.std.specs.Prelude.{◌≡◌};
ghost use Rattle.sp_carry.specs.Flags as meant;

/// Whether the flag of a number is set. One that isn't there is not.
pub fn is_set(flags: &[bool], number: u32) -> bool
    ensures { result ≡ meant.is_set flags.now number }
{
    let place = number as usize;
    place < flags.len() && flags[place]
}
