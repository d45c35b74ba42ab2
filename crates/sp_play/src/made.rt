//! The blocks that a scenario makes, in order of making.

ghost use Rattle.std.specs.Prelude.{◌≡◌, ◌<◌, ◌≤◌, length, slice_get, Some};
ghost use Rattle.sp_play.specs.Scene.{made_in};

use crate::entries::Entries;
use crate::thing::Thing;
use sp_names::Name;

/// How many there are.
pub(crate) fn count_made(entries: &Entries) -> u16
    requires { length entries.now ≤ 4096 }
    ensures { result ≡ length (made_in entries.now) }
{
    entries.made_count() as u16
}

/// The name and the bytes of one of them, counted from 0.
pub(crate) fn made_at(entries: &Entries, i: u16) -> (Name, &[u8])
    requires { i < length (made_in entries.now) }
    ensures { slice_get (made_in entries.now) i ≡ Some (result.0, result.1.now) }
{
    let mut left = i;
    'places: for place in 0..entries.len() {
        if let Thing::Made(block) = entries.thing_at(place) {
            if left == 0 {
                let name = Name::of(entries.name_at(place).as_slice());
                return (name, block.bytes());
            }
            left -= 1;
        }
    }
    unreachable!()
}
