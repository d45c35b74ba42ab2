//! A list of the numbers of calls, by which an object in memory is told where to fail.

ghost use Rattle.std.specs.Prelude.{◌≡◌, ℕ, List};

use std::marker::Model;

/// Numbers of calls, counted from 0, in any order.
#[derive(Drop)]
pub struct Calls {
    list: Vec<u32>,
}

impl Model for Calls {
    ghost Value = { List ℕ };

    ghost view = { λ c. c.list.items };
}

impl Calls {
    /// The numbers of this list. One that stands there twice means no more than once.
    pub fn of(list: Vec<u32>) -> Self
        ensures { result ≡ list.items }
    {
        Calls { list }
    }

    /// The numbers, in the order of the list.
    pub fn as_slice(&self) -> &[u32]
        ensures { result.now ≡ self.now }
    {
        self.list.as_slice()
    }
}
