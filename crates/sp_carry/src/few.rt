//! Short lists of numbers, which take no memory of their own, so that there is room for one where there
//! is room in a table of them.

ghost use Rattle.std.specs.Prelude.{◌≡◌, ◌++◌, ◌∷◌, ◌<◌, [], length};

use std::marker::Model;

/// At most 16 numbers, in the order in which they were noted.
#[derive(Drop)]
pub(crate) struct Few {
    count: u8,
    numbers: [u32; 16],
}

impl Model for Few {
    ghost use Rattle.std.specs.Prelude.{◌≤◌, ℕ, List, take};

    ghost Value = { List ℕ };

    ghost view = { λ few. take few.count few.numbers };

    ghost invariant = { λ few. few.count ≤ 16 };
}

impl Few {
    // No number.
    pub(crate) fn new() -> Few
        ensures { result ≡ [] }
    {
        Few {
            count: 0,
            numbers: [0; 16],
        }
    }

    // One number more.
    pub(crate) fn push(&mut self, number: u32)
        requires { length self.old < 16 }
        ensures { self.new ≡ self.old ++ number ∷ [] }
    {
        self.numbers[self.count as usize] = number;
        self.count += 1;
    }

    pub(crate) fn as_slice(&self) -> &[u32]
        ensures { result.now ≡ self.now }
    {
        &self.numbers[..self.count as usize]
    }
}
