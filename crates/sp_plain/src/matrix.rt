//! A matrix of virtual votes.

ghost use Rattle.std.specs.Prelude.{◌≡◌, ◌*◌, ◌<◌, length};
ghost use Rattle.sp_plain.specs.Virts.{entry};

use std::marker::Model;

/// The virtual votes of one set on each two of so many first blocks, row by row: of n blocks the one
/// on x and y stands at x * n + y. -1 is for x before y, +1 for y before x, and 0 is a tie.
#[derive(Drop)]
pub struct Matrix {
    width: u16,
    votes: Vec<i8>,
}

impl Model for Matrix {
    ghost use Rattle.std.specs.Prelude.{◌≡◌, ◌*◌, ◌≤◌, length};
    ghost use Rattle.sp_plain.specs.Virts.{Virts};

    ghost Value = { Virts };

    ghost view = { λ m. record { width = m.width; votes = m.votes.items } };

    ghost invariant = { λ m. length m.votes.items ≡ m.width * m.width };
}

impl Matrix {
    /// The matrix of these votes.
    pub(crate) fn of(width: u16, votes: Vec<i8>) -> Matrix
        requires { length votes.items ≡ width * width }
        ensures { result ≡ record { width = width; votes = votes.items } }
    {
        Matrix { width, votes }
    }

    /// The virtual vote on two blocks, -1 for x first, 0 for a tie and +1 for y first, in a
    /// bounded number of steps.
    pub fn vote(&self, x: u16, y: u16) -> i8
        requires x_in { x < self.now.width }
        requires y_in { y < self.now.width }
        ensures { result ≡ entry self.now x y }
    {
        let width = self.width as usize;
        self.votes[x as usize * width + y as usize]
    }
}
