//! The fields of a slice, taken from its front one by one.

ghost use Rattle.std.specs.Prelude.{◌≡◌, ◌≤◌, ◌<◌, ◌↔◌, IfSome, IsNone, IsTrue, drop, length, take};
ghost use Rattle.sp_form.specs.Bytes.{IsBytes};

use std::marker::Model;

/// What is left of a slice of bytes, which is read from its front and lent from there.
#[derive(Drop)]
pub struct Fields<'a> {
    left: &'a [u8],
}

impl<'a> Model for Fields<'a> {
    ghost use Rattle.std.specs.Prelude.{List, ℕ};
    ghost use Rattle.sp_form.specs.Bytes.{IsBytes};

    ghost Value = { List ℕ };

    ghost view = { λ f. f.left.now };

    ghost invariant = { λ f. IsBytes f.left.now };
}

impl<'a> Fields<'a> {
    /// All of these bytes, none taken yet.
    pub fn of(bytes: &'a [u8]) -> Fields<'a>
        ensures all { result ≡ bytes.now }
        ensures bytes { IsBytes result }
    {
        Fields { left: bytes }
    }

    /// The number of bytes that are left.
    pub fn len(&self) -> usize
        ensures { result ≡ length self.now }
    {
        self.left.len()
    }

    /// Whether no byte is left.
    pub fn is_empty(&self) -> bool
        ensures { IsTrue result ↔ (length self.now ≡ 0) }
    {
        self.left.is_empty()
    }

    /// What is left, without taking it.
    pub fn rest(&self) -> &'a [u8]
        ensures { result.now ≡ self.now }
    {
        self.left
    }

    /// Takes the next `width` bytes; `None` where fewer are left, and then nothing is taken.
    /// It takes a bounded number of steps.
    pub fn take(&mut self, width: usize) -> Option<&'a [u8]>
        ensures field { IfSome result (λ field. field.now ≡ take width self.old) }
        ensures size { IfSome result (λ field. length field.now ≡ width) }
        ensures bytes { IfSome result (λ field. IsBytes field.now) }
        ensures left { IfSome result (λ _. self.new ≡ drop width self.old) }
        ensures short { IsNone result ↔ (length self.old < width) }
        ensures kept { IsNone result → self.new ≡ self.old }
    {
        if self.left.len() < width {
            return None;
        }
        let (field, left) = self.left.split_at(width);
        self.left = left;
        Some(field)
    }
}
