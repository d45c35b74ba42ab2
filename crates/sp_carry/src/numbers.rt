//! Lists of numbers, a type of their own so that contracts see a table of them as lists.

ghost use Rattle.std.specs.Prelude.{◌≡◌, ◌↔◌, ◌++◌, ◌∷◌, [], ◌<◌, ℕ, List, All, IfOk, OnOk, OnErr, IsTrue};

use std::alloc::{AllocError, Global};
use std::marker::Model;

/// Numbers, in the order in which they were noted.
#[derive(Drop)]
pub(crate) struct Numbers {
    list: Vec<u32>,
}

impl Model for Numbers {
    ghost use Rattle.std.specs.Prelude.{ℕ, List};

    ghost Value = { List ℕ };

    ghost view = { λ numbers. numbers.list.items };
}

impl Numbers {
    // One number.
    pub(crate) fn one(alloc: Global, number: u32) -> Result<Numbers, AllocError>
        ensures { IfOk result (λ numbers. numbers ≡ number ∷ []) }
    {
        let mut list = Vec::with_capacity(alloc, 1)?;
        list.push_reserved(number);
        Ok(Numbers { list })
    }

    // One number more.
    pub(crate) fn push(&mut self, number: u32) -> Result<(), AllocError>
        ensures ok { OnOk result (self.new ≡ self.old ++ number ∷ []) }
        ensures err { OnErr result (self.new ≡ self.old) }
    {
        self.list.push(number)?;
        Ok(())
    }

    pub(crate) fn as_slice(&self) -> &[u32]
        ensures { result.now ≡ self.now }
    {
        self.list.as_slice()
    }

    // Takes the number back, where it is the last one.
    pub(crate) fn forget(&mut self, number: u32)
        ensures there { (front : List ℕ) → self.old ≡ front ++ number ∷ [] → self.new ≡ front }
        ensures none { All (λ m. m < number) self.old → self.new ≡ self.old }
    {
        if let Some(last) = self.list.last() {
            if *last == number {
                self.list.pop();
            }
        }
    }

    // Takes the last one back, and answers whether none is left.
    pub(crate) fn pop(&mut self) -> bool
        ensures { (front : List ℕ) (last : ℕ) → self.old ≡ front ++ last ∷ [] →
            (self.new ≡ front) × (IsTrue result ↔ (front ≡ [])) }
    {
        self.list.pop();
        self.list.is_empty()
    }
}
