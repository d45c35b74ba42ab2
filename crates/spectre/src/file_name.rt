//! The name of a file, as the words of the command line give it.

use std::marker::Model;

/// The name of a file. Contracts see its text as bytes in UTF-8.
#[derive(Debug, Drop)]
pub struct FileName {
    text: String,
}

impl Model for FileName {
    ghost use Rattle.std.specs.Prelude.{ℕ, List, string_bytes};

    ghost Value = { List ℕ };

    ghost view = { λ name. string_bytes name.text };
}

impl FileName {
    ghost use Rattle.std.specs.Prelude.{◌≡◌, string_bytes};

    /// The name with this text.
    pub fn of(text: String) -> FileName
        ensures { result ≡ string_bytes text }
    {
        FileName { text }
    }

    /// Its text.
    pub fn as_str(&self) -> &str
        ensures { result.now ≡ self.now }
    {
        self.text.as_str()
    }
}
