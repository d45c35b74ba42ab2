//! What is written of a journal that was found.

use sp_model::Profile;

/// What is written of a journal that was found.
#[derive(Clone, Copy, Debug, PartialEq, Eq)]
pub enum Shape {
    /// How many records it has, and the report on its blocks.
    Report,
    /// The feed of its blocks, in this profile.
    Feed(Profile),
}
