//! What a line of a script asks for, and why it is at fault. It stands apart because the definitions
//! cite it.

use crate::event::Event;
use sp_names::Name;
use sp_tx::Bytes;

/// A block that a scenario made.
#[derive(Drop)]
pub struct Made {
    pub name: Name,
    pub bytes: Bytes,
}

/// What a line asks for. The block of a line `give` is told by its number among the made blocks, so that a
/// long script copies none.
#[derive(Drop)]
pub enum ScriptLine {
    /// The made block of this number, the first one being 0, arrives at a node.
    Give { node: u8, block: u16 },
    Act(Event),
    /// The report of a node.
    Report { node: u8 },
}

/// Why a line is at fault.
#[derive(Clone, Copy, Debug, PartialEq, Eq)]
pub enum ScriptWhy {
    /// The line has a byte other than a tab, a space and the printed characters.
    Byte,
    /// The first word is no command.
    Command,
    /// The words don't have the command's form.
    Form,
    /// A number is badly spelled, or that of the nodes isn't from 1 to 16.
    Number,
    /// There is no node of this number.
    Node,
    /// A name is that of no made block.
    Unknown,
}
