//! Why a script of nodes is at fault. It stands apart because the definitions cite it.

/// Why a line of a script is at fault.
#[derive(Clone, Copy, Debug, PartialEq, Eq)]
pub enum ScriptReason {
    /// The line has a byte other than a tab, a space and the printed characters.
    Byte,
    /// The first word is no command.
    Command,
    /// The words don't have the command's form.
    Form,
    /// A number is badly spelled, or that of the nodes isn't from 1 to 16.
    Number,
    /// There is no node of this number.
    Node,
    /// No packet of this number was sent.
    Packet,
    /// A name is that of no made block.
    Unknown,
    /// One block too many was given, or one packet too many would be sent.
    Many,
    /// There is no line `nodes`.
    Nodes,
}

/// The first fault of a script: the number of its line, counted from 1, and the reason.
#[derive(Clone, Copy, Debug, PartialEq, Eq)]
pub struct ScriptFault {
    pub line: u32,
    pub reason: ScriptReason,
}
