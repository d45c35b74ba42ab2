//! What a scenario is taken for. It stands apart from what is done because the definitions cite it.

/// What is done with a scenario.
#[derive(Clone, Copy, Debug, PartialEq, Eq)]
pub enum Purpose {
    /// Its messages are answered.
    Play,
    /// Its feed is written.
    Build,
    /// Its blocks are kept, and the summary of what stands then is written.
    Drill,
}

/// What a text is taken for that is read from a source.
#[derive(Clone, Copy, Debug, PartialEq, Eq)]
pub enum Task {
    /// It is a scenario.
    Scenario(Purpose),
    /// It is a scenario and behind it a script of nodes, which is played.
    Gossip,
}
