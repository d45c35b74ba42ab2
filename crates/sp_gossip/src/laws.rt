//! Laws of nodes that send each other blocks, over the definitions alone. Each is the contract of a
//! function that does nothing, so that the check proves it.

ghost use Rattle.sp_gossip.specs.Following.{StayInState};
ghost use Rattle.sp_gossip.specs.Laws.{KeptWereMade, SameBlocksSameLines, SameBlocksSameTexts, TellIsHeard};

/// What is worked out of events by what contracts see of the nodes is what the definition comes to.
pub fn nodes_stay_in_state()
    ensures { StayInState }
{}

/// Each block that a node keeps is genesis, or has the bytes of one that came from outside before.
pub fn kept_were_made()
    ensures { KeptWereMade }
{}

/// A node that is told of another one's blocks, and whose packets and those that answer them are
/// delivered, keeps them all.
pub fn tell_is_heard()
    ensures { TellIsHeard }
{}

/// Nodes that keep the same blocks say the same: a report, the pairs, or whatever else is asked.
pub fn same_blocks_same_answers()
    ensures lines { SameBlocksSameLines }
    ensures texts { SameBlocksSameTexts }
{}
