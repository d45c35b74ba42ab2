//! Laws of messages one after another, over the definitions alone. Each is the contract of a
//! function that does nothing, so that the check proves it.

ghost use Rattle.sp_names.specs.Labels.{AreAllLabels, no_labels};
ghost use Rattle.sp_node.specs.Messages.{AnswersAreLines, AnswersInTurn, KeptByMessages, OrderIsNoMatter};

/// What is kept after one message after another is what is kept of all the bytes that arrived with
/// them.
#[tactic(auto, using(crate::proofs::AnswerLists::kept_from_genesis))]
pub fn kept_by_messages()
    ensures { KeptByMessages }
{}

/// The answers to a list of messages are those to its front, and then those to the rest after what
/// arrived with the front.
#[tactic(auto, using(crate::proofs::AnswerLists::answers_in_turn))]
pub fn answers_in_turn()
    ensures { AnswersInTurn }
{}

/// Each block, and each question on two blocks, a transaction or a lock, is answered by one line: by
/// bytes that end with byte 10 and are 192 at most, by names too, since these have 64 at most; and so
/// it is where no id has a name.
#[tactic(auto, using(crate::proofs::AnswerLengths::answers_are_lines))]
pub fn answers_are_lines()
    ensures lines { AnswersAreLines }
    ensures hex { AreAllLabels no_labels }
{}

/// In whatever order blocks arrive, each question is answered by the same bytes once they all did,
/// by one naming.
#[tactic(auto, using(crate::proofs::SameReplies::order_is_no_matter))]
pub fn order_is_no_matter()
    ensures { OrderIsNoMatter }
{}
