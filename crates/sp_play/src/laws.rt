//! Laws over the definitions alone, of what a scenario stands for. Each is the contract of a function
//! that does nothing, so that the check proves it.

ghost use Rattle.std.specs.Prelude.{ℕ, List, Contains};
ghost use Rattle.sp_form.specs.Bytes.{IsBytes};
ghost use Rattle.sp_feed.specs.Kinds.{SaysBlock};
ghost use Rattle.sp_play.specs.Scene.{scene};

/// Whatever a scenario's text is, the blocks that it sends and its genesis block are bytes.
pub fn blocks_are_bytes()
    ensures blocks { (text bytes : List ℕ) →
        Contains (scene text).messages (SaysBlock bytes) → IsBytes bytes }
    ensures genesis { (text : List ℕ) → IsBytes (scene text).genesis }
{}
