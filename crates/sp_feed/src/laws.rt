//! The laws of feeds, for which no call is needed.

ghost use Rattle.std.specs.Prelude.{◌≡◌, true, ℕ, List, Some, IsTrue, Contains};
ghost use Rattle.sp_form.specs.Bytes.{IsBytes};
ghost use Rattle.sp_block.specs.Judged.{is_block};
ghost use Rattle.sp_feed.specs.Feed.{feed, FrameByFrame};
ghost use Rattle.sp_feed.specs.Format.{Head};
ghost use Rattle.sp_feed.specs.Kinds.{SaysBlock};
ghost use Rattle.sp_feed.specs.Spelling.{WrittenIsRead};

/// The frames of a feed are a frame, and then the frames behind it.
pub fn frame_by_frame()
    ensures { FrameByFrame }
{}

/// A feed that is written is read, whatever follows it.
pub fn written_is_read()
    ensures { WrittenIsRead }
{}

/// A feed of bytes carries bytes: each block's payload, and the genesis block of its head, which
/// spells one.
pub fn payloads_are_bytes()
    ensures blocks { (limit : ℕ) (list bytes : List ℕ) → IsBytes list →
        Contains (feed limit list).messages (SaysBlock bytes) → IsBytes bytes }
    ensures genesis { (limit : ℕ) (list : List ℕ) (head : Head) → IsBytes list →
        (feed limit list).head ≡ Some head → IsBytes head.genesis }
    ensures spelled { (limit : ℕ) (list : List ℕ) (head : Head) →
        (feed limit list).head ≡ Some head → IsTrue (is_block true head.genesis) }
{}
