//! A whole scene's feed: its head, and the frame of each message.

ghost use Rattle.std.specs.Prelude.{◌≡◌, ◌++◌, ◌∷◌, [], OnErr, OnOk};
ghost use Rattle.std.specs.Io.KnownBytes.{Appends};
ghost use Rattle.sp_io.specs.Causes.{HasCause};
ghost use Rattle.sp_io.specs.Whole.{AppendsFront, Wrote};
ghost use Rattle.sp_feed.specs.Versions.{name};
ghost use Rattle.sp_feed.specs.Spelling.{frames_of};
ghost use Rattle.sp_play.specs.Feeds.{feed_text};

use crate::frames::{push_frame, push_message};
use crate::whole::Scene;
use sp_feed::{Message, name_of};
use sp_io::{Failed, Page, Sink};
use sp_model::Profile;

/// The front of a feed: the eight bytes of the profile, and the bits of work.
fn feed_front(profile: Profile, bits: u8) -> [u8; 9]
    ensures { result ≡ name profile ++ (bits ∷ []) }
{
    let mut front = [bits; 9];
    front[..8].copy_from_slice(&name_of(profile));
    front
}

/// Writes the frames of a scene's messages, and the frame that ends them, behind the bytes that
/// wait.
fn push_messages<K: Sink>(scene: &Scene, page: &mut Page, sink: &mut K) -> Result<(), Failed>
    ensures ok { OnOk result (Wrote (K.taken sink.old) (K.taken sink.new)
        (page.old ++ frames_of scene.now.messages) page.new) }
    ensures err { OnErr result (AppendsFront (K.taken sink.old) (K.taken sink.new)
        (page.old ++ frames_of scene.now.messages)) }
    ensures cause { HasCause (K.faults sink.old) (K.faults sink.new) result }
{
    'place: for place in 0..scene.len() {
        let message = scene.message(place);
        push_message(&message, page, sink)?;
    }
    push_message(&Message::End, page, sink)
}

/// Writes a scene's feed, through a page of 4,096 bytes and without taking memory.
///
/// # Errors
///
/// `Failed` where a call of the sink fails. The sink keeps what it took before.
#[tactic(auto, unfolding(crate::specs::Feeds::feed_text))]
pub(crate) fn write_feed<K: Sink>(scene: &Scene, sink: &mut K) -> Result<(), Failed>
    ensures ok { OnOk result
        (Appends (K.taken sink.old) (K.taken sink.new) (feed_text scene.now)) }
    ensures err { OnErr result
        (AppendsFront (K.taken sink.old) (K.taken sink.new) (feed_text scene.now)) }
    ensures cause { HasCause (K.faults sink.old) (K.faults sink.new) result }
{
    let front = feed_front(scene.profile(), scene.bits());
    let genesis = scene.genesis();
    let mut page = Page::new();
    page.push(&front, sink)?;
    push_frame(b'B', genesis, &mut page, sink)?;
    push_messages(scene, &mut page, sink)?;
    page.flush(sink)
}
