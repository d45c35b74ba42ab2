//! The feed of blocks that are sent one after another: its head, a frame for each block, and the end.

ghost use Rattle.std.specs.Prelude.{◌≡◌, ◌<◌, ◌++◌, ◌∷◌, ◌^◌, [], length, map, OnErr, OnOk};
ghost use Rattle.std.specs.Int.{w32, to_le_bytes};
ghost use Rattle.std.specs.Io.KnownBytes.{Appends};
ghost use Rattle.sp_io.specs.Causes.{HasCause};
ghost use Rattle.sp_io.specs.Whole.{AppendsFront};
ghost use Rattle.sp_feed.specs.Spelling.{framed, frames_of};
ghost use Rattle.sp_feed.specs.Versions.{name};
ghost use Rattle.sp_feed.specs.declared.kind.Kind.TheVariants as kinds;
ghost use Rattle.spectre.specs.Sent.{blocks_text, said_block};

use sp_block::Block;
use sp_feed::name_of;
use sp_io::{Failed, Sink, write_whole};
use sp_model::Profile;

/// The front of a feed: the eight bytes of the profile, and the bits of work.
fn feed_front(profile: Profile, bits: u8) -> [u8; 9]
    ensures { result ≡ name profile ++ (bits ∷ []) }
{
    let mut front = [bits; 9];
    front[..8].copy_from_slice(&name_of(profile));
    front
}

/// The front of a frame: the letter of its kind, and the payload's length (4 bytes, the lowest
/// first).
fn frame_front(kind: u8, length: u32) -> [u8; 5]
    ensures { result ≡ kind ∷ to_le_bytes w32 length }
{
    let mut front = [kind; 5];
    front[1..].copy_from_slice(&length.to_le_bytes());
    front
}

/// Writes a frame.
fn write_frame<K: Sink>(kind: u8, payload: &[u8], sink: &mut K) -> Result<(), Failed>
    requires { length payload.now < 2 ^ 32 }
    ensures ok { OnOk result (Appends (K.taken sink.old) (K.taken sink.new)
        (kind ∷ (to_le_bytes w32 (length payload.now) ++ payload.now))) }
    ensures err { OnErr result (AppendsFront (K.taken sink.old) (K.taken sink.new)
        (kind ∷ (to_le_bytes w32 (length payload.now) ++ payload.now))) }
    ensures cause { HasCause (K.faults sink.old) (K.faults sink.new) result }
{
    let front = frame_front(kind, payload.len() as u32);
    write_whole(sink, &front)?;
    write_whole(sink, payload)
}

/// Writes the frame of a block.
fn write_block<K: Sink>(block: &Block, sink: &mut K) -> Result<(), Failed>
    ensures ok { OnOk result
        (Appends (K.taken sink.old) (K.taken sink.new) (framed kinds.Block block.now.bytes)) }
    ensures err { OnErr result
        (AppendsFront (K.taken sink.old) (K.taken sink.new) (framed kinds.Block block.now.bytes)) }
    ensures cause { HasCause (K.faults sink.old) (K.faults sink.new) result }
{
    write_frame(b'B', block.bytes.as_slice(), sink)
}

/// Writes the frames of blocks, and the frame that ends them.
fn write_blocks<K: Sink>(blocks: &[Block], sink: &mut K) -> Result<(), Failed>
    ensures ok { OnOk result (Appends (K.taken sink.old) (K.taken sink.new)
        (frames_of (map said_block blocks.now))) }
    ensures err { OnErr result (AppendsFront (K.taken sink.old) (K.taken sink.new)
        (frames_of (map said_block blocks.now))) }
    ensures cause { HasCause (K.faults sink.old) (K.faults sink.new) result }
{
    'each: for place in 0..blocks.len() {
        write_block(&blocks[place], sink)?;
    }
    write_frame(b'E', &[], sink)
}

/// Writes the feed of a genesis block and of blocks that are sent one after another, of this profile
/// and with these bits of work: frame by frame, and without taking memory.
///
/// # Errors
///
/// `Failed` where a call of the sink fails. The sink keeps what it took before.
pub fn write_feed<K: Sink>(
    profile: Profile,
    bits: u8,
    genesis: &Block,
    blocks: &[Block],
    sink: &mut K,
) -> Result<(), Failed>
    ensures ok { OnOk result (Appends (K.taken sink.old) (K.taken sink.new)
        (blocks_text profile bits genesis.now.bytes blocks.now)) }
    ensures err { OnErr result (AppendsFront (K.taken sink.old) (K.taken sink.new)
        (blocks_text profile bits genesis.now.bytes blocks.now)) }
    ensures cause { HasCause (K.faults sink.old) (K.faults sink.new) result }
{
    let front = feed_front(profile, bits);
    write_whole(sink, &front)?;
    write_block(genesis, sink)?;
    write_blocks(blocks, sink)
}
