//! Writing a certificate's bytes.

ghost use Rattle.std.specs.Prelude.{◌≡◌, ◌≤◌, ◌++◌, ◌∷◌, [], ℕ, All, length, OnErr, OnOk};
ghost use Rattle.std.specs.Int.{w16, to_le_bytes};
ghost use Rattle.std.specs.List.{flat_map};
ghost use Rattle.std.specs.Io.KnownBytes.{Appends};
ghost use Rattle.sp_io.specs.Causes.{HasCause};
ghost use Rattle.sp_io.specs.Whole.{AppendsFront, Wrote};
ghost use Rattle.sp_cert.specs.Certificate.{AreVotes, IsSign};
ghost use Rattle.sp_cert.specs.Format.{block_text, byte_of_profile, byte_of_sign, cert_text, claim_text, name, world_text};

use crate::cert::Cert;
use crate::world::World;
use sp_block::Block;
use sp_io::{Failed, Page, Sink};
use sp_model::Profile;

/// So many bytes are put on the page at a time, at most.
const PIECE: usize = 4096;

/// Writes bytes, however many, behind those that wait.
fn push_bytes<K: Sink>(bytes: &[u8], page: &mut Page, sink: &mut K) -> Result<(), Failed>
    ensures ok { OnOk result (Wrote (K.taken sink.old) (K.taken sink.new)
        (page.old ++ bytes.now) page.new) }
    ensures err { OnErr result (AppendsFront (K.taken sink.old) (K.taken sink.new)
        (page.old ++ bytes.now)) }
    ensures cause { HasCause (K.faults sink.old) (K.faults sink.new) result }
{
    let mut rest = bytes;
    'pieces: while PIECE < rest.len() {
        let (piece, behind) = rest.split_at(PIECE);
        page.push(piece, sink)?;
        rest = behind;
    }
    page.push(rest, sink)
}

/// The byte of a profile.
fn profile_byte(profile: Profile) -> u8
    ensures { result ≡ byte_of_profile profile }
{
    match profile {
        Profile::One => 1,
        Profile::Two => 2,
    }
}

/// The byte of a sign.
fn sign_byte(sign: i8) -> u8
    requires { IsSign sign }
    ensures { result ≡ byte_of_sign sign }
{
    if sign < 0 {
        0
    } else if sign == 0 {
        1
    } else {
        2
    }
}

/// The name, the profile, and the number of blocks.
fn cert_head(profile: Profile, blocks: u16) -> [u8; 11]
    ensures { result ≡ name ++ (byte_of_profile profile ∷ to_le_bytes w16 blocks) }
{
    let mut head = *b"SPCTRC01\0\0\0";
    head[8] = profile_byte(profile);
    head[9..].copy_from_slice(&blocks.to_le_bytes());
    head
}

/// Writes a block's length and bytes behind those that wait.
fn push_block<K: Sink>(block: &Block, page: &mut Page, sink: &mut K) -> Result<(), Failed>
    ensures ok { OnOk result (Wrote (K.taken sink.old) (K.taken sink.new)
        (page.old ++ block_text block.now) page.new) }
    ensures err { OnErr result (AppendsFront (K.taken sink.old) (K.taken sink.new)
        (page.old ++ block_text block.now)) }
    ensures cause { HasCause (K.faults sink.old) (K.faults sink.new) result }
{
    let bytes = block.bytes.as_slice();
    page.push(&(bytes.len() as u32).to_le_bytes(), sink)?;
    push_bytes(bytes, page, sink)
}

/// Writes blocks behind the bytes that wait.
fn push_blocks<K: Sink>(blocks: &[Block], page: &mut Page, sink: &mut K) -> Result<(), Failed>
    ensures ok { OnOk result (Wrote (K.taken sink.old) (K.taken sink.new)
        (page.old ++ flat_map block_text blocks.now) page.new) }
    ensures err { OnErr result (AppendsFront (K.taken sink.old) (K.taken sink.new)
        (page.old ++ flat_map block_text blocks.now)) }
    ensures cause { HasCause (K.faults sink.old) (K.faults sink.new) result }
{
    'places: for place in 0..blocks.len() {
        push_block(&blocks[place], page, sink)?;
    }
    Ok(())
}

/// Writes votes behind the bytes that wait, a byte for each.
fn push_votes<K: Sink>(votes: &[i8], page: &mut Page, sink: &mut K) -> Result<(), Failed>
    requires { All IsSign votes.now }
    ensures ok { OnOk result (Wrote (K.taken sink.old) (K.taken sink.new)
        (page.old ++ flat_map (λ vote. byte_of_sign vote ∷ []) votes.now) page.new) }
    ensures err { OnErr result (AppendsFront (K.taken sink.old) (K.taken sink.new)
        (page.old ++ flat_map (λ vote. byte_of_sign vote ∷ []) votes.now)) }
    ensures cause { HasCause (K.faults sink.old) (K.faults sink.new) result }
{
    'places: for place in 0..votes.len() {
        page.push(&[sign_byte(votes[place])], sink)?;
    }
    Ok(())
}

/// Writes a world's number and votes behind the bytes that wait.
fn push_world<K: Sink>(world: &World, page: &mut Page, sink: &mut K) -> Result<(), Failed>
    requires { All IsSign world.now.votes }
    ensures ok { OnOk result (Wrote (K.taken sink.old) (K.taken sink.new)
        (page.old ++ world_text world.now) page.new) }
    ensures err { OnErr result (AppendsFront (K.taken sink.old) (K.taken sink.new)
        (page.old ++ world_text world.now)) }
    ensures cause { HasCause (K.faults sink.old) (K.faults sink.new) result }
{
    page.push(&world.number.to_le_bytes(), sink)?;
    push_votes(world.votes.as_slice(), page, sink)
}

/// Writes worlds behind the bytes that wait.
fn push_worlds<K: Sink>(worlds: &[World], page: &mut Page, sink: &mut K) -> Result<(), Failed>
    requires { (n : ℕ) × All (AreVotes n) worlds.now }
    ensures ok { OnOk result (Wrote (K.taken sink.old) (K.taken sink.new)
        (page.old ++ flat_map world_text worlds.now) page.new) }
    ensures err { OnErr result (AppendsFront (K.taken sink.old) (K.taken sink.new)
        (page.old ++ flat_map world_text worlds.now)) }
    ensures cause { HasCause (K.faults sink.old) (K.faults sink.new) result }
{
    'places: for place in 0..worlds.len() {
        push_world(&worlds[place], page, sink)?;
    }
    Ok(())
}

/// Writes what stands between the blocks and the worlds: the two ids, the sign, and the number of
/// worlds.
fn push_claim<K: Sink>(cert: &Cert, page: &mut Page, sink: &mut K) -> Result<(), Failed>
    ensures ok { OnOk result (Wrote (K.taken sink.old) (K.taken sink.new)
        (page.old ++ claim_text cert.now) page.new) }
    ensures err { OnErr result (AppendsFront (K.taken sink.old) (K.taken sink.new)
        (page.old ++ claim_text cert.now)) }
    ensures cause { HasCause (K.faults sink.old) (K.faults sink.new) result }
{
    let worlds = cert.worlds.as_slice().len() as u16;
    page.push(cert.x.as_bytes(), sink)?;
    page.push(cert.y.as_bytes(), sink)?;
    page.push(&[sign_byte(cert.sign)], sink)?;
    page.push(&worlds.to_le_bytes(), sink)
}

/// Writes all bytes of a certificate, through a page of 4,096 bytes and without taking memory.
///
/// # Errors
///
/// `Failed` where a call of the sink fails. The sink keeps what it took before.
pub fn write_cert<K: Sink>(cert: &Cert, sink: &mut K) -> Result<(), Failed>
    ensures ok { OnOk result (Appends (K.taken sink.old) (K.taken sink.new) (cert_text cert.now)) }
    ensures err { OnErr result
        (AppendsFront (K.taken sink.old) (K.taken sink.new) (cert_text cert.now)) }
    ensures cause { HasCause (K.faults sink.old) (K.faults sink.new) result }
{
    let blocks = cert.blocks.as_slice();
    let worlds = cert.worlds.as_slice();
    let mut page = Page::new();
    page.push(&cert_head(cert.profile, blocks.len() as u16), sink)?;
    push_blocks(blocks, &mut page, sink)?;
    push_claim(cert, &mut page, sink)?;
    push_worlds(worlds, &mut page, sink)?;
    page.flush(sink)
}
