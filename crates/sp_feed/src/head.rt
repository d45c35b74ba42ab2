//! What stands before a feed's frames.

use sp_block::Block;
use sp_model::Profile;
use std::marker::Model;

/// The head of a feed: the profile, the bits of work that its blocks have to show, 0 to 64, and its
/// genesis block. It is written as eight bytes, `SPCTRF01` for profile 1 or `SPCTRF02` for profile 2,
/// the bits (1 byte), and a frame `B` with the genesis block's bytes (docs/FORMATS.md, "Feeds").
#[derive(Debug, Drop)]
pub struct FeedHead {
    pub profile: Profile,
    pub bits: u8,
    pub genesis: Block,
}

impl Model for FeedHead {
    ghost use Rattle.sp_feed.specs.Genesis.{IsHead, ReadHead};

    ghost Value = { ReadHead };

    ghost view = { λ h. record { profile = h.profile; bits = h.bits; genesis = h.genesis } };

    ghost invariant = { λ h. IsHead (record { profile = h.profile; bits = h.bits; genesis = h.genesis }) };
}
