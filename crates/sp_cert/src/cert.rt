//! A certificate: the blocks, the two that are asked for, the sign that is claimed, and the votes
//! that show it.

use crate::world::Worlds;
use sp_block::Blocks;
use sp_ids::BlockId;
use sp_model::Profile;
use std::marker::Model;

/// What shows the virtual vote of some blocks on two of them, entry by entry. Its bytes stand in
/// docs/FORMATS.md under "Certificates".
#[derive(Debug, Drop)]
pub struct Cert {
    pub profile: Profile,
    /// From 1 to 512, genesis first, each behind its parents.
    pub blocks: Blocks,
    pub x: BlockId,
    pub y: BlockId,
    /// -1 for x first, 0 for a tie, +1 for y first.
    pub sign: i8,
    /// From 1 to 512, each with a vote for each block.
    pub worlds: Worlds,
}

impl Model for Cert {
    ghost use Rattle.sp_cert.specs.Certificate.{Certificate, IsCertificate};

    ghost Value = { Certificate };

    ghost view = { λ c. record { profile = c.profile; blocks = c.blocks; x = c.x; y = c.y; sign = c.sign; worlds = c.worlds } };

    ghost invariant = { λ c. IsCertificate (record { profile = c.profile; blocks = c.blocks; x = c.x; y = c.y; sign = c.sign; worlds = c.worlds }) };
}
