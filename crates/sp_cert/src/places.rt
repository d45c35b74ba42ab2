//! The fields of a certificate's bytes, each taken whole and then judged, with the place of a fault.

ghost use Rattle.std.specs.Prelude.{◌≡◌, ◌≤◌, ◌<◌, ◌^◌, IfOk, IfSome, IsNone, length};
ghost use Rattle.sp_form.specs.Places.{placed};
ghost use Rattle.sp_form.specs.Values.{bytes_form};
ghost use Rattle.sp_cert.specs.Format.{
  block_form,
  blocks_form,
  count_form,
  cut,
  id_form,
  length_form,
  name_form,
  number_form,
  payload_form,
  profile_form,
  sign_form,
  world_form,
  worlds_form,
};
ghost use Rattle.sp_form.specs.Form.{rows};
ghost use Rattle.sp_cert.specs.Reading.{cert_steps, Finds};

use crate::cert::Cert;
use crate::fault::Stop;
use crate::world::{Votes, World, Worlds};
use sp_block::{Block, Blocks, ReadBlockFault, read_block};
use sp_form::{Fields, array_of};
use sp_ids::BlockId;
use sp_model::Profile;
use std::alloc::Global;
use std::marker::Model;

/// What is left of a certificate's bytes, and its place.
#[derive(Drop)]
pub(crate) struct Places<'a> {
    at: u32,
    fields: Fields<'a>,
}

impl<'a> Model for Places<'a> {
    ghost use Rattle.sp_form.specs.Places.{Input};
    ghost use Rattle.sp_cert.specs.Reading.{IsPlaced};

    ghost Value = { Input };

    ghost view = { λ p. record { at = p.at; bytes = p.fields } };

    ghost invariant = { λ p. IsPlaced (record { at = p.at; bytes = p.fields }) };
}

impl<'a> Places<'a> {
    /// All of these bytes, none taken yet.
    pub(crate) fn of(bytes: &'a [u8]) -> Places<'a>
        requires { length bytes.now < 2 ^ 32 }
        ensures { result ≡ record { at = 0; bytes = bytes.now } }
    {
        Places {
            at: 0,
            fields: Fields::of(bytes),
        }
    }

    /// The place of the next byte, where one is left.
    pub(crate) fn behind(&self) -> Option<u32>
        ensures left { IfSome result (λ at. (at ≡ self.now.at) × (0 < length self.now.bytes)) }
        ensures none { IsNone result → length self.now.bytes ≡ 0 }
    {
        if self.fields.is_empty() {
            None
        } else {
            Some(self.at)
        }
    }

    /// The next so many bytes.
    #[tactic(auto, unfolding(sp_form::specs::Places::placed))]
    fn field(&mut self, width: usize) -> Result<&'a [u8], Stop>
        ensures size { IfOk result (λ field. length field.now ≡ width) }
        ensures found { Finds (λ field. field.now) self.new result
            (placed (bytes_form width cut) self.old) }
    {
        match self.fields.take(width) {
            None => Err(Stop::Ended),
            Some(field) => {
                self.at += width as u32;
                Ok(field)
            }
        }
    }

    /// The name at the start.
    #[tactic(auto, unfolding(sp_form::specs::Places::placed))]
    fn name(&mut self) -> Result<[u8; 8], Stop>
        ensures { Finds (λ name. name) self.new result (placed name_form self.old) }
    {
        let start = self.at;
        let name: [u8; 8] = array_of(self.field(8)?);
        if name == *b"SPCTRC01" {
            Ok(name)
        } else {
            Err(Stop::Broken { at: start })
        }
    }

    /// The profile, 1 or 2.
    #[tactic(auto, unfolding(sp_form::specs::Places::placed))]
    fn profile(&mut self) -> Result<Profile, Stop>
        ensures { Finds (λ profile. profile) self.new result (placed profile_form self.old) }
    {
        let start = self.at;
        let byte = self.field(1)?[0];
        if byte == 1 {
            Ok(Profile::One)
        } else if byte == 2 {
            Ok(Profile::Two)
        } else {
            Err(Stop::Broken { at: start })
        }
    }

    /// A number of blocks or of worlds, from 1 to 512.
    #[tactic(auto, unfolding(sp_form::specs::Places::placed))]
    fn count(&mut self) -> Result<u16, Stop>
        ensures found { Finds (λ n. n) self.new result (placed count_form self.old) }
        ensures few { IfOk result (λ n. n ≤ 512) }
    {
        let start = self.at;
        let count = u16::from_le_bytes(array_of(self.field(2)?));
        if 1 <= count && count <= 512 {
            Ok(count)
        } else {
            Err(Stop::Broken { at: start })
        }
    }

    /// The length of a block.
    #[tactic(auto, unfolding(sp_form::specs::Places::placed))]
    fn length(&mut self) -> Result<u32, Stop>
        ensures { Finds (λ n. n) self.new result (placed length_form self.old) }
    {
        let start = self.at;
        let length = u32::from_le_bytes(array_of(self.field(4)?));
        if length <= 65_536 {
            Ok(length)
        } else {
            Err(Stop::Broken { at: start })
        }
    }

    /// The id of a block.
    #[tactic(auto, unfolding(sp_form::specs::Places::placed))]
    fn id(&mut self) -> Result<BlockId, Stop>
        ensures { Finds (λ id. id) self.new result (placed id_form self.old) }
    {
        Ok(BlockId::from_bytes(array_of(self.field(32)?)))
    }

    /// The number of a world.
    #[tactic(auto, unfolding(sp_form::specs::Places::placed))]
    fn number(&mut self) -> Result<u16, Stop>
        ensures { Finds (λ n. n) self.new result (placed number_form self.old) }
    {
        Ok(u16::from_le_bytes(array_of(self.field(2)?)))
    }

    /// A sign: 0 for -1, 1 for 0, 2 for +1.
    #[tactic(auto, unfolding(sp_form::specs::Places::placed))]
    fn sign(&mut self) -> Result<i8, Stop>
        ensures { Finds (λ sign. sign) self.new result (placed sign_form self.old) }
    {
        let start = self.at;
        let byte = self.field(1)?[0];
        if byte == 0 {
            Ok(-1)
        } else if byte == 1 {
            Ok(0)
        } else if byte == 2 {
            Ok(1)
        } else {
            Err(Stop::Broken { at: start })
        }
    }

    /// So many bytes, which spell a block, a genesis block or another one.
    fn payload(&mut self, alloc: Global, genesis: bool, length: u32) -> Result<Block, Stop>
        ensures { Finds (λ block. block) self.new result
            (placed (payload_form genesis length) self.old) }
    {
        let start = self.at;
        let bytes = self.field(length as usize)?;
        match read_block(alloc, bytes, genesis) {
            Ok(block) => Ok(block),
            Err(ReadBlockFault::Fault(_)) => Err(Stop::Broken { at: start }),
            Err(ReadBlockFault::Memory) => Err(Stop::Memory),
        }
    }

    /// A block's length and its bytes.
    #[tactic(auto, using(crate::proofs::PlacedRows::steps), unfolding(crate::specs::Format::block_form))]
    fn block(&mut self, alloc: Global, genesis: bool) -> Result<Block, Stop>
        ensures { Finds (λ block. block) self.new result
            (placed (block_form genesis) self.old) }
    {
        let length = self.length()?;
        self.payload(alloc, genesis, length)
    }

    /// So many blocks, the first of which is genesis.
    fn blocks(&mut self, alloc: Global, count: u16) -> Result<Blocks, Stop>
        ensures { Finds (λ blocks. blocks) self.new result (placed (blocks_form count) self.old) }
    {
        let mut blocks = Vec::new(alloc);
        let mut genesis = true;
        'places: for _ in 0..count {
            let block = self.block(alloc, genesis)?;
            genesis = false;
            blocks.push(block)?;
        }
        Ok(Blocks::of(blocks))
    }

    /// So many votes.
    fn votes(&mut self, alloc: Global, count: u16) -> Result<Votes, Stop>
        ensures { Finds (λ votes. votes) self.new result (placed (rows
            (λ (before : Unit {0}). sign_form) (λ before vote. before) count (tt {0})) self.old) }
    {
        let mut votes = Vec::new(alloc);
        'places: for _ in 0..count {
            let vote = self.sign()?;
            votes.push(vote)?;
        }
        Ok(Votes::of(votes))
    }

    /// A world's number, and a vote for each block.
    #[tactic(auto, using(crate::proofs::PlacedRows::steps), unfolding(crate::specs::Format::world_form))]
    fn world(&mut self, alloc: Global, blocks: u16) -> Result<World, Stop>
        ensures { Finds (λ world. world) self.new result (placed (world_form blocks) self.old) }
    {
        let number = self.number()?;
        let votes = self.votes(alloc, blocks)?;
        Ok(World { number, votes })
    }

    /// So many worlds.
    fn worlds(&mut self, alloc: Global, blocks: u16, count: u16) -> Result<Worlds, Stop>
        ensures { Finds (λ worlds. worlds) self.new result
            (placed (worlds_form blocks count) self.old) }
    {
        let mut worlds = Vec::new(alloc);
        'places: for _ in 0..count {
            let world = self.world(alloc, blocks)?;
            worlds.push(world)?;
        }
        Ok(Worlds::of(worlds))
    }

    /// All fields.
    pub(crate) fn cert(&mut self, alloc: Global) -> Result<Cert, Stop>
        ensures { Finds (λ cert. cert) self.new result (cert_steps self.old) }
    {
        let _name = self.name()?;
        let profile = self.profile()?;
        let count = self.count()?;
        let blocks = self.blocks(alloc, count)?;
        let x = self.id()?;
        let y = self.id()?;
        let sign = self.sign()?;
        let told = self.count()?;
        let worlds = self.worlds(alloc, count, told)?;
        Ok(Cert {
            profile,
            blocks,
            x,
            y,
            sign,
            worlds,
        })
    }
}
