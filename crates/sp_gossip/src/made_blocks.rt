//! The made blocks by their names, for a script with many lines `give`. Names come from strangers, so
//! their numbers are kept in an ordered map, and no choice of names makes a look-up slow.

ghost use Rattle.std.specs.Prelude.{◌≡◌, ◌+◌, ◌<◌, IfOk, IfSome, length, OnOk, position, take};
ghost use Rattle.sp_gossip.specs.Named.{AreNumbered};
ghost use Rattle.sp_play.specs.Commands.{is_word};

use crate::script_line::Made;
use sp_ids::Memory;
use sp_names::Name;
use std::alloc::Global;
use std::collections::BTreeMap;
use std::marker::Model;

/// The most bytes of a name.
const LONGEST: usize = 64;

/// Made blocks, with the numbers of their names. Contracts see the blocks.
#[derive(Drop)]
pub(crate) struct MadeBlocks<'a> {
    list: &'a [Made],
    numbers: BTreeMap<Name, usize>,
}

impl<'a> Model for MadeBlocks<'a> {
    ghost use Rattle.std.specs.Prelude.{List};
    ghost use Rattle.sp_gossip.specs.Named.{AreNumbered};
    ghost use Rattle.sp_gossip.specs.declared.script_line.Made.{Made};

    ghost Value = { List Made };

    ghost view = { λ blocks. blocks.list.now };

    ghost invariant = { λ blocks. AreNumbered blocks.numbers blocks.list.now };
}

// Notes the number of a name behind those of the blocks before it, unless one of these has the name.
fn note(numbers: &mut BTreeMap<Name, usize>, blocks: &[Made], number: usize) -> Result<(), Memory>
    requires within { number < length blocks.now }
    requires before { AreNumbered numbers.old (take number blocks.now) }
    ensures { OnOk result (AreNumbered numbers.new (take (number + 1) blocks.now)) }
{
    let made = &blocks[number];
    let text = made.name.as_slice();
    if numbers.contains_key(&made.name) {
        return Ok(());
    }
    numbers.insert(Name::of(text), number)?;
    Ok(())
}

impl<'a> MadeBlocks<'a> {
    /// These blocks, with the numbers of their names. The time is that of as many look-ups in an ordered
    /// map.
    ///
    /// # Errors
    ///
    /// `Memory` where a number found none.
    pub(crate) fn of(alloc: Global, list: &'a [Made]) -> Result<MadeBlocks<'a>, Memory>
        ensures { IfOk result (λ blocks. blocks ≡ list.now) }
    {
        let mut numbers = BTreeMap::new(alloc);
        'blocks: for number in 0..list.len() {
            note(&mut numbers, list, number)?;
        }
        Ok(MadeBlocks { list, numbers })
    }

    /// The number of the first block of a name. The time is that of a look-up in an ordered map.
    pub(crate) fn named(&self, name: &[u8]) -> Option<usize>
        ensures number { result ≡ position (λ made. is_word made.name name.now) self.now }
        ensures within { IfSome result (λ number. number < length self.now) }
    {
        let numbers = &self.numbers;
        if name.is_empty() || name.len() > LONGEST {
            return None;
        }
        numbers.get(&Name::of(name)).copied()
    }
}
