//! The laws of the format, for which no call is needed.

ghost use Rattle.std.specs.Prelude.{◌≡◌, ◌≤◌, ◌++◌, ◌↔◌, ◌⊎◌, false, true, Bool, ℕ, List, length};
ghost use Rattle.sp_form.specs.Bytes.{IsBytes};
ghost use Rattle.sp_block.specs.Block.{IsBlock, IsGenesis, IsOther, ReadBlock};
ghost use Rattle.sp_block.specs.Format.{Parts};
ghost use Rattle.sp_block.specs.Judged.{BlockIsSpelled, WorkIsMet};
ghost use Rattle.sp_block.specs.Spelling.{block_text, HasBlockFault, IsSpellable, SpellsBlock};
ghost use Rattle.sp_block.specs.declared.fault.BlockFault.{BlockFault};
ghost use Rattle.sp_block.specs.declared.fault.BlockFault.TheVariants.{ParentCount};

/// A list spells at most one block of a kind, and no spelling is a proper front of another's.
pub fn one_block()
    ensures { (genesis : Bool) (a b r s : List ℕ) (p q : Parts) → SpellsBlock a genesis p → SpellsBlock b genesis q
        → a ++ r ≡ b ++ s → (a ≡ b) × (p ≡ q) }
{}

/// Parts that meet the rules have one spelling, and no others have any.
pub fn one_spelling()
    ensures is_spelled { (genesis : Bool) (parts : Parts) → IsSpellable genesis parts → SpellsBlock (block_text parts) genesis parts }
    ensures only { (list : List ℕ) (genesis : Bool) (parts : Parts) → IsBytes list → SpellsBlock list genesis parts
        → IsSpellable genesis parts × (list ≡ block_text parts) }
{}

/// A list spells a block or has a first fault, never both, and one fault alone.
pub fn one_first_fault()
    ensures either { (list : List ℕ) (genesis : Bool)
        → ((parts : Parts) × SpellsBlock list genesis parts) ⊎ ((fault : BlockFault) × HasBlockFault list genesis fault) }
    ensures apart { (list : List ℕ) (genesis : Bool) (parts : Parts) (fault : BlockFault) → SpellsBlock list genesis parts
        → HasBlockFault list genesis fault → ⊥ }
    ensures one { (list : List ℕ) (genesis : Bool) (f g : BlockFault) → HasBlockFault list genesis f
        → HasBlockFault list genesis g → f ≡ g }
{}

/// The bytes of a genesis block read as another one, and the other way round, have the fault of the
/// count of parents. So a list spells at most one block, of one kind.
pub fn kinds_are_told_apart()
    ensures genesis { (list : List ℕ) (parts : Parts) → IsBytes list → SpellsBlock list true parts
        → HasBlockFault list false ParentCount }
    ensures other { (list : List ℕ) (parts : Parts) → IsBytes list → SpellsBlock list false parts
        → HasBlockFault list true ParentCount }
    ensures one { (list : List ℕ) (g h : Bool) (p q : Parts) → IsBytes list → SpellsBlock list g p
        → SpellsBlock list h q → (g ≡ h) × (p ≡ q) }
{}

/// A block is a genesis block exactly where it has no parents, else it is another one, with 1 to 64
/// parents.
pub fn kinds_by_parents()
    ensures genesis { (b : ReadBlock) → IsBlock b → IsGenesis b ↔ (length b.parents ≡ 0) }
    ensures other { (b : ReadBlock) → IsBlock b → IsOther b ↔ ((1 ≤ length b.parents) × (length b.parents ≤ 64)) }
    ensures either { (b : ReadBlock) → IsBlock b → IsGenesis b ⊎ IsOther b }
{}

/// The test of a block's bytes is what the format says, and that of an id what the rule says.
pub fn blocks_are_judged()
    ensures spelled { BlockIsSpelled }
    ensures work { WorkIsMet }
{}
