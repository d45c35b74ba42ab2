//! Laws of the format, which no call is needed for.

ghost use Rattle.std.specs.Prelude.{◌≡◌, ◌≤◌, ◌++◌, ◌↔◌, ◌⊎◌, ℕ, List, length};
ghost use Rattle.sp_form.specs.Bytes.{IsBytes};
ghost use Rattle.sp_tx.specs.Parts.{Transaction};
ghost use Rattle.sp_tx.specs.Spelling.{BeginsWithTx, HasTxFault, IsTx, SpellsTx, spelling};
ghost use Rattle.sp_tx.specs.declared.fault.TxFault.{TxFault};

/// A list spells at most one transaction, and no spelling is a proper front of another's.
pub fn no_spelling_begins_another()
    ensures { (a b r s : List ℕ) (t u : Transaction) → SpellsTx a t → SpellsTx b u
        → a ++ r ≡ b ++ s → (a ≡ b) × (t ≡ u) }
{}

/// A transaction that meets the rules has one spelling, of at most 2,210 bytes, and no other has
/// any.
pub fn one_spelling()
    ensures is_spelled { (t : Transaction) → IsTx t → SpellsTx (spelling t) t }
    ensures only { (list : List ℕ) (t : Transaction) → IsBytes list → SpellsTx list t
        → IsTx t × (list ≡ spelling t) }
    ensures short { (t : Transaction) → IsTx t → length (spelling t) ≤ 2210 }
{}

/// A list begins with a transaction or has a first fault, never both, and one fault alone.
pub fn one_first_fault()
    ensures either { (list : List ℕ)
        → BeginsWithTx list ⊎ ((fault : TxFault) × HasTxFault list fault) }
    ensures apart { (list : List ℕ) (fault : TxFault) → BeginsWithTx list
        → HasTxFault list fault → ⊥ }
    ensures one { (list : List ℕ) (f g : TxFault) → HasTxFault list f → HasTxFault list g
        → f ≡ g }
{}
