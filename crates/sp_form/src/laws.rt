//! The laws of every format, for which no call is needed.

ghost use Rattle.std.specs.Prelude.{◌≡◌, ◌++◌, ◌⊎◌, ℕ, List};
ghost use Rattle.sp_form.specs.Form.{Begins, Form, HasFault, Spells};

/// A list spells at most one value, and no spelling is a proper front of another's.
pub fn one_value<E, A>()
    ensures { (form : Form E A) (a b r s : List ℕ) (x y : A) → Spells form a x → Spells form b y
        → a ++ r ≡ b ++ s → (a ≡ b) × (x ≡ y) }
{}

/// A list begins with a spelled value or has a first fault, never both, and one fault alone.
pub fn one_first_fault<E, A>()
    ensures either { (form : Form E A) (list : List ℕ)
        → Begins form list ⊎ ((fault : E) × HasFault form list fault) }
    ensures apart { (form : Form E A) (list : List ℕ) (fault : E) → Begins form list
        → HasFault form list fault → ⊥ }
    ensures one { (form : Form E A) (list : List ℕ) (f g : E) → HasFault form list f
        → HasFault form list g → f ≡ g }
{}
