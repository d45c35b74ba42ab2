//! Laws of the generator's definition alone. Each is the contract of a function that does nothing,
//! so that the check proves it.

ghost use Rattle.std.specs.Prelude.{◌≡◌, ◌++◌, ◌∷◌, [], codes};
ghost use Rattle.sp_make.specs.Draws.{draw};
ghost use Rattle.sp_make.specs.Made.{made};

/// The definition, computed on small numbers, gives what was worked out by hand.
pub fn worked_examples()
    ensures first_draw { draw 1 1 ≡ 1817669548 }
    ensures nothing { made 0 7 3 ≡ [] }
    ensures chain { made 3 0 1
        ≡ codes "block b1 on G" ++ 10 ∷ codes "block b2 on b1" ++ 10 ∷ codes "block b3 on b2" ++ 10 ∷ [] }
    ensures both_parents { made 2 1 2
        ≡ codes "block b1 on G" ++ 10 ∷ codes "block b2 on G b1" ++ 10 ∷ [] }
    ensures pair { made 8 0 1
        ≡ codes "grant g1 100 to a1" ++ 10 ∷ codes "tx p1 spends g1.0 pays 100 to x1"
        ++ 10 ∷ codes "tx q1 spends g1.0 pays 100 to y1"
        ++ 10 ∷ codes "block b1 on G" ++ 10 ∷ codes "block b2 on b1"
        ++ 10 ∷ codes "block b3 on b2" ++ 10 ∷ codes "block b4 on b3"
        ++ 10 ∷ codes "block b5 on b4" ++ 10 ∷ codes "block b6 on b5"
        ++ 10 ∷ codes "block b7 on b6 carries p1" ++ 10 ∷ codes "block b8 on b7 carries q1" ++ 10 ∷ [] }
{}
