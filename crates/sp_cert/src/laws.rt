//! Laws of certificates, over the definitions alone. Each is the contract of a function that does
//! nothing, so that the check proves it.

ghost use Rattle.std.specs.Prelude.{◌≡◌, ◌++◌, [], ◌∷◌, ℕ, List, None, Some, length};
ghost use Rattle.sp_form.specs.Bytes.{IsBytes};
ghost use Rattle.sp_cert.specs.Entries.{whole_number};
ghost use Rattle.sp_cert.specs.Certificate.{Certificate, IsCertificate};
ghost use Rattle.sp_cert.specs.Refusals.{IsShown, refusal};
ghost use Rattle.sp_cert.specs.Format.{cert_text, FitsBytes, Malformed, said, Truncated, Whole};
ghost use Rattle.sp_cert.specs.Texts.{certificate, front};
ghost use Rattle.sp_cert.specs.Examples.{block, chain, claims, diamond, first, second, settles, tie, two_on_genesis, world};
ghost use Rattle.sp_cert.specs.declared.fault.CheckFault.TheVariants.{Pair, Parent, Sum, Vote, World};

/// Where nothing refuses a certificate, its blocks are all present, and their virtual vote on the two is
/// its sign.
pub fn soundness()
    ensures { (c : Certificate) → IsCertificate c → refusal c ≡ None → IsShown c }
{}

/// What refuses certificates that were worked out by hand.
#[tactic(auto, unfolding(crate::specs::Refusals::refusal, sp_model::specs::Graph::in_past, sp_model::specs::Graph::reaches_within))]
pub fn worked_examples()
    ensures tie_shown { refusal (claims two_on_genesis 11 12 tie
        (world whole_number (tie ∷ first ∷ second ∷ []) ∷ [])) ≡ None }
    ensures wrong_genesis { refusal (claims two_on_genesis 11 12 tie
        (world whole_number (tie ∷ first ∷ first ∷ []) ∷ [])) ≡ Some (Vote 0 0) }
    ensures wrong_sum { refusal (claims two_on_genesis 11 12 first
        (world whole_number (tie ∷ first ∷ second ∷ []) ∷ [])) ≡ Some Sum }
    ensures ancestor_first { refusal (claims chain 10 12 first
        (world whole_number (first ∷ first ∷ first ∷ []) ∷ [])) ≡ None }
    ensures tie_in_a_past { refusal (claims diamond 11 12 tie
        (world whole_number (tie ∷ first ∷ second ∷ tie ∷ [])
        ∷ world 3 (tie ∷ first ∷ second ∷ tie ∷ []) ∷ [])) ≡ None }
    ensures tie_settled { refusal (settles diamond 11 12 first
        (world whole_number (first ∷ first ∷ second ∷ first ∷ [])
        ∷ world 3 (tie ∷ first ∷ second ∷ tie ∷ []) ∷ [])) ≡ None }
    ensures tie_kept_in_profile_2 { refusal (settles diamond 11 12 tie
        (world whole_number (tie ∷ first ∷ second ∷ tie ∷ [])
        ∷ world 3 (tie ∷ first ∷ second ∷ tie ∷ []) ∷ [])) ≡ Some (Vote 0 3) }
    ensures tie_settled_in_profile_1 { refusal (claims diamond 11 12 first
        (world whole_number (first ∷ first ∷ second ∷ first ∷ [])
        ∷ world 3 (tie ∷ first ∷ second ∷ tie ∷ []) ∷ [])) ≡ Some (Vote 0 3) }
    ensures world_missing { refusal (claims diamond 11 12 tie
        (world whole_number (tie ∷ first ∷ second ∷ tie ∷ []) ∷ [])) ≡ Some (World 1) }
    ensures world_too_many { refusal (claims chain 10 12 first
        (world whole_number (first ∷ first ∷ first ∷ []) ∷ world 2 (first ∷ first ∷ first ∷ []) ∷ [])) ≡ Some (World 1) }
    ensures outside { refusal (claims diamond 11 12 second
        (world whole_number (second ∷ first ∷ second ∷ second ∷ [])
        ∷ world 3 (tie ∷ first ∷ second ∷ second ∷ []) ∷ [])) ≡ Some (Vote 1 3) }
    ensures same_block { refusal (claims chain 12 12 tie
        (world whole_number (tie ∷ tie ∷ tie ∷ []) ∷ [])) ≡ Some Pair }
    ensures late_parent { refusal (claims (block 10 [] ∷ block 12 (11 ∷ []) ∷ block 11 (10 ∷ []) ∷ []) 10 11 first
        []) ≡ Some (Parent 1) }
    ensures id_again { refusal (claims (block 10 [] ∷ block 11 (10 ∷ []) ∷ block 10 (11 ∷ []) ∷ []) 10 11 first
        []) ≡ Some (Parent 2) }
{}

/// What `write_cert` writes says the certificate again.
pub fn written_is_read()
    ensures { (c : Certificate) → IsCertificate c → FitsBytes c → said (cert_text c) ≡ Whole c }
{}

/// What bytes say is a certificate.
pub fn read_is_certificate()
    ensures { (bytes : List ℕ) (c : Certificate) → said bytes ≡ Whole c → IsCertificate c }
{}

/// Bytes that say a certificate are its text.
pub fn one_text()
    ensures { (bytes : List ℕ) (c : Certificate) → IsBytes bytes → said bytes ≡ Whole c → bytes ≡ cert_text c }
{}

/// What bytes say that were worked out by hand.
#[tactic(auto, unfolding(crate::specs::Format::said, crate::specs::Format::cert_text, sp_ids::specs::Key::bytes_of, sp_ids::specs::Key::number_of, crate::specs::Format::cert_form, crate::specs::Format::block_form, crate::specs::Format::world_form, sp_form::specs::Form::bind, sp_form::specs::Form::rows, sp_form::specs::Places::placed, sp_engine::specs::Blocks::block_in, sp_form::specs::Reading::read, sp_block::specs::Format::block_form, sp_block::specs::Format::carried_form))]
pub fn worked_texts()
    ensures long { length front ≡ 218 }
    ensures ends_early { said front ≡ Truncated 218 }
    ensures vote_of_three { said (front ++ 3 ∷ []) ≡ Malformed 218 }
    ensures empty { said [] ≡ Truncated 0 }
    ensures another_name { said (83 ∷ 80 ∷ 67 ∷ 84 ∷ 82 ∷ 70 ∷ 48 ∷ 49 ∷ []) ≡ Malformed 0 }
    ensures written { cert_text certificate ≡ front ++ 2 ∷ [] }
    ensures byte_behind { said (front ++ 2 ∷ 0 ∷ []) ≡ Malformed 219 }
{}
