//! Laws of the journal's definitions alone. Each is the contract of a function that does nothing, so
//! that the check proves it.

ghost use Rattle.std.specs.Prelude.{◌≡◌, ◌++◌, ◌∷◌, [], take, replicate, codes};
ghost use Rattle.sp_model.specs.declared.profile.Profile.TheVariants.{One, Two};
ghost use Rattle.sp_journal.specs.Examples as example;
ghost use Rattle.sp_journal.specs.Laws.{JournalIsWritten};
ghost use Rattle.sp_journal.specs.Records.{Damaged, Faulty, Found, NoJournal, records, rows, Sound};

/// Bytes hold a journal exactly where they are its head, the records of its blocks in their order, a
/// closed gate, and anything.
pub fn journals_are_written()
    ensures { JournalIsWritten }
{}

/// The definition, computed on the smallest journal and on changes of it, gives what was worked out by
/// hand. The head has 34 bytes, so the first record's gate stands at 34.
pub fn worked_examples()
    ensures smallest { records (example.head ++ 0 ∷ []) ≡ Found (example.empty_journal One) }
    ensures behind_a_closed_gate { records (example.head ++ 7 ∷ 165 ∷ 1 ∷ 2 ∷ []) ≡ Found (example.empty_journal One) }
    ensures nothing { records [] ≡ NoJournal }
    ensures cut_head { records (take 33 example.head) ≡ NoJournal }
    ensures closed_head { records (example.head_with 164 (codes "SPCTRJ01") 0 ++ 0 ∷ []) ≡ NoJournal }
    ensures second_profile { records (example.head_with 165 (codes "SPCTRJ02") 0 ++ 0 ∷ []) ≡ Found (example.empty_journal Two) }
    ensures other_name { records (example.head_with 165 (codes "SPCTRJ03") 0 ++ 0 ∷ []) ≡ NoJournal }
    ensures many_bits { records (example.head_with 165 (codes "SPCTRJ01") 65 ++ 0 ∷ []) ≡ NoJournal }
    ensures no_gate { records example.head ≡ Damaged 34 }
    ensures no_length { records (example.head ++ 165 ∷ 52 ∷ 0 ∷ []) ≡ Damaged 34 }
    ensures long_record { records (example.head ++ 165 ∷ 1 ∷ 0 ∷ 1 ∷ 0 ∷ []) ≡ Damaged 34 }
    ensures cut_record { records (example.head ++ take 56 example.record_of_child) ≡ Damaged 34 }
    ensures genesis_again { records (example.head ++ 165 ∷ (example.sized_genesis ++ 0 ∷ [])) ≡ Damaged 34 }
    ensures no_room { rows 0 0 [] 9 (example.record_of_child ++ 0 ∷ []) ≡ Faulty 9 }
    ensures full { rows 0 0 [] 9 (0 ∷ []) ≡ Sound [] }
{}
