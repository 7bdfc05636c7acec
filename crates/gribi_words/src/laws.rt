//! A law of words. It is the contract of a function that does nothing: to call it is to cite the law.
ghost use Rattle.std.specs.Prelude.{◌≡◌, ℕ, List, Some};
ghost use Rattle.gribi_words.specs.Grammar.{options};
ghost use Rattle.gribi_words.specs.Spelling.{AreWritten};

/// Options are read from words exactly where the words write them, one after another.
#[tactic(auto, using(crate::proofs::Spelling::read, crate::proofs::Spelling::written))]
pub fn written_options_are_read()
    ensures read { (given : List (List ℕ × List ℕ)) (words : List (List ℕ)) → AreWritten given words → options words ≡ Some given }
    ensures written { (given : List (List ℕ × List ℕ)) (words : List (List ℕ)) → options words ≡ Some given → AreWritten given words }
{}
