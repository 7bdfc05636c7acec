//! What matching means. The law is the contract of a function that does nothing: to call it is to cite the law.
ghost use Rattle.std.specs.Prelude.{◌≡◌, true};
ghost use Rattle.line_verdicts.specs.Seen.{seen_words};
ghost use Rattle.line_verdicts.specs.Verdicts.{matches};
ghost use Rattle.line_verdicts.specs.declared.seen.Seen.{Seen};

/// A line with the words of an item expects that item.
pub fn items_match_their_words()
    ensures { (item : Seen) → matches (seen_words item) item ≡ true }
{}
