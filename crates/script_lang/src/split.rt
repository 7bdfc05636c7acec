ghost use Rattle.std.specs.Prelude.{◌≡◌, ◌<◌, [], ◌∷◌, MatchOption, ⊤, length};
ghost use Rattle.script_lang.specs.Words.{ended_by};

/// The first piece that the mark ends, and what stands behind the mark; the last piece may lack it.
#[tactic(auto, using(crate::proofs::Pieces::pieces_start, crate::proofs::Pieces::pieces_more, crate::proofs::Pieces::pieces_found))]
pub fn split_piece(text: &[u8], mark: u8) -> Option<(&[u8], &[u8])>
    ensures pieces { MatchOption result (text.now ≡ [])
        (λ halves. ended_by mark text.now ≡ halves.0.now ∷ ended_by mark halves.1.now) }
    ensures shorter { MatchOption result ⊤ (λ halves. length halves.1.now < length text.now) }
{
    if text.is_empty() {
        return None;
    }
    'places: for place in 0..text.len() {
        if text[place] == mark {
            let (front, rest) = text.split_at(place);
            let (_, back) = rest.split_at(1);
            return Some((front, back));
        }
    }
    Some(text.split_at(text.len()))
}
