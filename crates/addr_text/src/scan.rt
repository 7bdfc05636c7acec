ghost use Rattle.std.specs.Prelude.{◌≡◌, ◌<◌, [], ◌∷◌, MatchOption, ⊤, ◌+◌, ◌==◌, ◌&&◌, slice_index, length, Some, None};
ghost use Rattle.addr_text.specs.AddressGrammar as spec;

/// What stands before and after the first separator.
pub fn split_once(text: &[u8], separator: u8) -> Option<(&[u8], &[u8])>
    ensures parts { MatchOption result (spec.parts separator text.now ≡ text.now ∷ [])
        (λ halves. spec.parts separator text.now ≡ halves.0.now ∷ spec.parts separator halves.1.now) }
    ensures shorter { MatchOption result ⊤ (λ halves. length halves.1.now < length text.now) }
{
    'places: for place in 0..text.len() {
        if text[place] == separator {
            let (front, rest) = text.split_at(place);
            let (_, back) = rest.split_at(1);
            return Some((front, back));
        }
    }
    None
}

/// What stands before and after the first `::`.
pub fn split_double_colon(text: &[u8]) -> Option<(&[u8], &[u8])>
    ensures { MatchOption result (spec.at_double_colon text.now ≡ None) (λ halves. spec.at_double_colon text.now ≡ Some (halves.0.now, halves.1.now)) }
{
    let last = text.len().saturating_sub(1);
    'places: for place in 0..last {
        if is_double_colon(text, place) {
            let (front, rest) = text.split_at(place);
            let (_, back) = rest.split_at(2);
            return Some((front, back));
        }
    }
    None
}

// Whether two colons stand at the place.
fn is_double_colon(text: &[u8], place: usize) -> bool
    requires { place + 1 < length text.now }
    ensures { result ≡ (slice_index text.now place == 58 && slice_index text.now (place + 1) == 58) }
{
    text[place] == b':' && text[place + 1] == b':'
}

/// Whether the text has a point, as an IPv4 text has.
pub fn is_dotted(text: &[u8]) -> bool
    ensures { result ≡ spec.is_dotted text.now }
{
    text.iter().any(|c| *c == b'.')
}
