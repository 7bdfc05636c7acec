ghost use Rattle.std.specs.Prelude.{◌≡◌};
ghost use Rattle.script_lang.specs.Forms as spec;

/// Whether words have a form.
#[derive(Clone, Copy, Debug, PartialEq, Eq)]
pub enum Fit {
    /// They have it.
    Fits,
    /// They have it, with a number past its limit.
    TooGreat,
    /// They don't.
    Unlike,
}

/// Whether both parts have their forms.
pub fn both(first: Fit, second: Fit) -> Fit
    ensures { result ≡ spec.both first second }
{
    match first {
        Fit::Fits => second,
        Fit::TooGreat => {
            match second {
                Fit::Unlike => Fit::Unlike,
                Fit::Fits => Fit::TooGreat,
                Fit::TooGreat => Fit::TooGreat,
            }
        }
        Fit::Unlike => Fit::Unlike,
    }
}

/// A fit where the condition holds, and else a bad shape.
pub fn fits_if(holds: bool) -> Fit
    ensures { result ≡ spec.fits_if holds }
{
    if holds { Fit::Fits } else { Fit::Unlike }
}

/// Whether a word is this text.
pub fn is(text: &str, word: &[u8]) -> bool
    ensures { result ≡ spec.is text.now word.now }
{
    word == text.as_bytes()
}
