// Which texts are numbers, and where another text leaves their grammar.
ghost use Rattle.std.specs.Prelude.{ℕ, ◌≡◌, ◌≤◌, ◌<◌, ◌↔◌, length, IsOk, IsTrue, IfErr};
ghost use Rattle.irr_grammar.specs.ShapePlace.{IsShapePlace};
ghost use Rattle.irr_numeral.specs.Front.{behind_coefficient, ends_text, kind_of, next_front};
ghost use Rattle.irr_numeral.specs.WrittenNumber.{IsNumber};

// The kinds of bytes that a number's text tells apart.
#[derive(Clone, Copy)]
enum Kind {
    Minus,
    Plus,
    Slash,
    Star,
    Letter,
    Caret,
    Nought,
    Digit,
    Other,
}

// The kind of a byte.
fn kind_of_byte(byte: u8) -> Kind
    ensures { result ≡ kind_of byte }
{
    match byte {
        b'-' => Kind::Minus,
        b'+' => Kind::Plus,
        b'/' => Kind::Slash,
        b'*' => Kind::Star,
        b'z' => Kind::Letter,
        b'^' => Kind::Caret,
        b'0' => Kind::Nought,
        b'1'..=b'9' => Kind::Digit,
        _ => Kind::Other,
    }
}

// Where a front of a number's text ends: before it, behind the text `0`, or in a term behind a sign, in the
// numerator, behind the slash, behind the denominator 0 or in another, behind `*`, `*z`, `*z^`, or in the
// exponent. The flag says whether a term stands before this one.
#[derive(Clone, Copy)]
enum Front {
    Start,
    Zero,
    Sign(bool),
    Numerator(bool),
    Over(bool),
    OverZero(bool),
    Denominator(bool),
    Times,
    Root,
    Power,
    Exponent,
}

// Behind a coefficient comes `*z^`, or the sign of another term where this one is the first.
fn behind_coefficient(later: bool, kind: Kind) -> Option<Front>
    ensures { result ≡ behind_coefficient later kind }
{
    match kind {
        Kind::Star => Some(Front::Times),
        Kind::Plus | Kind::Minus if !later => Some(Front::Sign(true)),
        _ => None,
    }
}

impl Front {
    // Where the front ends with one byte more, if it still begins a number's text.
    fn next(self, kind: Kind) -> Option<Front>
        ensures { result ≡ next_front self kind }
    {
        match (self, kind) {
            (Front::Start, Kind::Minus) => Some(Front::Sign(false)),
            (Front::Start, Kind::Nought) => Some(Front::Zero),
            (Front::Start, Kind::Digit) => Some(Front::Numerator(false)),
            (Front::Sign(later), Kind::Digit) => Some(Front::Numerator(later)),
            (Front::Numerator(later), Kind::Nought | Kind::Digit) => Some(Front::Numerator(later)),
            (Front::Numerator(later), Kind::Slash) => Some(Front::Over(later)),
            (Front::Over(later), Kind::Nought) => Some(Front::OverZero(later)),
            (Front::Over(later), Kind::Digit) => Some(Front::Denominator(later)),
            (Front::Denominator(later), Kind::Nought | Kind::Digit) => {
                Some(Front::Denominator(later))
            }
            (Front::Numerator(later) | Front::OverZero(later) | Front::Denominator(later), kind) =>
                { behind_coefficient(later, kind) }
            (Front::Times, Kind::Letter) => Some(Front::Root),
            (Front::Root, Kind::Caret) => Some(Front::Power),
            (Front::Power | Front::Exponent, Kind::Digit) | (Front::Exponent, Kind::Nought) => {
                Some(Front::Exponent)
            }
            (Front::Exponent, Kind::Plus | Kind::Minus) => Some(Front::Sign(true)),
            _ => None,
        }
    }

    // Whether the front is a number's whole text.
    fn ends(self) -> bool
        ensures { result ≡ ends_text self }
    {
        match self {
            Front::Zero | Front::Exponent => true,
            Front::Numerator(later) | Front::OverZero(later) | Front::Denominator(later) => !later,
            _ => false,
        }
    }
}

/// Whether the text is in the grammar of numbers, the rule aside that exponents increase: else the place
/// where it leaves this grammar.
pub(crate) fn check_shape(text: &[u8]) -> Result<(), usize>
    ensures number { IsOk result ↔ IsNumber text.now }
    ensures place { IfErr result (λ n. IsShapePlace IsNumber text.now n) }
{
    let mut front = Front::Start;
    for (place, byte) in text.iter().enumerate() {
        front = match front.next(kind_of_byte(*byte)) {
            Some(next) => next,
            None => return Err(place),
        };
    }
    if front.ends() {
        Ok(())
    } else {
        Err(text.len())
    }
}
