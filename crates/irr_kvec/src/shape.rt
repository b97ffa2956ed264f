// The grammar of wave vectors, told from left to right.
ghost use Rattle.std.specs.Prelude.{◌≡◌, IsOk, IfErr, ◌↔◌};
ghost use Rattle.irr_grammar.specs.ShapePlace.{IsShapePlace};
ghost use Rattle.irr_token.specs.Kinds.{kind_of};
ghost use Rattle.irr_kvec.specs.WaveFront.{sort_of, next_front, behind_comma, rests_front, front_after, ends_wave, ends_front};
ghost use Rattle.irr_kvec.specs.WrittenWave.{IsWave};

use irr_token::{Kind, kind_of_byte};

// The sorts of tokens that a wave vector's text tells apart.
#[derive(Clone, Copy)]
enum Sort {
    Number,
    Sign,
    Slash,
    Comma,
    Other,
}

// The sort of a mark.
fn sort_of_mark(byte: u8) -> Sort
    ensures { result ≡ sort_of byte }
{
    match byte {
        b'+' | b'-' => Sort::Sign,
        b'/' => Sort::Slash,
        b',' => Sort::Comma,
        _ => Sort::Other,
    }
}

// A component of a wave vector.
#[derive(Clone, Copy)]
enum Part {
    First,
    Second,
    Third,
}

// Where a front of a wave vector's text ends: before a component, or in it behind the sign, the numerator, the
// slash or the denominator.
#[derive(Clone, Copy)]
enum Front {
    Start(Part),
    Signed(Part),
    Numerator(Part),
    Over(Part),
    Denominator(Part),
}

// Behind a comma the next component begins, if there is one.
fn behind_comma(part: Part) -> Option<Front>
    ensures { result ≡ behind_comma part }
{
    match part {
        Part::First => Some(Front::Start(Part::Second)),
        Part::Second => Some(Front::Start(Part::Third)),
        Part::Third => None,
    }
}

impl Front {
    // Where the front ends with one token more, if it still begins a wave vector's text.
    fn next(self, sort: Sort) -> Option<Front>
        ensures { result ≡ next_front self sort }
    {
        match (self, sort) {
            (Front::Start(part), Sort::Sign) => Some(Front::Signed(part)),
            (Front::Start(part) | Front::Signed(part), Sort::Number) => {
                Some(Front::Numerator(part))
            }
            (Front::Numerator(part), Sort::Slash) => Some(Front::Over(part)),
            (Front::Over(part), Sort::Number) => Some(Front::Denominator(part)),
            (Front::Numerator(part) | Front::Denominator(part), Sort::Comma) => behind_comma(part),
            _ => None,
        }
    }

    // Whether blanks may stand here: not before the first token and not behind the last.
    fn rests(self) -> bool
        ensures { result ≡ rests_front self }
    {
        match self {
            Front::Start(Part::First) | Front::Denominator(Part::Third) => false,
            _ => true,
        }
    }

    // Where the front ends with one byte more, behind a byte of the kind `last`.
    fn after(self, last: Kind, byte: u8) -> Option<Front>
        ensures { result ≡ front_after self last (kind_of byte) byte }
    {
        match (last, kind_of_byte(byte)) {
            (_, Kind::Blank) => self.rests().then_some(self),
            (Kind::Digit, Kind::Digit) => Some(self),
            (_, Kind::Digit) => self.next(Sort::Number),
            (_, Kind::Mark) => self.next(sort_of_mark(byte)),
        }
    }

    // Whether the front is a whole text, where its last byte is of the kind `last`.
    fn ends(self, last: Kind) -> bool
        ensures { result ≡ ends_front self last }
    {
        match (last, self) {
            (Kind::Blank, _) => !self.rests(),
            (_, Front::Numerator(Part::Third) | Front::Denominator(Part::Third)) => true,
            _ => false,
        }
    }
}

/// Whether the text is in the grammar of wave vectors: else the place where it leaves this grammar.
pub(crate) fn check_shape(text: &[u8]) -> Result<(), usize>
    ensures wave { IsOk result ↔ IsWave text.now }
    ensures place { IfErr result (λ n. IsShapePlace IsWave text.now n) }
{
    let mut front = Front::Start(Part::First);
    let mut last = Kind::Mark;
    for (place, byte) in text.iter().enumerate() {
        front = match front.after(last, *byte) {
            Some(next) => next,
            None => return Err(place),
        };
        last = kind_of_byte(*byte);
    }
    if front.ends(last) {
        Ok(())
    } else {
        Err(text.len())
    }
}
