// The grammar of triplets, told from left to right.
ghost use Rattle.std.specs.Prelude.{◌≡◌, IsOk, IfErr, ◌↔◌};
ghost use Rattle.irr_grammar.specs.ShapePlace.{IsShapePlace};
ghost use Rattle.irr_token.specs.Kinds.{kind_of};
ghost use Rattle.irr_triplet.specs.TripletFront.{sort_of, is_used, with_slot, is_full, unused, lettered, slashed, signed, signed_behind_number, next_at, ended, behind, opening, next_within, next_front, front_after, ends_triplet};
ghost use Rattle.irr_triplet.specs.WrittenTriplet.{IsTriplet};

use irr_token::{Kind, kind_of_byte};

// What a term may have at most once in a component: a letter, or none.
#[derive(Clone, Copy)]
enum Slot {
    X,
    Y,
    Z,
    Constant,
}

// The sorts of tokens that a triplet's text tells apart.
#[derive(Clone, Copy)]
enum Sort {
    Number,
    Sign,
    Slash,
    Comma,
    Single,
    Double,
    Letter(Slot),
    Other,
}

// The sort of a mark.
fn sort_of_mark(byte: u8) -> Sort
    ensures { result ≡ sort_of byte }
{
    match byte {
        b'+' | b'-' => Sort::Sign,
        b'/' => Sort::Slash,
        b',' => Sort::Comma,
        b'\'' => Sort::Single,
        b'"' => Sort::Double,
        b'x' | b'X' => Sort::Letter(Slot::X),
        b'y' | b'Y' => Sort::Letter(Slot::Y),
        b'z' | b'Z' => Sort::Letter(Slot::Z),
        _ => Sort::Other,
    }
}

// The quotes round a triplet.
#[derive(Clone, Copy)]
enum Quote {
    Unquoted,
    InSingle,
    InDouble,
}

// A component of a triplet.
#[derive(Clone, Copy)]
enum Part {
    First,
    Second,
    Third,
}

// What the terms of a component so far have.
#[derive(Clone, Copy)]
struct Used {
    x: bool,
    y: bool,
    z: bool,
    constant: bool,
}

// Where a front ends in a component: before it, behind a sign, behind a number that may be a coefficient,
// behind a slash, or behind a term.
#[derive(Clone, Copy)]
enum At {
    Start,
    Signed,
    Coefficient,
    Over,
    Behind,
}

// Where a front of a triplet's text ends: before its first token, in a component, or behind the closing quote.
#[derive(Clone, Copy)]
enum Front {
    Before,
    Within(Quote, Part, Used, At),
    Closed,
}

impl Used {
    // Whether a term so far has the slot.
    fn has(self, slot: Slot) -> bool
        ensures { result ≡ is_used self slot }
    {
        match slot {
            Slot::X => self.x,
            Slot::Y => self.y,
            Slot::Z => self.z,
            Slot::Constant => self.constant,
        }
    }

    // What the terms have with one more, of this slot.
    fn with(self, slot: Slot) -> Used
        ensures { result ≡ with_slot self slot }
    {
        match slot {
            Slot::X => Used { x: true, ..self },
            Slot::Y => Used { y: true, ..self },
            Slot::Z => Used { z: true, ..self },
            Slot::Constant => Used {
                constant: true,
                ..self
            },
        }
    }

    // Whether no further term may stand in the component.
    fn is_full(self) -> bool
        ensures { result ≡ is_full self }
    {
        self.x && (self.y && (self.z && self.constant))
    }
}

const UNUSED: Used = Used {
    x: false,
    y: false,
    z: false,
    constant: false,
};

// Behind a letter, if it is not used already.
fn lettered(quote: Quote, part: Part, used: Used, slot: Slot) -> Option<Front>
    ensures { result ≡ lettered quote part used slot }
{
    if used.has(slot) {
        return None;
    }
    Some(Front::Within(quote, part, used.with(slot), At::Behind))
}

// Behind a slash: the number before it is that of a constant.
fn slashed(quote: Quote, part: Part, used: Used) -> Option<Front>
    ensures { result ≡ slashed quote part used }
{
    if used.constant {
        return None;
    }
    Some(Front::Within(quote, part, used.with(Slot::Constant), At::Over))
}

// Behind a sign behind a number, which is a constant: another term must be able to follow.
fn signed_behind_number(quote: Quote, part: Part, used: Used) -> Option<Front>
    ensures { result ≡ signed_behind_number quote part used }
{
    if used.constant {
        return None;
    }
    signed(quote, part, used.with(Slot::Constant))
}

// Behind a sign: another term must be able to follow.
fn signed(quote: Quote, part: Part, used: Used) -> Option<Front>
    ensures { result ≡ signed quote part used }
{
    if used.is_full() {
        return None;
    }
    Some(Front::Within(quote, part, used, At::Signed))
}

// Where the front ends in its component with one token more.
fn next_at(quote: Quote, part: Part, used: Used, at: At, sort: Sort) -> Option<Front>
    ensures { result ≡ next_at quote part used at sort }
{
    match sort {
        Sort::Letter(slot) => match at {
            At::Start | At::Signed | At::Coefficient => lettered(quote, part, used, slot),
            At::Over | At::Behind => None,
        },
        Sort::Number => match at {
            At::Start | At::Signed => Some(Front::Within(quote, part, used, At::Coefficient)),
            At::Over => Some(Front::Within(quote, part, used, At::Behind)),
            At::Coefficient | At::Behind => None,
        },
        Sort::Sign => match at {
            At::Start => Some(Front::Within(quote, part, used, At::Signed)),
            At::Coefficient => signed_behind_number(quote, part, used),
            At::Behind => signed(quote, part, used),
            At::Signed | At::Over => None,
        },
        Sort::Slash => match at {
            At::Coefficient => slashed(quote, part, used),
            At::Start | At::Signed | At::Over | At::Behind => None,
        },
        Sort::Comma | Sort::Single | Sort::Double | Sort::Other => None,
    }
}

// Whether a component may end here: behind a number it is a constant then.
fn ended(used: Used, at: At) -> bool
    ensures { result ≡ ended used at }
{
    match at {
        At::Behind => true,
        At::Coefficient => !used.constant,
        At::Start | At::Signed | At::Over => false,
    }
}

// What stands behind a component.
fn behind(quote: Quote, part: Part, sort: Sort) -> Option<Front>
    ensures { result ≡ behind quote part sort }
{
    match (quote, part, sort) {
        (quote, Part::First, Sort::Comma) => {
            Some(Front::Within(quote, Part::Second, UNUSED, At::Start))
        }
        (quote, Part::Second, Sort::Comma) => {
            Some(Front::Within(quote, Part::Third, UNUSED, At::Start))
        }
        (Quote::InSingle, Part::Third, Sort::Single) => Some(Front::Closed),
        (Quote::InDouble, Part::Third, Sort::Double) => Some(Front::Closed),
        _ => None,
    }
}

// Where the front of a text ends with its first token.
fn opening(sort: Sort) -> Option<Front>
    ensures { result ≡ opening sort }
{
    match sort {
        Sort::Single => Some(Front::Within(Quote::InSingle, Part::First, UNUSED, At::Start)),
        Sort::Double => Some(Front::Within(Quote::InDouble, Part::First, UNUSED, At::Start)),
        sort => next_at(Quote::Unquoted, Part::First, UNUSED, At::Start, sort),
    }
}

// Where a front in a component ends with one token more.
fn next_within(quote: Quote, part: Part, used: Used, at: At, sort: Sort) -> Option<Front>
    ensures { result ≡ next_within quote part used at sort }
{
    if ended(used, at) {
        if let Some(front) = behind(quote, part, sort) {
            return Some(front);
        }
    }
    next_at(quote, part, used, at, sort)
}

impl Front {
    // Where the front ends with one token more, if it still begins a triplet's text.
    fn next(self, sort: Sort) -> Option<Front>
        ensures { result ≡ next_front self sort }
    {
        match self {
            Front::Before => opening(sort),
            Front::Within(quote, part, used, at) => next_within(quote, part, used, at, sort),
            Front::Closed => None,
        }
    }

    // Where the front ends with one byte more, behind a byte of the kind `last`.
    fn after(self, last: Kind, byte: u8) -> Option<Front>
        ensures { result ≡ front_after self last (kind_of byte) byte }
    {
        match (last, kind_of_byte(byte)) {
            (_, Kind::Blank) => Some(self),
            (Kind::Digit, Kind::Digit) => Some(self),
            (_, Kind::Digit) => self.next(Sort::Number),
            (_, Kind::Mark) => self.next(sort_of_mark(byte)),
        }
    }

    // Whether the front is a whole text.
    fn ends(self) -> bool
        ensures { result ≡ ends_triplet self }
    {
        match self {
            Front::Closed => true,
            Front::Within(Quote::Unquoted, Part::Third, used, at) => ended(used, at),
            _ => false,
        }
    }
}

/// Whether the text is in the grammar of triplets: else the place where it leaves this grammar.
pub(crate) fn check_shape(text: &[u8]) -> Result<(), usize>
    ensures triplet { IsOk result ↔ IsTriplet text.now }
    ensures place { IfErr result (λ n. IsShapePlace IsTriplet text.now n) }
{
    let mut front = Front::Before;
    let mut last = Kind::Mark;
    for (place, byte) in text.iter().enumerate() {
        front = match front.after(last, *byte) {
            Some(next) => next,
            None => return Err(place),
        };
        last = kind_of_byte(*byte);
    }
    if front.ends() {
        Ok(())
    } else {
        Err(text.len())
    }
}
