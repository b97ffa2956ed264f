// The terms of a component, as they are written.
ghost use Rattle.std.specs.Prelude.{ℕ, ◌≡◌, ◌+◌, ◌<◌, ◌≤◌, ◌^◌, ◌↔◌, Bool, List, ◌∷◌, ◌++◌, length, Option, IsTrue, IsNone, IfSome, ◌⊎◌};
ghost use Rattle.std.specs.Option.{option_map};
ghost use Rattle.std.specs.Str.Parse.{AllDigits};
ghost use Rattle.irr_token.specs.Token.{PlacedNumber, Token};
ghost use Rattle.irr_token.specs.Spelling.{AreSpelled};
ghost use Rattle.irr_token.specs.Quotient.{is_negative, sign_tokens};
ghost use Rattle.irr_token.specs.Reading.{placed_number, IsBehindNumber, BeginsWith};
ghost use Rattle.irr_triplet.specs.WrittenTriplet.{Body, body_tokens, coefficient_tokens};
ghost use Rattle.irr_triplet.specs.TripletFault.{body_denominators, body_numbers, size_limited};
ghost use Rattle.irr_triplet.specs.WrittenTerms.{written_term, plain, letter_of, front_letter, BeginsWithDigit, HasTermDigits, IsUnsigned, IsBehindTerm, IsZeroAnswer, IsBeyondAnswer};

use crate::reading::COEFFICIENT_LIMIT;
use crate::term::Letter;
use irr_token::{
    DENOMINATOR_LIMIT, Kind, Number, Quotient, Rest, begins_with, behind_mark, beyond_place,
    front_number, front_quotient, is_above, kind_of_byte, zero_place,
};

// The coefficient of a letter: its sign, and its number, where one is written.
#[derive(Clone, Copy)]
pub(crate) struct Coefficient<'a> {
    pub(crate) negative: bool,
    pub(crate) number: Option<Number<'a>>,
}

// A term with its sign.
#[derive(Clone, Copy)]
pub(crate) enum WrittenTerm<'a> {
    Lettered(Coefficient<'a>, Letter),
    Constant(Quotient<'a>),
}

// The letter of a byte, in either case.
fn letter_of_byte(byte: u8) -> Option<Letter>
    ensures { result ≡ letter_of byte }
{
    match byte {
        b'x' | b'X' => Some(Letter::X),
        b'y' | b'Y' => Some(Letter::Y),
        b'z' | b'Z' => Some(Letter::Z),
        _ => None,
    }
}

// The letter at the front.
fn letter_at(text: &[u8]) -> Option<Letter>
    ensures { result ≡ front_letter text.now }
{
    match text.split_first() {
        Some((first, _)) => letter_of_byte(*first),
        None => None,
    }
}

// Whether a digit stands at the front.
fn begins_with_digit(text: &[u8]) -> bool
    ensures { IsTrue result ↔ BeginsWithDigit text.now }
{
    let Some((first, _)) = text.split_first() else {
        return false;
    };
    match kind_of_byte(*first) {
        Kind::Digit => true,
        Kind::Blank | Kind::Mark => false,
    }
}

// Whether a minus stands at the front, and what is left behind the sign, if there is one.
fn sign<'a>(rest: Rest<'a>) -> (bool, Rest<'a>)
    requires fits { rest.place + length rest.text.now < 2 ^ 64 }
    ensures same { result.1.place + length result.1.text.now ≡ rest.entry.place + length rest.entry.text.now }
    ensures forward { rest.entry.place ≤ result.1.place }
    ensures further { BeginsWith 43 rest.entry.text.now ⊎ BeginsWith 45 rest.entry.text.now → rest.entry.place < result.1.place }
    ensures sign { (s : Option Bool) (ts : List Token) → IsUnsigned ts → AreSpelled rest.entry.place (sign_tokens s ++ ts) rest.entry.text.now
        → (result.0 ≡ is_negative s) × AreSpelled result.1.place ts result.1.text.now }
{
    if begins_with(rest.text, b'-') {
        return (true, behind_mark(rest));
    }
    if begins_with(rest.text, b'+') {
        return (false, behind_mark(rest));
    }
    (false, rest)
}

// The number at the front, if there is one, and what is left behind it.
fn size<'a>(rest: Rest<'a>) -> (Option<Number<'a>>, Rest<'a>)
    requires fits { rest.place + length rest.text.now < 2 ^ 64 }
    ensures same { result.1.place + length result.1.text.now ≡ rest.entry.place + length rest.entry.text.now }
    ensures forward { rest.entry.place ≤ result.1.place }
    ensures digits { IfSome (option_map placed_number result.0) (λ n. AllDigits 10 n.digits) }
    ensures size { (n : Option PlacedNumber) (ts : List Token) → IsBehindNumber ts → AreSpelled rest.entry.place (coefficient_tokens n ++ ts) rest.entry.text.now
        → (option_map placed_number result.0 ≡ n) × AreSpelled result.1.place ts result.1.text.now }
{
    if !begins_with_digit(rest.text) {
        return (None, rest);
    }
    let (number, rest) = front_number(rest);
    (Some(number), rest)
}

// The term at the front, and what is left behind it.
pub(crate) fn term<'a>(rest: Rest<'a>) -> (WrittenTerm<'a>, Rest<'a>)
    requires fits { rest.place + length rest.text.now < 2 ^ 64 }
    ensures same { result.1.place + length result.1.text.now ≡ rest.entry.place + length rest.entry.text.now }
    ensures further { BeginsWith 43 rest.entry.text.now ⊎ BeginsWith 45 rest.entry.text.now → rest.entry.place < result.1.place }
    ensures digits { HasTermDigits result.0 }
    ensures term { (s : Option Bool) (b : Body) (ts : List Token) → IsBehindTerm ts → AreSpelled rest.entry.place (sign_tokens s ++ (body_tokens b ++ ts)) rest.entry.text.now
        → (written_term result.0 ≡ plain (record { negative = is_negative s; body = b })) × AreSpelled result.1.place ts result.1.text.now }
{
    let (negative, unsigned) = sign(rest);
    let (number, behind) = size(unsigned);
    match letter_at(behind.text) {
        Some(letter) => {
            let coefficient = Coefficient { negative, number };
            (
                WrittenTerm::Lettered(coefficient, letter),
                behind_mark(behind),
            )
        }
        None => {
            let (quotient, behind) = front_quotient(rest);
            (WrittenTerm::Constant(quotient), behind)
        }
    }
}

// The place of the term's denominator where it is 0.
pub(crate) fn zero_of_term(term: &WrittenTerm<'_>) -> Option<usize>
    requires { HasTermDigits term.now }
    ensures { IsZeroAnswer result (body_denominators (written_term term.now).body) }
{
    match term {
        WrittenTerm::Lettered(_, _) => None,
        WrittenTerm::Constant(quotient) => zero_place(quotient),
    }
}

// The place of the term's first number that is beyond its limit.
pub(crate) fn beyond_of_term(term: &WrittenTerm<'_>) -> Option<usize>
    requires { HasTermDigits term.now }
    ensures { IsBeyondAnswer result (body_numbers (written_term term.now).body) }
{
    match term {
        WrittenTerm::Lettered(coefficient, _) => beyond_size(coefficient.number),
        WrittenTerm::Constant(quotient) => beyond_place(quotient, DENOMINATOR_LIMIT),
    }
}

// The place of a coefficient that is beyond its limit.
fn beyond_size(number: Option<Number<'_>>) -> Option<usize>
    requires { IfSome (option_map placed_number number) (λ n. AllDigits 10 n.digits) }
    ensures { IsBeyondAnswer result (size_limited (option_map placed_number number.entry)) }
{
    let number = number?;
    if is_above(number, COEFFICIENT_LIMIT) {
        return Some(number.place);
    }
    None
}
