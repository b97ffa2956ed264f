// Reading of tokens, and of fractions as they are written.
ghost use Rattle.std.specs.Prelude.{ℕ, ◌≡◌, ◌≢◌, ◌+◌, ◌<◌, ◌≤◌, ◌^◌, ◌↔◌, ◌⊎◌, Bool, List, [], ◌∷◌, ◌++◌, length, take, drop, Option, IsTrue, IfSome};
ghost use Rattle.std.specs.Option.{option_map};
ghost use Rattle.std.specs.Str.Parse.{AllDigits};
ghost use Rattle.irr_token.specs.Kinds.{AreBlanks};
ghost use Rattle.irr_token.specs.Token.{PlacedNumber, Token};
ghost use Rattle.irr_token.specs.Token.Token.{number, mark};
ghost use Rattle.irr_token.specs.Spelling.{AreSpelled};
ghost use Rattle.irr_token.specs.Quotient.{WrittenQuotient, is_negative, sign_tokens, over_tokens, quotient_tokens};
ghost use Rattle.irr_token.specs.Reading.{placed_number, IsReadAs, IsBehindNumber, IsBehindQuotient, BeginsWith, BeginsWithBlank, HasDigits};

use crate::kind::{Kind, kind_of_byte};
use irr_digits::digit_run;

/// What is left of a text, and the place where it begins.
#[derive(Clone, Copy)]
pub struct Rest<'a> {
    pub place: usize,
    pub text: &'a [u8],
}

/// The digits of a number, and the place of the first.
#[derive(Clone, Copy)]
pub struct Number<'a> {
    pub place: usize,
    pub digits: &'a [u8],
}

/// A fraction as it is written.
#[derive(Clone, Copy)]
pub struct Quotient<'a> {
    pub negative: bool,
    pub numerator: Number<'a>,
    pub denominator: Option<Number<'a>>,
}

// The length of the longest front of `text` that has only blanks.
#[tactic(auto, using(crate::proofs::Blanks::blanks_more, crate::proofs::Blanks::no_blank_at, crate::proofs::Blanks::no_blank_end))]
fn blank_run(text: &[u8]) -> usize
    ensures within { result ≤ length text.now }
    ensures blanks { AreBlanks (take result text.now) }
    ensures longest { ¬ (BeginsWithBlank (drop result text.now)) }
{
    let mut run = 0;
    while run < text.len() && is_blank(text[run]) {
        run += 1;
    }
    run
}

fn is_blank(byte: u8) -> bool
    ensures { IsTrue result ↔ AreBlanks (byte ∷ []) }
{
    match kind_of_byte(byte) {
        Kind::Blank => true,
        Kind::Digit | Kind::Mark => false,
    }
}

/// What is left behind `count` bytes and the blanks behind them.
pub fn behind<'a>(rest: Rest<'a>, count: usize) -> Rest<'a>
    requires within { count ≤ length rest.text.now }
    requires fits { rest.place + length rest.text.now < 2 ^ 64 }
    ensures same { result.place + length result.text.now ≡ rest.entry.place + length rest.entry.text.now }
    ensures forward { rest.entry.place + count ≤ result.place }
    ensures rest { (front blanks tail : List ℕ) → length front ≡ count → AreBlanks blanks → ¬ (BeginsWithBlank tail)
        → rest.entry.text.now ≡ front ++ (blanks ++ tail) → (result.text.now ≡ tail) × (result.place ≡ rest.entry.place + length front + length blanks) }
{
    let (_, behind) = rest.text.split_at(count);
    let blanks = blank_run(behind);
    let (_, text) = behind.split_at(blanks);
    Rest {
        place: rest.place + count + blanks,
        text,
    }
}

/// What is left behind a mark.
pub fn behind_mark<'a>(rest: Rest<'a>) -> Rest<'a>
    requires some { 0 < length rest.text.now }
    requires fits { rest.place + length rest.text.now < 2 ^ 64 }
    ensures same { result.place + length result.text.now ≡ rest.entry.place + length rest.entry.text.now }
    ensures forward { rest.entry.place < result.place }
    ensures rest { (c : ℕ) (ts : List Token) → AreSpelled rest.entry.place (mark c ∷ ts) rest.entry.text.now → AreSpelled result.place ts result.text.now }
{
    behind(rest, 1)
}

/// The number at the front, and what is left behind it.
pub fn front_number<'a>(rest: Rest<'a>) -> (Number<'a>, Rest<'a>)
    requires fits { rest.place + length rest.text.now < 2 ^ 64 }
    ensures same { result.1.place + length result.1.text.now ≡ rest.entry.place + length rest.entry.text.now }
    ensures forward { rest.entry.place ≤ result.1.place }
    ensures digits { AllDigits 10 result.0.digits.now }
    ensures number { (n : PlacedNumber) (ts : List Token) → IsBehindNumber ts → AreSpelled rest.entry.place (number n ∷ ts) rest.entry.text.now
        → (placed_number result.0 ≡ n) × AreSpelled result.1.place ts result.1.text.now }
{
    let count = digit_run(rest.text);
    let (digits, _) = rest.text.split_at(count);
    let place = rest.place;
    (Number { place, digits }, behind(rest, count))
}

/// Whether `byte` stands at the front.
pub fn begins_with(text: &[u8], byte: u8) -> bool
    ensures { IsTrue result ↔ BeginsWith byte text.now }
{
    match text.split_first() {
        Some((first, _)) => *first == byte,
        None => false,
    }
}

// Whether a minus stands at the front, and what is left behind the sign, if there is one.
fn sign<'a>(rest: Rest<'a>) -> (bool, Rest<'a>)
    requires fits { rest.place + length rest.text.now < 2 ^ 64 }
    ensures same { result.1.place + length result.1.text.now ≡ rest.entry.place + length rest.entry.text.now }
    ensures forward { rest.entry.place ≤ result.1.place }
    ensures further { BeginsWith 43 rest.entry.text.now ⊎ BeginsWith 45 rest.entry.text.now → rest.entry.place < result.1.place }
    ensures sign { (s : Option Bool) (n : PlacedNumber) (ts : List Token) → AreSpelled rest.entry.place (sign_tokens s ++ (number n ∷ ts)) rest.entry.text.now
        → (result.0 ≡ is_negative s) × AreSpelled result.1.place (number n ∷ ts) result.1.text.now }
{
    if begins_with(rest.text, b'-') {
        return (true, behind_mark(rest));
    }
    if begins_with(rest.text, b'+') {
        return (false, behind_mark(rest));
    }
    (false, rest)
}

// The denominator behind a slash, if there is one, and what is left behind it.
fn denominator<'a>(rest: Rest<'a>) -> (Option<Number<'a>>, Rest<'a>)
    requires fits { rest.place + length rest.text.now < 2 ^ 64 }
    ensures same { result.1.place + length result.1.text.now ≡ rest.entry.place + length rest.entry.text.now }
    ensures forward { rest.entry.place ≤ result.1.place }
    ensures digits { IfSome (option_map placed_number result.0) (λ n. AllDigits 10 n.digits) }
    ensures denominator { (d : Option PlacedNumber) (ts : List Token) → IsBehindQuotient ts → AreSpelled rest.entry.place (over_tokens d ++ ts) rest.entry.text.now
        → (option_map placed_number result.0 ≡ d) × AreSpelled result.1.place ts result.1.text.now }
{
    if !begins_with(rest.text, b'/') {
        return (None, rest);
    }
    let (denominator, rest) = front_number(behind_mark(rest));
    (Some(denominator), rest)
}

/// The fraction at the front, and what is left behind it.
pub fn front_quotient<'a>(rest: Rest<'a>) -> (Quotient<'a>, Rest<'a>)
    requires fits { rest.place + length rest.text.now < 2 ^ 64 }
    ensures same { result.1.place + length result.1.text.now ≡ rest.entry.place + length rest.entry.text.now }
    ensures forward { rest.entry.place ≤ result.1.place }
    ensures further { BeginsWith 43 rest.entry.text.now ⊎ BeginsWith 45 rest.entry.text.now → rest.entry.place < result.1.place }
    ensures digits { HasDigits result.0 }
    ensures quotient { (q : WrittenQuotient) (ts : List Token) → IsBehindQuotient ts → AreSpelled rest.entry.place (quotient_tokens q ++ ts) rest.entry.text.now
        → IsReadAs result.0 q × AreSpelled result.1.place ts result.1.text.now }
{
    let (negative, rest) = sign(rest);
    let (numerator, rest) = front_number(rest);
    let (denominator, rest) = denominator(rest);
    (
        Quotient {
            negative,
            numerator,
            denominator,
        },
        rest,
    )
}
