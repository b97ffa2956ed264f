// The terms of a number's text.
ghost use Rattle.std.specs.Prelude.{ℕ, List, ◌≡◌, ◌≢◌, ◌≤◌, ◌++◌, ◌∷◌, length, map, Some, None, IfOk, IsTrue, IsFalse};
ghost use Rattle.std.specs.Option.{option_copied};
ghost use Rattle.std.specs.Str.Parse.{AllDigits};
ghost use Rattle.irr_digits.specs.DigitRun.{BeginsWithDigit};
ghost use Rattle.irr_numeral.specs.Split.{IsBehindTerm, IsSplit};
ghost use Rattle.irr_numeral.specs.TermPlaces.{ArePlaced, written_term};
ghost use Rattle.irr_numeral.specs.WrittenNumber.{AreTerms, IsNumber, IsTerm, WrittenTerm, spelled, unsigned_text};

use irr_digits::digit_run;
use irr_memory::Memory;
use std::alloc::Global;

/// A term of a text: its sign, the place of its numerator, and the digits of its numbers.
#[derive(Clone, Copy)]
pub(crate) struct Written<'a> {
    pub(crate) negative: bool,
    pub(crate) place: usize,
    pub(crate) numerator: &'a [u8],
    pub(crate) denominator: Option<&'a [u8]>,
    pub(crate) exponent: Option<&'a [u8]>,
}

/// The terms of a number's text; none for `0`.
pub(crate) fn terms<'a>(alloc: Global, text: &'a [u8]) -> Result<Vec<Written<'a>>, Memory>
    requires { IsNumber text.now }
    ensures are_terms { IfOk result (λ ws. AreTerms (map written_term ws.items)) }
    ensures spells { IfOk result (λ ws. spelled (map written_term ws.items) ≡ text.now) }
    ensures placed { IfOk result (λ ws. ArePlaced ws.items) }
{
    let mut terms = Vec::new(alloc);
    if text == b"0".as_slice() {
        return Ok(terms);
    }
    let mut rest = text;
    while !rest.is_empty() {
        let (negative, unsigned) = split_sign(rest);
        let parts = split_term(unsigned);
        rest = parts.rest;
        terms.push(Written {
            negative,
            place: text.len() - unsigned.len(),
            numerator: parts.numerator,
            denominator: parts.denominator,
            exponent: parts.exponent,
        })?;
    }
    Ok(terms)
}

// Whether a text begins with a minus, and what stands behind its sign, if it has one.
fn split_sign(text: &[u8]) -> (bool, &[u8])
    ensures minus { (rest : List ℕ) → text.now ≡ 45 ∷ rest → IsTrue result.0 × (result.1.now ≡ rest) }
    ensures plus { (rest : List ℕ) → text.now ≡ 43 ∷ rest → IsFalse result.0 × (result.1.now ≡ rest) }
    ensures none { (c : ℕ) (rest : List ℕ) → text.now ≡ c ∷ rest → c ≢ 43 → c ≢ 45 → IsFalse result.0 × (result.1.now ≡ text.now) }
{
    match text {
        [b'-', rest @ ..] => (true, rest),
        [b'+', rest @ ..] => (false, rest),
        _ => (false, text),
    }
}

// The digits at the front of a text, and the rest.
fn split_digits(text: &[u8]) -> (&[u8], &[u8])
    ensures { (digits rest : List ℕ) → AllDigits 10 digits → ¬ (BeginsWithDigit rest) → text.now ≡ digits ++ rest
        → (result.0.now ≡ digits) × (result.1.now ≡ rest) }
{
    text.split_at(digit_run(text))
}

// The digits behind a mark at the front of a text, if it stands there, and the rest.
fn split_marked<'a>(text: &'a [u8], mark: &[u8]) -> (Option<&'a [u8]>, &'a [u8])
    ensures marked { (digits rest : List ℕ) → AllDigits 10 digits → ¬ (BeginsWithDigit rest) → text.now ≡ mark.now ++ (digits ++ rest)
        → (option_copied result.0 ≡ Some digits) × (result.1.now ≡ rest) }
    ensures unmarked { ((rest : List ℕ) → text.now ≢ mark.now ++ rest) → (option_copied result.0 ≡ None) × (result.1.now ≡ text.now) }
{
    match text.strip_prefix(mark) {
        Some(behind) => {
            let (digits, rest) = split_digits(behind);
            (Some(digits), rest)
        }
        None => (None, text),
    }
}

// The parts of a term without its sign, and what stands behind it.
#[derive(Clone, Copy)]
struct Parts<'a> {
    numerator: &'a [u8],
    denominator: Option<&'a [u8]>,
    exponent: Option<&'a [u8]>,
    rest: &'a [u8],
}

// The parts of the term at the front of a text that begins with one.
fn split_term(text: &[u8]) -> Parts<'_>
    ensures { (t : WrittenTerm) (rest : List ℕ) → IsTerm t → IsBehindTerm rest → text.now ≡ unsigned_text t ++ rest → IsSplit t rest result }
{
    let (numerator, behind) = split_digits(text);
    let (denominator, behind) = split_marked(behind, b"/");
    let (exponent, rest) = split_marked(behind, b"*z^");
    Parts {
        numerator,
        denominator,
        exponent,
        rest,
    }
}
