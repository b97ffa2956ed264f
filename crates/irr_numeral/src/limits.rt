// The limits on the numbers of a text.
ghost use Rattle.std.specs.Prelude.{◌≡◌, ◌+◌, ◌^◌, ◌<◌, ◌≤◌, ◌↔◌, length, map, All, IfSome, IsNone, IsSomeAnd, IsTrue};
ghost use Rattle.std.specs.Option.{option_copied};
ghost use Rattle.std.specs.Str.Parse.{AllDigits, digits_value};
ghost use Rattle.irr_numeral.specs.NumberLimit.{IsBeyondAt, IsFirstBeyond, IsWithin};
ghost use Rattle.irr_numeral.specs.TermPlaces.{ArePlaced, written_term};
ghost use Rattle.irr_numeral.specs.WrittenNumber.{AreTerms, IsTerm, spelled, unsigned_text};

use crate::order::exponent_place;
use crate::terms::Written;
use irr_digits::capped_value;

/// The greatest whole number of a coefficient, and the greatest size.
pub const COEFFICIENT_LIMIT: u64 = 1_073_741_824;

/// The greatest denominator, also of all coefficients together.
pub const DENOMINATOR_LIMIT: u64 = 4_096;

/// The place of the first number that passes its limit: for an exponent this is the order n.
pub(crate) fn first_beyond(terms: &[Written], n: u32) -> Option<usize>
    requires are_terms { AreTerms (map written_term terms.now) }
    requires placed { ArePlaced terms.now }
    requires positive { 0 < n }
    requires fits { length (spelled (map written_term terms.now)) < 2 ^ 64 }
    ensures none { IsNone result → All (IsWithin n) (map written_term terms.now) }
    ensures some { IfSome result (λ place. IsBeyondAt n (map written_term terms.now) place) }
{
    for term in terms {
        if let Some(place) = beyond(term, n) {
            return Some(place);
        }
    }
    None
}

// The place of the first number of a term that passes its limit.
fn beyond(term: &Written, n: u32) -> Option<usize>
    requires is_term { IsTerm (written_term term.now) }
    requires positive { 0 < n }
    requires fits { term.now.place + length (unsigned_text (written_term term.now)) < 2 ^ 64 }
    ensures none { IsNone result → IsWithin n (written_term term.now) }
    ensures some { IfSome result (λ place. IsFirstBeyond n term.now.place (written_term term.now) place) }
{
    if is_above(term.numerator, COEFFICIENT_LIMIT) {
        return Some(term.place);
    }
    if is_present_above(term.denominator, DENOMINATOR_LIMIT) {
        return Some(term.place + term.numerator.len() + 1);
    }
    if is_present_above(term.exponent, u64::from(n) - 1) {
        return Some(exponent_place(term));
    }
    None
}

/// The number that the digits write, which is at most a limit.
pub(crate) fn value_within(digits: &[u8], limit: u64) -> u64
    requires digits { AllDigits 10 digits.now }
    requires within { digits_value 10 digits.now ≤ limit }
    ensures { result ≡ digits_value 10 digits.now }
{
    capped_value(digits, limit).unwrap()
}

// Whether the number that the digits write is above a limit.
fn is_above(digits: &[u8], limit: u64) -> bool
    requires { AllDigits 10 digits.now }
    ensures { IsTrue result ↔ (limit < digits_value 10 digits.now) }
{
    capped_value(digits, limit).is_none()
}

// Whether there are digits, and the number that they write is above a limit.
fn is_present_above(digits: Option<&[u8]>, limit: u64) -> bool
    requires { IfSome (option_copied digits) (AllDigits 10) }
    ensures { IsTrue result ↔ IsSomeAnd (option_copied digits.entry) (λ ds. limit < digits_value 10 ds) }
{
    match digits {
        Some(digits) => is_above(digits, limit),
        None => false,
    }
}
