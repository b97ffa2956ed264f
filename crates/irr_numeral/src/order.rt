// The order of the exponents of a number's terms.
ghost use Rattle.std.specs.Prelude.{◌≡◌, ◌+◌, ◌^◌, ◌<◌, ◌↔◌, ◌++◌, length, map, IsNone, IfSome, IsTrue};
ghost use Rattle.std.specs.Option.{option_copied};
ghost use Rattle.std.specs.Str.Parse.{digits_value};
ghost use Rattle.irr_numeral.specs.TermPlaces.{ArePlaced, IsUnorderedAt, written_term};
ghost use Rattle.irr_numeral.specs.WrittenNumber.{AreIncreasing, AreTerms, IsExponent, quotient_text, spelled};

use crate::terms::Written;

/// The place of the first exponent that is not above the one before it.
pub(crate) fn first_unordered(terms: &[Written]) -> Option<usize>
    requires are_terms { AreTerms (map written_term terms.now) }
    requires placed { ArePlaced terms.now }
    requires fits { length (spelled (map written_term terms.now)) < 2 ^ 64 }
    ensures none { IsNone result → AreIncreasing (map written_term terms.now) }
    ensures some { IfSome result (λ place. IsUnorderedAt (map written_term terms.now) place) }
{
    let mut last: &[u8] = &[];
    for term in terms {
        if let Some(exponent) = term.exponent {
            if !is_below(last, exponent) {
                return Some(exponent_place(term));
            }
            last = exponent;
        }
    }
    None
}

// The place of a term's exponent.
pub(crate) fn exponent_place(term: &Written) -> usize
    requires { let t = written_term term.now in term.now.place + length (t.numerator ++ quotient_text t.denominator) + 3 < 2 ^ 64 }
    ensures { let t = written_term term.now in result ≡ term.now.place + length (t.numerator ++ quotient_text t.denominator) + 3 }
{
    let numerator = term.place + term.numerator.len();
    match term.denominator {
        Some(digits) => numerator + 1 + digits.len() + 3,
        None => numerator + 3,
    }
}

// Whether the number that `a` writes is below that of `b`: by their lengths, and then by the first digits
// that differ.
fn is_below(a: &[u8], b: &[u8]) -> bool
    requires a_is { IsExponent a.now }
    requires b_is { IsExponent b.now }
    ensures { IsTrue result ↔ (digits_value 10 a.now < digits_value 10 b.now) }
{
    if a.len() != b.len() {
        return a.len() < b.len();
    }
    for (i, digit) in a.iter().enumerate() {
        if *digit != b[i] {
            return *digit < b[i];
        }
    }
    false
}
