// The least common denominator of a number's terms.
ghost use Rattle.std.specs.Prelude.{ℕ, ◌≡◌, ◌<◌, ◌≤◌, map, All, IfSome, IsNone};
ghost use Rattle.irr_rat.specs.Lcm.{IsLcm};
ghost use Rattle.irr_numeral.specs.declared.limits.TheConstants.{DENOMINATOR_LIMIT};
ghost use Rattle.irr_numeral.specs.TermPlaces.{written_term};
ghost use Rattle.irr_numeral.specs.WrittenValue.{IsCommonDenominator, IsSmallTerm, denominator_of};

use crate::limits::{DENOMINATOR_LIMIT, value_within};
use crate::terms::Written;
use irr_rat::gcd;

/// The least common denominator of the coefficients as they are written, where it is within the limit.
pub(crate) fn common_denominator(terms: &[Written]) -> Option<u64>
    requires { All IsSmallTerm (map written_term terms.now) }
    ensures common { IfSome result (IsCommonDenominator (map written_term terms.now)) }
    ensures within { IfSome result (λ d. d ≤ DENOMINATOR_LIMIT) }
    ensures none { IsNone result → (d : ℕ) → IsCommonDenominator (map written_term terms.now) d → DENOMINATOR_LIMIT < d }
{
    let mut common = 1;
    for term in terms {
        common = least_multiple(common, denominator(term));
        if common > DENOMINATOR_LIMIT {
            return None;
        }
    }
    Some(common)
}

/// The denominator of a term, 1 where none is written.
pub(crate) fn denominator(term: &Written) -> u64
    requires { IsSmallTerm (written_term term.now) }
    ensures value { result ≡ denominator_of (written_term term.now) }
    ensures positive { 0 < result }
    ensures within { result ≤ DENOMINATOR_LIMIT }
{
    match term.denominator {
        Some(digits) => value_within(digits, DENOMINATOR_LIMIT),
        None => 1,
    }
}

// The least common multiple of two small numbers.
fn least_multiple(a: u64, b: u64) -> u64
    requires a_positive { 0 < a }
    requires a_within { a ≤ DENOMINATOR_LIMIT }
    requires b_within { b ≤ DENOMINATOR_LIMIT }
    ensures { IsLcm a b result }
{
    a / gcd(a, b) * b
}
