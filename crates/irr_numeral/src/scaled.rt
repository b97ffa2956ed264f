// The terms of a number over one denominator.
ghost use Rattle.std.specs.Prelude.{ℕ, ℤ, ◌≡◌, ◌<◌, ◌≤◌, ◌^◌, map, All, IfOk, IfSome, IsNone};
ghost use Rattle.irr_numeral.specs.declared.limits.TheConstants.{COEFFICIENT_LIMIT, DENOMINATOR_LIMIT};
ghost use Rattle.irr_numeral.specs.NumberLimit.{IsSmallExponent};
ghost use Rattle.irr_numeral.specs.TermPlaces.{written_term};
ghost use Rattle.irr_numeral.specs.WrittenNumber.{exponent_of, IsTerm};
ghost use Rattle.irr_numeral.specs.WrittenValue.{IsSmallTerm, numerator_over, written_size};
ghost use Rattle.irr_numeral.specs.ScaledTerm.{scaled_term};

use crate::denominator::denominator;
use crate::limits::{COEFFICIENT_LIMIT, value_within};
use crate::terms::Written;
use irr_memory::Memory;
use std::alloc::Global;

/// The sum of the absolute numerators over a denominator, where it is within the limit.
pub(crate) fn size_within(terms: &[Written], den: u64) -> Option<u64>
    requires small { All IsSmallTerm (map written_term terms.now) }
    requires den { den ≤ DENOMINATOR_LIMIT }
    ensures size { IfSome result (λ s. s ≡ written_size den (map written_term terms.now)) }
    ensures within { IfSome result (λ s. s ≤ COEFFICIENT_LIMIT) }
    ensures none { IsNone result → COEFFICIENT_LIMIT < written_size den (map written_term terms.now) }
{
    let mut size = 0;
    for term in terms {
        size += absolute_numerator(term, den);
        if size > COEFFICIENT_LIMIT {
            return None;
        }
    }
    Some(size)
}

/// The exponents, and the numerators over a denominator.
pub(crate) fn scaled_terms(
    alloc: Global,
    terms: &[Written],
    n: u32,
    den: u64,
) -> Result<Vec<(u32, i64)>, Memory>
    requires small { All IsSmallTerm (map written_term terms.now) }
    requires exponents { All (IsSmallExponent n) (map written_term terms.now) }
    requires positive { 0 < n }
    requires den { den ≤ DENOMINATOR_LIMIT }
    ensures { IfOk result (λ scaled. scaled.items ≡ map (scaled_term den) (map written_term terms.now)) }
{
    let mut scaled = Vec::new(alloc);
    for term in terms {
        scaled.push((exponent(term, n), numerator(term, den)))?;
    }
    Ok(scaled)
}

// The exponent of a term, 0 where none is written.
fn exponent(term: &Written, n: u32) -> u32
    requires is_term { IsTerm (written_term term.now) }
    requires small { IsSmallExponent n (written_term term.now) }
    requires positive { 0 < n }
    ensures { result ≡ exponent_of (written_term term.now) }
{
    match term.exponent {
        Some(digits) => value_within(digits, u64::from(n) - 1) as u32,
        None => 0,
    }
}

// The numerator of a term over a denominator, with its sign.
fn numerator(term: &Written, den: u64) -> i64
    requires small { IsSmallTerm (written_term term.now) }
    requires den { den ≤ DENOMINATOR_LIMIT }
    ensures { result ≡ (scaled_term den (written_term term.now)).1 }
{
    let absolute = absolute_numerator(term, den) as i64;
    if term.negative { -absolute } else { absolute }
}

// The numerator of a term over a denominator, without its sign.
fn absolute_numerator(term: &Written, den: u64) -> u64
    requires small { IsSmallTerm (written_term term.now) }
    requires den { den ≤ DENOMINATOR_LIMIT }
    ensures value { result ≡ numerator_over den (written_term term.now) }
    ensures fits { result < 2 ^ 43 }
{
    value_within(term.numerator, COEFFICIENT_LIMIT) * (den / denominator(term))
}
