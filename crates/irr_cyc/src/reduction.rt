//! Coefficients of powers of z brought to the basis, prime by prime, in place.
ghost use Rattle.std.specs.Prelude.{ℕ, ℤ, pos, ◌≡◌, ◌≢◌, ◌+◌, ◌-◌, ◌*◌, ◌/◌, ◌%◌, ◌^◌, ◌<◌, ◌≤◌, ◌-ℤ◌, length};
ghost use Rattle.std.specs.Int.{◌∣◌};
ghost use Rattle.std.specs.Int.RustNames.{unsigned_abs};
ghost use Rattle.irr_number.specs.Number.{number};
ghost use Rattle.irr_canonical.specs.Coefficient.{over};
ghost use Rattle.irr_canonical.specs.Reduction.{IsInBasis, IsReducedAt};
ghost use Rattle.irr_cyc.specs.Form.{at};
ghost use Rattle.irr_cyc.specs.Part.{IsPart};

use crate::orders::ORDER_LIMIT;

// Takes the coefficient at `top` from each coefficient of its class modulo `step`.
fn take_from_class(coefficients: &mut [i128], top: usize, step: usize)
    requires few { length coefficients.old ≤ ORDER_LIMIT }
    requires inside { top < length coefficients.old }
    requires positive { 0 < step }
    requires step_few { step ≤ ORDER_LIMIT }
    requires small { (i : ℕ) → i < length coefficients.old → i % step ≡ top % step → unsigned_abs (at coefficients.old i) < 2 ^ 126 }
    ensures class { (i : ℕ) → i < length coefficients.old → i % step ≡ top % step → at coefficients.new i ≡ at coefficients.old i -ℤ at coefficients.old top }
    ensures others { (i : ℕ) → i < length coefficients.old → i % step ≢ top % step → at coefficients.new i ≡ at coefficients.old i }
{
    let coefficient = coefficients[top];
    let mut place = top % step;
    while place < coefficients.len() {
        coefficients[place] -= coefficient;
        place += step;
    }
}

// Takes from each coefficient that of the top power in its class modulo n/p, n the number of coefficients.
fn reduce_at(coefficients: &mut [i128], p: usize, base: usize)
    requires few { length coefficients.old ≤ ORDER_LIMIT }
    requires some { 0 < length coefficients.old }
    requires part { IsPart (length coefficients.old) p base }
    requires small { (i : ℕ) → i < length coefficients.old → unsigned_abs (at coefficients.old i) < 2 ^ 126 }
    ensures { IsReducedAt (length coefficients.old) p (at coefficients.old) (at coefficients.new) }
{
    let step = coefficients.len() / p;
    for top in 0..coefficients.len() {
        if coefficients[top] != 0 && top / base % p == p - 1 {
            take_from_class(coefficients, top, step);
        }
    }
}

// A number without the factor p, and the power of p that was taken out, over p.
#[derive(Drop)]
struct Factored {
    base: usize,
    rest: usize,
}

// Takes the factor p out of a number that it divides.
fn factor_out(number: usize, p: usize) -> Factored
    requires positive { 0 < number }
    requires factor { 1 < p }
    requires divides { number % p ≡ 0 }
    ensures equal { number ≡ result.base * p * result.rest }
    ensures power { (exponent : ℕ) × (result.base ≡ p ^ exponent) }
    ensures other { ¬ (p ∣ result.rest) }
{
    let mut base = 1;
    let mut rest = number / p;
    while rest % p == 0 {
        base *= p;
        rest /= p;
    }
    Factored { base, rest }
}

/// Brings coefficients of powers of z to the basis: the number that they stand for stays.
pub(crate) fn reduce(coefficients: &mut [i128])
    requires few { length coefficients.old ≤ ORDER_LIMIT }
    requires some { 0 < length coefficients.old }
    requires small { (i : ℕ) → i < length coefficients.old → unsigned_abs (at coefficients.old i) ≤ 2 ^ 110 }
    ensures basis { IsInBasis (length coefficients.old) (at coefficients.new) }
    ensures number { let n = length coefficients.old in (d : ℕ) (positive : 0 < d) → number n (over n (at coefficients.new) d positive) ≡ number n (over n (at coefficients.old) d positive) }
{
    let mut rest = coefficients.len();
    let mut p = 2;
    while rest > 1 {
        if rest % p == 0 {
            let factored = factor_out(rest, p);
            reduce_at(coefficients, p, factored.base);
            rest = factored.rest;
        }
        p += 1;
    }
}
