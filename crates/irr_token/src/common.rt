// Fractions over their least common denominator.
ghost use Rattle.std.specs.Prelude.{ℕ, ℤ, pos, ◌≡◌, ◌<◌, ◌≤◌, ◌^◌, ◌*◌, ◌*ℤ◌, IfSome, IsNone, FitsSigned, unsigned_abs, Bool, Option};
ghost use Rattle.std.specs.Int.{w64};
ghost use Rattle.std.specs.Str.Parse.{AllDigits};
ghost use Rattle.irr_algebra.specs.Fin.{Fin};
ghost use Rattle.irr_algebra.specs.Fin.Fin.{first, next};
ghost use Rattle.irr_rational.specs.Rational.{ratio};
ghost use Rattle.irr_rational.specs.Ratio.{AreLowest, entry};
ghost use Rattle.irr_space.specs.Operation.{component};
ghost use Rattle.irr_rat.specs.VectorMeaning.{vector, vector_of};
ghost use Rattle.irr_token.specs.Token.{value_of};
ghost use Rattle.irr_token.specs.Quotient.{with_sign, denominator_value, quotient_value};
ghost use Rattle.irr_token.specs.Reading.{placed_number, written_quotient, HasDigits};
ghost use Rattle.irr_token.specs.Fault.{AreNotZero, AreWithin, denominators, limited, present_limited};

use crate::faults::DENOMINATOR_LIMIT;
use crate::read::{Number, Quotient};
use irr_digits::capped_value;
use irr_rat::{Vec3, lowest_terms};

/// A numerator with its sign, and a denominator.
#[derive(Clone, Copy)]
pub struct Value {
    pub num: i64,
    pub den: u32,
}

/// The fraction that is written, where its numbers are within their limits and it has no denominator 0.
pub fn value_of_quotient(quotient: &Quotient<'_>, limit: u64) -> Value
    requires digits { HasDigits quotient.now }
    requires not_zero { AreNotZero (denominators (written_quotient quotient.now)) }
    requires within { AreWithin (limited limit (written_quotient quotient.now)) }
    requires limit { limit ≤ 1000000 }
    ensures value { ratio result.num result.den ≡ quotient_value (written_quotient quotient.now) }
    ensures num { unsigned_abs result.num ≤ 1000000 }
    ensures positive { 0 < result.den }
    ensures den { result.den ≤ DENOMINATOR_LIMIT }
{
    let size = value_within(quotient.numerator, limit);
    let num = signed(quotient.negative, size);
    let den = denominator_of(quotient);
    Value { num, den }
}

// The number that the digits write, which is at most a limit.
fn value_within(number: Number<'_>, limit: u64) -> u64
    requires digits { AllDigits 10 number.digits.now }
    requires within { value_of (placed_number number) ≤ limit }
    ensures { result ≡ value_of (placed_number number.entry) }
{
    capped_value(number.digits, limit).unwrap()
}

// A number with a sign.
fn signed(negative: bool, size: u64) -> i64
    requires { size ≤ 1000000 }
    ensures value { result ≡ with_sign negative size }
    ensures small { unsigned_abs result ≡ size }
{
    let size = size as i64;
    if negative { -size } else { size }
}

// The denominator, 1 where none is written.
fn denominator_of(quotient: &Quotient<'_>) -> u32
    requires digits { HasDigits quotient.now }
    requires not_zero { AreNotZero (denominators (written_quotient quotient.now)) }
    requires within { AreWithin (present_limited (written_quotient quotient.now).denominator) }
    ensures value { result ≡ denominator_value (written_quotient quotient.now).denominator }
    ensures positive { 0 < result }
    ensures within { result ≤ DENOMINATOR_LIMIT }
{
    match quotient.denominator {
        Some(number) => value_within(number, DENOMINATOR_LIMIT) as u32,
        None => 1,
    }
}

/// Three fractions over their least common denominator, where it is at most 100,000.
pub fn over_least_denominator(x: Value, y: Value, z: Value) -> Option<Vec3>
    requires nums { (unsigned_abs x.num ≤ 1000000) × (unsigned_abs y.num ≤ 1000000) × (unsigned_abs z.num ≤ 1000000) }
    requires positive { (0 < x.den) × (0 < y.den) × (0 < z.den) }
    requires dens { (x.den ≤ DENOMINATOR_LIMIT) × (y.den ≤ DENOMINATOR_LIMIT) × (z.den ≤ DENOMINATOR_LIMIT) }
    ensures within { IfSome result (λ v. v.den ≤ DENOMINATOR_LIMIT) }
    ensures components { IfSome result (λ v. (component (vector v) first ≡ ratio x.num x.den)
        × (component (vector v) (next first) ≡ ratio y.num y.den)
        × (component (vector v) (next (next first)) ≡ ratio z.num z.den)) }
    ensures small { IfSome result (λ v. (i : Fin 3) → unsigned_abs (entry v.num i) ≤ 10 ^ 11) }
    ensures none { IsNone result → (num : Fin 3 → ℤ) (den : ℕ) → AreLowest num den → ratio (num first) den ≡ ratio x.num x.den
        → ratio (num (next first)) den ≡ ratio y.num y.den → ratio (num (next (next first))) den ≡ ratio z.num z.den → DENOMINATOR_LIMIT < den }
{
    let num = [
        wide(multiple_again(multiple(x.num, y.den), z.den)),
        wide(multiple_again(multiple(y.num, x.den), z.den)),
        wide(multiple_again(multiple(z.num, x.den), y.den)),
    ];
    narrowed(num, product(x.den, product(y.den, u64::from(z.den))))
}

fn multiple(num: i64, factor: u32) -> i64
    requires num { unsigned_abs num ≤ 1000000 }
    requires factor { factor ≤ DENOMINATOR_LIMIT }
    ensures value { result ≡ pos factor *ℤ num }
    ensures small { unsigned_abs result ≤ 100000000000 }
{
    i64::from(factor) * num
}

fn multiple_again(num: i64, factor: u32) -> i64
    requires num { unsigned_abs num ≤ 100000000000 }
    requires factor { factor ≤ DENOMINATOR_LIMIT }
    ensures value { result ≡ pos factor *ℤ num }
    ensures small { unsigned_abs result ≤ 10 ^ 16 }
{
    i64::from(factor) * num
}

fn wide(num: i64) -> i128
    ensures { result ≡ num }
{
    i128::from(num)
}

fn product(a: u32, b: u64) -> u64
    requires a { a ≤ DENOMINATOR_LIMIT }
    requires b { b ≤ 10000000000 }
    requires a_positive { 0 < a }
    requires b_positive { 0 < b }
    ensures value { result ≡ a * b }
    ensures positive { 0 < result }
    ensures small { result ≤ 100000 * b }
{
    u64::from(a) * b
}

// Three numerators over one denominator, where their least common denominator is at most 100,000.
fn narrowed(num: [i128; 3], den: u64) -> Option<Vec3>
    requires positive { 0 < den }
    requires fits { (i : Fin 3) → FitsSigned w64 (entry num i) }
    ensures within { IfSome result (λ v. v.den ≤ DENOMINATOR_LIMIT) }
    ensures same { IfSome result (λ v. vector v ≡ vector_of num den) }
    ensures none { IsNone result → (low : Fin 3 → ℤ) (least : ℕ) → AreLowest low least → ((i : Fin 3) → ratio (low i) least ≡ ratio (entry num i) den)
        → DENOMINATOR_LIMIT < least }
{
    let ([x, y, z], least) = lowest_terms(num, den);
    if least > DENOMINATOR_LIMIT {
        return None;
    }
    Some(Vec3 {
        num: [x as i64, y as i64, z as i64],
        den: least as u32,
    })
}
