// The phases of translations at a wave vector.
ghost use Rattle.std.specs.Prelude.{ℤ, ◌≡◌, ◌<◌, ◌≤◌, ◌^◌, ◌+ℤ◌, ◌*ℤ◌, pos, unsigned_abs, slice_index_or};
ghost use Rattle.std.specs.Int.{int_div_euclid, int_rem_euclid};
ghost use Rattle.irr_algebra.specs.Fin.{Fin};
ghost use Rattle.irr_rational.specs.Integer.{integer};
ghost use Rattle.irr_rational.specs.Rational.{rationals, ratio, IsWhole};
ghost use Rattle.irr_rational.specs.Ratio.{entry};
ghost use Rattle.irr_space.specs.Operation.{dot};
ghost use Rattle.irr_space.specs.Reciprocal.{IsPhase, sign_number};
ghost use Rattle.irr_rat.specs.VectorMeaning.{vector};
ghost use Rattle.irr_seitz.specs.OperationMeaning.{AreWithin};
ghost use Rattle.irr_seitz.specs.PhaseMeaning.{sign_of};
ghost use Rattle.irr_kvec.specs.WaveMeaning.{wave_vector};
ghost use Rattle.irr_kvec.specs.Centrings.{IsWithinLimits};
ghost use Rattle.irr_cyc.specs.declared.orders.TheConstants.{ORDER_LIMIT};

use irr_close::Group;
use irr_kvec::Wave;
use irr_rat::Vec3;
use irr_seitz::Phase;

/// The exponent of the phase of the vector `v` at the wave vector `w`: x from 0 to n - 1 such that
/// z^x = exp(2 pi i s w.v), where z = exp(2 pi i/n) and s is the group's sign.
pub fn theta(group: &Group, n: u32, w: &Wave, v: &Vec3) -> u32
    requires positive { 0 < n }
    requires within { n ≤ ORDER_LIMIT }
    requires whole { IsWhole (rationals.mul (integer rationals (pos n)) (dot (wave_vector w.now) (vector v.now))) }
    requires limits { IsWithinLimits w.now }
    requires numerators { AreWithin (10 ^ 12) v.now.num }
    ensures { IsPhase (sign_of group.now.phase) n (wave_vector w.now) (vector v.now) result }
{
    remainder(signed(group.phase(), turns(n, w, v)), n)
}

// n times the product of the row and the column.
fn turns(n: u32, w: &Wave, v: &Vec3) -> i128
    requires within { n ≤ ORDER_LIMIT }
    requires whole { IsWhole (rationals.mul (integer rationals (pos n)) (dot (wave_vector w.now) (vector v.now))) }
    requires limits { IsWithinLimits w.now }
    requires numerators { AreWithin (10 ^ 12) v.now.num }
    ensures value { rationals.mul (integer rationals (pos n)) (dot (wave_vector w.now) (vector v.now)) ≡ integer rationals result }
    ensures small { unsigned_abs result ≤ 2 ^ 120 }
{
    quotient(
        multiple(n, product(&w.num, &v.num)),
        u64::from(w.den) * u64::from(v.den),
    )
}

/// The sign of the phase times a number.
pub(crate) fn signed(phase: Phase, number: i128) -> i128
    requires { unsigned_abs number ≤ 2 ^ 120 }
    ensures value { result ≡ sign_number (sign_of phase) *ℤ number }
    ensures small { unsigned_abs result ≤ 2 ^ 120 }
{
    match phase {
        Phase::Minus => -number,
        Phase::Plus => number,
    }
}

/// The remainder of a number by n, from 0 to n - 1.
pub(crate) fn remainder(number: i128, n: u32) -> u32
    requires { 0 < n }
    ensures { pos result ≡ int_rem_euclid number (pos n) }
{
    if number == 0 {
        return 0;
    }
    number.rem_euclid(i128::from(n)) as u32
}

/// An exact quotient.
pub(crate) fn quotient(number: i128, den: u64) -> i128
    requires positive { 0 < den }
    requires whole { IsWhole (ratio number den) }
    requires small { unsigned_abs number ≤ 2 ^ 120 }
    ensures value { integer rationals result ≡ ratio number den }
    ensures small { unsigned_abs result ≤ 2 ^ 120 }
{
    divided(number, den)
}

fn divided(number: i128, den: u64) -> i128
    requires positive { 0 < den }
    requires small { unsigned_abs number ≤ 2 ^ 120 }
    ensures { result ≡ int_div_euclid number (pos den) }
{
    if number == 0 {
        return 0;
    }
    number.div_euclid(i128::from(den))
}

fn multiple(n: u32, number: i128) -> i128
    requires within { n ≤ ORDER_LIMIT }
    requires small { unsigned_abs number ≤ 2 ^ 105 }
    ensures value { result ≡ pos n *ℤ number }
    ensures small { unsigned_abs result ≤ 2 ^ 120 }
{
    i128::from(n) * number
}

/// The sum of the products by place.
pub(crate) fn product(row: &[i64; 3], column: &[i64; 3]) -> i128
    requires row { (i : Fin 3) → unsigned_abs (entry row.now i) ≤ 2 ^ 62 }
    requires column { AreWithin (10 ^ 12) column.now }
    ensures value { result ≡ ((slice_index_or row.now 0 (pos 0) *ℤ slice_index_or column.now 0 (pos 0))
        +ℤ (slice_index_or row.now 1 (pos 0) *ℤ slice_index_or column.now 1 (pos 0)))
        +ℤ (slice_index_or row.now 2 (pos 0) *ℤ slice_index_or column.now 2 (pos 0)) }
    ensures small { unsigned_abs result ≤ 2 ^ 105 }
{
    sum(
        term(row[0], column[0]),
        term(row[1], column[1]),
        term(row[2], column[2]),
    )
}

fn term(a: i64, b: i64) -> i128
    requires first { unsigned_abs a ≤ 2 ^ 62 }
    requires second { unsigned_abs b ≤ 10 ^ 12 }
    ensures value { result ≡ a *ℤ b }
    ensures small { unsigned_abs result ≤ 2 ^ 103 }
{
    i128::from(a) * i128::from(b)
}

fn sum(x: i128, y: i128, z: i128) -> i128
    requires x { unsigned_abs x ≤ 2 ^ 103 }
    requires y { unsigned_abs y ≤ 2 ^ 103 }
    requires z { unsigned_abs z ≤ 2 ^ 103 }
    ensures value { result ≡ (x +ℤ y) +ℤ z }
    ensures small { unsigned_abs result ≤ 2 ^ 105 }
{
    x + y + z
}
