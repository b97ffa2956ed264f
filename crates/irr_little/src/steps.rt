// Steps from one point of a line or plane to another, over a multiple of the denominators of both.
ghost use Rattle.std.specs.Prelude.{ℕ, ◌≡◌, ◌<◌, ◌≤◌, ◌^◌, ◌↔◌, ◌+ℤ◌, ◌-ℤ◌, ◌*ℤ◌, IsTrue, pos, [], unsigned_abs, slice_index_or};
ghost use Rattle.std.specs.Int.{int_div_euclid};
ghost use Rattle.irr_algebra.specs.Fin.{Fin};
ghost use Rattle.irr_algebra.specs.Matrix.{◌⊖◌};
ghost use Rattle.irr_rational.specs.Integer.{integer};
ghost use Rattle.irr_rational.specs.Rational.{rationals, ratio, IsWhole};
ghost use Rattle.irr_rational.specs.Ratio.{entry};
ghost use Rattle.irr_space.specs.Operation.{WaveVector, dot, turned};
ghost use Rattle.irr_space.specs.Reciprocal.{IsPhase};
ghost use Rattle.irr_rat.specs.VectorMeaning.{vector};
ghost use Rattle.irr_seitz.specs.Rotation.{IsWithin, rotation_of};
ghost use Rattle.irr_seitz.specs.OperationMeaning.{AreWithin, operation};
ghost use Rattle.irr_seitz.specs.PhaseMeaning.{sign_of};
ghost use Rattle.irr_kvec.specs.WaveMeaning.{wave_of, wave_vector};
ghost use Rattle.irr_kvec.specs.Centrings.{IsWithinLimits};
ghost use Rattle.irr_cyc.specs.declared.orders.TheConstants.{ORDER_LIMIT};
ghost use Rattle.irr_little.specs.Steps.{IsStep, IsWholeMultiple};

use crate::phase::{product, quotient, remainder, signed};
use irr_close::Group;
use irr_kvec::Wave;
use irr_rat::Vec3;
use irr_seitz::Op;

/// The exponent of the phase of the vector `v` at the step from `point` to `first`: x from 0 to n - 1 such that
/// z^x = exp(2 pi i s w.v), where w is `first` less `point`, z = exp(2 pi i/n) and s is the group's sign.
pub fn step_phase(group: &Group, n: u32, point: &Wave, first: &Wave, v: &Vec3) -> u32
    requires positive { 0 < n }
    requires within { n ≤ ORDER_LIMIT }
    requires limits { IsWithinLimits point.now }
    requires first_limits { IsWithinLimits first.now }
    requires multiple { IsWholeMultiple n (wave_vector point.now) }
    requires first_multiple { IsWholeMultiple n (wave_vector first.now) }
    requires whole { IsWhole (rationals.mul (integer rationals (pos n))
        (dot (wave_vector first.now ⊖ wave_vector point.now) (vector v.now))) }
    requires numerators { AreWithin (10 ^ 12) v.now.num }
    ensures { IsPhase (sign_of group.now.phase) n (wave_vector first.now ⊖ wave_vector point.now) (vector v.now) result }
{
    let step = whole_step(n, point, first);
    let turns = quotient(product(&step, &v.num), u64::from(v.den));
    remainder(signed(group.phase(), turns), n)
}

/// n times the step from one wave vector to another, by place.
pub(crate) fn whole_step(n: u32, from: &Wave, to: &Wave) -> [i64; 3]
    requires within { n ≤ ORDER_LIMIT }
    requires limits { IsWithinLimits from.now }
    requires other_limits { IsWithinLimits to.now }
    requires multiple { IsWholeMultiple n (wave_vector from.now) }
    requires other_multiple { IsWholeMultiple n (wave_vector to.now) }
    ensures value { IsStep n (wave_vector from.now) (wave_vector to.now) result }
    ensures small { (i : Fin 3) → unsigned_abs (entry result i) ≤ 2 ^ 62 }
{
    let start = whole_row(n, from);
    let end = whole_row(n, to);
    [
        difference(end[0], start[0]),
        difference(end[1], start[1]),
        difference(end[2], start[2]),
    ]
}

// n times a wave vector, by place.
fn whole_row(n: u32, k: &Wave) -> [i64; 3]
    requires within { n ≤ ORDER_LIMIT }
    requires limits { IsWithinLimits k.now }
    requires multiple { IsWholeMultiple n (wave_vector k.now) }
    ensures value { (i : Fin 3) → integer rationals (entry result i) ≡ ratio (pos n *ℤ entry k.now.num i) k.now.den }
    ensures small { (i : Fin 3) → unsigned_abs (entry result i) ≤ 2 ^ 61 }
{
    [
        exact(scaled(n, k.num[0]), k.den),
        exact(scaled(n, k.num[1]), k.den),
        exact(scaled(n, k.num[2]), k.den),
    ]
}

fn scaled(n: u32, number: i64) -> i64
    requires within { n ≤ ORDER_LIMIT }
    requires small { unsigned_abs number ≤ 10 ^ 14 }
    ensures value { result ≡ pos n *ℤ number }
    ensures small { unsigned_abs result ≤ 2 ^ 61 }
{
    i64::from(n) * number
}

// An exact quotient.
fn exact(number: i64, den: u32) -> i64
    requires positive { 0 < den }
    requires whole { IsWhole (ratio number den) }
    requires small { unsigned_abs number ≤ 2 ^ 61 }
    ensures value { integer rationals result ≡ ratio number den }
    ensures small { unsigned_abs result ≤ 2 ^ 61 }
{
    divided(number, den)
}

fn divided(number: i64, den: u32) -> i64
    requires positive { 0 < den }
    requires small { unsigned_abs number ≤ 2 ^ 61 }
    ensures { result ≡ int_div_euclid number (pos den) }
{
    number.div_euclid(i64::from(den))
}

fn difference(a: i64, b: i64) -> i64
    requires small { unsigned_abs a ≤ 2 ^ 61 }
    requires other_small { unsigned_abs b ≤ 2 ^ 61 }
    ensures value { result ≡ a -ℤ b }
    ensures small { unsigned_abs result ≤ 2 ^ 62 }
{
    a - b
}

/// Whether the rotation of an operation keeps a row.
pub(crate) fn keeps_row(op: &Op, row: &[i64; 3]) -> bool
    requires entries { IsWithin 9 (operation op.now).rotation }
    requires small { (i : Fin 3) → unsigned_abs (entry row.now i) ≤ 2 ^ 62 }
    ensures { IsTrue result ↔ (turned (wave_of row.now 1) (operation op.now) ≡ wave_of row.now 1) }
{
    are_same(&row_product(row, &op.rot), row)
}

// A row times a rotation.
fn row_product(row: &[i64; 3], rot: &[[i16; 3]; 3]) -> [i128; 3]
    requires within { IsWithin 9 (rotation_of rot.now) }
    requires small { (i : Fin 3) → unsigned_abs (entry row.now i) ≤ 2 ^ 62 }
    ensures { (i : Fin 3) → entry result i ≡ ((slice_index_or row.now 0 (pos 0) *ℤ entry (slice_index_or rot.now 0 []) i)
        +ℤ (slice_index_or row.now 1 (pos 0) *ℤ entry (slice_index_or rot.now 1 []) i))
        +ℤ (slice_index_or row.now 2 (pos 0) *ℤ entry (slice_index_or rot.now 2 []) i) }
{
    [
        product(row, &column(rot, 0)),
        product(row, &column(rot, 1)),
        product(row, &column(rot, 2)),
    ]
}

fn column(rot: &[[i16; 3]; 3], place: usize) -> [i64; 3]
    requires place { place < 3 }
    requires within { IsWithin 9 (rotation_of rot.now) }
    ensures first { slice_index_or result 0 (pos 0) ≡ slice_index_or (slice_index_or rot.now 0 []) place (pos 0) }
    ensures second { slice_index_or result 1 (pos 0) ≡ slice_index_or (slice_index_or rot.now 1 []) place (pos 0) }
    ensures third { slice_index_or result 2 (pos 0) ≡ slice_index_or (slice_index_or rot.now 2 []) place (pos 0) }
    ensures small { AreWithin (10 ^ 12) result }
{
    [
        i64::from(rot[0][place]),
        i64::from(rot[1][place]),
        i64::from(rot[2][place]),
    ]
}

fn are_same(a: &[i128; 3], b: &[i64; 3]) -> bool
    ensures { IsTrue result ↔ ((i : Fin 3) → entry a.now i ≡ entry b.now i) }
{
    if !is_same(a[0], b[0]) {
        return false;
    }
    if !is_same(a[1], b[1]) {
        return false;
    }
    is_same(a[2], b[2])
}

fn is_same(a: i128, b: i64) -> bool
    ensures { IsTrue result ↔ (a ≡ b) }
{
    a == i128::from(b)
}
