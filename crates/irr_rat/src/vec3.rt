// Vectors of three fractions.
ghost use Rattle.std.specs.Prelude.{◌≡◌, ◌<◌, ◌≤◌, ◌^◌, ◌+ℤ◌, ◌-ℤ◌, ◌*ℤ◌, ◌<ℤ◌, pos, unsigned_abs, slice_index_or};
ghost use Rattle.std.specs.Int.{int_rem_euclid};
ghost use Rattle.std.specs.Ordering.{MatchOrdering};
ghost use Rattle.irr_algebra.specs.Fin.{Fin};
ghost use Rattle.irr_algebra.specs.Matrix.{◌⊕◌, ◌⊖◌};
ghost use Rattle.irr_rational.specs.Rational.{IsWhole};
ghost use Rattle.irr_rational.specs.Order.{IsBelow};
ghost use Rattle.irr_space.specs.Operation.{component};
ghost use Rattle.irr_space.specs.CanonicalOperation.{IsInCell};
ghost use Rattle.irr_rat.specs.Lowest.{AreThreeLowest};

use crate::lowest::lowest_terms;
use std::cmp::Ordering;

/// A vector: three components over their least common denominator, in the basis of the coordinates. It
/// stands for the column (num[0]/den, num[1]/den, num[2]/den).
#[derive(Clone, Copy, Debug, PartialEq, Eq)]
pub struct Vec3 {
    pub num: [i64; 3],
    pub den: u32,
    pub ghost lowest: { AreThreeLowest num den },
}

fn product(number: i64, factor: u32) -> i128
    ensures value { result ≡ number *ℤ pos factor }
    ensures small { unsigned_abs result ≤ 2 ^ 95 }
{
    i128::from(number) * i128::from(factor)
}

impl Vec3 {
    ghost use Rattle.irr_rat.specs.VectorMeaning.{Fits, vector, vector_of};

    /// The vector (num[0]/den, num[1]/den, num[2]/den).
    pub fn new(num: [i64; 3], den: u32) -> Vec3
        requires { 0 < den }
        ensures { vector result ≡ vector_of num den }
    {
        let [x, y, z] = num;
        Vec3::narrowed(
            [i128::from(x), i128::from(y), i128::from(z)],
            u64::from(den),
        )
    }

    /// The sum, where it has a common denominator and numerators that fit.
    pub fn add(&self, other: &Vec3) -> Vec3
        requires { Fits (vector self.now ⊕ vector other.now) }
        ensures { vector result ≡ vector self.now ⊕ vector other.now }
    {
        let sums = [
            self.sum_at(other, 0),
            self.sum_at(other, 1),
            self.sum_at(other, 2),
        ];
        Vec3::narrowed(sums, u64::from(self.den) * u64::from(other.den))
    }

    /// The difference, where it has a common denominator and numerators that fit.
    pub fn sub(&self, other: &Vec3) -> Vec3
        requires { Fits (vector self.now ⊖ vector other.now) }
        ensures { vector result ≡ vector self.now ⊖ vector other.now }
    {
        let differences = [
            self.difference_at(other, 0),
            self.difference_at(other, 1),
            self.difference_at(other, 2),
        ];
        Vec3::narrowed(differences, u64::from(self.den) * u64::from(other.den))
    }

    /// The lexicographic order by value.
    pub fn cmp(&self, other: &Vec3) -> Ordering
        ensures { MatchOrdering result
            (IsBelow (component (vector self.now)) (component (vector other.now)))
            (vector self.now ≡ vector other.now)
            (IsBelow (component (vector other.now)) (component (vector self.now))) }
    {
        self.cmp_at(other, 0)
            .then(self.cmp_at(other, 1))
            .then(self.cmp_at(other, 2))
    }

    /// Each component less its floor: the vector of the unit cell that differs by a whole vector.
    pub fn reduce(&self) -> Vec3
        ensures in_cell { IsInCell (vector result) }
        ensures whole { (i : Fin 3) → IsWhole (component (vector self.now ⊖ vector result) i) }
    {
        Vec3::new(
            [self.rest_at(0), self.rest_at(1), self.rest_at(2)],
            self.den,
        )
    }

    // The numerator of a component of the sum over the product of the denominators.
    fn sum_at(&self, other: &Vec3, i: usize) -> i128
        requires { i < 3 }
        ensures { result ≡ (slice_index_or self.now.num i (pos 0) *ℤ pos other.now.den)
            +ℤ (slice_index_or other.now.num i (pos 0) *ℤ pos self.now.den) }
    {
        product(self.num[i], other.den) + product(other.num[i], self.den)
    }

    // That of the difference.
    fn difference_at(&self, other: &Vec3, i: usize) -> i128
        requires { i < 3 }
        ensures { result ≡ (slice_index_or self.now.num i (pos 0) *ℤ pos other.now.den)
            -ℤ (slice_index_or other.now.num i (pos 0) *ℤ pos self.now.den) }
    {
        product(self.num[i], other.den) - product(other.num[i], self.den)
    }

    // How a component compares by value.
    fn cmp_at(&self, other: &Vec3, i: usize) -> Ordering
        requires { i < 3 }
        ensures { MatchOrdering result
            ((slice_index_or self.now.num i (pos 0) *ℤ pos other.now.den) <ℤ (slice_index_or other.now.num i (pos 0) *ℤ pos self.now.den))
            ((slice_index_or self.now.num i (pos 0) *ℤ pos other.now.den) ≡ (slice_index_or other.now.num i (pos 0) *ℤ pos self.now.den))
            ((slice_index_or other.now.num i (pos 0) *ℤ pos self.now.den) <ℤ (slice_index_or self.now.num i (pos 0) *ℤ pos other.now.den)) }
    {
        product(self.num[i], other.den).cmp(&product(other.num[i], self.den))
    }

    // The numerator of a component less its floor.
    fn rest_at(&self, i: usize) -> i64
        requires { i < 3 }
        ensures { result ≡ int_rem_euclid (slice_index_or self.now.num i (pos 0)) (pos self.now.den) }
    {
        self.num[i].rem_euclid(i64::from(self.den))
    }

    fn narrowed(num: [i128; 3], den: u64) -> Vec3
        requires positive { 0 < den }
        requires fits { Fits (vector_of num den) }
        ensures { vector result ≡ vector_of num den }
    {
        let ([x, y, z], den) = lowest_terms(num, den);
        Vec3 {
            num: [x as i64, y as i64, z as i64],
            den: den as u32,
        }
    }
}
