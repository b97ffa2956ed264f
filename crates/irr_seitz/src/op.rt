// Space group operations.
ghost use Rattle.std.specs.Prelude.{ℕ, ◌≡◌, ◌<◌, ◌≤◌, ◌^◌, ◌⊎◌, ◌↔◌, ◌+ℤ◌, ◌*ℤ◌, pos, neg_ℤ, [], slice_index_or, unsigned_abs, IfSome, IsNone};
ghost use Rattle.std.specs.Ordering.{MatchOrdering};
ghost use Rattle.irr_algebra.specs.Fin.{Fin};
ghost use Rattle.irr_algebra.specs.Matrix.{◌·◌, ◌⊖◌, unit};
ghost use Rattle.irr_number.specs.Integers.{integers};
ghost use Rattle.irr_theory.specs.Extension.{matrix_power};
ghost use Rattle.irr_rational.specs.Integer.{whole_matrix};
ghost use Rattle.irr_rational.specs.Rational.{rationals, IsWhole};
ghost use Rattle.irr_space.specs.Operation.{◌⊙◌, component, IsInverse};
ghost use Rattle.irr_space.specs.CanonicalOperation.{IsInCell};
ghost use Rattle.irr_rat.specs.Lcm.{IsLcm};
ghost use Rattle.irr_rat.specs.Lowest.{AreThreeLowest};
ghost use Rattle.irr_seitz.specs.Rotation.{determinant, IsWithin, rotation_of};
ghost use Rattle.irr_seitz.specs.FiniteOrder.{IsFiniteOrder};
ghost use Rattle.irr_seitz.specs.OperationOrder.{IsOperationBelow};

use crate::rotation;
use irr_rat::Vec3;
use std::cmp::Ordering;

/// An operation (R|v): `rot` has the rows of R, and v has the components num[i]/den in lowest terms. A
/// point x goes to Rx + v.
#[derive(Clone, Copy, Debug, PartialEq, Eq)]
pub struct Op {
    pub rot: [[i16; 3]; 3],
    pub num: [i64; 3],
    pub den: u32,
    pub ghost lowest: { AreThreeLowest num den },
}

impl Op {
    ghost use Rattle.irr_seitz.specs.OperationMeaning.{operation, AreWithin};
    ghost use Rattle.irr_rat.specs.VectorMeaning.{vector};

    /// The product: first `other`, then `self`.
    pub fn compose(&self, other: &Op) -> Op
        requires entries { IsWithin 9 (operation self.now).rotation }
        requires other_entries { IsWithin 9 (operation other.now).rotation }
        requires denominator { (m : ℕ) → IsLcm self.now.den other.now.den m → m ≤ 100000 }
        requires numerators { AreWithin (10 ^ 12) self.now.num }
        requires other_numerators { AreWithin (10 ^ 12) other.now.num }
        ensures { operation result ≡ operation self.now ⊙ operation other.now }
    {
        let rot = rotation::product(&self.rot, &other.rot);
        let turned = [
            other.turned_by(&self.rot[0]),
            other.turned_by(&self.rot[1]),
            other.turned_by(&self.rot[2]),
        ];
        let shift = self.shift().add(&Vec3::new(turned, other.den));
        let num = shift.num;
        Op {
            rot,
            num,
            den: shift.den,
        }
    }

    /// The inverse.
    pub fn inverse(&self) -> Op
        requires entries { IsWithin 9 (operation self.now).rotation }
        requires unimodular { unsigned_abs (determinant (operation self.now).rotation) ≡ 1 }
        requires numerators { AreWithin (10 ^ 12) self.now.num }
        ensures { IsInverse (operation self.now) (operation result) }
    {
        let rot = rotation::inverse(&self.rot);
        let turned = [
            self.opposite_by(&rot[0]),
            self.opposite_by(&rot[1]),
            self.opposite_by(&rot[2]),
        ];
        let shift = Vec3::new(turned, self.den);
        let num = shift.num;
        Op {
            rot,
            num,
            den: shift.den,
        }
    }

    /// The determinant of the rotation.
    pub fn det(&self) -> i64
        ensures { result ≡ determinant (operation self.now).rotation }
    {
        rotation::determinant(&self.rot)
    }

    /// The same rotation, and the vector of the unit cell that differs by a whole vector.
    pub fn reduce(&self) -> Op
        ensures rotation { (operation result).rotation ≡ (operation self.now).rotation }
        ensures in_cell { IsInCell (operation result).vector }
        ensures whole { (i : Fin 3) → IsWhole (component ((operation self.now).vector ⊖ (operation result).vector) i) }
    {
        let shift = self.shift().reduce();
        let rot = self.rot;
        let num = shift.num;
        Op {
            rot,
            num,
            den: shift.den,
        }
    }

    /// The order of operations: nine entries row by row, then the vector.
    pub fn cmp(&self, other: &Op) -> Ordering
        ensures { MatchOrdering result
            (IsOperationBelow (operation self.now) (operation other.now))
            (operation self.now ≡ operation other.now)
            (IsOperationBelow (operation other.now) (operation self.now)) }
    {
        rotation::cmp(&self.rot, &other.rot).then(self.shift().cmp(&other.shift()))
    }

    /// The least positive power, of those up to `cap`, whose rotation is the unit.
    pub fn finite_order(&self, cap: u32) -> Option<u32>
        requires { (k : ℕ) → k ≤ cap → IsWithin 9 (matrix_power (operation self.now).rotation k) }
        ensures least { IfSome result (IsFiniteOrder (operation self.now).rotation) }
        ensures within { IfSome result (λ n. n ≤ cap) }
        ensures none { IsNone result ↔ ((k : ℕ) → 0 < k → k ≤ cap → ¬ (matrix_power (operation self.now).rotation k ≡ unit integers 3)) }
    {
        let mut power = self.rot;
        for n in 1..=cap {
            if rotation::is_unit(&power) {
                return Some(n);
            }
            power = rotation::product(&self.rot, &power);
        }
        None
    }

    fn shift(&self) -> Vec3
        ensures { vector result ≡ (operation self.now).vector }
    {
        let num = self.num;
        Vec3 { num, den: self.den }
    }

    // The numerator of a row times the vector, over the vector's denominator.
    fn turned_by(&self, row: &[i16; 3]) -> i64
        requires { AreWithin (10 ^ 12) self.now.num }
        ensures value { result ≡ ((slice_index_or row.now 0 (pos 0) *ℤ slice_index_or self.now.num 0 (pos 0))
            +ℤ (slice_index_or row.now 1 (pos 0) *ℤ slice_index_or self.now.num 1 (pos 0)))
            +ℤ (slice_index_or row.now 2 (pos 0) *ℤ slice_index_or self.now.num 2 (pos 0)) }
        ensures small { unsigned_abs result ≤ 2 ^ 60 }
    {
        rotation::dot(row, self.num[0], self.num[1], self.num[2])
    }

    // The negative of that numerator.
    fn opposite_by(&self, row: &[i16; 3]) -> i64
        requires { AreWithin (10 ^ 12) self.now.num }
        ensures { result ≡ neg_ℤ (((slice_index_or row.now 0 (pos 0) *ℤ slice_index_or self.now.num 0 (pos 0))
            +ℤ (slice_index_or row.now 1 (pos 0) *ℤ slice_index_or self.now.num 1 (pos 0)))
            +ℤ (slice_index_or row.now 2 (pos 0) *ℤ slice_index_or self.now.num 2 (pos 0))) }
    {
        -self.turned_by(row)
    }
}
