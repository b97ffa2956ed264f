// Images of points.
ghost use Rattle.std.specs.Prelude.{◌≡◌, ◌<◌, ◌≤◌, ◌*◌, ◌^◌, ◌+ℤ◌, ◌*ℤ◌, pos, unsigned_abs, slice_index_or};
ghost use Rattle.std.specs.Int.{◌∣◌};
ghost use Rattle.irr_algebra.specs.Matrix.{◌·◌, ◌⊖◌};
ghost use Rattle.irr_rational.specs.Integer.{whole_matrix};
ghost use Rattle.irr_rational.specs.Rational.{rationals};
ghost use Rattle.irr_rat.specs.VectorMeaning.{vector};
ghost use Rattle.irr_seitz.specs.Rotation.{IsWithin};
ghost use Rattle.irr_seitz.specs.OperationMeaning.{operation, AreWithin};
ghost use Rattle.irr_orbit.specs.Site.{image};
ghost use Rattle.irr_site.specs.Points.{IsPoint, fixing};

use irr_rat::Vec3;
use irr_seitz::Op;

fn term(factor: i16, number: i64) -> i64
    requires { unsigned_abs number ≤ 1000000 }
    ensures value { result ≡ factor *ℤ number }
    ensures small { unsigned_abs result ≤ 2 ^ 50 }
{
    i64::from(factor) * number
}

fn sum(x: i64, y: i64, z: i64) -> i64
    requires x { unsigned_abs x ≤ 2 ^ 50 }
    requires y { unsigned_abs y ≤ 2 ^ 50 }
    requires z { unsigned_abs z ≤ 2 ^ 50 }
    ensures value { result ≡ (x +ℤ y) +ℤ z }
{
    x + y + z
}

// A row of a rotation times three numerators.
fn row_product(row: &[i16; 3], num: &[i64; 3]) -> i64
    requires { AreWithin 1000000 num.now }
    ensures { result ≡ ((slice_index_or row.now 0 (pos 0) *ℤ slice_index_or num.now 0 (pos 0))
        +ℤ (slice_index_or row.now 1 (pos 0) *ℤ slice_index_or num.now 1 (pos 0)))
        +ℤ (slice_index_or row.now 2 (pos 0) *ℤ slice_index_or num.now 2 (pos 0)) }
{
    sum(
        term(row[0], num[0]),
        term(row[1], num[1]),
        term(row[2], num[2]),
    )
}

/// The rotation of an operation times a point.
pub(crate) fn turned(op: &Op, x: &Vec3) -> Vec3
    requires entries { IsWithin 9 (operation op.now).rotation }
    requires point { IsPoint x.now }
    ensures vector { vector result ≡ whole_matrix rationals (operation op.now).rotation · vector x.now }
    ensures small { AreWithin 27000000 result.num }
    ensures divides { result.den ∣ x.now.den }
    ensures denominator { result.den ≤ 1000 }
{
    let num = [
        row_product(&op.rot[0], &x.num),
        row_product(&op.rot[1], &x.num),
        row_product(&op.rot[2], &x.num),
    ];
    Vec3::new(num, x.den)
}

pub(crate) fn shift(op: &Op) -> Vec3
    ensures vector { vector result ≡ (operation op.now).vector }
    ensures numerators { result.num ≡ op.now.num }
    ensures denominator { result.den ≡ op.now.den }
{
    let num = op.num;
    Vec3 { num, den: op.den }
}

/// The point to which an operation carries a point.
pub(crate) fn image_of(op: &Op, x: &Vec3) -> Vec3
    requires entries { IsWithin 9 (operation op.now).rotation }
    requires point { IsPoint x.now }
    requires numerators { AreWithin 100000 op.now.num }
    requires denominator { op.now.den ≤ 100000 }
    ensures { vector result ≡ image (operation op.now) (vector x.now) }
{
    shift(op).add(&turned(op, x))
}

/// The operation with the rotation of another one that fixes a point.
pub(crate) fn fixing_op(op: &Op, x: &Vec3) -> Op
    requires entries { IsWithin 9 (operation op.now).rotation }
    requires point { IsPoint x.now }
    ensures { operation result ≡ fixing (operation op.now) (vector x.now) }
{
    let shift = x.sub(&turned(op, x));
    let rot = op.rot;
    let num = shift.num;
    Op {
        rot,
        num,
        den: shift.den,
    }
}
