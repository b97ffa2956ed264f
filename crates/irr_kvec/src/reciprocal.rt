// Membership in the reciprocal lattice of the lattice that centrings give.
ghost use Rattle.std.specs.Prelude.{◌≡◌, ◌<◌, ◌≤◌, ◌^◌, ◌↔◌, ◌+ℤ◌, ◌*ℤ◌, All, IsTrue, pos, unsigned_abs, slice_index_or};
ghost use Rattle.irr_algebra.specs.Fin.{Fin};
ghost use Rattle.irr_algebra.specs.Matrix.{null};
ghost use Rattle.irr_rational.specs.Rational.{IsWhole, ratio};
ghost use Rattle.irr_rational.specs.Ratio.{entry};
ghost use Rattle.irr_space.specs.Operation.{dot};
ghost use Rattle.irr_space.specs.Reciprocal.{IsReciprocal};
ghost use Rattle.irr_rat.specs.VectorMeaning.{vector};
ghost use Rattle.irr_kvec.specs.WaveMeaning.{wave_of};
ghost use Rattle.irr_kvec.specs.Centrings.{IsCentred, LatticeOf};

use irr_rat::Vec3;

/// Whether num[0]/den, num[1]/den, num[2]/den is a vector of the reciprocal lattice.
pub(crate) fn is_reciprocal(centrings: &[Vec3], num: &[i64; 3], den: u32) -> bool
    requires positive { 0 < den }
    requires zero { IsCentred centrings.now null }
    requires small { (i : Fin 3) → unsigned_abs (entry num.now i) ≤ 2 ^ 60 }
    ensures { IsTrue result ↔ IsReciprocal (LatticeOf centrings.now) (wave_of num.now den) }
{
    is_whole(num, den) && is_whole_along_each(centrings, num, den)
}

// Whether the three fractions are whole.
fn is_whole(num: &[i64; 3], den: u32) -> bool
    requires { 0 < den }
    ensures { IsTrue result ↔ All (λ x. IsWhole (ratio x den)) num.now }
{
    num.iter()
        .all(|number| is_divisible(i128::from(*number), u64::from(den)))
}

// Whether the products with the centrings are whole.
fn is_whole_along_each(centrings: &[Vec3], num: &[i64; 3], den: u32) -> bool
    requires positive { 0 < den }
    requires small { (i : Fin 3) → unsigned_abs (entry num.now i) ≤ 2 ^ 60 }
    ensures { IsTrue result ↔ All (λ centring. IsWhole (dot (wave_of num.now den) (vector centring))) centrings.now }
{
    centrings
        .iter()
        .all(|centring| is_whole_along(num, den, centring))
}

// Whether the product with a vector is whole.
fn is_whole_along(num: &[i64; 3], den: u32, along: &Vec3) -> bool
    requires positive { 0 < den }
    requires small { (i : Fin 3) → unsigned_abs (entry num.now i) ≤ 2 ^ 60 }
    ensures { IsTrue result ↔ IsWhole (dot (wave_of num.now den) (vector along.now)) }
{
    is_divisible(
        product(num, &along.num),
        u64::from(den) * u64::from(along.den),
    )
}

fn is_divisible(number: i128, den: u64) -> bool
    requires { 0 < den }
    ensures { IsTrue result ↔ IsWhole (ratio number den) }
{
    number.unsigned_abs() % u128::from(den) == 0
}

// The sum of the products by place.
fn product(row: &[i64; 3], column: &[i64; 3]) -> i128
    requires { (i : Fin 3) → unsigned_abs (entry row.now i) ≤ 2 ^ 60 }
    ensures { result ≡ ((slice_index_or row.now 0 (pos 0) *ℤ slice_index_or column.now 0 (pos 0))
        +ℤ (slice_index_or row.now 1 (pos 0) *ℤ slice_index_or column.now 1 (pos 0)))
        +ℤ (slice_index_or row.now 2 (pos 0) *ℤ slice_index_or column.now 2 (pos 0)) }
{
    term(row[0], column[0]) + term(row[1], column[1]) + term(row[2], column[2])
}

fn term(a: i64, b: i64) -> i128
    requires { unsigned_abs a ≤ 2 ^ 60 }
    ensures value { result ≡ a *ℤ b }
    ensures small { unsigned_abs result ≤ 2 ^ 123 }
{
    i128::from(a) * i128::from(b)
}
