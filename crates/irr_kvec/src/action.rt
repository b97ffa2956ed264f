// The action of operations on wave vectors.
ghost use Rattle.std.specs.Prelude.{ℕ, ◌≡◌, ◌<◌, ◌≤◌, ◌*◌, ◌^◌, ◌+ℤ◌, ◌*ℤ◌, pos, [], unsigned_abs, slice_index_or};
ghost use Rattle.irr_algebra.specs.Fin.{Fin};
ghost use Rattle.irr_rational.specs.Ratio.{entry};
ghost use Rattle.irr_space.specs.Operation.{turned};
ghost use Rattle.irr_seitz.specs.Rotation.{determinant, IsWithin, rotation_of};
ghost use Rattle.irr_seitz.specs.OperationMeaning.{operation};
ghost use Rattle.irr_kvec.specs.WaveMeaning.{wave_vector};
ghost use Rattle.irr_kvec.specs.Centrings.{IsWithinLimits};

use crate::wave::Wave;
use irr_seitz::Op;

/// The wave vector to which the operation (R|v) carries `k`: the product of the row and the inverse of R.
pub fn act(op: &Op, k: &Wave) -> Wave
    requires entries { IsWithin 9 (operation op.now).rotation }
    requires unimodular { unsigned_abs (determinant (operation op.now).rotation) ≡ 1 }
    requires limits { IsWithinLimits k.now }
    ensures turned_back { turned (wave_vector result) (operation op.now) ≡ wave_vector k.now }
    ensures denominator { result.den ≡ k.now.den }
    ensures size { (b : ℕ) → ((i : Fin 3) → unsigned_abs (entry k.now.num i) ≤ b) → (i : Fin 3) → unsigned_abs (entry result.num i) ≤ 486 * b }
{
    let rot = op.rot;
    let rotation = Op {
        rot,
        num: [0, 0, 0],
        den: 1,
    };
    let inverse = rotation.inverse();
    let num = row_product(&k.num, &inverse.rot);
    Wave { num, den: k.den }
}

// A row times a rotation.
fn row_product(num: &[i64; 3], rot: &[[i16; 3]; 3]) -> [i64; 3]
    requires small { (i : Fin 3) → unsigned_abs (entry num.now i) ≤ 10 ^ 14 }
    requires within { IsWithin 162 (rotation_of rot.now) }
    ensures { (i : Fin 3) → entry result i ≡ ((slice_index_or num.now 0 (pos 0) *ℤ entry (slice_index_or rot.now 0 []) i)
        +ℤ (slice_index_or num.now 1 (pos 0) *ℤ entry (slice_index_or rot.now 1 []) i))
        +ℤ (slice_index_or num.now 2 (pos 0) *ℤ entry (slice_index_or rot.now 2 []) i) }
{
    [
        product_at(num, rot, 0),
        product_at(num, rot, 1),
        product_at(num, rot, 2),
    ]
}

fn product_at(num: &[i64; 3], rot: &[[i16; 3]; 3], place: usize) -> i64
    requires place { place < 3 }
    requires small { (i : Fin 3) → unsigned_abs (entry num.now i) ≤ 10 ^ 14 }
    requires within { IsWithin 162 (rotation_of rot.now) }
    ensures { result ≡ ((slice_index_or num.now 0 (pos 0) *ℤ slice_index_or (slice_index_or rot.now 0 []) place (pos 0))
        +ℤ (slice_index_or num.now 1 (pos 0) *ℤ slice_index_or (slice_index_or rot.now 1 []) place (pos 0)))
        +ℤ (slice_index_or num.now 2 (pos 0) *ℤ slice_index_or (slice_index_or rot.now 2 []) place (pos 0)) }
{
    term(num[0], rot[0][place]) + term(num[1], rot[1][place]) + term(num[2], rot[2][place])
}

fn term(number: i64, factor: i16) -> i64
    requires small { unsigned_abs number ≤ 10 ^ 14 }
    requires factor { unsigned_abs factor ≤ 162 }
    ensures value { result ≡ number *ℤ factor }
    ensures small { unsigned_abs result ≤ 2 ^ 54 }
{
    number * i64::from(factor)
}
