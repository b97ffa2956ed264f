// Operations in another setting.
ghost use Rattle.std.specs.Prelude.{ℕ, ℤ, ◌≡◌, ◌<◌, ◌≤◌, ◌^◌, ◌*◌, ◌+ℤ◌, ◌-ℤ◌, ◌*ℤ◌, pos, [], slice_index_or, unsigned_abs, IfSome, IsNone};
ghost use Rattle.irr_algebra.specs.Fin.{Fin, to_nat};
ghost use Rattle.irr_number.specs.Integers.{integers};
ghost use Rattle.irr_rational.specs.Ratio.{entry};
ghost use Rattle.irr_space.specs.Operation.{Operation, Rotation};
ghost use Rattle.irr_seitz.specs.OperationMeaning.{operation, AreWithin};
ghost use Rattle.irr_seitz.specs.Rotation.{rotation_of, IsWithin};
ghost use Rattle.irr_setting.specs.Determinant.{row_dot, determinant_in};
ghost use Rattle.irr_setting.specs.Setting.{IsSingular, IsSmallSetting, IsSmall, MayBeImage, AreQuotients};

use crate::Setting;
use crate::matrix::{cofactors, determinant, dot, turned, wide};
use crate::quotient::quotient;
use crate::shift::with_rotation;
use irr_seitz::Op;

// The quotients of the products of a row with the rows of cofactors.
fn quotient_row(row: &[i128; 3], cofactors: &[[i128; 3]; 3], divisor: i128) -> Option<[i16; 3]>
    requires row { AreWithin (2 ^ 60) row.now }
    requires cofactors { IsWithin (2 ^ 60) (rotation_of cofactors.now) }
    requires nonzero { ¬ (divisor ≡ pos 0) }
    requires divisor { unsigned_abs divisor ≤ 2 ^ 60 }
    ensures some { IfSome result (λ q. (j : Fin 3)
        → (divisor *ℤ entry q j ≡ row_dot row.now (slice_index_or cofactors.now (to_nat j) [])) × (unsigned_abs (entry q j) ≤ 9)) }
    ensures none { IsNone result → (q : Fin 3 → ℤ) → ((j : Fin 3)
        → (divisor *ℤ q j ≡ row_dot row.now (slice_index_or cofactors.now (to_nat j) [])) × (unsigned_abs (q j) ≤ 9)) → ⊥ }
{
    Some([
        quotient(dot(row, &cofactors[0]), divisor)?,
        quotient(dot(row, &cofactors[1]), divisor)?,
        quotient(dot(row, &cofactors[2]), divisor)?,
    ])
}

// P R P^-1, where its entries are whole numbers of at most 9 in absolute value.
fn rotation(num: &[[i64; 3]; 3], rot: &[[i16; 3]; 3]) -> Option<[[i16; 3]; 3]>
    requires basis { IsWithin (10 ^ 4) (rotation_of num.now) }
    requires regular { ¬ (determinant_in integers (rotation_of num.now) ≡ pos 0) }
    requires within { IsWithin 9 (rotation_of rot.now) }
    ensures some { IfSome result (λ r. AreQuotients num.now rot.now (rotation_of r)) }
    ensures none { IsNone result → (F : Rotation) → ¬ (AreQuotients num.now rot.now F) }
{
    let cofactors = cofactors(num);
    let det = determinant(num);
    Some([
        quotient_row(&turned(&wide(&num[0]), rot), &cofactors, det)?,
        quotient_row(&turned(&wide(&num[1]), rot), &cofactors, det)?,
        quotient_row(&turned(&wide(&num[2]), rot), &cofactors, det)?,
    ])
}

/// The image (P R P^-1 | P v + p - P R P^-1 p) of an operation (R|v) of the new setting, where its rotation has whole entries of at
/// most 9 in absolute value and its vector a common denominator of at most 100,000.
pub fn image(setting: &Setting, op: &Op) -> Option<Op>
    requires setting { IsSmallSetting setting.now }
    requires regular { ¬ (IsSingular setting.now) }
    requires op { IsSmall op.now }
    ensures some { IfSome result (λ f. MayBeImage setting.now (operation op.now) (operation f)) }
    ensures none { IsNone result → (f : Operation) → ¬ (MayBeImage setting.now (operation op.now) f) }
{
    match rotation(&setting.num, &op.rot) {
        Some(rot) => with_rotation(setting, op, rot),
        None => None,
    }
}
