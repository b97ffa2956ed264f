// The vector P v + p - P R P^-1 p of the image of an operation (R|v).
ghost use Rattle.std.specs.Prelude.{ℕ, ◌≡◌, ◌<◌, ◌≤◌, ◌^◌, ◌*◌, ◌+ℤ◌, ◌-ℤ◌, ◌*ℤ◌, pos, [], slice_index_or, unsigned_abs, IfSome, IsNone};
ghost use Rattle.irr_rat.specs.VectorMeaning.{vector_of};
ghost use Rattle.irr_seitz.specs.OperationMeaning.{operation, AreWithin};
ghost use Rattle.irr_seitz.specs.Rotation.{rotation_of, IsWithin};
ghost use Rattle.irr_setting.specs.Determinant.{row_dot};
ghost use Rattle.irr_setting.specs.Setting.{IsSmallSetting, IsSmall, HasSmallVector, image_vector, image_number};

use crate::Setting;
use crate::matrix::{difference, dot, plus, product, short, wide};
use irr_rat::lowest_terms;
use irr_seitz::Op;

// A numerator of P v, over the product of the denominators of P and v.
fn moved_at(setting: &Setting, op: &Op, i: usize) -> i128
    requires i { i < 3 }
    requires setting { IsSmallSetting setting.now }
    requires op { IsSmall op.now }
    ensures value { result ≡ row_dot (slice_index_or setting.now.num i []) op.now.num }
    ensures small { unsigned_abs result ≤ 2 ^ 49 }
{
    dot(&wide(&setting.num[i]), &wide(&op.num))
}

// A numerator of p - P R P^-1 p, over the denominator of p.
fn fixed_at(setting: &Setting, rot: &[[i16; 3]; 3], i: usize) -> i128
    requires i { i < 3 }
    requires setting { IsSmallSetting setting.now }
    requires rotation { IsWithin 9 (rotation_of rot.now) }
    ensures value { result ≡ slice_index_or setting.now.shift.num i (pos 0) -ℤ row_dot (slice_index_or rot.now i []) setting.now.shift.num }
    ensures small { unsigned_abs result ≤ 2 ^ 25 }
{
    let origin = wide(&setting.shift.num);
    difference(origin[i], dot(&short(&rot[i]), &origin))
}

fn joined(moved: i128, fixed: i128, origin_den: u32, den: u64) -> i128
    requires moved { unsigned_abs moved ≤ 2 ^ 49 }
    requires fixed { unsigned_abs fixed ≤ 2 ^ 25 }
    requires origin { origin_den ≤ 1000 }
    requires denominator { den ≤ 10 ^ 7 }
    ensures value { result ≡ (moved *ℤ pos origin_den) +ℤ (fixed *ℤ pos den) }
    ensures small { unsigned_abs result ≤ 2 ^ 60 }
{
    plus(
        product(moved, i128::from(origin_den)),
        product(fixed, i128::from(den)),
    )
}

fn denominator(setting: &Setting, op: &Op) -> u64
    requires setting { IsSmallSetting setting.now }
    requires op { IsSmall op.now }
    ensures value { result ≡ setting.now.den * op.now.den }
    ensures positive { 0 < result }
    ensures small { result ≤ 10 ^ 7 }
{
    u64::from(setting.den) * u64::from(op.den)
}

fn numerator_at(setting: &Setting, op: &Op, rot: &[[i16; 3]; 3], i: usize) -> i128
    requires i { i < 3 }
    requires setting { IsSmallSetting setting.now }
    requires op { IsSmall op.now }
    requires rotation { IsWithin 9 (rotation_of rot.now) }
    ensures value { result ≡ image_number setting.now op.now rot.now i }
    ensures small { unsigned_abs result ≤ 2 ^ 60 }
{
    let den = denominator(setting, op);
    let moved = moved_at(setting, op, i);
    let fixed = fixed_at(setting, rot, i);
    joined(moved, fixed, setting.shift.den, den)
}

fn numerators(setting: &Setting, op: &Op, rot: &[[i16; 3]; 3]) -> [i128; 3]
    requires setting { IsSmallSetting setting.now }
    requires op { IsSmall op.now }
    requires rotation { IsWithin 9 (rotation_of rot.now) }
    ensures x { slice_index_or result 0 (pos 0) ≡ image_number setting.now op.now rot.now 0 }
    ensures y { slice_index_or result 1 (pos 0) ≡ image_number setting.now op.now rot.now 1 }
    ensures z { slice_index_or result 2 (pos 0) ≡ image_number setting.now op.now rot.now 2 }
    ensures small { AreWithin (2 ^ 60) result }
{
    [
        numerator_at(setting, op, rot, 0),
        numerator_at(setting, op, rot, 1),
        numerator_at(setting, op, rot, 2),
    ]
}

fn common_denominator(setting: &Setting, op: &Op) -> u64
    requires setting { IsSmallSetting setting.now }
    requires op { IsSmall op.now }
    ensures value { result ≡ (setting.now.den * op.now.den) * setting.now.shift.den }
    ensures positive { 0 < result }
    ensures small { result ≤ 10 ^ 10 }
{
    denominator(setting, op) * u64::from(setting.shift.den)
}

// The operation with a rotation and a vector, where this has a common denominator of at most 100,000.
fn over(rot: [[i16; 3]; 3], num: [i128; 3], den: u64) -> Option<Op>
    requires positive { 0 < den }
    requires denominator { den ≤ 10 ^ 10 }
    requires numerators { AreWithin (2 ^ 60) num }
    ensures rotation { IfSome result (λ f. (operation f).rotation ≡ rotation_of rot) }
    ensures vector { IfSome result (λ f. (operation f).vector ≡ vector_of num den) }
    ensures small { IfSome result (λ f. f.den ≤ 100000) }
    ensures none { IsNone result → ¬ (HasSmallVector (vector_of num den)) }
{
    let ([x, y, z], least) = lowest_terms(num, den);
    if least > 100_000 {
        return None;
    }
    Some(Op {
        rot,
        num: [x as i64, y as i64, z as i64],
        den: least as u32,
    })
}

/// The operation with a rotation P R P^-1 and its vector, where this has a common denominator of at most 100,000.
pub fn with_rotation(setting: &Setting, op: &Op, rot: [[i16; 3]; 3]) -> Option<Op>
    requires setting { IsSmallSetting setting.now }
    requires op { IsSmall op.now }
    requires rotation { IsWithin 9 (rotation_of rot) }
    ensures rotation { IfSome result (λ f. (operation f).rotation ≡ rotation_of rot) }
    ensures vector { IfSome result (λ f. (operation f).vector ≡ image_vector setting.now (operation op.now) (rotation_of rot)) }
    ensures small { IfSome result (λ f. f.den ≤ 100000) }
    ensures none { IsNone result → ¬ (HasSmallVector (image_vector setting.now (operation op.now) (rotation_of rot))) }
{
    let numerators = numerators(setting, op, &rot);
    let den = common_denominator(setting, op);
    let made = over(rot, numerators, den);
    made
}
