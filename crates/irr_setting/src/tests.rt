//! Singular bases, wave vectors and operations in another setting.
ghost use Rattle.std.specs.Prelude.{◌<◌, ◌≤◌, ◌^◌, IsTrue, unsigned_abs};
ghost use Rattle.irr_seitz.specs.OperationMeaning.{AreWithin};
ghost use Rattle.irr_seitz.specs.Rotation.{IsWithin, rotation_of};
ghost use Rattle.irr_setting.specs.Setting.{IsSmallSetting};

use crate::Setting;
use irr_kvec::Wave;
use irr_rat::Vec3;
use std::test::Fail;

fn setting(num: [[i64; 3]; 3], shift: [i64; 3], shift_den: u32) -> Setting
    requires { 0 < shift_den }
{
    let shift = Vec3::new(shift, shift_den);
    Setting { num, den: 1, shift }
}

fn wave(num: [i64; 3], den: u32) -> Wave
    requires { 0 < den }
{
    let lowest = Vec3::new(num, den);
    let num = lowest.num;
    Wave {
        num,
        den: lowest.den,
    }
}

fn is_at_most(number: i64, limit: u64) -> bool
    ensures { IsTrue result → unsigned_abs number ≤ limit }
{
    number.unsigned_abs() <= limit
}

fn are_within(numbers: &[i64; 3], limit: u64) -> bool
    ensures { IsTrue result → AreWithin limit numbers.now }
{
    if !is_at_most(numbers[0], limit) {
        return false;
    }
    if !is_at_most(numbers[1], limit) {
        return false;
    }
    is_at_most(numbers[2], limit)
}

fn are_small_rows(rows: &[[i64; 3]; 3]) -> bool
    ensures { IsTrue result → IsWithin (10 ^ 4) (rotation_of rows.now) }
{
    if !are_within(&rows[0], 10_000) {
        return false;
    }
    if !are_within(&rows[1], 10_000) {
        return false;
    }
    are_within(&rows[2], 10_000)
}

fn is_small_setting(setting: &Setting) -> bool
    ensures { IsTrue result → IsSmallSetting setting.now }
{
    if !are_small_rows(&setting.num) {
        return false;
    }
    if setting.den > 100 {
        return false;
    }
    if setting.shift.den > 1000 {
        return false;
    }
    if !are_within(&setting.shift.num, 1_000_000) {
        return false;
    }
    let limit = 1000 * u64::from(setting.shift.den);
    are_within(&setting.shift.num, limit)
}

// Whether the basis is singular; none where the setting is not small.
fn is_singular(setting: &Setting) -> Option<bool> {
    if !is_small_setting(setting) {
        return None;
    }
    Some(setting.det_is_zero())
}

// The wave vector in the new basis; none where numbers are not small.
fn wave_in(setting: &Setting, k: &Wave) -> Option<Wave> {
    if !is_small_setting(setting) {
        return None;
    }
    if k.den > 100_000 {
        return None;
    }
    if !are_within(&k.num, 1_000_000_000) {
        return None;
    }
    Some(setting.wave(k))
}

fn is_wave(wave: Option<Wave>, num: [i64; 3], den: u32) -> bool {
    match wave {
        Some(wave) => wave.num == num && wave.den == den,
        None => false,
    }
}

// Two rows are the same.
#[test]
fn basis_of_two_dimensions(rt: HostRuntime) -> Result<(), Fail> {
    let flat = setting([[1, 0, 1], [0, 1, 0], [1, 0, 1]], [0, 0, 0], 1);
    assert!(rt; is_singular(&flat) == Some(true));
    Ok(())
}

// The basis (a+b, b+c, c+a) has the determinant 2.
#[test]
fn basis_of_a_doubled_cell(rt: HostRuntime) -> Result<(), Fail> {
    let doubled = setting([[1, 0, 1], [1, 1, 0], [0, 1, 1]], [0, 0, 0], 1);
    assert!(rt; is_singular(&doubled) == Some(false));
    Ok(())
}

// With c doubled, the zone boundary 0,0,1/2 is 0,0,1.
#[test]
fn zone_boundary_of_a_doubled_axis(rt: HostRuntime) -> Result<(), Fail> {
    let doubled = setting([[1, 0, 0], [0, 1, 0], [0, 0, 2]], [0, 0, 0], 1);
    let k = wave_in(&doubled, &wave([0, 0, 1], 2));
    assert!(rt; is_wave(k, [0, 0, 1], 1));
    Ok(())
}

// With a' = a + b, the first component of k in the new basis is the sum of the first two.
#[test]
fn components_along_the_new_axes(rt: HostRuntime) -> Result<(), Fail> {
    let sheared = setting([[1, 0, 0], [1, 1, 0], [0, 0, 1]], [0, 0, 0], 1);
    let k = wave_in(&sheared, &wave([1, 2, 0], 5));
    assert!(rt; is_wave(k, [3, 2, 0], 5));
    Ok(())
}
