//! Subgroups and why there is none; restrictions to them.
ghost use Rattle.std.specs.Prelude.{◌≡◌, ◌<◌, ◌≤◌, ◌^◌, IsTrue, unsigned_abs};
ghost use Rattle.std.specs.List.{All};
ghost use Rattle.irr_seitz.specs.OperationMeaning.{AreWithin, operation};
ghost use Rattle.irr_seitz.specs.Rotation.{IsWithin, determinant, rotation_of};
ghost use Rattle.irr_close.specs.Rows.{IsSmallRow};
ghost use Rattle.irr_kvec.specs.Centrings.{IsWithinLimits};
ghost use Rattle.irr_setting.specs.Setting.{IsSmall, IsSmallSetting};

use crate::{Part, RepParts, Setting, SubError, subduce, subgroup};
use irr_close::{Group, close};
use irr_cyc::Dense;
use irr_kvec::Wave;
use irr_rat::Vec3;
use irr_seitz::{Op, Phase};
use std::alloc::Global;
use std::test::Fail;

const INVERSION: [[i16; 3]; 3] = [[-1, 0, 0], [0, -1, 0], [0, 0, -1]];

const QUARTER_TURN: [[i16; 3]; 3] = [[0, -1, 0], [1, 0, 0], [0, 0, 1]];

const THIRD_TURN: [[i16; 3]; 3] = [[0, 0, 1], [1, 0, 0], [0, 1, 0]];

const HALF_TURN: [[i16; 3]; 3] = [[-1, 0, 0], [0, 1, 0], [0, 0, -1]];

const UNIT: [[i64; 3]; 3] = [[1, 0, 0], [0, 1, 0], [0, 0, 1]];

fn op(rot: [[i16; 3]; 3], num: [i64; 3], den: u32) -> Op
    requires { 0 < den }
{
    let shift = Vec3::new(num, den);
    let num = shift.num;
    Op {
        rot,
        num,
        den: shift.den,
    }
}

fn wave(num: [i64; 3], den: u32) -> Wave
    requires { 0 < den }
{
    let lowest = Vec3::new(num, den);
    let num = lowest.num;
    Wave {
        num,
        den: lowest.den,
    }
}

fn setting(num: [[i64; 3]; 3], den: u32, shift: [i64; 3], shift_den: u32) -> Setting
    requires basis { 0 < den }
    requires origin { 0 < shift_den }
{
    let shift = Vec3::new(shift, shift_den);
    Setting { num, den, shift }
}

fn is_at_most(number: i64, limit: u64) -> bool
    ensures { IsTrue result → unsigned_abs number ≤ limit }
{
    number.unsigned_abs() <= limit
}

fn are_within(numbers: &[i64; 3], limit: u64) -> bool
    ensures { IsTrue result → AreWithin limit numbers.now }
{
    if !is_at_most(numbers[0], limit) {
        return false;
    }
    if !is_at_most(numbers[1], limit) {
        return false;
    }
    is_at_most(numbers[2], limit)
}

fn are_small_rows(rows: &[[i64; 3]; 3]) -> bool
    ensures { IsTrue result → IsWithin (10 ^ 4) (rotation_of rows.now) }
{
    if !are_within(&rows[0], 10_000) {
        return false;
    }
    if !are_within(&rows[1], 10_000) {
        return false;
    }
    are_within(&rows[2], 10_000)
}

fn is_small_setting(setting: &Setting) -> bool
    ensures { IsTrue result → IsSmallSetting setting.now }
{
    if !are_small_rows(&setting.num) {
        return false;
    }
    if setting.den > 100 {
        return false;
    }
    if setting.shift.den > 1000 {
        return false;
    }
    if !are_within(&setting.shift.num, 1_000_000) {
        return false;
    }
    let limit = 1000 * u64::from(setting.shift.den);
    are_within(&setting.shift.num, limit)
}

fn is_small_row(row: &[i16; 3]) -> bool
    ensures { IsTrue result → IsSmallRow row.now }
{
    row[0].unsigned_abs() <= 9 && row[1].unsigned_abs() <= 9 && row[2].unsigned_abs() <= 9
}

fn is_small_rotation(rot: &[[i16; 3]; 3]) -> bool
    ensures { IsTrue result → IsWithin 9 (rotation_of rot.now) }
{
    if !is_small_row(&rot[0]) {
        return false;
    }
    if !is_small_row(&rot[1]) {
        return false;
    }
    is_small_row(&rot[2])
}

fn is_small(op: &Op) -> bool
    ensures { IsTrue result → IsSmall op.now }
{
    if !is_small_rotation(&op.rot) {
        return false;
    }
    if op.den > 100_000 {
        return false;
    }
    are_within(&op.num, 10_000_000_000)
}

fn are_small(ops: &[Op]) -> bool
    ensures { IsTrue result → All IsSmall ops.now }
{
    ops.iter().all(|op| is_small(op))
}

fn is_unimodular(op: &Op) -> bool
    ensures { IsTrue result → unsigned_abs (determinant (operation op.now).rotation) ≡ 1 }
{
    op.det().unsigned_abs() == 1
}

fn are_unimodular(ops: &[Op]) -> bool
    ensures { IsTrue result → All (λ s. unsigned_abs (determinant (operation s).rotation) ≡ 1) ops.now }
{
    ops.iter().all(|op| is_unimodular(op))
}

fn is_within_limits(wave: &Wave) -> bool
    ensures { IsTrue result → IsWithinLimits wave.now }
{
    if wave.den > 10_000_000 {
        return false;
    }
    are_within(&wave.num, 100_000_000_000_000)
}

// The group that is generated; none where it is refused.
fn closed(alloc: Global, generators: &[Op]) -> Option<Group> {
    if !are_small(generators) {
        return None;
    }
    if !are_unimodular(generators) {
        return None;
    }
    match close(alloc, generators, Phase::Minus) {
        Ok(group) => Some(group),
        Err(_error) => None,
    }
}

// Why generators in a setting give no subgroup of a group; none where they give one.
fn refusal(alloc: Global, outer: &[Op], setting: &Setting, inner: &[Op]) -> Option<SubError> {
    let group = closed(alloc, outer)?;
    if !is_small_setting(setting) {
        return None;
    }
    if inner.len() > 48 {
        return None;
    }
    if !are_small(inner) {
        return None;
    }
    if !are_unimodular(inner) {
        return None;
    }
    match subgroup(alloc, &group, setting, inner) {
        Ok(_sub) => None,
        Err(error) => Some(error),
    }
}

// The restrictions at a wave vector; none where there are none.
fn restricted(
    alloc: Global,
    outer: &[Op],
    setting: &Setting,
    inner: &[Op],
    k: &Wave,
) -> Option<Vec<RepParts>> {
    let group = closed(alloc, outer)?;
    if !is_small_setting(setting) {
        return None;
    }
    if inner.len() > 48 {
        return None;
    }
    if !are_small(inner) {
        return None;
    }
    if !are_unimodular(inner) {
        return None;
    }
    if !is_within_limits(k) {
        return None;
    }
    let Ok(sub) = subgroup(alloc, &group, setting, inner) else {
        return None;
    };
    match subduce::<Dense>(alloc, &group, &sub, k) {
        Ok(reps) => Some(reps),
        Err(_error) => None,
    }
}

// Whether a part has this wave vector and label, and stands once.
fn is_part(part: &Part, num: [i64; 3], den: u32, label: u32) -> bool {
    part.wave.num == num && part.wave.den == den && part.label == label && part.mult == 1
}

// Whether the restriction of a label has one part, of one row.
fn is_alone(reps: &[RepParts], place: usize, num: [i64; 3], den: u32, label: u32) -> bool {
    if place >= reps.len() {
        return false;
    }
    let rep = &reps[place];
    if rep.dim != 1 || rep.parts.len() != 1 {
        return false;
    }
    is_part(&rep.parts[0], num, den, label)
}

// Whether the restriction of a label has the parts with these labels at 0,0,0, each once.
fn has_labels(reps: &[RepParts], place: usize, labels: &[u32]) -> bool {
    if place >= reps.len() {
        return false;
    }
    let rep = &reps[place];
    if rep.parts.len() != labels.len() {
        return false;
    }
    for (i, part) in rep.parts.iter().enumerate() {
        if !is_part(part, [0, 0, 0], 1, labels[i]) {
            return false;
        }
    }
    true
}

#[test]
fn basis_of_no_rows(rt: HostRuntime) -> Result<(), Fail> {
    let none = setting([[0, 0, 0], [0, 0, 0], [0, 0, 0]], 1, [0, 0, 0], 1);
    let error = refusal(rt.alloc(), &[op(INVERSION, [0, 0, 0], 1)], &none, &[]);
    assert!(rt; error == Some(SubError::Singular));
    Ok(())
}

// Half of a is no translation.
#[test]
fn half_an_axis(rt: HostRuntime) -> Result<(), Fail> {
    let half = setting([[1, 0, 0], [0, 2, 0], [0, 0, 2]], 2, [0, 0, 0], 1);
    let error = refusal(rt.alloc(), &[op(INVERSION, [0, 0, 0], 1)], &half, &[]);
    assert!(rt; error == Some(SubError::NotSubgroup(0)));
    Ok(())
}

// A half turn is not in P-1.
#[test]
fn half_turn_in_a_triclinic_group(rt: HostRuntime) -> Result<(), Fail> {
    let own = setting(UNIT, 1, [0, 0, 0], 1);
    let inner = [op(INVERSION, [0, 0, 0], 1), op(HALF_TURN, [0, 0, 0], 1)];
    let error = refusal(rt.alloc(), &[op(INVERSION, [0, 0, 0], 1)], &own, &inner);
    assert!(rt; error == Some(SubError::NotSubgroup(2)));
    Ok(())
}

// With the origin at 1/4,0,0 the inversion there is -x+1/2,-y,-z, whose image at 1/2,0,0 is -1 times that of the inversion: the labels
// are exchanged.
#[test]
fn labels_at_a_shifted_origin(rt: HostRuntime) -> Result<(), Fail> {
    let shifted = setting(UNIT, 1, [1, 0, 0], 4);
    let outer = [op(INVERSION, [0, 0, 0], 1)];
    let inner = [op(INVERSION, [1, 0, 0], 2)];
    let Some(reps) = restricted(rt.alloc(), &outer, &shifted, &inner, &wave([1, 0, 0], 2)) else {
        assert!(rt; false);
        return Ok(());
    };
    assert!(rt; is_alone(&reps, 0, [1, 0, 0], 2, 2) && is_alone(&reps, 1, [1, 0, 0], 2, 1));
    Ok(())
}

// With c doubled, the zone boundary becomes 0,0,0.
#[test]
fn zone_boundary_of_a_doubled_axis(rt: HostRuntime) -> Result<(), Fail> {
    let doubled = setting([[1, 0, 0], [0, 1, 0], [0, 0, 2]], 1, [0, 0, 0], 1);
    let Some(reps) = restricted(rt.alloc(), &[], &doubled, &[], &wave([0, 0, 1], 2)) else {
        assert!(rt; false);
        return Ok(());
    };
    assert!(rt; is_alone(&reps, 0, [0, 0, 0], 1, 1));
    Ok(())
}

// From m-3m to 4/m: E_g is the sum of A_g and B_g, T_2g that of B_g and both E_g.
#[test]
fn cubic_to_tetragonal(rt: HostRuntime) -> Result<(), Fail> {
    let own = setting(UNIT, 1, [0, 0, 0], 1);
    let turn = op(QUARTER_TURN, [0, 0, 0], 1);
    let inversion = op(INVERSION, [0, 0, 0], 1);
    let outer = [turn, op(THIRD_TURN, [0, 0, 0], 1), inversion];
    let Some(reps) = restricted(
        rt.alloc(),
        &outer,
        &own,
        &[turn, inversion],
        &wave([0, 0, 0], 1),
    ) else {
        assert!(rt; false);
        return Ok(());
    };
    assert!(rt; has_labels(&reps, 4, &[1, 2]) && has_labels(&reps, 6, &[2, 3, 4]));
    Ok(())
}
