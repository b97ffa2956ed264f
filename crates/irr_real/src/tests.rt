//! Types of full representations in P-1, P2_1, P2_12_12_1 and P1.
ghost use Rattle.std.specs.Prelude.{◌≡◌, ◌<◌, ◌≤◌, ◌^◌, ◌*◌, IsTrue, IfOk, length, unsigned_abs};
ghost use Rattle.std.specs.List.{All};
ghost use Rattle.irr_canonical.specs.RootSum.{IsRootSum};
ghost use Rattle.irr_mat.specs.Entries.{first_order, matrix_of};
ghost use Rattle.irr_mat.specs.Size.{IsWithin};
ghost use Rattle.irr_seitz.specs.Rotation.{determinant, IsWithin as HasEntriesWithin, rotation_of};
ghost use Rattle.irr_seitz.specs.OperationMeaning.{operation};
ghost use Rattle.irr_kvec.specs.Centrings.{IsWithinLimits};
ghost use Rattle.irr_close.specs.Rows.{IsSmallRow};
ghost use Rattle.irr_close.specs.Closing.{IsGenerator};

use crate::{Memory, reality};
use irr_close::{Group, close};
use irr_cyc::{Dense, Lift, Order, Scalar};
use irr_kvec::Wave;
use irr_little::little;
use irr_mat::Mat;
use irr_rat::Vec3;
use irr_rep::{Family, first_defect};
use irr_seitz::{Op, Phase};
use std::alloc::Global;
use std::test::Fail;

fn op(rot: [[i16; 3]; 3], num: [i64; 3], den: u32) -> Op
    requires { 0 < den }
{
    let shift = Vec3::new(num, den);
    let num = shift.num;
    Op {
        rot,
        num,
        den: shift.den,
    }
}

fn wave(num: [i64; 3], den: u32) -> Wave
    requires { 0 < den }
{
    let lowest = Vec3::new(num, den);
    let num = lowest.num;
    Wave {
        num,
        den: lowest.den,
    }
}

fn are_all(x: bool, y: bool, z: bool) -> bool
    ensures { IsTrue result → IsTrue x × IsTrue y × IsTrue z }
{
    x && y && z
}

fn is_small_row(row: &[i16; 3]) -> bool
    ensures { IsTrue result → IsSmallRow row.now }
{
    row[0].unsigned_abs() <= 9 && row[1].unsigned_abs() <= 9 && row[2].unsigned_abs() <= 9
}

fn is_small_rotation(rot: &[[i16; 3]; 3]) -> bool
    ensures { IsTrue result → HasEntriesWithin 9 (rotation_of rot.now) }
{
    are_all(
        is_small_row(&rot[0]),
        is_small_row(&rot[1]),
        is_small_row(&rot[2]),
    )
}

fn is_small(number: i64) -> bool
    ensures { IsTrue result → unsigned_abs number ≤ 10 ^ 12 }
{
    number.unsigned_abs() <= 1_000_000_000_000
}

fn is_generator(op: &Op) -> bool
    ensures { IsTrue result → IsGenerator op.now }
{
    if !is_small_rotation(&op.rot) {
        return false;
    }
    if !is_small(op.num[0]) {
        return false;
    }
    if !is_small(op.num[1]) {
        return false;
    }
    is_small(op.num[2])
}

fn are_generators(ops: &[Op]) -> bool
    ensures { IsTrue result → All IsGenerator ops.now }
{
    ops.iter().all(|op| is_generator(op))
}

fn is_unimodular(op: &Op) -> bool
    ensures { IsTrue result → unsigned_abs (determinant (operation op.now).rotation) ≡ 1 }
{
    op.det().unsigned_abs() == 1
}

fn are_unimodular(ops: &[Op]) -> bool
    ensures { IsTrue result → All (λ s. unsigned_abs (determinant (operation s).rotation) ≡ 1) ops.now }
{
    ops.iter().all(|op| is_unimodular(op))
}

fn is_within_limits(wave: &Wave) -> bool
    ensures { IsTrue result → IsWithinLimits wave.now }
{
    if wave.den > 10_000_000 {
        return false;
    }
    if !is_small_numerator(wave.num[0]) {
        return false;
    }
    if !is_small_numerator(wave.num[1]) {
        return false;
    }
    is_small_numerator(wave.num[2])
}

fn is_small_numerator(number: i64) -> bool
    ensures { IsTrue result → unsigned_abs number ≤ 100000000000000 }
{
    number.unsigned_abs() <= 100_000_000_000_000
}

// The group that is generated; none where it is refused.
fn closed(alloc: Global, generators: &[Op]) -> Option<Group> {
    if !are_generators(generators) {
        return None;
    }
    if !are_unimodular(generators) {
        return None;
    }
    match close(alloc, generators, Phase::Minus) {
        Ok(group) => Some(group),
        Err(_error) => None,
    }
}

// The number z^e, or 0.
fn entry<S: Scalar>(alloc: Global, order: &Order, power: Option<u32>) -> Result<S, Memory>
    requires { S.admits order.now.n }
    ensures order { IfOk result (λ x. S.order_of x ≡ order.now.n) }
    ensures few { let n = order.now.n in IfOk result (λ x. IsRootSum n 1 1 (S.value n x)) }
{
    match power {
        Some(e) => {
            let root = S::root(alloc, order, e % order.n())?;
            Ok(root)
        }
        None => {
            let zero = S::zero(alloc, order)?;
            Ok(zero)
        }
    }
}

// The square matrix with these entries, row by row.
fn matrix<S: Scalar>(
    alloc: Global,
    order: &Order,
    rows: u32,
    powers: &[Option<u32>],
) -> Result<Mat<S>, Memory>
    requires admitted { S.admits order.now.n }
    requires some { 0 < rows }
    requires filled { length powers.now ≡ rows * rows }
    ensures rows { IfOk result (λ m. m.rows ≡ rows) }
    ensures cols { IfOk result (λ m. m.cols ≡ rows) }
    ensures order { IfOk result (λ m. first_order S.order_of m.entries.items ≡ order.now.n) }
    ensures within { let n = order.now.n in
        IfOk result (λ m. IsWithin n 1 1 (matrix_of S.value n rows rows m.entries.items)) }
{
    let mut entries = Vec::new(alloc);
    for power in powers {
        let entry = entry(alloc, order, *power)?;
        entries.push(entry)?;
    }
    Ok(Mat::from_entries(rows, rows, entries))
}

// The type of the small representation with these matrices by place; none where they are none.
fn type_of<S: Lift>(
    alloc: Global,
    generators: &[Op],
    k: &Wave,
    rows: u32,
    matrices: &[&[Option<u32>]],
) -> Result<Option<i8>, Memory> {
    let Some(group) = closed(alloc, generators) else {
        return Ok(None);
    };
    if !is_within_limits(k) {
        return Ok(None);
    }
    let Ok(t) = little(alloc, &group, k) else {
        return Ok(None);
    };
    if matrices.len() != t.len() as usize {
        return Ok(None);
    }
    if rows == 0 {
        return Ok(None);
    }
    if rows > 2 {
        return Ok(None);
    }
    let order = Order::new(alloc, t.order())?;
    let mut mats = Vec::new(alloc);
    for powers in matrices {
        if powers.len() != (rows * rows) as usize {
            return Ok(None);
        }
        let matrix = matrix::<S>(alloc, &order, rows, powers)?;
        mats.push(matrix)?;
    }
    let family = Family { dim: rows, mats };
    if let Some(_defect) = first_defect(alloc, &t, &family)? {
        return Ok(None);
    }
    let answer = reality(alloc, &group, k, &t, &family)?;
    Ok(Some(answer))
}

const INVERSION: [[i16; 3]; 3] = [[-1, 0, 0], [0, -1, 0], [0, 0, -1]];

const ALONG_X: [[i16; 3]; 3] = [[1, 0, 0], [0, -1, 0], [0, 0, -1]];

const ALONG_Y: [[i16; 3]; 3] = [[-1, 0, 0], [0, 1, 0], [0, 0, -1]];

// P-1 at 1/4,0,0, where the inversion exchanges the two arms.
#[test]
fn real_with_two_arms(rt: HostRuntime) -> Result<(), Fail> {
    let alloc = rt.alloc();
    let generators = [op(INVERSION, [0, 0, 0], 1)];
    let k = wave([1, 0, 0], 4);
    let unit = [Some(0)];
    let answer = type_of::<Dense>(alloc, &generators, &k, 1, &[unit.as_slice()])?;
    assert!(rt; answer == Some(1));
    Ok(())
}

// P2_1 at 0,1/2,0, where the screw is i or -i.
#[test]
fn complex_with_one_arm(rt: HostRuntime) -> Result<(), Fail> {
    let alloc = rt.alloc();
    let generators = [op(ALONG_Y, [0, 1, 0], 2)];
    let k = wave([0, 1, 0], 2);
    let unit = [Some(0)];
    let plus = [Some(1)];
    let minus = [Some(3)];
    let first = type_of::<Dense>(
        alloc,
        &generators,
        &k,
        1,
        &[unit.as_slice(), plus.as_slice()],
    )?;
    assert!(rt; first == Some(0));
    let second = type_of::<Dense>(
        alloc,
        &generators,
        &k,
        1,
        &[unit.as_slice(), minus.as_slice()],
    )?;
    assert!(rt; second == Some(0));
    Ok(())
}

// P2_12_12_1 at 1/2,1/2,1/2, where the three screws are as quaternions.
#[test]
fn quaternionic(rt: HostRuntime) -> Result<(), Fail> {
    let alloc = rt.alloc();
    let generators = [op(ALONG_X, [1, 1, 0], 2), op(ALONG_Y, [0, 1, 1], 2)];
    let k = wave([1, 1, 1], 2);
    let unit = [Some(0), None, None, Some(0)];
    let along_z = [None, Some(3), Some(3), None];
    let along_y = [None, Some(0), Some(2), None];
    let along_x = [Some(1), None, None, Some(3)];
    let matrices = [
        unit.as_slice(),
        along_z.as_slice(),
        along_y.as_slice(),
        along_x.as_slice(),
    ];
    let answer = type_of::<Dense>(alloc, &generators, &k, 2, matrices.as_slice())?;
    assert!(rt; answer == Some(-1));
    Ok(())
}

// P1 at 1/2,0,0, where k is equivalent to -k, and at 1/2,1/3,1/5, where it is not.
#[test]
fn translations(rt: HostRuntime) -> Result<(), Fail> {
    let alloc = rt.alloc();
    let unit = [Some(0)];
    let half = type_of::<Dense>(alloc, &[], &wave([1, 0, 0], 2), 1, &[unit.as_slice()])?;
    assert!(rt; half == Some(1));
    let general = type_of::<Dense>(alloc, &[], &wave([15, 10, 6], 30), 1, &[unit.as_slice()])?;
    assert!(rt; general == Some(0));
    Ok(())
}
