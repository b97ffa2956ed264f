ghost use Rattle.std.specs.Prelude.{ℕ, ◌≡◌, ◌<◌, ◌≤◌, ◌^◌, All, IfOk, IsTrue, length, unsigned_abs};
ghost use Rattle.irr_mat.specs.Entries.{first_order, matrix_of};
ghost use Rattle.irr_mat.specs.Size.{IsWithin};
ghost use Rattle.irr_kvec.specs.Centrings.{IsWithinLimits};
ghost use Rattle.irr_rep.specs.Defects.{IsLimited};
ghost use Rattle.irr_seitz.specs.Rotation.{IsWithin as HasSmallEntries, determinant, rotation_of};
ghost use Rattle.irr_seitz.specs.OperationMeaning.{operation};
ghost use Rattle.irr_close.specs.Rows.{IsSmallRow};
ghost use Rattle.irr_close.specs.Closing.{IsGenerator};
ghost use Rattle.irr_report.specs.Limits.{IsChecked, IsLimitedRow};

use crate::{Clause, Memory, Verdict, check};
use irr_close::{Group, close};
use irr_cyc::{Dense, Order, Scalar};
use irr_kvec::Wave;
use irr_mat::Mat;
use irr_rat::Vec3;
use irr_rep::Family;
use irr_report::{RepText, Report};
use irr_seitz::{Op, Phase};
use std::alloc::Global;
use std::test::Fail;

const UNIT: [[i16; 3]; 3] = [[1, 0, 0], [0, 1, 0], [0, 0, 1]];

fn op(rot: [[i16; 3]; 3], num: [i64; 3], den: u32) -> Op
    requires { 0 < den }
{
    let shift = Vec3::new(num, den);
    let num = shift.num;
    Op {
        rot,
        num,
        den: shift.den,
    }
}

fn wave(num: [i64; 3], den: u32) -> Wave
    requires { 0 < den }
{
    let lowest = Vec3::new(num, den);
    let num = lowest.num;
    Wave {
        num,
        den: lowest.den,
    }
}

fn are_all(x: bool, y: bool, z: bool) -> bool
    ensures { IsTrue result → IsTrue x × IsTrue y × IsTrue z }
{
    x && y && z
}

fn is_small_row(row: &[i16; 3]) -> bool
    ensures { IsTrue result → IsSmallRow row.now }
{
    row[0].unsigned_abs() <= 9 && row[1].unsigned_abs() <= 9 && row[2].unsigned_abs() <= 9
}

fn is_small_rotation(rot: &[[i16; 3]; 3]) -> bool
    ensures { IsTrue result → HasSmallEntries 9 (rotation_of rot.now) }
{
    are_all(
        is_small_row(&rot[0]),
        is_small_row(&rot[1]),
        is_small_row(&rot[2]),
    )
}

fn is_small(number: i64) -> bool
    ensures { IsTrue result → unsigned_abs number ≤ 10 ^ 12 }
{
    number.unsigned_abs() <= 1_000_000_000_000
}

fn is_generator(op: &Op) -> bool
    ensures { IsTrue result → IsGenerator op.now }
{
    if !is_small_rotation(&op.rot) {
        return false;
    }
    if !is_small(op.num[0]) {
        return false;
    }
    if !is_small(op.num[1]) {
        return false;
    }
    is_small(op.num[2])
}

fn are_generators(ops: &[Op]) -> bool
    ensures { IsTrue result → All IsGenerator ops.now }
{
    ops.iter().all(|op| is_generator(op))
}

fn is_unimodular(op: &Op) -> bool
    ensures { IsTrue result → unsigned_abs (determinant (operation op.now).rotation) ≡ 1 }
{
    op.det().unsigned_abs() == 1
}

fn are_unimodular(ops: &[Op]) -> bool
    ensures { IsTrue result → All (λ s. unsigned_abs (determinant (operation s).rotation) ≡ 1) ops.now }
{
    ops.iter().all(|op| is_unimodular(op))
}

fn is_within_limits(wave: &Wave) -> bool
    ensures { IsTrue result → IsWithinLimits wave.now }
{
    if wave.den > 10_000_000 {
        return false;
    }
    if !is_small_numerator(wave.num[0]) {
        return false;
    }
    if !is_small_numerator(wave.num[1]) {
        return false;
    }
    is_small_numerator(wave.num[2])
}

fn is_small_numerator(number: i64) -> bool
    ensures { IsTrue result → unsigned_abs number ≤ 100000000000000 }
{
    number.unsigned_abs() <= 100_000_000_000_000
}

// The group of one operation; none where it is refused.
fn closed(alloc: Global, generators: &[Op]) -> Option<Group> {
    if !are_generators(generators) {
        return None;
    }
    if !are_unimodular(generators) {
        return None;
    }
    match close(alloc, generators, Phase::Minus) {
        Ok(group) => Some(group),
        Err(_error) => None,
    }
}

// The matrix of one row with the entry z^e.
fn single<S: Scalar>(alloc: Global, order: &Order, e: u32) -> Result<Mat<S>, Memory>
    requires admitted { S.admits order.now.n }
    requires below { e < order.now.n }
    ensures rows { IfOk result (λ m. m.rows ≡ 1) }
    ensures cols { IfOk result (λ m. m.cols ≡ 1) }
    ensures order { IfOk result (λ m. first_order S.order_of m.entries.items ≡ order.now.n) }
    ensures within { let n = order.now.n in IfOk result (λ m. IsWithin n 1 1 (matrix_of S.value n 1 1 m.entries.items)) }
{
    let mut entries = Vec::new(alloc);
    let entry = S::root(alloc, order, e)?;
    entries.push(entry)?;
    Ok(Mat::from_entries(1, 1, entries))
}

// The matrices of one row with the entries z^e, for each exponent e.
fn singles<S: Scalar>(
    alloc: Global,
    order: &Order,
    exponents: &[u32],
) -> Result<Vec<Mat<S>>, Memory>
    requires { S.admits order.now.n }
    ensures { IfOk result (λ mats. IsLimited order.now.n (length exponents.now) 1 1 mats.items) }
{
    let mut mats = Vec::new(alloc);
    for e in exponents {
        let matrix = single::<S>(alloc, order, *e % order.n())?;
        mats.push(matrix)?;
    }
    Ok(mats)
}

// The numbers z^e, for each exponent e.
fn roots<S: Scalar>(alloc: Global, order: &Order, exponents: &[u32]) -> Result<Vec<S>, Memory>
    requires { S.admits order.now.n }
    ensures { IfOk result (λ row. IsLimitedRow S.order_of S.value order.now.n (length exponents.now) 1 row.items) }
{
    let mut row = Vec::new(alloc);
    for e in exponents {
        let root = S::root(alloc, order, *e % order.n())?;
        row.push(root)?;
    }
    Ok(row)
}

// The representation of one row with these characters and entries, as exponents of z.
fn powers<S: Scalar>(
    alloc: Global,
    order: &Order,
    chars: &[u32],
    exponents: &[u32],
) -> Result<RepText<S>, Memory>
    requires admitted { S.admits order.now.n }
    requires same { length chars.now ≡ length exponents.now }
    ensures { IfOk result (λ t. IsChecked order.now.n (length exponents.now) t) }
{
    let row = roots::<S>(alloc, order, chars)?;
    let mats = singles::<S>(alloc, order, exponents)?;
    let family = Family { dim: 1, mats };
    Ok(RepText { family, chars: row })
}

// The verdict on a report of P2_1 at 0,1/2,0 with these representations; none where there is none.
fn verdict_on<S: Scalar>(
    alloc: Global,
    order: u32,
    reps: Vec<RepText<S>>,
) -> Result<Option<Verdict>, Memory>
    requires checked { All (IsChecked order 2) reps.items }
    requires few { length reps.items ≤ 48 }
{
    let screw = op([[-1, 0, 0], [0, 1, 0], [0, 0, -1]], [0, 1, 0], 2);
    let Some(group) = closed(alloc, &[screw]) else {
        return Ok(None);
    };
    let mut ops = Vec::new(alloc);
    ops.push(op(UNIT, [0, 0, 0], 1))?;
    ops.push(screw)?;
    let report = Report {
        wave: wave([0, 1, 0], 2),
        order,
        ops,
        reps,
    };
    if !is_within_limits(&report.wave) {
        return Ok(None);
    }
    match check(alloc, &group, &report) {
        Ok(verdict) => Ok(Some(verdict)),
        Err(_error) => Ok(None),
    }
}

// The same with two representations.
fn verdict_on_two<S: Scalar>(
    alloc: Global,
    order: u32,
    first: RepText<S>,
    second: RepText<S>,
) -> Result<Option<Verdict>, Memory>
    requires first { IsChecked order 2 first }
    requires second { IsChecked order 2 second }
{
    let mut reps = Vec::new(alloc);
    reps.push(first)?;
    reps.push(second)?;
    verdict_on(alloc, order, reps)
}

// The same with none.
fn verdict_on_none(alloc: Global) -> Result<Option<Verdict>, Memory> {
    let reps: Vec<RepText<Dense>> = Vec::new(alloc);
    verdict_on(alloc, 4, reps)
}

// The same, with characters and entries as exponents of z.
fn is_verdict(
    alloc: Global,
    n: u32,
    first: ([u32; 2], [u32; 2]),
    second: ([u32; 2], [u32; 2]),
    expected: Verdict,
) -> Result<bool, Fail>
    requires positive { 0 < n }
    requires limited { n ≤ 12000 }
{
    let order = Order::new(alloc, n)?;
    let a = powers::<Dense>(alloc, &order, &first.0, &first.1)?;
    let b = powers::<Dense>(alloc, &order, &second.0, &second.1)?;
    let verdict = verdict_on_two(alloc, n, a, b)?;
    Ok(verdict == Some(expected))
}

fn no(clause: Clause, rep: u32, i: u32, j: u32) -> Verdict {
    Verdict::No { clause, rep, i, j }
}

// The screw has the matrix i or -i, since its square is a translation with the phase -1.
#[test]
fn complete_list(rt: HostRuntime) -> Result<(), Fail> {
    let right = is_verdict(
        rt.alloc(),
        4,
        ([0, 1], [0, 1]),
        ([0, 3], [0, 3]),
        Verdict::Yes,
    )?;
    assert!(rt; right);
    Ok(())
}

#[test]
fn wrong_product(rt: HostRuntime) -> Result<(), Fail> {
    let expected = no(Clause::Multiply, 1, 2, 2);
    let right = is_verdict(rt.alloc(), 4, ([0, 1], [0, 0]), ([0, 3], [0, 3]), expected)?;
    assert!(rt; right);
    Ok(())
}

#[test]
fn wrong_unit(rt: HostRuntime) -> Result<(), Fail> {
    let expected = no(Clause::Unit, 1, 0, 0);
    let right = is_verdict(rt.alloc(), 4, ([0, 1], [2, 1]), ([0, 3], [0, 3]), expected)?;
    assert!(rt; right);
    Ok(())
}

#[test]
fn wrong_character(rt: HostRuntime) -> Result<(), Fail> {
    let expected = no(Clause::Char, 1, 2, 0);
    let right = is_verdict(rt.alloc(), 4, ([0, 1], [0, 3]), ([0, 3], [0, 3]), expected)?;
    assert!(rt; right);
    Ok(())
}

#[test]
fn one_representation_twice(rt: HostRuntime) -> Result<(), Fail> {
    let expected = no(Clause::Equivalent, 1, 2, 0);
    let right = is_verdict(rt.alloc(), 4, ([0, 1], [0, 1]), ([0, 1], [0, 1]), expected)?;
    assert!(rt; right);
    Ok(())
}

#[test]
fn wrong_order(rt: HostRuntime) -> Result<(), Fail> {
    let expected = no(Clause::Order, 0, 4, 0);
    let right = is_verdict(rt.alloc(), 8, ([0, 1], [0, 1]), ([0, 3], [0, 3]), expected)?;
    assert!(rt; right);
    Ok(())
}

#[test]
fn no_representation(rt: HostRuntime) -> Result<(), Fail> {
    let verdict = verdict_on_none(rt.alloc())?;
    assert!(rt; verdict == Some(no(Clause::Missing, 0, 0, 0)));
    Ok(())
}
