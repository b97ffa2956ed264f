//! Full representations of P-1 at 1/4,0,0 and of P2_1 at 0,1/2,0.
ghost use Rattle.std.specs.Prelude.{◌≡◌, ◌<◌, ◌≤◌, ◌^◌, ◌*◌, IsTrue, IfOk, IfSome, length, unsigned_abs};
ghost use Rattle.std.specs.List.{All};
ghost use Rattle.irr_mat.specs.Entries.{first_order, matrix_of};
ghost use Rattle.irr_mat.specs.Size.{IsWithin};
ghost use Rattle.irr_rep.specs.Twisted.{phase_table, place_count};
ghost use Rattle.irr_seitz.specs.Rotation.{determinant, IsWithin as HasEntriesWithin, rotation_of};
ghost use Rattle.irr_seitz.specs.OperationMeaning.{operation};
ghost use Rattle.irr_kvec.specs.Centrings.{IsWithinLimits};
ghost use Rattle.irr_close.specs.Rows.{IsSmallRow};
ghost use Rattle.irr_close.specs.Closing.{IsGenerator};
ghost use Rattle.irr_close.specs.StandsFor.{stands_for};
ghost use Rattle.irr_star.specs.Sizes.{HasSmallVector};
ghost use Rattle.irr_star.specs.Induced.{IsFullRepresentation};

use crate::{Full, Memory, arm_part, has_small_vector, induce};
use irr_close::{Group, close};
use irr_cyc::{Dense, Lift, Order, Scalar};
use irr_kvec::Wave;
use irr_little::{Arm, little, star};
use irr_mat::Mat;
use irr_rat::Vec3;
use irr_rep::{Family, first_defect};
use irr_seitz::{Op, Phase};
use std::alloc::Global;
use std::test::Fail;

const UNIT: [[i16; 3]; 3] = [[1, 0, 0], [0, 1, 0], [0, 0, 1]];

fn op(rot: [[i16; 3]; 3], num: [i64; 3], den: u32) -> Op
    requires { 0 < den }
{
    let shift = Vec3::new(num, den);
    let num = shift.num;
    Op {
        rot,
        num,
        den: shift.den,
    }
}

fn wave(num: [i64; 3], den: u32) -> Wave
    requires { 0 < den }
{
    let lowest = Vec3::new(num, den);
    let num = lowest.num;
    Wave {
        num,
        den: lowest.den,
    }
}

fn are_all(x: bool, y: bool, z: bool) -> bool
    ensures { IsTrue result → IsTrue x × IsTrue y × IsTrue z }
{
    x && y && z
}

fn is_small_row(row: &[i16; 3]) -> bool
    ensures { IsTrue result → IsSmallRow row.now }
{
    row[0].unsigned_abs() <= 9 && row[1].unsigned_abs() <= 9 && row[2].unsigned_abs() <= 9
}

fn is_small_rotation(rot: &[[i16; 3]; 3]) -> bool
    ensures { IsTrue result → HasEntriesWithin 9 (rotation_of rot.now) }
{
    are_all(
        is_small_row(&rot[0]),
        is_small_row(&rot[1]),
        is_small_row(&rot[2]),
    )
}

fn is_small(number: i64) -> bool
    ensures { IsTrue result → unsigned_abs number ≤ 10 ^ 12 }
{
    number.unsigned_abs() <= 1_000_000_000_000
}

fn is_generator(op: &Op) -> bool
    ensures { IsTrue result → IsGenerator op.now }
{
    if !is_small_rotation(&op.rot) {
        return false;
    }
    if !is_small(op.num[0]) {
        return false;
    }
    if !is_small(op.num[1]) {
        return false;
    }
    is_small(op.num[2])
}

fn are_generators(ops: &[Op]) -> bool
    ensures { IsTrue result → All IsGenerator ops.now }
{
    ops.iter().all(|op| is_generator(op))
}

fn is_unimodular(op: &Op) -> bool
    ensures { IsTrue result → unsigned_abs (determinant (operation op.now).rotation) ≡ 1 }
{
    op.det().unsigned_abs() == 1
}

fn are_unimodular(ops: &[Op]) -> bool
    ensures { IsTrue result → All (λ s. unsigned_abs (determinant (operation s).rotation) ≡ 1) ops.now }
{
    ops.iter().all(|op| is_unimodular(op))
}

fn is_within_limits(wave: &Wave) -> bool
    ensures { IsTrue result → IsWithinLimits wave.now }
{
    if wave.den > 10_000_000 {
        return false;
    }
    if !is_small_numerator(wave.num[0]) {
        return false;
    }
    if !is_small_numerator(wave.num[1]) {
        return false;
    }
    is_small_numerator(wave.num[2])
}

fn is_small_numerator(number: i64) -> bool
    ensures { IsTrue result → unsigned_abs number ≤ 100000000000000 }
{
    number.unsigned_abs() <= 100_000_000_000_000
}

// The group that is generated; none where it is refused.
fn closed(alloc: Global, generators: &[Op]) -> Option<Group> {
    if !are_generators(generators) {
        return None;
    }
    if !are_unimodular(generators) {
        return None;
    }
    match close(alloc, generators, Phase::Minus) {
        Ok(group) => Some(group),
        Err(_error) => None,
    }
}

fn are_within_limits(arms: &[Arm]) -> bool
    ensures { IsTrue result → All (λ a. IsWithinLimits a.wave) arms.now }
{
    arms.iter().all(|arm| is_within_limits(&arm.wave))
}

// The matrix of one row with the entry z^e.
fn single<S: Scalar>(alloc: Global, order: &Order, e: u32) -> Result<Mat<S>, Memory>
    requires admitted { S.admits order.now.n }
    requires below { e < order.now.n }
    ensures rows { IfOk result (λ m. m.rows ≡ 1) }
    ensures cols { IfOk result (λ m. m.cols ≡ 1) }
    ensures order { IfOk result (λ m. first_order S.order_of m.entries.items ≡ order.now.n) }
    ensures within { let n = order.now.n in IfOk result (λ m. IsWithin n 1 1 (matrix_of S.value n 1 1 m.entries.items)) }
{
    let mut entries = Vec::new(alloc);
    let entry = S::root(alloc, order, e)?;
    entries.push(entry)?;
    Ok(Mat::from_entries(1, 1, entries))
}

// The full representation of the small one with the matrices of one row with the entries z^e, for each exponent e; none
// where that is no small representation.
fn full_of<S: Lift>(
    alloc: Global,
    generators: &[Op],
    k: &Wave,
    exponents: &[u32],
) -> Result<Option<Full<S>>, Memory>
    ensures { IfOk result (λ full. IfSome full IsFullRepresentation) }
{
    let Some(group) = closed(alloc, generators) else {
        return Ok(None);
    };
    if !is_within_limits(k) {
        return Ok(None);
    }
    let star = star(alloc, &group, k)?;
    if !are_within_limits(&star.arms) {
        return Ok(None);
    }
    let Ok(t) = little(alloc, &group, k) else {
        return Ok(None);
    };
    if exponents.len() != t.len() as usize {
        return Ok(None);
    }
    let order = Order::new(alloc, t.order())?;
    let mut mats = Vec::new(alloc);
    for e in exponents {
        let matrix = single::<S>(alloc, &order, *e % order.n())?;
        mats.push(matrix)?;
    }
    let family = Family { dim: 1, mats };
    match first_defect(alloc, &t, &family)? {
        Some(_defect) => Ok(None),
        None => {
            let full = induce(alloc, &group, &star, &t, &family)?;
            Ok(Some(full))
        }
    }
}

// Whether a number is c z^e, or 0.
fn is_power<S: Scalar>(alloc: Global, x: &S, term: Option<(u32, i128)>) -> Result<bool, Memory> {
    let canon = x.canonical(alloc)?;
    if canon.den != 1 {
        return Ok(false);
    }
    match term {
        Some(power) => Ok(canon.terms.as_slice() == [power].as_slice()),
        None => Ok(canon.terms.is_empty()),
    }
}

// Whether the matrix at an operation has these entries, row by row.
fn has_matrix<S: Scalar>(
    alloc: Global,
    full: &Full<S>,
    op: &Op,
    entries: &[Option<(u32, i128)>],
) -> Result<bool, Memory>
    requires { IsFullRepresentation full.now }
{
    if !full.contains(op) {
        return Ok(false);
    }
    if !has_small_vector(op) {
        return Ok(false);
    }
    let m = full.matrix(alloc, op)?;
    let mut place = 0usize;
    for i in 0..m.rows() {
        for j in 0..m.cols() {
            let Some(entry) = entries.get(place) else {
                return Ok(false);
            };
            if !is_power(alloc, m.at(i, j), *entry)? {
                return Ok(false);
            }
            place += 1;
        }
    }
    Ok(place == entries.len())
}

// Whether the trace at an operation and its part on the first arm are these.
fn has_traces<S: Scalar>(
    alloc: Global,
    full: &Full<S>,
    op: &Op,
    trace: Option<(u32, i128)>,
    part: Option<(u32, i128)>,
) -> Result<bool, Memory>
    requires { IsFullRepresentation full.now }
{
    if !full.contains(op) {
        return Ok(false);
    }
    if !has_small_vector(op) {
        return Ok(false);
    }
    if full.arms() == 0 {
        return Ok(false);
    }
    if !is_power(alloc, &full.trace(alloc, op)?, trace)? {
        return Ok(false);
    }
    is_power(alloc, &arm_part(alloc, full, 0, op)?, part)
}

// Whether the full representation that is induced has these entries at an operation, row by row, this trace, and this
// part of it on the first arm.
fn induces(
    alloc: Global,
    generators: &[Op],
    k: &Wave,
    exponents: &[u32],
    op: &Op,
    entries: &[Option<(u32, i128)>],
    trace: Option<(u32, i128)>,
    part: Option<(u32, i128)>,
) -> Result<bool, Memory> {
    match full_of::<Dense>(alloc, generators, k, exponents)? {
        Some(full) => {
            if !has_matrix(alloc, &full, op, entries)? {
                return Ok(false);
            }
            has_traces(alloc, &full, op, trace, part)
        }
        None => Ok(false),
    }
}

const INVERSION: [[i16; 3]; 3] = [[-1, 0, 0], [0, -1, 0], [0, 0, -1]];

const SCREW: [[i16; 3]; 3] = [[-1, 0, 0], [0, 1, 0], [0, 0, -1]];

// At 1/4,0,0 the inversion exchanges the two arms, and x+1,y,z has the phases exp(-i pi/2) and exp(i pi/2).
#[test]
fn two_arms(rt: HostRuntime) -> Result<(), Fail> {
    let alloc = rt.alloc();
    let generators = [op(INVERSION, [0, 0, 0], 1)];
    let k = wave([1, 0, 0], 4);
    let one = Some((0, 1));
    let along_x = op(UNIT, [1, 0, 0], 1);
    let along_y = op(UNIT, [0, 1, 0], 1);
    let unit = [one, None, None, one];
    let swapped = [None, one, one, None];
    let phases = [Some((2, -1)), None, None, Some((2, 1))];
    let two = Some((0, 2));
    assert!(rt;
        induces(
            alloc,
            &generators,
            &k,
            &[0],
            &along_x,
            &phases,
            None,
            Some((2, -1))
        )?
    );
    assert!(rt; induces(alloc, &generators, &k, &[0], &along_y, &unit, two, one)?);
    assert!(rt;
        induces(
            alloc,
            &generators,
            &k,
            &[0],
            &generators[0],
            &swapped,
            None,
            None
        )?
    );
    Ok(())
}

// At 0,1/2,0 the square of the screw is x,y+1,z, with the phase -1.
#[test]
fn one_arm(rt: HostRuntime) -> Result<(), Fail> {
    let alloc = rt.alloc();
    let screw = op(SCREW, [0, 1, 0], 2);
    let generators = [screw];
    let k = wave([0, 1, 0], 2);
    let along_y = op(UNIT, [0, 1, 0], 1);
    let first = Some((1, 1));
    let second = Some((1, -1));
    let minus = Some((0, -1));
    assert!(rt;
        induces(
            alloc,
            &generators,
            &k,
            &[0, 1],
            &screw,
            &[first],
            first,
            first
        )?
    );
    assert!(rt;
        induces(
            alloc,
            &generators,
            &k,
            &[0, 3],
            &screw,
            &[second],
            second,
            second
        )?
    );
    assert!(rt;
        induces(
            alloc,
            &generators,
            &k,
            &[0, 1],
            &along_y,
            &[minus],
            minus,
            minus
        )?
    );
    assert!(rt;
        !induces(
            alloc,
            &generators,
            &k,
            &[0, 0],
            &screw,
            &[first],
            first,
            first
        )?
    );
    Ok(())
}
