ghost use Rattle.std.specs.Prelude.{◌≡◌, ◌<◌, ◌≤◌, ◌^◌, IsTrue, unsigned_abs};
ghost use Rattle.std.specs.List.{All};
ghost use Rattle.irr_seitz.specs.Rotation.{determinant, IsWithin, rotation_of};
ghost use Rattle.irr_seitz.specs.OperationMeaning.{operation};
ghost use Rattle.irr_kvec.specs.Centrings.{IsWithinLimits};
ghost use Rattle.irr_close.specs.Rows.{IsSmallRow};
ghost use Rattle.irr_close.specs.Closing.{IsGenerator};

use crate::{Arm, LittleError, little, star};
use irr_close::{Group, close};
use irr_kvec::Wave;
use irr_rat::Vec3;
use irr_rep::Twisted;
use irr_seitz::{Op, Phase};
use std::alloc::Global;

const UNIT: [[i16; 3]; 3] = [[1, 0, 0], [0, 1, 0], [0, 0, 1]];

fn op(rot: [[i16; 3]; 3], num: [i64; 3], den: u32) -> Op
    requires { 0 < den }
{
    let shift = Vec3::new(num, den);
    let num = shift.num;
    Op {
        rot,
        num,
        den: shift.den,
    }
}

fn wave(num: [i64; 3], den: u32) -> Wave
    requires { 0 < den }
{
    let lowest = Vec3::new(num, den);
    let num = lowest.num;
    Wave {
        num,
        den: lowest.den,
    }
}

fn are_all(x: bool, y: bool, z: bool) -> bool
    ensures { IsTrue result → IsTrue x × IsTrue y × IsTrue z }
{
    x && y && z
}

fn is_small_row(row: &[i16; 3]) -> bool
    ensures { IsTrue result → IsSmallRow row.now }
{
    row[0].unsigned_abs() <= 9 && row[1].unsigned_abs() <= 9 && row[2].unsigned_abs() <= 9
}

fn is_small_rotation(rot: &[[i16; 3]; 3]) -> bool
    ensures { IsTrue result → IsWithin 9 (rotation_of rot.now) }
{
    are_all(
        is_small_row(&rot[0]),
        is_small_row(&rot[1]),
        is_small_row(&rot[2]),
    )
}

fn is_small(number: i64) -> bool
    ensures { IsTrue result → unsigned_abs number ≤ 10 ^ 12 }
{
    number.unsigned_abs() <= 1_000_000_000_000
}

fn is_generator(op: &Op) -> bool
    ensures { IsTrue result → IsGenerator op.now }
{
    if !is_small_rotation(&op.rot) {
        return false;
    }
    if !is_small(op.num[0]) {
        return false;
    }
    if !is_small(op.num[1]) {
        return false;
    }
    is_small(op.num[2])
}

fn are_generators(ops: &[Op]) -> bool
    ensures { IsTrue result → All IsGenerator ops.now }
{
    ops.iter().all(|op| is_generator(op))
}

fn is_unimodular(op: &Op) -> bool
    ensures { IsTrue result → unsigned_abs (determinant (operation op.now).rotation) ≡ 1 }
{
    op.det().unsigned_abs() == 1
}

fn are_unimodular(ops: &[Op]) -> bool
    ensures { IsTrue result → All (λ s. unsigned_abs (determinant (operation s).rotation) ≡ 1) ops.now }
{
    ops.iter().all(|op| is_unimodular(op))
}

fn is_within_limits(wave: &Wave) -> bool
    ensures { IsTrue result → IsWithinLimits wave.now }
{
    if wave.den > 10_000_000 {
        return false;
    }
    if !is_small_numerator(wave.num[0]) {
        return false;
    }
    if !is_small_numerator(wave.num[1]) {
        return false;
    }
    is_small_numerator(wave.num[2])
}

fn is_small_numerator(number: i64) -> bool
    ensures { IsTrue result → unsigned_abs number ≤ 100000000000000 }
{
    number.unsigned_abs() <= 100_000_000_000_000
}

// The group that is generated; none where it is refused.
fn closed(alloc: Global, generators: &[Op], phase: Phase) -> Option<Group> {
    if !are_generators(generators) {
        return None;
    }
    if !are_unimodular(generators) {
        return None;
    }
    match close(alloc, generators, phase) {
        Ok(group) => Some(group),
        Err(_error) => None,
    }
}

fn is_arm(arm: &Arm, num: [i64; 3], den: u32, op: u32) -> bool {
    arm.op == op && arm.wave.num == num && arm.wave.den == den
}

// Whether the arms are these, over one denominator.
fn are_arms(arms: &[Arm], nums: &[[i64; 3]], den: u32, ops: &[u32]) -> bool {
    if arms.len() != nums.len() {
        return false;
    }
    if arms.len() != ops.len() {
        return false;
    }
    for i in 0..arms.len() {
        if !is_arm(&arms[i], nums[i], den, ops[i]) {
            return false;
        }
    }
    true
}

fn has_star(
    alloc: Global,
    generators: &[Op],
    k: &Wave,
    nums: &[[i64; 3]],
    den: u32,
    ops: &[u32],
) -> bool {
    let Some(group) = closed(alloc, generators, Phase::Minus) else {
        return false;
    };
    if !is_within_limits(k) {
        return false;
    }
    match star(alloc, &group, k) {
        Ok(star) => are_arms(&star.arms, nums, den, ops),
        Err(_error) => false,
    }
}

// Whether a table of phases has this order, and these products and exponents, row by row.
fn is_table(t: &Twisted, order: u32, products: &[u32], exponents: &[u32]) -> bool {
    if t.order() != order {
        return false;
    }
    let mut entry = 0usize;
    for i in 0..t.len() {
        for j in 0..t.len() {
            if products.get(entry) != Some(&t.table(i, j)) {
                return false;
            }
            if exponents.get(entry) != Some(&t.phase(i, j)) {
                return false;
            }
            entry += 1;
        }
    }
    entry == products.len()
}

fn has_table(
    alloc: Global,
    generators: &[Op],
    phase: Phase,
    k: &Wave,
    order: u32,
    products: &[u32],
    exponents: &[u32],
) -> bool {
    let Some(group) = closed(alloc, generators, phase) else {
        return false;
    };
    if !is_within_limits(k) {
        return false;
    }
    match little(alloc, &group, k) {
        Ok(t) => is_table(&t, order, products, exponents),
        Err(_error) => false,
    }
}

// The order of the table, or the order that is refused.
fn order_at(alloc: Global, generators: &[Op], k: &Wave) -> Option<Result<u32, LittleError>> {
    let group = closed(alloc, generators, Phase::Minus)?;
    if !is_within_limits(k) {
        return None;
    }
    match little(alloc, &group, k) {
        Ok(t) => Some(Ok(t.order())),
        Err(error) => Some(Err(error)),
    }
}

#[test]
fn stars(rt: HostRuntime) {
    let alloc = rt.alloc();
    let inversion = op([[-1, 0, 0], [0, -1, 0], [0, 0, -1]], [0, 0, 0], 1);
    let screw = op([[-1, 0, 0], [0, 1, 0], [0, 0, -1]], [0, 1, 0], 2);
    assert!(rt; has_star(alloc, &[screw], &wave([0, 1, 0], 2), &[[0, 1, 0]], 2, &[0]));
    let quarter = wave([1, 0, 0], 4);
    assert!(rt;
        has_star(
            alloc,
            &[inversion],
            &quarter,
            &[[1, 0, 0], [3, 0, 0]],
            4,
            &[0, 1]
        )
    );
    let fourfold = op([[0, -1, 0], [1, 0, 0], [0, 0, 1]], [0, 0, 0], 1);
    let cycle = op([[0, 0, 1], [1, 0, 0], [0, 1, 0]], [0, 0, 0], 1);
    let centring = op(UNIT, [1, 1, 1], 2);
    let whole = wave([1, 0, 0], 1);
    assert!(rt;
        has_star(
            alloc,
            &[fourfold, cycle, inversion],
            &whole,
            &[[0, 0, 0]],
            1,
            &[0]
        )
    );
    let centred = [fourfold, cycle, inversion, centring];
    assert!(rt; has_star(alloc, &centred, &whole, &[[0, 0, 1]], 1, &[0]));
    assert!(rt;
        has_star(
            alloc,
            &[op(UNIT, [1, 0, 0], 2)],
            &whole,
            &[[1, 0, 0]],
            1,
            &[0]
        )
    );
}

#[test]
fn tables(rt: HostRuntime) {
    let alloc = rt.alloc();
    let screw = op([[-1, 0, 0], [0, 1, 0], [0, 0, -1]], [0, 1, 0], 2);
    let half = wave([0, 1, 0], 2);
    assert!(rt;
        has_table(
            alloc,
            &[screw],
            Phase::Minus,
            &half,
            4,
            &[0, 1, 1, 0],
            &[0, 0, 0, 2]
        )
    );
    let fourfold = op([[0, -1, 0], [1, 0, 0], [0, 0, 1]], [0, 0, 1], 4);
    let quarter = wave([0, 0, 1], 4);
    let products = [0, 1, 2, 3, 1, 0, 3, 2, 2, 3, 1, 0, 3, 2, 0, 1];
    let minus = [0, 0, 0, 0, 0, 12, 0, 12, 0, 0, 0, 12, 0, 12, 12, 12];
    let plus = [0, 0, 0, 0, 0, 4, 0, 4, 0, 0, 0, 4, 0, 4, 4, 4];
    assert!(rt;
        has_table(
            alloc,
            &[fourfold],
            Phase::Minus,
            &quarter,
            16,
            &products,
            &minus
        )
    );
    assert!(rt;
        has_table(
            alloc,
            &[fourfold],
            Phase::Plus,
            &quarter,
            16,
            &products,
            &plus
        )
    );
}

#[test]
fn the_greatest_order(rt: HostRuntime) {
    let alloc = rt.alloc();
    let inversion = op([[-1, 0, 0], [0, -1, 0], [0, 0, -1]], [0, 0, 0], 1);
    assert_eq!(rt;
        order_at(alloc, &[inversion], &wave([1, 0, 0], 6000)),
        Some(Ok(12000))
    );
    assert_eq!(rt;
        order_at(alloc, &[inversion], &wave([1, 0, 0], 6001)),
        Some(Err(LittleError::OrderTooLarge(12002)))
    );
}
