//! Squares along screw axes and at a corner of the zone, and tensors of the cubic group Pm-3m, as printed.
ghost use Rattle.std.specs.Prelude.{◌≡◌, ◌<◌, ◌≤◌, ◌^◌, IsTrue, unsigned_abs};
ghost use Rattle.std.specs.List.{All};
ghost use Rattle.irr_seitz.specs.Rotation.{determinant, IsWithin as HasEntriesWithin, rotation_of};
ghost use Rattle.irr_seitz.specs.OperationMeaning.{operation};
ghost use Rattle.irr_kvec.specs.Centrings.{IsWithinLimits};
ghost use Rattle.irr_close.specs.Rows.{IsSmallRow};
ghost use Rattle.irr_close.specs.Closing.{IsGenerator};

use crate::{Form, Memory, square, tensor, text_square, text_tensor, wave_order};
use irr_close::{Group, close};
use irr_cyc::{Dense, Lift};
use irr_kvec::Wave;
use irr_rat::Vec3;
use irr_seitz::{Op, Phase};
use std::alloc::Global;
use std::test::Fail;

const INVERSION: [[i16; 3]; 3] = [[-1, 0, 0], [0, -1, 0], [0, 0, -1]];

fn op(rot: [[i16; 3]; 3], num: [i64; 3], den: u32) -> Op
    requires { 0 < den }
{
    let shift = Vec3::new(num, den);
    let num = shift.num;
    Op {
        rot,
        num,
        den: shift.den,
    }
}

fn wave(num: [i64; 3], den: u32) -> Wave
    requires { 0 < den }
{
    let lowest = Vec3::new(num, den);
    let num = lowest.num;
    Wave {
        num,
        den: lowest.den,
    }
}

fn are_all(x: bool, y: bool, z: bool) -> bool
    ensures { IsTrue result → IsTrue x × IsTrue y × IsTrue z }
{
    x && y && z
}

fn is_small_row(row: &[i16; 3]) -> bool
    ensures { IsTrue result → IsSmallRow row.now }
{
    row[0].unsigned_abs() <= 9 && row[1].unsigned_abs() <= 9 && row[2].unsigned_abs() <= 9
}

fn is_small_rotation(rot: &[[i16; 3]; 3]) -> bool
    ensures { IsTrue result → HasEntriesWithin 9 (rotation_of rot.now) }
{
    are_all(
        is_small_row(&rot[0]),
        is_small_row(&rot[1]),
        is_small_row(&rot[2]),
    )
}

fn is_small(number: i64) -> bool
    ensures { IsTrue result → unsigned_abs number ≤ 10 ^ 12 }
{
    number.unsigned_abs() <= 1_000_000_000_000
}

fn is_generator(op: &Op) -> bool
    ensures { IsTrue result → IsGenerator op.now }
{
    if !is_small_rotation(&op.rot) {
        return false;
    }
    if !is_small(op.num[0]) {
        return false;
    }
    if !is_small(op.num[1]) {
        return false;
    }
    is_small(op.num[2])
}

fn are_generators(ops: &[Op]) -> bool
    ensures { IsTrue result → All IsGenerator ops.now }
{
    ops.iter().all(|op| is_generator(op))
}

fn is_unimodular(op: &Op) -> bool
    ensures { IsTrue result → unsigned_abs (determinant (operation op.now).rotation) ≡ 1 }
{
    op.det().unsigned_abs() == 1
}

fn are_unimodular(ops: &[Op]) -> bool
    ensures { IsTrue result → All (λ s. unsigned_abs (determinant (operation s).rotation) ≡ 1) ops.now }
{
    ops.iter().all(|op| is_unimodular(op))
}

fn is_within_limits(wave: &Wave) -> bool
    ensures { IsTrue result → IsWithinLimits wave.now }
{
    if wave.den > 10_000_000 {
        return false;
    }
    if !is_small_numerator(wave.num[0]) {
        return false;
    }
    if !is_small_numerator(wave.num[1]) {
        return false;
    }
    is_small_numerator(wave.num[2])
}

fn is_small_numerator(number: i64) -> bool
    ensures { IsTrue result → unsigned_abs number ≤ 100000000000000 }
{
    number.unsigned_abs() <= 100_000_000_000_000
}

// The group that is generated; none where it is refused.
fn closed(alloc: Global, generators: &[Op]) -> Option<Group> {
    if !are_generators(generators) {
        return None;
    }
    if !are_unimodular(generators) {
        return None;
    }
    match close(alloc, generators, Phase::Minus) {
        Ok(group) => Some(group),
        Err(_error) => None,
    }
}

// The text of the squares of a group at a wave vector; none where there is none.
fn squares_of<S: Lift>(alloc: Global, generators: &[Op], k: &Wave) -> Result<Vec<u8>, Memory> {
    let Some(group) = closed(alloc, generators) else {
        return Ok(Vec::new(alloc));
    };
    if !is_within_limits(k) {
        return Ok(Vec::new(alloc));
    }
    let Ok(order) = wave_order(&group, k) else {
        return Ok(Vec::new(alloc));
    };
    let Ok(squares) = square::<S>(alloc, &group, k) else {
        return Ok(Vec::new(alloc));
    };
    text_square(alloc, order, k, &squares, 1, Phase::Minus)
}

// The text of the tensors of a form in a group; none where there is none.
fn tensors_of<S: Lift>(alloc: Global, generators: &[Op], form: Form) -> Result<Vec<u8>, Memory> {
    let Some(group) = closed(alloc, generators) else {
        return Ok(Vec::new(alloc));
    };
    let Ok(parts) = tensor::<S>(alloc, &group, form) else {
        return Ok(Vec::new(alloc));
    };
    text_tensor(alloc, group.exponent(), form, &parts, 1, Phase::Minus)
}

const TWOFOLD_Y: [[i16; 3]; 3] = [[-1, 0, 0], [0, 1, 0], [0, 0, -1]];

const TWOFOLD_Z: [[i16; 3]; 3] = [[-1, 0, 0], [0, -1, 0], [0, 0, 1]];

const FOURFOLD_Z: [[i16; 3]; 3] = [[0, -1, 0], [1, 0, 0], [0, 0, 1]];

const THREEFOLD: [[i16; 3]; 3] = [[0, 0, 1], [1, 0, 0], [0, 1, 0]];

// Both squares of a representation of one row: the symmetric one stands at 0,0,0.
#[test]
fn screw_axis_at_the_zone_face(rt: HostRuntime) -> Result<(), Fail> {
    let alloc = rt.alloc();
    let generators = [op(TWOFOLD_Y, [0, 1, 0], 2)];
    let k = wave([0, 1, 0], 2);
    let text = squares_of::<Dense>(alloc, &generators, &k)?;
    assert!(rt;
        text.as_slice()
            == b"square 1\norder 4\nwave 0,1/2,0\nsym S1 dim 1\npart 0,0,0 S2 1 1\nanti S1 dim 0\nsym S2 dim 1\npart 0,0,0 S2 1 1\nanti S2 dim 0\nend\n".as_slice()
    );
    Ok(())
}

// P2_12_12_1 at the corner of its zone.
#[test]
fn three_screw_axes_at_the_zone_corner(rt: HostRuntime) -> Result<(), Fail> {
    let alloc = rt.alloc();
    let generators = [op(TWOFOLD_Z, [1, 0, 1], 2), op(TWOFOLD_Y, [0, 1, 1], 2)];
    let k = wave([1, 1, 1], 2);
    let text = squares_of::<Dense>(alloc, &generators, &k)?;
    assert!(rt;
        text.as_slice()
            == b"square 1\norder 4\nwave 1/2,1/2,1/2\nsym S1 dim 3\npart 0,0,0 S2 1 1\npart 0,0,0 S3 1 1\npart 0,0,0 S4 1 1\nanti S1 dim 1\npart 0,0,0 S1 1 1\nend\n".as_slice()
    );
    Ok(())
}

// Infrared absorption: the vector.
#[test]
fn cubic_vector(rt: HostRuntime) -> Result<(), Fail> {
    let alloc = rt.alloc();
    let generators = [
        op(FOURFOLD_Z, [0, 0, 0], 1),
        op(THREEFOLD, [0, 0, 0], 1),
        op(INVERSION, [0, 0, 0], 1),
    ];
    let text = tensors_of::<Dense>(alloc, &generators, Form::Rank1)?;
    assert!(rt;
        text.as_slice()
            == b"tensor 1\nform 1\norder 12\ndim 3\npart 0,0,0 S10 1 3\nend\n".as_slice()
    );
    Ok(())
}

// Raman scattering: the symmetric tensors of rank 2.
#[test]
fn cubic_symmetric_tensors(rt: HostRuntime) -> Result<(), Fail> {
    let alloc = rt.alloc();
    let generators = [
        op(FOURFOLD_Z, [0, 0, 0], 1),
        op(THREEFOLD, [0, 0, 0], 1),
        op(INVERSION, [0, 0, 0], 1),
    ];
    let text = tensors_of::<Dense>(alloc, &generators, Form::Sym2)?;
    assert!(rt;
        text.as_slice()
            == b"tensor 1\nform sym2\norder 12\ndim 6\npart 0,0,0 S1 1 1\npart 0,0,0 S5 1 2\npart 0,0,0 S7 1 3\nend\n".as_slice()
    );
    Ok(())
}

#[test]
fn cubic_antisymmetric_tensors(rt: HostRuntime) -> Result<(), Fail> {
    let alloc = rt.alloc();
    let generators = [
        op(FOURFOLD_Z, [0, 0, 0], 1),
        op(THREEFOLD, [0, 0, 0], 1),
        op(INVERSION, [0, 0, 0], 1),
    ];
    let text = tensors_of::<Dense>(alloc, &generators, Form::Anti2)?;
    assert!(rt;
        text.as_slice()
            == b"tensor 1\nform anti2\norder 12\ndim 3\npart 0,0,0 S8 1 3\nend\n".as_slice()
    );
    Ok(())
}

#[test]
fn cubic_tensors_of_rank_three(rt: HostRuntime) -> Result<(), Fail> {
    let alloc = rt.alloc();
    let generators = [
        op(FOURFOLD_Z, [0, 0, 0], 1),
        op(THREEFOLD, [0, 0, 0], 1),
        op(INVERSION, [0, 0, 0], 1),
    ];
    let text = tensors_of::<Dense>(alloc, &generators, Form::Rank3)?;
    assert!(rt;
        text.as_slice()
            == b"tensor 1\nform 3\norder 12\ndim 27\npart 0,0,0 S3 1 1\npart 0,0,0 S4 1 1\npart 0,0,0 S6 2 2\npart 0,0,0 S9 3 3\npart 0,0,0 S10 4 3\nend\n".as_slice()
    );
    Ok(())
}
