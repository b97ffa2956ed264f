//! Sites in P-1, P2_1 and Pm-3m.
ghost use Rattle.std.specs.Prelude.{◌≡◌, ◌<◌, ◌≤◌, ◌^◌, IsTrue, unsigned_abs};
ghost use Rattle.std.specs.List.{All};
ghost use Rattle.irr_seitz.specs.Rotation.{determinant, IsWithin as HasEntriesWithin, rotation_of};
ghost use Rattle.irr_seitz.specs.OperationMeaning.{operation};
ghost use Rattle.irr_kvec.specs.Centrings.{IsWithinLimits};
ghost use Rattle.irr_close.specs.Rows.{IsSmallRow};
ghost use Rattle.irr_close.specs.Closing.{IsGenerator};
ghost use Rattle.irr_site.specs.Points.{IsPoint};

use crate::{SiteParts, Sites, SmallPart, site};
use irr_close::{Group, close};
use irr_cyc::Dense;
use irr_kvec::Wave;
use irr_rat::Vec3;
use irr_seitz::{Op, Phase};
use std::alloc::Global;
use std::test::Fail;

fn op(rot: [[i16; 3]; 3], num: [i64; 3], den: u32) -> Op
    requires { 0 < den }
{
    let shift = Vec3::new(num, den);
    let num = shift.num;
    Op {
        rot,
        num,
        den: shift.den,
    }
}

fn wave(num: [i64; 3], den: u32) -> Wave
    requires { 0 < den }
{
    let lowest = Vec3::new(num, den);
    let num = lowest.num;
    Wave {
        num,
        den: lowest.den,
    }
}

fn are_all(x: bool, y: bool, z: bool) -> bool
    ensures { IsTrue result → IsTrue x × IsTrue y × IsTrue z }
{
    x && y && z
}

fn is_small_row(row: &[i16; 3]) -> bool
    ensures { IsTrue result → IsSmallRow row.now }
{
    row[0].unsigned_abs() <= 9 && row[1].unsigned_abs() <= 9 && row[2].unsigned_abs() <= 9
}

fn is_small_rotation(rot: &[[i16; 3]; 3]) -> bool
    ensures { IsTrue result → HasEntriesWithin 9 (rotation_of rot.now) }
{
    are_all(
        is_small_row(&rot[0]),
        is_small_row(&rot[1]),
        is_small_row(&rot[2]),
    )
}

fn is_small(number: i64) -> bool
    ensures { IsTrue result → unsigned_abs number ≤ 10 ^ 12 }
{
    number.unsigned_abs() <= 1_000_000_000_000
}

fn is_generator(op: &Op) -> bool
    ensures { IsTrue result → IsGenerator op.now }
{
    if !is_small_rotation(&op.rot) {
        return false;
    }
    if !is_small(op.num[0]) {
        return false;
    }
    if !is_small(op.num[1]) {
        return false;
    }
    is_small(op.num[2])
}

fn are_generators(ops: &[Op]) -> bool
    ensures { IsTrue result → All IsGenerator ops.now }
{
    ops.iter().all(|op| is_generator(op))
}

fn is_unimodular(op: &Op) -> bool
    ensures { IsTrue result → unsigned_abs (determinant (operation op.now).rotation) ≡ 1 }
{
    op.det().unsigned_abs() == 1
}

fn are_unimodular(ops: &[Op]) -> bool
    ensures { IsTrue result → All (λ s. unsigned_abs (determinant (operation s).rotation) ≡ 1) ops.now }
{
    ops.iter().all(|op| is_unimodular(op))
}

fn is_within_limits(wave: &Wave) -> bool
    ensures { IsTrue result → IsWithinLimits wave.now }
{
    if wave.den > 10_000_000 {
        return false;
    }
    if !is_small_numerator(wave.num[0]) {
        return false;
    }
    if !is_small_numerator(wave.num[1]) {
        return false;
    }
    is_small_numerator(wave.num[2])
}

fn is_small_numerator(number: i64) -> bool
    ensures { IsTrue result → unsigned_abs number ≤ 100000000000000 }
{
    number.unsigned_abs() <= 100_000_000_000_000
}

// The group that is generated; none where it is refused.
fn closed(alloc: Global, generators: &[Op]) -> Option<Group> {
    if !are_generators(generators) {
        return None;
    }
    if !are_unimodular(generators) {
        return None;
    }
    match close(alloc, generators, Phase::Minus) {
        Ok(group) => Some(group),
        Err(_error) => None,
    }
}

fn is_small_coordinate(number: i64) -> bool
    ensures { IsTrue result → unsigned_abs number ≤ 1000000 }
{
    number.unsigned_abs() <= 1_000_000
}

fn is_point(x: &Vec3) -> bool
    ensures { IsTrue result → IsPoint x.now }
{
    if x.den > 1000 {
        return false;
    }
    if !is_small_coordinate(x.num[0]) {
        return false;
    }
    if !is_small_coordinate(x.num[1]) {
        return false;
    }
    is_small_coordinate(x.num[2])
}

// The sites of a point; none where they are refused.
fn sites_of(alloc: Global, generators: &[Op], x: &Vec3, k: &Wave) -> Option<Sites> {
    let Some(group) = closed(alloc, generators) else {
        return None;
    };
    if !is_point(x) {
        return None;
    }
    if !is_within_limits(k) {
        return None;
    }
    match site::<Dense>(alloc, &group, x, k) {
        Ok(sites) => Some(sites),
        Err(_error) => None,
    }
}

// Whether the parts are these, by label, multiplicity and dimension.
fn are_parts(parts: &[SmallPart], expected: &[[u32; 3]]) -> bool {
    if parts.len() != expected.len() {
        return false;
    }
    for i in 0..parts.len() {
        let part = &parts[i];
        if part.label != expected[i][0] {
            return false;
        }
        if part.mult != expected[i][1] {
            return false;
        }
        if part.dim != expected[i][2] {
            return false;
        }
    }
    true
}

fn is_family(family: &SiteParts, label: u32, dim: u32, expected: &[[u32; 3]]) -> bool {
    if family.label != label {
        return false;
    }
    if family.dim != dim {
        return false;
    }
    are_parts(family.parts.as_slice(), expected)
}

const INVERSION: [[i16; 3]; 3] = [[-1, 0, 0], [0, -1, 0], [0, 0, -1]];

const ALONG_Y: [[i16; 3]; 3] = [[-1, 0, 0], [0, 1, 0], [0, 0, -1]];

const QUARTER: [[i16; 3]; 3] = [[0, -1, 0], [1, 0, 0], [0, 0, 1]];

const DIAGONAL: [[i16; 3]; 3] = [[0, 0, 1], [1, 0, 0], [0, 1, 0]];

// P-1 at its centre.
#[test]
fn one_site(rt: HostRuntime) -> Result<(), Fail> {
    let alloc = rt.alloc();
    let generators = [op(INVERSION, [0, 0, 0], 1)];
    let x = Vec3::new([0, 0, 0], 1);
    let sites = sites_of(alloc, &generators, &x, &wave([0, 0, 0], 1));
    let Some(sites) = sites else {
        panic!(rt; "refused");
    };
    assert!(rt; sites.ops.len() == 2);
    assert!(rt; sites.points.len() == 1);
    assert!(rt; sites.induced.len() == 2);
    for i in 0..2 {
        let label = i as u32 + 1;
        assert!(rt; is_family(&sites.induced.as_slice()[i], label, 1, &[[label, 1, 1]]));
    }
    assert!(rt; is_family(&sites.displace, 0, 3, &[[2, 3, 1]]));
    Ok(())
}

// P2_1, where the screw exchanges the sites with a phase.
#[test]
fn two_sites(rt: HostRuntime) -> Result<(), Fail> {
    let alloc = rt.alloc();
    let generators = [op(ALONG_Y, [0, 1, 0], 2)];
    let x = Vec3::new([1, 0, 0], 8);
    let sites = sites_of(alloc, &generators, &x, &wave([0, 1, 0], 2));
    let Some(sites) = sites else {
        panic!(rt; "refused");
    };
    assert!(rt; sites.ops.len() == 1);
    assert!(rt; sites.points.len() == 2);
    let points = sites.points.as_slice();
    assert!(rt; points[0].num == [1, 0, 0]);
    assert!(rt; points[0].den == 8);
    assert!(rt; points[1].num == [7, 4, 0]);
    assert!(rt; points[1].den == 8);
    assert!(rt; sites.induced.len() == 1);
    assert!(rt; is_family(&sites.induced.as_slice()[0], 1, 2, &[[1, 1, 1], [2, 1, 1]]));
    assert!(rt; is_family(&sites.displace, 0, 6, &[[1, 3, 1], [2, 3, 1]]));
    Ok(())
}

// Pm-3m at the middle of an edge.
#[test]
fn three_sites(rt: HostRuntime) -> Result<(), Fail> {
    let alloc = rt.alloc();
    let generators = [
        op(QUARTER, [0, 0, 0], 1),
        op(DIAGONAL, [0, 0, 0], 1),
        op(INVERSION, [0, 0, 0], 1),
    ];
    let x = Vec3::new([1, 0, 0], 2);
    let sites = sites_of(alloc, &generators, &x, &wave([0, 0, 0], 1));
    let Some(sites) = sites else {
        panic!(rt; "refused");
    };
    assert!(rt; sites.ops.len() == 16);
    assert!(rt; sites.points.len() == 3);
    assert!(rt; is_family(&sites.displace, 0, 9, &[[9, 1, 3], [10, 2, 3]]));
    Ok(())
}
