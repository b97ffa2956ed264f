//! The parts of small characters of P-1 at 0,0,0 and at 1/4,0,0, and the stars of wave vectors there.
ghost use Rattle.std.specs.Prelude.{ℕ, ◌≡◌, ◌<◌, ◌≤◌, ◌^◌, ◌*◌, IsTrue, IfOk, length, unsigned_abs};
ghost use Rattle.std.specs.List.{All};
ghost use Rattle.irr_space.specs.Reciprocal.{IsOrder};
ghost use Rattle.irr_seitz.specs.Rotation.{determinant, IsWithin as HasEntriesWithin, rotation_of};
ghost use Rattle.irr_seitz.specs.OperationMeaning.{operation};
ghost use Rattle.irr_kvec.specs.Centrings.{IsWithinLimits};
ghost use Rattle.irr_kvec.specs.WaveMeaning.{wave_vector};
ghost use Rattle.irr_close.specs.Rows.{IsSmallRow};
ghost use Rattle.irr_close.specs.Closing.{IsGenerator};
ghost use Rattle.irr_close.specs.StandsFor.{stands_for};
ghost use Rattle.irr_mult.specs.StarParts.{HasCharacters};

use crate::{Memory, Part, StarCharacters, push_parts, representatives, star_characters};
use irr_close::{Group, close};
use irr_cyc::{Dense, Lift, Order, Scalar};
use irr_kvec::{Wave, period};
use irr_rat::Vec3;
use irr_seitz::{Op, Phase};
use std::alloc::Global;
use std::test::Fail;

const INVERSION: [[i16; 3]; 3] = [[-1, 0, 0], [0, -1, 0], [0, 0, -1]];

fn op(rot: [[i16; 3]; 3], num: [i64; 3], den: u32) -> Op
    requires { 0 < den }
{
    let shift = Vec3::new(num, den);
    let num = shift.num;
    Op {
        rot,
        num,
        den: shift.den,
    }
}

fn wave(num: [i64; 3], den: u32) -> Wave
    requires { 0 < den }
{
    let lowest = Vec3::new(num, den);
    let num = lowest.num;
    Wave {
        num,
        den: lowest.den,
    }
}

fn are_all(x: bool, y: bool, z: bool) -> bool
    ensures { IsTrue result → IsTrue x × IsTrue y × IsTrue z }
{
    x && y && z
}

fn is_small_row(row: &[i16; 3]) -> bool
    ensures { IsTrue result → IsSmallRow row.now }
{
    row[0].unsigned_abs() <= 9 && row[1].unsigned_abs() <= 9 && row[2].unsigned_abs() <= 9
}

fn is_small_rotation(rot: &[[i16; 3]; 3]) -> bool
    ensures { IsTrue result → HasEntriesWithin 9 (rotation_of rot.now) }
{
    are_all(
        is_small_row(&rot[0]),
        is_small_row(&rot[1]),
        is_small_row(&rot[2]),
    )
}

fn is_small(number: i64) -> bool
    ensures { IsTrue result → unsigned_abs number ≤ 10 ^ 12 }
{
    number.unsigned_abs() <= 1_000_000_000_000
}

fn is_generator(op: &Op) -> bool
    ensures { IsTrue result → IsGenerator op.now }
{
    if !is_small_rotation(&op.rot) {
        return false;
    }
    if !is_small(op.num[0]) {
        return false;
    }
    if !is_small(op.num[1]) {
        return false;
    }
    is_small(op.num[2])
}

fn are_generators(ops: &[Op]) -> bool
    ensures { IsTrue result → All IsGenerator ops.now }
{
    ops.iter().all(|op| is_generator(op))
}

fn is_unimodular(op: &Op) -> bool
    ensures { IsTrue result → unsigned_abs (determinant (operation op.now).rotation) ≡ 1 }
{
    op.det().unsigned_abs() == 1
}

fn are_unimodular(ops: &[Op]) -> bool
    ensures { IsTrue result → All (λ s. unsigned_abs (determinant (operation s).rotation) ≡ 1) ops.now }
{
    ops.iter().all(|op| is_unimodular(op))
}

fn is_within_limits(wave: &Wave) -> bool
    ensures { IsTrue result → IsWithinLimits wave.now }
{
    if wave.den > 10_000_000 {
        return false;
    }
    if !is_small_numerator(wave.num[0]) {
        return false;
    }
    if !is_small_numerator(wave.num[1]) {
        return false;
    }
    is_small_numerator(wave.num[2])
}

fn is_small_numerator(number: i64) -> bool
    ensures { IsTrue result → unsigned_abs number ≤ 100000000000000 }
{
    number.unsigned_abs() <= 100_000_000_000_000
}

// The group that is generated; none where it is refused.
fn closed(alloc: Global, generators: &[Op]) -> Option<Group> {
    if !are_generators(generators) {
        return None;
    }
    if !are_unimodular(generators) {
        return None;
    }
    match close(alloc, generators, Phase::Minus) {
        Ok(group) => Some(group),
        Err(_error) => None,
    }
}

// The exponent of the group times the period of the wave vector.
fn own_order(group: &Group, k: &Wave) -> u64
    requires limits { IsWithinLimits k.now }
    ensures { IsOrder (stands_for group.now) (wave_vector k.now) result }
{
    u64::from(group.exponent()) * u64::from(period(group.centrings(), k))
}

// The parts of a member of the list on a star.
fn member_parts<S: Scalar>(
    alloc: Global,
    star: &StarCharacters<S>,
    member: usize,
) -> Result<Vec<Part>, Memory>
    requires characters { (M : ℕ) × HasCharacters S.order_of S.value M star.now }
    requires member { member < length star.now.characters.items }
{
    let mut parts = Vec::new(alloc);
    let character = &star.characters[member];
    push_parts(alloc, star, character.row.as_slice(), &mut parts)?;
    Ok(parts)
}

// The parts of a small representation of a group at a wave vector; none where there is none.
fn parts_at<S: Lift>(
    alloc: Global,
    generators: &[Op],
    k: &Wave,
    member: usize,
) -> Result<Vec<Part>, Memory> {
    let Some(group) = closed(alloc, generators) else {
        return Ok(Vec::new(alloc));
    };
    if !is_within_limits(k) {
        return Ok(Vec::new(alloc));
    }
    let n = own_order(&group, k);
    if n == 0 {
        return Ok(Vec::new(alloc));
    }
    if n > 12_000 {
        return Ok(Vec::new(alloc));
    }
    let order = Order::new(alloc, n as u32)?;
    let star = star_characters::<S>(alloc, &group, k, &order)?;
    if member >= star.characters.len() {
        return Ok(Vec::new(alloc));
    }
    member_parts(alloc, &star, member)
}

// Whether there is one part, with these numbers, at the wave vector.
fn is_alone(parts: &[Part], k: &Wave, label: u32, mult: u32, dim: u32) -> bool {
    if parts.len() != 1 {
        return false;
    }
    let part = parts[0];
    if part.wave.num != k.num || part.wave.den != k.den {
        return false;
    }
    part.label == label && part.mult == mult && part.dim == dim
}

// At 0,0,0 the second character is that of the sign.
#[test]
fn second_label(rt: HostRuntime) -> Result<(), Fail> {
    let alloc = rt.alloc();
    let generators = [op(INVERSION, [0, 0, 0], 1)];
    let k = wave([0, 0, 0], 1);
    let parts = parts_at::<Dense>(alloc, &generators, &k, 1)?;
    assert!(rt; is_alone(&parts, &k, 2, 1, 1));
    Ok(())
}

// At 1/4,0,0 the star has two arms.
#[test]
fn two_arms(rt: HostRuntime) -> Result<(), Fail> {
    let alloc = rt.alloc();
    let generators = [op(INVERSION, [0, 0, 0], 1)];
    let k = wave([1, 0, 0], 4);
    let parts = parts_at::<Dense>(alloc, &generators, &k, 0)?;
    assert!(rt; is_alone(&parts, &k, 1, 1, 2));
    Ok(())
}

fn are_within_limits(waves: &[Wave]) -> bool
    ensures { IsTrue result → All IsWithinLimits waves.now }
{
    waves.iter().all(|wave| is_within_limits(wave))
}

// The representatives of the stars of some wave vectors of a group; none where there is none.
fn stars_of(alloc: Global, generators: &[Op], waves: &[Wave]) -> Result<Vec<Wave>, Memory> {
    let Some(group) = closed(alloc, generators) else {
        return Ok(Vec::new(alloc));
    };
    if !are_within_limits(waves) {
        return Ok(Vec::new(alloc));
    }
    let stars = representatives(alloc, &group, waves)?;
    Ok(stars)
}

fn is_wave(wave: &Wave, num: [i64; 3], den: u32) -> bool {
    wave.num == num && wave.den == den
}

// Whether there are two, the first 0,0,0 and the second 1/4,0,0.
fn are_zero_and_quarter(stars: &[Wave]) -> bool {
    if stars.len() != 2 {
        return false;
    }
    is_wave(&stars[0], [0, 0, 0], 1) && is_wave(&stars[1], [1, 0, 0], 4)
}

// The inversion takes 1/4,0,0 to 3/4,0,0, which is not the least of their star.
#[test]
fn two_stars(rt: HostRuntime) -> Result<(), Fail> {
    let alloc = rt.alloc();
    let generators = [op(INVERSION, [0, 0, 0], 1)];
    let waves = [wave([1, 0, 0], 4), wave([3, 0, 0], 4), wave([0, 0, 0], 1)];
    let stars = stars_of(alloc, &generators, &waves)?;
    assert!(rt; are_zero_and_quarter(&stars));
    Ok(())
}
