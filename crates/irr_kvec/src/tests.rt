ghost use Rattle.std.specs.Prelude.{◌≡◌, ◌<◌, ◌≤◌, ◌%◌, All, IsTrue, length, unsigned_abs};
ghost use Rattle.irr_algebra.specs.Matrix.{null};
ghost use Rattle.irr_rat.specs.VectorMeaning.{vector};
ghost use Rattle.irr_seitz.specs.Rotation.{determinant, IsWithin};
ghost use Rattle.irr_seitz.specs.OperationMeaning.{operation};
ghost use Rattle.irr_kvec.specs.Centrings.{IsCentringList, IsWithinLimits};

use crate::{Wave, WaveError, act, equivalent, period, printed_waves_are_read, read_wave, reduced};
use irr_rat::Vec3;
use irr_seitz::Op;

fn wave(num: [i64; 3], den: u32) -> Wave
    requires { 0 < den }
{
    let lowest = Vec3::new(num, den);
    let num = lowest.num;
    Wave {
        num,
        den: lowest.den,
    }
}

fn is_within_limits(wave: &Wave) -> bool
    ensures { IsTrue result → IsWithinLimits wave.now }
{
    if wave.den > 10_000_000 {
        return false;
    }
    if !is_small(wave.num[0]) {
        return false;
    }
    if !is_small(wave.num[1]) {
        return false;
    }
    is_small(wave.num[2])
}

fn is_small(number: i64) -> bool
    ensures { IsTrue result → unsigned_abs number ≤ 100000000000000 }
{
    number.unsigned_abs() <= 100_000_000_000_000
}

fn is_zero(centring: &Vec3) -> bool
    ensures { IsTrue result → vector centring.now ≡ null }
{
    if centring.num[0] != 0 {
        return false;
    }
    if centring.num[1] != 0 {
        return false;
    }
    centring.num[2] == 0
}

fn divide_count(centrings: &[Vec3], count: u32) -> bool
    ensures { IsTrue result → All (λ centring. count % centring.den ≡ 0) centrings.now }
{
    centrings.iter().all(|centring| count % centring.den == 0)
}

// Zero is the first, there are at most 32, and each denominator divides their count.
fn are_centrings(centrings: &[Vec3]) -> bool
    ensures { IsTrue result → IsCentringList centrings.now }
{
    if centrings.is_empty() {
        return false;
    }
    if centrings.len() > 32 {
        return false;
    }
    let first = centrings[0];
    if !is_zero(&first) {
        return false;
    }
    divide_count(centrings, centrings.len() as u32)
}

fn reduced_at(centrings: &[Vec3], wave: &Wave) -> Option<([i64; 3], u32)> {
    if are_centrings(centrings) && is_within_limits(wave) {
        let least = reduced(centrings, wave);
        let num = least.num;
        Some((num, least.den))
    } else {
        None
    }
}

fn period_at(centrings: &[Vec3], wave: &Wave) -> Option<u32> {
    if are_centrings(centrings) && is_within_limits(wave) {
        Some(period(centrings, wave))
    } else {
        None
    }
}

fn equivalent_at(centrings: &[Vec3], a: &Wave, b: &Wave) -> Option<bool> {
    if are_centrings(centrings) && is_within_limits(a) && is_within_limits(b) {
        Some(equivalent(centrings, a, b))
    } else {
        None
    }
}

fn threefold() -> Op
    ensures entries { IsWithin 9 (operation result).rotation }
    ensures unimodular { unsigned_abs (determinant (operation result).rotation) ≡ 1 }
{
    Op {
        rot: [[0, 0, 1], [1, 0, 0], [0, 1, 0]],
        num: [0, 0, 0],
        den: 1,
    }
}

fn acted(op: &Op, wave: &Wave) -> Option<([i64; 3], u32)>
    requires entries { IsWithin 9 (operation op.now).rotation }
    requires unimodular { unsigned_abs (determinant (operation op.now).rotation) ≡ 1 }
{
    if is_within_limits(wave) {
        let image = act(op, wave);
        let num = image.num;
        Some((num, image.den))
    } else {
        None
    }
}

#[test]
fn wave_vectors_of_centred_lattices(rt: HostRuntime) {
    let zero = Vec3::new([0, 0, 0], 1);
    let body = [zero, Vec3::new([1, 1, 1], 2)];
    let base = [zero, Vec3::new([1, 1, 0], 2)];
    let half = [zero, Vec3::new([1, 0, 0], 2)];
    let face = [
        zero,
        Vec3::new([0, 1, 1], 2),
        Vec3::new([1, 0, 1], 2),
        Vec3::new([1, 1, 0], 2),
    ];
    for (centrings, num, den, least, order) in [
        (&body[..], [1, 0, 0], 1, [0, 0, 1], 2),
        (&body[..], [-1, 0, 0], 3, [2, 0, 3], 6),
        (&face[..], [1, 0, 0], 1, [0, 1, 1], 2),
        (&face[..], [1, 1, 1], 1, [0, 0, 0], 1),
        (&base[..], [1, 0, 0], 1, [0, 1, 0], 2),
        (&half[..], [1, 0, 0], 1, [1, 0, 0], 2),
        (&half[..], [1, 0, 0], 2, [1, 0, 0], 4),
    ] {
        let k = wave(num, den);
        assert!(rt; reduced_at(centrings, &k) == Some((least, den)));
        assert!(rt; period_at(centrings, &k) == Some(order));
        assert!(rt; equivalent_at(centrings, &k, &wave(least, den)) == Some(true));
        assert!(rt; equivalent_at(centrings, &k, &wave([1, 0, 0], 7)) == Some(false));
    }
}

#[test]
fn wave_vectors_of_a_finer_translation(rt: HostRuntime) {
    let mut centrings = [Vec3::new([0, 0, 0], 1); 32];
    for i in 0..32 {
        centrings[i] = Vec3::new([i as i64, 0, 0], 32);
    }
    let k = wave([-32, 0, 0], 11999);
    assert!(rt; reduced_at(&centrings, &k) == Some(([383936, 0, 0], 11999)));
    assert!(rt; period_at(&centrings, &k) == Some(11999));
}

#[test]
fn a_threefold_axis_turns_wave_vectors(rt: HostRuntime) {
    assert!(rt; acted(&threefold(), &wave([3, 2, 0], 6)) == Some(([0, 3, 2], 6)));
}

// The numerators and the denominator of the wave vector that a text writes.
fn read(text: &str, limit: u32) -> Result<([i64; 3], u32), WaveError>
    requires { limit ≤ 1000000 }
{
    let wave = read_wave(text.as_bytes(), limit)?;
    let num = wave.num;
    Ok((num, wave.den))
}

#[test]
fn texts_of_wave_vectors_are_read(rt: HostRuntime) {
    printed_waves_are_read();
    for (text, num, den) in [
        ("0,0,0", [0, 0, 0], 1),
        ("0,1/2,-1/3", [0, 3, -2], 6),
        ("+1 / 2 ,\t0, -00/007", [1, 0, 0], 2),
        ("- 3/6,4/ 2,1", [-1, 4, 2], 2),
        ("50000/100000,1/3,100000", [3, 2, 600_000], 6),
    ] {
        assert!(rt; read(text, 100_000) == Ok((num, den)), "{text}");
    }
    assert!(rt; read("400000,0,0", 400_000) == Ok(([400_000, 0, 0], 1)));
}

// 1,000 and 1,001 have no common divisor.
#[test]
fn texts_that_write_no_wave_vector_have_a_first_fault(rt: HostRuntime) {
    for (text, error) in [
        ("", WaveError::Shape(0)),
        (" 0,0,0", WaveError::Shape(0)),
        ("x,0,0", WaveError::Shape(0)),
        ("+-1,0,0", WaveError::Shape(1)),
        ("1 2,0,0", WaveError::Shape(2)),
        ("1/,0,0", WaveError::Shape(2)),
        ("0,0", WaveError::Shape(3)),
        ("0,0,0,0", WaveError::Shape(5)),
        ("0,0,0 ", WaveError::Shape(6)),
        ("0,0,1/2 ", WaveError::Shape(7)),
        ("1/0,1/0,x", WaveError::Shape(8)),
        ("1/0,1/0,0", WaveError::Zero(2)),
        ("0,1/ 00,5", WaveError::Zero(5)),
        ("100001,0,1/0", WaveError::Zero(11)),
        ("100001,200000,0", WaveError::Range(0)),
        ("0,1/100001,100001", WaveError::Range(4)),
        ("0,\t0,-100001", WaveError::Range(6)),
        ("1/1000,1/1001,0", WaveError::Range(15)),
    ] {
        assert!(rt; read(text, 100_000) == Err(error), "{text}");
    }
}
