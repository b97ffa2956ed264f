// Reduced wave vectors.
ghost use Rattle.std.specs.Prelude.{◌≡◌, ◌<◌, ◌≤◌, ◌^◌, ◌↔◌, ◌+ℤ◌, ◌*ℤ◌, ◌/◌, ◌%◌, IsTrue, pos, unsigned_abs, [], ◌∷◌};
ghost use Rattle.std.specs.Int.{int_div_euclid, int_rem_euclid};
ghost use Rattle.irr_algebra.specs.Fin.{Fin};
ghost use Rattle.irr_rational.specs.Ratio.{entry};
ghost use Rattle.irr_space.specs.Reciprocal.{AreEquivalent, IsReduced};
ghost use Rattle.irr_kvec.specs.WaveMeaning.{wave_vector, wave_of};
ghost use Rattle.irr_kvec.specs.Centrings.{LatticeOf, IsCentringList, IsWithinLimits};

use crate::equivalence::differences;
use crate::reciprocal::is_reciprocal;
use crate::wave::Wave;
use irr_rat::Vec3;

/// The lexicographically least of the wave vectors that are equivalent to `k` and have no negative
/// component.
pub fn reduced(centrings: &[Vec3], k: &Wave) -> Wave
    requires centrings { IsCentringList centrings.now }
    requires limits { IsWithinLimits k.now }
    ensures reduced { IsReduced (LatticeOf centrings.now) (wave_vector k.now) (wave_vector result) }
    ensures denominator { result.den ≡ k.now.den }
    ensures limits { IsWithinLimits result }
{
    let cells = cells(&k.num, k.den);
    let steps = least_steps(centrings, &cells);
    let num = shifted(&k.num, k.den, &steps);
    Wave { num, den: k.den }
}

// The floors of the components.
fn cells(num: &[i64; 3], den: u32) -> [i64; 3]
    requires positive { 0 < den }
    requires small { (i : Fin 3) → unsigned_abs (entry num.now i) ≤ 10 ^ 14 }
    ensures value { (i : Fin 3) → entry result i ≡ int_div_euclid (entry num.now i) (pos den) }
    ensures small { (i : Fin 3) → unsigned_abs (entry result i) ≤ 10 ^ 14 }
{
    [floor(num[0], den), floor(num[1], den), floor(num[2], den)]
}

fn floor(number: i64, den: u32) -> i64
    requires positive { 0 < den }
    requires small { unsigned_abs number ≤ 10 ^ 14 }
    ensures value { result ≡ int_div_euclid number (pos den) }
    ensures small { unsigned_abs result ≤ 10 ^ 14 }
{
    number.div_euclid(i64::from(den))
}

// The numerators of the components less their floors, plus steps.
fn shifted(num: &[i64; 3], den: u32, steps: &[i64; 3]) -> [i64; 3]
    requires positive { 0 < den }
    requires denominator { den ≤ 10 ^ 7 }
    requires few { (i : Fin 3) → unsigned_abs (entry steps.now i) ≤ 10 ^ 5 }
    ensures value { (i : Fin 3) → entry result i ≡ int_rem_euclid (entry num.now i) (pos den) +ℤ (entry steps.now i *ℤ pos den) }
    ensures small { (i : Fin 3) → unsigned_abs (entry result i) ≤ 10 ^ 14 }
{
    [
        shifted_by(num[0], den, steps[0]),
        shifted_by(num[1], den, steps[1]),
        shifted_by(num[2], den, steps[2]),
    ]
}

fn shifted_by(number: i64, den: u32, step: i64) -> i64
    requires positive { 0 < den }
    requires denominator { den ≤ 10 ^ 7 }
    requires few { unsigned_abs step ≤ 10 ^ 5 }
    ensures value { result ≡ int_rem_euclid number (pos den) +ℤ (step *ℤ pos den) }
    ensures small { unsigned_abs result ≤ 10 ^ 14 }
{
    let den = i64::from(den);
    number.rem_euclid(den) + step * den
}

// The reduced form of a whole wave vector: the candidates come in lexicographic order.
fn least_steps(centrings: &[Vec3], cells: &[i64; 3]) -> [i64; 3]
    requires centrings { IsCentringList centrings.now }
    requires small { (i : Fin 3) → unsigned_abs (entry cells.now i) ≤ 10 ^ 14 }
    ensures reduced { IsReduced (LatticeOf centrings.now) (wave_of cells.now 1) (wave_of result 1) }
    ensures few { (i : Fin 3) → unsigned_abs (entry result i) ≤ 10 ^ 5 }
{
    let count = centrings.len() as u32;
    let mut number = 0u32;
    while !is_equivalent_candidate(centrings, number, count, cells) {
        number += 1;
    }
    candidate(number, count)
}

fn is_equivalent_candidate(centrings: &[Vec3], number: u32, count: u32, cells: &[i64; 3]) -> bool
    requires centrings { IsCentringList centrings.now }
    requires number { number ≤ 10 ^ 5 }
    requires count { 0 < count }
    requires small { (i : Fin 3) → unsigned_abs (entry cells.now i) ≤ 10 ^ 14 }
    ensures { IsTrue result ↔ AreEquivalent (LatticeOf centrings.now)
        (wave_of (pos (number / count / count) ∷ pos (number / count % count) ∷ pos (number % count) ∷ []) 1) (wave_of cells.now 1) }
{
    is_reciprocal(centrings, &differences(&candidate(number, count), cells), 1)
}

// The triple of a number in the lexicographic order of the triples whose last two are below `count`.
fn candidate(number: u32, count: u32) -> [i64; 3]
    requires number { number ≤ 10 ^ 5 }
    requires count { 0 < count }
    ensures value { result ≡ pos (number / count / count) ∷ pos (number / count % count) ∷ pos (number % count) ∷ [] }
    ensures small { (i : Fin 3) → unsigned_abs (entry result i) ≤ 10 ^ 5 }
{
    let rest = number / count;
    [
        i64::from(rest / count),
        i64::from(rest % count),
        i64::from(number % count),
    ]
}
