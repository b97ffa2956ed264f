// The wave vectors to which operations carry k, and -k.
ghost use Rattle.std.specs.Prelude.{◌≡◌, ◌<◌, ◌≤◌, ◌*◌, ◌^◌, length, neg_ℤ, pos, unsigned_abs};
ghost use Rattle.std.specs.Int.{int_rem_euclid};
ghost use Rattle.std.specs.List.{HoldsAt};
ghost use Rattle.irr_algebra.specs.Fin.{Fin};
ghost use Rattle.irr_algebra.specs.Matrix.{◌⊖◌, null};
ghost use Rattle.irr_rational.specs.Ratio.{entry};
ghost use Rattle.irr_space.specs.Reciprocal.{AreEquivalent};
ghost use Rattle.irr_space.specs.Star.{Carries};
ghost use Rattle.irr_seitz.specs.OperationMeaning.{operation};
ghost use Rattle.irr_kvec.specs.WaveMeaning.{wave_vector};
ghost use Rattle.irr_kvec.specs.Centrings.{LatticeOf, IsCentringList, IsWithinLimits};
ghost use Rattle.irr_close.specs.StandsFor.{stands_for};

use irr_close::Group;
use irr_kvec::{Wave, act};
use irr_rat::Vec3;

/// A wave vector to which the operation with the number `place` carries `k`.
pub(crate) fn image(group: &Group, place: usize, k: &Wave) -> Wave
    requires limits { IsWithinLimits k.now }
    requires place { place < length group.now.ops.items }
    ensures carries { HoldsAt
        (λ g. Carries (stands_for group.now) (operation g) (wave_vector k.now) (wave_vector result))
        group.now.ops.items place }
    ensures limits { IsWithinLimits result }
{
    let ops = group.ops();
    act(&ops[place], &wrapped(group.centrings(), k))
}

// An equivalent wave vector of small numerators.
fn wrapped(centrings: &[Vec3], k: &Wave) -> Wave
    requires centrings { IsCentringList centrings.now }
    requires limits { IsWithinLimits k.now }
    ensures equivalent { AreEquivalent (LatticeOf centrings.now) (wave_vector result) (wave_vector k.now) }
    ensures small { (i : Fin 3) → unsigned_abs (entry result.num i) ≤ 10 ^ 9 }
    ensures denominator { result.den ≡ k.now.den }
{
    let num = rests(&k.num, cell(centrings, k.den));
    Wave { num, den: k.den }
}

// The denominator times the number of centrings.
fn cell(centrings: &[Vec3], den: u32) -> u32
    requires positive { 0 < den }
    requires small { den ≤ 10 ^ 7 }
    requires some { 0 < length centrings.now }
    requires few { length centrings.now ≤ 32 }
    ensures value { result ≡ den * length centrings.now }
    ensures positive { 0 < result }
    ensures small { result ≤ 10 ^ 9 }
{
    den * centrings.len() as u32
}

fn rests(num: &[i64; 3], cell: u32) -> [i64; 3]
    requires positive { 0 < cell }
    requires small { cell ≤ 10 ^ 9 }
    ensures value { (i : Fin 3) → entry result i ≡ int_rem_euclid (entry num.now i) (pos cell) }
    ensures small { (i : Fin 3) → unsigned_abs (entry result i) ≤ 10 ^ 9 }
{
    [rest(num[0], cell), rest(num[1], cell), rest(num[2], cell)]
}

fn rest(number: i64, cell: u32) -> i64
    requires { 0 < cell }
    ensures { result ≡ int_rem_euclid number (pos cell) }
{
    number.rem_euclid(i64::from(cell))
}

/// The wave vector -k.
pub(crate) fn opposite(k: &Wave) -> Wave
    requires limits { IsWithinLimits k.now }
    ensures opposite { wave_vector result ≡ null ⊖ wave_vector k.now }
    ensures limits { IsWithinLimits result }
{
    let num = negatives(&k.num);
    Wave { num, den: k.den }
}

fn negatives(num: &[i64; 3]) -> [i64; 3]
    requires small { (i : Fin 3) → unsigned_abs (entry num.now i) ≤ 10 ^ 14 }
    ensures value { (i : Fin 3) → entry result i ≡ neg_ℤ (entry num.now i) }
{
    [negative(num[0]), negative(num[1]), negative(num[2])]
}

fn negative(number: i64) -> i64
    requires { unsigned_abs number ≤ 10 ^ 14 }
    ensures { result ≡ neg_ℤ number }
{
    -number
}
