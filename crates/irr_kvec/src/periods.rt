// Periods of wave vectors.
ghost use Rattle.std.specs.Prelude.{◌≡◌, ◌<◌, ◌≤◌, ◌^◌, ◌*ℤ◌, pos, unsigned_abs};
ghost use Rattle.irr_algebra.specs.Fin.{Fin};
ghost use Rattle.irr_rational.specs.Ratio.{entry};
ghost use Rattle.irr_space.specs.Reciprocal.{IsPeriod};
ghost use Rattle.irr_kvec.specs.WaveMeaning.{wave_vector};
ghost use Rattle.irr_kvec.specs.Centrings.{LatticeOf, IsCentringList, IsWithinLimits};

use crate::reciprocal::is_reciprocal;
use crate::wave::Wave;
use irr_rat::Vec3;

/// The least positive number q such that q times the wave vector is in the reciprocal lattice.
pub fn period(centrings: &[Vec3], k: &Wave) -> u32
    requires centrings { IsCentringList centrings.now }
    requires limits { IsWithinLimits k.now }
    ensures { IsPeriod (LatticeOf centrings.now) (wave_vector k.now) result }
{
    let mut factor = 1u32;
    while !is_reciprocal(centrings, &multiples(&k.num, factor), 1) {
        factor += 1;
    }
    factor * k.den
}

fn multiples(num: &[i64; 3], factor: u32) -> [i64; 3]
    requires small { (i : Fin 3) → unsigned_abs (entry num.now i) ≤ 10 ^ 14 }
    requires few { factor ≤ 32 }
    ensures value { (i : Fin 3) → entry result i ≡ pos factor *ℤ entry num.now i }
    ensures small { (i : Fin 3) → unsigned_abs (entry result i) ≤ 2 ^ 60 }
{
    [
        multiple(num[0], factor),
        multiple(num[1], factor),
        multiple(num[2], factor),
    ]
}

fn multiple(number: i64, factor: u32) -> i64
    requires small { unsigned_abs number ≤ 10 ^ 14 }
    requires few { factor ≤ 32 }
    ensures value { result ≡ pos factor *ℤ number }
    ensures small { unsigned_abs result ≤ 2 ^ 60 }
{
    i64::from(factor) * number
}
