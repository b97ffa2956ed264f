// Equivalence of wave vectors.
ghost use Rattle.std.specs.Prelude.{◌≡◌, ◌<◌, ◌≤◌, ◌^◌, ◌↔◌, ◌-ℤ◌, IsTrue, unsigned_abs};
ghost use Rattle.irr_algebra.specs.Fin.{Fin};
ghost use Rattle.irr_rational.specs.Ratio.{entry};
ghost use Rattle.irr_space.specs.Reciprocal.{AreEquivalent};
ghost use Rattle.irr_kvec.specs.WaveMeaning.{wave_vector};
ghost use Rattle.irr_kvec.specs.Centrings.{LatticeOf, IsCentringList, IsWithinLimits};

use crate::reciprocal::is_reciprocal;
use crate::wave::Wave;
use irr_rat::Vec3;

/// Whether two wave vectors differ by a vector of the reciprocal lattice.
pub fn equivalent(centrings: &[Vec3], a: &Wave, b: &Wave) -> bool
    requires centrings { IsCentringList centrings.now }
    requires limits { IsWithinLimits a.now }
    requires other_limits { IsWithinLimits b.now }
    ensures { IsTrue result ↔ AreEquivalent (LatticeOf centrings.now) (wave_vector a.now) (wave_vector b.now) }
{
    a.den == b.den && is_reciprocal(centrings, &differences(&a.num, &b.num), a.den)
}

/// The differences by place.
pub(crate) fn differences(a: &[i64; 3], b: &[i64; 3]) -> [i64; 3]
    requires small { (i : Fin 3) → unsigned_abs (entry a.now i) ≤ 10 ^ 14 }
    requires other_small { (i : Fin 3) → unsigned_abs (entry b.now i) ≤ 10 ^ 14 }
    ensures value { (i : Fin 3) → entry result i ≡ entry a.now i -ℤ entry b.now i }
    ensures small { (i : Fin 3) → unsigned_abs (entry result i) ≤ 2 ^ 60 }
{
    [
        difference(a[0], b[0]),
        difference(a[1], b[1]),
        difference(a[2], b[2]),
    ]
}

fn difference(a: i64, b: i64) -> i64
    requires small { unsigned_abs a ≤ 10 ^ 14 }
    requires other_small { unsigned_abs b ≤ 10 ^ 14 }
    ensures value { result ≡ a -ℤ b }
    ensures small { unsigned_abs result ≤ 2 ^ 60 }
{
    a - b
}
