// The products x n y n^-1 of places with powers of z beside them.
ghost use Rattle.std.specs.Prelude.{ℕ, ◌≡◌, ◌<◌};
ghost use Rattle.std.specs.Int.{◌∣◌};
ghost use Rattle.irr_algebra.specs.Fin.{Fin, to_nat};
ghost use Rattle.irr_theory.specs.Lifted.{Lifted};
ghost use Rattle.irr_space.specs.PhaseTable.{phases_over};
ghost use Rattle.irr_extension.specs.Product.{opposite_of, sandwich as theory_sandwich};
ghost use Rattle.irr_rep.specs.Twisted.{phase_table, place_count};
ghost use Rattle.irr_root.specs.Sandwiches.{IsTurned};

use crate::turned::{Turned, turned_product};
use irr_rep::Twisted;

// The place n^-1 with the power of z that makes it the inverse of n.
fn opposite(t: &Twisted, n: u32) -> Turned
    requires { n < place_count t.now }
    ensures within { result.place < place_count t.now }
    ensures limited { result.exponent < (phase_table t.now).order }
    ensures turned { (M : ℕ) (v : (phase_table t.now).order ∣ M) (k : Fin (place_count t.now)) → to_nat k ≡ n
        → IsTurned (phase_table t.now) M v result.place result.exponent (opposite_of (phases_over (phase_table t.now) M v) k) }
{
    let place = t.inverse(n);
    let order = t.order();
    let exponent = (order - 1) * t.phase(n, place);
    Turned {
        place,
        exponent: exponent % order,
    }
}

/// The product x n y n^-1.
pub(crate) fn sandwich(t: &Twisted, x: Turned, n: u32, y: Turned) -> Turned
    requires left { x.place < place_count t.now }
    requires left_exponent { x.exponent < (phase_table t.now).order }
    requires member { n < place_count t.now }
    requires right { y.place < place_count t.now }
    requires right_exponent { y.exponent < (phase_table t.now).order }
    ensures within { result.place < place_count t.now }
    ensures limited { result.exponent < (phase_table t.now).order }
    ensures turned { (M : ℕ) (v : (phase_table t.now).order ∣ M) (a b : Lifted (phases_over (phase_table t.now) M v)) (k : Fin (place_count t.now))
        → IsTurned (phase_table t.now) M v x.place x.exponent a → IsTurned (phase_table t.now) M v y.place y.exponent b → to_nat k ≡ n
        → IsTurned (phase_table t.now) M v result.place result.exponent (theory_sandwich (phases_over (phase_table t.now) M v) a k b) }
{
    let member = Turned {
        place: n,
        exponent: 0,
    };
    let left = turned_product(t, x, member);
    let middle = turned_product(t, left, y);
    let last = opposite(t, n);
    turned_product(t, middle, last)
}
