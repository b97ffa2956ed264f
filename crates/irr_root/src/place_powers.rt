// Powers of places with powers of z beside them.
ghost use Rattle.std.specs.Prelude.{◌≡◌, ◌<◌, ◌⊎◌, ◌%◌};
ghost use Rattle.irr_algebra.specs.Fin.{Fin, to_nat};
ghost use Rattle.irr_rep.specs.Twisted.{phase_table, place_count};
ghost use Rattle.irr_space.specs.PhaseTable.{exponents_below, place_power};

use crate::turned::{Turned, turned_product};
use irr_rep::Twisted;

/// The second or third power of a place, with the exponent of z that the phases of its products add up to.
pub(crate) fn turned_power(t: &Twisted, p: u32, x: u32) -> Turned
    requires two_or_three { (p ≡ 2) ⊎ (p ≡ 3) }
    requires place { x < place_count t.now }
    ensures within { result.place < place_count t.now }
    ensures limited { result.exponent < (phase_table t.now).order }
    ensures place { let T = phase_table t.now in (q : Fin (place_count t.now)) → to_nat q ≡ x → result.place ≡ to_nat (place_power T.start T.product q p) }
    ensures exponent { let T = phase_table t.now in (q : Fin (place_count t.now)) → to_nat q ≡ x
        → result.exponent ≡ exponents_below T.start T.product T.exponent q p % T.order }
{
    let bare = Turned {
        place: x,
        exponent: 0,
    };
    let square = turned_product(t, bare, bare);
    if p == 2 {
        square
    } else {
        turned_product(t, bare, square)
    }
}
