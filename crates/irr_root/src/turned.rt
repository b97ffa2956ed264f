// Products of places with powers of z beside them.
ghost use Rattle.std.specs.Prelude.{◌≡◌, ◌<◌, ◌+◌, ◌*◌, ◌-◌, ◌%◌};
ghost use Rattle.irr_algebra.specs.Fin.{Fin, to_nat};
ghost use Rattle.irr_rep.specs.Twisted.{phase_table, place_count};

use irr_rep::Twisted;

/// A place with z^exponent beside it.
#[derive(Clone, Copy, Drop)]
pub(crate) struct Turned {
    pub(crate) place: u32,
    pub(crate) exponent: u32,
}

/// The product of two places, with the powers of z beside them and that of the phase.
pub(crate) fn turned_product(t: &Twisted, x: Turned, y: Turned) -> Turned
    requires left { x.place < place_count t.now }
    requires right { y.place < place_count t.now }
    requires left_exponent { x.exponent < (phase_table t.now).order }
    requires right_exponent { y.exponent < (phase_table t.now).order }
    ensures within { result.place < place_count t.now }
    ensures limited { result.exponent < (phase_table t.now).order }
    ensures place { (p q : Fin (place_count t.now)) → to_nat p ≡ x.place → to_nat q ≡ y.place
        → result.place ≡ to_nat ((phase_table t.now).product p q) }
    ensures exponent { (p q : Fin (place_count t.now)) → to_nat p ≡ x.place → to_nat q ≡ y.place
        → result.exponent ≡ (x.exponent + y.exponent + (phase_table t.now).exponent p q) % (phase_table t.now).order }
{
    let exponent = x.exponent + y.exponent + t.phase(x.place, y.place);
    let order = t.order();
    Turned {
        place: t.table(x.place, y.place),
        exponent: exponent % order,
    }
}
