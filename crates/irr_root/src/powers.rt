// The powers of a place of a table of phases.
ghost use Rattle.std.specs.Prelude.{◌≡◌, ◌<◌, IfOk};
ghost use Rattle.irr_algebra.specs.Fin.{Fin, to_nat};
ghost use Rattle.irr_rep.specs.Twisted.{phase_table, place_count};
ghost use Rattle.irr_root.specs.Powers.{ArePowers};

use irr_memory::Memory;
use irr_rep::Twisted;
use std::alloc::Global;

/// The powers of a matrix D(i) below the order m of the place i: D(i)^j is z^exponents[j] times the matrix
/// at places[j], and D(i)^m is z^turn.
#[derive(Drop)]
pub(crate) struct Powers {
    pub(crate) places: Vec<u32>,
    pub(crate) exponents: Vec<u32>,
    pub(crate) turn: u32,
}

/// The powers of a place.
pub(crate) fn powers_of(alloc: Global, t: &Twisted, i: u32) -> Result<Powers, Memory>
    requires { i < place_count t.now }
    ensures { IfOk result (λ w. (p : Fin (place_count t.now)) → to_nat p ≡ i
        → ArePowers (phase_table t.now) p w.places.items w.exponents.items w.turn) }
{
    let mut places = Vec::new(alloc);
    let mut exponents = Vec::new(alloc);
    places.push(0)?;
    exponents.push(0)?;
    let mut place = i;
    let mut exponent = 0;
    while place != 0 {
        places.push(place)?;
        exponents.push(exponent)?;
        exponent += t.phase(i, place);
        place = t.table(i, place);
    }
    Ok(Powers {
        places,
        exponents,
        turn: exponent,
    })
}

#[cfg(test)]
pub(crate) mod tests;
