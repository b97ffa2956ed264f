ghost use Rattle.std.specs.Prelude.{◌≡◌, IfOk};
ghost use Rattle.irr_rep.specs.Twisted.{phase_table, place_count};

use super::*;
use crate::place_powers::turned_power;
use std::test::Fail;

// The little group of P2_1 at 0,1/2,0, with z = i: the square of the screw is a lattice translation with
// the phase -1.
pub(crate) fn screw_axis(alloc: Global) -> Result<Twisted, Memory>
    ensures count { IfOk result (λ t. place_count t ≡ 2) }
    ensures order { IfOk result (λ t. (phase_table t).order ≡ 4) }
{
    let products = Vec::from_slice(alloc, &[0, 1, 1, 0])?;
    let exponents = Vec::from_slice(alloc, &[0, 0, 0, 2])?;
    let places = Vec::from_slice(alloc, &[0, 1])?;
    Twisted::new(alloc, 4, products, exponents, places)
}

// The square of the screw's matrix is z^2 = -1; the unit is its own first power.
#[test]
fn powers_of_a_screw(rt: HostRuntime) -> Result<(), Fail> {
    let t = screw_axis(rt.alloc())?;
    let screw = powers_of(rt.alloc(), &t, 1)?;
    assert!(rt; screw.places.as_slice() == [0, 1].as_slice());
    assert!(rt; screw.exponents.as_slice() == [0, 0].as_slice());
    assert_eq!(rt; screw.turn, 2);
    let unit = powers_of(rt.alloc(), &t, 0)?;
    assert!(rt; unit.places.as_slice() == [0].as_slice());
    assert!(rt; unit.exponents.as_slice() == [0].as_slice());
    assert_eq!(rt; unit.turn, 0);
    Ok(())
}

// The square of the screw is the unit with z^2 = -1 beside it, and its cube the screw with z^2.
#[test]
fn square_and_cube_of_a_screw(rt: HostRuntime) -> Result<(), Fail> {
    let t = screw_axis(rt.alloc())?;
    let square = turned_power(&t, 2, 1);
    assert_eq!(rt; square.place, 0);
    assert_eq!(rt; square.exponent, 2);
    let cube = turned_power(&t, 3, 1);
    assert_eq!(rt; cube.place, 1);
    assert_eq!(rt; cube.exponent, 2);
    Ok(())
}
