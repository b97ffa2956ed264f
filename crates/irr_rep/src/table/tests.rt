ghost use Rattle.std.specs.Prelude.{◌≡◌, ◌*◌, [], ◌∷◌, length, IfOk};
ghost use Rattle.irr_rep.specs.Subgroup.{IsSubgroup};
ghost use Rattle.irr_rep.specs.Twisted.{phase_table, place_count};

use super::*;
use std::process::Abort;
use std::test::Fail;

// The little group of P2_1 at 0,1/2,0, with z = i: the square of the screw is a lattice translation with
// the phase -1.
pub(crate) fn screw_axis(alloc: Global) -> Result<Twisted, Memory>
    ensures count { IfOk result (λ t. place_count t ≡ 2) }
    ensures subgroup { IfOk result (λ t. IsSubgroup (phase_table t) (0 ∷ [])) }
{
    let products = Vec::from_slice(alloc, &[0, 1, 1, 0])?;
    let exponents = Vec::from_slice(alloc, &[0, 0, 0, 2])?;
    let places = Vec::from_slice(alloc, &[0, 1])?;
    Twisted::new(alloc, 4, products, exponents, places)
}

// The little group of P2_12_12_1 at 1/2,1/2,1/2, with z = i. The operations after the identity are
// -x+1/2,-y,z+1/2; -x,y+1/2,-z+1/2 and x+1/2,-y+1/2,-z. They multiply as the units of the quaternions.
pub(crate) fn three_screw_axes(alloc: Global) -> Result<Twisted, Memory>
    ensures count { IfOk result (λ t. place_count t ≡ 4) }
    ensures subgroup { IfOk result (λ t. IsSubgroup (phase_table t) (0 ∷ 2 ∷ [])) }
{
    let products = Vec::from_slice(alloc, &[0, 1, 2, 3, 1, 0, 3, 2, 2, 3, 0, 1, 3, 2, 1, 0])?;
    let exponents = Vec::from_slice(alloc, &[0, 0, 0, 0, 0, 2, 0, 2, 0, 2, 2, 0, 0, 0, 2, 2])?;
    let places = Vec::from_slice(alloc, &[0, 1, 2, 3])?;
    Twisted::new(alloc, 4, products, exponents, places)
}

// The table has the order 4, these products and exponents, and these places in the group's list.
fn assert_table(rt: &impl Abort, t: &Twisted, products: &[u32], exponents: &[u32], places: &[u32])
    requires count { place_count t.now ≡ length places.now }
    requires products { length products.now ≡ length places.now * length places.now }
    requires exponents { length exponents.now ≡ length places.now * length places.now }
{
    assert_eq!(rt; t.order(), 4);
    let size = t.len();
    for i in 0..size {
        assert_eq!(rt; t.place(i), places[i as usize]);
        assert_eq!(rt; t.inverse(i), i);
        for j in 0..size {
            let entry = t.index(i, j);
            assert_eq!(rt; t.table(i, j), products[entry], "at {i}, {j}");
            assert_eq!(rt; t.phase(i, j), exponents[entry], "at {i}, {j}");
        }
    }
}

#[test]
pub(crate) fn screw_axis_at_the_zone_face(rt: HostRuntime) -> Result<(), Fail> {
    let t = screw_axis(rt.alloc())?;
    assert_table(&rt, &t, &[0, 1, 1, 0], &[0, 0, 0, 2], &[0, 1]);
    assert_table(&rt, &t.restrict(rt.alloc(), &[0])?, &[0], &[0], &[0]);
    Ok(())
}

#[test]
fn three_screw_axes_at_the_zone_corner(rt: HostRuntime) -> Result<(), Fail> {
    let t = three_screw_axes(rt.alloc())?;
    assert_table(
        &rt,
        &t,
        &[0, 1, 2, 3, 1, 0, 3, 2, 2, 3, 0, 1, 3, 2, 1, 0],
        &[0, 0, 0, 0, 0, 2, 0, 2, 0, 2, 2, 0, 0, 0, 2, 2],
        &[0, 1, 2, 3],
    );
    assert_table(
        &rt,
        &t.restrict(rt.alloc(), &[0, 2])?,
        &[0, 1, 1, 0],
        &[0, 0, 0, 2],
        &[0, 2],
    );
    Ok(())
}
