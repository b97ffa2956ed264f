use super::*;
use irr_memory::Memory;
use std::process::Abort;
use std::test::Fail;

mod rotations;

use rotations::{Rotation, point_group};

// The little group of P2_1 at 0,1/2,0, with z = i: the square of the screw is a lattice translation with
// the phase -1.
fn screw_axis(alloc: Global) -> Result<Twisted, Memory> {
    let products = Vec::from_slice(alloc, &[0, 1, 1, 0])?;
    let exponents = Vec::from_slice(alloc, &[0, 0, 0, 2])?;
    let places = Vec::from_slice(alloc, &[0, 1])?;
    Twisted::new(alloc, 4, products, exponents, places)
}

#[test]
fn screw_axis_at_the_zone_face(rt: HostRuntime) -> Result<(), Fail> {
    let t = screw_axis(rt.alloc())?;
    let series = chain(rt.alloc(), &t)?;
    assert_eq!(rt; series.levels.len(), 1);
    let level = &series.levels[0];
    assert_eq!(rt; level.members.as_slice(), [0].as_slice());
    assert_eq!(rt; level.p, 2);
    assert_eq!(rt; level.g, 1);
    Ok(())
}

// The axes and their opposites: x, -x, y, -y, z, -z.
const X: u8 = 0;

const MINUS_X: u8 = 1;

const Y: u8 = 2;

const MINUS_Y: u8 = 3;

const Z: u8 = 4;

const MINUS_Z: u8 = 5;

// The rotations of the generators of named groups, the number of all rotations, and the number of its prime
// factors: at the zone centre the little co-group is the point group.
const POINT_GROUPS: [(&[Rotation], u32, usize); 6] = [
    (&[[MINUS_X, MINUS_Y, MINUS_Z]], 2, 1),
    (&[[MINUS_X, Y, MINUS_Z]], 2, 1),
    (&[[X, MINUS_Y, MINUS_Z], [MINUS_X, Y, MINUS_Z]], 4, 2),
    (
        &[[MINUS_X, MINUS_Y, Z], [MINUS_X, Y, MINUS_Z], [Z, X, Y]],
        12,
        3,
    ),
    (
        &[[MINUS_Y, X, Z], [Z, X, Y], [MINUS_X, MINUS_Y, MINUS_Z]],
        48,
        5,
    ),
    (
        &[
            [MINUS_X, MINUS_Y, Z],
            [MINUS_X, Y, MINUS_Z],
            [Z, X, Y],
            [Y, X, MINUS_Z],
            [MINUS_X, MINUS_Y, MINUS_Z],
        ],
        48,
        5,
    ),
];

#[test]
fn point_groups_have_a_level_for_each_prime_factor(rt: HostRuntime) -> Result<(), Fail> {
    for (generators, order, length) in POINT_GROUPS {
        let t = point_group(&rt, rt.alloc(), generators)?;
        assert_eq!(rt; t.len(), order);
        assert_eq!(rt; chain(rt.alloc(), &t)?.levels.len(), length);
    }
    Ok(())
}
