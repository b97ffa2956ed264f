ghost use Rattle.std.specs.Prelude.{◌≡◌, ◌<◌, ◌≤◌, ◌^◌, IsTrue, unsigned_abs};
ghost use Rattle.std.specs.List.{All};
ghost use Rattle.irr_seitz.specs.Rotation.{determinant};
ghost use Rattle.irr_seitz.specs.OperationMeaning.{operation, AreWithin};
ghost use Rattle.irr_close.specs.Closing.{IsGenerator};

use super::*;
use crate::rotation;
use irr_rat::Vec3;

const UNIT: [[i16; 3]; 3] = [[1, 0, 0], [0, 1, 0], [0, 0, 1]];

fn op(rot: [[i16; 3]; 3], num: [i64; 3], den: u32) -> Op
    requires { 0 < den }
{
    let shift = Vec3::new(num, den);
    let num = shift.num;
    Op {
        rot,
        num,
        den: shift.den,
    }
}

fn is_small(number: i64) -> bool
    ensures { IsTrue result → unsigned_abs number ≤ 10 ^ 12 }
{
    number.unsigned_abs() <= 1_000_000_000_000
}

fn is_generator(op: &Op) -> bool
    ensures { IsTrue result → IsGenerator op.now }
{
    if !rotation::is_small(&op.rot) {
        return false;
    }
    if !is_small(op.num[0]) {
        return false;
    }
    if !is_small(op.num[1]) {
        return false;
    }
    is_small(op.num[2])
}

fn are_generators(ops: &[Op]) -> bool
    ensures { IsTrue result → All IsGenerator ops.now }
{
    ops.iter().all(|op| is_generator(op))
}

fn is_unimodular(op: &Op) -> bool
    ensures { IsTrue result → unsigned_abs (determinant (operation op.now).rotation) ≡ 1 }
{
    op.det().unsigned_abs() == 1
}

fn are_unimodular(ops: &[Op]) -> bool
    ensures { IsTrue result → All (λ s. unsigned_abs (determinant (operation s).rotation) ≡ 1) ops.now }
{
    ops.iter().all(|op| is_unimodular(op))
}

// How many rotations and centrings the generated group has, or why it is refused; none where the generators
// are not what `close` asks for.
fn counts(alloc: Global, generators: &[Op]) -> Option<Result<(usize, usize), CloseError>> {
    if are_generators(generators) && are_unimodular(generators) {
        Some(match close(alloc, generators, Phase::Minus) {
            Ok(group) => Ok((group.ops().len(), group.centrings().len())),
            Err(error) => Err(error),
        })
    } else {
        None
    }
}

// The named groups, with the numbers of their rotations and centrings in International Tables A.
#[test]
fn named_groups(rt: HostRuntime) {
    let alloc = rt.alloc();
    let inversion = op([[-1, 0, 0], [0, -1, 0], [0, 0, -1]], [0, 0, 0], 1);
    let cycle = op([[0, 0, 1], [1, 0, 0], [0, 1, 0]], [0, 0, 0], 1);
    let screw = op([[-1, 0, 0], [0, 1, 0], [0, 0, -1]], [0, 1, 0], 2);
    assert_eq!(rt; counts(alloc, &[inversion]), Some(Ok((2, 1))));
    assert_eq!(rt; counts(alloc, &[screw]), Some(Ok((2, 1))));
    let p212121 = [
        op([[1, 0, 0], [0, -1, 0], [0, 0, -1]], [1, 1, 0], 2),
        op([[-1, 0, 0], [0, 1, 0], [0, 0, -1]], [0, 1, 1], 2),
    ];
    assert_eq!(rt; counts(alloc, &p212121), Some(Ok((4, 1))));
    let i213 = [
        op(UNIT, [1, 1, 1], 2),
        op([[-1, 0, 0], [0, -1, 0], [0, 0, 1]], [1, 0, 1], 2),
        op([[-1, 0, 0], [0, 1, 0], [0, 0, -1]], [0, 1, 1], 2),
        cycle,
    ];
    assert_eq!(rt; counts(alloc, &i213), Some(Ok((12, 2))));
    let pm3m = [
        op([[0, -1, 0], [1, 0, 0], [0, 0, 1]], [0, 0, 0], 1),
        cycle,
        inversion,
    ];
    assert_eq!(rt; counts(alloc, &pm3m), Some(Ok((48, 1))));
    let fd3m = [
        op(UNIT, [0, 1, 1], 2),
        op(UNIT, [1, 0, 1], 2),
        op([[-1, 0, 0], [0, -1, 0], [0, 0, 1]], [3, 1, 2], 4),
        op([[-1, 0, 0], [0, 1, 0], [0, 0, -1]], [1, 2, 3], 4),
        cycle,
        op([[0, 1, 0], [1, 0, 0], [0, 0, -1]], [3, 1, 2], 4),
        inversion,
    ];
    assert_eq!(rt; counts(alloc, &fd3m), Some(Ok((48, 4))));
}

// The group that is generated; none where the generators are not what `close` asks for, or are refused.
fn closed(alloc: Global, generators: &[Op]) -> Option<Group> {
    if are_generators(generators) && are_unimodular(generators) {
        match close(alloc, generators, Phase::Plus) {
            Ok(group) => Some(group),
            Err(_error) => None,
        }
    } else {
        None
    }
}

// Whether the operation at a place is the one that is expected.
fn has_at(group: &Option<Group>, i: usize, expected: &Op) -> bool {
    match group {
        Some(group) => match group.ops().get(i) {
            Some(found) => *found == *expected,
            None => false,
        },
        None => false,
    }
}

fn are_equal(a: &Option<Group>, b: &Option<Group>) -> bool {
    match (a, b) {
        (Some(a), Some(b)) => {
            a.ops() == b.ops() && a.centrings() == b.centrings() && a.phase() == b.phase()
        }
        _ => false,
    }
}

// Numbers of rotations and centrings in International Tables A: P6_3/mmc, R-3c in hexagonal axes, I4_1/amd in
// origin choice 1, Ia-3d.
#[test]
fn groups_of_the_tables(rt: HostRuntime) {
    let alloc = rt.alloc();
    let inversion = op([[-1, 0, 0], [0, -1, 0], [0, 0, -1]], [0, 0, 0], 1);
    let threefold = op([[0, -1, 0], [1, -1, 0], [0, 0, 1]], [0, 0, 0], 1);
    let hexagonal = [
        threefold,
        op([[-1, 0, 0], [0, -1, 0], [0, 0, 1]], [0, 0, 1], 2),
        op([[0, 1, 0], [1, 0, 0], [0, 0, -1]], [0, 0, 0], 1),
        inversion,
    ];
    assert_eq!(rt; counts(alloc, &hexagonal), Some(Ok((24, 1))));
    let rhombohedral = [
        op(UNIT, [2, 1, 1], 3),
        threefold,
        op([[0, 1, 0], [1, 0, 0], [0, 0, -1]], [0, 0, 1], 2),
        inversion,
    ];
    assert_eq!(rt; counts(alloc, &rhombohedral), Some(Ok((12, 3))));
    let tetragonal = [
        op(UNIT, [1, 1, 1], 2),
        op([[-1, 0, 0], [0, -1, 0], [0, 0, 1]], [1, 1, 1], 2),
        op([[0, -1, 0], [1, 0, 0], [0, 0, 1]], [0, 2, 1], 4),
        op([[-1, 0, 0], [0, 1, 0], [0, 0, -1]], [2, 0, 3], 4),
        op([[-1, 0, 0], [0, -1, 0], [0, 0, -1]], [0, 2, 1], 4),
    ];
    assert_eq!(rt; counts(alloc, &tetragonal), Some(Ok((16, 2))));
    let cubic = [
        op(UNIT, [1, 1, 1], 2),
        op([[-1, 0, 0], [0, -1, 0], [0, 0, 1]], [1, 0, 1], 2),
        op([[-1, 0, 0], [0, 1, 0], [0, 0, -1]], [0, 1, 1], 2),
        op([[0, 0, 1], [1, 0, 0], [0, 1, 0]], [0, 0, 0], 1),
        op([[0, 1, 0], [1, 0, 0], [0, 0, -1]], [3, 1, 1], 4),
        inversion,
    ];
    assert_eq!(rt; counts(alloc, &cubic), Some(Ok((48, 2))));
}

#[test]
fn canonical_operations_are_numbered(rt: HostRuntime) {
    let alloc = rt.alloc();
    let p212121 = closed(
        alloc,
        &[
            op([[1, 0, 0], [0, -1, 0], [0, 0, -1]], [1, 1, 0], 2),
            op([[-1, 0, 0], [0, 1, 0], [0, 0, -1]], [0, 1, 1], 2),
        ],
    );
    assert!(rt; has_at(&p212121, 0, &op(UNIT, [0, 0, 0], 1)));
    assert!(rt;
        has_at(
            &p212121,
            1,
            &op([[-1, 0, 0], [0, -1, 0], [0, 0, 1]], [1, 0, 1], 2)
        )
    );
    assert!(rt;
        has_at(
            &p212121,
            2,
            &op([[-1, 0, 0], [0, 1, 0], [0, 0, -1]], [0, 1, 1], 2)
        )
    );
    assert!(rt;
        has_at(
            &p212121,
            3,
            &op([[1, 0, 0], [0, -1, 0], [0, 0, -1]], [1, 1, 0], 2)
        )
    );
    let pm3m = closed(
        alloc,
        &[
            op([[0, -1, 0], [1, 0, 0], [0, 0, 1]], [0, 0, 0], 1),
            op([[0, 0, 1], [1, 0, 0], [0, 1, 0]], [0, 0, 0], 1),
            op([[-1, 0, 0], [0, -1, 0], [0, 0, -1]], [0, 0, 0], 1),
        ],
    );
    assert!(rt;
        has_at(
            &pm3m,
            1,
            &op([[-1, 0, 0], [0, -1, 0], [0, 0, -1]], [0, 0, 0], 1)
        )
    );
    assert!(rt;
        has_at(
            &pm3m,
            2,
            &op([[-1, 0, 0], [0, -1, 0], [0, 0, 1]], [0, 0, 0], 1)
        )
    );
    assert!(rt;
        has_at(
            &pm3m,
            3,
            &op([[-1, 0, 0], [0, 0, -1], [0, -1, 0]], [0, 0, 0], 1)
        )
    );
    let p41 = closed(
        alloc,
        &[op([[0, -1, 0], [1, 0, 0], [0, 0, 1]], [0, 0, 1], 4)],
    );
    assert!(rt;
        has_at(
            &p41,
            1,
            &op([[-1, 0, 0], [0, -1, 0], [0, 0, 1]], [0, 0, 1], 2)
        )
    );
    assert!(rt;
        has_at(
            &p41,
            2,
            &op([[0, -1, 0], [1, 0, 0], [0, 0, 1]], [0, 0, 1], 4)
        )
    );
    assert!(rt;
        has_at(
            &p41,
            3,
            &op([[0, 1, 0], [-1, 0, 0], [0, 0, 1]], [0, 0, 3], 4)
        )
    );
    let p3 = closed(
        alloc,
        &[op([[0, -1, 0], [1, -1, 0], [0, 0, 1]], [0, 0, 0], 1)],
    );
    assert!(rt;
        has_at(
            &p3,
            1,
            &op([[-1, 1, 0], [-1, 0, 0], [0, 0, 1]], [0, 0, 0], 1)
        )
    );
    assert!(rt;
        has_at(
            &p3,
            2,
            &op([[0, -1, 0], [1, -1, 0], [0, 0, 1]], [0, 0, 0], 1)
        )
    );
}

#[test]
fn the_least_vector_is_chosen_among_the_centrings(rt: HostRuntime) {
    let alloc = rt.alloc();
    let mirror = [[-1, 0, 0], [0, 1, 0], [0, 0, 1]];
    let centred = closed(alloc, &[op(mirror, [1, 0, 1], 2), op(UNIT, [1, 1, 0], 2)]);
    assert!(rt; has_at(&centred, 0, &op(UNIT, [0, 0, 0], 1)));
    assert!(rt; has_at(&centred, 1, &op(mirror, [0, 1, 1], 2)));
}

#[test]
fn generators_in_another_order_and_with_repeats_give_an_equal_group(rt: HostRuntime) {
    let alloc = rt.alloc();
    let first = op([[1, 0, 0], [0, -1, 0], [0, 0, -1]], [1, 1, 0], 2);
    let second = op([[-1, 0, 0], [0, 1, 0], [0, 0, -1]], [0, 1, 1], 2);
    let centring = op(UNIT, [1, 1, 1], 2);
    assert!(rt;
        are_equal(
            &closed(alloc, &[first, second, centring]),
            &closed(alloc, &[centring, second, first, second, centring]),
        )
    );
    let first_further = op([[1, 0, 0], [0, -1, 0], [0, 0, -1]], [3, -1, 4], 2);
    let centring_further = op(UNIT, [1, -3, 5], 2);
    assert!(rt;
        are_equal(
            &closed(alloc, &[first, second, centring]),
            &closed(alloc, &[first_further, second, first, centring_further]),
        )
    );
}

// Two mirrors at x = 0 and glides along them: the glides bring the translations.
#[test]
fn operations_with_one_rotation_bring_translations(rt: HostRuntime) {
    let alloc = rt.alloc();
    let mirror = [[-1, 0, 0], [0, 1, 0], [0, 0, 1]];
    let lines = [
        op(mirror, [0, 0, 0], 1),
        op(mirror, [0, 1, 0], 2),
        op(mirror, [0, 0, 1], 3),
    ];
    assert_eq!(rt; counts(alloc, &lines), Some(Ok((2, 6))));
}

#[test]
fn members_and_places_of_a_screw_axis(rt: HostRuntime) {
    let alloc = rt.alloc();
    let rot = [[-1, 0, 0], [0, 1, 0], [0, 0, -1]];
    match closed(alloc, &[op(rot, [0, 1, 0], 2)]) {
        Some(group) => {
            assert!(rt; group.contains(&op(rot, [2, -3, 4], 2)));
            assert!(rt; !group.contains(&op(rot, [0, 0, 0], 1)));
            assert!(rt; !group.contains(&op([[-1, 0, 0], [0, -1, 0], [0, 0, -1]], [0, 0, 0], 1)));
            assert_eq!(rt; group.canonical(&rot), Some(1));
            assert_eq!(rt;
                group.canonical(&[[-1, 0, 0], [0, -1, 0], [0, 0, -1]]),
                None
            );
            match group.copy(alloc) {
                Ok(copy) => {
                    assert_eq!(rt; copy.ops().len(), 2);
                    assert_eq!(rt; copy.centrings().len(), 1);
                    assert!(rt; copy.phase() == Phase::Plus);
                }
                Err(_memory) => assert!(rt; false),
            }
        }
        None => assert!(rt; false),
    }
}

fn exponent_of(group: &Option<Group>) -> Option<u32> {
    match group {
        Some(group) => Some(group.exponent()),
        None => None,
    }
}

#[test]
fn exponents_are_least_common_multiples_of_orders(rt: HostRuntime) {
    let alloc = rt.alloc();
    let cycle = op([[0, 0, 1], [1, 0, 0], [0, 1, 0]], [0, 0, 0], 1);
    let fourfold = op([[0, -1, 0], [1, 0, 0], [0, 0, 1]], [0, 0, 1], 4);
    assert_eq!(rt; exponent_of(&closed(alloc, &[])), Some(1));
    assert_eq!(rt; exponent_of(&closed(alloc, &[fourfold])), Some(4));
    let i213 = [
        op(UNIT, [1, 1, 1], 2),
        op([[-1, 0, 0], [0, -1, 0], [0, 0, 1]], [1, 0, 1], 2),
        op([[-1, 0, 0], [0, 1, 0], [0, 0, -1]], [0, 1, 1], 2),
        cycle,
    ];
    assert_eq!(rt; exponent_of(&closed(alloc, &i213)), Some(6));
    let pm3m = [
        op([[0, -1, 0], [1, 0, 0], [0, 0, 1]], [0, 0, 0], 1),
        cycle,
        op([[-1, 0, 0], [0, -1, 0], [0, 0, -1]], [0, 0, 0], 1),
    ];
    assert_eq!(rt; exponent_of(&closed(alloc, &pm3m)), Some(12));
}

#[test]
fn limits(rt: HostRuntime) {
    let alloc = rt.alloc();
    let shear = op([[1, 1, 0], [0, 1, 0], [0, 0, 1]], [0, 0, 0], 1);
    assert_eq!(rt; counts(alloc, &[shear]), Some(Err(CloseError::Rotations)));
    let coprime = [
        op([[-1, 0, 0], [0, 1, 0], [0, 0, 1]], [1, 0, 0], 401),
        op([[1, 0, 0], [0, -1, 0], [0, 0, 1]], [0, 1, 0], 409),
    ];
    assert_eq!(rt; counts(alloc, &coprime), Some(Err(CloseError::Denominator)));
    assert_eq!(rt;
        counts(alloc, &[op(UNIT, [1, 0, 0], 33)]),
        Some(Err(CloseError::Centrings))
    );
    assert_eq!(rt;
        counts(alloc, &[op(UNIT, [1, 0, 0], 32)]),
        Some(Ok((1, 32)))
    );
}
