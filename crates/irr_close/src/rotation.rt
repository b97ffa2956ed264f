// What is asked of rotations, entry by entry, and the numbering of operations by their rotations.
ghost use Rattle.std.specs.Prelude.{◌≡◌, ◌≤◌, ◌↔◌, pos, IsTrue, slice_index_or, unsigned_abs};
ghost use Rattle.std.specs.Ordering.{MatchOrdering};
ghost use Rattle.irr_algebra.specs.Matrix.{null};
ghost use Rattle.irr_space.specs.CanonicalOperation.{IsRotationBelow, IsUnit, IsNumberedBefore};
ghost use Rattle.irr_seitz.specs.Rotation.{rotation_of, IsWithin};
ghost use Rattle.irr_seitz.specs.OperationMeaning.{operation, AreWithin};
ghost use Rattle.irr_close.specs.Rows.{IsSameRow, IsSmallRow};

use irr_seitz::Op;
use std::cmp::Ordering;

const UNIT: [[i16; 3]; 3] = [[1, 0, 0], [0, 1, 0], [0, 0, 1]];

fn are_all(x: bool, y: bool, z: bool) -> bool
    ensures { IsTrue result ↔ (IsTrue x × IsTrue y × IsTrue z) }
{
    x && y && z
}

fn same_row(a: &[i16; 3], b: &[i16; 3]) -> bool
    ensures { IsTrue result ↔ IsSameRow a.now b.now }
{
    a[0] == b[0] && a[1] == b[1] && a[2] == b[2]
}

/// Whether two rotations are the same.
pub fn same(a: &[[i16; 3]; 3], b: &[[i16; 3]; 3]) -> bool
    ensures { IsTrue result ↔ (rotation_of a.now ≡ rotation_of b.now) }
{
    are_all(
        same_row(&a[0], &b[0]),
        same_row(&a[1], &b[1]),
        same_row(&a[2], &b[2]),
    )
}

fn is_small_row(row: &[i16; 3]) -> bool
    ensures { IsTrue result ↔ IsSmallRow row.now }
{
    row[0].unsigned_abs() <= 9 && row[1].unsigned_abs() <= 9 && row[2].unsigned_abs() <= 9
}

/// Whether no entry is above 9 in absolute value.
pub fn is_small(rot: &[[i16; 3]; 3]) -> bool
    ensures { IsTrue result ↔ IsWithin 9 (rotation_of rot.now) }
{
    are_all(
        is_small_row(&rot[0]),
        is_small_row(&rot[1]),
        is_small_row(&rot[2]),
    )
}

/// The rotation of an operation, with the vector 0.
pub fn bare(op: &Op) -> Op
    ensures rotation { (operation result).rotation ≡ (operation op.now).rotation }
    ensures vector { (operation result).vector ≡ null }
    ensures numerators { AreWithin 0 result.num }
    ensures denominator { result.den ≡ 1 }
{
    let rot = op.rot;
    Op {
        rot,
        num: [0, 0, 0],
        den: 1,
    }
}

fn is_unit(op: &Op) -> bool
    ensures { IsTrue result ↔ IsUnit (operation op.now).rotation }
{
    same(&op.rot, &UNIT)
}

// The order of the nine entries, row by row.
fn compare_entries(a: &Op, b: &Op) -> Ordering
    ensures { MatchOrdering result
        (IsRotationBelow (operation a.now).rotation (operation b.now).rotation)
        ((operation a.now).rotation ≡ (operation b.now).rotation)
        (IsRotationBelow (operation b.now).rotation (operation a.now).rotation) }
{
    bare(a).cmp(&bare(b))
}

/// The order of the numbering: the unit first, then the nine entries, row by row.
pub fn compare(a: &Op, b: &Op) -> Ordering
    ensures { MatchOrdering result
        (IsNumberedBefore (operation a.now).rotation (operation b.now).rotation)
        ((operation a.now).rotation ≡ (operation b.now).rotation)
        (IsNumberedBefore (operation b.now).rotation (operation a.now).rotation) }
{
    let unit = is_unit(a);
    let other_unit = is_unit(b);
    if unit && other_unit {
        return Ordering::Equal;
    }
    if unit {
        return Ordering::Less;
    }
    if other_unit {
        return Ordering::Greater;
    }
    compare_entries(a, b)
}
