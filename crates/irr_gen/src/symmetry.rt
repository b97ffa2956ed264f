// Operations that permute the axes, with or without signs, and translate by quarters.
ghost use Rattle.std.specs.Prelude.{◌≡◌, ◌≤ℤ◌, ◌<ℤ◌, pos, slice_index_or};
ghost use Rattle.irr_seitz.specs.OperationMeaning.{operation};
ghost use Rattle.irr_gen.specs.Symmetry.{row, symmetry, IsReducedProduct};
ghost use Rattle.irr_gen.specs.Signed.{IsSigned};

use irr_rat::Vec3;
use irr_seitz::Op;

/// An axis with its sign: what stands in one component of a triplet beside the constant.
#[derive(Clone, Copy, Debug, PartialEq, Eq)]
pub(crate) enum Axis {
    X,
    Y,
    Z,
    MinusX,
    MinusY,
    MinusZ,
}

impl Axis {
    // The row of the rotation.
    fn row(self) -> [i16; 3]
        ensures { result ≡ row self }
    {
        match self {
            Axis::X => [1, 0, 0],
            Axis::Y => [0, 1, 0],
            Axis::Z => [0, 0, 1],
            Axis::MinusX => [-1, 0, 0],
            Axis::MinusY => [0, -1, 0],
            Axis::MinusZ => [0, 0, -1],
        }
    }
}

/// The operation with these three rows, and the vector in quarters.
pub(crate) fn symmetry(x: Axis, y: Axis, z: Axis, quarters: [i64; 3]) -> Op
    requires first { (pos 0 ≤ℤ slice_index_or quarters 0 (pos 0)) × (slice_index_or quarters 0 (pos 0) <ℤ pos 4) }
    requires second { (pos 0 ≤ℤ slice_index_or quarters 1 (pos 0)) × (slice_index_or quarters 1 (pos 0) <ℤ pos 4) }
    requires third { (pos 0 ≤ℤ slice_index_or quarters 2 (pos 0)) × (slice_index_or quarters 2 (pos 0) <ℤ pos 4) }
    ensures is { operation result ≡ symmetry x y z quarters }
    ensures signed { IsSigned result }
{
    let shift = Vec3::new(quarters, 4);
    let num = shift.num;
    Op {
        rot: [x.row(), y.row(), z.row()],
        num,
        den: shift.den,
    }
}

/// The product, first `other`, with its vector in the unit cell.
pub(crate) fn product(op: &Op, other: &Op) -> Op
    requires left { IsSigned op.now }
    requires right { IsSigned other.now }
    ensures product { IsReducedProduct (operation op.now) (operation other.now) (operation result) }
    ensures signed { IsSigned result }
{
    let made = op.compose(other);
    made.reduce()
}
