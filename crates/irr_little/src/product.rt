// Products of canonical operations.
ghost use Rattle.std.specs.Prelude.{◌≡◌, ◌<◌, ◌^◌, length};
ghost use Rattle.irr_algebra.specs.Matrix.{◌⊖◌};
ghost use Rattle.irr_rat.specs.VectorMeaning.{vector, Fits};
ghost use Rattle.irr_seitz.specs.OperationMeaning.{operation, AreWithin};
ghost use Rattle.irr_little.specs.Products.{IsProduct};

use irr_close::Group;
use irr_rat::Vec3;
use irr_seitz::Op;

/// A translation times the canonical operation with a number.
#[derive(Clone, Copy)]
pub(crate) struct Shifted {
    pub op: u32,
    pub shift: Vec3,
}

/// The product of the canonical operations with two numbers.
pub(crate) fn product(group: &Group, i: usize, j: usize) -> Shifted
    requires left { i < length group.now.ops.items }
    requires right { j < length group.now.ops.items }
    ensures product { IsProduct group.now i j result.op (vector result.shift) }
    ensures small { AreWithin (10 ^ 12) result.shift.num }
{
    let ops = group.ops();
    let both = ops[i].compose(&ops[j]);
    let op = group.canonical(&both.rot).unwrap();
    let place = op as usize;
    let shift = difference(&both, &ops[place]);
    Shifted { op, shift }
}

// The difference of the vectors of two operations.
fn difference(g: &Op, h: &Op) -> Vec3
    requires { Fits ((operation g.now).vector ⊖ (operation h.now).vector) }
    ensures { vector result ≡ (operation g.now).vector ⊖ (operation h.now).vector }
{
    shift(g).sub(&shift(h))
}

fn shift(op: &Op) -> Vec3
    ensures { vector result ≡ (operation op.now).vector }
{
    let num = op.num;
    Vec3 { num, den: op.den }
}
