// Products of operations by their rotations, and the vectors between operations.
ghost use Rattle.std.specs.Prelude.{ℕ, ◌≡◌, ◌<◌, ◌↔◌, IsTrue, length, Contains};
ghost use Rattle.std.specs.List.{HoldsAt};
ghost use Rattle.irr_algebra.specs.Matrix.{◌⊖◌};
ghost use Rattle.irr_rat.specs.VectorMeaning.{vector, Fits};
ghost use Rattle.irr_close.specs.Rows.{IsSameRow};
ghost use Rattle.irr_seitz.specs.Rotation.{rotation_of};
ghost use Rattle.irr_seitz.specs.OperationMeaning.{operation};

use crate::lists::Product;
use irr_rat::Vec3;
use irr_seitz::Op;

/// The first product with a rotation.
pub(crate) fn with_rotation(products: &[Product], rot: &[[i16; 3]; 3]) -> Product
    requires { (n : ℕ) × (n < length products.now) × HoldsAt (λ p. (operation p.op).rotation ≡ rotation_of rot.now)
        products.now n }
    ensures inside { Contains products.now result }
    ensures rotation { (operation result.op).rotation ≡ rotation_of rot.now }
{
    for product in products {
        if same(&product.op.rot, rot) {
            return *product;
        }
    }
    unreachable!()
}

/// Whether three tests hold.
pub(crate) fn are_all(x: bool, y: bool, z: bool) -> bool
    ensures { IsTrue result ↔ (IsTrue x × IsTrue y × IsTrue z) }
{
    x && y && z
}

fn same_row(a: &[i16; 3], b: &[i16; 3]) -> bool
    ensures { IsTrue result ↔ IsSameRow a.now b.now }
{
    a[0] == b[0] && a[1] == b[1] && a[2] == b[2]
}

// Whether two rotations are the same.
fn same(a: &[[i16; 3]; 3], b: &[[i16; 3]; 3]) -> bool
    ensures { IsTrue result ↔ (rotation_of a.now ≡ rotation_of b.now) }
{
    are_all(
        same_row(&a[0], &b[0]),
        same_row(&a[1], &b[1]),
        same_row(&a[2], &b[2]),
    )
}

/// The difference of the vectors of two operations.
pub(crate) fn difference(g: &Op, h: &Op) -> Vec3
    requires { Fits ((operation g.now).vector ⊖ (operation h.now).vector) }
    ensures { vector result ≡ (operation g.now).vector ⊖ (operation h.now).vector }
{
    vector_of(g).sub(&vector_of(h))
}

fn vector_of(op: &Op) -> Vec3
    ensures { vector result ≡ (operation op.now).vector }
{
    let num = op.num;
    Vec3 { num, den: op.den }
}
