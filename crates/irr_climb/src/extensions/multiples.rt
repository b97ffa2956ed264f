// Multiples of matrices by powers of z.
ghost use Rattle.std.specs.Prelude.{ℕ, ◌≡◌, ◌<◌, ◌≤◌, ◌*◌, ◌^◌, IfOk};
ghost use Rattle.irr_algebra.specs.Matrix.{Matrix, scale};
ghost use Rattle.irr_number.specs.Number.{Number, numbers, root_power};
ghost use Rattle.irr_canonical.specs.Coefficient.{denominator, size};
ghost use Rattle.irr_canonical.specs.RootSum.{IsRootSum};
ghost use Rattle.irr_mat.specs.Entries.{first_order, matrix_of};
ghost use Rattle.irr_mat.specs.Size.{MultiplesFit};
ghost use Rattle.irr_rep.specs.Defects.{IsMatrix};

use irr_cyc::{Order, Scalar};
use irr_mat::Mat;
use irr_memory::Memory;
use std::alloc::Global;

/// A copy of a matrix. The error is want of memory.
pub(crate) fn copied<S: Scalar>(alloc: Global, m: &Mat<S>) -> Result<Mat<S>, Memory>
    ensures { (n d : ℕ) (a : Matrix (numbers n) d d) → IsMatrix n d a m.now → IfOk result (IsMatrix n d a) }
{
    let mut entries = Vec::new(alloc);
    for i in 0..m.rows() {
        for j in 0..m.cols() {
            let entry = m.at(i, j).copy(alloc)?;
            entries.push(entry)?;
        }
    }
    Ok(Mat::from_entries(m.rows(), m.cols(), entries))
}

// A number times an entry; an entry 0 stays as it is.
fn entry_multiple<S: Scalar>(alloc: Global, by: &S, x: &S) -> Result<S, Memory>
    requires orders { S.order_of x.now ≡ S.order_of by.now }
    requires denominators { let n = S.order_of by.now in denominator n (S.value n by.now) * denominator n (S.value n x.now) ≤ 2 ^ 60 }
    requires sizes { let n = S.order_of by.now in size n (S.value n by.now) * size n (S.value n x.now) ≤ 2 ^ 100 }
    ensures order { IfOk result (λ y. S.order_of y ≡ S.order_of by.now) }
    ensures value { let n = S.order_of by.now in IfOk result (λ y. S.value n y ≡ (numbers n).mul (S.value n by.now) (S.value n x.now)) }
{
    if x.is_zero() {
        return x.copy(alloc);
    }
    by.mul(alloc, x)
}

/// Each entry of a matrix times one number. The error is want of memory.
pub(crate) fn times<S: Scalar>(alloc: Global, by: &S, m: &Mat<S>) -> Result<Mat<S>, Memory>
    requires orders { S.order_of by.now ≡ first_order S.order_of m.now.entries.items }
    requires sizes { let n = first_order S.order_of m.now.entries.items in
        MultiplesFit n (S.value n by.now) (matrix_of S.value n m.now.rows m.now.cols m.now.entries.items) }
    ensures rows { IfOk result (λ z. z.rows ≡ m.now.rows) }
    ensures cols { IfOk result (λ z. z.cols ≡ m.now.cols) }
    ensures order { IfOk result (λ z. first_order S.order_of z.entries.items ≡ first_order S.order_of m.now.entries.items) }
    ensures value { let n = first_order S.order_of m.now.entries.items in
        IfOk result (λ z. matrix_of S.value n m.now.rows m.now.cols z.entries.items
        ≡ scale (numbers n) (S.value n by.now) (matrix_of S.value n m.now.rows m.now.cols m.now.entries.items)) }
{
    let mut entries = Vec::new(alloc);
    for i in 0..m.rows() {
        for j in 0..m.cols() {
            let product = entry_multiple(alloc, by, m.at(i, j))?;
            entries.push(product)?;
        }
    }
    Ok(Mat::from_entries(m.rows(), m.cols(), entries))
}

/// The power z^e times a matrix. The error is want of memory.
pub(crate) fn multiple<S: Scalar>(
    alloc: Global,
    order: &Order,
    e: u32,
    m: &Mat<S>,
) -> Result<Mat<S>, Memory>
    requires admitted { S.admits order.now.n }
    requires below { e < order.now.n }
    requires multiple { let M = order.now.n in (d : ℕ) × (a : Matrix (numbers M) d d) × IsMatrix M d a m.now
        × ((u : Number M) → IsRootSum M 1 1 u → MultiplesFit M u a) }
    ensures { let M = order.now.n in (d : ℕ) (a : Matrix (numbers M) d d) → IsMatrix M d a m.now
        → IfOk result (IsMatrix M d (scale (numbers M) (root_power M e) a)) }
{
    if e == 0 {
        return copied(alloc, m);
    }
    let root = S::root(alloc, order, e)?;
    times(alloc, &root, m)
}
