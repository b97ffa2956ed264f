// Copies of matrices and of families.
ghost use Rattle.std.specs.Prelude.{ℕ, ◌≡◌, IfOk};
ghost use Rattle.irr_algebra.specs.Fin.{Fin};
ghost use Rattle.irr_algebra.specs.Matrix.{Matrix};
ghost use Rattle.irr_number.specs.Number.{numbers};
ghost use Rattle.irr_rep.specs.Defects.{IsMatrix};
ghost use Rattle.irr_star.specs.Sizes.{IsSmallFamily};

use irr_cyc::Scalar;
use irr_mat::Mat;
use irr_memory::Memory;
use irr_rep::Family;
use std::alloc::Global;

// A copy of a matrix. The error is want of memory.
fn copied<S: Scalar>(alloc: Global, m: &Mat<S>) -> Result<Mat<S>, Memory>
    ensures { (n d : ℕ) (a : Matrix (numbers n) d d) → IsMatrix n d a m.now → IfOk result (IsMatrix n d a) }
{
    let mut entries = Vec::new(alloc);
    for i in 0..m.rows() {
        for j in 0..m.cols() {
            let entry = m.at(i, j).copy(alloc)?;
            entries.push(entry)?;
        }
    }
    Ok(Mat::from_entries(m.rows(), m.cols(), entries))
}

/// A copy of a family. The error is want of memory.
pub(crate) fn family<S: Scalar>(alloc: Global, f: &Family<S>) -> Result<Family<S>, Memory>
    ensures { (M h d : ℕ) (D : Fin h → Matrix (numbers M) d d) → IsSmallFamily M D f.now
        → IfOk result (IsSmallFamily M D) }
{
    let mut mats = Vec::new(alloc);
    for k in 0..f.mats.len() {
        let mat = copied(alloc, &f.mats[k])?;
        mats.push(mat)?;
    }
    Ok(Family { dim: f.dim, mats })
}
