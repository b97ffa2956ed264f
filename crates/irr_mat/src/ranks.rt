//! The rank of a projection.
ghost use Rattle.std.specs.Prelude.{ℕ, ◌≡◌, IfOk};
ghost use Rattle.irr_algebra.specs.Matrix.{◌·◌};
ghost use Rattle.irr_mat.specs.Entries.{first_order, matrix_of};
ghost use Rattle.irr_mat.specs.Rank.{HasRank};
ghost use Rattle.irr_mat.specs.Size.{TraceFits};

use crate::matrices::Mat;
use irr_cyc::Scalar;
use irr_memory::Memory;
use std::alloc::Global;

/// The rank of a projection, a square matrix that is its own square: how many independent vectors span its
/// image. It is the trace.
pub fn projection_rank<S: Scalar>(alloc: Global, m: &Mat<S>) -> Result<u32, Memory>
    requires square { m.now.cols ≡ m.now.rows }
    requires projection { let n = first_order S.order_of m.now.entries.items in matrix_of S.value n m.now.rows m.now.rows m.now.entries.items · matrix_of S.value n m.now.rows m.now.rows m.now.entries.items ≡ matrix_of S.value n m.now.rows m.now.rows m.now.entries.items }
    requires sizes { let n = first_order S.order_of m.now.entries.items in TraceFits n (matrix_of S.value n m.now.rows m.now.rows m.now.entries.items) }
    ensures { let n = first_order S.order_of m.now.entries.items in IfOk result (λ k. HasRank (matrix_of S.value n m.now.rows m.now.rows m.now.entries.items) k) }
{
    let trace = m.trace(alloc)?;
    let form = trace.canonical(alloc)?;
    match form.terms.first() {
        Some(term) => Ok(term.1 as u32),
        None => Ok(0),
    }
}
