//! Families of matrices on the places of a table of phases.
ghost use Rattle.std.specs.Prelude.{ℕ, ◌≡◌, ◌<◌};
ghost use Rattle.std.specs.Int.{◌∣◌};
ghost use Rattle.irr_algebra.specs.Fin.{Fin};
ghost use Rattle.irr_algebra.specs.Matrix.{trace};
ghost use Rattle.irr_theory.specs.FactorSystem.{Representation};
ghost use Rattle.irr_canonical.specs.RootSum.{IsRootSum};
ghost use Rattle.irr_space.specs.PhaseTable.{PhaseTable, phases_at, phases_over};
ghost use Rattle.irr_space.specs.CompleteList.{over};

use irr_cyc::Scalar;
use irr_mat::Mat;

/// A square matrix for each place of a table of phases, in the order of the places: a small representation
/// (Bradley and Cracknell, section 3.7) where the matrices multiply by the table.
#[derive(Drop)]
pub struct Family<S: Scalar> {
    /// The number of rows of each matrix.
    pub dim: u32,
    /// The matrices, by place.
    pub mats: Vec<Mat<S>>,
}

/// Where a family first fails to be a small representation.
#[derive(Debug, Clone, Copy, PartialEq, Eq, Drop)]
pub enum Defect {
    /// The matrix at the unit is not the unit matrix.
    Unit,
    /// The product of the matrices at places i and j is not the phase times the matrix at their product.
    Product { i: u32, j: u32 },
}

/// The small representations over the table's own order, lifted to itself, are those of the table.
pub fn representations_at_own_order()
    ensures from_lifted { (h : ℕ) (T : PhaseTable h) (v : T.order ∣ T.order) (d : ℕ) (A : Representation (phases_over T T.order v) d)
        → (B : Representation (phases_at T) d) × ((i : Fin h) → B.at i ≡ A.at i) }
    ensures to_lifted { (h : ℕ) (T : PhaseTable h) (v : T.order ∣ T.order) (d : ℕ) (A : Representation (phases_at T) d)
        → (i : Fin h) → (over T T.order v A).at i ≡ A.at i }
{}

/// The trace of a small representation of d rows is, at each place, a sum of d powers of z.
pub fn traces_of_representations()
    ensures { (h : ℕ) (T : PhaseTable h) (n : ℕ) (v : T.order ∣ n) → 0 < n → (d : ℕ) (A : Representation (phases_over T n v) d)
        → (i : Fin h) → IsRootSum n d 1 (trace (A.at i)) }
{}
