// The matrices of an induced family.
ghost use Rattle.std.specs.Prelude.{ℕ, ◌≡◌, ◌<◌, ◌≤◌, ◌*◌, IfOk};
ghost use Rattle.irr_algebra.specs.Fin.{Fin, to_nat};
ghost use Rattle.irr_algebra.specs.Pair.{times};
ghost use Rattle.irr_theory.specs.FactorSystem.{Representation};
ghost use Rattle.irr_clifford.specs.Formulas.{induced_matrix};
ghost use Rattle.irr_mat.specs.Entries.{IsEntry};
ghost use Rattle.irr_rep.specs.Defects.{IsMatrix};
ghost use Rattle.irr_rep.specs.Twisted.{place_count};
ghost use Rattle.irr_climb.specs.Families.{IsRead};
ghost use Rattle.irr_climb.specs.Sizes.{IsSized};
ghost use Rattle.irr_climb.specs.Steps.{IsStep, small};

use crate::induced::blocks::{block_exponent, image_place};
use crate::step::Step;
use irr_cyc::{Order, Scalar};
use irr_mat::Mat;
use irr_memory::Memory;
use irr_rep::Family;
use std::alloc::Global;

// The entry in row i and column j of the induced matrix at x.
fn induced_entry<S: Scalar>(
    alloc: Global,
    order: &Order,
    step: &Step,
    family: &Family<S>,
    x: u32,
    i: u32,
    j: u32,
) -> Result<S, Memory>
    requires admitted { S.admits order.now.n }
    requires family { (is : IsStep order.now.n step.now) × (d : ℕ) × (D : Representation (small is) d) × IsRead order.now.n (small is) D family.now
        × IsSized order.now.n (place_count step.now.inner) family.now }
    requires positive { 0 < family.now.dim }
    requires place { x < place_count step.now.outer }
    requires row { i < step.now.index * family.now.dim }
    requires column { j < step.now.index * family.now.dim }
    ensures order { IfOk result (λ u. S.order_of u ≡ order.now.n) }
    ensures entry { let M = order.now.n in (is : IsStep M step.now) (d : ℕ) (D : Representation (small is) d) → IsRead M (small is) D family.now
        → (p : Fin (place_count step.now.outer)) → to_nat p ≡ x
        → IfOk result (λ u. IsEntry (induced_matrix is.quotient D p) i j (S.value M u)) }
{
    let block = j / family.dim;
    let image = image_place(step, x, block);
    let row = step.exponents[image as usize];
    if row != i / family.dim {
        let none = S::zero(alloc, order)?;
        return Ok(none);
    }
    let exponent = block_exponent(step, x, block);
    let turn = exponent % step.outer.order() * (order.n() / step.outer.order());
    let root = S::root(alloc, order, turn)?;
    let part = step.parts[image as usize];
    let matrix = &family.mats[part as usize];
    let entry = matrix.at(i % family.dim, j % family.dim);
    let product = root.mul(alloc, entry)?;
    Ok(product)
}

/// The matrix of the induced family at x. The error is want of memory.
pub(crate) fn matrix_at_place<S: Scalar>(
    alloc: Global,
    order: &Order,
    step: &Step,
    family: &Family<S>,
    x: u32,
) -> Result<Mat<S>, Memory>
    requires admitted { S.admits order.now.n }
    requires family { (is : IsStep order.now.n step.now) × (d : ℕ) × (D : Representation (small is) d) × IsRead order.now.n (small is) D family.now
        × IsSized order.now.n (place_count step.now.inner) family.now }
    requires positive { 0 < family.now.dim }
    requires few { family.now.dim * family.now.dim ≤ place_count step.now.inner }
    requires place { x < place_count step.now.outer }
    ensures { let M = order.now.n in (is : IsStep M step.now) (d : ℕ) (D : Representation (small is) d) → IsRead M (small is) D family.now
        → (p : Fin (place_count step.now.outer)) → to_nat p ≡ x
        → IfOk result (IsMatrix M (times is.quotient.index d) (induced_matrix is.quotient D p)) }
{
    let size = step.index * family.dim;
    let mut entries = Vec::new(alloc);
    for i in 0..size {
        for j in 0..size {
            let entry = induced_entry(alloc, order, step, family, x, i, j)?;
            entries.push(entry)?;
        }
    }
    Ok(Mat::from_entries(size, size, entries))
}
