// The extensions of a family: one, times the roots of one to the exponents of the places.
ghost use Rattle.std.specs.Prelude.{ℕ, ◌≡◌, ◌<◌, IfOk};
ghost use Rattle.irr_algebra.specs.Fin.{Fin, to_nat};
ghost use Rattle.irr_algebra.specs.Matrix.{scale};
ghost use Rattle.irr_number.specs.Number.{numbers};
ghost use Rattle.irr_theory.specs.FactorSystem.{Representation};
ghost use Rattle.irr_rep.specs.Defects.{IsMatrix};
ghost use Rattle.irr_rep.specs.Twisted.{place_count};
ghost use Rattle.irr_climb.specs.Extensions.{HasExtension, exponent_root};
ghost use Rattle.irr_climb.specs.Families.{IsRead};
ghost use Rattle.irr_climb.specs.Sizes.{AreSized, IsSized};
ghost use Rattle.irr_climb.specs.Steps.{AreExtensions, IsStep, large};

use crate::extensions::first::first_extension;
use crate::extensions::multiples::multiple;
use crate::step::Step;
use irr_cyc::{Order, Scalar};
use irr_mat::Mat;
use irr_memory::Memory;
use irr_rep::Family;
use std::alloc::Global;

// The matrix at a place times the a-th root of one to the exponent of the place.
fn other_matrix<S: Scalar>(
    alloc: Global,
    order: &Order,
    step: &Step,
    first: &Family<S>,
    a: u32,
    x: u32,
) -> Result<Mat<S>, Memory>
    requires admitted { S.admits order.now.n }
    requires first { (is : IsStep order.now.n step.now) × (d : ℕ) × (E : Representation (large is) d) × IsRead order.now.n (large is) E first.now
        × IsSized order.now.n (place_count step.now.outer) first.now }
    requires number { a < step.now.index }
    requires place { x < place_count step.now.outer }
    ensures { let M = order.now.n in (is : IsStep M step.now) (d : ℕ) (E : Representation (large is) d) → IsRead M (large is) E first.now
        → (p : Fin (place_count step.now.outer)) → to_nat p ≡ x → IfOk result (IsMatrix M d (scale (numbers M) (exponent_root is a p) (E.at p))) }
{
    let exponent = a * step.exponents[x as usize] * (order.n() / step.index) % order.n();
    multiple(alloc, order, exponent, &first.mats[x as usize])
}

// The extension whose matrices are those of the first times the a-th root of one to the exponents of the places.
fn other_extension<S: Scalar>(
    alloc: Global,
    order: &Order,
    step: &Step,
    first: &Family<S>,
    a: u32,
) -> Result<Family<S>, Memory>
    requires admitted { S.admits order.now.n }
    requires first { (is : IsStep order.now.n step.now) × (d : ℕ) × (E : Representation (large is) d) × IsRead order.now.n (large is) E first.now
        × IsSized order.now.n (place_count step.now.outer) first.now }
    requires number { a < step.now.index }
    ensures { let M = order.now.n in (is : IsStep M step.now) (d : ℕ) (E K : Representation (large is) d) → IsRead M (large is) E first.now
        → ((p : Fin (place_count step.now.outer)) → K.at p ≡ scale (numbers M) (exponent_root is a p) (E.at p))
        → IfOk result (IsRead M (large is) K) }
{
    let mut mats = Vec::new(alloc);
    for x in 0..step.outer.len() {
        let matrix = other_matrix(alloc, order, step, first, a, x)?;
        mats.push(matrix)?;
    }
    Ok(Family {
        dim: first.dim,
        mats,
    })
}

/// All extensions of a family that has one with given traces at g n: as many as the index says. The error is want of memory.
pub(crate) fn all_extensions<S: Scalar>(
    alloc: Global,
    order: &Order,
    step: &Step,
    family: &Family<S>,
    traces: &[S],
) -> Result<Vec<Family<S>>, Memory>
    requires admitted { S.admits order.now.n }
    requires extension { HasExtension order.now.n step.now family.now traces.now }
    ensures extensions { let M = order.now.n in (e : HasExtension M step.now family.now traces.now)
        → IfOk result (λ fs. AreExtensions e.is e.D fs.items) }
    ensures sizes { let M = order.now.n in HasExtension M step.now family.now traces.now
        → IfOk result (λ fs. AreSized M (place_count step.now.outer) fs.items) }
{
    let first = first_extension(alloc, order, step, family, traces)?;
    let mut extensions = Vec::new(alloc);
    for a in 1..step.index {
        let next = other_extension(alloc, order, step, &first, a)?;
        extensions.push(next)?;
    }
    extensions.insert(0, first)?;
    Ok(extensions)
}
