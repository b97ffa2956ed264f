// The family that is induced from one on the subgroup.
ghost use Rattle.std.specs.Prelude.{ℕ, ◌≡◌, ◌≤◌, ◌*◌, IfOk};
ghost use Rattle.irr_theory.specs.FactorSystem.{Representation};
ghost use Rattle.irr_rep.specs.Twisted.{place_count};
ghost use Rattle.irr_climb.specs.Families.{IsRead};
ghost use Rattle.irr_climb.specs.Sizes.{IsSized};
ghost use Rattle.irr_climb.specs.Steps.{IsInducedFamily, IsStep, small};

mod blocks;
mod matrices;

use crate::induced::matrices::matrix_at_place;
use crate::step::Step;
use irr_cyc::{Order, Scalar};
use irr_memory::Memory;
use irr_rep::Family;
use std::alloc::Global;

impl Step {
    /// The induced family: its matrix at x takes the block b to the block of the exponent of x g^b, by the family's matrix at
    /// the part of x g^b, times a phase. The error is want of memory.
    pub(crate) fn induced<S: Scalar>(
        &self,
        alloc: Global,
        family: &Family<S>,
    ) -> Result<Family<S>, Memory>
        requires { (M : ℕ) × (step : IsStep M self.now) × (d : ℕ) × (D : Representation (small step) d) × IsRead M (small step) D family.now
            × (d * d ≤ place_count self.now.inner) × IsSized M (place_count self.now.inner) family.now }
        ensures induced { (M : ℕ) (step : IsStep M self.now) (d : ℕ) (D : Representation (small step) d) → IsRead M (small step) D family.now
            → IfOk result (IsInducedFamily step D) }
        ensures sizes { (M : ℕ) (step : IsStep M self.now) (d : ℕ) (D : Representation (small step) d) → IsRead M (small step) D family.now
            → IsSized M (place_count self.now.inner) family.now → IfOk result (IsSized M (place_count self.now.outer)) }
    {
        let order = Order::new(alloc, family.mats[0].at(0, 0).order())?;
        let mut mats = Vec::new(alloc);
        for x in 0..self.outer.len() {
            let matrix = matrix_at_place(alloc, &order, self, family, x)?;
            mats.push(matrix)?;
        }
        Ok(Family {
            dim: self.index * family.dim,
            mats,
        })
    }
}
