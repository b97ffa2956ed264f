// The extensions of a family that is equivalent to its conjugate by the generator.
ghost use Rattle.std.specs.Prelude.{ℕ, IfOk};
ghost use Rattle.irr_algebra.specs.Fin.{Fin};
ghost use Rattle.irr_number.specs.Number.{Number};
ghost use Rattle.irr_theory.specs.FactorSystem.{Representation};
ghost use Rattle.irr_clifford.specs.FromTraces.{AreExtensionTraces};
ghost use Rattle.irr_rep.specs.Twisted.{place_count};
ghost use Rattle.irr_char.specs.Characters.{IsRowOf};
ghost use Rattle.irr_climb.specs.Sizes.{AreSized};
ghost use Rattle.irr_climb.specs.Steps.{AreExtensions, IsFixedFamily, IsStep, small};

mod first;
mod multiples;
mod others;
mod terms;

use crate::extensions::others::all_extensions;
use crate::step::Step;
use irr_cyc::{Order, Scalar};
use irr_memory::Memory;
use irr_rep::Family;
use irr_root::choose;
use std::alloc::Global;

impl Step {
    /// The traces at g n of one extension of a family that is equivalent to its conjugate, for each member n. The error
    /// is want of memory.
    pub(crate) fn extension_traces<S: Scalar>(
        &self,
        alloc: Global,
        family: &Family<S>,
    ) -> Result<Vec<S>, Memory>
        requires { (M : ℕ) × (step : IsStep M self.now) × (d : ℕ) × (D : Representation (small step) d) × IsFixedFamily step D family.now }
        ensures { (M : ℕ) (step : IsStep M self.now) (d : ℕ) (D : Representation (small step) d) → IsFixedFamily step D family.now
            → IfOk result (λ traces. (f : Fin (place_count self.now.inner) → Number M) × AreExtensionTraces step.quotient D f
            × IsRowOf S.order_of S.value M f traces.items) }
    {
        let traces: Vec<S> = choose(
            alloc,
            &self.outer,
            &self.inner,
            self.members.as_slice(),
            self.index,
            self.generator,
            family,
        )?;
        Ok(traces)
    }

    /// The extensions of a family that is equivalent to its conjugate: as many as the index says. At a member n their matrix
    /// is that of the family; at g n it follows from the traces of the extension; at g^2 n it is a product of two of these.
    /// Each other extension is the first one times a root of one to the exponent of the place. The error is want of memory.
    pub(crate) fn extensions<S: Scalar>(
        &self,
        alloc: Global,
        family: &Family<S>,
    ) -> Result<Vec<Family<S>>, Memory>
        requires { (M : ℕ) × (step : IsStep M self.now) × (d : ℕ) × (D : Representation (small step) d) × IsFixedFamily step D family.now }
        ensures extensions { (M : ℕ) (step : IsStep M self.now) (d : ℕ) (D : Representation (small step) d) → IsFixedFamily step D family.now
            → IfOk result (λ fs. AreExtensions step D fs.items) }
        ensures sizes { (M : ℕ) (step : IsStep M self.now) (d : ℕ) (D : Representation (small step) d) → IsFixedFamily step D family.now
            → IfOk result (λ fs. AreSized M (place_count self.now.outer) fs.items) }
    {
        let traces = self.extension_traces(alloc, family)?;
        let order = Order::new(alloc, traces[0].order())?;
        all_extensions(alloc, &order, self, family, traces.as_slice())
    }
}
