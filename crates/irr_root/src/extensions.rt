// The choice of one extension of a simple family.
ghost use Rattle.std.specs.Prelude.{ℕ, IfOk};
ghost use Rattle.irr_algebra.specs.Fin.{Fin};
ghost use Rattle.irr_number.specs.Number.{Number};
ghost use Rattle.irr_theory.specs.FactorSystem.{Representation};
ghost use Rattle.irr_clifford.specs.FromTraces.{AreExtensionTraces};
ghost use Rattle.irr_mat.specs.Size.{TraceFits};
ghost use Rattle.irr_rep.specs.Family.{HasShape, matrix_at};
ghost use Rattle.irr_rep.specs.Twisted.{phase_table, place_count};
ghost use Rattle.irr_char.specs.Characters.{IsRowOf};
ghost use Rattle.irr_root.specs.Choice.{HasMatrices};
ghost use Rattle.irr_root.specs.CyclicStep.{inner_phases, IsCyclicStep, IsSimpleFixed};

use crate::choice::chosen_traces;
use crate::positions::positions_of;
use irr_char::character;
use irr_cyc::{Order, Scalar};
use irr_memory::Memory;
use irr_rep::{Family, Twisted};
use std::alloc::Global;

/// The traces at g n, for each member n of a normal subgroup in order, of one extension of a simple small representation
/// of the subgroup that is equivalent to its conjugate by g. The subgroup has the index p, 2 or 3, in the group of the
/// table t, whose places the members are; `inner` is the table of the subgroup. The traces of an extension are sums of
/// p-th roots of the eigenvalues at the powers (g n)^p, and those of products of traces are sums of the character of
/// the family alone; so a search among the sums of roots ends with the traces of one (Bradley and Cracknell,
/// section 3.7 and theorem 4.6.2). The error is want of memory.
pub fn choose<S: Scalar>(
    alloc: Global,
    t: &Twisted,
    inner: &Twisted,
    members: &[u32],
    p: u32,
    g: u32,
    f: &Family<S>,
) -> Result<Vec<S>, Memory>
    requires family { (M : ℕ) × (step : IsCyclicStep (phase_table t.now) (phase_table inner.now) members.now p g M)
        × (d : ℕ) × (D : Representation (inner_phases step) d) × IsSimpleFixed step D × HasMatrices step D f.now }
    requires sizes { (n h : ℕ) → HasShape n h f.now.dim f.now.mats.items → (i : Fin h) → TraceFits n (matrix_at n f.now.dim f.now.mats.items i) }
    ensures { (M : ℕ) (step : IsCyclicStep (phase_table t.now) (phase_table inner.now) members.now p g M)
        (d : ℕ) (D : Representation (inner_phases step) d) → IsSimpleFixed step D → HasMatrices step D f.now
        → IfOk result (λ xs. (s : Fin (place_count inner.now) → Number M) × AreExtensionTraces step.quotient D s
        × IsRowOf S.order_of S.value M s xs.items) }
{
    let traces = character(alloc, f)?;
    let positions = positions_of(alloc, t, members)?;
    let row = traces.as_slice();
    let list = positions.as_slice();
    let order = Order::new(alloc, row[0].order())?;
    let chosen = chosen_traces(alloc, t, inner, &order, p, g, f.dim, members, list, row)?;
    Ok(chosen)
}

#[cfg(test)]
mod tests;
