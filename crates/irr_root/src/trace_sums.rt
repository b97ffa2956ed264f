// Sums of roots among which the trace of an extension is.
ghost use Rattle.std.specs.Prelude.{ℕ, ◌≡◌, ◌<◌, ◌≤◌, ◌+◌, ◌%◌, ◌⊎◌, List, length, map, All, Contains, IfOk};
ghost use Rattle.std.specs.Int.{◌∣◌};
ghost use Rattle.irr_algebra.specs.Fin.{Fin, to_nat};
ghost use Rattle.irr_number.specs.Number.{Number};
ghost use Rattle.irr_theory.specs.FactorSystem.{Representation};
ghost use Rattle.irr_clifford.specs.FromTraces.{AreExtensionTraces};
ghost use Rattle.irr_rep.specs.Twisted.{phase_table, place_count};
ghost use Rattle.irr_root.specs.Characters.{IsCharacter};
ghost use Rattle.irr_root.specs.CyclicStep.{AreNumbered, ArePowerExponents, coset_place, HasTraces, inner_phases, IsCyclicStep};
ghost use Rattle.irr_root.specs.RootSums.{AreSmall};

use crate::eigenvalues::exponents_at;
use crate::place_powers::turned_power;
use crate::sums::root_sums;
use irr_cyc::{Order, Scalar};
use irr_memory::Memory;
use irr_rep::Twisted;
use std::alloc::Global;

// The exponents with one more added to each, modulo the order.
fn shifted(alloc: Global, order: u32, more: u32, exponents: &[u32]) -> Result<Vec<u32>, Memory>
    requires limited { order ≤ 12000 }
    requires more { more < order }
    requires below { All (λ e. e < order) exponents.now }
    ensures { IfOk result (λ es. es.items ≡ map (λ e. (e + more) % order) exponents.now) }
{
    let mut sums = Vec::new(alloc);
    for &e in exponents {
        sums.push((e + more) % order)?;
    }
    Ok(sums)
}

// The exponents of the eigenvalues that an extension has at the p-th power of a place outside the subgroup, from the
// character of the family there.
fn power_exponents<S: Scalar>(
    alloc: Global,
    t: &Twisted,
    inner: &Twisted,
    p: u32,
    positions: &[u32],
    character: &[S],
    x: u32,
) -> Result<Vec<u32>, Memory>
    requires two_or_three { (p ≡ 2) ⊎ (p ≡ 3) }
    requires same_order { (phase_table inner.now).order ≡ (phase_table t.now).order }
    requires positions { All (λ k. k < place_count inner.now) positions.now }
    requires all_placed { length positions.now ≡ place_count t.now }
    requires character { IsCharacter S.order_of S.value (phase_table inner.now) character.now }
    requires place { x < place_count t.now }
    ensures below { IfOk result (λ es. All (λ e. e < (phase_table t.now).order) es.items) }
    ensures few { IfOk result (λ es. length es.items ≤ 48) }
    ensures exponents { (members : List ℕ) (g M : ℕ) (step : IsCyclicStep (phase_table t.now) (phase_table inner.now) members p g M) → AreNumbered step positions.now
        → (d : ℕ) (D : Representation (inner_phases step) d) → HasTraces step S.order_of S.value D character.now
        → (n : Fin (place_count inner.now)) → to_nat (coset_place step n) ≡ x → IfOk result (λ es. ArePowerExponents step D n es.items) }
{
    let power = turned_power(t, p, x);
    let position = positions[power.place as usize];
    let exponents = exponents_at(alloc, inner, character, position)?;
    shifted(alloc, t.order(), power.exponent, exponents.as_slice())
}

/// Sums of roots of the eigenvalues at the p-th power of a place outside the subgroup: the trace of each extension at
/// this place is one of them.
pub(crate) fn trace_candidates<S: Scalar>(
    alloc: Global,
    t: &Twisted,
    inner: &Twisted,
    order: &Order,
    p: u32,
    positions: &[u32],
    character: &[S],
    x: u32,
) -> Result<Vec<S>, Memory>
    requires admitted { S.admits order.now.n }
    requires divides { (phase_table t.now).order ∣ order.now.n }
    requires two_or_three { (p ≡ 2) ⊎ (p ≡ 3) }
    requires same_order { (phase_table inner.now).order ≡ (phase_table t.now).order }
    requires positions { All (λ k. k < place_count inner.now) positions.now }
    requires all_placed { length positions.now ≡ place_count t.now }
    requires character { IsCharacter S.order_of S.value (phase_table inner.now) character.now }
    requires place { x < place_count t.now }
    ensures small { IfOk result (λ xs. AreSmall S.order_of S.value order.now.n 48 xs.items) }
    ensures traces { (members : List ℕ) (g M : ℕ) (step : IsCyclicStep (phase_table t.now) (phase_table inner.now) members p g M) → AreNumbered step positions.now
        → (d : ℕ) (D : Representation (inner_phases step) d) → HasTraces step S.order_of S.value D character.now → M ≡ order.now.n
        → (s : Fin (place_count inner.now) → Number M) → AreExtensionTraces step.quotient D s
        → (n : Fin (place_count inner.now)) → to_nat (coset_place step n) ≡ x → IfOk result (λ xs. Contains (map (S.value M) xs.items) (s n)) }
{
    let exponents = power_exponents(alloc, t, inner, p, positions, character, x)?;
    root_sums(alloc, t, order, p, exponents.as_slice())
}
