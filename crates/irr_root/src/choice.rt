// The traces of one extension of a simple family.
ghost use Rattle.std.specs.Prelude.{ℕ, ◌≡◌, ◌<◌, ◌≤◌, ◌+◌, ◌*◌, ◌-◌, ◌^◌, ◌⊎◌, List, length, map, All, IfOk};
ghost use Rattle.irr_algebra.specs.Fin.{Fin, to_nat};
ghost use Rattle.irr_algebra.specs.Ring.{whole};
ghost use Rattle.irr_number.specs.Number.{Number, numbers};
ghost use Rattle.irr_clifford.specs.FromTraces.{AreExtensionTraces};
ghost use Rattle.irr_clifford.specs.Roots.{number_power};
ghost use Rattle.irr_rep.specs.Twisted.{phase_table, place_count};
ghost use Rattle.irr_char.specs.Rows.{row_of};
ghost use Rattle.irr_root.specs.Choice.{AreChosen, IsChoice, IsSumAt, IsTarget, IsTraceAt};
ghost use Rattle.irr_root.specs.CyclicStep.{coset_place};
ghost use Rattle.irr_root.specs.RootSums.{IsSmall};

use crate::products::product_sum;
use crate::solutions::{first_root, first_solution, lower_power};
use crate::trace_sums::trace_candidates;
use irr_cyc::{Order, Scalar};
use irr_memory::Memory;
use irr_rep::Twisted;
use std::alloc::Global;

// The power k^q for q = 1 or 2.
fn lower_number(q: u32, k: u32) -> u32
    requires one_or_two { (q ≡ 1) ⊎ (q ≡ 2) }
    requires few { k ≤ 48 }
    ensures power { result ≡ k ^ q }
    ensures few { result ≤ 2304 }
{
    if q == 1 { k } else { k * k }
}

// A natural number, as a number.
fn whole_of<S: Scalar>(alloc: Global, order: &Order, k: u32) -> Result<S, Memory>
    requires admitted { S.admits order.now.n }
    requires few { k ≤ 2304 }
    ensures small { IfOk result (IsSmall S.order_of S.value order.now.n 2304) }
    ensures value { let n = order.now.n in IfOk result (λ x. S.value n x ≡ whole (numbers n) k) }
{
    let one = S::one(alloc, order)?;
    Ok(one.scale(alloc, k as i64, 1)?)
}

// d^(p-1) times the sum of the character that is the product of the traces at two places, up to whole numbers.
fn target<S: Scalar>(
    alloc: Global,
    t: &Twisted,
    inner: &Twisted,
    order: &Order,
    p: u32,
    g: u32,
    rows: u32,
    members: &[u32],
    positions: &[u32],
    character: &[S],
    x: u32,
    y: u32,
) -> Result<S, Memory>
    requires admitted { S.admits order.now.n }
    requires choice { IsChoice S.order_of S.value order.now.n (phase_table t.now) (phase_table inner.now) members.now p g rows positions.now character.now }
    requires left { x < place_count t.now }
    requires right { y < place_count t.now }
    ensures small { IfOk result (IsSmall S.order_of S.value order.now.n (2 ^ 30)) }
    ensures target { (c : IsChoice S.order_of S.value order.now.n (phase_table t.now) (phase_table inner.now) members.now p g rows positions.now character.now)
        (n m : Fin (place_count inner.now)) → to_nat (coset_place c.step n) ≡ x → to_nat (coset_place c.step m) ≡ y
        → IfOk result (λ r. IsTarget c n m (S.value order.now.n r)) }
{
    let sum: S = product_sum(alloc, t, p, members, positions, character, x, y)?;
    if rows == 1 {
        return Ok(sum);
    }
    let factor: S = whole_of(alloc, order, lower_number(p - 1, rows))?;
    let product = factor.mul(alloc, &sum)?;
    Ok(product)
}

// The first member at which that sum is not 0.
fn first_member<S: Scalar>(
    alloc: Global,
    t: &Twisted,
    inner: &Twisted,
    order: &Order,
    p: u32,
    g: u32,
    rows: u32,
    members: &[u32],
    positions: &[u32],
    character: &[S],
) -> Result<u32, Memory>
    requires admitted { S.admits order.now.n }
    requires choice { IsChoice S.order_of S.value order.now.n (phase_table t.now) (phase_table inner.now) members.now p g rows positions.now character.now }
    ensures within { IfOk result (λ m. m < length members.now) }
    ensures not_zero { (c : IsChoice S.order_of S.value order.now.n (phase_table t.now) (phase_table inner.now) members.now p g rows positions.now character.now)
        (n : Fin (place_count inner.now)) → IfOk result (λ m. to_nat n ≡ m → (x : Number order.now.n) → IsSumAt c n n x → x ≡ (numbers order.now.n).zero → ⊥) }
{
    for k in 0..members.len() as u32 {
        let x = t.table(g, members[k as usize]);
        let sum: S = target(
            alloc, t, inner, order, p, g, rows, members, positions, character, x, x,
        )?;
        if !sum.is_zero() {
            return Ok(k);
        }
    }
    unreachable!()
}

// A trace of an extension there.
fn first_trace<S: Scalar>(
    alloc: Global,
    t: &Twisted,
    inner: &Twisted,
    order: &Order,
    p: u32,
    g: u32,
    rows: u32,
    members: &[u32],
    positions: &[u32],
    character: &[S],
    factor: &S,
    y: u32,
) -> Result<S, Memory>
    requires admitted { S.admits order.now.n }
    requires choice { IsChoice S.order_of S.value order.now.n (phase_table t.now) (phase_table inner.now) members.now p g rows positions.now character.now }
    requires factor { IsSmall S.order_of S.value order.now.n 2304 factor.now }
    requires power { let n = order.now.n in S.value n factor.now ≡ number_power (numbers n) (whole (numbers n) (place_count inner.now)) (p - 1) }
    requires place { (c : IsChoice S.order_of S.value order.now.n (phase_table t.now) (phase_table inner.now) members.now p g rows positions.now character.now)
        × (m : Fin (place_count inner.now)) × (to_nat (coset_place c.step m) ≡ y) }
    ensures small { IfOk result (IsSmall S.order_of S.value order.now.n 48) }
    ensures trace { (c : IsChoice S.order_of S.value order.now.n (phase_table t.now) (phase_table inner.now) members.now p g rows positions.now character.now)
        (m : Fin (place_count inner.now)) → to_nat (coset_place c.step m) ≡ y
        → IfOk result (λ s. let r = S.value order.now.n s in IsTraceAt c r m m r) }
{
    let sum: S = target(
        alloc, t, inner, order, p, g, rows, members, positions, character, y, y,
    )?;
    let candidates: Vec<S> = trace_candidates(alloc, t, inner, order, p, positions, character, y)?;
    let root = first_root(alloc, p - 1, factor, candidates.as_slice(), &sum)?;
    Ok(root)
}

// The trace at a place x of the extension with the trace s at a place y, by s^(p-1).
fn trace_at<S: Scalar>(
    alloc: Global,
    t: &Twisted,
    inner: &Twisted,
    order: &Order,
    p: u32,
    g: u32,
    rows: u32,
    members: &[u32],
    positions: &[u32],
    character: &[S],
    factor: &S,
    power: &S,
    x: u32,
    y: u32,
) -> Result<S, Memory>
    requires admitted { S.admits order.now.n }
    requires choice { IsChoice S.order_of S.value order.now.n (phase_table t.now) (phase_table inner.now) members.now p g rows positions.now character.now }
    requires factor { IsSmall S.order_of S.value order.now.n 2304 factor.now }
    requires factor_power { let n = order.now.n in S.value n factor.now ≡ number_power (numbers n) (whole (numbers n) (place_count inner.now)) (p - 1) }
    requires power { IsSmall S.order_of S.value order.now.n 2304 power.now }
    requires extension { (c : IsChoice S.order_of S.value order.now.n (phase_table t.now) (phase_table inner.now) members.now p g rows positions.now character.now)
        × (n : Fin (place_count inner.now)) × (to_nat (coset_place c.step n) ≡ x)
        × (m : Fin (place_count inner.now)) × (to_nat (coset_place c.step m) ≡ y)
        × (u : Fin (place_count inner.now) → Number order.now.n) × AreExtensionTraces c.step.quotient c.family u
        × (S.value order.now.n power.now ≡ number_power (numbers order.now.n) (u m) (p - 1)) }
    ensures order { IfOk result (λ r. S.order_of r ≡ order.now.n) }
    ensures trace { (c : IsChoice S.order_of S.value order.now.n (phase_table t.now) (phase_table inner.now) members.now p g rows positions.now character.now)
        (n m : Fin (place_count inner.now)) (s : Number order.now.n) → to_nat (coset_place c.step n) ≡ x → to_nat (coset_place c.step m) ≡ y
        → S.value order.now.n power.now ≡ number_power (numbers order.now.n) s (p - 1)
        → IfOk result (λ r. IsTraceAt c s n m (S.value order.now.n r)) }
{
    let sum: S = target(
        alloc, t, inner, order, p, g, rows, members, positions, character, x, y,
    )?;
    if sum.is_zero() {
        return Ok(sum);
    }
    let candidates: Vec<S> = trace_candidates(alloc, t, inner, order, p, positions, character, x)?;
    let solution = first_solution(alloc, factor, candidates.as_slice(), power, &sum)?;
    Ok(solution)
}

// The traces at g n of that extension, for each member n.
fn all_traces<S: Scalar>(
    alloc: Global,
    t: &Twisted,
    inner: &Twisted,
    order: &Order,
    p: u32,
    g: u32,
    rows: u32,
    members: &[u32],
    positions: &[u32],
    character: &[S],
    factor: &S,
    power: &S,
    y: u32,
) -> Result<Vec<S>, Memory>
    requires admitted { S.admits order.now.n }
    requires choice { IsChoice S.order_of S.value order.now.n (phase_table t.now) (phase_table inner.now) members.now p g rows positions.now character.now }
    requires factor { IsSmall S.order_of S.value order.now.n 2304 factor.now }
    requires factor_power { let n = order.now.n in S.value n factor.now ≡ number_power (numbers n) (whole (numbers n) (place_count inner.now)) (p - 1) }
    requires power { IsSmall S.order_of S.value order.now.n 2304 power.now }
    requires extension { (c : IsChoice S.order_of S.value order.now.n (phase_table t.now) (phase_table inner.now) members.now p g rows positions.now character.now)
        × (m : Fin (place_count inner.now)) × (to_nat (coset_place c.step m) ≡ y)
        × (u : Fin (place_count inner.now) → Number order.now.n) × AreExtensionTraces c.step.quotient c.family u
        × (S.value order.now.n power.now ≡ number_power (numbers order.now.n) (u m) (p - 1)) }
    ensures count { IfOk result (λ xs. length xs.items ≡ place_count inner.now) }
    ensures orders { IfOk result (λ xs. All (λ x. S.order_of x ≡ order.now.n) xs.items) }
    ensures traces { (c : IsChoice S.order_of S.value order.now.n (phase_table t.now) (phase_table inner.now) members.now p g rows positions.now character.now)
        (m : Fin (place_count inner.now)) (s : Number order.now.n) → to_nat (coset_place c.step m) ≡ y
        → S.value order.now.n power.now ≡ number_power (numbers order.now.n) s (p - 1)
        → IfOk result (λ xs. (n : Fin (place_count inner.now)) → IsTraceAt c s n m (row_of order.now.n (map (S.value order.now.n) xs.items) n)) }
{
    let mut traces = Vec::new(alloc);
    for n in 0..members.len() as u32 {
        let x = t.table(g, members[n as usize]);
        let r: S = trace_at(
            alloc, t, inner, order, p, g, rows, members, positions, character, factor, power, x, y,
        )?;
        traces.push(r)?;
    }
    Ok(traces)
}

/// The traces at g n of one extension of a family, for each member n, from its character.
pub(crate) fn chosen_traces<S: Scalar>(
    alloc: Global,
    t: &Twisted,
    inner: &Twisted,
    order: &Order,
    p: u32,
    g: u32,
    rows: u32,
    members: &[u32],
    positions: &[u32],
    character: &[S],
) -> Result<Vec<S>, Memory>
    requires admitted { S.admits order.now.n }
    requires choice { IsChoice S.order_of S.value order.now.n (phase_table t.now) (phase_table inner.now) members.now p g rows positions.now character.now }
    ensures { (c : IsChoice S.order_of S.value order.now.n (phase_table t.now) (phase_table inner.now) members.now p g rows positions.now character.now)
        → IfOk result (λ xs. AreChosen c xs.items) }
{
    let factor: S = whole_of(alloc, order, lower_number(p - 1, members.len() as u32))?;
    let m = first_member(
        alloc, t, inner, order, p, g, rows, members, positions, character,
    )?;
    let y = t.table(g, members[m as usize]);
    let root: S = first_trace(
        alloc, t, inner, order, p, g, rows, members, positions, character, &factor, y,
    )?;
    let power = lower_power(alloc, p - 1, &root)?;
    let traces = all_traces(
        alloc, t, inner, order, p, g, rows, members, positions, character, &factor, &power, y,
    )?;
    Ok(traces)
}
