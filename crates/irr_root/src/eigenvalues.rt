// The exponents of eigenvalues.
ghost use Rattle.std.specs.Prelude.{ℕ, ◌≡◌, ◌<◌, ◌≤◌, ◌+◌, ◌*◌, ◌/◌, ◌%◌, ◌^◌, length, map, slice_index, IfOk};
ghost use Rattle.std.specs.Int.{◌∣◌};
ghost use Rattle.irr_algebra.specs.Fin.{Fin, to_nat};
ghost use Rattle.irr_algebra.specs.Listed.{sum_below};
ghost use Rattle.irr_algebra.specs.Ring.{whole};
ghost use Rattle.irr_number.specs.Number.{numbers, root_power};
ghost use Rattle.irr_eigen.specs.Eigenspace.{Occurs};
ghost use Rattle.irr_eigen.specs.Power.{power};
ghost use Rattle.irr_mat.specs.Size.{TraceFits};
ghost use Rattle.irr_rep.specs.Family.{HasShape, IsRepresentationOf, matrix_at};
ghost use Rattle.irr_rep.specs.Twisted.{phase_table, place_count};
ghost use Rattle.irr_char.specs.Characters.{IsSmallRow};
ghost use Rattle.irr_root.specs.Characters.{IsCharacter};
ghost use Rattle.irr_root.specs.Eigenvalues.{AreEigenExponents};
ghost use Rattle.irr_root.specs.Powers.{ArePowers, power_trace};

use crate::powers::{Powers, powers_of};
use crate::repeated::repeated;
use irr_char::{character, whole_number};
use irr_cyc::{Order, Scalar};
use irr_memory::Memory;
use irr_rep::{Family, Twisted};
use std::alloc::Global;

/// The power z^e of z of the table's order, as a number of another order.
pub(crate) fn phase<S: Scalar>(
    alloc: Global,
    t: &Twisted,
    order: &Order,
    e: u32,
) -> Result<S, Memory>
    requires admitted { S.admits order.now.n }
    requires divides { (phase_table t.now).order ∣ order.now.n }
    ensures order { IfOk result (λ x. S.order_of x ≡ order.now.n) }
    ensures value { let n = order.now.n in IfOk result (λ x. S.value n x ≡ root_power n (e * (n / (phase_table t.now).order))) }
{
    S::root(alloc, order, e % t.order() * (order.n() / t.order()))
}

// The number z^(-e j) tr(D(i)^j) for a power of a place, from the character of D.
fn turned_trace<S: Scalar>(
    alloc: Global,
    t: &Twisted,
    order: &Order,
    character: &[S],
    powers: &Powers,
    e: u32,
    j: u32,
) -> Result<S, Memory>
    requires admitted { S.admits order.now.n }
    requires divides { (phase_table t.now).order ∣ order.now.n }
    requires row { IsSmallRow S.order_of S.value order.now.n (place_count t.now) character.now }
    requires powers { (p : Fin (place_count t.now)) × ArePowers (phase_table t.now) p powers.now.places.items powers.now.exponents.items powers.now.turn }
    requires exponent { e < (phase_table t.now).order }
    requires index { j < length powers.now.places.items }
    ensures order { IfOk result (λ x. S.order_of x ≡ order.now.n) }
    ensures value { let n = order.now.n in IfOk result (λ x. S.value n x
        ≡ power_trace n (phase_table t.now).order (map (S.value n) character.now) powers.now.places.items powers.now.exponents.items e j) }
{
    let exponent = powers.exponents[j as usize] + (t.order() - e) * j;
    let value = &character[powers.places[j as usize] as usize];
    if exponent % t.order() == 0 {
        return value.copy(alloc);
    }
    let turn: S = phase(alloc, t, order, exponent)?;
    turn.mul(alloc, value)
}

// The sum of the z^(-e j) tr(D(i)^j) over the powers of a place.
fn power_sum<S: Scalar>(
    alloc: Global,
    t: &Twisted,
    character: &[S],
    powers: &Powers,
    e: u32,
) -> Result<S, Memory>
    requires row { (n : ℕ) × ((phase_table t.now).order ∣ n) × IsSmallRow S.order_of S.value n (place_count t.now) character.now }
    requires powers { (p : Fin (place_count t.now)) × ArePowers (phase_table t.now) p powers.now.places.items powers.now.exponents.items powers.now.turn }
    requires exponent { e < (phase_table t.now).order }
    ensures order { (n : ℕ) → IsSmallRow S.order_of S.value n (place_count t.now) character.now → IfOk result (λ x. S.order_of x ≡ n) }
    ensures value { IfOk result (λ x. let n = S.order_of x in S.value n x ≡ sum_below (numbers n) (length powers.now.places.items)
        (power_trace n (phase_table t.now).order (map (S.value n) character.now) powers.now.places.items powers.now.exponents.items e)) }
{
    let order = Order::new(alloc, character[0].order())?;
    let mut sum = S::zero(alloc, &order)?;
    for j in 0..powers.places.len() as u32 {
        let next = turned_trace(alloc, t, &order, character, powers, e, j)?;
        sum = sum.add(alloc, &next)?;
    }
    Ok(sum)
}

// How often z^e is an eigenvalue, where its m-th power is that of the matrix and m is the order of the place.
fn multiplicity<S: Scalar>(
    alloc: Global,
    t: &Twisted,
    character: &[S],
    powers: &Powers,
    e: u32,
) -> Result<u32, Memory>
    requires character { IsCharacter S.order_of S.value (phase_table t.now) character.now }
    requires powers { (p : Fin (place_count t.now)) × ArePowers (phase_table t.now) p powers.now.places.items powers.now.exponents.items powers.now.turn }
    requires exponent { e < (phase_table t.now).order }
    requires same_power { let N = (phase_table t.now).order in length powers.now.places.items * e % N ≡ powers.now.turn % N }
    ensures { (c : IsCharacter S.order_of S.value (phase_table t.now) character.now) (p : Fin (place_count t.now))
        → ArePowers (phase_table t.now) p powers.now.places.items powers.now.exponents.items powers.now.turn
        → IfOk result (λ k. Occurs (c.representation.at p) (power (numbers c.n) (root_power c.n (c.n / (phase_table t.now).order)) e) k) }
{
    let sum = power_sum(alloc, t, character, powers, e)?;
    Ok(whole_number(alloc, &sum)? / powers.places.len() as u32)
}

// How often each of the numbers z^(first + a step), for a below the order m of the place, is an eigenvalue.
fn multiplicities<S: Scalar>(
    alloc: Global,
    t: &Twisted,
    character: &[S],
    powers: &Powers,
    first: u32,
    step: u32,
) -> Result<Vec<u32>, Memory>
    requires character { IsCharacter S.order_of S.value (phase_table t.now) character.now }
    requires powers { (p : Fin (place_count t.now)) × ArePowers (phase_table t.now) p powers.now.places.items powers.now.exponents.items powers.now.turn }
    requires first { first < step }
    requires step { (phase_table t.now).order ≡ length powers.now.places.items * step }
    requires same_power { let N = (phase_table t.now).order in length powers.now.places.items * first % N ≡ powers.now.turn % N }
    ensures count { IfOk result (λ times. length times.items ≡ length powers.now.places.items) }
    ensures occurs { (c : IsCharacter S.order_of S.value (phase_table t.now) character.now) (p : Fin (place_count t.now))
        → ArePowers (phase_table t.now) p powers.now.places.items powers.now.exponents.items powers.now.turn
        → IfOk result (λ times. (a : ℕ) → a < length powers.now.places.items
        → Occurs (c.representation.at p) (power (numbers c.n) (root_power c.n (c.n / (phase_table t.now).order)) (first + a * step))
        (slice_index times.items a)) }
{
    let mut times = Vec::new(alloc);
    for a in 0..powers.places.len() as u32 {
        let often = multiplicity(alloc, t, character, powers, first + a * step)?;
        times.push(often)?;
    }
    Ok(times)
}

/// The exponents of the eigenvalues of the matrix at a place of a small representation of at most 48 rows: the
/// eigenvalues are the z^a, z of the table's order, for the exponents a that are answered, in increasing order,
/// each as often as its eigenvalue occurs (the roots of 1 of the order of the place, with the phases of its
/// powers: Bradley and Cracknell, section 3.7). The error is want of memory.
pub fn eigen_exponents<S: Scalar>(
    alloc: Global,
    t: &Twisted,
    f: &Family<S>,
    i: u32,
) -> Result<Vec<u32>, Memory>
    requires representation { (n : ℕ) × (v : (phase_table t.now).order ∣ n) × HasShape n (place_count t.now) f.now.dim f.now.mats.items
        × IsRepresentationOf (phase_table t.now) n v f.now.dim f.now.mats.items }
    requires sizes { (n h : ℕ) → HasShape n h f.now.dim f.now.mats.items → (i : Fin h) → TraceFits n (matrix_at n f.now.dim f.now.mats.items i) }
    requires few { f.now.dim ≤ 48 }
    requires place { i < place_count t.now }
    ensures { (n : ℕ) (v : (phase_table t.now).order ∣ n) → HasShape n (place_count t.now) f.now.dim f.now.mats.items
        → IsRepresentationOf (phase_table t.now) n v f.now.dim f.now.mats.items → (p : Fin (place_count t.now)) → to_nat p ≡ i
        → IfOk result (λ es. let N = (phase_table t.now).order in
        AreEigenExponents N (root_power n (n / N)) (matrix_at n f.now.dim f.now.mats.items p) es.items) }
{
    let traces = character(alloc, f)?;
    exponents_at(alloc, t, traces.as_slice(), i)
}

/// The same for each small representation with a character.
pub(crate) fn exponents_at<S: Scalar>(
    alloc: Global,
    t: &Twisted,
    character: &[S],
    i: u32,
) -> Result<Vec<u32>, Memory>
    requires character { IsCharacter S.order_of S.value (phase_table t.now) character.now }
    requires place { i < place_count t.now }
    ensures { (c : IsCharacter S.order_of S.value (phase_table t.now) character.now) (p : Fin (place_count t.now)) → to_nat p ≡ i
        → IfOk result (λ es. let N = (phase_table t.now).order in AreEigenExponents N (root_power c.n (c.n / N)) (c.representation.at p) es.items) }
{
    let powers = powers_of(alloc, t, i)?;
    let order = powers.places.len() as u32;
    let step = t.order() / order;
    let first = powers.turn / order % step;
    let times = multiplicities(alloc, t, character, &powers, first, step)?;
    repeated(alloc, first, step, times.as_slice())
}

#[cfg(test)]
mod tests;
