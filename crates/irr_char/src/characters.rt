// Characters of small representations, and their scalar products.
ghost use Rattle.std.specs.Prelude.{ℕ, ◌≡◌, ◌<◌, ◌≤◌, ◌*◌, ◌-◌, ◌/◌, ◌%◌, ◌^◌, length, map, IfOk, IsTrue};
ghost use Rattle.std.specs.Int.{◌∣◌};
ghost use Rattle.irr_algebra.specs.Action.{HasDimension};
ghost use Rattle.irr_algebra.specs.Fin.{Fin, to_nat};
ghost use Rattle.irr_algebra.specs.Matrix.{trace};
ghost use Rattle.irr_algebra.specs.Ring.{whole};
ghost use Rattle.irr_number.specs.Number.{numbers};
ghost use Rattle.irr_cyc.specs.declared.orders.TheConstants.{ORDER_LIMIT};
ghost use Rattle.irr_mat.specs.Size.{TraceFits};
ghost use Rattle.irr_rep.specs.Family.{HasShape, matrix_at};
ghost use Rattle.irr_rep.specs.Twisted.{place_count, phase_table};
ghost use Rattle.irr_char.specs.Rows.{row_of};
ghost use Rattle.irr_char.specs.Characters.{AreCharacters, IsRowOf, IsRowWithin, IsSmallRow, average_term};

use irr_cyc::{Order, Scalar};
use irr_memory::Memory;
use irr_rep::{Family, Twisted};
use std::alloc::Global;

/// The traces of a family's matrices, in the order of the places: its character. The error is want of memory.
pub fn character<S: Scalar>(alloc: Global, f: &Family<S>) -> Result<Vec<S>, Memory>
    requires shape { (n : ℕ) × HasShape n (length f.now.mats.items) f.now.dim f.now.mats.items }
    requires sizes { (n h : ℕ) → HasShape n h f.now.dim f.now.mats.items → (i : Fin h) → TraceFits n (matrix_at n f.now.dim f.now.mats.items i) }
    ensures { IfOk result (λ row. (n h : ℕ) → HasShape n h f.now.dim f.now.mats.items
        → IsRowOf {h = h} S.order_of S.value n (λ i. trace (matrix_at n f.now.dim f.now.mats.items i)) row.items) }
{
    let mut traces = Vec::new(alloc);
    for m in f.mats.as_slice() {
        let trace = m.trace(alloc)?;
        traces.push(trace)?;
    }
    Ok(traces)
}

// The exponent of z of the order n in the inverse of the phase of the places i and j.
fn inverse_exponent(t: &Twisted, n: u32, i: u32, j: u32) -> u32
    requires divides { (phase_table t.now).order ∣ n }
    requires positive { 0 < n }
    requires limited { n ≤ ORDER_LIMIT }
    requires row { i < place_count t.now }
    requires column { j < place_count t.now }
    ensures within { result < n }
    ensures exponent { (p q : Fin (place_count t.now)) → to_nat p ≡ i → to_nat q ≡ j
        → let N = (phase_table t.now).order in result ≡ (N - 1) * (phase_table t.now).exponent p q % N * (n / N) }
{
    let order = t.order();
    (order - 1) * t.phase(i, j) % order * (n / order)
}

// The term at place i of the scalar product of two characters.
fn term<S: Scalar>(
    alloc: Global,
    t: &Twisted,
    order: &Order,
    a: &[S],
    b: &[S],
    i: u32,
) -> Result<S, Memory>
    requires admitted { S.admits order.now.n }
    requires divides { (phase_table t.now).order ∣ order.now.n }
    requires left { IsSmallRow S.order_of S.value order.now.n (place_count t.now) a.now }
    requires right { IsRowWithin S.order_of S.value order.now.n (place_count t.now) 2304 b.now }
    requires place { i < place_count t.now }
    ensures order { IfOk result (λ x. S.order_of x ≡ order.now.n) }
    ensures value { let n = order.now.n in IfOk result (λ x. (p : Fin (place_count t.now)) → to_nat p ≡ i
        → S.value n x ≡ average_term (phase_table t.now) n (row_of n (map (S.value n) a.now)) (row_of n (map (S.value n) b.now)) p) }
{
    let j = t.inverse(i);
    let phase = S::root(alloc, order, inverse_exponent(t, order.n(), i, j))?;
    let inverse = phase.mul(alloc, &a[j as usize])?;
    b[i as usize].mul(alloc, &inverse)
}

// Whether the term at place i is 0 since one of its numbers is.
fn vanishes<S: Scalar>(t: &Twisted, a: &[S], b: &[S], i: u32) -> bool
    requires rows { (n : ℕ) × IsSmallRow S.order_of S.value n (place_count t.now) a.now
        × IsRowWithin S.order_of S.value n (place_count t.now) 2304 b.now }
    requires place { i < place_count t.now }
    ensures { (n : ℕ) → IsSmallRow S.order_of S.value n (place_count t.now) a.now
        → IsRowWithin S.order_of S.value n (place_count t.now) 2304 b.now → IsTrue result → (p : Fin (place_count t.now)) → to_nat p ≡ i
        → average_term (phase_table t.now) n (row_of n (map (S.value n) a.now)) (row_of n (map (S.value n) b.now)) p ≡ (numbers n).zero }
{
    let back = t.inverse(i);
    if a[back as usize].is_zero() {
        return true;
    }
    b[i as usize].is_zero()
}

/// The whole number that a number is. The error is want of memory.
pub fn whole_number<S: Scalar>(alloc: Global, x: &S) -> Result<u32, Memory>
    requires whole { (k : ℕ) × (k < 2 ^ 31) × (let n = S.order_of x.now in S.value n x.now ≡ whole (numbers n) k) }
    ensures { (k : ℕ) → (let n = S.order_of x.now in S.value n x.now ≡ whole (numbers n) k) → IfOk result (λ r. r ≡ k) }
{
    let form = x.canonical(alloc)?;
    match form.terms.first() {
        Some(term) => Ok(term.1 as u32),
        None => Ok(0),
    }
}

/// The dimension of the space of intertwiners from one small representation of a table to another, from their
/// characters: the scalar product of the characters, which is the average over the places of the trace of the
/// second's matrix times the trace of the inverse of the first's (Bradley and Cracknell, section 3.7).
///
/// The first has at most 48 rows. The second has at most 2,304, as the part of a direct product at a wave vector,
/// or none, where its character is a row of zeros. The numbers have one order, which the table's order divides. The
/// error is want of memory.
pub fn average<S: Scalar>(alloc: Global, t: &Twisted, a: &[S], b: &[S]) -> Result<u32, Memory>
    requires { AreCharacters S.order_of S.value (phase_table t.now) a.now b.now }
    ensures { (p : AreCharacters S.order_of S.value (phase_table t.now) a.now b.now)
        → IfOk result (λ m. HasDimension p.left.at p.right.at m) }
{
    let order = Order::new(alloc, a[0].order())?;
    let mut sum = S::zero(alloc, &order)?;
    for i in 0..t.len() {
        if vanishes(t, a, b, i) {
            continue;
        }
        let next = term(alloc, t, &order, a, b, i)?;
        sum = sum.add(alloc, &next)?;
    }
    let mean = sum.scale(alloc, 1, t.len() as u64)?;
    let dimension = whole_number(alloc, &mean)?;
    Ok(dimension)
}
