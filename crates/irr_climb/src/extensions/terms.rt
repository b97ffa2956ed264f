// The matrices of an extension at the products of the generator with the members, from its traces there.
ghost use Rattle.std.specs.Prelude.{ℕ, ◌≡◌, ◌<◌, ◌≤◌, ◌*◌, ◌/◌, ◌%◌, IfOk, slice_index};
ghost use Rattle.irr_cyc.specs.declared.orders.TheConstants.{ORDER_LIMIT};
ghost use Rattle.irr_algebra.specs.Ring.{whole};
ghost use Rattle.irr_algebra.specs.Fin.{Fin, to_nat};
ghost use Rattle.irr_algebra.specs.Matrix.{total};
ghost use Rattle.irr_number.specs.Number.{numbers};
ghost use Rattle.irr_theory.specs.FactorSystem.{Representation};
ghost use Rattle.irr_rep.specs.Defects.{IsMatrix};
ghost use Rattle.irr_rep.specs.Twisted.{place_count};
ghost use Rattle.irr_climb.specs.Steps.{IsStep, large};
ghost use Rattle.irr_climb.specs.Extensions.{HasExtension, HasTraces, term_exponent, trace_factor, trace_term};

use crate::extensions::multiples::times;
use crate::step::Step;
use irr_cyc::{Order, Scalar};
use irr_mat::Mat;
use irr_memory::Memory;
use irr_rep::Family;
use std::alloc::Global;

// The exponent x(x,m) - x(m,m') for the place x, the member m and its inverse m', up to multiples of the order.
fn exponent_of_term(step: &Step, x: u32, m: u32) -> u32
    requires step { (M : ℕ) × IsStep M step.now }
    requires place { x < place_count step.now.outer }
    requires member { m < place_count step.now.inner }
    ensures { (M : ℕ) (is : IsStep M step.now) (p : Fin (place_count step.now.outer)) (q : Fin (place_count step.now.inner))
        → to_nat p ≡ x → to_nat q ≡ m → result ≡ term_exponent is p q }
{
    let outside = step.outer.phase(x, step.members[m as usize]);
    let inside = step.inner.phase(m, step.inner.inverse(m));
    outside + (step.inner.order() - 1) * inside
}

/// The exponent of z^e, for z of the order `order`, among the powers of z of the order n.
pub(crate) fn root_exponent(e: u32, order: u32, n: u32) -> u32
    requires positive { 0 < order }
    requires some { 0 < n }
    requires limited { n ≤ ORDER_LIMIT }
    ensures within { result < n }
    ensures value { result ≡ e % order * (n / order) }
{
    e % order * (n / order)
}

// The number by which the inverse of the matrix at a member is multiplied, with its phase, for a place x = g n.
fn factor<S: Scalar>(
    alloc: Global,
    order: &Order,
    step: &Step,
    traces: &[S],
    x: u32,
    m: u32,
) -> Result<S, Memory>
    requires admitted { S.admits order.now.n }
    requires traces { (is : IsStep order.now.n step.now) × (d : ℕ) × (E : Representation (large is) d)
        × HasTraces S.order_of S.value is E traces.now }
    requires place { x < place_count step.now.outer }
    requires coset { slice_index step.now.exponents.items x ≡ 1 }
    requires member { m < place_count step.now.inner }
    ensures order { IfOk result (λ y. S.order_of y ≡ order.now.n) }
    ensures value { let M = order.now.n in (is : IsStep M step.now) (d : ℕ) (E : Representation (large is) d)
        → HasTraces S.order_of S.value is E traces.now → (p : Fin (place_count step.now.outer)) (q : Fin (place_count step.now.inner))
        → to_nat p ≡ x → to_nat q ≡ m
        → IfOk result (λ y. S.value M y ≡ trace_factor is E p q) }
{
    let exponent = root_exponent(exponent_of_term(step, x, m), step.outer.order(), order.n());
    let phase = S::root(alloc, order, exponent)?;
    let product = step.outer.table(x, step.members[m as usize]);
    phase.mul(alloc, &traces[step.parts[product as usize] as usize])
}

// The term of a member in the sum for the matrix at a place x = g n.
fn term<S: Scalar>(
    alloc: Global,
    order: &Order,
    step: &Step,
    family: &Family<S>,
    traces: &[S],
    x: u32,
    m: u32,
) -> Result<Mat<S>, Memory>
    requires admitted { S.admits order.now.n }
    requires extension { HasExtension order.now.n step.now family.now traces.now }
    requires place { x < place_count step.now.outer }
    requires coset { slice_index step.now.exponents.items x ≡ 1 }
    requires member { m < place_count step.now.inner }
    ensures { let M = order.now.n in (e : HasExtension M step.now family.now traces.now)
        (p : Fin (place_count step.now.outer)) (q : Fin (place_count step.now.inner)) → to_nat p ≡ x → to_nat q ≡ m
        → IfOk result (IsMatrix M e.d (trace_term e.is e.D e.E p q)) }
{
    let factor = factor(alloc, order, step, traces, x, m)?;
    times(alloc, &factor, &family.mats[step.inner.inverse(m) as usize])
}

// The sum of the terms of all members.
fn sum_of_terms<S: Scalar>(
    alloc: Global,
    order: &Order,
    step: &Step,
    family: &Family<S>,
    traces: &[S],
    x: u32,
) -> Result<Mat<S>, Memory>
    requires admitted { S.admits order.now.n }
    requires extension { HasExtension order.now.n step.now family.now traces.now }
    requires place { x < place_count step.now.outer }
    requires coset { slice_index step.now.exponents.items x ≡ 1 }
    ensures { let M = order.now.n in (e : HasExtension M step.now family.now traces.now) (p : Fin (place_count step.now.outer)) → to_nat p ≡ x
        → IfOk result (IsMatrix M e.d (total (place_count step.now.inner) (trace_term e.is e.D e.E p))) }
{
    let mut sum = term(alloc, order, step, family, traces, x, 0)?;
    for m in 1..step.inner.len() {
        let next = term(alloc, order, step, family, traces, x, m)?;
        sum = sum.add(alloc, &next)?;
    }
    Ok(sum)
}

// The number d over h.
fn ratio<S: Scalar>(alloc: Global, order: &Order, d: u32, h: u32) -> Result<S, Memory>
    requires admitted { S.admits order.now.n }
    requires few { d ≤ 48 }
    requires some { 0 < h }
    requires limited { h ≤ 48 }
    ensures order { IfOk result (λ y. S.order_of y ≡ order.now.n) }
    ensures value { let M = order.now.n in IfOk result (λ y. (numbers M).mul (whole (numbers M) h) (S.value M y) ≡ whole (numbers M) d) }
{
    S::from_terms(alloc, order, h as u64, &[(0, d as i64)])
}

/// The matrix of an extension at a place x = g n, by its traces: the number of rows over the number of the members, times the
/// sum over the members m of the trace at x m times the inverse of the matrix at m, with the phase of x and m. The error is
/// want of memory.
pub(crate) fn coset_matrix<S: Scalar>(
    alloc: Global,
    order: &Order,
    step: &Step,
    family: &Family<S>,
    traces: &[S],
    x: u32,
) -> Result<Mat<S>, Memory>
    requires admitted { S.admits order.now.n }
    requires extension { HasExtension order.now.n step.now family.now traces.now }
    requires place { x < place_count step.now.outer }
    requires coset { slice_index step.now.exponents.items x ≡ 1 }
    ensures { let M = order.now.n in (e : HasExtension M step.now family.now traces.now) (p : Fin (place_count step.now.outer)) → to_nat p ≡ x
        → IfOk result (IsMatrix M e.d (e.E.at p)) }
{
    let sum = sum_of_terms(alloc, order, step, family, traces, x)?;
    let ratio = ratio(alloc, order, family.dim, step.inner.len())?;
    sum.scale(alloc, &ratio)
}
