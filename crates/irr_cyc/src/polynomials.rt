//! Coefficients of powers of z, added, multiplied and moved.
ghost use Rattle.std.specs.Prelude.{ℕ, ℤ, pos, ◌≡◌, ◌+◌, ◌*◌, ◌/◌, ◌%◌, ◌^◌, ◌<◌, ◌≤◌, ◌+ℤ◌, ◌*ℤ◌, ◌↔◌, length, All, sum_by, IfOk, IsTrue};
ghost use Rattle.std.specs.Int.{◌∣◌};
ghost use Rattle.std.specs.Int.RustNames.{unsigned_abs};
ghost use Rattle.irr_number.specs.Element.{delta, weighted_sum};
ghost use Rattle.irr_number.specs.Integers.{integers};
ghost use Rattle.irr_canonical.specs.Coefficient.{total_below};
ghost use Rattle.irr_cyc.specs.Form.{at};
ghost use Rattle.irr_cyc.specs.Terms.{nonzero_terms, terms_at};

use crate::orders::ORDER_LIMIT;
use irr_memory::Memory;
use std::alloc::Global;

/// So many zeros.
pub(crate) fn zeros(alloc: Global, count: usize) -> Result<Vec<i128>, Memory>
    ensures len { IfOk result (λ v. length v.items ≡ count) }
    ensures zeros { IfOk result (λ v. (j : ℕ) → at v.items j ≡ pos 0) }
{
    let zeros = Vec::from_elem(alloc, 0, count)?;
    Ok(zeros)
}

/// Whether all coefficients are zero.
pub(crate) fn are_zeros(xs: &[i128]) -> bool
    ensures { IsTrue result ↔ ((j : ℕ) → j < length xs.now → at xs.now j ≡ pos 0) }
{
    xs.iter().all(|x| *x == 0)
}

/// Whether two lists have the same coefficients.
pub(crate) fn are_same(xs: &[i128], ys: &[i128]) -> bool
    requires { length ys.now ≡ length xs.now }
    ensures { IsTrue result ↔ ((j : ℕ) → j < length xs.now → at xs.now j ≡ at ys.now j) }
{
    for i in 0..xs.len() {
        if xs[i] != ys[i] {
            return false;
        }
    }
    true
}

/// The sums of x left and y right, place by place.
pub(crate) fn combination(
    alloc: Global,
    xs: &[i128],
    left: i128,
    ys: &[i128],
    right: i128,
) -> Result<Vec<i128>, Memory>
    requires same { length ys.now ≡ length xs.now }
    requires small { (j : ℕ) → j < length xs.now → unsigned_abs (at xs.now j) * unsigned_abs left + unsigned_abs (at ys.now j) * unsigned_abs right < 2 ^ 110 }
    ensures len { IfOk result (λ v. length v.items ≡ length xs.now) }
    ensures value { IfOk result (λ v. (j : ℕ) → j < length xs.now → at v.items j ≡ (at xs.now j *ℤ left) +ℤ (at ys.now j *ℤ right)) }
{
    let mut sums = Vec::with_capacity(alloc, xs.len())?;
    for i in 0..xs.len() {
        sums.push(xs[i] * left + ys[i] * right)?;
    }
    Ok(sums)
}

/// Each coefficient times a number.
pub(crate) fn multiples(alloc: Global, xs: &[i128], times: i64) -> Result<Vec<i128>, Memory>
    requires { (j : ℕ) → j < length xs.now → unsigned_abs (at xs.now j) * unsigned_abs times ≤ 2 ^ 100 }
    ensures len { IfOk result (λ v. length v.items ≡ length xs.now) }
    ensures value { IfOk result (λ v. (j : ℕ) → j < length xs.now → at v.items j ≡ at xs.now j *ℤ times) }
{
    let times = i128::from(times);
    let mut products = Vec::with_capacity(alloc, xs.len())?;
    for x in xs {
        products.push(*x * times)?;
    }
    Ok(products)
}

// The place of z^(i + j), with z^n = 1, for i and j below n.
fn turned(i: usize, j: usize, n: usize) -> usize
    requires few { n ≤ ORDER_LIMIT }
    requires first { i < n }
    requires second { j < n }
    ensures { result ≡ (i + j) % n }
{
    let place = i + j;
    if place < n { place } else { place - n }
}

// Adds x z^shift times the sum of the y z^j, with z^n = 1.
fn add_turned(sums: &mut [i128], x: i128, shift: usize, ys: &[i128])
    requires same { length ys.now ≡ length sums.old }
    requires few { length sums.old ≤ ORDER_LIMIT }
    requires inside { shift < length sums.old }
    requires small { (k : ℕ) → k < length sums.old → unsigned_abs (at sums.old k) + unsigned_abs x * total_below (length sums.old) (λ j. unsigned_abs (at ys.now j)) ≤ 2 ^ 100 }
    ensures { let n = length sums.old in (k : ℕ) → k < n → at sums.new k ≡ at sums.old k +ℤ (x *ℤ weighted_sum n (at ys.now) (λ j. delta integers ((shift + j) % n) k)) }
{
    if x == 0 {
        return;
    }
    let n = sums.len();
    for j in 0..n {
        if ys[j] != 0 {
            let place = turned(shift, j, n);
            sums[place] += x * ys[j];
        }
    }
}

/// The product of two sums of powers of z with z^n = 1.
pub(crate) fn product(alloc: Global, xs: &[i128], ys: &[i128]) -> Result<Vec<i128>, Memory>
    requires same { length ys.now ≡ length xs.now }
    requires few { length xs.now ≤ ORDER_LIMIT }
    requires small { let n = length xs.now in total_below n (λ j. unsigned_abs (at xs.now j)) * total_below n (λ j. unsigned_abs (at ys.now j)) ≤ 2 ^ 100 }
    ensures len { IfOk result (λ v. length v.items ≡ length xs.now) }
    ensures value { IfOk result (λ v. let n = length xs.now in (k : ℕ) → k < n → at v.items k ≡ weighted_sum n (at xs.now) (λ i. weighted_sum n (at ys.now) (λ j. delta integers ((i + j) % n) k))) }
    ensures small { IfOk result (λ v. (k : ℕ) → k < length xs.now → unsigned_abs (at v.items k) ≤ 2 ^ 100) }
{
    let mut sums = zeros(alloc, xs.len())?;
    for i in 0..xs.len() {
        add_turned(sums.as_mut_slice(), xs[i], i, ys);
    }
    Ok(sums)
}

/// Adds the coefficient of each term at the place of its exponent.
pub(crate) fn add_terms(sums: &mut [i128], terms: &[(u32, i64)])
    requires zeros { (k : ℕ) → at sums.old k ≡ pos 0 }
    requires exponents { All (λ t. t.0 < length sums.old) terms.now }
    requires small { sum_by (λ t. unsigned_abs t.1) terms.now ≤ 2 ^ 100 }
    ensures value { (k : ℕ) → k < length sums.old → at sums.new k ≡ terms_at terms.now k }
    ensures small { (k : ℕ) → k < length sums.old → unsigned_abs (at sums.new k) ≤ 2 ^ 100 }
{
    for (exponent, coefficient) in terms {
        sums[*exponent as usize] += i128::from(*coefficient);
    }
}

// Adds the coefficient at z^i at the place of z^(factor i).
fn add_stretched(sums: &mut [i128], xs: &[i128], factor: usize)
    requires few { length sums.old ≤ ORDER_LIMIT }
    requires positive { 0 < factor }
    requires equal { length sums.old ≡ length xs.now * factor }
    requires zeros { (k : ℕ) → at sums.old k ≡ pos 0 }
    requires small { total_below (length xs.now) (λ j. unsigned_abs (at xs.now j)) ≤ 2 ^ 100 }
    ensures value { let count = length sums.old in (k : ℕ) → k < count → at sums.new k ≡ weighted_sum (length xs.now) (at xs.now) (λ i. delta integers ((factor * i) % count) k) }
    ensures small { (k : ℕ) → k < length sums.old → unsigned_abs (at sums.new k) ≤ 2 ^ 100 }
{
    for i in 0..xs.len() {
        sums[factor * i] += xs[i];
    }
}

/// The coefficients at z^i moved to z^(factor i), among `count` coefficients.
pub(crate) fn stretched(
    alloc: Global,
    xs: &[i128],
    factor: usize,
    count: usize,
) -> Result<Vec<i128>, Memory>
    requires few { count ≤ ORDER_LIMIT }
    requires positive { 0 < factor }
    requires equal { count ≡ length xs.now * factor }
    requires small { total_below (length xs.now) (λ j. unsigned_abs (at xs.now j)) ≤ 2 ^ 100 }
    ensures len { IfOk result (λ v. length v.items ≡ count) }
    ensures value { IfOk result (λ v. (k : ℕ) → k < count → at v.items k ≡ weighted_sum (length xs.now) (at xs.now) (λ i. delta integers ((factor * i) % count) k)) }
    ensures small { IfOk result (λ v. (k : ℕ) → k < count → unsigned_abs (at v.items k) ≤ 2 ^ 100) }
{
    let mut moved = zeros(alloc, count)?;
    add_stretched(moved.as_mut_slice(), xs, factor);
    Ok(moved)
}

/// The terms with coefficients that are not zero, in increasing order of exponents.
pub(crate) fn nonzero(alloc: Global, xs: &[i128]) -> Result<Vec<(u32, i128)>, Memory>
    requires { length xs.now ≤ ORDER_LIMIT }
    ensures { IfOk result (λ v. v.items ≡ nonzero_terms (length xs.now) (at xs.now)) }
{
    let mut terms = Vec::new(alloc);
    for i in 0..xs.len() {
        if xs[i] != 0 {
            terms.push((i as u32, xs[i]))?;
        }
    }
    Ok(terms)
}
