//! Terms of powers, sums, products and lifts.
ghost use Rattle.std.specs.Prelude.{ℕ, ℤ, pos, ◌≡◌, ◌≢◌, ◌+◌, ◌*◌, ◌^◌, ◌<◌, ◌≤◌, ◌*ℤ◌, map, drop, length, All, IfOk, OnOk, IsTrue, sum_by};
ghost use Rattle.std.specs.Int.RustNames.{unsigned_abs};
ghost use Rattle.irr_number.specs.Number.{numbers, root_power};
ghost use Rattle.irr_rational.specs.Integer.{integer};
ghost use Rattle.irr_cyc.specs.Terms.{terms_sum};
ghost use Rattle.irr_cyc.specs.declared.orders.TheConstants.{ORDER_LIMIT};
ghost use Rattle.irr_sparse.specs.TermList.{AreTerms, IsTerm, exponent_at, row_sum, total};
ghost use Rattle.irr_sparse.specs.Parts.{AreParts, IsFreeOutside, weight};

use crate::parts::{Part, parts_of};
use crate::terms::{Terms, add_power, add_row, add_term};
use irr_cyc::{Memory, ORDER_LIMIT};
use std::alloc::Global;

/// The terms of z^j in the basis: at most the product of p - 1 over the primes of n, and mostly one.
pub(crate) fn power(alloc: Global, n: u32, exponent: u32) -> Result<Terms, Memory>
    requires few { n ≤ ORDER_LIMIT }
    requires inside { exponent < n }
    ensures terms { IfOk result (λ v. AreTerms n 0 v.items) }
    ensures sum { IfOk result (λ v. terms_sum n v.items ≡ root_power n exponent) }
{
    if exponent == 0 {
        return Ok(Terms::from_buf(alloc, [(0, 1)]));
    }
    let parts = parts_of(n);
    let mut sums = Terms::new(alloc);
    add_power(&mut sums, n, parts.as_slice(), exponent, 1)?;
    Ok(sums)
}

// Whether the terms are one rational number that is not 0.
fn is_rational(terms: &[(u32, i128)]) -> bool
    ensures one { IsTrue result → length terms.now ≡ 1 }
    ensures exponent { IsTrue result → exponent_at terms.now 0 ≡ 0 }
{
    if terms.len() != 1 {
        return false;
    }
    terms[0].0 == 0
}

/// The terms of a product: nothing where a factor is 0, as many steps as terms where one is rational, and else the
/// cost of `add_power` for each pair of terms.
pub(crate) fn product(
    alloc: Global,
    n: u32,
    xs: &[(u32, i128)],
    ys: &[(u32, i128)],
) -> Result<Terms, Memory>
    requires positive { 0 < n }
    requires few { n ≤ ORDER_LIMIT }
    requires left { AreTerms n 0 xs.now }
    requires right { AreTerms n 0 ys.now }
    requires small { total xs.now * total ys.now ≤ 2 ^ 100 }
    ensures terms { IfOk result (λ v. AreTerms n 0 v.items) }
    ensures sum { IfOk result (λ v. terms_sum n v.items ≡ (numbers n).mul (terms_sum n xs.now) (terms_sum n ys.now)) }
{
    if xs.is_empty() {
        return Ok(Terms::new(alloc));
    }
    if ys.is_empty() {
        return Ok(Terms::new(alloc));
    }
    if is_rational(xs) {
        let products = scaled(alloc, ys, xs[0].1)?;
        return Ok(products);
    }
    if is_rational(ys) {
        let products = scaled(alloc, xs, ys[0].1)?;
        return Ok(products);
    }
    let parts = parts_of(n);
    let mut sums = Terms::new(alloc);
    for (exponent, coefficient) in xs {
        add_row(
            &mut sums,
            n,
            parts.as_slice(),
            *coefficient,
            *exponent,
            1,
            ys,
        )?;
    }
    Ok(sums)
}

/// The terms with z^f for z: the cost of `add_power` for each.
pub(crate) fn moved(
    alloc: Global,
    n: u32,
    factor: u32,
    terms: &[(u32, i128)],
) -> Result<Terms, Memory>
    requires positive { 0 < n }
    requires few { n ≤ ORDER_LIMIT }
    requires inside { All (λ t. factor * t.0 < n) terms.now }
    requires each { All (λ t. t.1 ≢ pos 0) terms.now }
    requires small { total terms.now ≤ 2 ^ 100 }
    ensures terms { IfOk result (λ v. AreTerms n 0 v.items) }
    ensures sum { IfOk result (λ v. terms_sum n v.items ≡ row_sum n (pos 1) 0 factor terms.now) }
{
    let parts = parts_of(n);
    let mut sums = Terms::new(alloc);
    add_row(&mut sums, n, parts.as_slice(), 1, 0, factor, terms)?;
    Ok(sums)
}

// Adds c z^j, where c may be 0.
fn add_whole(
    sums: &mut Terms,
    n: u32,
    parts: &[Part],
    exponent: u32,
    coefficient: i64,
) -> Result<(), Memory>
    requires few { n ≤ ORDER_LIMIT }
    requires inside { exponent < n }
    requires parts { AreParts n parts.now }
    requires all { (j : ℕ) → IsFreeOutside n parts.now j }
    requires terms { AreTerms n 0 sums.old.items }
    requires small { total sums.old.items + unsigned_abs coefficient * weight parts.now < 2 ^ 126 }
    ensures terms { OnOk result (AreTerms n 0 sums.new.items) }
    ensures sum { OnOk result (terms_sum n sums.new.items ≡ (numbers n).add (terms_sum n sums.old.items) ((numbers n).mul (integer (numbers n) coefficient) (root_power n exponent))) }
    ensures total { OnOk result (total sums.new.items ≤ total sums.old.items + unsigned_abs coefficient * weight parts.now) }
{
    if coefficient == 0 {
        return Ok(());
    }
    add_power(sums, n, parts, exponent, i128::from(coefficient))?;
    Ok(())
}

/// The terms of a sum of any powers below n: the cost of `add_power` for each.
pub(crate) fn collected(alloc: Global, n: u32, terms: &[(u32, i64)]) -> Result<Terms, Memory>
    requires positive { 0 < n }
    requires few { n ≤ ORDER_LIMIT }
    requires exponents { All (λ t. t.0 < n) terms.now }
    requires small { sum_by (λ t. unsigned_abs t.1) terms.now ≤ 2 ^ 100 }
    ensures terms { IfOk result (λ v. AreTerms n 0 v.items) }
    ensures sum { IfOk result (λ v. terms_sum n v.items ≡ terms_sum n terms.now) }
{
    let parts = parts_of(n);
    let mut sums = Terms::new(alloc);
    for (exponent, coefficient) in terms {
        add_whole(&mut sums, n, parts.as_slice(), *exponent, *coefficient)?;
    }
    Ok(sums)
}

/// The same terms: at most one allocation, and none for one term.
pub(crate) fn copied(alloc: Global, terms: &[(u32, i128)]) -> Result<Terms, Memory>
    ensures { IfOk result (λ v. v.items ≡ terms.now) }
{
    let count = terms.len();
    if count == 0 {
        return Ok(Terms::new(alloc));
    }
    if count == 1 {
        let (place, only) = terms[0];
        return Ok(Terms::from_buf(alloc, [(place, only)]));
    }
    let copy = Terms::from_slice(alloc, terms)?;
    Ok(copy)
}

/// Each coefficient times a number: at most one allocation, none for one term, and as many steps as terms.
pub(crate) fn scaled(alloc: Global, terms: &[(u32, i128)], times: i128) -> Result<Terms, Memory>
    requires { total terms.now * unsigned_abs times < 2 ^ 126 }
    ensures { IfOk result (λ v. v.items ≡ map (λ t. (t.0, t.1 *ℤ times)) terms.now) }
{
    let count = terms.len();
    if count == 1 {
        let (place, only) = terms[0];
        return Ok(Terms::from_buf(alloc, [(place, only * times)]));
    }
    let mut products = Terms::with_capacity(alloc, count)?;
    for (exponent, coefficient) in terms {
        products.push((*exponent, *coefficient * times))?;
    }
    Ok(products)
}

// Adds the terms, each times a number: a search by halves for each, and none for those behind all others.
fn add_multiples(sums: &mut Terms, terms: &[(u32, i128)], times: i128) -> Result<(), Memory>
    requires both { (n : ℕ) × AreTerms n 0 sums.old.items × AreTerms n 0 terms.now }
    requires nonzero { times ≢ pos 0 }
    requires small { total sums.old.items + total terms.now * unsigned_abs times < 2 ^ 126 }
    ensures terms { OnOk result ((n : ℕ) → AreTerms n 0 sums.old.items → AreTerms n 0 terms.now → AreTerms n 0 sums.new.items) }
    ensures sum { OnOk result ((n : ℕ) → terms_sum n sums.new.items ≡ (numbers n).add (terms_sum n sums.old.items) ((numbers n).mul (integer (numbers n) times) (terms_sum n terms.now))) }
    ensures total { OnOk result (total sums.new.items ≤ total sums.old.items + total terms.now * unsigned_abs times) }
{
    for (exponent, coefficient) in terms {
        add_term(sums, *exponent, *coefficient * times)?;
    }
    Ok(())
}

// Adds the terms from a place on whose exponents are below a limit, each times a number, and gives the next place.
fn add_below(
    sums: &mut Terms,
    terms: &[(u32, i128)],
    from: usize,
    times: i128,
    limit: u32,
) -> Result<usize, Memory>
    requires both { (n : ℕ) × AreTerms n 0 sums.old.items × AreTerms n 0 terms.now }
    requires within { from ≤ length terms.now }
    requires nonzero { times ≢ pos 0 }
    requires small { total sums.old.items + total (drop from terms.now) * unsigned_abs times < 2 ^ 126 }
    ensures within { IfOk result (λ next. next ≤ length terms.now) }
    ensures terms { OnOk result ((n : ℕ) → AreTerms n 0 sums.old.items → AreTerms n 0 terms.now → AreTerms n 0 sums.new.items) }
    ensures sum { IfOk result (λ next. (n : ℕ) → (numbers n).add (terms_sum n sums.new.items) ((numbers n).mul (integer (numbers n) times) (terms_sum n (drop next terms.now))) ≡ (numbers n).add (terms_sum n sums.old.items) ((numbers n).mul (integer (numbers n) times) (terms_sum n (drop from terms.now)))) }
    ensures total { IfOk result (λ next. total sums.new.items + total (drop next terms.now) * unsigned_abs times ≤ total sums.old.items + total (drop from terms.now) * unsigned_abs times) }
{
    let mut next = from;
    while next < terms.len() {
        let (exponent, coefficient) = terms[next];
        if exponent >= limit {
            return Ok(next);
        }
        add_term(sums, exponent, coefficient * times)?;
        next += 1;
    }
    Ok(next)
}

// Whether two lists are one term each, of one power.
fn are_of_one_power(xs: &[(u32, i128)], ys: &[(u32, i128)]) -> bool
    ensures left { IsTrue result → length xs.now ≡ 1 }
    ensures right { IsTrue result → length ys.now ≡ 1 }
    ensures exponents { IsTrue result → exponent_at xs.now 0 ≡ exponent_at ys.now 0 }
{
    if xs.len() != 1 {
        return false;
    }
    if ys.len() != 1 {
        return false;
    }
    xs[0].0 == ys[0].0
}

// The sum of two multiples of one power. No memory is needed.
fn sum_at(alloc: Global, exponent: u32, first: i128, second: i128) -> Terms
    requires { unsigned_abs first + unsigned_abs second < 2 ^ 126 }
    ensures terms { (n : ℕ) → IsTerm n 0 exponent first → AreTerms n 0 result.items }
    ensures sum { (n : ℕ) → terms_sum n result.items ≡ (numbers n).add ((numbers n).mul (integer (numbers n) first) (root_power n exponent)) ((numbers n).mul (integer (numbers n) second) (root_power n exponent)) }
{
    let sum = first + second;
    if sum == 0 {
        return Terms::new(alloc);
    }
    Terms::from_buf(alloc, [(exponent, sum)])
}

// The two lists, each times a number, taken in increasing order: one allocation, and as many steps as terms.
fn merged(
    alloc: Global,
    xs: &[(u32, i128)],
    left: i128,
    ys: &[(u32, i128)],
    right: i128,
) -> Result<Terms, Memory>
    requires both { (n : ℕ) × AreTerms n 0 xs.now × AreTerms n 0 ys.now }
    requires left { left ≢ pos 0 }
    requires right { right ≢ pos 0 }
    requires small { total xs.now * unsigned_abs left + total ys.now * unsigned_abs right < 2 ^ 110 }
    ensures terms { IfOk result (λ v. (n : ℕ) → AreTerms n 0 xs.now → AreTerms n 0 ys.now → AreTerms n 0 v.items) }
    ensures sum { IfOk result (λ v. (n : ℕ) → terms_sum n v.items ≡ (numbers n).add ((numbers n).mul (integer (numbers n) left) (terms_sum n xs.now)) ((numbers n).mul (integer (numbers n) right) (terms_sum n ys.now))) }
{
    let mut sums = Terms::with_capacity(alloc, xs.len() + ys.len())?;
    let mut from = 0;
    for (exponent, coefficient) in xs {
        from = add_below(&mut sums, ys, from, right, *exponent)?;
        add_term(&mut sums, *exponent, *coefficient * left)?;
    }
    add_multiples(&mut sums, &ys[from..], right)?;
    Ok(sums)
}

/// The terms of `left` times a number and `right` times another, of one order: as many steps as terms, and no
/// allocation for two terms of one power.
#[inline]
pub(crate) fn combination(
    alloc: Global,
    xs: &[(u32, i128)],
    left: i128,
    ys: &[(u32, i128)],
    right: i128,
) -> Result<Terms, Memory>
    requires both { (n : ℕ) × AreTerms n 0 xs.now × AreTerms n 0 ys.now }
    requires left { left ≢ pos 0 }
    requires right { right ≢ pos 0 }
    requires small { total xs.now * unsigned_abs left + total ys.now * unsigned_abs right < 2 ^ 110 }
    ensures terms { IfOk result (λ v. (n : ℕ) → AreTerms n 0 xs.now → AreTerms n 0 ys.now → AreTerms n 0 v.items) }
    ensures sum { IfOk result (λ v. (n : ℕ) → terms_sum n v.items ≡ (numbers n).add ((numbers n).mul (integer (numbers n) left) (terms_sum n xs.now)) ((numbers n).mul (integer (numbers n) right) (terms_sum n ys.now))) }
{
    if are_of_one_power(xs, ys) {
        let (place, first) = xs[0];
        let (_, second) = ys[0];
        return Ok(sum_at(alloc, place, first * left, second * right));
    }
    let sums = merged(alloc, xs, left, ys, right)?;
    Ok(sums)
}
