//! Lists of terms (j, c) for c z^j, by increasing exponents.
ghost use Rattle.std.specs.Prelude.{ℕ, ℤ, pos, ◌≡◌, ◌≢◌, ◌+◌, ◌*◌, ◌%◌, ◌^◌, ◌<◌, ◌≤◌, ◌+ℤ◌, ◌*ℤ◌, length, All, OnOk, IsTrue, ◌↔◌};
ghost use Rattle.std.specs.Int.RustNames.{unsigned_abs};
ghost use Rattle.irr_number.specs.Number.{numbers, root_power};
ghost use Rattle.irr_rational.specs.Integer.{integer};
ghost use Rattle.irr_cyc.specs.Terms.{terms_sum};
ghost use Rattle.irr_cyc.specs.declared.orders.TheConstants.{ORDER_LIMIT};
ghost use Rattle.irr_sparse.specs.TermList.{AreTerms, IsIncreasing, IsTerm, coefficient_at, exponent_at, row_sum, total};
ghost use Rattle.irr_sparse.specs.Parts.{AreParts, IsFreeOutside, weight};

use crate::parts::Part;
use irr_cyc::{Memory, ORDER_LIMIT};
use smallvec::SmallVec;

/// A list of terms. One term takes no memory.
pub(crate) type Terms = SmallVec<(u32, i128), 1>;

/// Whether two lists are the same, term by term. No memory is needed.
pub(crate) fn are_same(xs: &[(u32, i128)], ys: &[(u32, i128)]) -> bool
    ensures { IsTrue result ↔ (xs.now ≡ ys.now) }
{
    if xs.len() != ys.len() {
        return false;
    }
    for i in 0..xs.len() {
        if xs[i].0 != ys[i].0 {
            return false;
        }
        if xs[i].1 != ys[i].1 {
            return false;
        }
    }
    true
}

// How many terms have exponents below the one given: the place of its term. It takes as many steps as the length has
// bits, and one where all are below.
fn place_of(terms: &[(u32, i128)], exponent: u32) -> usize
    requires { IsIncreasing terms.now }
    ensures within { result ≤ length terms.now }
    ensures before { (i : ℕ) → i < result → exponent_at terms.now i < exponent }
    ensures after { result < length terms.now → exponent ≤ exponent_at terms.now result }
{
    let count = terms.len();
    if count == 0 {
        return 0;
    }
    if terms[count - 1].0 < exponent {
        return count;
    }
    let mut low = 0;
    let mut high = count;
    while low < high {
        let middle = low + (high - low) / 2;
        if terms[middle].0 < exponent {
            low = middle + 1;
        } else {
            high = middle;
        }
    }
    low
}

/// Adds a term. It is a search by halves, and the terms behind the place move where a term comes or goes.
pub(crate) fn add_term(terms: &mut Terms, exponent: u32, coefficient: i128) -> Result<(), Memory>
    requires increasing { IsIncreasing terms.old.items }
    requires small { total terms.old.items + unsigned_abs coefficient < 2 ^ 126 }
    ensures terms { OnOk result ((n : ℕ) → AreTerms n 0 terms.old.items → IsTerm n 0 exponent coefficient → AreTerms n 0 terms.new.items) }
    ensures sum { OnOk result ((n : ℕ) → terms_sum n terms.new.items ≡ (numbers n).add (terms_sum n terms.old.items) ((numbers n).mul (integer (numbers n) coefficient) (root_power n exponent))) }
    ensures total { OnOk result (total terms.new.items ≤ total terms.old.items + unsigned_abs coefficient) }
{
    let place = place_of(terms.as_slice(), exponent);
    if place == terms.len() {
        terms.push((exponent, coefficient))?;
        return Ok(());
    }
    let (there, before) = terms.as_slice()[place];
    if there != exponent {
        terms.insert(place, (exponent, coefficient))?;
        return Ok(());
    }
    let sum = before + coefficient;
    if sum == 0 {
        terms.remove(place);
        return Ok(());
    }
    terms.as_mut_slice()[place] = (exponent, sum);
    Ok(())
}

// The place of z^(i + j), with z^n = 1, for i and j below n.
fn turned(i: u32, j: u32, n: u32) -> u32
    requires few { n ≤ ORDER_LIMIT }
    requires first { i < n }
    requires second { j < n }
    ensures value { result ≡ (i + j) % n }
    ensures inside { result < n }
{
    let place = i + j;
    if place < n { place } else { place - n }
}

/// Adds c z^j for any j below n: at each prime of which z^j is a top power it is the negative of the p - 1 others
/// of its class modulo n/p. So it adds at most as many terms as the product of p - 1 over the primes.
pub(crate) fn add_power(
    terms: &mut Terms,
    n: u32,
    parts: &[Part],
    exponent: u32,
    coefficient: i128,
) -> Result<(), Memory>
    requires few { n ≤ ORDER_LIMIT }
    requires inside { exponent < n }
    requires nonzero { coefficient ≢ pos 0 }
    requires parts { AreParts n parts.now }
    requires free { IsFreeOutside n parts.now exponent }
    requires terms { AreTerms n 0 terms.old.items }
    requires small { total terms.old.items + unsigned_abs coefficient * weight parts.now < 2 ^ 126 }
    ensures terms { OnOk result (AreTerms n 0 terms.new.items) }
    ensures sum { OnOk result (terms_sum n terms.new.items ≡ (numbers n).add (terms_sum n terms.old.items) ((numbers n).mul (integer (numbers n) coefficient) (root_power n exponent))) }
    ensures total { OnOk result (total terms.new.items ≤ total terms.old.items + unsigned_abs coefficient * weight parts.now) }
{
    if parts.is_empty() {
        add_term(terms, exponent, coefficient)?;
        return Ok(());
    }
    let part = parts[0];
    let rest = &parts[1..];
    if exponent / part.base % part.prime != part.prime - 1 {
        add_power(terms, n, rest, exponent, coefficient)?;
        return Ok(());
    }
    let step = n / part.prime;
    for turns in 1..part.prime {
        let place = turned(exponent, turns * step, n);
        add_power(terms, n, rest, place, -coefficient)?;
    }
    Ok(())
}

/// Adds k z^s times the terms, with z^f for z: the cost of `add_power` for each term.
pub(crate) fn add_row(
    sums: &mut Terms,
    n: u32,
    parts: &[Part],
    times: i128,
    shift: u32,
    factor: u32,
    terms: &[(u32, i128)],
) -> Result<(), Memory>
    requires few { n ≤ ORDER_LIMIT }
    requires shift { shift < n }
    requires inside { All (λ t. factor * t.0 < n) terms.now }
    requires nonzero { times ≢ pos 0 }
    requires each { All (λ t. t.1 ≢ pos 0) terms.now }
    requires parts { AreParts n parts.now }
    requires all { (j : ℕ) → IsFreeOutside n parts.now j }
    requires terms { AreTerms n 0 sums.old.items }
    requires small { total sums.old.items + unsigned_abs times * total terms.now * weight parts.now < 2 ^ 126 }
    ensures terms { OnOk result (AreTerms n 0 sums.new.items) }
    ensures sum { OnOk result (terms_sum n sums.new.items ≡ (numbers n).add (terms_sum n sums.old.items) (row_sum n times shift factor terms.now)) }
    ensures total { OnOk result (total sums.new.items ≤ total sums.old.items + unsigned_abs times * total terms.now * weight parts.now) }
{
    for (exponent, coefficient) in terms {
        let place = turned(shift, factor * *exponent, n);
        add_power(sums, n, parts, place, times * *coefficient)?;
    }
    Ok(())
}
