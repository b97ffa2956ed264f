// Columns of matrices that have one power of z and zeros.
ghost use Rattle.std.specs.Prelude.{ℕ, ◌≡◌, ◌+◌, ◌*◌, ◌^◌, ◌<◌, ◌≤◌, ◌↔◌, MatchOption, IfOk, IsTrue};
ghost use Rattle.irr_canonical.specs.Coefficient.{denominator, size};
ghost use Rattle.irr_number.specs.Number.{numbers, root_power};
ghost use Rattle.irr_mat.specs.Entries.{first_order, matrix_of};
ghost use Rattle.irr_mono.specs.Columns.{AreZeros, IsNonzero, IsOnly};
ghost use Rattle.irr_mono.specs.Monomial.{HasPower, PowersFit};

use irr_cyc::{Order, Scalar};
use irr_mat::Mat;
use irr_memory::Memory;
use std::alloc::Global;

// The first row from a row on whose entry in a column is not 0: the number of rows where there is none.
fn next_nonzero<S: Scalar>(m: &Mat<S>, column: u32, from: u32) -> u32
    requires column { column < m.now.cols }
    requires from { from ≤ m.now.rows }
    ensures within { result ≤ m.now.rows }
    ensures after { from ≤ result }
    ensures zeros { let n = first_order S.order_of m.now.entries.items in
        AreZeros (matrix_of S.value n m.now.rows m.now.cols m.now.entries.items) column from result }
    ensures nonzero { let n = first_order S.order_of m.now.entries.items in
        IsNonzero (matrix_of S.value n m.now.rows m.now.cols m.now.entries.items) column result }
{
    for row in from..m.rows() {
        let entry = m.at(row, column);
        if !entry.is_zero() {
            return row;
        }
    }
    m.rows()
}

// The row of the only entry of a column that is not 0.
fn only_nonzero<S: Scalar>(m: &Mat<S>, column: u32) -> Option<u32>
    requires { column < m.now.cols }
    ensures { let n = first_order S.order_of m.now.entries.items in
        let a = matrix_of S.value n m.now.rows m.now.cols m.now.entries.items in MatchOption result
        ((row : ℕ) → IsOnly a column row → ⊥)
        (IsOnly a column) }
{
    let row = next_nonzero(m, column, 0);
    if row == m.rows() {
        return None;
    }
    if next_nonzero(m, column, row + 1) != m.rows() {
        return None;
    }
    Some(row)
}

// Whether a number is z^e.
fn is_power<S: Scalar>(alloc: Global, order: &Order, x: &S, e: u32) -> Result<bool, Memory>
    requires admitted { S.admits order.now.n }
    requires order { S.order_of x.now ≡ order.now.n }
    requires exponent { e < order.now.n }
    requires denominator { let n = order.now.n in denominator n (S.value n x.now) ≤ 2 ^ 60 }
    requires size { let n = order.now.n in
        size n (S.value n x.now) + n * denominator n (S.value n x.now) < 2 ^ 110 }
    ensures { let n = order.now.n in IfOk result (λ b. IsTrue b ↔ (S.value n x.now ≡ root_power n e)) }
{
    let power = S::root(alloc, order, e)?;
    let same = power.equal(x);
    Ok(same)
}

// The exponent to try first: that of the first term of the canonical form, which is often the only one, z^e or -z^e.
fn likely_exponent<S: Scalar>(alloc: Global, order: &Order, x: &S) -> Result<u32, Memory>
    ensures { IfOk result (λ e. e < order.now.n) }
{
    let form = x.canonical(alloc)?;
    let Some(term) = form.terms.first() else {
        return Ok(0);
    };
    let turn = if term.1 < 0 { order.n() / 2 } else { 0 };
    Ok((term.0 % order.n() + turn) % order.n())
}

// The exponent e below the order for which a number is z^e.
fn exponent_of<S: Scalar>(alloc: Global, order: &Order, x: &S) -> Result<Option<u32>, Memory>
    requires admitted { S.admits order.now.n }
    requires order { S.order_of x.now ≡ order.now.n }
    requires denominator { let n = order.now.n in denominator n (S.value n x.now) ≤ 2 ^ 60 }
    requires size { let n = order.now.n in
        size n (S.value n x.now) + n * denominator n (S.value n x.now) < 2 ^ 110 }
    ensures { let n = order.now.n in IfOk result (λ exponent. MatchOption exponent
        ((e : ℕ) → e < n → S.value n x.now ≡ root_power n e → ⊥)
        (λ e. (e < n) × (S.value n x.now ≡ root_power n e))) }
{
    let likely = likely_exponent(alloc, order, x)?;
    if is_power(alloc, order, x, likely)? {
        return Ok(Some(likely));
    }
    for exponent in 0..order.n() {
        if is_power(alloc, order, x, exponent)? {
            return Ok(Some(exponent));
        }
    }
    Ok(None)
}

/// The row and the exponent of the only entry of a column that is not 0, where it is a power of z. The error is want of
/// memory.
pub(crate) fn power_in_column<S: Scalar>(
    alloc: Global,
    order: &Order,
    m: &Mat<S>,
    column: u32,
) -> Result<Option<(u32, u32)>, Memory>
    requires order { first_order S.order_of m.now.entries.items ≡ order.now.n }
    requires admitted { S.admits order.now.n }
    requires column { column < m.now.cols }
    requires sizes { let n = order.now.n in
        PowersFit n (matrix_of S.value n m.now.rows m.now.cols m.now.entries.items) }
    ensures { let n = order.now.n in
        let a = matrix_of S.value n m.now.rows m.now.cols m.now.entries.items in IfOk result (λ power. MatchOption power
        ((row exponent : ℕ) → HasPower n a column row exponent → ⊥)
        (λ p. HasPower n a column p.0 p.1)) }
{
    let Some(row) = only_nonzero(m, column) else {
        return Ok(None);
    };
    match exponent_of(alloc, order, m.at(row, column))? {
        Some(exponent) => Ok(Some((row, exponent))),
        None => Ok(None),
    }
}
