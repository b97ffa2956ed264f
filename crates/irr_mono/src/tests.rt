//! Products of small monomial matrices, their numbers, and readings of matrices of 0, 1 and -1.
ghost use Rattle.std.specs.Prelude.{ℕ, ◌≡◌, ◌*◌, ◌<◌, ◌≤◌, length, slice_index, IfOk, IsTrue};
ghost use Rattle.irr_canonical.specs.RootSum.{IsRootSum};
ghost use Rattle.irr_mat.specs.Entries.{first_order, matrix_of};
ghost use Rattle.irr_mat.specs.Size.{IsWithin};
ghost use Rattle.irr_mono.specs.Monomial.{AreRules};

use super::*;
use irr_cyc::{Dense, Order, Scalar};
use irr_mat::Mat;
use std::alloc::Global;
use std::test::Fail;

// An entry of a matrix of signs: 0, 1 or -1.
#[derive(Clone, Copy)]
enum Sign {
    Nought,
    Plus,
    Minus,
}

// The matrix with these rows and exponents of columns.
fn by_columns(alloc: Global, place: &[u32], exp: &[u32]) -> Result<Mono, Memory> {
    let place = Vec::from_slice(alloc, place)?;
    let exp = Vec::from_slice(alloc, exp)?;
    Ok(Mono { place, exp })
}

// Whether the row of a column is that of no earlier one.
fn is_new(place: &[u32], column: usize) -> bool
    requires { column < length place.now }
    ensures { IsTrue result → (j : ℕ) → j < column → slice_index place.now j ≡ slice_index place.now column → ⊥ }
{
    for earlier in 0..column {
        if place[earlier] == place[column] {
            return false;
        }
    }
    true
}

// Whether rows and exponents of columns are those of a monomial matrix.
fn are_rules(order: &Order, m: &Mono) -> bool
    ensures { IsTrue result → AreRules order.now.n m.now.place.items m.now.exp.items }
{
    let place = m.place.as_slice();
    let exp = m.exp.as_slice();
    if place.is_empty() || place.len() > u32::MAX as usize || exp.len() != place.len() {
        return false;
    }
    for column in 0..place.len() {
        if place[column] as usize >= place.len() || exp[column] >= order.n() {
            return false;
        }
        if !is_new(place, column) {
            return false;
        }
    }
    true
}

// The product, where both are monomial matrices with equally many columns and the product of their numbers is the same.
fn product<S: Scalar>(
    alloc: Global,
    order: &Order,
    left: &Mono,
    right: &Mono,
) -> Result<Option<Mono>, Memory>
    requires admitted { S.admits order.now.n }
{
    if !are_rules(order, left) {
        return Ok(None);
    }
    if !are_rules(order, right) {
        return Ok(None);
    }
    if right.place.len() != left.place.len() {
        return Ok(None);
    }
    let product = left.mul(alloc, right, order)?;
    let a = left.to_mat::<S>(alloc, order)?;
    let b = right.to_mat::<S>(alloc, order)?;
    let numbers = product.to_mat::<S>(alloc, order)?;
    let expected = a.mul(alloc, &b)?;
    if !expected.equal(&numbers) {
        return Ok(None);
    }
    Ok(Some(product))
}

// The matrix of numbers, and what is read from it again.
fn there_and_back<S: Scalar>(
    alloc: Global,
    order: &Order,
    m: &Mono,
) -> Result<Option<(Mat<S>, Option<Mono>)>, Memory>
    requires admitted { S.admits order.now.n }
{
    if !are_rules(order, m) {
        return Ok(None);
    }
    let numbers = m.to_mat::<S>(alloc, order)?;
    let found = Mono::from_mat(alloc, &numbers)?;
    Ok(Some((numbers, found)))
}

// 0, 1 or -1.
fn signed<S: Scalar>(alloc: Global, order: &Order, sign: Sign) -> Result<S, Memory>
    requires admitted { S.admits order.now.n }
    ensures order { IfOk result (λ x. S.order_of x ≡ order.now.n) }
    ensures sum { let n = order.now.n in IfOk result (λ x. IsRootSum n 1 1 (S.value n x)) }
{
    match sign {
        Sign::Nought => {
            let x = S::zero(alloc, order)?;
            Ok(x)
        }
        Sign::Plus => {
            let x = S::one(alloc, order)?;
            Ok(x)
        }
        Sign::Minus => {
            let x = S::from_terms(alloc, order, 1, &[(0, -1)])?;
            Ok(x)
        }
    }
}

// The matrix of these entries, row by row.
fn signs<S: Scalar>(
    alloc: Global,
    order: &Order,
    rows: u32,
    cols: u32,
    entries: &[Sign],
) -> Result<Mat<S>, Memory>
    requires admitted { S.admits order.now.n }
    requires some_rows { 0 < rows }
    requires some_cols { 0 < cols }
    requires full { length entries.now ≡ rows * cols }
    ensures rows { IfOk result (λ m. m.rows ≡ rows) }
    ensures cols { IfOk result (λ m. m.cols ≡ cols) }
    ensures order { IfOk result (λ m. first_order S.order_of m.entries.items ≡ order.now.n) }
    ensures within { let n = order.now.n in IfOk result (λ m. IsWithin n 1 1 (matrix_of S.value n rows cols m.entries.items)) }
{
    let mut numbers = Vec::new(alloc);
    for sign in entries {
        let entry: S = signed(alloc, order, *sign)?;
        numbers.push(entry)?;
    }
    Ok(Mat::from_entries(rows, cols, numbers))
}

// What is read from the matrix of these entries at an order.
fn read_signs<S: Scalar>(
    alloc: Global,
    order: &Order,
    rows: u32,
    cols: u32,
    entries: &[Sign],
) -> Result<Option<Mono>, Memory>
    requires admitted { S.admits order.now.n }
    requires some_rows { 0 < rows }
    requires some_cols { 0 < cols }
    requires full { length entries.now ≡ rows * cols }
{
    let m = signs::<S>(alloc, order, rows, cols, entries)?;
    Mono::from_mat(alloc, &m)
}

// Whether the product has these rows and exponents of columns.
fn has_product(
    alloc: Global,
    n: u32,
    left: (&[u32], &[u32]),
    right: (&[u32], &[u32]),
    expected: (&[u32], &[u32]),
) -> Result<bool, Memory>
    requires positive { 0 < n }
    requires small { n ≤ 6 }
{
    let order = Order::new(alloc, n)?;
    let a = by_columns(alloc, left.0, left.1)?;
    let b = by_columns(alloc, right.0, right.1)?;
    let found = product::<Dense>(alloc, &order, &a, &b)?;
    Ok(is_reading(&found, expected.0, expected.1))
}

// Whether rows and exponents of columns are there, and are these.
fn is_reading(found: &Option<Mono>, place: &[u32], exp: &[u32]) -> bool {
    match found {
        Some(m) => m.place.as_slice() == place && m.exp.as_slice() == exp,
        None => false,
    }
}

// What is read from the matrix of these entries at the order n.
fn read(
    alloc: Global,
    n: u32,
    rows: u32,
    cols: u32,
    entries: &[Sign],
) -> Result<Option<Mono>, Memory>
    requires positive { 0 < n }
    requires small { n ≤ 6 }
    requires some_rows { 0 < rows }
    requires some_cols { 0 < cols }
    requires full { length entries.now ≡ rows * cols }
{
    let order = Order::new(alloc, n)?;
    read_signs::<Dense>(alloc, &order, rows, cols, entries)
}

// Whether these rows and exponents of columns are read from the matrix of numbers of the order n.
fn comes_back(alloc: Global, n: u32, place: &[u32], exp: &[u32]) -> Result<bool, Memory>
    requires positive { 0 < n }
    requires small { n ≤ 6 }
{
    let order = Order::new(alloc, n)?;
    let m = by_columns(alloc, place, exp)?;
    let Some(both) = there_and_back::<Dense>(alloc, &order, &m)? else {
        return Ok(false);
    };
    Ok(is_reading(&both.1, place, exp))
}

// Whether z^e times a matrix has these rows and exponents of columns.
fn has_multiple(
    alloc: Global,
    n: u32,
    m: (&[u32], &[u32]),
    e: u32,
    exp: &[u32],
) -> Result<bool, Memory>
    requires below { e < n }
    requires small { n ≤ 6 }
{
    let order = Order::new(alloc, n)?;
    let matrix = by_columns(alloc, m.0, m.1)?;
    if !are_rules(&order, &matrix) {
        return Ok(false);
    }
    let multiple = matrix.times_power(alloc, &order, e)?;
    Ok(is_reading(&Some(multiple), m.0, exp))
}

#[test]
fn products(rt: HostRuntime) -> Result<(), Fail> {
    let alloc = rt.alloc();
    // (0 -1, 1 0), a turn by 90 degrees, twice
    let turn: (&[u32], &[u32]) = (&[1, 0], &[0, 2]);
    assert!(rt; has_product(alloc, 4, turn, turn, (&[0, 1], &[2, 2]))?);
    // two matrices that do not commute
    let cycle: (&[u32], &[u32]) = (&[1, 2, 0], &[1, 2, 5]);
    let swap: (&[u32], &[u32]) = (&[0, 2, 1], &[3, 4, 5]);
    assert!(rt; has_product(alloc, 6, cycle, swap, (&[1, 0, 2], &[4, 3, 1]))?);
    assert!(rt; has_product(alloc, 6, swap, cycle, (&[2, 1, 0], &[5, 1, 2]))?);
    Ok(())
}

#[test]
fn multiples(rt: HostRuntime) -> Result<(), Fail> {
    assert!(rt; has_multiple(rt.alloc(), 4, (&[1, 0], &[0, 2]), 3, &[3, 1])?);
    assert!(rt; has_multiple(rt.alloc(), 6, (&[1, 2, 0], &[1, 2, 5]), 0, &[1, 2, 5])?);
    assert!(rt; has_multiple(rt.alloc(), 1, (&[0], &[0]), 0, &[0])?);
    Ok(())
}

#[test]
fn numbers_and_back(rt: HostRuntime) -> Result<(), Fail> {
    let order = Order::new(rt.alloc(), 4)?;
    let turn = by_columns(rt.alloc(), &[1, 0], &[0, 2])?;
    let Some((numbers, found)) = there_and_back::<Dense>(rt.alloc(), &order, &turn)? else {
        return Err(Fail::new("no monomial matrix"));
    };
    // the rows (0, -1) and (1, 0)
    let entries: [&[(u32, i128)]; 4] = [&[], &[(0, -1)], &[(0, 1)], &[]];
    for (place, terms) in entries.iter().enumerate() {
        let (i, j) = (place as u32 / 2, place as u32 % 2);
        assert!(rt; i < numbers.rows() && j < numbers.cols());
        let canon = numbers.at(i, j).canonical(rt.alloc())?;
        assert_eq!(rt; canon.den, 1);
        assert!(rt; canon.terms.as_slice() == *terms);
    }
    assert!(rt; is_reading(&found, &[1, 0], &[0, 2]));
    Ok(())
}

#[test]
fn powers_and_back(rt: HostRuntime) -> Result<(), Fail> {
    let alloc = rt.alloc();
    // at the order 3 the form of z^2 has two terms: it is -1 - z
    assert!(rt; comes_back(alloc, 3, &[1, 2, 0], &[0, 1, 2])?);
    assert!(rt; comes_back(alloc, 6, &[1, 2, 0], &[1, 2, 5])?);
    assert!(rt; comes_back(alloc, 6, &[1, 2, 0], &[0, 3, 4])?);
    // two equal rows, a row that is not there, and an exponent that is not below the order
    assert!(rt; !comes_back(alloc, 3, &[0, 0], &[0, 1])?);
    assert!(rt; !comes_back(alloc, 3, &[0, 2], &[0, 1])?);
    assert!(rt; !comes_back(alloc, 3, &[0, 1], &[0, 3])?);
    Ok(())
}

#[test]
fn readings_of_minus_1(rt: HostRuntime) -> Result<(), Fail> {
    // -1 is a power of z at an even order only
    let entries = [Sign::Minus];
    assert!(rt; read(rt.alloc(), 1, 1, 1, &entries)?.is_none());
    assert!(rt; is_reading(&read(rt.alloc(), 2, 1, 1, &entries)?, &[0], &[1]));
    assert!(rt; read(rt.alloc(), 3, 1, 1, &entries)?.is_none());
    Ok(())
}

#[test]
fn readings_of_signs(rt: HostRuntime) -> Result<(), Fail> {
    use Sign::{Minus, Nought, Plus};
    let alloc = rt.alloc();
    let turn = read(alloc, 4, 2, 2, &[Nought, Minus, Plus, Nought])?;
    assert!(rt; is_reading(&turn, &[1, 0], &[0, 2]));
    // two entries in a column, two in a row, none in a column, and a matrix that is not square
    assert!(rt; read(alloc, 4, 2, 2, &[Plus, Plus, Nought, Plus])?.is_none());
    assert!(rt; read(alloc, 4, 2, 2, &[Plus, Plus, Nought, Nought])?.is_none());
    assert!(rt; read(alloc, 4, 2, 2, &[Plus, Nought, Nought, Nought])?.is_none());
    assert!(rt; read(alloc, 4, 1, 2, &[Plus, Nought])?.is_none());
    Ok(())
}
