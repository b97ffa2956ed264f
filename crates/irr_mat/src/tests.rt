//! Ranks of projections, sums, Kronecker products and blocks of matrices of powers of z.
ghost use Rattle.std.specs.Prelude.{ℕ, ◌≡◌, ◌*◌, ◌<◌, ◌≤◌, All, length, IfOk};
ghost use Rattle.irr_mat.specs.Entries.{first_order, matrix_of};
ghost use Rattle.irr_mat.specs.Size.{IsWithin};

use super::*;
use irr_cyc::{Dense, ORDER_LIMIT, Order, Scalar};
use std::alloc::Global;
use std::test::Fail;

// The square matrix with the entries z^e over `den`, for each exponent e, row by row.
fn powers<S: Scalar>(
    alloc: Global,
    order: &Order,
    den: u64,
    size: u32,
    exponents: &[u32],
) -> Result<Mat<S>, Memory>
    requires admitted { S.admits order.now.n }
    requires some { 0 < size }
    requires full { length exponents.now ≡ size * size }
    requires below { All (λ e. e < order.now.n) exponents.now }
    requires positive { 0 < den }
    requires small { den ≤ 3 }
    ensures rows { IfOk result (λ m. m.rows ≡ size) }
    ensures cols { IfOk result (λ m. m.cols ≡ size) }
    ensures order { IfOk result (λ m. first_order S.order_of m.entries.items ≡ order.now.n) }
    ensures within { let n = order.now.n in IfOk result (λ m. IsWithin n 1 den (matrix_of S.value n size size m.entries.items)) }
{
    let mut entries = Vec::new(alloc);
    for e in exponents {
        let entry = S::from_terms(alloc, order, den, &[(*e, 1)])?;
        entries.push(entry)?;
    }
    Ok(Mat::from_entries(size, size, entries))
}

// The rank of a matrix of at most 3 rows, with entries z^e over `den`, that is tried to be a projection.
fn tried_rank<S: Scalar>(alloc: Global, den: u64, m: &Mat<S>) -> Result<Option<u32>, Memory>
    requires square { m.now.cols ≡ m.now.rows }
    requires few { m.now.rows ≤ 3 }
    requires small { den ≤ 3 }
    requires limited { first_order S.order_of m.now.entries.items ≤ 12000 }
    requires within { let n = first_order S.order_of m.now.entries.items in IsWithin n 1 den (matrix_of S.value n m.now.rows m.now.rows m.now.entries.items) }
{
    let square = m.mul(alloc, m)?;
    if square.equal(m) {
        Ok(Some(projection_rank(alloc, m)?))
    } else {
        Ok(None)
    }
}

// The ranks of the unit matrix of 3 rows and of the unit matrix times 0.
fn ranks_of_unit<S: Scalar>(
    alloc: Global,
    order: &Order,
) -> Result<(Option<u32>, Option<u32>), Memory>
    requires { S.admits order.now.n }
{
    let unit = Mat::<S>::unit(alloc, order, 3)?;
    let none = S::zero(alloc, order)?;
    let zero = unit.scale(alloc, &none)?;
    Ok((tried_rank(alloc, 1, &unit)?, tried_rank(alloc, 1, &zero)?))
}

// Whether the sum of two matrices of 2 rows is a third, each with the entries z^e.
fn is_sum<S: Scalar>(
    alloc: Global,
    order: &Order,
    left: &[u32],
    right: &[u32],
    sum: &[u32],
) -> Result<bool, Memory>
    requires admitted { S.admits order.now.n }
    requires left_full { length left.now ≡ 4 }
    requires left_below { All (λ e. e < order.now.n) left.now }
    requires right_full { length right.now ≡ 4 }
    requires right_below { All (λ e. e < order.now.n) right.now }
    requires sum_full { length sum.now ≡ 4 }
    requires sum_below { All (λ e. e < order.now.n) sum.now }
{
    let a = powers::<S>(alloc, order, 1, 2, left)?;
    let b = powers::<S>(alloc, order, 1, 2, right)?;
    let expected = powers::<S>(alloc, order, 1, 2, sum)?;
    let found = a.add(alloc, &b)?;
    Ok(found.equal(&expected))
}

// Whether the Kronecker product of two matrices of 2 rows is a third of 4 rows, each with the entries z^e.
fn is_kron<S: Scalar>(
    alloc: Global,
    order: &Order,
    left: &[u32],
    right: &[u32],
    product: &[u32],
) -> Result<bool, Memory>
    requires admitted { S.admits order.now.n }
    requires left_full { length left.now ≡ 4 }
    requires left_below { All (λ e. e < order.now.n) left.now }
    requires right_full { length right.now ≡ 4 }
    requires right_below { All (λ e. e < order.now.n) right.now }
    requires product_full { length product.now ≡ 16 }
    requires product_below { All (λ e. e < order.now.n) product.now }
{
    let a = powers::<S>(alloc, order, 1, 2, left)?;
    let b = powers::<S>(alloc, order, 1, 2, right)?;
    let expected = powers::<S>(alloc, order, 1, 4, product)?;
    let found = a.kron(alloc, &b)?;
    Ok(found.equal(&expected))
}

// The matrix of 4 rows with the second matrix of 2 rows at the lower left, the first at the upper right, and
// zeros elsewhere, for matrices with the entries z^e.
fn crossed<S: Scalar>(
    alloc: Global,
    order: &Order,
    upper: &[u32],
    lower: &[u32],
) -> Result<Mat<S>, Memory>
    requires admitted { S.admits order.now.n }
    requires upper_full { length upper.now ≡ 4 }
    requires upper_below { All (λ e. e < order.now.n) upper.now }
    requires lower_full { length lower.now ≡ 4 }
    requires lower_below { All (λ e. e < order.now.n) lower.now }
{
    let a = powers::<S>(alloc, order, 1, 2, upper)?;
    let b = powers::<S>(alloc, order, 1, 2, lower)?;
    let mut first = Vec::new(alloc);
    first.push(None)?;
    first.push(Some(a))?;
    let mut second = Vec::new(alloc);
    second.push(Some(b))?;
    second.push(None)?;
    Mat::block(alloc, order, &[first, second])
}

#[test]
fn ranks_of_unit_and_zero(rt: HostRuntime) -> Result<(), Fail> {
    let order = Order::new(rt.alloc(), 5)?;
    let ranks = ranks_of_unit::<Dense>(rt.alloc(), &order)?;
    assert!(rt; ranks == (Some(3), Some(0)));
    Ok(())
}

#[test]
fn ranks_of_projections(rt: HostRuntime) -> Result<(), Fail> {
    let rows: [(u32, u64, u32, &[u32], u32); 2] = [
        (1, 2, 2, &[0, 0, 0, 0], 1),
        (3, 3, 3, &[0, 1, 2, 2, 0, 1, 1, 2, 0], 1),
    ];
    for (n, den, size, exponents, rank) in rows {
        assert!(rt; 0 < n && n <= ORDER_LIMIT && 0 < den && den <= 3 && 0 < size && size <= 3);
        assert!(rt; exponents.len() == size as usize * size as usize);
        assert!(rt; exponents.iter().all(|e| *e < n));
        let order = Order::new(rt.alloc(), n)?;
        let m = powers::<Dense>(rt.alloc(), &order, den, size, exponents)?;
        assert_eq!(rt; tried_rank(rt.alloc(), den, &m)?, Some(rank));
    }
    Ok(())
}

#[test]
fn sums(rt: HostRuntime) -> Result<(), Fail> {
    // z^k + z^(k + 2) = z^(k + 1) at the order 6
    let order = Order::new(rt.alloc(), 6)?;
    let left = [0, 1, 2, 5];
    let right = [2, 3, 4, 1];
    assert!(rt; is_sum::<Dense>(rt.alloc(), &order, &left, &right, &[1, 2, 3, 0])?);
    assert!(rt; !is_sum::<Dense>(rt.alloc(), &order, &left, &right, &[1, 3, 2, 0])?);
    Ok(())
}

#[test]
fn kronecker_products(rt: HostRuntime) -> Result<(), Fail> {
    let order = Order::new(rt.alloc(), 3)?;
    let left = [0, 1, 2, 0];
    let right = [1, 0, 0, 1];
    let product = [1, 0, 2, 1, 0, 1, 1, 2, 0, 2, 1, 0, 2, 0, 0, 1];
    assert!(rt; is_kron::<Dense>(rt.alloc(), &order, &left, &right, &product)?);
    assert!(rt; !is_kron::<Dense>(rt.alloc(), &order, &right, &left, &product)?);
    Ok(())
}

#[test]
fn blocks(rt: HostRuntime) -> Result<(), Fail> {
    // The exponents of the entries, row by row
    let entries: [Option<u32>; 16] = [
        None,
        None,
        Some(0),
        Some(1),
        None,
        None,
        Some(0),
        Some(0),
        Some(1),
        Some(1),
        None,
        None,
        Some(1),
        Some(0),
        None,
        None,
    ];
    let order = Order::new(rt.alloc(), 3)?;
    let m = crossed::<Dense>(rt.alloc(), &order, &[0, 1, 0, 0], &[1, 1, 1, 0])?;
    assert_eq!(rt; (m.rows(), m.cols()), (4, 4));
    for (place, exponent) in entries.iter().enumerate() {
        let (i, j) = (place as u32 / 4, place as u32 % 4);
        assert!(rt; i < m.rows() && j < m.cols());
        let canon = m.at(i, j).canonical(rt.alloc())?;
        match exponent {
            Some(e) => assert!(rt;
                canon.den == 1 && canon.terms.as_slice() == [(*e, 1)].as_slice()
            ),
            None => assert!(rt; canon.terms.is_empty()),
        }
    }
    Ok(())
}
