//! Sums, products and traces.
ghost use Rattle.std.specs.Prelude.{ℕ, ◌≡◌, ◌+◌, ◌*◌, ◌^◌, ◌<◌, ◌≤◌, length, IfOk};
ghost use Rattle.irr_algebra.specs.Matrix.{◌·◌, ◌⊕◌, scale, trace};
ghost use Rattle.irr_number.specs.Number.{numbers};
ghost use Rattle.irr_canonical.specs.Coefficient.{denominator, size};
ghost use Rattle.irr_mat.specs.Entries.{first_order, IsEntry, matrix_of};
ghost use Rattle.irr_mat.specs.Size.{MultiplesFit, ProductFits, SumsFit, TraceFits};

use crate::matrices::Mat;
use irr_cyc::{Order, Scalar};
use irr_memory::Memory;
use std::alloc::Global;

/// The product of two numbers of one order, at once where one of them is 0. The error is want of memory.
pub(crate) fn product<S: Scalar>(alloc: Global, left: &S, right: &S) -> Result<S, Memory>
    requires orders { S.order_of right.now ≡ S.order_of left.now }
    requires denominators { let n = S.order_of left.now in denominator n (S.value n left.now) * denominator n (S.value n right.now) ≤ 2 ^ 60 }
    requires sizes { let n = S.order_of left.now in size n (S.value n left.now) * size n (S.value n right.now) ≤ 2 ^ 100 }
    ensures order { IfOk result (λ x. S.order_of x ≡ S.order_of left.now) }
    ensures value { IfOk result (λ x. let n = S.order_of left.now in S.value n x ≡ (numbers n).mul (S.value n left.now) (S.value n right.now)) }
{
    if left.is_zero() {
        let none = left.copy(alloc)?;
        return Ok(none);
    }
    if right.is_zero() {
        let none = right.copy(alloc)?;
        return Ok(none);
    }
    let product = left.mul(alloc, right)?;
    Ok(product)
}

impl<S: Scalar> Mat<S> {
    // The entry of the product in row i and column j.
    fn product_entry(
        &self,
        alloc: Global,
        order: &Order,
        other: &Mat<S>,
        i: u32,
        j: u32,
    ) -> Result<S, Memory>
        requires shapes { other.now.rows ≡ self.now.cols }
        requires admitted { S.admits order.now.n }
        requires order { first_order S.order_of self.now.entries.items ≡ order.now.n }
        requires other_order { first_order S.order_of other.now.entries.items ≡ order.now.n }
        requires sizes { let n = order.now.n in ProductFits n (matrix_of S.value n self.now.rows self.now.cols self.now.entries.items) (matrix_of S.value n self.now.cols other.now.cols other.now.entries.items) }
        requires row { i < self.now.rows }
        requires column { j < other.now.cols }
        ensures order { IfOk result (λ x. S.order_of x ≡ order.now.n) }
        ensures entry { let n = order.now.n in IfOk result (λ x. IsEntry (matrix_of S.value n self.now.rows self.now.cols self.now.entries.items · matrix_of S.value n self.now.cols other.now.cols other.now.entries.items) i j (S.value n x)) }
    {
        let mut sum = S::zero(alloc, order)?;
        for k in 0..self.cols {
            let left = self.at(i, k);
            let right = other.at(k, j);
            if left.is_zero() || right.is_zero() {
                continue;
            }
            let product = left.mul(alloc, right)?;
            sum = sum.add(alloc, &product)?;
        }
        Ok(sum)
    }

    /// The product of two matrices, this one on the left.
    pub fn mul(&self, alloc: Global, other: &Mat<S>) -> Result<Mat<S>, Memory>
        requires shapes { other.now.rows ≡ self.now.cols }
        requires orders { first_order S.order_of other.now.entries.items ≡ first_order S.order_of self.now.entries.items }
        requires sizes { let n = first_order S.order_of self.now.entries.items in ProductFits n (matrix_of S.value n self.now.rows self.now.cols self.now.entries.items) (matrix_of S.value n self.now.cols other.now.cols other.now.entries.items) }
        ensures rows { IfOk result (λ m. m.rows ≡ self.now.rows) }
        ensures cols { IfOk result (λ m. m.cols ≡ other.now.cols) }
        ensures order { IfOk result (λ m. first_order S.order_of m.entries.items ≡ first_order S.order_of self.now.entries.items) }
        ensures value { let n = first_order S.order_of self.now.entries.items in IfOk result (λ m. matrix_of S.value n self.now.rows other.now.cols m.entries.items ≡ matrix_of S.value n self.now.rows self.now.cols self.now.entries.items · matrix_of S.value n self.now.cols other.now.cols other.now.entries.items) }
    {
        let order = self.order(alloc)?;
        let mut entries = Vec::new(alloc);
        for i in 0..self.rows {
            for j in 0..other.cols {
                let entry = self.product_entry(alloc, &order, other, i, j)?;
                entries.push(entry)?;
            }
        }
        Ok(Mat {
            rows: self.rows,
            cols: other.cols,
            entries,
        })
    }

    /// The sum of two matrices of one shape.
    pub fn add(&self, alloc: Global, other: &Mat<S>) -> Result<Mat<S>, Memory>
        requires rows { other.now.rows ≡ self.now.rows }
        requires cols { other.now.cols ≡ self.now.cols }
        requires orders { first_order S.order_of other.now.entries.items ≡ first_order S.order_of self.now.entries.items }
        requires sizes { let n = first_order S.order_of self.now.entries.items in SumsFit n (matrix_of S.value n self.now.rows self.now.cols self.now.entries.items) (matrix_of S.value n self.now.rows self.now.cols other.now.entries.items) }
        ensures rows { IfOk result (λ m. m.rows ≡ self.now.rows) }
        ensures cols { IfOk result (λ m. m.cols ≡ self.now.cols) }
        ensures order { IfOk result (λ m. first_order S.order_of m.entries.items ≡ first_order S.order_of self.now.entries.items) }
        ensures value { let n = first_order S.order_of self.now.entries.items in IfOk result (λ m. matrix_of S.value n self.now.rows self.now.cols m.entries.items ≡ matrix_of S.value n self.now.rows self.now.cols self.now.entries.items ⊕ matrix_of S.value n self.now.rows self.now.cols other.now.entries.items) }
    {
        let mut entries = Vec::new(alloc);
        for i in 0..self.rows {
            for j in 0..self.cols {
                let sum = self.at(i, j).add(alloc, other.at(i, j))?;
                entries.push(sum)?;
            }
        }
        Ok(Mat {
            rows: self.rows,
            cols: self.cols,
            entries,
        })
    }

    /// Each entry times one number.
    pub fn scale(&self, alloc: Global, by: &S) -> Result<Mat<S>, Memory>
        requires orders { S.order_of by.now ≡ first_order S.order_of self.now.entries.items }
        requires sizes { let n = first_order S.order_of self.now.entries.items in MultiplesFit n (S.value n by.now) (matrix_of S.value n self.now.rows self.now.cols self.now.entries.items) }
        ensures rows { IfOk result (λ m. m.rows ≡ self.now.rows) }
        ensures cols { IfOk result (λ m. m.cols ≡ self.now.cols) }
        ensures order { IfOk result (λ m. first_order S.order_of m.entries.items ≡ first_order S.order_of self.now.entries.items) }
        ensures value { let n = first_order S.order_of self.now.entries.items in IfOk result (λ m. matrix_of S.value n self.now.rows self.now.cols m.entries.items ≡ scale (numbers n) (S.value n by.now) (matrix_of S.value n self.now.rows self.now.cols self.now.entries.items)) }
    {
        let mut entries = Vec::new(alloc);
        for i in 0..self.rows {
            for j in 0..self.cols {
                let product = product(alloc, by, self.at(i, j))?;
                entries.push(product)?;
            }
        }
        Ok(Mat {
            rows: self.rows,
            cols: self.cols,
            entries,
        })
    }

    /// The trace of a square matrix.
    pub fn trace(&self, alloc: Global) -> Result<S, Memory>
        requires square { self.now.cols ≡ self.now.rows }
        requires sizes { let n = first_order S.order_of self.now.entries.items in TraceFits n (matrix_of S.value n self.now.rows self.now.rows self.now.entries.items) }
        ensures order { IfOk result (λ x. S.order_of x ≡ first_order S.order_of self.now.entries.items) }
        ensures value { let n = first_order S.order_of self.now.entries.items in IfOk result (λ x. S.value n x ≡ trace (matrix_of S.value n self.now.rows self.now.rows self.now.entries.items)) }
    {
        let mut sum = self.at(0, 0).copy(alloc)?;
        for i in 1..self.rows {
            let entry = self.at(i, i);
            if entry.is_zero() {
                continue;
            }
            sum = sum.add(alloc, entry)?;
        }
        Ok(sum)
    }
}
