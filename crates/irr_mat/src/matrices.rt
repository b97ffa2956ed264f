//! Matrices: their entries, row by row.
ghost use Rattle.std.specs.Prelude.{ℕ, ◌≡◌, ◌+◌, ◌*◌, ◌^◌, ◌<◌, ◌≤◌, ◌↔◌, length, IfOk, IsTrue, Some, slice_get};
ghost use Rattle.irr_algebra.specs.Matrix.{unit};
ghost use Rattle.irr_number.specs.Number.{numbers};
ghost use Rattle.irr_mat.specs.Entries.{first_order, HaveOneOrder, IsEntry, matrix_of};
ghost use Rattle.irr_mat.specs.Size.{SumsFit};

mod arithmetic;
mod blocks;

use irr_cyc::{Order, Scalar};
use irr_memory::Memory;
use std::alloc::Global;

/// A matrix with at least one row and one column, whose entries are numbers of one order.
#[derive(Drop)]
pub struct Mat<S: Scalar> {
    rows: u32,
    cols: u32,
    entries: Vec<S>,
    pub ghost some_rows: { 0 < rows },
    pub ghost some_cols: { 0 < cols },
    pub ghost filled: { length entries.items ≡ rows * cols },
    pub ghost one_order: { HaveOneOrder S.order_of entries.items },
}

impl<S: Scalar> Mat<S> {
    /// The matrix with these entries, row by row.
    pub fn from_entries(rows: u32, cols: u32, entries: Vec<S>) -> Mat<S>
        requires some_rows { 0 < rows }
        requires some_cols { 0 < cols }
        requires filled { length entries.items ≡ rows * cols }
        requires one_order { HaveOneOrder S.order_of entries.items }
        ensures rows { result.rows ≡ rows }
        ensures cols { result.cols ≡ cols }
        ensures entries { result.entries.items ≡ entries.items }
    {
        Mat {
            rows,
            cols,
            entries,
        }
    }

    /// The number of rows.
    pub fn rows(&self) -> u32
        ensures value { result ≡ self.now.rows }
        ensures positive { 0 < result }
    {
        self.rows
    }

    /// The number of columns.
    pub fn cols(&self) -> u32
        ensures value { result ≡ self.now.cols }
        ensures positive { 0 < result }
    {
        self.cols
    }

    /// The entry in row i and column j.
    pub fn at(&self, i: u32, j: u32) -> &S
        requires row { i < self.now.rows }
        requires column { j < self.now.cols }
        ensures place { slice_get self.now.entries.items (i * self.now.cols + j) ≡ Some result.now }
        ensures entry { (n : ℕ) → IsEntry (matrix_of S.value n self.now.rows self.now.cols self.now.entries.items) i j (S.value n result.now) }
        ensures order { S.order_of result.now ≡ first_order S.order_of self.now.entries.items }
    {
        &self.entries[i as usize * self.cols as usize + j as usize]
    }

    // The order of the entries.
    fn order(&self, alloc: Global) -> Result<Order, Memory>
        ensures order { IfOk result (λ order. order.n ≡ first_order S.order_of self.now.entries.items) }
        ensures admitted { IfOk result (λ order. S.admits order.n) }
    {
        Order::new(alloc, self.at(0, 0).order())
    }

    /// The unit matrix with d rows.
    pub fn unit(alloc: Global, order: &Order, d: u32) -> Result<Mat<S>, Memory>
        requires admitted { S.admits order.now.n }
        requires some { 0 < d }
        ensures rows { IfOk result (λ m. m.rows ≡ d) }
        ensures cols { IfOk result (λ m. m.cols ≡ d) }
        ensures order { IfOk result (λ m. first_order S.order_of m.entries.items ≡ order.now.n) }
        ensures value { IfOk result (λ m. let n = order.now.n in matrix_of S.value n d d m.entries.items ≡ unit (numbers n) d) }
    {
        let mut entries = Vec::new(alloc);
        for i in 0..d {
            for j in 0..d {
                let entry = if i == j {
                    S::one(alloc, order)?
                } else {
                    S::zero(alloc, order)?
                };
                entries.push(entry)?;
            }
        }
        Ok(Mat {
            rows: d,
            cols: d,
            entries,
        })
    }

    /// Whether two matrices have the same shape and equal entries.
    pub fn equal(&self, other: &Mat<S>) -> bool
        requires orders { first_order S.order_of other.now.entries.items ≡ first_order S.order_of self.now.entries.items }
        requires sizes { let n = first_order S.order_of self.now.entries.items in SumsFit n (matrix_of S.value n self.now.rows self.now.cols self.now.entries.items) (matrix_of S.value n other.now.rows other.now.cols other.now.entries.items) }
        ensures { let n = first_order S.order_of self.now.entries.items in IsTrue result ↔ ((self.now.rows ≡ other.now.rows) × (self.now.cols ≡ other.now.cols) × (matrix_of S.value n self.now.rows self.now.cols self.now.entries.items ≡ matrix_of S.value n self.now.rows self.now.cols other.now.entries.items)) }
    {
        if self.rows != other.rows || self.cols != other.cols {
            return false;
        }
        for i in 0..self.rows {
            for j in 0..self.cols {
                if !self.at(i, j).equal(other.at(i, j)) {
                    return false;
                }
            }
        }
        true
    }
}
