//! Kronecker products, and matrices of blocks.
ghost use Rattle.std.specs.Prelude.{ℕ, ◌≡◌, ◌+◌, ◌*◌, ◌^◌, ◌<◌, List, [], length, map, get_or, Option, Some, None, IfOk, IfSome, IfNone};
ghost use Rattle.irr_algebra.specs.Fin.{to_nat};
ghost use Rattle.irr_number.specs.Number.{numbers};
ghost use Rattle.irr_algebra.specs.Pair.{kron, times};
ghost use Rattle.irr_mat.specs.Blocks.{AreBlocks, AreJoinable, block_matrix, block_of, part_at};
ghost use Rattle.irr_mat.specs.Entries.{first_order, IsEntry, matrix_of};
ghost use Rattle.irr_mat.specs.Size.{ProductsFit};

use crate::matrices::Mat;
use crate::matrices::arithmetic::product;
use irr_cyc::{Order, Scalar};
use irr_memory::Memory;
use std::alloc::Global;

impl<S: Scalar> Mat<S> {
    /// The Kronecker product: the entry i, j of this matrix times the entry k, l of the other stands in row
    /// i * rows + k and column j * cols + l, where `other` has so many rows and columns.
    pub fn kron(&self, alloc: Global, other: &Mat<S>) -> Result<Mat<S>, Memory>
        requires rows { self.now.rows * other.now.rows < 2 ^ 32 }
        requires cols { self.now.cols * other.now.cols < 2 ^ 32 }
        requires orders { first_order S.order_of other.now.entries.items ≡ first_order S.order_of self.now.entries.items }
        requires sizes { let n = first_order S.order_of self.now.entries.items in ProductsFit n (matrix_of S.value n self.now.rows self.now.cols self.now.entries.items) (matrix_of S.value n other.now.rows other.now.cols other.now.entries.items) }
        ensures rows { IfOk result (λ m. m.rows ≡ self.now.rows * other.now.rows) }
        ensures cols { IfOk result (λ m. m.cols ≡ self.now.cols * other.now.cols) }
        ensures order { IfOk result (λ m. first_order S.order_of m.entries.items ≡ first_order S.order_of self.now.entries.items) }
        ensures value { let n = first_order S.order_of self.now.entries.items in IfOk result (λ m. matrix_of S.value n (times self.now.rows other.now.rows) (times self.now.cols other.now.cols) m.entries.items ≡ kron (matrix_of S.value n self.now.rows self.now.cols self.now.entries.items) (matrix_of S.value n other.now.rows other.now.cols other.now.entries.items)) }
    {
        let rows = self.rows * other.rows;
        let cols = self.cols * other.cols;
        let mut entries = Vec::new(alloc);
        for i in 0..rows {
            for j in 0..cols {
                let left = self.at(i / other.rows, j / other.cols);
                let right = other.at(i % other.rows, j % other.cols);
                let product = product(alloc, left, right)?;
                entries.push(product)?;
            }
        }
        Ok(Mat {
            rows,
            cols,
            entries,
        })
    }

    /// The matrix of these blocks: those of one row side by side, the rows one below the other. The blocks have one
    /// shape, and None stands for a block of zeros.
    pub fn block(
        alloc: Global,
        order: &Order,
        parts: &[Vec<Option<Mat<S>>>],
    ) -> Result<Mat<S>, Memory>
        requires admitted { S.admits order.now.n }
        requires blocks { AreJoinable (λ m. m.rows) (λ m. m.cols) (λ m. first_order S.order_of m.entries.items) order.now.n (map (λ row. row.items) parts.now) }
        ensures rows { (r c q : ℕ) → AreBlocks (λ m. m.rows) (λ m. m.cols) (λ m. first_order S.order_of m.entries.items) order.now.n r c q (map (λ row. row.items) parts.now) → IfOk result (λ m. m.rows ≡ length parts.now * r) }
        ensures cols { (r c q : ℕ) → AreBlocks (λ m. m.rows) (λ m. m.cols) (λ m. first_order S.order_of m.entries.items) order.now.n r c q (map (λ row. row.items) parts.now) → IfOk result (λ m. m.cols ≡ q * c) }
        ensures order { IfOk result (λ m. first_order S.order_of m.entries.items ≡ order.now.n) }
        ensures value { let n = order.now.n in let p = length parts.now in (r c q : ℕ) → AreBlocks (λ m. m.rows) (λ m. m.cols) (λ m. first_order S.order_of m.entries.items) n r c q (map (λ row. row.items) parts.now)
            → IfOk result (λ m. matrix_of S.value n (times p r) (times q c) m.entries.items ≡ block_matrix p q r c (λ a b. block_of (λ part. matrix_of S.value n r c part.entries.items) (part_at (map (λ row. row.items) parts.now) (to_nat a) (to_nat b)))) }
    {
        let (height, width) = Mat::shape_of_blocks(parts);
        let across = parts[0].len() as u32;
        let rows = parts.len() as u32 * height;
        let cols = across * width;
        let mut entries = Vec::new(alloc);
        for i in 0..rows {
            for j in 0..cols {
                let part = &parts[(i / height) as usize][(j / width) as usize];
                let entry = Mat::block_entry(alloc, order, part, i % height, j % width)?;
                entries.push(entry)?;
            }
        }
        Ok(Mat {
            rows,
            cols,
            entries,
        })
    }

    // The numbers of rows and columns of the first block in a row.
    fn shape_in_row(row: &[Option<Mat<S>>]) -> Option<(u32, u32)>
        ensures none { IfNone result ((b : ℕ) → get_or row.now b None ≡ None) }
        ensures positive { IfSome result (λ s. (0 < s.0) × (0 < s.1)) }
        ensures shape { (r c : ℕ) → ((b : ℕ) → IfSome (get_or row.now b None) (λ m. (m.rows ≡ r) × (m.cols ≡ c))) → IfSome result (λ s. (s.0 ≡ r) × (s.1 ≡ c)) }
    {
        for part in row {
            if let Some(m) = part {
                return Some((m.rows, m.cols));
            }
        }
        None
    }

    // The numbers of rows and columns of the first block.
    fn shape_of_blocks(parts: &[Vec<Option<Mat<S>>>]) -> (u32, u32)
        requires some { ((a b : ℕ) → part_at (map (λ row. row.items) parts.now) a b ≡ None) → ⊥ }
        ensures positive { (0 < result.0) × (0 < result.1) }
        ensures shape { (r c : ℕ) → ((a b : ℕ) → IfSome (part_at (map (λ row. row.items) parts.now) a b) (λ m. (m.rows ≡ r) × (m.cols ≡ c))) → (result.0 ≡ r) × (result.1 ≡ c) }
    {
        for row in parts {
            if let Some(shape) = Mat::shape_in_row(row.as_slice()) {
                return shape;
            }
        }
        unreachable!()
    }

    // The entry in row i and column j of a block.
    fn block_entry(
        alloc: Global,
        order: &Order,
        part: &Option<Mat<S>>,
        i: u32,
        j: u32,
    ) -> Result<S, Memory>
        requires admitted { S.admits order.now.n }
        requires row { IfSome part.now (λ m. i < m.rows) }
        requires column { IfSome part.now (λ m. j < m.cols) }
        requires order { IfSome part.now (λ m. first_order S.order_of m.entries.items ≡ order.now.n) }
        ensures order { IfOk result (λ x. S.order_of x ≡ order.now.n) }
        ensures entry { let n = order.now.n in (r c : ℕ) → IfSome part.now (λ m. (m.rows ≡ r) × (m.cols ≡ c)) → IfOk result (λ x. IsEntry (block_of (λ m. matrix_of S.value n r c m.entries.items) part.now) i j (S.value n x)) }
    {
        match part {
            Some(m) => m.at(i, j).copy(alloc),
            None => S::zero(alloc, order),
        }
    }
}
