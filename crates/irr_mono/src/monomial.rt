//! Monomial matrices by the rows and the exponents of their columns.
ghost use Rattle.std.specs.Prelude.{ℕ, ◌≡◌, ◌<◌, List, length, slice_index, MatchOption, IfOk};
ghost use Rattle.irr_algebra.specs.Matrix.{◌·◌, scale};
ghost use Rattle.irr_number.specs.Number.{numbers, root_power};
ghost use Rattle.irr_mat.specs.Entries.{first_order, IsEntry, matrix_of};
ghost use Rattle.irr_mono.specs.Monomial.{AreRules, IsMonomial, PowersFit, monomial};

use crate::columns::power_in_column;
use irr_cyc::{Order, Scalar};
use irr_mat::Mat;
use irr_memory::Memory;
use std::alloc::Global;

/// A square matrix with one power of z in each row and in each column: column c has z^exp[c] in row place[c], and zero
/// elsewhere. The order of z is told to each call.
#[derive(Debug, Drop)]
pub struct Mono {
    pub place: Vec<u32>,
    pub exp: Vec<u32>,
}

impl Mono {
    /// The product of two matrices with equally many columns, this one on the left: no product of numbers is needed. The
    /// error is want of memory.
    pub fn mul(&self, alloc: Global, other: &Mono, order: &Order) -> Result<Mono, Memory>
        requires left { AreRules order.now.n self.now.place.items self.now.exp.items }
        requires right { AreRules order.now.n other.now.place.items other.now.exp.items }
        requires columns { length other.now.place.items ≡ length self.now.place.items }
        ensures rules { IfOk result (λ m. AreRules order.now.n m.place.items m.exp.items) }
        ensures columns { IfOk result (λ m. length m.place.items ≡ length self.now.place.items) }
        ensures value { let n = length self.now.place.items in IfOk result (λ m.
            monomial order.now.n n m.place.items m.exp.items
            ≡ monomial order.now.n n self.now.place.items self.now.exp.items
            · monomial order.now.n n other.now.place.items other.now.exp.items) }
    {
        let mut place = Vec::new(alloc);
        let mut exp = Vec::new(alloc);
        for column in 0..other.place.len() {
            let middle = other.place[column] as usize;
            let exponent = (self.exp[middle] + other.exp[column]) % order.n();
            place.push(self.place[middle])?;
            exp.push(exponent)?;
        }
        Ok(Mono { place, exp })
    }

    /// The matrix times z^e, for e below the order: no product of numbers is needed. The error is want of memory.
    pub fn times_power(&self, alloc: Global, order: &Order, e: u32) -> Result<Mono, Memory>
        requires rules { AreRules order.now.n self.now.place.items self.now.exp.items }
        requires exponent { e < order.now.n }
        ensures rules { IfOk result (λ m. AreRules order.now.n m.place.items m.exp.items) }
        ensures columns { IfOk result (λ m. length m.place.items ≡ length self.now.place.items) }
        ensures value { let n = length self.now.place.items in IfOk result (λ m.
            monomial order.now.n n m.place.items m.exp.items
            ≡ scale (numbers order.now.n) (root_power order.now.n e) (monomial order.now.n n self.now.place.items self.now.exp.items)) }
    {
        let mut place = Vec::new(alloc);
        let mut exp = Vec::new(alloc);
        for column in 0..self.place.len() {
            let exponent = (self.exp[column] + e) % order.n();
            place.push(self.place[column])?;
            exp.push(exponent)?;
        }
        Ok(Mono { place, exp })
    }

    // The entry in row i and column j, as a number.
    fn entry<S: Scalar>(&self, alloc: Global, order: &Order, i: u32, j: u32) -> Result<S, Memory>
        requires admitted { S.admits order.now.n }
        requires rules { AreRules order.now.n self.now.place.items self.now.exp.items }
        requires row { i < length self.now.place.items }
        requires column { j < length self.now.place.items }
        ensures order { IfOk result (λ x. S.order_of x ≡ order.now.n) }
        ensures entry { let n = length self.now.place.items in IfOk result (λ x.
            IsEntry (monomial order.now.n n self.now.place.items self.now.exp.items) i j (S.value order.now.n x)) }
    {
        if self.place[j as usize] == i {
            let power = S::root(alloc, order, self.exp[j as usize])?;
            return Ok(power);
        }
        let none = S::zero(alloc, order)?;
        Ok(none)
    }

    /// The matrix of numbers of this order. The error is want of memory.
    pub fn to_mat<S: Scalar>(&self, alloc: Global, order: &Order) -> Result<Mat<S>, Memory>
        requires admitted { S.admits order.now.n }
        requires rules { AreRules order.now.n self.now.place.items self.now.exp.items }
        ensures rows { IfOk result (λ m. m.rows ≡ length self.now.place.items) }
        ensures cols { IfOk result (λ m. m.cols ≡ length self.now.place.items) }
        ensures order { IfOk result (λ m. first_order S.order_of m.entries.items ≡ order.now.n) }
        ensures value { let n = length self.now.place.items in IfOk result (λ m.
            matrix_of S.value order.now.n n n m.entries.items
            ≡ monomial order.now.n n self.now.place.items self.now.exp.items) }
    {
        let size = self.place.len() as u32;
        let mut entries = Vec::new(alloc);
        for i in 0..size {
            for j in 0..size {
                let entry: S = self.entry(alloc, order, i, j)?;
                entries.push(entry)?;
            }
        }
        Ok(Mat::from_entries(size, size, entries))
    }

    /// The rows and the exponents of a matrix: `None` exactly where it is not monomial. The error is want of memory.
    pub fn from_mat<S: Scalar>(alloc: Global, m: &Mat<S>) -> Result<Option<Mono>, Memory>
        requires { let n = first_order S.order_of m.now.entries.items in
            PowersFit n (matrix_of S.value n m.now.rows m.now.cols m.now.entries.items) }
        ensures { let n = first_order S.order_of m.now.entries.items in
            let a = matrix_of S.value n m.now.rows m.now.cols m.now.entries.items in IfOk result (λ mono. MatchOption mono
            ((place exp : List ℕ) → IsMonomial n a place exp → ⊥)
            (λ found. IsMonomial n a found.place.items found.exp.items)) }
    {
        if m.rows() != m.cols() {
            return Ok(None);
        }
        let order = Order::new(alloc, m.at(0, 0).order())?;
        let mut place = Vec::new(alloc);
        let mut exp = Vec::new(alloc);
        for column in 0..m.cols() {
            let Some((row, exponent)) = power_in_column(alloc, &order, m, column)? else {
                return Ok(None);
            };
            if place.contains(&row) {
                return Ok(None);
            }
            place.push(row)?;
            exp.push(exponent)?;
        }
        Ok(Some(Mono { place, exp }))
    }
}
