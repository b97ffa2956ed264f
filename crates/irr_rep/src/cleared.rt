// Families without denominators: their matrices times a common denominator of their entries.
ghost use Rattle.std.specs.Prelude.{ℕ, ◌≡◌, ◌<◌, ◌≤◌, ◌^◌, IfOk};
ghost use Rattle.std.specs.Int.{◌∣◌};
ghost use Rattle.irr_algebra.specs.Matrix.{Matrix, scale};
ghost use Rattle.irr_algebra.specs.Ring.{whole};
ghost use Rattle.irr_number.specs.Number.{numbers, root_power};
ghost use Rattle.irr_canonical.specs.RootSum.{IsRootSum};
ghost use Rattle.irr_mat.specs.Size.{IsWithin};
ghost use Rattle.irr_rep.specs.Defects.{AreMultiples, IsLimited, IsMatrix};

use crate::family::Family;
use irr_cyc::{Order, Scalar};
use irr_mat::Mat;
use irr_memory::Memory;
use std::alloc::Global;

// The least multiple of a number that leaves the multiple of an entry without a denominator.
fn clearing_entry<S: Scalar>(alloc: Global, x: &S, number: u32) -> Result<u32, Memory>
    requires { (d : ℕ) × (d ≤ 4096) × (number ∣ d) × IsRootSum (S.order_of x.now) (2 ^ 30) d (S.value (S.order_of x.now) x.now) }
    ensures { IfOk result (λ q. (d : ℕ) → number ∣ d → IsRootSum (S.order_of x.now) (2 ^ 30) d (S.value (S.order_of x.now) x.now) → q ∣ d) }
{
    let multiple = x.scale(alloc, i64::from(number), 1)?;
    let form = multiple.canonical(alloc)?;
    Ok(number * form.den as u32)
}

// The least multiple of a number that leaves the multiple of a matrix without denominators.
fn clearing_matrix<S: Scalar>(alloc: Global, m: &Mat<S>, number: u32) -> Result<u32, Memory>
    requires { (n : ℕ) × (r : ℕ) × (d : ℕ) × (a : Matrix (numbers n) r r) × IsMatrix n r a m.now × IsWithin n (2 ^ 30) d a × (d ≤ 4096) × (number ∣ d) }
    ensures { IfOk result (λ q. (n r d : ℕ) (a : Matrix (numbers n) r r) → IsMatrix n r a m.now → IsWithin n (2 ^ 30) d a → number ∣ d → q ∣ d) }
{
    let mut common = number;
    for i in 0..m.rows() {
        for j in 0..m.cols() {
            common = clearing_entry(alloc, m.at(i, j), common)?;
        }
    }
    Ok(common)
}

/// The least common denominator of the entries of a family.
pub(crate) fn common_denominator<S: Scalar>(alloc: Global, f: &Family<S>) -> Result<u32, Memory>
    requires { (n : ℕ) × (h : ℕ) × (d : ℕ) × IsLimited n h f.now.dim d f.now.mats.items }
    ensures { IfOk result (λ q. (n h d : ℕ) → IsLimited n h f.now.dim d f.now.mats.items → q ∣ d) }
{
    let mut common = 1;
    for m in f.mats.as_slice() {
        common = clearing_matrix(alloc, m, common)?;
    }
    Ok(common)
}

/// A number times the power z^e.
pub(crate) fn multiple_of_power<S: Scalar>(
    alloc: Global,
    order: &Order,
    number: u32,
    e: u32,
) -> Result<S, Memory>
    requires admitted { S.admits order.now.n }
    requires exponent { e < order.now.n }
    ensures order { IfOk result (λ x. S.order_of x ≡ order.now.n) }
    ensures value { let n = order.now.n in IfOk result (λ x. S.value n x ≡ (numbers n).mul (whole (numbers n) number) (root_power n e)) }
{
    S::from_terms(alloc, order, 1, &[(e, i64::from(number))])
}

// A number times a matrix.
fn multiple_of_matrix<S: Scalar>(alloc: Global, m: &Mat<S>, number: u32) -> Result<Mat<S>, Memory>
    requires { (n : ℕ) × (r : ℕ) × (d : ℕ) × (a : Matrix (numbers n) r r) × IsMatrix n r a m.now × IsWithin n (2 ^ 30) d a × (d ≤ 4096) × (number ∣ d) }
    ensures { IfOk result (λ x. (n r : ℕ) (a : Matrix (numbers n) r r) → IsMatrix n r a m.now
        → IsMatrix n r (scale (numbers n) (whole (numbers n) number) a) x) }
{
    let order = Order::new(alloc, m.at(0, 0).order())?;
    let factor = multiple_of_power(alloc, &order, number, 0)?;
    m.scale(alloc, &factor)
}

/// The matrices of a family, each times a number that divides a common denominator of their entries.
pub(crate) fn multiples<S: Scalar>(
    alloc: Global,
    f: &Family<S>,
    number: u32,
) -> Result<Vec<Mat<S>>, Memory>
    requires { (n : ℕ) × (h : ℕ) × (d : ℕ) × IsLimited n h f.now.dim d f.now.mats.items × (number ∣ d) }
    ensures { IfOk result (λ xs. (n h : ℕ) (d : ℕ) → IsLimited n h f.now.dim d f.now.mats.items
        → AreMultiples n h f.now.dim number f.now.mats.items xs.items) }
{
    let mut multiples = Vec::new(alloc);
    for m in f.mats.as_slice() {
        let multiple = multiple_of_matrix(alloc, m, number)?;
        multiples.push(multiple)?;
    }
    Ok(multiples)
}
