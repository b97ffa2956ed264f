//! The exact arithmetic of numbers of order N.
ghost use Rattle.std.specs.Prelude.{ℕ, ℤ, pos, ◌≡◌, ◌+◌, ◌*◌, ◌^◌, ◌<◌, ◌≤◌, ◌↔◌, All, sum_by, IfOk, IsTrue, IsFalse};
ghost use Rattle.std.specs.Int.{◌∣◌};
ghost use Rattle.std.specs.Int.RustNames.{unsigned_abs};
ghost use Rattle.irr_algebra.specs.Ring.{IsInvertible, whole};
ghost use Rattle.irr_number.specs.Lift.{lift_of};
ghost use Rattle.irr_number.specs.Number.{Number, numbers, root_power};
ghost use Rattle.irr_rational.specs.Integer.{integer};
ghost use Rattle.irr_canonical.specs.Coefficient.{canonical, denominator, size};
ghost use Rattle.irr_cyc.specs.declared.orders.TheConstants.{ORDER_LIMIT};
ghost use Rattle.irr_cyc.specs.Terms.{nonzero_terms, terms_sum};

use crate::orders::{ORDER_LIMIT, Order};
use irr_memory::Memory;
use std::alloc::Global;

/// The canonical form of a number: the exponents of the basis in increasing order, with coefficients that
/// are not zero, over their denominator, in lowest terms.
#[derive(Debug, Drop)]
pub struct Canon {
    pub den: u64,
    pub terms: Vec<(u32, i128)>,
}

/// A number of order N, with exact arithmetic. Each number stands for an element of Q(z), z a primitive
/// N-th root of 1 (`value`, read at the number's order). Calls that allocate may answer `Memory`.
///
/// Sizes and denominators are those of canonical forms: the sum of the absolute coefficients, and the
/// positive denominator.
pub trait Scalar: Sized + Drop {
    ghost order_of: { Self → ℕ };

    ghost value: { (n : ℕ) → Self → Number n };

    ghost admits: { ℕ → Type 0 };

    /// The number 0.
    fn zero(alloc: Global, order: &Order) -> Result<Self, Memory>
        requires admitted { admits order.now.n }
        ensures order { IfOk result (λ x. order_of x ≡ order.now.n) }
        ensures value { IfOk result (λ x. value order.now.n x ≡ (numbers order.now.n).zero) };

    /// The number 1.
    fn one(alloc: Global, order: &Order) -> Result<Self, Memory>
        requires admitted { admits order.now.n }
        ensures order { IfOk result (λ x. order_of x ≡ order.now.n) }
        ensures value { IfOk result (λ x. value order.now.n x ≡ (numbers order.now.n).one) };

    /// The power z^j, for j below the order.
    fn root(alloc: Global, order: &Order, j: u32) -> Result<Self, Memory>
        requires admitted { admits order.now.n }
        requires exponent { j < order.now.n }
        ensures order { IfOk result (λ x. order_of x ≡ order.now.n) }
        ensures value { IfOk result (λ x. value order.now.n x ≡ root_power order.now.n j) };

    /// The sum of c z^j for each term (j, c), over `den`.
    fn from_terms(
        alloc: Global,
        order: &Order,
        den: u64,
        terms: &[(u32, i64)],
    ) -> Result<Self, Memory>
        requires admitted { admits order.now.n }
        requires exponents { All (λ t. t.0 < order.now.n) terms.now }
        requires positive { 0 < den }
        requires denominator { den ≤ 2 ^ 60 }
        requires size { sum_by (λ t. unsigned_abs t.1) terms.now ≤ 2 ^ 100 }
        ensures order { IfOk result (λ x. order_of x ≡ order.now.n) }
        ensures value { IfOk result (λ x. let n = order.now.n in (numbers n).mul (whole (numbers n) den) (value n x) ≡ terms_sum n terms.now) };

    /// The order.
    fn order(&self) -> u32
        ensures { result ≡ order_of self.now };

    /// The sum of two numbers of one order.
    fn add(&self, alloc: Global, other: &Self) -> Result<Self, Memory>
        requires orders { order_of other.now ≡ order_of self.now }
        requires denominators { let n = order_of self.now in denominator n (value n self.now) * denominator n (value n other.now) ≤ 2 ^ 60 }
        requires sizes { let n = order_of self.now in size n (value n self.now) * denominator n (value n other.now) + size n (value n other.now) * denominator n (value n self.now) < 2 ^ 110 }
        ensures order { IfOk result (λ x. order_of x ≡ order_of self.now) }
        ensures value { IfOk result (λ x. let n = order_of self.now in value n x ≡ (numbers n).add (value n self.now) (value n other.now)) };

    /// The difference of two numbers of one order.
    fn sub(&self, alloc: Global, other: &Self) -> Result<Self, Memory>
        requires orders { order_of other.now ≡ order_of self.now }
        requires denominators { let n = order_of self.now in denominator n (value n self.now) * denominator n (value n other.now) ≤ 2 ^ 60 }
        requires sizes { let n = order_of self.now in size n (value n self.now) * denominator n (value n other.now) + size n (value n other.now) * denominator n (value n self.now) < 2 ^ 110 }
        ensures order { IfOk result (λ x. order_of x ≡ order_of self.now) }
        ensures value { IfOk result (λ x. let n = order_of self.now in value n x ≡ (numbers n).add (value n self.now) ((numbers n).neg (value n other.now))) };

    /// The product of two numbers of one order.
    fn mul(&self, alloc: Global, other: &Self) -> Result<Self, Memory>
        requires orders { order_of other.now ≡ order_of self.now }
        requires denominators { let n = order_of self.now in denominator n (value n self.now) * denominator n (value n other.now) ≤ 2 ^ 60 }
        requires sizes { let n = order_of self.now in size n (value n self.now) * size n (value n other.now) ≤ 2 ^ 100 }
        ensures order { IfOk result (λ x. order_of x ≡ order_of self.now) }
        ensures value { IfOk result (λ x. let n = order_of self.now in value n x ≡ (numbers n).mul (value n self.now) (value n other.now)) };

    /// The number times num/den.
    fn scale(&self, alloc: Global, num: i64, den: u64) -> Result<Self, Memory>
        requires positive { 0 < den }
        requires denominators { let n = order_of self.now in denominator n (value n self.now) * den ≤ 2 ^ 60 }
        requires sizes { let n = order_of self.now in size n (value n self.now) * unsigned_abs num ≤ 2 ^ 100 }
        ensures order { IfOk result (λ x. order_of x ≡ order_of self.now) }
        ensures value { IfOk result (λ x. let n = order_of self.now in (numbers n).mul (whole (numbers n) den) (value n x) ≡ (numbers n).mul (integer (numbers n) num) (value n self.now)) };

    /// The same number.
    fn copy(&self, alloc: Global) -> Result<Self, Memory>
        ensures order { IfOk result (λ x. order_of x ≡ order_of self.now) }
        ensures value { IfOk result (λ x. let n = order_of self.now in value n x ≡ value n self.now) };

    /// Whether the number is 0: false exactly where it has an inverse.
    fn is_zero(&self) -> bool
        ensures zero { let n = order_of self.now in IsTrue result ↔ (value n self.now ≡ (numbers n).zero) }
        ensures inverse { let n = order_of self.now in IsFalse result ↔ IsInvertible (numbers n) (value n self.now) };

    /// Whether two numbers of one order are equal.
    fn equal(&self, other: &Self) -> bool
        requires orders { order_of other.now ≡ order_of self.now }
        requires denominators { let n = order_of self.now in denominator n (value n self.now) * denominator n (value n other.now) ≤ 2 ^ 60 }
        requires sizes { let n = order_of self.now in size n (value n self.now) * denominator n (value n other.now) + size n (value n other.now) * denominator n (value n self.now) < 2 ^ 110 }
        ensures { let n = order_of self.now in IsTrue result ↔ (value n self.now ≡ value n other.now) };

    /// The canonical form.
    fn canonical(&self, alloc: Global) -> Result<Canon, Memory>
        ensures denominator { IfOk result (λ c. let n = order_of self.now in c.den ≡ denominator n (value n self.now)) }
        ensures terms { IfOk result (λ c. let n = order_of self.now in c.terms.items ≡ nonzero_terms n (canonical n (value n self.now)).num.at) };

    ghost order_admitted: { (x : Self) → admits (order_of x) };

    ghost admitted_positive: { (n : ℕ) → admits n → 0 < n };

    ghost admitted_limited: { (n : ℕ) → admits n → n ≤ ORDER_LIMIT };
}

/// Numbers that can be seen as numbers of a multiple of their order. They admit each order up to the limit.
pub trait Lift: Scalar {
    /// The number as one of an order that its order divides.
    fn lift(&self, alloc: Global, order: &Order) -> Result<Self, Memory>
        requires divides { Self.order_of self.now ∣ order.now.n }
        requires size { let n = Self.order_of self.now in size n (Self.value n self.now) ≤ 2 ^ 100 }
        ensures order { IfOk result (λ x. Self.order_of x ≡ order.now.n) }
        ensures value { IfOk result (λ x. let n = Self.order_of self.now in Self.value order.now.n x ≡ lift_of n order.now.n (Self.value n self.now)) };

    ghost admits_each: { (n : ℕ) → 0 < n → n ≤ ORDER_LIMIT → Self.admits n };
}
