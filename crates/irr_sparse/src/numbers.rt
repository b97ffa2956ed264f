//! Numbers that keep only their terms.
ghost use Rattle.std.specs.Prelude.{ℕ, ℤ, pos, ◌≡◌, ◌*◌, ◌^◌, ◌<◌, ◌≤◌, length, IfOk};
ghost use Rattle.irr_cyc.specs.declared.orders.TheConstants.{ORDER_LIMIT};
ghost use Rattle.irr_sparse.specs.TermList.{AreTerms, AreTerms-prop, IsLowest};
ghost use Rattle.irr_sparse.specs.Value.{value_of};

use crate::combinations::{collected, combination, copied, moved, power, product, scaled};
use crate::lowest::to_lowest_terms;
use crate::terms::{Terms, are_same};
use irr_cyc::{Canon, Lift, Memory, ORDER_LIMIT, Order, Scalar};
use std::alloc::Global;

/// A number as its terms (j, c) for c z^j over one denominator: the canonical form, with the exponents of the basis
/// in increasing order, coefficients that are not 0, and in lowest terms. So 0 and multiples of one
/// power take no memory.
#[derive(Drop)]
pub struct Sparse {
    n: u32,
    den: u64,
    terms: Terms,
    pub ghost some: { 0 < n },
    pub ghost few: { n ≤ ORDER_LIMIT },
    pub ghost positive: { 0 < den },
    pub ghost canonical: { AreTerms n 0 terms.items } by { AreTerms-prop n 0 terms.items },
    pub ghost lowest: { IsLowest terms.items den },
}

impl Sparse {
    // The number of terms in the basis, over a denominator.
    fn of_terms(n: u32, mut terms: Terms, den: u64) -> Sparse
        requires some { 0 < n }
        requires few { n ≤ ORDER_LIMIT }
        requires positive { 0 < den }
        requires terms { AreTerms n 0 terms.items }
        ensures order { result.n ≡ n }
        ensures value { value_of n result.terms.items result.den ≡ value_of n terms.items den }
    {
        let den = to_lowest_terms(terms.as_mut_slice(), den);
        Sparse { n, den, terms }
    }
}

impl Scalar for Sparse {
    ghost order_of = { λ x. x.n };

    ghost value = { λ n x. value_of n x.terms.items x.den };

    ghost admits = { λ n. (0 < n) × (n ≤ ORDER_LIMIT) };

    /// No memory is needed.
    fn zero(alloc: Global, order: &Order) -> Result<Sparse, Memory> {
        Ok(Sparse {
            n: order.n(),
            den: 1,
            terms: Terms::new(alloc),
        })
    }

    fn one(alloc: Global, order: &Order) -> Result<Sparse, Memory> {
        let one = Sparse::root(alloc, order, 0)?;
        Ok(one)
    }

    /// The terms of one power.
    fn root(alloc: Global, order: &Order, j: u32) -> Result<Sparse, Memory> {
        let terms = power(alloc, order.n(), j)?;
        Ok(Sparse::of_terms(order.n(), terms, 1))
    }

    /// The terms of one power for each.
    fn from_terms(
        alloc: Global,
        order: &Order,
        den: u64,
        terms: &[(u32, i64)],
    ) -> Result<Sparse, Memory> {
        let sums = collected(alloc, order.n(), terms)?;
        Ok(Sparse::of_terms(order.n(), sums, den))
    }

    fn order(&self) -> u32 {
        self.n
    }

    /// As many steps as terms, and searches by halves; one allocation that mostly suffices, and none where one number
    /// is 0 and the other has one term, or where they have one term each, of one power.
    fn add(&self, alloc: Global, other: &Sparse) -> Result<Sparse, Memory> {
        if other.terms.is_empty() {
            let same = self.copy(alloc)?;
            return Ok(same);
        }
        if self.terms.is_empty() {
            let same = other.copy(alloc)?;
            return Ok(same);
        }
        if self.den == other.den {
            let sums = combination(alloc, self.terms.as_slice(), 1, other.terms.as_slice(), 1)?;
            return Ok(Sparse::of_terms(self.n, sums, self.den));
        }
        let sums = combination(
            alloc,
            self.terms.as_slice(),
            i128::from(other.den),
            other.terms.as_slice(),
            i128::from(self.den),
        )?;
        Ok(Sparse::of_terms(self.n, sums, self.den * other.den))
    }

    /// As `add`.
    fn sub(&self, alloc: Global, other: &Sparse) -> Result<Sparse, Memory> {
        if other.terms.is_empty() {
            let same = self.copy(alloc)?;
            return Ok(same);
        }
        if self.den == other.den {
            let differences = combination(
                alloc,
                self.terms.as_slice(),
                1,
                other.terms.as_slice(),
                -1,
            )?;
            return Ok(Sparse::of_terms(self.n, differences, self.den));
        }
        let differences = combination(
            alloc,
            self.terms.as_slice(),
            i128::from(other.den),
            other.terms.as_slice(),
            -i128::from(self.den),
        )?;
        Ok(Sparse::of_terms(self.n, differences, self.den * other.den))
    }

    /// The terms of one power for each pair of terms.
    fn mul(&self, alloc: Global, other: &Sparse) -> Result<Sparse, Memory> {
        let products = product(alloc, self.n, self.terms.as_slice(), other.terms.as_slice())?;
        Ok(Sparse::of_terms(self.n, products, self.den * other.den))
    }

    /// As many steps as terms.
    fn scale(&self, alloc: Global, num: i64, den: u64) -> Result<Sparse, Memory> {
        if num == 0 {
            return Ok(Sparse {
                n: self.n,
                den: 1,
                terms: Terms::new(alloc),
            });
        }
        let products = scaled(alloc, self.terms.as_slice(), i128::from(num))?;
        Ok(Sparse::of_terms(self.n, products, self.den * den))
    }

    /// At most one allocation, and none for one term.
    fn copy(&self, alloc: Global) -> Result<Sparse, Memory> {
        let terms = copied(alloc, self.terms.as_slice())?;
        Ok(Sparse {
            n: self.n,
            den: self.den,
            terms,
        })
    }

    /// One test.
    fn is_zero(&self) -> bool {
        self.terms.is_empty()
    }

    /// At most as many steps as terms, and no memory.
    fn equal(&self, other: &Sparse) -> bool {
        if self.den != other.den {
            return false;
        }
        are_same(self.terms.as_slice(), other.terms.as_slice())
    }

    /// One allocation.
    fn canonical(&self, alloc: Global) -> Result<Canon, Memory> {
        let terms = Vec::from_slice(alloc, self.terms.as_slice())?;
        Ok(Canon {
            den: self.den,
            terms,
        })
    }

    ghost order_admitted = { λ x. (x.some, x.few) };

    ghost admitted_positive = { λ n h. h.0 };

    ghost admitted_limited = { λ n h. h.1 };
}

impl Lift for Sparse {
    /// The terms of one power for each.
    fn lift(&self, alloc: Global, order: &Order) -> Result<Sparse, Memory> {
        let n = order.n();
        let terms = moved(alloc, n, n / self.n, self.terms.as_slice())?;
        Ok(Sparse::of_terms(n, terms, self.den))
    }

    ghost admits_each = { λ n p l. (p, l) };
}

#[cfg(test)]
mod tests {
    use super::*;
    use std::test::Fail;

    // The terms of a power of order n: the remainders modulo the cyclotomic polynomials.
    fn terms_are<S: Scalar>(
        alloc: Global,
        x: &S,
        den: u64,
        terms: &[(u32, i128)],
    ) -> Result<bool, Fail> {
        let canonical = x.canonical(alloc)?;
        if canonical.den != den {
            return Ok(false);
        }
        Ok(canonical.terms.as_slice() == terms)
    }

    fn power_is<S: Scalar>(
        alloc: Global,
        order: &Order,
        j: u32,
        terms: &[(u32, i128)],
    ) -> Result<bool, Fail>
        requires admitted { S.admits order.now.n }
        requires exponent { j < order.now.n }
    {
        let power = S::root(alloc, order, j)?;
        terms_are(alloc, &power, 1, terms)
    }

    #[test]
    fn powers_in_the_basis(rt: HostRuntime) -> Result<(), Fail> {
        let three = Order::new(rt.alloc(), 3)?;
        assert!(rt; power_is::<Sparse>(rt.alloc(), &three, 2, &[(0, -1), (1, -1)])?);
        let four = Order::new(rt.alloc(), 4)?;
        assert!(rt; power_is::<Sparse>(rt.alloc(), &four, 3, &[(1, -1)])?);
        let nine = Order::new(rt.alloc(), 9)?;
        assert!(rt; power_is::<Sparse>(rt.alloc(), &nine, 8, &[(2, -1), (5, -1)])?);
        let twelve = Order::new(rt.alloc(), 12)?;
        assert!(rt; power_is::<Sparse>(rt.alloc(), &twelve, 2, &[(0, 1), (4, 1)])?);
        let sixty = Order::new(rt.alloc(), 60)?;
        let eight = [
            (1, -1),
            (13, -1),
            (21, -1),
            (25, -1),
            (33, -1),
            (37, -1),
            (45, -1),
            (57, -1),
        ];
        assert!(rt; power_is::<Sparse>(rt.alloc(), &sixty, 59, &eight)?);
        Ok(())
    }

    // Of order 12: z^2 is 1 + z^4, z^5 is -z - z^9 and z^7 is -z.
    #[test]
    fn operations_on_powers(rt: HostRuntime) -> Result<(), Fail> {
        let order = Order::new(rt.alloc(), 12)?;
        let multiple = Order::new(rt.alloc(), 60)?;
        let a = Sparse::root(rt.alloc(), &order, 2)?;
        let b = Sparse::root(rt.alloc(), &order, 5)?;
        assert!(rt; !a.equal(&b));
        assert!(rt;
            terms_are(
                rt.alloc(),
                &a.add(rt.alloc(), &b)?,
                1,
                &[(0, 1), (1, -1), (4, 1), (9, -1)]
            )?
        );
        assert!(rt;
            terms_are(
                rt.alloc(),
                &a.sub(rt.alloc(), &b)?,
                1,
                &[(0, 1), (1, 1), (4, 1), (9, 1)]
            )?
        );
        assert!(rt; terms_are(rt.alloc(), &a.mul(rt.alloc(), &b)?, 1, &[(1, -1)])?);
        assert!(rt;
            terms_are(
                rt.alloc(),
                &a.scale(rt.alloc(), 3, 6)?,
                2,
                &[(0, 1), (4, 1)]
            )?
        );
        assert!(rt; terms_are(rt.alloc(), &a.lift(rt.alloc(), &multiple)?, 1, &[(40, -1)])?);
        assert!(rt; a.sub(rt.alloc(), &a)?.is_zero());
        Ok(())
    }
}
