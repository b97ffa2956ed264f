//! Numbers that keep all their coefficients.
ghost use Rattle.std.specs.Prelude.{ℕ, ℤ, pos, ◌≡◌, ◌*◌, ◌^◌, ◌<◌, ◌≤◌, length, IfOk};
ghost use Rattle.std.specs.Int.RustNames.{unsigned_abs};
ghost use Rattle.irr_canonical.specs.Coefficient.{number_of};
ghost use Rattle.irr_canonical.specs.Reduction.{IsInBasis};
ghost use Rattle.irr_cyc.specs.declared.orders.TheConstants.{ORDER_LIMIT};
ghost use Rattle.irr_cyc.specs.Form.{IsForm, at};

use crate::lowest::to_lowest_terms;
use crate::orders::{ORDER_LIMIT, Order};
use crate::polynomials::{
    add_terms, are_same, are_zeros, combination, multiples, nonzero, product, stretched, zeros,
};
use crate::reduction::reduce;
use crate::scalars::{Canon, Lift, Scalar};
use irr_memory::Memory;
use std::alloc::Global;

/// A number as the list of its coefficients at 1, z, .., z^(N-1), over one denominator. The list is the
/// canonical form: coefficients in the basis, in lowest terms.
#[derive(Drop)]
pub struct Dense {
    den: u64,
    coefficients: Vec<i128>,
    pub ghost form: { IsForm coefficients.items den },
}

impl Dense {
    // The number of coefficients in the basis, over a denominator.
    fn in_basis(mut coefficients: Vec<i128>, den: u64) -> Dense
        requires some { 0 < length coefficients.items }
        requires few { length coefficients.items ≤ ORDER_LIMIT }
        requires positive { 0 < den }
        requires basis { IsInBasis (length coefficients.items) (at coefficients.items) }
        ensures order { length result.coefficients.items ≡ length coefficients.items }
        ensures value { let n = length coefficients.items in number_of n result.coefficients.items result.den ≡ number_of n coefficients.items den }
    {
        let den = to_lowest_terms(coefficients.as_mut_slice(), den);
        Dense { den, coefficients }
    }

    // The number of any coefficients, over a denominator.
    fn of_powers(mut coefficients: Vec<i128>, den: u64) -> Dense
        requires some { 0 < length coefficients.items }
        requires few { length coefficients.items ≤ ORDER_LIMIT }
        requires positive { 0 < den }
        requires small { (j : ℕ) → j < length coefficients.items → unsigned_abs (at coefficients.items j) ≤ 2 ^ 110 }
        ensures order { length result.coefficients.items ≡ length coefficients.items }
        ensures value { let n = length coefficients.items in number_of n result.coefficients.items result.den ≡ number_of n coefficients.items den }
    {
        reduce(coefficients.as_mut_slice());
        Dense::in_basis(coefficients, den)
    }
}

impl Scalar for Dense {
    ghost order_of = { λ x. length x.coefficients.items };

    ghost value = { λ n x. number_of n x.coefficients.items x.den };

    ghost admits = { λ n. (0 < n) × (n ≤ ORDER_LIMIT) };

    fn zero(alloc: Global, order: &Order) -> Result<Dense, Memory> {
        let coefficients = zeros(alloc, order.n() as usize)?;
        Ok(Dense {
            den: 1,
            coefficients,
        })
    }

    fn one(alloc: Global, order: &Order) -> Result<Dense, Memory> {
        Dense::root(alloc, order, 0)
    }

    fn root(alloc: Global, order: &Order, j: u32) -> Result<Dense, Memory> {
        let mut coefficients = zeros(alloc, order.n() as usize)?;
        coefficients[j as usize] = 1;
        Ok(Dense::of_powers(coefficients, 1))
    }

    fn from_terms(
        alloc: Global,
        order: &Order,
        den: u64,
        terms: &[(u32, i64)],
    ) -> Result<Dense, Memory> {
        let mut coefficients = zeros(alloc, order.n() as usize)?;
        add_terms(coefficients.as_mut_slice(), terms);
        Ok(Dense::of_powers(coefficients, den))
    }

    fn order(&self) -> u32 {
        self.coefficients.len() as u32
    }

    fn add(&self, alloc: Global, other: &Dense) -> Result<Dense, Memory> {
        if self.den == other.den {
            let sums = combination(
                alloc,
                self.coefficients.as_slice(),
                1,
                other.coefficients.as_slice(),
                1,
            )?;
            return Ok(Dense::in_basis(sums, self.den));
        }
        let sums = combination(
            alloc,
            self.coefficients.as_slice(),
            i128::from(other.den),
            other.coefficients.as_slice(),
            i128::from(self.den),
        )?;
        Ok(Dense::in_basis(sums, self.den * other.den))
    }

    fn sub(&self, alloc: Global, other: &Dense) -> Result<Dense, Memory> {
        if self.den == other.den {
            let differences = combination(
                alloc,
                self.coefficients.as_slice(),
                1,
                other.coefficients.as_slice(),
                -1,
            )?;
            return Ok(Dense::in_basis(differences, self.den));
        }
        let differences = combination(
            alloc,
            self.coefficients.as_slice(),
            i128::from(other.den),
            other.coefficients.as_slice(),
            -i128::from(self.den),
        )?;
        Ok(Dense::in_basis(differences, self.den * other.den))
    }

    fn mul(&self, alloc: Global, other: &Dense) -> Result<Dense, Memory> {
        let products = product(
            alloc,
            self.coefficients.as_slice(),
            other.coefficients.as_slice(),
        )?;
        Ok(Dense::of_powers(products, self.den * other.den))
    }

    fn scale(&self, alloc: Global, num: i64, den: u64) -> Result<Dense, Memory> {
        let products = multiples(alloc, self.coefficients.as_slice(), num)?;
        Ok(Dense::in_basis(products, self.den * den))
    }

    fn copy(&self, alloc: Global) -> Result<Dense, Memory> {
        let coefficients = Vec::from_slice(alloc, self.coefficients.as_slice())?;
        Ok(Dense {
            den: self.den,
            coefficients,
        })
    }

    fn is_zero(&self) -> bool {
        are_zeros(self.coefficients.as_slice())
    }

    fn equal(&self, other: &Dense) -> bool {
        if self.den != other.den {
            return false;
        }
        are_same(self.coefficients.as_slice(), other.coefficients.as_slice())
    }

    fn canonical(&self, alloc: Global) -> Result<Canon, Memory> {
        let terms = nonzero(alloc, self.coefficients.as_slice())?;
        Ok(Canon {
            den: self.den,
            terms,
        })
    }

    ghost order_admitted = { λ x. (x.form.some, x.form.few) };

    ghost admitted_positive = { λ n h. h.0 };

    ghost admitted_limited = { λ n h. h.1 };
}

impl Lift for Dense {
    fn lift(&self, alloc: Global, order: &Order) -> Result<Dense, Memory> {
        let count = order.n() as usize;
        let factor = count / self.coefficients.len();
        let moved = stretched(alloc, self.coefficients.as_slice(), factor, count)?;
        Ok(Dense::of_powers(moved, self.den))
    }

    ghost admits_each = { λ n p l. (p, l) };
}

#[cfg(test)]
mod tests {
    use super::*;
    use std::test::Fail;

    // The remainders modulo the cyclotomic polynomials say what each power is in the basis.
    #[test]
    fn powers_in_the_basis(rt: HostRuntime) -> Result<(), Fail> {
        let powers: [(u32, u32, &[(u32, i128)]); 11] = [
            (5, 4, &[(0, -1), (1, -1), (2, -1), (3, -1)]),
            (
                7,
                6,
                &[(0, -1), (1, -1), (2, -1), (3, -1), (4, -1), (5, -1)],
            ),
            (8, 5, &[(1, -1)]),
            (9, 8, &[(2, -1), (5, -1)]),
            (12, 2, &[(0, 1), (4, 1)]),
            (
                15,
                14,
                &[
                    (0, 1),
                    (1, 1),
                    (3, 1),
                    (6, 1),
                    (7, 1),
                    (10, 1),
                    (12, 1),
                    (13, 1),
                ],
            ),
            (30, 1, &[(16, -1)]),
            (
                60,
                59,
                &[
                    (1, -1),
                    (13, -1),
                    (21, -1),
                    (25, -1),
                    (33, -1),
                    (37, -1),
                    (45, -1),
                    (57, -1),
                ],
            ),
            (240, 127, &[(7, -1)]),
            (252, 247, &[(121, -1)]),
            (
                720,
                719,
                &[
                    (23, -1),
                    (167, -1),
                    (263, -1),
                    (311, -1),
                    (407, -1),
                    (455, -1),
                    (551, -1),
                    (695, -1),
                ],
            ),
        ];
        for (n, j, terms) in powers {
            assert!(rt; 0 < n && n <= ORDER_LIMIT && j < n);
            let order = Order::new(rt.alloc(), n)?;
            let power = Dense::root(rt.alloc(), &order, j)?;
            assert!(rt; !power.is_zero(), "at {n}");
            assert_eq!(rt; power.order(), n);
            let canonical = power.copy(rt.alloc())?.canonical(rt.alloc())?;
            assert_eq!(rt; canonical.den, 1, "at {n}");
            assert!(rt; canonical.terms.as_slice() == terms, "at {n}");
            let one = Dense::one(rt.alloc(), &order)?.canonical(rt.alloc())?;
            assert!(rt; one.terms.as_slice() == [(0, 1)].as_slice(), "at {n}");
            assert!(rt; Dense::zero(rt.alloc(), &order)?.is_zero(), "at {n}");
        }
        Ok(())
    }

    // Of order 12: z^2 is 1 + z^4, z^5 is -z - z^9 and z^7 is -z.
    #[test]
    fn operations_on_powers(rt: HostRuntime) -> Result<(), Fail> {
        let order = Order::new(rt.alloc(), 12)?;
        let multiple = Order::new(rt.alloc(), 60)?;
        let a = Dense::root(rt.alloc(), &order, 2)?;
        let b = Dense::root(rt.alloc(), &order, 5)?;
        assert!(rt; !a.equal(&b));
        let sum = a.add(rt.alloc(), &b)?.canonical(rt.alloc())?;
        assert!(rt; sum.terms.as_slice() == [(0, 1), (1, -1), (4, 1), (9, -1)].as_slice());
        let difference = a.sub(rt.alloc(), &b)?.canonical(rt.alloc())?;
        assert!(rt; difference.terms.as_slice() == [(0, 1), (1, 1), (4, 1), (9, 1)].as_slice());
        let product = a.mul(rt.alloc(), &b)?.canonical(rt.alloc())?;
        assert!(rt; product.terms.as_slice() == [(1, -1)].as_slice());
        let half = a.scale(rt.alloc(), 3, 6)?.canonical(rt.alloc())?;
        assert_eq!(rt; half.den, 2);
        assert!(rt; half.terms.as_slice() == [(0, 1), (4, 1)].as_slice());
        let lifted = a.lift(rt.alloc(), &multiple)?.canonical(rt.alloc())?;
        assert!(rt; lifted.terms.as_slice() == [(40, -1)].as_slice());
        Ok(())
    }
}
