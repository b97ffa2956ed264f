// Fractions over any type of signed whole numbers.
ghost use Rattle.std.specs.Prelude.{◌≡◌, ◌≢◌, ◌+ℤ◌, ◌-ℤ◌, ◌*ℤ◌, ◌≤ℤ◌, ◌<ℤ◌, pos, unsigned_abs};
ghost use Rattle.std.specs.Int.{IsGcd};
ghost use Rattle.std.specs.Ordering.{MatchOrdering};
ghost use Rattle.irr_rational.specs.Rational.{rationals};
ghost use Rattle.irr_rational.specs.Order.{◌<ℚ◌, IsFloor};
ghost use Rattle.irr_rat.specs.RatioMeaning.{fraction, IsReduced, HasNegative};

use num_traits::{Euclid, PrimInt, Signed};
use std::cmp::Ordering;

/// A fraction in lowest terms with a positive denominator.
#[derive(Drop)]
pub struct Ratio<I: PrimInt + Signed + Euclid> {
    pub num: I,
    pub den: I,
    pub ghost reduced: { IsReduced (I.value num) (I.value den) },
}

// The greatest common divisor of two numbers from 0 up.
fn common_divisor<I: PrimInt + Signed + Euclid>(a: I, b: I) -> I
    requires a { I.fits (I.value a) }
    requires b { I.fits (I.value b) }
    requires a_sign { pos 0 ≤ℤ I.value a }
    requires b_sign { pos 0 ≤ℤ I.value b }
    ensures greatest { IsGcd (unsigned_abs (I.value a)) (unsigned_abs (I.value b)) (unsigned_abs (I.value result)) }
    ensures sign { pos 0 ≤ℤ I.value result }
    ensures fits { I.fits (I.value result) }
{
    let mut x = a;
    let mut y = b;
    'steps: while !y.is_zero() {
        let rest = x % y;
        x = y;
        y = rest;
    }
    x
}

impl<I: PrimInt + Signed + Euclid> Ratio<I> {
    /// The fraction num/den in lowest terms.
    pub fn new(num: I, den: I) -> Self
        requires nonzero { I.value den ≢ pos 0 }
        requires num { HasNegative I.fits (I.value num) }
        requires den { HasNegative I.fits (I.value den) }
        ensures { fraction (I.value result.num) (I.value result.den) ≡ fraction (I.value num) (I.value den) }
    {
        if den.is_negative() {
            Ratio::lowest(-num, -den)
        } else {
            Ratio::lowest(num, den)
        }
    }

    /// The sum.
    pub fn add(&self, other: &Self) -> Self
        requires left { HasNegative I.fits (I.value self.now.num *ℤ I.value other.now.den) }
        requires right { HasNegative I.fits (I.value other.now.num *ℤ I.value self.now.den) }
        requires sum { HasNegative I.fits ((I.value self.now.num *ℤ I.value other.now.den) +ℤ (I.value other.now.num *ℤ I.value self.now.den)) }
        requires denominator { HasNegative I.fits (I.value self.now.den *ℤ I.value other.now.den) }
        ensures { fraction (I.value result.num) (I.value result.den)
            ≡ rationals.add (fraction (I.value self.now.num) (I.value self.now.den)) (fraction (I.value other.now.num) (I.value other.now.den)) }
    {
        Ratio::lowest(
            self.num * other.den + other.num * self.den,
            self.den * other.den,
        )
    }

    /// The difference.
    pub fn sub(&self, other: &Self) -> Self
        requires left { HasNegative I.fits (I.value self.now.num *ℤ I.value other.now.den) }
        requires right { HasNegative I.fits (I.value other.now.num *ℤ I.value self.now.den) }
        requires difference { HasNegative I.fits ((I.value self.now.num *ℤ I.value other.now.den) -ℤ (I.value other.now.num *ℤ I.value self.now.den)) }
        requires denominator { HasNegative I.fits (I.value self.now.den *ℤ I.value other.now.den) }
        ensures { fraction (I.value result.num) (I.value result.den)
            ≡ rationals.add (fraction (I.value self.now.num) (I.value self.now.den)) (rationals.neg (fraction (I.value other.now.num) (I.value other.now.den))) }
    {
        Ratio::lowest(
            self.num * other.den - other.num * self.den,
            self.den * other.den,
        )
    }

    /// The product.
    pub fn mul(&self, other: &Self) -> Self
        requires numerator { HasNegative I.fits (I.value self.now.num *ℤ I.value other.now.num) }
        requires denominator { HasNegative I.fits (I.value self.now.den *ℤ I.value other.now.den) }
        ensures { fraction (I.value result.num) (I.value result.den)
            ≡ rationals.mul (fraction (I.value self.now.num) (I.value self.now.den)) (fraction (I.value other.now.num) (I.value other.now.den)) }
    {
        Ratio::lowest(self.num * other.num, self.den * other.den)
    }

    /// The order by value.
    pub fn cmp(&self, other: &Self) -> Ordering
        requires left { HasNegative I.fits (I.value self.now.num *ℤ I.value other.now.den) }
        requires right { HasNegative I.fits (I.value other.now.num *ℤ I.value self.now.den) }
        ensures { MatchOrdering result
            (fraction (I.value self.now.num) (I.value self.now.den) <ℚ fraction (I.value other.now.num) (I.value other.now.den))
            (fraction (I.value self.now.num) (I.value self.now.den) ≡ fraction (I.value other.now.num) (I.value other.now.den))
            (fraction (I.value other.now.num) (I.value other.now.den) <ℚ fraction (I.value self.now.num) (I.value self.now.den)) }
    {
        (self.num * other.den).cmp(&(other.num * self.den))
    }

    /// The greatest whole number that is not above the fraction.
    pub fn floor(&self) -> I
        requires num { HasNegative I.fits (I.value self.now.num) }
        requires den { HasNegative I.fits (I.value self.now.den) }
        ensures { IsFloor (fraction (I.value self.now.num) (I.value self.now.den)) (I.value result) }
    {
        self.num.div_euclid(&self.den)
    }

    // The fraction num/den in lowest terms, for a positive denominator.
    fn lowest(num: I, den: I) -> Self
        requires positive { pos 0 <ℤ I.value den }
        requires num { HasNegative I.fits (I.value num) }
        requires den { HasNegative I.fits (I.value den) }
        ensures { fraction (I.value result.num) (I.value result.den) ≡ fraction (I.value num) (I.value den) }
    {
        let divisor = common_divisor(num.abs(), den);
        Ratio {
            num: num / divisor,
            den: den / divisor,
        }
    }
}
