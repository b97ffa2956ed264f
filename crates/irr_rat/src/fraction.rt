// Fractions in lowest terms, as they print.
ghost use Rattle.std.specs.Prelude.{◌≡◌, ◌<◌, Some, pos, unsigned_abs};
ghost use Rattle.std.specs.Int.{IsGcd};
ghost use Rattle.std.specs.Int.RustNames.{int_div};
ghost use Rattle.irr_rational.specs.Rational.{ratio};
ghost use Rattle.irr_rational.specs.Ratio.{IsLowest};
ghost use Rattle.irr_text.specs.NumberText.{fraction_text};

use crate::divisors::gcd;
use std::fmt;

/// A fraction of one component, as it prints.
#[derive(Clone, Copy, Debug)]
pub struct Fraction {
    pub num: i128,
    pub den: u64,
}

impl Fraction {
    /// num/den in lowest terms.
    pub fn new(num: i64, den: u32) -> Fraction
        requires { 0 < den }
        ensures lowest { IsLowest result.num result.den }
        ensures same { ratio result.num result.den ≡ ratio num den }
    {
        let divisor = divisor(num, den);
        Fraction {
            num: quotient(i128::from(num), divisor),
            den: u64::from(den) / divisor,
        }
    }
}

fn divisor(num: i64, den: u32) -> u64
    requires { 0 < den }
    ensures greatest { IsGcd (unsigned_abs num) den result }
    ensures positive { 0 < result }
{
    gcd(num.unsigned_abs(), u64::from(den))
}

fn quotient(number: i128, divisor: u64) -> i128
    requires { 0 < divisor }
    ensures { result ≡ int_div number (pos divisor) }
{
    number / divisor as i128
}

/// a, or a/b where b is not 1.
impl fmt::Display for Fraction {
    ghost output = { λ q. Some (fraction_text q.num q.den) };

    fn fmt<W: fmt::Write>(&self, f: &mut fmt::Formatter<W>) -> fmt::Result {
        let num = self.num;
        let den = self.den;
        if den == 1 {
            write!(f, "{num}")
        } else {
            write!(f, "{num}/{den}")
        }
    }
}
