// Three fractions over their least common denominator.
ghost use Rattle.std.specs.Prelude.{◌≡◌, ◌<◌, ℤ, List, pos, unsigned_abs};
ghost use Rattle.std.specs.Int.{IsGcd};
ghost use Rattle.std.specs.Int.RustNames.{int_div};
ghost use Rattle.irr_algebra.specs.Fin.{Fin};
ghost use Rattle.irr_rational.specs.Ratio.{ratios};
ghost use Rattle.irr_rat.specs.Lowest.{AreThreeLowest};

use crate::divisors::gcd;

fn common_divisor(number: i128, den: u64) -> u64
    requires { 0 < den }
    ensures greatest { IsGcd (unsigned_abs number) den result }
    ensures positive { 0 < result }
{
    if den == 1 {
        return 1;
    }
    gcd(den, (number.unsigned_abs() % den as u128) as u64)
}

fn quotient(number: i128, divisor: u64) -> i128
    requires { 0 < divisor }
    ensures { result ≡ int_div number (pos divisor) }
{
    number / divisor as i128
}

/// The same three fractions over their least common denominator.
pub fn lowest_terms(num: [i128; 3], den: u64) -> ([i128; 3], u64)
    requires { 0 < den }
    ensures lowest { AreThreeLowest result.0 result.1 }
    ensures same { (i : Fin 3) → ratios result.0 result.1 i ≡ ratios num den i }
{
    let [x, y, z] = num;
    let common = common_divisor(x, common_divisor(y, common_divisor(z, den)));
    if common == 1 {
        return (num, den);
    }
    (
        [
            quotient(x, common),
            quotient(y, common),
            quotient(z, common),
        ],
        den / common,
    )
}
