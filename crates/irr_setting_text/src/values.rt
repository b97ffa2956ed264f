// The values of fractions over their least common denominator.
ghost use Rattle.std.specs.Prelude.{ℕ, pos, ◌≡◌, ◌<◌, ◌≤◌, ◌*◌, ◌*ℤ◌, IfSome, IsNone, unsigned_abs};
ghost use Rattle.std.specs.Int.{◌∣◌};
ghost use Rattle.irr_rational.specs.Rational.{ratio};
ghost use Rattle.irr_seitz.specs.OperationMeaning.{AreWithin as AreNumbersWithin};
ghost use Rattle.irr_token.specs.Reading.{written_quotient, HasDigits};
ghost use Rattle.irr_token.specs.Fault.{AreNotZero, AreWithin, denominators};
ghost use Rattle.irr_setting_text.specs.SettingFault.{numbers_within, line_denominators, line_numbers};
ghost use Rattle.irr_setting_text.specs.LineReading.{written_row, RowHasDigits, IsSmallFraction, IsFractionOf, AreFractionsOf, AreSmall, Divide, DivideAll, AreNumerators, IsLeast};

use crate::row::Row;
use irr_rat::{Fraction, Vec3, lcm_checked};
use irr_token::{Quotient, value_of_quotient};

// Three fractions in lowest terms.
#[derive(Clone, Copy)]
pub(crate) struct Fractions {
    pub(crate) x: Fraction,
    pub(crate) y: Fraction,
    pub(crate) z: Fraction,
}

fn fraction_of(quotient: &Quotient<'_>, limit: u64) -> Fraction
    requires digits { HasDigits quotient.now }
    requires not_zero { AreNotZero (denominators (written_quotient quotient.now)) }
    requires within { AreWithin (numbers_within limit (written_quotient quotient.now)) }
    requires limit { (0 < limit) × (limit ≤ 1000) }
    ensures { IsFractionOf limit result (written_quotient quotient.now) }
{
    let value = value_of_quotient(quotient, limit);
    Fraction::new(value.num, value.den)
}

// The fractions of a row in lowest terms.
pub(crate) fn fractions_of(row: &Row<'_>, limit: u64) -> Fractions
    requires digits { RowHasDigits row.now }
    requires not_zero { AreNotZero (line_denominators (written_row row.now)) }
    requires within { AreWithin (line_numbers limit (written_row row.now)) }
    requires limit { (0 < limit) × (limit ≤ 1000) }
    ensures { AreFractionsOf limit result row.now }
{
    Fractions {
        x: fraction_of(&row.x, limit),
        y: fraction_of(&row.y, limit),
        z: fraction_of(&row.z, limit),
    }
}

// The least common multiple, where it is within a limit.
fn common_multiple(a: u64, b: u64, limit: u64) -> Option<u64>
    requires positive { 0 < a }
    requires other_positive { 0 < b }
    ensures least { IfSome result (λ m. IsLeast (λ k. (a ∣ k) × (b ∣ k)) m) }
    ensures within { IfSome result (λ m. m ≤ limit) }
    ensures none { IsNone result → (k : ℕ) → 0 < k → a ∣ k → b ∣ k → limit < k }
{
    let multiple = lcm_checked(a, b)?;
    if multiple > limit {
        return None;
    }
    Some(multiple)
}

impl Fractions {
    ghost use Rattle.std.specs.Prelude.{ℕ, ◌≡◌, ◌<◌, ◌≤◌, ◌*◌, IfSome, IsNone};

    // The least common denominator, where it is within a limit.
    pub(crate) fn denominator(&self, limit: u64) -> Option<u64>
        requires { (0 < self.now.x.den) × (0 < self.now.y.den) × (0 < self.now.z.den) }
        ensures least { IfSome result (λ m. IsLeast (Divide self.now) m) }
        ensures within { IfSome result (λ m. m ≤ limit) }
        ensures none { IsNone result → (k : ℕ) → 0 < k → Divide self.now k → limit < k }
    {
        let both = common_multiple(self.x.den, self.y.den, limit)?;
        let all = common_multiple(both, self.z.den, limit)?;
        Some(all)
    }

    // The numerators over a common denominator.
    pub(crate) fn numerators(&self, den: u64) -> [i64; 3]
        requires positive { 0 < den }
        requires small { den ≤ 1000 }
        requires divide { Divide self.now den }
        requires fractions { AreSmall 1000 self.now }
        ensures values { AreNumerators self.now result den }
        ensures small { (m : ℕ) → unsigned_abs self.now.x.num ≤ m → unsigned_abs self.now.y.num ≤ m → unsigned_abs self.now.z.num ≤ m
            → AreNumbersWithin (m * den) result }
    {
        [
            numerator_over(self.x, den),
            numerator_over(self.y, den),
            numerator_over(self.z, den),
        ]
    }

    // The vector whose components the fractions are.
    pub(crate) fn vector(&self, den: u64) -> Vec3
        requires small { den ≤ 1000 }
        requires least { IsLeast (Divide self.now) den }
        requires fractions { AreSmall 1000 self.now }
        ensures denominator { result.den ≡ den }
        ensures numerators { AreNumerators self.now result.num den }
        ensures near { AreNumbersWithin (1000 * den) result.num }
    {
        let num = self.numerators(den);
        Vec3 {
            num,
            den: den as u32,
        }
    }
}

// The least common denominator of three rows, where it is within a limit.
pub(crate) fn denominator_of_rows(
    first: &Fractions,
    second: &Fractions,
    third: &Fractions,
    limit: u64,
) -> Option<u64>
    requires first { (0 < first.now.x.den) × (0 < first.now.y.den) × (0 < first.now.z.den) }
    requires second { (0 < second.now.x.den) × (0 < second.now.y.den) × (0 < second.now.z.den) }
    requires third { (0 < third.now.x.den) × (0 < third.now.y.den) × (0 < third.now.z.den) }
    ensures least { IfSome result (λ m. IsLeast (DivideAll first.now second.now third.now) m) }
    ensures within { IfSome result (λ m. m ≤ limit) }
    ensures none { IsNone result → (k : ℕ) → 0 < k → DivideAll first.now second.now third.now k → limit < k }
{
    let x = first.denominator(limit)?;
    let y = second.denominator(limit)?;
    let z = third.denominator(limit)?;
    let both = common_multiple(x, y, limit)?;
    let all = common_multiple(both, z, limit)?;
    Some(all)
}

// The numerator of a fraction over a multiple of its denominator.
fn numerator_over(fraction: Fraction, den: u64) -> i64
    requires positive { 0 < den }
    requires small { den ≤ 1000 }
    requires divides { fraction.den ∣ den }
    requires fraction { IsSmallFraction 1000 fraction }
    ensures value { ratio result den ≡ ratio fraction.num fraction.den }
    ensures small { (m : ℕ) → unsigned_abs fraction.num ≤ m → unsigned_abs result ≤ m * den }
{
    let factor = den / fraction.den;
    multiple(fraction.num, factor)
}

fn multiple(num: i128, factor: u64) -> i64
    requires num { unsigned_abs num ≤ 1000 }
    requires factor { factor ≤ 1000 }
    ensures value { result ≡ pos factor *ℤ num }
{
    product(num as i64, factor as i64)
}

fn product(num: i64, factor: i64) -> i64
    requires num { unsigned_abs num ≤ 1000 }
    requires factor { unsigned_abs factor ≤ 1000 }
    ensures { result ≡ factor *ℤ num }
{
    factor * num
}
