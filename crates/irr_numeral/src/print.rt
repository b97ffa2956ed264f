// How a number is printed.
ghost use Rattle.std.specs.Prelude.{ℕ, ℤ, pos, ◌≡◌, ◌≢◌, ◌<◌, ◌++◌, IfOk, OnOk, Some};
ghost use Rattle.std.specs.Int.{IsGcd};
ghost use Rattle.std.specs.Int.RustNames.{int_div, unsigned_abs};
ghost use Rattle.irr_rational.specs.Rational.{ratio};
ghost use Rattle.irr_rational.specs.Ratio.{IsLowest};
ghost use Rattle.irr_text.specs.NumberText.{fraction_text, number_text, sum_text, term_text};
ghost use Rattle.irr_numeral.specs.PrintedTerm.{plus_text, printed_power};

use irr_cyc::Scalar;
use irr_memory::Memory;
use irr_rat::gcd;
use std::alloc::Global;
use std::fmt;

/// The printed form of a number: its terms in the basis with coefficients that are not zero, in increasing
/// exponent, each coefficient in lowest terms. A coefficient 1 is printed.
pub fn print_number<S: Scalar>(alloc: Global, x: &S) -> Result<Vec<u8>, Memory>
    ensures { IfOk result (λ text. let n = S.order_of x.now in text.items ≡ number_text n (S.value n x.now)) }
{
    let canonical = x.canonical(alloc)?;
    let mut text = Vec::new(alloc);
    for term in &canonical.terms {
        let (exponent, coefficient) = *term;
        push_term(alloc, &mut text, exponent, coefficient, canonical.den)?;
    }
    as_sum(text)
}

// Terms with their signs as a sum: no `+` at the front, and `0` for none.
fn as_sum(mut text: Vec<u8>) -> Result<Vec<u8>, Memory>
    ensures { IfOk result (λ sum. sum.items ≡ sum_text text.items) }
{
    if text.is_empty() {
        text.push(b'0')?;
    } else if text[0] == b'+' {
        text.remove(0);
    }
    Ok(text)
}

// Appends a term with its sign, + too.
fn push_term(
    alloc: Global,
    text: &mut Vec<u8>,
    exponent: u32,
    coefficient: i128,
    den: u64,
) -> Result<(), Memory>
    requires positive { 0 < den }
    requires some { coefficient ≢ pos 0 }
    ensures { OnOk result (text.new.items ≡ text.old.items ++ term_text (ratio coefficient den) exponent) }
{
    let coefficient = SignedFraction::new(coefficient, den);
    let power = Power(exponent);
    text.extend_from_slice(format!(in alloc; "{coefficient}{power}")?.as_bytes())?;
    Ok(())
}

// A fraction in lowest terms that is printed with its sign, + too.
#[derive(Clone, Copy)]
struct SignedFraction {
    num: i128,
    den: u64,
}

impl SignedFraction {
    // num/den in lowest terms.
    fn new(num: i128, den: u64) -> SignedFraction
        requires { 0 < den }
        ensures lowest { IsLowest result.num result.den }
        ensures same { ratio result.num result.den ≡ ratio num den }
    {
        let divisor = divisor(num, den);
        SignedFraction {
            num: quotient(num, divisor),
            den: den / divisor,
        }
    }
}

fn divisor(num: i128, den: u64) -> u64
    requires { 0 < den }
    ensures greatest { IsGcd (unsigned_abs num) den result }
    ensures positive { 0 < result }
{
    let rest = num.unsigned_abs() % u128::from(den);
    gcd(den, rest as u64)
}

fn quotient(number: i128, divisor: u64) -> i128
    requires { 0 < divisor }
    ensures { result ≡ int_div number (pos divisor) }
{
    number / divisor as i128
}

impl fmt::Display for SignedFraction {
    ghost output = { λ q. Some (plus_text q.num ++ fraction_text q.num q.den) };

    fn fmt<W: fmt::Write>(&self, f: &mut fmt::Formatter<W>) -> fmt::Result {
        let num = self.num;
        let den = self.den;
        match (num < 0, den == 1) {
            (true, true) => write!(f, "{num}"),
            (true, false) => write!(f, "{num}/{den}"),
            (false, true) => write!(f, "+{num}"),
            (false, false) => write!(f, "+{num}/{den}"),
        }
    }
}

// A power of z, which prints nothing where the exponent is 0.
#[derive(Clone, Copy)]
struct Power(u32);

impl fmt::Display for Power {
    ghost output = { λ p. Some (printed_power p.0) };

    fn fmt<W: fmt::Write>(&self, f: &mut fmt::Formatter<W>) -> fmt::Result {
        let exponent = self.0;
        if exponent == 0 {
            write!(f, "")
        } else {
            write!(f, "*z^{exponent}")
        }
    }
}
