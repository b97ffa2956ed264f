//! Coefficients over a denominator, in lowest terms.
ghost use Rattle.std.specs.Prelude.{ℕ, ℤ, pos, ◌≡◌, ◌*◌, ◌/◌, ◌%◌, ◌<◌, ◌≤◌, ◌*ℤ◌, length};
ghost use Rattle.std.specs.Int.{◌∣◌, IsGcd};
ghost use Rattle.std.specs.Int.RustNames.{unsigned_abs};
ghost use Rattle.irr_cyc.specs.Form.{IsLowest, at};

// The greatest common divisor, by Euclid's steps.
fn gcd(first: u64, second: u64) -> u64
    ensures { IsGcd first second result }
{
    let mut a = first;
    let mut b = second;
    while b != 0 {
        let rest = a % b;
        a = b;
        b = rest;
    }
    a
}

// The greatest common divisor of a denominator and the coefficients.
fn common_divisor(coefficients: &[i128], den: u64) -> u64
    requires { 0 < den }
    ensures positive { 0 < result }
    ensures denominator { result ∣ den }
    ensures each { (j : ℕ) → j < length coefficients.now → result ∣ unsigned_abs (at coefficients.now j) }
    ensures greatest { (c : ℕ) → c ∣ den → ((j : ℕ) → j < length coefficients.now → c ∣ unsigned_abs (at coefficients.now j)) → c ∣ result }
{
    let mut divisor = den;
    for coefficient in coefficients {
        if divisor == 1 {
            return 1;
        }
        let rest = coefficient.unsigned_abs() % u128::from(divisor);
        divisor = gcd(divisor, rest as u64);
    }
    divisor
}

// Divides each coefficient by a common divisor.
fn divide(coefficients: &mut [i128], divisor: u64)
    requires positive { 0 < divisor }
    requires divides { (j : ℕ) → j < length coefficients.old → divisor ∣ unsigned_abs (at coefficients.old j) }
    ensures { (j : ℕ) → j < length coefficients.old → pos divisor *ℤ at coefficients.new j ≡ at coefficients.old j }
{
    let divisor = i128::from(divisor);
    for coefficient in coefficients.iter_mut() {
        *coefficient /= divisor;
    }
}

/// Brings coefficients over a denominator to lowest terms, and gives the new denominator.
pub(crate) fn to_lowest_terms(coefficients: &mut [i128], den: u64) -> u64
    requires { 0 < den }
    ensures positive { 0 < result }
    ensures same { (j : ℕ) → j < length coefficients.old → pos den *ℤ at coefficients.new j ≡ pos result *ℤ at coefficients.old j }
    ensures lowest { IsLowest coefficients.new result }
    ensures zeros { (j : ℕ) → j < length coefficients.old → at coefficients.old j ≡ pos 0 → at coefficients.new j ≡ pos 0 }
{
    if den == 1 {
        return 1;
    }
    let divisor = common_divisor(coefficients, den);
    if divisor == 1 {
        return den;
    }
    divide(coefficients, divisor);
    den / divisor
}
