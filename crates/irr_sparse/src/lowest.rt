//! Terms over a denominator, in lowest terms.
ghost use Rattle.std.specs.Prelude.{ℕ, ℤ, pos, ◌≡◌, ◌*◌, ◌/◌, ◌%◌, ◌<◌, ◌≤◌, ◌*ℤ◌, map, int_div, length};
ghost use Rattle.std.specs.Int.{◌∣◌, IsGcd};
ghost use Rattle.std.specs.Int.RustNames.{unsigned_abs};
ghost use Rattle.irr_sparse.specs.TermList.{AreTerms, IsLowest, coefficient_at};
ghost use Rattle.irr_sparse.specs.Value.{value_of};

// The greatest common divisor, by Euclid's steps.
fn gcd(first: u64, second: u64) -> u64
    ensures { IsGcd first second result }
{
    let mut a = first;
    let mut b = second;
    while b != 0 {
        let rest = a % b;
        a = b;
        b = rest;
    }
    a
}

// The greatest common divisor of a denominator and the coefficients: a division for each, until it is 1.
fn common_divisor(terms: &[(u32, i128)], den: u64) -> u64
    requires { 0 < den }
    ensures positive { 0 < result }
    ensures denominator { result ∣ den }
    ensures each { (i : ℕ) → i < length terms.now → result ∣ unsigned_abs (coefficient_at terms.now i) }
    ensures greatest { (c : ℕ) → c ∣ den → ((i : ℕ) → i < length terms.now → c ∣ unsigned_abs (coefficient_at terms.now i)) → c ∣ result }
{
    let mut divisor = den;
    for (_, coefficient) in terms {
        if divisor == 1 {
            return 1;
        }
        let rest = coefficient.unsigned_abs() % u128::from(divisor);
        divisor = gcd(divisor, rest as u64);
    }
    divisor
}

// Divides each coefficient by a positive number.
fn divide(terms: &mut [(u32, i128)], divisor: u64)
    requires { 0 < divisor }
    ensures { terms.new ≡ map (λ t. (t.0, int_div t.1 (pos divisor))) terms.old }
{
    let divisor = i128::from(divisor);
    for term in terms.iter_mut() {
        term.1 /= divisor;
    }
}

/// Brings terms over a denominator to lowest terms, and gives the new denominator. Nothing is done over 1.
pub(crate) fn to_lowest_terms(terms: &mut [(u32, i128)], den: u64) -> u64
    requires { 0 < den }
    ensures positive { 0 < result }
    ensures lowest { IsLowest terms.new result }
    ensures terms { (n : ℕ) → AreTerms n 0 terms.old → AreTerms n 0 terms.new }
    ensures value { (n : ℕ) → 0 < n → AreTerms n 0 terms.old → value_of n terms.new result ≡ value_of n terms.old den }
{
    if den == 1 {
        return 1;
    }
    let divisor = common_divisor(terms, den);
    if divisor == 1 {
        return den;
    }
    divide(terms, divisor);
    den / divisor
}
