//! The primes of an order.
ghost use Rattle.std.specs.Prelude.{ℕ, ◌≡◌, ◌*◌, ◌%◌, ◌^◌, ◌<◌, ◌≤◌, ◌+◌};
ghost use Rattle.std.specs.Int.{◌∣◌};
ghost use Rattle.irr_number.specs.Prime.{IsPrime};
ghost use Rattle.irr_cyc.specs.declared.orders.TheConstants.{ORDER_LIMIT};
ghost use Rattle.irr_sparse.specs.Parts.{AreParts, IsFreeOutside, weight};

use arrayvec::ArrayVec;
use irr_cyc::ORDER_LIMIT;

/// A prime of an order, and its highest power that divides the order, over the prime.
#[derive(Clone, Copy, Debug, Default)]
pub struct Part {
    pub prime: u32,
    pub base: u32,
}

// A number without a factor, and the power of the factor that was taken out, over the factor.
#[derive(Clone, Copy)]
struct Factored {
    base: u32,
    rest: u32,
}

// Takes the factor p out of a number that it divides.
fn factor_out(number: u32, p: u32) -> Factored
    requires positive { 0 < number }
    requires factor { 1 < p }
    requires divides { number % p ≡ 0 }
    ensures equal { number ≡ result.base * p * result.rest }
    ensures power { (exponent : ℕ) × (result.base ≡ p ^ exponent) }
    ensures other { ¬ (p ∣ result.rest) }
    ensures positive { 0 < result.rest }
{
    let mut base = 1;
    let mut rest = number / p;
    while rest % p == 0 {
        base *= p;
        rest /= p;
    }
    Factored { base, rest }
}

// The least factor of a number that is 2 or more, where no prime below p divides it: at most as many steps as
// its square root.
fn least_factor(number: u32, p: u32) -> u32
    requires few { number ≤ ORDER_LIMIT }
    requires some { 1 < number }
    requires two { 2 ≤ p }
    requires left { (q : ℕ) → IsPrime q → q < p → ¬ (q ∣ number) }
    ensures from { p ≤ result }
    ensures within { result ≤ number }
    ensures divides { number % result ≡ 0 }
    ensures left { (q : ℕ) → IsPrime q → q < result → ¬ (q ∣ number) }
{
    let mut factor = p;
    while number % factor != 0 {
        if factor * factor > number {
            return number;
        }
        factor += 1;
    }
    factor
}

/// The primes of an order, at most `PRIME_LIMIT` of them.
pub type Parts = ArrayVec<Part, PRIME_LIMIT>;

/// More primes than any order up to the limit has.
pub const PRIME_LIMIT: usize = 14;

/// The primes that divide an order. No memory is allocated.
pub fn parts_of(n: u32) -> Parts
    requires positive { 0 < n }
    requires few { n ≤ ORDER_LIMIT }
    ensures parts { AreParts n result.items }
    ensures all { (j : ℕ) → IsFreeOutside n result.items j }
    ensures weight { weight result.items ≤ n }
{
    let mut parts = ArrayVec::new();
    let mut rest = n;
    let mut p = 2;
    while rest > 1 {
        let prime = least_factor(rest, p);
        let factored = factor_out(rest, prime);
        parts.push(Part {
            prime,
            base: factored.base,
        });
        rest = factored.rest;
        p = prime + 1;
    }
    parts
}
