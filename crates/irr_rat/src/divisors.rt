// Greatest common divisors and least common multiples.
ghost use Rattle.std.specs.Prelude.{ℕ, ◌≤◌, ◌^◌, ◌↔◌, IfSome, IsNone};
ghost use Rattle.std.specs.Int.{IsGcd};
ghost use Rattle.irr_rat.specs.Lcm.{IsLcm};

/// The greatest common divisor, which is 0 only where both numbers are.
pub fn gcd(a: u64, b: u64) -> u64
    ensures { IsGcd a b result }
{
    let (mut x, mut y) = (a, b);
    while y != 0 {
        (x, y) = (y, x % y);
    }
    x
}

/// The least common multiple, or `None` where it is above the greatest number of 64 bits.
pub fn lcm_checked(a: u64, b: u64) -> Option<u64>
    ensures least { IfSome result (IsLcm a b) }
    ensures none { IsNone result ↔ ((m : ℕ) → IsLcm a b m → 2 ^ 64 ≤ m) }
{
    if a == 0 {
        return Some(0);
    }
    let divisor = gcd(a, b);
    (a / divisor).checked_mul(b)
}
