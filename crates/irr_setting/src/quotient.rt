// Whole quotients.
ghost use Rattle.std.specs.Prelude.{ℤ, ◌≡◌, ◌≤◌, ◌^◌, ◌*ℤ◌, pos, unsigned_abs, IfSome, IsNone};

use crate::matrix::product;

/// The quotient, where it is a whole number of at most 9 in absolute value.
pub fn quotient(number: i128, divisor: i128) -> Option<i16>
    requires number { unsigned_abs number ≤ 2 ^ 122 }
    requires nonzero { ¬ (divisor ≡ pos 0) }
    requires divisor { unsigned_abs divisor ≤ 2 ^ 60 }
    ensures some { IfSome result (λ q. (divisor *ℤ q ≡ number) × (unsigned_abs q ≤ 9)) }
    ensures none { IsNone result → (q : ℤ) → unsigned_abs q ≤ 9 → ¬ (divisor *ℤ q ≡ number) }
{
    let quotient = number / divisor;
    if quotient.unsigned_abs() > 9 {
        return None;
    }
    if product(divisor, quotient) != number {
        return None;
    }
    Some(quotient as i16)
}
