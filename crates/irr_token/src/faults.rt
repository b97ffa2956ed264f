// What may be wrong with the numbers of a fraction.
ghost use Rattle.std.specs.Prelude.{◌≡◌, ◌<◌, ◌↔◌, IsTrue, IsNone, IfSome};
ghost use Rattle.std.specs.Str.Parse.{AllDigits};
ghost use Rattle.irr_token.specs.Token.{value_of};
ghost use Rattle.irr_token.specs.Reading.{placed_number, written_quotient, HasDigits};
ghost use Rattle.irr_token.specs.Fault.{AreNotZero, IsFirstZero, AreWithin, IsFirstBeyond, denominators, limited};

use crate::read::{Number, Quotient};
use irr_digits::capped_value;

/// The greatest denominator, also of all components together.
pub const DENOMINATOR_LIMIT: u64 = 100_000;

/// Whether a number is above a limit.
pub fn is_above(number: Number<'_>, limit: u64) -> bool
    requires { AllDigits 10 number.digits.now }
    ensures { IsTrue result ↔ (limit < value_of (placed_number number.entry)) }
{
    capped_value(number.digits, limit).is_none()
}

/// The place of the denominator where it is 0.
pub fn zero_place(quotient: &Quotient<'_>) -> Option<usize>
    requires { HasDigits quotient.now }
    ensures none { IsNone result → AreNotZero (denominators (written_quotient quotient.now)) }
    ensures some { IfSome result (IsFirstZero (denominators (written_quotient quotient.now))) }
{
    let denominator = quotient.denominator?;
    if is_above(denominator, 0) {
        return None;
    }
    Some(denominator.place)
}

/// The place of the first number that is beyond its limit, which is `limit` for the numerator.
pub fn beyond_place(quotient: &Quotient<'_>, limit: u64) -> Option<usize>
    requires { HasDigits quotient.now }
    ensures none { IsNone result → AreWithin (limited limit (written_quotient quotient.now)) }
    ensures some { IfSome result (IsFirstBeyond (limited limit (written_quotient quotient.now))) }
{
    let numerator = quotient.numerator;
    if is_above(numerator, limit) {
        return Some(numerator.place);
    }
    let denominator = quotient.denominator?;
    if is_above(denominator, DENOMINATOR_LIMIT) {
        return Some(denominator.place);
    }
    None
}
