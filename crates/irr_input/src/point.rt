// Points as words.
ghost use Rattle.std.specs.Prelude.{ℕ, ◌≡◌, ◌+◌, ◌<◌, ◌^◌, ◌↔◌, List, ◌∷◌, length, IsTrue, IfSome, IsNone};
ghost use Rattle.irr_space.specs.Operation.{Vector};
ghost use Rattle.irr_rat.specs.VectorMeaning.{vector};
ghost use Rattle.irr_token.specs.Token.{Token};
ghost use Rattle.irr_token.specs.Token.Token.{mark};
ghost use Rattle.irr_token.specs.Spelling.{AreSpelled};
ghost use Rattle.irr_token.specs.Reading.{HasDigits, IsReadAs, written_quotient};
ghost use Rattle.irr_kvec.specs.WrittenWave.{WrittenWave, IsSpelling};
ghost use Rattle.irr_input.specs.PointText.{HasSmallDenominator, HasSmallDenominators, IsPointOf, IsSmallPoint};

use irr_kvec::read_wave;
use irr_rat::Vec3;
use irr_token::{Quotient, Rest, behind_mark, front_quotient, is_above};

/// The greatest number in a point's text, and the greatest denominator of its components together.
pub(crate) const POINT_LIMIT: u32 = 1_000;

// The point that a word writes with no fault.
pub(crate) fn point_of(word: &[u8]) -> Option<Vec3>
    ensures limits { IfSome result IsSmallPoint }
    ensures some { IfSome result (λ x. IsPointOf word.now (vector x)) }
    ensures none { IsNone result → (x : Vector) → ¬ (IsPointOf word.now x) }
{
    let row = match read_wave(word, POINT_LIMIT) {
        Ok(row) => row,
        Err(_) => return None,
    };
    if row.den > POINT_LIMIT {
        return None;
    }
    if !has_small_denominators(word) {
        return None;
    }
    let num = row.num;
    let den = row.den;
    Some(Vec3 { num, den })
}

// Whether the denominators of three fractions are within the limit.
fn has_small_denominators(text: &[u8]) -> bool
    ensures { (w : WrittenWave) → IsSpelling w text.now → IsTrue result ↔ HasSmallDenominators w }
{
    let (x, y, z) = fractions(text);
    if !has_small_denominator(&x) {
        return false;
    }
    if !has_small_denominator(&y) {
        return false;
    }
    has_small_denominator(&z)
}

// The three fractions of a text, as they are written.
fn fractions<'a>(text: &'a [u8]) -> (Quotient<'a>, Quotient<'a>, Quotient<'a>)
    ensures digits { HasDigits result.0 × HasDigits result.1 × HasDigits result.2 }
    ensures parts { (w : WrittenWave) → IsSpelling w text.now
        → IsReadAs result.0 w.x × IsReadAs result.1 w.y × IsReadAs result.2 w.z }
{
    let (x, rest) = front_quotient(Rest { place: 0, text });
    let (y, rest) = front_quotient(behind_comma(rest));
    let (z, _) = front_quotient(behind_comma(rest));
    (x, y, z)
}

// What is left behind a comma.
fn behind_comma<'a>(rest: Rest<'a>) -> Rest<'a>
    requires fits { rest.place + length rest.text.now < 2 ^ 64 }
    ensures same { result.place + length result.text.now ≡ rest.entry.place + length rest.entry.text.now }
    ensures rest { (ts : List Token) → AreSpelled rest.entry.place (mark 44 ∷ ts) rest.entry.text.now → AreSpelled result.place ts result.text.now }
{
    if rest.text.is_empty() {
        return rest;
    }
    behind_mark(rest)
}

// Whether the denominator of a fraction is within the limit.
fn has_small_denominator(quotient: &Quotient<'_>) -> bool
    requires { HasDigits quotient.now }
    ensures { IsTrue result ↔ HasSmallDenominator (written_quotient quotient.now) }
{
    match quotient.denominator {
        Some(number) => !is_above(number, u64::from(POINT_LIMIT)),
        None => true,
    }
}
