// Reading of wave vectors.
ghost use Rattle.std.specs.Prelude.{ℕ, ℤ, ◌≡◌, ◌+◌, ◌<◌, ◌≤◌, ◌^◌, List, ◌∷◌, length, IfOk, IfErr, IfSome, IsNone};
ghost use Rattle.irr_algebra.specs.Fin.{Fin};
ghost use Rattle.irr_algebra.specs.Fin.Fin.{first, next};
ghost use Rattle.irr_token.specs.declared.faults.TheConstants.{DENOMINATOR_LIMIT};
ghost use Rattle.irr_token.specs.Token.{Token};
ghost use Rattle.irr_token.specs.Token.Token.{mark};
ghost use Rattle.irr_token.specs.Spelling.{AreSpelled};
ghost use Rattle.irr_token.specs.Reading.{HasDigits};
ghost use Rattle.irr_token.specs.Fault.{AreNotZero, IsFirstZero, AreWithin, IsFirstBeyond};
ghost use Rattle.irr_kvec.specs.Centrings.{IsWithinLimits};
ghost use Rattle.irr_kvec.specs.WaveMeaning.{wave_vector};
ghost use Rattle.irr_kvec.specs.WrittenWave.{WrittenWave, IsSpelling, IsWave};
ghost use Rattle.irr_kvec.specs.WaveParts.{written_wave, AreParts};
ghost use Rattle.irr_kvec.specs.WaveFault.{wave_denominators, wave_numbers, IsValue, IsWritten, HasCommonDenominator, IsFault};

use crate::shape::check_shape;
use crate::wave::Wave;
use irr_token::{
    Quotient, Rest, behind_mark, beyond_place, front_quotient, over_least_denominator,
    value_of_quotient, zero_place,
};

/// Why a text is no wave vector: it leaves the grammar at a place, a denominator is 0, or a number or the
/// common denominator passes its limit. Places count bytes from 0.
#[derive(Clone, Copy, Debug, PartialEq, Eq)]
pub enum WaveError {
    Shape(u64),
    Zero(u64),
    Range(u64),
}

/// The wave vector that a text writes as three fractions with commas between, where blanks may stand between
/// tokens: numerators are at most `limit`, denominators and the least common denominator at most 100,000.
///
/// Of the errors the first that holds comes, in the order Shape, Zero, Range. A fault of a number has the place
/// of its first digit, and that of the common denominator alone the text's length.
pub fn read_wave(text: &[u8], limit: u32) -> Result<Wave, WaveError>
    requires { limit ≤ 1000000 }
    ensures wave { IfOk result (λ k. IsWave text.now) }
    ensures read { (w : WrittenWave) → IsSpelling w text.now → IfOk result (λ k. IsWritten limit w (wave_vector k)) }
    ensures within { IfOk result (λ k. k.den ≤ DENOMINATOR_LIMIT) }
    ensures limits { IfOk result IsWithinLimits }
    ensures fault { IfErr result (λ e. IsFault limit text.now e) }
{
    if let Err(place) = check_shape(text) {
        return Err(WaveError::Shape(place as u64));
    }
    let parts = components(text);
    if let Some(place) = first_zero(&parts) {
        return Err(WaveError::Zero(place as u64));
    }
    if let Some(place) = first_beyond(&parts, u64::from(limit)) {
        return Err(WaveError::Range(place as u64));
    }
    match wave_of_parts(&parts, u64::from(limit)) {
        Some(wave) => Ok(wave),
        None => Err(WaveError::Range(text.len() as u64)),
    }
}

// The three components as they are written.
#[derive(Clone, Copy)]
struct Parts<'a> {
    x: Quotient<'a>,
    y: Quotient<'a>,
    z: Quotient<'a>,
}

// The components of a text that writes a wave vector.
fn components(text: &[u8]) -> Parts<'_>
    ensures digits { HasDigits result.x × HasDigits result.y × HasDigits result.z }
    ensures parts { (w : WrittenWave) → IsSpelling w text.now → AreParts result w }
{
    let (x, rest) = front_quotient(Rest { place: 0, text });
    let (y, rest) = front_quotient(behind_comma(rest));
    let (z, _) = front_quotient(behind_comma(rest));
    Parts { x, y, z }
}

// What is left behind a comma.
fn behind_comma<'a>(rest: Rest<'a>) -> Rest<'a>
    requires fits { rest.place + length rest.text.now < 2 ^ 64 }
    ensures same { result.place + length result.text.now ≡ rest.entry.place + length rest.entry.text.now }
    ensures rest { (ts : List Token) → AreSpelled rest.entry.place (mark 44 ∷ ts) rest.entry.text.now → AreSpelled result.place ts result.text.now }
{
    if rest.text.is_empty() {
        return rest;
    }
    behind_mark(rest)
}

// The place of the first denominator that is 0.
fn first_zero(parts: &Parts<'_>) -> Option<usize>
    requires { HasDigits parts.now.x × HasDigits parts.now.y × HasDigits parts.now.z }
    ensures none { IsNone result → AreNotZero (wave_denominators (written_wave parts.now)) }
    ensures some { IfSome result (IsFirstZero (wave_denominators (written_wave parts.now))) }
{
    if let Some(place) = zero_place(&parts.x) {
        return Some(place);
    }
    if let Some(place) = zero_place(&parts.y) {
        return Some(place);
    }
    zero_place(&parts.z)
}

// The place of the first number that is beyond its limit.
fn first_beyond(parts: &Parts<'_>, limit: u64) -> Option<usize>
    requires { HasDigits parts.now.x × HasDigits parts.now.y × HasDigits parts.now.z }
    ensures none { IsNone result → AreWithin (wave_numbers limit (written_wave parts.now)) }
    ensures some { IfSome result (IsFirstBeyond (wave_numbers limit (written_wave parts.now))) }
{
    if let Some(place) = beyond_place(&parts.x, limit) {
        return Some(place);
    }
    if let Some(place) = beyond_place(&parts.y, limit) {
        return Some(place);
    }
    beyond_place(&parts.z, limit)
}

// The wave vector, where its common denominator is within the limit.
fn wave_of_parts(parts: &Parts<'_>, limit: u64) -> Option<Wave>
    requires digits { HasDigits parts.now.x × HasDigits parts.now.y × HasDigits parts.now.z }
    requires not_zero { AreNotZero (wave_denominators (written_wave parts.now)) }
    requires within { AreWithin (wave_numbers limit (written_wave parts.now)) }
    requires limit { limit ≤ 1000000 }
    ensures value { IfSome result (λ k. IsValue (written_wave parts.now) (wave_vector k)) }
    ensures within { IfSome result (λ k. k.den ≤ DENOMINATOR_LIMIT) }
    ensures limits { IfSome result IsWithinLimits }
    ensures none { IsNone result → ¬ (HasCommonDenominator (written_wave parts.now)) }
{
    let x = value_of_quotient(&parts.x, limit);
    let y = value_of_quotient(&parts.y, limit);
    let z = value_of_quotient(&parts.z, limit);
    let vector = over_least_denominator(x, y, z)?;
    let num = vector.num;
    let den = vector.den;
    Some(Wave { num, den })
}
