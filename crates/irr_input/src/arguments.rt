// The words behind a command word.
ghost use Rattle.std.specs.Prelude.{ℕ, ◌≡◌, [], ◌∷◌, IsOk, IfOk, IfErr, IfSome, IsNone, IsTrue, ◌↔◌};
ghost use Rattle.std.specs.Str.Parse.{IsNumeral};
ghost use Rattle.irr_space.specs.Operation.{WaveVector};
ghost use Rattle.irr_kvec.specs.Centrings.{IsWithinLimits};
ghost use Rattle.irr_kvec.specs.WaveMeaning.{wave_vector};
ghost use Rattle.irr_rat.specs.VectorMeaning.{vector};
ghost use Rattle.irr_input.specs.PointText.{IsSmallPoint};
ghost use Rattle.irr_input.specs.Command.{texts, AreWordsOf, IsWordOf};
ghost use Rattle.irr_input.specs.Command.Argument.{wave, point, form, number};
ghost use Rattle.irr_input.specs.Forms.Sort.{of_waves, of_points};
ghost use Rattle.irr_input.specs.Forms.Form.{no_more};
ghost use Rattle.irr_input.specs.Forms.{BeginsWith, IsFirst, IsRefusedFrom};
ghost use Rattle.irr_input.specs.Forms as forms;

use crate::form::{Form, named_form};
use crate::point::point_of;
use crate::words::Usage;
use irr_digits::{capped_value, digit_run};
use irr_kvec::{Wave, read_wave};
use irr_rat::Vec3;

// The greatest number in a wave vector's text.
const WAVE_LIMIT: u32 = 100_000;

// The wave vector that the words write.
pub(crate) fn one_wave(words: &[Vec<u8>]) -> Result<Wave, Usage>
    ensures limits { IfOk result IsWithinLimits }
    ensures wave { IfOk result (λ k. AreWordsOf (wave (wave_vector k) ∷ []) (texts words.now)) }
    ensures refused { IfErr result (λ e. IsRefusedFrom 2 forms.one_wave (texts words.now) e.0) }
{
    let (first, rest) = first_wave(words, 2)?;
    no_word(rest, 3)?;
    Ok(first)
}

// The two wave vectors that the words write.
pub(crate) fn two_waves(words: &[Vec<u8>]) -> Result<(Wave, Wave), Usage>
    ensures limits { IfOk result (λ r. IsWithinLimits r.0 × IsWithinLimits r.1) }
    ensures waves { IfOk result (λ r. AreWordsOf (wave (wave_vector r.0) ∷ wave (wave_vector r.1) ∷ []) (texts words.now)) }
    ensures refused { IfErr result (λ e. IsRefusedFrom 2 forms.two_waves (texts words.now) e.0) }
{
    let (first, rest) = first_wave(words, 2)?;
    let (second, rest) = first_wave(rest, 3)?;
    no_word(rest, 4)?;
    Ok((first, second))
}

// The two or three wave vectors that the words write.
pub(crate) fn two_or_three_waves(words: &[Vec<u8>]) -> Result<(Wave, Wave, Option<Wave>), Usage>
    ensures limits { IfOk result (λ r. IsWithinLimits r.0 × IsWithinLimits r.1 × IfSome r.2 IsWithinLimits) }
    ensures waves { IfOk result (λ r. AreWordsOf (forms.waves_of r.0 r.1 r.2) (texts words.now)) }
    ensures refused { IfErr result (λ e. IsRefusedFrom 2 forms.two_or_three_waves (texts words.now) e.0) }
{
    let (first, rest) = first_wave(words, 2)?;
    let (second, rest) = first_wave(rest, 3)?;
    if rest.is_empty() {
        return Ok((first, second, None));
    }
    let (third, rest) = first_wave(rest, 4)?;
    no_word(rest, 5)?;
    Ok((first, second, Some(third)))
}

// The point and the wave vector that the words write.
pub(crate) fn point_and_wave(words: &[Vec<u8>]) -> Result<(Vec3, Wave), Usage>
    ensures limits { IfOk result (λ r. IsSmallPoint r.0 × IsWithinLimits r.1) }
    ensures words { IfOk result (λ r. AreWordsOf (point (vector r.0) ∷ wave (wave_vector r.1) ∷ []) (texts words.now)) }
    ensures refused { IfErr result (λ e. IsRefusedFrom 2 forms.point_and_wave (texts words.now) e.0) }
{
    let (point, rest) = first_point(words)?;
    let (wave, rest) = first_wave(rest, 3)?;
    no_word(rest, 4)?;
    Ok((point, wave))
}

// The form of tensors that the words write.
pub(crate) fn one_form(words: &[Vec<u8>]) -> Result<Form, Usage>
    ensures form { IfOk result (λ f. AreWordsOf (form f ∷ []) (texts words.now)) }
    ensures refused { IfErr result (λ e. IsRefusedFrom 2 forms.one_form (texts words.now) e.0) }
{
    let Some((word, rest)) = words.split_first() else {
        return Err(Usage(2));
    };
    let Some(value) = named_form(word) else {
        return Err(Usage(2));
    };
    no_word(rest, 3)?;
    Ok(value)
}

// The number that the words write.
pub(crate) fn one_number(words: &[Vec<u8>]) -> Result<u32, Usage>
    ensures number { IfOk result (λ n. AreWordsOf (number n ∷ []) (texts words.now)) }
    ensures refused { IfErr result (λ e. IsRefusedFrom 2 forms.one_number (texts words.now) e.0) }
{
    let Some((word, rest)) = words.split_first() else {
        return Err(Usage(2));
    };
    let Some(value) = number_of(word) else {
        return Err(Usage(2));
    };
    no_word(rest, 3)?;
    Ok(value)
}

// That no word is left; `number` is that of the first word here.
pub(crate) fn no_word(words: &[Vec<u8>], number: u32) -> Result<(), Usage>
    ensures none { IsOk result → texts words.now ≡ [] }
    ensures some { IfErr result (λ e. IsRefusedFrom number no_more (texts words.now) e.0) }
{
    if words.is_empty() {
        Ok(())
    } else {
        Err(Usage(number))
    }
}

// The wave vector that the first word writes, and the words behind it; `number` is that of the first word here.
fn first_wave<'a>(words: &'a [Vec<u8>], number: u32) -> Result<(Wave, &'a [Vec<u8>]), Usage>
    ensures limits { IfOk result (λ r. IsWithinLimits r.0) }
    ensures first { IfOk result (λ r. IsFirst (wave (wave_vector r.0)) (texts words.now) (texts r.1.now)) }
    ensures none { IfErr result (λ e. (e.0 ≡ number) × ¬ (BeginsWith of_waves (texts words.now))) }
{
    let Some((word, rest)) = words.split_first() else {
        return Err(Usage(number));
    };
    match wave_of(word) {
        Some(first) => Ok((first, rest)),
        None => Err(Usage(number)),
    }
}

// The point that the first word behind the command's writes, and the words behind it.
fn first_point<'a>(words: &'a [Vec<u8>]) -> Result<(Vec3, &'a [Vec<u8>]), Usage>
    ensures limits { IfOk result (λ r. IsSmallPoint r.0) }
    ensures first { IfOk result (λ r. IsFirst (point (vector r.0)) (texts words.now) (texts r.1.now)) }
    ensures none { IfErr result (λ e. (e.0 ≡ 2) × ¬ (BeginsWith of_points (texts words.now))) }
{
    let Some((word, rest)) = words.split_first() else {
        return Err(Usage(2));
    };
    match point_of(word) {
        Some(first) => Ok((first, rest)),
        None => Err(Usage(2)),
    }
}

// The wave vector that a word writes with no fault.
fn wave_of(word: &[u8]) -> Option<Wave>
    ensures limits { IfSome result IsWithinLimits }
    ensures some { IfSome result (λ k. IsWordOf (wave (wave_vector k)) word.now) }
    ensures none { IsNone result → (k : WaveVector) → ¬ (IsWordOf (wave k) word.now) }
{
    match read_wave(word, WAVE_LIMIT) {
        Ok(wave) => Some(wave),
        Err(_) => None,
    }
}

// The number that a word writes in digits.
fn number_of(word: &[u8]) -> Option<u32>
    ensures some { IfSome result (λ n. IsWordOf (number n) word.now) }
    ensures none { IsNone result → (n : ℕ) → ¬ (IsWordOf (number n) word.now) }
{
    if !is_numeral(word) {
        return None;
    }
    let value = capped_value(word, u64::from(u32::MAX))?;
    Some(value as u32)
}

// Whether a word is one digit or more.
fn is_numeral(word: &[u8]) -> bool
    ensures { IsTrue result ↔ IsNumeral 10 word.now }
{
    !word.is_empty() && digit_run(word) == word.len()
}
