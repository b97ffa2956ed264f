// The words of a line, and the numbers behind them.
ghost use Rattle.std.specs.Prelude.{ℕ, List, ◌≡◌, ◌≢◌, ◌≤◌, ◌++◌, ◌↔◌, IfOk, IfErr, IfSome, IsNone, IsTrue};
ghost use Rattle.std.specs.Str.Parse.{AllDigits, digits_value};
ghost use Rattle.irr_numeral.specs.WrittenNumber.{IsWhole};
ghost use Rattle.irr_report.specs.ReportGrammar.{IsWholeNumber};
ghost use Rattle.irr_report.specs.Digits.{IsDigitsFault};

use crate::stage::StepError;
use irr_digits::{capped_value, digit_run};

/// What stands behind these words at the beginning of a line.
pub(crate) fn behind<'a>(line: &'a [u8], words: &[u8]) -> Option<&'a [u8]>
    ensures some { IfSome result (λ rest. line.now ≡ words.now ++ rest.now) }
    ensures none { IsNone result → (rest : List ℕ) → line.now ≢ words.now ++ rest }
{
    line.strip_prefix(words)
}

/// Whether these are the digits of a whole number above 0, the first of which is not 0.
pub(crate) fn is_whole(digits: &[u8]) -> bool
    ensures { IsTrue result ↔ IsWhole digits.now }
{
    let Some((first, rest)) = digits.split_first() else {
        return false;
    };
    if *first < b'1' || b'9' < *first {
        return false;
    }
    digit_run(rest) == rest.len()
}

/// The whole number above 0 that these digits write, at most `limit`.
pub(crate) fn whole_within(digits: &[u8], limit: u64) -> Result<u64, StepError>
    ensures whole { IfOk result (λ n. IsWhole digits.now) }
    ensures value { IfOk result (λ n. n ≡ digits_value 10 digits.now) }
    ensures within { IfOk result (λ n. n ≤ limit) }
    ensures fault { IfErr result (IsDigitsFault IsWhole limit digits.now) }
{
    if !is_whole(digits) {
        return Err(StepError::Line);
    }
    match capped_value(digits, limit) {
        Some(value) => Ok(value),
        None => Err(StepError::Range),
    }
}

/// The whole number that these digits write, at most `limit`.
pub(crate) fn number_within(digits: &[u8], limit: u64) -> Result<u64, StepError>
    ensures whole { IfOk result (λ n. IsWholeNumber digits.now) }
    ensures value { IfOk result (λ n. n ≡ digits_value 10 digits.now) }
    ensures within { IfOk result (λ n. n ≤ limit) }
    ensures fault { IfErr result (IsDigitsFault IsWholeNumber limit digits.now) }
{
    if digits == b"0".as_slice() {
        return Ok(0);
    }
    whole_within(digits, limit)
}
