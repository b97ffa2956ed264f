// The values of a report's line.
ghost use Rattle.std.specs.Prelude.{ℕ, ◌≡◌, ◌≢◌, ◌++◌, ◌∷◌, List, [], IfErr, IfOk, IfSome, IsNone};
ghost use Rattle.std.specs.List.{All};
ghost use Rattle.irr_numeral.specs.WrittenValue.{IsMeasured, IsReadAs};
ghost use Rattle.irr_report.specs.ReportGrammar.{IsValueText};
ghost use Rattle.irr_report.specs.ValueTexts.{IsBehindValue, IsScaleOf, AreRead, AreReadSoFar, IsValueFault, IsFaultOf};
ghost use Rattle.irr_report.specs.declared.values.ValuesError.TheVariants.{Memory as want_of_memory};

pub(crate) use crate::scale::Scale;
use irr_cyc::{Order, Scalar};
use irr_memory::Memory;
use irr_numeral::{Measured, NumberError, read_measured};
use std::alloc::Global;

/// Why a line has no values.
#[derive(Clone, Copy, Debug, PartialEq, Eq)]
pub(crate) enum ValuesError {
    /// The texts are not those of as many values as there must be.
    Line,
    /// They are, and a value passes a limit, by itself or with the other values of its representation.
    Range,
    /// No memory was found.
    Memory,
}

impl From<Memory> for ValuesError {
    ghost from_gives = { λ _ e. e ≡ want_of_memory };

    fn from(_error: Memory) -> ValuesError {
        ValuesError::Memory
    }
}

// The numbers of a line so far, and the scale with them; none where a limit is passed.
#[derive(Drop)]
struct Values<S: Scalar> {
    numbers: Vec<S>,
    scale: Option<Scale>,
}

/// The numbers of an order that a line's texts write, a blank before each, and the scale with them. All texts are
/// tried for the grammar before a limit is looked at.
pub(crate) fn read_values<S: Scalar>(
    alloc: Global,
    order: &Order,
    count: usize,
    text: &[u8],
    scale: &mut Scale,
) -> Result<Vec<S>, ValuesError>
    requires { S.admits order.now.n }
    ensures read { IfOk result (λ xs. (earlier : List (List ℕ)) → IsScaleOf scale.old earlier → AreRead S.order_of S.value order.now.n earlier count text.now xs.items scale.new) }
    ensures fault { IfErr result (IsFaultOf order.now.n count scale.old text.now) }
{
    let mut rest = text;
    let mut values = Values {
        numbers: Vec::new(alloc),
        scale: Some(*scale),
    };
    for _ in 0..count {
        let Some((word, behind)) = next_value(rest) else {
            return Err(ValuesError::Line);
        };
        values = read_value(alloc, order, word, values)?;
        rest = behind;
    }
    if !rest.is_empty() {
        return Err(ValuesError::Line);
    }
    let Some(joined) = values.scale else {
        return Err(ValuesError::Range);
    };
    *scale = joined;
    Ok(values.numbers)
}

// The word behind the blank with which a text begins, and what follows the word.
fn next_value(text: &[u8]) -> Option<(&[u8], &[u8])>
    ensures parts { IfSome result (λ parts. text.now ≡ 32 ∷ (parts.0.now ++ parts.1.now)) }
    ensures word { IfSome result (λ parts. All (λ b. b ≢ 32) parts.0.now) }
    ensures behind { IfSome result (λ parts. IsBehindValue parts.1.now) }
    ensures none { IsNone result → (words : List ℕ) → text.now ≢ 32 ∷ words }
{
    let (first, rest) = text.split_first()?;
    if *first != b' ' {
        return None;
    }
    Some(split_word(rest))
}

// What stands before the first blank, and the rest.
fn split_word(text: &[u8]) -> (&[u8], &[u8])
    ensures parts { text.now ≡ result.0.now ++ result.1.now }
    ensures word { All (λ b. b ≢ 32) result.0.now }
    ensures behind { IsBehindValue result.1.now }
{
    match text.iter().position(|b| *b == b' ') {
        Some(at) => text.split_at(at),
        None => (text, &text[text.len()..]),
    }
}

// The values with that of one more text.
fn read_value<S: Scalar>(
    alloc: Global,
    order: &Order,
    text: &[u8],
    values: Values<S>,
) -> Result<Values<S>, ValuesError>
    requires { S.admits order.now.n }
    ensures value { IfOk result (λ v. IsValueText text.now) }
    ensures more { IfOk result (λ v. (earlier texts : List (List ℕ)) → AreReadSoFar S.order_of S.value order.now.n earlier texts values.numbers.items values.scale → AreReadSoFar S.order_of S.value order.now.n earlier (texts ++ text.now ∷ []) v.numbers.items v.scale) }
    ensures fault { IfErr result (IsValueFault text.now) }
{
    match read_measured(alloc, order, text) {
        Ok(measured) => {
            let values = with_number(values, measured)?;
            Ok(values)
        }
        Err(NumberError::Range(_)) => Ok(Values {
            numbers: values.numbers,
            scale: None,
        }),
        Err(NumberError::Shape(_)) => Err(ValuesError::Line),
        Err(NumberError::Zero(_)) => Err(ValuesError::Line),
        Err(NumberError::Memory) => Err(ValuesError::Memory),
    }
}

// The values with one that is read. The error is want of memory.
fn with_number<S: Scalar>(values: Values<S>, measured: Measured<S>) -> Result<Values<S>, Memory>
    requires { (text : List ℕ) × IsMeasured text measured.denominator measured.size }
    ensures more { IfOk result (λ v. (n : ℕ) (earlier texts : List (List ℕ)) (text : List ℕ) → S.order_of measured.number ≡ n → IsReadAs n text (S.value n measured.number) → IsMeasured text measured.denominator measured.size → AreReadSoFar S.order_of S.value n earlier texts values.numbers.items values.scale → AreReadSoFar S.order_of S.value n earlier (texts ++ text ∷ []) v.numbers.items v.scale) }
{
    let Some(scale) = values.scale else {
        return Ok(values);
    };
    let Some(joined) = scale.joined(measured.denominator, measured.size) else {
        return Ok(Values {
            numbers: values.numbers,
            scale: None,
        });
    };
    let mut numbers = values.numbers;
    numbers.push(measured.number)?;
    Ok(Values {
        numbers,
        scale: Some(joined),
    })
}
