// How a number's text is read.
ghost use Rattle.std.specs.Prelude.{◌≡◌, ◌<◌, ◌≤◌, ◌*◌, map, All, IfErr, IfOk};
ghost use Rattle.irr_canonical.specs.Coefficient.{denominator, size};
ghost use Rattle.irr_numeral.specs.declared.limits.TheConstants.{COEFFICIENT_LIMIT, DENOMINATOR_LIMIT};
ghost use Rattle.irr_numeral.specs.NumberFault.{IsFault};
ghost use Rattle.irr_numeral.specs.declared.read.NumberError.TheVariants.{Memory as no_memory};
ghost use Rattle.irr_numeral.specs.NumberLimit.{IsWithin};
ghost use Rattle.irr_numeral.specs.TermPlaces.{ArePlaced, HasZero, written_term};
ghost use Rattle.irr_numeral.specs.WrittenNumber.{AreIncreasing, AreTerms, spelled};
ghost use Rattle.irr_numeral.specs.WrittenValue.{IsMeasured, IsReadAs};

use crate::denominator::common_denominator;
use crate::limits::first_beyond;
use crate::order::first_unordered;
use crate::scaled::{scaled_terms, size_within};
use crate::shape::check_shape;
use crate::terms::{Written, terms};
use crate::zero::first_zero;
use irr_cyc::{Order, Scalar};
use irr_memory::Memory;
use std::alloc::Global;
use thiserror::Error;

/// Why a text is no number. Places count bytes from 0.
#[derive(Clone, Copy, Debug, PartialEq, Eq, Error)]
pub enum NumberError {
    /// The text is not in the grammar, from this place on.
    #[error("shape at byte {0}")]
    Shape(u64),
    /// The denominator at this place is 0.
    #[error("zero at byte {0}")]
    Zero(u64),
    /// The number at this place passes its limit; at the text's length, the common denominator or the size does.
    #[error("range at byte {0}")]
    Range(u64),
    /// No memory was found.
    #[error("out of memory")]
    Memory,
}

impl From<Memory> for NumberError {
    ghost from_gives = { λ _ e. e ≡ no_memory };

    fn from(_error: Memory) -> NumberError {
        NumberError::Memory
    }
}

/// A number that is read, and what the coefficients of its text come to as they are written: 2/4 counts 2 over 4.
#[derive(Drop)]
pub struct Measured<S: Scalar> {
    /// The number.
    pub number: S,
    /// The least common denominator of the coefficients.
    pub denominator: u64,
    /// The sum of the absolute numerators over that denominator.
    pub size: u64,
}

/// The number of an order that a text writes: `0`, or terms as `-2/3*z^4` whose exponents increase, where the
/// first may have none (a form of this project's own). Numerators are at most 1,073,741,824, denominators
/// 4,096, exponents below the order. The coefficients as they are written (2/4 counts 4) have a least common
/// denominator of at most 4,096, and the sum of their absolute numerators over it is at most 1,073,741,824.
///
/// The error is the first of Shape, Zero and Range that holds, at the place of its first cause; Range is at the
/// text's length where only the common denominator or the sum passes its limit.
pub fn read_number<S: Scalar>(alloc: Global, order: &Order, text: &[u8]) -> Result<S, NumberError>
    requires { S.admits order.now.n }
    ensures order { IfOk result (λ x. S.order_of x ≡ order.now.n) }
    ensures read { IfOk result (λ x. let n = order.now.n in IsReadAs n text.now (S.value n x)) }
    ensures denominator { IfOk result (λ x. let n = order.now.n in denominator n (S.value n x) ≤ DENOMINATOR_LIMIT) }
    ensures size { IfOk result (λ x. let n = order.now.n in size n (S.value n x) ≤ COEFFICIENT_LIMIT * n) }
    ensures fault { IfErr result (λ e. IsFault order.now.n text.now e) }
{
    let measured = read_measured(alloc, order, text)?;
    Ok(measured.number)
}

/// The number that a text writes, as `read_number` reads it, with the least common denominator of its coefficients
/// and the size over it. The errors are those of `read_number`.
pub fn read_measured<S: Scalar>(
    alloc: Global,
    order: &Order,
    text: &[u8],
) -> Result<Measured<S>, NumberError>
    requires { S.admits order.now.n }
    ensures order { IfOk result (λ m. S.order_of m.number ≡ order.now.n) }
    ensures read { IfOk result (λ m. let n = order.now.n in IsReadAs n text.now (S.value n m.number)) }
    ensures measured { IfOk result (λ m. IsMeasured text.now m.denominator m.size) }
    ensures denominator { IfOk result (λ m. let n = order.now.n in denominator n (S.value n m.number) ≤ DENOMINATOR_LIMIT) }
    ensures size { IfOk result (λ m. let n = order.now.n in size n (S.value n m.number) ≤ COEFFICIENT_LIMIT * n) }
    ensures fault { IfErr result (λ e. IsFault order.now.n text.now e) }
{
    let read = read_terms(alloc, order.n(), text)?;
    let terms = read.as_slice();
    let Some(den) = common_denominator(terms) else {
        return Err(NumberError::Range(text.len() as u64));
    };
    let Some(size) = size_within(terms, den) else {
        return Err(NumberError::Range(text.len() as u64));
    };
    let scaled = scaled_terms(alloc, terms, order.n(), den)?;
    let number = S::from_terms(alloc, order, den, scaled.as_slice())?;
    Ok(Measured {
        number,
        denominator: den,
        size,
    })
}

/// The terms of a number's text of the order n, whose exponents increase, whose denominators are not 0, and
/// whose numbers are within their limits; the common denominator and the size are not looked at.
pub(crate) fn read_terms<'a>(
    alloc: Global,
    n: u32,
    text: &'a [u8],
) -> Result<Vec<Written<'a>>, NumberError>
    requires { 0 < n }
    ensures are_terms { IfOk result (λ ws. AreTerms (map written_term ws.items)) }
    ensures spells { IfOk result (λ ws. spelled (map written_term ws.items) ≡ text.now) }
    ensures placed { IfOk result (λ ws. ArePlaced ws.items) }
    ensures ordered { IfOk result (λ ws. AreIncreasing (map written_term ws.items)) }
    ensures not_zero { IfOk result (λ ws. All (λ t. ¬ (HasZero t)) (map written_term ws.items)) }
    ensures within { IfOk result (λ ws. All (IsWithin n) (map written_term ws.items)) }
    ensures fault { IfErr result (λ e. IsFault n text.now e) }
{
    if let Err(place) = check_shape(text) {
        return Err(NumberError::Shape(place as u64));
    }
    let Ok(terms) = terms(alloc, text) else {
        return Err(NumberError::Memory);
    };
    if let Some(place) = first_unordered(terms.as_slice()) {
        return Err(NumberError::Shape(place as u64));
    }
    if let Some(place) = first_zero(terms.as_slice()) {
        return Err(NumberError::Zero(place as u64));
    }
    if let Some(place) = first_beyond(terms.as_slice(), n) {
        return Err(NumberError::Range(place as u64));
    }
    Ok(terms)
}
