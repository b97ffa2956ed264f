// Reading of triplets.
ghost use Rattle.std.specs.Prelude.{ℕ, ◌≡◌, ◌+◌, ◌<◌, ◌≤◌, ◌^◌, ◌↔◌, Bool, Option, List, ◌∷◌, ◌++◌, length, IfOk, IfErr, IsOkAnd, IfSome, IsNone, IsTrue, unsigned_abs};
ghost use Rattle.irr_space.specs.Operation.{Operation};
ghost use Rattle.irr_seitz.specs.OperationMeaning.{operation};
ghost use Rattle.irr_seitz.specs.Rotation.{determinant};
ghost use Rattle.irr_token.specs.declared.faults.TheConstants.{DENOMINATOR_LIMIT};
ghost use Rattle.irr_token.specs.Kinds.{AreBlanks};
ghost use Rattle.irr_token.specs.Token.{Token};
ghost use Rattle.irr_token.specs.Token.Token.{mark};
ghost use Rattle.irr_token.specs.Spelling.{AreSpelled};
ghost use Rattle.irr_triplet.specs.Readable.{IsReadable};
ghost use Rattle.irr_triplet.specs.WrittenTriplet.{WrittenTriplet, quote_tokens, IsSpelling};
ghost use Rattle.irr_triplet.specs.TripletFault.{triplet_denominators, triplet_numbers, IsValue, HasCommonDenominator, IsFault, IsTextOf};
ghost use Rattle.irr_triplet.specs.WrittenTerms.{HaveDigits, IsZeroAnswer, IsBeyondAnswer};
ghost use Rattle.irr_triplet.specs.TripletParts.{AreParts, IsUnquoted, IsSound};

use crate::shape::check_shape;
use crate::slots::{Slots, component};
use crate::values::{operation_of, row_of};
use irr_seitz::Op;
use irr_token::{Rest, begins_with, behind, behind_mark};

/// The greatest coefficient of a letter.
pub const COEFFICIENT_LIMIT: u64 = 9;

/// Why a text is no triplet of an operation: it leaves the grammar at a place, a denominator is 0, a number
/// or the common denominator passes its limit, or the determinant is neither 1 nor -1. Places count bytes from 0.
#[derive(Clone, Copy, Debug, PartialEq, Eq)]
pub enum TripletError {
    Shape(u64),
    Zero(u64),
    Range(u64),
    Determinant,
}

/// The operation that a text writes as a coordinate triplet: three components with commas between, with
/// quotes round them or none, where blanks may stand round tokens. The components are the rows.
///
/// Of the errors the first that holds comes, in the order Shape, Zero, Range, Determinant. A fault of a number
/// has the place of its first digit, and that of the common denominator alone the text's length. Coefficients
/// are at most 9, other numbers and the least common denominator at most 100,000.
pub fn read_triplet(text: &[u8]) -> Result<Op, TripletError>
    ensures read { IfOk result (λ op. IsTextOf text.now (operation op)) }
    ensures readable { IfOk result (λ op. IsReadable (operation op)) }
    ensures only { (g : Operation) → IsTextOf text.now g → IsOkAnd result (λ op. operation op ≡ g) }
    ensures fault { IfErr result (λ e. IsFault text.now e) }
{
    if let Err(place) = check_shape(text) {
        return Err(TripletError::Shape(place as u64));
    }
    let parts = components(text);
    if let Some(place) = first_zero(&parts) {
        return Err(TripletError::Zero(place as u64));
    }
    if let Some(place) = first_beyond(&parts) {
        return Err(TripletError::Range(place as u64));
    }
    let Some(op) = operation_of_parts(&parts) else {
        return Err(TripletError::Range(text.len() as u64));
    };
    if !is_unimodular(&op) {
        return Err(TripletError::Determinant);
    }
    Ok(op)
}

// The three components.
#[derive(Clone, Copy)]
struct Parts<'a> {
    x: Slots<'a>,
    y: Slots<'a>,
    z: Slots<'a>,
}

// The components of a text that writes a triplet.
fn components(text: &[u8]) -> Parts<'_>
    ensures digits { HaveDigits result.x × HaveDigits result.y × HaveDigits result.z }
    ensures parts { (t : WrittenTriplet) → IsSpelling t text.now → AreParts result t }
{
    let (x, rest) = component(opened(text));
    let (y, rest) = component(behind_comma(rest));
    let (z, _) = component(behind_comma(rest));
    Parts { x, y, z }
}

// What is left behind the blanks at the front and the quote, if there is one.
fn opened(text: &[u8]) -> Rest<'_>
    ensures same { result.place + length result.text.now ≡ length text.now }
    ensures rest { (blanks rest : List ℕ) (q : Option Bool) (ts : List Token) → AreBlanks blanks → text.now ≡ blanks ++ rest → IsUnquoted ts
        → AreSpelled (length blanks) (quote_tokens q ++ ts) rest → AreSpelled result.place ts result.text.now }
{
    let rest = behind(Rest { place: 0, text }, 0);
    if begins_with(rest.text, b'\'') {
        return behind_mark(rest);
    }
    if begins_with(rest.text, b'"') {
        return behind_mark(rest);
    }
    rest
}

// What is left behind a comma.
fn behind_comma<'a>(rest: Rest<'a>) -> Rest<'a>
    requires fits { rest.place + length rest.text.now < 2 ^ 64 }
    ensures same { result.place + length result.text.now ≡ rest.entry.place + length rest.entry.text.now }
    ensures rest { (ts : List Token) → AreSpelled rest.entry.place (mark 44 ∷ ts) rest.entry.text.now → AreSpelled result.place ts result.text.now }
{
    if rest.text.is_empty() {
        return rest;
    }
    behind_mark(rest)
}

// The place of the first denominator that is 0.
fn first_zero(parts: &Parts<'_>) -> Option<usize>
    ensures { (t : WrittenTriplet) → AreParts parts.now t → IsZeroAnswer result (triplet_denominators t) }
{
    parts.x.zero.or(parts.y.zero.or(parts.z.zero))
}

// The place of the first number that is beyond its limit.
fn first_beyond(parts: &Parts<'_>) -> Option<usize>
    ensures { (t : WrittenTriplet) → AreParts parts.now t → IsBeyondAnswer result (triplet_numbers t) }
{
    parts.x.beyond.or(parts.y.beyond.or(parts.z.beyond))
}

// The operation whose rows the components are, where its common denominator is within the limit.
fn operation_of_parts(parts: &Parts<'_>) -> Option<Op>
    requires digits { HaveDigits parts.now.x × HaveDigits parts.now.y × HaveDigits parts.now.z }
    requires sound { IsSound parts.now.x × IsSound parts.now.y × IsSound parts.now.z }
    ensures value { IfSome result (λ op. (t : WrittenTriplet) → AreParts parts.now t → IsValue t (operation op)) }
    ensures within { IfSome result (λ op. op.den ≤ DENOMINATOR_LIMIT) }
    ensures none { IsNone result → (t : WrittenTriplet) → AreParts parts.now t → ¬ (HasCommonDenominator t) }
{
    operation_of(row_of(&parts.x), row_of(&parts.y), row_of(&parts.z))
}

// Whether the determinant is 1 or -1.
fn is_unimodular(op: &Op) -> bool
    ensures { IsTrue result ↔ (unsigned_abs (determinant (operation op.now).rotation) ≡ 1) }
{
    op.det().unsigned_abs() == 1
}
