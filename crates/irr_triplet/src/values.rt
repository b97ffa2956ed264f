// The values of the terms of a triplet.
ghost use Rattle.std.specs.Prelude.{ℕ, ℤ, ◌≡◌, ◌<◌, ◌≤◌, [], ◌∷◌, Option, IfSome, IsNone};
ghost use Rattle.std.specs.Option.{option_map};
ghost use Rattle.std.specs.Str.Parse.{AllDigits};
ghost use Rattle.irr_algebra.specs.Fin.{Fin};
ghost use Rattle.irr_algebra.specs.Fin.Fin.{first, next};
ghost use Rattle.irr_rational.specs.Rational.{ratio};
ghost use Rattle.irr_rational.specs.Ratio.{AreLowest};
ghost use Rattle.irr_rat.specs.VectorMeaning.{vector};
ghost use Rattle.irr_seitz.specs.OperationMeaning.{operation};
ghost use Rattle.irr_seitz.specs.Rotation.{rotation_of};
ghost use Rattle.irr_token.specs.declared.faults.TheConstants.{DENOMINATOR_LIMIT as denominator_limit};
ghost use Rattle.irr_token.specs.Quotient.{with_sign};
ghost use Rattle.irr_token.specs.Fault.{AreWithin};
ghost use Rattle.irr_token.specs.Reading.{placed_number, HasDigits};
ghost use Rattle.irr_triplet.specs.declared.shape.Slot.TheVariants.{X, Y, Z, Constant};
ghost use Rattle.irr_triplet.specs.declared.term.Letter.{Letter};
ghost use Rattle.irr_triplet.specs.Rows.{IsRow};
ghost use Rattle.irr_triplet.specs.TripletFault.{size_value, size_limited, coefficient_of, constant_of};
ghost use Rattle.irr_triplet.specs.WrittenTerms.{letter_term, constant_term, slot_term, HasSizeDigits, HaveDigits};
ghost use Rattle.irr_triplet.specs.TripletParts.{IsSized, IsSoundConstant, IsSound, HasBounds};

use crate::reading::COEFFICIENT_LIMIT;
use crate::slots::Slots;
use crate::written::Coefficient;
use irr_digits::capped_value;
use irr_rat::Vec3;
use irr_seitz::Op;
use irr_token::{
    DENOMINATOR_LIMIT, Number, Quotient, Value, over_least_denominator, value_of_quotient,
};

// A row of a rotation, and the component of the vector there.
#[derive(Clone, Copy)]
pub(crate) struct Row {
    pub(crate) x: i16,
    pub(crate) y: i16,
    pub(crate) z: i16,
    pub(crate) shift: Value,
}

// The row that a component writes, where its numbers are within their limits and it has no denominator 0.
pub(crate) fn row_of(slots: &Slots<'_>) -> Row
    requires digits { HaveDigits slots.now }
    requires sound { IsSound slots.now }
    ensures x { result.x ≡ coefficient_of (slot_term slots.now X) }
    ensures y { result.y ≡ coefficient_of (slot_term slots.now Y) }
    ensures z { result.z ≡ coefficient_of (slot_term slots.now Z) }
    ensures shift { ratio result.shift.num result.shift.den ≡ constant_of (slot_term slots.now Constant) }
    ensures bounds { HasBounds result.shift }
{
    let x = coefficient(slots.x);
    let y = coefficient(slots.y);
    let z = coefficient(slots.z);
    let shift = constant(slots.constant);
    Row { x, y, z, shift }
}

// A coefficient with its sign, 0 where the letter is missing.
fn coefficient(slot: Option<Coefficient<'_>>) -> i16
    requires digits { IfSome slot HasSizeDigits }
    requires sized { IfSome slot IsSized }
    ensures { (l : Letter) → result ≡ coefficient_of (option_map (letter_term l) slot.entry) }
{
    match slot {
        Some(coefficient) => signed(coefficient.negative, size(coefficient.number)),
        None => 0,
    }
}

// The number before a letter, 1 where none is written.
fn size(number: Option<Number<'_>>) -> u64
    requires digits { IfSome (option_map placed_number number) (λ n. AllDigits 10 n.digits) }
    requires within { AreWithin (size_limited (option_map placed_number number)) }
    ensures value { result ≡ size_value (option_map placed_number number.entry) }
    ensures within { result ≤ 9 }
{
    match number {
        Some(number) => capped_value(number.digits, COEFFICIENT_LIMIT).unwrap(),
        None => 1,
    }
}

// A number with a sign.
fn signed(negative: bool, size: u64) -> i16
    requires { size ≤ 9 }
    ensures { result ≡ with_sign negative size }
{
    let size = size as i16;
    if negative { -size } else { size }
}

// The constant with its sign, 0 where there is none.
fn constant(slot: Option<Quotient<'_>>) -> Value
    requires digits { IfSome slot HasDigits }
    requires sound { IfSome slot IsSoundConstant }
    ensures value { ratio result.num result.den ≡ constant_of (option_map constant_term slot.entry) }
    ensures bounds { HasBounds result }
{
    match slot {
        Some(quotient) => value_of_quotient(&quotient, DENOMINATOR_LIMIT),
        None => Value { num: 0, den: 1 },
    }
}

// The operation of three rows, where its common denominator is within the limit.
pub(crate) fn operation_of(x: Row, y: Row, z: Row) -> Option<Op>
    requires bounds { HasBounds x.shift × HasBounds y.shift × HasBounds z.shift }
    ensures rows { IfSome result (λ op. IsRow (operation op) first x.x x.y x.z x.shift.num x.shift.den
        × IsRow (operation op) (next first) y.x y.y y.z y.shift.num y.shift.den
        × IsRow (operation op) (next (next first)) z.x z.y z.z z.shift.num z.shift.den) }
    ensures within { IfSome result (λ op. op.den ≤ denominator_limit) }
    ensures none { IsNone result → (num : Fin 3 → ℤ) (den : ℕ) → AreLowest num den → ratio (num first) den ≡ ratio x.shift.num x.shift.den
        → ratio (num (next first)) den ≡ ratio y.shift.num y.shift.den → ratio (num (next (next first))) den ≡ ratio z.shift.num z.shift.den → denominator_limit < den }
{
    let shift = over_least_denominator(x.shift, y.shift, z.shift)?;
    Some(with_vector(x, y, z, shift))
}

// The operation with these three rows in its rotation, and this vector.
fn with_vector(x: Row, y: Row, z: Row, shift: Vec3) -> Op
    ensures rotation { (operation result).rotation ≡ rotation_of ((x.x ∷ x.y ∷ x.z ∷ []) ∷ (y.x ∷ y.y ∷ y.z ∷ []) ∷ (z.x ∷ z.y ∷ z.z ∷ []) ∷ []) }
    ensures vector { (operation result).vector ≡ vector shift }
    ensures den { result.den ≡ shift.den }
{
    let num = shift.num;
    let den = shift.den;
    Op {
        rot: [[x.x, x.y, x.z], [y.x, y.y, y.z], [z.x, z.y, z.z]],
        num,
        den,
    }
}
