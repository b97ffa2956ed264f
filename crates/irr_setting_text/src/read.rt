// Reading of the lines of a setting.
ghost use Rattle.std.specs.Prelude.{◌≡◌, ◌≤◌, ◌<◌, ◌^◌, ◌*◌, IfOk, IfErr, IfSome, IsNone, [], slice_index_or};
ghost use Rattle.irr_rational.specs.Ratio.{AreLowest, entry};
ghost use Rattle.irr_seitz.specs.Rotation.{rotation_of, IsWithin};
ghost use Rattle.irr_seitz.specs.OperationMeaning.{AreWithin as AreNumbersWithin};
ghost use Rattle.irr_token.specs.Fault.{AreNotZero, AreWithin};
ghost use Rattle.irr_setting_text.specs.SettingFault.{line_denominators, line_numbers, AreValues, HasCommonDenominator, row_by_row, IsBasisText, IsBasisFault, IsOriginText, IsOriginFault};
ghost use Rattle.irr_setting_text.specs.LineReading.{written_row, written_rows, RowHasDigits, RowsHaveDigits, AreSmall, DivideAll, AreNumerators, IsLeast};

use crate::row::{Row, Rows, row_of_line, rows_of_line};
use crate::shape::check_shape;
use crate::values::{Fractions, denominator_of_rows, fractions_of};
use irr_rat::Vec3;

/// The greatest number, and the greatest common denominator, of a basis.
pub const BASIS_LIMIT: u64 = 100;

/// The greatest number, and the greatest common denominator, of an origin.
pub const ORIGIN_LIMIT: u64 = 1000;

/// Why a line writes no basis or origin: it leaves the grammar at a place, a denominator is 0, or a number or
/// the common denominator passes its limit. Places count bytes from 0.
#[derive(Clone, Copy, Debug, PartialEq, Eq)]
pub enum SettingError {
    Shape(u64),
    Zero(u64),
    Range(u64),
}

/// The rows of P over their least common denominator, of a change of basis (a',b',c') = (a,b,c)P (International
/// Tables A, section 1.5).
#[derive(Clone, Copy, Debug, PartialEq, Eq)]
pub struct Basis {
    pub num: [[i64; 3]; 3],
    pub den: u32,
}

/// The basis that a line writes: the word `basis` and nine fractions, P row by row, with blanks between.
///
/// Of the errors the first that holds comes, in the order Shape, Zero, Range. A fault of a number has the place
/// of its first digit, and that of the common denominator alone the line's length. Numbers and the least common
/// denominator are at most 100.
pub fn read_basis(line: &[u8]) -> Result<Basis, SettingError>
    ensures read { IfOk result (λ b. IsBasisText line.now b.num b.den) }
    ensures within { IfOk result (λ b. IsWithin (10 ^ 4) (rotation_of b.num)) }
    ensures denominator { IfOk result (λ b. (0 < b.den) × (b.den ≤ 100)) }
    ensures fault { IfErr result (λ e. IsBasisFault line.now e) }
{
    if let Err(place) = check_shape(line, b"basis", 9) {
        return Err(SettingError::Shape(place as u64));
    }
    let rows = rows_of_line(line, b"basis");
    if let Some(place) = rows.zero() {
        return Err(SettingError::Zero(place as u64));
    }
    if let Some(place) = rows.beyond(BASIS_LIMIT) {
        return Err(SettingError::Range(place as u64));
    }
    match basis_of_rows(&rows) {
        Some(basis) => Ok(basis),
        None => Err(SettingError::Range(line.len() as u64)),
    }
}

/// The origin that a line writes: the word `origin` and three fractions with blanks between. It is the vector p
/// of x = P x' + p.
///
/// The errors are as for a basis. Numbers and the least common denominator are at most 1,000.
pub fn read_origin(line: &[u8]) -> Result<Vec3, SettingError>
    ensures read { IfOk result (λ p. IsOriginText line.now p) }
    ensures near { IfOk result (λ p. AreNumbersWithin (1000 * p.den) p.num) }
    ensures denominator { IfOk result (λ p. p.den ≤ 1000) }
    ensures fault { IfErr result (λ e. IsOriginFault line.now e) }
{
    if let Err(place) = check_shape(line, b"origin", 3) {
        return Err(SettingError::Shape(place as u64));
    }
    let row = row_of_line(line, b"origin");
    if let Some(place) = row.zero() {
        return Err(SettingError::Zero(place as u64));
    }
    if let Some(place) = row.beyond(ORIGIN_LIMIT) {
        return Err(SettingError::Range(place as u64));
    }
    match vector_of_row(&row) {
        Some(vector) => Ok(vector),
        None => Err(SettingError::Range(line.len() as u64)),
    }
}

// The basis of three rows, where its common denominator is within the limit.
fn basis_of_rows(rows: &Rows<'_>) -> Option<Basis>
    requires digits { RowsHaveDigits rows.now }
    requires not_zero { AreNotZero (line_denominators (written_rows rows.now)) }
    requires within { AreWithin (line_numbers 100 (written_rows rows.now)) }
    ensures values { IfSome result (λ b. AreValues {n = 9} (written_rows rows.now) (row_by_row b.num) b.den) }
    ensures lowest { IfSome result (λ b. AreLowest (row_by_row b.num) b.den) }
    ensures limit { IfSome result (λ b. b.den ≤ 100) }
    ensures within { IfSome result (λ b. IsWithin (10 ^ 4) (rotation_of b.num)) }
    ensures none { IsNone result → ¬ (HasCommonDenominator 100 9 (written_rows rows.now)) }
{
    let first = fractions_of(&rows.first, BASIS_LIMIT);
    let second = fractions_of(&rows.second, BASIS_LIMIT);
    let third = fractions_of(&rows.third, BASIS_LIMIT);
    let den = denominator_of_rows(&first, &second, &third, BASIS_LIMIT)?;
    Some(basis_over(&first, &second, &third, den))
}

// The basis whose rows the fractions are.
fn basis_over(first: &Fractions, second: &Fractions, third: &Fractions, den: u64) -> Basis
    requires least { IsLeast (DivideAll first.now second.now third.now) den }
    requires small { den ≤ 100 }
    requires first { AreSmall 100 first.now }
    requires second { AreSmall 100 second.now }
    requires third { AreSmall 100 third.now }
    ensures denominator { result.den ≡ den }
    ensures first { AreNumerators first.now (slice_index_or result.num 0 []) den }
    ensures second { AreNumerators second.now (slice_index_or result.num 1 []) den }
    ensures third { AreNumerators third.now (slice_index_or result.num 2 []) den }
    ensures within { IsWithin (10 ^ 4) (rotation_of result.num) }
{
    let num = [
        first.numerators(den),
        second.numerators(den),
        third.numerators(den),
    ];
    Basis {
        num,
        den: den as u32,
    }
}

// The vector of a row, where its common denominator is within the limit.
fn vector_of_row(row: &Row<'_>) -> Option<Vec3>
    requires digits { RowHasDigits row.now }
    requires not_zero { AreNotZero (line_denominators (written_row row.now)) }
    requires within { AreWithin (line_numbers 1000 (written_row row.now)) }
    ensures values { IfSome result (λ p. AreValues {n = 3} (written_row row.now) (entry p.num) p.den) }
    ensures limit { IfSome result (λ p. p.den ≤ 1000) }
    ensures near { IfSome result (λ p. AreNumbersWithin (1000 * p.den) p.num) }
    ensures none { IsNone result → ¬ (HasCommonDenominator 1000 3 (written_row row.now)) }
{
    let fractions = fractions_of(row, ORIGIN_LIMIT);
    let den = fractions.denominator(ORIGIN_LIMIT)?;
    Some(fractions.vector(den))
}
