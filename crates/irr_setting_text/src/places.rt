// The places of the first numbers of a line that are at fault.
ghost use Rattle.std.specs.Prelude.{IfSome, IsNone};
ghost use Rattle.irr_token.specs.Reading.{written_quotient, HasDigits};
ghost use Rattle.irr_token.specs.Fault.{AreNotZero, IsFirstZero, AreWithin, IsFirstBeyond};
ghost use Rattle.irr_setting_text.specs.SettingFault.{line_denominators, numbers_within, line_numbers};
ghost use Rattle.irr_setting_text.specs.LineReading.{written_row, written_rows, RowHasDigits, RowsHaveDigits};

use crate::row::{Row, Rows};
use irr_token::{Quotient, is_above, zero_place};

// The place of the first number of a fraction that is beyond the limit.
fn beyond_in_fraction(quotient: &Quotient<'_>, limit: u64) -> Option<usize>
    requires { HasDigits quotient.now }
    ensures none { IsNone result → AreWithin (numbers_within limit (written_quotient quotient.now)) }
    ensures some { IfSome result (IsFirstBeyond (numbers_within limit (written_quotient quotient.now))) }
{
    let numerator = quotient.numerator;
    if is_above(numerator, limit) {
        return Some(numerator.place);
    }
    let denominator = quotient.denominator?;
    if is_above(denominator, limit) {
        return Some(denominator.place);
    }
    None
}

impl Row<'_> {
    ghost use Rattle.std.specs.Prelude.{IfSome, IsNone};

    // The place of the first denominator that is 0.
    pub(crate) fn zero(&self) -> Option<usize>
        requires { RowHasDigits self.now }
        ensures none { IsNone result → AreNotZero (line_denominators (written_row self.now)) }
        ensures some { IfSome result (IsFirstZero (line_denominators (written_row self.now))) }
    {
        if let Some(place) = zero_place(&self.x) {
            return Some(place);
        }
        if let Some(place) = zero_place(&self.y) {
            return Some(place);
        }
        zero_place(&self.z)
    }

    // The place of the first number that is beyond the limit.
    pub(crate) fn beyond(&self, limit: u64) -> Option<usize>
        requires { RowHasDigits self.now }
        ensures none { IsNone result → AreWithin (line_numbers limit (written_row self.now)) }
        ensures some { IfSome result (IsFirstBeyond (line_numbers limit (written_row self.now))) }
    {
        if let Some(place) = beyond_in_fraction(&self.x, limit) {
            return Some(place);
        }
        if let Some(place) = beyond_in_fraction(&self.y, limit) {
            return Some(place);
        }
        beyond_in_fraction(&self.z, limit)
    }
}

impl Rows<'_> {
    ghost use Rattle.std.specs.Prelude.{IfSome, IsNone};

    // The place of the first denominator that is 0.
    pub(crate) fn zero(&self) -> Option<usize>
        requires { RowsHaveDigits self.now }
        ensures none { IsNone result → AreNotZero (line_denominators (written_rows self.now)) }
        ensures some { IfSome result (IsFirstZero (line_denominators (written_rows self.now))) }
    {
        if let Some(place) = self.first.zero() {
            return Some(place);
        }
        if let Some(place) = self.second.zero() {
            return Some(place);
        }
        self.third.zero()
    }

    // The place of the first number that is beyond the limit.
    pub(crate) fn beyond(&self, limit: u64) -> Option<usize>
        requires { RowsHaveDigits self.now }
        ensures none { IsNone result → AreWithin (line_numbers limit (written_rows self.now)) }
        ensures some { IfSome result (IsFirstBeyond (line_numbers limit (written_rows self.now))) }
    {
        if let Some(place) = self.first.beyond(limit) {
            return Some(place);
        }
        if let Some(place) = self.second.beyond(limit) {
            return Some(place);
        }
        self.third.beyond(limit)
    }
}
