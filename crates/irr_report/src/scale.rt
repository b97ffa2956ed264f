// What the values of a representation come to.
ghost use Rattle.std.specs.Prelude.{◌<◌, ◌≤◌, [], IfSome, IsNone};
ghost use Rattle.irr_numeral.specs.declared.limits.TheConstants.{COEFFICIENT_LIMIT, DENOMINATOR_LIMIT};

use irr_numeral::{COEFFICIENT_LIMIT, DENOMINATOR_LIMIT};
use irr_rat::gcd;

/// What the values of a representation come to so far, as they are written: their least common denominator, and
/// the greatest size over it. Both are within the limits.
#[derive(Clone, Copy, Debug)]
pub(crate) struct Scale {
    denominator: u64,
    size: u64,
    ghost positive: { 0 < denominator },
    ghost denominator_within: { denominator ≤ DENOMINATOR_LIMIT },
    ghost size_within: { size ≤ COEFFICIENT_LIMIT },
}

impl Scale {
    ghost use Rattle.irr_report.specs.ValueTexts.{IsScaleOf, IsJoined, CannotJoin};

    /// The scale of no values.
    pub(crate) fn new() -> Scale
        ensures { IsScaleOf result [] }
    {
        Scale {
            denominator: 1,
            size: 0,
        }
    }

    /// The scale with a value of this denominator and size, where it is within the limits.
    pub(crate) fn joined(self, denominator: u64, size: u64) -> Option<Scale>
        requires positive { 0 < denominator }
        requires denominator { denominator ≤ DENOMINATOR_LIMIT }
        requires size { size ≤ COEFFICIENT_LIMIT }
        ensures joined { IfSome result (IsJoined self.denominator self.size denominator size) }
        ensures none { IsNone result → CannotJoin self.denominator self.size denominator size }
    {
        let common = self.denominator / gcd(self.denominator, denominator) * denominator;
        if common > DENOMINATOR_LIMIT {
            return None;
        }
        let earlier = self.size * (common / self.denominator);
        let later = size * (common / denominator);
        let greatest = if earlier < later { later } else { earlier };
        if greatest > COEFFICIENT_LIMIT {
            return None;
        }
        Some(Scale {
            denominator: common,
            size: greatest,
        })
    }
}
