// Denominators that are 0.
ghost use Rattle.std.specs.Prelude.{◌≡◌, ◌+◌, ◌^◌, ◌<◌, ◌↔◌, length, map, All, IsNone, IfSome, IsTrue};
ghost use Rattle.irr_numeral.specs.TermPlaces.{ArePlaced, HasZero, IsZeroAt, written_term};
ghost use Rattle.irr_numeral.specs.WrittenNumber.{AreTerms, spelled};

use crate::terms::Written;

/// The place of the first denominator that is 0.
pub(crate) fn first_zero(terms: &[Written]) -> Option<usize>
    requires placed { ArePlaced terms.now }
    requires fits { length (spelled (map written_term terms.now)) < 2 ^ 64 }
    ensures none { IsNone result → All (λ t. ¬ (HasZero t)) (map written_term terms.now) }
    ensures some { IfSome result (λ place. IsZeroAt (map written_term terms.now) place) }
{
    for term in terms {
        if has_zero(term) {
            return Some(term.place + term.numerator.len() + 1);
        }
    }
    None
}

// Whether a term's denominator is 0.
fn has_zero(term: &Written) -> bool
    ensures { IsTrue result ↔ HasZero (written_term term.now) }
{
    match term.denominator {
        Some(digits) => digits == b"0".as_slice(),
        None => false,
    }
}
