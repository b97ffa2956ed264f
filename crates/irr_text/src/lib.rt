//! The printed forms of numbers, wave vectors, operations and reports, as definitions.
#![tactic(auto)]

ghost use Rattle.std.specs.Prelude.{ℕ, ℤ, ◌≡◌, ◌<◌, codes};
ghost use Rattle.irr_rational.specs.Rational.{Rational, ratio};
ghost use Rattle.irr_rational.specs.Ratio.{IsLowest};
ghost use Rattle.irr_canonical.specs.Coefficient.{denominator};
ghost use Rattle.irr_number.specs.Number.{numbers};
ghost use Rattle.irr_space.specs.Operation.{identity};
ghost use Rattle.irr_text.specs.NumberText.{numerator, rational_text, fraction_text, number_text};
ghost use Rattle.irr_text.specs.TripletText.{triplet_text};

/// A rational number is printed in lowest terms.
pub fn text_in_lowest_terms()
    ensures lowest { (x : Rational) → IsLowest (numerator x) (denominator 1 x) × (ratio (numerator x) (denominator 1 x) ≡ x) }
    ensures text { (a : ℤ) (b : ℕ) → IsLowest a b → rational_text (ratio a b) ≡ fraction_text a b }
{}

/// The number 1 is printed as `1` at each order, and the identity as `x,y,z`.
pub fn texts_of_one()
    ensures number { (n : ℕ) → 0 < n → number_text n (numbers n).one ≡ codes "1" }
    ensures operation { triplet_text identity ≡ codes "x,y,z" }
{}
