// Laws of the numbers of families.
ghost use Rattle.std.specs.Prelude.{ℕ, ◌<◌};
ghost use Rattle.std.specs.Int.{◌∣◌};
ghost use Rattle.irr_number.specs.Number.{Number};
ghost use Rattle.irr_canonical.specs.Coefficient.{denominator};
ghost use Rattle.irr_climb.specs.Sizes.{IsSmallNumber};

/// A number that is small over a common denominator of many is small over each divisor of it that is still a denominator of
/// the number, as over their least common denominator.
pub fn numbers_over_less_denominators()
    ensures { (M e l : ℕ) (x : Number M) → 0 < e → l ∣ e → denominator M x ∣ l → IsSmallNumber M e x → IsSmallNumber M l x }
{}
