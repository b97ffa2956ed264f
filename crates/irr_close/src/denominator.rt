// The common denominator of vectors.
ghost use Rattle.std.specs.Prelude.{IsTrue, ◌↔◌};
ghost use Rattle.irr_close.specs.Limits.{HasSmallDenominator};

use irr_rat::lcm_checked;
use irr_seitz::Op;

/// Whether the vectors have a common denominator of at most 100,000.
pub fn have_small_denominator(generators: &[Op]) -> bool
    ensures { IsTrue result ↔ HasSmallDenominator generators.now }
{
    let mut common = 1u64;
    for generator in generators {
        match lcm_checked(common, u64::from(generator.den)) {
            Some(multiple) => {
                if multiple > 100_000 {
                    return false;
                }
                common = multiple;
            }
            None => return false,
        }
    }
    true
}
