// Wave vectors from wide numbers.
ghost use Rattle.std.specs.Prelude.{ℕ, ◌≡◌, ◌<◌, ◌≤◌, ◌^◌, ◌*◌};
ghost use Rattle.irr_seitz.specs.OperationMeaning.{AreWithin};
ghost use Rattle.irr_kvec.specs.WaveMeaning.{wave_of, wave_vector};
ghost use Rattle.irr_kvec.specs.Centrings.{IsWithinLimits};

use irr_kvec::Wave;
use irr_rat::lowest_terms;

/// The wave vector (num[0]/den, num[1]/den, num[2]/den).
pub fn narrowed(num: [i128; 3], den: u64) -> Wave
    requires positive { 0 < den }
    requires denominator { den ≤ 10 ^ 7 }
    requires numerators { AreWithin (3 * 10 ^ 13) num }
    ensures wave { wave_vector result ≡ wave_of num den }
    ensures limits { IsWithinLimits result }
{
    let ([x, y, z], least) = lowest_terms(num, den);
    Wave {
        num: [x as i64, y as i64, z as i64],
        den: least as u32,
    }
}
