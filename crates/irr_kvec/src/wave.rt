// Wave vectors, and how they print.
ghost use Rattle.std.specs.Prelude.{Some};
ghost use Rattle.irr_rat.specs.Lowest.{AreThreeLowest};

use irr_rat::Fraction;
use std::fmt;

/// A wave vector: three components over their least common denominator, in the basis of the reciprocal
/// lattice of the coordinates' lattice. It stands for the row (num[0]/den, num[1]/den, num[2]/den).
#[derive(Clone, Copy, Debug)]
pub struct Wave {
    pub num: [i64; 3],
    pub den: u32,
    pub ghost lowest: { AreThreeLowest num den },
}

/// Three components in lowest terms, with commas between.
impl fmt::Display for Wave {
    ghost use Rattle.std.specs.Prelude.{Some};
    ghost use Rattle.irr_text.specs.WaveText.{wave_text};
    ghost use Rattle.irr_kvec.specs.WaveMeaning.{wave_vector};

    ghost output = { λ w. Some (wave_text (wave_vector w)) };

    fn fmt<W: fmt::Write>(&self, f: &mut fmt::Formatter<W>) -> fmt::Result {
        let x = Fraction::new(self.num[0], self.den);
        let y = Fraction::new(self.num[1], self.den);
        let z = Fraction::new(self.num[2], self.den);
        write!(f, "{x},{y},{z}")
    }
}
