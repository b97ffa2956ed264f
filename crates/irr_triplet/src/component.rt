// The components of a triplet, as they print.
ghost use Rattle.std.specs.Prelude.{Some, ◌≡◌, ◌<◌};
ghost use Rattle.irr_algebra.specs.Fin.{Fin, to_nat};
ghost use Rattle.irr_rational.specs.Ratio.{IsLowest};
ghost use Rattle.irr_text.specs.TripletText.{component_text};
ghost use Rattle.irr_seitz.specs.OperationMeaning.{operation};
ghost use Rattle.irr_triplet.specs.Terms.{terms_text};

use crate::term::{Letter, SignedFraction, SignedTerm, Term};
use irr_rat::Fraction;
use irr_seitz::Op;
use std::fmt;

/// One row of a rotation, as the coefficients of x, y and z, and the component of the vector in lowest terms.
#[derive(Clone, Copy, Debug)]
pub(crate) struct Component {
    pub(crate) x: i16,
    pub(crate) y: i16,
    pub(crate) z: i16,
    pub(crate) shift: Fraction,
    ghost lowest: { IsLowest shift.num shift.den },
}

impl Component {
    /// The component of an operation in row `i`.
    pub(crate) fn of(op: &Op, i: usize) -> Component
        requires { i < 3 }
        ensures { (p : Fin 3) → to_nat p ≡ i → terms_text result.x result.y result.z result.shift.num result.shift.den ≡ component_text (operation op.now) p }
    {
        let [x, y, z] = op.rot[i];
        let shift = Fraction::new(op.num[i], op.den);
        Component { x, y, z, shift }
    }
}

/// The letters in the order x, y, z and then the constant, with the coefficients that are not 0; a `+`
/// stands between terms and not at the front; 0 where there is no term.
impl fmt::Display for Component {
    ghost output = { λ c. Some (terms_text c.x c.y c.z c.shift.num c.shift.den) };

    fn fmt<W: fmt::Write>(&self, f: &mut fmt::Formatter<W>) -> fmt::Result {
        let x = Term {
            coefficient: self.x,
            letter: Letter::X,
        };
        let y = Term {
            coefficient: self.y,
            letter: Letter::Y,
        };
        let z = Term {
            coefficient: self.z,
            letter: Letter::Z,
        };
        let shift = self.shift;
        let (then_y, then_z) = (SignedTerm(y), SignedTerm(z));
        let then_shift = SignedFraction(shift);
        if x.coefficient != 0 {
            write!(f, "{x}{then_y}{then_z}{then_shift}")
        } else if y.coefficient != 0 {
            write!(f, "{y}{then_z}{then_shift}")
        } else if z.coefficient != 0 {
            write!(f, "{z}{then_shift}")
        } else {
            write!(f, "{shift}")
        }
    }
}
