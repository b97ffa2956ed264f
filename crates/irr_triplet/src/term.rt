// The terms of a component, as they print.
ghost use Rattle.std.specs.Prelude.{Some, [], ◌∷◌};
ghost use Rattle.irr_text.specs.NumberText.{sum_text, signed_fraction};
ghost use Rattle.irr_text.specs.TripletText.{letter_text};
ghost use Rattle.irr_triplet.specs.Letters.{letter_byte};

use irr_rat::Fraction;
use std::fmt;

/// A letter of a coordinate.
#[derive(Clone, Copy, Debug)]
pub(crate) enum Letter {
    X,
    Y,
    Z,
}

impl fmt::Display for Letter {
    ghost output = { λ l. Some (letter_byte l ∷ []) };

    fn fmt<W: fmt::Write>(&self, f: &mut fmt::Formatter<W>) -> fmt::Result {
        match self {
            Letter::X => write!(f, "x"),
            Letter::Y => write!(f, "y"),
            Letter::Z => write!(f, "z"),
        }
    }
}

/// A letter with its coefficient. By itself it prints without a `+`, and as 0 where the coefficient is 0.
#[derive(Clone, Copy, Debug)]
pub(crate) struct Term {
    pub(crate) coefficient: i16,
    pub(crate) letter: Letter,
}

impl fmt::Display for Term {
    ghost output = { λ t. Some (sum_text (letter_text t.coefficient (letter_byte t.letter))) };

    fn fmt<W: fmt::Write>(&self, f: &mut fmt::Formatter<W>) -> fmt::Result {
        let coefficient = self.coefficient;
        let letter = self.letter;
        if coefficient == 0 {
            write!(f, "0")
        } else if coefficient == 1 {
            write!(f, "{letter}")
        } else if coefficient == -1 {
            write!(f, "-{letter}")
        } else {
            write!(f, "{coefficient}{letter}")
        }
    }
}

/// A letter with its coefficient behind other terms: with its sign, and nothing where the coefficient is 0.
#[derive(Clone, Copy, Debug)]
pub(crate) struct SignedTerm(pub(crate) Term);

impl fmt::Display for SignedTerm {
    ghost output = { λ t. Some (letter_text t.0.coefficient (letter_byte t.0.letter)) };

    fn fmt<W: fmt::Write>(&self, f: &mut fmt::Formatter<W>) -> fmt::Result {
        let term = self.0;
        if term.coefficient > 0 {
            write!(f, "+{term}")
        } else if term.coefficient < 0 {
            write!(f, "{term}")
        } else {
            Ok(())
        }
    }
}

/// A constant behind other terms: with its sign, and nothing where it is 0.
#[derive(Clone, Copy, Debug)]
pub(crate) struct SignedFraction(pub(crate) Fraction);

impl fmt::Display for SignedFraction {
    ghost output = { λ q. Some (signed_fraction q.0.num q.0.den) };

    fn fmt<W: fmt::Write>(&self, f: &mut fmt::Formatter<W>) -> fmt::Result {
        let fraction = self.0;
        if fraction.num > 0 {
            write!(f, "+{fraction}")
        } else if fraction.num < 0 {
            write!(f, "{fraction}")
        } else {
            Ok(())
        }
    }
}
