// The components of a triplet, with their terms by letters.
ghost use Rattle.std.specs.Prelude.{ℕ, ◌≡◌, ◌+◌, ◌<◌, ◌^◌, ◌↔◌, ◌⊎◌, List, ◌∷◌, ◌++◌, length, IsTrue, Some, if◌then◌else◌};
ghost use Rattle.irr_token.specs.Token.{Token};
ghost use Rattle.irr_token.specs.Token.Token.{mark};
ghost use Rattle.irr_token.specs.Spelling.{AreSpelled};
ghost use Rattle.irr_token.specs.Reading.{BeginsWith};
ghost use Rattle.irr_triplet.specs.declared.shape.Slot.{Slot};
ghost use Rattle.irr_triplet.specs.WrittenTriplet.{Term, WrittenComponent, slot_of, later_tokens, component_tokens, AreDistinct, IsComponent};
ghost use Rattle.irr_triplet.specs.TripletFault.{same_slot, terms};
ghost use Rattle.irr_triplet.specs.WrittenTerms.{written_term, slot_term, HasTermDigits, HaveDigits, IsBehindComponent, IsWith, IsReadOn, IsRead};

use crate::term::Letter;
use crate::written::{Coefficient, WrittenTerm, beyond_of_term, term, zero_of_term};
use irr_token::{Quotient, Rest, begins_with};

// The terms of a component by their letters, and the places of its first denominator that is 0 and its
// first number that is beyond its limit.
#[derive(Clone, Copy)]
pub(crate) struct Slots<'a> {
    pub(crate) x: Option<Coefficient<'a>>,
    pub(crate) y: Option<Coefficient<'a>>,
    pub(crate) z: Option<Coefficient<'a>>,
    pub(crate) constant: Option<Quotient<'a>>,
    pub(crate) zero: Option<usize>,
    pub(crate) beyond: Option<usize>,
}

// The component at the front, and what is left behind it.
pub(crate) fn component<'a>(rest: Rest<'a>) -> (Slots<'a>, Rest<'a>)
    requires fits { rest.place + length rest.text.now < 2 ^ 64 }
    ensures same { result.1.place + length result.1.text.now ≡ rest.entry.place + length rest.entry.text.now }
    ensures digits { HaveDigits result.0 }
    ensures component { (c : WrittenComponent) (ts : List Token) → IsComponent c → IsBehindComponent ts → AreSpelled rest.entry.place (component_tokens c ++ ts) rest.entry.text.now
        → IsRead (terms c) result.0 × AreSpelled result.1.place ts result.1.text.now }
{
    let (front, rest) = term(rest);
    let none = Slots {
        x: None,
        y: None,
        z: None,
        constant: None,
        zero: None,
        beyond: None,
    };
    later_terms(with_term(none, front), rest)
}

// The slots with the terms at the front more, each of which has a sign, and what is left behind them.
fn later_terms<'a>(slots: Slots<'a>, rest: Rest<'a>) -> (Slots<'a>, Rest<'a>)
    requires fits { rest.place + length rest.text.now < 2 ^ 64 }
    requires digits { HaveDigits slots }
    ensures same { result.1.place + length result.1.text.now ≡ rest.entry.place + length rest.entry.text.now }
    ensures digits { HaveDigits result.0 }
    ensures terms { (ts : List Term) (tail : List Token) → AreDistinct ts → IsBehindComponent tail → AreSpelled rest.entry.place (later_tokens ts ++ tail) rest.entry.text.now
        → IsReadOn slots.entry ts result.0 × AreSpelled result.1.place tail result.1.text.now }
{
    let mut all = slots;
    let mut left = rest;
    while begins_with_sign(left.text) {
        let (next, behind) = term(left);
        all = with_term(all, next);
        left = behind;
    }
    (all, left)
}

// Whether a sign stands at the front.
fn begins_with_sign(text: &[u8]) -> bool
    ensures { IsTrue result ↔ (BeginsWith 43 text.now ⊎ BeginsWith 45 text.now) }
{
    if begins_with(text, b'+') {
        return true;
    }
    begins_with(text, b'-')
}

// The slots with one term more.
fn with_term<'a>(slots: Slots<'a>, term: WrittenTerm<'a>) -> Slots<'a>
    requires digits { HaveDigits slots }
    requires term { HasTermDigits term }
    ensures digits { HaveDigits result }
    ensures with { IsWith slots.entry (written_term term.entry) result }
{
    let zero = slots.zero.or(zero_of_term(&term));
    let beyond = slots.beyond.or(beyond_of_term(&term));
    let Slots {
        x,
        y,
        z,
        constant,
        ..
    } = in_its_slot(slots, term);
    Slots {
        x,
        y,
        z,
        constant,
        zero,
        beyond,
    }
}

// The slots with a term in its slot.
fn in_its_slot<'a>(slots: Slots<'a>, term: WrittenTerm<'a>) -> Slots<'a>
    requires digits { HaveDigits slots }
    requires term { HasTermDigits term }
    ensures digits { HaveDigits result }
    ensures slots { (k : Slot) → slot_term result k ≡ (if same_slot k (slot_of (written_term term.entry).body) then Some (written_term term.entry) else slot_term slots.entry k) }
{
    let Slots {
        x,
        y,
        z,
        constant,
        zero,
        beyond,
    } = slots;
    match term {
        WrittenTerm::Lettered(coefficient, Letter::X) => Slots {
            x: Some(coefficient),
            y,
            z,
            constant,
            zero,
            beyond,
        },
        WrittenTerm::Lettered(coefficient, Letter::Y) => Slots {
            x,
            y: Some(coefficient),
            z,
            constant,
            zero,
            beyond,
        },
        WrittenTerm::Lettered(coefficient, Letter::Z) => Slots {
            x,
            y,
            z: Some(coefficient),
            constant,
            zero,
            beyond,
        },
        WrittenTerm::Constant(quotient) => Slots {
            x,
            y,
            z,
            constant: Some(quotient),
            zero,
            beyond,
        },
    }
}
