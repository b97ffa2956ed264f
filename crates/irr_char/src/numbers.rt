// The order of numbers by their canonical forms.
ghost use Rattle.std.specs.Prelude.{ℕ, ℤ, pos, ◌≡◌, ◌<◌, ◌≤◌, ◌<ℤ◌, ◌≤ℤ◌};
ghost use Rattle.std.specs.Ordering.{MatchOrdering};
ghost use Rattle.irr_number.specs.Number.{Number};
ghost use Rattle.irr_rational.specs.Rational.{ratio};
ghost use Rattle.irr_rational.specs.Order.{◌<ℚ◌};
ghost use Rattle.irr_space.specs.CompleteList.{IsNumberBefore};
ghost use Rattle.irr_char.specs.Rows.{IsFormOf, IsTermBefore, IsSameTerm};

use crate::forms::Form;
use std::cmp::Ordering;

// Compares a/b with c/d: whole parts first, and then what is left over them.
fn compare_ratios(a: i128, b: u64, c: i128, d: u64) -> Ordering
    requires left { 0 < b }
    requires right { 0 < d }
    ensures { MatchOrdering result (ratio a b <ℚ ratio c d) (ratio a b ≡ ratio c d) (ratio c d <ℚ ratio a b) }
{
    let whole = a.div_euclid(i128::from(b));
    let other_whole = c.div_euclid(i128::from(d));
    if whole != other_whole {
        return whole.cmp(&other_whole);
    }
    let rest = a.rem_euclid(i128::from(b)).unsigned_abs() * u128::from(d);
    let other_rest = c.rem_euclid(i128::from(d)).unsigned_abs() * u128::from(b);
    rest.cmp(&other_rest)
}

// The greater of a coefficient and 0 stands first.
fn against_none(coefficient: i128) -> Ordering
    ensures { MatchOrdering result (pos 0 ≤ℤ coefficient) ⊥ (coefficient <ℤ pos 0) }
{
    if coefficient < 0 {
        Ordering::Greater
    } else {
        Ordering::Less
    }
}

// Which of two terms stands first, by the coefficients at the first exponent of the two.
fn compare_terms(x: (u32, i128), x_den: u64, y: (u32, i128), y_den: u64) -> Ordering
    requires left { 0 < x_den }
    requires right { 0 < y_den }
    ensures { MatchOrdering result (IsTermBefore x_den y_den x y) (IsSameTerm x_den y_den x y) (IsTermBefore y_den x_den y x) }
{
    match x.0.cmp(&y.0) {
        Ordering::Less => against_none(x.1),
        Ordering::Greater => against_none(y.1).reverse(),
        Ordering::Equal => compare_ratios(y.1, y_den, x.1, x_den),
    }
}

/// Which of two numbers stands first: at the first exponent at which their coefficients differ, the one with
/// the greater coefficient.
pub(crate) fn compare_numbers(x: &Form, y: &Form) -> Ordering
    ensures { (n : ℕ) (a b : Number n) → 0 < n → IsFormOf n a x.now.den x.now.terms.items → IsFormOf n b y.now.den y.now.terms.items
        → MatchOrdering result (IsNumberBefore n a b) (a ≡ b) (IsNumberBefore n b a) }
{
    let xs = x.terms.as_slice();
    let ys = y.terms.as_slice();
    let common = xs.len().min(ys.len());
    for k in 0..common {
        let order = compare_terms(xs[k], x.den, ys[k], y.den);
        if order != Ordering::Equal {
            return order;
        }
    }
    if common < xs.len() {
        return against_none(xs[common].1);
    }
    if common < ys.len() {
        return against_none(ys[common].1).reverse();
    }
    Ordering::Equal
}
