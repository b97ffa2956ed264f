// The order of wave vectors.
ghost use Rattle.std.specs.Prelude.{◌≡◌, ◌↔◌, ◌⊎◌, IsTrue};
ghost use Rattle.std.specs.Ordering.{MatchOrdering};
ghost use Rattle.irr_rational.specs.Order.{IsAtMost, IsBelow};
ghost use Rattle.irr_space.specs.Operation.{wave_component};
ghost use Rattle.irr_rat.specs.VectorMeaning.{vector, vector_of};
ghost use Rattle.irr_kvec.specs.WaveMeaning.{wave_vector};

use irr_kvec::Wave;
use irr_rat::Vec3;
use std::cmp::Ordering;

// The three components, as those of a vector.
fn components(wave: &Wave) -> Vec3
    ensures { vector result ≡ vector_of wave.now.num wave.now.den }
{
    let num = wave.num;
    Vec3 { num, den: wave.den }
}

// The lexicographic order by value.
fn compare(a: &Wave, b: &Wave) -> Ordering
    ensures { MatchOrdering result
        (IsBelow (wave_component (wave_vector a.now)) (wave_component (wave_vector b.now)))
        (wave_vector a.now ≡ wave_vector b.now)
        (IsBelow (wave_component (wave_vector b.now)) (wave_component (wave_vector a.now))) }
{
    components(a).cmp(&components(b))
}

/// Whether a wave vector stands before another one.
pub(crate) fn is_below(a: &Wave, b: &Wave) -> bool
    ensures { IsTrue result ↔ IsBelow (wave_component (wave_vector a.now)) (wave_component (wave_vector b.now)) }
{
    match compare(a, b) {
        Ordering::Less => true,
        Ordering::Equal => false,
        Ordering::Greater => false,
    }
}

/// Whether two wave vectors are equal.
pub fn is_same(a: &Wave, b: &Wave) -> bool
    ensures { IsTrue result ↔ (wave_vector a.now ≡ wave_vector b.now) }
{
    match compare(a, b) {
        Ordering::Less => false,
        Ordering::Equal => true,
        Ordering::Greater => false,
    }
}

/// The one that stands before the other.
pub(crate) fn lesser(a: Wave, b: Wave) -> Wave
    ensures one { (result ≡ a) ⊎ (result ≡ b) }
    ensures first { IsAtMost (wave_component (wave_vector result)) (wave_component (wave_vector a)) }
    ensures second { IsAtMost (wave_component (wave_vector result)) (wave_component (wave_vector b)) }
{
    if is_below(&b, &a) {
        return b;
    }
    a
}
