// The wave vectors of made inputs.
ghost use Rattle.std.specs.Prelude.{◌≡◌, ◌<◌, [], ◌∷◌, pos};
ghost use Rattle.irr_kvec.specs.Centrings.{IsWithinLimits};
ghost use Rattle.irr_kvec.specs.WaveMeaning.{wave_vector, wave_of};
ghost use Rattle.irr_gen.specs.Groups.{zone_boundary, zone_inside};
ghost use Rattle.irr_gen.specs.MadeInput.{made_wave as made_of};

use crate::group::{SpaceGroup, group_of};
use irr_kvec::Wave;
use irr_rat::Vec3;

// The wave vector with these components, which are not negative.
fn wave(x: u8, y: u8, z: u8, den: u8) -> Wave
    requires { 0 < den }
    ensures value { wave_vector result ≡ wave_of (pos x ∷ pos y ∷ pos z ∷ []) den }
    ensures limits { IsWithinLimits result }
{
    let lowest = Vec3::new([i64::from(x), i64::from(y), i64::from(z)], u32::from(den));
    let num = lowest.num;
    Wave {
        num,
        den: lowest.den,
    }
}

// A point of high symmetry on the boundary of the Brillouin zone.
fn zone_boundary(group: SpaceGroup) -> Wave
    ensures value { wave_vector result ≡ zone_boundary group }
    ensures limits { IsWithinLimits result }
{
    match group {
        SpaceGroup::Orthorhombic => wave(1, 1, 1, 2),
        SpaceGroup::BodyCentred => wave(1, 1, 1, 2),
        SpaceGroup::Cubic => wave(1, 1, 0, 2),
        SpaceGroup::Diamond => wave(0, 1, 0, 1),
    }
}

// A point of the first axis inside the Brillouin zone.
fn zone_inside(group: SpaceGroup) -> Wave
    ensures value { wave_vector result ≡ zone_inside group }
    ensures limits { IsWithinLimits result }
{
    match group {
        SpaceGroup::Orthorhombic => wave(1, 0, 0, 20),
        SpaceGroup::BodyCentred => wave(1, 0, 0, 10),
        SpaceGroup::Cubic => wave(1, 0, 0, 20),
        SpaceGroup::Diamond => wave(1, 0, 0, 10),
    }
}

/// The wave vector of the input of a number: by (n div 4) mod 3 zero, a point on the boundary of the Brillouin zone,
/// or one of an axis inside it, of the group n mod 4. Its numbers are within the limits of all calls on wave vectors.
pub fn made_wave(n: u32) -> Wave
    ensures value { wave_vector result ≡ made_of n }
    ensures limits { IsWithinLimits result }
{
    let place = n / 4 % 3;
    if place == 0 {
        return wave(0, 0, 0, 1);
    }
    if place == 1 {
        return zone_boundary(group_of(n));
    }
    zone_inside(group_of(n))
}
