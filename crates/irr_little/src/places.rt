// Which operations are in a little group, and where operations carry a wave vector.
ghost use Rattle.std.specs.Prelude.{◌≡◌, ◌<◌, ◌≤◌, ◌*◌, ◌^◌, ◌↔◌, IfOk, IsTrue, length, pos, unsigned_abs};
ghost use Rattle.std.specs.Int.{int_rem_euclid};
ghost use Rattle.std.specs.List.{HoldsAt};
ghost use Rattle.irr_algebra.specs.Fin.{Fin};
ghost use Rattle.irr_rational.specs.Ratio.{entry};
ghost use Rattle.irr_space.specs.Reciprocal.{AreEquivalent};
ghost use Rattle.irr_space.specs.Star.{Carries};
ghost use Rattle.irr_seitz.specs.OperationMeaning.{operation};
ghost use Rattle.irr_kvec.specs.WaveMeaning.{wave_vector};
ghost use Rattle.irr_kvec.specs.Centrings.{LatticeOf, IsCentringList, IsWithinLimits};
ghost use Rattle.irr_close.specs.StandsFor.{stands_for};
ghost use Rattle.irr_little.specs.Places.{IsLittlePlace, AreLittlePlaces};

use irr_close::Group;
use irr_kvec::{Wave, act, equivalent};
use irr_memory::Memory;
use irr_rat::Vec3;
use std::alloc::Global;

/// The numbers, among `Group::ops`, of the operations of the little group of a wave vector, in increasing
/// order. The error is want of memory.
pub fn little_places(alloc: Global, group: &Group, k: &Wave) -> Result<Vec<u32>, Memory>
    requires limits { IsWithinLimits k.now }
    ensures { IfOk result (λ places. AreLittlePlaces group.now (wave_vector k.now) places.items) }
{
    let mut places = Vec::new(alloc);
    for place in 0..group.ops().len() {
        if keeps(group, place, k) {
            places.push(place as u32)?;
        }
    }
    Ok(places)
}

/// Whether the rotation of an operation takes a wave vector to an equivalent one.
pub(crate) fn keeps(group: &Group, place: usize, k: &Wave) -> bool
    requires limits { IsWithinLimits k.now }
    requires place { place < length group.now.ops.items }
    ensures { IsTrue result ↔ IsLittlePlace group.now (wave_vector k.now) place }
{
    equivalent(group.centrings(), &image(group, place, k), k)
}

/// A wave vector to which the operation with the number `place` carries `k`.
pub(crate) fn image(group: &Group, place: usize, k: &Wave) -> Wave
    requires limits { IsWithinLimits k.now }
    requires place { place < length group.now.ops.items }
    ensures carries { HoldsAt (λ g. Carries (stands_for group.now) (operation g) (wave_vector k.now) (wave_vector result)) group.now.ops.items place }
    ensures limits { IsWithinLimits result }
{
    let ops = group.ops();
    act(&ops[place], &wrapped(group.centrings(), k))
}

// An equivalent wave vector of small numerators.
fn wrapped(centrings: &[Vec3], k: &Wave) -> Wave
    requires centrings { IsCentringList centrings.now }
    requires limits { IsWithinLimits k.now }
    ensures equivalent { AreEquivalent (LatticeOf centrings.now) (wave_vector result) (wave_vector k.now) }
    ensures small { (i : Fin 3) → unsigned_abs (entry result.num i) ≤ 10 ^ 9 }
    ensures denominator { result.den ≡ k.now.den }
{
    let num = rests(&k.num, cell(centrings, k.den));
    Wave { num, den: k.den }
}

// The denominator times the number of centrings.
fn cell(centrings: &[Vec3], den: u32) -> u32
    requires positive { 0 < den }
    requires small { den ≤ 10 ^ 7 }
    requires some { 0 < length centrings.now }
    requires few { length centrings.now ≤ 32 }
    ensures value { result ≡ den * length centrings.now }
    ensures positive { 0 < result }
    ensures small { result ≤ 10 ^ 9 }
{
    den * centrings.len() as u32
}

fn rests(num: &[i64; 3], cell: u32) -> [i64; 3]
    requires positive { 0 < cell }
    requires small { cell ≤ 10 ^ 9 }
    ensures value { (i : Fin 3) → entry result i ≡ int_rem_euclid (entry num.now i) (pos cell) }
    ensures small { (i : Fin 3) → unsigned_abs (entry result i) ≤ 10 ^ 9 }
{
    [rest(num[0], cell), rest(num[1], cell), rest(num[2], cell)]
}

fn rest(number: i64, cell: u32) -> i64
    requires { 0 < cell }
    ensures { result ≡ int_rem_euclid number (pos cell) }
{
    number.rem_euclid(i64::from(cell))
}
