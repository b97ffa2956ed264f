// The stars of some wave vectors.
ghost use Rattle.std.specs.Prelude.{◌≡◌, ◌<◌, ◌++◌, List, [], ◌∷◌, Contains, IfOk, IsTrue, OnOk, length};
ghost use Rattle.std.specs.List.{All};
ghost use Rattle.irr_algebra.specs.Fin.{Fin};
ghost use Rattle.irr_rational.specs.Order.{IsAtMost};
ghost use Rattle.irr_space.specs.Operation.{WaveVector, wave_component};
ghost use Rattle.irr_kvec.specs.Centrings.{IsWithinLimits};
ghost use Rattle.irr_kvec.specs.WaveMeaning.{wave_vector};
ghost use Rattle.irr_kvec.specs.declared.wave.Wave.{Wave};
ghost use Rattle.irr_close.specs.StandsFor.{stands_for};
ghost use Rattle.irr_close.specs.declared.group.Group.{Group};
ghost use Rattle.irr_mult.specs.Listing.{item};
ghost use Rattle.irr_mult.specs.OrderedWaves.{AreInOrder, waves_of};
ghost use Rattle.irr_mult.specs.Stars.{AreStarsOf};
ghost use Rattle.irr_mult.specs.StarSearch.{AreSearched, IsKnown, key};

use crate::comparison::lesser;
use crate::ordered::insert;
use indexmap::IndexSet;
use irr_close::Group;
use irr_kvec::Wave;
use irr_little::{Arm, star};
use irr_memory::Memory;
use std::alloc::Global;

// What tells wave vectors apart: the numerators, the denominator.
type Key = ([i64; 3], u32);

// The least wave vector of some arms.
fn least_arm(arms: &[Arm]) -> Wave
    requires { 0 < length arms.now }
    ensures arm { (i : Fin (length arms.now)) × ((item arms.now i).wave ≡ result) }
    ensures least { (i : Fin (length arms.now))
        → IsAtMost (wave_component (wave_vector result)) (wave_component (wave_vector (item arms.now i).wave)) }
{
    let mut least = arms[0].wave;
    for arm in arms {
        least = lesser(least, arm.wave);
    }
    least
}

// Puts the wave vectors of some arms into a set.
fn mark(seen: &mut IndexSet<Key>, arms: &[Arm]) -> Result<(), Memory>
    ensures { (group : Group) (found : List Wave) → All (IsKnown group found) seen.old.keys
        → All (λ arm. IsKnown group found (key arm.wave)) arms.now
        → OnOk result (All (IsKnown group found) seen.new.keys) }
{
    for arm in arms {
        let num = arm.wave.num;
        seen.insert((num, arm.wave.den))?;
    }
    Ok(())
}

// Whether a set has a wave vector.
fn is_seen(seen: &IndexSet<Key>, wave: &Wave) -> bool
    ensures { IsTrue result → Contains seen.now.keys (key wave.now) }
{
    let num = wave.num;
    seen.contains(&(num, wave.den))
}

// Looks at one more wave vector: where its star is a new one, it puts the representative in its place, and the arms
// into the set of those seen. The error is want of memory.
fn search(
    alloc: Global,
    group: &Group,
    wave: &Wave,
    seen: &mut IndexSet<Key>,
    found: &mut Vec<Wave>,
) -> Result<(), Memory>
    requires limits { IsWithinLimits wave.now }
    requires order { AreInOrder (waves_of found.old.items) }
    ensures { (ws : List WaveVector) → AreSearched group.now ws found.old.items seen.old.keys
        → OnOk result (AreSearched group.now (ws ++ wave_vector wave.now ∷ []) found.new.items seen.new.keys) }
{
    if is_seen(seen, wave) {
        return Ok(());
    }
    let arms = star(alloc, group, wave)?;
    let arms = arms.arms.as_slice();
    let least = least_arm(arms);
    insert(found, least)?;
    mark(seen, arms)?;
    Ok(())
}

/// The representatives of the stars of some wave vectors, each once, in the order of the wave vectors: of each star
/// the least of its reduced arms (Bradley and Cracknell, section 3.3). The error is want of memory.
pub fn representatives(alloc: Global, group: &Group, waves: &[Wave]) -> Result<Vec<Wave>, Memory>
    requires limits { All IsWithinLimits waves.now }
    ensures stars { IfOk result (λ stars.
        AreStarsOf (stands_for group.now) (waves_of waves.now) (waves_of stars.items)) }
    ensures limits { IfOk result (λ stars. All IsWithinLimits stars.items) }
{
    let mut seen = IndexSet::new(alloc);
    let mut found = Vec::new(alloc);
    for wave in waves {
        search(alloc, group, wave, &mut seen, &mut found)?;
    }
    Ok(found)
}
