// The places of the wave vectors that are equivalent to one.
ghost use Rattle.std.specs.Prelude.{◌≡◌, ◌<◌, ◌≤◌, ◌^◌, ◌++◌, [], ◌∷◌, IfOk, OnOk, length};
ghost use Rattle.std.specs.List.{All};
ghost use Rattle.irr_algebra.specs.Fin.{Fin, to_nat};
ghost use Rattle.irr_space.specs.Reciprocal.{AreEquivalent};
ghost use Rattle.irr_kvec.specs.WaveMeaning.{wave_vector};
ghost use Rattle.irr_close.specs.StandsFor.{stands_for};
ghost use Rattle.irr_close.specs.declared.group.Group.{Group};
ghost use Rattle.irr_mult.specs.Listing.{IsListing, item};
ghost use Rattle.irr_mult.specs.StarSearch.{IsReducedIn};

use crate::comparison::is_same;
use irr_kvec::Wave;
use irr_memory::Memory;
use std::alloc::Global;

// Keeps a place where the wave vector there is another one.
fn keep_same(place: u32, wave: &Wave, k: &Wave, places: &mut Vec<u32>) -> Result<(), Memory>
    ensures same { wave_vector wave.now ≡ wave_vector k.now
        → OnOk result (places.new.items ≡ places.old.items ++ place ∷ []) }
    ensures other { ¬ (wave_vector wave.now ≡ wave_vector k.now) → OnOk result (places.new.items ≡ places.old.items) }
{
    if is_same(wave, k) {
        places.push(place)?;
    }
    Ok(())
}

/// The places of the wave vectors that are equivalent to one, counted from 0, where all of them are reduced in one
/// group. The error is want of memory.
pub fn places_of(alloc: Global, waves: &[Wave], k: &Wave) -> Result<Vec<u32>, Memory>
    requires { length waves.now ≤ 2 ^ 32 }
    ensures { (group : Group) → IsReducedIn group k.now → All (IsReducedIn group) waves.now → IfOk result (λ places.
        IsListing to_nat
        (λ (j : Fin (length waves.now)).
        AreEquivalent (stands_for group) (wave_vector k.now) (wave_vector (item waves.now j)))
        (λ i j. to_nat i < to_nat j) places.items) }
{
    let mut places = Vec::new(alloc);
    for i in 0..waves.len() {
        keep_same(i as u32, &waves[i], k, &mut places)?;
    }
    Ok(places)
}
