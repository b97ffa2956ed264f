// The operations that carry k to -k.
ghost use Rattle.std.specs.Prelude.{◌<◌, ◌↔◌, IfOk, IsTrue, length};
ghost use Rattle.irr_kvec.specs.WaveMeaning.{wave_vector};
ghost use Rattle.irr_kvec.specs.Centrings.{IsWithinLimits};
ghost use Rattle.irr_real.specs.Places.{IsReversingPlace, AreReversingPlaces};

use crate::waves::{image, opposite};
use irr_close::Group;
use irr_kvec::{Wave, equivalent};
use irr_memory::Memory;
use std::alloc::Global;

// Whether an operation carries k to a vector equivalent to -k.
fn reverses(group: &Group, place: usize, k: &Wave) -> bool
    requires limits { IsWithinLimits k.now }
    requires place { place < length group.now.ops.items }
    ensures { IsTrue result ↔ IsReversingPlace group.now (wave_vector k.now) place }
{
    equivalent(group.centrings(), &image(group, place, k), &opposite(k))
}

/// The numbers, among `Group::ops`, of the operations that carry k to a vector equivalent to -k, in increasing order.
/// The error is want of memory.
pub(crate) fn reversing_places(alloc: Global, group: &Group, k: &Wave) -> Result<Vec<u32>, Memory>
    requires limits { IsWithinLimits k.now }
    ensures { IfOk result (λ places. AreReversingPlaces group.now (wave_vector k.now) places.items) }
{
    let mut places = Vec::new(alloc);
    for place in 0..group.ops().len() {
        if reverses(group, place, k) {
            places.push(place as u32)?;
        }
    }
    Ok(places)
}
