// Stars of wave vectors.
ghost use Rattle.std.specs.Prelude.{ℕ, ◌≡◌, ◌<◌, IfOk, IsTrue, false, length};
ghost use Rattle.std.specs.List.{All, HoldsAt};
ghost use Rattle.irr_space.specs.Reciprocal.{AreEquivalent};
ghost use Rattle.irr_kvec.specs.WaveMeaning.{wave_vector};
ghost use Rattle.irr_kvec.specs.Centrings.{LatticeOf, IsCentringList, IsWithinLimits};
ghost use Rattle.irr_little.specs.Arms.{AreArms};

use crate::places::image;
use irr_close::Group;
use irr_kvec::{Wave, equivalent, reduced};
use irr_memory::Memory;
use irr_rat::Vec3;
use std::alloc::Global;

/// An arm of a star: a reduced wave vector, and the number in `Group::ops` of the first operation that
/// carries the star's wave vector to it.
#[derive(Clone, Copy, Debug)]
pub struct Arm {
    pub wave: Wave,
    pub op: u32,
}

/// The arms of a star, in the order of their operations. The first is the star's wave vector, reduced, with
/// the operation 0, the identity.
#[derive(Debug, Drop)]
pub struct Arms {
    pub arms: Vec<Arm>,
}

/// The star of a wave vector (Bradley and Cracknell, section 3.3). The error is want of memory.
pub fn star(alloc: Global, group: &Group, k: &Wave) -> Result<Arms, Memory>
    requires limits { IsWithinLimits k.now }
    ensures { IfOk result (λ star. AreArms group.now (wave_vector k.now) star.arms.items) }
{
    let mut arms = Vec::new(alloc);
    for place in 0..group.ops().len() {
        let wave = reduced(group.centrings(), &image(group, place, k));
        if is_new(group.centrings(), &arms, &wave) {
            let op = place as u32;
            arms.push(Arm { wave, op })?;
        }
    }
    Ok(Arms { arms })
}

// Whether a wave vector is equivalent to that of no arm.
fn is_new(centrings: &[Vec3], arms: &[Arm], wave: &Wave) -> bool
    requires centrings { IsCentringList centrings.now }
    requires arms { All (λ arm. IsWithinLimits arm.wave) arms.now }
    requires limits { IsWithinLimits wave.now }
    ensures new { IsTrue result → All (λ arm. ¬ (AreEquivalent (LatticeOf centrings.now) (wave_vector arm.wave) (wave_vector wave.now))) arms.now }
    ensures known { result ≡ false → (i : ℕ) × (i < length arms.now)
        × HoldsAt (λ arm. AreEquivalent (LatticeOf centrings.now) (wave_vector arm.wave) (wave_vector wave.now)) arms.now i }
{
    for arm in arms {
        if equivalent(centrings, &arm.wave, wave) {
            return false;
        }
    }
    true
}
