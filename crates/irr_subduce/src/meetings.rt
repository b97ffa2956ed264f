// Where restrictions meet the stars of a subgroup.
ghost use Rattle.std.specs.Prelude.{◌≤◌, ◌^◌, IfOk, length, List};
ghost use Rattle.std.specs.List.{All};
ghost use Rattle.irr_seitz.specs.declared.op.Op.{Op};
ghost use Rattle.irr_kvec.specs.Centrings.{IsWithinLimits};
ghost use Rattle.irr_kvec.specs.WaveMeaning.{wave_vector};
ghost use Rattle.irr_mult.specs.StarSearch.{IsReducedIn};
ghost use Rattle.irr_subduce.specs.Meetings.{AreImages, AreMeetings, IsMeeting};
ghost use Rattle.irr_subduce.specs.Subgroup.{IsSub};

use crate::Sub;
use irr_close::Group;
use irr_cyc::Scalar;
use irr_kvec::Wave;
use irr_memory::Memory;
use irr_mult::{StarCharacters, places_of};
use irr_seitz::Op;
use irr_side::operations;
use std::alloc::Global;

/// What restrictions have at a star of the subgroup: the images of the canonical operations of the little group, and the
/// numbers of the arms whose wave vector, in the basis of the subgroup, is that of the star.
#[derive(Drop)]
pub(crate) struct Meeting {
    pub images: Vec<Op>,
    pub arms: Vec<u32>,
}

/// What they have at each of some stars. The error is want of memory.
pub(crate) fn meetings<S: Scalar>(
    alloc: Global,
    group: &Group,
    sub: &Sub,
    waves: &[Wave],
    stars: &[StarCharacters<S>],
) -> Result<Vec<Meeting>, Memory>
    requires sub { (gens : List Op) × IsSub group.now sub.now.setting gens sub.now }
    requires few { length waves.now ≤ 2 ^ 32 }
    requires waves { All (IsReducedIn sub.now.group) waves.now }
    requires limits { All (λ c. IsWithinLimits c.wave) stars.now }
    requires reduced { All (λ c. IsReducedIn sub.now.group c.wave) stars.now }
    ensures { IfOk result (λ meetings. AreMeetings group.now sub.now waves.now stars.now meetings.items) }
{
    let mut made = Vec::new(alloc);
    for star in stars {
        let meeting = meeting_at(alloc, group, sub, waves, &star.wave)?;
        made.push(meeting)?;
    }
    Ok(made)
}

// What they have at one.
fn meeting_at(
    alloc: Global,
    group: &Group,
    sub: &Sub,
    waves: &[Wave],
    wave: &Wave,
) -> Result<Meeting, Memory>
    requires sub { (gens : List Op) × IsSub group.now sub.now.setting gens sub.now }
    requires few { length waves.now ≤ 2 ^ 32 }
    requires waves { All (IsReducedIn sub.now.group) waves.now }
    requires limits { IsWithinLimits wave.now }
    requires reduced { IsReducedIn sub.now.group wave.now }
    ensures { IfOk result (IsMeeting group.now sub.now waves.now wave.now) }
{
    let images = images(alloc, group, sub, wave)?;
    let arms = places_of(alloc, waves, wave)?;
    Ok(Meeting { images, arms })
}

// The images of the canonical operations of the little group of a wave vector of the subgroup.
fn images(alloc: Global, group: &Group, sub: &Sub, wave: &Wave) -> Result<Vec<Op>, Memory>
    requires sub { (gens : List Op) × IsSub group.now sub.now.setting gens sub.now }
    requires limits { IsWithinLimits wave.now }
    ensures { IfOk result (λ ops. AreImages group.now sub.now (wave_vector wave.now) ops.items) }
{
    let inner = operations(alloc, sub.group(), wave)?;
    let mut images = Vec::new(alloc);
    for op in inner.as_slice() {
        images.push(sub.image(op))?;
    }
    Ok(images)
}
