// Where squares meet a star.
ghost use Rattle.std.specs.Prelude.{◌≤◌, ◌^◌, IfOk, length};
ghost use Rattle.std.specs.List.{All};
ghost use Rattle.irr_kvec.specs.Centrings.{IsWithinLimits};
ghost use Rattle.irr_mult.specs.StarSearch.{IsReducedIn};
ghost use Rattle.irr_power.specs.Meetings.{AreMeetings, IsMeeting};

use crate::doubles::doubled_operations;
use irr_close::Group;
use irr_cyc::Scalar;
use irr_kvec::Wave;
use irr_little::little_places;
use irr_memory::Memory;
use irr_mult::{StarCharacters, places_of};
use irr_seitz::Op;
use irr_side::operations;
use std::alloc::Global;

/// What squares have at a star: the operations of the little group of its wave vector, their squares, and the numbers of the
/// sums of arms that are the wave vector.
#[derive(Drop)]
pub(crate) struct Meeting {
    pub ops: Vec<Op>,
    pub doubles: Vec<Op>,
    pub classes: Vec<u32>,
}

/// What squares have at each of some stars. The error is want of memory.
pub(crate) fn meetings<S: Scalar>(
    alloc: Global,
    group: &Group,
    sums: &[Wave],
    stars: &[StarCharacters<S>],
) -> Result<Vec<Meeting>, Memory>
    requires few { length sums.now ≤ 2 ^ 32 }
    requires sums { All (IsReducedIn group.now) sums.now }
    requires limits { All (λ c. IsWithinLimits c.wave) stars.now }
    requires reduced { All (λ c. IsReducedIn group.now c.wave) stars.now }
    ensures { IfOk result (λ meetings. AreMeetings group.now sums.now stars.now meetings.items) }
{
    let mut made = Vec::new(alloc);
    for star in stars {
        let meeting = meeting_at(alloc, group, sums, &star.wave)?;
        made.push(meeting)?;
    }
    Ok(made)
}

// What they have at one.
fn meeting_at(alloc: Global, group: &Group, sums: &[Wave], wave: &Wave) -> Result<Meeting, Memory>
    requires few { length sums.now ≤ 2 ^ 32 }
    requires sums { All (IsReducedIn group.now) sums.now }
    requires limits { IsWithinLimits wave.now }
    requires reduced { IsReducedIn group.now wave.now }
    ensures { IfOk result (λ meeting. IsMeeting group.now sums.now wave.now meeting) }
{
    let ops = operations(alloc, group, wave)?;
    let places = little_places(alloc, group, wave)?;
    let doubles = doubled_operations(alloc, group, places.as_slice())?;
    let classes = places_of(alloc, sums, wave)?;
    Ok(Meeting {
        ops,
        doubles,
        classes,
    })
}
