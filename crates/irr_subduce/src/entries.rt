// The entries of labels.
ghost use Rattle.std.specs.Prelude.{◌≡◌, ◌<◌, IfOk, List, length};
ghost use Rattle.irr_space.specs.Operation.{Operation, WaveVector};
ghost use Rattle.irr_kvec.specs.declared.wave.Wave.{Wave};
ghost use Rattle.irr_close.specs.declared.group.Group.{Group};
ghost use Rattle.irr_subduce.specs.Meetings.{AreEntries, HasMeetings, IsEntry};
ghost use Rattle.irr_subduce.specs.declared.sub.Sub.{Sub};

use crate::meetings::Meeting;
use crate::rows::star_rows;
use irr_cyc::{Lift, Order};
use irr_memory::Memory;
use irr_mult::{RepParts, StarCharacters, all_parts};
use irr_side::Side;
use std::alloc::Global;

/// The entries of the members of a list, in order. The error is want of memory.
pub(crate) fn entries<S: Lift>(
    alloc: Global,
    order: &Order,
    side: &Side<S>,
    stars: &[StarCharacters<S>],
    meetings: &[Meeting],
) -> Result<Vec<RepParts>, Memory>
    requires { (group : Group) × (sub : Sub) × (image : Operation → Operation) × (k : WaveVector) × (ws : List Wave)
        × HasMeetings group sub image k order.now.n side.now ws stars.now meetings.now }
    ensures { (group : Group) (sub : Sub) (image : Operation → Operation) (k : WaveVector) (ws : List Wave)
        (s : HasMeetings group sub image k order.now.n side.now ws stars.now meetings.now) → IfOk result (λ reps.
        AreEntries sub image order.now.n s.given.is_side (length side.now.fulls.items) reps.items) }
{
    let mut entries = Vec::new(alloc);
    for a in 0..side.fulls.len() {
        let entry = entry_at(alloc, order, side, stars, meetings, a)?;
        entries.push(entry)?;
    }
    Ok(entries)
}

// The entry of a member.
fn entry_at<S: Lift>(
    alloc: Global,
    order: &Order,
    side: &Side<S>,
    stars: &[StarCharacters<S>],
    meetings: &[Meeting],
    a: usize,
) -> Result<RepParts, Memory>
    requires member { a < length side.now.fulls.items }
    requires meetings { (group : Group) × (sub : Sub) × (image : Operation → Operation) × (k : WaveVector) × (ws : List Wave)
        × HasMeetings group sub image k order.now.n side.now ws stars.now meetings.now }
    ensures { (group : Group) (sub : Sub) (image : Operation → Operation) (k : WaveVector) (ws : List Wave)
        (s : HasMeetings group sub image k order.now.n side.now ws stars.now meetings.now)
        → IfOk result (IsEntry sub image order.now.n s.given.is_side a) }
{
    let full = &side.fulls[a];
    let traces = star_rows(alloc, order, full, meetings)?;
    let parts = all_parts(alloc, stars, traces.as_slice())?;
    Ok(RepParts {
        label: a as u32 + 1,
        dim: full.dim(),
        parts,
    })
}
