// The traces of the parts of a restriction.
ghost use Rattle.std.specs.Prelude.{ℕ, ◌≡◌, ◌<◌, IfOk, List, length, slice_index_or};
ghost use Rattle.irr_seitz.specs.declared.op.Op.{Op};
ghost use Rattle.irr_subduce.specs.Meetings.{AreStarRows, HasPartRows};
ghost use Rattle.irr_subduce.specs.PartTraces.{IsPartRow, IsPartTrace, PartAt};
ghost use Rattle.irr_subduce.specs.declared.meetings.Meeting.{Meeting};

use crate::meetings::Meeting;
use irr_cyc::{Lift, Order};
use irr_memory::Memory;
use irr_seitz::Op;
use irr_side::arm_trace;
use irr_star::Full;
use std::alloc::Global;

/// The traces of the parts of the restriction of a full representation at each of some stars. The error is want of memory.
pub(crate) fn star_rows<S: Lift>(
    alloc: Global,
    order: &Order,
    full: &Full<S>,
    meetings: &[Meeting],
) -> Result<Vec<Vec<S>>, Memory>
    requires { (n : ℕ) (t : Meeting) → n < length meetings.now
        → HasPartRows order.now.n full.now (slice_index_or meetings.now n t) }
    ensures { IfOk result (λ rows. AreStarRows order.now.n full.now meetings.now rows.items) }
{
    let mut rows = Vec::new(alloc);
    for meeting in meetings {
        let row = part_row(
            alloc,
            order,
            full,
            meeting.arms.as_slice(),
            meeting.images.as_slice(),
        )?;
        rows.push(row)?;
    }
    Ok(rows)
}

// The traces at some operations.
fn part_row<S: Lift>(
    alloc: Global,
    order: &Order,
    full: &Full<S>,
    arms: &[u32],
    ops: &[Op],
) -> Result<Vec<S>, Memory>
    requires { (p : ℕ) (g : Op) → p < length ops.now → PartAt order.now.n full.now arms.now (slice_index_or ops.now p g) }
    ensures { IfOk result (λ row. IsPartRow order.now.n full.now arms.now ops.now row.items) }
{
    let mut row = Vec::new(alloc);
    for op in ops {
        let trace = part_trace(alloc, order, full, arms, op)?;
        row.push(trace)?;
    }
    Ok(row)
}

// The trace at one: the sum of the traces of the blocks of arms.
fn part_trace<S: Lift>(
    alloc: Global,
    order: &Order,
    full: &Full<S>,
    arms: &[u32],
    op: &Op,
) -> Result<S, Memory>
    requires part { PartAt order.now.n full.now arms.now op.now }
    ensures { IfOk result (IsPartTrace order.now.n full.now arms.now op.now) }
{
    let mut sum = S::zero(alloc, order)?;
    for &arm in arms {
        let trace = arm_trace(alloc, order, full, arm, op)?;
        sum = sum.add(alloc, &trace)?;
    }
    Ok(sum)
}
