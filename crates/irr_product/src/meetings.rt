// Where direct products meet a star.
ghost use Rattle.std.specs.Prelude.{◌≤◌, ◌^◌, IfOk, length};
ghost use Rattle.std.specs.List.{All};
ghost use Rattle.irr_kvec.specs.Centrings.{IsWithinLimits};
ghost use Rattle.irr_mult.specs.StarSearch.{IsReducedIn};
ghost use Rattle.irr_product.specs.Meetings.{AreMeetings, IsMeeting, IsOverOrder};

use irr_close::Group;
use irr_cyc::{Lift, Order, Scalar};
use irr_kvec::Wave;
use irr_memory::Memory;
use irr_mult::{StarCharacters, places_of};
use irr_side::{Side, operations, tables};
use std::alloc::Global;

/// What direct products have at a star: the numbers of the sums of arms that are its wave vector, and for the full
/// representations of both sides, arm by arm, the traces at the operations of the little group.
#[derive(Drop)]
pub(crate) struct Meeting<S: Scalar> {
    pub classes: Vec<u32>,
    pub left: Vec<Vec<Vec<S>>>,
    pub right: Vec<Vec<Vec<S>>>,
}

/// What the direct products have at each of some stars. The error is want of memory.
pub(crate) fn meetings<S: Lift>(
    alloc: Global,
    group: &Group,
    order: &Order,
    left: &Side<S>,
    right: &Side<S>,
    sums: &[Wave],
    stars: &[StarCharacters<S>],
) -> Result<Vec<Meeting<S>>, Memory>
    requires left { All (IsOverOrder group.now order.now.n) left.now.fulls.items }
    requires right { All (IsOverOrder group.now order.now.n) right.now.fulls.items }
    requires few { length sums.now ≤ 2 ^ 32 }
    requires sums { All (IsReducedIn group.now) sums.now }
    requires limits { All (λ c. IsWithinLimits c.wave) stars.now }
    requires reduced { All (λ c. IsReducedIn group.now c.wave) stars.now }
    ensures { IfOk result (λ meetings. AreMeetings group.now order.now.n left.now.fulls.items
        right.now.fulls.items sums.now stars.now meetings.items) }
{
    let mut made = Vec::new(alloc);
    for star in stars {
        let meeting = meeting_at(alloc, group, order, left, right, sums, &star.wave)?;
        made.push(meeting)?;
    }
    Ok(made)
}

// What they have at one.
fn meeting_at<S: Lift>(
    alloc: Global,
    group: &Group,
    order: &Order,
    left: &Side<S>,
    right: &Side<S>,
    sums: &[Wave],
    wave: &Wave,
) -> Result<Meeting<S>, Memory>
    requires left { All (IsOverOrder group.now order.now.n) left.now.fulls.items }
    requires right { All (IsOverOrder group.now order.now.n) right.now.fulls.items }
    requires few { length sums.now ≤ 2 ^ 32 }
    requires sums { All (IsReducedIn group.now) sums.now }
    requires limits { IsWithinLimits wave.now }
    requires reduced { IsReducedIn group.now wave.now }
    ensures { IfOk result (λ meeting. IsMeeting group.now order.now.n left.now.fulls.items
        right.now.fulls.items sums.now wave.now meeting) }
{
    let ops = operations(alloc, group, wave)?;
    let classes = places_of(alloc, sums, wave)?;
    let first = tables(alloc, order, left.fulls.as_slice(), ops.as_slice())?;
    let second = tables(alloc, order, right.fulls.as_slice(), ops.as_slice())?;
    Ok(Meeting {
        classes,
        left: first,
        right: second,
    })
}
