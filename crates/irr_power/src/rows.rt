// The rows of traces of squares, star by star.
ghost use Rattle.std.specs.Prelude.{IfOk};
ghost use Rattle.std.specs.List.{All};
ghost use Rattle.irr_power.specs.Halves.{difference_of, sum_of};
ghost use Rattle.irr_power.specs.Meetings.{AreSquareRows, HasSquareRows, IsSquareRow};

use crate::halves::{half_differences, half_sums};
use crate::meetings::Meeting;
use crate::returns::return_row;
use crate::targets::target_rows;
use irr_cyc::{Lift, Order};
use irr_memory::Memory;
use irr_product::part_row;
use irr_side::arm_rows;
use irr_star::Full;
use std::alloc::Global;

/// The traces of the parts of the symmetric and of the antisymmetric square of a full representation at each of some stars.
/// The error is want of memory.
pub(crate) fn star_rows<S: Lift>(
    alloc: Global,
    order: &Order,
    full: &Full<S>,
    meetings: &[Meeting],
) -> Result<(Vec<Vec<S>>, Vec<Vec<S>>), Memory>
    requires { All (HasSquareRows order.now.n full.now) meetings.now }
    ensures { IfOk result (λ rows. AreSquareRows sum_of order.now.n full.now meetings.now rows.0.items
        × AreSquareRows difference_of order.now.n full.now meetings.now rows.1.items) }
{
    let mut symmetric = Vec::new(alloc);
    let mut antisymmetric = Vec::new(alloc);
    for meeting in meetings {
        let (sym, anti) = square_rows(alloc, order, full, meeting)?;
        symmetric.push(sym)?;
        antisymmetric.push(anti)?;
    }
    Ok((symmetric, antisymmetric))
}

// Those at one star: at each operation g half the sum, and half the difference, of tr(A(g))^2 and tr(A(g g)), so far as the
// pairs of arms of the star have a share in them.
fn square_rows<S: Lift>(
    alloc: Global,
    order: &Order,
    full: &Full<S>,
    meeting: &Meeting,
) -> Result<(Vec<S>, Vec<S>), Memory>
    requires { HasSquareRows order.now.n full.now meeting.now }
    ensures { IfOk result (λ rows. IsSquareRow sum_of order.now.n full.now meeting.now rows.0.items
        × IsSquareRow difference_of order.now.n full.now meeting.now rows.1.items) }
{
    let ops = meeting.ops.as_slice();
    let squares = meeting.doubles.as_slice();
    let classes = meeting.classes.as_slice();
    let arms = arm_rows(alloc, order, full, ops)?;
    let doubles = arm_rows(alloc, order, full, squares)?;
    let targets = target_rows(alloc, full, ops)?;
    let rows = arms.as_slice();
    let doubled = doubles.as_slice();
    let taken = targets.as_slice();
    let products = part_row(alloc, order, ops.len(), rows, rows, classes)?;
    let returns = return_row(alloc, order, ops.len(), doubled, taken, classes)?;
    let sums = products.as_slice();
    let turned = returns.as_slice();
    let sym = half_sums(alloc, sums, turned)?;
    let anti = half_differences(alloc, sums, turned)?;
    Ok((sym, anti))
}
