// The arms to which operations take others.
ghost use Rattle.std.specs.Prelude.{ℕ, ◌≡◌, ◌<◌, IfOk, length};
ghost use Rattle.irr_star.specs.Induced.{IsFullRepresentation};
ghost use Rattle.irr_seitz.specs.OperationMeaning.{operation};
ghost use Rattle.irr_side.specs.ArmTraces.{AreMembers};
ghost use Rattle.irr_power.specs.Targets.{AreTargetRows, IsTargetRow};

use irr_cyc::Scalar;
use irr_memory::Memory;
use irr_seitz::Op;
use irr_star::Full;
use std::alloc::Global;

/// The rows of the arms of a full representation: the numbers of the arms to which operations of the group take each.
/// The error is want of memory.
pub(crate) fn target_rows<S: Scalar>(
    alloc: Global,
    full: &Full<S>,
    ops: &[Op],
) -> Result<Vec<Vec<u32>>, Memory>
    requires induced { IsFullRepresentation full.now }
    requires members { AreMembers full.now.group ops.now }
    ensures { IfOk result (λ rows. AreTargetRows full.now ops.now rows.items) }
{
    let mut rows = Vec::new(alloc);
    for arm in 0..full.arms() {
        let row = target_row(alloc, full, arm, ops)?;
        rows.push(row)?;
    }
    Ok(rows)
}

// The numbers of the arms to which operations take one.
fn target_row<S: Scalar>(
    alloc: Global,
    full: &Full<S>,
    arm: u32,
    ops: &[Op],
) -> Result<Vec<u32>, Memory>
    requires induced { IsFullRepresentation full.now }
    requires members { AreMembers full.now.group ops.now }
    requires arm { arm < length full.now.arms.items }
    ensures { IfOk result (λ row. IsTargetRow full.now arm ops.now row.items) }
{
    let mut row = Vec::new(alloc);
    for op in ops {
        let block = full.block(op, arm);
        row.push(block.row)?;
    }
    Ok(row)
}
