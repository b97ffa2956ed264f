// Traces of full representations, arm by arm, at the operations of a little group.
ghost use Rattle.std.specs.Prelude.{◌≡◌, ◌<◌, IfOk, length};
ghost use Rattle.std.specs.Int.{◌∣◌};
ghost use Rattle.std.specs.List.{All};
ghost use Rattle.irr_space.specs.CanonicalOperation.{IsNumbering};
ghost use Rattle.irr_space.specs.Star.{IsInLittleGroup};
ghost use Rattle.irr_seitz.specs.OperationMeaning.{operation};
ghost use Rattle.irr_kvec.specs.Centrings.{IsWithinLimits};
ghost use Rattle.irr_kvec.specs.WaveMeaning.{wave_vector};
ghost use Rattle.irr_close.specs.StandsFor.{stands_for};
ghost use Rattle.irr_star.specs.Induced.{IsFullRepresentation};
ghost use Rattle.irr_mult.specs.Listing.{item};
ghost use Rattle.irr_side.specs.ArmTraces.{AreArmRows, AreMembers, AreTables, HasMember, HasMembers, IsArmRow, IsArmTrace, HasCellVector};

use irr_close::Group;
use irr_cyc::{Lift, Order};
use irr_kvec::Wave;
use irr_little::little_places;
use irr_memory::Memory;
use irr_seitz::Op;
use irr_star::{Full, arm_part};
use std::alloc::Global;

/// The canonical operations of the little group of a wave vector. The error is want of memory.
pub fn operations(alloc: Global, group: &Group, wave: &Wave) -> Result<Vec<Op>, Memory>
    requires limits { IsWithinLimits wave.now }
    ensures members { IfOk result (λ ops. AreMembers group.now ops.items) }
    ensures cell { IfOk result (λ ops. All HasCellVector ops.items) }
    ensures numbering { IfOk result (λ ops. IsNumbering (stands_for group.now)
        (IsInLittleGroup (stands_for group.now) (wave_vector wave.now)) (λ p. operation (item ops.items p))) }
{
    let places = little_places(alloc, group, wave)?;
    let ops = group.ops();
    let mut listed = Vec::new(alloc);
    for &place in places.as_slice() {
        listed.push(ops[place as usize])?;
    }
    Ok(listed)
}

/// The rows of traces of full representations: for each of them, and each arm, the traces of its block there at
/// operations of the group, as numbers of a multiple of their order. The error is want of memory.
pub fn tables<S: Lift>(
    alloc: Global,
    order: &Order,
    fulls: &[Full<S>],
    ops: &[Op],
) -> Result<Vec<Vec<Vec<S>>>, Memory>
    requires { All (HasMembers order.now.n ops.now) fulls.now }
    ensures { IfOk result (λ tables. AreTables fulls.now ops.now order.now.n tables.items) }
{
    let mut tables = Vec::new(alloc);
    for full in fulls {
        let rows = arm_rows(alloc, order, full, ops)?;
        tables.push(rows)?;
    }
    Ok(tables)
}

/// The rows of the arms of a full representation: for each arm the traces of its block at operations of the group, as
/// numbers of a multiple of its order. The error is want of memory.
pub fn arm_rows<S: Lift>(
    alloc: Global,
    order: &Order,
    full: &Full<S>,
    ops: &[Op],
) -> Result<Vec<Vec<S>>, Memory>
    requires { HasMembers order.now.n ops.now full.now }
    ensures { IfOk result (λ rows. AreArmRows full.now ops.now order.now.n rows.items) }
{
    let mut rows = Vec::new(alloc);
    for arm in 0..full.arms() {
        let row = arm_row(alloc, order, full, arm, ops)?;
        rows.push(row)?;
    }
    Ok(rows)
}

// The traces of the block of an arm.
fn arm_row<S: Lift>(
    alloc: Global,
    order: &Order,
    full: &Full<S>,
    arm: u32,
    ops: &[Op],
) -> Result<Vec<S>, Memory>
    requires members { HasMembers order.now.n ops.now full.now }
    requires arm { arm < length full.now.arms.items }
    ensures { IfOk result (λ row. IsArmRow full.now arm ops.now order.now.n row.items) }
{
    let mut row = Vec::new(alloc);
    for op in ops {
        let trace = arm_trace(alloc, order, full, arm, op)?;
        row.push(trace)?;
    }
    Ok(row)
}

/// The trace of the block of an arm at an operation of the group, as a number of a multiple of its order. The error is
/// want of memory.
pub fn arm_trace<S: Lift>(
    alloc: Global,
    order: &Order,
    full: &Full<S>,
    arm: u32,
    op: &Op,
) -> Result<S, Memory>
    requires member { HasMember order.now.n op.now full.now }
    requires arm { arm < length full.now.arms.items }
    ensures { IfOk result (IsArmTrace full.now arm (operation op.now) order.now.n) }
{
    let trace = arm_part(alloc, full, arm, op)?;
    let lifted = trace.lift(alloc, order)?;
    Ok(lifted)
}
