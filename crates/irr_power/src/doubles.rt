// Squares of canonical operations.
ghost use Rattle.std.specs.Prelude.{ℕ, ◌≡◌, ◌<◌, IfOk, length, slice_index_or};
ghost use Rattle.std.specs.List.{All};
ghost use Rattle.irr_space.specs.Operation.{◌⊙◌};
ghost use Rattle.irr_seitz.specs.OperationMeaning.{operation};
ghost use Rattle.irr_close.specs.StandsFor.{stands_for};
ghost use Rattle.irr_star.specs.Sizes.{HasSmallVector};
ghost use Rattle.irr_side.specs.ArmTraces.{AreMembers};
ghost use Rattle.irr_power.specs.Doubles.{AreDoubles};

use irr_close::Group;
use irr_memory::Memory;
use irr_seitz::Op;
use std::alloc::Global;

// The square of the canonical operation with a number.
fn doubled(group: &Group, place: u32) -> Op
    requires { place < length group.now.ops.items }
    ensures member { stands_for group.now (operation result) }
    ensures small { HasSmallVector result }
    ensures square { (d : Op) → let g = operation (slice_index_or group.now.ops.items place d) in
        operation result ≡ g ⊙ g }
{
    let ops = group.ops();
    let op = &ops[place as usize];
    op.compose(op)
}

/// The squares of the canonical operations with some numbers. The error is want of memory.
pub(crate) fn doubled_operations(
    alloc: Global,
    group: &Group,
    places: &[u32],
) -> Result<Vec<Op>, Memory>
    requires { All (λ n. n < length group.now.ops.items) places.now }
    ensures members { IfOk result (λ ops. AreMembers group.now ops.items) }
    ensures squares { IfOk result (λ ops. AreDoubles group.now places.now ops.items) }
{
    let mut squares = Vec::new(alloc);
    for &place in places {
        squares.push(doubled(group, place))?;
    }
    Ok(squares)
}
