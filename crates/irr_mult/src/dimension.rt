// How often one small representation stands in another.
ghost use Rattle.std.specs.Prelude.{IfOk};
ghost use Rattle.irr_algebra.specs.Action.{HasDimension};
ghost use Rattle.irr_rep.specs.Twisted.{phase_table};
ghost use Rattle.irr_char.specs.Characters.{AreCharacters};

use irr_char::average;
use irr_cyc::Scalar;
use irr_memory::Memory;
use irr_rep::Twisted;
use std::alloc::Global;

/// How often a small representation stands in another: the dimension of the space of intertwiners from the one with
/// the character `small` to the one with the character `part`, which is zero at each place where that has no rows
/// (Bradley and Cracknell, section 3.7).
///
/// The first has at most 48 rows, the other at most 2,304. The numbers have one order, which the table's order divides.
/// The error is want of memory.
pub fn multiplicity<S: Scalar>(
    alloc: Global,
    t: &Twisted,
    part: &[S],
    small: &[S],
) -> Result<u32, Memory>
    requires { AreCharacters S.order_of S.value (phase_table t.now) small.now part.now }
    ensures { (p : AreCharacters S.order_of S.value (phase_table t.now) small.now part.now)
        → IfOk result (λ m. HasDimension p.left.at p.right.at m) }
{
    average(alloc, t, small, part)
}
