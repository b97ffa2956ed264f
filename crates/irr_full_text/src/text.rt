// The text of full representations.
ghost use Rattle.std.specs.Prelude.{◌≡◌, ◌<◌, length, IfOk};
ghost use Rattle.std.specs.Int.{◌∣◌};
ghost use Rattle.irr_theory.specs.Representations.{Representations};
ghost use Rattle.irr_space.specs.Operation.{WaveVector};
ghost use Rattle.irr_space.specs.PhaseTable.{phases_at};
ghost use Rattle.irr_seitz.specs.PhaseMeaning.{sign_of};
ghost use Rattle.irr_close.specs.StandsFor.{stands_for};
ghost use Rattle.irr_seitz.specs.declared.op.Op.{Op};
ghost use Rattle.irr_little.specs.declared.arms.Arm.{Arm};
ghost use Rattle.irr_full.specs.Star.{Star};
ghost use Rattle.irr_full_text.specs.Lines.{AreInList, star_text};
ghost use Rattle.irr_full_text.specs.Printed.{Matrices, IsPrintedStar, AreFullsOf, IsTextAt};

use crate::generating::generators;
use crate::lines::{head, push_arms, push_generators};
use crate::representations::push_fulls;
use irr_close::Group;
use irr_cyc::{Order, Scalar};
use irr_little::{Arm, Arms};
use irr_memory::Memory;
use irr_rep::Twisted;
use irr_report::push_operations;
use irr_star::Full;
use std::alloc::Global;

/// The text of the full representations that the members of a list of small representations induce, over the order
/// of the table t of the little group of a reduced wave vector of the group, with its star: the wave vector, the order,
/// the arms, the canonical operations of the group, generators, and for each representation its dimension, its traces
/// at the operations and its matrices at the generators. All count from 1. The error is want of memory.
pub fn text_full<S: Scalar>(
    alloc: Global,
    group: &Group,
    star: &Arms,
    t: &Twisted,
    fulls: &[Full<S>],
) -> Result<Vec<u8>, Memory>
    requires { (k : WaveVector) × (U : Star (sign_of group.now.phase) (stands_for group.now) k)
        × (v : U.table.order ∣ U.table.order)
        × (L : Representations (phases_at U.table)) × (A : Matrices group.now U L)
        × IsPrintedStar group.now star.now.arms.items t.now U × AreFullsOf group.now U v L A fulls.now }
    ensures { (k : WaveVector) (U : Star (sign_of group.now.phase) (stands_for group.now) k)
        (v : U.table.order ∣ U.table.order)
        (L : Representations (phases_at U.table)) (A : Matrices group.now U L)
        → IsPrintedStar group.now star.now.arms.items t.now U → AreFullsOf group.now U v L A fulls.now
        → IfOk result (λ text. IsTextAt group.now U L A text.items) }
{
    let order = Order::new(alloc, t.order())?;
    let gens = generators(alloc, group)?;
    let mut text = star_lines(alloc, group, &star.arms, t.order())?;
    let count = gens.len();
    text.extend_from_slice(format!(in alloc; "gens {count}\n")?.as_bytes())?;
    push_generators(alloc, &mut text, &gens)?;
    let count = fulls.len();
    text.extend_from_slice(format!(in alloc; "reps {count}\n")?.as_bytes())?;
    push_fulls(alloc, &mut text, &order, fulls, group.ops(), &gens)?;
    text.extend_from_slice(b"end\n")?;
    Ok(text)
}

// The lines of a star and of the canonical operations of its group.
fn star_lines(alloc: Global, group: &Group, arms: &[Arm], order: u32) -> Result<Vec<u8>, Memory>
    requires some { 0 < length arms.now }
    requires numbers { AreInList group.now.ops.items arms.now }
    ensures { (d : Op) (a : Arm) → IfOk result (λ text. text.items ≡ star_text group.now.ops.items arms.now order d a) }
{
    let mut text = head(alloc, &arms[0].wave, order, arms.len())?;
    let ops = group.ops();
    push_arms(alloc, &mut text, ops, arms)?;
    let count = ops.len();
    text.extend_from_slice(format!(in alloc; "ops {count}\n")?.as_bytes())?;
    push_operations(alloc, &mut text, ops)?;
    Ok(text)
}
