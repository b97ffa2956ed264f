// `square`: the squares of the full representations at a wave vector.
ghost use Rattle.std.specs.Prelude.{◌≤◌, List, IfOk, IfErr};
ghost use Rattle.irr_space.specs.Reciprocal.{IsOrder, IsReduced};
ghost use Rattle.irr_seitz.specs.PhaseMeaning.{sign_of};
ghost use Rattle.irr_seitz.specs.declared.op.Op.{Op};
ghost use Rattle.irr_kvec.specs.Centrings.{IsWithinLimits};
ghost use Rattle.irr_kvec.specs.WaveMeaning.{wave_vector};
ghost use Rattle.irr_close.specs.StandsFor.{stands_for};
ghost use Rattle.irr_cyc.specs.declared.orders.TheConstants.{ORDER_LIMIT};
ghost use Rattle.irr_top.specs.GroupOf.{IsGroupOf, group_of};
ghost use Rattle.irr_top.specs.Question.Question.{square as asked};
ghost use Rattle.irr_top.specs.Answer.{IsReplied, IsNoReply};
ghost use Rattle.irr_top.specs.SquareCommand.{IsSquareText};

use crate::reply::{NoReply, Reply};
use crate::small::reduced_wave;
use crate::status::Status;
use crate::task::Number;
use irr_close::Group;
use irr_kvec::Wave;
use irr_memory::Memory;
use irr_power::{WorkError, square, text_square, wave_order};
use std::alloc::Global;

/// Replies to `square` at a wave vector, with this group.
pub(crate) fn square_reply(alloc: Global, group: &Group, k: &Wave) -> Result<Reply, NoReply>
    requires group { (gens : List Op) × IsGroupOf group.now gens }
    requires limits { IsWithinLimits k.now }
    ensures reply { (gens : List Op) → IsGroupOf group.now gens
        → IfOk result (IsReplied (asked (wave_vector k.now)) (group_of gens)) }
    ensures none { (gens : List Op) → IsGroupOf group.now gens
        → IfErr result (IsNoReply (asked (wave_vector k.now)) (group_of gens)) }
{
    let wave = reduced_wave(group, k);
    match wave_order(group, &wave) {
        Ok(order) => {
            let text = squares_text(alloc, group, &wave, order)?;
            let status = Status::Done;
            Ok(Reply { status, text })
        }
        Err(WorkError::OrderTooLarge(order)) => Err(NoReply::OrderTooLarge(order)),
        Err(WorkError::Memory) => Err(NoReply::Memory),
    }
}

// The text of the squares at a reduced wave vector, whose numbers have this order.
fn squares_text(alloc: Global, group: &Group, wave: &Wave, order: u32) -> Result<Vec<u8>, Memory>
    requires reduced { IsReduced (stands_for group.now) (wave_vector wave.now) (wave_vector wave.now) }
    requires limits { IsWithinLimits wave.now }
    requires order { IsOrder (stands_for group.now) (wave_vector wave.now) order }
    requires within { order ≤ ORDER_LIMIT }
    ensures { IfOk result (λ text. IsSquareText (sign_of group.now.phase) (stands_for group.now) (wave_vector wave.now)
        text.items) }
{
    match square::<Number>(alloc, group, wave) {
        Ok(squares) => {
            let text = text_square(alloc, order, wave, &squares, 1, group.phase())?;
            Ok(text)
        }
        Err(WorkError::OrderTooLarge(_)) => unreachable!(),
        Err(WorkError::Memory) => Err(Memory),
    }
}
