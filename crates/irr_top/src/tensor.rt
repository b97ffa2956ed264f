// `tensor`: the tensors of a form.
ghost use Rattle.std.specs.Prelude.{◌≤◌, List, IfOk, IfErr};
ghost use Rattle.irr_space.specs.Reciprocal.{IsOrder};
ghost use Rattle.irr_seitz.specs.PhaseMeaning.{sign_of};
ghost use Rattle.irr_seitz.specs.declared.op.Op.{Op};
ghost use Rattle.irr_close.specs.StandsFor.{stands_for};
ghost use Rattle.irr_cyc.specs.declared.orders.TheConstants.{ORDER_LIMIT};
ghost use Rattle.irr_power.specs.Tensors.{origin};
ghost use Rattle.irr_top.specs.GroupOf.{IsGroupOf, group_of};
ghost use Rattle.irr_top.specs.Question.Question.{tensor as asked};
ghost use Rattle.irr_top.specs.Answer.{IsReplied, IsNoReply};
ghost use Rattle.irr_top.specs.TensorCommand.{IsTensorText};

use crate::reply::{NoReply, Reply};
use crate::status::Status;
use crate::task::Number;
use irr_close::Group;
use irr_input::Form;
use irr_memory::Memory;
use irr_power::{WorkError, tensor, text_tensor};
use std::alloc::Global;

/// Replies to `tensor` for a form, with this group.
pub(crate) fn tensor_reply(alloc: Global, group: &Group, form: Form) -> Result<Reply, NoReply>
    requires group { (gens : List Op) × IsGroupOf group.now gens }
    ensures reply { (gens : List Op) → IsGroupOf group.now gens
        → IfOk result (IsReplied (asked form) (group_of gens)) }
    ensures none { (gens : List Op) → IsGroupOf group.now gens
        → IfErr result (IsNoReply (asked form) (group_of gens)) }
{
    let order = group.exponent();
    let text = tensors_text(alloc, group, form, order)?;
    let status = Status::Done;
    Ok(Reply { status, text })
}

// The text of the tensors of a form, whose numbers have this order.
fn tensors_text(alloc: Global, group: &Group, form: Form, order: u32) -> Result<Vec<u8>, Memory>
    requires order { IsOrder (stands_for group.now) origin order }
    requires within { order ≤ ORDER_LIMIT }
    ensures { IfOk result (λ text. IsTensorText (sign_of group.now.phase) (stands_for group.now) form text.items) }
{
    match tensor::<Number>(alloc, group, form) {
        Ok(tensor) => {
            let text = text_tensor(alloc, order, form, &tensor, 1, group.phase())?;
            Ok(text)
        }
        Err(WorkError::OrderTooLarge(_)) => unreachable!(),
        Err(WorkError::Memory) => Err(Memory),
    }
}
