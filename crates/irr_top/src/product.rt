// `product`: the direct products of the full representations at two wave vectors.
ghost use Rattle.std.specs.Prelude.{◌≤◌, List, IfOk, IfErr};
ghost use Rattle.irr_space.specs.Reciprocal.{IsReduced};
ghost use Rattle.irr_seitz.specs.PhaseMeaning.{sign_of};
ghost use Rattle.irr_seitz.specs.declared.op.Op.{Op};
ghost use Rattle.irr_kvec.specs.Centrings.{IsWithinLimits};
ghost use Rattle.irr_kvec.specs.WaveMeaning.{wave_vector};
ghost use Rattle.irr_close.specs.StandsFor.{stands_for};
ghost use Rattle.irr_cyc.specs.declared.orders.TheConstants.{ORDER_LIMIT};
ghost use Rattle.irr_product.specs.Products.{IsPairOrder};
ghost use Rattle.irr_top.specs.GroupOf.{IsGroupOf, group_of};
ghost use Rattle.irr_top.specs.Question.Question.{product as asked};
ghost use Rattle.irr_top.specs.Answer.{IsReplied, IsNoReply};
ghost use Rattle.irr_top.specs.ProductCommand.{IsProductText};

use crate::reply::{NoReply, Reply};
use crate::small::reduced_wave;
use crate::status::Status;
use crate::task::Number;
use irr_close::Group;
use irr_kvec::Wave;
use irr_memory::Memory;
use irr_product::{WorkError, pair_order, product, text_product};
use std::alloc::Global;

/// Replies to `product` at two wave vectors, with this group.
pub(crate) fn product_reply(
    alloc: Global,
    group: &Group,
    k1: &Wave,
    k2: &Wave,
) -> Result<Reply, NoReply>
    requires group { (gens : List Op) × IsGroupOf group.now gens }
    requires limits { IsWithinLimits k1.now }
    requires other_limits { IsWithinLimits k2.now }
    ensures reply { (gens : List Op) → IsGroupOf group.now gens
        → IfOk result (IsReplied (asked (wave_vector k1.now) (wave_vector k2.now)) (group_of gens)) }
    ensures none { (gens : List Op) → IsGroupOf group.now gens
        → IfErr result (IsNoReply (asked (wave_vector k1.now) (wave_vector k2.now)) (group_of gens)) }
{
    let first = reduced_wave(group, k1);
    let second = reduced_wave(group, k2);
    match pair_order(group, &first, &second) {
        Ok(order) => {
            let text = products_text(alloc, group, &first, &second, order)?;
            let status = Status::Done;
            Ok(Reply { status, text })
        }
        Err(WorkError::OrderTooLarge(order)) => Err(NoReply::OrderTooLarge(order)),
        Err(WorkError::Memory) => Err(NoReply::Memory),
    }
}

// The text of the direct products at two reduced wave vectors, whose numbers have this order.
fn products_text(
    alloc: Global,
    group: &Group,
    k1: &Wave,
    k2: &Wave,
    order: u32,
) -> Result<Vec<u8>, Memory>
    requires reduced { IsReduced (stands_for group.now) (wave_vector k1.now) (wave_vector k1.now) }
    requires other_reduced { IsReduced (stands_for group.now) (wave_vector k2.now) (wave_vector k2.now) }
    requires limits { IsWithinLimits k1.now }
    requires other_limits { IsWithinLimits k2.now }
    requires order { IsPairOrder (stands_for group.now) (wave_vector k1.now) (wave_vector k2.now) order }
    requires within { order ≤ ORDER_LIMIT }
    ensures { IfOk result (λ text. IsProductText (sign_of group.now.phase) (stands_for group.now) (wave_vector k1.now)
        (wave_vector k2.now) text.items) }
{
    match product::<Number>(alloc, group, k1, k2) {
        Ok(pairs) => {
            let text = text_product(alloc, order, k1, k2, &pairs, 1, group.phase())?;
            Ok(text)
        }
        Err(WorkError::OrderTooLarge(_)) => unreachable!(),
        Err(WorkError::Memory) => Err(Memory),
    }
}
