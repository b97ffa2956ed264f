// `compat`: the compatibility relations of a line through two points, or of a plane through three.
ghost use Rattle.std.specs.Prelude.{◌≡◌, ◌∷◌, List, IfOk, IfErr, IfSome, map};
ghost use Rattle.irr_seitz.specs.declared.op.Op.{Op};
ghost use Rattle.irr_kvec.specs.Centrings.{IsWithinLimits};
ghost use Rattle.irr_kvec.specs.WaveMeaning.{wave_vector};
ghost use Rattle.irr_top.specs.GroupOf.{IsGroupOf, group_of};
ghost use Rattle.irr_top.specs.Question.Question.{compat as asked};
ghost use Rattle.irr_top.specs.Answer.{IsReplied, IsNoReply};
ghost use Rattle.irr_top.specs.CompatCommand.{other_points};

use crate::reply::{NoReply, Reply};
use crate::status::Status;
use crate::task::Number;
use irr_close::Group;
use irr_compat::compat;
use irr_compat_text::text_compat;
use irr_kvec::Wave;
use irr_memory::Memory;
use irr_mult::WorkError;
use std::alloc::Global;

/// Replies to `compat` at a first point, a second one and perhaps a third, with this group.
pub(crate) fn compat_reply(
    alloc: Global,
    group: &Group,
    first: &Wave,
    second: &Wave,
    third: &Option<Wave>,
) -> Result<Reply, NoReply>
    requires group { (gens : List Op) × IsGroupOf group.now gens }
    requires limits { IsWithinLimits first.now }
    requires second_limits { IsWithinLimits second.now }
    requires third_limits { IfSome third.now IsWithinLimits }
    ensures reply { (gens : List Op) → IsGroupOf group.now gens → IfOk result (IsReplied (asked (wave_vector first.now)
        (map wave_vector (other_points second.now third.now))) (group_of gens)) }
    ensures none { (gens : List Op) → IsGroupOf group.now gens → IfErr result (IsNoReply (asked (wave_vector first.now)
        (map wave_vector (other_points second.now third.now))) (group_of gens)) }
{
    let points = points(alloc, first, second, third)?;
    match compat::<Number>(alloc, group, &points) {
        Ok(table) => {
            let text = text_compat(alloc, group, &points, &table, 1, group.phase())?;
            let status = Status::Done;
            Ok(Reply { status, text })
        }
        Err(WorkError::OrderTooLarge(order)) => Err(NoReply::OrderTooLarge(order)),
        Err(WorkError::Memory) => Err(NoReply::Memory),
    }
}

// The points, in order.
fn points(
    alloc: Global,
    first: &Wave,
    second: &Wave,
    third: &Option<Wave>,
) -> Result<Vec<Wave>, Memory>
    ensures { IfOk result (λ points. points.items ≡ first.now ∷ other_points second.now third.now) }
{
    let mut points = Vec::new(alloc);
    points.push(*first)?;
    points.push(*second)?;
    if let Some(third) = third {
        points.push(*third)?;
    }
    Ok(points)
}
