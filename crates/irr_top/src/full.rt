// `full`: the full representations at a wave vector.
ghost use Rattle.std.specs.Prelude.{◌≤◌, List, IfOk, IfErr};
ghost use Rattle.std.specs.List.{All};
ghost use Rattle.irr_space.specs.Reciprocal.{IsReduced};
ghost use Rattle.irr_seitz.specs.PhaseMeaning.{sign_of};
ghost use Rattle.irr_seitz.specs.declared.op.Op.{Op};
ghost use Rattle.irr_kvec.specs.Centrings.{IsWithinLimits};
ghost use Rattle.irr_kvec.specs.WaveMeaning.{wave_vector};
ghost use Rattle.irr_close.specs.StandsFor.{stands_for};
ghost use Rattle.irr_chain.specs.NormalSubgroup.{HasSteps};
ghost use Rattle.irr_cyc.specs.declared.orders.TheConstants.{ORDER_LIMIT};
ghost use Rattle.irr_rep.specs.Twisted.{phase_table, operation_places};
ghost use Rattle.irr_little.specs.Table.{IsLittleTable};
ghost use Rattle.irr_top.specs.GroupOf.{IsGroupOf, group_of};
ghost use Rattle.irr_top.specs.Question.Question.{full as asked};
ghost use Rattle.irr_top.specs.Answer.{IsReplied, IsNoReply};
ghost use Rattle.irr_top.specs.FullCommand.{IsFullText};
ghost use Rattle.irr_top.specs.FullFamilies.{IsInducible, AreInducedFrom};

use crate::reply::{NoReply, Reply};
use crate::small::{reduced_wave, small_list};
use crate::status::Status;
use crate::task::Number;
use irr_close::Group;
use irr_cyc::Scalar;
use irr_full_text::text_full;
use irr_kvec::Wave;
use irr_little::{Arms, LittleError, little, star};
use irr_memory::Memory;
use irr_rep::{Family, Twisted};
use irr_star::{Full, induce};
use std::alloc::Global;

/// Replies to `full` at a wave vector, with this group.
pub(crate) fn full_reply(alloc: Global, group: &Group, k: &Wave) -> Result<Reply, NoReply>
    requires group { (gens : List Op) × IsGroupOf group.now gens }
    requires limits { IsWithinLimits k.now }
    ensures reply { (gens : List Op) → IsGroupOf group.now gens
        → IfOk result (IsReplied (asked (wave_vector k.now)) (group_of gens)) }
    ensures none { (gens : List Op) → IsGroupOf group.now gens
        → IfErr result (IsNoReply (asked (wave_vector k.now)) (group_of gens)) }
{
    let wave = reduced_wave(group, k);
    match little(alloc, group, &wave) {
        Ok(t) => {
            let text = text_at(alloc, group, &wave, &t)?;
            let status = Status::Done;
            Ok(Reply { status, text })
        }
        Err(LittleError::OrderTooLarge(order)) => Err(NoReply::OrderTooLarge(order)),
        Err(LittleError::Memory) => Err(NoReply::Memory),
    }
}

// The text of the full representations at a reduced wave vector, with the table of its little group.
fn text_at(alloc: Global, group: &Group, wave: &Wave, t: &Twisted) -> Result<Vec<u8>, Memory>
    requires reduced { IsReduced (stands_for group.now) (wave_vector wave.now) (wave_vector wave.now) }
    requires limits { IsWithinLimits wave.now }
    requires table { IsLittleTable group.now (wave_vector wave.now) (operation_places t.now) (phase_table t.now) }
    requires within { (phase_table t.now).order ≤ ORDER_LIMIT }
    requires steps { HasSteps (phase_table t.now) }
    ensures { IfOk result (λ text. IsFullText (sign_of group.now.phase) (stands_for group.now) (wave_vector wave.now)
        text.items) }
{
    let arms = star(alloc, group, wave)?;
    let families = small_list::<Number>(alloc, t)?;
    let fulls = induced(alloc, group, &arms, t, &families)?;
    let text = text_full(alloc, group, &arms, t, &fulls)?;
    Ok(text)
}

// The full representations that families of small ones induce.
fn induced<S: Scalar>(
    alloc: Global,
    group: &Group,
    star: &Arms,
    t: &Twisted,
    families: &[Family<S>],
) -> Result<Vec<Full<S>>, Memory>
    requires families { All (IsInducible group.now star.now.arms.items t.now) families.now }
    requires limits { All (λ a. IsWithinLimits a.wave) star.now.arms.items }
    ensures { IfOk result (λ fulls. AreInducedFrom group.now star.now.arms.items t.now families.now fulls.items) }
{
    let mut fulls = Vec::new(alloc);
    for family in families {
        let full = induce(alloc, group, star, t, family)?;
        fulls.push(full)?;
    }
    Ok(fulls)
}
