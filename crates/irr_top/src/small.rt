// `small`: the small representations at a wave vector.
ghost use Rattle.std.specs.Prelude.{ℕ, ◌≡◌, ◌≤◌, List, IfOk, IfErr};
ghost use Rattle.std.specs.List.{All};
ghost use Rattle.irr_space.specs.Reciprocal.{IsReduced};
ghost use Rattle.irr_seitz.specs.declared.op.Op.{Op};
ghost use Rattle.irr_kvec.specs.Centrings.{IsWithinLimits};
ghost use Rattle.irr_kvec.specs.WaveMeaning.{wave_vector};
ghost use Rattle.irr_close.specs.declared.group.Group.{Group};
ghost use Rattle.irr_chain.specs.NormalSubgroup.{HasSteps};
ghost use Rattle.irr_cyc.specs.declared.orders.TheConstants.{ORDER_LIMIT};
ghost use Rattle.irr_rep.specs.Twisted.{phase_table, place_count, operation_places};
ghost use Rattle.irr_climb.specs.Lists.{IsSmallList};
ghost use Rattle.irr_climb.specs.Sizes.{HasSharpSizes, HasSmallNumbers};
ghost use Rattle.irr_little.specs.Table.{IsLittleTable, listed_operations};
ghost use Rattle.irr_top.specs.GroupOf.{IsGroupOf, group_of};
ghost use Rattle.irr_top.specs.Question.Question.{small as asked};
ghost use Rattle.irr_top.specs.Answer.{IsReplied, IsNoReply};
ghost use Rattle.irr_top.specs.ListText.{IsListText, IsModestText};

use crate::reply::{NoReply, Reply};
use crate::report::list_text;
use crate::status::Status;
use crate::task::Number;
use irr_climb::{ClimbError, small_reps};
use irr_close::Group;
use irr_cyc::Lift;
use irr_kvec::{Wave, reduced};
use irr_little::{LittleError, little};
use irr_memory::Memory;
use irr_rep::{Family, Twisted};
use std::alloc::Global;

/// Replies to `small` at a wave vector, with this group.
pub(crate) fn small_reply(alloc: Global, group: &Group, k: &Wave) -> Result<Reply, NoReply>
    requires group { (gens : List Op) × IsGroupOf group.now gens }
    requires limits { IsWithinLimits k.now }
    ensures reply { (gens : List Op) → IsGroupOf group.now gens
        → IfOk result (IsReplied (asked (wave_vector k.now)) (group_of gens)) }
    ensures none { (gens : List Op) → IsGroupOf group.now gens
        → IfErr result (IsNoReply (asked (wave_vector k.now)) (group_of gens)) }
{
    let text = small_text::<Number>(alloc, group, k)?;
    let status = Status::Done;
    Ok(Reply { status, text })
}

/// The text of the report at a wave vector of a group, with numbers of this type.
pub(crate) fn small_text<S: Lift>(
    alloc: Global,
    group: &Group,
    k: &Wave,
) -> Result<Vec<u8>, NoReply>
    requires group { (gens : List Op) × IsGroupOf group.now gens }
    requires limits { IsWithinLimits k.now }
    ensures text { (gens : List Op) → IsGroupOf group.now gens
        → IfOk result (λ text. IsModestText gens (wave_vector k.now) text.items) }
    ensures none { (gens : List Op) → IsGroupOf group.now gens
        → IfErr result (IsNoReply (asked (wave_vector k.now)) (group_of gens)) }
{
    let wave = reduced_wave(group, k);
    match little(alloc, group, &wave) {
        Ok(t) => {
            let text = table_text::<S>(alloc, group, wave, &t)?;
            Ok(text)
        }
        Err(LittleError::OrderTooLarge(order)) => Err(NoReply::OrderTooLarge(order)),
        Err(LittleError::Memory) => Err(NoReply::Memory),
    }
}

/// The reduced wave vector.
pub(crate) fn reduced_wave(group: &Group, wave: &Wave) -> Wave
    requires group { (gens : List Op) × IsGroupOf group.now gens }
    requires limits { IsWithinLimits wave.now }
    ensures reduced { (gens : List Op) → IsGroupOf group.now gens
        → IsReduced (group_of gens) (wave_vector wave.now) (wave_vector result) }
    ensures limits { IsWithinLimits result }
{
    reduced(group.centrings(), wave)
}

// The text of the report with this table of phases of the little group.
fn table_text<S: Lift>(
    alloc: Global,
    group: &Group,
    wave: Wave,
    t: &Twisted,
) -> Result<Vec<u8>, Memory>
    requires table { IsLittleTable group.now (wave_vector wave) (operation_places t.now) (phase_table t.now) }
    requires within { (phase_table t.now).order ≤ ORDER_LIMIT }
    requires steps { HasSteps (phase_table t.now) }
    ensures { (d : Op) → IfOk result (λ text. IsListText (wave_vector wave)
        (listed_operations group.now (place_count t.now) (operation_places t.now) d) (phase_table t.now) text.items) }
{
    let families = small_list::<S>(alloc, t)?;
    let text = list_text(alloc, group, wave, t, families)?;
    Ok(text)
}

/// A complete list of small representations of the table of a little group, in canonical order. The error is want
/// of memory.
pub(crate) fn small_list<S: Lift>(alloc: Global, t: &Twisted) -> Result<Vec<Family<S>>, Memory>
    requires within { (phase_table t.now).order ≤ ORDER_LIMIT }
    requires steps { HasSteps (phase_table t.now) }
    ensures list { IfOk result (λ fs. IsSmallList (phase_table t.now) fs.items) }
    ensures sizes { IfOk result (λ fs. All (HasSharpSizes (phase_table t.now).order (place_count t.now)) fs.items) }
    ensures numbers { IfOk result (λ fs. All (HasSmallNumbers (phase_table t.now).order (place_count t.now)) fs.items) }
{
    match small_reps::<S>(alloc, t) {
        Ok(families) => Ok(families),
        Err(ClimbError::Unchained(_)) => unreachable!(),
        Err(ClimbError::Memory) => Err(Memory),
    }
}
