// `subduce`: the parts of the full representations at a wave vector under a subgroup.
ghost use Rattle.std.specs.Prelude.{◌≡◌, ◌+◌, ◌≤◌, ℕ, List, IfOk, IfErr, IfSome, length};
ghost use Rattle.std.specs.List.{HoldsAt};
ghost use Rattle.irr_space.specs.Reciprocal.{IsOrder, IsReduced};
ghost use Rattle.irr_seitz.specs.PhaseMeaning.{sign_of};
ghost use Rattle.irr_seitz.specs.declared.op.Op.{Op};
ghost use Rattle.irr_kvec.specs.Centrings.{IsWithinLimits};
ghost use Rattle.irr_kvec.specs.WaveMeaning.{wave_vector};
ghost use Rattle.irr_close.specs.StandsFor.{stands_for};
ghost use Rattle.irr_close.specs.declared.group.Group.{Group};
ghost use Rattle.irr_cyc.specs.declared.orders.TheConstants.{ORDER_LIMIT};
ghost use Rattle.irr_input.specs.Stages.{SubContent};
ghost use Rattle.irr_input.specs.InputLines.{content_of_sub};
ghost use Rattle.irr_input.specs.declared.input.GenLine.{GenLine};
ghost use Rattle.irr_setting.specs.Setting.{basis, origin};
ghost use Rattle.irr_subduce.specs.Subgroup.{IsRefused};
ghost use Rattle.irr_top.specs.GroupOf.{IsGroupOf, group_of};
ghost use Rattle.irr_top.specs.RefusalText.{refusal_text};
ghost use Rattle.irr_top.specs.Question.Question.{subduce as asked};
ghost use Rattle.irr_top.specs.Answer.{IsReplied, IsNoReply};
ghost use Rattle.irr_top.specs.Asked.{operations_of};
ghost use Rattle.irr_top.specs.Sections.{IsLimitedSection, IsSubOf};
ghost use Rattle.irr_top.specs.SubgroupOf.{GivesNone};
ghost use Rattle.irr_top.specs.SubduceCommand.{IsRestrictionText};

use crate::answer::operations;
use crate::refusal::text_refusal;
use crate::reply::{NoReply, Reply};
use crate::small::reduced_wave;
use crate::status::{Kind, Status};
use crate::task::Number;
use irr_close::Group;
use irr_input::{Reason, SubSpec};
use irr_kvec::Wave;
use irr_memory::Memory;
use irr_subduce::{Sub, SubError, WorkError, order_at, subduce, subgroup, text_subduce};
use std::alloc::Global;

/// Replies to `subduce` at a wave vector, with this group and this section: the restrictions to the subgroup that the section
/// gives, or the first reason why it gives none.
pub(crate) fn subduce_reply(
    alloc: Global,
    group: &Group,
    k: &Wave,
    section: &SubSpec,
) -> Result<Reply, NoReply>
    requires group { (gens : List Op) × IsGroupOf group.now gens }
    requires limits { IsWithinLimits k.now }
    requires section { IsLimitedSection section.now }
    ensures reply { (gens : List Op) → IsGroupOf group.now gens
        → IfOk result (IsReplied (asked (wave_vector k.now) (content_of_sub section.now)) (group_of gens)) }
    ensures none { (gens : List Op) → IsGroupOf group.now gens
        → IfErr result (IsNoReply (asked (wave_vector k.now) (content_of_sub section.now)) (group_of gens)) }
{
    let gens = operations(alloc, &section.gens)?;
    match subgroup(alloc, group, &section.setting, &gens) {
        Ok(sub) => restricted(alloc, group, k, &sub),
        Err(error) => {
            let reply = refused(alloc, section, error)?;
            Ok(reply)
        }
    }
}

// The reply where the section gives a subgroup.
fn restricted(alloc: Global, group: &Group, k: &Wave, sub: &Sub) -> Result<Reply, NoReply>
    requires group { (gens : List Op) × IsGroupOf group.now gens }
    requires limits { IsWithinLimits k.now }
    requires sub { (S : SubContent) × IsSubOf group.now S sub.now }
    ensures reply { (gens : List Op) (S : SubContent) → IsGroupOf group.now gens → IsSubOf group.now S sub.now
        → IfOk result (IsReplied (asked (wave_vector k.now) S) (group_of gens)) }
    ensures none { (gens : List Op) (S : SubContent) → IsGroupOf group.now gens → IsSubOf group.now S sub.now
        → IfErr result (IsNoReply (asked (wave_vector k.now) S) (group_of gens)) }
{
    let wave = reduced_wave(group, k);
    match order_at(group, &wave) {
        Ok(order) => {
            let text = restrictions_text(alloc, group, sub, &wave, order)?;
            let status = Status::Done;
            Ok(Reply { status, text })
        }
        Err(WorkError::OrderTooLarge(order)) => Err(NoReply::OrderTooLarge(order)),
        Err(WorkError::Memory) => Err(NoReply::Memory),
    }
}

// The text of the restrictions at a reduced wave vector, whose numbers have this order.
fn restrictions_text(
    alloc: Global,
    group: &Group,
    sub: &Sub,
    wave: &Wave,
    order: u32,
) -> Result<Vec<u8>, Memory>
    requires sub { (S : SubContent) × IsSubOf group.now S sub.now }
    requires reduced { IsReduced (stands_for group.now) (wave_vector wave.now) (wave_vector wave.now) }
    requires limits { IsWithinLimits wave.now }
    requires order { IsOrder (stands_for group.now) (wave_vector wave.now) order }
    requires within { order ≤ ORDER_LIMIT }
    ensures { IfOk result (λ text. IsRestrictionText (sign_of group.now.phase) (stands_for group.now) (stands_for sub.now.group)
        (basis sub.now.setting) (origin sub.now.setting) (wave_vector wave.now) text.items) }
{
    match subduce::<Number>(alloc, group, sub, wave) {
        Ok(reps) => {
            let text = text_subduce(alloc, order, wave, &reps, 1, group.phase())?;
            Ok(text)
        }
        Err(WorkError::OrderTooLarge(_)) => unreachable!(),
        Err(WorkError::Memory) => Err(Memory),
    }
}

// The reply where the section gives no subgroup.
fn refused(alloc: Global, section: &SubSpec, error: SubError) -> Result<Reply, Memory>
    requires refused { (group : Group) × IsRefused group section.now.setting (operations_of section.now.gens.items) error }
    ensures status { (group : Group) → IsRefused group section.now.setting (operations_of section.now.gens.items) error
        → IfOk result (λ r. GivesNone (stands_for group) (content_of_sub section.now) r.status) }
    ensures text { IfOk result (λ r. r.text.items ≡ refusal_text r.status) }
{
    match status_of(section, error) {
        Some(status) => {
            let text = text_refusal(alloc, &status)?;
            Ok(Reply { status, text })
        }
        None => Err(Memory),
    }
}

// The status that tells why a section gives no subgroup, and none at want of memory.
fn status_of(section: &SubSpec, error: SubError) -> Option<Status>
    requires refused { (group : Group) × IsRefused group section.now.setting (operations_of section.now.gens.items) error }
    ensures { (group : Group) → IsRefused group section.now.setting (operations_of section.now.gens.items) error
        → IfSome result (GivesNone (stands_for group) (content_of_sub section.now)) }
{
    match error {
        SubError::Singular => Some(Status::BadInput {
            line: section.line,
            reason: Reason::Singular,
        }),
        SubError::NotSubgroup(i) => {
            let line = line_of(section, i);
            let reason = Reason::NotInGroup;
            Some(Status::BadInput { line, reason })
        }
        SubError::Rotations => Some(Status::TooLarge(Kind::Rotations)),
        SubError::Denominator => Some(Status::TooLarge(Kind::Denominator)),
        SubError::Centrings => Some(Status::TooLarge(Kind::Centrings)),
        SubError::Memory => None,
    }
}

// The line of the basis at 0, else that of the generator with this number, counted from 1.
fn line_of(section: &SubSpec, i: u32) -> u64
    requires { i ≤ length section.now.gens.items }
    ensures basis { i ≡ 0 → result ≡ section.now.line }
    ensures generator { (j : ℕ) → i ≡ j + 1 → HoldsAt (λ (g : GenLine). result ≡ g.line) section.now.gens.items j }
{
    if i == 0 {
        return section.line;
    }
    let place = i as usize - 1;
    section.gens[place].line
}
