// `site`: the sites of a point, and what they bring to a wave vector.
ghost use Rattle.std.specs.Prelude.{ℕ, ◌≤◌, List, IfOk, IfErr};
ghost use Rattle.irr_space.specs.Reciprocal.{IsOrder, IsReduced};
ghost use Rattle.irr_rat.specs.VectorMeaning.{vector};
ghost use Rattle.irr_seitz.specs.PhaseMeaning.{sign_of};
ghost use Rattle.irr_seitz.specs.declared.op.Op.{Op};
ghost use Rattle.irr_kvec.specs.Centrings.{IsWithinLimits};
ghost use Rattle.irr_kvec.specs.WaveMeaning.{wave_vector};
ghost use Rattle.irr_input.specs.PointText.{IsSmallPoint};
ghost use Rattle.irr_close.specs.StandsFor.{stands_for};
ghost use Rattle.irr_cyc.specs.declared.orders.TheConstants.{ORDER_LIMIT};
ghost use Rattle.irr_site.specs.Content.{sites_content};
ghost use Rattle.irr_site.specs.SiteContent.{IsSitesOf};
ghost use Rattle.irr_top.specs.GroupOf.{IsGroupOf, group_of};
ghost use Rattle.irr_top.specs.Question.Question.{site as asked};
ghost use Rattle.irr_top.specs.Answer.{IsReplied, IsNoReply};
ghost use Rattle.irr_top.specs.SiteCommand.{IsSiteText};

use crate::reply::{NoReply, Reply};
use crate::small::reduced_wave;
use crate::status::Status;
use crate::task::Number;
use irr_close::Group;
use irr_kvec::{Wave, period};
use irr_memory::Memory;
use irr_mult::WorkError;
use irr_rat::Vec3;
use irr_site::{Sites, site};
use irr_site_text::text_site;
use std::alloc::Global;

/// Replies to `site` at a point and a wave vector, with this group.
pub(crate) fn site_reply(alloc: Global, group: &Group, x: &Vec3, k: &Wave) -> Result<Reply, NoReply>
    requires group { (gens : List Op) × IsGroupOf group.now gens }
    requires point { IsSmallPoint x.now }
    requires limits { IsWithinLimits k.now }
    ensures reply { (gens : List Op) → IsGroupOf group.now gens
        → IfOk result (IsReplied (asked (vector x.now) (wave_vector k.now)) (group_of gens)) }
    ensures none { (gens : List Op) → IsGroupOf group.now gens
        → IfErr result (IsNoReply (asked (vector x.now) (wave_vector k.now)) (group_of gens)) }
{
    let wave = reduced_wave(group, k);
    match site::<Number>(alloc, group, x, &wave) {
        Ok(sites) => {
            let text = sites_text(alloc, group, x, &wave, &sites)?;
            let status = Status::Done;
            Ok(Reply { status, text })
        }
        Err(WorkError::OrderTooLarge(order)) => Err(NoReply::OrderTooLarge(order)),
        Err(WorkError::Memory) => Err(NoReply::Memory),
    }
}

// The text of the sites at a reduced wave vector.
fn sites_text(
    alloc: Global,
    group: &Group,
    x: &Vec3,
    wave: &Wave,
    sites: &Sites,
) -> Result<Vec<u8>, Memory>
    requires reduced { IsReduced (stands_for group.now) (wave_vector wave.now) (wave_vector wave.now) }
    requires limits { IsWithinLimits wave.now }
    requires sites { (n : ℕ) × (n ≤ ORDER_LIMIT) × IsSitesOf (sign_of group.now.phase) (stands_for group.now) (vector x.now)
        (wave_vector wave.now) (sites_content n sites.now) }
    ensures { IfOk result (λ text. IsSiteText (sign_of group.now.phase) (stands_for group.now) (vector x.now)
        (wave_vector wave.now) text.items) }
{
    let order = order_of(group, wave);
    let text = text_site(alloc, order as u32, wave, x, sites, 1, group.phase())?;
    Ok(text)
}

// The order of the numbers at a wave vector: the exponent of the group times the period.
fn order_of(group: &Group, wave: &Wave) -> u64
    requires limits { IsWithinLimits wave.now }
    ensures { IsOrder (stands_for group.now) (wave_vector wave.now) result }
{
    u64::from(group.exponent()) * u64::from(period(group.centrings(), wave))
}
