// `gen`: a summary of the small representations at the wave vector of a made input.
ghost use Rattle.std.specs.Prelude.{◌≡◌, ◌≤◌, ◌++◌, List, IfOk, IfErr, OnOk, map};
ghost use Rattle.irr_seitz.specs.declared.op.Op.{Op};
ghost use Rattle.irr_kvec.specs.Centrings.{IsWithinLimits};
ghost use Rattle.irr_kvec.specs.WaveMeaning.{wave_vector};
ghost use Rattle.irr_chain.specs.NormalSubgroup.{HasSteps};
ghost use Rattle.irr_cyc.specs.declared.orders.TheConstants.{ORDER_LIMIT};
ghost use Rattle.irr_rep.specs.Twisted.{phase_table, place_count};
ghost use Rattle.irr_rep.specs.declared.family.Family.{Family};
ghost use Rattle.irr_top.specs.GroupOf.{IsGroupOf, group_of};
ghost use Rattle.irr_top.specs.Question.Question.{summary as asked};
ghost use Rattle.irr_top.specs.Answer.{IsReplied, IsNoReply};
ghost use Rattle.irr_top.specs.SummaryText.{IsSummaryOn, dim_word, dims_text, head_lines, summary_lines};

use crate::reply::{NoReply, Reply};
use crate::small::{reduced_wave, small_list};
use crate::status::Status;
use crate::task::Number;
use irr_close::Group;
use irr_cyc::Scalar;
use irr_kvec::Wave;
use irr_little::{LittleError, little};
use irr_memory::Memory;
use irr_rep::{Family, Twisted};
use std::alloc::Global;

/// Replies to `gen`, with the group of an input of so many lines that was made from a number, and its wave vector.
pub(crate) fn made_reply(
    alloc: Global,
    group: &Group,
    number: u32,
    lines: u64,
    k: &Wave,
) -> Result<Reply, NoReply>
    requires group { (gens : List Op) × IsGroupOf group.now gens }
    requires limits { IsWithinLimits k.now }
    ensures reply { (gens : List Op) → IsGroupOf group.now gens
        → IfOk result (IsReplied (asked number lines (wave_vector k.now)) (group_of gens)) }
    ensures none { (gens : List Op) → IsGroupOf group.now gens
        → IfErr result (IsNoReply (asked number lines (wave_vector k.now)) (group_of gens)) }
{
    let wave = reduced_wave(group, k);
    match little(alloc, group, &wave) {
        Ok(t) => {
            let text = summary(alloc, number, lines, &wave, &t)?;
            let status = Status::Done;
            Ok(Reply { status, text })
        }
        Err(LittleError::OrderTooLarge(order)) => Err(NoReply::OrderTooLarge(order)),
        Err(LittleError::Memory) => Err(NoReply::Memory),
    }
}

// The summary of the small representations with this table of phases of the little group.
fn summary(
    alloc: Global,
    number: u32,
    lines: u64,
    wave: &Wave,
    t: &Twisted,
) -> Result<Vec<u8>, Memory>
    requires within { (phase_table t.now).order ≤ ORDER_LIMIT }
    requires steps { HasSteps (phase_table t.now) }
    ensures { IfOk result (λ text. IsSummaryOn number lines (wave_vector wave.now) (phase_table t.now) text.items) }
{
    let families = small_list::<Number>(alloc, t)?;
    let dims = dimensions(alloc, &families)?;
    let text = text_gen(alloc, number, lines, wave, t, &dims)?;
    Ok(text)
}

// The dimensions of families.
fn dimensions<S: Scalar>(alloc: Global, families: &[Family<S>]) -> Result<Vec<u32>, Memory>
    ensures { IfOk result (λ dims. dims.items ≡ map (λ (f : Family _ _). f.dim) families.now) }
{
    let mut dims = Vec::new(alloc);
    for family in families {
        dims.push(family.dim)?;
    }
    Ok(dims)
}

/// The text of a summary: the number from which an input was made, the number of its lines, the reduced wave vector,
/// the order and the number of operations of the table of its little group, and the number and the dimensions of its
/// small representations. The error is want of memory.
pub fn text_gen(
    alloc: Global,
    number: u32,
    lines: u64,
    k: &Wave,
    t: &Twisted,
    dims: &[u32],
) -> Result<Vec<u8>, Memory>
    ensures { IfOk result (λ text. text.items
        ≡ summary_lines number lines (wave_vector k.now) (phase_table t.now).order (place_count t.now) dims.now) }
{
    let mut text = head(alloc, number, lines, k, t)?;
    let count = dims.len();
    text.extend_from_slice(format!(in alloc; "reps {count}\ndims")?.as_bytes())?;
    push_dims(alloc, &mut text, dims)?;
    text.extend_from_slice(b"\nend\n")?;
    Ok(text)
}

// The lines before those of the representations.
fn head(alloc: Global, number: u32, lines: u64, wave: &Wave, t: &Twisted) -> Result<Vec<u8>, Memory>
    ensures { IfOk result (λ text. text.items
        ≡ head_lines number lines (wave_vector wave.now) (phase_table t.now).order (place_count t.now)) }
{
    let order = t.order();
    let count = t.len();
    let mut text = format!(in alloc; "gen 1\nnumber {number}\nlines {lines}\n")?.into_bytes();
    text.extend_from_slice(format!(in alloc;
        "wave {wave}\norder {order}\nops {count}\n"
    )?.as_bytes())?;
    Ok(text)
}

// Appends dimensions, with a blank before each.
fn push_dims(alloc: Global, text: &mut Vec<u8>, dims: &[u32]) -> Result<(), Memory>
    ensures { OnOk result (text.new.items ≡ text.old.items ++ dims_text dims.now) }
{
    for &dim in dims {
        push_dim(alloc, text, dim)?;
    }
    Ok(())
}

// Appends a dimension, with a blank before it.
fn push_dim(alloc: Global, text: &mut Vec<u8>, dim: u32) -> Result<(), Memory>
    ensures { OnOk result (text.new.items ≡ text.old.items ++ dim_word 1 dim) }
{
    text.extend_from_slice(format!(in alloc; " {dim}")?.as_bytes())?;
    Ok(())
}
