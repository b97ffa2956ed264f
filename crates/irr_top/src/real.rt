// `real`: the types of the full representations at a wave vector.
ghost use Rattle.std.specs.Prelude.{◌≡◌, ◌≤◌, ◌++◌, List, IfOk, IfErr, OnOk, length};
ghost use Rattle.std.specs.List.{All};
ghost use Rattle.irr_space.specs.Reciprocal.{IsReduced};
ghost use Rattle.irr_seitz.specs.PhaseMeaning.{sign_of};
ghost use Rattle.irr_seitz.specs.declared.op.Op.{Op};
ghost use Rattle.irr_kvec.specs.Centrings.{IsWithinLimits};
ghost use Rattle.irr_kvec.specs.WaveMeaning.{wave_vector};
ghost use Rattle.irr_close.specs.StandsFor.{stands_for};
ghost use Rattle.irr_chain.specs.NormalSubgroup.{HasSteps};
ghost use Rattle.irr_cyc.specs.declared.orders.TheConstants.{ORDER_LIMIT};
ghost use Rattle.irr_rep.specs.Twisted.{phase_table, operation_places};
ghost use Rattle.irr_little.specs.Table.{IsLittleTable};
ghost use Rattle.irr_report.specs.Printed.{numbered};
ghost use Rattle.irr_top.specs.GroupOf.{IsGroupOf, group_of};
ghost use Rattle.irr_top.specs.Question.Question.{real as asked};
ghost use Rattle.irr_top.specs.Answer.{IsReplied, IsNoReply};
ghost use Rattle.irr_top.specs.RealCommand.{IsRealText};
ghost use Rattle.irr_top.specs.RealFamilies.{IsTypeable, IsTyped, AreTyped, row_text, head_text, rows_text};

use crate::reply::{NoReply, Reply};
use crate::small::{reduced_wave, small_list};
use crate::status::Status;
use crate::task::Number;
use irr_close::Group;
use irr_cyc::Scalar;
use irr_kvec::Wave;
use irr_little::{Arms, LittleError, little, star};
use irr_memory::Memory;
use irr_real::reality;
use irr_rep::{Family, Twisted};
use std::alloc::Global;

/// The number of rows of a full representation, and its type: 1, -1 or 0.
#[derive(Clone, Copy)]
pub(crate) struct TypedRep {
    pub dim: u32,
    pub kind: i8,
}

/// Replies to `real` at a wave vector, with this group.
pub(crate) fn real_reply(alloc: Global, group: &Group, k: &Wave) -> Result<Reply, NoReply>
    requires group { (gens : List Op) × IsGroupOf group.now gens }
    requires limits { IsWithinLimits k.now }
    ensures reply { (gens : List Op) → IsGroupOf group.now gens
        → IfOk result (IsReplied (asked (wave_vector k.now)) (group_of gens)) }
    ensures none { (gens : List Op) → IsGroupOf group.now gens
        → IfErr result (IsNoReply (asked (wave_vector k.now)) (group_of gens)) }
{
    let wave = reduced_wave(group, k);
    match little(alloc, group, &wave) {
        Ok(t) => {
            let text = types_text(alloc, group, &wave, &t)?;
            let status = Status::Done;
            Ok(Reply { status, text })
        }
        Err(LittleError::OrderTooLarge(order)) => Err(NoReply::OrderTooLarge(order)),
        Err(LittleError::Memory) => Err(NoReply::Memory),
    }
}

// The text of the types at a reduced wave vector, with the table of its little group.
fn types_text(alloc: Global, group: &Group, wave: &Wave, t: &Twisted) -> Result<Vec<u8>, Memory>
    requires reduced { IsReduced (stands_for group.now) (wave_vector wave.now) (wave_vector wave.now) }
    requires limits { IsWithinLimits wave.now }
    requires table { IsLittleTable group.now (wave_vector wave.now) (operation_places t.now) (phase_table t.now) }
    requires within { (phase_table t.now).order ≤ ORDER_LIMIT }
    requires steps { HasSteps (phase_table t.now) }
    ensures { IfOk result (λ text. IsRealText (sign_of group.now.phase) (stands_for group.now) (wave_vector wave.now)
        text.items) }
{
    let arms = star(alloc, group, wave)?;
    let count = arm_count(&arms);
    let families = small_list::<Number>(alloc, t)?;
    let rows = typed(alloc, group, wave, t, count, &families)?;
    let text = lines(alloc, wave, t.order(), &rows)?;
    Ok(text)
}

// The number of arms of a star.
fn arm_count(star: &Arms) -> u32
    requires { length star.now.arms.items ≤ 48 }
    ensures count { result ≡ length star.now.arms.items }
    ensures few { result ≤ 48 }
{
    star.arms.len() as u32
}

// The numbers of rows and the types of what families of small representations induce, on a star of so many arms.
fn typed<S: Scalar>(
    alloc: Global,
    group: &Group,
    wave: &Wave,
    t: &Twisted,
    arms: u32,
    families: &[Family<S>],
) -> Result<Vec<TypedRep>, Memory>
    requires limits { IsWithinLimits wave.now }
    requires table { IsLittleTable group.now (wave_vector wave.now) (operation_places t.now) (phase_table t.now) }
    requires few { arms ≤ 48 }
    requires families { All (IsTypeable t.now) families.now }
    ensures { IfOk result (λ rows. AreTyped group.now (wave_vector wave.now) arms families.now rows.items) }
{
    let mut rows = Vec::new(alloc);
    for family in families {
        let row = typed_rep(alloc, group, wave, t, arms, family)?;
        rows.push(row)?;
    }
    Ok(rows)
}

// The number of rows and the type of what a family induces.
fn typed_rep<S: Scalar>(
    alloc: Global,
    group: &Group,
    wave: &Wave,
    t: &Twisted,
    arms: u32,
    family: &Family<S>,
) -> Result<TypedRep, Memory>
    requires limits { IsWithinLimits wave.now }
    requires table { IsLittleTable group.now (wave_vector wave.now) (operation_places t.now) (phase_table t.now) }
    requires few { arms ≤ 48 }
    requires family { IsTypeable t.now family.now }
    ensures { IfOk result (λ row. IsTyped group.now (wave_vector wave.now) arms family.now row) }
{
    let kind = reality(alloc, group, wave, t, family)?;
    let dim = arms * family.dim;
    Ok(TypedRep { dim, kind })
}

// The text of these types.
fn lines(alloc: Global, wave: &Wave, order: u32, rows: &[TypedRep]) -> Result<Vec<u8>, Memory>
    ensures { IfOk result (λ text. text.items ≡ rows_text (wave_vector wave.now) order rows.now) }
{
    let mut text = head(alloc, wave, order, rows.len())?;
    push_rows(alloc, &mut text, rows)?;
    text.extend_from_slice(b"end\n")?;
    Ok(text)
}

// The lines before those of the representations.
fn head(alloc: Global, wave: &Wave, order: u32, count: usize) -> Result<Vec<u8>, Memory>
    ensures { IfOk result (λ text. text.items ≡ head_text (wave_vector wave.now) order count) }
{
    let text = format!(in alloc; "real 1\nwave {wave}\norder {order}\nreps {count}\n")?;
    Ok(text.into_bytes())
}

// Appends the lines of the representations.
fn push_rows(alloc: Global, text: &mut Vec<u8>, rows: &[TypedRep]) -> Result<(), Memory>
    ensures { OnOk result (text.new.items ≡ text.old.items ++ numbered row_text 1 rows.now) }
{
    for (i, row) in rows.iter().enumerate() {
        push_row(alloc, text, i + 1, row)?;
    }
    Ok(())
}

// Appends the line of a representation.
fn push_row(alloc: Global, text: &mut Vec<u8>, number: usize, row: &TypedRep) -> Result<(), Memory>
    ensures { OnOk result (text.new.items ≡ text.old.items ++ row_text number row.now) }
{
    let dim = row.dim;
    let kind = row.kind;
    text.extend_from_slice(format!(in alloc; "rep S{number} dim {dim} type {kind}\n")?.as_bytes())?;
    Ok(())
}
