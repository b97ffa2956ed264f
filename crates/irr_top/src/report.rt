// The report of a list of small representations on the table of a little group.
ghost use Rattle.std.specs.Prelude.{ℕ, ◌≡◌, ◌<◌, ◌≤◌, List, All, Contains, length, map, slice_index, slice_index_or, IfOk};
ghost use Rattle.irr_seitz.specs.declared.op.Op.{Op};
ghost use Rattle.irr_kvec.specs.WaveMeaning.{wave_vector};
ghost use Rattle.irr_close.specs.declared.group.Group.{Group};
ghost use Rattle.irr_cyc.specs.declared.orders.TheConstants.{ORDER_LIMIT};
ghost use Rattle.irr_theory.specs.Representations.{Representations};
ghost use Rattle.irr_space.specs.PhaseTable.{phases_at};
ghost use Rattle.irr_rep.specs.Twisted.{phase_table, place_count, operation_places};
ghost use Rattle.irr_little.specs.Table.{IsLittleTable, listed_operations};
ghost use Rattle.irr_climb.specs.Families.{AreRead};
ghost use Rattle.irr_climb.specs.Lists.{IsSmallList};
ghost use Rattle.irr_climb.specs.Sizes.{HasSmallNumbers};
ghost use Rattle.irr_report.specs.Content.{FitsTogether};
ghost use Rattle.irr_report.specs.OfList.{IsReportOfList};
ghost use Rattle.irr_top.specs.Members.{IsMember, HasTraces};
ghost use Rattle.irr_top.specs.ListText.{IsListText};

use irr_char::character;
use irr_close::Group;
use irr_cyc::Scalar;
use irr_kvec::Wave;
use irr_memory::Memory;
use irr_rep::{Family, Twisted};
use irr_report::{RepText, Report, print_report};
use irr_seitz::Op;
use std::alloc::Global;

/// The text of the report of a list of small representations, which is far within the limits on what reads it.
/// The error is want of memory.
pub(crate) fn list_text<S: Scalar>(
    alloc: Global,
    group: &Group,
    wave: Wave,
    t: &Twisted,
    families: Vec<Family<S>>,
) -> Result<Vec<u8>, Memory>
    requires table { IsLittleTable group.now (wave_vector wave) (operation_places t.now) (phase_table t.now) }
    requires within { (phase_table t.now).order ≤ ORDER_LIMIT }
    requires list { IsSmallList (phase_table t.now) families.items }
    requires numbers { All (HasSmallNumbers (phase_table t.now).order (place_count t.now)) families.items }
    ensures { (d : Op) → IfOk result (λ text. IsListText (wave_vector wave)
        (listed_operations group.now (place_count t.now) (operation_places t.now) d) (phase_table t.now) text.items) }
{
    let report = report_of(alloc, group, wave, t, families)?;
    let text = print_report(alloc, &report)?;
    Ok(text)
}

// The report of a list of small representations.
fn report_of<S: Scalar>(
    alloc: Global,
    group: &Group,
    wave: Wave,
    t: &Twisted,
    families: Vec<Family<S>>,
) -> Result<Report<S>, Memory>
    requires places { (p : ℕ) → Contains (operation_places t.now) p → p < length group.now.ops.items }
    requires members { All (IsMember (phase_table t.now).order (place_count t.now)) families.items }
    requires within { (phase_table t.now).order ≤ ORDER_LIMIT }
    ensures fits { IfOk result (λ r. FitsTogether r) }
    ensures wave { IfOk result (λ r. r.wave ≡ wave) }
    ensures list { IfOk result (λ r. (d : Op) (L : Representations (phases_at (phase_table t.now)))
        → AreRead (phase_table t.now).order (phases_at (phase_table t.now)) L families.items
        → IsReportOfList r (listed_operations group.now (place_count t.now) (operation_places t.now) d)
        (phase_table t.now) L) }
{
    let ops = operations(alloc, group, t)?;
    let reps = representations(alloc, t, families)?;
    Ok(Report {
        wave,
        order: t.order(),
        ops,
        reps,
    })
}

/// The operations of the little group, in the order of the table. The error is want of memory.
pub(crate) fn operations(alloc: Global, group: &Group, t: &Twisted) -> Result<Vec<Op>, Memory>
    requires places { (p : ℕ) → Contains (operation_places t.now) p → p < length group.now.ops.items }
    ensures count { IfOk result (λ ops. length ops.items ≡ place_count t.now) }
    ensures ops { IfOk result (λ ops. (a : ℕ) (d : Op) → a < place_count t.now
        → slice_index_or ops.items a d
        ≡ slice_index_or group.now.ops.items (slice_index (operation_places t.now) a) d) }
{
    let all = group.ops();
    let mut ops = Vec::new(alloc);
    for i in 0..t.len() {
        ops.push(all[t.place(i) as usize])?;
    }
    Ok(ops)
}

// The families with their characters.
fn representations<S: Scalar>(
    alloc: Global,
    t: &Twisted,
    families: Vec<Family<S>>,
) -> Result<Vec<RepText<S>>, Memory>
    requires members { All (IsMember (phase_table t.now).order (place_count t.now)) families.items }
    requires within { (phase_table t.now).order ≤ ORDER_LIMIT }
    ensures families { IfOk result (λ reps. map (λ r. r.family) reps.items ≡ families.items) }
    ensures traces { IfOk result (λ reps. All (HasTraces (phase_table t.now).order (place_count t.now)) reps.items) }
{
    let mut reps = Vec::new(alloc);
    for family in families {
        let rep = representation(alloc, t, family)?;
        reps.push(rep)?;
    }
    Ok(reps)
}

// A family with its character.
fn representation<S: Scalar>(
    alloc: Global,
    t: &Twisted,
    family: Family<S>,
) -> Result<RepText<S>, Memory>
    requires member { IsMember (phase_table t.now).order (place_count t.now) family }
    requires within { (phase_table t.now).order ≤ ORDER_LIMIT }
    ensures family { IfOk result (λ r. r.family ≡ family) }
    ensures traces { IfOk result (λ r. HasTraces (phase_table t.now).order (place_count t.now) r) }
{
    let chars = character(alloc, &family)?;
    Ok(RepText { family, chars })
}
