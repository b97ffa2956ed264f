// Compatibility relations.
ghost use Rattle.std.specs.Prelude.{ℕ, suc, ◌≡◌, ◌<◌, ◌≤◌, IfOk, IfErr, length, map};
ghost use Rattle.std.specs.List.{All};
ghost use Rattle.irr_chain.specs.NormalSubgroup.{HasSteps};
ghost use Rattle.irr_rep.specs.Twisted.{operation_places, phase_table};
ghost use Rattle.irr_kvec.specs.Centrings.{IsWithinLimits};
ghost use Rattle.irr_kvec.specs.declared.wave.Wave.{Wave};
ghost use Rattle.irr_little.specs.Line.{line_points, IsLineGroupTable};
ghost use Rattle.irr_compat.specs.LineTables.{IsCompatRefusal, IsCompatTable, IsLineList};

use crate::points::all_rows;
use crate::table::LineTable;
use irr_close::Group;
use irr_cyc::{Lift, Order, Scalar};
use irr_kvec::Wave;
use irr_little::{LittleError, line_group};
use irr_memory::Memory;
use irr_mult::{SmallCharacter, WorkError, complete_list, small_characters};
use irr_rep::Twisted;
use std::alloc::Global;

/// The compatibility relations of a line through two points or of a plane through three (Aroyo et al., Acta Cryst. A62,
/// 2006): the small representations of the line group, at the first point, in canonical order, and how often each of
/// them stands in each small representation at each point, restricted to the line group. A small representation at a
/// point k is read at the first point k0: its matrix at an operation with the vector v is multiplied by the phase of v
/// at k0 - k. Numbers have the order of the line.
///
/// There are one to three points, with numerators of at most 10^14 in absolute value over a denominator of at most 10^7;
/// they are taken as they are given, and with one point the line group is its little group. The order is refused as in
/// `line_group`, and the other error is want of memory.
pub fn compat<S: Lift>(
    alloc: Global,
    group: &Group,
    points: &[Wave],
) -> Result<LineTable<S>, WorkError>
    requires points { 0 < length points.now }
    requires few { length points.now ≤ 3 }
    requires limits { All IsWithinLimits points.now }
    ensures table { (n : ℕ) (d : Wave) → length points.now ≡ suc n
        → IfOk result (IsCompatTable S.order_of S.value group.now (line_points n points.now d)) }
    ensures refused { IfErr result (IsCompatRefusal group.now points.now) }
{
    let line = line_table(alloc, group, points)?;
    let table = line_relations(alloc, group, points, line)?;
    Ok(table)
}

// The table of the line group of the points.
fn line_table(alloc: Global, group: &Group, points: &[Wave]) -> Result<Twisted, WorkError>
    requires points { 0 < length points.now }
    requires limits { All IsWithinLimits points.now }
    ensures table { (n : ℕ) (d : Wave) → length points.now ≡ suc n → IfOk result (λ t.
        IsLineGroupTable group.now (line_points n points.now d) (operation_places t) (phase_table t)) }
    ensures refused { IfErr result (IsCompatRefusal group.now points.now) }
{
    match line_group(alloc, group, points) {
        Ok(t) => Ok(t),
        Err(LittleError::OrderTooLarge(order)) => Err(WorkError::OrderTooLarge(order)),
        Err(LittleError::Memory) => Err(WorkError::Memory),
    }
}

// The relations with the table of the line group.
fn line_relations<S: Lift>(
    alloc: Global,
    group: &Group,
    points: &[Wave],
    line: Twisted,
) -> Result<LineTable<S>, Memory>
    requires points { 0 < length points.now }
    requires few { length points.now ≤ 3 }
    requires limits { All IsWithinLimits points.now }
    requires table { (n : ℕ) (d : Wave) → length points.now ≡ suc n
        → IsLineGroupTable group.now (line_points n points.now d) (operation_places line) (phase_table line) }
    ensures { (n : ℕ) (d : Wave) → length points.now ≡ suc n
        → IfOk result (IsCompatTable S.order_of S.value group.now (line_points n points.now d)) }
{
    let members = line_members(alloc, &line)?;
    let rows = all_rows(alloc, group, points, &line, &members)?;
    let (dims, chars) = parted(alloc, members)?;
    Ok(LineTable {
        line,
        dims,
        chars,
        rows,
    })
}

// The sizes and characters of a complete list on the table of a line group.
fn line_members<S: Lift>(alloc: Global, line: &Twisted) -> Result<Vec<SmallCharacter<S>>, Memory>
    requires steps { HasSteps (phase_table line.now) }
    ensures { IfOk result (λ cs. IsLineList S.order_of S.value (phase_table line.now) cs.items) }
{
    let order = Order::new(alloc, line.order())?;
    let families = complete_list(alloc, line)?;
    let members = small_characters(alloc, &order, &families)?;
    Ok(members)
}

// The sizes, and the characters.
fn parted<S: Scalar>(
    alloc: Global,
    members: Vec<SmallCharacter<S>>,
) -> Result<(Vec<u32>, Vec<Vec<S>>), Memory>
    ensures { IfOk result (λ v. (v.0.items ≡ map (λ c. c.dim) members.items)
        × (map (λ r. r.items) v.1.items ≡ map (λ c. c.row.items) members.items)) }
{
    let mut dims = Vec::new(alloc);
    let mut chars = Vec::new(alloc);
    for member in members {
        dims.push(member.dim)?;
        chars.push(member.row)?;
    }
    Ok((dims, chars))
}
