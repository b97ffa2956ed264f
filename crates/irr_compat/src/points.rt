// The rows of a table of compatibility relations.
ghost use Rattle.std.specs.Prelude.{ℕ, suc, ◌≡◌, ◌<◌, ◌≤◌, ◌++◌, [], ◌∷◌, IfOk, OnOk, length, map};
ghost use Rattle.std.specs.List.{All};
ghost use Rattle.irr_algebra.specs.Fin.{Fin, to_nat};
ghost use Rattle.irr_algebra.specs.Action.{HasDimension};
ghost use Rattle.irr_theory.specs.Representations.{Representations};
ghost use Rattle.irr_space.specs.PhaseTable.{phases_at};
ghost use Rattle.irr_rep.specs.Twisted.{phase_table};
ghost use Rattle.irr_seitz.specs.PhaseMeaning.{sign_of};
ghost use Rattle.irr_kvec.specs.Centrings.{IsWithinLimits};
ghost use Rattle.irr_close.specs.StandsFor.{stands_for};
ghost use Rattle.irr_compat.specs.Relations.{PointRelations};
ghost use Rattle.irr_compat.specs.Parts.{AreCharactersOn, gathered, parts_of};
ghost use Rattle.irr_compat.specs.Rows.{AreReadings, member_row, point_rows, row_view};
ghost use Rattle.irr_compat.specs.LineTables.{IsLineHere, here_operation, here_point};

use crate::line::line_parts;
use crate::reading::read_row;
use crate::table::PointRow;
use crate::turns::{Turn, turns};
use irr_close::Group;
use irr_cyc::{Lift, Order, Scalar};
use irr_kvec::Wave;
use irr_memory::Memory;
use irr_mult::{SmallCharacter, complete_list, little_table, small_characters};
use irr_rep::Twisted;
use std::alloc::Global;

/// The rows of the small representations at each of the points. The error is want of memory.
pub(crate) fn all_rows<S: Lift>(
    alloc: Global,
    group: &Group,
    points: &[Wave],
    line: &Twisted,
    members: &[SmallCharacter<S>],
) -> Result<Vec<PointRow>, Memory>
    requires line { IsLineHere S.order_of S.value group.now points.now line.now members.now }
    requires limits { All IsWithinLimits points.now }
    requires few { length points.now ≤ 3 }
    ensures { (e : IsLineHere S.order_of S.value group.now points.now line.now members.now) → IfOk result (λ rows.
        (R : (i : Fin (suc e.others)) → PointRelations (sign_of group.now.phase) (stands_for group.now) (here_point e)
        (here_operation e) (phase_table line.now) e.known.list i)
        × (map row_view rows.items ≡ gathered (suc e.others) (λ i. point_rows (R i)))) }
{
    let order = Order::new(alloc, line.order())?;
    let mut rows = Vec::new(alloc);
    for i in 0..points.len() {
        push_point(alloc, group, points, line, members, &order, i, &mut rows)?;
    }
    Ok(rows)
}

// Appends the rows of the small representations at a point.
fn push_point<S: Lift>(
    alloc: Global,
    group: &Group,
    points: &[Wave],
    line: &Twisted,
    members: &[SmallCharacter<S>],
    order: &Order,
    i: usize,
    rows: &mut Vec<PointRow>,
) -> Result<(), Memory>
    requires line { IsLineHere S.order_of S.value group.now points.now line.now members.now }
    requires limits { All IsWithinLimits points.now }
    requires few { length points.now ≤ 3 }
    requires order { order.now.n ≡ (phase_table line.now).order }
    requires place { i < length points.now }
    ensures { (e : IsLineHere S.order_of S.value group.now points.now line.now members.now) (p : Fin (suc e.others))
        → to_nat p ≡ i → OnOk result ((R : PointRelations (sign_of group.now.phase) (stands_for group.now)
        (here_point e) (here_operation e) (phase_table line.now) e.known.list p)
        × (map row_view rows.new.items ≡ map row_view rows.old.items ++ point_rows R)) }
{
    let point = &points[i];
    let table = little_table(alloc, group, point)?;
    let families = complete_list(alloc, &table)?;
    let characters = small_characters(alloc, order, &families)?;
    let turns = turns(alloc, group, line, &points[0], &table, point)?;
    push_rows(
        alloc,
        line,
        members,
        order,
        &turns,
        &characters,
        i as u32,
        rows,
    )?;
    Ok(())
}

// Appends the rows of the small representations with these characters, which are read by these turns.
fn push_rows<S: Scalar>(
    alloc: Global,
    line: &Twisted,
    members: &[SmallCharacter<S>],
    order: &Order,
    turns: &[Turn],
    characters: &[SmallCharacter<S>],
    point: u32,
    rows: &mut Vec<PointRow>,
) -> Result<(), Memory>
    requires order { order.now.n ≡ (phase_table line.now).order }
    requires members { let T = phase_table line.now in (L : Representations (phases_at T))
        × AreCharactersOn S.order_of S.value T L members.now }
    requires readings { AreReadings S.order_of S.value (phase_table line.now) turns.now characters.now }
    ensures { let T = phase_table line.now in (L : Representations (phases_at T))
        → AreCharactersOn S.order_of S.value T L members.now
        → (e : AreReadings S.order_of S.value T turns.now characters.now) (q : Fin e.members.count → Fin L.count → ℕ)
        → ((m : Fin e.members.count) (j : Fin L.count) → HasDimension (L.member j).at (e.reading m).at (q m j))
        → OnOk result (map row_view rows.new.items ≡ map row_view rows.old.items ++ gathered e.members.count (λ m.
        member_row point (to_nat m) (e.members.size m) (parts_of (q m) L.size) ∷ [])) }
{
    for m in 0..characters.len() {
        let character = &characters[m];
        let row = read_row(alloc, order, turns, character.row.as_slice())?;
        let parts = line_parts(alloc, line, members, row.as_slice())?;
        let row = PointRow {
            point,
            label: m as u32 + 1,
            dim: character.dim,
            parts,
        };
        rows.push(row)?;
    }
    Ok(())
}
