// The small representations of a line group, and those that stand in a representation.
ghost use Rattle.std.specs.Prelude.{ℕ, ◌≡◌, ◌≤◌, ◌++◌, List, IfOk, OnOk, map};
ghost use Rattle.irr_algebra.specs.Fin.{Fin};
ghost use Rattle.irr_algebra.specs.Matrix.{trace};
ghost use Rattle.irr_algebra.specs.Action.{HasDimension};
ghost use Rattle.irr_theory.specs.FactorSystem.{Representation};
ghost use Rattle.irr_theory.specs.Representations.{Representations};
ghost use Rattle.irr_space.specs.PhaseTable.{phases_at};
ghost use Rattle.irr_rep.specs.Twisted.{phase_table};
ghost use Rattle.irr_char.specs.Characters.{IsRowOf};
ghost use Rattle.irr_compat.specs.Parts.{AreCharactersOn, part_of, parts_of};

use crate::table::LinePart;
use irr_cyc::Scalar;
use irr_memory::Memory;
use irr_mult::{SmallCharacter, multiplicity};
use irr_rep::Twisted;
use std::alloc::Global;

/// The small representations of a line group, by their characters, that stand in one with the character `row`: those
/// with a multiplicity that is not 0, by label. The error is want of memory.
pub(crate) fn line_parts<S: Scalar>(
    alloc: Global,
    line: &Twisted,
    members: &[SmallCharacter<S>],
    row: &[S],
) -> Result<Vec<LinePart>, Memory>
    requires { let T = phase_table line.now in (L : Representations (phases_at T))
        × AreCharactersOn S.order_of S.value T L members.now × (d : ℕ) × (A : Representation (phases_at T) d) × (d ≤ 48)
        × IsRowOf S.order_of S.value T.order (λ a. trace (A.at a)) row.now }
    ensures { let T = phase_table line.now in (L : Representations (phases_at T))
        → AreCharactersOn S.order_of S.value T L members.now → (d : ℕ) (A : Representation (phases_at T) d) → (d ≤ 48)
        → IsRowOf S.order_of S.value T.order (λ a. trace (A.at a)) row.now
        → (q : Fin L.count → ℕ) → ((j : Fin L.count) → HasDimension (L.member j).at A.at (q j))
        → IfOk result (λ parts. parts.items ≡ parts_of q L.size) }
{
    let mut parts = Vec::new(alloc);
    for j in 0..members.len() {
        let member = &members[j];
        let mult = multiplicity(alloc, line, row, member.row.as_slice())?;
        push_part(&mut parts, j as u32, mult, member.dim)?;
    }
    Ok(parts)
}

// A part at the end of a list, where it stands there.
fn push_part(parts: &mut Vec<LinePart>, place: u32, mult: u32, dim: u32) -> Result<(), Memory>
    requires { place ≤ 48 }
    ensures { OnOk result (parts.new.items ≡ parts.old.items ++ part_of place mult dim) }
{
    if mult == 0 {
        return Ok(());
    }
    let label = place + 1;
    parts.push(LinePart { label, mult, dim })?;
    Ok(())
}
