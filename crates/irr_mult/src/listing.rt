// The parts of a representation, star by star.
ghost use Rattle.std.specs.Prelude.{ℕ, ◌≡◌, ◌<◌, ◌++◌, List, [], ◌∷◌, IfOk, map};
ghost use Rattle.irr_seitz.specs.PhaseMeaning.{sign_of};
ghost use Rattle.irr_close.specs.StandsFor.{stands_for};
ghost use Rattle.irr_full.specs.Parts.{ArePartsOf};
ghost use Rattle.irr_mult.specs.Listing.{item};
ghost use Rattle.irr_mult.specs.StarParts.{ArePushed, HasCharacters, IsPartRow, part_of};
ghost use Rattle.irr_mult.specs.Traced.{AreTraced, SpaceRepresentation};

use crate::dimension::multiplicity;
use crate::part::Part;
use crate::star::StarCharacters;
use irr_cyc::Scalar;
use irr_memory::Memory;
use std::alloc::Global;

// A part at the end of a list, if it stands there.
fn push_part(part: Part, parts: &mut Vec<Part>) -> Result<(), Memory>
    ensures absent { part.mult ≡ 0 → IfOk result (λ _. parts.new.items ≡ parts.old.items) }
    ensures present { 0 < part.mult → IfOk result (λ _. parts.new.items ≡ parts.old.items ++ part ∷ []) }
{
    if part.mult != 0 {
        parts.push(part)?;
    }
    Ok(())
}

/// Puts the parts of a representation on one star at the end of a list: each full representation there that stands in
/// it, by label, from the traces of the little group's operations on the part of the representation at the star's
/// representative. The error is want of memory.
pub fn push_parts<S: Scalar>(
    alloc: Global,
    star: &StarCharacters<S>,
    traces: &[S],
    parts: &mut Vec<Part>,
) -> Result<(), Memory>
    requires { (M : ℕ) × (h : HasCharacters S.order_of S.value M star.now) × IsPartRow h traces.now }
    ensures { IfOk result (λ _. ArePushed S.order_of S.value star.now traces.now parts.old.items parts.new.items) }
{
    for i in 0..star.characters.len() {
        let character = &star.characters[i];
        let mult = multiplicity(alloc, &star.table, traces, character.row.as_slice())?;
        let part = Part {
            wave: star.wave,
            label: i as u32 + 1,
            mult,
            dim: star.arms * character.dim,
        };
        push_part(part, parts)?;
    }
    Ok(())
}

/// The parts of a representation of a space group, by wave vector and label: how often each full representation stands
/// in it. It is given by its stars, by wave vector, and for each of them the traces of the little group's operations on
/// its part at the representative. The error is want of memory.
pub fn all_parts<S: Scalar>(
    alloc: Global,
    stars: &[StarCharacters<S>],
    traces: &[Vec<S>],
) -> Result<Vec<Part>, Memory>
    requires { (A : SpaceRepresentation) × AreTraced S.order_of S.value A stars.now traces.now }
    ensures { (A : SpaceRepresentation) → AreTraced S.order_of S.value A stars.now traces.now
        → IfOk result (λ parts.
        ArePartsOf (sign_of A.group.phase) (stands_for A.group) A.positive A.at (item (map part_of parts.items))) }
{
    let mut parts = Vec::new(alloc);
    for i in 0..stars.len() {
        push_parts(alloc, &stars[i], traces[i].as_slice(), &mut parts)?;
    }
    Ok(parts)
}
