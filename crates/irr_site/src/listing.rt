// The parts of the families of a site.
ghost use Rattle.std.specs.Prelude.{ℕ, ◌≡◌, ◌<◌, List, ◌++◌, [], ◌∷◌, IfOk};
ghost use Rattle.irr_space.specs.Operation.{Vector, WaveVector};
ghost use Rattle.irr_close.specs.declared.group.Group.{Group};
ghost use Rattle.irr_mult.specs.declared.star.SmallCharacter.{SmallCharacter};
ghost use Rattle.irr_rep.specs.Twisted.{phase_table};
ghost use Rattle.irr_site.specs.Families.{AreFamilyParts, Frame, HasRows, IsFamilyRow};
ghost use Rattle.irr_site.specs.FamilyParts.{AreInducedParts, IsDisplacedPart};

use crate::part::{SiteParts, SmallPart};
use crate::rest::Rest;
use crate::traces::{displacement_traces, traces};
use irr_close::Group;
use irr_cyc::{Order, Scalar};
use irr_memory::Memory;
use irr_mult::{SmallCharacter, multiplicity};
use irr_rep::Twisted;
use std::alloc::Global;

// A part at the end of a list, if it stands there.
fn push_part(part: SmallPart, parts: &mut Vec<SmallPart>) -> Result<(), Memory>
    ensures absent { part.mult ≡ 0 → IfOk result (λ _. parts.new.items ≡ parts.old.items) }
    ensures present { 0 < part.mult → IfOk result (λ _. parts.new.items ≡ parts.old.items ++ part ∷ []) }
{
    if part.mult != 0 {
        parts.push(part)?;
    }
    Ok(())
}

// The small representations that stand in the family with these traces, by label. The error is want of memory.
fn parts_of<S: Scalar>(
    alloc: Global,
    t: &Twisted,
    small: &[SmallCharacter<S>],
    traces: &[S],
) -> Result<Vec<SmallPart>, Memory>
    requires { (M : ℕ) × (has : HasRows S.order_of S.value M (phase_table t.now) small.now)
        × IsFamilyRow S.order_of S.value (phase_table t.now) M has.divides traces.now }
    ensures { IfOk result (λ parts. AreFamilyParts S.order_of S.value (phase_table t.now) small.now traces.now
        parts.items) }
{
    let mut parts = Vec::new(alloc);
    for i in 0..small.len() {
        let character = &small[i];
        let mult = multiplicity(alloc, t, traces, character.row.as_slice())?;
        let part = SmallPart {
            label: i as u32 + 1,
            mult,
            dim: character.dim,
        };
        push_part(part, &mut parts)?;
    }
    Ok(parts)
}

/// The parts of the families that the representations of a site group induce, from what is left of the operations of a
/// little group at the sites. The error is want of memory.
pub(crate) fn induced_parts<S: Scalar>(
    alloc: Global,
    order: &Order,
    t: &Twisted,
    small: &[SmallCharacter<S>],
    rows: &[Vec<Option<Rest>>],
    characters: &[SmallCharacter<S>],
    sites: u32,
) -> Result<Vec<SiteParts>, Memory>
    requires admitted { S.admits order.now.n }
    requires frame { (group : Group) × (x : Vector) × (k : WaveVector) × Frame S.order_of S.value group x k
        order.now.n t.now small.now rows.now characters.now sites }
    ensures { (group : Group) (x : Vector) (k : WaveVector) (f : Frame S.order_of S.value group x k order.now.n t.now
        small.now rows.now characters.now sites) → IfOk result (λ ps. AreInducedParts f ps.items) }
{
    let mut induced = Vec::new(alloc);
    for i in 0..characters.len() {
        let character = &characters[i];
        let traces = traces(alloc, order, rows, character.row.as_slice())?;
        let parts = parts_of(alloc, t, small, traces.as_slice())?;
        let label = i as u32 + 1;
        let dim = sites * character.dim;
        induced.push(SiteParts { label, dim, parts })?;
    }
    Ok(induced)
}

/// The parts of the family of displacements. The error is want of memory.
pub(crate) fn displaced_parts<S: Scalar>(
    alloc: Global,
    order: &Order,
    group: &Group,
    t: &Twisted,
    small: &[SmallCharacter<S>],
    rows: &[Vec<Option<Rest>>],
    places: usize,
    sites: u32,
) -> Result<SiteParts, Memory>
    requires admitted { S.admits order.now.n }
    requires frame { (x : Vector) × (k : WaveVector) × (cs : List (SmallCharacter S)) × (f : Frame S.order_of S.value
        group.now x k order.now.n t.now small.now rows.now cs sites) × (f.orbit.places ≡ places) }
    ensures { (x : Vector) (k : WaveVector) (cs : List (SmallCharacter S)) (f : Frame S.order_of S.value group.now x k
        order.now.n t.now small.now rows.now cs sites) → f.orbit.places ≡ places → IfOk result (IsDisplacedPart f) }
{
    let traces = displacement_traces(alloc, order, group, t, rows, places)?;
    let parts = parts_of(alloc, t, small, traces.as_slice())?;
    let dim = sites * 3;
    Ok(SiteParts {
        label: 0,
        dim,
        parts,
    })
}
