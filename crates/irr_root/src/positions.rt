// Where places stand in the list of the members of a subgroup.
ghost use Rattle.std.specs.Prelude.{ℕ, ◌≡◌, ◌<◌, ◌≤◌, length, slice_index, All, IfOk};
ghost use Rattle.irr_rep.specs.Twisted.{place_count};
ghost use Rattle.irr_root.specs.Positions.{ArePositionsIn, IsDistinct};

use irr_memory::Memory;
use irr_rep::Twisted;
use std::alloc::Global;

// The position of a place in a list, 0 where it is not there.
fn position_in(members: &[u32], place: u32) -> u32
    requires distinct { IsDistinct members.now }
    requires not_empty { 0 < length members.now }
    requires few { length members.now ≤ 48 }
    ensures within { result < length members.now }
    ensures position { (k : ℕ) → k < length members.now → slice_index members.now k ≡ place → result ≡ k }
{
    for k in 0..members.len() {
        if members[k] == place {
            return k as u32;
        }
    }
    0
}

/// For each place of t its position in a list of places, each of them once; 0 where it is not there.
pub(crate) fn positions_of(alloc: Global, t: &Twisted, members: &[u32]) -> Result<Vec<u32>, Memory>
    requires distinct { IsDistinct members.now }
    requires not_empty { 0 < length members.now }
    requires few { length members.now ≤ 48 }
    ensures positions { IfOk result (λ v. ArePositionsIn members.now (place_count t.now) v.items) }
{
    let mut positions = Vec::new(alloc);
    for place in 0..t.len() {
        let position = position_in(members, place);
        positions.push(position)?;
    }
    Ok(positions)
}
