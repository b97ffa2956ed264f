// Sets of places as marks, one for each place.
ghost use Rattle.std.specs.Prelude.{ℕ, ◌≡◌, ◌<◌, ◌≤◌, ◌↔◌, not, true, false, length, slice_set, slice_index, slice_index_or, EachIndex, Contains, MatchOption, IfOk};
ghost use Rattle.irr_rep.specs.declared.table.TheConstants.{PLACES_LIMIT};
ghost use Rattle.irr_chain.specs.Marks.{IsMarked};
ghost use Rattle.irr_chain.specs.Series.{IsIncreasing};

use irr_memory::Memory;
use std::alloc::Global;

// Marks the place k; whether it is new.
pub(crate) fn mark(marks: &mut [bool], k: u32) -> bool
    requires { k < length marks.old }
    ensures marked { marks.new ≡ slice_set marks.old k true }
    ensures new { result ≡ not (slice_index_or marks.old k false) }
{
    let is_new = !marks[k as usize];
    marks[k as usize] = true;
    is_new
}

// The first member that is not marked.
pub(crate) fn first_outside(members: &[u32], marks: &[bool]) -> Option<u32>
    requires { EachIndex members.now (λ a. slice_index members.now a < length marks.now) }
    ensures { MatchOption result
        ((k : ℕ) → Contains members.now k → IsMarked marks.now k)
        (λ g. Contains members.now g × (IsMarked marks.now g → ⊥)) }
{
    for &i in members {
        if !marks[i as usize] {
            return Some(i);
        }
    }
    None
}

// The marked places in increasing order.
pub(crate) fn listed(alloc: Global, marks: &[bool]) -> Result<Vec<u32>, Memory>
    requires { length marks.now ≤ PLACES_LIMIT }
    ensures increasing { IfOk result (λ v. IsIncreasing v.items) }
    ensures members { IfOk result (λ v. (k : ℕ) → Contains v.items k ↔ IsMarked marks.now k) }
{
    let mut members = Vec::new(alloc);
    for (i, marked) in marks.iter().enumerate() {
        if *marked {
            members.push(i as u32)?;
        }
    }
    Ok(members)
}
