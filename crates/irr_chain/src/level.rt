// The search for a normal subgroup of index 2 or 3.
ghost use Rattle.std.specs.Prelude.{ℕ, ◌≡◌, ◌<◌, ◌⊎◌, length, vec_len, Contains, MatchOption, IfOk};
ghost use Rattle.irr_rep.specs.Twisted.{phase_table, place_count};
ghost use Rattle.irr_rep.specs.Subgroup.{IsSubgroup};
ghost use Rattle.irr_chain.specs.NormalSubgroup.{In, HasNormal};
ghost use Rattle.irr_chain.specs.Marks.{IsMarked, Marked};
ghost use Rattle.irr_chain.specs.Quotient.{HasQuotient};
ghost use Rattle.irr_chain.specs.Series.{IsLevel};

use crate::closure::close;
use crate::marks::{first_outside, listed};
use crate::quotient::{covered, powers_and_commutators};
use crate::series::Level;
use irr_memory::Memory;
use irr_rep::Twisted;
use std::alloc::Global;

// A level below the subgroup of the members; none where it has no normal subgroup of index 2 or 3.
pub(crate) fn level_below(
    alloc: Global,
    t: &Twisted,
    members: &[u32],
) -> Result<Option<Level>, Memory>
    requires { IsSubgroup (phase_table t.now) members.now }
    ensures { IfOk result (λ found. MatchOption found
        ((HasNormal (phase_table t.now) members.now 2 → ⊥) × (HasNormal (phase_table t.now) members.now 3 → ⊥))
        (λ level. IsLevel (phase_table t.now) level members.now)) }
{
    match level_of_index(alloc, t, members, 2)? {
        Some(level) => Ok(Some(level)),
        None => level_of_index(alloc, t, members, 3),
    }
}

// The same for one index: a normal subgroup of index p is one that has the p-th powers and the
// commutators, and is largest.
fn level_of_index(
    alloc: Global,
    t: &Twisted,
    members: &[u32],
    p: u32,
) -> Result<Option<Level>, Memory>
    requires subgroup { IsSubgroup (phase_table t.now) members.now }
    requires two_or_three { (p ≡ 2) ⊎ (p ≡ 3) }
    ensures { IfOk result (λ found. MatchOption found
        (HasNormal (phase_table t.now) members.now p → ⊥)
        (λ level. IsLevel (phase_table t.now) level members.now)) }
{
    let mut inner = powers_and_commutators(alloc, t, members, p)?;
    close(t, &mut inner);
    match first_outside(members, &inner) {
        Some(g) => Ok(Some(widest(alloc, t, members, inner, p, g)?)),
        None => Ok(None),
    }
}

// The level of a largest subgroup with the marked places.
fn widest(
    alloc: Global,
    t: &Twisted,
    members: &[u32],
    mut inner: Vec<bool>,
    p: u32,
    mut g: u32,
) -> Result<Level, Memory>
    requires subgroup { IsSubgroup (phase_table t.now) members.now }
    requires two_or_three { (p ≡ 2) ⊎ (p ≡ 3) }
    requires count { vec_len inner ≡ place_count t.now }
    requires quotient { HasQuotient (phase_table t.now) (Marked inner.items) (In members.now) p }
    requires member { Contains members.now g }
    requires outside { IsMarked inner.items g → ⊥ }
    ensures { IfOk result (λ level. IsLevel (phase_table t.now) level members.now) }
{
    loop {
        let wider = covered(alloc, t, &inner, g, p)?;
        match first_outside(members, &wider) {
            Some(next) => {
                inner = wider;
                g = next;
            }
            None => {
                let members = listed(alloc, &inner)?;
                return Ok(Level { members, p, g });
            }
        }
    }
}
