// The characters of the representations of a table without phases.
ghost use Rattle.std.specs.Prelude.{ℕ, ◌≡◌, ◌≤◌, IfOk, length, slice_index_or};
ghost use Rattle.std.specs.Int.{◌∣◌};
ghost use Rattle.irr_algebra.specs.Fin.{Fin, to_nat};
ghost use Rattle.irr_theory.specs.FactorSystem.{Representation};
ghost use Rattle.irr_theory.specs.Representations.{Representations};
ghost use Rattle.irr_space.specs.PhaseTable.{PhaseTable, phases_at};
ghost use Rattle.irr_rep.specs.Twisted.{phase_table};
ghost use Rattle.irr_chain.specs.NormalSubgroup.{HasSteps};
ghost use Rattle.irr_climb.specs.Families.{AreRead, IsRead};
ghost use Rattle.irr_climb.specs.Lists.{IsSmallList};
ghost use Rattle.irr_climb.specs.Sizes.{IsSized};
ghost use Rattle.irr_mult.specs.declared.star.SmallCharacter.{SmallCharacter};
ghost use Rattle.irr_mult.specs.StarParts.{IsCharacterOf};
ghost use Rattle.irr_site.specs.Families.{HasRows};

use irr_char::character;
use irr_climb::{ClimbError, small_reps};
use irr_cyc::{Lift, Order};
use irr_memory::Memory;
use irr_mult::SmallCharacter;
use irr_rep::{Family, Twisted};
use std::alloc::Global;

// A complete list of the small representations of a table with steps. The error is want of memory.
fn complete_list<S: Lift>(alloc: Global, t: &Twisted) -> Result<Vec<Family<S>>, Memory>
    requires steps { HasSteps (phase_table t.now) }
    requires within { (phase_table t.now).order ≤ 12000 }
    ensures { IfOk result (λ fs. IsSmallList (phase_table t.now) fs.items) }
{
    match small_reps(alloc, t) {
        Ok(families) => Ok(families),
        Err(ClimbError::Unchained(_)) => unreachable!(),
        Err(ClimbError::Memory) => Err(Memory),
    }
}

// The number of rows and the character of a small representation of a table of at most 48 places, whose order is that of
// the numbers. The error is want of memory.
fn small_character<S: Lift>(alloc: Global, f: &Family<S>) -> Result<SmallCharacter<S>, Memory>
    requires { (h : ℕ) × (T : PhaseTable h) × (h ≤ 48) × (d : ℕ) × (D : Representation (phases_at T) d) × (d ≤ 48)
        × IsRead T.order (phases_at T) D f.now × IsSized T.order h f.now }
    ensures { (h : ℕ) (T : PhaseTable h) (v : T.order ∣ T.order) (d : ℕ) (D : Representation (phases_at T) d)
        → IsRead T.order (phases_at T) D f.now
        → IfOk result (IsCharacterOf S.order_of S.value T T.order v D) }
{
    let row = character(alloc, f)?;
    Ok(SmallCharacter { dim: f.dim, row })
}

// The characters of a complete list. The error is want of memory.
fn small_characters<S: Lift>(
    alloc: Global,
    families: &[Family<S>],
) -> Result<Vec<SmallCharacter<S>>, Memory>
    requires { (h : ℕ) × (T : PhaseTable h) × (h ≤ 48) × IsSmallList T families.now }
    ensures count { IfOk result (λ cs. length cs.items ≡ length families.now) }
    ensures characters { (h : ℕ) (T : PhaseTable h) (v : T.order ∣ T.order) (L : Representations (phases_at T))
        → AreRead T.order (phases_at T) L families.now
        → IfOk result (λ cs. (m : Fin L.count) (e : SmallCharacter S)
        → IsCharacterOf S.order_of S.value T T.order v (L.member m) (slice_index_or cs.items (to_nat m) e)) }
{
    let mut characters = Vec::new(alloc);
    for family in families {
        let character = small_character(alloc, family)?;
        characters.push(character)?;
    }
    Ok(characters)
}

/// The characters of the representations of a table with steps, in canonical order. The error is want of memory.
pub(crate) fn table_characters<S: Lift>(
    alloc: Global,
    order: &Order,
    t: &Twisted,
) -> Result<Vec<SmallCharacter<S>>, Memory>
    requires steps { HasSteps (phase_table t.now) }
    requires order { (phase_table t.now).order ≡ order.now.n }
    ensures { IfOk result (λ cs. HasRows S.order_of S.value order.now.n (phase_table t.now) cs.items) }
{
    let families = complete_list(alloc, t)?;
    let characters = small_characters(alloc, families.as_slice())?;
    Ok(characters)
}
