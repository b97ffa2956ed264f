// From a full list on the members of a level to a full list on what the level generates, and up all levels.
ghost use Rattle.std.specs.Prelude.{ℕ, ◌≡◌, ◌<◌, ◌+◌, ◌⊎◌, ◌↔◌, ◌∷◌, [], List, map, length, slice_index, IfOk, IsTrue};
ghost use Rattle.irr_algebra.specs.Fin.{Fin, to_nat};
ghost use Rattle.irr_theory.specs.Representations.{IsFull, Representations};
ghost use Rattle.irr_ascent.specs.Over.{IsLeastOfOrbit};
ghost use Rattle.irr_rep.specs.Twisted.{phase_table, place_count};
ghost use Rattle.irr_chain.specs.Series.{IsLevel, IsSeries};
ghost use Rattle.irr_climb.specs.Climbed.{IsClimbed, IsWhole};
ghost use Rattle.irr_climb.specs.Families.{AreRead};
ghost use Rattle.irr_climb.specs.Lists.{IsFullOn};
ghost use Rattle.irr_climb.specs.Sizes.{AreSized};
ghost use Rattle.irr_climb.specs.Steps.{AreFamiliesOver, AreTurns, IsStep, small};

use crate::families::{characters, unit_families};
use crate::step::Step;
use irr_chain::Level;
use irr_cyc::{Order, Scalar};
use irr_memory::Memory;
use irr_rep::{Family, Twisted};
use std::alloc::{AllocError, Global};

// Whether a place is less than the others of its orbit under the turns.
fn is_least(turns: &[u32], index: u32, l: u32) -> bool
    requires inside { l < length turns.now }
    requires turns { (k : ℕ) → k < length turns.now → slice_index turns.now k < length turns.now }
    requires two_or_three { (index ≡ 2) ⊎ (index ≡ 3) }
    ensures { (n : ℕ) (turn : Fin n → Fin n) → n ≡ length turns.now → ((k : Fin n) → slice_index turns.now (to_nat k) ≡ to_nat (turn k))
        → (k : Fin n) → to_nat k ≡ l → IsTrue result ↔ IsLeastOfOrbit turn index k }
{
    let next = turns[l as usize];
    if next <= l {
        return false;
    }
    if index == 2 {
        return true;
    }
    if turns[next as usize] <= l {
        return false;
    }
    true
}

impl Step {
    // The families over the member l of a full list: its extensions, or the induced family, or none.
    fn families_over<S: Scalar>(
        &self,
        alloc: Global,
        families: &[Family<S>],
        turns: &[u32],
        l: u32,
    ) -> Result<Vec<Family<S>>, Memory>
        requires list { (M : ℕ) × (step : IsStep M self.now) × (L : Representations (small step)) × IsFull L × AreRead M (small step) L families.now × AreTurns step L turns.now
            × AreSized M (place_count self.now.inner) families.now }
        requires place { l < length families.now }
        ensures over { (M : ℕ) (step : IsStep M self.now) (L : Representations (small step)) → IsFull L → AreRead M (small step) L families.now
            → (turns : AreTurns step L turns.now) → AreSized M (place_count self.now.inner) families.now → (k : Fin L.count) → to_nat k ≡ l
            → IfOk result (λ fs. AreFamiliesOver step L turns.turn k fs.items) }
        ensures sizes { (M : ℕ) (step : IsStep M self.now) (L : Representations (small step)) → IsFull L → AreRead M (small step) L families.now
            → AreTurns step L turns.now → AreSized M (place_count self.now.inner) families.now
            → IfOk result (λ fs. AreSized M (place_count self.now.outer) fs.items) }
    {
        let family = &families[l as usize];
        if turns[l as usize] == l {
            let extended = self.extensions(alloc, family)?;
            return Ok(extended);
        }
        if !is_least(turns, self.index, l) {
            return Ok(Vec::new(alloc));
        }
        let induced = self.induced(alloc, family)?;
        let mut over = Vec::new(alloc);
        over.push(induced)?;
        Ok(over)
    }
}

/// One level: a full list on what the level generates. The error is want of memory.
pub(crate) fn climb<S: Scalar>(
    alloc: Global,
    t: &Twisted,
    level: &Level,
    outer: &[u32],
    families: &[Family<S>],
) -> Result<Vec<Family<S>>, Memory>
    requires level { IsLevel (phase_table t.now) level.now outer.now }
    requires list { IsFullOn (phase_table t.now) (phase_table t.now).order level.now.members.items families.now }
    ensures { IfOk result (λ fs. IsFullOn (phase_table t.now) (phase_table t.now).order outer.now fs.items) }
{
    let step = Step::new(alloc, t, level, outer)?;
    let rows = characters(alloc, families)?;
    let turns = step.turns(alloc, rows.as_slice())?;
    let mut climbed = Vec::new(alloc);
    for l in 0..families.len() as u32 {
        let mut over = step.families_over(alloc, families, turns.as_slice(), l)?;
        climbed.append(&mut over)?;
    }
    Ok(climbed)
}

// One level of a series: a full list on the members of the next level, or on the whole table after the last one.
fn climb_level<S: Scalar>(
    alloc: Global,
    t: &Twisted,
    levels: &[Level],
    whole: &[u32],
    k: usize,
    families: &[Family<S>],
) -> Result<Vec<Family<S>>, Memory>
    requires inside { k < length levels.now }
    requires whole { IsWhole (place_count t.now) whole.now }
    requires climbed { IsClimbed (phase_table t.now) levels.now k families.now }
    ensures { IfOk result (λ fs. IsClimbed (phase_table t.now) levels.now (k + 1) fs.items) }
{
    let level = &levels[k];
    if k + 1 == levels.len() {
        let last = climb(alloc, t, level, whole, families)?;
        return Ok(last);
    }
    let next = &levels[k + 1];
    let climbed = climb(alloc, t, level, next.members.as_slice(), families)?;
    Ok(climbed)
}

// All places, in their order.
fn all_places(alloc: Global, count: u32) -> Result<Vec<u32>, AllocError>
    ensures { IfOk result (λ places. IsWhole count places.items) }
{
    (0..count).collect(alloc)
}

/// All levels: a full list on the whole table. The error is want of memory.
pub(crate) fn full_list<S: Scalar>(
    alloc: Global,
    t: &Twisted,
    levels: &[Level],
) -> Result<Vec<Family<S>>, Memory>
    requires admitted { S.admits (phase_table t.now).order }
    requires series { IsSeries (phase_table t.now) (0 ∷ []) levels.now }
    ensures { IfOk result (λ fs. (members : List ℕ) → length members ≡ place_count t.now
        → ((a : ℕ) → a < place_count t.now → slice_index members a ≡ a) → IsFullOn (phase_table t.now) (phase_table t.now).order members fs.items) }
{
    let order = Order::new(alloc, t.order())?;
    let whole = all_places(alloc, t.len())?;
    let mut families = unit_families(alloc, &order)?;
    for k in 0..levels.len() {
        families = climb_level(alloc, t, levels, whole.as_slice(), k, families.as_slice())?;
    }
    Ok(families)
}
