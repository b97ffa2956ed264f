// The characters of the small representations on a star.
ghost use Rattle.std.specs.Prelude.{ℕ, ◌≡◌, ◌≤◌, List, IfOk, length, map, slice_index_or};
ghost use Rattle.std.specs.Int.{◌∣◌};
ghost use Rattle.std.specs.List.{All};
ghost use Rattle.irr_algebra.specs.Fin.{Fin, to_nat};
ghost use Rattle.irr_theory.specs.Representations.{Representations};
ghost use Rattle.irr_space.specs.PhaseTable.{PhaseTable, phases_at};
ghost use Rattle.irr_space.specs.Reciprocal.{IsOrder};
ghost use Rattle.irr_rep.specs.Twisted.{operation_places, phase_table};
ghost use Rattle.irr_kvec.specs.Centrings.{IsWithinLimits};
ghost use Rattle.irr_kvec.specs.WaveMeaning.{wave_vector};
ghost use Rattle.irr_close.specs.StandsFor.{stands_for};
ghost use Rattle.irr_little.specs.Arms.{AreArms};
ghost use Rattle.irr_little.specs.Table.{IsLittleTable};
ghost use Rattle.irr_climb.specs.Families.{AreRead};
ghost use Rattle.irr_climb.specs.Lists.{IsSmallList};
ghost use Rattle.irr_chain.specs.NormalSubgroup.{HasSteps};
ghost use Rattle.irr_little.specs.declared.arms.Arm.{Arm};
ghost use Rattle.irr_mult.specs.declared.star.SmallCharacter.{SmallCharacter};
ghost use Rattle.irr_mult.specs.declared.star.StarCharacters.{StarCharacters};
ghost use Rattle.irr_mult.specs.StarParts.{IsCharacterOf};
ghost use Rattle.irr_mult.specs.StarSearch.{HasOrder};
ghost use Rattle.irr_mult.specs.Traced.{AreStarCharacters};

use crate::lifting::small_character;
use crate::star::{SmallCharacter, StarCharacters};
use irr_climb::{ClimbError, small_reps};
use irr_close::Group;
use irr_cyc::{Lift, Order};
use irr_kvec::Wave;
use irr_little::{Arm, LittleError, little, star};
use irr_memory::Memory;
use irr_rep::{Family, Twisted};
use std::alloc::Global;

/// The table of the little group of a wave vector whose order is within the limit. The error is want of memory.
pub fn little_table(alloc: Global, group: &Group, wave: &Wave) -> Result<Twisted, Memory>
    requires limits { IsWithinLimits wave.now }
    requires order { (n : ℕ) × IsOrder (stands_for group.now) (wave_vector wave.now) n × (n ≤ 12000) }
    ensures { IfOk result (λ t. IsLittleTable group.now (wave_vector wave.now) (operation_places t) (phase_table t)) }
{
    match little(alloc, group, wave) {
        Ok(t) => Ok(t),
        Err(LittleError::OrderTooLarge(_)) => unreachable!(),
        Err(LittleError::Memory) => Err(Memory),
    }
}

// The number of arms of the star of a wave vector. The error is want of memory.
fn arm_count(alloc: Global, group: &Group, wave: &Wave) -> Result<u32, Memory>
    requires limits { IsWithinLimits wave.now }
    ensures arms { IfOk result (λ n.
        (arms : List Arm) × (length arms ≡ n) × AreArms group.now (wave_vector wave.now) arms) }
    ensures few { IfOk result (λ n. n ≤ 48) }
{
    let arms = star(alloc, group, wave)?;
    let count = few_arms(group, arms.arms.as_slice(), wave);
    Ok(count)
}

// The length of a list of arms.
fn few_arms(group: &Group, arms: &[Arm], wave: &Wave) -> u32
    requires { AreArms group.now (wave_vector wave.now) arms.now }
    ensures few { result ≤ 48 }
    ensures count { length arms.now ≡ result }
{
    arms.len() as u32
}

/// A complete list of the small representations of a table with steps, in canonical order. The error is want of memory.
pub fn complete_list<S: Lift>(alloc: Global, t: &Twisted) -> Result<Vec<Family<S>>, Memory>
    requires steps { HasSteps (phase_table t.now) }
    requires within { (phase_table t.now).order ≤ 12000 }
    ensures { IfOk result (λ fs. IsSmallList (phase_table t.now) fs.items) }
{
    match small_reps(alloc, t) {
        Ok(families) => Ok(families),
        Err(ClimbError::Unchained(_)) => unreachable!(),
        Err(ClimbError::Memory) => Err(Memory),
    }
}

/// The characters of a complete list, over the numbers of a multiple of its order. The error is want of memory.
pub fn small_characters<S: Lift>(
    alloc: Global,
    order: &Order,
    families: &[Family<S>],
) -> Result<Vec<SmallCharacter<S>>, Memory>
    requires { (h : ℕ) × (T : PhaseTable h) × (h ≤ 48) × (T.order ∣ order.now.n) × IsSmallList T families.now }
    ensures count { IfOk result (λ cs. length cs.items ≡ length families.now) }
    ensures characters { (h : ℕ) (T : PhaseTable h) (v : T.order ∣ order.now.n) (L : Representations (phases_at T))
        → AreRead T.order (phases_at T) L families.now
        → IfOk result (λ cs. (m : Fin L.count) (e : SmallCharacter S)
        → IsCharacterOf S.order_of S.value T order.now.n v (L.member m) (slice_index_or cs.items (to_nat m) e)) }
{
    let mut characters = Vec::new(alloc);
    for family in families {
        let character = small_character(alloc, order, family)?;
        characters.push(character)?;
    }
    Ok(characters)
}

/// The characters of the small representations at a wave vector, by the little group's table, in canonical order and
/// over the numbers of an order that the order of the wave vector divides. The error is want of memory.
pub fn star_characters<S: Lift>(
    alloc: Global,
    group: &Group,
    wave: &Wave,
    order: &Order,
) -> Result<StarCharacters<S>, Memory>
    requires limits { IsWithinLimits wave.now }
    requires order { (n : ℕ) × IsOrder (stands_for group.now) (wave_vector wave.now) n × (n ∣ order.now.n) }
    ensures wave { IfOk result (λ c. c.wave ≡ wave.now) }
    ensures characters { IfOk result (AreStarCharacters S.order_of S.value group.now order.now.n) }
{
    let table = little_table(alloc, group, wave)?;
    let arms = arm_count(alloc, group, wave)?;
    let families = complete_list(alloc, &table)?;
    let characters = small_characters(alloc, order, families.as_slice())?;
    Ok(StarCharacters {
        wave: *wave,
        table,
        arms,
        characters,
    })
}

/// The characters of the small representations at each of some wave vectors, over the numbers of an order that the
/// orders of the wave vectors divide. The error is want of memory.
pub fn characters_at<S: Lift>(
    alloc: Global,
    group: &Group,
    waves: &[Wave],
    order: &Order,
) -> Result<Vec<StarCharacters<S>>, Memory>
    requires limits { All IsWithinLimits waves.now }
    requires orders { All (HasOrder group.now order.now.n) waves.now }
    ensures waves { IfOk result (λ stars. map (λ (c : StarCharacters S). c.wave) stars.items ≡ waves.now) }
    ensures characters { IfOk result (λ stars.
        All (AreStarCharacters S.order_of S.value group.now order.now.n) stars.items) }
{
    let mut stars = Vec::new(alloc);
    for wave in waves {
        let star = star_characters::<S>(alloc, group, wave, order)?;
        stars.push(star)?;
    }
    Ok(stars)
}
