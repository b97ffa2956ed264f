// One wave vector's side of a direct product.
ghost use Rattle.std.specs.Prelude.{ℕ, ◌≡◌, ◌≤◌, IfOk};
ghost use Rattle.std.specs.List.{All};
ghost use Rattle.irr_space.specs.Reciprocal.{IsOrder};
ghost use Rattle.irr_kvec.specs.Centrings.{IsWithinLimits};
ghost use Rattle.irr_kvec.specs.WaveMeaning.{wave_vector};
ghost use Rattle.irr_cyc.specs.declared.orders.TheConstants.{ORDER_LIMIT};
ghost use Rattle.irr_chain.specs.NormalSubgroup.{HasSteps};
ghost use Rattle.irr_rep.specs.Twisted.{phase_table, place_count, operation_places};
ghost use Rattle.irr_close.specs.StandsFor.{stands_for};
ghost use Rattle.irr_little.specs.Table.{IsLittleTable};
ghost use Rattle.irr_climb.specs.Lists.{IsSmallList};
ghost use Rattle.irr_climb.specs.Sizes.{HasSharpSizes};
ghost use Rattle.irr_side.specs.Sides.{AreInducedFrom, IsInducible, IsSideOf};

use irr_climb::{ClimbError, small_reps};
use irr_close::Group;
use irr_cyc::{Lift, Scalar};
use irr_kvec::Wave;
use irr_little::{Arms, LittleError, little, star};
use irr_memory::Memory;
use irr_rep::{Family, Twisted};
use irr_star::{Full, induce};
use std::alloc::Global;

/// The star of a wave vector, and the full representations that the members of a complete list of small ones induce.
#[derive(Drop)]
pub struct Side<S: Scalar> {
    pub star: Arms,
    pub fulls: Vec<Full<S>>,
}

/// The side of a wave vector whose order is within the limit. The error is want of memory.
pub fn side_of<S: Lift>(alloc: Global, group: &Group, wave: &Wave) -> Result<Side<S>, Memory>
    requires limits { IsWithinLimits wave.now }
    requires order { (n : ℕ) × IsOrder (stands_for group.now) (wave_vector wave.now) n × (n ≤ ORDER_LIMIT) }
    ensures { IfOk result (λ made. IsSideOf group.now (wave_vector wave.now) made) }
{
    let table = little_table(alloc, group, wave)?;
    let star = star(alloc, group, wave)?;
    let families = small_list::<S>(alloc, &table)?;
    let fulls = induced(alloc, group, &star, &table, &families)?;
    Ok(Side { star, fulls })
}

// The table of the little group. The error is want of memory.
fn little_table(alloc: Global, group: &Group, wave: &Wave) -> Result<Twisted, Memory>
    requires limits { IsWithinLimits wave.now }
    requires order { (n : ℕ) × IsOrder (stands_for group.now) (wave_vector wave.now) n × (n ≤ ORDER_LIMIT) }
    ensures table { IfOk result (λ t.
        IsLittleTable group.now (wave_vector wave.now) (operation_places t) (phase_table t)) }
    ensures within { IfOk result (λ t. (phase_table t).order ≤ ORDER_LIMIT) }
{
    match little(alloc, group, wave) {
        Ok(t) => Ok(t),
        Err(LittleError::OrderTooLarge(_)) => unreachable!(),
        Err(LittleError::Memory) => Err(Memory),
    }
}

// A complete list of small representations in canonical order. The error is want of memory.
fn small_list<S: Lift>(alloc: Global, t: &Twisted) -> Result<Vec<Family<S>>, Memory>
    requires within { (phase_table t.now).order ≤ ORDER_LIMIT }
    requires steps { HasSteps (phase_table t.now) }
    ensures list { IfOk result (λ fs. IsSmallList (phase_table t.now) fs.items) }
    ensures sizes { IfOk result (λ fs. All (HasSharpSizes (phase_table t.now).order (place_count t.now)) fs.items) }
{
    match small_reps::<S>(alloc, t) {
        Ok(families) => Ok(families),
        Err(ClimbError::Unchained(_)) => unreachable!(),
        Err(ClimbError::Memory) => Err(Memory),
    }
}

// The full representations that families of small ones induce. The error is want of memory.
fn induced<S: Scalar>(
    alloc: Global,
    group: &Group,
    star: &Arms,
    t: &Twisted,
    families: &[Family<S>],
) -> Result<Vec<Full<S>>, Memory>
    requires families { All (IsInducible group.now star.now.arms.items t.now) families.now }
    requires limits { All (λ a. IsWithinLimits a.wave) star.now.arms.items }
    ensures { IfOk result (λ fulls.
        AreInducedFrom group.now star.now.arms.items t.now families.now fulls.items) }
{
    let mut fulls = Vec::new(alloc);
    for family in families {
        let full = induce(alloc, group, star, t, family)?;
        fulls.push(full)?;
    }
    Ok(fulls)
}
