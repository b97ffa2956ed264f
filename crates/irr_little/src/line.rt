// Line groups: their orders, their operations and their tables of phases.
ghost use Rattle.std.specs.Prelude.{ℕ, suc, ◌≡◌, ◌<◌, ◌≤◌, ◌^◌, ◌↔◌, IfOk, IfErr, IsTrue, length};
ghost use Rattle.std.specs.List.{All, HoldsAt};
ghost use Rattle.irr_algebra.specs.Fin.{Fin};
ghost use Rattle.irr_algebra.specs.Fin.Fin.{first};
ghost use Rattle.irr_algebra.specs.Matrix.{◌⊖◌};
ghost use Rattle.irr_space.specs.Operation.{turned};
ghost use Rattle.irr_cyc.specs.declared.orders.TheConstants.{ORDER_LIMIT};
ghost use Rattle.irr_rat.specs.Lcm.{IsLcm};
ghost use Rattle.irr_rep.specs.Twisted.{phase_table, operation_places};
ghost use Rattle.irr_seitz.specs.Rotation.{IsWithin};
ghost use Rattle.irr_seitz.specs.OperationMeaning.{operation};
ghost use Rattle.irr_kvec.specs.Centrings.{IsWithinLimits};
ghost use Rattle.irr_kvec.specs.WaveMeaning.{wave_vector};
ghost use Rattle.irr_kvec.specs.declared.wave.Wave.{Wave};
ghost use Rattle.irr_close.specs.StandsFor.{stands_for};
ghost use Rattle.irr_line.specs.LineGroup.{IsLineOrder};
ghost use Rattle.irr_little.specs.Line.{line_points, IsLinePlace, AreLinePlaces, IsLineGroupTable, IsLineRefusal};
ghost use Rattle.irr_little.specs.Steps.{IsWholeMultiple};

use crate::LittleError;
use crate::places::keeps;
use crate::steps::{keeps_row, whole_step};
use crate::table::entries;
use irr_close::Group;
use irr_cyc::ORDER_LIMIT;
use irr_kvec::{Wave, period};
use irr_memory::Memory;
use irr_rat::lcm_checked;
use irr_rep::Twisted;
use irr_seitz::Op;
use std::alloc::Global;

/// The table of phases, at the first point, of the line group of points: the operations of its little group that keep
/// the steps from it to the others, and not only up to vectors of the reciprocal lattice (Aroyo et al., Acta Cryst. A62,
/// 2006). With two points that is a line, with three a plane.
///
/// The order is the exponent of the group times the least common multiple of the periods of the points. Where that of
/// the first points in front is above `ORDER_LIMIT`, it is refused with the first such order. The places are the numbers
/// of the operations in `Group::ops`.
pub fn line_group(alloc: Global, group: &Group, points: &[Wave]) -> Result<Twisted, LittleError>
    requires points { 0 < length points.now }
    requires limits { All IsWithinLimits points.now }
    ensures table { (n : ℕ) (d : Wave) → length points.now ≡ suc n → IfOk result (λ t.
        IsLineGroupTable group.now (line_points n points.now d) (operation_places t) (phase_table t)) }
    ensures accepted { IfOk result (λ t. (phase_table t).order ≤ ORDER_LIMIT) }
    ensures refused { IfErr result (IsLineRefusal group.now points.now) }
{
    let order = line_order(group, points)?;
    let places = line_places(alloc, group, order, points)?;
    let t = line_table(alloc, group, points, order, places)?;
    Ok(t)
}

// The exponent of the group times the least common multiple of the periods of the points, or the first such number, of
// points in front, that is above the limit.
fn line_order(group: &Group, points: &[Wave]) -> Result<u32, LittleError>
    requires points { 0 < length points.now }
    requires limits { All IsWithinLimits points.now }
    ensures order { (n : ℕ) (d : Wave) → length points.now ≡ suc n
        → IfOk result (λ order. IsLineOrder (stands_for group.now) (line_points n points.now d) order) }
    ensures within { IfOk result (λ order. order ≤ ORDER_LIMIT) }
    ensures refused { IfErr result (IsLineRefusal group.now points.now) }
{
    let exponent = u64::from(group.exponent());
    let mut common = 1;
    for i in 0..points.len() {
        common = common_multiple(common, period(group.centrings(), &points[i]));
        let order = exponent * common;
        if order > u64::from(ORDER_LIMIT) {
            return Err(LittleError::OrderTooLarge(order));
        }
    }
    Ok((exponent * common) as u32)
}

// The least common multiple of a number within the limit and a period.
fn common_multiple(common: u64, period: u32) -> u64
    requires positive { 0 < common }
    requires within { common ≤ ORDER_LIMIT }
    requires period { 0 < period }
    ensures least { IsLcm common period result }
    ensures positive { 0 < result }
    ensures small { result ≤ 2 ^ 46 }
{
    lcm_checked(common, u64::from(period)).unwrap()
}

// The numbers of the operations of the line group, in increasing order. The error is want of memory.
fn line_places(
    alloc: Global,
    group: &Group,
    order: u32,
    points: &[Wave],
) -> Result<Vec<u32>, Memory>
    requires points { 0 < length points.now }
    requires limits { All IsWithinLimits points.now }
    requires within { order ≤ ORDER_LIMIT }
    requires positive { 0 < order }
    requires multiples { All (λ k. IsWholeMultiple order (wave_vector k)) points.now }
    ensures { (n : ℕ) (d : Wave) → length points.now ≡ suc n → IfOk result (λ places.
        AreLinePlaces group.now (line_points n points.now d) places.items) }
{
    let mut places = Vec::new(alloc);
    for place in 0..group.ops().len() {
        if is_line_place(group, place, order, points) {
            places.push(place as u32)?;
        }
    }
    Ok(places)
}

// Whether an operation is in the line group.
fn is_line_place(group: &Group, place: usize, order: u32, points: &[Wave]) -> bool
    requires place { place < length group.now.ops.items }
    requires points { 0 < length points.now }
    requires limits { All IsWithinLimits points.now }
    requires within { order ≤ ORDER_LIMIT }
    requires positive { 0 < order }
    requires multiples { All (λ k. IsWholeMultiple order (wave_vector k)) points.now }
    ensures { (n : ℕ) (d : Wave) → length points.now ≡ suc n
        → IsTrue result ↔ IsLinePlace group.now (line_points n points.now d) place }
{
    if !keeps(group, place, &points[0]) {
        return false;
    }
    let ops = group.ops();
    keeps_steps(&ops[place], order, points)
}

// Whether the rotation of an operation keeps the steps from the first point to the others.
fn keeps_steps(op: &Op, order: u32, points: &[Wave]) -> bool
    requires entries { IsWithin 9 (operation op.now).rotation }
    requires points { 0 < length points.now }
    requires limits { All IsWithinLimits points.now }
    requires within { order ≤ ORDER_LIMIT }
    requires positive { 0 < order }
    requires multiples { All (λ k. IsWholeMultiple order (wave_vector k)) points.now }
    ensures { (n : ℕ) (d : Wave) → length points.now ≡ suc n → IsTrue result ↔ ((i : Fin (suc n)) →
        turned (line_points n points.now d i ⊖ line_points n points.now d first) (operation op.now)
        ≡ line_points n points.now d i ⊖ line_points n points.now d first) }
{
    for i in 0..points.len() {
        if !keeps_step(op, order, &points[0], &points[i]) {
            return false;
        }
    }
    true
}

// Whether the rotation of an operation keeps the step from one wave vector to another.
fn keeps_step(op: &Op, order: u32, from: &Wave, to: &Wave) -> bool
    requires entries { IsWithin 9 (operation op.now).rotation }
    requires within { order ≤ ORDER_LIMIT }
    requires positive { 0 < order }
    requires limits { IsWithinLimits from.now }
    requires other_limits { IsWithinLimits to.now }
    requires multiple { IsWholeMultiple order (wave_vector from.now) }
    requires other_multiple { IsWholeMultiple order (wave_vector to.now) }
    ensures { IsTrue result ↔ (turned (wave_vector to.now ⊖ wave_vector from.now) (operation op.now)
        ≡ wave_vector to.now ⊖ wave_vector from.now) }
{
    keeps_row(op, &whole_step(order, from, to))
}

// The table of the operations of the line group. The error is want of memory.
fn line_table(
    alloc: Global,
    group: &Group,
    points: &[Wave],
    order: u32,
    places: Vec<u32>,
) -> Result<Twisted, Memory>
    requires points { 0 < length points.now }
    requires limits { All IsWithinLimits points.now }
    requires order { (n : ℕ) (d : Wave) → length points.now ≡ suc n → IsLineOrder (stands_for group.now) (line_points n points.now d) order }
    requires within { order ≤ ORDER_LIMIT }
    requires places { (n : ℕ) (d : Wave) → length points.now ≡ suc n → AreLinePlaces group.now (line_points n points.now d) places.items }
    ensures table { (n : ℕ) (d : Wave) → length points.now ≡ suc n → IfOk result (λ t.
        IsLineGroupTable group.now (line_points n points.now d) (operation_places t) (phase_table t)) }
    ensures order { IfOk result (λ t. (phase_table t).order ≡ order) }
{
    let (products, exponents) = entries(alloc, group, &points[0], order, &places)?;
    let t = Twisted::new(alloc, order, products, exponents, places)?;
    Ok(t)
}
