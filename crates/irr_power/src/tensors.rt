// Tensors.
ghost use Rattle.std.specs.Prelude.{ℕ, ◌≡◌, ◌<◌, ◌≤◌, ◌^◌, IfOk, IfErr, length, map, slice_index_or, unsigned_abs, Vec};
ghost use Rattle.std.specs.Global.{Global};
ghost use Rattle.std.specs.List.{All};
ghost use Rattle.irr_number.specs.Number.{numbers};
ghost use Rattle.irr_rational.specs.Integer.{integer};
ghost use Rattle.irr_space.specs.Reciprocal.{IsOrder};
ghost use Rattle.irr_seitz.specs.OperationMeaning.{operation};
ghost use Rattle.irr_seitz.specs.PhaseMeaning.{sign_of};
ghost use Rattle.irr_seitz.specs.Rotation.{IsWithin};
ghost use Rattle.irr_kvec.specs.Centrings.{IsWithinLimits};
ghost use Rattle.irr_kvec.specs.WaveMeaning.{wave_vector};
ghost use Rattle.irr_close.specs.StandsFor.{stands_for};
ghost use Rattle.irr_full.specs.Parts.{ArePartsOf};
ghost use Rattle.irr_mult.specs.Listing.{item};
ghost use Rattle.irr_mult.specs.StarParts.{part_of};
ghost use Rattle.irr_mult.specs.declared.star.StarCharacters.{StarCharacters};
ghost use Rattle.irr_side.specs.ArmTraces.{AreEach};
ghost use Rattle.irr_power.specs.FormTraces.{IsFormRow, IsStarRow};
ghost use Rattle.irr_power.specs.Squares.{IsRefused};
ghost use Rattle.irr_power.specs.Tensors.{IsTensorAt, form_matrix, origin};

use crate::forms::{form_size, form_trace};
use crate::parts::TensorParts;
use irr_close::Group;
use irr_cyc::{Lift, Order, Scalar};
use irr_input::Form;
use irr_kvec::Wave;
use irr_memory::Memory;
use irr_mult::{Part, StarCharacters, WorkError, all_parts, characters_at, representatives};
use irr_seitz::Op;
use irr_side::operations;
use std::alloc::Global;

/// The tensors of a form (Bradley and Cracknell, section 5.6): their number of components, and the full representations that
/// stand in them, which are at the wave vector 0, by label. The vector representation sends (R|v) to R, and tensors of rank r
/// are its r-fold direct product. The error is that the exponent of the group is above `ORDER_LIMIT`, which is never so, or want
/// of memory.
pub fn tensor<S: Lift>(alloc: Global, group: &Group, form: Form) -> Result<TensorParts, WorkError>
    ensures tensor { IfOk result (IsTensorAt group.now form) }
    ensures refused { IfErr result (IsRefused (stands_for group.now) origin) }
{
    let parts = form_parts::<S>(alloc, group, form)?;
    let dim = form_size(form);
    Ok(TensorParts { dim, parts })
}

// The full representations that stand in them.
fn form_parts<S: Lift>(alloc: Global, group: &Group, form: Form) -> Result<Vec<Part>, Memory>
    ensures { IfOk result (λ parts. (n : ℕ) × IsOrder (stands_for group.now) origin n × (n ≤ 48)
        × ((positive : 0 < n) → ArePartsOf (sign_of group.now.phase) (stands_for group.now) positive
        (form_matrix (numbers n) form) (item (map part_of parts.items)))) }
{
    let exponent = group.exponent();
    let order = Order::new(alloc, exponent)?;
    let zero = zero_wave();
    let waves = [zero];
    let found = representatives(alloc, group, &waves)?;
    let places = found.as_slice();
    let made = characters_at::<S>(alloc, group, places, &order)?;
    let stars = made.as_slice();
    let rows = star_rows(alloc, group, &order, form, stars)?;
    let parts = all_parts(alloc, stars, rows.as_slice())?;
    Ok(parts)
}

// The wave vector 0.
fn zero_wave() -> Wave
    ensures wave { wave_vector result ≡ origin }
    ensures limits { IsWithinLimits result }
{
    let num = [0, 0, 0];
    Wave { num, den: 1 }
}

// The traces of the operations of the little groups at stars on the tensors of a form.
fn star_rows<S: Scalar>(
    alloc: Global,
    group: &Group,
    order: &Order,
    form: Form,
    stars: &[StarCharacters<S>],
) -> Result<Vec<Vec<S>>, Memory>
    requires admitted { S.admits order.now.n }
    requires limits { All (λ c. IsWithinLimits c.wave) stars.now }
    ensures { IfOk result (λ rows. AreEach (λ i (row : Vec S Global). (c : StarCharacters S)
        → IsStarRow S.order_of S.value order.now.n group.now form (slice_index_or stars.now i c).wave row.items)
        (length stars.now) rows.items) }
{
    let mut rows = Vec::new(alloc);
    for star in stars {
        let row = star_row(alloc, group, order, form, &star.wave)?;
        rows.push(row)?;
    }
    Ok(rows)
}

// Those at one star.
fn star_row<S: Scalar>(
    alloc: Global,
    group: &Group,
    order: &Order,
    form: Form,
    wave: &Wave,
) -> Result<Vec<S>, Memory>
    requires admitted { S.admits order.now.n }
    requires limits { IsWithinLimits wave.now }
    ensures { IfOk result (λ row. IsStarRow S.order_of S.value order.now.n group.now form wave.now row.items) }
{
    let ops = operations(alloc, group, wave)?;
    let row = form_row(alloc, order, form, ops.as_slice())?;
    Ok(row)
}

// The traces of operations on the tensors of a form.
fn form_row<S: Scalar>(
    alloc: Global,
    order: &Order,
    form: Form,
    ops: &[Op],
) -> Result<Vec<S>, Memory>
    requires admitted { S.admits order.now.n }
    requires within { All (λ g. IsWithin 9 (operation g).rotation) ops.now }
    ensures { IfOk result (λ row. IsFormRow S.order_of S.value order.now.n form ops.now row.items) }
{
    let mut row = Vec::new(alloc);
    for op in ops {
        let trace = whole_number(alloc, order, form_trace(form, op))?;
        row.push(trace)?;
    }
    Ok(row)
}

// A whole number.
fn whole_number<S: Scalar>(alloc: Global, order: &Order, number: i64) -> Result<S, Memory>
    requires admitted { S.admits order.now.n }
    requires small { unsigned_abs number ≤ 2 ^ 20 }
    ensures order { IfOk result (λ x. S.order_of x ≡ order.now.n) }
    ensures value { let n = order.now.n in IfOk result (λ x. S.value n x ≡ integer (numbers n) number) }
{
    S::from_terms(alloc, order, 1, &[(0, number)])
}
