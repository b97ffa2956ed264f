// The traces of the families of a site, from the traces of a representation of its site group.
ghost use Rattle.std.specs.Prelude.{ℕ, ◌≡◌, ◌<◌, ◌≤◌, List, All, IfOk, length, map, slice_index, unsigned_abs};
ghost use Rattle.irr_algebra.specs.Matrix.{trace as matrix_trace};
ghost use Rattle.irr_number.specs.Number.{Number, numbers, root_power};
ghost use Rattle.irr_rational.specs.Integer.{whole_matrix};
ghost use Rattle.irr_canonical.specs.RootSum.{IsRootSum};
ghost use Rattle.irr_seitz.specs.OperationMeaning.{operation};
ghost use Rattle.irr_seitz.specs.Rotation.{IsWithin};
ghost use Rattle.irr_seitz.specs.declared.op.Op.{Op};
ghost use Rattle.irr_rep.specs.Twisted.{operation_places, place_count};
ghost use Rattle.irr_char.specs.Characters.{IsSmallRow};
ghost use Rattle.irr_site.specs.Products.{rotation_at};
ghost use Rattle.irr_site.specs.Traces.{AreRestsWithin, AreRowsWithin, AreSumsOf, FitsIn, FitsRow, IsSumOf, diagonal_sum, number_at, rest_term};

use crate::rest::Rest;
use irr_close::Group;
use irr_cyc::{Order, Scalar};
use irr_memory::Memory;
use irr_rep::Twisted;
use irr_seitz::Op;
use std::alloc::Global;

// The term of a site: the phase times the trace at what is left.
fn term<S: Scalar>(alloc: Global, order: &Order, rest: Rest, row: &[S]) -> Result<S, Memory>
    requires admitted { S.admits order.now.n }
    requires row { (h : ℕ) × IsSmallRow S.order_of S.value order.now.n h row.now }
    requires fits { FitsRow order.now.n (length row.now) rest }
    ensures order { IfOk result (λ x. S.order_of x ≡ order.now.n) }
    ensures few { let n = order.now.n in IfOk result (λ x. IsRootSum n 48 1 (S.value n x)) }
    ensures value { let n = order.now.n in IfOk result (λ x. S.value n x
        ≡ (numbers n).mul (root_power n rest.exponent) (number_at n (map (S.value n) row.now) rest.place)) }
{
    let phase = S::root(alloc, order, rest.exponent)?;
    let place = rest.place as usize;
    let product = phase.mul(alloc, &row[place])?;
    Ok(product)
}

// The term of a site that is carried to itself; 0 for another one.
fn term_or_zero<S: Scalar>(
    alloc: Global,
    order: &Order,
    rest: Option<Rest>,
    row: &[S],
) -> Result<S, Memory>
    requires admitted { S.admits order.now.n }
    requires row { (h : ℕ) × IsSmallRow S.order_of S.value order.now.n h row.now }
    requires fits { FitsIn order.now.n (length row.now) rest }
    ensures order { IfOk result (λ x. S.order_of x ≡ order.now.n) }
    ensures few { let n = order.now.n in IfOk result (λ x. IsRootSum n 48 1 (S.value n x)) }
    ensures value { let n = order.now.n in IfOk result (λ x. S.value n x ≡ rest_term n (map (S.value n) row.now) rest) }
{
    match rest {
        Some(rest) => {
            let number = term(alloc, order, rest, row)?;
            Ok(number)
        }
        None => {
            let zero = S::zero(alloc, order)?;
            Ok(zero)
        }
    }
}

/// The trace at an operation: the sum of the terms of the sites that it carries to themselves. The error is want of
/// memory.
pub(crate) fn trace<S: Scalar>(
    alloc: Global,
    order: &Order,
    rests: &[Option<Rest>],
    row: &[S],
) -> Result<S, Memory>
    requires admitted { S.admits order.now.n }
    requires row { (h : ℕ) × IsSmallRow S.order_of S.value order.now.n h row.now }
    requires few { length rests.now ≤ 48 }
    requires fit { AreRestsWithin order.now.n (length row.now) rests.now }
    ensures order { IfOk result (λ x. S.order_of x ≡ order.now.n) }
    ensures sum { let n = order.now.n in IfOk result (λ x. IsSumOf n (map (S.value n) row.now) rests.now (S.value n x)) }
{
    let mut sum = S::zero(alloc, order)?;
    for i in 0..rests.len() {
        let term = term_or_zero(alloc, order, rests[i], row)?;
        sum = sum.add(alloc, &term)?;
    }
    Ok(sum)
}

/// The traces at operations, from what is left of each at each site and a row of traces on the site group. The error
/// is want of memory.
pub(crate) fn traces<S: Scalar>(
    alloc: Global,
    order: &Order,
    rows: &[Vec<Option<Rest>>],
    row: &[S],
) -> Result<Vec<S>, Memory>
    requires admitted { S.admits order.now.n }
    requires row { (h : ℕ) × IsSmallRow S.order_of S.value order.now.n h row.now }
    requires fit { AreRowsWithin order.now.n (length row.now) rows.now }
    ensures { let n = order.now.n in IfOk result (λ xs. AreSumsOf S.order_of S.value n
        (λ i. map (S.value n) row.now) rows.now xs.items) }
{
    let mut numbers = Vec::new(alloc);
    for rests in rows {
        let number = trace(alloc, order, rests.as_slice(), row)?;
        numbers.push(number)?;
    }
    Ok(numbers)
}

// The trace of the rotation of an operation.
fn rotation_trace(op: &Op) -> i64
    requires { IsWithin 9 (operation op.now).rotation }
    ensures value { result ≡ diagonal_sum (operation op.now).rotation }
    ensures small { unsigned_abs result ≤ 27 }
{
    i64::from(op.rot[0][0]) + i64::from(op.rot[1][1]) + i64::from(op.rot[2][2])
}

// The trace of the rotation of an operation as a number, so many times.
fn rotation_row<S: Scalar>(
    alloc: Global,
    order: &Order,
    op: &Op,
    count: usize,
) -> Result<Vec<S>, Memory>
    requires admitted { S.admits order.now.n }
    requires entries { IsWithin 9 (operation op.now).rotation }
    ensures row { IfOk result (λ xs. IsSmallRow S.order_of S.value order.now.n count xs.items) }
    ensures value { let n = order.now.n in IfOk result (λ xs. (p : ℕ) → p < count
        → number_at n (map (S.value n) xs.items) p ≡ matrix_trace (whole_matrix (numbers n) (operation op.now).rotation)) }
{
    let mut row = Vec::new(alloc);
    let trace = rotation_trace(op);
    for _ in 0..count {
        let one = S::one(alloc, order)?;
        let number = one.scale(alloc, trace, 1)?;
        row.push(number)?;
    }
    Ok(row)
}

/// The traces of displacements at the operations of a little group, from what is left of each at each site; the site
/// group has so many operations. The error is want of memory.
pub(crate) fn displacement_traces<S: Scalar>(
    alloc: Global,
    order: &Order,
    group: &Group,
    t: &Twisted,
    rows: &[Vec<Option<Rest>>],
    places: usize,
) -> Result<Vec<S>, Memory>
    requires admitted { S.admits order.now.n }
    requires places { All (λ p. p < length group.now.ops.items) (operation_places t.now) }
    requires rows { length rows.now ≡ place_count t.now }
    requires fit { AreRowsWithin order.now.n places rows.now }
    ensures { let n = order.now.n in IfOk result (λ xs. (row : ℕ → List (Number n))
        → ((i p : ℕ) (d : Op) → i < place_count t.now → p < places → number_at n (row i) p
        ≡ matrix_trace (whole_matrix (numbers n) (rotation_at group.now (slice_index (operation_places t.now) i) d)))
        → AreSumsOf S.order_of S.value n row rows.now xs.items) }
{
    let ops = group.ops();
    let mut numbers = Vec::new(alloc);
    for i in 0..t.len() {
        let row = rotation_row::<S>(alloc, order, &ops[t.place(i) as usize], places)?;
        let number = trace(alloc, order, rows[i as usize].as_slice(), row.as_slice())?;
        numbers.push(number)?;
    }
    Ok(numbers)
}
