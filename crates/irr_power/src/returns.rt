// Sums over the arms that an operation takes to others.
ghost use Rattle.std.specs.Prelude.{ℕ, ◌≡◌, ◌<◌, IfOk, length, slice_index_or};
ghost use Rattle.irr_algebra.specs.Fin.{Fin, to_nat};
ghost use Rattle.irr_number.specs.Number.{numbers};
ghost use Rattle.irr_canonical.specs.RootSum.{IsRootSum};
ghost use Rattle.irr_char.specs.Characters.{IsRowOf};
ghost use Rattle.irr_mult.specs.Traced.{traces_at};
ghost use Rattle.irr_power.specs.Returns.{ReturnRows, return_sum};

use irr_cyc::{Order, Scalar};
use irr_memory::Memory;
use std::alloc::Global;

/// At each place the sum, over the pairs of arms with these numbers, of the number of the first arm where the operation
/// takes it to the second one. The error is want of memory.
pub(crate) fn return_row<S: Scalar>(
    alloc: Global,
    order: &Order,
    places: usize,
    doubles: &[Vec<S>],
    targets: &[Vec<u32>],
    classes: &[u32],
) -> Result<Vec<S>, Memory>
    requires admitted { S.admits order.now.n }
    requires rows { ReturnRows S.order_of S.value order.now.n places doubles.now targets.now classes.now }
    ensures { (e : ReturnRows S.order_of S.value order.now.n places doubles.now targets.now classes.now)
        → IfOk result (λ row. IsRowOf S.order_of S.value order.now.n (return_sum e) row.items) }
{
    let mut row = Vec::new(alloc);
    for place in 0..places {
        let sum = return_at(alloc, order, place, doubles, targets, classes)?;
        row.push(sum)?;
    }
    Ok(row)
}

// The sum at a place.
fn return_at<S: Scalar>(
    alloc: Global,
    order: &Order,
    place: usize,
    doubles: &[Vec<S>],
    targets: &[Vec<u32>],
    classes: &[u32],
) -> Result<S, Memory>
    requires admitted { S.admits order.now.n }
    requires rows { (h : ℕ) × (place < h)
        × ReturnRows S.order_of S.value order.now.n h doubles.now targets.now classes.now }
    ensures order { IfOk result (λ x. S.order_of x ≡ order.now.n) }
    ensures value { (h : ℕ) (e : ReturnRows S.order_of S.value order.now.n h doubles.now targets.now classes.now)
        (p : Fin h) → to_nat p ≡ place → IfOk result (λ x. S.value order.now.n x ≡ return_sum e p) }
{
    let mut sum = S::zero(alloc, order)?;
    for &class in classes {
        let arm = class as usize / doubles.len();
        let other = class as usize % doubles.len();
        let target = target_at(targets, arm, place);
        let double = double_at(doubles, arm, place);
        sum = more(alloc, sum, target, other, double)?;
    }
    Ok(sum)
}

// The number at a place of a row.
fn double_at<S: Scalar>(rows: &[Vec<S>], row: usize, place: usize) -> &S
    requires row { row < length rows.now }
    requires place { place < length (traces_at rows.now row) }
    ensures { result.now ≡ slice_index_or (traces_at rows.now row) place result.now }
{
    let numbers = rows[row].as_slice();
    &numbers[place]
}

// The arm to which the operation at a place takes one.
fn target_at(rows: &[Vec<u32>], row: usize, place: usize) -> usize
    requires row { row < length rows.now }
    requires place { place < length (traces_at rows.now row) }
    ensures { (d : ℕ) → result ≡ slice_index_or (traces_at rows.now row) place d }
{
    let arms = rows[row].as_slice();
    arms[place] as usize
}

// A sum, with one more number where the target is the other arm.
fn more<S: Scalar>(alloc: Global, sum: S, target: usize, other: usize, x: &S) -> Result<S, Memory>
    requires same { S.order_of x.now ≡ S.order_of sum }
    requires few { IsRootSum (S.order_of sum) 110592 1 (S.value (S.order_of sum) sum) }
    requires small { IsRootSum (S.order_of sum) 48 1 (S.value (S.order_of sum) x.now) }
    ensures order { IfOk result (λ z. S.order_of z ≡ S.order_of sum) }
    ensures there { target ≡ other → IfOk result (λ z. let n = S.order_of sum in
        S.value n z ≡ (numbers n).add (S.value n sum) (S.value n x.now)) }
    ensures elsewhere { (target ≡ other → ⊥) → IfOk result (λ z. let n = S.order_of sum in
        S.value n z ≡ S.value n sum) }
{
    if target != other {
        return Ok(sum);
    }
    let next = sum.add(alloc, x)?;
    Ok(next)
}
