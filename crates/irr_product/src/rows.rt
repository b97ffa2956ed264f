// Rows of sums of products.
ghost use Rattle.std.specs.Prelude.{ℕ, ◌≡◌, ◌<◌, ◌≤◌, ◌*◌, IfOk, length, slice_index_or};
ghost use Rattle.irr_algebra.specs.Fin.{Fin, to_nat};
ghost use Rattle.irr_number.specs.Number.{numbers};
ghost use Rattle.irr_canonical.specs.RootSum.{IsRootSum};
ghost use Rattle.irr_char.specs.Characters.{IsRowOf};
ghost use Rattle.irr_mult.specs.Traced.{traces_at};
ghost use Rattle.irr_product.specs.ClassRows.{ClassRows, class_sum};

use irr_cyc::{Order, Scalar};
use irr_memory::Memory;
use std::alloc::Global;

/// The row of sums of products: at each place, over the pairs of rows with these numbers, where the first of the rows with
/// each of the others come first. The error is want of memory.
pub fn part_row<S: Scalar>(
    alloc: Global,
    order: &Order,
    places: usize,
    left: &[Vec<S>],
    right: &[Vec<S>],
    classes: &[u32],
) -> Result<Vec<S>, Memory>
    requires admitted { S.admits order.now.n }
    requires rows { ClassRows S.order_of S.value order.now.n places left.now right.now classes.now }
    ensures { (e : ClassRows S.order_of S.value order.now.n places left.now right.now classes.now)
        → IfOk result (λ row. IsRowOf S.order_of S.value order.now.n (class_sum e) row.items) }
{
    let mut row = Vec::new(alloc);
    for place in 0..places {
        let sum = sum_at(alloc, order, place, left, right, classes)?;
        row.push(sum)?;
    }
    Ok(row)
}

// The sum at a place.
fn sum_at<S: Scalar>(
    alloc: Global,
    order: &Order,
    place: usize,
    left: &[Vec<S>],
    right: &[Vec<S>],
    classes: &[u32],
) -> Result<S, Memory>
    requires admitted { S.admits order.now.n }
    requires rows { (h : ℕ) × (place < h)
        × ClassRows S.order_of S.value order.now.n h left.now right.now classes.now }
    ensures order { IfOk result (λ x. S.order_of x ≡ order.now.n) }
    ensures value { (h : ℕ) (e : ClassRows S.order_of S.value order.now.n h left.now right.now classes.now)
        (p : Fin h) → to_nat p ≡ place → IfOk result (λ x. S.value order.now.n x ≡ class_sum e p) }
{
    let mut sum = S::zero(alloc, order)?;
    for &class in classes {
        let x = number_at(left, class as usize / right.len(), place);
        let y = number_at(right, class as usize % right.len(), place);
        sum = more(alloc, sum, x, y)?;
    }
    Ok(sum)
}

// The number at a place of a row.
fn number_at<S: Scalar>(rows: &[Vec<S>], row: usize, place: usize) -> &S
    requires row { row < length rows.now }
    requires place { place < length (traces_at rows.now row) }
    ensures { result.now ≡ slice_index_or (traces_at rows.now row) place result.now }
{
    let numbers = rows[row].as_slice();
    &numbers[place]
}

// A sum and a product.
fn more<S: Scalar>(alloc: Global, sum: S, x: &S, y: &S) -> Result<S, Memory>
    requires first { S.order_of x.now ≡ S.order_of sum }
    requires second { S.order_of y.now ≡ S.order_of sum }
    requires few { IsRootSum (S.order_of sum) 5308416 1 (S.value (S.order_of sum) sum) }
    requires first_few { IsRootSum (S.order_of sum) 48 1 (S.value (S.order_of sum) x.now) }
    requires second_few { IsRootSum (S.order_of sum) 48 1 (S.value (S.order_of sum) y.now) }
    ensures order { IfOk result (λ z. S.order_of z ≡ S.order_of sum) }
    ensures value { IfOk result (λ z. S.value (S.order_of sum) z ≡ (numbers (S.order_of sum)).add (S.value (S.order_of sum) sum)
        ((numbers (S.order_of sum)).mul (S.value (S.order_of sum) x.now) (S.value (S.order_of sum) y.now))) }
{
    if x.is_zero() {
        return Ok(sum);
    }
    let product = x.mul(alloc, y)?;
    let next = sum.add(alloc, &product)?;
    Ok(next)
}
