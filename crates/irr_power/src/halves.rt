// Half the sums and half the differences of numbers.
ghost use Rattle.std.specs.Prelude.{ℕ, ◌≡◌, ◌<◌, IfOk, length, slice_index_or};
ghost use Rattle.irr_number.specs.Number.{numbers};
ghost use Rattle.irr_canonical.specs.RootSum.{IsRootSum};
ghost use Rattle.irr_power.specs.Halves.{AreHalves, ArePairs, IsHalf};

use irr_cyc::Scalar;
use irr_memory::Memory;
use std::alloc::Global;

// Half the sum of two numbers. The error is want of memory.
fn half_sum<S: Scalar>(alloc: Global, x: &S, y: &S) -> Result<S, Memory>
    requires orders { S.order_of y.now ≡ S.order_of x.now }
    requires first { IsRootSum (S.order_of x.now) 5308416 1 (S.value (S.order_of x.now) x.now) }
    requires second { IsRootSum (S.order_of x.now) 110592 1 (S.value (S.order_of x.now) y.now) }
    ensures order { IfOk result (λ z. S.order_of z ≡ S.order_of x.now) }
    ensures value { let n = S.order_of x.now in IfOk result (λ z.
        IsHalf n ((numbers n).add (S.value n x.now) (S.value n y.now)) (S.value n z)) }
{
    let sum = x.add(alloc, y)?;
    let half = sum.scale(alloc, 1, 2)?;
    Ok(half)
}

// Half the difference of two numbers. The error is want of memory.
fn half_difference<S: Scalar>(alloc: Global, x: &S, y: &S) -> Result<S, Memory>
    requires orders { S.order_of y.now ≡ S.order_of x.now }
    requires first { IsRootSum (S.order_of x.now) 5308416 1 (S.value (S.order_of x.now) x.now) }
    requires second { IsRootSum (S.order_of x.now) 110592 1 (S.value (S.order_of x.now) y.now) }
    ensures order { IfOk result (λ z. S.order_of z ≡ S.order_of x.now) }
    ensures value { let n = S.order_of x.now in IfOk result (λ z.
        IsHalf n ((numbers n).add (S.value n x.now) ((numbers n).neg (S.value n y.now))) (S.value n z)) }
{
    let difference = x.sub(alloc, y)?;
    let half = difference.scale(alloc, 1, 2)?;
    Ok(half)
}

/// Half the sums of the numbers of two rows. The error is want of memory.
pub(crate) fn half_sums<S: Scalar>(alloc: Global, xs: &[S], ys: &[S]) -> Result<Vec<S>, Memory>
    requires { (n : ℕ) × ArePairs S.order_of S.value n xs.now ys.now }
    ensures { (n : ℕ) → ArePairs S.order_of S.value n xs.now ys.now → IfOk result (λ zs.
        AreHalves S.order_of S.value n (λ x y. (numbers n).add x y) xs.now ys.now zs.items) }
{
    let mut row = Vec::new(alloc);
    for i in 0..xs.len() {
        let half = half_sum(alloc, &xs[i], &ys[i])?;
        row.push(half)?;
    }
    Ok(row)
}

/// Half the differences of the numbers of two rows. The error is want of memory.
pub(crate) fn half_differences<S: Scalar>(
    alloc: Global,
    xs: &[S],
    ys: &[S],
) -> Result<Vec<S>, Memory>
    requires { (n : ℕ) × ArePairs S.order_of S.value n xs.now ys.now }
    ensures { (n : ℕ) → ArePairs S.order_of S.value n xs.now ys.now → IfOk result (λ zs.
        AreHalves S.order_of S.value n (λ x y. (numbers n).add x ((numbers n).neg y)) xs.now ys.now zs.items) }
{
    let mut row = Vec::new(alloc);
    for i in 0..xs.len() {
        let half = half_difference(alloc, &xs[i], &ys[i])?;
        row.push(half)?;
    }
    Ok(row)
}
