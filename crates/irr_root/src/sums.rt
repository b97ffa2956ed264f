// Sums of roots of eigenvalues, for the exponents of these.
ghost use Rattle.std.specs.Prelude.{ℕ, ◌≡◌, ◌<◌, ◌≤◌, ◌+◌, ◌*◌, ◌/◌, ◌⊎◌, length, map, All, Contains, IfOk, IsTrue};
ghost use Rattle.std.specs.Int.{◌∣◌};
ghost use Rattle.irr_number.specs.Number.{Number, numbers, root_power};
ghost use Rattle.irr_rep.specs.Twisted.{phase_table};
ghost use Rattle.irr_root.specs.RootSums.{AreSmall, HasRootSums, IsSmall};

use crate::eigenvalues::phase;
use irr_cyc::{Order, Scalar};
use irr_memory::Memory;
use irr_rep::Twisted;
use std::alloc::Global;

// Whether a number is one of a list.
fn is_among<S: Scalar>(numbers: &[S], x: &S) -> bool
    requires numbers { (n : ℕ) × AreSmall S.order_of S.value n 48 numbers.now × IsSmall S.order_of S.value n 48 x.now }
    ensures { IsTrue result → (n : ℕ) → S.order_of x.now ≡ n → Contains (map (S.value n) numbers.now) (S.value n x.now) }
{
    for number in numbers {
        if number.equal(x) {
            return true;
        }
    }
    false
}

// The sum and the j-th of the p-th roots of z^e.
fn with_root<S: Scalar>(
    alloc: Global,
    t: &Twisted,
    order: &Order,
    p: u32,
    sum: &S,
    e: u32,
    j: u32,
) -> Result<S, Memory>
    requires admitted { S.admits order.now.n }
    requires divides { (phase_table t.now).order ∣ order.now.n }
    requires two_or_three { (p ≡ 2) ⊎ (p ≡ 3) }
    requires exponent { e < (phase_table t.now).order }
    requires index { j < p }
    requires small { IsSmall S.order_of S.value order.now.n 47 sum.now }
    ensures order { IfOk result (λ x. S.order_of x ≡ order.now.n) }
    ensures value { let n = order.now.n in let N = (phase_table t.now).order in IfOk result (λ x. S.value n x
        ≡ (numbers n).add (root_power n ((e / p + j * (N / p)) * (n / N))) (S.value n sum.now)) }
{
    let root: S = phase(alloc, t, order, e / p + j * (t.order() / p))?;
    root.add(alloc, sum)
}

// A list of sums with those of one more number and each of the p-th roots of z^e; none is added twice.
fn with_roots<S: Scalar>(
    alloc: Global,
    t: &Twisted,
    order: &Order,
    p: u32,
    mut sums: Vec<S>,
    rest: &S,
    e: u32,
) -> Result<Vec<S>, Memory>
    requires admitted { S.admits order.now.n }
    requires divides { (phase_table t.now).order ∣ order.now.n }
    requires two_or_three { (p ≡ 2) ⊎ (p ≡ 3) }
    requires exponent { e < (phase_table t.now).order }
    requires small { (s : ℕ) × (s < 48) × IsSmall S.order_of S.value order.now.n s rest.now × AreSmall S.order_of S.value order.now.n (s + 1) sums.items }
    ensures small { (s : ℕ) → s < 48 → IsSmall S.order_of S.value order.now.n s rest.now → AreSmall S.order_of S.value order.now.n (s + 1) sums.items
        → IfOk result (λ xs. AreSmall S.order_of S.value order.now.n (s + 1) xs.items) }
    ensures kept { let n = order.now.n in IfOk result (λ xs. (x : Number n) → Contains (map (S.value n) sums.items) x → Contains (map (S.value n) xs.items) x) }
    ensures roots { let n = order.now.n in let N = (phase_table t.now).order in IfOk result (λ xs. (j : ℕ) → j < p
        → Contains (map (S.value n) xs.items) ((numbers n).add (root_power n ((e / p + j * (N / p)) * (n / N))) (S.value n rest.now))) }
{
    for j in 0..p {
        let sum = with_root(alloc, t, order, p, rest, e, j)?;
        if !is_among(sums.as_slice(), &sum) {
            sums.push(sum)?;
        }
    }
    Ok(sums)
}

// The sums of each of the numbers and each of the p-th roots of z^e.
fn next_sums<S: Scalar>(
    alloc: Global,
    t: &Twisted,
    order: &Order,
    p: u32,
    rests: &[S],
    e: u32,
) -> Result<Vec<S>, Memory>
    requires admitted { S.admits order.now.n }
    requires divides { (phase_table t.now).order ∣ order.now.n }
    requires two_or_three { (p ≡ 2) ⊎ (p ≡ 3) }
    requires exponent { e < (phase_table t.now).order }
    requires small { (s : ℕ) × (s < 48) × AreSmall S.order_of S.value order.now.n s rests.now }
    ensures small { (s : ℕ) → s < 48 → AreSmall S.order_of S.value order.now.n s rests.now
        → IfOk result (λ xs. AreSmall S.order_of S.value order.now.n (s + 1) xs.items) }
    ensures roots { let n = order.now.n in let N = (phase_table t.now).order in IfOk result (λ xs. (x : Number n) → Contains (map (S.value n) rests.now) x → (j : ℕ) → j < p
        → Contains (map (S.value n) xs.items) ((numbers n).add (root_power n ((e / p + j * (N / p)) * (n / N))) x)) }
{
    let mut sums = Vec::new(alloc);
    for rest in rests {
        sums = with_roots(alloc, t, order, p, sums, rest, e)?;
    }
    Ok(sums)
}

/// The different sums of one p-th root of z^e for each of at most 48 exponents e; p is 2 or 3.
pub(crate) fn root_sums<S: Scalar>(
    alloc: Global,
    t: &Twisted,
    order: &Order,
    p: u32,
    exponents: &[u32],
) -> Result<Vec<S>, Memory>
    requires admitted { S.admits order.now.n }
    requires divides { (phase_table t.now).order ∣ order.now.n }
    requires two_or_three { (p ≡ 2) ⊎ (p ≡ 3) }
    requires exponents { All (λ e. e < (phase_table t.now).order) exponents.now }
    requires few { length exponents.now ≤ 48 }
    ensures small { IfOk result (λ xs. AreSmall S.order_of S.value order.now.n 48 xs.items) }
    ensures all { let n = order.now.n in let N = (phase_table t.now).order in IfOk result (λ xs.
        HasRootSums (numbers n) (root_power n (n / N)) p (N / p) exponents.now (map (S.value n) xs.items)) }
{
    let mut sums = Vec::new(alloc);
    let zero = S::zero(alloc, order)?;
    sums.push(zero)?;
    for &e in exponents {
        sums = next_sums(alloc, t, order, p, sums.as_slice(), e)?;
    }
    Ok(sums)
}
