// The traces of an extension among sums of roots, by their products.
ghost use Rattle.std.specs.Prelude.{ℕ, ◌≡◌, ◌⊎◌, ◌^◌, ◌↔◌, map, Contains, IfOk, IsTrue};
ghost use Rattle.irr_number.specs.Number.{Number, numbers};
ghost use Rattle.irr_clifford.specs.Roots.{number_power};
ghost use Rattle.irr_root.specs.RootSums.{AreSmall, IsSmall};

use irr_cyc::Scalar;
use irr_memory::Memory;
use std::alloc::Global;

/// The power x^q for q = 1 or 2.
pub(crate) fn lower_power<S: Scalar>(alloc: Global, q: u32, x: &S) -> Result<S, Memory>
    requires one_or_two { (q ≡ 1) ⊎ (q ≡ 2) }
    requires small { IsSmall S.order_of S.value (S.order_of x.now) 48 x.now }
    ensures order { IfOk result (λ y. S.order_of y ≡ S.order_of x.now) }
    ensures value { IfOk result (λ y. let n = S.order_of x.now in S.value n y ≡ number_power (numbers n) (S.value n x.now) q) }
{
    if q == 1 {
        x.copy(alloc)
    } else {
        x.mul(alloc, x)
    }
}

// Whether factor * r * power = target.
fn is_solution<S: Scalar>(
    alloc: Global,
    factor: &S,
    r: &S,
    power: &S,
    target: &S,
) -> Result<bool, Memory>
    requires { (n : ℕ) × IsSmall S.order_of S.value n 2304 factor.now × IsSmall S.order_of S.value n 48 r.now × IsSmall S.order_of S.value n 2304 power.now
        × IsSmall S.order_of S.value n (2 ^ 30) target.now }
    ensures { (n : ℕ) → S.order_of factor.now ≡ n → IfOk result (λ same. IsTrue same ↔
        ((numbers n).mul (S.value n factor.now) ((numbers n).mul (S.value n r.now) (S.value n power.now)) ≡ S.value n target.now)) }
{
    let product = r.mul(alloc, power)?;
    let left = factor.mul(alloc, &product)?;
    Ok(left.equal(target))
}

/// The first of the numbers r with factor * r * power = target, where one of them is.
pub(crate) fn first_solution<S: Scalar>(
    alloc: Global,
    factor: &S,
    candidates: &[S],
    power: &S,
    target: &S,
) -> Result<S, Memory>
    requires small { (n : ℕ) × IsSmall S.order_of S.value n 2304 factor.now × AreSmall S.order_of S.value n 48 candidates.now
        × IsSmall S.order_of S.value n 2304 power.now × IsSmall S.order_of S.value n (2 ^ 30) target.now }
    requires exists { let n = S.order_of factor.now in (r : Number n) × Contains (map (S.value n) candidates.now) r
        × ((numbers n).mul (S.value n factor.now) ((numbers n).mul r (S.value n power.now)) ≡ S.value n target.now) }
    ensures small { (n : ℕ) → S.order_of factor.now ≡ n → IfOk result (λ r. IsSmall S.order_of S.value n 48 r) }
    ensures solution { (n : ℕ) → S.order_of factor.now ≡ n → IfOk result (λ r.
        (numbers n).mul (S.value n factor.now) ((numbers n).mul (S.value n r) (S.value n power.now)) ≡ S.value n target.now) }
{
    for r in candidates {
        if is_solution(alloc, factor, r, power, target)? {
            let found = r.copy(alloc)?;
            return Ok(found);
        }
    }
    unreachable!()
}

/// The first of the numbers r with factor * r * r^q = target, where one of them is; q is 1 or 2.
pub(crate) fn first_root<S: Scalar>(
    alloc: Global,
    q: u32,
    factor: &S,
    candidates: &[S],
    target: &S,
) -> Result<S, Memory>
    requires one_or_two { (q ≡ 1) ⊎ (q ≡ 2) }
    requires small { (n : ℕ) × IsSmall S.order_of S.value n 2304 factor.now × AreSmall S.order_of S.value n 48 candidates.now
        × IsSmall S.order_of S.value n (2 ^ 30) target.now }
    requires exists { let n = S.order_of factor.now in (r : Number n) × Contains (map (S.value n) candidates.now) r
        × ((numbers n).mul (S.value n factor.now) ((numbers n).mul r (number_power (numbers n) r q)) ≡ S.value n target.now) }
    ensures small { (n : ℕ) → S.order_of factor.now ≡ n → IfOk result (λ r. IsSmall S.order_of S.value n 48 r) }
    ensures solution { (n : ℕ) → S.order_of factor.now ≡ n → IfOk result (λ r.
        (numbers n).mul (S.value n factor.now) ((numbers n).mul (S.value n r) (number_power (numbers n) (S.value n r) q)) ≡ S.value n target.now) }
{
    for r in candidates {
        let power = lower_power(alloc, q, r)?;
        if is_solution(alloc, factor, r, &power, target)? {
            let found = r.copy(alloc)?;
            return Ok(found);
        }
    }
    unreachable!()
}
