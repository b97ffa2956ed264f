// Sums of the wave vectors of two stars.
ghost use Rattle.std.specs.Prelude.{◌≡◌, ◌<◌, ◌≤◌, ◌+ℤ◌, ◌*ℤ◌, ◌++◌, ◌/◌, ◌^◌, pos, unsigned_abs, List, IfOk, OnOk};
ghost use Rattle.std.specs.List.{All};
ghost use Rattle.irr_algebra.specs.Fin.{Fin};
ghost use Rattle.irr_rational.specs.Ratio.{entry};
ghost use Rattle.irr_kvec.specs.declared.wave.Wave.{Wave};
ghost use Rattle.irr_cyc.specs.declared.orders.TheConstants.{ORDER_LIMIT};
ghost use Rattle.irr_product.specs.Sums.{AreRowSums, AreSums, IsSumOf, IsSummand};

use irr_close::Group;
use irr_kvec::{Wave, reduced};
use irr_little::Arm;
use irr_memory::Memory;
use irr_rat::Vec3;
use std::alloc::Global;

/// The sums of the wave vectors of the arms of two stars, reduced: those of the first arm with each of the others, and
/// so on. The denominators divide n. The error is want of memory.
pub fn arm_sums(
    alloc: Global,
    group: &Group,
    n: u32,
    left: &[Arm],
    right: &[Arm],
) -> Result<Vec<Wave>, Memory>
    requires positive { 0 < n }
    requires within { n ≤ ORDER_LIMIT }
    requires left { All (λ a. IsSummand n a.wave) left.now }
    requires right { All (λ a. IsSummand n a.wave) right.now }
    ensures { IfOk result (λ sums. AreSums group.now left.now right.now sums.items) }
{
    let mut sums = Vec::new(alloc);
    for arm in left {
        push_sums(group, n, &arm.wave, right, &mut sums)?;
    }
    Ok(sums)
}

// Appends the sums of a wave vector with those of arms.
fn push_sums(
    group: &Group,
    n: u32,
    wave: &Wave,
    arms: &[Arm],
    sums: &mut Vec<Wave>,
) -> Result<(), Memory>
    requires positive { 0 < n }
    requires within { n ≤ ORDER_LIMIT }
    requires wave { IsSummand n wave.now }
    requires arms { All (λ a. IsSummand n a.wave) arms.now }
    ensures { OnOk result ((made : List Wave) × (sums.new.items ≡ sums.old.items ++ made)
        × AreRowSums group.now wave.now arms.now made) }
{
    for arm in arms {
        sums.push(sum(group, n, wave, &arm.wave))?;
    }
    Ok(())
}

// The sum of two wave vectors whose denominators divide n, reduced.
fn sum(group: &Group, n: u32, a: &Wave, b: &Wave) -> Wave
    requires positive { 0 < n }
    requires within { n ≤ ORDER_LIMIT }
    requires first { IsSummand n a.now }
    requires second { IsSummand n b.now }
    ensures { IsSumOf group.now a.now b.now result }
{
    let vector = Vec3::new(numerators(n, a, b), n);
    let num = vector.num;
    let den = vector.den;
    reduced(group.centrings(), &Wave { num, den })
}

// The numerators of the sum over n.
fn numerators(n: u32, a: &Wave, b: &Wave) -> [i64; 3]
    requires within { n ≤ ORDER_LIMIT }
    requires first { IsSummand n a.now }
    requires second { IsSummand n b.now }
    ensures value { (i : Fin 3) → entry result i ≡ (entry a.now.num i *ℤ pos (n / a.now.den))
        +ℤ (entry b.now.num i *ℤ pos (n / b.now.den)) }
    ensures small { (i : Fin 3) → unsigned_abs (entry result i) ≤ 10 ^ 12 }
{
    over_common(&a.num, n / a.den, &b.num, n / b.den)
}

// The sums of the multiples by two factors.
fn over_common(a: &[i64; 3], p: u32, b: &[i64; 3], q: u32) -> [i64; 3]
    requires first { (i : Fin 3) → unsigned_abs (entry a.now i) ≤ 10 ^ 6 }
    requires second { (i : Fin 3) → unsigned_abs (entry b.now i) ≤ 10 ^ 6 }
    requires factors { (p ≤ ORDER_LIMIT) × (q ≤ ORDER_LIMIT) }
    ensures value { (i : Fin 3) → entry result i ≡ (entry a.now i *ℤ pos p) +ℤ (entry b.now i *ℤ pos q) }
    ensures small { (i : Fin 3) → unsigned_abs (entry result i) ≤ 10 ^ 12 }
{
    [
        numerator(a[0], p, b[0], q),
        numerator(a[1], p, b[1], q),
        numerator(a[2], p, b[2], q),
    ]
}

fn numerator(x: i64, p: u32, y: i64, q: u32) -> i64
    requires first { unsigned_abs x ≤ 10 ^ 6 }
    requires second { unsigned_abs y ≤ 10 ^ 6 }
    requires factors { (p ≤ ORDER_LIMIT) × (q ≤ ORDER_LIMIT) }
    ensures value { result ≡ (x *ℤ pos p) +ℤ (y *ℤ pos q) }
    ensures small { unsigned_abs result ≤ 10 ^ 12 }
{
    multiple(x, p) + multiple(y, q)
}

fn multiple(number: i64, factor: u32) -> i64
    requires small { unsigned_abs number ≤ 10 ^ 6 }
    requires factor { factor ≤ ORDER_LIMIT }
    ensures value { result ≡ number *ℤ pos factor }
    ensures small { unsigned_abs result ≤ 10 ^ 11 }
{
    number * i64::from(factor)
}
