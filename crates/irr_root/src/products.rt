// The sums of a character that are products of traces of an extension.
ghost use Rattle.std.specs.Prelude.{ℕ, ◌≡◌, ◌<◌, ◌≤◌, ◌+◌, ◌*◌, ◌/◌, ◌⊎◌, length, map, slice_index, slice_index_or, All, IfOk};
ghost use Rattle.std.specs.Int.{◌∣◌};
ghost use Rattle.irr_algebra.specs.Fin.{Fin, to_nat};
ghost use Rattle.irr_number.specs.Number.{Number, numbers, root_power};
ghost use Rattle.irr_theory.specs.Lifted.{Lifted};
ghost use Rattle.irr_clifford.specs.Subgroup.{Subgroup};
ghost use Rattle.irr_space.specs.PhaseTable.{phases_over};
ghost use Rattle.irr_rep.specs.Twisted.{phase_table, place_count};
ghost use Rattle.irr_char.specs.Characters.{IsRowOf, IsSmallRow};
ghost use Rattle.irr_root.specs.ProductSum.{IsProductSum};
ghost use Rattle.irr_root.specs.RootSums.{IsSmall};
ghost use Rattle.irr_root.specs.Sandwiches.{IsTurned, sandwich_sum as listed_sum, sandwich_sums as listed_sums};

use crate::eigenvalues::phase;
use crate::sandwich::sandwich;
use crate::turned::Turned;
use irr_cyc::{Order, Scalar};
use irr_memory::Memory;
use irr_rep::Twisted;
use std::alloc::Global;

// A sum, and the power of z beside a place times the character at the place's position.
fn with_value<S: Scalar>(
    alloc: Global,
    t: &Twisted,
    order: &Order,
    positions: &[u32],
    character: &[S],
    sum: S,
    x: Turned,
) -> Result<S, Memory>
    requires admitted { S.admits order.now.n }
    requires divides { (phase_table t.now).order ∣ order.now.n }
    requires row { IsSmallRow S.order_of S.value order.now.n (length character.now) character.now }
    requires positions { All (λ k. k < length character.now) positions.now }
    requires sum { IsSmall S.order_of S.value order.now.n 2304 sum }
    requires place { x.place < length positions.now }
    ensures small { let n = order.now.n in (s : ℕ) → IsSmall S.order_of S.value n s sum → IfOk result (IsSmall S.order_of S.value n (s + 48)) }
    ensures value { let n = order.now.n in IfOk result (λ r. S.value n r ≡ (numbers n).add (S.value n sum)
        ((numbers n).mul (root_power n (x.exponent * (n / (phase_table t.now).order)))
        (slice_index_or (map (S.value n) character.now) (slice_index positions.now x.place) (numbers n).zero))) }
{
    let value = &character[positions[x.place as usize] as usize];
    if value.is_zero() {
        return Ok(sum);
    }
    if x.exponent == 0 {
        let more = sum.add(alloc, value)?;
        return Ok(more);
    }
    let turn: S = phase(alloc, t, order, x.exponent)?;
    let product = turn.mul(alloc, value)?;
    let more = sum.add(alloc, &product)?;
    Ok(more)
}

// The values at the x n y n^-1, added up over the members n.
fn sandwich_sum<S: Scalar>(
    alloc: Global,
    t: &Twisted,
    order: &Order,
    members: &[u32],
    positions: &[u32],
    character: &[S],
    x: Turned,
    y: Turned,
) -> Result<S, Memory>
    requires admitted { S.admits order.now.n }
    requires divides { (phase_table t.now).order ∣ order.now.n }
    requires row { IsSmallRow S.order_of S.value order.now.n (length character.now) character.now }
    requires members { All (λ a. a < place_count t.now) members.now }
    requires few { length members.now ≤ 48 }
    requires positions { All (λ k. k < length character.now) positions.now }
    requires all_placed { length positions.now ≡ place_count t.now }
    requires left { x.place < place_count t.now }
    requires left_exponent { x.exponent < (phase_table t.now).order }
    requires right { y.place < place_count t.now }
    requires right_exponent { y.exponent < (phase_table t.now).order }
    ensures small { IfOk result (IsSmall S.order_of S.value order.now.n 2304) }
    ensures sum { let n = order.now.n in (v : (phase_table t.now).order ∣ n) (a b : Lifted (phases_over (phase_table t.now) n v))
        → IsTurned (phase_table t.now) n v x.place x.exponent a → IsTurned (phase_table t.now) n v y.place y.exponent b
        → IfOk result (λ c. S.value n c ≡ listed_sum (phase_table t.now) n v members.now positions.now (map (S.value n) character.now) a b) }
{
    let mut sum = S::zero(alloc, order)?;
    for k in 0..members.len() {
        let z = sandwich(t, x, members[k], y);
        sum = with_value(alloc, t, order, positions, character, sum, z)?;
    }
    Ok(sum)
}

// The values at the x j (y i y i^-1) j^-1, added up over the members i and j.
fn sandwich_sums<S: Scalar>(
    alloc: Global,
    t: &Twisted,
    order: &Order,
    members: &[u32],
    positions: &[u32],
    character: &[S],
    x: Turned,
    y: Turned,
) -> Result<S, Memory>
    requires admitted { S.admits order.now.n }
    requires divides { (phase_table t.now).order ∣ order.now.n }
    requires row { IsSmallRow S.order_of S.value order.now.n (length character.now) character.now }
    requires members { All (λ a. a < place_count t.now) members.now }
    requires few { length members.now ≤ 48 }
    requires positions { All (λ k. k < length character.now) positions.now }
    requires all_placed { length positions.now ≡ place_count t.now }
    requires left { x.place < place_count t.now }
    requires left_exponent { x.exponent < (phase_table t.now).order }
    requires right { y.place < place_count t.now }
    requires right_exponent { y.exponent < (phase_table t.now).order }
    ensures small { IfOk result (IsSmall S.order_of S.value order.now.n 110592) }
    ensures sum { let n = order.now.n in (v : (phase_table t.now).order ∣ n) (a b : Lifted (phases_over (phase_table t.now) n v))
        → IsTurned (phase_table t.now) n v x.place x.exponent a → IsTurned (phase_table t.now) n v y.place y.exponent b
        → IfOk result (λ c. S.value n c ≡ listed_sums (phase_table t.now) n v members.now positions.now (map (S.value n) character.now) a b) }
{
    let mut sum = S::zero(alloc, order)?;
    for k in 0..members.len() {
        let z = sandwich(t, y, members[k], y);
        let next = sandwich_sum(alloc, t, order, members, positions, character, x, z)?;
        sum = sum.add(alloc, &next)?;
    }
    Ok(sum)
}

/// The sum of a character that is the product of the traces at x and y of each extension for p = 2, and that of the
/// traces at x, y and y for p = 3, up to whole numbers. The members of the subgroup are places of t, whose positions
/// among them are listed; the character has its values by member.
pub(crate) fn product_sum<S: Scalar>(
    alloc: Global,
    t: &Twisted,
    p: u32,
    members: &[u32],
    positions: &[u32],
    character: &[S],
    x: u32,
    y: u32,
) -> Result<S, Memory>
    requires two_or_three { (p ≡ 2) ⊎ (p ≡ 3) }
    requires row { (n : ℕ) × ((phase_table t.now).order ∣ n) × IsSmallRow S.order_of S.value n (length members.now) character.now }
    requires members { All (λ a. a < place_count t.now) members.now }
    requires not_empty { 0 < length members.now }
    requires few { length members.now ≤ 48 }
    requires positions { All (λ k. k < length members.now) positions.now }
    requires all_placed { length positions.now ≡ place_count t.now }
    requires left { x < place_count t.now }
    requires right { y < place_count t.now }
    ensures small { (n : ℕ) → IsSmallRow S.order_of S.value n (length members.now) character.now → IfOk result (IsSmall S.order_of S.value n 110592) }
    ensures sum { (M : ℕ) (v : (phase_table t.now).order ∣ M) (H : Subgroup (phases_over (phase_table t.now) M v))
        → H.table.places ≡ length members.now → ((i : Fin H.table.places) → slice_index members.now (to_nat i) ≡ to_nat (H.member i))
        → (position : Fin (place_count t.now) → Fin H.table.places)
        → ((a : Fin (place_count t.now)) → slice_index positions.now (to_nat a) ≡ to_nat (position a))
        → (f : Fin H.table.places → Number M) → IsRowOf S.order_of S.value M f character.now
        → (a b : Fin (place_count t.now)) → to_nat a ≡ x → to_nat b ≡ y
        → IfOk result (λ c. IsProductSum H p f position a b (S.value M c)) }
{
    let order = Order::new(alloc, character[0].order())?;
    let left = Turned {
        place: x,
        exponent: 0,
    };
    let right = Turned {
        place: y,
        exponent: 0,
    };
    if p == 2 {
        sandwich_sum(alloc, t, &order, members, positions, character, left, right)
    } else {
        sandwich_sums(alloc, t, &order, members, positions, character, left, right)
    }
}
