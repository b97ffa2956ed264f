// Characters read at the first point of a line.
ghost use Rattle.std.specs.Prelude.{ℕ, ◌≡◌, ◌<◌, ◌≤◌, ◌^◌, IfOk};
ghost use Rattle.std.specs.List.{All};
ghost use Rattle.irr_algebra.specs.Fin.{Fin};
ghost use Rattle.irr_number.specs.Number.{Number, numbers, root_power};
ghost use Rattle.irr_canonical.specs.Coefficient.{denominator, size};
ghost use Rattle.irr_char.specs.Characters.{IsRowOf, IsSmallRow};
ghost use Rattle.irr_compat.specs.Readings.{AreTurnedBy};

use crate::turns::Turn;
use irr_cyc::{Order, Scalar};
use irr_memory::Memory;
use std::alloc::Global;

/// The numbers of a row at the places of turns, each times z to the exponent of its turn. The error is want of memory.
pub(crate) fn read_row<S: Scalar>(
    alloc: Global,
    order: &Order,
    turns: &[Turn],
    row: &[S],
) -> Result<Vec<S>, Memory>
    requires { (h : ℕ) × IsSmallRow S.order_of S.value order.now.n h row.now
        × All (λ t. t.place < h) turns.now × All (λ t. t.exponent < order.now.n) turns.now }
    ensures { (h m : ℕ) (f : Fin h → Number order.now.n) (g : Fin m → Number order.now.n)
        → IsRowOf {h = h} S.order_of S.value order.now.n f row.now → AreTurnedBy order.now.n turns.now f g
        → IfOk result (λ xs. IsRowOf {h = m} S.order_of S.value order.now.n g xs.items) }
{
    let mut made = Vec::new(alloc);
    for turn in turns {
        let number = turned(alloc, order, turn.exponent, &row[turn.place as usize])?;
        made.push(number)?;
    }
    Ok(made)
}

// A power of z times a number.
fn turned<S: Scalar>(alloc: Global, order: &Order, e: u32, x: &S) -> Result<S, Memory>
    requires order { S.order_of x.now ≡ order.now.n }
    requires below { e < order.now.n }
    requires denominator { let n = order.now.n in denominator n (S.value n x.now) ≤ 2 ^ 60 }
    requires size { let n = order.now.n in size n (S.value n x.now) ≤ 2 ^ 80 }
    ensures order { IfOk result (λ y. S.order_of y ≡ order.now.n) }
    ensures value { IfOk result (λ y. let n = order.now.n in S.value n y ≡ (numbers n).mul (root_power n e)
        (S.value n x.now)) }
{
    if e == 0 {
        let same = x.copy(alloc)?;
        return Ok(same);
    }
    let root = S::root(alloc, order, e)?;
    let turned = root.mul(alloc, x)?;
    Ok(turned)
}
