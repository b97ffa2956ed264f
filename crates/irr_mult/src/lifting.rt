// Characters over the numbers of a multiple of their order.
ghost use Rattle.std.specs.Prelude.{ℕ, ◌≡◌, ◌<◌, ◌≤◌, IfOk};
ghost use Rattle.std.specs.Int.{◌∣◌};
ghost use Rattle.irr_algebra.specs.Fin.{Fin};
ghost use Rattle.irr_number.specs.Number.{Number};
ghost use Rattle.irr_number.specs.Lift.{lift};
ghost use Rattle.irr_theory.specs.FactorSystem.{Representation};
ghost use Rattle.irr_space.specs.PhaseTable.{PhaseTable, phases_at};
ghost use Rattle.irr_char.specs.Characters.{IsRowOf, IsSmallRow};
ghost use Rattle.irr_climb.specs.Families.{IsRead};
ghost use Rattle.irr_climb.specs.Sizes.{IsSized};
ghost use Rattle.irr_mult.specs.StarParts.{IsCharacterOf};

use crate::star::SmallCharacter;
use irr_char::character;
use irr_cyc::{Lift, Order};
use irr_memory::Memory;
use irr_rep::Family;
use std::alloc::Global;

// The numbers of a row, as numbers of a multiple of their order.
fn lifted<S: Lift>(alloc: Global, order: &Order, row: &[S]) -> Result<Vec<S>, Memory>
    requires { (n h : ℕ) × (n ∣ order.now.n) × IsSmallRow S.order_of S.value n h row.now }
    ensures { (n h : ℕ) (f : Fin h → Number n) (p : 0 < n) (v : n ∣ order.now.n)
        → IsRowOf {h = h} S.order_of S.value n f row.now
        → IfOk result (λ xs.
        IsRowOf {h = h} S.order_of S.value order.now.n (λ i. (lift n order.now.n p v).map (f i)) xs.items) }
{
    let mut made = Vec::new(alloc);
    for x in row {
        let number = x.lift(alloc, order)?;
        made.push(number)?;
    }
    Ok(made)
}

/// The character of a small representation of a table of at most 48 places, over the numbers of a multiple of its order.
/// The error is want of memory.
pub(crate) fn small_character<S: Lift>(
    alloc: Global,
    order: &Order,
    f: &Family<S>,
) -> Result<SmallCharacter<S>, Memory>
    requires { (h : ℕ) × (T : PhaseTable h) × (h ≤ 48) × (T.order ∣ order.now.n) × (d : ℕ)
        × (D : Representation (phases_at T) d) × (d ≤ 48)
        × IsRead T.order (phases_at T) D f.now × IsSized T.order h f.now }
    ensures { (h : ℕ) (T : PhaseTable h) (v : T.order ∣ order.now.n) (d : ℕ) (D : Representation (phases_at T) d)
        → IsRead T.order (phases_at T) D f.now → IfOk result (IsCharacterOf S.order_of S.value T order.now.n v D) }
{
    let row = character(alloc, f)?;
    let numbers = lifted(alloc, order, row.as_slice())?;
    Ok(SmallCharacter {
        dim: f.dim,
        row: numbers,
    })
}
