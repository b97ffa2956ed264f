// Lists of families: their characters, and the list of the table of one place.
ghost use Rattle.std.specs.Prelude.{ℕ, ◌≡◌, ◌<◌, ◌≤◌, ◌∷◌, [], List, map, length, IfOk, All};
ghost use Rattle.irr_number.specs.Number.{numbers};
ghost use Rattle.irr_theory.specs.FactorSystem.{FactorSystem};
ghost use Rattle.irr_theory.specs.Representations.{IsFull, Representations};
ghost use Rattle.irr_space.specs.PhaseTable.{PhaseTable};
ghost use Rattle.irr_climb.specs.Families.{AreRead, AreRows};
ghost use Rattle.irr_climb.specs.Lists.{IsFullOn};
ghost use Rattle.irr_climb.specs.Sizes.{AreSized};

use irr_char::character;
use irr_cyc::{Order, Scalar};
use irr_mat::Mat;
use irr_memory::Memory;
use irr_rep::Family;
use std::alloc::Global;

/// The characters of families on at most 48 places. The error is want of memory.
pub(crate) fn characters<S: Scalar>(
    alloc: Global,
    families: &[Family<S>],
) -> Result<Vec<Vec<S>>, Memory>
    requires { (M : ℕ) × (P : FactorSystem (numbers M)) × (L : Representations P) × IsFull L × AreRead M P L families.now
        × AreSized M P.places families.now × (P.places ≤ 48) }
    ensures { (M : ℕ) (P : FactorSystem (numbers M)) (L : Representations P) → AreRead M P L families.now
        → IfOk result (λ rows. AreRows S.order_of S.value M P L (map (λ row. row.items) rows.items)) }
{
    let mut rows = Vec::new(alloc);
    for family in families {
        let row = character(alloc, family)?;
        rows.push(row)?;
    }
    Ok(rows)
}

/// The list of the subgroup of the unit alone: one family of one row. The error is want of memory.
pub(crate) fn unit_families<S: Scalar>(
    alloc: Global,
    order: &Order,
) -> Result<Vec<Family<S>>, Memory>
    requires { S.admits order.now.n }
    ensures { (h : ℕ) (T : PhaseTable h) → IfOk result (λ fs. IsFullOn T order.now.n (0 ∷ []) fs.items) }
{
    let unit = Mat::unit(alloc, order, 1)?;
    let mut mats = Vec::new(alloc);
    mats.push(unit)?;
    let mut families = Vec::new(alloc);
    families.push(Family { dim: 1, mats })?;
    Ok(families)
}
