// The full representation that a small one induces.
ghost use Rattle.std.specs.Prelude.{ℕ, ◌≡◌, IfOk};
ghost use Rattle.std.specs.Int.{◌∣◌};
ghost use Rattle.std.specs.List.{All};
ghost use Rattle.irr_space.specs.Operation.{WaveVector};
ghost use Rattle.irr_space.specs.PhaseTable.{phases_over};
ghost use Rattle.irr_theory.specs.FactorSystem.{Representation};
ghost use Rattle.irr_seitz.specs.PhaseMeaning.{sign_of};
ghost use Rattle.irr_kvec.specs.Centrings.{IsWithinLimits};
ghost use Rattle.irr_close.specs.StandsFor.{stands_for};
ghost use Rattle.irr_full.specs.Star.{Star};
ghost use Rattle.irr_star.specs.Stars.{IsStarOf};
ghost use Rattle.irr_star.specs.Sizes.{IsSmallFamily};
ghost use Rattle.irr_star.specs.Induced.{IsInduced};

use crate::copies;
use crate::full::Full;
use crate::listing::products;
use irr_close::Group;
use irr_cyc::{Order, Scalar};
use irr_little::Arms;
use irr_memory::Memory;
use irr_rep::{Family, Twisted};
use std::alloc::Global;

/// The full representation that a small one induces (Bradley and Cracknell, sections 3.7 and 3.8): `star` and `t` are the
/// star and the table of the little group of one wave vector of the group, and `f` a small representation of t of at
/// most 48 rows, over an order that the order of t divides. The error is want of memory.
pub fn induce<S: Scalar>(
    alloc: Global,
    group: &Group,
    star: &Arms,
    t: &Twisted,
    f: &Family<S>,
) -> Result<Full<S>, Memory>
    requires small { (k : WaveVector) × (U : Star (sign_of group.now.phase) (stands_for group.now) k) × (M : ℕ)
        × (v : U.table.order ∣ M)
        × (d : ℕ) × (D : Representation (phases_over U.table M v) d) × IsStarOf group.now star.now.arms.items t.now U
        × IsSmallFamily M D.at f.now }
    requires limits { All (λ a. IsWithinLimits a.wave) star.now.arms.items }
    ensures { (k : WaveVector) (U : Star (sign_of group.now.phase) (stands_for group.now) k)
        (M : ℕ) (v : U.table.order ∣ M)
        (d : ℕ) (D : Representation (phases_over U.table M v) d) → IsStarOf group.now star.now.arms.items t.now U
        → IsSmallFamily M D.at f.now
        → IfOk result (IsInduced group.now U M v D) }
{
    let order = Order::new(alloc, f.mats[0].at(0, 0).order())?;
    let products = products(alloc, group, &star.arms, t)?;
    let arms = Vec::from_slice(alloc, &star.arms)?;
    let family = copies::family(alloc, f)?;
    let group = group.copy(alloc)?;
    Ok(Full {
        group,
        order,
        arms,
        products,
        family,
    })
}
