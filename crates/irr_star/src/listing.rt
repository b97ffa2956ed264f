// The products of the operations of the arms with those of the little group.
ghost use Rattle.std.specs.Prelude.{ℕ, ◌≡◌, ◌<◌, IfOk, length};
ghost use Rattle.irr_space.specs.Operation.{WaveVector};
ghost use Rattle.irr_seitz.specs.PhaseMeaning.{sign_of};
ghost use Rattle.irr_rep.specs.Twisted.{place_count};
ghost use Rattle.irr_close.specs.StandsFor.{stands_for};
ghost use Rattle.irr_full.specs.Star.{Star};
ghost use Rattle.irr_star.specs.Stars.{IsStarOf};
ghost use Rattle.irr_star.specs.Products.{AreProducts, IsProductOf};

use crate::lists::Product;
use irr_close::Group;
use irr_little::Arm;
use irr_memory::Memory;
use irr_rep::Twisted;
use std::alloc::Global;

// The product of the operation of the arm i and that of the place p.
fn product(group: &Group, arms: &[Arm], t: &Twisted, i: u32, p: u32) -> Product
    requires star { (k : WaveVector) × (U : Star (sign_of group.now.phase) (stands_for group.now) k)
        × IsStarOf group.now arms.now t.now U }
    requires arm { i < length arms.now }
    requires place { p < place_count t.now }
    ensures arm { result.arm ≡ i }
    ensures place { result.place ≡ p }
    ensures product { (k : WaveVector) (U : Star (sign_of group.now.phase) (stands_for group.now) k)
        → IsStarOf group.now arms.now t.now U
        → IsProductOf U result }
{
    let ops = group.ops();
    let number = arms[i as usize].op;
    let inner = t.place(p);
    let op = ops[number as usize].compose(&ops[inner as usize]);
    Product {
        arm: i,
        place: p,
        op,
    }
}

/// The products, arm by arm. The error is want of memory.
pub(crate) fn products(
    alloc: Global,
    group: &Group,
    arms: &[Arm],
    t: &Twisted,
) -> Result<Vec<Product>, Memory>
    requires star { (k : WaveVector) × (U : Star (sign_of group.now.phase) (stands_for group.now) k)
        × IsStarOf group.now arms.now t.now U }
    ensures { (k : WaveVector) (U : Star (sign_of group.now.phase) (stands_for group.now) k)
        → IsStarOf group.now arms.now t.now U
        → IfOk result (λ ps. AreProducts U ps.items) }
{
    let mut products = Vec::new(alloc);
    for i in 0..arms.len() as u32 {
        for p in 0..t.len() {
            products.push(product(group, arms, t, i, p))?;
        }
    }
    Ok(products)
}
