// The numbers of the rotations of products.
ghost use Rattle.std.specs.Prelude.{◌≡◌, ◌<◌, IfOk, length};
ghost use Rattle.irr_seitz.specs.OperationMeaning.{operation, AreWithin};
ghost use Rattle.irr_site.specs.Products.{AreProducts, IsRotationProduct};

use irr_close::Group;
use irr_memory::Memory;
use irr_seitz::Op;
use std::alloc::Global;

// The rotation of an operation, with the vector 0.
fn bare(op: &Op) -> Op
    ensures rotation { (operation result).rotation ≡ (operation op.now).rotation }
    ensures numerators { AreWithin 0 result.num }
    ensures denominator { result.den ≡ 1 }
{
    let rot = op.rot;
    Op {
        rot,
        num: [0, 0, 0],
        den: 1,
    }
}

// The number, in `Group::ops`, of the operation whose rotation is a product of two.
fn product_number(group: &Group, i: usize, j: usize) -> u32
    requires left { i < length group.now.ops.items }
    requires right { j < length group.now.ops.items }
    ensures { IsRotationProduct group.now i j result }
{
    let ops = group.ops();
    let both = bare(&ops[i]).compose(&bare(&ops[j]));
    group.canonical(&both.rot).unwrap()
}

/// The numbers of the products of all rotations of a group, row by row. The error is want of memory.
pub(crate) fn products(alloc: Global, group: &Group) -> Result<Vec<u32>, Memory>
    ensures { IfOk result (λ xs. AreProducts group.now xs.items) }
{
    let mut numbers = Vec::new(alloc);
    let count = group.ops().len();
    for i in 0..count {
        for j in 0..count {
            let number = product_number(group, i, j);
            numbers.push(number)?;
        }
    }
    Ok(numbers)
}

/// The number of the product of the rotations with the numbers i and j, read of these.
pub(crate) fn read(group: &Group, products: &[u32], i: usize, j: usize) -> usize
    requires products { AreProducts group.now products.now }
    requires left { i < length group.now.ops.items }
    requires right { j < length group.now.ops.items }
    ensures { IsRotationProduct group.now i j result }
{
    products[i * group.ops().len() + j] as usize
}
