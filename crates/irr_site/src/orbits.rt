// The sites of a point.
ghost use Rattle.std.specs.Prelude.{ℕ, ◌≡◌, ◌<◌, All, Contains, IfOk, IsTrue, false, length};
ghost use Rattle.irr_space.specs.Operation.{Vector};
ghost use Rattle.irr_rat.specs.VectorMeaning.{vector};
ghost use Rattle.irr_site.specs.Orbits.{AreSiteNumbers, AreSitePoints};
ghost use Rattle.irr_site.specs.Points.{AreSitePlaces, IsPoint};
ghost use Rattle.irr_site.specs.Products.{AreProducts, IsRotationProduct};

use crate::coordinates::image_of;
use crate::products::read;
use irr_close::Group;
use irr_memory::Memory;
use irr_rat::Vec3;
use std::alloc::Global;

// Whether the rotation with the number j is that of i times one of the site group.
fn is_reached(group: &Group, products: &[u32], places: &[u32], i: usize, j: usize) -> bool
    requires products { AreProducts group.now products.now }
    requires places { All (λ p. p < length group.now.ops.items) places.now }
    requires left { i < length group.now.ops.items }
    requires right { j < length group.now.ops.items }
    ensures reached { IsTrue result → (b : ℕ) × Contains places.now b × IsRotationProduct group.now i b j }
    ensures apart { result ≡ false
        → (b : ℕ) → Contains places.now b → IsRotationProduct group.now i b j → ⊥ }
{
    for &place in places {
        if read(group, products, i, place as usize) == j {
            return true;
        }
    }
    false
}

// Whether no earlier operation carries the point to where that with the number j does, modulo translations.
fn is_first(group: &Group, products: &[u32], places: &[u32], j: usize) -> bool
    requires products { AreProducts group.now products.now }
    requires places { All (λ p. p < length group.now.ops.items) places.now }
    requires place { j < length group.now.ops.items }
    ensures first { IsTrue result → (i b : ℕ) → i < j → Contains places.now b
        → IsRotationProduct group.now i b j → ⊥ }
    ensures later { result ≡ false → (i b : ℕ) × (i < j) × Contains places.now b
        × IsRotationProduct group.now i b j }
{
    for i in 0..j {
        if is_reached(group, products, places, i, j) {
            return false;
        }
    }
    true
}

/// The numbers of the operations that carry a point to its sites, from the products of rotations and the numbers of
/// its site group. The error is want of memory.
pub(crate) fn site_numbers(
    alloc: Global,
    group: &Group,
    products: &[u32],
    places: &[u32],
) -> Result<Vec<u32>, Memory>
    requires products { AreProducts group.now products.now }
    requires places { (x : Vector) × AreSitePlaces group.now x places.now }
    ensures { (x : Vector) → AreSitePlaces group.now x places.now
        → IfOk result (λ sites. AreSiteNumbers group.now x sites.items) }
{
    let mut sites = Vec::new(alloc);
    for j in 0..group.ops().len() {
        if is_first(group, products, places, j) {
            sites.push(j as u32)?;
        }
    }
    Ok(sites)
}

/// The sites of a point, each brought into the unit cell. The error is want of memory.
pub(crate) fn site_points(
    alloc: Global,
    group: &Group,
    x: &Vec3,
    sites: &[u32],
) -> Result<Vec<Vec3>, Memory>
    requires point { IsPoint x.now }
    requires sites { All (λ p. p < length group.now.ops.items) sites.now }
    ensures { IfOk result (λ points. AreSitePoints group.now (vector x.now) sites.now points.items) }
{
    let ops = group.ops();
    let mut points = Vec::new(alloc);
    for &site in sites {
        points.push(image_of(&ops[site as usize], x).reduce())?;
    }
    Ok(points)
}
