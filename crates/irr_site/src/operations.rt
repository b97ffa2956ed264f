// The operations of a site group.
ghost use Rattle.std.specs.Prelude.{◌<◌, ◌↔◌, List, All, IfOk, IsTrue, length};
ghost use Rattle.irr_rat.specs.VectorMeaning.{vector};
ghost use Rattle.irr_site.specs.Points.{AreFixing, AreSitePlaces, IsPoint, IsSitePlace};

use crate::coordinates::fixing_op;
use irr_close::Group;
use irr_memory::Memory;
use irr_rat::Vec3;
use irr_seitz::Op;
use std::alloc::Global;

// Whether an operation of the group with this rotation fixes a point.
fn fixes(group: &Group, place: usize, x: &Vec3) -> bool
    requires place { place < length group.now.ops.items }
    requires point { IsPoint x.now }
    ensures { IsTrue result ↔ IsSitePlace group.now (vector x.now) place }
{
    let ops = group.ops();
    group.contains(&fixing_op(&ops[place], x))
}

/// The numbers, among `Group::ops`, of the operations whose rotations the site group of a point has, in increasing
/// order. The error is want of memory.
pub(crate) fn site_places(alloc: Global, group: &Group, x: &Vec3) -> Result<Vec<u32>, Memory>
    requires { IsPoint x.now }
    ensures { IfOk result (λ places. AreSitePlaces group.now (vector x.now) places.items) }
{
    let mut places = Vec::new(alloc);
    for place in 0..group.ops().len() {
        if fixes(group, place, x) {
            places.push(place as u32)?;
        }
    }
    Ok(places)
}

/// The operations with the rotations of these numbers that fix a point. The error is want of memory.
pub(crate) fn site_ops(
    alloc: Global,
    group: &Group,
    x: &Vec3,
    places: &[u32],
) -> Result<Vec<Op>, Memory>
    requires point { IsPoint x.now }
    requires places { All (λ p. p < length group.now.ops.items) places.now }
    ensures { IfOk result (λ ops. AreFixing group.now (vector x.now) places.now ops.items) }
{
    let ops = group.ops();
    let mut fixing = Vec::new(alloc);
    for &place in places {
        fixing.push(fixing_op(&ops[place as usize], x))?;
    }
    Ok(fixing)
}
