ghost use Rattle.std.specs.Prelude.{◌≡◌, [], ◌∷◌, length, IfOk};
ghost use Rattle.irr_chain.specs.Series.{IsSeries};
ghost use Rattle.irr_rep.specs.Twisted.{phase_table};
ghost use Rattle.irr_root.specs.RootSums.{AreSmall, IsSmall};

use super::*;
use crate::powers::tests::screw_axis;
use irr_chain::{Level, chain};
use irr_cyc::Dense;
use irr_mat::Mat;
use std::test::Fail;

// The traces of an extension of the family of one unit matrix on the unit, where the chain has one level.
fn unit_extension<S: Scalar>(
    alloc: Global,
    order: &Order,
    t: &Twisted,
    levels: &[Level],
) -> Result<Vec<S>, Memory>
    requires admitted { S.admits order.now.n }
    requires order { order.now.n ≡ (phase_table t.now).order }
    requires series { IsSeries (phase_table t.now) (0 ∷ []) levels.now }
    requires one { length levels.now ≡ 1 }
    ensures { IfOk result (λ xs. AreSmall S.order_of S.value order.now.n 1 xs.items) }
{
    let level = &levels[0];
    let members = level.members.as_slice();
    let inner = t.restrict(alloc, members)?;
    let unit = Mat::unit(alloc, order, 1)?;
    let mut mats = Vec::new(alloc);
    mats.push(unit)?;
    let family = Family { dim: 1, mats };
    let traces = choose(alloc, t, &inner, members, level.p, level.g, &family)?;
    Ok(traces)
}

// Whether a number is z or -z = z^3, for z of the order 4.
fn is_imaginary_unit<S: Scalar>(alloc: Global, order: &Order, x: &S) -> Result<bool, Memory>
    requires admitted { S.admits order.now.n }
    requires order { order.now.n ≡ 4 }
    requires small { IsSmall S.order_of S.value order.now.n 1 x.now }
{
    let root = S::root(alloc, order, 1)?;
    if x.equal(&root) {
        return Ok(true);
    }
    let opposite = S::root(alloc, order, 3)?;
    Ok(x.equal(&opposite))
}

// Whether the extension has one trace, and that is z or -z.
fn extends_by_imaginary_unit<S: Scalar>(
    alloc: Global,
    order: &Order,
    t: &Twisted,
    levels: &[Level],
) -> Result<bool, Memory>
    requires admitted { S.admits order.now.n }
    requires four { order.now.n ≡ 4 }
    requires order { order.now.n ≡ (phase_table t.now).order }
    requires series { IsSeries (phase_table t.now) (0 ∷ []) levels.now }
{
    if levels.len() != 1 {
        return Ok(false);
    }
    let traces: Vec<S> = unit_extension(alloc, order, t, levels)?;
    let list = traces.as_slice();
    if list.len() != 1 {
        return Ok(false);
    }
    is_imaginary_unit(alloc, order, &list[0])
}

// The one level of the screw's group has the unit alone, whose family of one unit matrix extends by z or -z at the
// screw.
#[test]
fn extension_to_a_screw(rt: HostRuntime) -> Result<(), Fail> {
    let t = screw_axis(rt.alloc())?;
    let order = Order::new(rt.alloc(), t.order())?;
    let series = chain(rt.alloc(), &t)?;
    let levels = series.levels.as_slice();
    assert!(rt; extends_by_imaginary_unit::<Dense>(rt.alloc(), &order, &t, levels)?);
    Ok(())
}
