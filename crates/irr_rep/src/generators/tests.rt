use super::*;
use crate::table::tests::{screw_axis, three_screw_axes};
use std::test::Fail;

// The third screw axis is the product of the others.
#[test]
fn as_few_generators_as_screw_axes_that_are_no_product(rt: HostRuntime) -> Result<(), Fail> {
    let one = screw_axis(rt.alloc())?;
    assert!(rt; generators(rt.alloc(), &one)?.as_slice() == [1].as_slice());
    let three = three_screw_axes(rt.alloc())?;
    assert!(rt; generators(rt.alloc(), &three)?.as_slice() == [1, 2].as_slice());
    Ok(())
}
