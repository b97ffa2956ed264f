use super::*;
use std::test::Fail;

// The exponents 1, 4 and 7, twice, not at all and once.
#[test]
fn repeated_exponents(rt: HostRuntime) -> Result<(), Fail> {
    let exponents = repeated(rt.alloc(), 1, 3, &[2, 0, 1])?;
    assert!(rt; exponents.as_slice() == [1, 1, 7].as_slice());
    Ok(())
}
