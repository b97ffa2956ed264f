// Direct products, as they are written.
use super::*;

// Two arms each: the sums are 1/4,0,0 and its opposite, and 0,0,0 twice.
const INVERSION_PRODUCTS: &str =
    "product 1\norder 16\nwaves 1/8,0,0 1/8,0,0\npair S1 S1 dim 4\npart 0,0,0 S1 1 1\n\
    part 0,0,0 S2 1 1\npart 1/4,0,0 S1 1 2\nend\n";

// The orders of the sums divide that of both.
const MESH_PRODUCTS: &str =
    "product 1\norder 1920\nwaves 1/60,0,0 1/64,0,0\npair S1 S1 dim 4\npart 1/960,0,0 S1 1 2\n\
    part 31/960,0,0 S1 1 2\nend\n";

// The screw is i or -i, and its square -1.
const SCREW_PRODUCTS: &str =
    "product 1\norder 4\nwaves 0,1/2,0 0,1/2,0\npair S1 S1 dim 1\npart 0,0,0 S2 1 1\n\
    pair S1 S2 dim 1\npart 0,0,0 S1 1 1\npair S2 S1 dim 1\npart 0,0,0 S1 1 1\n\
    pair S2 S2 dim 1\npart 0,0,0 S2 1 1\nend\n";

// The wave vectors add up to one of the reciprocal lattice.
const TRANSLATION_PRODUCTS: &str =
    "product 1\norder 30\nwaves 1/2,1/3,1/5 1/2,2/3,4/5\npair S1 S1 dim 1\npart 0,0,0 S1 1 1\nend\n";

#[test]
fn direct_products_are_written_whole(rt: HostRuntime) -> Result<(), Fail> {
    for (input, first, second, expected) in [
        (INVERSION, "1/8,0,0", "1/8,0,0", INVERSION_PRODUCTS),
        (INVERSION, "1/60,0,0", "1/64,0,0", MESH_PRODUCTS),
        (SCREW, "0,1/2,0", "0,1/2,0", SCREW_PRODUCTS),
        ("", "1/2,1/3,1/5", "1/2,2/3,4/5", TRANSLATION_PRODUCTS),
    ] {
        let bytes = Vec::from_slice(rt.alloc(), input.as_bytes())?;
        let words = ["product", first, second];
        let (status, text) = ran(rt.alloc(), &words, bytes, Vec::new(rt.alloc()), 1 << 20)?;
        assert_eq!(rt; status, Status::Done, "at {first}");
        assert_eq!(rt; text.as_slice(), expected.as_bytes(), "at {first}");
    }
    Ok(())
}

// The first order that is too large is named: that of the first wave vector, or that of both.
#[test]
fn orders_of_products_are_refused(rt: HostRuntime) -> Result<(), Fail> {
    for (first, second, line) in [
        ("1/12001,0,0", "0,0,0", "too large: order 12001\n"),
        ("0,0,0", "1/12001,0,0", "too large: order 12001\n"),
        ("1/120,0,0", "1/121,0,0", "too large: order 14520\n"),
    ] {
        let words = ["product", first, second];
        let empty = Vec::new(rt.alloc());
        let (status, text) = ran(rt.alloc(), &words, empty, Vec::new(rt.alloc()), 1000)?;
        assert_eq!(rt; status.code(), 4, "at {first}");
        assert_eq!(rt; text.as_slice(), line.as_bytes(), "at {first}");
    }
    Ok(())
}
