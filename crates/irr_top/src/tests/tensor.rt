// Tensors, as they are written.
use super::*;

// The vector, tensors of rank 3, and the symmetric and antisymmetric tensors of rank 2.
const CUBIC_VECTOR: &str = "tensor 1\nform 1\norder 12\ndim 3\npart 0,0,0 S10 1 3\nend\n";

const CUBIC_THIRD: &str =
    "tensor 1\nform 3\norder 12\ndim 27\npart 0,0,0 S3 1 1\npart 0,0,0 S4 1 1\n\
    part 0,0,0 S6 2 2\npart 0,0,0 S9 3 3\npart 0,0,0 S10 4 3\nend\n";

const CUBIC_SYMMETRIC: &str =
    "tensor 1\nform sym2\norder 12\ndim 6\npart 0,0,0 S1 1 1\npart 0,0,0 S5 1 2\n\
    part 0,0,0 S7 1 3\nend\n";

const CUBIC_ANTISYMMETRIC: &str = "tensor 1\nform anti2\norder 12\ndim 3\npart 0,0,0 S8 1 3\nend\n";

#[test]
fn tensors_are_written_whole(rt: HostRuntime) -> Result<(), Fail> {
    for (form, expected) in [
        ("1", CUBIC_VECTOR),
        ("3", CUBIC_THIRD),
        ("sym2", CUBIC_SYMMETRIC),
        ("anti2", CUBIC_ANTISYMMETRIC),
    ] {
        let (status, text) = at(rt.alloc(), "tensor", CUBIC, form)?;
        assert_eq!(rt; status, Status::Done, "for {form}");
        assert_eq!(rt; text.as_slice(), expected.as_bytes(), "for {form}");
    }
    Ok(())
}
