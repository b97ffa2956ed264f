// Squares, as they are written.
use super::*;

// Both squares of a representation of one row: the symmetric one stands at 0,0,0.
const SCREW_SQUARES: &str =
    "square 1\norder 4\nwave 0,1/2,0\nsym S1 dim 1\npart 0,0,0 S2 1 1\nanti S1 dim 0\n\
    sym S2 dim 1\npart 0,0,0 S2 1 1\nanti S2 dim 0\nend\n";

// The one representation of two rows at the corner of the zone is quaternionic.
const ORTHORHOMBIC_SQUARES: &str =
    "square 1\norder 4\nwave 1/2,1/2,1/2\nsym S1 dim 3\npart 0,0,0 S2 1 1\n\
    part 0,0,0 S3 1 1\npart 0,0,0 S4 1 1\nanti S1 dim 1\npart 0,0,0 S1 1 1\nend\n";

#[test]
fn squares_are_written_whole(rt: HostRuntime) -> Result<(), Fail> {
    for (input, wave, expected) in [
        (SCREW, "0,1/2,0", SCREW_SQUARES),
        (ORTHORHOMBIC, "1/2,1/2,1/2", ORTHORHOMBIC_SQUARES),
    ] {
        let (status, text) = at(rt.alloc(), "square", input, wave)?;
        assert_eq!(rt; status, Status::Done, "at {wave}");
        assert_eq!(rt; text.as_slice(), expected.as_bytes(), "at {wave}");
    }
    Ok(())
}
