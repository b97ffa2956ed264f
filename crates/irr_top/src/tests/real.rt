// Reality types, as they are written.
use super::*;

// Two arms, which the inversion exchanges: in a suitable basis the representation is real.
const INVERSION_TYPES: &str = "real 1\nwave 1/4,0,0\norder 8\nreps 1\nrep S1 dim 2 type 1\nend\n";

// The screw is i or -i.
const SCREW_TYPES: &str =
    "real 1\nwave 0,1/2,0\norder 4\nreps 2\nrep S1 dim 1 type 0\nrep S2 dim 1 type 0\nend\n";

// The screws are as quaternions.
const ORTHORHOMBIC_TYPES: &str =
    "real 1\nwave 1/2,1/2,1/2\norder 4\nreps 1\nrep S1 dim 2 type -1\nend\n";

// At the middle of an edge of the zone the four characters are powers of i.
const EDGE_TYPES: &str =
    "real 1\nwave 1/2,1/2,0\norder 4\nreps 4\nrep S1 dim 1 type 0\nrep S2 dim 1 type 0\n\
    rep S3 dim 1 type 0\nrep S4 dim 1 type 0\nend\n";

// The translation by x is -1.
const TRANSLATION_TYPES: &str = "real 1\nwave 1/2,0,0\norder 2\nreps 1\nrep S1 dim 1 type 1\nend\n";

// No operation carries the wave vector to its opposite.
const GENERAL_TYPES: &str =
    "real 1\nwave 1/2,1/3,1/5\norder 30\nreps 1\nrep S1 dim 1 type 0\nend\n";

#[test]
fn types_are_written_whole(rt: HostRuntime) -> Result<(), Fail> {
    for (input, wave, expected) in [
        (INVERSION, "1/4,0,0", INVERSION_TYPES),
        (SCREW, "0,1/2,0", SCREW_TYPES),
        (ORTHORHOMBIC, "1/2,1/2,1/2", ORTHORHOMBIC_TYPES),
        (ORTHORHOMBIC, "1/2,1/2,0", EDGE_TYPES),
        ("", "1/2,0,0", TRANSLATION_TYPES),
        ("", "1/2,1/3,1/5", GENERAL_TYPES),
    ] {
        let (status, text) = at(rt.alloc(), "real", input, wave)?;
        assert_eq!(rt; status, Status::Done, "at {wave}");
        assert_eq!(rt; text.as_slice(), expected.as_bytes(), "at {wave}");
    }
    Ok(())
}
