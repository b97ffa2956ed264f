// Stars and little groups, as they are written.
use super::*;

// The star and the little group of the screw axis at the face of the zone: its square is a translation with
// the phase z^2.
const SCREW_STAR: &str =
    "star 1\nwave 0,1/2,0\norder 4\narms 1\narm 1 0,1/2,0 x,y,z\nops 2\nop 1 x,y,z\nop 2 -x,y+1/2,-z\n\
    factor 1 1:0 2:0\nfactor 2 2:0 1:2\nend\n";

// Two arms, which the inversion exchanges.
const INVERSION_STAR: &str =
    "star 1\nwave 1/4,0,0\norder 8\narms 2\narm 1 1/4,0,0 x,y,z\narm 2 3/4,0,0 -x,-y,-z\n\
    ops 1\nop 1 x,y,z\nfactor 1 1:0\nend\n";

#[test]
fn stars_are_written_whole(rt: HostRuntime) -> Result<(), Fail> {
    for (input, wave, expected) in [
        (SCREW, "0,1/2,0", SCREW_STAR),
        (SCREW, "1,-1/2,0", SCREW_STAR),
        (INVERSION, "1/4,0,0", INVERSION_STAR),
    ] {
        let (status, text) = at(rt.alloc(), "star", input, wave)?;
        assert_eq!(rt; status, Status::Done, "at {wave}");
        assert_eq!(rt; text.as_slice(), expected.as_bytes(), "at {wave}");
    }
    Ok(())
}

// The reciprocal lattice depends on the centring.
#[test]
fn stars_of_a_reciprocal_lattice_vector(rt: HostRuntime) -> Result<(), Fail> {
    let centred = "-y,x,z\nz,x,y\n-x,-y,-z\nx+1/2,y+1/2,z+1/2\n";
    for (input, wave, order, ops) in [
        (CUBIC, "wave 0,0,0", "order 12", "ops 48"),
        (centred, "wave 0,0,1", "order 24", "ops 48"),
        ("x+1/2,y,z\n", "wave 1,0,0", "order 2", "ops 1"),
    ] {
        let (status, text) = at(rt.alloc(), "star", input, "1,0,0")?;
        assert_eq!(rt; status, Status::Done, "at {wave}");
        assert!(rt; lines_are(&text, "wave ", &[wave], true));
        assert!(rt; lines_are(&text, "order ", &[order], true));
        assert!(rt; lines_are(&text, "arms ", &["arms 1"], true));
        assert!(rt; lines_are(&text, "ops ", &[ops], true));
    }
    Ok(())
}
