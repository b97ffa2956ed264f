// Full representations, as they are written.
use super::*;

// The two arms, which the inversion exchanges: a translation by x has the phases -i and i there.
const INVERSION_FULL: &str =
    "full 1\nwave 1/4,0,0\norder 8\narms 2\narm 1 1/4,0,0 x,y,z\narm 2 3/4,0,0 -x,-y,-z\n\
    ops 2\nop 1 x,y,z\nop 2 -x,-y,-z\n\
    gens 4\ngen 1 x+1,y,z\ngen 2 x,y+1,z\ngen 3 x,y,z+1\ngen 4 -x,-y,-z\n\
    reps 1\nrep S1 dim 2\nchar 2 0\n\
    mat 1 -1*z^2 0 0 1*z^2\nmat 2 1 0 0 1\nmat 3 1 0 0 1\nmat 4 0 1 1 0\nend\n";

// One arm, so that the full representations are the small ones: the screw's are i and -i.
const SCREW_FULL: &str =
    "full 1\nwave 0,1/2,0\norder 4\narms 1\narm 1 0,1/2,0 x,y,z\nops 2\nop 1 x,y,z\nop 2 -x,y+1/2,-z\n\
    gens 4\ngen 1 x+1,y,z\ngen 2 x,y+1,z\ngen 3 x,y,z+1\ngen 4 -x,y+1/2,-z\nreps 2\n\
    rep S1 dim 1\nchar 1 1*z^1\nmat 1 1\nmat 2 -1\nmat 3 1\nmat 4 1*z^1\n\
    rep S2 dim 1\nchar 1 -1*z^1\nmat 1 1\nmat 2 -1\nmat 3 1\nmat 4 -1*z^1\nend\n";

#[test]
fn full_representations_are_written_whole(rt: HostRuntime) -> Result<(), Fail> {
    for (input, wave, expected) in [
        (INVERSION, "1/4,0,0", INVERSION_FULL),
        (INVERSION, "5/4,-1,0", INVERSION_FULL),
        (SCREW, "0,1/2,0", SCREW_FULL),
    ] {
        let (status, text) = at(rt.alloc(), "full", input, wave)?;
        assert_eq!(rt; status, Status::Done, "at {wave}");
        assert_eq!(rt; text.as_slice(), expected.as_bytes(), "at {wave}");
    }
    Ok(())
}
