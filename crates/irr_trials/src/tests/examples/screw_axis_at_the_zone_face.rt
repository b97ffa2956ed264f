// The commands of examples/screw_axis_at_the_zone_face, as examples/as_tests writes them.
use crate::tests::*;

pub const P2_1: &str = "\
    -x,y+1/2,-z\n";

pub const STAR: &str = "\
    star 1\n\
    wave 0,1/2,0\n\
    order 4\n\
    arms 1\n\
    arm 1 0,1/2,0 x,y,z\n\
    ops 2\n\
    op 1 x,y,z\n\
    op 2 -x,y+1/2,-z\n\
    factor 1 1:0 2:0\n\
    factor 2 2:0 1:2\n\
    end\n";

pub const SMALL: &str = "\
    report 1\n\
    wave 0,1/2,0\n\
    order 4\n\
    ops 2\n\
    op 1 x,y,z\n\
    op 2 -x,y+1/2,-z\n\
    reps 2\n\
    rep S1 dim 1\n\
    char 1 1*z^1\n\
    mat 1 1\n\
    mat 2 1*z^1\n\
    rep S2 dim 1\n\
    char 1 -1*z^1\n\
    mat 1 1\n\
    mat 2 -1*z^1\n\
    end\n";

pub const FULL: &str = "\
    full 1\n\
    wave 0,1/2,0\n\
    order 4\n\
    arms 1\n\
    arm 1 0,1/2,0 x,y,z\n\
    ops 2\n\
    op 1 x,y,z\n\
    op 2 -x,y+1/2,-z\n\
    gens 4\n\
    gen 1 x+1,y,z\n\
    gen 2 x,y+1,z\n\
    gen 3 x,y,z+1\n\
    gen 4 -x,y+1/2,-z\n\
    reps 2\n\
    rep S1 dim 1\n\
    char 1 1*z^1\n\
    mat 1 1\n\
    mat 2 -1\n\
    mat 3 1\n\
    mat 4 1*z^1\n\
    rep S2 dim 1\n\
    char 1 -1*z^1\n\
    mat 1 1\n\
    mat 2 -1\n\
    mat 3 1\n\
    mat 4 -1*z^1\n\
    end\n";

pub const COMPAT: &str = "\
    compat 1\n\
    order 4\n\
    point 0 0,0,0\n\
    point 1 0,1/2,0\n\
    ops 2\n\
    op 1 x,y,z\n\
    op 2 -x,y+1/2,-z\n\
    reps 2\n\
    rep L1 dim 1\n\
    char 1 1\n\
    rep L2 dim 1\n\
    char 1 -1\n\
    from 0 S1 dim 1\n\
    part L1 1 1\n\
    from 0 S2 dim 1\n\
    part L2 1 1\n\
    from 1 S1 dim 1\n\
    part L2 1 1\n\
    from 1 S2 dim 1\n\
    part L1 1 1\n\
    end\n";

pub const REAL: &str = "\
    real 1\n\
    wave 0,1/2,0\n\
    order 4\n\
    reps 2\n\
    rep S1 dim 1 type 0\n\
    rep S2 dim 1 type 0\n\
    end\n";

#[test]
fn screw_axis_at_the_zone_face_as_in_its_session(rt: HostRuntime) -> Result<(), Fail> {
    for (words, input, code, text) in [
        ("star 0,1/2,0", P2_1, 0, STAR),
        ("small 0,1/2,0", P2_1, 0, SMALL),
        ("full 0,1/2,0", P2_1, 0, FULL),
        ("compat 0,0,0 0,1/2,0", P2_1, 0, COMPAT),
        ("real 0,1/2,0", P2_1, 0, REAL),
    ] {
        assert!(rt;
            answers(rt.alloc(), words, input.as_bytes(), code, text)?,
            "at {words}"
        );
    }
    Ok(())
}
