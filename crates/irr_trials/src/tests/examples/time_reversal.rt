// The commands of examples/time_reversal, as examples/as_tests writes them.
use crate::tests::*;

pub const P2_1: &str = "\
    -x,y+1/2,-z\n";

pub const REAL: &str = "\
    real 1\n\
    wave 0,1/2,0\n\
    order 4\n\
    reps 2\n\
    rep S1 dim 1 type 0\n\
    rep S2 dim 1 type 0\n\
    end\n";

pub const P2_12_12_1: &str = "\
    x+1/2,-y+1/2,-z\n\
    -x,y+1/2,-z+1/2\n";

pub const SMALL: &str = "\
    report 1\n\
    wave 1/2,1/2,1/2\n\
    order 4\n\
    ops 4\n\
    op 1 x,y,z\n\
    op 2 -x+1/2,-y,z+1/2\n\
    op 3 -x,y+1/2,-z+1/2\n\
    op 4 x+1/2,-y+1/2,-z\n\
    reps 1\n\
    rep S1 dim 2\n\
    char 2 0 0 0\n\
    mat 1 1 0 0 1\n\
    mat 2 1*z^1 0 0 -1*z^1\n\
    mat 3 0 -1 1 0\n\
    mat 4 0 -1*z^1 -1*z^1 0\n\
    end\n";

pub const REAL_OF_2: &str = "\
    real 1\n\
    wave 1/2,1/2,1/2\n\
    order 4\n\
    reps 1\n\
    rep S1 dim 2 type -1\n\
    end\n";

pub const SMALL_OF_2: &str = "\
    report 1\n\
    wave 1/2,1/2,0\n\
    order 4\n\
    ops 4\n\
    op 1 x,y,z\n\
    op 2 -x+1/2,-y,z+1/2\n\
    op 3 -x,y+1/2,-z+1/2\n\
    op 4 x+1/2,-y+1/2,-z\n\
    reps 4\n\
    rep S1 dim 1\n\
    char 1 1 1*z^1 -1*z^1\n\
    mat 1 1\n\
    mat 2 1\n\
    mat 3 1*z^1\n\
    mat 4 -1*z^1\n\
    rep S2 dim 1\n\
    char 1 1 -1*z^1 1*z^1\n\
    mat 1 1\n\
    mat 2 1\n\
    mat 3 -1*z^1\n\
    mat 4 1*z^1\n\
    rep S3 dim 1\n\
    char 1 -1 1*z^1 1*z^1\n\
    mat 1 1\n\
    mat 2 -1\n\
    mat 3 1*z^1\n\
    mat 4 1*z^1\n\
    rep S4 dim 1\n\
    char 1 -1 -1*z^1 -1*z^1\n\
    mat 1 1\n\
    mat 2 -1\n\
    mat 3 -1*z^1\n\
    mat 4 -1*z^1\n\
    end\n";

pub const REAL_OF_3: &str = "\
    real 1\n\
    wave 1/2,1/2,0\n\
    order 4\n\
    reps 4\n\
    rep S1 dim 1 type 0\n\
    rep S2 dim 1 type 0\n\
    rep S3 dim 1 type 0\n\
    rep S4 dim 1 type 0\n\
    end\n";

pub const P4_1: &str = "\
    -y,x,z+1/4\n";

pub const SMALL_OF_3: &str = "\
    report 1\n\
    wave 0,0,1/2\n\
    order 8\n\
    ops 4\n\
    op 1 x,y,z\n\
    op 2 -x,-y,z+1/2\n\
    op 3 -y,x,z+1/4\n\
    op 4 y,-x,z+3/4\n\
    reps 4\n\
    rep S1 dim 1\n\
    char 1 1*z^2 1*z^1 1*z^3\n\
    mat 1 1\n\
    mat 2 1*z^2\n\
    mat 3 1*z^1\n\
    mat 4 1*z^3\n\
    rep S2 dim 1\n\
    char 1 1*z^2 -1*z^1 -1*z^3\n\
    mat 1 1\n\
    mat 2 1*z^2\n\
    mat 3 -1*z^1\n\
    mat 4 -1*z^3\n\
    rep S3 dim 1\n\
    char 1 -1*z^2 1*z^3 1*z^1\n\
    mat 1 1\n\
    mat 2 -1*z^2\n\
    mat 3 1*z^3\n\
    mat 4 1*z^1\n\
    rep S4 dim 1\n\
    char 1 -1*z^2 -1*z^3 -1*z^1\n\
    mat 1 1\n\
    mat 2 -1*z^2\n\
    mat 3 -1*z^3\n\
    mat 4 -1*z^1\n\
    end\n";

pub const REAL_OF_4: &str = "\
    real 1\n\
    wave 0,0,1/2\n\
    order 8\n\
    reps 4\n\
    rep S1 dim 1 type 0\n\
    rep S2 dim 1 type 0\n\
    rep S3 dim 1 type 0\n\
    rep S4 dim 1 type 0\n\
    end\n";

#[test]
fn time_reversal_as_in_its_session(rt: HostRuntime) -> Result<(), Fail> {
    for (words, input, code, text) in [
        ("real 0,1/2,0", P2_1, 0, REAL),
        ("small 1/2,1/2,1/2", P2_12_12_1, 0, SMALL),
        ("real 1/2,1/2,1/2", P2_12_12_1, 0, REAL_OF_2),
        ("small 1/2,1/2,0", P2_12_12_1, 0, SMALL_OF_2),
        ("real 1/2,1/2,0", P2_12_12_1, 0, REAL_OF_3),
        ("small 0,0,1/2", P4_1, 0, SMALL_OF_3),
        ("real 0,0,1/2", P4_1, 0, REAL_OF_4),
    ] {
        assert!(rt;
            answers(rt.alloc(), words, input.as_bytes(), code, text)?,
            "at {words}"
        );
    }
    Ok(())
}
