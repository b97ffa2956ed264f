// The commands of examples/doubled_cell, as examples/as_tests writes them.
use crate::tests::*;

pub const PM_3M_I4_MCM: &str = "\
    -y,x,z\n\
    z,x,y\n\
    -x,-y,-z\n\
    subgroup\n\
    basis 1 -1 0 1 1 0 0 0 2\n\
    origin 0 0 0\n\
    x+1/2,y+1/2,z+1/2\n\
    -y,x,z\n\
    -x,y,-z+1/2\n\
    -x,-y,-z\n";

pub const SUBDUCE: &str = "\
    subduce 1\n\
    order 24\n\
    wave 1/2,1/2,1/2\n\
    rep S1 dim 1\n\
    part 0,0,0 S4 1 1\n\
    rep S2 dim 1\n\
    part 0,0,0 S2 1 1\n\
    rep S3 dim 1\n\
    part 0,0,0 S8 1 1\n\
    rep S4 dim 1\n\
    part 0,0,0 S6 1 1\n\
    rep S5 dim 2\n\
    part 0,0,0 S2 1 1\n\
    part 0,0,0 S4 1 1\n\
    rep S6 dim 2\n\
    part 0,0,0 S6 1 1\n\
    part 0,0,0 S8 1 1\n\
    rep S7 dim 3\n\
    part 0,0,0 S3 1 1\n\
    part 0,0,0 S9 1 2\n\
    rep S8 dim 3\n\
    part 0,0,0 S1 1 1\n\
    part 0,0,0 S9 1 2\n\
    rep S9 dim 3\n\
    part 0,0,0 S7 1 1\n\
    part 0,0,0 S10 1 2\n\
    rep S10 dim 3\n\
    part 0,0,0 S5 1 1\n\
    part 0,0,0 S10 1 2\n\
    end\n";

pub const SUBDUCE_OF_2: &str = "\
    subduce 1\n\
    order 12\n\
    wave 0,0,0\n\
    rep S1 dim 1\n\
    part 0,0,0 S1 1 1\n\
    rep S2 dim 1\n\
    part 0,0,0 S3 1 1\n\
    rep S3 dim 1\n\
    part 0,0,0 S5 1 1\n\
    rep S4 dim 1\n\
    part 0,0,0 S7 1 1\n\
    rep S5 dim 2\n\
    part 0,0,0 S1 1 1\n\
    part 0,0,0 S3 1 1\n\
    rep S6 dim 2\n\
    part 0,0,0 S5 1 1\n\
    part 0,0,0 S7 1 1\n\
    rep S7 dim 3\n\
    part 0,0,0 S2 1 1\n\
    part 0,0,0 S9 1 2\n\
    rep S8 dim 3\n\
    part 0,0,0 S4 1 1\n\
    part 0,0,0 S9 1 2\n\
    rep S9 dim 3\n\
    part 0,0,0 S6 1 1\n\
    part 0,0,0 S10 1 2\n\
    rep S10 dim 3\n\
    part 0,0,0 S8 1 1\n\
    part 0,0,0 S10 1 2\n\
    end\n";

pub const SUBDUCE_OF_3: &str = "\
    subduce 1\n\
    order 24\n\
    wave 1/2,1/2,0\n\
    rep S1 dim 3\n\
    part 0,0,1 S1 1 1\n\
    part 1/2,1/2,0 S2 1 2\n\
    rep S2 dim 3\n\
    part 0,0,1 S3 1 1\n\
    part 1/2,1/2,0 S2 1 2\n\
    rep S3 dim 3\n\
    part 0,0,1 S2 1 1\n\
    part 1/2,1/2,0 S3 1 2\n\
    rep S4 dim 3\n\
    part 0,0,1 S4 1 1\n\
    part 1/2,1/2,0 S3 1 2\n\
    rep S5 dim 3\n\
    part 0,0,1 S5 1 1\n\
    part 1/2,1/2,0 S6 1 2\n\
    rep S6 dim 3\n\
    part 0,0,1 S7 1 1\n\
    part 1/2,1/2,0 S6 1 2\n\
    rep S7 dim 3\n\
    part 0,0,1 S6 1 1\n\
    part 1/2,1/2,0 S7 1 2\n\
    rep S8 dim 3\n\
    part 0,0,1 S8 1 1\n\
    part 1/2,1/2,0 S7 1 2\n\
    rep S9 dim 6\n\
    part 0,0,1 S9 1 2\n\
    part 1/2,1/2,0 S1 1 2\n\
    part 1/2,1/2,0 S4 1 2\n\
    rep S10 dim 6\n\
    part 0,0,1 S10 1 2\n\
    part 1/2,1/2,0 S5 1 2\n\
    part 1/2,1/2,0 S8 1 2\n\
    end\n";

#[test]
fn doubled_cell_as_in_its_session(rt: HostRuntime) -> Result<(), Fail> {
    for (words, input, code, text) in [
        ("subduce 1/2,1/2,1/2", PM_3M_I4_MCM, 0, SUBDUCE),
        ("subduce 0,0,0", PM_3M_I4_MCM, 0, SUBDUCE_OF_2),
        ("subduce 1/2,1/2,0", PM_3M_I4_MCM, 0, SUBDUCE_OF_3),
    ] {
        assert!(rt;
            answers(rt.alloc(), words, input.as_bytes(), code, text)?,
            "at {words}"
        );
    }
    Ok(())
}
