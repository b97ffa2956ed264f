// The commands of examples/phase_transition, as examples/as_tests writes them.
use crate::tests::*;

pub const PM_3M: &str = "\
    -y,x,z\n\
    z,x,y\n\
    -x,-y,-z\n";

pub const SITE: &str = "\
    site 1\n\
    order 24\n\
    wave 1/2,1/2,1/2\n\
    point 1/2,0,0\n\
    ops 16\n\
    op 1 x,y,z\n\
    op 2 -x+1,-y,-z\n\
    op 3 -x+1,-y,z\n\
    op 4 -x+1,-z,-y\n\
    op 5 -x+1,-z,y\n\
    op 6 -x+1,z,-y\n\
    op 7 -x+1,z,y\n\
    op 8 -x+1,y,-z\n\
    op 9 -x+1,y,z\n\
    op 10 x,-y,-z\n\
    op 11 x,-y,z\n\
    op 12 x,-z,-y\n\
    op 13 x,-z,y\n\
    op 14 x,z,-y\n\
    op 15 x,z,y\n\
    op 16 x,y,-z\n\
    sites 3\n\
    site 1 1/2,0,0\n\
    site 2 0,1/2,0\n\
    site 3 0,0,1/2\n\
    reps 10\n\
    rep T1 dim 3\n\
    part S10 1 3\n\
    rep T2 dim 3\n\
    part S9 1 3\n\
    rep T3 dim 3\n\
    part S4 1 1\n\
    part S6 1 2\n\
    rep T4 dim 3\n\
    part S3 1 1\n\
    part S6 1 2\n\
    rep T5 dim 3\n\
    part S8 1 3\n\
    rep T6 dim 3\n\
    part S7 1 3\n\
    rep T7 dim 3\n\
    part S2 1 1\n\
    part S5 1 2\n\
    rep T8 dim 3\n\
    part S1 1 1\n\
    part S5 1 2\n\
    rep T9 dim 6\n\
    part S9 1 3\n\
    part S10 1 3\n\
    rep T10 dim 6\n\
    part S7 1 3\n\
    part S8 1 3\n\
    displace dim 9\n\
    part S1 1 1\n\
    part S5 1 2\n\
    part S7 1 3\n\
    part S8 1 3\n\
    end\n";

pub const SQUARE: &str = "\
    square 1\n\
    order 24\n\
    wave 1/2,1/2,1/2\n\
    sym S1 dim 1\n\
    part 0,0,0 S1 1 1\n\
    anti S1 dim 0\n\
    sym S2 dim 1\n\
    part 0,0,0 S1 1 1\n\
    anti S2 dim 0\n\
    sym S3 dim 1\n\
    part 0,0,0 S1 1 1\n\
    anti S3 dim 0\n\
    sym S4 dim 1\n\
    part 0,0,0 S1 1 1\n\
    anti S4 dim 0\n\
    sym S5 dim 3\n\
    part 0,0,0 S1 1 1\n\
    part 0,0,0 S5 1 2\n\
    anti S5 dim 1\n\
    part 0,0,0 S2 1 1\n\
    sym S6 dim 3\n\
    part 0,0,0 S1 1 1\n\
    part 0,0,0 S5 1 2\n\
    anti S6 dim 1\n\
    part 0,0,0 S2 1 1\n\
    sym S7 dim 6\n\
    part 0,0,0 S1 1 1\n\
    part 0,0,0 S5 1 2\n\
    part 0,0,0 S7 1 3\n\
    anti S7 dim 3\n\
    part 0,0,0 S8 1 3\n\
    sym S8 dim 6\n\
    part 0,0,0 S1 1 1\n\
    part 0,0,0 S5 1 2\n\
    part 0,0,0 S7 1 3\n\
    anti S8 dim 3\n\
    part 0,0,0 S8 1 3\n\
    sym S9 dim 6\n\
    part 0,0,0 S1 1 1\n\
    part 0,0,0 S5 1 2\n\
    part 0,0,0 S7 1 3\n\
    anti S9 dim 3\n\
    part 0,0,0 S8 1 3\n\
    sym S10 dim 6\n\
    part 0,0,0 S1 1 1\n\
    part 0,0,0 S5 1 2\n\
    part 0,0,0 S7 1 3\n\
    anti S10 dim 3\n\
    part 0,0,0 S8 1 3\n\
    end\n";

pub const TENSOR: &str = "\
    tensor 1\n\
    form 1\n\
    order 12\n\
    dim 3\n\
    part 0,0,0 S10 1 3\n\
    end\n";

pub const TENSOR_OF_2: &str = "\
    tensor 1\n\
    form sym2\n\
    order 12\n\
    dim 6\n\
    part 0,0,0 S1 1 1\n\
    part 0,0,0 S5 1 2\n\
    part 0,0,0 S7 1 3\n\
    end\n";

#[test]
fn phase_transition_as_in_its_session(rt: HostRuntime) -> Result<(), Fail> {
    for (words, input, code, text) in [
        ("site 1/2,0,0 1/2,1/2,1/2", PM_3M, 0, SITE),
        ("square 1/2,1/2,1/2", PM_3M, 0, SQUARE),
        ("tensor 1", PM_3M, 0, TENSOR),
        ("tensor sym2", PM_3M, 0, TENSOR_OF_2),
    ] {
        assert!(rt;
            answers(rt.alloc(), words, input.as_bytes(), code, text)?,
            "at {words}"
        );
    }
    Ok(())
}
