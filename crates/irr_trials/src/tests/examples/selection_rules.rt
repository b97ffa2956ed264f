// The commands of examples/selection_rules, as examples/as_tests writes them.
use crate::tests::*;

pub const F_43M: &str = "\
    x,y+1/2,z+1/2\n\
    x+1/2,y,z+1/2\n\
    -x,-y,z\n\
    -x,y,-z\n\
    z,x,y\n\
    y,x,z\n";

pub const TENSOR: &str = "\
    tensor 1\n\
    form 1\n\
    order 12\n\
    dim 3\n\
    part 0,0,0 S5 1 3\n\
    end\n";

pub const PRODUCT: &str = "\
    product 1\n\
    order 12\n\
    waves 0,0,0 0,0,0\n\
    pair S1 S1 dim 1\n\
    part 0,0,0 S1 1 1\n\
    pair S1 S2 dim 1\n\
    part 0,0,0 S2 1 1\n\
    pair S1 S3 dim 2\n\
    part 0,0,0 S3 1 2\n\
    pair S1 S4 dim 3\n\
    part 0,0,0 S4 1 3\n\
    pair S1 S5 dim 3\n\
    part 0,0,0 S5 1 3\n\
    pair S2 S1 dim 1\n\
    part 0,0,0 S2 1 1\n\
    pair S2 S2 dim 1\n\
    part 0,0,0 S1 1 1\n\
    pair S2 S3 dim 2\n\
    part 0,0,0 S3 1 2\n\
    pair S2 S4 dim 3\n\
    part 0,0,0 S5 1 3\n\
    pair S2 S5 dim 3\n\
    part 0,0,0 S4 1 3\n\
    pair S3 S1 dim 2\n\
    part 0,0,0 S3 1 2\n\
    pair S3 S2 dim 2\n\
    part 0,0,0 S3 1 2\n\
    pair S3 S3 dim 4\n\
    part 0,0,0 S1 1 1\n\
    part 0,0,0 S2 1 1\n\
    part 0,0,0 S3 1 2\n\
    pair S3 S4 dim 6\n\
    part 0,0,0 S4 1 3\n\
    part 0,0,0 S5 1 3\n\
    pair S3 S5 dim 6\n\
    part 0,0,0 S4 1 3\n\
    part 0,0,0 S5 1 3\n\
    pair S4 S1 dim 3\n\
    part 0,0,0 S4 1 3\n\
    pair S4 S2 dim 3\n\
    part 0,0,0 S5 1 3\n\
    pair S4 S3 dim 6\n\
    part 0,0,0 S4 1 3\n\
    part 0,0,0 S5 1 3\n\
    pair S4 S4 dim 9\n\
    part 0,0,0 S1 1 1\n\
    part 0,0,0 S3 1 2\n\
    part 0,0,0 S4 1 3\n\
    part 0,0,0 S5 1 3\n\
    pair S4 S5 dim 9\n\
    part 0,0,0 S2 1 1\n\
    part 0,0,0 S3 1 2\n\
    part 0,0,0 S4 1 3\n\
    part 0,0,0 S5 1 3\n\
    pair S5 S1 dim 3\n\
    part 0,0,0 S5 1 3\n\
    pair S5 S2 dim 3\n\
    part 0,0,0 S4 1 3\n\
    pair S5 S3 dim 6\n\
    part 0,0,0 S4 1 3\n\
    part 0,0,0 S5 1 3\n\
    pair S5 S4 dim 9\n\
    part 0,0,0 S2 1 1\n\
    part 0,0,0 S3 1 2\n\
    part 0,0,0 S4 1 3\n\
    part 0,0,0 S5 1 3\n\
    pair S5 S5 dim 9\n\
    part 0,0,0 S1 1 1\n\
    part 0,0,0 S3 1 2\n\
    part 0,0,0 S4 1 3\n\
    part 0,0,0 S5 1 3\n\
    end\n";

pub const FD_3M: &str = "\
    x,y+1/2,z+1/2\n\
    x+1/2,y,z+1/2\n\
    -x+3/4,-y+1/4,z+1/2\n\
    -x+1/4,y+1/2,-z+3/4\n\
    z,x,y\n\
    y+3/4,x+1/4,-z+1/2\n\
    -x,-y,-z\n";

pub const SMALL: &str = "\
    report 1\n\
    wave 1/2,1/2,1/2\n\
    order 24\n\
    ops 12\n\
    op 1 x,y,z\n\
    op 2 -x,-y,-z\n\
    op 3 -x,-z,-y\n\
    op 4 -y,-x,-z\n\
    op 5 -y,-z,-x\n\
    op 6 -z,-x,-y\n\
    op 7 -z,-y,-x\n\
    op 8 z,y,x\n\
    op 9 z,x,y\n\
    op 10 y,z,x\n\
    op 11 y,x,z\n\
    op 12 x,z,y\n\
    reps 6\n\
    rep S1 dim 1\n\
    char 1 1 1 1 1 1 1 1 1 1 1 1\n\
    mat 1 1\n\
    mat 2 1\n\
    mat 3 1\n\
    mat 4 1\n\
    mat 5 1\n\
    mat 6 1\n\
    mat 7 1\n\
    mat 8 1\n\
    mat 9 1\n\
    mat 10 1\n\
    mat 11 1\n\
    mat 12 1\n\
    rep S2 dim 1\n\
    char 1 1 -1 -1 1 1 -1 -1 1 1 -1 -1\n\
    mat 1 1\n\
    mat 2 1\n\
    mat 3 -1\n\
    mat 4 -1\n\
    mat 5 1\n\
    mat 6 1\n\
    mat 7 -1\n\
    mat 8 -1\n\
    mat 9 1\n\
    mat 10 1\n\
    mat 11 -1\n\
    mat 12 -1\n\
    rep S3 dim 1\n\
    char 1 -1 1 1 -1 -1 1 -1 1 1 -1 -1\n\
    mat 1 1\n\
    mat 2 -1\n\
    mat 3 1\n\
    mat 4 1\n\
    mat 5 -1\n\
    mat 6 -1\n\
    mat 7 1\n\
    mat 8 -1\n\
    mat 9 1\n\
    mat 10 1\n\
    mat 11 -1\n\
    mat 12 -1\n\
    rep S4 dim 1\n\
    char 1 -1 -1 -1 -1 -1 -1 1 1 1 1 1\n\
    mat 1 1\n\
    mat 2 -1\n\
    mat 3 -1\n\
    mat 4 -1\n\
    mat 5 -1\n\
    mat 6 -1\n\
    mat 7 -1\n\
    mat 8 1\n\
    mat 9 1\n\
    mat 10 1\n\
    mat 11 1\n\
    mat 12 1\n\
    rep S5 dim 2\n\
    char 2 2 0 0 -1 -1 0 0 -1 -1 0 0\n\
    mat 1 1 0 0 1\n\
    mat 2 1 0 0 1\n\
    mat 3 0 1 1 0\n\
    mat 4 0 -1-1*z^16 1*z^16 0\n\
    mat 5 1*z^16 0 0 -1-1*z^16\n\
    mat 6 -1-1*z^16 0 0 1*z^16\n\
    mat 7 0 1*z^16 -1-1*z^16 0\n\
    mat 8 0 1*z^16 -1-1*z^16 0\n\
    mat 9 -1-1*z^16 0 0 1*z^16\n\
    mat 10 1*z^16 0 0 -1-1*z^16\n\
    mat 11 0 -1-1*z^16 1*z^16 0\n\
    mat 12 0 1 1 0\n\
    rep S6 dim 2\n\
    char 2 -2 0 0 1 1 0 0 -1 -1 0 0\n\
    mat 1 1 0 0 1\n\
    mat 2 -1 0 0 -1\n\
    mat 3 0 1 1 0\n\
    mat 4 0 -1-1*z^16 1*z^16 0\n\
    mat 5 -1*z^16 0 0 1+1*z^16\n\
    mat 6 1+1*z^16 0 0 -1*z^16\n\
    mat 7 0 1*z^16 -1-1*z^16 0\n\
    mat 8 0 -1*z^16 1+1*z^16 0\n\
    mat 9 -1-1*z^16 0 0 1*z^16\n\
    mat 10 1*z^16 0 0 -1-1*z^16\n\
    mat 11 0 1+1*z^16 -1*z^16 0\n\
    mat 12 0 -1 -1 0\n\
    end\n";

pub const SITE: &str = "\
    site 1\n\
    order 24\n\
    wave 1/2,1/2,1/2\n\
    point 1/8,1/8,1/8\n\
    ops 24\n\
    op 1 x,y,z\n\
    op 2 -x+1/4,-y+1/4,z\n\
    op 3 -x+1/4,-z+1/4,y\n\
    op 4 -x+1/4,z,-y+1/4\n\
    op 5 -x+1/4,y,-z+1/4\n\
    op 6 -y+1/4,-x+1/4,z\n\
    op 7 -y+1/4,-z+1/4,x\n\
    op 8 -y+1/4,z,-x+1/4\n\
    op 9 -y+1/4,x,-z+1/4\n\
    op 10 -z+1/4,-x+1/4,y\n\
    op 11 -z+1/4,-y+1/4,x\n\
    op 12 -z+1/4,y,-x+1/4\n\
    op 13 -z+1/4,x,-y+1/4\n\
    op 14 z,-x+1/4,-y+1/4\n\
    op 15 z,-y+1/4,-x+1/4\n\
    op 16 z,y,x\n\
    op 17 z,x,y\n\
    op 18 y,-x+1/4,-z+1/4\n\
    op 19 y,-z+1/4,-x+1/4\n\
    op 20 y,z,x\n\
    op 21 y,x,z\n\
    op 22 x,-y+1/4,-z+1/4\n\
    op 23 x,-z+1/4,-y+1/4\n\
    op 24 x,z,y\n\
    sites 2\n\
    site 1 1/8,1/8,1/8\n\
    site 2 7/8,7/8,7/8\n\
    reps 5\n\
    rep T1 dim 2\n\
    part S1 1 1\n\
    part S4 1 1\n\
    rep T2 dim 2\n\
    part S2 1 1\n\
    part S3 1 1\n\
    rep T3 dim 4\n\
    part S5 1 2\n\
    part S6 1 2\n\
    rep T4 dim 6\n\
    part S2 1 1\n\
    part S3 1 1\n\
    part S5 1 2\n\
    part S6 1 2\n\
    rep T5 dim 6\n\
    part S1 1 1\n\
    part S4 1 1\n\
    part S5 1 2\n\
    part S6 1 2\n\
    displace dim 6\n\
    part S1 1 1\n\
    part S4 1 1\n\
    part S5 1 2\n\
    part S6 1 2\n\
    end\n";

pub const PRODUCT_OF_2: &str = "\
    product 1\n\
    order 24\n\
    waves 0,0,0 1/2,1/2,1/2\n\
    pair S1 S1 dim 4\n\
    part 1/2,1/2,1/2 S1 1 4\n\
    pair S1 S2 dim 4\n\
    part 1/2,1/2,1/2 S2 1 4\n\
    pair S1 S3 dim 4\n\
    part 1/2,1/2,1/2 S3 1 4\n\
    pair S1 S4 dim 4\n\
    part 1/2,1/2,1/2 S4 1 4\n\
    pair S1 S5 dim 8\n\
    part 1/2,1/2,1/2 S5 1 8\n\
    pair S1 S6 dim 8\n\
    part 1/2,1/2,1/2 S6 1 8\n\
    pair S2 S1 dim 4\n\
    part 1/2,1/2,1/2 S2 1 4\n\
    pair S2 S2 dim 4\n\
    part 1/2,1/2,1/2 S1 1 4\n\
    pair S2 S3 dim 4\n\
    part 1/2,1/2,1/2 S4 1 4\n\
    pair S2 S4 dim 4\n\
    part 1/2,1/2,1/2 S3 1 4\n\
    pair S2 S5 dim 8\n\
    part 1/2,1/2,1/2 S5 1 8\n\
    pair S2 S6 dim 8\n\
    part 1/2,1/2,1/2 S6 1 8\n\
    pair S3 S1 dim 4\n\
    part 1/2,1/2,1/2 S3 1 4\n\
    pair S3 S2 dim 4\n\
    part 1/2,1/2,1/2 S4 1 4\n\
    pair S3 S3 dim 4\n\
    part 1/2,1/2,1/2 S1 1 4\n\
    pair S3 S4 dim 4\n\
    part 1/2,1/2,1/2 S2 1 4\n\
    pair S3 S5 dim 8\n\
    part 1/2,1/2,1/2 S6 1 8\n\
    pair S3 S6 dim 8\n\
    part 1/2,1/2,1/2 S5 1 8\n\
    pair S4 S1 dim 4\n\
    part 1/2,1/2,1/2 S4 1 4\n\
    pair S4 S2 dim 4\n\
    part 1/2,1/2,1/2 S3 1 4\n\
    pair S4 S3 dim 4\n\
    part 1/2,1/2,1/2 S2 1 4\n\
    pair S4 S4 dim 4\n\
    part 1/2,1/2,1/2 S1 1 4\n\
    pair S4 S5 dim 8\n\
    part 1/2,1/2,1/2 S6 1 8\n\
    pair S4 S6 dim 8\n\
    part 1/2,1/2,1/2 S5 1 8\n\
    pair S5 S1 dim 8\n\
    part 1/2,1/2,1/2 S5 1 8\n\
    pair S5 S2 dim 8\n\
    part 1/2,1/2,1/2 S5 1 8\n\
    pair S5 S3 dim 8\n\
    part 1/2,1/2,1/2 S6 1 8\n\
    pair S5 S4 dim 8\n\
    part 1/2,1/2,1/2 S6 1 8\n\
    pair S5 S5 dim 16\n\
    part 1/2,1/2,1/2 S1 1 4\n\
    part 1/2,1/2,1/2 S2 1 4\n\
    part 1/2,1/2,1/2 S5 1 8\n\
    pair S5 S6 dim 16\n\
    part 1/2,1/2,1/2 S3 1 4\n\
    part 1/2,1/2,1/2 S4 1 4\n\
    part 1/2,1/2,1/2 S6 1 8\n\
    pair S6 S1 dim 8\n\
    part 1/2,1/2,1/2 S6 1 8\n\
    pair S6 S2 dim 8\n\
    part 1/2,1/2,1/2 S6 1 8\n\
    pair S6 S3 dim 8\n\
    part 1/2,1/2,1/2 S5 1 8\n\
    pair S6 S4 dim 8\n\
    part 1/2,1/2,1/2 S5 1 8\n\
    pair S6 S5 dim 16\n\
    part 1/2,1/2,1/2 S3 1 4\n\
    part 1/2,1/2,1/2 S4 1 4\n\
    part 1/2,1/2,1/2 S6 1 8\n\
    pair S6 S6 dim 16\n\
    part 1/2,1/2,1/2 S1 1 4\n\
    part 1/2,1/2,1/2 S2 1 4\n\
    part 1/2,1/2,1/2 S5 1 8\n\
    pair S7 S1 dim 12\n\
    part 1/2,1/2,1/2 S1 1 4\n\
    part 1/2,1/2,1/2 S5 1 8\n\
    pair S7 S2 dim 12\n\
    part 1/2,1/2,1/2 S2 1 4\n\
    part 1/2,1/2,1/2 S5 1 8\n\
    pair S7 S3 dim 12\n\
    part 1/2,1/2,1/2 S3 1 4\n\
    part 1/2,1/2,1/2 S6 1 8\n\
    pair S7 S4 dim 12\n\
    part 1/2,1/2,1/2 S4 1 4\n\
    part 1/2,1/2,1/2 S6 1 8\n\
    pair S7 S5 dim 24\n\
    part 1/2,1/2,1/2 S1 1 4\n\
    part 1/2,1/2,1/2 S2 1 4\n\
    part 1/2,1/2,1/2 S5 2 8\n\
    pair S7 S6 dim 24\n\
    part 1/2,1/2,1/2 S3 1 4\n\
    part 1/2,1/2,1/2 S4 1 4\n\
    part 1/2,1/2,1/2 S6 2 8\n\
    pair S8 S1 dim 12\n\
    part 1/2,1/2,1/2 S2 1 4\n\
    part 1/2,1/2,1/2 S5 1 8\n\
    pair S8 S2 dim 12\n\
    part 1/2,1/2,1/2 S1 1 4\n\
    part 1/2,1/2,1/2 S5 1 8\n\
    pair S8 S3 dim 12\n\
    part 1/2,1/2,1/2 S4 1 4\n\
    part 1/2,1/2,1/2 S6 1 8\n\
    pair S8 S4 dim 12\n\
    part 1/2,1/2,1/2 S3 1 4\n\
    part 1/2,1/2,1/2 S6 1 8\n\
    pair S8 S5 dim 24\n\
    part 1/2,1/2,1/2 S1 1 4\n\
    part 1/2,1/2,1/2 S2 1 4\n\
    part 1/2,1/2,1/2 S5 2 8\n\
    pair S8 S6 dim 24\n\
    part 1/2,1/2,1/2 S3 1 4\n\
    part 1/2,1/2,1/2 S4 1 4\n\
    part 1/2,1/2,1/2 S6 2 8\n\
    pair S9 S1 dim 12\n\
    part 1/2,1/2,1/2 S3 1 4\n\
    part 1/2,1/2,1/2 S6 1 8\n\
    pair S9 S2 dim 12\n\
    part 1/2,1/2,1/2 S4 1 4\n\
    part 1/2,1/2,1/2 S6 1 8\n\
    pair S9 S3 dim 12\n\
    part 1/2,1/2,1/2 S1 1 4\n\
    part 1/2,1/2,1/2 S5 1 8\n\
    pair S9 S4 dim 12\n\
    part 1/2,1/2,1/2 S2 1 4\n\
    part 1/2,1/2,1/2 S5 1 8\n\
    pair S9 S5 dim 24\n\
    part 1/2,1/2,1/2 S3 1 4\n\
    part 1/2,1/2,1/2 S4 1 4\n\
    part 1/2,1/2,1/2 S6 2 8\n\
    pair S9 S6 dim 24\n\
    part 1/2,1/2,1/2 S1 1 4\n\
    part 1/2,1/2,1/2 S2 1 4\n\
    part 1/2,1/2,1/2 S5 2 8\n\
    pair S10 S1 dim 12\n\
    part 1/2,1/2,1/2 S4 1 4\n\
    part 1/2,1/2,1/2 S6 1 8\n\
    pair S10 S2 dim 12\n\
    part 1/2,1/2,1/2 S3 1 4\n\
    part 1/2,1/2,1/2 S6 1 8\n\
    pair S10 S3 dim 12\n\
    part 1/2,1/2,1/2 S2 1 4\n\
    part 1/2,1/2,1/2 S5 1 8\n\
    pair S10 S4 dim 12\n\
    part 1/2,1/2,1/2 S1 1 4\n\
    part 1/2,1/2,1/2 S5 1 8\n\
    pair S10 S5 dim 24\n\
    part 1/2,1/2,1/2 S3 1 4\n\
    part 1/2,1/2,1/2 S4 1 4\n\
    part 1/2,1/2,1/2 S6 2 8\n\
    pair S10 S6 dim 24\n\
    part 1/2,1/2,1/2 S1 1 4\n\
    part 1/2,1/2,1/2 S2 1 4\n\
    part 1/2,1/2,1/2 S5 2 8\n\
    end\n";

#[test]
fn selection_rules_as_in_its_session(rt: HostRuntime) -> Result<(), Fail> {
    for (words, input, code, text) in [
        ("tensor 1", F_43M, 0, TENSOR),
        ("product 0,0,0 0,0,0", F_43M, 0, PRODUCT),
        ("small 1/2,1/2,1/2", FD_3M, 0, SMALL),
        ("site 1/8,1/8,1/8 1/2,1/2,1/2", FD_3M, 0, SITE),
        ("product 0,0,0 1/2,1/2,1/2", FD_3M, 0, PRODUCT_OF_2),
    ] {
        assert!(rt;
            answers(rt.alloc(), words, input.as_bytes(), code, text)?,
            "at {words}"
        );
    }
    Ok(())
}
