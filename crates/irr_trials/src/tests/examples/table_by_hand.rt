// The commands of examples/table_by_hand, as examples/as_tests writes them.
use crate::tests::*;

pub const RIGHT: &str = "\
    # P3m1: a threefold axis and a mirror plane\n\
    -y,x-y,z\n\
    -y,-x,z\n\
    report 1\n\
    wave 0,0,0\n\
    order 6\n\
    ops 6\n\
    op 1 x,y,z\n\
    op 2 -x+y,-x,z\n\
    op 3 -x+y,y,z\n\
    op 4 -y,-x,z\n\
    op 5 -y,x-y,z\n\
    op 6 x,x-y,z\n\
    reps 3\n\
    rep S1 dim 1\n\
    char 1 1 1 1 1 1\n\
    mat 1 1\n\
    mat 2 1\n\
    mat 3 1\n\
    mat 4 1\n\
    mat 5 1\n\
    mat 6 1\n\
    rep S2 dim 1\n\
    char 1 1 -1 -1 1 -1\n\
    mat 1 1\n\
    mat 2 1\n\
    mat 3 -1\n\
    mat 4 -1\n\
    mat 5 1\n\
    mat 6 -1\n\
    rep S3 dim 2\n\
    char 2 -1 0 0 -1 0\n\
    mat 1 1 0 0 1\n\
    mat 2 -1 1 -1 0\n\
    mat 3 -1 1 0 1\n\
    mat 4 0 -1 -1 0\n\
    mat 5 0 -1 1 -1\n\
    mat 6 1 0 1 -1\n\
    end\n";

pub const CHECK: &str = "\
    yes\n";

pub const WRONG_SIGN: &str = "\
    # P3m1: a threefold axis and a mirror plane\n\
    -y,x-y,z\n\
    -y,-x,z\n\
    report 1\n\
    wave 0,0,0\n\
    order 6\n\
    ops 6\n\
    op 1 x,y,z\n\
    op 2 -x+y,-x,z\n\
    op 3 -x+y,y,z\n\
    op 4 -y,-x,z\n\
    op 5 -y,x-y,z\n\
    op 6 x,x-y,z\n\
    reps 3\n\
    rep S1 dim 1\n\
    char 1 1 1 1 1 1\n\
    mat 1 1\n\
    mat 2 1\n\
    mat 3 1\n\
    mat 4 1\n\
    mat 5 1\n\
    mat 6 1\n\
    rep S2 dim 1\n\
    char 1 1 1 -1 1 -1\n\
    mat 1 1\n\
    mat 2 1\n\
    mat 3 1\n\
    mat 4 -1\n\
    mat 5 1\n\
    mat 6 -1\n\
    rep S3 dim 2\n\
    char 2 -1 0 0 -1 0\n\
    mat 1 1 0 0 1\n\
    mat 2 -1 1 -1 0\n\
    mat 3 -1 1 0 1\n\
    mat 4 0 -1 -1 0\n\
    mat 5 0 -1 1 -1\n\
    mat 6 1 0 1 -1\n\
    end\n";

pub const CHECK_OF_2: &str = "\
    no multiply S2 2 3\n";

pub const WRONG_CHARACTER: &str = "\
    # P3m1: a threefold axis and a mirror plane\n\
    -y,x-y,z\n\
    -y,-x,z\n\
    report 1\n\
    wave 0,0,0\n\
    order 6\n\
    ops 6\n\
    op 1 x,y,z\n\
    op 2 -x+y,-x,z\n\
    op 3 -x+y,y,z\n\
    op 4 -y,-x,z\n\
    op 5 -y,x-y,z\n\
    op 6 x,x-y,z\n\
    reps 3\n\
    rep S1 dim 1\n\
    char 1 1 1 1 1 1\n\
    mat 1 1\n\
    mat 2 1\n\
    mat 3 1\n\
    mat 4 1\n\
    mat 5 1\n\
    mat 6 1\n\
    rep S2 dim 1\n\
    char 1 1 -1 -1 1 -1\n\
    mat 1 1\n\
    mat 2 1\n\
    mat 3 -1\n\
    mat 4 -1\n\
    mat 5 1\n\
    mat 6 -1\n\
    rep S3 dim 2\n\
    char 2 1 0 0 -1 0\n\
    mat 1 1 0 0 1\n\
    mat 2 -1 1 -1 0\n\
    mat 3 -1 1 0 1\n\
    mat 4 0 -1 -1 0\n\
    mat 5 0 -1 1 -1\n\
    mat 6 1 0 1 -1\n\
    end\n";

pub const CHECK_OF_3: &str = "\
    no char S3 2\n";

pub const ONE_TWICE: &str = "\
    # P3m1: a threefold axis and a mirror plane\n\
    -y,x-y,z\n\
    -y,-x,z\n\
    report 1\n\
    wave 0,0,0\n\
    order 6\n\
    ops 6\n\
    op 1 x,y,z\n\
    op 2 -x+y,-x,z\n\
    op 3 -x+y,y,z\n\
    op 4 -y,-x,z\n\
    op 5 -y,x-y,z\n\
    op 6 x,x-y,z\n\
    reps 3\n\
    rep S1 dim 1\n\
    char 1 1 1 1 1 1\n\
    mat 1 1\n\
    mat 2 1\n\
    mat 3 1\n\
    mat 4 1\n\
    mat 5 1\n\
    mat 6 1\n\
    rep S2 dim 1\n\
    char 1 1 1 1 1 1\n\
    mat 1 1\n\
    mat 2 1\n\
    mat 3 1\n\
    mat 4 1\n\
    mat 5 1\n\
    mat 6 1\n\
    rep S3 dim 2\n\
    char 2 -1 0 0 -1 0\n\
    mat 1 1 0 0 1\n\
    mat 2 -1 1 -1 0\n\
    mat 3 -1 1 0 1\n\
    mat 4 0 -1 -1 0\n\
    mat 5 0 -1 1 -1\n\
    mat 6 1 0 1 -1\n\
    end\n";

pub const CHECK_OF_4: &str = "\
    no equivalent S1 S2\n";

pub const ONE_LEFT_OUT: &str = "\
    # P3m1: a threefold axis and a mirror plane\n\
    -y,x-y,z\n\
    -y,-x,z\n\
    report 1\n\
    wave 0,0,0\n\
    order 6\n\
    ops 6\n\
    op 1 x,y,z\n\
    op 2 -x+y,-x,z\n\
    op 3 -x+y,y,z\n\
    op 4 -y,-x,z\n\
    op 5 -y,x-y,z\n\
    op 6 x,x-y,z\n\
    reps 2\n\
    rep S1 dim 1\n\
    char 1 1 1 1 1 1\n\
    mat 1 1\n\
    mat 2 1\n\
    mat 3 1\n\
    mat 4 1\n\
    mat 5 1\n\
    mat 6 1\n\
    rep S2 dim 1\n\
    char 1 1 -1 -1 1 -1\n\
    mat 1 1\n\
    mat 2 1\n\
    mat 3 -1\n\
    mat 4 -1\n\
    mat 5 1\n\
    mat 6 -1\n\
    end\n";

pub const CHECK_OF_5: &str = "\
    no missing\n";

pub const REAL_PAIR: &str = "\
    # P3: a threefold axis alone\n\
    -y,x-y,z\n\
    report 1\n\
    wave 0,0,0\n\
    order 3\n\
    ops 3\n\
    op 1 x,y,z\n\
    op 2 -x+y,-x,z\n\
    op 3 -y,x-y,z\n\
    reps 2\n\
    rep S1 dim 1\n\
    char 1 1 1\n\
    mat 1 1\n\
    mat 2 1\n\
    mat 3 1\n\
    rep S2 dim 2\n\
    char 2 -1 -1\n\
    mat 1 1 0 0 1\n\
    mat 2 -1 1 -1 0\n\
    mat 3 0 -1 1 -1\n\
    end\n";

pub const CHECK_OF_6: &str = "\
    no reducible S2\n";

pub const COMPLEX_PAIR: &str = "\
    # P3: a threefold axis alone, z = exp(2 pi i/3)\n\
    -y,x-y,z\n\
    report 1\n\
    wave 0,0,0\n\
    order 3\n\
    ops 3\n\
    op 1 x,y,z\n\
    op 2 -x+y,-x,z\n\
    op 3 -y,x-y,z\n\
    reps 3\n\
    rep S1 dim 1\n\
    char 1 1 1\n\
    mat 1 1\n\
    mat 2 1\n\
    mat 3 1\n\
    rep S2 dim 1\n\
    char 1 1*z^1 1*z^2\n\
    mat 1 1\n\
    mat 2 1*z^1\n\
    mat 3 1*z^2\n\
    rep S3 dim 1\n\
    char 1 1*z^2 1*z^1\n\
    mat 1 1\n\
    mat 2 1*z^2\n\
    mat 3 1*z^1\n\
    end\n";

#[test]
fn table_by_hand_as_in_its_session(rt: HostRuntime) -> Result<(), Fail> {
    for (words, input, code, text) in [
        ("check", RIGHT, 0, CHECK),
        ("check", WRONG_SIGN, 1, CHECK_OF_2),
        ("check", WRONG_CHARACTER, 1, CHECK_OF_3),
        ("check", ONE_TWICE, 1, CHECK_OF_4),
        ("check", ONE_LEFT_OUT, 1, CHECK_OF_5),
        ("check", REAL_PAIR, 1, CHECK_OF_6),
        ("check", COMPLEX_PAIR, 0, CHECK),
    ] {
        assert!(rt;
            answers(rt.alloc(), words, input.as_bytes(), code, text)?,
            "at {words}"
        );
    }
    Ok(())
}
