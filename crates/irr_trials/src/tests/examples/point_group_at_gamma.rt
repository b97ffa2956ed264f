// The commands of examples/point_group_at_gamma, as examples/as_tests writes them.
use crate::tests::*;

pub const P4MM: &str = "\
    -y,x,z\n\
    x,-y,z\n";

pub const SMALL: &str = "\
    report 1\n\
    wave 0,0,0\n\
    order 4\n\
    ops 8\n\
    op 1 x,y,z\n\
    op 2 -x,-y,z\n\
    op 3 -x,y,z\n\
    op 4 -y,-x,z\n\
    op 5 -y,x,z\n\
    op 6 y,-x,z\n\
    op 7 y,x,z\n\
    op 8 x,-y,z\n\
    reps 5\n\
    rep S1 dim 1\n\
    char 1 1 1 1 1 1 1 1\n\
    mat 1 1\n\
    mat 2 1\n\
    mat 3 1\n\
    mat 4 1\n\
    mat 5 1\n\
    mat 6 1\n\
    mat 7 1\n\
    mat 8 1\n\
    rep S2 dim 1\n\
    char 1 1 1 -1 -1 -1 -1 1\n\
    mat 1 1\n\
    mat 2 1\n\
    mat 3 1\n\
    mat 4 -1\n\
    mat 5 -1\n\
    mat 6 -1\n\
    mat 7 -1\n\
    mat 8 1\n\
    rep S3 dim 1\n\
    char 1 1 -1 1 -1 -1 1 -1\n\
    mat 1 1\n\
    mat 2 1\n\
    mat 3 -1\n\
    mat 4 1\n\
    mat 5 -1\n\
    mat 6 -1\n\
    mat 7 1\n\
    mat 8 -1\n\
    rep S4 dim 1\n\
    char 1 1 -1 -1 1 1 -1 -1\n\
    mat 1 1\n\
    mat 2 1\n\
    mat 3 -1\n\
    mat 4 -1\n\
    mat 5 1\n\
    mat 6 1\n\
    mat 7 -1\n\
    mat 8 -1\n\
    rep S5 dim 2\n\
    char 2 -2 0 0 0 0 0 0\n\
    mat 1 1 0 0 1\n\
    mat 2 -1 0 0 -1\n\
    mat 3 1 0 0 -1\n\
    mat 4 0 1 1 0\n\
    mat 5 0 -1 1 0\n\
    mat 6 0 1 -1 0\n\
    mat 7 0 -1 -1 0\n\
    mat 8 -1 0 0 1\n\
    end\n";

pub const PM_3M: &str = "\
    -y,x,z\n\
    z,x,y\n\
    -x,-y,-z\n";

pub const SMALL_OF_2: &str = "\
    report 1\n\
    wave 0,0,0\n\
    order 12\n\
    ops 48\n\
    op 1 x,y,z\n\
    op 2 -x,-y,-z\n\
    op 3 -x,-y,z\n\
    op 4 -x,-z,-y\n\
    op 5 -x,-z,y\n\
    op 6 -x,z,-y\n\
    op 7 -x,z,y\n\
    op 8 -x,y,-z\n\
    op 9 -x,y,z\n\
    op 10 -y,-x,-z\n\
    op 11 -y,-x,z\n\
    op 12 -y,-z,-x\n\
    op 13 -y,-z,x\n\
    op 14 -y,z,-x\n\
    op 15 -y,z,x\n\
    op 16 -y,x,-z\n\
    op 17 -y,x,z\n\
    op 18 -z,-x,-y\n\
    op 19 -z,-x,y\n\
    op 20 -z,-y,-x\n\
    op 21 -z,-y,x\n\
    op 22 -z,y,-x\n\
    op 23 -z,y,x\n\
    op 24 -z,x,-y\n\
    op 25 -z,x,y\n\
    op 26 z,-x,-y\n\
    op 27 z,-x,y\n\
    op 28 z,-y,-x\n\
    op 29 z,-y,x\n\
    op 30 z,y,-x\n\
    op 31 z,y,x\n\
    op 32 z,x,-y\n\
    op 33 z,x,y\n\
    op 34 y,-x,-z\n\
    op 35 y,-x,z\n\
    op 36 y,-z,-x\n\
    op 37 y,-z,x\n\
    op 38 y,z,-x\n\
    op 39 y,z,x\n\
    op 40 y,x,-z\n\
    op 41 y,x,z\n\
    op 42 x,-y,-z\n\
    op 43 x,-y,z\n\
    op 44 x,-z,-y\n\
    op 45 x,-z,y\n\
    op 46 x,z,-y\n\
    op 47 x,z,y\n\
    op 48 x,y,-z\n\
    reps 10\n\
    rep S1 dim 1\n\
    char 1 1 1 1 1 1 1 1 1 1 1 1 1 1 1 1 1 1 1 1 1 1 1 1 1 1 1 1 1 1 1 1 1 1 1 1 1 1 1 1 1 1 1 1 1 1 1 1\n\
    mat 1 1\n\
    mat 2 1\n\
    mat 3 1\n\
    mat 4 1\n\
    mat 5 1\n\
    mat 6 1\n\
    mat 7 1\n\
    mat 8 1\n\
    mat 9 1\n\
    mat 10 1\n\
    mat 11 1\n\
    mat 12 1\n\
    mat 13 1\n\
    mat 14 1\n\
    mat 15 1\n\
    mat 16 1\n\
    mat 17 1\n\
    mat 18 1\n\
    mat 19 1\n\
    mat 20 1\n\
    mat 21 1\n\
    mat 22 1\n\
    mat 23 1\n\
    mat 24 1\n\
    mat 25 1\n\
    mat 26 1\n\
    mat 27 1\n\
    mat 28 1\n\
    mat 29 1\n\
    mat 30 1\n\
    mat 31 1\n\
    mat 32 1\n\
    mat 33 1\n\
    mat 34 1\n\
    mat 35 1\n\
    mat 36 1\n\
    mat 37 1\n\
    mat 38 1\n\
    mat 39 1\n\
    mat 40 1\n\
    mat 41 1\n\
    mat 42 1\n\
    mat 43 1\n\
    mat 44 1\n\
    mat 45 1\n\
    mat 46 1\n\
    mat 47 1\n\
    mat 48 1\n\
    rep S2 dim 1\n\
    char 1 1 1 -1 -1 -1 -1 1 1 -1 -1 1 1 1 1 -1 -1 1 1 -1 -1 -1 -1 1 1 1 1 -1 -1 -1 -1 1 1 -1 -1 1 1 1 1 -1 -1 1 1 -1 -1 -1 -1 1\n\
    mat 1 1\n\
    mat 2 1\n\
    mat 3 1\n\
    mat 4 -1\n\
    mat 5 -1\n\
    mat 6 -1\n\
    mat 7 -1\n\
    mat 8 1\n\
    mat 9 1\n\
    mat 10 -1\n\
    mat 11 -1\n\
    mat 12 1\n\
    mat 13 1\n\
    mat 14 1\n\
    mat 15 1\n\
    mat 16 -1\n\
    mat 17 -1\n\
    mat 18 1\n\
    mat 19 1\n\
    mat 20 -1\n\
    mat 21 -1\n\
    mat 22 -1\n\
    mat 23 -1\n\
    mat 24 1\n\
    mat 25 1\n\
    mat 26 1\n\
    mat 27 1\n\
    mat 28 -1\n\
    mat 29 -1\n\
    mat 30 -1\n\
    mat 31 -1\n\
    mat 32 1\n\
    mat 33 1\n\
    mat 34 -1\n\
    mat 35 -1\n\
    mat 36 1\n\
    mat 37 1\n\
    mat 38 1\n\
    mat 39 1\n\
    mat 40 -1\n\
    mat 41 -1\n\
    mat 42 1\n\
    mat 43 1\n\
    mat 44 -1\n\
    mat 45 -1\n\
    mat 46 -1\n\
    mat 47 -1\n\
    mat 48 1\n\
    rep S3 dim 1\n\
    char 1 -1 1 1 -1 -1 1 1 -1 1 -1 -1 1 1 -1 -1 1 -1 1 1 -1 -1 1 1 -1 1 -1 -1 1 1 -1 -1 1 -1 1 1 -1 -1 1 1 -1 1 -1 -1 1 1 -1 -1\n\
    mat 1 1\n\
    mat 2 -1\n\
    mat 3 1\n\
    mat 4 1\n\
    mat 5 -1\n\
    mat 6 -1\n\
    mat 7 1\n\
    mat 8 1\n\
    mat 9 -1\n\
    mat 10 1\n\
    mat 11 -1\n\
    mat 12 -1\n\
    mat 13 1\n\
    mat 14 1\n\
    mat 15 -1\n\
    mat 16 -1\n\
    mat 17 1\n\
    mat 18 -1\n\
    mat 19 1\n\
    mat 20 1\n\
    mat 21 -1\n\
    mat 22 -1\n\
    mat 23 1\n\
    mat 24 1\n\
    mat 25 -1\n\
    mat 26 1\n\
    mat 27 -1\n\
    mat 28 -1\n\
    mat 29 1\n\
    mat 30 1\n\
    mat 31 -1\n\
    mat 32 -1\n\
    mat 33 1\n\
    mat 34 -1\n\
    mat 35 1\n\
    mat 36 1\n\
    mat 37 -1\n\
    mat 38 -1\n\
    mat 39 1\n\
    mat 40 1\n\
    mat 41 -1\n\
    mat 42 1\n\
    mat 43 -1\n\
    mat 44 -1\n\
    mat 45 1\n\
    mat 46 1\n\
    mat 47 -1\n\
    mat 48 -1\n\
    rep S4 dim 1\n\
    char 1 -1 1 -1 1 1 -1 1 -1 -1 1 -1 1 1 -1 1 -1 -1 1 -1 1 1 -1 1 -1 1 -1 1 -1 -1 1 -1 1 1 -1 1 -1 -1 1 -1 1 1 -1 1 -1 -1 1 -1\n\
    mat 1 1\n\
    mat 2 -1\n\
    mat 3 1\n\
    mat 4 -1\n\
    mat 5 1\n\
    mat 6 1\n\
    mat 7 -1\n\
    mat 8 1\n\
    mat 9 -1\n\
    mat 10 -1\n\
    mat 11 1\n\
    mat 12 -1\n\
    mat 13 1\n\
    mat 14 1\n\
    mat 15 -1\n\
    mat 16 1\n\
    mat 17 -1\n\
    mat 18 -1\n\
    mat 19 1\n\
    mat 20 -1\n\
    mat 21 1\n\
    mat 22 1\n\
    mat 23 -1\n\
    mat 24 1\n\
    mat 25 -1\n\
    mat 26 1\n\
    mat 27 -1\n\
    mat 28 1\n\
    mat 29 -1\n\
    mat 30 -1\n\
    mat 31 1\n\
    mat 32 -1\n\
    mat 33 1\n\
    mat 34 1\n\
    mat 35 -1\n\
    mat 36 1\n\
    mat 37 -1\n\
    mat 38 -1\n\
    mat 39 1\n\
    mat 40 -1\n\
    mat 41 1\n\
    mat 42 1\n\
    mat 43 -1\n\
    mat 44 1\n\
    mat 45 -1\n\
    mat 46 -1\n\
    mat 47 1\n\
    mat 48 -1\n\
    rep S5 dim 2\n\
    char 2 2 2 0 0 0 0 2 2 0 0 -1 -1 -1 -1 0 0 -1 -1 0 0 0 0 -1 -1 -1 -1 0 0 0 0 -1 -1 0 0 -1 -1 -1 -1 0 0 2 2 0 0 0 0 2\n\
    mat 1 1 0 0 1\n\
    mat 2 1 0 0 1\n\
    mat 3 1 0 0 1\n\
    mat 4 0 1 1 0\n\
    mat 5 0 1 1 0\n\
    mat 6 0 1 1 0\n\
    mat 7 0 1 1 0\n\
    mat 8 1 0 0 1\n\
    mat 9 1 0 0 1\n\
    mat 10 0 -1-1*z^4 1*z^4 0\n\
    mat 11 0 -1-1*z^4 1*z^4 0\n\
    mat 12 1*z^4 0 0 -1-1*z^4\n\
    mat 13 1*z^4 0 0 -1-1*z^4\n\
    mat 14 1*z^4 0 0 -1-1*z^4\n\
    mat 15 1*z^4 0 0 -1-1*z^4\n\
    mat 16 0 -1-1*z^4 1*z^4 0\n\
    mat 17 0 -1-1*z^4 1*z^4 0\n\
    mat 18 -1-1*z^4 0 0 1*z^4\n\
    mat 19 -1-1*z^4 0 0 1*z^4\n\
    mat 20 0 1*z^4 -1-1*z^4 0\n\
    mat 21 0 1*z^4 -1-1*z^4 0\n\
    mat 22 0 1*z^4 -1-1*z^4 0\n\
    mat 23 0 1*z^4 -1-1*z^4 0\n\
    mat 24 -1-1*z^4 0 0 1*z^4\n\
    mat 25 -1-1*z^4 0 0 1*z^4\n\
    mat 26 -1-1*z^4 0 0 1*z^4\n\
    mat 27 -1-1*z^4 0 0 1*z^4\n\
    mat 28 0 1*z^4 -1-1*z^4 0\n\
    mat 29 0 1*z^4 -1-1*z^4 0\n\
    mat 30 0 1*z^4 -1-1*z^4 0\n\
    mat 31 0 1*z^4 -1-1*z^4 0\n\
    mat 32 -1-1*z^4 0 0 1*z^4\n\
    mat 33 -1-1*z^4 0 0 1*z^4\n\
    mat 34 0 -1-1*z^4 1*z^4 0\n\
    mat 35 0 -1-1*z^4 1*z^4 0\n\
    mat 36 1*z^4 0 0 -1-1*z^4\n\
    mat 37 1*z^4 0 0 -1-1*z^4\n\
    mat 38 1*z^4 0 0 -1-1*z^4\n\
    mat 39 1*z^4 0 0 -1-1*z^4\n\
    mat 40 0 -1-1*z^4 1*z^4 0\n\
    mat 41 0 -1-1*z^4 1*z^4 0\n\
    mat 42 1 0 0 1\n\
    mat 43 1 0 0 1\n\
    mat 44 0 1 1 0\n\
    mat 45 0 1 1 0\n\
    mat 46 0 1 1 0\n\
    mat 47 0 1 1 0\n\
    mat 48 1 0 0 1\n\
    rep S6 dim 2\n\
    char 2 -2 2 0 0 0 0 2 -2 0 0 1 -1 -1 1 0 0 1 -1 0 0 0 0 -1 1 -1 1 0 0 0 0 1 -1 0 0 -1 1 1 -1 0 0 2 -2 0 0 0 0 -2\n\
    mat 1 1 0 0 1\n\
    mat 2 -1 0 0 -1\n\
    mat 3 1 0 0 1\n\
    mat 4 0 1 1 0\n\
    mat 5 0 -1 -1 0\n\
    mat 6 0 -1 -1 0\n\
    mat 7 0 1 1 0\n\
    mat 8 1 0 0 1\n\
    mat 9 -1 0 0 -1\n\
    mat 10 0 -1-1*z^4 1*z^4 0\n\
    mat 11 0 1+1*z^4 -1*z^4 0\n\
    mat 12 -1*z^4 0 0 1+1*z^4\n\
    mat 13 1*z^4 0 0 -1-1*z^4\n\
    mat 14 1*z^4 0 0 -1-1*z^4\n\
    mat 15 -1*z^4 0 0 1+1*z^4\n\
    mat 16 0 1+1*z^4 -1*z^4 0\n\
    mat 17 0 -1-1*z^4 1*z^4 0\n\
    mat 18 1+1*z^4 0 0 -1*z^4\n\
    mat 19 -1-1*z^4 0 0 1*z^4\n\
    mat 20 0 1*z^4 -1-1*z^4 0\n\
    mat 21 0 -1*z^4 1+1*z^4 0\n\
    mat 22 0 -1*z^4 1+1*z^4 0\n\
    mat 23 0 1*z^4 -1-1*z^4 0\n\
    mat 24 -1-1*z^4 0 0 1*z^4\n\
    mat 25 1+1*z^4 0 0 -1*z^4\n\
    mat 26 -1-1*z^4 0 0 1*z^4\n\
    mat 27 1+1*z^4 0 0 -1*z^4\n\
    mat 28 0 -1*z^4 1+1*z^4 0\n\
    mat 29 0 1*z^4 -1-1*z^4 0\n\
    mat 30 0 1*z^4 -1-1*z^4 0\n\
    mat 31 0 -1*z^4 1+1*z^4 0\n\
    mat 32 1+1*z^4 0 0 -1*z^4\n\
    mat 33 -1-1*z^4 0 0 1*z^4\n\
    mat 34 0 1+1*z^4 -1*z^4 0\n\
    mat 35 0 -1-1*z^4 1*z^4 0\n\
    mat 36 1*z^4 0 0 -1-1*z^4\n\
    mat 37 -1*z^4 0 0 1+1*z^4\n\
    mat 38 -1*z^4 0 0 1+1*z^4\n\
    mat 39 1*z^4 0 0 -1-1*z^4\n\
    mat 40 0 -1-1*z^4 1*z^4 0\n\
    mat 41 0 1+1*z^4 -1*z^4 0\n\
    mat 42 1 0 0 1\n\
    mat 43 -1 0 0 -1\n\
    mat 44 0 -1 -1 0\n\
    mat 45 0 1 1 0\n\
    mat 46 0 1 1 0\n\
    mat 47 0 -1 -1 0\n\
    mat 48 -1 0 0 -1\n\
    rep S7 dim 3\n\
    char 3 3 -1 1 -1 -1 1 -1 -1 1 1 0 0 0 0 -1 -1 0 0 1 -1 1 -1 0 0 0 0 -1 1 -1 1 0 0 -1 -1 0 0 0 0 1 1 -1 -1 1 -1 -1 1 -1\n\
    mat 1 1 0 0 0 1 0 0 0 1\n\
    mat 2 1 0 0 0 1 0 0 0 1\n\
    mat 3 1 0 0 0 -1 0 0 0 -1\n\
    mat 4 0 -1 0 -1 0 0 0 0 1\n\
    mat 5 0 -1 0 1 0 0 0 0 -1\n\
    mat 6 0 1 0 -1 0 0 0 0 -1\n\
    mat 7 0 1 0 1 0 0 0 0 1\n\
    mat 8 -1 0 0 0 1 0 0 0 -1\n\
    mat 9 -1 0 0 0 -1 0 0 0 1\n\
    mat 10 1 0 0 0 0 -1 0 -1 0\n\
    mat 11 1 0 0 0 0 1 0 1 0\n\
    mat 12 0 0 1 -1 0 0 0 -1 0\n\
    mat 13 0 0 1 1 0 0 0 1 0\n\
    mat 14 0 0 -1 -1 0 0 0 1 0\n\
    mat 15 0 0 -1 1 0 0 0 -1 0\n\
    mat 16 -1 0 0 0 0 -1 0 1 0\n\
    mat 17 -1 0 0 0 0 1 0 -1 0\n\
    mat 18 0 -1 0 0 0 -1 1 0 0\n\
    mat 19 0 -1 0 0 0 1 -1 0 0\n\
    mat 20 0 0 1 0 1 0 1 0 0\n\
    mat 21 0 0 1 0 -1 0 -1 0 0\n\
    mat 22 0 0 -1 0 1 0 -1 0 0\n\
    mat 23 0 0 -1 0 -1 0 1 0 0\n\
    mat 24 0 1 0 0 0 -1 -1 0 0\n\
    mat 25 0 1 0 0 0 1 1 0 0\n\
    mat 26 0 1 0 0 0 1 1 0 0\n\
    mat 27 0 1 0 0 0 -1 -1 0 0\n\
    mat 28 0 0 -1 0 -1 0 1 0 0\n\
    mat 29 0 0 -1 0 1 0 -1 0 0\n\
    mat 30 0 0 1 0 -1 0 -1 0 0\n\
    mat 31 0 0 1 0 1 0 1 0 0\n\
    mat 32 0 -1 0 0 0 1 -1 0 0\n\
    mat 33 0 -1 0 0 0 -1 1 0 0\n\
    mat 34 -1 0 0 0 0 1 0 -1 0\n\
    mat 35 -1 0 0 0 0 -1 0 1 0\n\
    mat 36 0 0 -1 1 0 0 0 -1 0\n\
    mat 37 0 0 -1 -1 0 0 0 1 0\n\
    mat 38 0 0 1 1 0 0 0 1 0\n\
    mat 39 0 0 1 -1 0 0 0 -1 0\n\
    mat 40 1 0 0 0 0 1 0 1 0\n\
    mat 41 1 0 0 0 0 -1 0 -1 0\n\
    mat 42 -1 0 0 0 -1 0 0 0 1\n\
    mat 43 -1 0 0 0 1 0 0 0 -1\n\
    mat 44 0 1 0 1 0 0 0 0 1\n\
    mat 45 0 1 0 -1 0 0 0 0 -1\n\
    mat 46 0 -1 0 1 0 0 0 0 -1\n\
    mat 47 0 -1 0 -1 0 0 0 0 1\n\
    mat 48 1 0 0 0 -1 0 0 0 -1\n\
    rep S8 dim 3\n\
    char 3 3 -1 -1 1 1 -1 -1 -1 -1 -1 0 0 0 0 1 1 0 0 -1 1 -1 1 0 0 0 0 1 -1 1 -1 0 0 1 1 0 0 0 0 -1 -1 -1 -1 -1 1 1 -1 -1\n\
    mat 1 1 0 0 0 1 0 0 0 1\n\
    mat 2 1 0 0 0 1 0 0 0 1\n\
    mat 3 1 0 0 0 -1 0 0 0 -1\n\
    mat 4 0 1 0 1 0 0 0 0 -1\n\
    mat 5 0 1 0 -1 0 0 0 0 1\n\
    mat 6 0 -1 0 1 0 0 0 0 1\n\
    mat 7 0 -1 0 -1 0 0 0 0 -1\n\
    mat 8 -1 0 0 0 1 0 0 0 -1\n\
    mat 9 -1 0 0 0 -1 0 0 0 1\n\
    mat 10 -1 0 0 0 0 1 0 1 0\n\
    mat 11 -1 0 0 0 0 -1 0 -1 0\n\
    mat 12 0 0 1 -1 0 0 0 -1 0\n\
    mat 13 0 0 1 1 0 0 0 1 0\n\
    mat 14 0 0 -1 -1 0 0 0 1 0\n\
    mat 15 0 0 -1 1 0 0 0 -1 0\n\
    mat 16 1 0 0 0 0 1 0 -1 0\n\
    mat 17 1 0 0 0 0 -1 0 1 0\n\
    mat 18 0 -1 0 0 0 -1 1 0 0\n\
    mat 19 0 -1 0 0 0 1 -1 0 0\n\
    mat 20 0 0 -1 0 -1 0 -1 0 0\n\
    mat 21 0 0 -1 0 1 0 1 0 0\n\
    mat 22 0 0 1 0 -1 0 1 0 0\n\
    mat 23 0 0 1 0 1 0 -1 0 0\n\
    mat 24 0 1 0 0 0 -1 -1 0 0\n\
    mat 25 0 1 0 0 0 1 1 0 0\n\
    mat 26 0 1 0 0 0 1 1 0 0\n\
    mat 27 0 1 0 0 0 -1 -1 0 0\n\
    mat 28 0 0 1 0 1 0 -1 0 0\n\
    mat 29 0 0 1 0 -1 0 1 0 0\n\
    mat 30 0 0 -1 0 1 0 1 0 0\n\
    mat 31 0 0 -1 0 -1 0 -1 0 0\n\
    mat 32 0 -1 0 0 0 1 -1 0 0\n\
    mat 33 0 -1 0 0 0 -1 1 0 0\n\
    mat 34 1 0 0 0 0 -1 0 1 0\n\
    mat 35 1 0 0 0 0 1 0 -1 0\n\
    mat 36 0 0 -1 1 0 0 0 -1 0\n\
    mat 37 0 0 -1 -1 0 0 0 1 0\n\
    mat 38 0 0 1 1 0 0 0 1 0\n\
    mat 39 0 0 1 -1 0 0 0 -1 0\n\
    mat 40 -1 0 0 0 0 -1 0 -1 0\n\
    mat 41 -1 0 0 0 0 1 0 1 0\n\
    mat 42 -1 0 0 0 -1 0 0 0 1\n\
    mat 43 -1 0 0 0 1 0 0 0 -1\n\
    mat 44 0 -1 0 -1 0 0 0 0 -1\n\
    mat 45 0 -1 0 1 0 0 0 0 1\n\
    mat 46 0 1 0 -1 0 0 0 0 1\n\
    mat 47 0 1 0 1 0 0 0 0 -1\n\
    mat 48 1 0 0 0 -1 0 0 0 -1\n\
    rep S9 dim 3\n\
    char 3 -3 -1 1 1 1 1 -1 1 1 -1 0 0 0 0 1 -1 0 0 1 1 -1 -1 0 0 0 0 1 1 -1 -1 0 0 1 -1 0 0 0 0 1 -1 -1 1 -1 -1 -1 -1 1\n\
    mat 1 1 0 0 0 1 0 0 0 1\n\
    mat 2 -1 0 0 0 -1 0 0 0 -1\n\
    mat 3 1 0 0 0 -1 0 0 0 -1\n\
    mat 4 0 -1 0 -1 0 0 0 0 1\n\
    mat 5 0 1 0 -1 0 0 0 0 1\n\
    mat 6 0 -1 0 1 0 0 0 0 1\n\
    mat 7 0 1 0 1 0 0 0 0 1\n\
    mat 8 -1 0 0 0 1 0 0 0 -1\n\
    mat 9 1 0 0 0 1 0 0 0 -1\n\
    mat 10 1 0 0 0 0 -1 0 -1 0\n\
    mat 11 -1 0 0 0 0 -1 0 -1 0\n\
    mat 12 0 0 -1 1 0 0 0 1 0\n\
    mat 13 0 0 1 1 0 0 0 1 0\n\
    mat 14 0 0 -1 -1 0 0 0 1 0\n\
    mat 15 0 0 1 -1 0 0 0 1 0\n\
    mat 16 1 0 0 0 0 1 0 -1 0\n\
    mat 17 -1 0 0 0 0 1 0 -1 0\n\
    mat 18 0 1 0 0 0 1 -1 0 0\n\
    mat 19 0 -1 0 0 0 1 -1 0 0\n\
    mat 20 0 0 1 0 1 0 1 0 0\n\
    mat 21 0 0 -1 0 1 0 1 0 0\n\
    mat 22 0 0 1 0 -1 0 1 0 0\n\
    mat 23 0 0 -1 0 -1 0 1 0 0\n\
    mat 24 0 1 0 0 0 -1 -1 0 0\n\
    mat 25 0 -1 0 0 0 -1 -1 0 0\n\
    mat 26 0 1 0 0 0 1 1 0 0\n\
    mat 27 0 -1 0 0 0 1 1 0 0\n\
    mat 28 0 0 1 0 1 0 -1 0 0\n\
    mat 29 0 0 -1 0 1 0 -1 0 0\n\
    mat 30 0 0 1 0 -1 0 -1 0 0\n\
    mat 31 0 0 -1 0 -1 0 -1 0 0\n\
    mat 32 0 1 0 0 0 -1 1 0 0\n\
    mat 33 0 -1 0 0 0 -1 1 0 0\n\
    mat 34 1 0 0 0 0 -1 0 1 0\n\
    mat 35 -1 0 0 0 0 -1 0 1 0\n\
    mat 36 0 0 -1 1 0 0 0 -1 0\n\
    mat 37 0 0 1 1 0 0 0 -1 0\n\
    mat 38 0 0 -1 -1 0 0 0 -1 0\n\
    mat 39 0 0 1 -1 0 0 0 -1 0\n\
    mat 40 1 0 0 0 0 1 0 1 0\n\
    mat 41 -1 0 0 0 0 1 0 1 0\n\
    mat 42 -1 0 0 0 -1 0 0 0 1\n\
    mat 43 1 0 0 0 -1 0 0 0 1\n\
    mat 44 0 -1 0 -1 0 0 0 0 -1\n\
    mat 45 0 1 0 -1 0 0 0 0 -1\n\
    mat 46 0 -1 0 1 0 0 0 0 -1\n\
    mat 47 0 1 0 1 0 0 0 0 -1\n\
    mat 48 -1 0 0 0 1 0 0 0 1\n\
    rep S10 dim 3\n\
    char 3 -3 -1 -1 -1 -1 -1 -1 1 -1 1 0 0 0 0 -1 1 0 0 -1 -1 1 1 0 0 0 0 -1 -1 1 1 0 0 -1 1 0 0 0 0 -1 1 -1 1 1 1 1 1 1\n\
    mat 1 1 0 0 0 1 0 0 0 1\n\
    mat 2 -1 0 0 0 -1 0 0 0 -1\n\
    mat 3 1 0 0 0 -1 0 0 0 -1\n\
    mat 4 0 1 0 1 0 0 0 0 -1\n\
    mat 5 0 -1 0 1 0 0 0 0 -1\n\
    mat 6 0 1 0 -1 0 0 0 0 -1\n\
    mat 7 0 -1 0 -1 0 0 0 0 -1\n\
    mat 8 -1 0 0 0 1 0 0 0 -1\n\
    mat 9 1 0 0 0 1 0 0 0 -1\n\
    mat 10 -1 0 0 0 0 1 0 1 0\n\
    mat 11 1 0 0 0 0 1 0 1 0\n\
    mat 12 0 0 -1 1 0 0 0 1 0\n\
    mat 13 0 0 1 1 0 0 0 1 0\n\
    mat 14 0 0 -1 -1 0 0 0 1 0\n\
    mat 15 0 0 1 -1 0 0 0 1 0\n\
    mat 16 -1 0 0 0 0 -1 0 1 0\n\
    mat 17 1 0 0 0 0 -1 0 1 0\n\
    mat 18 0 1 0 0 0 1 -1 0 0\n\
    mat 19 0 -1 0 0 0 1 -1 0 0\n\
    mat 20 0 0 -1 0 -1 0 -1 0 0\n\
    mat 21 0 0 1 0 -1 0 -1 0 0\n\
    mat 22 0 0 -1 0 1 0 -1 0 0\n\
    mat 23 0 0 1 0 1 0 -1 0 0\n\
    mat 24 0 1 0 0 0 -1 -1 0 0\n\
    mat 25 0 -1 0 0 0 -1 -1 0 0\n\
    mat 26 0 1 0 0 0 1 1 0 0\n\
    mat 27 0 -1 0 0 0 1 1 0 0\n\
    mat 28 0 0 -1 0 -1 0 1 0 0\n\
    mat 29 0 0 1 0 -1 0 1 0 0\n\
    mat 30 0 0 -1 0 1 0 1 0 0\n\
    mat 31 0 0 1 0 1 0 1 0 0\n\
    mat 32 0 1 0 0 0 -1 1 0 0\n\
    mat 33 0 -1 0 0 0 -1 1 0 0\n\
    mat 34 -1 0 0 0 0 1 0 -1 0\n\
    mat 35 1 0 0 0 0 1 0 -1 0\n\
    mat 36 0 0 -1 1 0 0 0 -1 0\n\
    mat 37 0 0 1 1 0 0 0 -1 0\n\
    mat 38 0 0 -1 -1 0 0 0 -1 0\n\
    mat 39 0 0 1 -1 0 0 0 -1 0\n\
    mat 40 -1 0 0 0 0 -1 0 -1 0\n\
    mat 41 1 0 0 0 0 -1 0 -1 0\n\
    mat 42 -1 0 0 0 -1 0 0 0 1\n\
    mat 43 1 0 0 0 -1 0 0 0 1\n\
    mat 44 0 1 0 1 0 0 0 0 1\n\
    mat 45 0 -1 0 1 0 0 0 0 1\n\
    mat 46 0 1 0 -1 0 0 0 0 1\n\
    mat 47 0 -1 0 -1 0 0 0 0 1\n\
    mat 48 -1 0 0 0 1 0 0 0 1\n\
    end\n";

pub const TENSOR: &str = "\
    tensor 1\n\
    form 1\n\
    order 12\n\
    dim 3\n\
    part 0,0,0 S10 1 3\n\
    end\n";

pub const TENSOR_OF_2: &str = "\
    tensor 1\n\
    form sym2\n\
    order 12\n\
    dim 6\n\
    part 0,0,0 S1 1 1\n\
    part 0,0,0 S5 1 2\n\
    part 0,0,0 S7 1 3\n\
    end\n";

#[test]
fn point_group_at_gamma_as_in_its_session(rt: HostRuntime) -> Result<(), Fail> {
    for (words, input, code, text) in [
        ("small 0,0,0", P4MM, 0, SMALL),
        ("small 0,0,0", PM_3M, 0, SMALL_OF_2),
        ("tensor 1", PM_3M, 0, TENSOR),
        ("tensor sym2", PM_3M, 0, TENSOR_OF_2),
    ] {
        assert!(rt;
            answers(rt.alloc(), words, input.as_bytes(), code, text)?,
            "at {words}"
        );
    }
    Ok(())
}
