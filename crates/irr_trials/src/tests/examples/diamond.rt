// The commands of examples/diamond, as examples/as_tests writes them.
use crate::tests::*;

pub const OPERATIONS: &str = "\
    'x, y, z'\n\
    '-x+3/4, -y+1/4, z+1/2'\n\
    '-x+1/4, y+1/2, -z+3/4'\n\
    'x+1/2, -y+3/4, -z+1/4'\n\
    'z, x, y'\n\
    'z+1/2, -x+3/4, -y+1/4'\n\
    '-z+3/4, -x+1/4, y+1/2'\n\
    '-z+1/4, x+1/2, -y+3/4'\n\
    'y, z, x'\n\
    '-y+1/4, z+1/2, -x+3/4'\n\
    'y+1/2, -z+3/4, -x+1/4'\n\
    '-y+3/4, -z+1/4, x+1/2'\n\
    'y+3/4, x+1/4, -z+1/2'\n\
    '-y, -x, -z'\n\
    'y+1/4, -x+1/2, z+3/4'\n\
    '-y+1/2, x+3/4, z+1/4'\n\
    'x+3/4, z+1/4, -y+1/2'\n\
    '-x+1/2, z+3/4, y+1/4'\n\
    '-x, -z, -y'\n\
    'x+1/4, -z+1/2, y+3/4'\n\
    'z+3/4, y+1/4, -x+1/2'\n\
    'z+1/4, -y+1/2, x+3/4'\n\
    '-z+1/2, y+3/4, x+1/4'\n\
    '-z, -y, -x'\n\
    '-x, -y, -z'\n\
    'x+1/4, y+3/4, -z+1/2'\n\
    'x+3/4, -y+1/2, z+1/4'\n\
    '-x+1/2, y+1/4, z+3/4'\n\
    '-z, -x, -y'\n\
    '-z+1/2, x+1/4, y+3/4'\n\
    'z+1/4, x+3/4, -y+1/2'\n\
    'z+3/4, -x+1/2, y+1/4'\n\
    '-y, -z, -x'\n\
    'y+3/4, -z+1/2, x+1/4'\n\
    '-y+1/2, z+1/4, x+3/4'\n\
    'y+1/4, z+3/4, -x+1/2'\n\
    '-y+1/4, -x+3/4, z+1/2'\n\
    'y, x, z'\n\
    '-y+3/4, x+1/2, -z+1/4'\n\
    'y+1/2, -x+1/4, -z+3/4'\n\
    '-x+1/4, -z+3/4, y+1/2'\n\
    'x+1/2, -z+1/4, -y+3/4'\n\
    'x, z, y'\n\
    '-x+3/4, z+1/2, -y+1/4'\n\
    '-z+1/4, -y+3/4, x+1/2'\n\
    '-z+3/4, y+1/2, -x+1/4'\n\
    'z+1/2, -y+1/4, -x+3/4'\n\
    'z, y, x'\n\
    'x, y+1/2, z+1/2'\n\
    '-x+3/4, -y+3/4, z'\n\
    '-x+1/4, y, -z+1/4'\n\
    'x+1/2, -y+1/4, -z+3/4'\n\
    'z, x+1/2, y+1/2'\n\
    'z+1/2, -x+1/4, -y+3/4'\n\
    '-z+3/4, -x+3/4, y'\n\
    '-z+1/4, x, -y+1/4'\n\
    'y, z+1/2, x+1/2'\n\
    '-y+1/4, z, -x+1/4'\n\
    'y+1/2, -z+1/4, -x+3/4'\n\
    '-y+3/4, -z+3/4, x'\n\
    'y+3/4, x+3/4, -z'\n\
    '-y, -x+1/2, -z+1/2'\n\
    'y+1/4, -x, z+1/4'\n\
    '-y+1/2, x+1/4, z+3/4'\n\
    'x+3/4, z+3/4, -y'\n\
    '-x+1/2, z+1/4, y+3/4'\n\
    '-x, -z+1/2, -y+1/2'\n\
    'x+1/4, -z, y+1/4'\n\
    'z+3/4, y+3/4, -x'\n\
    'z+1/4, -y, x+1/4'\n\
    '-z+1/2, y+1/4, x+3/4'\n\
    '-z, -y+1/2, -x+1/2'\n\
    '-x, -y+1/2, -z+1/2'\n\
    'x+1/4, y+1/4, -z'\n\
    'x+3/4, -y, z+3/4'\n\
    '-x+1/2, y+3/4, z+1/4'\n\
    '-z, -x+1/2, -y+1/2'\n\
    '-z+1/2, x+3/4, y+1/4'\n\
    'z+1/4, x+1/4, -y'\n\
    'z+3/4, -x, y+3/4'\n\
    '-y, -z+1/2, -x+1/2'\n\
    'y+3/4, -z, x+3/4'\n\
    '-y+1/2, z+3/4, x+1/4'\n\
    'y+1/4, z+1/4, -x'\n\
    '-y+1/4, -x+1/4, z'\n\
    'y, x+1/2, z+1/2'\n\
    '-y+3/4, x, -z+3/4'\n\
    'y+1/2, -x+3/4, -z+1/4'\n\
    '-x+1/4, -z+1/4, y'\n\
    'x+1/2, -z+3/4, -y+1/4'\n\
    'x, z+1/2, y+1/2'\n\
    '-x+3/4, z, -y+3/4'\n\
    '-z+1/4, -y+1/4, x'\n\
    '-z+3/4, y, -x+3/4'\n\
    'z+1/2, -y+3/4, -x+1/4'\n\
    'z, y+1/2, x+1/2'\n\
    'x+1/2, y, z+1/2'\n\
    '-x+1/4, -y+1/4, z'\n\
    '-x+3/4, y+1/2, -z+1/4'\n\
    'x, -y+3/4, -z+3/4'\n\
    'z+1/2, x, y+1/2'\n\
    'z, -x+3/4, -y+3/4'\n\
    '-z+1/4, -x+1/4, y'\n\
    '-z+3/4, x+1/2, -y+1/4'\n\
    'y+1/2, z, x+1/2'\n\
    '-y+3/4, z+1/2, -x+1/4'\n\
    'y, -z+3/4, -x+3/4'\n\
    '-y+1/4, -z+1/4, x'\n\
    'y+1/4, x+1/4, -z'\n\
    '-y+1/2, -x, -z+1/2'\n\
    'y+3/4, -x+1/2, z+1/4'\n\
    '-y, x+3/4, z+3/4'\n\
    'x+1/4, z+1/4, -y'\n\
    '-x, z+3/4, y+3/4'\n\
    '-x+1/2, -z, -y+1/2'\n\
    'x+3/4, -z+1/2, y+1/4'\n\
    'z+1/4, y+1/4, -x'\n\
    'z+3/4, -y+1/2, x+1/4'\n\
    '-z, y+3/4, x+3/4'\n\
    '-z+1/2, -y, -x+1/2'\n\
    '-x+1/2, -y, -z+1/2'\n\
    'x+3/4, y+3/4, -z'\n\
    'x+1/4, -y+1/2, z+3/4'\n\
    '-x, y+1/4, z+1/4'\n\
    '-z+1/2, -x, -y+1/2'\n\
    '-z, x+1/4, y+1/4'\n\
    'z+3/4, x+3/4, -y'\n\
    'z+1/4, -x+1/2, y+3/4'\n\
    '-y+1/2, -z, -x+1/2'\n\
    'y+1/4, -z+1/2, x+3/4'\n\
    '-y, z+1/4, x+1/4'\n\
    'y+3/4, z+3/4, -x'\n\
    '-y+3/4, -x+3/4, z'\n\
    'y+1/2, x, z+1/2'\n\
    '-y+1/4, x+1/2, -z+3/4'\n\
    'y, -x+1/4, -z+1/4'\n\
    '-x+3/4, -z+3/4, y'\n\
    'x, -z+1/4, -y+1/4'\n\
    'x+1/2, z, y+1/2'\n\
    '-x+1/4, z+1/2, -y+3/4'\n\
    '-z+3/4, -y+3/4, x'\n\
    '-z+1/4, y+1/2, -x+3/4'\n\
    'z, -y+1/4, -x+1/4'\n\
    'z+1/2, y, x+1/2'\n\
    'x+1/2, y+1/2, z'\n\
    '-x+1/4, -y+3/4, z+1/2'\n\
    '-x+3/4, y, -z+3/4'\n\
    'x, -y+1/4, -z+1/4'\n\
    'z+1/2, x+1/2, y'\n\
    'z, -x+1/4, -y+1/4'\n\
    '-z+1/4, -x+3/4, y+1/2'\n\
    '-z+3/4, x, -y+3/4'\n\
    'y+1/2, z+1/2, x'\n\
    '-y+3/4, z, -x+3/4'\n\
    'y, -z+1/4, -x+1/4'\n\
    '-y+1/4, -z+3/4, x+1/2'\n\
    'y+1/4, x+3/4, -z+1/2'\n\
    '-y+1/2, -x+1/2, -z'\n\
    'y+3/4, -x, z+3/4'\n\
    '-y, x+1/4, z+1/4'\n\
    'x+1/4, z+3/4, -y+1/2'\n\
    '-x, z+1/4, y+1/4'\n\
    '-x+1/2, -z+1/2, -y'\n\
    'x+3/4, -z, y+3/4'\n\
    'z+1/4, y+3/4, -x+1/2'\n\
    'z+3/4, -y, x+3/4'\n\
    '-z, y+1/4, x+1/4'\n\
    '-z+1/2, -y+1/2, -x'\n\
    '-x+1/2, -y+1/2, -z'\n\
    'x+3/4, y+1/4, -z+1/2'\n\
    'x+1/4, -y, z+1/4'\n\
    '-x, y+3/4, z+3/4'\n\
    '-z+1/2, -x+1/2, -y'\n\
    '-z, x+3/4, y+3/4'\n\
    'z+3/4, x+1/4, -y+1/2'\n\
    'z+1/4, -x, y+1/4'\n\
    '-y+1/2, -z+1/2, -x'\n\
    'y+1/4, -z, x+1/4'\n\
    '-y, z+3/4, x+3/4'\n\
    'y+3/4, z+1/4, -x+1/2'\n\
    '-y+3/4, -x+1/4, z+1/2'\n\
    'y+1/2, x+1/2, z'\n\
    '-y+1/4, x, -z+1/4'\n\
    'y, -x+3/4, -z+3/4'\n\
    '-x+3/4, -z+1/4, y+1/2'\n\
    'x, -z+3/4, -y+3/4'\n\
    'x+1/2, z+1/2, y'\n\
    '-x+1/4, z, -y+1/4'\n\
    '-z+3/4, -y+1/4, x+1/2'\n\
    '-z+1/4, y, -x+1/4'\n\
    'z, -y+3/4, -x+3/4'\n\
    'z+1/2, y+1/2, x'\n";

pub const SMALL: &str = "\
    report 1\n\
    wave 0,1,0\n\
    order 24\n\
    ops 16\n\
    op 1 x,y,z\n\
    op 2 -x,-y,-z\n\
    op 3 -x+1/4,-y+1/4,z\n\
    op 4 -x+1/4,y,-z+1/4\n\
    op 5 -x,y+1/4,z+1/4\n\
    op 6 -z,-y,-x\n\
    op 7 -z+1/4,-y+1/4,x\n\
    op 8 -z+1/4,y,-x+1/4\n\
    op 9 -z,y+1/4,x+1/4\n\
    op 10 z,-y+1/4,-x+1/4\n\
    op 11 z+1/4,-y,x+1/4\n\
    op 12 z+1/4,y+1/4,-x\n\
    op 13 z,y,x\n\
    op 14 x,-y+1/4,-z+1/4\n\
    op 15 x+1/4,-y,z+1/4\n\
    op 16 x+1/4,y+1/4,-z\n\
    reps 4\n\
    rep S1 dim 2\n\
    char 2 0 0 2 0 0 0 2 0 0 0 0 2 0 0 0\n\
    mat 1 1 0 0 1\n\
    mat 2 1 0 0 -1\n\
    mat 3 0 1 1 0\n\
    mat 4 1 0 0 1\n\
    mat 5 0 -1 1 0\n\
    mat 6 1 0 0 -1\n\
    mat 7 0 1 1 0\n\
    mat 8 1 0 0 1\n\
    mat 9 0 -1 1 0\n\
    mat 10 0 1 1 0\n\
    mat 11 1 0 0 -1\n\
    mat 12 0 -1 1 0\n\
    mat 13 1 0 0 1\n\
    mat 14 0 1 1 0\n\
    mat 15 1 0 0 -1\n\
    mat 16 0 -1 1 0\n\
    rep S2 dim 2\n\
    char 2 0 0 2 0 0 0 -2 0 0 0 0 -2 0 0 0\n\
    mat 1 1 0 0 1\n\
    mat 2 1 0 0 -1\n\
    mat 3 0 1 1 0\n\
    mat 4 1 0 0 1\n\
    mat 5 0 -1 1 0\n\
    mat 6 -1 0 0 1\n\
    mat 7 0 -1 -1 0\n\
    mat 8 -1 0 0 -1\n\
    mat 9 0 1 -1 0\n\
    mat 10 0 -1 -1 0\n\
    mat 11 -1 0 0 1\n\
    mat 12 0 1 -1 0\n\
    mat 13 -1 0 0 -1\n\
    mat 14 0 1 1 0\n\
    mat 15 1 0 0 -1\n\
    mat 16 0 -1 1 0\n\
    rep S3 dim 2\n\
    char 2 0 0 -2 0 2 0 0 0 0 -2 0 0 0 0 0\n\
    mat 1 1 0 0 1\n\
    mat 2 1 0 0 -1\n\
    mat 3 0 1 1 0\n\
    mat 4 -1 0 0 -1\n\
    mat 5 0 1 -1 0\n\
    mat 6 1 0 0 1\n\
    mat 7 0 -1 1 0\n\
    mat 8 -1 0 0 1\n\
    mat 9 0 -1 -1 0\n\
    mat 10 0 1 -1 0\n\
    mat 11 -1 0 0 -1\n\
    mat 12 0 1 1 0\n\
    mat 13 1 0 0 -1\n\
    mat 14 0 -1 -1 0\n\
    mat 15 -1 0 0 1\n\
    mat 16 0 -1 1 0\n\
    rep S4 dim 2\n\
    char 2 0 0 -2 0 -2 0 0 0 0 2 0 0 0 0 0\n\
    mat 1 1 0 0 1\n\
    mat 2 1 0 0 -1\n\
    mat 3 0 1 1 0\n\
    mat 4 -1 0 0 -1\n\
    mat 5 0 1 -1 0\n\
    mat 6 -1 0 0 -1\n\
    mat 7 0 1 -1 0\n\
    mat 8 1 0 0 -1\n\
    mat 9 0 1 1 0\n\
    mat 10 0 -1 1 0\n\
    mat 11 1 0 0 1\n\
    mat 12 0 -1 -1 0\n\
    mat 13 -1 0 0 1\n\
    mat 14 0 -1 -1 0\n\
    mat 15 -1 0 0 1\n\
    mat 16 0 -1 1 0\n\
    end\n";

pub const COMPAT: &str = "\
    compat 1\n\
    order 24\n\
    point 0 0,0,0\n\
    point 1 0,1,0\n\
    ops 8\n\
    op 1 x,y,z\n\
    op 2 -x+1/4,y,-z+1/4\n\
    op 3 -x,y+1/4,z+1/4\n\
    op 4 -z+1/4,y,-x+1/4\n\
    op 5 -z,y+1/4,x+1/4\n\
    op 6 z+1/4,y+1/4,-x\n\
    op 7 z,y,x\n\
    op 8 x+1/4,y+1/4,-z\n\
    reps 5\n\
    rep L1 dim 1\n\
    char 1 1 1 1 1 1 1 1\n\
    rep L2 dim 1\n\
    char 1 1 1 -1 -1 -1 -1 1\n\
    rep L3 dim 1\n\
    char 1 1 -1 1 -1 -1 1 -1\n\
    rep L4 dim 1\n\
    char 1 1 -1 -1 1 1 -1 -1\n\
    rep L5 dim 2\n\
    char 2 -2 0 0 0 0 0 0\n\
    from 0 S1 dim 1\n\
    part L1 1 1\n\
    from 0 S2 dim 1\n\
    part L2 1 1\n\
    from 0 S3 dim 1\n\
    part L4 1 1\n\
    from 0 S4 dim 1\n\
    part L3 1 1\n\
    from 0 S5 dim 2\n\
    part L1 1 1\n\
    part L2 1 1\n\
    from 0 S6 dim 2\n\
    part L3 1 1\n\
    part L4 1 1\n\
    from 0 S7 dim 3\n\
    part L3 1 1\n\
    part L5 1 2\n\
    from 0 S8 dim 3\n\
    part L4 1 1\n\
    part L5 1 2\n\
    from 0 S9 dim 3\n\
    part L2 1 1\n\
    part L5 1 2\n\
    from 0 S10 dim 3\n\
    part L1 1 1\n\
    part L5 1 2\n\
    from 1 S1 dim 2\n\
    part L1 1 1\n\
    part L3 1 1\n\
    from 1 S2 dim 2\n\
    part L2 1 1\n\
    part L4 1 1\n\
    from 1 S3 dim 2\n\
    part L5 1 2\n\
    from 1 S4 dim 2\n\
    part L5 1 2\n\
    end\n";

pub const SITE: &str = "\
    site 1\n\
    order 12\n\
    wave 0,0,0\n\
    point 1/8,1/8,1/8\n\
    ops 24\n\
    op 1 x,y,z\n\
    op 2 -x+1/4,-y+1/4,z\n\
    op 3 -x+1/4,-z+1/4,y\n\
    op 4 -x+1/4,z,-y+1/4\n\
    op 5 -x+1/4,y,-z+1/4\n\
    op 6 -y+1/4,-x+1/4,z\n\
    op 7 -y+1/4,-z+1/4,x\n\
    op 8 -y+1/4,z,-x+1/4\n\
    op 9 -y+1/4,x,-z+1/4\n\
    op 10 -z+1/4,-x+1/4,y\n\
    op 11 -z+1/4,-y+1/4,x\n\
    op 12 -z+1/4,y,-x+1/4\n\
    op 13 -z+1/4,x,-y+1/4\n\
    op 14 z,-x+1/4,-y+1/4\n\
    op 15 z,-y+1/4,-x+1/4\n\
    op 16 z,y,x\n\
    op 17 z,x,y\n\
    op 18 y,-x+1/4,-z+1/4\n\
    op 19 y,-z+1/4,-x+1/4\n\
    op 20 y,z,x\n\
    op 21 y,x,z\n\
    op 22 x,-y+1/4,-z+1/4\n\
    op 23 x,-z+1/4,-y+1/4\n\
    op 24 x,z,y\n\
    sites 2\n\
    site 1 1/8,1/8,1/8\n\
    site 2 7/8,7/8,7/8\n\
    reps 5\n\
    rep T1 dim 2\n\
    part S1 1 1\n\
    part S4 1 1\n\
    rep T2 dim 2\n\
    part S2 1 1\n\
    part S3 1 1\n\
    rep T3 dim 4\n\
    part S5 1 2\n\
    part S6 1 2\n\
    rep T4 dim 6\n\
    part S8 1 3\n\
    part S9 1 3\n\
    rep T5 dim 6\n\
    part S7 1 3\n\
    part S10 1 3\n\
    displace dim 6\n\
    part S7 1 3\n\
    part S10 1 3\n\
    end\n";

pub const SITE_OF_2: &str = "\
    site 1\n\
    order 24\n\
    wave 0,1,0\n\
    point 1/8,1/8,1/8\n\
    ops 24\n\
    op 1 x,y,z\n\
    op 2 -x+1/4,-y+1/4,z\n\
    op 3 -x+1/4,-z+1/4,y\n\
    op 4 -x+1/4,z,-y+1/4\n\
    op 5 -x+1/4,y,-z+1/4\n\
    op 6 -y+1/4,-x+1/4,z\n\
    op 7 -y+1/4,-z+1/4,x\n\
    op 8 -y+1/4,z,-x+1/4\n\
    op 9 -y+1/4,x,-z+1/4\n\
    op 10 -z+1/4,-x+1/4,y\n\
    op 11 -z+1/4,-y+1/4,x\n\
    op 12 -z+1/4,y,-x+1/4\n\
    op 13 -z+1/4,x,-y+1/4\n\
    op 14 z,-x+1/4,-y+1/4\n\
    op 15 z,-y+1/4,-x+1/4\n\
    op 16 z,y,x\n\
    op 17 z,x,y\n\
    op 18 y,-x+1/4,-z+1/4\n\
    op 19 y,-z+1/4,-x+1/4\n\
    op 20 y,z,x\n\
    op 21 y,x,z\n\
    op 22 x,-y+1/4,-z+1/4\n\
    op 23 x,-z+1/4,-y+1/4\n\
    op 24 x,z,y\n\
    sites 2\n\
    site 1 1/8,1/8,1/8\n\
    site 2 7/8,7/8,7/8\n\
    reps 5\n\
    rep T1 dim 2\n\
    part S1 1 2\n\
    rep T2 dim 2\n\
    part S2 1 2\n\
    rep T3 dim 4\n\
    part S1 1 2\n\
    part S2 1 2\n\
    rep T4 dim 6\n\
    part S2 1 2\n\
    part S3 1 2\n\
    part S4 1 2\n\
    rep T5 dim 6\n\
    part S1 1 2\n\
    part S3 1 2\n\
    part S4 1 2\n\
    displace dim 6\n\
    part S1 1 2\n\
    part S3 1 2\n\
    part S4 1 2\n\
    end\n";

pub const TENSOR: &str = "\
    tensor 1\n\
    form 1\n\
    order 12\n\
    dim 3\n\
    part 0,0,0 S10 1 3\n\
    end\n";

pub const TENSOR_OF_2: &str = "\
    tensor 1\n\
    form sym2\n\
    order 12\n\
    dim 6\n\
    part 0,0,0 S1 1 1\n\
    part 0,0,0 S5 1 2\n\
    part 0,0,0 S7 1 3\n\
    end\n";

#[test]
fn diamond_as_in_its_session(rt: HostRuntime) -> Result<(), Fail> {
    for (words, input, code, text) in [
        ("small 0,1,0", OPERATIONS, 0, SMALL),
        ("compat 0,0,0 0,1,0", OPERATIONS, 0, COMPAT),
        ("site 1/8,1/8,1/8 0,0,0", OPERATIONS, 0, SITE),
        ("site 1/8,1/8,1/8 0,1,0", OPERATIONS, 0, SITE_OF_2),
        ("tensor 1", OPERATIONS, 0, TENSOR),
        ("tensor sym2", OPERATIONS, 0, TENSOR_OF_2),
    ] {
        assert!(rt;
            answers(rt.alloc(), words, input.as_bytes(), code, text)?,
            "at {words}"
        );
    }
    Ok(())
}
