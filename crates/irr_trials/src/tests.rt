mod cuts;
mod examples;
mod forged;
mod largest;
mod reads;
mod rooms;
mod writes;

use irr_io::{MemSink, MemSource};
use irr_top::{Status, run};
use std::alloc::Global;
use std::test::Fail;

// The status of a run with these words, separated by blanks, and what its sink holds behind it.
fn ran(
    alloc: Global,
    words: &str,
    mut source: MemSource,
    mut sink: MemSink,
) -> Result<(Status, Vec<u8>), Fail> {
    let mut list = Vec::new(alloc);
    for word in words.split(' ') {
        list.push(Vec::from_slice(alloc, word.as_bytes())?)?;
    }
    let status = run(alloc, &list, &mut source, &mut sink);
    let held = Vec::from_slice(alloc, sink.held())?;
    Ok((status, held))
}

// A source of an input that hands it out byte by byte, by reads of which those with these numbers, from 0, fail.
fn slow_source(alloc: Global, input: &str, fails: Vec<u64>) -> Result<MemSource, Fail> {
    let bytes = Vec::from_slice(alloc, input.as_bytes())?;
    Ok(MemSource::new(bytes, 1, fails))
}

// Whether a run with these words on this input, by streams that do not fail, ends with this status and writes this text.
fn answers(alloc: Global, words: &str, input: &[u8], code: u8, text: &str) -> Result<bool, Fail> {
    let bytes = Vec::from_slice(alloc, input)?;
    let source = MemSource::new(bytes, 1 << 16, Vec::new(alloc));
    let sink = MemSink::new(alloc, 1 << 16, 1 << 16, Vec::new(alloc))?;
    let (status, held) = ran(alloc, words, source, sink)?;
    Ok(status.code() == code && held.as_slice() == text.as_bytes())
}

// A screw axis: the one generator of P2_1.
const SCREW: &str = "-x,y+1/2,-z\n";

// Below, what each command writes of the screw axis at the face of the zone, where the square of the screw is the
// translation by y, whose phase is -1: the screw is i or -i.
const STAR: &str =
    "star 1\nwave 0,1/2,0\norder 4\narms 1\narm 1 0,1/2,0 x,y,z\nops 2\nop 1 x,y,z\nop 2 -x,y+1/2,-z\n\
    factor 1 1:0 2:0\nfactor 2 2:0 1:2\nend\n";

const SMALL: &str = "report 1\nwave 0,1/2,0\norder 4\nops 2\nop 1 x,y,z\nop 2 -x,y+1/2,-z\nreps 2\n\
    rep S1 dim 1\nchar 1 1*z^1\nmat 1 1\nmat 2 1*z^1\n\
    rep S2 dim 1\nchar 1 -1*z^1\nmat 1 1\nmat 2 -1*z^1\nend\n";

// The translations by x and z are 1, that by y is -1.
const FULL: &str =
    "full 1\nwave 0,1/2,0\norder 4\narms 1\narm 1 0,1/2,0 x,y,z\nops 2\nop 1 x,y,z\nop 2 -x,y+1/2,-z\n\
    gens 4\ngen 1 x+1,y,z\ngen 2 x,y+1,z\ngen 3 x,y,z+1\ngen 4 -x,y+1/2,-z\nreps 2\n\
    rep S1 dim 1\nchar 1 1*z^1\nmat 1 1\nmat 2 -1\nmat 3 1\nmat 4 1*z^1\n\
    rep S2 dim 1\nchar 1 -1*z^1\nmat 1 1\nmat 2 -1\nmat 3 1\nmat 4 -1*z^1\nend\n";

// i times i is -1, and i times -i is 1: the screw at the zone centre.
const PRODUCT: &str =
    "product 1\norder 4\nwaves 0,1/2,0 0,1/2,0\npair S1 S1 dim 1\npart 0,0,0 S2 1 1\n\
    pair S1 S2 dim 1\npart 0,0,0 S1 1 1\npair S2 S1 dim 1\npart 0,0,0 S1 1 1\n\
    pair S2 S2 dim 1\npart 0,0,0 S2 1 1\nend\n";

// From the zone centre to that face the phase of the screw's vector exchanges the labels.
const COMPAT: &str =
    "compat 1\norder 4\npoint 0 0,0,0\npoint 1 0,1/2,0\nops 2\nop 1 x,y,z\nop 2 -x,y+1/2,-z\nreps 2\n\
    rep L1 dim 1\nchar 1 1\nrep L2 dim 1\nchar 1 -1\n\
    from 0 S1 dim 1\npart L1 1 1\nfrom 0 S2 dim 1\npart L2 1 1\n\
    from 1 S1 dim 1\npart L2 1 1\nfrom 1 S2 dim 1\npart L1 1 1\nend\n";

const SQUARE: &str =
    "square 1\norder 4\nwave 0,1/2,0\nsym S1 dim 1\npart 0,0,0 S2 1 1\nanti S1 dim 0\n\
    sym S2 dim 1\npart 0,0,0 S2 1 1\nanti S2 dim 0\nend\n";

// A vector along the axis stays, the two across it change their signs.
const TENSOR: &str =
    "tensor 1\nform 1\norder 2\ndim 3\npart 0,0,0 S1 1 1\npart 0,0,0 S2 2 1\nend\n";

// The screw exchanges the two sites of a point off the axis.
const SITE: &str =
    "site 1\norder 4\nwave 0,1/2,0\npoint 1/8,0,0\nops 1\nop 1 x,y,z\nsites 2\nsite 1 1/8,0,0\nsite 2 7/8,1/2,0\n\
    reps 1\nrep T1 dim 2\npart S1 1 1\npart S2 1 1\ndisplace dim 6\npart S1 3 1\npart S2 3 1\nend\n";

const REAL: &str =
    "real 1\nwave 0,1/2,0\norder 4\nreps 2\nrep S1 dim 1 type 0\nrep S2 dim 1 type 0\nend\n";

// What `gen` writes for the number 0: the group P2_12_12_1 at the zone centre, from its two generators and 2,000 lines more.
const SUMMARY: &str =
    "gen 1\nnumber 0\nlines 2002\nwave 0,0,0\norder 2\nops 4\nreps 4\ndims 1 1 1 1\nend\n";

// The generator and behind it the report of its small representations.
const JUDGED: &str =
    "-x,y+1/2,-z\nreport 1\nwave 0,1/2,0\norder 4\nops 2\nop 1 x,y,z\nop 2 -x,y+1/2,-z\nreps 2\n\
    rep S1 dim 1\nchar 1 1*z^1\nmat 1 1\nmat 2 1*z^1\n\
    rep S2 dim 1\nchar 1 -1*z^1\nmat 1 1\nmat 2 -1*z^1\nend\n";
