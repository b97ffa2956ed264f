mod check;
mod compat;
mod full;
mod made;
mod numbers;
mod product;
mod quoted;
mod real;
mod refusal;
mod site;
mod small;
mod square;
mod star;
mod subduce;
mod tensor;

use super::*;
use irr_io::{MemSink, MemSource};
use irr_lines::next_line;
use std::alloc::Global;
use std::test::Fail;

// The report of one operation and one representation, at a wave vector of an order.
fn report(alloc: Global, wave: &str, order: u32) -> Result<String, Fail> {
    Ok(format!(in alloc;
        "report 1\nwave {wave}\norder {order}\nops 1\nop 1 x,y,z\nreps 1\nrep S1 dim 1\nchar 1\nmat 1 1\nend\n"
    )?)
}

// What a run with these words on this input writes to a sink with this room, and its status.
fn ran(
    alloc: Global,
    words: &[&str],
    input: Vec<u8>,
    fails: Vec<u64>,
    room: usize,
) -> Result<(Status, Vec<u8>), Fail> {
    let mut list = Vec::new(alloc);
    for word in words {
        list.push(Vec::from_slice(alloc, word.as_bytes())?)?;
    }
    let mut source = MemSource::new(input, 1 << 16, fails);
    let mut sink = MemSink::new(alloc, room, 7, Vec::new(alloc))?;
    let status = run(alloc, &list, &mut source, &mut sink);
    let held = Vec::from_slice(alloc, sink.held())?;
    Ok((status, held))
}

// What a command at a wave vector writes on this input, and its status.
fn at(alloc: Global, command: &str, input: &str, wave: &str) -> Result<(Status, Vec<u8>), Fail> {
    let bytes = Vec::from_slice(alloc, input.as_bytes())?;
    ran(alloc, &[command, wave], bytes, Vec::new(alloc), 1 << 20)
}

// What `small` at a wave vector writes on this input, and its status.
fn small_at(alloc: Global, input: &str, wave: &str) -> Result<(Status, Vec<u8>), Fail> {
    at(alloc, "small", input, wave)
}

// What `check` writes on this input, and its status.
fn checked(alloc: Global, input: &[u8]) -> Result<(Status, Vec<u8>), Fail> {
    let bytes = Vec::from_slice(alloc, input)?;
    ran(alloc, &["check"], bytes, Vec::new(alloc), 1 << 20)
}

// Whether `check` finds that a report behind this input is right and complete.
fn is_accepted(alloc: Global, input: &str, report: &[u8]) -> Result<bool, Fail> {
    let mut both = Vec::from_slice(alloc, input.as_bytes())?;
    both.push(b'\n')?;
    both.extend_from_slice(report)?;
    let (status, text) = checked(alloc, &both)?;
    Ok(status.code() == 0 && text.as_slice() == b"yes\n".as_slice())
}

// Whether the lines of a text that begin with a word are these, or begin with these.
fn lines_are(text: &[u8], word: &str, lines: &[&str], whole: bool) -> bool {
    let mut rest = text;
    let mut count: usize = 0;
    while !rest.is_empty() {
        let (line, behind) = next_line(rest);
        if line.starts_with(word.as_bytes()) {
            let Some(expected) = lines.get(count) else {
                return false;
            };
            if !line.starts_with(expected.as_bytes()) {
                return false;
            }
            if whole && line.len() != expected.len() {
                return false;
            }
            count += 1;
        }
        rest = behind;
    }
    count == lines.len()
}

const INVERSION: &str = "-x,-y,-z\n";

const CUBIC: &str = "-y,x,z\nz,x,y\n-x,-y,-z\n";

const SCREW: &str = "-x,y+1/2,-z\n";

const ORTHORHOMBIC: &str = "x+1/2,-y+1/2,-z\n-x,y+1/2,-z+1/2\n";

const BODY_CENTRED: &str = "x+1/2,y+1/2,z+1/2\n-x+1/2,-y,z+1/2\n-x,y+1/2,-z+1/2\nz,x,y\n";

const DIAMOND: &str =
    "x,y+1/2,z+1/2\nx+1/2,y,z+1/2\n-x+3/4,-y+1/4,z+1/2\n-x+1/4,y+1/2,-z+3/4\nz,x,y\n\
    y+3/4,x+1/4,-z+1/2\n-x,-y,-z\n";

// The screw axis at the face of the zone: the square of its matrix is that of the translation, -1.
const SCREW_REPORT: &str =
    "report 1\nwave 0,1/2,0\norder 4\nops 2\nop 1 x,y,z\nop 2 -x,y+1/2,-z\nreps 2\n\
    rep S1 dim 1\nchar 1 1*z^1\nmat 1 1\nmat 2 1*z^1\n\
    rep S2 dim 1\nchar 1 -1*z^1\nmat 1 1\nmat 2 -1*z^1\nend\n";
