//! A small program that uses the library, and none of its texts: it makes the group P4mm from two triplets, takes the
//! zone centre, and prints the dimensions and characters of the irreducible representations there, which are those of
//! the point group 4mm.
#![tactic(auto)]

mod error;
mod table;

use error::TableError;
use irr_io::{StdSink, write_all};
use irr_sparse::Sparse;
use std::alloc::Global;
use std::io;
use std::process::ExitCode;
use table::{characters_at, group_of, print};

fn main(rt: HostRuntime) -> ExitCode {
    let Ok(text) = table_of_4mm(rt.alloc()) else {
        return ExitCode::FAILURE;
    };
    let mut sink = StdSink::new(io::writer(&rt));
    match write_all(&mut sink, &text) {
        Ok(()) => ExitCode::SUCCESS,
        Err(_) => ExitCode::FAILURE,
    }
}

// The lines of the table of 4mm: a fourfold axis and a mirror plane that holds it.
fn table_of_4mm(alloc: Global) -> Result<Vec<u8>, TableError> {
    let group = group_of(alloc, b"-y,x,z".as_slice(), b"x,-y,z".as_slice())?;
    let star = characters_at::<Sparse>(alloc, &group, b"0,0,0".as_slice())?;
    let text = print(alloc, &star)?;
    Ok(text)
}
