//! Irreducible representations of space groups: the words of the command line are a command, as `small K`,
//! and standard input has the generators of a space group; `run` says what is written and how it ends.
#![tactic(auto)]

use irr_io::{StdSink, StdSource};
use irr_memory::Memory;
use irr_top::{Status, run};
use std::alloc::Global;
use std::io::ErrorKind;
use std::process::ExitCode;
use std::rt::Env;
use std::{env, io};

/// The exit status where the system does not give the words of the command line.
const NO_WORDS: u8 = 10;

fn main(rt: HostRuntime) -> ExitCode {
    let code = match words(&rt) {
        Ok(words) => {
            let mut source = StdSource::new(rt.reader());
            let mut sink = StdSink::new(io::writer(&rt));
            run(rt.alloc(), &words, &mut source, &mut sink).code()
        }
        Err(error) if error.kind() == ErrorKind::OutOfMemory => Status::Memory.code(),
        Err(_) => NO_WORDS,
    };
    ExitCode::from(code)
}

// The words of the command line after the program's name.
fn words(rt: &(impl Env + AllocGlobal)) -> io::Result<Vec<Vec<u8>>> {
    let mut words = Vec::new(rt.alloc());
    for word in env::args(rt)?.skip(1) {
        words.push(word.into_bytes())?;
    }
    Ok(words)
}
