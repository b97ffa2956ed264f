// The top call.
ghost use Rattle.std.specs.Prelude.{◌≡◌, ◌+◌, ◌⊎◌};
ghost use Rattle.irr_io.specs.Count.{CountsAtMost};
ghost use Rattle.irr_input.specs.Command.{texts};
ghost use Rattle.irr_top.specs.Asked.{input_limit};
ghost use Rattle.irr_top.specs.Outcome.{Outcome, IsOwed, IsFailure};
ghost use Rattle.irr_top.specs.declared.status.Status.{Status};

use crate::answer::answer;
use crate::refusal::refuse;
use crate::request::served;
use crate::status::Status;
use irr_io::{Sink, Source};
use std::alloc::Global;

/// Serves one command: reads its words, reads the input from `source` to its end, or makes it where they name the
/// number of a made input, and writes the text that they ask for to `sink`.
pub fn run<I: Source, O: Sink>(
    alloc: Global,
    words: &[Vec<u8>],
    source: &mut I,
    sink: &mut O,
) -> Status
    // The status and what was written are those that the words and the whole input ask for, or tell what went wrong.
    ensures outcome { Outcome (texts words.now) (I.view source.old) (I.view source.new)
        (O.view sink.old) (O.view sink.new) result }

    // What is asked for is answered, unless a stream fails or memory is wanting.
    ensures asked { (s : Status) → IsOwed (texts words.now) (I.view source.old) s → (result ≡ s) ⊎ IsFailure result }

    // The input is read in few reads.
    ensures reads { CountsAtMost (input_limit + 2) (I.view source.old).reads (I.view source.new).reads }
{
    match served(words) {
        Ok(request) => answer(alloc, &request, source, sink),
        Err(n) => refuse(alloc, Status::Usage(n), sink),
    }
}
