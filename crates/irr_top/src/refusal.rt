// The lines that tell of a refusal.
ghost use Rattle.std.specs.Prelude.{suc, ◌≡◌, IfOk, string_bytes};
ghost use Rattle.irr_top.specs.RefusalText.{HasLine, refusal_text};
ghost use Rattle.irr_top.specs.Outcome.{Ended};

use crate::status::{Kind, Status};
use irr_input::Reason;
use irr_io::{Sink, write_all};
use irr_memory::Memory;
use std::alloc::{AllocError, Global};

/// The line of a refusal that has one, with its line feed.
pub fn text_refusal(alloc: Global, status: &Status) -> Result<Vec<u8>, Memory>
    requires { HasLine status.now }
    ensures { IfOk result (λ text. text.items ≡ refusal_text status.now) }
{
    Ok(line(alloc, status)?.into_bytes())
}

fn line(alloc: Global, status: &Status) -> Result<String, AllocError>
    requires { HasLine status.now }
    ensures { IfOk result (λ text. string_bytes text ≡ refusal_text status.now) }
{
    match status {
        Status::Usage(n) => format!(in alloc; "usage {n}\n"),
        Status::BadInput { line, reason } => bad_line(alloc, *line, *reason),
        Status::TooLarge(kind) => large_line(alloc, *kind),
        Status::Done
        | Status::Rejected { .. }
        | Status::ReadFault
        | Status::WriteFault
        | Status::Memory => String::from_str(alloc, ""),
    }
}

// The line of a limit that was passed.
fn large_line(alloc: Global, kind: Kind) -> Result<String, AllocError>
    ensures { IfOk result (λ text. string_bytes text ≡ refusal_text (Status.TooLarge kind)) }
{
    match kind {
        Kind::Bytes => format!(in alloc; "too large: bytes\n"),
        Kind::Report(n) => format!(in alloc; "too large: report line {n}\n"),
        Kind::Rotations => format!(in alloc; "too large: rotations\n"),
        Kind::Denominator => format!(in alloc; "too large: denominator\n"),
        Kind::Centrings => format!(in alloc; "too large: centrings\n"),
        Kind::Order(n) => format!(in alloc; "too large: order {n}\n"),
    }
}

// The line of a faulty input.
fn bad_line(alloc: Global, line: u64, reason: Reason) -> Result<String, AllocError>
    ensures { IfOk result (λ text. string_bytes text ≡ refusal_text (Status.BadInput line reason)) }
{
    match reason {
        Reason::Shape(place) => {
            let column = column_of(place);
            format!(in alloc; "bad input line {line}: shape {column}\n")
        }
        Reason::Zero(place) => {
            let column = column_of(place);
            format!(in alloc; "bad input line {line}: zero {column}\n")
        }
        Reason::Range(place) => {
            let column = column_of(place);
            format!(in alloc; "bad input line {line}: range {column}\n")
        }
        Reason::Determinant => format!(in alloc; "bad input line {line}: determinant\n"),
        Reason::Missing => format!(in alloc; "bad input line {line}: missing\n"),
        Reason::Report => format!(in alloc; "bad input line {line}: report\n"),
        Reason::Singular => format!(in alloc; "bad input line {line}: singular\n"),
        Reason::NotInGroup => format!(in alloc; "bad input line {line}: not in group\n"),
    }
}

// The column of a place: columns count from 1.
fn column_of(place: u64) -> u128
    ensures { result ≡ suc place }
{
    u128::from(place) + 1
}

/// Writes a text, and ends with its status.
pub fn finish<O: Sink>(status: Status, text: &[u8], sink: &mut O) -> Status
    ensures { Ended status text.now (O.view sink.old) (O.view sink.new) result }
{
    match write_all(sink, text) {
        Ok(()) => status,
        Err(_) => Status::WriteFault,
    }
}

/// Writes the line of a refusal, and ends with it.
pub fn refuse<O: Sink>(alloc: Global, status: Status, sink: &mut O) -> Status
    requires { HasLine status }
    ensures { Ended status (refusal_text status) (O.view sink.old) (O.view sink.new) result }
{
    match text_refusal(alloc, &status) {
        Ok(text) => finish(status, &text, sink),
        Err(_) => Status::Memory,
    }
}
