// Printing of reports.
ghost use Rattle.std.specs.Prelude.{ℕ, ◌≡◌, ◌++◌, IfOk, OnOk, length};
ghost use Rattle.irr_algebra.specs.Fin.{Fin};
ghost use Rattle.irr_theory.specs.Representations.{Representations};
ghost use Rattle.irr_space.specs.Operation.{Operation};
ghost use Rattle.irr_space.specs.PhaseTable.{PhaseTable, phases_at};
ghost use Rattle.irr_text.specs.ReportText.{report_text, list_report};
ghost use Rattle.irr_kvec.specs.WaveMeaning.{wave_vector};
ghost use Rattle.irr_report.specs.Content.{FitsTogether, content_of};
ghost use Rattle.irr_report.specs.OfList.{IsReportOfList};
ghost use Rattle.irr_report.specs.Printed.{numbered, head_text, operation_text, representation_text, printed_report};

use crate::lines::{push_operation, push_representation};
use crate::report::{RepText, Report};
use irr_cyc::Scalar;
use irr_kvec::Wave;
use irr_memory::Memory;
use irr_seitz::Op;
use std::alloc::Global;

/// The text of a report, version 1 (a form of this project's own): a line for each operation, and for each
/// representation its dimension, its character and a line for each matrix, row by row. Operations and
/// representations are numbered from 1.
///
/// Each representation has a character and a matrix for each operation, whose numbers have the report's
/// order; the matrices are square, with as many rows as `dim` says. The error is want of memory.
pub fn print_report<S: Scalar>(alloc: Global, r: &Report<S>) -> Result<Vec<u8>, Memory>
    requires { FitsTogether r.now }
    ensures text { IfOk result (λ text. text.items ≡ report_text (content_of r.now)) }
    ensures list { IfOk result (λ text. (h : ℕ) (ops : Fin h → Operation) (T : PhaseTable h) (L : Representations (phases_at T))
        → IsReportOfList r.now ops T L → text.items ≡ report_text (list_report (wave_vector r.now.wave) ops T L)) }
{
    let text = printed(alloc, r)?;
    Ok(text)
}

// The lines of a report.
fn printed<S: Scalar>(alloc: Global, r: &Report<S>) -> Result<Vec<u8>, Memory>
    ensures { IfOk result (λ text. text.items ≡ printed_report r.now) }
{
    let mut text = head(alloc, &r.wave, r.order, r.ops.len())?;
    push_operations(alloc, &mut text, &r.ops)?;
    let count = r.reps.len();
    text.extend_from_slice(format!(in alloc; "reps {count}\n")?.as_bytes())?;
    push_representations(alloc, &mut text, &r.reps)?;
    text.extend_from_slice(b"end\n")?;
    Ok(text)
}

// The lines before those of the operations.
fn head(alloc: Global, wave: &Wave, order: u32, count: usize) -> Result<Vec<u8>, Memory>
    ensures { IfOk result (λ text. text.items ≡ head_text wave.now order count) }
{
    let text = format!(in alloc; "report 1\nwave {wave}\norder {order}\nops {count}\n")?;
    Ok(text.into_bytes())
}

/// Appends a line for each operation, with its number, from 1, and its coordinate triplet. The error is want
/// of memory.
pub fn push_operations(alloc: Global, text: &mut Vec<u8>, ops: &[Op]) -> Result<(), Memory>
    ensures { OnOk result (text.new.items ≡ text.old.items ++ numbered operation_text 1 ops.now) }
{
    for (i, op) in ops.iter().enumerate() {
        push_operation(alloc, text, i + 1, op)?;
    }
    Ok(())
}

fn push_representations<S: Scalar>(
    alloc: Global,
    text: &mut Vec<u8>,
    reps: &[RepText<S>],
) -> Result<(), Memory>
    ensures { OnOk result (text.new.items ≡ text.old.items ++ numbered representation_text 1 reps.now) }
{
    for (i, rep) in reps.iter().enumerate() {
        push_representation(alloc, text, i + 1, rep)?;
    }
    Ok(())
}
