// The lines of full representations.
ghost use Rattle.std.specs.Prelude.{◌≡◌, ◌++◌, OnOk, codes};
ghost use Rattle.std.specs.List.{flat_map};
ghost use Rattle.irr_text.specs.ReportText.{line, pieces};
ghost use Rattle.irr_report.specs.Printed.{numbered};
ghost use Rattle.irr_full_text.specs.Lines.{trace_word, matrix_text, representation_text};
ghost use Rattle.irr_full_text.specs.Reading.{Reading, Readings, IsPrintable, ArePrintable};

use crate::blocks::push_blocks;
use crate::numbers::push_value;
use irr_cyc::{Order, Scalar};
use irr_memory::Memory;
use irr_seitz::Op;
use irr_star::Full;
use std::alloc::Global;

/// Appends the lines of full representations. The error is want of memory.
pub(crate) fn push_fulls<S: Scalar>(
    alloc: Global,
    text: &mut Vec<u8>,
    order: &Order,
    fulls: &[Full<S>],
    ops: &[Op],
    gens: &[Op],
) -> Result<(), Memory>
    requires { Readings order.now.n ops.now gens.now fulls.now }
    ensures { (e : Readings order.now.n ops.now gens.now fulls.now) → OnOk result (text.new.items ≡ text.old.items
        ++ pieces e.count e.text) }
{
    for (i, full) in fulls.iter().enumerate() {
        push_full(alloc, text, order, i + 1, full, ops, gens)?;
    }
    Ok(())
}

// Appends the lines of a full representation: its dimension, its traces at the operations `ops`, and its matrices at
// `gens`.
fn push_full<S: Scalar>(
    alloc: Global,
    text: &mut Vec<u8>,
    order: &Order,
    number: usize,
    full: &Full<S>,
    ops: &[Op],
    gens: &[Op],
) -> Result<(), Memory>
    requires reading { Reading full.now }
    requires order { order.now.n ≡ full.now.order.n }
    requires operations { ArePrintable full.now.group ops.now }
    requires generators { ArePrintable full.now.group gens.now }
    ensures { (e : Reading full.now) → OnOk result (text.new.items ≡ text.old.items
        ++ representation_text e.number e.matrix ops.now gens.now number) }
{
    let dim = full.dim();
    text.extend_from_slice(format!(in alloc; "rep S{number} dim {dim}\n")?.as_bytes())?;
    push_traces(alloc, text, full, ops)?;
    push_matrices(alloc, text, order, full, gens)?;
    Ok(())
}

// Appends the line of the traces.
fn push_traces<S: Scalar>(
    alloc: Global,
    text: &mut Vec<u8>,
    full: &Full<S>,
    ops: &[Op],
) -> Result<(), Memory>
    requires reading { Reading full.now }
    requires operations { ArePrintable full.now.group ops.now }
    ensures { (e : Reading full.now) → OnOk result (text.new.items ≡ text.old.items
        ++ line (codes "char" ++ flat_map (trace_word e.number e.matrix) ops.now)) }
{
    text.extend_from_slice(b"char")?;
    for op in ops {
        let trace = full.trace(alloc, op)?;
        push_value(alloc, text, &trace)?;
    }
    text.push(b'\n')?;
    Ok(())
}

// Appends the lines of the matrices.
fn push_matrices<S: Scalar>(
    alloc: Global,
    text: &mut Vec<u8>,
    order: &Order,
    full: &Full<S>,
    gens: &[Op],
) -> Result<(), Memory>
    requires reading { Reading full.now }
    requires order { order.now.n ≡ full.now.order.n }
    requires generators { ArePrintable full.now.group gens.now }
    ensures { (e : Reading full.now) → OnOk result (text.new.items ≡ text.old.items
        ++ numbered (matrix_text e.number e.matrix) 1 gens.now) }
{
    for (i, op) in gens.iter().enumerate() {
        push_matrix(alloc, text, order, i + 1, full, op)?;
    }
    Ok(())
}

// Appends the line of the matrix at an operation.
fn push_matrix<S: Scalar>(
    alloc: Global,
    text: &mut Vec<u8>,
    order: &Order,
    number: usize,
    full: &Full<S>,
    op: &Op,
) -> Result<(), Memory>
    requires reading { Reading full.now }
    requires order { order.now.n ≡ full.now.order.n }
    requires operation { IsPrintable full.now.group op.now }
    ensures { (e : Reading full.now) → OnOk result (text.new.items ≡ text.old.items ++ matrix_text e.number e.matrix
        number op.now) }
{
    let blocks = full.blocks(alloc, op)?;
    text.extend_from_slice(format!(in alloc; "mat {number}")?.as_bytes())?;
    push_blocks(alloc, text, order, full.family(), &blocks)?;
    text.push(b'\n')?;
    Ok(())
}
