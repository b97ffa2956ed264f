// The lines of a report.
ghost use Rattle.std.specs.Prelude.{◌≡◌, ◌++◌, ◌<◌, OnOk};
ghost use Rattle.irr_report.specs.Printed.{value_word, values_text, row_entries, numbered, operation_text, character_text, matrix_text, representation_text};

use crate::report::RepText;
use irr_cyc::Scalar;
use irr_mat::Mat;
use irr_memory::Memory;
use irr_numeral::print_number;
use irr_seitz::Op;
use irr_triplet::print_triplet;
use std::alloc::Global;

/// Appends the line of an operation.
pub(crate) fn push_operation(
    alloc: Global,
    text: &mut Vec<u8>,
    number: usize,
    op: &Op,
) -> Result<(), Memory>
    ensures { OnOk result (text.new.items ≡ text.old.items ++ operation_text number op.now) }
{
    text.extend_from_slice(format!(in alloc; "op {number} ")?.as_bytes())?;
    let triplet = print_triplet(alloc, op)?;
    text.extend_from_slice(&triplet)?;
    text.push(b'\n')?;
    Ok(())
}

/// Appends the lines of a representation.
pub(crate) fn push_representation<S: Scalar>(
    alloc: Global,
    text: &mut Vec<u8>,
    number: usize,
    rep: &RepText<S>,
) -> Result<(), Memory>
    ensures { OnOk result (text.new.items ≡ text.old.items ++ representation_text number rep.now) }
{
    let dim = rep.family.dim;
    text.extend_from_slice(format!(in alloc; "rep S{number} dim {dim}\n")?.as_bytes())?;
    push_characters(alloc, text, &rep.chars)?;
    push_matrices(alloc, text, &rep.family.mats)
}

fn push_characters<S: Scalar>(alloc: Global, text: &mut Vec<u8>, chars: &[S]) -> Result<(), Memory>
    ensures { OnOk result (text.new.items ≡ text.old.items ++ character_text S.order_of S.value chars.now) }
{
    text.extend_from_slice(b"char")?;
    for x in chars {
        push_value(alloc, text, x)?;
    }
    text.push(b'\n')?;
    Ok(())
}

fn push_matrices<S: Scalar>(
    alloc: Global,
    text: &mut Vec<u8>,
    mats: &[Mat<S>],
) -> Result<(), Memory>
    ensures { OnOk result (text.new.items ≡ text.old.items ++ numbered matrix_text 1 mats.now) }
{
    for (i, m) in mats.iter().enumerate() {
        push_matrix(alloc, text, i + 1, m)?;
    }
    Ok(())
}

fn push_matrix<S: Scalar>(
    alloc: Global,
    text: &mut Vec<u8>,
    number: usize,
    m: &Mat<S>,
) -> Result<(), Memory>
    ensures { OnOk result (text.new.items ≡ text.old.items ++ matrix_text number m.now) }
{
    text.extend_from_slice(format!(in alloc; "mat {number}")?.as_bytes())?;
    for i in 0..m.rows() {
        push_row(alloc, text, m, i)?;
    }
    text.push(b'\n')?;
    Ok(())
}

// Appends a row of a matrix.
fn push_row<S: Scalar>(alloc: Global, text: &mut Vec<u8>, m: &Mat<S>, i: u32) -> Result<(), Memory>
    requires { i < m.now.rows }
    ensures { OnOk result (text.new.items ≡ text.old.items ++ values_text S.order_of S.value (row_entries m.now i)) }
{
    for j in 0..m.cols() {
        push_value(alloc, text, m.at(i, j))?;
    }
    Ok(())
}

// Appends a blank and a number.
fn push_value<S: Scalar>(alloc: Global, text: &mut Vec<u8>, x: &S) -> Result<(), Memory>
    ensures { OnOk result (text.new.items ≡ text.old.items ++ value_word S.order_of S.value x.now) }
{
    if x.is_zero() {
        text.extend_from_slice(b" 0")?;
        return Ok(());
    }
    let number = print_number(alloc, x)?;
    text.push(b' ')?;
    text.extend_from_slice(&number)?;
    Ok(())
}
